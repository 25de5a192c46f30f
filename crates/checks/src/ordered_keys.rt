// Kinds of key at their edges, and lists of keys.
use order::address::Address;
use order::address::making::NoPlace;
use order::key::Key;
use order::lists::{arrange, rises};
use order::row::Row;
use std::cmp::Ordering;
use std::test::Fail;
use theory::theory_holds;

fn is_place(aisle: u32, bay: u32, level: u32) -> bool {
    Address::new(aisle, bay, level).is_ok()
}

#[test]
fn address_edges(rt: HostRuntime) {
    for (aisle, place) in [
        (0, false),
        (1, true),
        (99, true),
        (100, false),
        (256, false),
    ] {
        assert_eq!(rt; is_place(aisle, 5, 5), place);
    }
    for (bay, place) in [
        (0, false),
        (1, true),
        (999, true),
        (1000, false),
        (65536, false),
    ] {
        assert_eq!(rt; is_place(5, bay, 5), place);
    }
    for (level, place) in [(0, false), (1, true), (30, true), (31, false), (257, false)] {
        assert_eq!(rt; is_place(5, 5, level), place);
    }
}

#[test]
fn address_keeps_its_numbers(rt: HostRuntime) {
    assert_eq!(rt;
        Address::new(99, 999, 30).map(Row::from),
        Ok(Row {
            aisle: 99,
            bay: 999,
            level: 30,
        })
    );
}

#[test]
fn no_place_is_ten(rt: HostRuntime) {
    let refusal = Address::new(1, 1, 31).err();
    assert_eq!(rt; refusal.map(NoPlace::number), Some(10));
}

#[test]
fn numbers_at_their_ends(rt: HostRuntime) {
    assert_eq!(rt; 0u32.compare(u32::MAX), Ordering::Less);
    assert_eq!(rt; u32::MAX.compare(0), Ordering::Greater);
    assert_eq!(rt; u32::MAX.compare(u32::MAX), Ordering::Equal);
    assert_eq!(rt; 0u32.compare(0), Ordering::Equal);
}

#[test]
fn rows_by_aisle_then_bay_then_level(rt: HostRuntime) {
    let low = Row {
        aisle: 2,
        bay: 900,
        level: 9,
    };
    let high = Row {
        aisle: 10,
        bay: 1,
        level: 1,
    };
    assert_eq!(rt; low.compare(high), Ordering::Less);
    assert_eq!(rt; Row { bay: 901, ..low }.compare(low), Ordering::Greater);
    assert_eq!(rt; low.compare(Row { level: 10, ..low }), Ordering::Less);
    assert_eq!(rt; low.compare(low), Ordering::Equal);
}

#[test]
fn equal_keys_do_not_rise(rt: HostRuntime) {
    assert!(rt; rises::<u32>(&[]));
    assert!(rt; rises(&[5u32]));
    assert!(rt; rises(&[0u32, 5, u32::MAX]));
    assert!(rt; !rises(&[5u32, 5]));
    assert!(rt; !rises(&[5u32, 4]));
}

#[test]
fn arrangement_keeps_doubles(rt: HostRuntime) -> Result<(), Fail> {
    let keys = arrange(rt.alloc(), &[7u32, 0, 7, u32::MAX, 5])?;
    assert_eq!(rt; keys.as_slice(), [0, 5, 7, 7, u32::MAX].as_slice());
    Ok(())
}

#[test]
fn theory_holds_for_both_kinds(rt: HostRuntime) {
    assert_eq!(rt; theory_holds::<u32, u8, bool>(3, 5), Ordering::Less);
    let low = Row {
        aisle: 2,
        bay: 14,
        level: 5,
    };
    let high = Row {
        aisle: 10,
        bay: 1,
        level: 1,
    };
    assert_eq!(rt; theory_holds::<Row, u8, bool>(high, low), Ordering::Greater);
}
