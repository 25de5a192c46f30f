// Names as they are written, and whole lists of them, by what is told.
use names::name::Name;
use names::report::report;
use order::row::Row;
use std::test::Fail;

#[test]
fn numbers_in_order(rt: HostRuntime) -> Result<(), Fail> {
    let text = b"numbers\n7\n\n4294967295\n10\n-3\n7\r\n 9 \n4294967296\n0\n5 6\n";
    let told = report(rt.alloc(), text)?;
    assert_eq!(rt;
        told.as_str(),
        "line 6: unreadable, expected a number from 0 to 4294967295\nline 9: unreadable, expected a number from 0 to 4294967295\nline 11: unreadable, expected a number from 0 to 4294967295\n1: 0\n2: 7\n3: 7 double\n4: 9\n5: 10\n6: 4294967295\nnames 6, doubles 1, refused 0, unreadable 3\n"
    );
    Ok(())
}

#[test]
fn first_line_missing_or_unknown(rt: HostRuntime) -> Result<(), Fail> {
    let missing = report(rt.alloc(), b"\n \n")?;
    assert_eq!(rt;
        missing.as_str(),
        "The first line is missing: it says numbers or addresses.\n"
    );
    let unknown = report(rt.alloc(), b"names\n5\n")?;
    assert_eq!(rt;
        unknown.as_str(),
        "The first line is unknown: it says numbers or addresses.\n"
    );
    Ok(())
}

#[test]
fn names_are_written(rt: HostRuntime) -> Result<(), Fail> {
    assert_eq!(rt; 4294967295u32.write(rt.alloc())?.as_str(), "4294967295");
    let row = Row {
        aisle: 2,
        bay: 14,
        level: 5,
    };
    assert_eq!(rt; row.write(rt.alloc())?.as_str(), "2 14 5");
    Ok(())
}
