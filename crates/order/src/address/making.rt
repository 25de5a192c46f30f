// How an address comes to be, and what it is made of.
ghost use Rattle.std.specs.Prelude.{◌≡◌};
ghost use Rattle.order.specs.Addresses.{row_of, rows_of, placed, refusal_number};

use super::Address;
use crate::row::Row;

// The refusal 'no place': no address has these numbers.
#[derive(Clone, Copy, PartialEq, Eq, Debug)]
pub struct NoPlace;

impl NoPlace {
    // The number by which the refusal is told. A method, and no `From`: `refusal.number()`
    // says which number it is, `u8::from(refusal)` would not.
    pub fn number(self) -> u8
        ensures { result ≡ refusal_number self }
    {
        10
    }
}

impl Address {
    // The address with these numbers; refused exactly if one of them is outside its range.
    pub fn new(aisle: u32, bay: u32, level: u32) -> Result<Address, NoPlace>
        ensures { rows_of result ≡ placed aisle bay level }
    {
        if (1..=99).contains(&aisle) && (1..=999).contains(&bay) && (1..=30).contains(&level) {
            Ok(Address {
                aisle: aisle as u8,
                bay: bay as u16,
                level: level as u8,
            })
        } else {
            Err(NoPlace)
        }
    }
}

// The bare numbers, with nothing to test.
impl From<Address> for Row {
    ghost from_gives = { λ address row. row ≡ row_of address };

    fn from(address: Address) -> Row {
        Row {
            aisle: address.aisle,
            bay: address.bay,
            level: address.level,
        }
    }
}
