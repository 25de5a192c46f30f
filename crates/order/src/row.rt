// The plain row of a rack address as a key.
ghost use Rattle.std.specs.Prelude.{Some};
ghost use Rattle.order.specs.Rows.{row_order, row_text};
ghost use Rattle.std.proofs.Common.{rules};

use crate::key::Key;
use std::cmp::Ordering;
use std::fmt;

// The three bare numbers of a rack address, in range or not: what memory holds of one. The order of
// the fields is the order of rows: by aisle, then bay, then level.
#[derive(Clone, Copy, PartialEq, Eq, PartialOrd, Ord, Debug)]
pub struct Row {
    pub aisle: u8,
    pub bay: u16,
    pub level: u8,
}

impl Key for Row {
    ghost order = { row_order };

    ghost laws = { record { itself = Prim.search rules; equal = Prim.search rules; turns = Prim.search rules; carries = Prim.search rules } };

    fn compare(self, other: Row) -> Ordering {
        self.cmp(&other)
    }
}

impl fmt::Display for Row {
    ghost output = { λ row. Some (row_text row) };

    fn fmt<W: fmt::Write>(&self, f: &mut fmt::Formatter<W>) -> fmt::Result {
        write!(f, "{} {} {}", self.aisle, self.bay, self.level)
    }
}
