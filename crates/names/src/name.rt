// Names of jobs: what a line has to hold for each kind of key, and how a name is printed.
ghost use Rattle.std.specs.Prelude.{◌≡◌, ℕ, List, Some, IfOk, string_bytes, Result, refl};
ghost use Rattle.names.specs.declared.name.Fault.{Fault};
ghost use Rattle.names.specs.declared.name.Fault.TheVariants.{Refused};
ghost use Rattle.names.specs.Names.{number_named, row_named, number_written, row_written, number_expected, row_expected};

use order::address::Address;
use order::address::making::NoPlace;
use order::key::Key;
use order::row::Row;
use std::alloc::{AllocError, Global};
use std::fmt::Display;

// Why a line gives no name.
#[derive(Clone, Copy, PartialEq, Eq, Debug)]
pub enum Fault {
    Refused(NoPlace),
    Unreadable,
}

impl From<NoPlace> for Fault {
    ghost from_gives = { λ e r. r ≡ Refused e };

    fn from(e: NoPlace) -> Fault {
        Fault::Refused(e)
    }
}

// A kind of key whose keys are named by the numbers on a line.
pub trait Name: Key {
    ghost named: { List ℕ → Result Self Fault };

    ghost written: { Self → List ℕ };

    ghost expected: { List ℕ };

    // The key that these numbers name.
    // No `TryFrom`: neither a slice nor `u32` is ours, so no impl between them may be.
    fn from_numbers(numbers: &[u32]) -> Result<Self, Fault>
        ensures { result ≡ named numbers.now };

    // The name as it is printed.
    fn write(self, heap: Global) -> Result<String, AllocError>
        ensures { IfOk result (λ s. string_bytes s ≡ written self) };

    // What a line is expected to hold.
    fn expectation() -> &'static str
        ensures { result.now ≡ expected };
}

// A kind of name whose keys print as their names too, so that a report prints them into its text. A
// trait beside `Name`, since a kind may be read and named that prints otherwise, or not at all.
pub trait PrintedName: Name + Display {
    ghost writes: { (x : Self) → Self.Display.output x ≡ Some (Self.Name.written x) };
}

impl Name for u32 {
    ghost named = { number_named };

    ghost written = { number_written };

    ghost expected = { number_expected };

    fn from_numbers(numbers: &[u32]) -> Result<u32, Fault> {
        match numbers {
            [n] => Ok(*n),
            _ => Err(Fault::Unreadable),
        }
    }

    fn write(self, heap: Global) -> Result<String, AllocError> {
        format!(in heap; "{self}")
    }

    fn expectation() -> &'static str {
        "a number from 0 to 4294967295"
    }
}

impl PrintedName for u32 {
    ghost writes = { λ x. refl };
}

impl Name for Row {
    ghost named = { row_named };

    ghost written = { row_written };

    ghost expected = { row_expected };

    fn from_numbers(numbers: &[u32]) -> Result<Row, Fault> {
        let [aisle, bay, level] = numbers else {
            return Err(Fault::Unreadable);
        };
        let address = Address::new(*aisle, *bay, *level)?;
        Ok(Row::from(address))
    }

    fn write(self, heap: Global) -> Result<String, AllocError> {
        self.to_string(heap)
    }

    fn expectation() -> &'static str {
        "aisle, bay and level, three numbers from 0 to 4294967295"
    }
}

impl PrintedName for Row {
    ghost writes = { λ x. refl };
}
