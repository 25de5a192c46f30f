// A list of names, read line by line.
ghost use Rattle.std.specs.Prelude.{◌≡◌, ◌+◌, ◌++◌, drop, IfOk, OnOk};
ghost use Rattle.names.specs.Text.{texts};
ghost use Rattle.names.specs.Listings.{entry as entry_on, names as names_in, faults as faults_in, name_of, fault_of};

use crate::name::{Fault, Name};
use crate::text::{numbers, words};
use std::alloc::{AllocError, Global};

// A line that gives no name: its number in the text, from 1, and why.
#[derive(Clone, Copy, PartialEq, Eq, Debug)]
pub struct LineFault {
    pub line: usize,
    pub fault: Fault,
}

// What the lines of a list gave: its names in their order, and its faults in theirs.
#[derive(Drop)]
pub struct Listing<K> {
    pub names: Vec<K>,
    pub faults: Vec<LineFault>,
}

// What one line gives; the outer error is want of memory.
// One error enum of both is no plainer: a fault is noted, and only want of memory ends the reading.
fn entry<K: Name>(heap: Global, line: &[u8]) -> Result<Result<Option<K>, Fault>, AllocError>
    ensures { IfOk result (λ e. e ≡ entry_on K.named line.now) }
{
    let words = words(heap, line)?;
    let Some(ns) = numbers(heap, &words)? else {
        return Ok(Err(Fault::Unreadable));
    };
    if ns.is_empty() {
        return Ok(Ok(None));
    }
    Ok(K::from_numbers(&ns).map(Some))
}

impl<K: Name> Listing<K> {
    // Adds what the line with this number gives.
    fn note(&mut self, line: usize, entry: Result<Option<K>, Fault>) -> Result<(), AllocError>
        ensures names { OnOk result (self.new.names.items ≡ self.old.names.items ++ name_of entry) }
        ensures faults { OnOk result (self.new.faults.items ≡ self.old.faults.items ++ fault_of line entry) }
    {
        match entry {
            Ok(None) => {}
            Ok(Some(k)) => self.names.push(k)?,
            Err(fault) => self.faults.push(LineFault { line, fault })?,
        }
        Ok(())
    }
}

// What the lines from this index on give. A line's number is one more than its index. Lines and index
// are two parameters: a struct of them would be made here and taken apart here.
pub fn read_lines<K: Name>(
    heap: Global,
    lines: &[&[u8]],
    from: usize,
) -> Result<Listing<K>, AllocError>
    ensures names { IfOk result (λ l. l.names.items ≡ names_in K.named (texts (drop from lines.now))) }
    ensures faults { IfOk result (λ l. l.faults.items ≡ faults_in K.named (from + 1) (texts (drop from lines.now))) }
{
    let mut listing = Listing {
        names: Vec::new(heap),
        faults: Vec::new(heap),
    };
    for (i, line) in lines.iter().enumerate().skip(from) {
        let entry = entry::<K>(heap, line)?;
        listing.note(i + 1, entry)?;
    }
    Ok(listing)
}
