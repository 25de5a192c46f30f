// What is told of a list: its faults, its names in the board's order, and a line that sums up.
ghost use Rattle.std.specs.Prelude.{◌≡◌, ◌++◌, IfOk, Some, None as Nothing, string_bytes, OnOk};
ghost use Rattle.names.specs.Text.{texts};
ghost use Rattle.names.specs.Reports.{refused_count, fault_line, fault_lines, repeats as repeats_key, doubles as doubles_in, name_line, name_lines, summary, summed, told, Reported, TellsUnder, Tells};

use crate::heading::{Heading, NameKind, find_heading};
use crate::listing::{LineFault, read_lines};
use crate::name::{Fault, PrintedName};
use crate::text::lines;
use order::key::Key;
use order::lists::arrange;
use order::row::Row;
use std::alloc::{AllocError, Global};
use std::fmt;

// Whether a key is the one in front of it once more.
fn repeats<K: Key>(previous: Option<K>, key: K) -> bool
    ensures { result ≡ repeats_key K.order previous key }
{
    previous.is_some_and(|previous| previous.compare(key).is_eq())
}

// Adds the line for one fault.
// Not a `Display` of the fault, since what was expected hangs on the kind of names.
fn push_fault(out: &mut String, fault: LineFault, expected: &str) -> Result<(), AllocError>
    ensures { OnOk result (string_bytes out.new ≡ string_bytes out.old ++ fault_line expected.now fault) }
{
    let line = fault.line;
    match fault.fault {
        Fault::Refused(refusal) => writeln!(out, "line {line}: refused {}", refusal.number()),
        Fault::Unreadable => writeln!(out, "line {line}: unreadable, expected {expected}"),
    }
}

// Adds the lines for the faults.
fn push_faults(out: &mut String, faults: &[LineFault], expected: &str) -> Result<(), AllocError>
    ensures { OnOk result (string_bytes out.new ≡ string_bytes out.old ++ fault_lines expected.now faults.now) }
{
    for fault in faults {
        push_fault(out, *fault, expected)?;
    }
    Ok(())
}

// Adds the line for the key at one place, marked where it is a double.
fn push_name<K: PrintedName>(
    out: &mut String,
    place: usize,
    double: bool,
    key: K,
) -> Result<(), AllocError>
    ensures { OnOk result (string_bytes out.new ≡ string_bytes out.old ++ name_line K.Name.written place double key) }
{
    let mark = if double { " double" } else { "" };
    writeln!(out, "{place}: {key}{mark}")
}

// Adds the lines for the keys, in their order. The key in front is carried along: the first has none,
// so that a chain over neighbours is no plainer.
fn push_names<K: PrintedName>(out: &mut String, keys: &[K]) -> Result<(), AllocError>
    ensures { OnOk result (string_bytes out.new ≡ string_bytes out.old ++ name_lines K.Key.order K.Name.written Nothing 1 keys.now) }
{
    let mut previous = None;
    for (i, key) in keys.iter().enumerate() {
        push_name(out, i + 1, repeats(previous, *key), *key)?;
        previous = Some(*key);
    }
    Ok(())
}

// How many keys are the one in front once more.
fn count_doubles<K: Key>(keys: &[K]) -> usize
    ensures { result ≡ doubles_in K.order keys.now }
{
    keys.iter()
        .zip(keys.iter().skip(1))
        .filter(|(previous, key)| previous.compare(**key).is_eq())
        .count()
}

// How many of the faults are refusals.
fn count_refused(faults: &[LineFault]) -> usize
    ensures { result ≡ refused_count faults.now }
{
    faults
        .iter()
        .filter(|f| matches!(f.fault, Fault::Refused(_)))
        .count()
}

// What a list comes to: how many names, how many of them doubles, and how many lines with faults.
#[derive(Clone, Copy, PartialEq, Eq, Debug)]
struct Summary {
    names: usize,
    doubles: usize,
    refused: usize,
    unreadable: usize,
}

impl Summary {
    // The summary of a list of names in order, and of its faults.
    fn of<K: Key>(keys: &[K], faults: &[LineFault]) -> Summary
        ensures { result ≡ summed K.order keys.now faults.now }
    {
        let refused = count_refused(faults);
        Summary {
            names: keys.len(),
            doubles: count_doubles(keys),
            refused,
            unreadable: faults.len() - refused,
        }
    }
}

impl fmt::Display for Summary {
    ghost output = { λ s. Some (summary s) };

    fn fmt<W: fmt::Write>(&self, f: &mut fmt::Formatter<W>) -> fmt::Result {
        write!(
            f,
            "names {}, doubles {}, refused {}, unreadable {}",
            self.names, self.doubles, self.refused, self.unreadable
        )
    }
}

// Faults, names and the last line, of a list that was read and arranged.
fn tell<K: PrintedName>(
    heap: Global,
    keys: &[K],
    faults: &[LineFault],
) -> Result<String, AllocError>
    ensures { IfOk result (λ s. string_bytes s ≡ told K.Key.order K.Name.written K.Name.expected keys.now faults.now) }
{
    let mut out = String::new(heap);
    push_faults(&mut out, faults, K::expectation())?;
    push_names(&mut out, keys)?;
    writeln!(out, "{}", Summary::of(keys, faults))?;
    Ok(out)
}

// What is told of the names on the lines from this index on.
fn report_names<K: PrintedName>(
    heap: Global,
    lines: &[&[u8]],
    from: usize,
) -> Result<String, AllocError>
    ensures { IfOk result (λ s. Reported K.Key.order K.Name.named K.Name.written K.Name.expected from (texts lines.now) (string_bytes s)) }
{
    let listing = read_lines::<K>(heap, lines, from)?;
    let keys = arrange(heap, &listing.names)?;
    tell(heap, &keys, &listing.faults)
}

// What is told under a heading of the lines behind it. A match, and no closure: each kind calls one
// generic function at a type of its own.
fn report_under(heap: Global, heading: Heading, lines: &[&[u8]]) -> Result<String, AllocError>
    ensures { IfOk result (λ s. TellsUnder heading.kind heading.behind (texts lines.now) (string_bytes s)) }
{
    match heading.kind {
        NameKind::Numbers => report_names::<u32>(heap, lines, heading.behind),
        NameKind::Addresses => report_names::<Row>(heap, lines, heading.behind),
    }
}

// What is told of a text: its first line says of what kind its names are. A text is bytes, so that any
// input ends well: a line that is no UTF-8 is unreadable.
pub fn report(heap: Global, text: &[u8]) -> Result<String, AllocError>
    ensures { IfOk result (λ s. Tells text.now (string_bytes s)) }
{
    let lines = lines(heap, text)?;
    match find_heading(heap, &lines)? {
        Ok(heading) => report_under(heap, heading, &lines),
        // With room for either sentence, so that one allocation does.
        Err(fault) => {
            let mut told = String::with_capacity(heap, 64)?;
            writeln!(told, "{fault}")?;
            Ok(told)
        }
    }
}
