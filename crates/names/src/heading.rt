// The first line of a list, which says of what kind its names are.
ghost use Rattle.std.specs.Prelude.{◌≡◌, IfOk, Some};
ghost use Rattle.names.specs.Text.{texts};
ghost use Rattle.names.specs.Headings.{complaint, heading_word, heading_line, headed};

use crate::text::words;
use std::alloc::{AllocError, Global};
use std::fmt;

// The kinds of names that there are.
#[derive(Clone, Copy, PartialEq, Eq, Debug)]
pub(crate) enum NameKind {
    Numbers,
    Addresses,
}

// Why a list says no kind: no line has a word on it, or the first one that has says something else.
#[derive(Clone, Copy, PartialEq, Eq, Debug)]
pub(crate) enum HeadingFault {
    Missing,
    Unknown,
}

impl fmt::Display for HeadingFault {
    ghost output = { λ e. Some (complaint e) };

    fn fmt<W: fmt::Write>(&self, f: &mut fmt::Formatter<W>) -> fmt::Result {
        f.write_str(match self {
            HeadingFault::Missing => "The first line is missing: it says numbers or addresses.",
            HeadingFault::Unknown => "The first line is unknown: it says numbers or addresses.",
        })
    }
}

// What the first line says, and the index of the line behind it.
#[derive(Clone, Copy, PartialEq, Eq, Debug)]
pub(crate) struct Heading {
    pub(crate) kind: NameKind,
    pub(crate) behind: usize,
}

// What a line of this one word says.
fn read_word(word: &[u8]) -> Result<NameKind, HeadingFault>
    ensures { result ≡ heading_word word.now }
{
    match word {
        b"numbers" => Ok(NameKind::Numbers),
        b"addresses" => Ok(NameKind::Addresses),
        _ => Err(HeadingFault::Unknown),
    }
}

// What a line of these words says, if there is a word on it.
fn read_words(words: &[&[u8]]) -> Option<Result<NameKind, HeadingFault>>
    ensures { result ≡ heading_line (texts words.now) }
{
    match words {
        [] => None,
        [word] => Some(read_word(word)),
        _ => Some(Err(HeadingFault::Unknown)),
    }
}

// The heading that the first line with a word on it gives; the outer error is want of memory.
// One error enum of both is no plainer: a fault is told, and only want of memory is handed on.
pub(crate) fn find_heading(
    heap: Global,
    lines: &[&[u8]],
) -> Result<Result<Heading, HeadingFault>, AllocError>
    ensures { IfOk result (λ h. h ≡ headed 0 (texts lines.now)) }
{
    for (i, line) in lines.iter().enumerate() {
        let words = words(heap, line)?;
        if let Some(said) = read_words(&words) {
            let behind = i + 1;
            return Ok(said.map(|kind| Heading { kind, behind }));
        }
    }
    Ok(Err(HeadingFault::Missing))
}
