// The bytes of a text as lines, words and numbers.
ghost use Rattle.std.specs.Prelude.{◌≡◌, IfOk, vec_items};
ghost use Rattle.std.specs.Option.{option_map};
ghost use Rattle.names.specs.Text.{texts, blank, lines as lines_of, words as words_of, with_digit, number as number_in, numbers as numbers_in};

use std::alloc::{AllocError, Global};

// What stands between the line feeds, in order.
pub(crate) fn lines<'a>(heap: Global, text: &'a [u8]) -> Result<Vec<&'a [u8]>, AllocError>
    ensures { IfOk result (λ v. texts v.items ≡ lines_of text.now) }
{
    text.split(|b| *b == b'\n').collect(heap)
}

// Whether words end at this byte: a blank, a tab or a carriage return.
fn is_blank(b: u8) -> bool
    ensures { result ≡ blank b }
{
    matches!(b, b' ' | b'\t' | b'\r')
}

// The words of a line: what stands between its blanks, but for what is empty.
pub(crate) fn words<'a>(heap: Global, line: &'a [u8]) -> Result<Vec<&'a [u8]>, AllocError>
    ensures { IfOk result (λ v. texts v.items ≡ words_of line.now) }
{
    line.split(|b| is_blank(*b))
        .filter(|w| !w.is_empty())
        .collect(heap)
}

// A number with one more digit, if the byte is one and the number fits.
fn push_digit(n: u32, b: u8) -> Option<u32>
    ensures { result ≡ with_digit n b }
{
    if !b.is_ascii_digit() {
        return None;
    }
    n.checked_mul(10)?.checked_add(u32::from(b - b'0'))
}

// The number that a word of digits writes.
pub(crate) fn number(word: &[u8]) -> Option<u32>
    ensures { result ≡ number_in word.now }
{
    if word.is_empty() {
        return None;
    }
    word.iter().try_fold(0, |n, b| push_digit(n, *b))
}

// The numbers that these words write, if each writes one.
// A loop: tried as a `collect` into an `Option`, of whose value the library says nothing, so that the
// proof did not close.
pub(crate) fn numbers(heap: Global, words: &[&[u8]]) -> Result<Option<Vec<u32>>, AllocError>
    ensures { IfOk result (λ o. option_map vec_items o ≡ numbers_in (texts words.now)) }
{
    let mut numbers = Vec::new(heap);
    for word in words {
        let Some(n) = number(word) else {
            return Ok(None);
        };
        numbers.push(n)?;
    }
    Ok(Some(numbers))
}
