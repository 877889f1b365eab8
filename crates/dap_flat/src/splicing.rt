//! Copies a text with other numbers at its marks.
ghost use Rattle.std.specs.Prelude.{◌≡◌, ◌+◌, ◌-◌, ◌++◌, ℕ, List, [], length, take, drop, IfOk, OnOk};
ghost use Rattle.std.specs.{Prelude.{OnErr, slice_index_or}, Fmt.signed_decimal};
ghost use Rattle.dap_flat.specs.Lengths.{IsLengthWithin, Spends};
ghost use Rattle.dap_flat.specs.Marks.{Extends, digits_length, numbers_length, spliced};

use crate::digits::signed_length;
use crate::lengths::first_number;
use crate::marks::Mark;
use itoa::Buffer;
use std::alloc::AllocError;

/// Appends a text with the i-th number in place of that of the i-th mark. The places are counted
/// from the start of the text. A mark after the last number keeps its own. If
/// [`write_marked`](crate::write_marked) wrote the text and the marks, this is the text of the
/// document with these ids.
///
/// After an error the items of `out` are unchanged; its capacity may have grown.
pub fn splice(
    text: &[u8],
    marks: &[Mark],
    numbers: &[i64],
    out: &mut Vec<u8>,
) -> Result<(), AllocError>
    ensures text { OnOk result
        (out.new.items ≡ out.old.items ++ spliced 0 text.now marks.now numbers.now) }
    ensures err { OnErr result (out.new.items ≡ out.old.items) }
{
    let len = out.len();
    let copied = copy_spliced(text, marks, numbers, out);
    if copied.is_err() {
        out.truncate(len);
    }
    copied
}

/// Appends the text with other numbers. After an error, some bytes may have been appended.
#[tactic(auto, using(crate::proofs::Marked::extends_more))]
fn copy_spliced(
    text: &[u8],
    marks: &[Mark],
    numbers: &[i64],
    out: &mut Vec<u8>,
) -> Result<(), AllocError>
    ensures text { OnOk result
        (out.new.items ≡ out.old.items ++ spliced 0 text.now marks.now numbers.now) }
    ensures err { OnErr result (Extends out.old.items out.new.items) }
{
    let mut left = text;
    let mut at = 0;
    let mut rest = numbers;
    for mark in marks {
        copy_to_mark(left, at, mark, rest, out)?;
        left = after_mark(left, at, mark);
        at = end_of(mark)?;
        rest = after_first(rest);
    }
    out.extend_from_slice(left)
}

/// Returns the numbers after the first one.
#[inline(always)]
fn after_first(numbers: &[i64]) -> &[i64]
    ensures { result.now ≡ drop 1 numbers.now }
{
    match numbers {
        [] => numbers,
        [_, rest @ ..] => rest,
    }
}

/// Appends the text before a mark and the first number, or its own number if there is none.
#[inline(always)]
#[tactic(auto, using(crate::proofs::Marked::extends_more))]
fn copy_to_mark(
    text: &[u8],
    at: usize,
    mark: &Mark,
    numbers: &[i64],
    out: &mut Vec<u8>,
) -> Result<(), AllocError>
    ensures ok { OnOk result (out.new.items
        ≡ out.old.items ++ (take (mark.now.at - at) text.now
        ++ signed_decimal (slice_index_or numbers.now 0 mark.now.number))) }
    ensures err { OnErr result (Extends out.old.items out.new.items) }
{
    let number = first_number(numbers, mark.number);
    let mut buffer = Buffer::new();
    out.extend_from_slice(first_bytes(text, mark.at.saturating_sub(at)))?;
    out.extend_from_slice(buffer.format(number).as_bytes())
}

/// Returns the text after the number of a mark.
#[inline(always)]
fn after_mark<'t>(text: &'t [u8], at: usize, mark: &Mark) -> &'t [u8]
    ensures { result.now ≡ drop (digits_length mark.now) (drop (mark.now.at - at) text.now) }
{
    let marked = bytes_after(text, mark.at.saturating_sub(at));
    bytes_after(marked, signed_length(mark.number))
}

/// Returns the place after the number of a mark, or an error if no text is so long.
#[inline(always)]
fn end_of(mark: &Mark) -> Result<usize, AllocError>
    ensures { IfOk result (λ end. end ≡ mark.now.at + digits_length mark.now) }
{
    mark.at
        .checked_add(signed_length(mark.number))
        .ok_or(AllocError)
}

/// Returns the first bytes of a text, or all of it if it is shorter.
#[inline(always)]
fn first_bytes(text: &[u8], count: usize) -> &[u8]
    ensures { result.now ≡ take count text.now }
{
    if count < text.len() {
        &text[..count]
    } else {
        text
    }
}

/// Returns the bytes after the first ones, or none if the text is shorter.
#[inline(always)]
fn bytes_after(text: &[u8], count: usize) -> &[u8]
    ensures { result.now ≡ drop count text.now }
{
    if count < text.len() {
        &text[count..]
    } else {
        &[]
    }
}

/// Returns the length of the text that [`splice`] appends for a text of this length, or `None` if
/// it is above the limit. The text must have the numbers of the marks at their places. Does not
/// allocate.
pub fn spliced_length(len: usize, marks: &[Mark], numbers: &[i64], limit: usize) -> Option<usize>
    ensures { (text : List ℕ) → length text ≡ len → spliced 0 text marks.now [] ≡ text
        → IsLengthWithin limit (spliced 0 text marks.now numbers.now) result }
{
    let between = spend_numbers(len, marks, &[])?;
    let left = spend_numbers(limit.checked_sub(between)?, marks, numbers)?;
    Some(limit - left)
}

/// Subtracts the length of the numbers at marks. Returns `None` if fewer bytes are left.
fn spend_numbers(left: usize, marks: &[Mark], numbers: &[i64]) -> Option<usize>
    ensures { Spends left (numbers_length marks.now numbers.now) result }
{
    let mut left = left;
    let mut rest = numbers;
    for mark in marks {
        left = left.checked_sub(signed_length(first_number(rest, mark.number)))?;
        rest = after_first(rest);
    }
    Some(left)
}
