//! Formats the rows of the profile.
ghost use Rattle.std.specs.Prelude.{◌≡◌, ◌++◌, [], false, IfOk, IsOk, OnOk, codes, option_map};
ghost use Rattle.std.specs.Prelude.{decimal, string_bytes};
ghost use Rattle.dap_profile.specs.PlaceSteps.{steps_of};
ghost use Rattle.dap_profile.specs.Profile.{want_word};
ghost use Rattle.dap_profile.specs.ProfileRows.{row_of};
ghost use Rattle.dap_profile.specs.RowLines.{asked_line, has_number, kind_word, lines_of};
ghost use Rattle.dap_profile.specs.RowLines.{messages_words};
ghost use Rattle.dap_profile.specs.RowLines.{need_word, place_words, row_line};

use crate::{Kind, Place, Row, profile_rows};
use itoa::Buffer;
use std::alloc::{AllocError, Global};

/// Returns the word for a kind of message.
fn kind_word(kind: Option<Kind>) -> &'static str
    ensures { result.now ≡ kind_word kind }
{
    match kind {
        Some(kind) => kind.word(),
        None => "*",
    }
}

/// Returns whether the member is required (`needed`) or may be absent (`optional`), between spaces.
fn need_word(needed: bool) -> &'static str
    ensures { result.now ≡ need_word needed }
{
    if needed { " needed " } else { " optional " }
}

/// Appends two texts.
fn push_both(out: &mut String, first: &str, second: &str) -> Result<(), AllocError>
    ensures { OnOk result
        (string_bytes out.new ≡ string_bytes out.old ++ first.now ++ second.now) }
{
    out.push_str(first)?;
    out.push_str(second)
}

/// Appends the names of a member and of a member inside it, separated by a dot.
fn push_inner(out: &mut String, outer: &str, member: &str) -> Result<(), AllocError>
    ensures { OnOk result (string_bytes out.new
        ≡ string_bytes out.old ++ outer.now ++ codes "." ++ member.now) }
{
    out.push_str(outer)?;
    push_both(out, ".", member)
}

/// Appends a path, such as `body.stackFrames[].id`.
fn push_place(out: &mut String, place: Place) -> Result<(), AllocError>
    ensures { OnOk result (string_bytes out.new
        ≡ string_bytes out.old ++ place_words (steps_of place)) }
{
    match place {
        Place::Member(member) => out.push_str(member),
        Place::Inner(outer, member) => push_inner(out, outer, member),
        Place::Element(outer, list) => {
            push_inner(out, outer, list)?;
            out.push_str("[]")
        }
        Place::Part(outer, list, member) => {
            push_inner(out, outer, list)?;
            push_both(out, "[].", member)
        }
        Place::Deep(outer, inner, member) => {
            push_inner(out, outer, inner)?;
            push_both(out, ".", member)
        }
    }
}

/// Appends the kind and the name of the messages to which a row applies.
fn push_messages(out: &mut String, row: &Row) -> Result<(), AllocError>
    ensures { OnOk result (string_bytes out.new
        ≡ string_bytes out.old ++ messages_words (row_of row.now)) }
{
    out.push_str(kind_word(row.kind))?;
    push_both(out, " ", row.name.unwrap_or("*"))
}

/// Appends the number of a row, and the messages to which it applies.
fn push_head(out: &mut String, row: &Row) -> Result<(), AllocError>
    ensures { OnOk result (string_bytes out.new ≡ string_bytes out.old
        ++ decimal (row_of row.now).number ++ codes " " ++ messages_words (row_of row.now)) }
{
    let mut digits = Buffer::new();
    out.push_str(digits.format(row.number))?;
    out.push_str(" ")?;
    push_messages(out, row)
}

/// Appends whether the member of a row is required, the expected type, and LF.
fn push_tail(out: &mut String, row: &Row) -> Result<(), AllocError>
    ensures { OnOk result (string_bytes out.new ≡ string_bytes out.old
        ++ need_word (row_of row.now).needed ++ want_word (row_of row.now).want ++ codes "\n") }
{
    out.push_str(need_word(row.needed))?;
    push_both(out, row.want.word(), "\n")
}

/// Appends the line of a row.
fn push_row(out: &mut String, row: &Row) -> Result<(), AllocError>
    ensures { OnOk result (string_bytes out.new
        ≡ string_bytes out.old ++ row_line (row_of row.now)) }
{
    push_head(out, row)?;
    out.push_str(" ")?;
    push_place(out, row.place)?;
    push_tail(out, row)
}

/// Returns whether a row has the number that this argument writes, or no number is given.
fn has_number(row: &Row, number: Option<&str>) -> bool
    ensures { result ≡ has_number (option_map (λ s. s.now) number.entry) (row_of row.now) }
{
    match number {
        Some(text) => Buffer::new().format(row.number) == text,
        None => true,
    }
}

/// Appends the line of a row if it is requested.
fn push_asked(out: &mut String, row: &Row, number: Option<&str>) -> Result<(), AllocError>
    ensures line { OnOk result (string_bytes out.new
        ≡ string_bytes out.old
        ++ asked_line (option_map (λ s. s.now) number.entry) (row_of row.now)) }
    ensures skipped { has_number (option_map (λ s. s.now) number.entry) (row_of row.now) ≡ false
        → IsOk result }
{
    if has_number(row, number) {
        push_row(out, row)
    } else {
        Ok(())
    }
}

/// Returns the rows of the profile as lines, or only the row with the number that the argument
/// writes.
///
/// A line contains the number of the row and the kind and name of the messages to which it applies
/// (`*` for any). Its path follows, whether the member is required, and the expected type. If no
/// row has the number, the result is empty and nothing is allocated.
///
/// # Errors
///
/// An allocation failed.
pub fn row_lines(alloc: Global, number: Option<&str>) -> Result<String, AllocError>
    ensures lines { IfOk result (λ lines. string_bytes lines
        ≡ lines_of (option_map (λ s. s.now) number.entry)) }
    ensures none { lines_of (option_map (λ s. s.now) number.entry) ≡ [] → IsOk result }
{
    let mut out = String::new(alloc);
    let rows: &[Row] = profile_rows();
    for row in rows {
        push_asked(&mut out, row, number)?;
    }
    Ok(out)
}
