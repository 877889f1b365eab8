//! The parts of the lines that report differences.
ghost use Rattle.std.specs.Prelude.{◌≡◌, ◌++◌, IfOk, OnOk, decimal, string_bytes};
ghost use Rattle.dap_diff.specs.Diffs.{head_text, kind_word, leaf_lines, side_word};
ghost use Rattle.dap_message.specs.Message.{doc_of};
ghost use Rattle.dap_diff.specs.RecordLines.{place_line, record_text};

use crate::reading::plain_tree;
use dap_difference::difference_text;
use dap_message::{AnyMessage, Kind, Message, Side};
use dap_tree::{Scratch, Tree, read_tree_with, write_tree};
use itoa::Buffer;
use std::alloc::{AllocError, Global};

/// Returns the marker of a side, followed by a space.
fn side_word(side: Side) -> &'static str
    ensures { result.now ≡ side_word side }
{
    match side {
        Side::Client => "> ",
        Side::Adapter => "< ",
    }
}

/// Returns the word for a kind, followed by a space.
fn kind_word(kind: Kind) -> &'static str
    ensures { result.now ≡ kind_word kind }
{
    match kind {
        Kind::Request => "request ",
        Kind::Response => "response ",
        Kind::Event => "event ",
    }
}

/// Returns the head of a message, such as `< event "stopped"`.
pub fn head_of<M: AnyMessage>(alloc: Global, message: &M) -> Result<String, AllocError>
    ensures { IfOk result (λ head. string_bytes head ≡ head_text (M.sent message.now)) }
{
    let name = Tree::Text(String::from_str(alloc, message.name())?);
    let Ok(quoted) = write_tree(alloc, &name) else {
        return Err(AllocError);
    };
    let mut head = String::new(alloc);
    head.push_str(side_word(message.side()))?;
    head.push_str(kind_word(message.kind()))?;
    head.push_str(quoted.as_str())?;
    Ok(head)
}

/// Appends a number and a word.
pub fn push_count(number: u64, word: &str, out: &mut Vec<u8>) -> Result<(), AllocError>
    ensures { OnOk result (out.new.items ≡ out.old.items ++ decimal number ++ word.now) }
{
    let mut digits = Buffer::new();
    out.extend_from_slice(digits.format(number).as_bytes())?;
    out.extend_from_slice(word.as_bytes())
}

/// Appends the number of a record, or `-` if the recording has no such record, and a word.
fn push_record(number: Option<u64>, word: &str, out: &mut Vec<u8>) -> Result<(), AllocError>
    ensures { OnOk result (out.new.items ≡ out.old.items ++ record_text number ++ word.now) }
{
    match number {
        Some(number) => push_count(number, word, out),
        None => {
            out.extend_from_slice(b"-")?;
            out.extend_from_slice(word.as_bytes())
        }
    }
}

/// Appends the line that names a record of A and its counterpart in B, such as
/// `12/13 < event "stopped"`.
pub fn push_place(
    a: Option<u64>,
    b: Option<u64>,
    head: &str,
    out: &mut Vec<u8>,
) -> Result<(), AllocError>
    ensures { OnOk result (out.new.items ≡ out.old.items ++ place_line a b head.now) }
{
    push_record(a, "/", out)?;
    push_record(b, " ", out)?;
    out.extend_from_slice(head.as_bytes())?;
    out.extend_from_slice(b"\n")
}

/// Appends the lines of the leaves at which two messages differ.
pub fn push_leaves(
    alloc: Global,
    a: &Message,
    b: &Message,
    scratch: &mut Scratch,
    out: &mut Vec<u8>,
) -> Result<(), AllocError>
    ensures { OnOk result
        (out.new.items ≡ out.old.items ++ leaf_lines (doc_of a.now) (doc_of b.now)) }
{
    let tree_a = plain_tree(alloc, a, scratch)?;
    let tree_b = plain_tree(alloc, b, scratch)?;
    let text = difference_text(alloc, &tree_a, &tree_b)?;
    out.extend_from_slice(text.as_slice())
}

/// Appends the lines of the leaves at which two contents differ.
pub fn push_content_leaves(
    alloc: Global,
    a: &[u8],
    b: &[u8],
    scratch: &mut Scratch,
    out: &mut Vec<u8>,
) -> Result<(), AllocError> {
    // Both are contents of messages, so no other error is possible.
    let tree_a = read_tree_with(alloc, a, scratch).map_err(|_| AllocError)?;
    let tree_b = read_tree_with(alloc, b, scratch).map_err(|_| AllocError)?;
    let text = difference_text(alloc, &tree_a, &tree_b)?;
    out.extend_from_slice(text.as_slice())
}
