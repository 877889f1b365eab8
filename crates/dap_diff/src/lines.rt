//! The differences of two messages as lines.
ghost use Rattle.std.specs.Prelude.{◌≡◌, ◌++◌, Some, None, IfOk, OnOk, codes, option_map, true};
ghost use Rattle.dap_message.specs.Message.{sent};
ghost use Rattle.dap_diff.specs.Diffs.{diff_lines, have_one_head, head_line, input_line};

use crate::record_lines::{head_of, push_leaves};
use dap_message::Message;
use dap_tree::Scratch;
use std::alloc::{AllocError, Global};

/// Appends the head line of a message.
fn push_head(alloc: Global, message: &Message, out: &mut Vec<u8>) -> Result<(), AllocError>
    ensures { OnOk result (out.new.items ≡ out.old.items ++ head_line (sent message.now)) }
{
    let head = head_of(alloc, message)?;
    out.extend_from_slice(head.as_bytes())?;
    out.extend_from_slice(b"\n")
}

/// Appends the line for the message of one input, or that the input ends.
fn push_input(
    alloc: Global,
    which: &str,
    found: &Option<Message>,
    out: &mut Vec<u8>,
) -> Result<(), AllocError>
    ensures { OnOk result (out.new.items
        ≡ out.old.items ++ input_line which.now (option_map sent found.now)) }
{
    out.extend_from_slice(which.as_bytes())?;
    match found {
        Some(message) => {
            out.extend_from_slice(b" ")?;
            push_head(alloc, message, out)
        }
        None => out.extend_from_slice(b" ends\n"),
    }
}

/// Returns whether two messages have the same side, kind and name.
fn have_one_head(a: &Message, b: &Message) -> bool
    ensures { result ≡ have_one_head (sent a.now) (sent b.now) }
{
    a.side() == b.side() && a.kind() == b.kind() && a.name() == b.name()
}

/// Returns the lines for the messages of A and of B.
pub fn diff_lines(
    alloc: Global,
    a: &Option<Message>,
    b: &Option<Message>,
    scratch: &mut Scratch,
) -> Result<Vec<u8>, AllocError>
    ensures { IfOk result (λ lines. lines.items
        ≡ diff_lines (option_map sent a.now) (option_map sent b.now)) }
{
    let mut out = Vec::new(alloc);
    if let (Some(x), Some(y)) = (a, b) {
        if have_one_head(x, y) {
            push_head(alloc, x, &mut out)?;
            push_leaves(alloc, x, y, scratch, &mut out)?;
            return Ok(out);
        }
    }
    push_input(alloc, "A", a, &mut out)?;
    push_input(alloc, "B", b, &mut out)?;
    Ok(out)
}
