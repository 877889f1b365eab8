//! Formats a message as lines.
ghost use Rattle.std.specs.Prelude.{◌≡◌, ◌++◌, IfOk, OnOk};
ghost use Rattle.dap_message.specs.Message.{doc_of};
ghost use Rattle.dap_message.specs.ViewItems.{frame_shown, scope_shown, variable_shown};
ghost use Rattle.dap_show.specs.Showing.{answered_words, frame_line, in_quotes, message_line};
ghost use Rattle.dap_show.specs.Showing.{outcome_words, place_words, scope_line, start_words};
ghost use Rattle.dap_show.specs.Showing.{success_words, listed_lines, title_words, variable_line};

use dap_flat::{Node, write_flat};
use dap_message::{AnyMessage, FrameView, Message, ScopeView, Side, VariableView};
use itoa::{Buffer, Integer};
use std::alloc::{AllocError, Global};

/// The result of appending to an output.
pub(crate) type Appended = Result<(), AllocError>;

/// Appends a word and a number.
pub(crate) fn push_number<I: Integer>(out: &mut Vec<u8>, word: &str, number: I) -> Appended
    ensures { OnOk result (out.new.items
        ≡ out.old.items ++ word.now ++ I.text number) }
{
    let mut digits = Buffer::new();
    out.extend_from_slice(word.as_bytes())?;
    out.extend_from_slice(digits.format(number).as_bytes())
}

/// Appends a word and a string as JSON, in quotes.
fn push_quoted(alloc: Global, out: &mut Vec<u8>, word: &str, text: &str) -> Appended
    ensures { OnOk result (out.new.items
        ≡ out.old.items ++ word.now ++ in_quotes text.now) }
{
    let mut quoted = Vec::new(alloc);
    write_flat(alloc, &[Node::Text(text)], &mut quoted)?;
    out.extend_from_slice(word.as_bytes())?;
    out.extend_from_slice(quoted.as_slice())?;
    Ok(())
}

/// Appends the id, line and column of a stack frame.
fn push_place(out: &mut Vec<u8>, frame: FrameView<'_>) -> Appended
    ensures { OnOk result (out.new.items
        ≡ out.old.items ++ place_words (frame_shown frame.entry)) }
{
    push_number(out, "  frame ", frame.id)?;
    push_number(out, " ", frame.line)?;
    push_number(out, ":", frame.column)
}

/// Appends the line of a stack frame.
pub(crate) fn push_frame(alloc: Global, out: &mut Vec<u8>, frame: FrameView<'_>) -> Appended
    ensures { OnOk result (out.new.items
        ≡ out.old.items ++ frame_line (frame_shown frame.entry)) }
{
    push_place(out, frame)?;
    push_quoted(alloc, out, " ", frame.name)?;
    out.extend_from_slice(b"\n")
}

/// Appends the line of a scope.
pub(crate) fn push_scope(alloc: Global, out: &mut Vec<u8>, scope: ScopeView<'_>) -> Appended
    ensures { OnOk result (out.new.items
        ≡ out.old.items ++ scope_line (scope_shown scope.entry)) }
{
    push_number(out, "  scope ", scope.reference)?;
    push_quoted(alloc, out, " ", scope.name)?;
    out.extend_from_slice(b"\n")
}

/// Appends the line of a variable.
pub fn push_variable(alloc: Global, out: &mut Vec<u8>, variable: VariableView<'_>) -> Appended
    ensures { OnOk result (out.new.items
        ≡ out.old.items ++ variable_line (variable_shown variable.entry)) }
{
    push_number(out, "  variable ", variable.reference)?;
    push_quoted(alloc, out, " ", variable.name)?;
    push_quoted(alloc, out, " ", variable.value)?;
    out.extend_from_slice(b"\n")
}

/// Appends the `request_seq` of a response. Appends nothing for any other message.
fn push_answered(out: &mut Vec<u8>, answered: Option<i64>) -> Appended
    ensures { OnOk result (out.new.items ≡ out.old.items ++ answered_words answered) }
{
    match answered {
        Some(number) => push_number(out, " request_seq=", number),
        None => Ok(()),
    }
}

/// Appends whether a response reports success. Appends nothing for any other message.
fn push_success(out: &mut Vec<u8>, success: Option<bool>) -> Appended
    ensures { OnOk result (out.new.items ≡ out.old.items ++ success_words success) }
{
    match success {
        Some(true) => out.extend_from_slice(b" ok"),
        Some(false) => out.extend_from_slice(b" failed"),
        None => Ok(()),
    }
}

/// Appends the number of a record and the marker of its side.
pub(crate) fn push_start(out: &mut Vec<u8>, number: u64, side: Side) -> Appended
    ensures { OnOk result (out.new.items ≡ out.old.items ++ start_words number side) }
{
    push_number(out, "", number)?;
    match side {
        Side::Client => out.extend_from_slice(b" > "),
        Side::Adapter => out.extend_from_slice(b" < "),
    }
}

/// Appends the kind, the name and the sequence number of a message.
fn push_title<M: AnyMessage>(alloc: Global, out: &mut Vec<u8>, message: &M) -> Appended
    ensures { OnOk result (out.new.items
        ≡ out.old.items ++ title_words (M.sent message.now).doc) }
{
    out.extend_from_slice(message.kind().word().as_bytes())?;
    push_quoted(alloc, out, " ", message.name())?;
    push_number(out, " seq=", message.seq())
}

/// Appends the outcome of a response.
fn push_outcome<M: AnyMessage>(out: &mut Vec<u8>, message: &M) -> Appended
    ensures { OnOk result (out.new.items
        ≡ out.old.items ++ outcome_words (M.sent message.now).doc) }
{
    push_answered(out, message.request_seq())?;
    push_success(out, message.success())
}

/// Appends the line of a message, which starts with the number of its record.
pub(crate) fn push_message<M: AnyMessage>(
    alloc: Global,
    out: &mut Vec<u8>,
    number: u64,
    message: &M,
) -> Appended
    ensures { OnOk result (out.new.items
        ≡ out.old.items ++ message_line number (M.sent message.now)) }
{
    push_start(out, number, message.side())?;
    push_title(alloc, out, message)?;
    push_outcome(out, message)?;
    out.extend_from_slice(b"\n")
}

/// Returns the lines of the frames, scopes and variables that a message lists.
pub(crate) fn tree_lines(alloc: Global, message: &Message) -> Result<Vec<u8>, AllocError>
    ensures { IfOk result (λ lines. lines.items ≡ listed_lines (doc_of message.now)) }
{
    let mut lines = Vec::new(alloc);
    for frame in message.frames() {
        push_frame(alloc, &mut lines, frame)?;
    }
    for scope in message.scopes() {
        push_scope(alloc, &mut lines, scope)?;
    }
    for variable in message.variables() {
        push_variable(alloc, &mut lines, variable)?;
    }
    Ok(lines)
}
