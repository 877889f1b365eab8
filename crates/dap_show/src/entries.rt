//! Formats one record, and returns the error that it is marked with.
ghost use Rattle.std.specs.Prelude.{◌≡◌, ◌++◌, List, IfOk, OnOk};
ghost use Rattle.std.specs.Prelude.{length};
ghost use Rattle.dap_input.specs.Refusals.{RejectsPayload};
ghost use Rattle.dap_message.specs.Message.{Sent};
ghost use Rattle.dap_normalise.specs.Accepting.{HoldsNoMessage, IsMessage};
ghost use Rattle.dap_normalise.specs.JudgingSteps.{payload_of};
ghost use Rattle.dap_session.specs.SessionState.{SessionState};
ghost use Rattle.dap_show.specs.Viewing.{fits_in, head_lines, rule_refusal};
ghost use Rattle.dap_show.specs.ViewingSteps.{AppendsEntry, AreDetail, IsJudged, StandsIf};

use crate::detail::{Detail, View};
use crate::fault_words::{push_fault, push_untyped};
use crate::leaves::Buffers;
use crate::message_lines::push_message;
use crate::reading::{read_as_flat, read_as_tree};
use dap_flat_message::FlatFault;
use dap_input::Refused;
use dap_message::AnyMessage;
use dap_recording::Record;
use dap_session::{Rule, Session, SessionFault};
use dap_tree::Scratch;
use std::alloc::{AllocError, Global};

/// Returns the rule that a message violates, if rules are checked. A message that violates no rule
/// is added to the session.
fn judge<M: AnyMessage>(
    marks_faults: bool,
    session: &mut Session,
    message: &M,
) -> Result<Option<Rule>, AllocError>
    ensures { (before : List Sent) → StandsIf marks_faults session.old before
        → IfOk result
        (λ rule. IsJudged marks_faults before (M.sent message.now) rule session.new) }
{
    if !marks_faults {
        return Ok(None);
    }
    match session.accept_any(message) {
        Ok(()) => Ok(None),
        Err(SessionFault::Broken(rule)) => Ok(Some(rule)),
        Err(SessionFault::Memory) => Err(AllocError),
    }
}

/// Appends the line of a message, and the line of the rule that it violates.
fn push_head<M: AnyMessage>(
    alloc: Global,
    number: u64,
    message: &M,
    rule: Option<Rule>,
    lines: &mut Vec<u8>,
) -> Result<(), AllocError>
    ensures { OnOk result
        (lines.new.items ≡ lines.old.items ++ head_lines number (M.sent message.now) rule) }
{
    push_message(alloc, lines, number, message)?;
    if let Some(rule) = rule {
        lines.extend_from_slice(b"  ")?;
        push_fault(lines, Refused::Rule(number, rule))?;
    }
    Ok(())
}

/// Returns whether an output of this length is within the limit. Only the lines of leaves have a
/// limit.
fn fits(view: View, lines: &Vec<u8>) -> bool
    ensures { result ≡ fits_in view.detail view.limits.input (length lines.now.items) }
{
    match view.detail {
        Detail::Lists => true,
        Detail::Leaves => lines.len() as u64 <= view.limits.input,
    }
}

/// Returns the rejection of a message that violates a rule.
fn rule_refusal(number: u64, rule: Option<Rule>) -> Option<Refused>
    ensures { result ≡ rule_refusal number rule }
{
    match rule {
        Some(rule) => Some(Refused::Rule(number, rule)),
        None => None,
    }
}

/// Appends the lines of a record that contains this message and has these detail lines.
fn append_message<M: AnyMessage>(
    alloc: Global,
    view: View,
    number: u64,
    whole: &Record,
    message: &M,
    detail: &[u8],
    session: &mut Session,
    lines: &mut Vec<u8>,
) -> Result<Option<Refused>, Refused>
    requires message { IsMessage (payload_of whole.now) (M.sent message.now) }
    requires detail { AreDetail view.detail view.limits.input (M.sent message.now)
        (payload_of whole.now).1 detail.now }
    ensures { AppendsEntry view number (payload_of whole.now) session.old session.new
        lines.old.items lines.new.items result }
{
    let Ok(rule) = judge(view.marks_faults, session, message) else {
        return Err(Refused::Memory);
    };
    let Ok(()) = push_head(alloc, number, message, rule, lines) else {
        return Err(Refused::Memory);
    };
    let Ok(()) = lines.extend_from_slice(detail) else {
        return Err(Refused::Memory);
    };
    if !fits(view, lines) {
        return Err(Refused::Grew(number));
    }
    Ok(rule_refusal(number, rule))
}

/// Marks a record that does not contain a message, for the reason `refused`, if errors are marked.
/// Otherwise returns that reason.
fn append_refused(
    view: View,
    number: u64,
    whole: &Record,
    refused: Refused,
    lines: &mut Vec<u8>,
) -> Result<Option<Refused>, Refused>
    requires { RejectsPayload (HoldsNoMessage (payload_of whole.now)) number refused }
    ensures { (session : SessionState) → AppendsEntry view number (payload_of whole.now) session
        session lines.old.items lines.new.items result }
{
    if !view.marks_faults {
        return Err(refused);
    }
    if let Refused::Memory = refused {
        return Err(Refused::Memory);
    }
    let Ok(()) = push_untyped(lines, number, whole.side, refused) else {
        return Err(Refused::Memory);
    };
    if !fits(view, lines) {
        return Err(Refused::Grew(number));
    }
    Ok(Some(refused))
}

/// Appends the lines of a record to those of the records before it. Returns the error that the
/// record is marked with.
///
/// # Errors
///
/// - `Json`, `Fraction` or `Message`: the record does not contain a message, and errors are not
///   marked.
/// - `Grew`: the output exceeds the limit.
/// - `Memory`: an allocation failed.
pub(crate) fn append_entry(
    alloc: Global,
    view: View,
    number: u64,
    whole: &Record,
    session: &mut Session,
    scratch: &mut Scratch,
    buffers: &mut Buffers,
    lines: &mut Vec<u8>,
) -> Result<Option<Refused>, Refused>
    ensures { AppendsEntry view number (payload_of whole.now) session.old session.new
        lines.old.items lines.new.items result }
{
    match read_as_flat(alloc, view, whole, scratch, buffers) {
        Ok(message) => {
            let detail = buffers.lines.as_slice();
            return append_message(alloc, view, number, whole, &message, detail, session, lines);
        }
        Err(FlatFault::Unclear) => {}
        Err(FlatFault::Memory) => return Err(Refused::Memory),
        Err(FlatFault::Message(fault)) => {
            return append_refused(view, number, whole, Refused::Message(number, fault), lines);
        }
    }
    match read_as_tree(alloc, view, number, whole, scratch, buffers) {
        Ok(message) => {
            let detail = buffers.lines.as_slice();
            append_message(alloc, view, number, whole, &message, detail, session, lines)
        }
        Err(refused) => append_refused(view, number, whole, refused, lines),
    }
}
