//! Explains rejections.
ghost use Rattle.std.specs.Prelude.{◌≡◌, IfOk, string_bytes};
ghost use Rattle.dap_frame.specs.Limits.{IsSound};
ghost use Rattle.dap_input.specs.declared.limits.Limits.{Limits};
ghost use Rattle.dap_explain.specs.{Lines.AreLines, Unexplained.{IsEmpty, IsFailure}};

use crate::byte_faults::{explain_piece, explain_record, explain_recorder};
use crate::content_faults::{explain_json, explain_message};
use crate::fractions::explain_fraction;
use crate::head::{Head, add_head, read_message};
use crate::lines::{Lines, fill};
use crate::records::{Format, Record, Records};
use crate::session_rules::{explain_incomplete, explain_rule};
use crate::words::Word::{Number, Text};
use dap_frame::Framer;
use dap_input::{Limits, Refused};
use dap_mask::MaskRules;
use dap_recording::RecorderFault;
use dap_tree::Tree;
use std::alloc::{AllocError, Global};

/// An input that was rejected.
#[derive(Clone, Copy)]
pub struct Input<'a> {
    pub bytes: &'a [u8],
    pub format: Format,
    /// The rules that were applied to the messages before their numbers were checked.
    pub rules: Option<&'a MaskRules>,
}

/// Adds the lines about the rejection of a record that contains this message.
fn add_message(
    lines: &mut Lines,
    records: Records<'_>,
    record: Record<'_>,
    message: &Tree,
    refused: Refused,
) {
    if let Refused::Message(_, fault) = refused {
        return explain_message(lines, record, message, fault);
    }
    let (head, limits) = (Head::of(record.side, message), records.limits);
    add_head(lines, record.number, &head);
    match refused {
        Refused::Fraction(_) => explain_fraction(
            lines,
            record.content,
            records.input.rules,
            message,
            head,
        ),
        Refused::Rule(number, rule) => explain_rule(lines, records.before(number), &head, rule),
        Refused::TooManyIds(_) =>
            fill!(lines; "the limit is {0} different ids of a kind or a label: record shorter sessions",
                Number(limits.ids as u64)),
        Refused::Grew(_) =>
            fill!(lines; "dapnorm writes at most {0} bytes for a record and {1} bytes in all: record shorter sessions",
                Number(limits.frame.content as u64), Number(limits.input)),
        _ => {}
    }
}

/// Adds the lines about the rejection of the content of the record with this number.
fn add_content(lines: &mut Lines, records: Records<'_>, number: u64, refused: Refused) {
    let Some(record) = records.from_number(number).and_then(|mut rest| rest.next()) else {
        return;
    };
    if let Refused::Json(_) = refused {
        explain_json(lines, record);
    } else if let Some(message) = read_message(lines, record.content, records.input.rules) {
        add_message(lines, records, record, &message, refused);
    }
}

/// Adds the lines about a rejection.
fn add_refusal(lines: &mut Lines, input: Input<'_>, refused: Refused, limits: Limits)
    requires { IsSound limits.frame }
    ensures { IsFailure refused → lines.new ≡ lines.old }
{
    let framer = Framer::new(lines.alloc, limits.frame);
    let records = Records::new(&framer, limits, input);
    match refused {
        Refused::InputTooLong(_) | Refused::TraceTooLong(_) =>
            fill!(lines; "the limit of an input is {0} bytes: record shorter sessions",
                Number(limits.input)),
        Refused::Record(number, cause) => {
            if let Some(records) = records.from_number(number) {
                explain_record(lines, records, cause);
            }
        }
        Refused::Trace(number, cause) => explain_piece(lines, input.bytes, number, cause),
        Refused::Recorder(number, RecorderFault::Frame(side, fault)) => {
            explain_recorder(lines, records, number, side, fault)
        }
        Refused::Incomplete(client, adapter) => {
            explain_incomplete(lines, records, client.saturating_add(adapter))
        }
        Refused::Json(number)
        | Refused::Fraction(number)
        | Refused::Message(number, _)
        | Refused::Rule(number, _)
        | Refused::TooManyIds(number)
        | Refused::Grew(number) => add_content(lines, records, number, refused),
        Refused::Recorder(_, RecorderFault::Memory) => {}
        Refused::ReadFault | Refused::WriteFault | Refused::Memory => {}
    }
}

/// Explains a rejection in lines for people.
///
/// `refused` is the rejection of the input, and `limits` are those of the call that rejected it.
/// Reads the input again, record by record. The time is linear in its length, and for `Incomplete`
/// has an additional factor, the logarithm of the number of requests.
///
/// The result is empty if there is nothing to add, for example after `ReadFault`. If the input is
/// not rejected for this reason, the lines may be wrong.
///
/// # Errors
///
/// `AllocError`: an allocation failed.
pub fn explain(
    alloc: Global,
    input: Input<'_>,
    refused: Refused,
    limits: Limits,
) -> Result<String, AllocError>
    requires { IsSound limits.frame }
    ensures lines { IfOk result (λ text. ∥ AreLines (string_bytes text) ∥₁) }

    // If a reader, a writer or an allocation failed, there is nothing to explain.
    ensures nothing { IsFailure refused → IsEmpty result }
{
    let mut lines = Lines::new(alloc);
    add_refusal(&mut lines, input, refused, limits);
    lines.into_text()
}

/// Explains that a file cannot be read: returns its name and the reason that the system returned.
///
/// # Errors
///
/// `AllocError`: an allocation failed.
pub fn explain_unreadable<'a>(
    alloc: Global,
    name: &'a str,
    reason: &'a str,
) -> Result<String, AllocError>
    ensures { IfOk result (λ text. ∥ AreLines (string_bytes text) ∥₁) }
{
    let mut lines = Lines::new(alloc);
    fill!(lines; "{0}: {1}", Text(name), Text(reason));
    lines.into_text()
}
