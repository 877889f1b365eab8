//! Texts that are written in parts, and the lines that report errors.
ghost use Rattle.std.specs.Prelude.{◌≡◌, ◌<◌, ◌^◌, ◌∷◌, []};
ghost use Rattle.dap_device.specs.{Devices.CanWrite, Written.{HasSentAll, HasWrittenAll}};
ghost use Rattle.dap_message.specs.MessageFaultText.{digits_of};
ghost use Rattle.dapnorm.specs.Lines.{fault_line, line_text, part_text, parts_text};
ghost use Rattle.dapnorm.specs.Reporting.{HasSent};

use dap_compare::CompareRefused;
use dap_device::{DeviceFault, Sink, write_all};
use dap_input::Refused;
use dap_transcript::TranscriptFault;
use itoa::Buffer;

/// A part of a text.
#[derive(Clone, Copy, Debug)]
pub(crate) enum Part<'a> {
    Text(&'a str),
    Bytes(&'a [u8]),
    Number(u64),
    Count(usize),
    Signed(i64),
    Refused(Refused),
    Pair(CompareRefused),
}

/// A line that reports an error.
#[derive(Clone, Copy, Debug)]
pub(crate) enum Line<'a> {
    /// This text, which ends in LF.
    Whole(&'a str),
    /// `dapnorm: `, these parts and LF.
    Fault(Part<'a>, Part<'a>, Part<'a>, Part<'a>),
    /// `dapnorm: `, these parts, why a text is not a transcript, and LF.
    Transcript(Part<'a>, Part<'a>, Part<'a>, TranscriptFault),
}

/// Returns the line with one part.
pub(crate) fn fault<'a>(part: Part<'a>) -> Line<'a>
    ensures { line_text result ≡ fault_line (part_text part.entry ∷ []) }
{
    fault_of(part, Part::Text(""))
}

/// Returns the line with two parts.
pub(crate) fn fault_of<'a>(first: Part<'a>, second: Part<'a>) -> Line<'a>
    ensures { line_text result
        ≡ fault_line (part_text first.entry ∷ part_text second.entry ∷ []) }
{
    Line::Fault(first, second, Part::Text(""), Part::Text(""))
}

/// Writes a part.
fn write_part<W: Sink>(writer: &mut W, part: Part<'_>) -> Result<(), DeviceFault>
    requires { W.failures writer.old < 2 ^ 63 }
    ensures { HasWrittenAll W.Sink writer.old writer.new result (part_text part.entry) }
{
    match part {
        Part::Text(text) => write_all(writer, text.as_bytes()),
        Part::Bytes(bytes) => write_all(writer, bytes),
        Part::Number(number) => write_all(writer, Buffer::new().format(number).as_bytes()),
        Part::Count(number) => write_all(writer, Buffer::new().format(number).as_bytes()),
        Part::Signed(number) => write_all(writer, Buffer::new().format(number).as_bytes()),
        Part::Refused(refused) => write_all(writer, refused.text().as_bytes()),
        Part::Pair(refused) => write_all(writer, refused.text().as_bytes()),
    }
}

/// Writes all parts, one after another.
pub(crate) fn write_parts<W: Sink>(writer: &mut W, parts: &[Part<'_>]) -> Result<(), DeviceFault>
    requires { W.failures writer.old < 2 ^ 63 }
    ensures { HasWrittenAll W.Sink writer.old writer.new result (parts_text parts.now) }
{
    for part in parts {
        write_part(writer, *part)?;
    }
    Ok(())
}

/// Writes all parts, one after another, and flushes.
fn send_parts<W: Sink>(writer: &mut W, parts: &[Part<'_>]) -> Result<(), DeviceFault>
    requires writer { CanWrite W.Sink writer.old }
    ensures { HasSentAll W.Sink writer.old writer.new result (parts_text parts.now) }
{
    write_parts(writer, parts)?;
    writer.flush()
}

/// Returns the digits of a number, if there is one.
fn digits<'a>(number: Option<u64>) -> Part<'a>
    ensures { part_text result ≡ digits_of number }
{
    match number {
        Some(number) => Part::Number(number),
        None => Part::Text(""),
    }
}

/// Writes a line to the errors and flushes. A failure to write it is not reported.
pub(crate) fn report_line<E: Sink>(errors: &mut E, line: Line<'_>)
    requires writer { CanWrite E.Sink errors.old }
    ensures { HasSent E.Sink errors.old errors.new (line_text line.entry) }
{
    let (start, end) = (Part::Text("dapnorm: "), Part::Text("\n"));
    let _ = match line {
        Line::Whole(text) => send_parts(errors, &[Part::Text(text)]),
        Line::Fault(a, b, c, d) => send_parts(errors, &[start, a, b, c, d, end]),
        Line::Transcript(a, b, c, fault) => {
            let (words, row) = fault.cause.words();
            let (line, number) = (Part::Text("line "), Part::Count(fault.line));
            let (colon, words, row) = (Part::Text(": "), Part::Text(words), digits(row));
            send_parts(
                errors,
                &[start, a, b, c, line, number, colon, words, row, end],
            )
        }
    };
}
