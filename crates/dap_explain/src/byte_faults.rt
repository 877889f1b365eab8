//! Explains bytes that are not records or pieces of a trace, and frames that are invalid or
//! incomplete.
use crate::explaining::Input;
use crate::head::read_message;
use crate::header::{
    KEEP_LINE_ENDS, STOPPED_EARLY, bad_line, content_len, first_line, has_converted_line_end,
    has_text_before, header_of, length_value, split_count, split_header,
};
use crate::lines::{Lines, fill};
use crate::records::{Format, Records, add_likeness};
use crate::words::Word::{self, Bytes, FrameOf, Number, Record, Text};
use dap_frame::{FrameFault, FrameLimits};
use dap_recording::{RecordCause, TraceCause, TracePart, TraceReader};
use dap_tree::Side;
use std::alloc::AllocError;

/// A frame that is invalid or incomplete.
#[derive(Clone, Copy)]
struct BadFrame<'a> {
    name: Word<'a>,
    /// The bytes that it starts.
    bytes: &'a [u8],
    /// The limits of its parts.
    limit: FrameLimits,
}

/// Returns what is wrong with a frame: `{0}` is its name, `{1}` are bytes that show it, if there
/// are some, `{2}` is the length of its content, and `{3}` is a limit or the number of missing
/// bytes.
fn fault_text(fault: FrameFault, is_shown: bool) -> &'static str {
    match fault {
        FrameFault::HeaderLine if is_shown => {
            "the header part of {0} has the line {1}, which is not NAME: VALUE"
        }
        FrameFault::HeaderLine => "the header part of {0} is empty",
        FrameFault::NoLength => "the header part of {0} has no Content-Length; it is {1}",
        FrameFault::TwoLengths => {
            "the header part of {0} has more than one Content-Length; it is {1}"
        }
        FrameFault::BadLength => "the Content-Length of {0} is {1}, not 1 to 10 digits",
        FrameFault::HeaderTooLong => "no header part ends in the first {3} bytes of {0}: {1}",
        FrameFault::ContentTooLong => "the content of {0} has {2} bytes; the limit is {3} bytes",
        FrameFault::Cut if is_shown => "the input ends in the header part of {0}: {1}",
        FrameFault::Cut | FrameFault::Memory => {
            "the content of {0} has {2} bytes by its header part, and {3} of them are missing"
        }
    }
}

/// Adds the lines about what is wrong with a frame.
fn add_frame_fault(lines: &mut Lines, frame: BadFrame<'_>, fault: FrameFault) {
    let split = split_header(frame.bytes);
    let (header, content) = split.unwrap_or((frame.bytes, &[]));
    let declared = content_len(header);
    let len = declared.unwrap_or(0);
    let shown = match fault {
        FrameFault::HeaderLine => bad_line(header),
        FrameFault::BadLength => length_value(header),
        FrameFault::Cut => Some(header).filter(|_| split.is_none()),
        FrameFault::HeaderTooLong => Some(frame.bytes),
        FrameFault::Memory => return,
        _ => Some(header),
    };
    if fault == FrameFault::Cut && shown.is_none() && declared.is_none() {
        return;
    }
    let limit = match fault {
        FrameFault::HeaderTooLong => frame.limit.header as u64,
        FrameFault::ContentTooLong => frame.limit.content as u64,
        _ => len.saturating_sub(content.len() as u64),
    };
    let (text, bytes) = (
        fault_text(fault, shown.is_some()),
        Bytes(shown.unwrap_or(&[])),
    );
    fill!(lines; text, frame.name, bytes, Number(len), Number(limit));
    match fault {
        FrameFault::Cut if shown.is_none() => {
            fill!(lines; "{0}, or the length is too large", Text(STOPPED_EARLY));
        }
        FrameFault::Cut if !has_converted_line_end(header) => lines.add(STOPPED_EARLY),
        FrameFault::ContentTooLong => {
            lines.add("request less at once, such as by start and count of variables");
        }
        _ => {}
    }
}

/// Explains that a frame is invalid or incomplete.
fn explain_frame(lines: &mut Lines, frame: BadFrame<'_>, fault: FrameFault) {
    add_frame_fault(lines, frame, fault);
    let may_be_printed = matches!(fault, FrameFault::HeaderLine | FrameFault::NoLength);
    if may_be_printed && has_text_before(header_of(frame.bytes)) {
        lines.add("a program may have printed text between two frames");
        lines.add("let it print to standard error, or send output events instead");
    }
    if has_converted_line_end(frame.bytes) {
        lines.add("its header lines do not end with CR LF: line ends may have been converted");
        lines.add(KEEP_LINE_ENDS);
    }
}

/// Adds the lines about a record whose frame is not followed by LF.
fn add_no_line_end(lines: &mut Lines, frame: BadFrame<'_>, content: &[u8], after: &[u8]) {
    fill!(lines; "after the frame of {0} comes {1} instead of LF", frame.name, Bytes(after));
    if after.starts_with(b"\r\n") {
        lines.add("line ends were converted to CR LF");
        return lines.add(KEEP_LINE_ENDS);
    }
    let text_len = content.len().saturating_add(first_line(after).len());
    let text = split_header(frame.bytes).and_then(|(_, rest)| rest.get(..text_len));
    let text = text.unwrap_or(&[]);
    let mut is_json = |text| read_message(lines, text, None).is_some();
    if !is_json(content) && is_json(text) {
        fill!(lines; "Content-Length is {0}, and the JSON text there has {1} bytes",
            Number(content.len() as u64), Number(text_len as u64));
        lines.add("Content-Length counts bytes of UTF-8: the sender may have counted characters");
    }
}

/// Explains that the bytes of the first of these records are not a record.
pub(crate) fn explain_record(lines: &mut Lines, records: Records<'_>, cause: RecordCause) {
    let (number, limit) = (records.number, records.limits.frame);
    if number == 1 && add_likeness(lines, records.input.bytes, records.input.format) {
        return;
    }
    let Some((_, bytes)) = records.split_marker() else {
        fill!(lines; "{0} begins {1}", Record(number), Bytes(records.input.bytes));
        return lines.add(
            "a record begins with > (client) or < (adapter), and nothing is between two records",
        );
    };
    let name = Record(number);
    let frame = BadFrame { name, bytes, limit };
    match (cause, records.split_frame(bytes)) {
        (RecordCause::Frame(fault), _) => explain_frame(lines, frame, fault),
        (RecordCause::Cut, None) => explain_frame(lines, frame, FrameFault::Cut),
        (RecordCause::Cut, Some(_)) => {
            fill!(lines; "only the LF at the end of {0} is missing", Record(number));
            lines.add("an editor may have removed it: add it again");
        }
        (RecordCause::NoLineEnd, Some((content, after))) => {
            add_no_line_end(lines, frame, content, after)
        }
        _ => {}
    }
}

/// Returns the next piece of a trace, and the bytes after it.
fn next_piece<'a>(reader: &mut TraceReader, trace: &'a [u8]) -> Option<(TracePart<'a>, &'a [u8])> {
    let fed = reader.feed(trace).ok()?;
    Some((fed.part?, &trace[fed.used..]))
}

/// Returns the bytes of a trace from the piece with this number on, if those before it exist.
fn from_piece(trace: &[u8], number: u64) -> Option<&[u8]> {
    let (mut reader, mut rest) = (TraceReader::new(), trace);
    for _ in 1..number {
        rest = next_piece(&mut reader, rest)?.1;
    }
    Some(rest)
}

/// Explains that the bytes of a piece are not a piece of a trace.
pub(crate) fn explain_piece(lines: &mut Lines, trace: &[u8], number: u64, cause: TraceCause) {
    let Some(bytes) = from_piece(trace, number) else {
        return;
    };
    if number == 1 && add_likeness(lines, trace, Format::Trace) {
        return;
    }
    let count = bytes.get(1..).and_then(split_count);
    let text = match (cause, count) {
        (TraceCause::Cut, Some(_)) => "piece {0} has {2} bytes, and {3} of them are missing",
        (TraceCause::Cut, None) => "the trace ends in the length of piece {0}: {1}",
        _ => "piece {0} begins {1}",
    };
    let (count, received) = count.unwrap_or((0, &[]));
    let missing = count.saturating_sub(received.len() as u64);
    fill!(lines; text, Number(number), Bytes(bytes), Number(count), Number(missing));
    if cause == TraceCause::Cut {
        return lines.add(STOPPED_EARLY);
    }
    lines.add("a piece begins with > or <, its length in decimal digits without leading 0, and LF");
    if cause == TraceCause::BadMarker && number > 1 {
        lines.add("the length of the piece before it may be wrong: it counts bytes");
    }
    if cause == TraceCause::BadCount && first_line(bytes).ends_with(b"\r") {
        lines.add("line ends may have been converted");
        lines.add(KEEP_LINE_ENDS);
    }
}

/// Appends the bytes that a side has sent by the end of the piece with this number.
fn add_sent(sent: &mut Vec<u8>, trace: &[u8], number: u64, side: Side) -> Result<(), AllocError> {
    let (mut reader, mut rest) = (TraceReader::new(), trace);
    for _ in 0..number {
        let Some((part, after)) = next_piece(&mut reader, rest) else {
            break;
        };
        if part.side == side {
            sent.extend_from_slice(part.bytes)?;
        }
        rest = after;
    }
    Ok(())
}

/// Explains that a frame of a side is invalid, or is incomplete. The frame is the first one that is
/// not complete in these bytes of the side.
fn explain_sent(
    lines: &mut Lines,
    trace: Records<'_>,
    bytes: &[u8],
    side: Side,
    fault: FrameFault,
) {
    let (format, rules) = (Format::Frames, None);
    let input = Input {
        bytes,
        format,
        rules,
    };
    let mut frames = Records::new(trace.framer, trace.limits, input);
    for _ in frames.by_ref() {}
    let (name, bytes, limit) = (FrameOf(side), frames.input.bytes, trace.limits.frame);
    explain_frame(lines, BadFrame { name, bytes, limit }, fault);
}

/// Explains that a frame of a side is invalid in the piece with this number, or is incomplete.
pub(crate) fn explain_recorder(
    lines: &mut Lines,
    trace: Records<'_>,
    number: u64,
    side: Side,
    fault: FrameFault,
) {
    let mut sent = Vec::new(lines.alloc);
    let added = add_sent(&mut sent, trace.input.bytes, number, side);
    if lines.value_of(added).is_some() {
        explain_sent(lines, trace, sent.as_slice(), side, fault);
    }
}
