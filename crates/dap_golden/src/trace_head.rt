//! Recognises a trace, a recording and a golden file by their first bytes.
ghost use Rattle.std.specs.{Prelude.{◌≡◌, ◌≤◌, ◌↔◌, IsTrue, length}, Char.is_ascii_digit};
ghost use Rattle.std.specs.List.{prefix_len};
ghost use Rattle.dap_golden.specs.TraceHead.{CanBecomeGolden, IsLineEnd, IsMarker};
ghost use Rattle.dap_golden.specs.TraceHead.{IsRecordingHead, IsTraceHead, StartsWithCount};
ghost use Rattle.dap_golden.specs.TraceHead.{StartsWithField};

use dap_transcript::is_transcript;

/// How the names of the header fields of a message start.
const FIELD: &[u8] = b"Content-";

/// Returns whether the byte is the marker of a side.
fn is_marker(byte: u8) -> bool
    ensures { IsTrue result ↔ IsMarker byte }
{
    byte == b'>' || byte == b'<'
}

/// Returns the number of decimal digits that the bytes start with.
fn digit_count(bytes: &[u8]) -> usize
    ensures digits { result ≡ prefix_len is_ascii_digit bytes.now }
    ensures within { result ≤ length bytes.now }
{
    bytes
        .iter()
        .take_while(|byte| byte.is_ascii_digit())
        .count()
}

/// Returns whether the bytes are empty or start with LF.
fn is_line_end(bytes: &[u8]) -> bool
    ensures { IsTrue result ↔ IsLineEnd bytes.now }
{
    match bytes {
        [] => true,
        [byte, ..] => *byte == b'\n',
    }
}

/// Returns whether the bytes start with decimal digits that are followed by LF or the end.
fn starts_with_count(bytes: &[u8]) -> bool
    ensures { IsTrue result ↔ StartsWithCount bytes.now }
{
    let digits = digit_count(bytes);
    0 < digits && is_line_end(&bytes[digits..])
}

/// Returns whether the input is a trace. Any other input is treated as a recording.
pub fn is_trace(input: &[u8]) -> bool
    ensures { IsTrue result ↔ IsTraceHead input.now }
{
    match input {
        [] => false,
        [byte, rest @ ..] => is_marker(*byte) && starts_with_count(rest),
    }
}

/// Returns whether the bytes start with the name of a header field of a message.
fn starts_with_field(bytes: &[u8]) -> bool
    ensures { IsTrue result ↔ StartsWithField bytes.now }
{
    bytes[..bytes.len().min(FIELD.len())].eq_ignore_ascii_case(FIELD)
}

/// Returns whether the bytes start like a recording: with a marker and the name of a header field.
pub(crate) fn is_recording(bytes: &[u8]) -> bool
    ensures { IsTrue result ↔ IsRecordingHead bytes.now }
{
    match bytes {
        [] => false,
        [byte, rest @ ..] => is_marker(*byte) && starts_with_field(rest),
    }
}

/// Returns whether a file with these bytes can become a golden file: it is empty, or starts like a
/// recording or like a transcript.
pub(crate) fn can_become_golden(bytes: &[u8]) -> bool
    ensures { IsTrue result ↔ CanBecomeGolden bytes.now }
{
    bytes.is_empty() || is_recording(bytes) || is_transcript(bytes)
}
