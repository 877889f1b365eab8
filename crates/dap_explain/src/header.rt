//! Analyses the start of a frame, or of a piece of a trace, for an explanation.
use dap_frame::{is_name_byte, is_value_byte};
use std::str;

/// The cause of an input that ends early.
pub(crate) const STOPPED_EARLY: &str =
    "the program that wrote the input may have been stopped early";

/// How to keep line ends unchanged.
pub(crate) const KEEP_LINE_ENDS: &str =
    "git keeps line ends if .gitattributes has -text for recordings and traces";

/// The name of the field that every header part has.
const LENGTH_NAME: &[u8] = b"Content-Length";

/// Splits the bytes after the header part at their start, which ends with CR LF CR LF.
pub(crate) fn split_header(bytes: &[u8]) -> Option<(&[u8], &[u8])> {
    let end = bytes
        .windows(4)
        .position(|window| window == b"\r\n\r\n".as_slice())?;
    bytes.split_at_checked(end.checked_add(4)?)
}

/// Returns the header part at the start of the bytes, or all bytes if it is incomplete.
pub(crate) fn header_of(bytes: &[u8]) -> &[u8] {
    split_header(bytes).map_or(bytes, |(header, _)| header)
}

/// Returns the first line of a header part that is not a field line, without its LF. `None`: it is
/// the empty line at the end.
pub(crate) fn bad_line(header: &[u8]) -> Option<&[u8]> {
    let line = header.split(is_lf).find(|line| !is_field_line(line))?;
    Some(line).filter(|line| *line != b"\r".as_slice())
}

/// Returns whether a line without its LF consists of a name, a colon, a value and CR.
fn is_field_line(line: &[u8]) -> bool {
    let Some((name, value)) = split_at_byte(line, b':') else {
        return false;
    };
    let value = value.strip_suffix(b"\r");
    !name.is_empty()
        && name.iter().all(|byte| is_name_byte(*byte))
        && value.is_some_and(|value| value.iter().all(|byte| is_value_byte(*byte)))
}

/// Returns the bytes before and after the first one that is this byte.
fn split_at_byte(bytes: &[u8], byte: u8) -> Option<(&[u8], &[u8])> {
    let mut parts = bytes.splitn(2, |other| *other == byte);
    parts.next().zip(parts.next())
}

/// Returns the value of a field named `Content-Length` that starts the bytes, without the
/// surrounding blanks.
fn length_at(bytes: &[u8]) -> Option<&[u8]> {
    let (name, value) = split_at_byte(bytes, b':')?;
    let is_length = name.eq_ignore_ascii_case(LENGTH_NAME);
    is_length.then_some(value.trim_ascii())
}

/// Returns the value of the first field of a header part that is named `Content-Length`.
pub(crate) fn length_value(header: &[u8]) -> Option<&[u8]> {
    header.split(is_lf).find_map(length_at)
}

/// Returns the length of the content that a header part declares, if it is 1 to 10 digits.
pub(crate) fn content_len(header: &[u8]) -> Option<u64> {
    number_of(length_value(header)?)
}

/// Returns whether the bytes start like a frame: with the field that every frame has.
pub(crate) fn is_like_frames(bytes: &[u8]) -> bool {
    length_at(bytes).is_some()
}

/// Returns whether a header part contains the name `Content-Length` but does not start with this
/// field: other text may precede the header part.
pub(crate) fn has_text_before(header: &[u8]) -> bool {
    !is_like_frames(header)
        && header
            .windows(LENGTH_NAME.len())
            .any(|window| window.eq_ignore_ascii_case(LENGTH_NAME))
}

/// Returns whether the first line of a header part ends with LF only, or with CR CR LF.
pub(crate) fn has_converted_line_end(header: &[u8]) -> bool {
    let line = first_line(header);
    is_like_frames(header)
        && line.len() < header.len()
        && (!line.ends_with(b"\r") || line.ends_with(b"\r\r"))
}

/// Returns the count at the start of the bytes and the bytes after it, if it is 1 to 10 digits
/// followed by LF. CR may precede the LF, because line ends may have been converted.
pub(crate) fn split_count(bytes: &[u8]) -> Option<(u64, &[u8])> {
    let (line, rest) = split_at_byte(bytes, b'\n')?;
    let count = number_of(line.strip_suffix(b"\r").unwrap_or(line))?;
    Some((count, rest))
}

/// Returns the number that 1 to 10 decimal digits represent.
fn number_of(digits: &[u8]) -> Option<u64> {
    let is_number = digits.len() <= 10 && digits.iter().all(u8::is_ascii_digit);
    let text = str::from_utf8(digits).ok().filter(|_| is_number)?;
    text.parse::<u64>().ok()
}

/// Returns whether a byte ends a line.
pub(crate) fn is_lf(byte: &u8) -> bool {
    *byte == b'\n'
}

/// Returns the bytes before the first LF, or all bytes if there is no LF.
pub(crate) fn first_line(bytes: &[u8]) -> &[u8] {
    line_at(bytes, 1).unwrap_or(bytes)
}

/// Returns the line of a text with this number, counted from 1, without its LF. After a last LF
/// comes one more line, which is empty.
pub(crate) fn line_at(text: &[u8], number: usize) -> Option<&[u8]> {
    text.split(is_lf).nth(number.saturating_sub(1))
}
