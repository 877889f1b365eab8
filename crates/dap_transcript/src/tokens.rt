//! Splits the lines of a transcript into tokens.
//!
//! No clause says what is read: the text of what is read is written again and compared.
ghost use Rattle.std.specs.Prelude.{◌≡◌};
ghost use Rattle.dap_transcript.specs.Transcript.{starts_with_head};

use dap_profile::Kind;
use dap_tree::Side;

/// Returns the number of blanks at the start of a line.
pub(crate) fn margin_of(line: &[u8]) -> usize {
    for at in 0..line.len() {
        if line[at] != b' ' {
            return at;
        }
    }
    line.len()
}

/// Returns the length of the string at the start, with its quotes, or 0 if it does not end.
fn string_len(text: &[u8]) -> usize {
    let mut is_escaped = false;
    for at in 1..text.len() {
        let byte = text[at];
        if is_escaped {
            is_escaped = false;
        } else if byte == b'\\' {
            is_escaped = true;
        } else if byte == b'"' {
            return at + 1;
        }
    }
    0
}

fn is_word_byte(byte: u8) -> bool {
    matches!(
        byte,
        b'a'..=b'z' | b'A'..=b'Z' | b'0'..=b'9' | b'_' | b'+' | b'-' | b'.'
    )
}

/// Returns the length of the number or the word at the start.
fn word_len(text: &[u8]) -> usize {
    for at in 0..text.len() {
        if !is_word_byte(text[at]) {
            return at;
        }
    }
    text.len()
}

fn token_len(text: &[u8]) -> usize {
    if text.starts_with(b"\"") {
        return string_len(text);
    }
    if text.starts_with(b"[]") || text.starts_with(b"{}") {
        return 2;
    }
    word_len(text)
}

/// Returns the name or the scalar at the start, and the rest.
pub(crate) fn split_token(text: &[u8]) -> Option<(&[u8], &[u8])> {
    match token_len(text) {
        0 => None,
        len => text.split_at_checked(len),
    }
}

/// Returns whether the whole text is one name or scalar.
pub(crate) fn is_token(text: &[u8]) -> bool {
    token_len(text) == text.len() && !text.is_empty()
}

/// Returns the characters of a name, as they are in a JSON string.
pub(crate) fn characters(name: &[u8]) -> &[u8] {
    match name {
        [b'"', inside @ .., b'"'] => inside,
        _ => name,
    }
}

/// The kind and the name of a message. The name is as in a JSON string, without the quotes.
#[derive(Clone, Copy, Drop)]
pub(crate) struct Title<'t> {
    pub(crate) side: Side,
    pub(crate) kind: Kind,
    pub(crate) name: &'t [u8],
}

/// A title, and two numbers: those that the message has, or those that are expected of it.
#[derive(Clone, Copy, Drop)]
pub(crate) struct Numbered<'t> {
    pub(crate) title: Title<'t>,
    pub(crate) seq: i64,
    pub(crate) request: Option<i64>,
}

/// Returns whether bytes start like a transcript: with the head of a record. No recording and no
/// trace does.
pub fn is_transcript(bytes: &[u8]) -> bool
    ensures { result ≡ starts_with_head bytes.now }
{
    bytes.starts_with(b"- client: ") || bytes.starts_with(b"- adapter: ")
}

/// Returns the side of the head that a line is, and what follows the colon and the blank.
pub(crate) fn split_head(line: &[u8]) -> Option<(Side, &[u8])> {
    if let Some(rest) = line.strip_prefix(b"- client: ") {
        return Some((Side::Client, rest));
    }
    let rest = line.strip_prefix(b"- adapter: ")?;
    Some((Side::Adapter, rest))
}

fn split_kind(words: &[u8]) -> Option<(Kind, &[u8])> {
    if let Some(name) = words.strip_prefix(b"request ") {
        return Some((Kind::Request, name));
    }
    if let Some(name) = words.strip_prefix(b"response ") {
        return Some((Kind::Response, name));
    }
    let name = words.strip_prefix(b"event ")?;
    Some((Kind::Event, name))
}

/// Reads what follows the side in a head.
pub(crate) fn read_title<'t>(side: Side, title: &'t [u8]) -> Option<Title<'t>> {
    let (kind, name) = split_kind(characters(title))?;
    if title.starts_with(b"\"") {
        if !is_token(title) {
            return None;
        }
    } else if word_len(name) < name.len() {
        return None;
    }
    Some(Title { side, kind, name })
}
