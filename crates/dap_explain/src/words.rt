//! Displays parts of an input, and paths into its messages, in the words of a line.
use dap_mask::{ByteClass, split_run};
use dap_tree::Side;
use std::fmt::{self, Display, Formatter, Write};

/// The number of bytes that are shown at the position of an error.
const SHOWN_BYTES: usize = 40;

/// The number of characters that are shown of a value.
const SHOWN_CHARACTERS: usize = 60;

/// The maximum number of characters that are written of a line.
const LONGEST: usize = 1_000;

/// A word of a line that is not fixed.
#[derive(Clone, Copy)]
pub(crate) enum Word<'a> {
    Number(u64),
    Seq(i64),
    Side(Side),
    Text(&'a str),
    /// The first 60 characters of a string, as those of a line.
    Cut(&'a str),
    /// At most 1,000 characters of a string, followed by `...` if there are more. A character that
    /// a terminal does not print is displayed as a JSON escape.
    Whole(&'a str),
    /// The first 40 bytes of these in quotes, followed by `...` if there are more. A byte that is
    /// not printable ASCII is escaped as in a byte string of Rust.
    Bytes(&'a [u8]),
    /// A space and a name as JSON, if there is one.
    Named(Option<&'a str>),
    /// The record with this number.
    Record(u64),
    /// The content of the record with this number.
    Content(u64),
    /// The frame of this side in a trace.
    FrameOf(Side),
    /// The line of a file with this number.
    Line(usize),
}

impl Display for Word<'_> {
    fn fmt<W: Write>(&self, f: &mut Formatter<W>) -> fmt::Result {
        match *self {
            Word::Number(number) => number.fmt(f),
            Word::Seq(number) => number.fmt(f),
            Word::Side(side) => side.fmt(f),
            Word::Text(text) => f.write_str(text),
            Word::Cut(text) => write_start(f, text, SHOWN_CHARACTERS),
            Word::Whole(text) => write_start(f, text, LONGEST),
            Word::Bytes(bytes) => write_bytes(f, bytes),
            Word::Named(None) => Ok(()),
            Word::Named(Some(name)) => {
                f.write_str(" ")?;
                write_quoted(f, name)
            }
            Word::Record(number) => write!(f, "record {number}"),
            Word::Content(number) => write!(f, "the content of record {number}"),
            Word::FrameOf(side) => write!(f, "the frame of the {side}"),
            Word::Line(number) => write!(f, "line {number}"),
        }
    }
}

/// Displays a text with a word in place of each `{0}`, `{1}` and so on.
#[derive(Clone, Copy)]
pub(crate) struct Filled<'a> {
    pub(crate) text: &'a str,
    pub(crate) words: &'a [Word<'a>],
}

impl Display for Filled<'_> {
    fn fmt<W: Write>(&self, f: &mut Formatter<W>) -> fmt::Result {
        for part in self.text.split(['{', '}']) {
            let index = part.parse::<usize>();
            match index.ok().and_then(|index| self.words.get(index)) {
                Some(word) => word.fmt(f)?,
                None => f.write_str(part)?,
            }
        }
        Ok(())
    }
}

/// Writes at most this number of characters of a string, as those of a line.
fn write_start<W: Write>(f: &mut Formatter<W>, text: &str, count: usize) -> fmt::Result {
    let (shown, rest) = split_characters(text, count);
    for character in shown.chars() {
        if is_printed(character) {
            f.write_char(character)?;
        } else {
            write!(f, "\\u{:04x}", u32::from(character))?;
        }
    }
    f.write_str(if rest.is_empty() { "" } else { "..." })
}

/// Writes the first bytes in quotes, followed by `...` if there are more.
fn write_bytes<W: Write>(f: &mut Formatter<W>, bytes: &[u8]) -> fmt::Result {
    let shown = bytes.get(..SHOWN_BYTES).unwrap_or(bytes);
    f.write_str("\"")?;
    for byte in shown {
        write_escaped(f, char::from(*byte), true)?;
    }
    let is_cut = shown.len() < bytes.len();
    f.write_str(if is_cut { "\"..." } else { "\"" })
}

/// Splits a string after this number of characters, or at its end.
pub(crate) fn split_characters(text: &str, count: usize) -> (&str, &str) {
    let rest = text.char_indices().nth(count);
    let end = rest.map_or(text.len(), |(end, _)| end);
    text.split_at_checked(end).unwrap_or((text, ""))
}

/// Returns whether a terminal prints a character. This excludes control characters of Unicode, line
/// separators, and characters that change the direction of text.
pub(crate) fn is_printed(character: char) -> bool {
    !matches!(
        character,
        '\0'..='\u{1f}'
            | '\u{7f}'..='\u{9f}'
            | '\u{200e}'..='\u{200f}'
            | '\u{2028}'..='\u{202e}'
            | '\u{2066}'..='\u{2069}'
    )
}

/// Writes a string as JSON, in quotes.
fn write_quoted<W: Write>(f: &mut Formatter<W>, text: &str) -> fmt::Result {
    f.write_str("\"")?;
    for character in text.chars() {
        write_escaped(f, character, false)?;
    }
    f.write_str("\"")
}

/// Writes a character as in a JSON string, or as in a byte string of Rust.
fn write_escaped<W: Write>(f: &mut Formatter<W>, character: char, is_byte: bool) -> fmt::Result {
    match character {
        '"' | '\\' => write!(f, "\\{character}"),
        '\n' => f.write_str("\\n"),
        '\r' => f.write_str("\\r"),
        '\t' => f.write_str("\\t"),
        ' '..='~' => f.write_char(character),
        _ if is_byte => write!(f, "\\x{:02x}", u32::from(character)),
        '\0'..='\u{1f}' => write!(f, "\\u{:04x}", u32::from(character)),
        _ => f.write_char(character),
    }
}

/// A step into a JSON value.
#[derive(Clone, Copy, PartialEq)]
pub(crate) enum Step<'a> {
    /// To the member of an object with this name.
    Member(&'a str),
    /// To the element of an array with this index, counted from 0.
    Element(usize),
}

/// Displays a path in the notation of `diff`, such as `body.stackFrames[2].line`, or of a mask rule
/// that matches it, such as `body.stackFrames[].line`.
#[derive(Clone, Copy)]
pub(crate) struct Path<'p> {
    pub(crate) steps: &'p [Step<'p>],
    pub(crate) is_of_rule: bool,
}

impl Display for Path<'_> {
    fn fmt<W: Write>(&self, f: &mut Formatter<W>) -> fmt::Result {
        if self.steps.is_empty() && !self.is_of_rule {
            f.write_str(".")?;
        }
        for (index, step) in self.steps.iter().enumerate() {
            match step {
                Step::Member(name) if index == 0 => Name(name).fmt(f)?,
                Step::Member(name) => write!(f, ".{}", Name(name))?,
                Step::Element(_) if self.is_of_rule => f.write_str("[]")?,
                Step::Element(element) => write!(f, "[{element}]")?,
            }
        }
        Ok(())
    }
}

/// Displays a name in the notation of paths and rules: unchanged, or as a JSON string.
#[derive(Clone, Copy)]
pub(crate) struct Name<'a>(pub(crate) &'a str);

impl Display for Name<'_> {
    fn fmt<W: Write>(&self, f: &mut Formatter<W>) -> fmt::Result {
        match split_run(self.0.as_bytes(), ByteClass::Plain) {
            ([_, ..], []) => f.write_str(self.0),
            _ => write_quoted(f, self.0),
        }
    }
}
