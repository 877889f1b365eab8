//! Explains contents that are not JSON, or not messages of the profile.
use crate::head::{Head, add_head, add_sender};
use crate::lines::{Lines, fill};
use crate::records::Record;
use crate::words::Word::{Bytes, Content, Cut, Number, Text};
use crate::words::{Path, Step};
use dap_message::{MessageFault, first_break};
use dap_profile::{Kind, Place, Row, Want, profile_rows};
use dap_tree::Tree;
use json::{Reader, Scratch, Token};
use serde_json::{Error, Value};
use std::alloc::{AllocError, Global};
use std::fmt::{self, Display, Formatter, Write};

/// The maximum nesting depth of arrays and objects.
const MAX_DEPTH: usize = 127;

/// The number of bytes that are shown before the position of an error.
const BEFORE: usize = 20;

/// Stores a member of a message, whose name is this key, in its head.
fn take_member<'t>(head: &mut Head<'t>, key: Token<'_>, value: Token<'t>) {
    match (key, value) {
        (Token::Key("type"), Token::String(text)) => head.kind = Kind::named(text),
        (Token::Key("command"), Token::String(text)) => head.command = Some(text),
        (Token::Key("event"), Token::String(text)) => head.event = Some(text),
        (Token::Key("request_seq"), Token::Number(text)) => {
            head.request_seq = text.parse::<i64>().ok()
        }
        _ => {}
    }
}

/// Returns whether a token is an error at this depth, although it is valid JSON: it is nested too
/// deep, or a number outside the range of 64-bit floats.
fn is_fault(token: Token<'_>, depth: usize) -> bool {
    match token {
        Token::BeginObject | Token::BeginArray => depth > MAX_DEPTH,
        Token::Number(text) => text.parse::<f64>().is_ok_and(|number| number.is_infinite()),
        _ => false,
    }
}

/// Reads the tokens of a string, up to the first token that is not JSON. Returns the head of the
/// message, and the first token that is an error.
fn read_tokens<'t>(
    text: &'t str,
    scratch: &'t mut Scratch<Global>,
) -> Result<(Head<'t>, Option<Token<'t>>), AllocError> {
    let mut reader = Reader::new(text, scratch)?;
    let (mut head, mut fault) = (Head::default(), None);
    let (mut depth, mut key) = (0usize, Token::Null);
    while let Some(token) = reader.next() {
        match token {
            Token::BeginObject | Token::BeginArray => depth = depth.saturating_add(1),
            Token::EndObject | Token::EndArray => depth = depth.saturating_sub(1),
            Token::Key(_) if depth == 1 => key = token,
            _ if depth == 1 => take_member(&mut head, key, token),
            _ => {}
        }
        if fault.is_none() && is_fault(token, depth) {
            fault = Some(token);
        }
    }
    Ok((head, fault))
}

/// Returns the position of an error in a string, in bytes.
fn offset_of(text: &str, error: &Error) -> usize {
    let breaks = error.line().checked_sub(2);
    let before = breaks.and_then(|breaks| text.match_indices('\n').nth(breaks));
    let start = before.map_or(0, |(index, _)| index.saturating_add(1));
    start.saturating_add(error.column()).saturating_sub(1)
}

/// Returns the number of an escape such as `\ud800`, with which the string starts.
fn code_unit(escape: &str) -> Option<u32> {
    let digits = escape.strip_prefix("\\u")?.get(..4)?;
    u32::from_str_radix(digits, 16).ok()
}

/// Returns the first escape of a surrogate without its other half, in a JSON string that starts
/// with its quote. `None`: there is none before the end of the string or an invalid escape.
fn lone_surrogate(string: &str) -> Option<&str> {
    let mut rest = string.get(1..)?;
    for _ in 0..string.len() {
        let escape = rest.get(rest.find(['"', '\\'])?..)?;
        let length = match (code_unit(escape), escape.get(6..).and_then(code_unit)) {
            (Some(0xD800..=0xDBFF), Some(0xDC00..=0xDFFF)) => 12,
            (Some(0xD800..=0xDFFF), _) => return escape.get(..6),
            (Some(_), _) => 6,
            _ if escape.starts_with('"') || escape.starts_with("\\u") => return None,
            _ => 2,
        };
        rest = escape.get(length..)?;
    }
    None
}

/// Adds the lines about a string that is not JSON, with the error at this offset.
fn add_syntax(lines: &mut Lines, record: Record<'_>, text: &str, offset: usize, is_cut: bool) {
    let name = Content(record.number);
    let escape = text.get(offset..).and_then(lone_surrogate);
    if let Some(escape) = escape.filter(|_| !is_cut) {
        fill!(lines;
            "record {0} has the escape {1}, a surrogate alone: JSON allows it, but no Unicode text has it",
            Number(record.number), Text(escape));
        return lines.add(
            "let the program that sent it write both halves of the character, or \\ufffd",
        );
    }
    let near = text.as_bytes().get(offset.saturating_sub(BEFORE)..);
    let (len, offset) = (Number(text.len() as u64), Number(offset as u64));
    let text = if is_cut {
        "{0} ends after {1} bytes, before its JSON text does"
    } else {
        "{0} is not JSON near byte {2}: {3}"
    };
    fill!(lines; text, name, len, offset, Bytes(near.unwrap_or(&[])));
    add_sender(lines, record.side);
}

/// Adds the lines about a token of a record that is an error, although it is valid JSON.
fn add_token(lines: &mut Lines, number: u64, token: Token<'_>) {
    if let Token::Number(text) = token {
        fill!(lines; "the number {0} of record {1} is outside the range of 64-bit floats",
            Cut(text), Number(number));
        lines.add("let the program that sent it write a number of that range");
    } else {
        fill!(lines; "record {0} has more than {1} arrays and objects inside one another, which dapnorm does not read",
            Number(number), Number(MAX_DEPTH as u64));
    }
}

/// Adds the lines about the content of a record, which is this string and is not JSON.
fn add_fault(lines: &mut Lines, record: Record<'_>, text: &str, error: &Error) {
    let mut scratch = Scratch::new(lines.alloc);
    let Some((head, fault)) = lines.value_of(read_tokens(text, &mut scratch)) else {
        return;
    };
    if head.kind.is_some() {
        let side = record.side;
        add_head(lines, record.number, &Head { side, ..head });
    }
    match fault {
        None => add_syntax(lines, record, text, offset_of(text, error), error.is_eof()),
        Some(token) => add_token(lines, record.number, token),
    }
}

/// Explains that the content of a record is not JSON.
pub(crate) fn explain_json(lines: &mut Lines, record: Record<'_>) {
    let Some(text) = lines.utf8(Content(record.number), record.content) else {
        return add_sender(lines, record.side);
    };
    if let Err(error) = Value::from_str(lines.alloc, text) {
        lines.fail_if(error.is_memory());
        add_fault(lines, record, text, &error);
    }
}

/// The types of messages.
const TYPES: &str = "a message has the type \"request\", \"response\" or \"event\"";

/// Returns the type that a row expects, in words.
fn want_words(want: Want) -> &'static str {
    match want {
        Want::Bool => "true or false",
        Want::Whole => "an integer",
        Want::Text => "a string",
        Want::Object => "an object",
        Want::List => "an array",
        Want::OwnSeq => "an integer (a sequence number of the sender)",
        Want::OtherSeq => "an integer (a sequence number of the other side)",
        Want::Frame => "an integer (a frame id)",
        Want::Reference => "an integer (a variables reference)",
        Want::Thread => "an integer (a thread id)",
        Want::Breakpoint => "an integer (a breakpoint id)",
    }
}

/// Returns the JSON type of a value, in words.
fn type_words(value: &Tree) -> &'static str {
    match value {
        Tree::Null => "null",
        Tree::Bool(_) => "true or false",
        Tree::Whole(_) | Tree::Id(..) => "a number",
        Tree::Text(_) => "a string",
        Tree::List(_) => "an array",
        Tree::Object(_) => "an object",
    }
}

/// Adds the lines about a message whose type the protocol does not define.
fn add_unknown_type(lines: &mut Lines, record: Record<'_>, message: &Tree) {
    let kind = message.child("type");
    let text = match kind {
        Some(_) => "the type of record {0} is {1}",
        None => "the message of record {0} has no member \"type\"",
    };
    let kind = lines.json(kind);
    fill!(lines; text, Number(record.number), Cut(kind.as_str()));
    lines.add(TYPES);
    if message.child("jsonrpc").is_none() {
        return add_sender(lines, record.side);
    }
    lines.add("its member \"jsonrpc\" is that of another protocol, such as a language server's");
    lines.add("record the session of the debug adapter instead");
}

/// Displays the path of a row in the notation of `diff`, with this index of the array element.
#[derive(Clone, Copy)]
struct RowPath(Place, Option<usize>);

impl Display for RowPath {
    fn fmt<W: Write>(&self, f: &mut Formatter<W>) -> fmt::Result {
        let steps = &[Step::Element(self.1.unwrap_or(0))];
        let is_of_rule = self.1.is_none();
        let element = Path { steps, is_of_rule };
        match self.0 {
            Place::Member(name) => f.write_str(name),
            Place::Inner(outer, name) => write!(f, "{outer}.{name}"),
            Place::Deep(outer, inner, name) => write!(f, "{outer}.{inner}.{name}"),
            Place::Element(outer, list) => write!(f, "{outer}.{list}{element}"),
            Place::Part(outer, list, name) => write!(f, "{outer}.{list}{element}.{name}"),
        }
    }
}

/// Returns the row of the profile with this number.
fn row_at(number: u16) -> Option<&'static Row> {
    let rows: &[Row] = profile_rows();
    rows.get(usize::from(number).saturating_sub(1))
}

/// Adds the line about a value that violates a row: what is there, at this index of the array, and
/// what the profile requires.
fn add_break(lines: &mut Lines, row: &Row, element: Option<usize>, found: &str) {
    let path = lines.display(RowPath(row.place, element));
    let (number, wanted) = (Number(u64::from(row.number)), Text(want_words(row.want)));
    fill!(lines; "{0} is {1}; the profile requires {2} there (dapnorm rows {3})",
        Text(path.as_str()), Cut(found), wanted, number);
}

/// Adds the lines about a message that violates the row with this number.
fn add_row(lines: &mut Lines, record: Record<'_>, message: &Tree, number: u16) {
    add_head(lines, record.number, &Head::of(record.side, message));
    if let Some(row) = row_at(number)
        && let Some(fault) = first_break(row, message)
    {
        let found = lines.json(fault.value);
        add_break(lines, row, Some(fault.element), found.as_str());
        add_sender(lines, record.side);
    }
}

/// Explains that the content of a record, which is this value, is not a message.
pub(crate) fn explain_message(
    lines: &mut Lines,
    record: Record<'_>,
    message: &Tree,
    fault: MessageFault,
) {
    match fault {
        MessageFault::NotObject => {
            fill!(lines; "{0} is {1}; a message is a JSON object",
                Content(record.number), Text(type_words(message)));
            add_sender(lines, record.side);
        }
        MessageFault::UnknownType => add_unknown_type(lines, record, message),
        MessageFault::Missing(row) | MessageFault::WrongType(row) => {
            add_row(lines, record, message, row)
        }
        MessageFault::Memory => {}
    }
}

/// Explains that a record of a transcript is not a message.
pub(crate) fn explain_transcript_message(lines: &mut Lines, fault: MessageFault) {
    let (number, found) = match fault {
        MessageFault::UnknownType => return lines.add(TYPES),
        MessageFault::Missing(number) => (number, "missing"),
        MessageFault::WrongType(number) => (number, "of another type"),
        MessageFault::NotObject | MessageFault::Memory => return,
    };
    if let Some(row) = row_at(number) {
        add_break(lines, row, None, found);
        if row.place == Place::Member("request_seq") {
            lines.add(
                "no earlier request of this command is open: add the request, or request_seq",
            );
        }
    }
}
