//! Explains texts that are not transcripts.
ghost use Rattle.std.specs.Prelude.{◌≡◌, IfOk, string_bytes};
ghost use Rattle.dap_explain.specs.{Lines.AreLines, Unexplained.IsEmpty};

use crate::content_faults::explain_transcript_message;
use crate::header::{is_lf, line_at};
use crate::lines::{Lines, fill};
use crate::words::Word::{Cut, Line, Text};
use crate::words::{is_printed, split_characters};
use dap_mask::{ByteClass, name_at, split_run};
use dap_transcript::{TranscriptCause, TranscriptFault, is_transcript, rewrite_transcript};
use dap_tree::{TreeFault, read_tree};
use std::alloc::{AllocError, Global};
use std::str;

/// The forms of a value.
const VALUES: &str =
    "a value is JSON on one line: a string in quotes, an integer of 64 bits, true, false, null, [] or {}";

/// Returns what is wrong with a line that is not one of a transcript, if it is recognised.
fn recognised(line: &[u8]) -> Option<&'static str> {
    let mark = line.get(..7).unwrap_or(&[]);
    if matches!(mark, b"<<<<<<<" | b"|||||||" | b"=======" | b">>>>>>>") {
        Some("it marks a merge conflict: resolve the conflict")
    } else if line.starts_with(b"\xef\xbb\xbf") {
        Some("it begins with a UTF-8 byte order mark: save the file without one")
    } else if line.ends_with(b"\r") {
        Some("it ends with CR LF: git keeps LF if .gitattributes has text eol=lf for transcripts")
    } else if line.contains(&b'\t') {
        Some("it contains a tab: indent by blanks, and write \\t in a string")
    } else if line.trim_ascii().starts_with(b"#") {
        Some("a transcript has no comments: leave it out")
    } else if line.ends_with(b" ") {
        Some("it ends with a blank: remove that")
    } else {
        None
    }
}

/// Returns whether one of the first lines is a head.
fn has_head(text: &[u8], count: usize) -> bool {
    text.split(is_lf)
        .take(count)
        .any(|line| is_transcript(line))
}

/// Adds the lines about a line that cannot be where it is.
fn add_bad_line(lines: &mut Lines, text: &[u8], number: usize, line: &[u8]) {
    if let Some(words) = recognised(line) {
        lines.add(words);
    } else if line.starts_with(b" ") && has_head(text, number) {
        lines.add(
            "an indented line is a member, NAME: VALUE, or an element, - VALUE; nothing comes after the VALUE",
        );
        lines.add(VALUES);
        lines.add(
            "below NAME: are members, indented by two blanks more, or elements, indented like NAME",
        );
    } else {
        lines.add(
            "a record begins with - client: KIND NAME or - adapter: KIND NAME; KIND is request, response or event",
        );
        lines.add(
            "if NAME has other characters than letters, digits and _, KIND NAME is one string in quotes",
        );
    }
}

/// Returns whether bytes are not a value that a message can have.
fn is_bad_value(lines: &mut Lines, value: &[u8]) -> bool {
    let fault = read_tree(lines.alloc, value).err();
    lines.fail_if(fault == Some(TreeFault::Memory));
    matches!(fault, Some(TreeFault::Json | TreeFault::Fraction))
}

/// Returns the value on a line that is not a head, if there is one.
fn value_on<'l>(lines: &mut Lines, line: &'l [u8]) -> Option<&'l [u8]> {
    let part = split_run(line, ByteClass::Blank).1;
    let part = part.strip_prefix(b"- ").unwrap_or(part);
    let name = lines.value_of(name_at(lines.alloc, part))?;
    match (part, name) {
        ([] | [b'-'], _) | (_, Some((_, [b':']))) => None,
        (_, Some((_, [b':', b' ', value @ ..]))) => Some(value),
        _ => Some(part),
    }
}

/// Adds the lines about a record, whose head is at this line, that has a value which no message can
/// have.
fn add_bad_value(lines: &mut Lines, text: &[u8], head: usize) {
    let record = text.split(is_lf).enumerate().skip(head);
    for (before, line) in record.take_while(|(_, line)| !is_transcript(line)) {
        if value_on(lines, line).is_some_and(|value| is_bad_value(lines, value)) {
            add_line(lines, before.saturating_add(1), line);
            return lines.add(VALUES);
        }
    }
    lines.add(
        "a name is not a JSON string, or more than 127 arrays and objects are inside one another",
    );
}

/// Adds the line that shows a line of a text.
fn add_line(lines: &mut Lines, number: usize, line: &[u8]) {
    if let Some(line) = lines.utf8(Line(number), line) {
        fill!(lines; "{0} is: {1}", Line(number), Cut(line));
    }
}

/// The maximum number of equal characters that are shown at the start of two lines.
const LONGEST_PREFIX: usize = 800;

/// The number of equal characters that are shown before a difference after more of them.
const SHOWN_PREFIX: usize = 40;

/// Adds the line that shows a line of a text after these characters, or that there is none.
fn add_shown(lines: &mut Lines, name: &str, line: Option<&str>, skipped: usize) {
    let (text, shown) = match line {
        None => ("{0} nothing", ""),
        Some("") => ("{0} an empty line", ""),
        Some(line) if skipped == 0 => ("{0} {1}", line),
        Some(line) => ("{0} ...{1}", split_characters(line, skipped).1),
    };
    fill!(lines; text, Text(name), Text(shown));
}

/// Adds the lines that show two lines of different texts, from before their first difference on.
fn add_both(lines: &mut Lines, found: Option<&str>, correct: Option<&str>) {
    let (first, second) = (found.unwrap_or(""), correct.unwrap_or(""));
    let both = first.chars().zip(second.chars());
    let equal = both.take_while(|(first, second)| first == second).count();
    let skipped = if equal > LONGEST_PREFIX {
        equal.saturating_sub(SHOWN_PREFIX)
    } else {
        0
    };
    add_shown(lines, "found:  ", found, skipped);
    add_shown(lines, "correct:", correct, skipped);
}

/// Returns the line with this number, if it is UTF-8. After a last LF comes no line.
fn text_at(text: &[u8], number: usize) -> Option<&str> {
    let lines = text.strip_suffix(b"\n").unwrap_or(text);
    str::from_utf8(line_at(lines, number)?).ok()
}

/// Returns whether a line has a character that a terminal does not print. Explanations show it as
/// the escape that is correct.
fn has_unprinted(line: Option<&str>) -> bool {
    line.is_some_and(|line| line.chars().any(|character| !is_printed(character)))
}

/// Returns what to do about a line that is the first one that is not as it is written.
fn advice(text: &[u8], written: &[u8], number: usize) -> &'static str {
    let after = number.saturating_add(1);
    let (found, correct) = (text_at(text, number), text_at(written, number));
    let is_early = found == text_at(written, after);
    let is_late = text_at(text, after) == correct;
    if found == correct {
        "the last line does not end with LF: add it"
    } else if is_early && is_late {
        "members are in the byte order of their names: exchange this line and the next one"
    } else if is_late || correct.is_none() {
        "leave the line out"
    } else if is_early {
        "add the correct line before it"
    } else if has_unprinted(found) && !has_unprinted(correct) {
        "write such a character as an escape: \\u and four hexadecimal digits in lower case"
    } else {
        "write the line so; if a formatter changed it, exclude the file from formatters"
    }
}

/// Adds the lines about the first line of a text that is not as it is written.
fn add_difference(lines: &mut Lines, text: &[u8], number: usize) {
    match rewrite_transcript(lines.alloc, text) {
        Ok(written) => add_first_difference(lines, text, written.as_slice(), number),
        Err(fault) => lines.fail_if(fault.cause == TranscriptCause::Memory),
    }
}

/// Adds the lines about the first line of a text that differs from how the text is written.
fn add_first_difference(lines: &mut Lines, text: &[u8], written: &[u8], number: usize) {
    fill!(lines; "{0} is not as dapnorm writes it", Line(number));
    add_both(lines, text_at(text, number), text_at(written, number));
    lines.add(advice(text, written, number));
}

/// Adds the lines about a line that is not one of a transcript, or a record that is not a message.
fn add_cause(lines: &mut Lines, text: &[u8], fault: TranscriptFault) {
    let (number, line) = (fault.line, line_at(text, fault.line).unwrap_or(&[]));
    add_line(lines, number, line);
    match fault.cause {
        TranscriptCause::BadLine => add_bad_line(lines, text, number, line),
        TranscriptCause::BadValue => add_bad_value(lines, text, number),
        TranscriptCause::Message(fault) => explain_transcript_message(lines, fault),
        TranscriptCause::TooLong => {
            lines.add("its content is longer than the limit: request less at once, or remove it")
        }
        TranscriptCause::Differs | TranscriptCause::Memory => {}
    }
}

/// Adds the lines about a text that is not a transcript.
fn add_fault(lines: &mut Lines, text: &[u8], fault: TranscriptFault)
    ensures { fault.cause ≡ TranscriptCause.Memory → lines.new ≡ lines.old }
{
    match fault.cause {
        TranscriptCause::Memory => {}
        TranscriptCause::Differs => add_difference(lines, text, fault.line),
        _ => add_cause(lines, text, fault),
    }
}

/// Explains why a text is not a transcript: the line, and what would be correct there.
///
/// `text` is the rejected text, and `fault` is the reason. The result is empty after `Memory`.
///
/// # Errors
///
/// `AllocError`: an allocation failed.
pub fn explain_transcript(
    alloc: Global,
    text: &[u8],
    fault: TranscriptFault,
) -> Result<String, AllocError>
    ensures lines { IfOk result (λ text. ∥ AreLines (string_bytes text) ∥₁) }

    // If an allocation failed, there is nothing to explain.
    ensures nothing { fault.cause ≡ TranscriptCause.Memory → IsEmpty result }
{
    let mut lines = Lines::new(alloc);
    add_fault(&mut lines, text, fault);
    lines.into_text()
}
