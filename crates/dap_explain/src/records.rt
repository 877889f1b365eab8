//! Splits an input into its records, and recognises inputs of another format.
ghost use Rattle.std.specs.Prelude.{length};

use crate::explaining::Input;
use crate::header::{is_like_frames, split_count, split_header};
use crate::lines::{Lines, fill};
use crate::words::Word::Bytes;
use dap_frame::Framer;
use dap_input::Limits;
use dap_tree::Side;

/// The format of an input.
#[derive(Clone, Copy, PartialEq, Eq)]
pub enum Format {
    /// Records, each of which is a marker, a frame and LF.
    Recording,
    /// Frames of one direction only, as `compact` reads them.
    Frames,
    /// Pieces, each of which is a marker, a length, LF and as many bytes.
    Trace,
}

/// A record of an input.
#[derive(Clone, Copy)]
pub(crate) struct Record<'a> {
    /// Its number, counted from 1.
    pub(crate) number: u64,
    /// The sender. `None` in frames of one direction.
    pub(crate) side: Option<Side>,
    pub(crate) content: &'a [u8],
}

/// An iterator over the records of an input, up to the first bytes that are not a record.
#[derive(Clone, Copy)]
pub(crate) struct Records<'a> {
    pub(crate) framer: &'a Framer,
    pub(crate) limits: Limits,
    /// The input, with the bytes of the records that are left.
    pub(crate) input: Input<'a>,
    /// The number of the first of them.
    pub(crate) number: u64,
}

impl<'a> Records<'a> {
    /// Returns the records of an input. The framer has the limits of their frames.
    pub(crate) fn new(framer: &'a Framer, limits: Limits, input: Input<'a>) -> Records<'a> {
        Records {
            framer,
            limits,
            input,
            number: 1,
        }
    }

    /// Returns the records from the one with this number on, if those before it exist.
    pub(crate) fn from_number(self, number: u64) -> Option<Records<'a>> {
        let mut records = self;
        for _ in 1..number {
            records.next()?;
        }
        Some(records)
    }

    /// Returns the records before the one with this number, if that exists.
    pub(crate) fn before(self, number: u64) -> Records<'a> {
        let from = self.from_number(number);
        let bytes = from.and_then(|from| self.input.bytes.strip_suffix(from.input.bytes));
        let mut input = self.input;
        input.bytes = bytes.unwrap_or(&[]);
        Records { input, ..self }
    }

    /// Returns the sender of the record at the start of the bytes, and the bytes after its marker.
    pub(crate) fn split_marker(&self) -> Option<(Option<Side>, &'a [u8])> {
        match (self.input.format, self.input.bytes) {
            (Format::Frames, bytes) => Some((None, bytes)),
            (_, [b'>', rest @ ..]) => Some((Some(Side::Client), rest)),
            (_, [b'<', rest @ ..]) => Some((Some(Side::Adapter), rest)),
            _ => None,
        }
    }

    /// Returns the content of the frame at the start of the bytes, and the bytes after the frame.
    pub(crate) fn split_frame(&self, bytes: &'a [u8]) -> Option<(&'a [u8], &'a [u8])> {
        let (frame, rest) = bytes.split_at_checked(self.framer.frame_in(bytes)?)?;
        Some((split_header(frame)?.1, rest))
    }
}

impl<'a> Iterator for Records<'a> {
    ghost use Rattle.std.specs.Iterator.{at_most};

    type Item = Record<'a>;

    ghost remaining = { λ s. at_most (length s.input.bytes.now) };

    fn next(&mut self) -> Option<Record<'a>> {
        let (side, bytes) = self.split_marker()?;
        let (content, after) = self.split_frame(bytes)?;
        let rest = match self.input.format {
            Format::Frames => after,
            _ => after.strip_prefix(b"\n")?,
        };
        // Each record has bytes.
        if rest.len() >= self.input.bytes.len() {
            return None;
        }
        let number = self.number;
        self.input.bytes = rest;
        self.number = number.saturating_add(1);
        Some(Record {
            number,
            side,
            content,
        })
    }
}

/// Adds the lines about an input that seems to have another format than the expected one: how it
/// begins, and what to do. Returns whether it seems so.
pub(crate) fn add_likeness(lines: &mut Lines, bytes: &[u8], expected: Format) -> bool {
    let after_marker = match bytes {
        [b'>' | b'<', rest @ ..] => rest,
        _ => &[],
    };
    // The byte order mark that some editors write before UTF-8.
    let likeness = if bytes.starts_with(b"\xef\xbb\xbf") {
        "the input begins with a UTF-8 byte order mark: save it without one"
    } else if split_count(after_marker).is_some() && expected != Format::Trace {
        "this looks like a trace: dapnorm record makes a recording of it"
    } else if is_like_frames(after_marker) && expected == Format::Trace {
        "this looks like a recording: leave out dapnorm record"
    } else if is_like_frames(after_marker) && expected == Format::Frames {
        "this looks like a recording: dapnorm compact reads frames without > and <"
    } else if is_like_frames(bytes) && expected != Format::Frames {
        "this looks like frames without > and <: only dapnorm compact reads these"
    } else if matches!(bytes, [b'{' | b'[', ..]) {
        "this looks like JSON without frames: each message needs a header part"
    } else {
        return false;
    };
    fill!(lines; "the input begins {0}", Bytes(bytes));
    lines.add(likeness);
    true
}
