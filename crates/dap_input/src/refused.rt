//! Why an engine stopped.
ghost use Rattle.std.specs.Prelude.{◌≡◌, ◌+◌, ◌≤◌, ◌++◌, length};
ghost use Rattle.dap_input.specs.RefusedText.{parts_of, reason_text, refused_text};
ghost use Rattle.dap_message.specs.MessageFaultText.{digits_of};

use arrayvec::ArrayString;
use dap_message::MessageFault;
use dap_recording::{RecordCause, RecorderFault, TraceCause};
use dap_session::Rule;
use itoa::Buffer;
use std::{error, fmt};

/// The maximum length of the text of an error in bytes.
pub const TEXT: usize = 144;

/// The maximum length of each of its two parts, the place and the reason, in bytes.
pub const PART: usize = 72;

/// Why an engine stopped, and at which record or piece of a trace, counted from 1. The inner error
/// is never an allocation failure.
///
/// Its `Display` output is [`Refused::text`].
#[derive(Clone, Copy, Debug, PartialEq, Eq)]
pub enum Refused {
    /// The input has more bytes than its limit, 4,294,967,296 in the program. The first byte past
    /// the limit is in this record.
    ///
    /// - Cause: a very long session.
    /// - Fix: record shorter sessions.
    InputTooLong(u64),
    /// The bytes of this record are not a record.
    Record(u64, RecordCause),
    /// The content of this record is not JSON, or nests more than 127 arrays and objects.
    Json(u64),
    /// The content of this record has a number that is not an integer from -2^63 to 2^64 - 1.
    Fraction(u64),
    /// The content of this record is not a message of the profile.
    Message(u64, MessageFault),
    /// The message of this record violates a rule of its session.
    Rule(u64, Rule),
    /// With this record, there are more distinct ids of one kind than the limit, 2,147,483,647 in
    /// the program. With `--per-stop`, frame ids and variables references are counted between two
    /// stops.
    ///
    /// - Cause: a very long session.
    /// - Fix: record shorter sessions.
    TooManyIds(u64),
    /// With this record, the output would exceed a limit: 16,777,216 bytes of a content, or
    /// 4,294,967,296 bytes of output.
    ///
    /// - Cause: a recording near these limits, whose text grows by the capabilities that are added.
    /// - Fix: record shorter sessions.
    Grew(u64),
    /// The recording is accepted, but so many requests of the client and of the adapter have no
    /// response. `check --complete` and `golden` report it.
    ///
    /// - Cause: the session ended before they were answered.
    /// - Fix: let the client wait for each response, including that to `disconnect`.
    Incomplete(usize, usize),
    /// The trace has more bytes than its limit, 4,294,967,296 in the program. The first byte past
    /// the limit is in this piece.
    ///
    /// - Cause: a very long session.
    /// - Fix: record shorter sessions.
    TraceTooLong(u64),
    /// The bytes of this piece are not a piece of a trace.
    Trace(u64, TraceCause),
    /// In this piece a frame of one side has an error, one of those above; or it is the last piece,
    /// and a frame of a side has not ended.
    ///
    /// - Cause: as there; or a side stopped inside a frame.
    /// - Fix: as there.
    Recorder(u64, RecorderFault),
    /// A reader failed.
    ///
    /// - Cause: a wrong name, a folder in place of a file, no permission to read.
    /// - Fix: check the name and its permissions.
    ReadFault,
    /// A writer failed.
    ///
    /// - Cause: a full disk, or a closed pipe, such as that to `head`.
    /// - Fix: make room, or read the output to its end.
    WriteFault,
    /// An allocation failed.
    ///
    /// - Cause: a limit of the process, or a very large session.
    /// - Fix: raise the limit, or record shorter sessions.
    Memory,
}

/// Returns three words with two numbers between them.
fn words(
    first: &str,
    one: Option<u64>,
    second: &str,
    two: Option<u64>,
    third: &str,
) -> ArrayString<PART>
    requires { length first.now + length second.now + length third.now ≤ 32 }
    ensures { result.bytes
        ≡ first.now ++ digits_of one ++ second.now ++ digits_of two ++ third.now }
{
    let mut text = ArrayString::new();
    let mut digits = Buffer::new();
    text.push_str(first);
    if let Some(one) = one {
        text.push_str(digits.format(one));
    }
    text.push_str(second);
    if let Some(two) = two {
        text.push_str(digits.format(two));
    }
    text.push_str(third);
    text
}

/// Returns one word.
fn word(name: &str) -> ArrayString<PART>
    requires { length name.now ≤ 32 }
    ensures { result.bytes ≡ name.now }
{
    words(name, None, "", None, "")
}

impl Refused {
    /// Returns the reason without the record or piece. Does not allocate.
    pub fn reason(self) -> ArrayString<PART>
        ensures { result.bytes ≡ reason_text self }
    {
        match self {
            Refused::InputTooLong(_) => word("InputTooLong"),
            Refused::Record(_, cause) => word(cause.name()),
            Refused::Json(_) => word("Json"),
            Refused::Fraction(_) => word("Fraction"),
            Refused::Message(_, fault) => {
                let (first, row) = fault.words();
                words(first, row, "", None, "")
            }
            Refused::Rule(_, rule) => word(rule.name()),
            Refused::TooManyIds(_) => word("TooManyIds"),
            Refused::Grew(_) => word("Grew"),
            Refused::Incomplete(client, adapter) => {
                let (client, adapter) = (Some(client as u64), Some(adapter as u64));
                words("incomplete: ", client, " client, ", adapter, " adapter")
            }
            Refused::TraceTooLong(_) => word("TraceTooLong"),
            Refused::Trace(_, cause) => word(cause.name()),
            Refused::Recorder(_, fault) => {
                let (first, second) = fault.words();
                words(first, None, second, None, "")
            }
            Refused::ReadFault => word("read fault"),
            Refused::WriteFault => word("write fault"),
            Refused::Memory => word("out of memory"),
        }
    }

    /// Returns the record or piece that is rejected, if there is one.
    fn place(self) -> ArrayString<PART>
        ensures { result.bytes ≡ (parts_of self).0 }
    {
        let (part, number) = match self {
            Refused::InputTooLong(number)
            | Refused::Record(number, _)
            | Refused::Json(number)
            | Refused::Fraction(number)
            | Refused::Message(number, _)
            | Refused::Rule(number, _)
            | Refused::TooManyIds(number)
            | Refused::Grew(number) => ("record ", number),
            Refused::TraceTooLong(number)
            | Refused::Trace(number, _)
            | Refused::Recorder(number, _) => ("piece ", number),
            _ => return word(""),
        };
        words(part, Some(number), ": ", None, "")
    }

    /// Returns the text that the program prints after `dapnorm: `. Does not allocate.
    pub fn text(self) -> ArrayString<TEXT>
        ensures { result.bytes ≡ refused_text self }
    {
        let mut text = ArrayString::new();
        text.push_str(self.place().as_str());
        text.push_str(self.reason().as_str());
        text
    }
}

impl fmt::Display for Refused {
    ghost use Rattle.std.specs.Prelude.{Some};
    ghost use Rattle.dap_input.specs.RefusedText.{refused_text};

    ghost output = { λ refused. Some (refused_text refused) };

    fn fmt<W: fmt::Write>(&self, f: &mut fmt::Formatter<W>) -> fmt::Result {
        f.write_str(self.text().as_str())
    }
}

impl error::Error for Refused {}
