//! Errors of a transcript.
ghost use Rattle.std.specs.Prelude.{◌≡◌, ◌++◌};
ghost use Rattle.dap_message.specs.MessageFaultText.{digits_of};
ghost use Rattle.dap_transcript.specs.TranscriptCauseText.{transcript_cause_text};

use dap_message::MessageFault;
use std::alloc::{AllocError, AllocFailed};
use std::{error, fmt};
use thiserror::Error;

/// Why a text is not a transcript.
///
/// The records are read first, then the whole text is compared with the transcript of what was
/// read. So `Differs` is reported only if every record is a message, and
/// [`rewrite_transcript`](crate::rewrite_transcript) then returns what would be written.
#[derive(Clone, Copy, Debug, PartialEq, Eq)]
pub enum TranscriptCause {
    /// The line is not the head of a record, a member or an element, or it cannot be at its
    /// indentation after the lines before it.
    ///
    /// - Cause: a merge conflict, a tab, a comment, CR LF, single quotes, a blank at the end of the
    ///   line, or another file.
    /// - Fix: resolve the conflict, or write the file again with `golden --update`.
    BadLine,
    /// The record that starts at the line has a value that is not JSON in UTF-8, a number that is
    /// not an integer of 64 bits, or more than 127 nested values.
    ///
    /// - Cause: a string without quotes, or a fraction.
    /// - Fix: write the value as JSON, on one line.
    BadValue,
    /// The record that starts at the line violates row R of the profile.
    ///
    /// - Cause: a member that the profile requires was deleted, such as the `request_seq` of a
    ///   response to no open request.
    /// - Fix: add the member.
    Message(MessageFault),
    /// The line is not as it would be written, or it would not be written.
    ///
    /// - Cause: an expected number that is written, names in another order or twice, quotes around
    ///   a plain name, an empty line, or no LF after the last line.
    /// - Fix: write the line as `--explain` shows it, and exclude the file from formatters.
    Differs,
    /// The content of the record that starts at the line is longer than the limit.
    ///
    /// - Cause: the session has a message that no client or adapter accepts.
    /// - Fix: remove the record.
    TooLong,
    /// An allocation failed. The line has no meaning.
    Memory,
}

impl TranscriptCause {
    /// Returns the words of the text, and the row of the profile that is violated, which follows
    /// them.
    pub fn words(self) -> (&'static str, Option<u64>)
        ensures { result.0.now ++ digits_of result.1 ≡ transcript_cause_text self }
    {
        match self {
            TranscriptCause::BadLine => ("BadLine", None),
            TranscriptCause::BadValue => ("BadValue", None),
            TranscriptCause::Message(fault) => fault.words(),
            TranscriptCause::Differs => ("Differs", None),
            TranscriptCause::TooLong => ("TooLong", None),
            TranscriptCause::Memory => ("Memory", None),
        }
    }
}

impl fmt::Display for TranscriptCause {
    ghost use Rattle.std.specs.Prelude.{Some};
    ghost use Rattle.dap_transcript.specs.TranscriptCauseText.{transcript_cause_text};

    ghost output = { λ cause. Some (transcript_cause_text cause) };

    fn fmt<W: fmt::Write>(&self, f: &mut fmt::Formatter<W>) -> fmt::Result {
        match self {
            TranscriptCause::BadLine => f.write_str("BadLine"),
            TranscriptCause::BadValue => f.write_str("BadValue"),
            TranscriptCause::Message(fault) => fault.fmt(f),
            TranscriptCause::Differs => f.write_str("Differs"),
            TranscriptCause::TooLong => f.write_str("TooLong"),
            TranscriptCause::Memory => f.write_str("Memory"),
        }
    }
}

impl error::Error for TranscriptCause {}

impl From<AllocError> for TranscriptCause {
    ghost use Rattle.dap_transcript.specs.declared.fault.TranscriptCause.TheVariants.{Memory};

    ghost from_gives = { λ _ c. c ≡ Memory };

    fn from(_: AllocError) -> TranscriptCause {
        TranscriptCause::Memory
    }
}

impl<T: Drop> From<AllocFailed<T>> for TranscriptCause {
    ghost use Rattle.dap_transcript.specs.declared.fault.TranscriptCause.TheVariants.{Memory};

    ghost from_gives = { λ _ c. c ≡ Memory };

    fn from(_: AllocFailed<T>) -> TranscriptCause {
        TranscriptCause::Memory
    }
}

/// The line of a text that is not a transcript, and the reason.
#[derive(Clone, Copy, Debug, PartialEq, Eq, Error)]
#[error("line {line}: {cause}")]
pub struct TranscriptFault {
    /// The line number, counted from 1.
    pub line: usize,
    pub cause: TranscriptCause,
}

impl TranscriptFault {
    /// Returns the fault of an allocation that failed after the records were read.
    pub(crate) fn memory() -> TranscriptFault
        ensures { result.cause ≡ TranscriptCause.Memory }
    {
        TranscriptFault {
            line: 1,
            cause: TranscriptCause::Memory,
        }
    }
}
