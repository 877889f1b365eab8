//! Errors of records.
ghost use Rattle.std.specs.Prelude.{◌≡◌, ◌≤◌, length};
ghost use Rattle.dap_recording.specs.FaultNames.{cause_name};

use dap_frame::FrameFault;
use std::error::Error;
use std::fmt;

/// Why a record is not read.
#[derive(Clone, Copy, Debug, PartialEq, Eq)]
pub enum RecordCause {
    /// The first byte of the record is neither `>` nor `<`.
    ///
    /// - Cause: the input is not a recording, but frames of one direction or another file.
    /// - Fix: for frames of one direction, use `dapnorm compact`.
    BadMarker,
    /// The frame of the record has this error, which is neither `Cut` nor `Memory`.
    Frame(FrameFault),
    /// The byte after the record's frame is not LF.
    ///
    /// - Cause: the length counts characters and not bytes; or the recording was edited, or its
    ///   line ends were changed.
    /// - Fix: count bytes of UTF-8; protect recordings from changes of line ends (`-text` in
    ///   `.gitattributes`).
    NoLineEnd,
    /// The input ends inside the record, after its marker and before its LF. Only
    /// `RecordReader::finish` returns it.
    ///
    /// - Cause: the session was killed while it was written; a length that is too large; an editor
    ///   removed the last LF.
    /// - Fix: cut the recording after the last complete record, or record again.
    Cut,
    /// An allocation failed. The call changed nothing and may be repeated.
    Memory,
}

impl RecordCause {
    /// Returns the name of the cause, or of the error of the frame.
    pub fn name(self) -> &'static str
        ensures name { result.now ≡ cause_name self }
        ensures short { length result.now ≤ 20 }
    {
        match self {
            RecordCause::BadMarker => "BadMarker",
            RecordCause::Frame(fault) => fault.name(),
            RecordCause::NoLineEnd => "NoLineEnd",
            RecordCause::Cut => "Cut",
            RecordCause::Memory => "Memory",
        }
    }
}

impl fmt::Display for RecordCause {
    ghost use Rattle.std.specs.Prelude.{Some};
    ghost use Rattle.dap_recording.specs.FaultNames.{cause_name};

    ghost output = { λ cause. Some (cause_name cause) };

    fn fmt<W: fmt::Write>(&self, f: &mut fmt::Formatter<W>) -> fmt::Result {
        f.write_str(self.name())
    }
}

impl Error for RecordCause {}

/// Which record is not read, and why.
#[derive(Clone, Copy, Debug, PartialEq, Eq)]
pub struct RecordFault {
    /// The number of the record in the recording, from 1. Does not grow beyond 2^64 - 1.
    pub number: u64,
    pub cause: RecordCause,
}
