//! Errors of frames.
ghost use Rattle.std.specs.Prelude.{◌≡◌, ◌≤◌, length};
ghost use Rattle.dap_frame.specs.FaultName.{fault_name};

use std::error::Error;
use std::fmt;

/// Why a frame is not read or written.
///
/// A header part is checked when its first CR LF CR LF has arrived, as a whole. The first of
/// `HeaderLine`, `NoLength`, `TwoLengths`, `BadLength` and `ContentTooLong` that applies to it is
/// returned. The base protocol defines the form of a header part. The limits and this order are
/// this crate's own.
#[derive(Clone, Copy, Debug, PartialEq, Eq)]
pub enum FrameFault {
    /// A line of the header part is not a field line: a name of one or more bytes 0x21 to 0x7E
    /// other than a colon, a colon, and a value of bytes 0x20 to 0x7E and TAB.
    ///
    /// - Cause: text that the adapter printed on its standard output; or the file is a trace, if N
    ///   is 1.
    /// - Fix: send the adapter's own text to standard error or into `output` events; make a
    ///   recording of a trace with `dapnorm record`.
    HeaderLine,
    /// No field is named `Content-Length`, in upper or lower case.
    ///
    /// - Cause: as for `HeaderLine`, or a sender that leaves the field out.
    /// - Fix: look at the bytes of the record, and fix the sender.
    NoLength,
    /// More than one field is named `Content-Length`, even if their values agree.
    ///
    /// - Cause: the sender wrote it twice.
    /// - Fix: fix the sender.
    TwoLengths,
    /// The length, without spaces and tabs around it, is not 1 to 10 decimal digits.
    ///
    /// - Cause: the sender wrote a sign, a unit or nothing.
    /// - Fix: fix the sender.
    BadLength,
    /// The header part has not ended after as many bytes as its limit allows, 4,096 in the program.
    ///
    /// - Cause: the bytes are not a frame, or lines of the header part end with LF instead of CR
    ///   LF.
    /// - Fix: end each header line with CR LF, and the header part with another CR LF.
    HeaderTooLong,
    /// The length is above the limit of a content, 16,777,216 bytes in the program. It is reported
    /// at the end of the header part.
    ///
    /// - Cause: a very long response, or a length that the sender did not mean.
    /// - Fix: request less at once, for example with `start` and `count` of `variables`.
    ContentTooLong,
    /// The stream ends inside a frame. Only `Framer::finish` returns it.
    Cut,
    /// An allocation failed. The call changed nothing and may be repeated.
    Memory,
}

impl FrameFault {
    /// Returns the name of the error.
    pub fn name(self) -> &'static str
        ensures name { result.now ≡ fault_name self }
        ensures short { length result.now ≤ 20 }
    {
        match self {
            FrameFault::HeaderLine => "HeaderLine",
            FrameFault::NoLength => "NoLength",
            FrameFault::TwoLengths => "TwoLengths",
            FrameFault::BadLength => "BadLength",
            FrameFault::HeaderTooLong => "HeaderTooLong",
            FrameFault::ContentTooLong => "ContentTooLong",
            FrameFault::Cut => "Cut",
            FrameFault::Memory => "Memory",
        }
    }
}

impl fmt::Display for FrameFault {
    ghost use Rattle.std.specs.Prelude.{Some};
    ghost use Rattle.dap_frame.specs.FaultName.{fault_name};

    ghost output = { λ fault. Some (fault_name fault) };

    fn fmt<W: fmt::Write>(&self, f: &mut fmt::Formatter<W>) -> fmt::Result {
        f.write_str(self.name())
    }
}

impl Error for FrameFault {}
