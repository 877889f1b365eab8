//! Errors of the pieces of a trace.
ghost use Rattle.std.specs.Prelude.{◌≡◌, ◌≤◌, length};
ghost use Rattle.dap_recording.specs.FaultNames.{trace_cause_name};

use std::error::Error;
use std::fmt;

/// Why a piece of a trace is not read.
#[derive(Clone, Copy, Debug, PartialEq, Eq)]
pub enum TraceCause {
    /// The first byte of the piece is neither `>` nor `<`.
    ///
    /// - Cause: the file is not a trace, or the count of the piece before is wrong.
    /// - Fix: check the recorder: it has to count bytes.
    BadMarker,
    /// No count of 1 to 10 decimal digits without leading zeros, and LF, follows the marker. It is
    /// reported at the first byte that proves it.
    ///
    /// - Cause: the file is a recording already; or a count has leading zeros or more than 10
    ///   digits.
    /// - Fix: leave out `dapnorm record` for a recording; write plain decimal counts.
    BadCount,
    /// The trace ends inside the piece. Only `TraceReader::finish` returns it.
    ///
    /// - Cause: the recorder was killed.
    /// - Fix: record again; the frames that ended before have been written.
    Cut,
}

impl TraceCause {
    /// Returns the name of the cause.
    pub fn name(self) -> &'static str
        ensures name { result.now ≡ trace_cause_name self }
        ensures short { length result.now ≤ 20 }
    {
        match self {
            TraceCause::BadMarker => "BadMarker",
            TraceCause::BadCount => "BadCount",
            TraceCause::Cut => "Cut",
        }
    }
}

impl fmt::Display for TraceCause {
    ghost use Rattle.std.specs.Prelude.{Some};
    ghost use Rattle.dap_recording.specs.FaultNames.{trace_cause_name};

    ghost output = { λ cause. Some (trace_cause_name cause) };

    fn fmt<W: fmt::Write>(&self, f: &mut fmt::Formatter<W>) -> fmt::Result {
        f.write_str(self.name())
    }
}

impl Error for TraceCause {}

/// Which piece of a trace is not read, and why.
#[derive(Clone, Copy, Debug, PartialEq, Eq)]
pub struct TraceFault {
    /// The number of the piece in the trace, from 1. Does not grow beyond 2^64 - 1.
    pub piece: u64,
    pub cause: TraceCause,
}
