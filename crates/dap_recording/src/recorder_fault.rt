//! Errors of recorders.
ghost use Rattle.std.specs.Prelude.{◌≡◌, ◌+◌, ◌≤◌, ◌++◌, length};
ghost use Rattle.dap_recording.specs.FaultNames.{recorder_fault_text};

use dap_frame::FrameFault;
use dap_tree::Side;
use std::{error, fmt};

/// Why a recorder stopped.
#[derive(Clone, Copy, Debug, PartialEq, Eq)]
pub enum RecorderFault {
    /// A frame of this side has an error, or is incomplete at the end.
    Frame(Side, FrameFault),
    /// An allocation failed. The call has changed nothing and may be repeated.
    Memory,
}

impl RecorderFault {
    /// Returns the two words of the text: the side with a space, and the name of its error.
    pub fn words(self) -> (&'static str, &'static str)
        ensures text { result.0.now ++ result.1.now ≡ recorder_fault_text self }
        ensures short { length result.0.now + length result.1.now ≤ 28 }
    {
        match self {
            RecorderFault::Frame(Side::Client, fault) => ("client ", fault.name()),
            RecorderFault::Frame(Side::Adapter, fault) => ("adapter ", fault.name()),
            RecorderFault::Memory => ("Memory", ""),
        }
    }
}

impl fmt::Display for RecorderFault {
    ghost use Rattle.std.specs.Prelude.{Some};
    ghost use Rattle.dap_recording.specs.FaultNames.{recorder_fault_text};

    ghost output = { λ fault. Some (recorder_fault_text fault) };

    fn fmt<W: fmt::Write>(&self, f: &mut fmt::Formatter<W>) -> fmt::Result {
        let (first, second) = self.words();
        write!(f, "{first}{second}")
    }
}

impl error::Error for RecorderFault {}
