//! The operating system as the host of a run: its files and its standard streams.
//!
//! No contract can say what a file of the operating system contains. An input that starts like a
//! transcript is read as its recording, which [`recording_in`] returns.
#![tactic(auto)]

mod inputs;
mod outputs;
mod streams;
mod system;
mod transcripts;

pub use inputs::{OpenedInput, SystemInput};
pub use outputs::{OpenOutput, SystemOutput, stream};
pub use system::System;
pub use transcripts::recording_in;
