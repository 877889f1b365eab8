//! Defines why rules cannot be applied to a recording.
use dap_input::Refused;
use thiserror::Error;

/// Why rules cannot be applied to a recording. The variants are in the order of the steps.
#[derive(Clone, Copy, Debug, PartialEq, Eq, Error)]
pub enum ApplyRefused {
    /// The rules cannot join the output of the recording, or cannot mask the recording. Records are
    /// numbered from 1 in the recording.
    #[error("{0}")]
    Mask(Refused),
    /// The ids of the masked recording cannot be named, its text with names or its text in order
    /// was rejected, or the ids of the text in order cannot be named again. The records of the
    /// masked recording or of the text in order are numbered from 1. A text with names has the
    /// records of the text before it.
    #[error("{0}")]
    Order(Refused),
    /// A read of the recording failed.
    #[error("read fault")]
    ReadFault,
    /// An allocation failed.
    #[error("out of memory")]
    Memory,
}
