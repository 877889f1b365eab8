//! Defines why an input has no golden text, and why a golden file cannot be compared.
use dap_input::Refused;
use thiserror::Error;

/// Why an input has no golden text.
///
/// The variants are in the order of the steps. The inner error is never `ReadFault`, `WriteFault`
/// or `Memory`.
#[derive(Clone, Copy, Debug, PartialEq, Eq, Error)]
pub enum GoldenRefused {
    /// The trace was rejected.
    #[error("{0}")]
    Trace(Refused),
    /// The rules cannot mask the recording. Records are numbered from 1 in the recording.
    #[error("{0}")]
    Mask(Refused),
    /// The masked recording was rejected, or has a request without a response. Records are numbered
    /// from 1 in the masked recording. If its text in order exceeds the limits, or the same text
    /// with names in the place of declared ids, they are numbered from 1 in that text.
    #[error("{0}")]
    Session(Refused),
    /// The masked recording has no records.
    #[error("no records")]
    NoRecords,
    /// An allocation failed.
    #[error("out of memory")]
    Memory,
}

/// Why a golden file cannot be compared.
#[derive(Clone, Copy, Debug, PartialEq, Eq, Error)]
pub enum GoldenFault {
    /// The golden file was rejected. Records are numbered from 1 in it. The inner error is never
    /// `ReadFault`, `WriteFault` or `Memory`.
    #[error("{0}")]
    Golden(Refused),
    /// An allocation failed.
    #[error("out of memory")]
    Memory,
}
