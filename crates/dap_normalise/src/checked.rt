//! The result of `check` for an accepted recording.

/// The counts of an accepted recording.
#[derive(Clone, Copy, Debug, PartialEq, Eq)]
pub struct Checked {
    /// The number of records.
    pub records: u64,
    /// The number of requests of the client that have no response.
    pub client_open: usize,
    /// The number of requests of the adapter that have no response.
    pub adapter_open: usize,
}
