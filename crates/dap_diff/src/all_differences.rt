//! The result of comparing all records of two recordings.

/// All differences of two recordings.
#[derive(Drop)]
pub enum AllDifferences {
    /// The recordings are the same except for their ids.
    Same,
    /// The recordings differ, and these lines report how.
    Differ { lines: Vec<u8> },
}
