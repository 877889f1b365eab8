//! The pairs of a renaming, and why pairs are not a renaming.
use dap_tree::Sort;
use thiserror::Error;

/// A number of a class, and the number that replaces it.
///
/// A class is a kind of id. For frame ids and variables references it also has the number of stops
/// before it.
#[derive(Clone, Copy, Debug, PartialEq, Eq)]
pub struct Pair {
    pub sort: Sort,
    /// The number of stops before the class. It is 0 if canonical numbers do not restart, and for
    /// all kinds except frame ids and variables references.
    pub stop: u64,
    pub from: i64,
    pub to: i64,
}

/// Why pairs are not a renaming, with the position, from 1, of the first pair that has an error.
///
/// If a pair has several errors, the first one in the order of the variants is reported.
#[derive(Clone, Copy, Debug, PartialEq, Eq, Drop, Error)]
pub enum PairFault {
    /// Its `stop` is not 0, and its kind does not restart at stops.
    #[error("BadStop {0}")]
    BadStop(usize),
    /// Its `from` or its `to` is a variables reference of 0, which refers to nothing.
    #[error("ZeroReference {0}")]
    ZeroReference(usize),
    /// An earlier pair of its class has the same `from`.
    #[error("FromTwice {0}")]
    FromTwice(usize),
    /// An earlier pair of its class has the same `to`.
    #[error("ToTwice {0}")]
    ToTwice(usize),
    /// An allocation failed.
    #[error("Memory")]
    Memory,
}
