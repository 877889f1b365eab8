//! The result of `diff`.

/// How two recordings compare.
#[derive(Debug, Drop)]
pub enum Diff {
    /// Some renaming maps the messages of the first to those of the second.
    Same,
    /// They differ first at the record with this number, and these lines are the differences.
    Differ { record: u64, lines: Vec<u8> },
}
