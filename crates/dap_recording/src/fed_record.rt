//! The result of feeding a reader of records.
use crate::record::Record;

/// The part of its chunk that a call of `RecordReader::feed` consumed.
#[derive(Debug, Drop)]
pub struct FedRecord {
    /// The number of bytes consumed from the start of the chunk. Pass the rest to the next call.
    pub used: usize,
    /// The record that ended at the last byte consumed. `None`: the whole chunk was consumed, and
    /// no record ended.
    pub whole: Option<Record>,
}
