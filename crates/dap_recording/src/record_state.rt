//! The state of a reader of records.
use crate::record::Record;
use crate::record_fault::RecordCause;
use dap_tree::Side;

/// The state of a reader of records.
#[derive(Drop)]
pub enum RecordState {
    /// Between two records.
    Marker,
    /// In the frame of this side's record, after the marker.
    Frame(Side),
    /// After the frame of this record, before its LF.
    LineEnd(Record),
    /// After this error.
    Failed(RecordCause),
}
