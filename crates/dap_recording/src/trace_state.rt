//! The state of a reader of traces.
use crate::count::Count;
use crate::trace_fault::TraceCause;
use dap_tree::Side;

/// The state of a reader of traces.
#[derive(Clone, Copy)]
pub enum TraceState {
    /// Between two pieces.
    Marker,
    /// In the count of this side's piece, after these digits.
    Count(Side, Count),
    /// In the raw bytes of this side's piece; this number of them is missing.
    Raw(Side, u64),
    /// After this error.
    Failed(TraceCause),
}
