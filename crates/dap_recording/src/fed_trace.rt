//! The result of feeding a reader of traces.
use dap_tree::Side;

/// A run of the raw bytes of one piece, as they are in the input.
#[derive(Clone, Copy, Debug)]
pub struct TracePart<'a> {
    /// The number of the piece in the trace, from 1. Does not grow beyond 2^64 - 1.
    pub piece: u64,
    /// Who sent the bytes.
    pub side: Side,
    /// The bytes. They are empty only if the piece has no raw bytes.
    pub bytes: &'a [u8],
}

/// The part of its input that a call of `TraceReader::feed` consumed.
#[derive(Clone, Copy, Debug)]
pub struct FedTrace<'a> {
    /// The number of bytes consumed from the start of the input. Pass the rest to the next call.
    pub used: usize,
    /// The run that ended at the last byte consumed. `None`: the whole input was consumed, and it
    /// ended before the raw bytes of a piece.
    pub part: Option<TracePart<'a>>,
}
