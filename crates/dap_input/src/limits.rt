//! The limits of an engine.
use dap_frame::FrameLimits;

/// The limits of an engine.
///
/// Calls that take limits require that `frame` is sound, `ids` is at most 2,147,483,647 and `input`
/// is at most 2^62.
#[derive(Clone, Copy, Debug, PartialEq, Eq)]
pub struct Limits {
    /// The maximum lengths of a header part and a content, in bytes.
    pub frame: FrameLimits,
    /// The maximum number of distinct ids of one kind. If numbering restarts at each stop, this is
    /// the maximum of frame ids, and of variables references, between two stops.
    pub ids: usize,
    /// The maximum number of bytes of an input, and of the output.
    pub input: u64,
}
