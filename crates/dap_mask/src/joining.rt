//! How the output of a program is joined.

/// Between which records the `output` events of a recording are joined.
#[derive(Clone, Copy, Debug, PartialEq, Eq, Drop)]
pub enum Joining {
    /// Output is joined in the whole recording.
    Whole,
    /// Output is joined between two `stopped` events.
    PerStop,
}
