//! What is stored of a message in addition to its content.
ghost use Rattle.std.specs.Prelude.{◌≡◌, ◌≤◌, length, slice_range};

use dap_profile::Kind;
use dap_tree::Side;

/// The items of a list from `start` on and before `end`.
#[derive(Clone, Copy, Drop)]
pub(crate) struct Span {
    pub(crate) start: usize,
    pub(crate) end: usize,
}

impl Span {
    /// Returns the items of the span. Does not allocate.
    pub(crate) fn of<T>(self, items: &[T]) -> &[T]
        requires order { self.start ≤ self.end }
        requires end { self.end ≤ length items.now }
        ensures { result.now ≡ slice_range items.now self.start self.end }
    {
        &items[self.start..self.end]
    }
}

/// The members that every message of its kind has, and the places of its name, its content and its
/// marks.
#[derive(Clone, Copy, Drop)]
pub(crate) struct Head {
    pub(crate) side: Side,
    pub(crate) kind: Kind,
    pub(crate) seq: i64,
    pub(crate) request_seq: Option<i64>,
    pub(crate) success: Option<bool>,
    pub(crate) name: Span,
    pub(crate) content: Span,
    pub(crate) marks: Span,
}
