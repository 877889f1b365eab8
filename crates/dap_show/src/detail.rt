//! The level of detail that is printed for each record.
use dap_input::Limits;

/// Selects the lines that are printed under the first line of a message.
#[derive(Clone, Copy, Debug, PartialEq, Eq)]
pub enum Detail {
    /// One line for each stack frame, scope and variable that the message lists.
    Lists,
    /// One line for each leaf of the content, with its path and its complete value. A leaf is a
    /// scalar, or an empty array or object.
    Leaves,
}

/// Selects the lines that are printed for an input.
#[derive(Clone, Copy, Debug, PartialEq, Eq)]
pub(crate) struct View {
    pub(crate) detail: Detail,
    pub(crate) limits: Limits,
    /// Whether records with errors are marked and the lines of the other records follow.
    pub(crate) marks_faults: bool,
}

/// Selects the output of `show` for a recording.
#[derive(Clone, Copy, Debug, PartialEq, Eq)]
pub enum ShowRequest {
    /// The lines of its records.
    Lines(Detail),
    /// The lines of its records, with errors marked.
    Faulty(Detail),
    /// The transcript of the recording.
    Transcript,
    /// The content of the record with this number, counted from 1.
    Record(u64),
}
