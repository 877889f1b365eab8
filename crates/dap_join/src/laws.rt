//! Theorems about joined recordings. Each function is empty: calling it makes its `ensures` clauses
//! available to the caller's proof.
ghost use Rattle.dap_join.specs.Laws.{EqualJoined, JoinHasOneOutcome, JoinedAgain};
ghost use Rattle.dap_join.specs.Laws.{JoinedIsRecording, NotBoth, OneJoined};

/// States that a recording has one joined text, with one list of numbers.
pub fn one_joined()
    ensures { OneJoined }
{}

/// States that a recording that is joined is not rejected.
pub fn not_both()
    ensures { NotBoth }
{}

/// States that a joined text is a recording of the joined records.
pub fn joined_is_recording()
    ensures { JoinedIsRecording }
{}

/// States that joining a joined recording again does not change its text.
pub fn joined_again()
    ensures { JoinedAgain }
{}

/// States that two recordings have the same joined text if and only if, segment by segment, their
/// other records are equal and the outputs of each category are equal.
pub fn equal_joined()
    ensures { EqualJoined }
{}

/// States that a recording either has a joined text, or is rejected for exactly one error.
pub fn join_has_one_outcome()
    ensures { JoinHasOneOutcome }
{}
