//! Theorems about the inputs of `compact`, for all inputs. Each function is empty: calling it makes
//! its `ensures` clauses available to the caller's proof.
ghost use Rattle.dap_compact.specs.Compacting.{CompactHasOneOutcome, CompactRefusalStays};

/// States that `compact` either accepts an input as exactly one list of values, or rejects it for
/// exactly one error. The error remains when more bytes follow, unless the input only ended too
/// early.
pub fn compact_has_one_outcome()
    ensures outcome { CompactHasOneOutcome }
    ensures refusal_stays { CompactRefusalStays }
{}
