//! Theorems about the inputs of `show`, for all byte strings. Each function is empty: calling it
//! makes its clauses available to the caller's proof.
ghost use Rattle.dap_show.specs.Viewing.{ShowHasOneOutcome, ShowRefusalStays, ViewHasOneOutcome};
ghost use Rattle.dap_show.specs.Viewing.{ViewRefusalStays};

/// States that `show` either accepts a recording as exactly one list of messages, or rejects it for
/// exactly one reason, never both. A rejection remains when more bytes follow, unless the input
/// only ended too early.
pub fn show_has_one_outcome()
    ensures outcome { ShowHasOneOutcome }
    ensures refusal_stays { ShowRefusalStays }
{}

/// States that `show_with` and `show_faulty` either accept a recording as exactly one list of
/// entries, or reject it for exactly one reason, never both. A rejection remains when more bytes
/// follow, unless the input only ended too early.
pub fn view_has_one_outcome()
    ensures outcome { ViewHasOneOutcome }
    ensures refusal_stays { ViewRefusalStays }
{}
