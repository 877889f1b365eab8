//! Theorems about the inputs of `name`, for all byte strings. Each function is empty: calling it
//! makes its clauses available to the caller's proof.
ghost use Rattle.dap_rules.specs.Naming.{NameHasOneOutcome, NameReadingIsBounded};
ghost use Rattle.dap_rules.specs.Naming.{NameRefusalStays, OneNamedText};

/// States that `name` either accepts a recording as exactly one list of messages, which has exactly
/// one text, or rejects it for exactly one reason, never both. A rejection remains when more bytes
/// follow, unless the recording only ended too early.
pub fn name_has_one_outcome()
    ensures outcome { NameHasOneOutcome }
    ensures refusal_stays { NameRefusalStays }
    ensures text { OneNamedText }
{}

/// States how much `name` has read when it stops at a record: at most 65,536 bytes past the record,
/// or past the byte that proves its error.
pub fn name_reading_is_bounded()
    ensures { NameReadingIsBounded }
{}
