//! Theorems about the inputs of `mask`, for all byte strings. Each function is empty: calling it
//! makes its clauses available to the caller's proof.
ghost use Rattle.dap_rules.specs.Outcomes.{MaskHasOneOutcome, MaskReadingIsBounded};
ghost use Rattle.dap_rules.specs.Outcomes.{MaskRefusalStays, TwoMachinesMask};

/// States that `mask` either accepts a recording as exactly one list of messages, or rejects it for
/// exactly one reason, never both. A rejection remains when more bytes follow, unless the recording
/// only ended too early.
pub fn mask_has_one_outcome()
    ensures outcome { MaskHasOneOutcome }
    ensures refusal_stays { MaskRefusalStays }
{}

/// States how much `mask` has read when it stops at a record: at most 65,536 bytes past the record,
/// or past the byte that proves its error.
pub fn mask_reading_is_bounded()
    ensures { MaskReadingIsBounded }
{}

/// States that recordings of two machines that differ only in texts of each machine are masked to
/// the same bytes, if each machine puts the same words in the place of its texts.
pub fn mask_on_two_machines()
    ensures { TwoMachinesMask }
{}
