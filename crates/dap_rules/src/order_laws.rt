//! Theorems about ordered recordings, for all byte strings. Each function is empty: calling it
//! makes its clauses available to the caller's proof.
ghost use Rattle.dap_rules.specs.OrderLaws.{EqualOrderedTexts, EqualTextsInOrder, OneOrderError};
ghost use Rattle.dap_rules.specs.OrderLaws.{OneOrderedText, OrderedHasNoError, OrderedIsAccepted};
ghost use Rattle.dap_rules.specs.OrderLaws.{OrderedKeepsOpen, OrderedStandsStill};

/// States that a recording is either ordered to exactly one text, or rejected for exactly one
/// error, never both.
pub fn order_has_one_outcome()
    ensures text { OneOrderedText }
    ensures error { OneOrderError }
    ensures not_both { OrderedHasNoError }
{}

/// States that the text of an ordered recording is accepted within the same limits and has the same
/// number of unanswered requests. Ordering it again does not change it.
pub fn ordered_text()
    ensures accepted { OrderedIsAccepted }
    ensures open { OrderedKeepsOpen }
    ensures still { OrderedStandsStill }
{}

/// States when two recordings are ordered and then normalised to equal texts. In `Mode::Whole`: if
/// and only if swaps of free neighbours and a one-to-one renaming turn the messages of one into
/// those of the other. In each mode, including `Mode::PerStop`: if and only if a renaming of that
/// mode turns the ordered messages of one into those of the other.
pub fn equal_ordered_texts()
    ensures whole { EqualOrderedTexts }
    ensures each_mode { EqualTextsInOrder }
{}
