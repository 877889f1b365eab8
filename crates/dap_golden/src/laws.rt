//! Theorems about golden texts. Each function is empty: calling it makes its clauses available to
//! the caller's proof.
ghost use Rattle.dap_golden.specs.Laws.{EqualGoldenFiles, EqualGoldenTexts};
ghost use Rattle.dap_golden.specs.Laws.{EqualGoldenTextsByExchanges, EqualGoldenTextsByNames};
ghost use Rattle.dap_golden.specs.Laws.{EqualGoldenTextsByRules};
ghost use Rattle.dap_golden.specs.Laws.{EqualGoldenTextsInEachMode, GoldenFileIsRead};
ghost use Rattle.dap_golden.specs.Laws.{GoldenIsNotRefused, GoldenIsOrdered, OneGoldenFile};
ghost use Rattle.dap_golden.specs.Laws.{OneGoldenText, OneMaskedListOfInput};

use dap_transcript::laws::equal_transcripts;

/// States that the golden texts of two inputs are equal if and only if a renaming of ids maps the
/// messages of the first session to those of the second.
pub fn equal_golden_texts()
    ensures { EqualGoldenTexts }
{}

/// States that an input has at most one golden text, and that an input with a golden text is not
/// rejected.
pub fn one_golden_text()
    ensures one { OneGoldenText }
    ensures not_refused { GoldenIsNotRefused }
{}

/// States what rules make of the messages of an input. The *masked messages* of an input are the
/// messages of its recording after all rules but those for the order and for declared ids: after
/// the words, without the events that are dropped, and with their values changed. An input has at
/// most one list of them. If it has a golden text by the rules, the messages of its session are the
/// masked ones, in the order of the `swap` rules, with names in the place of the declared ids.
pub fn golden_messages_by_rules()
    ensures one { OneMaskedListOfInput }
    ensures ordered { GoldenIsOrdered }
{}

/// States when the golden texts of two inputs by the same rules are equal. In each mode, including
/// `Mode::PerStop`: if and only if a renaming of that mode turns the masked messages of one input,
/// in order and with names in the place of the declared ids, into those of the other. In
/// `Mode::Whole`, if the rules declare no ids: if and only if swaps of neighbours that the `swap`
/// rules make free, and a one-to-one renaming of each kind of id, turn the masked messages of one
/// input into those of the other.
pub fn equal_golden_texts_by_rules()
    ensures whole { EqualGoldenTextsByRules }
    ensures each_mode { EqualGoldenTextsInEachMode }
{}

/// States when the golden texts of two inputs by the same rules are equal if rules declare ids.
/// In each mode: if and only if a renaming of that mode, and a one-to-one renaming of the values of
/// each label, turn the ordered masked messages of one input into those of the other. In
/// `Mode::Whole`: if and only if swaps of neighbours that the `swap` rules make free, a one-to-one
/// renaming of each kind of id, and one of the values of each label turn the masked messages of one
/// input into those of the other.
pub fn equal_golden_texts_by_names()
    ensures whole { EqualGoldenTextsByExchanges }
    ensures each_mode { EqualGoldenTextsByNames }
{}

/// States that a normal text has at most one golden file in each form, that the golden file
/// represents this text when it is read, and that two golden files of the same form are equal if
/// and only if their normal texts are.
pub fn golden_files_in_forms()
    ensures one { OneGoldenFile }
    ensures read { GoldenFileIsRead }
    ensures equal { EqualGoldenFiles }
{
    equal_transcripts();
}
