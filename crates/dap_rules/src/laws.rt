//! Theorems about recordings to which rules are applied, for all byte strings. Each function is
//! empty: calling it makes its clauses available to the caller's proof.
ghost use Rattle.dap_rules.specs.Laws.{AppliedHasNoError, EqualTextsByRules, EqualTextsInEachMode};
ghost use Rattle.dap_rules.specs.Laws.{OneMaskedList, OneTextByRules, SameNamedSessions};
ghost use Rattle.dap_rules.specs.Laws.{SameSessionsByRules, SessionIsOrdered};

/// States that rules turn a recording into at most one text, and that there is then no error.
pub fn rules_have_one_outcome()
    ensures text { OneTextByRules }
    ensures not_both { AppliedHasNoError }
{}

/// States what rules make of the messages of a recording. The *masked messages* of a recording are
/// its messages after all rules but those for the order and those that declare ids: with its output
/// joined if the rules say so, after the words, without the events that are dropped, and with their
/// values changed. A recording has at most one list of them. If the rules turn the recording into a
/// session, the messages of the session are the masked ones, in the order of the `swap` rules, with
/// names in the place of the declared ids.
pub fn messages_by_rules()
    ensures one { OneMaskedList }
    ensures ordered { SessionIsOrdered }
{}

/// States when the same rules turn two recordings into equal normal texts. In each mode, including
/// `Mode::PerStop`: if and only if a renaming of that mode turns the masked messages of one
/// recording, in the order of the `swap` rules and with names in the place of the declared ids,
/// into those of the other. In `Mode::Whole`, if the rules declare no ids: if and only if swaps of
/// neighbours that the `swap` rules make free, and a one-to-one renaming of each kind of id, turn
/// the masked messages of one recording into those of the other. The same holds for sessions that
/// are the same up to a renaming, which `compare --rules` and `diff --rules` report.
pub fn equal_texts_by_rules()
    ensures named_sessions { SameNamedSessions }
    ensures sessions { SameSessionsByRules }
    ensures whole { EqualTextsByRules }
    ensures each_mode { EqualTextsInEachMode }
{}
