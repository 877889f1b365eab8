//! Theorems about the rules, for all lists of messages. The functions do nothing. A call makes the
//! clauses of the function available to a proof.
ghost use Rattle.dap_session.specs.Laws.{RulesByPosition, FirstByPosition, NoneKeepRules};
ghost use Rattle.dap_session.specs.Laws.{KeepsOneMore, FrontKeepsRules, KeepsOrBreaks};
ghost use Rattle.dap_session.specs.Laws.{TypedIsNumbered, RenamedIsNumbered, RenamingKeepsRules};
ghost use Rattle.dap_session.specs.Laws.{RenamingKeepsOpen, RenamingKeepsKept};

/// The test of each rule agrees with its statement over positions. A test reads a message and the
/// messages before it.
pub fn rules_by_position()
    ensures each { RulesByPosition }
    ensures first { FirstByPosition }
{}

/// A list obeys the rules if each message obeys them after those before it. Otherwise there is a
/// first message that breaks a rule.
pub fn rules_one_by_one()
    ensures none { NoneKeepRules }
    ensures one_more { KeepsOneMore }
    ensures front { FrontKeepsRules }
    ensures decided { KeepsOrBreaks }
{}

/// The sequence numbers of a message are ids, of the kinds of the sides that they belong to.
pub fn numbers_of_sides()
    ensures typed { TypedIsNumbered }
    ensures renamed { RenamedIsNumbered }
{}

/// Other numbers in the ids change no result of the rules, if equal sequence numbers remain equal
/// and different ones remain different.
pub fn renaming_keeps_rules()
    ensures first { RenamingKeepsRules }
    ensures open { RenamingKeepsOpen }
    ensures kept { RenamingKeepsKept }
{}
