//! Theorems about sessions with names in place of their declared ids, for all lists of messages.
//! Each function is empty: calling it makes its clauses available to the caller's proof.
ghost use Rattle.dap_rules.specs.NamedSessions.{EqualNamesAndIds, OrderOfNamed, NamesAfterOrder};
ghost use Rattle.dap_rules.specs.NamedSessions.{OrderOfSameDeclared, EqualNamedOrders};
ghost use Rattle.dap_rules.specs.NamedSessions.{OneNamedNormalForm, NamesKeepSessionRules};
ghost use Rattle.dap_rules.specs.NamedSessions.{NamesKeepIdCounts, NamesKeepOpen, NamedIsAccepted};
ghost use Rattle.dap_rules.specs.NamedSessions.{NamedStaysRenamed, NamedChainStays};
ghost use Rattle.dap_rules.specs.NamedSessions.{EqualNamedTexts, EqualNamedTextsInEachMode};

/// States that the named lists are the same except for ids of the profile if and only if a renaming
/// of these ids, followed by a renaming of the declared ids, turns one list into the other.
pub fn equal_names_and_ids()
    ensures equal { EqualNamesAndIds }
{}

/// States that messages can be named before or after they are ordered. The order does not depend on
/// declared ids, so naming the messages before they are ordered changes no name that they have
/// afterwards.
pub fn order_of_named()
    ensures order { OrderOfNamed }
    ensures names { NamesAfterOrder }
    ensures same { OrderOfSameDeclared }
{}

/// States when two lists that are ordered and then named are the same except for ids of the
/// profile, so that their normal forms are equal: if and only if swaps of free neighbours, a
/// renaming of these ids, and a renaming of the declared ids turn one list into the other.
pub fn equal_named_orders()
    ensures equal { EqualNamedOrders }
    ensures normal { OneNamedNormalForm }
{}

/// States that named messages obey the session rules if and only if the messages do. They have as
/// many ids of the profile and as many unanswered requests. Therefore the text of the named
/// messages of an accepted recording is accepted, if it and its normal form do not exceed the
/// limits.
pub fn named_is_accepted()
    ensures rules { NamesKeepSessionRules }
    ensures few { NamesKeepIdCounts }
    ensures unanswered { NamesKeepOpen }
    ensures accepted { NamedIsAccepted }
{}

/// States that messages that were ordered, named and then normalised stay as they are when this is
/// done again.
pub fn named_chain_stays()
    ensures renamed { NamedStaysRenamed }
    ensures chain { NamedChainStays }
{}

/// States when two recordings that are ordered, named and then normalised have equal texts. In
/// `Mode::Whole`: if and only if swaps of free neighbours, a renaming of the ids of the profile,
/// and a renaming of the declared ids turn the messages of one into those of the other. In each
/// mode: if and only if such renamings turn the ordered messages of one into those of the other.
pub fn equal_named_texts()
    ensures whole { EqualNamedTexts }
    ensures each_mode { EqualNamedTextsInEachMode }
{}
