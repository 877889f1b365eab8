//! Laws of declared ids. Each function does nothing: a call of it gives its clauses to a proof.
ghost use Rattle.dap_naming.specs.Laws.{EqualNumbers, NumbersAreFresh, NumbersStay};
ghost use Rattle.dap_naming.specs.Laws.{EqualNamedDocs, NamedDocTwice, NamesOfDocAreRead};
ghost use Rattle.dap_naming.specs.Laws.{EqualNamedLists, NamedListStays};
ghost use Rattle.dap_naming.specs.Laws.{NamesOfPrefix, OnlyOwnIdsMatter};
ghost use Rattle.dap_naming.specs.SessionLaws.{NamesKeepRules, NamesOfSessionPrefix};
ghost use Rattle.dap_naming.specs.SessionLaws.{NoDeclarations, EqualNamedSessions};
ghost use Rattle.dap_naming.specs.SessionLaws.{NamedSessionStays, TypedNamesCommute, TypedIdsStay};
ghost use Rattle.dap_naming.specs.SessionLaws.{TypedSessionsCommute, NamesKeepFaults};
ghost use Rattle.dap_naming.specs.SessionLaws.{NamesKeepTypes, TypesKeepRules};

/// Two lists of ids have equal numbers if and only if a one-to-one renaming of the values of each
/// label turns one into the other.
pub fn equal_numbers()
    ensures equal { EqualNumbers }
{}

/// More ids change no number. The numbers of the numbers are the numbers.
pub fn numbers()
    ensures stay { NumbersStay }
    ensures fresh { NumbersAreFresh }
{}

/// The names of a document depend only on the numbers of its own ids, and more messages change no
/// name.
pub fn names_stay()
    ensures own { OnlyOwnIdsMatter }
    ensures prefix { NamesOfPrefix }
{}

/// The ids of a named document are its numbers, at the same places, so that naming it again
/// replaces these numbers. Two documents have the same named document if and only if they are the
/// same except for their ids, and their ids have equal numbers.
pub fn named_documents()
    ensures read { NamesOfDocAreRead }
    ensures twice { NamedDocTwice }
    ensures equal { EqualNamedDocs }
{}

/// Two lists of messages have the same named list if and only if they are the same except for
/// their ids, and a one-to-one renaming of the values of each label turns the ids of one list into
/// those of the other. Naming a named list changes nothing.
pub fn named_lists()
    ensures equal { EqualNamedLists }
    ensures stays { NamedListStays }
{}

/// The same declarations apply to a message and to the message with names in place of its ids.
/// More messages change no name, and without declarations naming changes nothing.
pub fn names_of_sessions()
    ensures rules { NamesKeepRules }
    ensures prefix { NamesOfSessionPrefix }
    ensures nothing { NoDeclarations }
{}

/// Two lists of messages have the same named list if and only if they are the same except for
/// their declared ids, and a one-to-one renaming of the values of each label turns the ids of one
/// list into those of the other. Naming a named list changes nothing.
pub fn named_sessions()
    ensures equal { EqualNamedSessions }
    ensures stays { NamedSessionStays }
{}

/// A named document has the error of the document, and is typed as the named message. A message has
/// the declarations and the declared ids of its document. So the same holds for lists of messages.
pub fn typed_names()
    ensures rules { TypesKeepRules }
    ensures commute { TypedNamesCommute }
    ensures ids { TypedIdsStay }
    ensures lists { TypedSessionsCommute }
    ensures faults { NamesKeepFaults }
    ensures types { NamesKeepTypes }
{}
