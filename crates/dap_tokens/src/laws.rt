//! Laws of named strings. Each function does nothing: a call of it gives its clauses to a proof.
ghost use Rattle.dap_tokens.specs.Laws.{NamesAreRead, NamedTwice, EqualNamed, NamedUtf8};
ghost use Rattle.dap_tokens.specs.Laws.{NoLabels};

/// A named string has the same ids at the same places, with their numbers as values. So naming a
/// named string replaces only the numbers of its ids.
pub fn names_are_read()
    ensures ids { NamesAreRead }
    ensures twice { NamedTwice }
{}

/// Two named strings are equal if and only if the strings are equal except for their ids, and the
/// labels and numbers of their ids are equal one by one.
pub fn equal_strings()
    ensures { EqualNamed }
{}

/// A named string is in UTF-8 if the string is.
pub fn stays_utf8()
    ensures { NamedUtf8 }
{}

/// A string without labels stays, and has no ids.
pub fn no_labels()
    ensures { NoLabels }
{}
