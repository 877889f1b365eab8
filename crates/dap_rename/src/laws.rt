//! Theorems about renamings and the normal form, for all lists of messages. Each function is empty:
//! calling it makes its `ensures` clauses available to the caller's proof.
//!
//! Two lists are *the same* if some renaming maps one to the other. A *proper* list has no
//! variables reference of 0.
ghost use Rattle.dap_rename.specs.Laws.{WholeIffRenaming, ModeIffRenaming, SameAsItself};
ghost use Rattle.dap_rename.specs.Laws.{SameBothWays};
ghost use Rattle.dap_rename.specs.Laws.{SameAlong, SameIsProper, SameFronts, SameCounts};
ghost use Rattle.dap_rename.specs.Laws.{FrontHasFewIds, SameInEachMode};
ghost use Rattle.dap_rename.specs.Laws.{FreshIsUnique, NormalIsUnique, NormalIsComplete};
ghost use Rattle.dap_rename.specs.Laws.{NamedIsNormal, SomeNormal, NormalIsItsOwn, NormalOfFront};
ghost use Rattle.dap_rename.specs.Laws.{NormalOfNext, NamesAreCounted, NamesAreSmall};
ghost use Rattle.dap_rename.specs.Laws.{EqualPlacesRename, EqualPlacesCarry, SameByParts};

/// States that being the same is an equivalence relation on proper lists.
pub fn same_is_equivalence()
    ensures itself { SameAsItself }
    ensures both_ways { SameBothWays }
    ensures along { SameAlong }
    ensures proper { SameIsProper }
{}

/// States what lists that are the same have in common: prefixes of equal length are the same, and
/// their classes have equally many distinct numbers. A prefix of a list has no more ids than the
/// list.
pub fn same_share()
    ensures fronts { SameFronts }
    ensures counts { SameCounts }
    ensures few { FrontHasFewIds }
{}

/// States that lists that are the same remain the same with additional ids of other kinds that are
/// equal in both.
pub fn same_with_other_ids()
    ensures { SameByParts }
{}

/// States that lists that are the same in the mode `Whole` are the same in every mode.
pub fn same_in_each_mode()
    ensures { SameInEachMode }
{}

/// States that lists have the same normal form if and only if they are the same.
pub fn one_normal_form()
    ensures fresh { FreshIsUnique }
    ensures unique { NormalIsUnique }
    ensures complete { NormalIsComplete }
    ensures own { NormalIsItsOwn }
{}

/// States that every proper list has a normal form: the messages with the canonical numbers of
/// their ids.
pub fn some_normal_form()
    ensures named { NamedIsNormal }
    ensures some { SomeNormal }
    ensures reported { WholeIffRenaming }
    ensures told_in_mode { ModeIffRenaming }
{}

/// States that the normal form can be computed message by message.
pub fn normal_form_grows()
    ensures front { NormalOfFront }
    ensures next { NormalOfNext }
{}

/// States that canonical numbers are counted from 1 to the number of distinct numbers of their
/// class.
pub fn names_are_small()
    ensures counted { NamesAreCounted }
    ensures small { NamesAreSmall }
{}

/// States that pairing the distinct numbers of two proper lists by position is a renaming, which
/// maps one list to the other if they are the same.
pub fn equal_places_carry()
    ensures renaming { EqualPlacesRename }
    ensures carry { EqualPlacesCarry }
{}
