//! Theorems about the definitions that the contracts of this crate use. Each function is empty:
//! calling it makes its `ensures` clauses available to the caller's proof.
ghost use Rattle.dap_tree.specs.Laws.{SomeOutcome, OneOutcome, ReadIsPlain, ReadIsOrdered};
ghost use Rattle.dap_tree.specs.Laws.{ReadIsUtf8, ChangesMember, KeepsMembers, ChangesPaths};
ghost use Rattle.dap_tree.specs.Laws.{KeepsPaths, ChangesItems, LeavesMembers};
ghost use Rattle.dap_tree.specs.Laws.{FindsNoIds, CountsIds, NumbersIds, TakesIds, KeepsOwnIds};
ghost use Rattle.dap_tree.specs.Laws.{KeepsSound, KeepsSkeleton, DiffersInNumbers};
ghost use Rattle.dap_tree.specs.Laws.{SkeletonIffSameButIds};
ghost use Rattle.dap_tree.specs.Laws.{SkeletonHasSorts, SkeletonHasCount, SkeletonHasDepth};
ghost use Rattle.dap_tree.specs.Laws.{SkeletonIsAsSound, SkeletonIsAsOrdered, SkeletonIsAsUtf8};
ghost use Rattle.dap_tree.specs.Laws.{WithoutIdsIsPlain, WithoutIdsIsSame, HasSameText, TextIsRead};
ghost use Rattle.dap_tree.specs.Laws.{IdsStandByPath};

/// States that every content has exactly one of three outcomes: it is the text of one tree, it is
/// not JSON, or it is JSON with a number that is not an integer of 64 bits.
pub fn one_outcome()
    ensures some { SomeOutcome }
    ensures one { OneOutcome }
{}

/// States that a tree that was read is sound and has no ids.
///
/// The members of its objects are in the byte order of their names, and each name occurs once. Its
/// strings and names are UTF-8.
pub fn read_is_plain()
    ensures plain { ReadIsPlain }
    ensures ordered { ReadIsOrdered }
    ensures utf8 { ReadIsUtf8 }
{}

/// States that a change at a name changes the member of that name and nothing else.
pub fn changes_one_member()
    ensures member { ChangesMember }
    ensures members { KeepsMembers }
    ensures path { ChangesPaths }
    ensures paths { KeepsPaths }
{}

/// States that a change of the items of an array changes each item and nothing else.
pub fn changes_items()
    ensures items { ChangesItems }
    ensures members { LeavesMembers }
{}

/// States that the i-th id is set to the i-th number, and that nothing else changes.
pub fn numbers_ids()
    ensures none { FindsNoIds }
    ensures count { CountsIds }
    ensures numbers { NumbersIds }
    ensures ids { TakesIds }
    ensures own { KeepsOwnIds }
    ensures sound { KeepsSound }
{}

/// States that two documents have the same skeleton if and only if they differ at most in the
/// numbers of their ids.
pub fn skeletons_are_all_but_numbers()
    ensures same { KeepsSkeleton }
    ensures differ { DiffersInNumbers }
    ensures reported { SkeletonIffSameButIds }
    ensures sorts { SkeletonHasSorts }
    ensures count { SkeletonHasCount }
    ensures depth { SkeletonHasDepth }
    ensures sound { SkeletonIsAsSound }
    ensures ordered { SkeletonIsAsOrdered }
    ensures utf8 { SkeletonIsAsUtf8 }
{}

/// States that replacing the ids of a document by integers does not change its text.
pub fn ids_are_written_as_numbers()
    ensures plain { WithoutIdsIsPlain }
    ensures same { WithoutIdsIsSame }
    ensures text { HasSameText }
    ensures read { TextIsRead }
{}

/// States that ids in the order of the text are ids in the order of their paths.
pub fn ids_stand_by_path()
    ensures { IdsStandByPath }
{}
