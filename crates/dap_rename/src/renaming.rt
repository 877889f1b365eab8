//! Renamings, constructed from pairs or from two sets of canonical numbers, and whether they map
//! messages to others.
ghost use Rattle.std.specs.Prelude.{◌≡◌, ◌++◌, ◌↔◌, List, [], length, map, IsTrue, MatchOption};
ghost use Rattle.std.specs.Prelude.{IfErr, IfOk, IsOk, OnOk};
ghost use Rattle.dap_message.specs.Message.{Sent, sent};
ghost use Rattle.dap_rename.specs.Messages.{Carries, classes_of_sort, equal_places, same_class};
ghost use Rattle.dap_rename.specs.Modes.{stop_in};
ghost use Rattle.dap_rename.specs.Names.{Represents, HaveEqualCounts, HaveNoNumbers, mode_of};
ghost use Rattle.dap_rename.specs.Names.{numbers_at, stops_of};
ghost use Rattle.dap_rename.specs.Carrying.{has_pair};
ghost use Rattle.dap_rename.specs.PairIndex.{IsIndexOf};
ghost use Rattle.dap_rename.specs.Pairs.{AreRenaming, class_of, entries, is_taken, is_given};
ghost use Rattle.dap_rename.specs.Pairs.{MayFollow, PairFails, FailsFirst, RefusesPairs};
ghost use Rattle.dap_rename.specs.Pairs.{equal_names, names_of_classes};
ghost use Rattle.dap_rename.specs.Renamings.{pairs_of_class};

use crate::carries::carries_list;
use crate::mode::Mode;
use crate::names::Names;
use crate::pair::{Pair, PairFault};
use crate::pair_index::{PairIndex, has_class, is_proper, seen_fault};
use crate::{NameFault, NameTable};
use dap_message::Message;
use dap_tree::{SORTS, Sort};
use std::alloc::{AllocError, Global};

/// Pairs of numbers that replace the ids of messages, class by class.
#[derive(Drop)]
pub struct Renaming {
    pairs: Vec<Pair>,
    index: PairIndex,
    ghost indexed: { IsIndexOf pairs.items index },
}

impl Renaming {
    ghost use Rattle.dap_rename.specs.Renaming.{pairs_of};

    /// Returns the renaming of these pairs. An empty list of pairs does not allocate.
    ///
    /// # Errors
    ///
    /// The first pair with an error is reported, at its position from 1:
    ///
    /// - `BadStop`: its class does not exist.
    /// - `ZeroReference`: one of its numbers is a variables reference of 0.
    /// - `FromTwice`, `ToTwice`: an earlier pair of its class has the same `from` or `to`.
    /// - `Memory`: an allocation failed. The pairs are a renaming.
    pub fn new(alloc: Global, pairs: &[Pair]) -> Result<Renaming, PairFault>
        ensures pairs { IfOk result (λ r. pairs_of r ≡ pairs.now) }
        ensures renaming { OnOk result (AreRenaming pairs.now) }
        ensures refused { IfErr result (RefusesPairs pairs.now) }
        ensures empty { pairs.now ≡ [] → IsOk result }
    {
        match seen_fault(alloc, pairs) {
            Ok(None) => match Renaming::copied(alloc, pairs) {
                Ok(renaming) => Ok(renaming),
                Err(_) => Err(PairFault::Memory),
            },
            Ok(Some(fault)) => Err(fault),
            Err(_) => Err(fault_or_memory(pairs)),
        }
    }

    // Returns a copy of the pairs with its index.
    fn copied(alloc: Global, pairs: &[Pair]) -> Result<Renaming, AllocError>
        ensures pairs { IfOk result (λ r. pairs_of r ≡ pairs.now) }
        ensures empty { pairs.now ≡ [] → IsOk result }
    {
        let mut copy = Vec::with_capacity(alloc, pairs.len())?;
        copy.extend_from_slice(pairs)?;
        Renaming::indexed(alloc, copy)
    }

    // Returns the pairs with their index.
    fn indexed(alloc: Global, pairs: Vec<Pair>) -> Result<Renaming, AllocError>
        ensures pairs { IfOk result (λ r. pairs_of r ≡ pairs.items) }
        ensures empty { pairs.items ≡ [] → IsOk result }
    {
        let index = PairIndex::new(alloc, pairs.as_slice())?;
        Ok(Renaming { pairs, index })
    }

    /// Returns the pairs in their order. Does not allocate.
    pub fn pairs(&self) -> &[Pair]
        ensures { result.now ≡ pairs_of self.now }
    {
        self.pairs.as_slice()
    }

    /// Returns the pairs of numbers with equal canonical numbers, ordered by kind of id, then by
    /// stop, then by canonical number.
    ///
    /// Allocates 8 bytes per pair in addition to the pairs, for the index that
    /// [`carries`](Renaming::carries) uses. Does not allocate if there are no numbers.
    ///
    /// # Errors
    ///
    /// - `Memory`: an allocation failed.
    pub fn between<T: NameTable>(
        alloc: Global,
        from: &Names<T>,
        to: &Names<T>,
    ) -> Result<Renaming, NameFault>
        requires { HaveEqualCounts T.numbers from.now to.now }
        ensures pairs { IfOk result (λ r. entries (pairs_of r) ≡ equal_names (stops_of from.now)
            (numbers_at T.numbers from.now) (numbers_at T.numbers to.now)) }
        ensures represents { IfOk result (λ r. (ms ns : List Sent)
            → Represents T.numbers T.limit from.now ms → Represents T.numbers T.limit to.now ns
            → entries (pairs_of r) ≡ equal_places (stop_in (mode_of from.now)) ms ns) }
        ensures memory { IfErr result (λ f. f ≡ NameFault.Memory) }
        ensures empty { HaveNoNumbers T.numbers from.now → IsOk result }
    {
        let mut pairs = Vec::new(alloc);
        for sort in SORTS {
            add_sort(&mut pairs, sort, from, to)?;
        }
        Ok(Renaming::indexed(alloc, pairs)?)
    }

    /// Returns whether the renaming maps the first list to the second. The messages must be equal
    /// except for the numbers of their ids. For each id, a pair of its class must map its number in
    /// the first list to its number in the second; the mode determines the class. Does not
    /// allocate.
    pub fn carries(&self, from: &[Message], to: &[Message], mode: Mode) -> bool
        ensures { IsTrue result ↔ Carries (stop_in mode) (entries (pairs_of self.now))
            (map sent from.now) (map sent to.now) }
    {
        carries_list(self, from, to, mode)
    }

    /// Returns whether some pair is equal to this one.
    pub(crate) fn has(&self, pair: &Pair) -> bool
        ensures { result
            ≡ has_pair (pairs_of self.now) (class_of pair.now) pair.now.from pair.now.to }
    {
        self.index.has(self.pairs.as_slice(), pair)
    }
}

// Returns whether the two pairs have the same class.
fn is_of_class(pair: &Pair, other: &Pair) -> bool
    ensures { result ≡ same_class (class_of pair.now) (class_of other.now) }
{
    pair.sort == other.sort && pair.stop == other.stop
}

// Returns the error of the first pair that has one, or `Memory` if the pairs are a renaming. Does
// not allocate: compares each pair with all earlier pairs.
fn fault_or_memory(pairs: &[Pair]) -> PairFault
    ensures { RefusesPairs pairs.now result }
{
    match first_fault(pairs) {
        Some(fault) => fault,
        None => PairFault::Memory,
    }
}

fn first_fault(pairs: &[Pair]) -> Option<PairFault>
    ensures { MatchOption result
        (AreRenaming pairs.now) (FailsFirst pairs.now) }
{
    for (index, pair) in pairs.iter().enumerate() {
        let fault = fault_behind(&pairs[..index], pair);
        if fault.is_some() {
            return fault;
        }
    }
    None
}

fn fault_behind(before: &[Pair], pair: &Pair) -> Option<PairFault>
    ensures { MatchOption result (MayFollow before.now pair.now) (PairFails before.now pair.now) }
{
    let place = before.len() + 1;
    if !has_class(pair) {
        Some(PairFault::BadStop(place))
    } else if !is_proper(pair) {
        Some(PairFault::ZeroReference(place))
    } else if is_taken(before, pair) {
        Some(PairFault::FromTwice(place))
    } else if is_given(before, pair) {
        Some(PairFault::ToTwice(place))
    } else {
        None
    }
}

fn is_taken(before: &[Pair], pair: &Pair) -> bool
    ensures { result ≡ is_taken before.now pair.now }
{
    before.iter().any(|earlier| is_of_class(earlier, pair) && earlier.from == pair.from)
}

fn is_given(before: &[Pair], pair: &Pair) -> bool
    ensures { result ≡ is_given before.now pair.now }
{
    before.iter().any(|earlier| is_of_class(earlier, pair) && earlier.to == pair.to)
}

// Appends the pairs of each class of the kind.
fn add_sort<T: NameTable>(
    pairs: &mut Vec<Pair>,
    sort: Sort,
    from: &Names<T>,
    to: &Names<T>,
) -> Result<(), AllocError>
    requires { HaveEqualCounts T.numbers from.now to.now }
    ensures added { OnOk result (entries pairs.new.items ≡ entries pairs.old.items
        ++ names_of_classes (classes_of_sort (stops_of from.now) sort)
        (numbers_at T.numbers from.now) (numbers_at T.numbers to.now)) }
    ensures empty { HaveNoNumbers T.numbers from.now → IsOk result }
{
    let last = from.last(sort);
    for stop in 0..last {
        add_class(pairs, (sort, stop), from, to)?;
    }
    add_class(pairs, (sort, last), from, to)
}

fn add_class<T: NameTable>(
    pairs: &mut Vec<Pair>,
    class: (Sort, u64),
    from: &Names<T>,
    to: &Names<T>,
) -> Result<(), AllocError>
    requires { HaveEqualCounts T.numbers from.now to.now }
    ensures added { OnOk result (entries pairs.new.items ≡ entries pairs.old.items
        ++ pairs_of_class class (numbers_at T.numbers from.now class)
        (numbers_at T.numbers to.now class)) }
    ensures empty { HaveNoNumbers T.numbers from.now → IsOk result }
{
    let (sort, stop) = class;
    for index in 0..from.len_at(sort, stop) {
        pairs.push(Pair {
            sort,
            stop,
            from: from.number_at(sort, stop, index),
            to: to.number_at(sort, stop, index),
        })?;
    }
    Ok(())
}
