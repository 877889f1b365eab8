//! The test whether pairs are a renaming, and an index that finds pairs by class and both numbers.
ghost use Rattle.std.specs.Prelude.{◌≡◌, suc, List, [], ◌∷◌, ◌++◌, length, MatchOption, IfOk};
ghost use Rattle.std.specs.Prelude.{IsOk};
ghost use Rattle.std.specs.List.{range_with_len};
ghost use Rattle.dap_rename.specs.Carrying.{has_pair};
ghost use Rattle.dap_rename.specs.PairIndex.{key, pair_key, key_at};
ghost use Rattle.dap_rename.specs.Pairs.{AreRenaming, class_of, has_class, is_proper_pair};
ghost use Rattle.dap_rename.specs.Pairs.{MayFollow, PairFails, FailsFirst};

use crate::pair::{Pair, PairFault};
use dap_tree::Sort;
use std::alloc::{AllocError, Global};
use std::collections::BTreeSet;

// The sort key of a number of a class.
type Key = ((u8, u64), i64);

/// The positions of pairs, sorted by the class of the pair, then by `from`, then by `to`.
#[derive(Drop)]
pub(crate) struct PairIndex {
    places: Vec<usize>,
}

impl PairIndex {
    ghost use Rattle.dap_rename.specs.PairIndex.{IsIndexOf};

    /// Returns the index of the pairs, which occupies 8 bytes per pair. Takes O(n) time if the
    /// pairs are in ascending order, and O(n log n) otherwise.
    pub(crate) fn new(alloc: Global, pairs: &[Pair]) -> Result<PairIndex, AllocError>
        ensures index { IfOk result (IsIndexOf pairs.now) }
        ensures empty { pairs.now ≡ [] → IsOk result }
    {
        let mut places = places_below(alloc, pairs.len())?;
        places.sort_unstable_by_key(|place| key_at(pairs, *place));
        Ok(PairIndex { places })
    }

    /// Returns whether some pair is equal to this one. The index must be that of the pairs.
    pub(crate) fn has(&self, pairs: &[Pair], pair: &Pair) -> bool
        requires { IsIndexOf pairs.now self.now }
        ensures { result ≡ has_pair pairs.now (class_of pair.now) pair.now.from pair.now.to }
    {
        let wanted = pair_key(pair);
        let place = self
            .places
            .binary_search_by_key(&wanted, |place| key_at(pairs, *place));
        place.is_ok()
    }
}

// Returns the positions below the count, in ascending order.
fn places_below(alloc: Global, count: usize) -> Result<Vec<usize>, AllocError>
    ensures places { IfOk result (λ places. places.items ≡ range_with_len 0 count) }
    ensures empty { count ≡ 0 → IsOk result }
{
    if count == 0 {
        return Ok(Vec::new(alloc));
    }
    (0..count).collect(alloc)
}

// Returns the key of the pair at this position.
fn key_at(pairs: &[Pair], place: usize) -> (Key, i64)
    ensures { result ≡ key_at pairs.now place }
{
    match pairs.get(place) {
        Some(pair) => pair_key(pair),
        None => (((0, 0), 0), 0),
    }
}

// Returns the key by which a pair is found.
fn pair_key(pair: &Pair) -> (Key, i64)
    ensures { result ≡ pair_key (class_of pair.now) pair.now.from pair.now.to }
{
    (key(pair, pair.from), pair.to)
}

// Returns the key of a number in the class of a pair.
fn key(pair: &Pair, number: i64) -> Key
    ensures { result ≡ key (class_of pair.now) number }
{
    ((pair.sort as u8, pair.stop), number)
}

// The `from` and `to` numbers of the pairs so far.
#[derive(Drop)]
struct SeenPairs {
    taken: BTreeSet<Key>,
    given: BTreeSet<Key>,
}

impl SeenPairs {
    ghost use Rattle.dap_rename.specs.PairIndex.{HasSeen};

    // Returns why the pair at this position cannot follow the pairs so far, or adds it to them.
    fn add(&mut self, place: usize, pair: &Pair) -> Result<Option<PairFault>, AllocError>
        ensures { IfOk result (λ fault. (before : List Pair) → HasSeen self.old before
            → place ≡ suc (length before)
            → MatchOption fault
            (MayFollow before pair.now × HasSeen self.new (before ++ pair.now ∷ []))
            (PairFails before pair.now)) }
    {
        if !has_class(pair) {
            return Ok(Some(PairFault::BadStop(place)));
        }
        if !is_proper(pair) {
            return Ok(Some(PairFault::ZeroReference(place)));
        }
        let from = key(pair, pair.from);
        if !self.taken.insert(from)? {
            return Ok(Some(PairFault::FromTwice(place)));
        }
        let to = key(pair, pair.to);
        if !self.given.insert(to)? {
            return Ok(Some(PairFault::ToTwice(place)));
        }
        Ok(None)
    }
}

/// Returns the error of the first pair that has one, or `None` if the pairs are a renaming. If an
/// allocation fails, nothing is known about the pairs.
pub(crate) fn seen_fault(alloc: Global, pairs: &[Pair]) -> Result<Option<PairFault>, AllocError>
    ensures reported { IfOk result (λ reported. MatchOption reported
        (AreRenaming pairs.now) (FailsFirst pairs.now)) }
    ensures empty { pairs.now ≡ [] → IsOk result }
{
    let mut seen = SeenPairs {
        taken: BTreeSet::new(alloc),
        given: BTreeSet::new(alloc),
    };
    for (index, pair) in pairs.iter().enumerate() {
        let fault = seen.add(index + 1, pair)?;
        if fault.is_some() {
            return Ok(fault);
        }
    }
    Ok(None)
}

/// Returns whether the class of the pair exists: only frame ids and variables references have a
/// class after a stop.
pub(crate) fn has_class(pair: &Pair) -> bool
    ensures { result ≡ has_class pair.now }
{
    match pair.sort {
        Sort::Frame | Sort::Reference => true,
        _ => pair.stop == 0,
    }
}

/// Returns whether neither number of the pair is a variables reference of 0.
pub(crate) fn is_proper(pair: &Pair) -> bool
    ensures { result ≡ is_proper_pair pair.now }
{
    match pair.sort {
        Sort::Reference => pair.from != 0 && pair.to != 0,
        _ => true,
    }
}
