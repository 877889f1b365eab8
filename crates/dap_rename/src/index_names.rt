//! An interning table with a hash index.
ghost use Rattle.std.specs.Prelude.{◌≡◌, suc, ◌<◌, ◌≤◌, ◌^◌, pos, true, false, [], length};
ghost use Rattle.std.specs.Prelude.{MatchOption};
ghost use Rattle.dap_rename.specs.Table.{has, place, AllDiffer};

use crate::Tables;
use crate::name_table::{NameFault, NameTable};
use dap_tree::Sort;
use indexmap::IndexSet;
use std::alloc::Global;
use std::hash::BuildHasher;

/// An interning table that looks numbers up by their hashes.
///
/// A lookup or an insertion computes one hash. Numbers with equal hashes are searched linearly, and
/// with a fixed hasher an adapter could choose such numbers. Pass
/// a randomly seeded hasher such as `RandomState`. The hasher must return equal hashes for equal
/// numbers, as the contract of `BuildHasher` requires.
#[derive(Drop)]
pub struct IndexNames<S: BuildHasher> {
    items: IndexSet<i64, S>,
    limit: usize,
    ghost differ: { AllDiffer items.keys },
    ghost fits: { length items.keys ≤ limit },
    ghost small: { limit < 2 ^ 31 },
}

impl<S: BuildHasher + Drop> IndexNames<S> {
    ghost use Rattle.dap_rename.specs.IndexNames.{index_numbers, index_limit};

    /// Returns an empty table for at most `limit` numbers, which uses `hasher`. Does not allocate.
    pub fn new(alloc: Global, limit: usize, hasher: S) -> IndexNames<S>
        requires { limit < 2 ^ 31 }
        ensures empty { index_numbers result ≡ [] }
        ensures limit { index_limit result ≡ limit }
    {
        IndexNames {
            items: IndexSet::with_hasher(alloc, hasher),
            limit,
        }
    }

    fn place_of(&self, number: i64) -> Option<usize>
        ensures { MatchOption result (has (index_numbers self.now) number ≡ false)
            (λ i. (has (index_numbers self.now) number ≡ true)
            × (place (index_numbers self.now) number ≡ pos (suc i))
            × (i < length (index_numbers self.now))) }
    {
        self.items.get_index_of(&number)
    }
}

// `Tables` does not make these, since each library whose interface names `Tables` would then hold
// all that indexmap states.
impl<S: BuildHasher + Copy + Drop> IndexNames<S> {
    ghost use Rattle.dap_rename.specs.IndexNames.{index_numbers, index_limit};
    ghost use Rattle.dap_rename.specs.Names.{AreEmpty};
    ghost use Rattle.dap_rename.specs.Tables.{table_of};

    /// Returns empty tables for all kinds of ids, each for at most `limit` numbers, which use
    /// `hasher`. Does not allocate.
    pub fn tables(alloc: Global, limit: usize, hasher: S) -> Tables<IndexNames<S>>
        requires { limit < 2 ^ 31 }
        ensures empty { AreEmpty index_numbers result }
        ensures limits { (s : Sort) → index_limit (table_of result s) ≡ limit }
    {
        Tables {
            client_seq: IndexNames::new(alloc, limit, hasher),
            adapter_seq: IndexNames::new(alloc, limit, hasher),
            frame: IndexNames::new(alloc, limit, hasher),
            reference: IndexNames::new(alloc, limit, hasher),
            thread: IndexNames::new(alloc, limit, hasher),
            breakpoint: IndexNames::new(alloc, limit, hasher),
        }
    }
}

impl<S: BuildHasher + Drop> NameTable for IndexNames<S> {
    ghost use Rattle.dap_rename.specs.IndexNames.{index_numbers, index_limit};

    ghost numbers = { index_numbers };

    ghost limit = { index_limit };

    ghost distinct = { λ t. t.differ };

    ghost bounded = { λ t. t.fits };

    ghost small = { λ t. t.small };

    fn name(&mut self, number: i64) -> Result<i64, NameFault> {
        if self.items.len() == self.limit {
            return match self.place_of(number) {
                Some(index) => Ok(index as i64 + 1),
                None => Err(NameFault::Full),
            };
        }
        match self.items.insert_full(number) {
            Ok((index, _)) => Ok(index as i64 + 1),
            Err(_) => Err(NameFault::Memory),
        }
    }

    fn find(&self, number: i64) -> Option<i64> {
        match self.place_of(number) {
            Some(index) => Some(index as i64 + 1),
            None => None,
        }
    }

    fn at(&self, place: i64) -> i64 {
        *self.items.get_index((place - 1) as usize).unwrap()
    }

    fn len(&self) -> usize {
        self.items.len()
    }

    fn cut(&mut self, keep: usize) {
        self.items.truncate(keep);
    }
}
