//! The contract of an interning table.
ghost use Rattle.std.specs.Prelude.{◌≡◌, ℕ, suc, ◌<◌, ◌≤◌, ◌^◌, ℤ, pos, ◌≤ℤ◌, ◌↔◌, true, false};
ghost use Rattle.std.specs.Prelude.{List, length, take, slice_index_or, MatchOption, IfOk, OnErr};
ghost use Rattle.std.specs.Prelude.{OnOk, IsOk};
ghost use Rattle.dap_rename.specs.Numbering.{add};
ghost use Rattle.dap_rename.specs.Table.{has, place, AllDiffer};

use std::alloc::AllocError;
use thiserror::Error;

/// Why a number was not assigned a canonical number.
#[derive(Clone, Copy, Debug, PartialEq, Eq, Drop, Error)]
pub enum NameFault {
    /// The table already contains as many numbers as its limit.
    #[error("Full")]
    Full,
    /// An allocation failed.
    #[error("Memory")]
    Memory,
}

impl From<AllocError> for NameFault {
    ghost use Rattle.dap_rename.specs.declared.name_table.NameFault.TheVariants.{Memory};

    ghost from_gives = { λ _ f. f ≡ Memory };

    fn from(_: AllocError) -> NameFault {
        NameFault::Memory
    }
}

/// An interning table: a list of distinct numbers, with a limit on its length of at most
/// 2,147,483,647.
///
/// The canonical number of a number is its position in the list, counted from 1.
pub trait NameTable {
    ghost numbers: { Self → List ℤ };

    ghost limit: { Self → ℕ };

    /// Returns the canonical number of `number`. A new number is appended to the list.
    ///
    /// # Errors
    ///
    /// - `Full`: the number is new and the list has reached its limit. Nothing was allocated.
    /// - `Memory`: an allocation failed. The number is new.
    ///
    /// On an error the table is unchanged.
    fn name(&mut self, number: i64) -> Result<i64, NameFault>
        ensures named { IfOk result (λ n. n ≡ place (numbers self.old) number) }
        ensures grown { OnOk result (numbers self.new ≡ add (numbers self.old) number) }
        ensures refused { OnErr result (numbers self.new ≡ numbers self.old) }

        // A number in the list is found without allocating.
        ensures known { has (numbers self.old) number ≡ true → IsOk result }
        ensures full { result ≡ Err NameFault.Full
            ↔ ((has (numbers self.old) number ≡ false)
            × (limit self.old ≤ length (numbers self.old))) }
        ensures same_limit { limit self.new ≡ limit self.old };

    /// Returns the canonical number of `number`, or `None` if it is not in the list. Does not
    /// allocate.
    fn find(&self, number: i64) -> Option<i64>
        ensures { MatchOption result (has (numbers self.now) number ≡ false)
            (λ n. (has (numbers self.now) number ≡ true) × (n ≡ place (numbers self.now) number)) };

    /// Returns the number whose canonical number is `place`. Does not allocate.
    fn at(&self, place: i64) -> i64
        requires first { pos 1 ≤ℤ place }
        requires last { place ≤ℤ pos (length (numbers self.now)) }
        ensures { (k : ℕ) → place ≡ pos (suc k)
            → result ≡ slice_index_or (numbers self.now) k (pos 0) };

    /// Returns the length of the list. Does not allocate.
    fn len(&self) -> usize
        ensures { result ≡ length (numbers self.now) };

    /// Removes all numbers after the first `keep`. Does not allocate.
    fn cut(&mut self, keep: usize)
        requires { keep ≤ length (numbers self.old) }
        ensures kept { numbers self.new ≡ take keep (numbers self.old) }
        ensures same_limit { limit self.new ≡ limit self.old };

    ghost distinct: { (t : Self) → AllDiffer (numbers t) };

    ghost bounded: { (t : Self) → length (numbers t) ≤ limit t };

    ghost small: { (t : Self) → limit t < 2 ^ 31 };
}
