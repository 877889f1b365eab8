//! The numbers that the ids of two recordings share.
ghost use Rattle.std.specs.Prelude.{◌≡◌, ℕ, suc, pos, ◌<ℤ◌, None, Some, IfOk, IsOk, unwrap_or};
ghost use Rattle.std.specs.BTreeMap.{get};
ghost use Rattle.dap_diff.specs.JointNumbers.{IsNumberOf};

use dap_compare::Which;
use dap_tree::Sort;
use std::alloc::{AllocError, Global};
use std::collections::BTreeMap;

/// An id of one of two recordings.
#[derive(Clone, Copy, PartialEq, Eq, PartialOrd, Ord, Drop)]
pub struct Id {
    which: Which,
    sort: Sort,
    /// The stop after which the id was numbered; 0 for an id that is numbered once.
    stop: u64,
    number: i64,
}

impl Id {
    /// Returns the id with this number in a record after this stop.
    pub fn new(which: Which, sort: Sort, stop: u64, number: i64) -> Id {
        let stop = match sort {
            Sort::Frame | Sort::Reference => stop,
            _ => 0,
        };
        Id {
            which,
            sort,
            stop,
            number,
        }
    }
}

/// The joint numbers of the ids of A and B. An id of A and an id of B with one number are equal.
#[derive(Drop)]
pub struct JointNumbers {
    /// The numbers of the ids, counted from 0.
    numbers: BTreeMap<Id, u32>,
    /// How many numbers the ids of each sort have.
    given: BTreeMap<Sort, u32>,
}

impl JointNumbers {
    /// Creates joint numbers without ids. Does not allocate.
    pub fn new(alloc: Global) -> JointNumbers {
        JointNumbers {
            numbers: BTreeMap::new(alloc),
            given: BTreeMap::new(alloc),
        }
    }

    /// Returns the next number of a sort, counted from 0.
    fn next(&mut self, sort: Sort) -> Result<u32, AllocError>
        ensures next { IfOk result (λ next. next
            ≡ unwrap_or (get ⟦<Sort as Ord>⟧.cmp self.old.given sort) 0) }
        ensures numbers { self.new.numbers ≡ self.old.numbers }
    {
        let given = self.given.entry(sort)?.or_insert(0);
        let next = *given;
        *given = next.saturating_add(1);
        Ok(next)
    }

    /// Gives an id of A and an id of B one number, if neither has a number.
    pub fn join(&mut self, a: Id, b: Id) -> Result<(), AllocError> {
        if self.numbers.contains_key(&a) || self.numbers.contains_key(&b) {
            return Ok(());
        }
        let next = self.next(a.sort)?;
        let _ = self.numbers.insert(a, next)?;
        let _ = self.numbers.insert(b, next)?;
        Ok(())
    }

    /// Returns the number of an id, counted from 1. An id without a number gets the next number of
    /// its sort. Does not allocate for an id that has a number.
    pub fn number(&mut self, id: Id) -> Result<i64, AllocError>
        ensures positive { IfOk result (λ number. pos 0 <ℤ number) }

        // It is the number that the id has from now on, and the one that it had, if it had one.
        ensures number { IfOk result
            (λ number. IsNumberOf ⟦<Id as Ord>⟧.cmp self.new.numbers id number) }
        ensures kept { IfOk result (λ number. (n : ℕ)
            → get ⟦<Id as Ord>⟧.cmp self.old.numbers id ≡ Some n
            → number ≡ pos (suc n)) }
        ensures known { (n : ℕ) → get ⟦<Id as Ord>⟧.cmp self.old.numbers id ≡ Some n
            → IsOk result }

        // Otherwise it is the next number of its sort.
        ensures fresh { IfOk result (λ number.
            get ⟦<Id as Ord>⟧.cmp self.old.numbers id ≡ None
            → number ≡ pos (suc (unwrap_or (get ⟦<Sort as Ord>⟧.cmp self.old.given id.sort) 0))) }
    {
        if let Some(number) = self.numbers.get(&id).copied() {
            return Ok(number as i64 + 1);
        }
        let next = self.next(id.sort)?;
        let _ = self.numbers.insert(id, next)?;
        Ok(next as i64 + 1)
    }
}
