//! An interning table without an index.
ghost use Rattle.std.specs.Prelude.{◌≡◌, suc, ◌<◌, ◌≤◌, ◌^◌, pos, true, false, [], length};
ghost use Rattle.std.specs.Prelude.{MatchOption};
ghost use Rattle.std.specs.List.{position};
ghost use Rattle.std.specs.Ordering.{int_eq};
ghost use Rattle.dap_rename.specs.Table.{has, place, AllDiffer};

use crate::name_table::{NameFault, NameTable};
use std::alloc::Global;

/// An interning table that searches linearly, from the first number.
#[derive(Drop)]
pub struct PlainNames {
    items: Vec<i64>,
    limit: usize,
    ghost differ: { AllDiffer items.items },
    ghost fits: { length items.items ≤ limit },
    ghost small: { limit < 2 ^ 31 },
}

impl PlainNames {
    ghost use Rattle.dap_rename.specs.PlainNames.{plain_numbers, plain_limit};

    /// Returns an empty table for at most `limit` numbers. Does not allocate.
    pub fn new(alloc: Global, limit: usize) -> PlainNames
        requires { limit < 2 ^ 31 }
        ensures empty { plain_numbers result ≡ [] }
        ensures limit { plain_limit result ≡ limit }
    {
        PlainNames {
            items: Vec::new(alloc),
            limit,
        }
    }

    fn place_of(&self, number: i64) -> Option<usize>
        ensures { MatchOption result (has (plain_numbers self.now) number ≡ false)
            (λ i. (has (plain_numbers self.now) number ≡ true)
            × (place (plain_numbers self.now) number ≡ pos (suc i))
            × (i < length (plain_numbers self.now))) }
    {
        self.scan(number)
    }

    fn scan(&self, number: i64) -> Option<usize>
        ensures { result ≡ position (int_eq number) (plain_numbers self.now) }
    {
        self.items.iter().position(|item| number == *item)
    }
}

impl NameTable for PlainNames {
    ghost use Rattle.dap_rename.specs.PlainNames.{plain_numbers, plain_limit};

    ghost numbers = { plain_numbers };

    ghost limit = { plain_limit };

    ghost distinct = { λ t. t.differ };

    ghost bounded = { λ t. t.fits };

    ghost small = { λ t. t.small };

    fn name(&mut self, number: i64) -> Result<i64, NameFault> {
        if let Some(index) = self.place_of(number) {
            return Ok(index as i64 + 1);
        }
        let count = self.items.len();
        if count == self.limit {
            return Err(NameFault::Full);
        }
        match self.items.push(number) {
            Ok(()) => Ok(count as i64 + 1),
            Err(_) => Err(NameFault::Memory),
        }
    }

    fn find(&self, number: i64) -> Option<i64> {
        match self.place_of(number) {
            Some(index) => Some(index as i64 + 1),
            None => None,
        }
    }

    fn at(&self, place: i64) -> i64 {
        self.items[(place - 1) as usize]
    }

    fn len(&self) -> usize {
        self.items.len()
    }

    fn cut(&mut self, keep: usize) {
        self.items.truncate(keep);
    }
}
