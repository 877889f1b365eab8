//! Counts what the candidates do to the pairs of values at one place.
ghost use Rattle.std.specs.Prelude.{◌≡◌, ℕ, [], ◌∷◌, ◌++◌, List, OnOk, OnErr, count_by};
ghost use Rattle.dap_suggest.specs.Hidden.{Represents, capped, is_hidden};

use crate::candidates::{Actions, Candidates};
use crate::repeats::Repeats;
use std::alloc::{AllocError, Global};
use std::collections::BTreeMap;

/// Pairs of different values that the same candidates make equal.
#[derive(Drop)]
pub struct Different {
    count: u64,
    /// How many pairs of values came before the first of these.
    pub before: u64,
    /// The comment that shows the first pair.
    pub comment: Vec<u8>,
}

/// How many equal values are changed by exactly these actions.
#[derive(Clone, Copy)]
pub struct Equal {
    changing: Actions,
    count: u64,
}

/// The pairs of values of elements of one name, or of all others.
#[derive(Drop)]
pub struct Tally {
    /// The numbers of equal pairs, one for each set of actions that changes some of them.
    equal: Vec<Equal>,
    /// The pairs that differ, by the candidates that make them equal.
    different: BTreeMap<Candidates, Different>,
    /// Those pairs again, to find ids among them.
    pub repeats: Repeats,
}

impl Tally {
    pub fn new(alloc: Global) -> Tally
        ensures { Represents result [] }
    {
        Tally {
            equal: Vec::new(alloc),
            different: BTreeMap::new(alloc),
            repeats: Repeats::new(alloc),
        }
    }

    /// Adds a pair of equal values that these actions change. If an allocation fails, the tally is
    /// unchanged.
    pub fn add_equal(&mut self, actions: Actions) -> Result<(), AllocError>
        ensures ok { (values : List ℕ) → Represents self.old values
            → OnOk result (Represents self.new (values ++ actions ∷ [])) }
        ensures err { (values : List ℕ) → Represents self.old values
            → OnErr result (Represents self.new values) }
    {
        if actions == 0 {
            return Ok(());
        }
        let place = self
            .equal
            .iter()
            .position(|equal| equal.changing == actions);
        match place {
            Some(place) => {
                let count = self.equal[place].count;
                self.equal[place].count = count.saturating_add(1);
                Ok(())
            }
            None => {
                self.equal.push(Equal {
                    changing: actions,
                    count: 1,
                })?;
                Ok(())
            }
        }
    }

    /// Returns whether some different values are made equal by exactly these candidates.
    pub fn has(&self, candidates: Candidates) -> bool {
        self.different.contains_key(&candidates)
    }

    /// Adds a pair of different values that exactly these candidates make equal. The comment is
    /// that of the first such pair.
    pub fn add_different(
        &mut self,
        candidates: Candidates,
        before: u64,
        comment: Vec<u8>,
    ) -> Result<(), AllocError>
        ensures { (values : List ℕ) → Represents self.old values → Represents self.new values }
    {
        let first = Different {
            count: 0,
            before,
            comment,
        };
        let different = self.different.entry(candidates)?.or_insert(first);
        different.count = different.count.saturating_add(1);
        Ok(())
    }

    /// Returns how many equal values actions change that other actions do not change.
    pub fn hidden(&self, actions: Actions, others: Actions) -> u64
        ensures { (values : List ℕ) → Represents self.now values
            → result ≡ capped (count_by (is_hidden actions others) values) }
    {
        let mut hidden = 0u64;
        for equal in &self.equal {
            if equal.changing & actions != 0 && equal.changing & others == 0 {
                hidden = hidden.saturating_add(equal.count);
            }
        }
        hidden
    }

    /// Returns how many pairs candidates make equal that other candidates do not make equal.
    pub fn equated(&self, candidates: Candidates, others: Candidates) -> u64 {
        let mut equated = 0u64;
        for (equating, different) in self.different.iter() {
            if *equating & candidates != 0 && *equating & others == 0 {
                equated = equated.saturating_add(different.count);
            }
        }
        equated
    }

    /// Returns whether each pair is made equal by one of these candidates.
    pub fn is_equated(&self, candidates: Candidates) -> bool {
        self.different
            .keys()
            .all(|equating| *equating & candidates != 0)
    }

    /// Returns the first pair that a candidate makes equal, and those like it.
    pub fn first(&self, candidates: Candidates) -> Option<&Different> {
        let mut first: Option<&Different> = None;
        for (equating, different) in self.different.iter() {
            let is_first = first.is_none_or(|other| different.before < other.before);
            if *equating & candidates != 0 && is_first {
                first = Some(different);
            }
        }
        first
    }
}
