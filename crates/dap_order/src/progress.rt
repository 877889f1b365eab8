//! Tracks which places have been written, and which can be written next.
ghost use Rattle.std.specs.Prelude.{◌≡◌, ◌≤◌, ◌<◌, true, false, length, IfOk, OnOk, MatchOption};
ghost use Rattle.std.specs.{Prelude.slice_index, List.{All, AllWithin, HoldsAt}};
ghost use Rattle.dap_order.specs.{Plan.{IsWellFormed, place_count, followed_by}, Links.AreLinks};
ghost use Rattle.dap_order.specs.Progress.{is_written, Stands, is_held, AreReleasedBut};
ghost use Rattle.dap_order.specs.Progress.{Considered, ConsideredFollowers, ReleasedPlace, Released};
ghost use Rattle.dap_order.specs.Progress.{ReleasedBelow, Wrote, StartsAt, HasNoRank};

use crate::links::Links;
use crate::plan::{Plan, blocks, followed_by};
use std::alloc::{AllocError, Global};
use std::collections::BTreeSet;

/// The state while the places of a plan are written one after the other.
#[derive(Drop)]
pub(crate) struct Progress {
    /// Whether each place has been written.
    written: Vec<bool>,
    /// For each group, the number of leading places whose members of the group are released: no
    /// group blocks them any longer.
    released: Vec<usize>,
    /// For each place, the number of leading entries of its list in `after` that are known to be
    /// written.
    seen: Vec<usize>,
    /// The ranks of the places that are released but not written, and whose list in `after` has
    /// been written.
    ready: BTreeSet<usize>,
}

/// Returns the number of leading entries that have been written. The first `from` entries are known
/// to be written.
fn count_written(written: &[bool], after: &[usize], from: usize) -> usize
    requires in_range { All (λ a. a < length written.now) after.now }
    requires known { AllWithin (λ a. is_written written.now a ≡ true) after.now 0 from }
    requires from_max { from ≤ length after.now }
    ensures max { result ≤ length after.now }
    ensures counted { AllWithin (λ a. is_written written.now a ≡ true) after.now 0 result }
    ensures next { result < length after.now
        → HoldsAt (λ a. is_written written.now a ≡ false) after.now result }
{
    for at in from..after.len() {
        if !written[after[at]] {
            return at;
        }
    }
    after.len()
}

impl Progress {
    /// Returns the state before any place is written or released.
    pub(crate) fn new(alloc: Global, plan: &Plan) -> Result<Progress, AllocError>
        requires { IsWellFormed plan.now }
        ensures starts { IfOk result (StartsAt plan.now) }
    {
        let count = plan.groups.len();
        let written = vec![in alloc; false; count]?;
        let released = vec![in alloc; 0; plan.blocks.len()]?;
        let seen = vec![in alloc; 0; count]?;
        Ok(Progress {
            written,
            released,
            seen,
            ready: BTreeSet::new(alloc),
        })
    }

    /// Adds the place to `ready` if it is ready.
    fn consider(&mut self, plan: &Plan, links: &Links, place: usize) -> Result<(), AllocError>
        requires well_formed { IsWellFormed plan.now }
        requires links { AreLinks plan.now links.now }
        requires represents { Stands plan.now self.old }
        requires in_range { place < place_count plan.now }
        ensures { OnOk result (Considered plan.now links.now self.old self.new place) }
    {
        if self.written[place] || self.released[plan.groups[place]] <= place {
            return Ok(());
        }
        let after = followed_by(plan, place);
        let seen = count_written(&self.written, after, self.seen[place]);
        self.seen[place] = seen;
        if seen == after.len() {
            self.ready.insert(links.ranks[place])?;
        }
        Ok(())
    }

    /// Returns whether places of the group must still follow the place before this one.
    fn is_held(&self, plan: &Plan, group: usize, place: usize) -> bool
        requires well_formed { IsWellFormed plan.now }
        requires represents { Stands plan.now self.now }
        requires in_range { place ≤ place_count plan.now }
        requires group_in_range { group < length plan.now.blocks.items }
        ensures { result ≡ is_held plan.now self.now.written.items group place }
    {
        place > 0 && !self.written[place - 1] && blocks(plan, place - 1, group)
    }

    /// Releases the place, if it is of this group.
    fn release_place(
        &mut self,
        plan: &Plan,
        links: &Links,
        group: usize,
        place: usize,
    ) -> Result<(), AllocError>
        requires well_formed { IsWellFormed plan.now }
        requires links { AreLinks plan.now links.now }
        requires represents { Stands plan.now self.old }
        requires in_range { place < place_count plan.now }
        requires group_in_range { group < length plan.now.blocks.items }
        requires next { slice_index self.old.released.items group ≡ place }
        requires not_held { is_held plan.now self.old.written.items group place ≡ false }
        ensures { OnOk result (ReleasedPlace plan.now links.now self.old self.new group place) }
    {
        self.released[group] = place + 1;
        if plan.groups[place] == group {
            self.consider(plan, links, place)?;
        }
        Ok(())
    }

    /// Releases the places of one group that no group blocks.
    fn release(&mut self, plan: &Plan, links: &Links, group: usize) -> Result<(), AllocError>
        requires well_formed { IsWellFormed plan.now }
        requires links { AreLinks plan.now links.now }
        requires represents { Stands plan.now self.old }
        requires in_range { group < length plan.now.blocks.items }
        ensures { OnOk result (Released plan.now links.now self.old self.new group) }
    {
        for place in self.released[group]..plan.groups.len() {
            if self.is_held(plan, group, place) {
                return Ok(());
            }
            self.release_place(plan, links, group, place)?;
        }
        Ok(())
    }

    /// Releases the places that no group blocks. Only groups whose first place that is not released
    /// is `next` can have such places.
    pub(crate) fn release_all(
        &mut self,
        plan: &Plan,
        links: &Links,
        next: usize,
    ) -> Result<(), AllocError>
        requires well_formed { IsWellFormed plan.now }
        requires links { AreLinks plan.now links.now }
        requires represents { Stands plan.now self.old }
        requires released { AreReleasedBut plan.now self.old next }
        ensures { OnOk result (ReleasedBelow plan.now links.now self.old self.new
            (length plan.now.blocks.items)) }
    {
        for group in 0..plan.blocks.len() {
            if self.released[group] == next {
                self.release(plan, links, group)?;
            }
        }
        Ok(())
    }

    /// Writes the ready place with the smallest key, and returns it.
    pub(crate) fn write_next(&mut self, plan: &Plan) -> Option<usize>
        requires well_formed { IsWellFormed plan.now }
        requires represents { Stands plan.now self.old }
        ensures { MatchOption result (HasNoRank self.old.ready)
            (Wrote plan.now self.old self.new) }
    {
        let rank = self.ready.pop_first()?;
        let place = plan.by_key[rank];
        self.written[place] = true;
        Some(place)
    }

    /// Adds the places that are ready because this place was written.
    pub(crate) fn consider_followers(
        &mut self,
        plan: &Plan,
        links: &Links,
        place: usize,
    ) -> Result<(), AllocError>
        requires well_formed { IsWellFormed plan.now }
        requires links { AreLinks plan.now links.now }
        requires represents { Stands plan.now self.old }
        requires in_range { place < place_count plan.now }
        ensures { OnOk result (ConsideredFollowers plan.now links.now self.old self.new place) }
    {
        let mut next = links.firsts[place];
        while let Some(index) = next {
            let cell = &links.cells[index];
            self.consider(plan, links, cell.place)?;
            next = cell.next;
        }
        Ok(())
    }
}
