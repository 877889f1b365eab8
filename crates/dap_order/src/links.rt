//! Computes the inverse lists of a plan.
ghost use Rattle.std.specs.Prelude.{◌≡◌, IfOk};
ghost use Rattle.dap_order.specs.{Plan.IsWellFormed, Links.{AreRanks, AreLinks}};

use crate::plan::{Plan, followed_by};
use std::alloc::{AllocError, Global};

/// A cell of a linked list of places.
#[derive(Clone, Copy, Drop)]
pub(crate) struct Cell {
    pub(crate) place: usize,
    /// The index of the next cell of the list.
    pub(crate) next: Option<usize>,
}

/// The rank of each place, and the places that follow each place.
#[derive(Drop)]
pub(crate) struct Links {
    /// The index of each place in `by_key`.
    pub(crate) ranks: Vec<usize>,
    /// For each place, the index of the first cell of the list of its followers: of the places
    /// whose list in `after` contains it.
    pub(crate) firsts: Vec<Option<usize>>,
    pub(crate) cells: Vec<Cell>,
}

/// Returns the rank of each place.
fn ranks_of(alloc: Global, plan: &Plan) -> Result<Vec<usize>, AllocError>
    requires { IsWellFormed plan.now }
    ensures ranks { IfOk result (λ ranks. AreRanks plan.now ranks.items) }
{
    let mut ranks = vec![in alloc; 0; plan.by_key.len()]?;
    for rank in 0..plan.by_key.len() {
        ranks[plan.by_key[rank]] = rank;
    }
    Ok(ranks)
}

/// Returns the ranks and the followers of the places of a plan.
pub(crate) fn links_of(alloc: Global, plan: &Plan) -> Result<Links, AllocError>
    requires { IsWellFormed plan.now }
    ensures links { IfOk result (AreLinks plan.now) }
{
    let ranks = ranks_of(alloc, plan)?;
    let mut firsts: Vec<Option<usize>> = vec![in alloc; None; plan.groups.len()]?;
    let mut cells = Vec::with_capacity(alloc, plan.groups.len())?;
    for place in 0..plan.groups.len() {
        for earlier in followed_by(plan, place) {
            let next = firsts[*earlier];
            firsts[*earlier] = Some(cells.len());
            cells.push(Cell { place, next })?;
        }
    }
    Ok(Links {
        ranks,
        firsts,
        cells,
    })
}
