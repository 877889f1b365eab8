//! Puts places in order by a plan of their dependences.
ghost use Rattle.std.specs.Prelude.{◌≡◌, ◌<◌, ℕ, false, length, replicate, IfOk, IsOk};
ghost use Rattle.std.specs.List.{range_with_len};
ghost use Rattle.dap_order.specs.{Swaps.{Swaps, AreSwaps}, Order.order};
ghost use Rattle.dap_order.specs.{Plan.{IsWellFormed, IsPlan, place_count}, Links.AreLinks};
ghost use Rattle.dap_order.specs.Progress.{Stands, IsReleased, IsListed};

use crate::links::{Links, links_of};
use crate::plan::Plan;
use crate::progress::Progress;
use std::alloc::{AllocError, Global};

/// Returns the places in the order that [`put_in_order`](crate::put_in_order) produces.
///
/// The time is O(n log n + n g + m) for n places in g groups and m entries of `after`.
///
/// # Errors
///
/// `AllocError`: an allocation failed. The plan has a place.
pub(crate) fn order_of_places(alloc: Global, plan: &Plan) -> Result<Vec<usize>, AllocError>
    requires { IsWellFormed plan.now }
    ensures ordered { (s : Swaps ℕ) → AreSwaps s → IsPlan s plan.now
        → IfOk result (λ places. places.items ≡ order s (range_with_len 0 (place_count plan.now))) }
    ensures empty { place_count plan.now ≡ 0 → IsOk result }
{
    if plan.groups.is_empty() {
        return Ok(Vec::new(alloc));
    }
    let links = links_of(alloc, plan)?;
    let mut progress = Progress::new(alloc, plan)?;
    progress.release_all(plan, &links, 0)?;
    places_written(alloc, plan, &links, &mut progress)
}

/// Writes all places, and returns them in the order in which they were written. No place has been
/// written before.
fn places_written(
    alloc: Global,
    plan: &Plan,
    links: &Links,
    progress: &mut Progress,
) -> Result<Vec<usize>, AllocError>
    requires well_formed { IsWellFormed plan.now }
    requires links { AreLinks plan.now links.now }
    requires represents { Stands plan.now progress.old }
    requires released { (group : ℕ) → group < length plan.now.blocks.items
        → IsReleased plan.now progress.old group }
    requires listed { (place : ℕ) → place < place_count plan.now
        → IsListed plan.now links.now progress.old place }
    requires unwritten { progress.old.written.items ≡ replicate (place_count plan.now) false }
    ensures { (s : Swaps ℕ) → AreSwaps s → IsPlan s plan.now
        → IfOk result (λ places. places.items ≡ order s (range_with_len 0 (place_count plan.now))) }
{
    let mut places = Vec::new(alloc);
    while let Some(place) = progress.write_next(plan) {
        places.push(place)?;
        progress.consider_followers(plan, links, place)?;
        progress.release_all(plan, links, place + 1)?;
    }
    Ok(places)
}
