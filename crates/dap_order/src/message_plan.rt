//! Creates the plan by which messages are put in order.
ghost use Rattle.std.specs.{Prelude.{◌≡◌, ◌<◌, ℕ, [], IfOk, map, length}, List.slice_index_or};
ghost use Rattle.dap_order.specs.{Plan.{IsWellFormed, IsPlan, place_count}, Entries.sent_by};
ghost use Rattle.dap_order.specs.{Table.place_order, Waits.{Covers, are_tied}};

use crate::by_key::places_by_key;
use crate::entries::Entry;
use crate::looks::{Groups, blocks_of, groups_of};
use crate::plan::Plan;
use crate::table::Table;
use crate::waits::Earlier;
use dap_message::AnyMessage;
use std::alloc::{AllocError, Global};

/// Returns for each entry the places that it must follow, whatever the rules are.
fn after_of<M: AnyMessage>(
    alloc: Global,
    entries: &[Entry<'_, M>],
) -> Result<Vec<Vec<usize>>, AllocError>
    ensures len { IfOk result (λ after. length after.items ≡ length entries.now) }
    ensures covers { IfOk result (λ after. (place : ℕ) → place < length entries.now
        → Covers are_tied (map sent_by entries.now) place
        (slice_index_or (map (λ row. row.items) after.items) place [])) }
{
    let earlier = Earlier::new(alloc, entries)?;
    let mut after = Vec::new(alloc);
    for place in 0..entries.len() {
        after.push(earlier.waits_of(alloc, place)?)?;
    }
    Ok(after)
}

/// Returns the plan by which the places of the table are put in order.
pub fn plan_of<M: AnyMessage>(alloc: Global, table: &Table<'_, M>) -> Result<Plan, AllocError>
    ensures count { IfOk result (λ plan. place_count plan ≡ length table.now.entries.items) }
    ensures well_formed { IfOk result (λ plan. IsWellFormed plan) }
    ensures plan { IfOk result (λ plan. IsPlan (place_order table.now) plan) }
{
    let entries = table.entries.as_slice();
    let Groups { groups, firsts } = groups_of(alloc, table.rules, entries)?;
    Ok(Plan {
        groups,
        blocks: blocks_of(alloc, table.rules, entries, &firsts)?,
        after: after_of(alloc, entries)?,
        by_key: places_by_key(alloc, entries)?,
    })
}
