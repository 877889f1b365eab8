//! Groups messages by their looks, and computes which groups block each other.
ghost use Rattle.std.specs.Prelude.{◌≡◌, List, IfOk, map, length};
ghost use Rattle.dap_message.specs.SwapRules.{SwapRule as Swap, swaps_of};
ghost use Rattle.dap_order.specs.{Entries.sent_by, Keys.look_key};
ghost use Rattle.dap_order.specs.Looks as words;

use crate::entries::Entry;
use crate::keys::{By, Key};
use crate::partners::partners_of;
use crate::previous::previous_of;
use crate::rules::may_swap;
use dap_message::{AnyMessage, SwapRule};
use std::alloc::{AllocError, Global};
use std::collections::BTreeSet;

/// The groups of the places of a list, and the first place of each group.
#[derive(Drop)]
pub struct Groups {
    pub groups: Vec<usize>,
    pub firsts: Vec<usize>,
}

/// Returns the groups of entries with the same look.
pub fn groups_of<M: AnyMessage>(
    alloc: Global,
    rules: &[SwapRule],
    entries: &[Entry<'_, M>],
) -> Result<Groups, AllocError>
    ensures { IfOk result (λ g. words.AreGroups
        (map (look_key (swaps_of rules.now)) (map sent_by entries.now))
        (length entries.now) g.groups.items g.firsts.items) }
{
    let previous = previous_of(alloc, entries, By::Look(rules))?;
    let mut groups: Vec<usize> = Vec::new(alloc);
    let mut firsts = Vec::new(alloc);
    for place in 0..entries.len() {
        let group = match previous[place] {
            Some(earlier) => groups[earlier],
            None => {
                firsts.push(place)?;
                firsts.len() - 1
            }
        };
        groups.push(group)?;
    }
    Ok(Groups { groups, firsts })
}

/// Returns the keys of the halves that rules name together with the message at the place.
fn partners_at<'m, M: AnyMessage>(
    alloc: Global,
    rules: &'m [SwapRule],
    entries: &[Entry<'m, M>],
    place: usize,
) -> Result<BTreeSet<Key<'m>>, AllocError>
    ensures { IfOk result
        (words.ArePartnersAt (swaps_of rules.now) (map sent_by entries.now) place) }
{
    match entries.get(place) {
        Some(entry) => partners_of(alloc, rules, &entry.message),
        None => Ok(BTreeSet::new(alloc)),
    }
}

/// Returns whether the looks of the messages at the two places block each other. `partners` are
/// those of the message at `place`.
fn is_blocked<'m, M: AnyMessage>(
    partners: &BTreeSet<Key<'m>>,
    entries: &[Entry<'m, M>],
    place: usize,
    other: usize,
) -> bool
    ensures { (rules : List Swap) → words.ArePartnersAt rules (map sent_by entries.now) place
        partners.now → result ≡ words.blocks_at rules (map sent_by entries.now) place other }
{
    let Some(x) = entries.get(place) else {
        return true;
    };
    let Some(y) = entries.get(other) else {
        return true;
    };
    !may_swap(partners, &x.message, &y.message)
}

/// Returns for each of the places `firsts` whether its group blocks that of `place`.
fn row_of<'m, M: AnyMessage>(
    alloc: Global,
    rules: &'m [SwapRule],
    entries: &[Entry<'m, M>],
    firsts: &[usize],
    place: usize,
) -> Result<Vec<bool>, AllocError>
    ensures { IfOk result (λ row. row.items ≡ map
        (words.blocks_at (swaps_of rules.now) (map sent_by entries.now) place) firsts.now) }
{
    let partners = partners_at(alloc, rules, entries, place)?;
    let mut row = Vec::new(alloc);
    for other in firsts {
        row.push(is_blocked(&partners, entries, place, *other))?;
    }
    Ok(row)
}

/// Returns which groups block each other. `firsts` has one place of each group.
pub fn blocks_of<'m, M: AnyMessage>(
    alloc: Global,
    rules: &'m [SwapRule],
    entries: &[Entry<'m, M>],
    firsts: &[usize],
) -> Result<Vec<Vec<bool>>, AllocError>
    ensures { IfOk result (λ blocks. map (λ row. row.items) blocks.items
        ≡ words.block_table (swaps_of rules.now) (map sent_by entries.now) firsts.now) }
{
    let mut blocks = Vec::new(alloc);
    for place in firsts {
        blocks.push(row_of(alloc, rules, entries, firsts, *place)?)?;
    }
    Ok(blocks)
}
