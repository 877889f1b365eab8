//! Finds the last earlier message with a key.
ghost use Rattle.std.specs.Prelude.{◌≡◌, IfOk, map};
ghost use Rattle.dap_order.specs.Entries.{sent_by};
ghost use Rattle.dap_order.specs.Keys as keys;

use crate::entries::Entry;
use crate::keys::{By, own_key};
use dap_message::AnyMessage;
use std::alloc::{AllocError, Global};
use std::collections::BTreeMap;

/// Returns for each entry the place of the last earlier entry with the same key.
pub fn previous_of<M: AnyMessage>(
    alloc: Global,
    entries: &[Entry<'_, M>],
    by: By<'_>,
) -> Result<Vec<Option<usize>>, AllocError>
    ensures { IfOk result (λ previous.
        keys.ArePrevious (map (keys.own_key by.entry) (map sent_by entries.now))
        (map (keys.own_key by.entry) (map sent_by entries.now)) previous.items) }
{
    let mut last = BTreeMap::new(alloc);
    let mut previous = Vec::new(alloc);
    for entry in entries {
        let place = last.insert(own_key(by, &entry.message), previous.len())?;
        previous.push(place)?;
    }
    Ok(previous)
}
