//! Sorts the places of messages by their keys.
ghost use Rattle.std.specs.Prelude.{◌≡◌, ◌∷◌, IfOk, OnOk, length, IsPermutation};
ghost use Rattle.std.specs.List.{range_with_len};
ghost use Rattle.dap_order.specs.{PlacesByKey.AreByKey, SortKeys.{sort_key_of, entry_key, keys_in}};

use crate::entries::Entry;
use crate::keys::{Key, class_key};
use dap_message::AnyMessage;
use std::alloc::{AllocError, Global};

/// The sort key of an entry. Responses to requests of the client come first, in the order of these
/// requests. All other messages follow, by class and then by place.
#[derive(Clone, Copy, PartialEq, Eq, PartialOrd, Ord, Drop)]
pub struct SortKey<'m> {
    answers_none: bool,
    request: usize,
    class: Key<'m>,
    place: usize,
}

fn sort_key<'m, M: AnyMessage>(entry: &Entry<'m, M>, place: usize) -> SortKey<'m>
    ensures { sort_key_of result ≡ entry_key entry.now place }
{
    SortKey {
        answers_none: entry.request.is_none(),
        request: entry.request.unwrap_or(0),
        class: class_key(&entry.message),
        place,
    }
}

/// Sort keys of responses to requests of the client, of other messages of the adapter, and of
/// messages of the client. The last part is in order, and the first one mostly is.
#[derive(Drop)]
pub struct Parts<'m> {
    answers: Vec<SortKey<'m>>,
    others: Vec<SortKey<'m>>,
    client: Vec<SortKey<'m>>,
}

impl<'m> Parts<'m> {
    fn add(&mut self, key: SortKey<'m>) -> Result<(), AllocError>
        ensures { OnOk result (IsPermutation (key.entry ∷ keys_in self.old) (keys_in self.new)) }
    {
        if !key.answers_none {
            return Ok(self.answers.push(key)?);
        }
        if key.class.code == 4 {
            return Ok(self.client.push(key)?);
        }
        Ok(self.others.push(key)?)
    }
}

/// Returns the places of the entries in the order of their keys. Entries with equal keys may be in
/// any order.
pub fn places_by_key<M: AnyMessage>(
    alloc: Global,
    entries: &[Entry<'_, M>],
) -> Result<Vec<usize>, AllocError>
    ensures once { IfOk result
        (λ places. IsPermutation (range_with_len 0 (length entries.now)) places.items) }
    ensures by_key { IfOk result (λ places. AreByKey entries.now places.items) }
{
    let mut parts = Parts {
        answers: Vec::with_capacity(alloc, entries.len())?,
        others: Vec::new(alloc),
        client: Vec::new(alloc),
    };
    for place in 0..entries.len() {
        parts.add(sort_key(&entries[place], place))?;
    }
    let Parts {
        answers: mut keys,
        mut others,
        mut client,
    } = parts;
    keys.append(&mut others)?;
    keys.append(&mut client)?;
    keys.sort()?;
    let mut places = Vec::with_capacity(alloc, entries.len())?;
    for key in &keys {
        places.push(key.place)?;
    }
    Ok(places)
}
