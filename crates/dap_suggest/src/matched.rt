//! The records of two sessions, and those that are matched.
use crate::counting::{EventsByName, is_dropped};
use crate::obstacle::{Reason, Remaining};
use crate::sessions::Sessions;
use crate::words::class_of;
use dap_compare::Which;
use dap_diff::{Entry, StoredEntry, match_records};
use dap_message::AnyMessage;
use dap_stored::StoredSession;
use dap_tree::Scratch;
use std::alloc::{AllocError, Global};

/// A record of A and its counterpart in B, with its place in B.
#[derive(Clone, Copy)]
pub struct Pair<'m> {
    pub a: &'m StoredEntry<'m>,
    pub b: &'m StoredEntry<'m>,
    pub place: usize,
}

impl<'m> Pair<'m> {
    /// Returns the kind and the name of the messages.
    pub fn head(&self) -> &'m str {
        // The marker of the side and a space come before them.
        self.a.head.get(2..).unwrap_or("")
    }

    /// Returns the kind and the name of the messages, as rules have them.
    pub fn class(&self, alloc: Global) -> Result<Vec<u8>, AllocError> {
        class_of(alloc, self.a.message.kind(), self.a.message.name())
    }
}

/// Adds the records of a session, without the events that are dropped.
fn add_entries<'m>(
    alloc: Global,
    session: &'m StoredSession,
    events: &EventsByName,
    scratch: &mut Scratch,
    entries: &mut Vec<StoredEntry<'m>>,
) -> Result<(), AllocError> {
    for place in 0..session.len() {
        if let Some(message) = session.message(place)
            && !is_dropped(alloc, &message, events, scratch)?
        {
            entries.push(Entry::new(alloc, place as u64 + 1, 0, message)?)?;
        }
    }
    Ok(())
}

/// Adds the records of two sessions, without the events that are dropped, and matches them.
pub fn add_matched<'m>(
    alloc: Global,
    sessions: &'m Sessions,
    events: &EventsByName,
    a: &mut Vec<StoredEntry<'m>>,
    b: &mut Vec<StoredEntry<'m>>,
) -> Result<(), AllocError> {
    let mut scratch = Scratch::new(alloc);
    add_entries(alloc, &sessions.a, events, &mut scratch, a)?;
    add_entries(alloc, &sessions.b, events, &mut scratch, b)?;
    match_records(alloc, a.as_mut_slice(), b.as_mut_slice())
}

/// Returns a record of A with its counterpart.
fn pair_of<'m>(a: &'m StoredEntry<'m>, others: &'m [StoredEntry<'m>]) -> Option<Pair<'m>> {
    let place = a.counterpart?;
    let b = others.get(place)?;
    Some(Pair { a, b, place })
}

/// Returns the pairs of records that are matched, in the order of A. Adds the other records.
pub fn pairs_of<'m>(
    alloc: Global,
    a: &'m [StoredEntry<'m>],
    b: &'m [StoredEntry<'m>],
    remaining: &mut Remaining,
) -> Result<Vec<Pair<'m>>, AllocError> {
    let mut pairs = Vec::with_capacity(alloc, a.len())?;
    for entry in a {
        match pair_of(entry, b) {
            Some(pair) => pairs.push(pair)?,
            None => remaining.add(Reason::NoCounterpart, Which::A, entry)?,
        }
    }
    for entry in b {
        if entry.counterpart.is_none() {
            remaining.add(Reason::NoCounterpart, Which::B, entry)?;
        }
    }
    Ok(pairs)
}
