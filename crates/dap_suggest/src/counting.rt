//! Counts the events of two sessions, and drops those of which they have different numbers, or
//! which come in another order.
use crate::broad::is_needed_event;
use crate::reordered::{Places, are_reordered};
use crate::sessions::Sessions;
use crate::words::{class_of, content_of, text_at};
use dap_compare::Which;
use dap_difference::{Step, push_path};
use dap_message::{AnyMessage, Kind};
use dap_stored::{StoredMessage, StoredSession};
use dap_tree::Scratch;
use std::alloc::{AllocError, Global};
use std::collections::BTreeMap;

/// How many of some events each session has.
#[derive(Clone, Copy, Default)]
struct Counts {
    a: u64,
    b: u64,
}

impl Counts {
    fn add(&mut self, which: Which) {
        match which {
            Which::A => self.a = self.a.saturating_add(1),
            Which::B => self.b = self.b.saturating_add(1),
        }
    }

    fn differ(&self) -> bool {
        self.a != self.b
    }
}

/// The events of one name, if the sessions have different numbers of them, or have them in another
/// order.
#[derive(Drop)]
pub struct Events {
    all: Counts,
    /// The numbers are equal, and the events come in another order.
    are_reordered: bool,
    /// Those that are not counted by their category.
    others: Counts,
    by_category: BTreeMap<String, Counts>,
}

/// The events of which two sessions have different numbers or orders, by their names. Those that
/// explain the difference are dropped.
pub type EventsByName = BTreeMap<String, Events>;

impl Events {
    fn new(alloc: Global, all: Counts) -> Events {
        Events {
            all,
            are_reordered: !all.differ(),
            others: Counts::default(),
            by_category: BTreeMap::new(alloc),
        }
    }

    /// Counts an event by its category.
    fn count(&mut self, which: Which, category: Option<String>) -> Result<(), AllocError> {
        match category {
            Some(category) => self.by_category.entry(category)?.or_default().add(which),
            None => self.others.add(which),
        }
        Ok(())
    }

    /// Returns whether an event is dropped.
    fn drops(
        &self,
        alloc: Global,
        event: &StoredMessage<'_>,
        scratch: &mut Scratch,
    ) -> Result<bool, AllocError> {
        if self.are_reordered || self.others.differ() {
            return Ok(true);
        }
        match category_of(alloc, event, scratch)? {
            Some(category) => {
                let counts = self.by_category.get(category.as_str());
                Ok(counts.is_some_and(|counts| counts.differ()))
            }
            None => Ok(false),
        }
    }

    /// Appends the rules that drop events of this name: all of them, if they come in another order
    /// or if no categories explain the difference.
    pub fn push_drops(
        &self,
        alloc: Global,
        name: &str,
        out: &mut Vec<u8>,
    ) -> Result<(), AllocError> {
        if self.are_reordered || self.others.differ() {
            return push_drop(alloc, &self.all, name, None, out);
        }
        for (category, counts) in self.by_category.iter() {
            if counts.differ() {
                push_drop(alloc, counts, name, Some(category.as_str()), out)?;
            }
        }
        Ok(())
    }
}

/// Appends the rule that drops events of a name, all of them or those of a category, after a
/// comment with their counts.
fn push_drop(
    alloc: Global,
    counts: &Counts,
    name: &str,
    category: Option<&str>,
    out: &mut Vec<u8>,
) -> Result<(), AllocError> {
    let (a, b) = (counts.a, counts.b);
    let order = if a == b { ", in another order" } else { "" };
    out.extend_from_slice(format!(in alloc; "# {a} in A, {b} in B{order}\ndrop   ")?.as_bytes())?;
    out.extend_from_slice(class_of(alloc, Kind::Event, name)?.as_slice())?;
    if let Some(category) = category {
        out.extend_from_slice(b" category=")?;
        push_path(alloc, &[Step::Member(category)], out)?;
    }
    out.extend_from_slice(b"\n\n")
}

/// Returns the category of an event, if that is a text.
fn category_of(
    alloc: Global,
    event: &StoredMessage<'_>,
    scratch: &mut Scratch,
) -> Result<Option<String>, AllocError> {
    let content = content_of(alloc, event, scratch)?;
    let body = content.child("body");
    match body.and_then(|body| text_at(body, "category")) {
        Some(category) => Ok(Some(String::from_str(alloc, category)?)),
        None => Ok(None),
    }
}

/// Adds the places of the events of a session, by their names. Those that a session needs are left
/// out.
fn add_places(
    alloc: Global,
    which: Which,
    session: &StoredSession,
    places: &mut BTreeMap<String, Places>,
) -> Result<(), AllocError> {
    for place in 0..session.len() {
        if let Some(event) = session.message(place)
            && event.kind() == Kind::Event
            && !is_needed_event(event.name())
        {
            let name = String::from_str(alloc, event.name())?;
            let found = places.entry(name)?.or_insert_with(|| Places::new(alloc));
            found.add(which, place)?;
        }
    }
    Ok(())
}

/// Returns the events of which two sessions have different numbers or orders, without their
/// categories. Output in another order is left out, since rules can join it.
fn differing(alloc: Global, sessions: &Sessions) -> Result<EventsByName, AllocError> {
    let mut places = BTreeMap::new(alloc);
    add_places(alloc, Which::A, &sessions.a, &mut places)?;
    add_places(alloc, Which::B, &sessions.b, &mut places)?;
    let mut events = BTreeMap::new(alloc);
    for (name, found) in places {
        let (a, b) = (found.a.len() as u64, found.b.len() as u64);
        if a != b || (name.as_str() != "output" && are_reordered(alloc, sessions, &found)?) {
            let _ = events.insert(name, Events::new(alloc, Counts { a, b }))?;
        }
    }
    Ok(events)
}

/// Counts the events of a session that have these names by their categories.
fn count_categories(
    alloc: Global,
    which: Which,
    session: &StoredSession,
    events: &mut EventsByName,
    scratch: &mut Scratch,
) -> Result<(), AllocError> {
    for place in 0..session.len() {
        if let Some(event) = session.message(place)
            && event.kind() == Kind::Event
            && let Some(found) = events.get_mut(event.name())
            && !found.are_reordered
        {
            found.count(which, category_of(alloc, &event, scratch)?)?;
        }
    }
    Ok(())
}

/// Returns the events of which two sessions have different numbers, counted by their categories,
/// and those that come in another order. Those that a session needs are left out.
pub fn differing_events(alloc: Global, sessions: &Sessions) -> Result<EventsByName, AllocError> {
    let mut events = differing(alloc, sessions)?;
    let mut scratch = Scratch::new(alloc);
    count_categories(alloc, Which::A, &sessions.a, &mut events, &mut scratch)?;
    count_categories(alloc, Which::B, &sessions.b, &mut events, &mut scratch)?;
    Ok(events)
}

/// Returns whether some event is counted by its category.
pub fn have_categories(events: &EventsByName) -> bool {
    events.values().any(|found| !found.by_category.is_empty())
}

/// Counts the events by their names alone.
pub fn forget_categories(events: &mut EventsByName) {
    for found in events.values_mut() {
        found.others = found.all;
        found.by_category.clear();
    }
}

/// Returns whether a message is an event that is dropped.
pub fn is_dropped(
    alloc: Global,
    message: &StoredMessage<'_>,
    events: &EventsByName,
    scratch: &mut Scratch,
) -> Result<bool, AllocError> {
    match events.get(message.name()) {
        Some(found) if message.kind() == Kind::Event => found.drops(alloc, message, scratch),
        _ => Ok(false),
    }
}
