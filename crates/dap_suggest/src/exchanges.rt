//! The exchanges that a suggestion may have: those that were given, and those of messages that come
//! in both orders.
ghost use Rattle.std.specs.Prelude.{◌≡◌, IfOk, IsTrue};
ghost use Rattle.std.specs.List.{AllByRecursion, Contains, list_any};
ghost use Rattle.dap_mask.specs.Swaps.{same_half};
ghost use Rattle.dap_message.specs.SwapRules.{half_of, swap_of, swaps_of};
ghost use Rattle.dap_order.specs.Free.{fits_half};
ghost use Rattle.dap_stored.specs.Sessions.{messages_of, stored_sent};
ghost use Rattle.dap_suggest.specs.Exchanges.{ComesBefore, IsInverted, IsNeeded, NamesAt};
ghost use Rattle.dap_suggest.specs.Exchanges.{equal_swaps};

use crate::sessions::Sessions;
use dap_message::{AnyMessage, Half, Kind, SwapRule};
use dap_session::envelope::envelope_of;
use dap_session::message::{kind_of, name_of};
use dap_stored::{StoredMessage, StoredSession};
use std::alloc::{AllocError, Global};
use std::collections::BTreeMap;

fn same_half(half: &Half, other: &Half) -> bool
    ensures { result ≡ same_half (half_of half.now) (half_of other.now) }
{
    half.kind == other.kind
        && match (&half.name, &other.name) {
            (Some(name), Some(found)) => name.as_str() == found.as_str(),
            (None, None) => true,
            _ => false,
        }
}

fn equal_swaps(swap: &SwapRule, other: &SwapRule) -> bool
    ensures { result ≡ equal_swaps (swap_of swap.now) (swap_of other.now) }
{
    same_half(&swap.one, &other.one) && same_half(&swap.another, &other.another)
}

/// Returns whether the rule is one of these.
fn is_among(swaps: &[SwapRule], swap: &SwapRule) -> bool
    ensures { result ≡ list_any (λ s. equal_swaps (swap_of swap.now) (swap_of s)) swaps.now }
{
    swaps.iter().any(|other| equal_swaps(swap, other))
}

/// Returns whether each of the other rules is one of `swaps`.
pub fn are_among(swaps: &[SwapRule], others: &[SwapRule]) -> bool
    ensures { IsTrue result → AllByRecursion (Contains (swaps_of swaps.now)) (swaps_of others.now) }
{
    for other in others {
        if !is_among(swaps, other) {
            return false;
        }
    }
    true
}

fn names(half: &Half, message: &StoredMessage<'_>) -> bool
    ensures { result ≡ fits_half (half_of half.now) (stored_sent message.now) }
{
    let message = envelope_of(message);
    half.kind == kind_of(&message)
        && match &half.name {
            None => true,
            Some(name) => name_of(&message) == name.as_str(),
        }
}

/// Returns whether the half names the message at a place.
fn names_at(half: &Half, session: &StoredSession, place: usize) -> bool
    ensures { IsTrue result → NamesAt (half_of half.now) (messages_of session.now) place }
{
    match session.message(place) {
        Some(message) => names(half, &message),
        None => false,
    }
}

/// The first and the last place of the messages of one kind and name.
#[derive(Clone, Copy)]
struct Span {
    first: usize,
    last: usize,
}

/// The spans of the messages of one name.
#[derive(Clone, Copy, Default)]
struct Kinds {
    request: Option<Span>,
    response: Option<Span>,
    event: Option<Span>,
}

impl Kinds {
    fn of(&self, kind: Kind) -> Option<Span> {
        match kind {
            Kind::Request => self.request,
            Kind::Response => self.response,
            Kind::Event => self.event,
        }
    }

    /// Adds a place, which comes after those that were added before.
    fn add(&mut self, kind: Kind, place: usize) {
        let first = self.of(kind).map_or(place, |span| span.first);
        let span = Some(Span { first, last: place });
        match kind {
            Kind::Request => self.request = span,
            Kind::Response => self.response = span,
            Kind::Event => self.event = span,
        }
    }
}

/// A session, with the spans of its messages.
#[derive(Drop)]
struct Spans<'s> {
    session: &'s StoredSession,
    by_name: BTreeMap<String, Kinds>,
}

impl<'s> Spans<'s> {
    fn new(alloc: Global, session: &'s StoredSession) -> Result<Spans<'s>, AllocError>
        ensures { IfOk result (λ spans. spans.session.now ≡ session.now) }
    {
        let mut by_name: BTreeMap<String, Kinds> = BTreeMap::new(alloc);
        for place in 0..session.len() {
            if let Some(message) = session.message(place) {
                let name = String::from_str(alloc, message.name())?;
                by_name.entry(name)?.or_default().add(message.kind(), place);
            }
        }
        Ok(Spans { session, by_name })
    }

    /// Returns the span of the messages that a half names, unless it names those of any name.
    fn of(&self, half: &Half) -> Option<Span> {
        let name = half.name.as_deref()?;
        self.by_name.get(name)?.of(half.kind)
    }

    /// Returns whether a message that one half names comes before a message that the other half
    /// names.
    fn have(&self, one: &Half, another: &Half) -> bool
        ensures { IsTrue result → ComesBefore (half_of one.now) (half_of another.now)
            (messages_of self.now.session.now) }
    {
        let (Some(before), Some(after)) = (self.of(one), self.of(another)) else {
            return false;
        };
        before.first < after.last
            && names_at(one, self.session, before.first)
            && names_at(another, self.session, after.last)
    }
}

/// Returns whether messages that the halves of a rule name come in one order in A, and in the other
/// order in B.
fn is_inverted(a: &Spans<'_>, b: &Spans<'_>, swap: &SwapRule) -> bool
    ensures { IsTrue result → IsInverted (messages_of a.now.session.now)
        (messages_of b.now.session.now) (swap_of swap.now) }
{
    let (one, another) = (&swap.one, &swap.another);
    (a.have(one, another) && b.have(another, one)) || (a.have(another, one) && b.have(one, another))
}

/// Returns whether the exchange was given, or is for messages that come in both orders.
fn is_needed(given: &[SwapRule], a: &Spans<'_>, b: &Spans<'_>, swap: &SwapRule) -> bool
    ensures { IsTrue result → IsNeeded (swaps_of given.now) (messages_of a.now.session.now)
        (messages_of b.now.session.now) (swap_of swap.now) }
{
    is_among(given, swap) || is_inverted(a, b, swap)
}

/// Returns whether each exchange was given, or is for messages that come in both orders in two
/// sessions.
pub fn are_needed(
    alloc: Global,
    given: &[SwapRule],
    swaps: &[SwapRule],
    sessions: &Sessions,
) -> Result<bool, AllocError>
    ensures { IfOk result (λ needed. IsTrue needed → AllByRecursion (IsNeeded
        (swaps_of given.now) (messages_of sessions.now.a) (messages_of sessions.now.b))
        (swaps_of swaps.now)) }
{
    let a = Spans::new(alloc, &sessions.a)?;
    let b = Spans::new(alloc, &sessions.b)?;
    for swap in swaps {
        if !is_needed(given, &a, &b, swap) {
            return Ok(false);
        }
    }
    Ok(true)
}
