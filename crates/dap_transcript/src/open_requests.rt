//! Finds the request that a response is expected to answer.
ghost use Rattle.std.specs.Prelude.{◌≡◌, ◌++◌, ◌∷◌, ℕ, [], cond, length, List, OnOk};
ghost use Rattle.std.specs.Prelude.{bytes_eq, slice_get};
ghost use Rattle.std.specs.VecDeque.{deque_items};
ghost use Rattle.dap_message.specs.Message.{Sent};
ghost use Rattle.dap_session.specs.Messages.{other};
ghost use Rattle.dap_transcript.specs.Expected.{oldest_open};
ghost use Rattle.dap_transcript.specs.Requests.{AddsRequest, AddsResponse, IsNumbered, IsQueue};
ghost use Rattle.dap_transcript.specs.Requests.{Notes, Tracks, are_answered, first_open, is_closed};
ghost use Rattle.dap_transcript.specs.Requests.{queue_of, requests, responds};
ghost use Rattle.dap_transcript.specs.declared.open_requests.Asked.{Asked};

use crate::tokens::{Numbered, Title};
use dap_profile::Kind;
use dap_tree::Side;
use std::alloc::{AllocError, Global};
use std::collections::{BTreeMap, VecDeque};

/// A request, which is the message at a place.
#[derive(Clone, Copy, Drop)]
pub(crate) struct Asked {
    number: i64,
    place: usize,
}

/// The requests of one side so far, by their commands, and the place of the last response to each
/// number. The first requests of a queue are left out after they are answered.
#[derive(Drop)]
pub(crate) struct OpenRequests<'t> {
    queues: BTreeMap<&'t [u8], VecDeque<Asked>>,
    answered: BTreeMap<i64, usize>,
}

/// Returns the place of the last response to a number.
fn answer_to(answered: &BTreeMap<i64, usize>, number: i64) -> Option<usize>
    ensures { result ≡ are_answered answered.now number }
{
    answered.get(&number).copied()
}

/// Returns whether the last response to a request came after it.
fn is_closed(answered: &BTreeMap<i64, usize>, request: Asked) -> bool
    ensures { result ≡ is_closed (are_answered answered.now) request }
{
    match answer_to(answered, request.number) {
        None => false,
        Some(place) => request.place < place,
    }
}

fn front_of(queue: &VecDeque<Asked>) -> Option<Asked>
    ensures { result ≡ slice_get queue.now.items 0 }
{
    queue.front().copied()
}

/// Removes the requests before the first open one, and returns its number.
fn skip_closed(answered: &BTreeMap<i64, usize>, queue: &mut VecDeque<Asked>) -> Option<i64>
    ensures { (all : List Asked) → IsQueue (are_answered answered.now) all queue.old.items
        → IsQueue (are_answered answered.now) all queue.new.items
        × (result ≡ first_open (are_answered answered.now) all) }
{
    while let Some(request) = front_of(queue) {
        if !is_closed(answered, request) {
            return Some(request.number);
        }
        let _ = queue.pop_front();
    }
    None
}

/// Takes the queue of a command out of the map.
fn take_queue<'t>(
    alloc: Global,
    queues: &mut BTreeMap<&'t [u8], VecDeque<Asked>>,
    command: &'t [u8],
) -> VecDeque<Asked>
    ensures queue { result.items ≡ queue_of deque_items queues.old command.now }
    ensures others { (q : List ℕ) → queue_of deque_items queues.new q
        ≡ cond (bytes_eq command.now q) [] (queue_of deque_items queues.old q) }
{
    match queues.remove(&command) {
        Some(queue) => queue,
        None => VecDeque::new(alloc),
    }
}

/// Adds a request to the queue of its command.
fn push_request<'t>(
    alloc: Global,
    queues: &mut BTreeMap<&'t [u8], VecDeque<Asked>>,
    command: &'t [u8],
    request: Asked,
) -> Result<(), AllocError>
    ensures { OnOk result ((q : List ℕ) → queue_of deque_items queues.new q
        ≡ queue_of deque_items queues.old q
        ++ cond (bytes_eq command.now q) (request ∷ []) []) }
{
    let mut queue = take_queue(alloc, queues, command);
    queue.push_back(request)?;
    queues.insert(command, queue)?;
    Ok(())
}

fn other(side: Side) -> Side
    ensures { result ≡ other side }
{
    match side {
        Side::Client => Side::Adapter,
        Side::Adapter => Side::Client,
    }
}

/// Returns whether a message is a request of a side.
fn requests(title: Title<'_>, side: Side) -> bool
    ensures { result ≡ requests side title.entry }
{
    title.kind == Kind::Request && title.side == side
}

/// Returns whether a message is a response to a side.
fn responds(title: Title<'_>, side: Side) -> bool
    ensures { result ≡ responds side title.entry }
{
    title.kind == Kind::Response && title.side == other(side)
}

/// Adds a message, if it is a request of the side.
fn add_request<'t>(
    alloc: Global,
    queues: &mut BTreeMap<&'t [u8], VecDeque<Asked>>,
    side: Side,
    message: Numbered<'t>,
    place: usize,
) -> Result<(), AllocError>
    ensures { OnOk result (AddsRequest side message.entry place
        (queue_of deque_items queues.old) (queue_of deque_items queues.new)) }
{
    if !requests(message.title, side) {
        return Ok(());
    }
    let number = message.seq;
    push_request(alloc, queues, message.title.name, Asked { number, place })?;
    Ok(())
}

/// Stores that the message at a place is a response to this number.
fn note(
    answered: &mut BTreeMap<i64, usize>,
    number: Option<i64>,
    place: usize,
) -> Result<(), AllocError>
    ensures { OnOk result (Notes answered.old answered.new number place) }
{
    let Some(number) = number else {
        return Ok(());
    };
    answered.insert(number, place)?;
    Ok(())
}

/// Stores the place of a message, if it is a response to the side.
fn add_response(
    answered: &mut BTreeMap<i64, usize>,
    side: Side,
    message: Numbered<'_>,
    place: usize,
) -> Result<(), AllocError>
    ensures { OnOk result (AddsResponse side message.entry place answered.old answered.new) }
{
    if !responds(message.title, side) {
        return Ok(());
    }
    note(answered, message.request, place)?;
    Ok(())
}

impl<'t> OpenRequests<'t> {
    /// Creates a value without requests. Does not allocate.
    pub(crate) fn new(alloc: Global) -> OpenRequests<'t>
        ensures { (side : Side) → Tracks side [] result }
    {
        let queues = BTreeMap::new(alloc);
        let answered = BTreeMap::new(alloc);
        OpenRequests { queues, answered }
    }

    /// Adds the message at a place. The requests are those of this side.
    pub(crate) fn add(
        &mut self,
        alloc: Global,
        side: Side,
        message: Numbered<'t>,
        place: usize,
    ) -> Result<(), AllocError>
        ensures { OnOk result ((before : List Sent) (m : Sent) → Tracks side before self.old
            → IsNumbered m message.entry → place ≡ length before
            → Tracks side (before ++ m ∷ []) self.new) }
    {
        add_request(alloc, &mut self.queues, side, message, place)?;
        add_response(&mut self.answered, side, message, place)?;
        Ok(())
    }

    /// Returns the number of the oldest open request with a command. Each request is passed once.
    pub(crate) fn oldest(&mut self, command: &'t [u8]) -> Option<i64>
        ensures { (side : Side) (before : List Sent) → Tracks side before self.old
            → Tracks side before self.new × (result ≡ oldest_open side command.now before) }
    {
        match self.queues.get_mut(&command) {
            None => None,
            Some(queue) => skip_closed(&self.answered, queue),
        }
    }
}
