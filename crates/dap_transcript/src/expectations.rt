//! Computes what is expected of the next message of a session.
ghost use Rattle.std.specs.Prelude.{◌≡◌, ◌++◌, ◌∷◌, [], List, IfOk, OnOk, true, ◌+◌};
ghost use Rattle.dap_message.specs.Message.{Sent};
ghost use Rattle.dap_session.specs.Messages.{other, same_kind};
ghost use Rattle.dap_profile.specs.declared.profile.Kind.TheVariants.{Response};
ghost use Rattle.dap_transcript.specs.Expected.{oldest_open};
ghost use Rattle.dap_transcript.specs.Requests.{AreExpected, IsNumbered, Represents};

use crate::expected::SideNumbers;
use crate::open_requests::OpenRequests;
use crate::tokens::{Numbered, Title};
use dap_profile::Kind;
use dap_tree::Side;
use std::alloc::{AllocError, Global};

/// The numbers and the requests of a session so far, from which the expected values follow.
#[derive(Drop)]
pub(crate) struct Expectations<'t> {
    numbers: SideNumbers,
    client: OpenRequests<'t>,
    adapter: OpenRequests<'t>,
    place: usize,
}

fn is_response(title: Title<'_>) -> bool
    ensures { result ≡ same_kind Response title.entry.kind }
{
    title.kind == Kind::Response
}

fn next_place(place: usize) -> Result<usize, AllocError>
    ensures { IfOk result (λ next. next ≡ place + 1) }
{
    place.checked_add(1).ok_or(AllocError)
}

impl<'t> Expectations<'t> {
    /// Creates the value for a session without messages. Does not allocate.
    pub(crate) fn new(alloc: Global) -> Expectations<'t>
        ensures { Represents result [] }
    {
        let numbers = SideNumbers::new();
        let client = OpenRequests::new(alloc);
        let adapter = OpenRequests::new(alloc);
        Expectations {
            numbers,
            client,
            adapter,
            place: 0,
        }
    }

    /// Returns the number of the request that a message is expected to answer.
    fn oldest(&mut self, title: Title<'t>) -> Option<i64>
        ensures { (ms : List Sent) → Represents self.old ms → Represents self.new ms
            × (same_kind Response title.entry.kind ≡ true
            → result ≡ oldest_open (other title.entry.side) title.entry.name.now ms) }
    {
        if !is_response(title) {
            return None;
        }
        match title.side {
            Side::Client => self.adapter.oldest(title.name),
            Side::Adapter => self.client.oldest(title.name),
        }
    }

    /// Returns what is expected of a message with this title.
    pub(crate) fn expect(&mut self, title: Title<'t>) -> Numbered<'t>
        ensures { (ms : List Sent) → Represents self.old ms
            → Represents self.new ms × AreExpected ms title.entry result }
    {
        let seq = self.numbers.expected(title.side);
        let request = self.oldest(title);
        Numbered {
            title,
            seq,
            request,
        }
    }

    /// Adds the next message.
    pub(crate) fn add(&mut self, alloc: Global, message: Numbered<'t>) -> Result<(), AllocError>
        ensures { OnOk result ((ms : List Sent) (m : Sent) → Represents self.old ms
            → IsNumbered m message.entry → Represents self.new (ms ++ m ∷ [])) }
    {
        let place = self.place;
        let next = next_place(place)?;
        self.client.add(alloc, Side::Client, message, place)?;
        self.adapter.add(alloc, Side::Adapter, message, place)?;
        self.numbers = self.numbers.after(message.title.side, message.seq);
        self.place = next;
        Ok(())
    }
}
