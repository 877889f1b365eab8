//! Stores the requests of the client by their sequence numbers.
ghost use Rattle.std.specs.Prelude.{◌≡◌, ◌&&◌, ◌++◌, ◌∷◌, [], List, length, OnOk};
ghost use Rattle.dap_message.specs.Message.{Sent};
ghost use Rattle.dap_session.specs.EnvelopeView.{message_of};
ghost use Rattle.dap_session.specs.Messages as tests;
ghost use Rattle.dap_order.specs.{ByPlace.place_answered, MessageOrder.message_answers};
ghost use Rattle.dap_order.specs.Requests.{Finds};

use crate::dependence::is_client_request;
use dap_message::{AnyMessage, Side};
use dap_session::envelope::Envelope;
use dap_session::message::{is_from, is_response, request_seq_of, seq_of};
use std::alloc::{AllocError, Global};
use std::collections::BTreeMap;

/// The places of the client's requests by their sequence numbers. If several requests have the same
/// number, the place of the first one is stored.
#[derive(Drop)]
pub struct FirstRequests {
    places: BTreeMap<i64, usize>,
}

impl FirstRequests {
    pub fn new(alloc: Global) -> FirstRequests
        ensures { Finds result [] }
    {
        FirstRequests {
            places: BTreeMap::new(alloc),
        }
    }

    /// Returns the place of the request that the message answers, if any.
    pub fn answered<M: AnyMessage>(&self, message: &Envelope<'_, M>) -> Option<usize>
        ensures { (ms : List Sent) → Finds self.now ms
            → result ≡ place_answered (message_answers []) ms (message_of message.now) }
    {
        if !is_adapter_response(message) {
            return None;
        }
        match request_seq_of(message) {
            Some(number) => self.places.get(&number).copied(),
            None => None,
        }
    }

    /// Adds the message at `place`, which is the number of messages before it.
    pub fn add<M: AnyMessage>(
        &mut self,
        message: &Envelope<'_, M>,
        place: usize,
    ) -> Result<(), AllocError>
        ensures { OnOk result ((ms : List Sent) → Finds self.old ms → length ms ≡ place
            → Finds self.new (ms ++ message_of message.now ∷ [])) }
    {
        if is_client_request(message) {
            let number = seq_of(message);
            if let Some(first) = self.places.insert(number, place)? {
                self.places.insert(number, first)?;
            }
        }
        Ok(())
    }
}

fn is_adapter_response<M: AnyMessage>(message: &Envelope<'_, M>) -> bool
    ensures { result ≡ tests.is_response (message_of message.now)
        && tests.is_from Side.Adapter (message_of message.now) }
{
    is_response(message) && is_from(message, Side::Adapter)
}
