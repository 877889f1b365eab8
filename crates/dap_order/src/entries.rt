//! Stores the messages of a recording with the facts that their order depends on.
ghost use Rattle.std.specs.Prelude.{◌≡◌, [], IfOk, map};
ghost use Rattle.dap_order.specs.{ByPlace.places_answered, MessageOrder.message_answers};
ghost use Rattle.dap_order.specs.Entries.{sent_by, request_by};

use crate::requests::FirstRequests;
use dap_message::AnyMessage;
use dap_session::envelope::{Envelope, envelope_of};
use std::alloc::{AllocError, Global};

/// A message, and the place of the client's request that it answers, if it answers one.
#[derive(Drop)]
pub struct Entry<'m, M: AnyMessage> {
    pub message: Envelope<'m, M>,
    pub request: Option<usize>,
}

/// Returns the entries of the messages, in their order. The time per entry is logarithmic in the
/// number of requests.
pub fn entries_of<M: AnyMessage>(
    alloc: Global,
    messages: &[M],
) -> Result<Vec<Entry<'_, M>>, AllocError>
    ensures messages { IfOk result
        (λ entries. map sent_by entries.items ≡ map M.sent messages.now) }
    ensures requests { IfOk result (λ entries. map request_by entries.items
        ≡ places_answered (message_answers []) (map M.sent messages.now)) }
{
    let mut first = FirstRequests::new(alloc);
    let mut entries = Vec::new(alloc);
    for message in messages {
        let message = envelope_of(message);
        let request = first.answered(&message);
        first.add(&message, entries.len())?;
        entries.push(Entry { message, request })?;
    }
    Ok(entries)
}
