//! Stores messages whose places are ordered in the same way as the messages.
ghost use Rattle.std.specs.Prelude.{◌≡◌, [], map};
ghost use Rattle.dap_order.specs.{ByPlace.places_answered, MessageOrder.message_answers};
ghost use Rattle.dap_order.specs.Entries.{sent_by, request_by};

use crate::entries::Entry;
use dap_message::{AnyMessage, SwapRule};

/// Messages, and the rules by which they may be swapped.
#[derive(Drop)]
pub struct Table<'m, M: AnyMessage> {
    pub rules: &'m [SwapRule],
    pub entries: Vec<Entry<'m, M>>,
    ghost requests_are: { map request_by entries.items
        ≡ places_answered (message_answers []) (map sent_by entries.items) },
}
