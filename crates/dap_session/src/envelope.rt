//! The values that the rules read of one message, read once.
ghost use Rattle.std.specs.Prelude.{◌≡◌};
ghost use Rattle.dap_session.specs.Messages as words;

use dap_message::{AnyMessage, Kind, Message, Side};

/// The values that the rules read of one message.
#[derive(Drop)]
pub struct Envelope<'m, M: AnyMessage = Message> {
    pub message: &'m M,
    pub side: Side,
    pub kind: Kind,
    /// The command of a request or response, the name of an event.
    pub name: &'m str,
    pub seq: i64,
    /// The number of the request that a response answers.
    pub request_seq: Option<i64>,
    /// Whether a response reports success.
    pub success: Option<bool>,
    ghost side_is: { side ≡ words.side_of (M.sent message.now) },
    ghost kind_is: { kind ≡ words.kind_of (M.sent message.now) },
    ghost name_is: { name.now ≡ words.name_of (M.sent message.now) },
    ghost seq_is: { seq ≡ words.seq_of (M.sent message.now) },
    ghost request_seq_is: { request_seq ≡ words.request_seq_of (M.sent message.now) },
    ghost success_is: { success ≡ words.success_of (M.sent message.now) },
}

/// Reads the values of a message that the rules need.
#[tactic(auto, unfolding(crate::specs::Messages::side_of, crate::specs::Messages::kind_of, crate::specs::Messages::name_of, crate::specs::Messages::seq_of, crate::specs::Messages::request_seq_of, crate::specs::Messages::success_of,))]
pub fn envelope_of<M: AnyMessage>(message: &M) -> Envelope<'_, M>
    ensures { result.message.now ≡ message.now }
{
    Envelope {
        message,
        side: message.side(),
        kind: message.kind(),
        name: message.name(),
        seq: message.seq(),
        request_seq: message.request_seq(),
        success: message.success(),
    }
}
