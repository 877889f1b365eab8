//! The tests of one message that the rules use.
ghost use Rattle.dap_session.specs.EnvelopeView.{message_of};
ghost use Rattle.std.specs.Prelude.{◌≡◌};
ghost use Rattle.dap_session.specs.Messages as words;

use crate::envelope::Envelope;
use dap_message::{AnyMessage, Kind, Side};

/// Returns the command of a request or response, the name of an event.
pub fn name_of<'m, M: AnyMessage>(message: &Envelope<'m, M>) -> &'m str
    ensures { result.now ≡ words.name_of (message_of message.now) }
{
    message.name
}

/// Returns the sequence number of the message.
pub fn seq_of<M: AnyMessage>(message: &Envelope<'_, M>) -> i64
    ensures { result ≡ words.seq_of (message_of message.now) }
{
    message.seq
}

/// Returns the number of the request that a response answers, or `None` for another message.
pub fn request_seq_of<M: AnyMessage>(message: &Envelope<'_, M>) -> Option<i64>
    ensures { result ≡ words.request_seq_of (message_of message.now) }
{
    message.request_seq
}

pub fn side_of<M: AnyMessage>(message: &Envelope<'_, M>) -> Side
    ensures { result ≡ words.side_of (message_of message.now) }
{
    message.side
}

/// Returns the kind of the message.
pub fn kind_of<M: AnyMessage>(message: &Envelope<'_, M>) -> Kind
    ensures { result ≡ words.kind_of (message_of message.now) }
{
    message.kind
}

fn success_of<M: AnyMessage>(message: &Envelope<'_, M>) -> Option<bool>
    ensures { result ≡ words.success_of (message_of message.now) }
{
    message.success
}

pub fn is_from<M: AnyMessage>(message: &Envelope<'_, M>, side: Side) -> bool
    ensures { result ≡ words.is_from side (message_of message.now) }
{
    side_of(message) == side
}

pub fn is_request<M: AnyMessage>(message: &Envelope<'_, M>) -> bool
    ensures { result ≡ words.is_request (message_of message.now) }
{
    kind_of(message) == Kind::Request
}

pub fn is_response<M: AnyMessage>(message: &Envelope<'_, M>) -> bool
    ensures { result ≡ words.is_response (message_of message.now) }
{
    kind_of(message) == Kind::Response
}

pub fn is_event<M: AnyMessage>(message: &Envelope<'_, M>) -> bool
    ensures { result ≡ words.is_event (message_of message.now) }
{
    kind_of(message) == Kind::Event
}

/// Returns whether the message is a request of the client or a response to one.
pub fn is_about_client<M: AnyMessage>(message: &Envelope<'_, M>) -> bool
    ensures { result ≡ words.is_about_client (message_of message.now) }
{
    match side_of(message) {
        Side::Client => is_request(message),
        Side::Adapter => is_response(message),
    }
}

pub fn is_initialize<M: AnyMessage>(message: &Envelope<'_, M>) -> bool
    ensures { result ≡ words.is_initialize (message_of message.now) }
{
    is_request(message) && name_of(message) == "initialize"
}

pub fn is_client_initialize<M: AnyMessage>(message: &Envelope<'_, M>) -> bool
    ensures { result ≡ words.is_client_initialize (message_of message.now) }
{
    is_from(message, Side::Client) && is_initialize(message)
}

pub fn is_configuration_done<M: AnyMessage>(message: &Envelope<'_, M>) -> bool
    ensures { result ≡ words.is_configuration_done (message_of message.now) }
{
    is_from(message, Side::Client) && is_request(message) && name_of(message) == "configurationDone"
}

pub fn is_initialized<M: AnyMessage>(message: &Envelope<'_, M>) -> bool
    ensures { result ≡ words.is_initialized (message_of message.now) }
{
    is_event(message) && name_of(message) == "initialized"
}

/// Returns whether the message is a successful `disconnect` response of the adapter.
pub fn is_farewell<M: AnyMessage>(message: &Envelope<'_, M>) -> bool
    ensures { result ≡ words.is_disconnect_success (message_of message.now) }
{
    is_from(message, Side::Adapter)
        && is_response(message)
        && name_of(message) == "disconnect"
        && success_of(message) == Some(true)
}

/// Returns whether the message is an `output` event of the adapter, which breaks no rule.
pub fn is_output<M: AnyMessage>(message: &Envelope<'_, M>) -> bool
    ensures { result ≡ words.is_output (message_of message.now) }
{
    is_from(message, Side::Adapter) && is_event(message) && name_of(message) == "output"
}
