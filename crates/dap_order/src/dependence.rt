//! Decides which messages have a fixed order, by their class or by a session rule.
ghost use Rattle.std.specs.Prelude.{◌≡◌};
ghost use Rattle.dap_session.specs.EnvelopeView.{message_of};
ghost use Rattle.dap_session.specs.Messages as tests;
ghost use Rattle.dap_order.specs.Free as words;

use crate::keys::class_key;
use dap_message::{AnyMessage, Side};
use dap_session::envelope::Envelope;
use dap_session::message::{
    is_client_initialize, is_configuration_done, is_farewell, is_from, is_initialized, is_output,
    is_request, is_response, name_of, request_seq_of, seq_of, side_of,
};

fn of_one_class<M: AnyMessage>(x: &Envelope<'_, M>, y: &Envelope<'_, M>) -> bool
    ensures { result ≡ words.of_one_class (message_of x.now) (message_of y.now) }
{
    class_key(x).cmp(&class_key(y)).is_eq()
}

pub fn other(side: Side) -> Side
    ensures { result ≡ tests.other side }
{
    match side {
        Side::Client => Side::Adapter,
        Side::Adapter => Side::Client,
    }
}

/// Returns whether `x` is a response to the request `y`.
fn answers<M: AnyMessage>(x: &Envelope<'_, M>, y: &Envelope<'_, M>) -> bool
    ensures { result ≡ words.answers (message_of x.now) (message_of y.now) }
{
    is_request(y)
        && (is_response(x) && is_from(x, other(side_of(y))) && request_seq_of(x) == Some(seq_of(y)))
}

fn is_initialize_response<M: AnyMessage>(message: &Envelope<'_, M>) -> bool
    ensures { result ≡ words.is_initialize_response (message_of message.now) }
{
    is_from(message, Side::Adapter) && is_response(message) && name_of(message) == "initialize"
}

/// Returns whether the message is the client's `initialize` request or the adapter's response to
/// it.
pub fn begins<M: AnyMessage>(message: &Envelope<'_, M>) -> bool
    ensures { result ≡ words.begins (message_of message.now) }
{
    is_client_initialize(message) || is_initialize_response(message)
}

fn initializes<M: AnyMessage>(x: &Envelope<'_, M>, y: &Envelope<'_, M>) -> bool
    ensures { result ≡ words.initializes (message_of x.now) (message_of y.now) }
{
    begins(x) && !is_output(y)
}

fn allows_configuration<M: AnyMessage>(x: &Envelope<'_, M>, y: &Envelope<'_, M>) -> bool
    ensures { result ≡ words.allows_configuration (message_of x.now) (message_of y.now) }
{
    is_initialized(x) && is_configuration_done(y)
}

pub fn is_client_request<M: AnyMessage>(message: &Envelope<'_, M>) -> bool
    ensures { result ≡ words.is_client_request (message_of message.now) }
{
    is_from(message, Side::Client) && is_request(message)
}

fn ends_requests<M: AnyMessage>(x: &Envelope<'_, M>, y: &Envelope<'_, M>) -> bool
    ensures { result ≡ words.ends_requests (message_of x.now) (message_of y.now) }
{
    is_farewell(x) && is_client_request(y)
}

/// Returns whether a session rule fixes the order of `x` and `y` if `x` comes first, whatever their
/// ids are.
pub fn is_fixed<M: AnyMessage>(x: &Envelope<'_, M>, y: &Envelope<'_, M>) -> bool
    ensures { result ≡ words.is_fixed (message_of x.now) (message_of y.now) }
{
    initializes(x, y) || (allows_configuration(x, y) || ends_requests(x, y))
}

/// Returns whether the order of `x` and `y` is fixed if `x` comes first.
pub fn depends<M: AnyMessage>(x: &Envelope<'_, M>, y: &Envelope<'_, M>) -> bool
    ensures { result ≡ words.depends (message_of x.now) (message_of y.now) }
{
    of_one_class(x, y) || (answers(x, y) || is_fixed(x, y))
}
