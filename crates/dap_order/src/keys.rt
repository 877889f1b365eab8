//! Computes keys of messages. Messages with equal keys have the same class, conversation or look.
ghost use Rattle.std.specs.{Prelude.{◌≡◌, ◌+◌, ◌*◌, ◌<◌, ◌≤◌, option_map}, List.list_any};
ghost use Rattle.dap_message.specs.SwapRules.{swap_of, swaps_of, half_of};
ghost use Rattle.dap_session.specs.EnvelopeView.{message_of};
ghost use Rattle.dap_session.specs.Messages as tests;
ghost use Rattle.dap_order.specs.Free as words;
ghost use Rattle.dap_order.specs.Keys as keys;
ghost use Rattle.dap_order.specs.Partners.{half_key};

use crate::dependence::{begins, is_client_request, other};
use dap_message::{AnyMessage, Half, Kind, Side, SwapRule};
use dap_session::envelope::Envelope;
use dap_session::message::{
    is_configuration_done, is_farewell, is_from, is_initialized, is_output, is_request,
    is_response, kind_of, name_of, request_seq_of, seq_of, side_of,
};

/// A key of messages.
#[derive(Clone, Copy, PartialEq, Eq, PartialOrd, Ord, Drop)]
pub struct Key<'m> {
    pub code: u16,
    pub number: Option<i64>,
    pub name: &'m str,
}

/// Selects which messages have equal keys.
#[derive(Clone, Copy, Drop)]
pub enum By<'r> {
    /// Messages of the same class.
    Class,
    /// The requests of one side with the same sequence number, and the responses to them.
    Conversation,
    /// Messages that the user's rules and the session rules treat alike, except for ids and for
    /// names that no rule mentions.
    Look(&'r [SwapRule]),
}

/// Returns the key with this number and no name.
fn numbered<'m>(code: u16, number: Option<i64>) -> Key<'m>
    ensures { keys.key_of result ≡ keys.numbered code number }
{
    let name = "";
    Key { code, number, name }
}

/// Returns the key with this name and no number.
fn named(code: u16, name: &str) -> Key<'_>
    ensures { keys.key_of result ≡ keys.named code name.now }
{
    let number = None;
    Key { code, number, name }
}

pub fn class_key<'m, M: AnyMessage>(message: &Envelope<'m, M>) -> Key<'m>
    ensures { keys.key_of result ≡ keys.class_key (message_of message.now) }
{
    if is_from(message, Side::Client) {
        return numbered(4, None);
    }
    match kind_of(message) {
        Kind::Response => numbered(0, request_seq_of(message)),
        Kind::Event => named(1, name_of(message)),
        Kind::Request => named(2, name_of(message)),
    }
}

fn side_code(side: Side) -> u16
    ensures { result ≡ keys.side_code side }
{
    match side {
        Side::Client => 0,
        Side::Adapter => 1,
    }
}

/// Returns whether the message is a response with a `request_seq`.
pub fn is_numbered_response<M: AnyMessage>(message: &Envelope<'_, M>) -> bool
    ensures { result ≡ keys.is_numbered_response (message_of message.now) }
{
    is_response(message) && request_seq_of(message).is_some()
}

fn conversation_key<'m, M: AnyMessage>(message: &Envelope<'m, M>) -> Key<'m>
    ensures { keys.key_of result ≡ keys.conversation_key (message_of message.now) }
{
    if is_request(message) {
        numbered(side_code(side_of(message)), Some(seq_of(message)))
    } else if is_numbered_response(message) {
        numbered(side_code(other(side_of(message))), request_seq_of(message))
    } else {
        numbered(2, None)
    }
}

fn has_name<M: AnyMessage>(half: &Half, message: &Envelope<'_, M>) -> bool
    ensures { result ≡ keys.has_name (half_of half.now).name (message_of message.now) }
{
    match &half.name {
        None => false,
        Some(name) => name_of(message) == name.as_str(),
    }
}

fn has_name_in<M: AnyMessage>(rule: &SwapRule, message: &Envelope<'_, M>) -> bool
    ensures { result ≡ keys.has_name_in (swap_of rule.now) (message_of message.now) }
{
    has_name(&rule.one, message) || has_name(&rule.another, message)
}

fn some_has_name<M: AnyMessage>(rules: &[SwapRule], message: &Envelope<'_, M>) -> bool
    ensures { result
        ≡ list_any (λ r. keys.has_name_in (swap_of r) (message_of message.now)) rules.now }
{
    rules.iter().any(|rule| has_name_in(rule, message))
}

fn is_mentioned<M: AnyMessage>(rules: &[SwapRule], message: &Envelope<'_, M>) -> bool
    ensures { result ≡ keys.is_mentioned (swaps_of rules.now) (message_of message.now) }
{
    some_has_name(rules, message)
}

fn kind_code(kind: Kind) -> u16
    ensures code { result ≡ keys.kind_code kind }
    ensures bound { result < 3 }
{
    match kind {
        Kind::Request => 0,
        Kind::Response => 1,
        Kind::Event => 2,
    }
}

/// Returns the number with one more binary digit.
fn with_bit(code: u16, bit: bool) -> u16
    requires { code < 1000 }
    ensures code { result ≡ keys.with_bit code bit }
    ensures bound { result ≤ 2 * code + 1 }
{
    2 * code + u16::from(bit)
}

fn session_code<M: AnyMessage>(message: &Envelope<'_, M>) -> u16
    ensures code { result ≡ keys.session_code (message_of message.now) }
    ensures bound { result < 192 }
{
    let code = kind_code(kind_of(message));
    let code = with_bit(code, begins(message));
    let code = with_bit(code, is_output(message));
    let code = with_bit(code, is_initialized(message));
    let code = with_bit(code, is_configuration_done(message));
    let code = with_bit(code, is_farewell(message));
    with_bit(code, is_client_request(message))
}

fn look_key<'m, M: AnyMessage>(rules: &[SwapRule], message: &Envelope<'m, M>) -> Key<'m>
    ensures { keys.key_of result
        ≡ keys.look_key (swaps_of rules.now) (message_of message.now) }
{
    if is_mentioned(rules, message) {
        return named(with_bit(session_code(message), true), name_of(message));
    }
    named(with_bit(session_code(message), false), "")
}

/// Returns the key of the messages of this kind that, if a name is given, have this name.
pub fn half_key(kind: Kind, name: Option<&str>) -> Key<'_>
    ensures { keys.key_of result ≡ half_key kind (option_map (λ text. text.now) name.entry) }
{
    match name {
        None => named(with_bit(kind_code(kind), false), ""),
        Some(name) => named(with_bit(kind_code(kind), true), name),
    }
}

/// Returns the key of the message.
pub fn own_key<'m, M: AnyMessage>(by: By<'_>, message: &Envelope<'m, M>) -> Key<'m>
    ensures { keys.key_of result ≡ keys.own_key by.entry (message_of message.now) }
{
    match by {
        By::Class => class_key(message),
        By::Conversation => conversation_key(message),
        By::Look(rules) => look_key(rules, message),
    }
}
