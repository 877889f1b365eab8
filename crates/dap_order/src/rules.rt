//! Decides which messages are free with each other, by the rules that a user declares.
ghost use Rattle.std.specs.{Prelude.{◌≡◌, ◌↔◌, List, IsTrue}, List.list_any};
ghost use Rattle.dap_message.specs.SwapRules.{SwapRule as Swap, half_of, swap_of, swaps_of};
ghost use Rattle.dap_message.specs.Message.{sent};
ghost use Rattle.dap_session.specs.EnvelopeView.{message_of};
ghost use Rattle.dap_order.specs.Free as words;
ghost use Rattle.dap_order.specs.{Partners.ArePartners, Words.IsFree};

use crate::dependence::{depends, is_fixed};
use crate::keys::Key;
use crate::partners::has_partner;
use dap_message::{AnyMessage, Half, Message, SwapRule};
use dap_session::envelope::{Envelope, envelope_of};
use dap_session::message::{kind_of, name_of};
use std::collections::BTreeSet;

pub(crate) fn fits<M: AnyMessage>(half: &Half, message: &Envelope<'_, M>) -> bool
    ensures { result ≡ words.fits_half (half_of half.now) (message_of message.now) }
{
    half.kind == kind_of(message)
        && match &half.name {
            None => true,
            Some(name) => name_of(message) == name.as_str(),
        }
}

fn names_both<M: AnyMessage>(rule: &SwapRule, x: &Envelope<'_, M>, y: &Envelope<'_, M>) -> bool
    ensures { result
        ≡ words.names_both (swap_of rule.now) (message_of x.now) (message_of y.now) }
{
    (fits(&rule.one, x) && fits(&rule.another, y)) || (fits(&rule.one, y) && fits(&rule.another, x))
}

fn some_names_both<M: AnyMessage>(
    rules: &[SwapRule],
    x: &Envelope<'_, M>,
    y: &Envelope<'_, M>,
) -> bool
    ensures { result ≡ list_any
        (λ r. words.names_both (swap_of r) (message_of x.now) (message_of y.now)) rules.now }
{
    rules.iter().any(|rule| names_both(rule, x, y))
}

/// Returns whether the two messages may be swapped if they are neighbours: a rule names both of
/// them, and their order is not fixed. The result does not depend on the order of the arguments.
/// Does not allocate.
///
/// The order of these messages is fixed:
///
/// - messages of the client; responses of the adapter to one request; other messages of the adapter
///   with the same kind and name;
/// - a request and its response;
/// - the `initialize` request of the client, or the response to it, and any message except an
///   `output` event;
/// - an `initialized` event before a `configurationDone` request;
/// - a successful `disconnect` response before a request of the client.
pub fn is_free(rules: &[SwapRule], x: &Message, y: &Message) -> bool
    ensures same { result ≡ words.free (swaps_of rules.now) (sent x.now) (sent y.now) }
    ensures words { IsTrue result ↔ IsFree (swaps_of rules.now) (sent x.now) (sent y.now) }
{
    frees(rules, &envelope_of(x), &envelope_of(y))
}

/// Returns whether the two messages may be swapped if they are neighbours.
#[tactic(auto, unfolding(crate::specs::Free::free))]
pub(crate) fn frees<M: AnyMessage>(
    rules: &[SwapRule],
    x: &Envelope<'_, M>,
    y: &Envelope<'_, M>,
) -> bool
    ensures { result
        ≡ words.free (swaps_of rules.now) (message_of x.now) (message_of y.now) }
{
    some_names_both(rules, x, y) && (!depends(x, y) && !depends(y, x))
}

/// Returns whether a rule names both messages and no session rule fixes their order, whatever their
/// ids are. `partners` are those of `x`.
pub(crate) fn may_swap<'m, M: AnyMessage>(
    partners: &BTreeSet<Key<'m>>,
    x: &Envelope<'m, M>,
    y: &Envelope<'m, M>,
) -> bool
    ensures { (rules : List Swap) → ArePartners rules (message_of x.now) partners.now
        → result ≡ words.may_swap rules (message_of x.now) (message_of y.now) }
{
    has_partner(partners, y) && (!is_fixed(x, y) && !is_fixed(y, x))
}
