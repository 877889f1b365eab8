//! Finds the messages that rules name together with one message.
ghost use Rattle.std.specs.{Prelude.{◌≡◌, ◌&&◌, ◌||◌, List, IfOk, OnOk}, List.list_any};
ghost use Rattle.std.specs.{BTreeSet.contains, Ordering.on};
ghost use Rattle.dap_message.specs.Message.{Sent};
ghost use Rattle.dap_message.specs.SwapRules.{SwapRule as Swap, half_of, swap_of, swaps_of};
ghost use Rattle.dap_session.specs.EnvelopeView.{message_of};
ghost use Rattle.dap_order.specs.Free as words;
ghost use Rattle.dap_order.specs.Keys as keys;
ghost use Rattle.dap_order.specs.declared.keys.Key as read;
ghost use Rattle.dap_order.specs.Partners.{key_cmp, is_half, ArePartners};

use crate::keys::{Key, half_key};
use crate::rules::fits;
use dap_message::{AnyMessage, Half, SwapRule};
use dap_session::envelope::Envelope;
use dap_session::message::{kind_of, name_of};
use std::alloc::{AllocError, Global};
use std::collections::BTreeSet;

/// Adds the key of `another` if `one` names the message.
fn add_partner<'m, M: AnyMessage>(
    partners: &mut BTreeSet<Key<'m>>,
    message: &Envelope<'m, M>,
    one: &'m Half,
    another: &'m Half,
) -> Result<(), AllocError>
    ensures { OnOk result ((k : read.Key)
        → contains (on keys.key_of key_cmp) partners.new k
        ≡ ((words.fits_half (half_of one.now) (message_of message.now)
        && is_half (half_of another.now) (keys.key_of k))
        || contains (on keys.key_of key_cmp) partners.old k)) }
{
    if !fits(one, message) {
        return Ok(());
    }
    partners.insert(half_key(another.kind, another.name.as_deref()))?;
    Ok(())
}

/// Returns the keys of the halves that rules name together with the message.
pub fn partners_of<'m, M: AnyMessage>(
    alloc: Global,
    rules: &'m [SwapRule],
    message: &Envelope<'m, M>,
) -> Result<BTreeSet<Key<'m>>, AllocError>
    ensures { IfOk result (ArePartners (swaps_of rules.now) (message_of message.now)) }
{
    let mut partners = BTreeSet::new(alloc);
    for rule in rules {
        add_partner(&mut partners, message, &rule.one, &rule.another)?;
        add_partner(&mut partners, message, &rule.another, &rule.one)?;
    }
    Ok(partners)
}

/// Returns whether a rule names the message together with the one that has these partners.
pub fn has_partner<'m, M: AnyMessage>(
    partners: &BTreeSet<Key<'m>>,
    message: &Envelope<'m, M>,
) -> bool
    ensures { (rules : List Swap) (x : Sent) → ArePartners rules x partners.now → result
        ≡ list_any (λ r. words.names_both r x (message_of message.now)) rules }
{
    partners.contains(&half_key(kind_of(message), None))
        || partners.contains(&half_key(kind_of(message), Some(name_of(message))))
}
