//! Replaces the declared ids of stored sessions by names, without creating their text.
ghost use Rattle.std.specs.Prelude.{◌≡◌, true, IfSome};
ghost use Rattle.dap_input.specs.Limits.{AreSound};
ghost use Rattle.dap_mask.specs.{Declarations.{are_declared, declarations_of}, KeptRules.mask_of};
ghost use Rattle.dap_message.specs.Message.{sent};
ghost use Rattle.dap_naming.specs.Sessions.{AreFew, declared_ids, named_sents};
ghost use Rattle.dap_rules.specs.NamingSteps.{AreNamedAt, HaveNumbered, NamesAt, NamesMessage};
ghost use Rattle.dap_stored.specs.Contents.{IsOfContent};
ghost use Rattle.dap_stored.specs.Sessions.{messages_of, stored_sent};

use dap_input::Limits;
use dap_mask::{Declaration, MaskRules};
use dap_message::{AnyMessage, Message, typed};
use dap_naming::{ValueNumbers, name_message};
use dap_stored::{StoredMessage, StoredSession};
use dap_tree::{Scratch, read_tree_with};
use std::alloc::Global;

/// Returns the session with names in the place of its declared ids. Reads each message.
///
/// Returns `None` if a label has more than `limits.ids` values, or if an allocation failed.
pub(crate) fn named_session(
    alloc: Global,
    rules: &MaskRules,
    session: StoredSession,
    limits: Limits,
) -> Option<StoredSession>
    requires { AreSound limits }
    ensures names { IfSome result (λ named. messages_of named
        ≡ named_sents (mask_of rules.now).declared (messages_of session)) }
    ensures few { IfSome result (λ named. AreFew limits.ids
        (declared_ids (mask_of rules.now).declared (messages_of session))) }
{
    let mut session = session;
    let places = named_places(alloc, rules.declared(), &mut session, limits)?;
    let Ok(()) = session.arrange(alloc, places.as_slice()) else {
        return None;
    };
    Some(session)
}

/// Adds the named messages of a session to it. Returns their places, in order.
fn named_places(
    alloc: Global,
    declarations: &[Declaration],
    session: &mut StoredSession,
    limits: Limits,
) -> Option<Vec<usize>>
    requires sound { AreSound limits }
    requires declared { are_declared (declarations_of declarations.now) ≡ true }
    ensures { IfSome result (λ places. AreNamedAt limits (declarations_of declarations.now)
        (messages_of session.old) (messages_of session.new) places.items) }
{
    let count = session.len();
    let Ok(mut places) = Vec::with_capacity(alloc, count) else {
        return None;
    };
    let mut numbers = ValueNumbers::new(alloc, limits.ids as u64);
    let mut scratch = Scratch::new(alloc);
    for place in 0..count {
        let named = named_place(
            alloc,
            declarations,
            place,
            &mut numbers,
            &mut scratch,
            session,
        )?;
        let Ok(()) = places.push(named) else {
            return None;
        };
    }
    Some(places)
}

/// Adds the named message of the message at a place to the session. Returns its place.
fn named_place(
    alloc: Global,
    declarations: &[Declaration],
    place: usize,
    numbers: &mut ValueNumbers,
    scratch: &mut Scratch,
    session: &mut StoredSession,
) -> Option<usize>
    requires declared { are_declared (declarations_of declarations.now) ≡ true }
    requires numbered { HaveNumbered (declarations_of declarations.now) numbers.old }
    ensures { IfSome result (λ at. NamesAt (declarations_of declarations.now) numbers.old
        numbers.new (messages_of session.old) (messages_of session.new) place at) }
{
    let message = session.message(place)?;
    let named = named_message(alloc, declarations, &message, numbers, scratch)?;
    let at = session.len();
    let Ok(()) = session.push_message(alloc, &named) else {
        return None;
    };
    Some(at)
}

/// Returns a stored message with names in the place of its declared ids.
fn named_message(
    alloc: Global,
    declarations: &[Declaration],
    message: &StoredMessage<'_>,
    numbers: &mut ValueNumbers,
    scratch: &mut Scratch,
) -> Option<Message>
    requires declared { are_declared (declarations_of declarations.now) ≡ true }
    requires numbered { HaveNumbered (declarations_of declarations.now) numbers.old }
    ensures content { IfSome result (λ named. IsOfContent (sent named)) }
    ensures named { IfSome result (λ named. NamesMessage (declarations_of declarations.now)
        numbers.old numbers.new (stored_sent message.now) (sent named)) }
{
    let Ok(mut tree) = read_tree_with(alloc, message.content(), scratch) else {
        return None;
    };
    let Ok(()) = name_message(alloc, numbers, declarations, &mut tree) else {
        return None;
    };
    match typed(alloc, message.side(), tree) {
        Ok(named) => Some(named),
        Err(_) => None,
    }
}
