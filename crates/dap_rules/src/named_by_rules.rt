//! Applies rules that declare ids to a recording in memory, without creating its text with names.
ghost use Rattle.std.specs.Prelude.{◌≡◌, ◌≢◌, true, List, [], IfSome};
ghost use Rattle.dap_input.specs.Limits.{AreSound};
ghost use Rattle.dap_mask.specs.{Declarations.Declaration, KeptRules.mask_of};
ghost use Rattle.dap_message.specs.SwapRules.{swaps_of};
ghost use Rattle.dap_naming.specs.Sessions.{declared_ids};
ghost use Rattle.dap_order.specs.MessageOrder.{ordered};
ghost use Rattle.dap_rules.specs.Applying.{MakesSession, NormalisesByRules};
ghost use Rattle.dap_rules.specs.{ApplyingSteps.MakesNamedIf, MaskedSessions.AreRuled};
ghost use Rattle.dap_stored.specs.Sessions.{messages_of};

use crate::joined_session::read_session_of;
use crate::masked_session::{MaskedSession, check_masked};
use crate::named_session::named_session;
use crate::ordering::{places_in_order, views_within};
use crate::ruled_order::keeps_ruled;
use dap_input::Limits;
use dap_mask::MaskRules;
use dap_message::SwapRule;
use dap_normalise::{NormalSession, check_messages, normalise_messages};
use dap_rename::Mode;
use dap_stored::StoredSession;
use std::alloc::Global;

/// Returns the normal form of the text that [`apply_rules`](crate::apply_rules) returns, and its
/// counts, for rules that declare ids. Creates no text but that of the joined recording.
///
/// Returns `None` if some step fails.
pub(crate) fn normalise_named(
    alloc: Global,
    rules: &MaskRules,
    recording: &[u8],
    limits: Limits,
    mode: Mode,
) -> Option<NormalSession>
    requires limits { AreSound limits }
    requires declared { (mask_of rules.now).declared ≢ [] }
    ensures { IfSome result (NormalisesByRules limits mode (mask_of rules.now) recording.now) }
{
    let session = named_in_order(alloc, rules, recording, limits, mode)?;
    let Ok(messages) = views_within(alloc, &session, limits) else {
        return None;
    };
    match normalise_messages(alloc, messages, limits, mode) {
        Ok(normal) => Some(normal),
        Err(_) => None,
    }
}

/// Returns the messages of the text that [`apply_rules`](crate::apply_rules) returns, for rules
/// that declare ids. The text is checked in the same way as by [`check`](dap_normalise::check) in
/// this mode. Creates no text but that of the joined recording.
///
/// Returns `None` if some step fails.
pub(crate) fn check_named(
    alloc: Global,
    rules: &MaskRules,
    recording: &[u8],
    limits: Limits,
    mode: Mode,
) -> Option<StoredSession>
    requires limits { AreSound limits }
    requires declared { (mask_of rules.now).declared ≢ [] }
    ensures { IfSome result (λ session. MakesSession limits mode (mask_of rules.now) recording.now
        (messages_of session)) }
{
    let session = named_in_order(alloc, rules, recording, limits, mode)?;
    let Ok(messages) = views_within(alloc, &session, limits) else {
        return None;
    };
    let Ok(()) = check_messages(alloc, messages, limits, mode) else {
        return None;
    };
    Some(session)
}

/// Returns the messages of a masked recording in order, with names in the place of their declared
/// ids. Their text is not checked yet: each caller checks it. If some rules are for the order, the
/// text with names is checked before it is put in order. If the order may change the names, the
/// text in order is also checked before its ids are named again.
///
/// Returns `None` if some step fails.
fn named_in_order(
    alloc: Global,
    rules: &MaskRules,
    recording: &[u8],
    limits: Limits,
    mode: Mode,
) -> Option<StoredSession>
    requires { AreSound limits }
    ensures { IfSome result (λ session. MakesNamedIf limits mode (mask_of rules.now) recording.now
        (messages_of session)) }
{
    let Ok(masked) = read_session_of(alloc, rules, recording, limits) else {
        return None;
    };
    if rules.swaps().is_empty() {
        return match masked.fault {
            Some(_) => None,
            None => Some(masked.messages),
        };
    }
    let Ok(()) = check_masked(alloc, &masked, limits, mode) else {
        return None;
    };
    let (session, stays) = ids_in_order(alloc, rules.swaps(), masked)?;
    if stays {
        return Some(session);
    }
    let Ok(views) = views_within(alloc, &session, limits) else {
        return None;
    };
    let Ok(()) = check_messages(alloc, views, limits, mode) else {
        return None;
    };
    named_session(alloc, rules, session, limits)
}

/// Returns the messages of a masked session in order. The flag is `true` only if the messages to
/// which a declaration applies stay in their order, so that their names do not change.
///
/// Returns `None` if an allocation failed.
fn ids_in_order(
    alloc: Global,
    swaps: &[SwapRule],
    masked: MaskedSession,
) -> Option<(StoredSession, bool)>
    ensures order { IfSome result (λ made. messages_of made.0
        ≡ ordered (swaps_of swaps.now) (messages_of masked.messages)) }
    ensures ids { IfSome result (λ made. made.1 ≡ true → (declared : List Declaration)
        → AreRuled declared (messages_of masked.messages) masked.ruled.items
        → declared_ids declared (messages_of made.0)
        ≡ declared_ids declared (messages_of masked.messages)) }
{
    let Ok(places) = places_in_order(alloc, swaps, &masked.messages) else {
        return None;
    };
    let stays = keeps_ruled(masked.ruled.as_slice(), places.as_slice());
    let mut session = masked.messages;
    let Ok(()) = session.arrange(alloc, places.as_slice()) else {
        return None;
    };
    Some((session, stays))
}
