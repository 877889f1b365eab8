//! Applies the rules of a file to a recording in memory.
ghost use Rattle.std.specs.Prelude.{◌≡◌, ◌≢◌, ℕ, List, [], IfErr, IfOk, IsOk};
ghost use Rattle.dap_input.specs.Limits.{AreSound};
ghost use Rattle.dap_mask.specs.KeptRules.{mask_of};
ghost use Rattle.dap_rules.specs.Applying.{AppliesRules, IsMaskedByRules, IsNotNormalised};
ghost use Rattle.dap_rules.specs.Applying.{IsRefusedByRules, MakesSession, NormalisesByRules};
ghost use Rattle.dap_rules.specs.ApplyingSteps.{order_refusal};
ghost use Rattle.dap_stored.specs.Sessions.{messages_of};

use crate::fault::ApplyRefused;
use crate::joined_masking::mask_by_rules;
use crate::named_by_rules::{check_named, normalise_named};
use crate::naming::name_bytes;
use crate::ordered_by_rules::{
    mask_refusal, normalise_in_order_by, order_refusal, session_in_order_by, text_in_order_by,
};
use crate::ordering::order_bytes;
use dap_input::{Limits, Refused};
use dap_mask::MaskRules;
use dap_normalise::{NormalSession, normalise_session, read_session};
use dap_rename::Mode;
use dap_stored::StoredSession;
use std::alloc::Global;

/// Joins the output of a recording if the rules say so, masks the result, replaces the ids that the
/// rules declare by names, and puts it in order if some of the rules are for the order.
///
/// Ids are named before the messages are put in order, and again after it, because the order may
/// change which id of a label appears first.
///
/// If no rules are for the order, returns the masked text, or its text with names, and does not
/// check its session. Otherwise this text and its text in order are both checked in the same way as
/// by [`check`](dap_normalise::check) in this mode. An empty recording does not allocate.
///
/// # Errors
///
/// The error of the first step that fails:
///
/// - `Mask`: the output of the recording cannot be joined, or the rules cannot mask a record.
/// - `Order`: the ids of the masked recording cannot be named; or the masked recording with names
///   or its text in order was rejected; or the ids of the text in order cannot be named again.
/// - `Memory`: an allocation failed.
pub fn apply_rules(
    alloc: Global,
    rules: &MaskRules,
    recording: &[u8],
    limits: Limits,
    mode: Mode,
) -> Result<Vec<u8>, ApplyRefused>
    requires limits { AreSound limits }

    // The text is that of the recording and the rules. An error names the first step that fails. It
    // is never `ReadFault`.
    ensures ok { IfOk result
        (λ text. AppliesRules limits mode (mask_of rules.now) recording.now text.items) }
    ensures err { IfErr result (IsRefusedByRules limits mode (mask_of rules.now) recording.now) }
    ensures empty { recording.now ≡ [] → IsOk result }
{
    if recording.is_empty() {
        return Ok(Vec::new(alloc));
    }
    if rules.declared().is_empty() {
        return text_in_order_by(alloc, rules, recording, limits, mode);
    }
    text_with_names(alloc, rules, recording, limits, mode)
}

/// Does the same as [`apply_rules`] for rules that declare ids. Creates the texts one after the
/// other, and drops each of them once the next one exists.
///
/// # Errors
///
/// Those of [`apply_rules`].
fn text_with_names(
    alloc: Global,
    rules: &MaskRules,
    recording: &[u8],
    limits: Limits,
    mode: Mode,
) -> Result<Vec<u8>, ApplyRefused>
    requires limits { AreSound limits }
    requires declared { (mask_of rules.now).declared ≢ [] }
    ensures ok { IfOk result
        (λ text. AppliesRules limits mode (mask_of rules.now) recording.now text.items) }
    ensures err { IfErr result (IsRefusedByRules limits mode (mask_of rules.now) recording.now) }
{
    let masked = match mask_by_rules(alloc, rules, recording, limits) {
        Ok(masked) => masked,
        Err(refused) => return Err(mask_refusal(refused)),
    };
    match name_and_order(alloc, rules, masked, limits, mode) {
        Ok(text) => Ok(text),
        Err(refused) => Err(order_refusal(refused)),
    }
}

/// Names the ids of a masked recording, puts the result in order if some of the rules are for the
/// order, and then names its ids again. Without such rules, naming again would change nothing.
///
/// # Errors
///
/// The error of the first step that fails.
fn name_and_order(
    alloc: Global,
    rules: &MaskRules,
    masked: Vec<u8>,
    limits: Limits,
    mode: Mode,
) -> Result<Vec<u8>, Refused>
    requires limits { AreSound limits }
    requires declared { (mask_of rules.now).declared ≢ [] }
    ensures ok { (recording : List ℕ)
        → IsMaskedByRules limits (mask_of rules.now) recording masked.items
        → IfOk result (λ text. AppliesRules limits mode (mask_of rules.now) recording text.items) }
    ensures err { (recording : List ℕ)
        → IsMaskedByRules limits (mask_of rules.now) recording masked.items
        → IfErr result (λ refused. IsRefusedByRules limits mode (mask_of rules.now) recording
        (order_refusal refused)) }
{
    let named = name_bytes(alloc, rules, masked.as_slice(), limits)?;
    drop(masked);
    let swaps = rules.swaps();
    if swaps.is_empty() {
        return Ok(named);
    }
    let ordered = order_bytes(alloc, swaps, named.as_slice(), limits, mode)?;
    drop(named);
    name_bytes(alloc, rules, ordered.as_slice(), limits)
}

/// Returns the normal form of the text that [`apply_rules`] returns, and its counts, as
/// [`normalise_session`](dap_normalise::normalise_session) does.
///
/// Creates neither the masked text nor its text with names nor the text in order.
///
/// If the rules declare no ids, drops the recording once its output is joined, and the joined
/// recording once its messages are read. If the rules do not join output, reads the recording once,
/// and drops it once its messages are read.
///
/// If the rules declare ids, drops the recording at the end, because this way does not find the
/// first error. If a step fails, creates the texts after all, one after the other, which gives the
/// result or the first error. Drops the recording before the last text is normalised.
///
/// # Errors
///
/// Those of [`apply_rules`]. `Order` also if the text that it returns was rejected.
pub fn normalise_by_rules(
    alloc: Global,
    rules: &MaskRules,
    recording: Vec<u8>,
    limits: Limits,
    mode: Mode,
) -> Result<NormalSession, ApplyRefused>
    requires limits { AreSound limits }
    ensures ok { IfOk result
        (NormalisesByRules limits mode (mask_of rules.now) recording.items) }
    ensures err { IfErr result (IsNotNormalised limits mode (mask_of rules.now) recording.items) }
{
    if rules.declared().is_empty() {
        return normalise_in_order_by(alloc, rules, recording, limits, mode);
    }
    if let Some(normal) = normalise_named(alloc, rules, recording.as_slice(), limits, mode) {
        return Ok(normal);
    }
    let text = apply_rules(alloc, rules, recording.as_slice(), limits, mode)?;
    drop(recording);
    match normalise_session(alloc, text.as_slice(), limits, mode) {
        Ok(normal) => Ok(normal),
        Err(refused) => Err(order_refusal(refused)),
    }
}

/// Returns the messages of the text that [`apply_rules`] returns, which is checked in the same way
/// as by [`check`](dap_normalise::check) in this mode. Creates no text but that of the joined
/// recording. If the rules declare ids and a step fails, creates the texts after all, one after the
/// other, which gives the result or the first error.
///
/// # Errors
///
/// Those of [`normalise_by_rules`].
pub fn session_by_rules(
    alloc: Global,
    rules: &MaskRules,
    recording: &[u8],
    limits: Limits,
    mode: Mode,
) -> Result<StoredSession, ApplyRefused>
    requires limits { AreSound limits }
    ensures ok { IfOk result (λ session. MakesSession limits mode (mask_of rules.now) recording.now
        (messages_of session)) }
    ensures err { IfErr result (IsNotNormalised limits mode (mask_of rules.now) recording.now) }
{
    if rules.declared().is_empty() {
        return session_in_order_by(alloc, rules, recording, limits, mode);
    }
    if let Some(session) = check_named(alloc, rules, recording, limits, mode) {
        return Ok(session);
    }
    let text = apply_rules(alloc, rules, recording, limits, mode)?;
    match read_session(alloc, text.as_slice(), limits, mode) {
        Ok(session) => Ok(session),
        Err(refused) => Err(order_refusal(refused)),
    }
}
