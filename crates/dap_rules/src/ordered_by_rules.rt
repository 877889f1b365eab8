//! Applies the rules of a file to a recording in memory, up to the order of its messages.
ghost use Rattle.std.specs.Prelude.{◌≡◌, [], IfErr, IfOk, List};
ghost use Rattle.dap_message.specs.SwapRules.{swaps_of};
ghost use Rattle.dap_input.specs.Limits.{AreSound};
ghost use Rattle.dap_mask.specs.KeptRules.{mask_of};
ghost use Rattle.dap_normalise.specs.{Accepting.Payload, RecordTexts.FitRecords};
ghost use Rattle.dap_recording.specs.Recording.{recording_text};
ghost use Rattle.dap_normalise.specs.{Accepting.IsAccepted, NormalSession.IsNormalSession};
ghost use Rattle.dap_rules.specs.Applying.{IsOrderedByRules, NormalisesBy, RefusesNormalBy};
ghost use Rattle.dap_rules.specs.ApplyingSteps.{IsRefusedInOrder, IsRejectedInOrder, MakesOrdered};
ghost use Rattle.dap_rules.specs.ApplyingSteps.{MakesSessionBy, mask_refusal, order_refusal};
ghost use Rattle.dap_rules.specs.MaskedSessions.{Holds};
ghost use Rattle.dap_stored.specs.Sessions.{messages_of};

use crate::fault::ApplyRefused;
use crate::joined_masking::mask_by_rules;
use crate::joined_session::{into_session, read_session_of};
use crate::masked_session::{MaskedSession, check_masked, normalise_masked};
use crate::ordering::{arranged, normalise_in_order};
use crate::writing::text_of_session;
use dap_input::{Limits, Refused};
use dap_mask::MaskRules;
use dap_message::SwapRule;
use dap_normalise::NormalSession;
use dap_rename::Mode;
use dap_stored::StoredSession;
use std::alloc::Global;

/// Normalises the records of a masked session, in order if some rules are for the order.
///
/// # Errors
///
/// Those of [`order_bytes`](crate::order_bytes), or those of
/// [`normalise_session`](dap_normalise::normalise_session) if no rules are for the order.
fn normalise_by(
    alloc: Global,
    swaps: &[SwapRule],
    masked: MaskedSession,
    limits: Limits,
    mode: Mode,
) -> Result<NormalSession, Refused>
    requires limits { AreSound limits }
    ensures ok { (records : List Payload) → FitRecords limits records → Holds masked records
        → IfOk result (NormalisesBy limits mode (swaps_of swaps.now) (recording_text records)) }
    ensures err { (records : List Payload) → FitRecords limits records → Holds masked records
        → IfErr result (RefusesNormalBy limits mode (swaps_of swaps.now) (recording_text records)) }
{
    if swaps.is_empty() {
        return normalise_masked(alloc, &masked, limits, mode);
    }
    check_masked(alloc, &masked, limits, mode)?;
    normalise_in_order(alloc, swaps, masked.messages, limits, mode)
}

/// Returns the messages of a masked session, in order if some rules are for the order. They are
/// checked.
///
/// # Errors
///
/// Those of [`check_masked`], and of [`arranged`] if some rules are for the order.
fn session_by(
    alloc: Global,
    swaps: &[SwapRule],
    masked: MaskedSession,
    limits: Limits,
    mode: Mode,
) -> Result<StoredSession, Refused>
    requires limits { AreSound limits }
    ensures ok { (records : List Payload) → FitRecords limits records → Holds masked records
        → IfOk result (λ session. MakesSessionBy limits mode (swaps_of swaps.now)
        (recording_text records) (messages_of session)) }
    ensures err { (records : List Payload) → FitRecords limits records → Holds masked records
        → IfErr result (RefusesNormalBy limits mode (swaps_of swaps.now) (recording_text records)) }
{
    check_masked(alloc, &masked, limits, mode)?;
    if swaps.is_empty() {
        return Ok(masked.messages);
    }
    arranged(alloc, swaps, masked.messages, limits, mode)
}

/// Returns the error of the step that masks a recording.
pub(crate) fn mask_refusal(refused: Refused) -> ApplyRefused
    ensures { result ≡ mask_refusal refused }
{
    match refused {
        Refused::Memory => ApplyRefused::Memory,
        refused => ApplyRefused::Mask(refused),
    }
}

/// Returns the error of the steps that put a recording in order and name its ids.
pub(crate) fn order_refusal(refused: Refused) -> ApplyRefused
    ensures { result ≡ order_refusal refused }
{
    match refused {
        Refused::Memory => ApplyRefused::Memory,
        refused => ApplyRefused::Order(refused),
    }
}

/// Returns the masked text of a recording, or its text in order if some of the rules are for the
/// order. The rules declare no ids.
///
/// # Errors
///
/// Those of [`apply_rules`](crate::apply_rules).
pub(crate) fn text_in_order_by(
    alloc: Global,
    rules: &MaskRules,
    recording: &[u8],
    limits: Limits,
    mode: Mode,
) -> Result<Vec<u8>, ApplyRefused>
    requires limits { AreSound limits }
    requires none { (mask_of rules.now).declared ≡ [] }
    ensures ok { IfOk result
        (λ text. IsOrderedByRules limits mode (mask_of rules.now) recording.now text.items) }
    ensures err { IfErr result (IsRefusedInOrder limits mode (mask_of rules.now) recording.now) }
{
    if rules.swaps().is_empty() {
        return match mask_by_rules(alloc, rules, recording, limits) {
            Ok(masked) => Ok(masked),
            Err(refused) => Err(mask_refusal(refused)),
        };
    }
    let session = session_in_order_by(alloc, rules, recording, limits, mode)?;
    match text_of_session(alloc, &session, limits) {
        Ok(text) => Ok(text),
        Err(refused) => Err(order_refusal(refused)),
    }
}

/// Returns the normal form of the masked text of a recording, with names in the place of its
/// declared ids, in order if some of the rules are for the order. Also returns its counts. Creates
/// none of these texts. Drops the recording once its output is joined, and the joined recording
/// once its messages are read.
///
/// # Errors
///
/// Those of [`apply_rules`](crate::apply_rules) before ids are named again. `Order` also if no
/// rules are for the order and the text with names was rejected.
pub(crate) fn normalise_in_order_by(
    alloc: Global,
    rules: &MaskRules,
    recording: Vec<u8>,
    limits: Limits,
    mode: Mode,
) -> Result<NormalSession, ApplyRefused>
    requires limits { AreSound limits }
    ensures ok { IfOk result (λ session. MakesOrdered limits mode (mask_of rules.now)
        recording.items (λ text. IsNormalSession limits mode text session)) }
    ensures err { IfErr result (IsRejectedInOrder limits mode (mask_of rules.now) recording.items) }
{
    let masked = match into_session(alloc, rules, recording, limits) {
        Ok(masked) => masked,
        Err(refused) => return Err(mask_refusal(refused)),
    };
    match normalise_by(alloc, rules.swaps(), masked, limits, mode) {
        Ok(normal) => Ok(normal),
        Err(refused) => Err(order_refusal(refused)),
    }
}

/// Returns the messages of the text whose normal form [`normalise_in_order_by`] returns. The text
/// is checked in the same way as by [`check`](dap_normalise::check) in this mode. Creates no text
/// but that of the joined recording.
///
/// # Errors
///
/// Those of [`normalise_in_order_by`].
pub(crate) fn session_in_order_by(
    alloc: Global,
    rules: &MaskRules,
    recording: &[u8],
    limits: Limits,
    mode: Mode,
) -> Result<StoredSession, ApplyRefused>
    requires limits { AreSound limits }
    ensures ok { IfOk result (λ session. MakesOrdered limits mode (mask_of rules.now)
        recording.now (λ text. IsAccepted limits mode text (messages_of session))) }
    ensures err { IfErr result (IsRejectedInOrder limits mode (mask_of rules.now) recording.now) }
{
    let masked = match read_session_of(alloc, rules, recording, limits) {
        Ok(masked) => masked,
        Err(refused) => return Err(mask_refusal(refused)),
    };
    match session_by(alloc, rules.swaps(), masked, limits, mode) {
        Ok(session) => Ok(session),
        Err(refused) => Err(order_refusal(refused)),
    }
}
