//! Joins the output of recordings, if rules say so, and reads the messages of the masked result.
ghost use Rattle.std.specs.Prelude.{ℕ, IfErr, IfOk, List};
ghost use Rattle.dap_input.specs.Limits.{AreSound};
ghost use Rattle.dap_mask.specs.KeptRules.{mask_of};
ghost use Rattle.dap_rules.specs.Applying.{JoinsBy, RefusesToMaskByRules};
ghost use Rattle.dap_rules.specs.ApplyingSteps.{IsMaskedSessionByRules};

use crate::joining::{into_joined, join_by_rules};
use crate::masked_session::{MaskedSession, read_masked_session};
use crate::renumbering::renumber;
use dap_input::{Limits, Refused};
use dap_mask::MaskRules;
use std::alloc::Global;

/// Returns the messages of the masked text of a joined recording, whose records have these numbers
/// in the recording that was joined.
///
/// # Errors
///
/// Those of [`read_masked_session`], with these numbers.
fn read_joined_session(
    alloc: Global,
    rules: &MaskRules,
    joined: &[u8],
    numbers: &[u64],
    limits: Limits,
) -> Result<MaskedSession, Refused>
    requires limits { AreSound limits }
    ensures ok { (recording : List ℕ) → JoinsBy limits (mask_of rules.now).joining recording
        joined.now numbers.now
        → IfOk result (IsMaskedSessionByRules limits (mask_of rules.now) recording) }
    ensures err { (recording : List ℕ) → JoinsBy limits (mask_of rules.now).joining recording
        joined.now numbers.now
        → IfErr result (RefusesToMaskByRules limits (mask_of rules.now) recording) }
{
    match read_masked_session(alloc, rules, joined, limits) {
        Ok(masked) => Ok(masked),
        Err(refused) => Err(renumber(numbers, refused)),
    }
}

/// Returns the messages of the masked text of a recording, whose output is joined first if the
/// rules say so.
///
/// # Errors
///
/// The first error of the recording or of its joined text, or `Memory`. Records are numbered from 1
/// in the recording.
pub(crate) fn read_session_of(
    alloc: Global,
    rules: &MaskRules,
    recording: &[u8],
    limits: Limits,
) -> Result<MaskedSession, Refused>
    requires limits { AreSound limits }
    ensures ok { IfOk result (IsMaskedSessionByRules limits (mask_of rules.now) recording.now) }
    ensures err { IfErr result (RefusesToMaskByRules limits (mask_of rules.now) recording.now) }
{
    match join_by_rules(alloc, rules, recording, limits) {
        Ok(Some(joined)) => read_joined_session(
            alloc,
            rules,
            joined.recording.as_slice(),
            joined.numbers.as_slice(),
            limits,
        ),
        Ok(None) => read_joined_session(alloc, rules, recording, &[], limits),
        Err(refused) => Err(refused),
    }
}

/// Does the same as [`read_session_of`], and drops the recording once it is joined. Drops the
/// joined recording once its messages are read.
pub(crate) fn into_session(
    alloc: Global,
    rules: &MaskRules,
    recording: Vec<u8>,
    limits: Limits,
) -> Result<MaskedSession, Refused>
    requires limits { AreSound limits }
    ensures ok { IfOk result (IsMaskedSessionByRules limits (mask_of rules.now) recording.items) }
    ensures err { IfErr result (RefusesToMaskByRules limits (mask_of rules.now) recording.items) }
{
    let joined = into_joined(alloc, rules, recording, limits)?;
    read_joined_session(
        alloc,
        rules,
        joined.recording.as_slice(),
        joined.numbers.as_slice(),
        limits,
    )
}
