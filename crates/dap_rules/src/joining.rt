//! Joins the output of recordings, if rules say so.
ghost use Rattle.std.specs.Prelude.{IfErr, IfOk};
ghost use Rattle.dap_input.specs.Limits.{AreSound};
ghost use Rattle.dap_mask.specs.KeptRules.{mask_of};
ghost use Rattle.dap_rules.specs.{Applying.{JoinsBy, RefusesToMaskByRules}, ApplyingSteps.JoinsIf};

use dap_input::{Limits, Refused};
use dap_join::{Joined, join};
use dap_mask::MaskRules;
use std::alloc::Global;

/// Returns the recording with its output joined, or `None` if the rules do not join output.
///
/// # Errors
///
/// Those of [`join`].
pub(crate) fn join_by_rules(
    alloc: Global,
    rules: &MaskRules,
    recording: &[u8],
    limits: Limits,
) -> Result<Option<Joined>, Refused>
    requires limits { AreSound limits }
    ensures ok { IfOk result (JoinsIf limits (mask_of rules.now).joining recording.now) }
    ensures err { IfErr result (RefusesToMaskByRules limits (mask_of rules.now) recording.now) }
{
    let Some(joining) = rules.joining() else {
        return Ok(None);
    };
    match join(alloc, joining, recording, limits) {
        Ok(joined) => Ok(Some(joined)),
        Err(refused) => Err(refused),
    }
}

/// Does the same as [`join_by_rules`], and drops the recording once it is joined. If the rules do
/// not join output, returns the recording, and no numbers.
pub(crate) fn into_joined(
    alloc: Global,
    rules: &MaskRules,
    recording: Vec<u8>,
    limits: Limits,
) -> Result<Joined, Refused>
    requires limits { AreSound limits }
    ensures ok { IfOk result (λ joined. JoinsBy limits (mask_of rules.now).joining
        recording.items joined.recording.items joined.numbers.items) }
    ensures err { IfErr result (RefusesToMaskByRules limits (mask_of rules.now) recording.items) }
{
    match join_by_rules(alloc, rules, recording.as_slice(), limits) {
        Ok(Some(joined)) => Ok(joined),
        Ok(None) => Ok(Joined {
            recording,
            numbers: Vec::new(alloc),
        }),
        Err(refused) => Err(refused),
    }
}
