//! Explanations of rejections, which make the rejected text again.
ghost use Rattle.std.specs.Prelude.{◌≡◌, IfOk, string_bytes};
ghost use Rattle.dap_explain.specs.Lines.{AreLines};
ghost use Rattle.dap_explain.specs.Unexplained.{IsEmpty};
ghost use Rattle.dap_input.specs.Limits.{AreSound};
ghost use Rattle.dapnorm_main.specs.Unexplained.{IsApplyFailure, IsGoldenFailure};

use dap_explain::{Format, Input, explain};
use dap_golden::{GoldenRefused, recording_of};
use dap_input::{Limits, Refused};
use dap_mask::MaskRules;
use dap_rules::{ApplyRefused, mask_by_rules};
use std::alloc::{AllocError, Global};

/// Returns a recording to which these rules are applied.
pub(crate) fn recording<'a>(bytes: &'a [u8], rules: Option<&'a MaskRules>) -> Input<'a> {
    Input {
        bytes,
        format: Format::Recording,
        rules,
    }
}

/// Explains why an input is rejected, or why its rules cannot be applied to it. Masks it again if
/// the masked recording is rejected. Returns an empty string if a read or an allocation failed, and
/// for `Grew` and `TooManyIds` if some of the rules are for the order: their record may be numbered
/// in the text in order, not in the masked recording.
pub(crate) fn explain_applying(
    alloc: Global,
    input: Input<'_>,
    refused: ApplyRefused,
    limits: Limits,
) -> Result<String, AllocError>
    requires { AreSound limits }
    ensures lines { IfOk result (λ text. ∥ AreLines (string_bytes text) ∥₁) }

    // If a reader, a writer or an allocation failed, there is nothing to explain.
    ensures nothing { IsApplyFailure refused → IsEmpty result }
{
    match (refused, input.rules) {
        (ApplyRefused::Mask(why), _) | (ApplyRefused::Order(why), None) => {
            explain(alloc, input, why, limits)
        }
        (ApplyRefused::Order(Refused::Grew(_) | Refused::TooManyIds(_)), Some(rules))
            if !rules.swaps().is_empty() => { Ok(String::new(alloc)) }
        (ApplyRefused::Order(why), Some(rules)) => {
            match mask_by_rules(alloc, rules, input.bytes, limits) {
                Ok(masked) => explain(alloc, recording(masked.as_slice(), None), why, limits),
                Err(_) => Ok(String::new(alloc)),
            }
        }
        (ApplyRefused::ReadFault | ApplyRefused::Memory, _) => Ok(String::new(alloc)),
    }
}

/// Explains why an input has no golden text. Creates the rejected recording again. Returns an empty
/// string if the session has no records, or if an allocation failed.
pub(crate) fn explain_golden(
    alloc: Global,
    input: Vec<u8>,
    rules: Option<&MaskRules>,
    refused: GoldenRefused,
    limits: Limits,
) -> Result<String, AllocError>
    requires { AreSound limits }
    ensures lines { IfOk result (λ text. ∥ AreLines (string_bytes text) ∥₁) }

    // If a reader, a writer or an allocation failed, or if the session has no records, there is
    // nothing to explain.
    ensures nothing { IsGoldenFailure refused → IsEmpty result }
{
    let why = match refused {
        GoldenRefused::Trace(why) => {
            let trace = Input {
                format: Format::Trace,
                ..recording(input.as_slice(), None)
            };
            return explain(alloc, trace, why, limits);
        }
        GoldenRefused::Mask(why) => ApplyRefused::Mask(why),
        GoldenRefused::Session(why) => ApplyRefused::Order(why),
        GoldenRefused::NoRecords | GoldenRefused::Memory => return Ok(String::new(alloc)),
    };
    match recording_of(alloc, input, limits) {
        Ok(session) => explain_applying(alloc, recording(session.as_slice(), rules), why, limits),
        Err(_) => Ok(String::new(alloc)),
    }
}
