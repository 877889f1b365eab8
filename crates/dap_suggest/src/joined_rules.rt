//! Rules that follow the rules that were given.
ghost use Rattle.std.specs.Prelude.{◌≡◌, ◌++◌, IfOk, Ok};
ghost use Rattle.dap_mask.specs.{KeptRules.mask_of, RulesFile.rules_said};
ghost use Rattle.dap_suggest.specs.Suggested.{missing_end};

use crate::obstacle::Unsolved;
use dap_mask::{MaskRules, RulesCause, RulesFault};
use std::alloc::{AllocError, Global};

/// Returns the rules that were given, and further rules after them.
pub fn joined(alloc: Global, given: &[u8], rules: &[u8]) -> Result<Vec<u8>, AllocError>
    ensures { IfOk result (λ text. text.items ≡ given.now ++ rules.now) }
{
    let mut text = Vec::from_slice(alloc, given)?;
    text.extend_from_slice(rules)?;
    Ok(text)
}

/// Returns the LF that has to follow the rules that were given, if their last line lacks it.
pub fn missing_end(given: &[u8]) -> &'static [u8]
    ensures { result.now ≡ missing_end given.now }
{
    match given {
        [] => b"",
        _ if given.ends_with(b"\n") => b"",
        _ => b"\n",
    }
}

/// Reads the rules that were given, and further rules after them.
///
/// # Errors
///
/// A file cannot have the rules, or an allocation failed.
pub fn read_joined(alloc: Global, given: &[u8], rules: &[u8]) -> Result<MaskRules, Unsolved>
    ensures { IfOk result (λ read. rules_said (given.now ++ rules.now) ≡ Ok (mask_of read)) }
{
    let whole = joined(alloc, given, rules)?;
    Ok(MaskRules::read(alloc, whole.as_slice())?)
}

/// Returns why a file cannot have these rules after those that were given, or `None` if it can.
pub fn fault_after(
    alloc: Global,
    given: &[u8],
    rules: &[u8],
) -> Result<Option<RulesFault>, AllocError> {
    let whole = joined(alloc, given, rules)?;
    match MaskRules::read(alloc, whole.as_slice()).err() {
        Some(fault) if fault.cause == RulesCause::Memory => Err(AllocError),
        fault => Ok(fault),
    }
}

/// Returns whether the rules of a file are too many, whatever they are.
pub fn is_full(fault: &RulesFault) -> bool {
    matches!(fault.cause, RulesCause::TooLong | RulesCause::TooMany)
}

/// Returns whether a file cannot have these rules after those before them, for another reason than
/// their number. The rules before them end with LF.
pub fn are_refused(alloc: Global, before: &[u8], rules: &[u8]) -> Result<bool, AllocError> {
    let lines = before.iter().filter(|byte| **byte == b'\n').count();
    let fault = fault_after(alloc, before, rules)?;
    // A fault in the rules before them is not a reason to search others.
    Ok(fault.is_some_and(|fault| fault.line > lines && !is_full(&fault)))
}
