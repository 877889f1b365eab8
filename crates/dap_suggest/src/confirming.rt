//! Confirms that rules make two recordings the same.
ghost use Rattle.std.specs.Prelude.{◌≡◌, ◌++◌, true, IfOk, OnOk, string_bytes};
ghost use Rattle.std.specs.List.{AllByRecursion, Contains};
ghost use Rattle.dap_input.specs.Limits.{AreSound};
ghost use Rattle.dap_mask.specs.KeptRules.{mask_of};
ghost use Rattle.dap_message.specs.SwapRules.{swaps_of};
ghost use Rattle.dap_rules.specs.Applying.{NormalisesByRules};
ghost use Rattle.dap_suggest.specs.Exchanges.{HasNeededSwaps, HasSwapsAmong};
ghost use Rattle.dap_suggest.specs.Suggested.{HaveOneNormal, IsConfirmed, IsConfirmedBy};
ghost use Rattle.dap_suggest.specs.Suggested.{IsSuggestion};
ghost use Rattle.dap_suggest.specs.Suggested.{check_note, last_line, verdict};

use crate::broad::broad_of;
use crate::exchanges::are_among;
use crate::guarded::guarded_count;
use crate::joined_rules::{joined, read_joined};
use crate::obstacle::{Mismatch, NoneFound, Unsolved};
use crate::suggestion::{Inputs, Suggestion};
use dap_compare::Which;
use dap_input::Limits;
use dap_mask::MaskRules;
use dap_normalise::NormalSession;
use dap_rename::Mode;
use dap_rules::{ApplyRefused, mode_by, normalise_by_rules};
use std::alloc::{AllocError, Global};

/// The lines before the last one of rules that number ids from each stop only by a line of their
/// own.
const ADDED_PER_STOP: &[u8] = b"# without this line the ids differ\nper-stop\n\n";

fn verdict(mode: Mode) -> &'static [u8]
    ensures { result.now ≡ verdict mode }
{
    match mode {
        Mode::Whole => b"# with these rules: same",
        Mode::PerStop => b"# with these rules and per-stop: same",
    }
}

fn check_note(alloc: Global, to_check: usize) -> Result<String, AllocError>
    ensures { IfOk result (λ note. string_bytes note ≡ check_note to_check) }
{
    if to_check == 0 {
        Ok(String::new(alloc))
    } else if to_check == 1 {
        String::from_str(alloc, " (1 rule to check)")
    } else {
        format!(in alloc; " ({to_check} rules to check)")
    }
}

/// Returns the last line of rules that make recordings the same in this mode, of which `to_check`
/// hide what a test looks at.
fn last_line(alloc: Global, mode: Mode, to_check: usize) -> Result<Vec<u8>, AllocError>
    ensures { IfOk result (λ line. line.items ≡ last_line mode to_check) }
{
    let note = check_note(alloc, to_check)?;
    let mut line = Vec::from_slice(alloc, verdict(mode))?;
    line.extend_from_slice(note.as_bytes())?;
    line.push(b'\n')?;
    Ok(line)
}

/// Returns the content of the record of a normal text that a number of records precede.
fn content_after(alloc: Global, text: &[u8], records: usize) -> Result<Vec<u8>, AllocError> {
    let mut lines = text.split(|byte| *byte == b'\n');
    let line = lines.nth(records.saturating_mul(3).saturating_add(2));
    Vec::from_slice(alloc, line.unwrap_or(&[]))
}

/// Returns the records in which two different normal texts first differ, after the rules that were
/// found.
fn first_mismatch(
    alloc: Global,
    found: &[u8],
    text: &[u8],
    other: &[u8],
) -> Result<Mismatch, AllocError> {
    let both = text.iter().zip(other);
    let same = both.take_while(|(byte, found)| **byte == **found);
    let ends = same.filter(|(byte, _)| **byte == b'\n').count();
    // A record has three LF: two in its header part, and one after its content.
    let records = ends / 3;
    Ok(Mismatch {
        rules: Vec::from_slice(alloc, found)?,
        a: content_after(alloc, text, records)?,
        b: content_after(alloc, other, records)?,
    })
}

/// Returns the normal form of what the rules make of a recording.
///
/// # Errors
///
/// Those of [`normalise_by_rules`].
fn normal_by(
    alloc: Global,
    rules: &MaskRules,
    which: Which,
    recording: &[u8],
    limits: Limits,
    mode: Mode,
) -> Result<NormalSession, (Which, ApplyRefused)>
    requires { AreSound limits }
    ensures { IfOk result (NormalisesByRules limits mode (mask_of rules.now) recording.now) }
{
    let Ok(recording) = Vec::from_slice(alloc, recording) else {
        return Err((which, ApplyRefused::Memory));
    };
    let normal = normalise_by_rules(alloc, rules, recording, limits, mode);
    normal.map_err(|refused| (which, refused))
}

/// Compares what the rules make of two recordings. The rules are those that were given, and those
/// that were found after them.
///
/// # Errors
///
/// They differ, a recording is rejected by the rules, or an allocation failed.
fn compare_by(
    alloc: Global,
    rules: &MaskRules,
    inputs: &Inputs<'_>,
    found: &[u8],
    mode: Mode,
) -> Result<(), Unsolved>
    requires { AreSound inputs.now.limits }
    ensures { OnOk result (HaveOneNormal inputs.now.limits mode (mask_of rules.now) inputs.now.a.now
        inputs.now.b.now) }
{
    let a = normal_by(alloc, rules, Which::A, inputs.a, inputs.limits, mode)?;
    let b = normal_by(alloc, rules, Which::B, inputs.b, inputs.limits, mode)?;
    let (one, other) = (a.bytes.as_slice(), b.bytes.as_slice());
    if one == other {
        return Ok(());
    }
    Err(Unsolved::Differs(first_mismatch(alloc, found, one, other)?))
}

/// Compares two recordings by the rules that were given and those that were found after them, as
/// `compare --rules` does. Returns the mode in which they are the same.
///
/// # Errors
///
/// There are more broad rules than those that were given, not `to_check` rules more for guarded
/// places, or other exchanges than those of the inputs; and the errors of [`compare_by`].
fn same_by_rules(
    alloc: Global,
    rules: &MaskRules,
    inputs: &Inputs<'_>,
    found: &[u8],
    to_check: usize,
) -> Result<Mode, Unsolved>
    requires { AreSound inputs.now.limits }
    ensures confirmed { IfOk result (IsConfirmedBy inputs.now (mask_of rules.now) to_check) }
    ensures swaps { IfOk result (λ mode. AllByRecursion (Contains (swaps_of inputs.now.swaps.now))
        (mask_of rules.now).swaps) }
{
    let guarded = guarded_count(rules);
    if broad_of(rules) != inputs.broad
        || guarded.checked_sub(inputs.guarded) != Some(to_check)
        || !are_among(inputs.swaps, rules.swaps())
    {
        return Err(Unsolved::NoRules(NoneFound::Unread));
    }
    let mode = mode_by(rules, Mode::Whole);
    compare_by(alloc, rules, inputs, found, mode)?;
    Ok(mode)
}

/// Compares two recordings by the rules that were given and the text of others after them. Returns
/// the mode in which they are the same.
///
/// # Errors
///
/// The text is not a rules file, and those of [`same_by_rules`].
#[tactic(auto, using(crate::proofs::Confirmations::confirmed_by))]
fn same_by(
    alloc: Global,
    inputs: &Inputs<'_>,
    found: &[u8],
    to_check: usize,
) -> Result<Mode, Unsolved>
    requires { AreSound inputs.now.limits }
    ensures confirmed { IfOk result
        (λ mode. IsConfirmed inputs.now (inputs.now.given.now ++ found.now) mode to_check) }
    ensures swaps { IfOk result (λ mode. HasSwapsAmong (swaps_of inputs.now.swaps.now)
        (inputs.now.given.now ++ found.now)) }
{
    let whole = joined(alloc, inputs.given, found)?;
    let rules = MaskRules::read(alloc, whole.as_slice())?;
    same_by_rules(alloc, &rules, inputs, found, to_check)
}

/// Suggests these rules, if two recordings are the same by them in this mode.
pub fn suggested(
    alloc: Global,
    inputs: &Inputs<'_>,
    found: &[u8],
    mode: Mode,
    to_check: usize,
) -> Result<Suggestion, Unsolved>
    requires limits { AreSound inputs.now.limits }
    requires swaps { HasNeededSwaps inputs.now }
    requires strict { inputs.now.strict ≡ true → to_check ≡ 0 }
    ensures confirmed { IfOk result (IsSuggestion inputs.now) }
    ensures text { IfOk result
        (λ s. s.rules.items ≡ found.now ++ last_line mode to_check) }
{
    let end = last_line(alloc, mode, to_check)?;
    let rules = joined(alloc, found, end.as_slice())?;
    if same_by(alloc, inputs, rules.as_slice(), to_check)? != mode {
        return Err(Unsolved::NoRules(NoneFound::Unread));
    }
    Ok(Suggestion { rules, mode })
}

/// Returns how many of these rules hide what a test looks at.
fn to_check_in(alloc: Global, inputs: &Inputs<'_>, found: &[u8]) -> Result<usize, Unsolved> {
    let rules = read_joined(alloc, inputs.given, found)?;
    Ok(guarded_count(&rules).saturating_sub(inputs.guarded))
}

/// Suggests these rules, if two recordings are the same by them in this mode. Adds the line
/// `per-stop`, if the mode needs it and the rules that were given lack it.
pub fn confirm_in(
    alloc: Global,
    inputs: &Inputs<'_>,
    found: &[u8],
    mode: Mode,
) -> Result<Suggestion, Unsolved>
    requires limits { AreSound inputs.now.limits }
    requires swaps { HasNeededSwaps inputs.now }
    ensures { IfOk result (IsSuggestion inputs.now) }
{
    let to_check = to_check_in(alloc, inputs, found)?;
    if inputs.strict && to_check > 0 {
        return Err(Unsolved::NoRules(NoneFound::Unread));
    }
    if mode == inputs.mode {
        return suggested(alloc, inputs, found, mode, to_check);
    }
    let found = joined(alloc, found, ADDED_PER_STOP)?;
    suggested(alloc, inputs, found.as_slice(), mode, to_check)
}

/// Suggests these rules, if two recordings are the same by them. Ids are numbered once in each
/// recording; or from each stop, if the rules that were given say so, or if only that makes the
/// recordings the same.
pub fn confirm(alloc: Global, inputs: &Inputs<'_>, found: &[u8]) -> Result<Suggestion, Unsolved>
    requires limits { AreSound inputs.now.limits }
    requires swaps { HasNeededSwaps inputs.now }
    ensures { IfOk result (IsSuggestion inputs.now) }
{
    let confirmed = confirm_in(alloc, inputs, found, inputs.mode);
    let differs = matches!(&confirmed, Err(Unsolved::NoRules(_) | Unsolved::Differs(_)));
    if differs && inputs.mode == Mode::Whole {
        return confirm_in(alloc, inputs, found, Mode::PerStop);
    }
    confirmed
}
