//! The sessions that the rules make of two recordings.
ghost use Rattle.std.specs.Prelude.{◌≡◌, IfErr, IfOk, IfSome, true};
ghost use Rattle.dap_compare.specs.Sessions.{DifferFirstAt};
ghost use Rattle.dap_input.specs.Limits.{AreSound};
ghost use Rattle.dap_mask.specs.KeptRules.{mask_of};
ghost use Rattle.dap_rename.specs.declared.mode.Mode.TheVariants.{Whole};
ghost use Rattle.dap_rules.specs.Modes.{mode_by};
ghost use Rattle.dap_stored.specs.Sessions.{messages_of};
ghost use Rattle.dap_suggest.specs.Suggested.{AreAlreadySame, AreMade, IsOneRejected};

use crate::suggestion::Inputs;
use dap_compare::{Verdict, Which, compare_sessions};
use dap_mask::MaskRules;
use dap_rename::{Mode, index_tables};
use dap_rules::{ApplyRefused, mode_by, session_by_rules};
use dap_stored::StoredSession;
use std::alloc::{AllocError, Global};

/// The sessions that the rules make of two recordings.
#[derive(Drop)]
pub struct Sessions {
    pub a: StoredSession,
    pub b: StoredSession,
}

/// Returns the sessions that the rules make of two recordings.
///
/// # Errors
///
/// Those of [`session_by_rules`] for A, or for B if A is not rejected.
pub fn sessions_by(
    alloc: Global,
    rules: &MaskRules,
    inputs: &Inputs<'_>,
) -> Result<Sessions, (Which, ApplyRefused)>
    requires { AreSound inputs.now.limits }
    ensures ok { IfOk result (AreMade inputs.now (mask_of rules.now)) }
    ensures err { IfErr result
        (IsOneRejected inputs.now.limits (mask_of rules.now) inputs.now.a.now inputs.now.b.now) }
{
    let mode = mode_by(rules, Mode::Whole);
    let made = session_by_rules(alloc, rules, inputs.a, inputs.limits, mode);
    let a = made.map_err(|refused| (Which::A, refused))?;
    let made = session_by_rules(alloc, rules, inputs.b, inputs.limits, mode);
    let b = made.map_err(|refused| (Which::B, refused))?;
    Ok(Sessions { a, b })
}

/// Compares the sessions that the rules make of two recordings. Returns the number of the first
/// record that differs, or `None` if they are the same.
pub fn first_difference(
    alloc: Global,
    rules: &MaskRules,
    inputs: &Inputs<'_>,
    sessions: &Sessions,
) -> Result<Option<u64>, AllocError>
    requires limits { AreSound inputs.now.limits }
    requires made { AreMade inputs.now (mask_of rules.now) sessions.now }
    ensures { IfOk result (λ first. IfSome first (DifferFirstAt (mode_by (mask_of rules.now) Whole)
        (messages_of sessions.now.a) (messages_of sessions.now.b))) }
{
    let mode = mode_by(rules, Mode::Whole);
    let (Sessions { a, b }, limits) = (sessions, inputs.limits);
    let tables_a = index_tables(alloc, limits.ids);
    let tables_b = index_tables(alloc, limits.ids);
    let (mut text_a, mut text_b) = (Vec::new(alloc), Vec::new(alloc));
    let verdict = compare_sessions(
        alloc,
        a,
        b,
        limits,
        tables_a,
        tables_b,
        mode,
        &mut text_a,
        &mut text_b,
    )?;
    match verdict {
        Verdict::Same(_) => Ok(None),
        Verdict::Differ(number) => Ok(Some(number)),
    }
}

/// Returns whether the sessions that the rules make of two recordings are the same.
///
/// # Errors
///
/// - `AllocError`: an allocation failed.
pub fn are_same(
    alloc: Global,
    rules: &MaskRules,
    inputs: &Inputs<'_>,
    sessions: &Sessions,
) -> Result<bool, AllocError>
    requires limits { AreSound inputs.now.limits }
    requires made { AreMade inputs.now (mask_of rules.now) sessions.now }
    ensures { AreAlreadySame inputs.now (mask_of rules.now)
        → IfOk result (λ same. same ≡ true) }
{
    let first = first_difference(alloc, rules, inputs, sessions)?;
    Ok(first.is_none())
}
