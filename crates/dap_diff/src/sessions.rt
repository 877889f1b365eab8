//! Finds the differences of two sessions.
ghost use Rattle.std.specs.Prelude.{◌≡◌, IfOk, true};
ghost use Rattle.dap_compare.specs.Sessions.{AreAccepted};
ghost use Rattle.dap_diff.specs.Sessions.{AreDifferencesOn, IsDifferenceOn};
ghost use Rattle.dap_input.specs.Limits.{AreSound};
ghost use Rattle.dap_mask.specs.Declarations.{declarations_of, are_declared};
ghost use Rattle.dap_normalise.specs.NameTables.{AreReady};
ghost use Rattle.dap_stored.specs.Sessions.{messages_of};

use crate::all_differences::AllDifferences;
use crate::diffing::lines_of;
use crate::entries::entries_of;
use crate::outcome::Diff;
use crate::report::report_lines;
use dap_compare::{Verdict, compare_sessions};
use dap_input::Limits;
use dap_mask::Declaration;
use dap_rename::{Mode, NameTable, Tables};
use dap_stored::StoredSession;
use std::alloc::{AllocError, Global};

/// Compares the messages of two recordings, as [`diff_with`](crate::diff_with) compares the
/// recordings. Reads nothing.
///
/// Some recording with the messages of A and some recording with those of B must be accepted in
/// this mode. The tables for the ids of A and of B must be empty, each with the limit `limits.ids`.
///
/// # Errors
///
/// - `AllocError`: an allocation failed.
pub fn diff_sessions<T: NameTable + Drop>(
    alloc: Global,
    a: &StoredSession,
    b: &StoredSession,
    limits: Limits,
    tables_a: Tables<T>,
    tables_b: Tables<T>,
    mode: Mode,
) -> Result<Diff, AllocError>
    requires limits { AreSound limits }
    requires tables_a { AreReady T.numbers T.limit limits tables_a }
    requires tables_b { AreReady T.numbers T.limit limits tables_b }
    requires accepted_a { AreAccepted limits mode (messages_of a.now) }
    requires accepted_b { AreAccepted limits mode (messages_of b.now) }
    ensures { IfOk result (IsDifferenceOn mode (messages_of a.now) (messages_of b.now)) }
{
    let mut text_a = Vec::new(alloc);
    let mut text_b = Vec::new(alloc);
    let verdict = compare_sessions(
        alloc,
        a,
        b,
        limits,
        tables_a,
        tables_b,
        mode,
        &mut text_a,
        &mut text_b,
    )?;
    match verdict {
        Verdict::Same(_) => Ok(Diff::Same),
        Verdict::Differ(record) => {
            let lines = lines_of(alloc, text_a.as_slice(), text_b.as_slice(), limits)?;
            Ok(Diff::Differ { record, lines })
        }
    }
}

/// Compares the messages of two recordings, as [`diff_all_with`](crate::diff_all_with) compares the
/// recordings. Reads nothing. Requires the same as [`diff_sessions`].
///
/// # Errors
///
/// - `AllocError`: an allocation failed.
pub fn diff_all_sessions<T: NameTable + Drop>(
    alloc: Global,
    a: &StoredSession,
    b: &StoredSession,
    limits: Limits,
    tables_a: Tables<T>,
    tables_b: Tables<T>,
    mode: Mode,
) -> Result<AllDifferences, AllocError>
    requires limits { AreSound limits }
    requires tables_a { AreReady T.numbers T.limit limits tables_a }
    requires tables_b { AreReady T.numbers T.limit limits tables_b }
    requires accepted_a { AreAccepted limits mode (messages_of a.now) }
    requires accepted_b { AreAccepted limits mode (messages_of b.now) }
    ensures { IfOk result (AreDifferencesOn mode (messages_of a.now) (messages_of b.now)) }
{
    diff_all_named_sessions(alloc, a, b, &[], limits, tables_a, tables_b, mode)
}

/// Compares the messages of two recordings as [`diff_all_sessions`] does, with joint names in the
/// place of the ids that rules declare.
///
/// Two values of one label at one place of a pair get one name, if neither has a name yet. The
/// place is the path, and in a string also the position among the tokens of the rule. Any other
/// value gets a name of its own.
///
/// A token or an array element that only one recording has moves the ones after it. So these can
/// get other names: if A has `0x20 0x30` and B has `0x21 0x99 0x31`, then `0x30` and `0x99` get one
/// name, and `0x31` gets a name of its own.
///
/// # Errors
///
/// - `AllocError`: an allocation failed, or a label has more than 2,147,483,647 joint names.
pub fn diff_all_named_sessions<T: NameTable + Drop>(
    alloc: Global,
    a: &StoredSession,
    b: &StoredSession,
    declarations: &[Declaration],
    limits: Limits,
    tables_a: Tables<T>,
    tables_b: Tables<T>,
    mode: Mode,
) -> Result<AllDifferences, AllocError>
    requires declared { are_declared (declarations_of declarations.now) ≡ true }
    requires limits { AreSound limits }
    requires tables_a { AreReady T.numbers T.limit limits tables_a }
    requires tables_b { AreReady T.numbers T.limit limits tables_b }
    requires accepted_a { AreAccepted limits mode (messages_of a.now) }
    requires accepted_b { AreAccepted limits mode (messages_of b.now) }
    ensures { IfOk result (AreDifferencesOn mode (messages_of a.now) (messages_of b.now)) }
{
    match diff_sessions(alloc, a, b, limits, tables_a, tables_b, mode)? {
        Diff::Same => return Ok(AllDifferences::Same),
        Diff::Differ { .. } => {}
    }
    let mut entries_a = entries_of(alloc, a, mode)?;
    let mut entries_b = entries_of(alloc, b, mode)?;
    let (records_a, records_b) = (entries_a.as_mut_slice(), entries_b.as_mut_slice());
    let lines = report_lines(alloc, records_a, records_b, declarations)?;
    Ok(AllDifferences::Differ { lines })
}
