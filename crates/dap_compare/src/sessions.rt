//! Compares the messages of two recordings that were read before.
ghost use Rattle.std.specs.Prelude.{◌≡◌, ◌<◌, ◌^◌, List, [], IfOk, take};
ghost use Rattle.dap_message.specs.Message.{Sent};
ghost use Rattle.dap_stored.specs.Sessions.{messages_of};
ghost use Rattle.dap_input.specs.Limits.{AreSound};
ghost use Rattle.dap_normalise.specs.JudgingSteps.{RepresentsMessages, judge_limits, judge_mode};
ghost use Rattle.dap_normalise.specs.NameTables.{AreReady};
ghost use Rattle.dap_compare.specs.Sessions.{AreAccepted, HasText, IsVerdictOn};
ghost use Rattle.dap_compare.specs.SessionSteps.{AppendsNext, RepresentsFirst};

use crate::verdict::Verdict;
use dap_input::{Limits, Refused};
use dap_normalise::Judge;
use dap_rename::{Mode, NameTable, Renaming, Tables};
use dap_stored::StoredSession;
use std::alloc::{AllocError, Global};

/// Compares the messages of two recordings, as [`compare_with`](crate::compare_with) compares the
/// recordings. Returns the renaming of the ids of A to those of B, or the first record that
/// differs. Reads nothing.
///
/// Some recording with the messages of A and some recording with those of B must be accepted in
/// this mode. The interning tables for the ids of A and of B must be empty, each with the limit
/// `limits.ids`. Records are counted from 1.
///
/// If the result is `Differ`, `text_a` is the record of A's normal form and `text_b` that of B's.
/// It is empty if that session has fewer messages. For every other result, the contents of both are
/// unspecified.
///
/// # Errors
///
/// - `AllocError`: an allocation failed.
pub fn compare_sessions<T: NameTable + Drop>(
    alloc: Global,
    a: &StoredSession,
    b: &StoredSession,
    limits: Limits,
    tables_a: Tables<T>,
    tables_b: Tables<T>,
    mode: Mode,
    text_a: &mut Vec<u8>,
    text_b: &mut Vec<u8>,
) -> Result<Verdict, AllocError>
    requires limits { AreSound limits }
    requires tables_a { AreReady T.numbers T.limit limits tables_a }
    requires tables_b { AreReady T.numbers T.limit limits tables_b }
    requires accepted_a { AreAccepted limits mode (messages_of a.now) }
    requires accepted_b { AreAccepted limits mode (messages_of b.now) }

    // The result is the verdict on the two lists of messages.
    ensures verdict { IfOk result (IsVerdictOn mode (messages_of a.now) (messages_of b.now)) }

    // If the result is a difference, the records that differ are stored.
    ensures text_a { IfOk result
        (λ verdict. HasText mode (messages_of a.now) verdict text_a.new.items) }
    ensures text_b { IfOk result
        (λ verdict. HasText mode (messages_of b.now) verdict text_b.new.items) }
{
    let mut judge_a = Judge::new(alloc, limits, tables_a, mode);
    let mut judge_b = Judge::new(alloc, limits, tables_b, mode);
    compare_judged(alloc, &mut judge_a, &mut judge_b, a, b, text_a, text_b)
}

/// Compares the messages of two recordings, which two judges check that have checked nothing.
fn compare_judged<T: NameTable + Drop>(
    alloc: Global,
    judge_a: &mut Judge<T>,
    judge_b: &mut Judge<T>,
    a: &StoredSession,
    b: &StoredSession,
    text_a: &mut Vec<u8>,
    text_b: &mut Vec<u8>,
) -> Result<Verdict, AllocError>
    requires limits { AreSound (judge_limits judge_a.old) }
    requires new_a { RepresentsMessages T.numbers T.limit judge_a.old [] [] }
    requires new_b { RepresentsMessages T.numbers T.limit judge_b.old [] [] }
    requires same_limits { judge_limits judge_b.old ≡ judge_limits judge_a.old }
    requires same_mode { judge_mode judge_b.old ≡ judge_mode judge_a.old }
    requires accepted_a { AreAccepted (judge_limits judge_a.old) (judge_mode judge_a.old)
        (messages_of a.now) }
    requires accepted_b { AreAccepted (judge_limits judge_a.old) (judge_mode judge_a.old)
        (messages_of b.now) }
    ensures verdict { IfOk result
        (IsVerdictOn (judge_mode judge_a.old) (messages_of a.now) (messages_of b.now)) }
    ensures text_a { IfOk result (λ verdict. HasText (judge_mode judge_a.old) (messages_of a.now)
        verdict text_a.new.items) }
    ensures text_b { IfOk result (λ verdict. HasText (judge_mode judge_a.old) (messages_of b.now)
        verdict text_b.new.items) }
{
    let mut place = 0;
    'records: loop {
        text_a.clear();
        text_b.clear();
        let some_a = append_next(alloc, judge_a, a, place, text_a)?;
        append_next(alloc, judge_b, b, place, text_b)?;
        // The text of a session that has ended is empty, and no record is.
        if text_a.as_slice() != text_b.as_slice() {
            return Ok(Verdict::Differ(place as u64 + 1));
        }
        if !some_a {
            let Ok(renaming) = Renaming::between(alloc, judge_a.names(), judge_b.names()) else {
                return Err(AllocError);
            };
            return Ok(Verdict::Same(renaming));
        }
        place += 1;
    }
}

/// Checks the message at this place, and appends the record of its normal form to `text`. Returns
/// `false` if there is no message at this place.
///
/// # Errors
///
/// - `AllocError`: an allocation failed.
fn append_next<T: NameTable + Drop>(
    alloc: Global,
    judge: &mut Judge<T>,
    session: &StoredSession,
    place: usize,
    text: &mut Vec<u8>,
) -> Result<bool, AllocError>
    requires place { place < 2 ^ 63 }
    requires represents { RepresentsFirst T.numbers T.limit (messages_of session.now) place
        judge.old }
    requires accepted { AreAccepted (judge_limits judge.old) (judge_mode judge.old)
        (messages_of session.now) }
    ensures next { (normal : List Sent) → RepresentsMessages T.numbers T.limit judge.old
        (take place (messages_of session.now)) normal
        → IfOk result (AppendsNext T.numbers T.limit (messages_of session.now) place normal
        judge.old judge.new text.old.items text.new.items) }
    ensures limits { judge_limits judge.new ≡ judge_limits judge.old }
    ensures mode { judge_mode judge.new ≡ judge_mode judge.old }
{
    let Some(message) = session.message(place) else {
        return Ok(false);
    };
    let number = place as u64 + 1;
    match judge.judge_message(alloc, number, message, text) {
        Ok(()) => Ok(true),
        Err(refused) => match refused {
            Refused::Memory => Err(AllocError),
            _ => unreachable!(),
        },
    }
}
