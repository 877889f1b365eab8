//! Compares two recordings: readers, or the files that names lead to.
ghost use Rattle.std.specs.Prelude.{◌≡◌, ◌+◌, ◌≤◌, true};
ghost use Rattle.dap_commands.specs.Reading.{text_in};
ghost use Rattle.dap_compare.specs.Sessions.{AreAccepted};
ghost use Rattle.dap_host.specs.declared.limits.TheConstants.{LIMITS};
ghost use Rattle.dap_input.specs.Limits.{AreSound};
ghost use Rattle.dap_mask.specs.Declarations.{declarations_of, are_declared};
ghost use Rattle.dap_normalise.specs.NameTables.{AreReady};
ghost use Rattle.dap_stored.specs.Sessions.{messages_of};
ghost use Rattle.dapnorm.specs.Comparisons.{Finds, FindsByRules, FindsOn, PairIsRun};
ghost use Rattle.dapnorm.specs.Comparisons.{are_both_standard};
ghost use Rattle.dapnorm.specs.{Desks.{TakesAtMost, empty, here}, Pairs.CompareIsReported};
ghost use Rattle.dap_device.specs.Devices.{CanRead, CanWrite, reads, writes};

use crate::answer::Answer;
use crate::desk::Desk;
use crate::line::{Part, fault, report_line};
use crate::reading::Unread;
use crate::reporting::refusal_status;
use crate::rules::given_rules;
use crate::why::{Mistake, Why};
use dap_commands::{Name, Printed};
use dap_compare::{CompareRefused, Which, compare_sessions, compare_with};
use dap_device::{Sink, Source};
use dap_diff::{diff_all_named_sessions, diff_all_with, diff_sessions, diff_with};
use dap_host::{Host, LIMITS, Purpose, is_standard};
use dap_input::Limits;
use dap_mask::{Declaration, MaskRules};
use dap_rename::{Mode, NameTable, Tables, index_tables};
use dap_rules::{mode_by, read_session_by_rules};
use dap_stored::StoredSession;
use std::alloc::Global;

/// Compares two recordings, and returns the status of the program. An error is reported on
/// `errors`, in one line.
///
/// If the recordings are the same, writes `same` to `writer`, and then a line for each pair of ids,
/// `W FROM TO`. W is `client-seq`, `adapter-seq`, `frame`, `reference`, `thread` or `breakpoint`.
/// With [`Mode::PerStop`] it is `frame@K` or `reference@K` instead of `frame` and `reference`, for
/// the ids after K stops. Otherwise writes `differ K`, with the number of the first record that
/// differs.
///
/// The status is 0 if the recordings are the same, 1 if they differ, 2 if an input is rejected, 4
/// if a reader or a writer failed, and 5 if an allocation failed.
pub fn run_compare<A: Source, B: Source, W: Sink, E: Sink>(
    alloc: Global,
    reader_a: &mut A,
    reader_b: &mut B,
    writer: &mut W,
    errors: &mut E,
    limits: Limits,
    mode: Mode,
) -> u8
    requires limits { AreSound limits }
    requires readers { CanRead A.Source reader_a.old × CanRead B.Source reader_b.old }
    requires writers { CanWrite W.Sink writer.old × CanWrite E.Sink errors.old }

    // The output is the lines of the verdict, flushed. A rejected input or a failed writer is
    // reported, and the status is that of the verdict or of the error.
    ensures reported { CompareIsReported limits mode (reads A.Source reader_a.old reader_a.new)
        (reads B.Source reader_b.old reader_b.new) (writes W.Sink writer.old writer.new)
        (writes E.Sink errors.old errors.new) result }

    // It reads at most one byte past the limit of each.
    ensures taken_a { A.given reader_a.new ≤ A.given reader_a.old + limits.input + 1 }
    ensures taken_b { B.given reader_b.new ≤ B.given reader_b.old + limits.input + 1 }
{
    let tables_a = index_tables(alloc, limits.ids);
    let tables_b = index_tables(alloc, limits.ids);
    run_compare_with(
        alloc, reader_a, reader_b, writer, errors, limits, tables_a, tables_b, mode,
    )
}

/// Does the same as [`run_compare`], with these tables for the ids of A and of B. They must be
/// empty, each with the limit `limits.ids`.
pub fn run_compare_with<A: Source, B: Source, W: Sink, E: Sink, T: NameTable + Drop>(
    alloc: Global,
    reader_a: &mut A,
    reader_b: &mut B,
    writer: &mut W,
    errors: &mut E,
    limits: Limits,
    tables_a: Tables<T>,
    tables_b: Tables<T>,
    mode: Mode,
) -> u8
    requires limits { AreSound limits }
    requires tables_a { AreReady T.numbers T.limit limits tables_a }
    requires tables_b { AreReady T.numbers T.limit limits tables_b }
    requires readers { CanRead A.Source reader_a.old × CanRead B.Source reader_b.old }
    requires writers { CanWrite W.Sink writer.old × CanWrite E.Sink errors.old }

    // The guarantees of `run_compare`, for any tables.
    ensures reported { CompareIsReported limits mode (reads A.Source reader_a.old reader_a.new)
        (reads B.Source reader_b.old reader_b.new) (writes W.Sink writer.old writer.new)
        (writes E.Sink errors.old errors.new) result }
    ensures taken_a { A.given reader_a.new ≤ A.given reader_a.old + limits.input + 1 }
    ensures taken_b { B.given reader_b.new ≤ B.given reader_b.old + limits.input + 1 }
{
    match compare_with(alloc, reader_a, reader_b, limits, tables_a, tables_b, mode) {
        Ok(verdict) => Answer::Verdict(mode, verdict).print(writer, errors),
        Err(refused) => {
            report_line(errors, fault(Part::Pair(refused)));
            refusal_status(refused)
        }
    }
}

/// Compares two recordings, and returns what the command finds. The tables must be empty, each with
/// the limit of ids of the program.
fn found<'a, A: Source, B: Source, T: NameTable + Drop>(
    alloc: Global,
    printed: Printed,
    mode: Mode,
    reader_a: &mut A,
    reader_b: &mut B,
    tables_a: Tables<T>,
    tables_b: Tables<T>,
) -> Result<Option<Answer<'a>>, Why<'a>>
    requires tables_a { AreReady T.numbers T.limit LIMITS tables_a }
    requires tables_b { AreReady T.numbers T.limit LIMITS tables_b }
    requires readers { CanRead A.Source reader_a.old × CanRead B.Source reader_b.old }
    ensures finds { Finds A.Source B.Source mode reader_a.old reader_a.new reader_b.old reader_b.new
        printed result }
    ensures taken_a { A.given reader_a.new ≤ A.given reader_a.old + LIMITS.input + 1 }
    ensures taken_b { B.given reader_b.new ≤ B.given reader_b.old + LIMITS.input + 1 }
{
    match printed {
        Printed::Verdict => {
            match compare_with(alloc, reader_a, reader_b, LIMITS, tables_a, tables_b, mode) {
                Ok(verdict) => Ok(Some(Answer::Verdict(mode, verdict))),
                Err(refused) => Err(Why::Pair(refused)),
            }
        }
        Printed::FirstDifference => {
            match diff_with(alloc, reader_a, reader_b, LIMITS, tables_a, tables_b, mode) {
                Ok(diff) => Ok(Some(Answer::Difference(diff))),
                Err(refused) => Err(Why::Pair(refused)),
            }
        }
        Printed::AllDifferences => {
            match diff_all_with(alloc, reader_a, reader_b, LIMITS, tables_a, tables_b, mode) {
                Ok(all) => Ok(Some(Answer::Differences(all))),
                Err(refused) => Err(Why::Pair(refused)),
            }
        }
    }
}

/// Compares what rules make of two recordings. A is read before B.
fn found_by_rules<'a, H: Host>(
    alloc: Global,
    host: &H,
    printed: Printed,
    mode: Mode,
    rules: MaskRules,
    reader_a: &mut H::Input,
    reader_b: &mut H::Input,
) -> Result<Option<Answer<'a>>, Why<'a>>
    requires readers { CanRead H.Input.Source reader_a.old × CanRead H.Input.Source reader_b.old }
    ensures finds { FindsByRules H.Input.Source printed mode rules reader_a.old reader_a.new
        reader_b.old reader_b.new result }
    ensures taken_a { H.Input.given reader_a.new ≤ H.Input.given reader_a.old + LIMITS.input + 1 }
    ensures taken_b { H.Input.given reader_b.new ≤ H.Input.given reader_b.old + LIMITS.input + 1 }
{
    let used = mode_by(&rules, mode);
    let session_a = match read_session_by_rules(alloc, &rules, reader_a, LIMITS, used) {
        Ok(session) => session,
        Err(refused) => return Err(Why::Unapplied(Some(Which::A), refused, rules)),
    };
    let session_b = match read_session_by_rules(alloc, &rules, reader_b, LIMITS, used) {
        Ok(session) => session,
        Err(refused) => return Err(Why::Unapplied(Some(Which::B), refused, rules)),
    };
    let (tables_a, tables_b) = (host.tables(alloc), host.tables(alloc));
    let declared = rules.declared();
    found_on(
        alloc, printed, used, &session_a, &session_b, tables_a, tables_b, declared,
    )
}

/// Compares the messages of two accepted recordings, and returns what the command finds. All
/// differences have joint names in the place of the ids that rules declare. The tables must be
/// empty, each with the limit of ids of the program.
fn found_on<'a, T: NameTable + Drop>(
    alloc: Global,
    printed: Printed,
    mode: Mode,
    a: &StoredSession,
    b: &StoredSession,
    tables_a: Tables<T>,
    tables_b: Tables<T>,
    declarations: &[Declaration],
) -> Result<Option<Answer<'a>>, Why<'a>>
    requires tables_a { AreReady T.numbers T.limit LIMITS tables_a }
    requires tables_b { AreReady T.numbers T.limit LIMITS tables_b }
    requires accepted_a { AreAccepted LIMITS mode (messages_of a.now) }
    requires accepted_b { AreAccepted LIMITS mode (messages_of b.now) }
    requires declared { are_declared (declarations_of declarations.now) ≡ true }
    ensures { FindsOn mode (messages_of a.now) (messages_of b.now) printed result }
{
    match printed {
        Printed::Verdict => {
            let mut text_a = Vec::new(alloc);
            let mut text_b = Vec::new(alloc);
            match compare_sessions(
                alloc,
                a,
                b,
                LIMITS,
                tables_a,
                tables_b,
                mode,
                &mut text_a,
                &mut text_b,
            ) {
                Ok(verdict) => Ok(Some(Answer::Verdict(mode, verdict))),
                Err(_) => Err(Why::Pair(CompareRefused::Memory)),
            }
        }
        Printed::FirstDifference => {
            match diff_sessions(alloc, a, b, LIMITS, tables_a, tables_b, mode) {
                Ok(diff) => Ok(Some(Answer::Difference(diff))),
                Err(_) => Err(Why::Pair(CompareRefused::Memory)),
            }
        }
        Printed::AllDifferences => {
            match diff_all_named_sessions(
                alloc,
                a,
                b,
                declarations,
                LIMITS,
                tables_a,
                tables_b,
                mode,
            ) {
                Ok(all) => Ok(Some(Answer::Differences(all))),
                Err(_) => Err(Why::Pair(CompareRefused::Memory)),
            }
        }
    }
}

/// Returns whether both inputs are standard input.
pub(crate) fn are_both_standard(a: &str, b: &str) -> bool
    ensures { result ≡ are_both_standard a.now b.now }
{
    is_standard(a) && is_standard(b)
}

/// Compares the recordings that two names lead to, or what rules make of them. The rules are read
/// first. Then A is opened, and then B.
pub(crate) fn run_pair<'a, H: Host>(
    alloc: Global,
    host: &H,
    printed: Printed,
    mode: Mode,
    a: &str,
    b: &str,
    rules: Option<&str>,
    values: &[Name<'_>],
    desk: &mut Desk<H::Input, H::Output, H::Target>,
) -> Result<Option<Answer<'a>>, Why<'a>>
    requires { desk.old ≡ empty }
    ensures run { PairIsRun (here (H.files host.now) H.Input.Source H.Output.Sink
        H.Target.Replaceable) printed mode a.now b.now desk.new (text_in rules.entry) values.now
        result }
    ensures taken_a { TakesAtMost H.Input.given (LIMITS.input + 1) desk.new.a }
    ensures taken_b { TakesAtMost H.Input.given (LIMITS.input + 1) desk.new.b }
{
    let rules = match given_rules(alloc, host, rules, values) {
        Ok(rules) => rules,
        Err(why) => return Err(Why::Rules(why)),
    };
    if are_both_standard(a, b) {
        return Err(Why::Mistake(Mistake::TwoStandard));
    }
    let input_a = match host.open(Purpose::Input, a) {
        Ok(input) => input,
        Err(fault) => return Err(Why::Unread(Some(Which::A), Unread::Unopened(fault))),
    };
    let reader_a = desk.a.insert(input_a);
    let input_b = match host.open(Purpose::Input, b) {
        Ok(input) => input,
        Err(fault) => return Err(Why::Unread(Some(Which::B), Unread::Unopened(fault))),
    };
    let reader_b = desk.b.insert(input_b);
    if let Some(rules) = rules {
        return found_by_rules(alloc, host, printed, mode, rules, reader_a, reader_b);
    }
    let (tables_a, tables_b) = (host.tables(alloc), host.tables(alloc));
    found(alloc, printed, mode, reader_a, reader_b, tables_a, tables_b)
}
