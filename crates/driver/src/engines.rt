//! Calls the command functions of `dapnorm` from functions without contracts, which are cheap to
//! prove.
ghost use Rattle.std.specs.Prelude.{◌≡◌, IfOk, IsTrue};
ghost use Rattle.dap_rename.specs.IndexNames.{index_limit, index_numbers};
ghost use Rattle.dap_rename.specs.PlainNames.{plain_limit, plain_numbers};
ghost use Rattle.dapnorm.specs.Limits.{AreSound};
ghost use Rattle.dapnorm.specs.NameTables.{AreReady};
ghost use Rattle.driver.specs.Devices.{AreNew, AreUnwritten};

use crate::call::{Call, Function, Handed};
use crate::carrying::is_carried;
use crate::devices::Devices;
use dap_rename::{IndexNames, PlainNames, index_tables};
use dapnorm::{
    Answer, Checked, CompareRefused, Job, Limits, NameTable, Normalised, Printed, Refused, Tables,
    Verdict, Why, check, check_with, compact, compare, compare_with, diff_all_with, diff_with,
    normalise, normalise_bytes, normalise_with, record, run_compare, run_stream, run_stream_with,
    show,
};
use std::alloc::Global;
use std::hash::RandomState;

/// The result of a command function.
#[derive(Drop)]
pub enum Outcome {
    /// Nothing was called: the limits are not sound, or `run_stream` does not run the job.
    Refused,
    Written(Result<(), Refused>),
    Checked(Result<Checked, Refused>),
    Compared(Result<Verdict, CompareRefused>),
    /// Whether a renaming maps the first recording to the second, if they are the same.
    Carried(Result<Option<bool>, CompareRefused>),
    NormalText(Result<Normalised, Refused>),
    Same(Result<bool, Refused>),
    /// The exit status of the program.
    Status(u8),
}

/// Returns whether the command functions accept these limits.
pub fn are_sound(limits: Limits) -> bool
    ensures { IsTrue result → AreSound limits }
{
    limits.frame.sound() && limits.ids <= 2_147_483_647 && limits.input <= 1 << 62
}

fn compacted(alloc: Global, call: &Call<'_>, devices: &mut Devices<'_>) -> Result<(), Refused>
    requires limits { AreSound call.now.limits }
    requires new { AreNew devices.old }
{
    compact(alloc, &mut devices.a, &mut devices.output, call.limits)
}

fn recorded(alloc: Global, call: &Call<'_>, devices: &mut Devices<'_>) -> Result<(), Refused>
    requires limits { AreSound call.now.limits }
    requires new { AreNew devices.old }
{
    record(alloc, &mut devices.a, &mut devices.output, call.limits)
}

fn shown(alloc: Global, call: &Call<'_>, devices: &mut Devices<'_>) -> Result<(), Refused>
    requires limits { AreSound call.now.limits }
    requires new { AreNew devices.old }
{
    show(alloc, &mut devices.a, &mut devices.output, call.limits)
}

fn normalised(alloc: Global, call: &Call<'_>, devices: &mut Devices<'_>) -> Result<(), Refused>
    requires limits { AreSound call.now.limits }
    requires new { AreNew devices.old }
{
    normalise(
        alloc,
        &mut devices.a,
        &mut devices.output,
        call.limits,
        call.mode,
    )
}

fn normalised_with<T: NameTable + Drop>(
    alloc: Global,
    call: &Call<'_>,
    devices: &mut Devices<'_>,
    tables: Tables<T>,
) -> Result<(), Refused>
    requires limits { AreSound call.now.limits }
    requires new { AreNew devices.old }
    requires tables { AreReady T.numbers T.limit call.now.limits tables }
{
    normalise_with(
        alloc,
        &mut devices.a,
        &mut devices.output,
        call.limits,
        tables,
        call.mode,
    )
}

fn checked(alloc: Global, call: &Call<'_>, devices: &mut Devices<'_>) -> Result<Checked, Refused>
    requires limits { AreSound call.now.limits }
    requires new { AreNew devices.old }
{
    check(alloc, &mut devices.a, call.limits, call.complete, call.mode)
}

fn checked_with<T: NameTable + Drop>(
    alloc: Global,
    call: &Call<'_>,
    devices: &mut Devices<'_>,
    tables: Tables<T>,
) -> Result<Checked, Refused>
    requires limits { AreSound call.now.limits }
    requires new { AreNew devices.old }
    requires tables { AreReady T.numbers T.limit call.now.limits tables }
{
    check_with(
        alloc,
        &mut devices.a,
        call.limits,
        call.complete,
        tables,
        call.mode,
    )
}

fn compared(
    alloc: Global,
    call: &Call<'_>,
    devices: &mut Devices<'_>,
) -> Result<Verdict, CompareRefused>
    requires limits { AreSound call.now.limits }
    requires new { AreNew devices.old }
{
    compare(
        alloc,
        &mut devices.a,
        &mut devices.b,
        call.limits,
        call.mode,
    )
}

/// Returns whether the renaming of two recordings maps the first to the second. `None`: they
/// differ.
fn carried(
    alloc: Global,
    call: &Call<'_>,
    devices: &mut Devices<'_>,
) -> Result<Option<bool>, CompareRefused>
    requires limits { AreSound call.now.limits }
    requires new { AreNew devices.old }
{
    match compared(alloc, call, devices)? {
        Verdict::Same(renaming) => Ok(Some(is_carried(
            alloc,
            &renaming,
            call.a.text,
            call.b.text,
            call.limits.frame,
            call.mode,
        ))),
        Verdict::Differ(_) => Ok(None),
    }
}

fn compared_with<T: NameTable + Drop>(
    alloc: Global,
    call: &Call<'_>,
    devices: &mut Devices<'_>,
    tables_a: Tables<T>,
    tables_b: Tables<T>,
) -> Result<Verdict, CompareRefused>
    requires limits { AreSound call.now.limits }
    requires new { AreNew devices.old }
    requires tables_a { AreReady T.numbers T.limit call.now.limits tables_a }
    requires tables_b { AreReady T.numbers T.limit call.now.limits tables_b }
{
    compare_with(
        alloc,
        &mut devices.a,
        &mut devices.b,
        call.limits,
        tables_a,
        tables_b,
        call.mode,
    )
}

/// Returns whether the normal texts of both inputs are the same.
fn have_same_texts(alloc: Global, call: &Call<'_>) -> Result<bool, Refused>
    requires limits { AreSound call.now.limits }
{
    let text_a = normal_text(alloc, call.a.text, call)?;
    let text_b = normal_text(alloc, call.b.text, call)?;
    Ok(text_a.same(&text_b))
}

/// Returns the normal text of the bytes. Texts of the same mode can be compared.
fn normal_text(alloc: Global, bytes: &[u8], call: &Call<'_>) -> Result<Normalised, Refused>
    requires limits { AreSound call.now.limits }
    ensures mode { IfOk result (λ text. text.mode ≡ call.now.mode) }
{
    normalise_bytes(alloc, bytes, call.limits, call.mode)
}

fn streamed(alloc: Global, call: &Call<'_>, job: Job<'_>, devices: &mut Devices<'_>) -> Outcome
    requires limits { AreSound call.now.limits }
    requires new { AreNew devices.old }
{
    if matches!(job, Job::Compare { .. }) {
        return Outcome::Refused;
    }
    Outcome::Status(run_stream(
        alloc,
        &job,
        &mut devices.a,
        &mut devices.output,
        &mut devices.errors,
        call.limits,
    ))
}

fn streamed_with<T: NameTable + Drop>(
    alloc: Global,
    call: &Call<'_>,
    job: Job<'_>,
    devices: &mut Devices<'_>,
    tables: Tables<T>,
) -> Outcome
    requires limits { AreSound call.now.limits }
    requires new { AreNew devices.old }
    requires tables { AreReady T.numbers T.limit call.now.limits tables }
{
    if matches!(job, Job::Compare { .. }) {
        return Outcome::Refused;
    }
    Outcome::Status(run_stream_with(
        alloc,
        &job,
        &mut devices.a,
        &mut devices.output,
        &mut devices.errors,
        call.limits,
        tables,
    ))
}

fn pair_printed(
    alloc: Global,
    call: &Call<'_>,
    printed: Printed,
    devices: &mut Devices<'_>,
) -> Outcome
    requires limits { AreSound call.now.limits }
    requires new { AreNew devices.old }
{
    if printed == Printed::Verdict {
        return Outcome::Status(run_compare(
            alloc,
            &mut devices.a,
            &mut devices.b,
            &mut devices.output,
            &mut devices.errors,
            call.limits,
            call.mode,
        ));
    }
    let tables_a = index_tables(alloc, call.limits.ids);
    let tables_b = index_tables(alloc, call.limits.ids);
    pair_printed_with(alloc, call, printed, devices, tables_a, tables_b)
}

/// Compares two recordings by the engine of a command.
fn answered<'a, T: NameTable + Drop>(
    alloc: Global,
    call: &Call<'_>,
    printed: Printed,
    devices: &mut Devices<'_>,
    tables_a: Tables<T>,
    tables_b: Tables<T>,
) -> Result<Answer<'a>, CompareRefused>
    requires limits { AreSound call.now.limits }
    requires new { AreNew devices.old }
    requires tables_a { AreReady T.numbers T.limit call.now.limits tables_a }
    requires tables_b { AreReady T.numbers T.limit call.now.limits tables_b }
    ensures unused { AreUnwritten devices.old devices.new }
{
    let (a, b) = (&mut devices.a, &mut devices.b);
    let (limits, mode) = (call.limits, call.mode);
    match printed {
        Printed::Verdict => Ok(Answer::Verdict(
            mode,
            compare_with(alloc, a, b, limits, tables_a, tables_b, mode)?,
        )),
        Printed::FirstDifference => Ok(Answer::Difference(diff_with(
            alloc, a, b, limits, tables_a, tables_b, mode,
        )?)),
        Printed::AllDifferences => Ok(Answer::Differences(diff_all_with(
            alloc, a, b, limits, tables_a, tables_b, mode,
        )?)),
    }
}

fn pair_printed_with<T: NameTable + Drop>(
    alloc: Global,
    call: &Call<'_>,
    printed: Printed,
    devices: &mut Devices<'_>,
    tables_a: Tables<T>,
    tables_b: Tables<T>,
) -> Outcome
    requires limits { AreSound call.now.limits }
    requires new { AreNew devices.old }
    requires tables_a { AreReady T.numbers T.limit call.now.limits tables_a }
    requires tables_b { AreReady T.numbers T.limit call.now.limits tables_b }
{
    let outcome = answered(alloc, call, printed, devices, tables_a, tables_b);
    Outcome::Status(match outcome {
        Ok(answer) => answer.print(&mut devices.output, &mut devices.errors),
        Err(refused) => Why::Pair(refused).report(&mut devices.errors),
    })
}

/// Calls a command function that creates its own name tables.
fn outcome_own(alloc: Global, call: &Call<'_>, devices: &mut Devices<'_>) -> Outcome
    requires limits { AreSound call.now.limits }
    requires new { AreNew devices.old }
{
    match call.function {
        Function::Normalise => Outcome::Written(normalised(alloc, call, devices)),
        Function::Check => Outcome::Checked(checked(alloc, call, devices)),
        Function::Compare => Outcome::Compared(compared(alloc, call, devices)),
        Function::Carries => Outcome::Carried(carried(alloc, call, devices)),
        Function::RunStream(job) => streamed(alloc, call, job, devices),
        Function::RunPair(printed) => pair_printed(alloc, call, printed, devices),
        _ => Outcome::Refused,
    }
}

/// Calls a command function with these name tables.
fn outcome_with<T: NameTable + Drop>(
    alloc: Global,
    call: &Call<'_>,
    devices: &mut Devices<'_>,
    tables_a: Tables<T>,
    tables_b: Tables<T>,
) -> Outcome
    requires limits { AreSound call.now.limits }
    requires new { AreNew devices.old }
    requires tables_a { AreReady T.numbers T.limit call.now.limits tables_a }
    requires tables_b { AreReady T.numbers T.limit call.now.limits tables_b }
{
    match call.function {
        Function::Normalise => Outcome::Written(normalised_with(alloc, call, devices, tables_a)),
        Function::Check => Outcome::Checked(checked_with(alloc, call, devices, tables_a)),
        Function::Compare => Outcome::Compared(compared_with(
            alloc, call, devices, tables_a, tables_b,
        )),
        Function::RunStream(job) => streamed_with(alloc, call, job, devices, tables_a),
        Function::RunPair(printed) => {
            pair_printed_with(alloc, call, printed, devices, tables_a, tables_b)
        }
        _ => Outcome::Refused,
    }
}

/// Returns tables that search an id linearly.
fn plain(alloc: Global, limits: Limits) -> Tables<PlainNames>
    requires { AreSound limits }
    ensures { AreReady plain_numbers plain_limit limits result }
{
    Tables::plain(alloc, limits.ids)
}

/// Returns tables that search an id by its hash.
fn indexed(alloc: Global, limits: Limits, hasher: RandomState) -> Tables<IndexNames<RandomState>>
    requires { AreSound limits }
    ensures { AreReady index_numbers index_limit limits result }
{
    IndexNames::tables(alloc, limits.ids, hasher)
}

/// Calls the function of a call.
pub fn outcome_of(
    alloc: Global,
    call: &Call<'_>,
    devices: &mut Devices<'_>,
    hasher: RandomState,
) -> Outcome
    requires limits { AreSound call.now.limits }
    requires new { AreNew devices.old }
{
    let limits = call.limits;
    match (call.function, call.handed) {
        (Function::Compact, _) => Outcome::Written(compacted(alloc, call, devices)),
        (Function::Record, _) => Outcome::Written(recorded(alloc, call, devices)),
        (Function::Show, _) => Outcome::Written(shown(alloc, call, devices)),
        (Function::NormalText, _) => Outcome::NormalText(normal_text(alloc, call.a.text, call)),
        (Function::SameTexts, _) => Outcome::Same(have_same_texts(alloc, call)),
        (_, Handed::Own) => outcome_own(alloc, call, devices),
        (_, Handed::Plain) => {
            let (tables_a, tables_b) = (plain(alloc, limits), plain(alloc, limits));
            outcome_with(alloc, call, devices, tables_a, tables_b)
        }
        (_, Handed::Indexed) => {
            let tables_a = indexed(alloc, limits, hasher);
            let tables_b = indexed(alloc, limits, hasher);
            outcome_with(alloc, call, devices, tables_a, tables_b)
        }
    }
}
