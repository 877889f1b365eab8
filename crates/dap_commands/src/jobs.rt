//! Reads the arguments of a command line without files.
ghost use Rattle.std.specs.Prelude.{[], ◌≡◌, IfOk, IfErr, Some, is_some, true, option_map};
ghost use Rattle.clap.specs.Walk.{texts};
ghost use Rattle.clap.specs.Words.{fault_of as faults_of, takes};
ghost use Rattle.dap_commands.specs.CommandLine.{job_named, job_of, job_spec, program};
ghost use Rattle.dap_commands.specs.{LeadingArguments.FirstDecides, Reading.IsUsageErrorFor};
ghost use Rattle.dap_commands.specs.declared.commands.UsageFault.TheVariants.{Memory};

use crate::arguments::{Argument, Kind, Program, Subcommand, define_program};
use crate::commands::{Command, Job, Task, UsageFault};
use crate::reading::{no_subcommand, request};
use dap_rename::Mode;
use std::alloc::Global;

/// The flag `--per-stop` of a subcommand that renumbers ids.
const PER_STOP: Argument = Argument(
    "per-stop",
    Kind::Flag,
    "Counts frame ids and references anew behind each `stopped` event, for an adapter that begins them again there",
);

/// The program without files.
const PROGRAM: Program = define_program! {
    "Records and normalises sessions of the Debug Adapter Protocol";
    "compact"(): "Makes the contents of frames canonical, from standard input to standard output",
        "< session.frames > session.compact";
    "record"(): "Makes a recording of a trace, from standard input to standard output",
        "< session.trace > session.rec";
    "normalise"(PER_STOP):
        "Writes the normal form of a recording, from standard input to standard output",
        "< session.rec > session.golden";
    "check"(
        Argument("complete", Kind::Flag,
            "Refuses a recording in which some request has no response"),
        PER_STOP
    ): "Judges a recording from standard input", "--complete < session.rec";
    "show"(): "Prints a recording in lines, from standard input to standard output",
        "< session.rec";
    "compare"(
        Argument("A", Kind::File, "The file of a recording"),
        Argument("B", Kind::File, "The file of another"),
        PER_STOP
    ): "Tells how the recordings of two files are the same, or where they differ",
        "session.golden session.rec";
};

/// Returns the job of a command, whatever files and output the command has.
fn job_of<'a>(command: &Command<'a>) -> Option<Job<'a>>
    ensures { option_map job_spec result ≡ job_of command.now }
{
    Some(match command {
        Command::Stream { task, .. } => match task {
            Task::Compact => Job::Compact,
            Task::Record => Job::Record,
            Task::Normalise(mode) => Job::Normalise {
                per_stop: *mode == Mode::PerStop,
            },
            Task::Show(_) => Job::Show,
            _ => return None,
        },
        Command::Check { complete, mode, .. } => Job::Check {
            complete: *complete,
            per_stop: *mode == Mode::PerStop,
        },
        Command::Pair { a, b, mode, .. } => Job::Compare {
            a: a.as_str(),
            b: b.as_str(),
            per_stop: *mode == Mode::PerStop,
        },
        _ => return None,
    })
}

/// Reads the arguments of a command line without files. The first one is the program's name.
///
/// # Errors
///
/// The same as those of [`command`](crate::command).
pub fn job<'a>(alloc: Global, words: &'a [&'a str]) -> Result<Job<'a>, UsageFault>
    // The promises of `command`, for the definition without files and the jobs of its commands.
    ensures ok { IfOk result (λ j. job_named program (texts words.entry.now) ≡ Some (job_spec j)) }
    ensures taken { IfOk result (λ _. faults_of program (texts words.entry.now) ≡ []) }
    ensures err { IfErr result (λ fault. takes program (texts words.entry.now) ≡ true
        → is_some (job_named program (texts words.entry.now)) ≡ true → fault ≡ Memory) }
    ensures reported { IfErr result (IsUsageErrorFor (faults_of program (texts words.entry.now))) }
    ensures first { IfErr result (λ fault. FirstDecides program (texts words.entry.now)
        (λ kinds. IsUsageErrorFor kinds fault)) }
{
    match job_of(&request(alloc, &PROGRAM, words)?.command) {
        Some(job) => Ok(job),
        None => Err(no_subcommand(alloc)),
    }
}
