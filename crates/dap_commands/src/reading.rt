//! Reads the arguments of the program's command line with `clap`.
ghost use Rattle.std.specs.Prelude.{[], ◌≡◌, IfOk, IfErr, Some, is_some, true};
ghost use Rattle.clap.specs.Walk.{texts};
ghost use Rattle.clap.specs.Words.{HasKind, Kinds, fault_of as faults_of, first_of};
ghost use Rattle.clap.specs.Words.{is_simple_and_free, takes, kind_of};
ghost use Rattle.dap_commands.specs.Arguments.{app_for};
ghost use Rattle.dap_commands.specs.Commands.{IsRead, command_named, command_of, explain_named};
ghost use Rattle.dap_commands.specs.Commands.{is_explained, pair_of, program, words_named};
ghost use Rattle.dap_commands.specs.{Commands.words_of, LeadingArguments.FirstDecides};
ghost use Rattle.dap_commands.specs.Reading.{IsUsageErrorFor, given, has_flag, required};
ghost use Rattle.dap_commands.specs.declared.commands.UsageFault.TheVariants.{Memory};

use crate::arguments::{Program, clap_program};
use crate::commands::{Command, Golden, Name, Printed, Request, UsageFault, mode_for, task_by};
use crate::definition::PROGRAM;
use clap::error::ErrorKind;
use clap::{ArgMatches, Error};
use std::alloc::{AllocError, Global};

/// Returns the name that is the value of an argument, if it has one.
pub(crate) fn name_of<'a>(rows: &ArgMatches<'a>, id: &str) -> Option<Name<'a>>
    ensures { result ≡ first_of id.now (given rows.now) }
{
    Some(Name::new(rows.get_str(id)?))
}

/// Returns the name that is the value of a required argument.
pub(crate) fn required<'a>(rows: &ArgMatches<'a>, id: &str) -> Name<'a>
    ensures { result ≡ required id.now (given rows.now) }
{
    name_of(rows, id).unwrap_or(Name::new(""))
}

/// Returns whether a flag was given.
pub(crate) fn has_flag(rows: &ArgMatches<'_>, id: &str) -> bool
    ensures { result ≡ has_flag id.now (given rows.now) }
{
    name_of(rows, id).is_some_and(|value| value.as_str() == "true")
}

/// Returns the command of `compare` or `diff`.
fn pair<'a>(rows: &ArgMatches<'a>, printed: Printed) -> Command<'a>
    ensures { result ≡ pair_of printed (given rows.now) }
{
    Command::Pair {
        printed,
        a: required(rows, "A"),
        b: required(rows, "B"),
        rules: name_of(rows, "rules"),
        mode: mode_for(has_flag(rows, "per-stop")),
    }
}

/// Returns the command of a subcommand with its arguments.
fn command_by<'a>(name: &str, rows: &ArgMatches<'a>) -> Option<Command<'a>>
    ensures { result ≡ command_of name.now (given rows.now) }
{
    if let Some(task) = task_by(name, rows) {
        return Some(Command::Stream {
            task,
            input: name_of(rows, "FILE"),
            output: name_of(rows, "output"),
        });
    }
    Some(match name {
        "golden" => Command::Golden(Golden {
            golden: required(rows, "GOLDEN"),
            input: name_of(rows, "INPUT"),
            rules: name_of(rows, "rules"),
            mode: mode_for(has_flag(rows, "per-stop")),
            open: has_flag(rows, "open"),
            update: has_flag(rows, "update"),
        }),
        "check" => Command::Check {
            complete: has_flag(rows, "complete"),
            mode: mode_for(has_flag(rows, "per-stop")),
            input: name_of(rows, "FILE"),
            rules: name_of(rows, "rules"),
        },
        "compare" => pair(rows, Printed::Verdict),
        "diff" if has_flag(rows, "all") => pair(rows, Printed::AllDifferences),
        "diff" => pair(rows, Printed::FirstDifference),
        "suggest" => Command::Suggest {
            strict: has_flag(rows, "strict"),
            a: required(rows, "A"),
            b: required(rows, "B"),
            rules: name_of(rows, "rules"),
        },
        "rows" => Command::Rows {
            number: name_of(rows, "N"),
        },
        _ => return None,
    })
}

/// Returns whether errors of a subcommand are explained.
fn explains(name: &str, rows: &ArgMatches<'_>) -> bool
    ensures { result ≡ is_explained name.now (given rows.now) }
{
    name == "golden" || name == "order" || has_flag(rows, "explain")
}

/// Returns the values of the option `--word`, in the order of the arguments.
fn words_of<'a>(alloc: Global, rows: &ArgMatches<'a>) -> Result<Vec<Name<'a>>, AllocError>
    ensures { IfOk result (λ words. words.items ≡ words_of (given rows.now)) }
{
    let mut words = Vec::new(alloc);
    let Some(texts) = rows.get_strs("word") else {
        return Ok(words);
    };
    for text in texts {
        words.push(Name::new(text))?;
    }
    Ok(words)
}

/// Returns the `UsageFault` for arguments that the parser accepts and that select nothing. No such
/// arguments are known.
pub(crate) fn no_subcommand(alloc: Global) -> UsageFault
    ensures { (kinds : Kinds) → kinds ≡ [] → IsUsageErrorFor kinds result }
{
    String::from_str(alloc, "error: no subcommand was given\n").map_or(
        UsageFault::Memory,
        UsageFault::Usage,
    )
}

/// Returns the message for the user: the requested help or version, or the usage error.
fn fault_of(alloc: Global, error: &Error) -> UsageFault
    ensures memory { kind_of error.now ≡ ErrorKind.OutOfMemory → result ≡ Memory }
    ensures reported { (kinds : Kinds) → HasKind kinds error.now → IsUsageErrorFor kinds result }
{
    let Ok(text) = format!(in alloc; "{error}") else {
        return UsageFault::Memory;
    };
    match error.kind() {
        ErrorKind::OutOfMemory => UsageFault::Memory,
        ErrorKind::DisplayHelp | ErrorKind::DisplayVersion => UsageFault::Help(text),
        _ => UsageFault::Usage(text),
    }
}

/// Reads the arguments of a command line with this definition.
pub(crate) fn request<'a>(
    alloc: Global,
    program: &Program<'a>,
    words: &'a [&'a str],
) -> Result<Request<'a>, UsageFault>
    requires { is_simple_and_free (app_for program.now) ≡ true }
    ensures { IsRead (app_for program.now) (texts words.entry.now) result }
{
    let Ok(command) = clap_program(alloc, program) else {
        return Err(UsageFault::Memory);
    };
    let matches = match command.try_get_matches_from(words) {
        Ok(matches) => matches,
        Err(error) => return Err(fault_of(alloc, &error)),
    };
    let Some((name, rows)) = matches.subcommand() else {
        return Err(no_subcommand(alloc));
    };
    let Some(command) = command_by(name, rows) else {
        return Err(no_subcommand(alloc));
    };
    let Ok(words) = words_of(alloc, rows) else {
        return Err(UsageFault::Memory);
    };
    Ok(Request {
        command,
        words,
        explain: explains(name, rows),
    })
}

/// Reads the arguments of a command line. The first one is the program's name.
///
/// # Errors
///
/// - `Help`: help or the version is requested. Contains the text to print.
/// - `Usage`: the arguments are invalid. Contains the message of `clap`.
/// - `Memory`: an allocation failed.
pub fn command<'a>(alloc: Global, words: &'a [&'a str]) -> Result<Request<'a>, UsageFault>
    // The command, the words and the flag are those that the model of clap finds in the arguments.
    ensures ok { IfOk result (λ r. command_named program (texts words.entry.now) ≡ Some r.command) }
    ensures words { IfOk result (λ r. words_named program (texts words.entry.now) ≡ r.words.items) }
    ensures explain { IfOk result (λ r. explain_named program (texts words.entry.now) ≡ r.explain) }
    ensures taken { IfOk result (λ _. faults_of program (texts words.entry.now) ≡ []) }

    // If the model of clap accepts the arguments with one of the subcommands, the only possible
    // error is `Memory`.
    ensures err { IfErr result (λ fault. takes program (texts words.entry.now) ≡ true
        → is_some (command_named program (texts words.entry.now)) ≡ true → fault ≡ Memory) }

    // `Help` is returned only if that model finds a request for help or the version. `Usage` is
    // returned only if it finds another error, or no error at all.
    ensures reported { IfErr result (IsUsageErrorFor (faults_of program (texts words.entry.now))) }

    // If some leading arguments request help or contain an error, the first of these decides the
    // result, whatever arguments follow. A missing argument is reported only if no argument decides
    // the result.
    ensures first { IfErr result (λ fault. FirstDecides program (texts words.entry.now)
        (λ kinds. IsUsageErrorFor kinds fault)) }
{
    request(alloc, &PROGRAM, words)
}
