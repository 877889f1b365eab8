//! Runs a command over the files, streams and tables of a host.
ghost use Rattle.std.specs.Prelude.{◌≡◌, ◌+◌, ◌<◌, ◌^◌};
ghost use Rattle.dap_commands.specs.Reading.{text_in};
ghost use Rattle.dap_host.specs.declared.limits.TheConstants.{LIMITS};
ghost use Rattle.dapnorm.specs.Desks.{TakesAtMost, empty, here};
ghost use Rattle.dapnorm.specs.Running.{FindsRows, IsAnswered, IsDone, IsFinished};
ghost use Rattle.dapnorm.specs.{Running.IsRun, Streams.input_name};

use crate::answer::Answer;
use crate::checking::run_check;
use crate::desk::Desk;
use crate::golden::run_golden;
use crate::pair::run_pair;
use crate::reporting::DONE;
use crate::rules::NoRules;
use crate::stream::{input_name, run_stream_task, text_of};
use crate::suggest::run_suggest;
use crate::why::{Mistake, Why};
use crate::words::with_values;
use dap_commands::{Command, Name, Request};
use dap_host::{Host, Stream};
use dap_input::Refused;
use dap_profile::row_lines;
use std::alloc::Global;

/// A run of a command.
#[derive(Drop)]
pub struct Ended<'a, I, O, T> {
    /// The status of the program.
    pub status: u8,
    /// What the command found, or why it did not finish. `None`: its output was written already.
    pub outcome: Result<Option<Answer<'a>>, Why<'a>>,
    /// The devices that it opened, as it left them.
    pub desk: Desk<I, O, T>,
    /// Standard error, as it left that.
    pub errors: O,
}

/// Finds rows of the profile, or the one with the number that this text writes.
fn run_rows<'a>(alloc: Global, number: Option<&str>) -> Result<Option<Answer<'a>>, Why<'a>>
    ensures { FindsRows (text_in number.entry) result }
{
    let Ok(lines) = row_lines(alloc, number) else {
        return Err(Why::Input(Refused::Memory));
    };
    if lines.is_empty() {
        return Err(Why::Mistake(Mistake::NoRow));
    }
    Ok(Some(Answer::Rows(lines)))
}

/// Does a command.
fn done<'a, H: Host>(
    alloc: Global,
    host: &H,
    command: &Command<'a>,
    words: &[Name<'a>],
    desk: &mut Desk<H::Input, H::Output, H::Target>,
) -> Result<Option<Answer<'a>>, Why<'a>>
    requires { desk.old ≡ empty }
    ensures done { IsDone (here (H.files host.now) H.Input.Source H.Output.Sink
        H.Target.Replaceable) desk.new words.now command.now result }
    ensures taken_a { TakesAtMost H.Input.given (LIMITS.input + 1) desk.new.a }
    ensures taken_b { TakesAtMost H.Input.given (LIMITS.input + 1) desk.new.b }
{
    match command {
        Command::Stream {
            task,
            input,
            output,
        } => run_stream_task(alloc, host, task, words, input, output, desk),
        Command::Check {
            complete,
            mode,
            input,
            rules,
        } => {
            let (name, rules) = (input_name(input), text_of(rules));
            run_check(alloc, host, *complete, *mode, name, rules, words, desk)
        }
        Command::Pair {
            printed,
            a,
            b,
            rules,
            mode,
        } => {
            let (printed, mode) = (*printed, *mode);
            let (a, b, rules) = (a.as_str(), b.as_str(), text_of(rules));
            run_pair(alloc, host, printed, mode, a, b, rules, words, desk)
        }
        Command::Suggest {
            strict,
            a,
            b,
            rules,
        } => {
            let (a, b) = (a.as_str(), b.as_str());
            run_suggest(alloc, host, *strict, a, b, text_of(rules), words, desk)
        }
        Command::Golden(golden) => run_golden(alloc, host, golden, words, desk),
        Command::Rows { number } => run_rows(alloc, text_of(number)),
    }
}

/// Does a command, if the values of the option `--word` are accepted alone.
fn answered<'a, H: Host>(
    alloc: Global,
    host: &H,
    command: &Command<'a>,
    words: &[Name<'a>],
    desk: &mut Desk<H::Input, H::Output, H::Target>,
) -> Result<Option<Answer<'a>>, Why<'a>>
    requires { desk.old ≡ empty }
    ensures answered { IsAnswered (here (H.files host.now) H.Input.Source H.Output.Sink
        H.Target.Replaceable) desk.new words.now command.now result }
    ensures taken_a { TakesAtMost H.Input.given (LIMITS.input + 1) desk.new.a }
    ensures taken_b { TakesAtMost H.Input.given (LIMITS.input + 1) desk.new.b }
{
    match with_values(alloc, Vec::new(alloc), words) {
        Ok(_) => done(alloc, host, command, words, desk),
        Err(fault) => Err(Why::Rules(NoRules::Words(fault))),
    }
}

/// Prints what a command found, or reports why it did not finish, and returns the status of the
/// program.
fn finish<H: Host>(
    host: &H,
    outcome: &Result<Option<Answer<'_>>, Why<'_>>,
    output: &mut Option<H::Output>,
    errors: &mut H::Output,
) -> u8
    requires { H.Output.failures errors.old < 2 ^ 62 }
    ensures { IsFinished (here (H.files host.now) H.Input.Source H.Output.Sink
        H.Target.Replaceable) outcome.now output.old output.new errors.old errors.new result }
{
    match outcome {
        Ok(None) => DONE,
        Ok(Some(answer)) => {
            let writer = output.insert(host.stream(answer.stream()));
            answer.print(writer, errors)
        }
        Err(why) => why.report(errors),
    }
}

/// Runs a command under the limits of the program. Prints what it found on standard output, or
/// reports why it did not finish, in one line on standard error.
///
/// The status is 0 if the command was done, 1 if recordings differ or no rules are suggested, 2 if
/// an input is rejected, 3 if the command line is wrong, 4 if a read or a write failed, and 5 if an
/// allocation failed.
pub fn run<'a, H: Host>(
    alloc: Global,
    host: &H,
    request: &Request<'a>,
) -> Ended<'a, H::Input, H::Output, H::Target>
    // The files are those that the command names, in the order that it documents. What it found is
    // printed, or the reason is reported, with the status.
    ensures run { IsRun (here (H.files host.now) H.Input.Source H.Output.Sink H.Target.Replaceable)
        request.now.words.items request.now.command result }

    // It takes at most one byte past the limit of each input.
    ensures taken_a { TakesAtMost H.Input.given (LIMITS.input + 1) result.desk.a }
    ensures taken_b { TakesAtMost H.Input.given (LIMITS.input + 1) result.desk.b }
{
    let mut desk = Desk::new();
    let words = request.words.as_slice();
    let outcome = answered(alloc, host, &request.command, words, &mut desk);
    let mut errors = host.stream(Stream::Errors);
    let status = finish(host, &outcome, &mut desk.output, &mut errors);
    Ended {
        status,
        outcome,
        desk,
        errors,
    }
}
