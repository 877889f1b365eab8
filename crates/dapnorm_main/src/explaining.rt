//! Explains why a command did not finish, in lines on standard error after the line of the reason.
use crate::rejections::{explain_applying, explain_golden, recording};
use dap_device::{FileAt, write_and_flush};
use dap_explain::{Format, Input, explain, explain_rules, explain_transcript, explain_unreadable};
use dap_host::is_standard;
use dap_system::{OpenedInput, SystemInput, SystemOutput, recording_in, stream};
use dap_transcript::record_line;
use dapnorm::{
    Answer, ApplyRefused, Command, CompareRefused, Ended, GoldenDone, GoldenStop, GoldenVerdict,
    LIMITS, Name, NoRules, OpenFault, Refused, Replaceable, Request, Stream, Task, Unread,
    Unstreamed, Which, Why, is_transcript,
};
use std::fs;
use std::io::Error;

/// The status if an input is rejected.
const REFUSED: u8 = 2;

/// How standard input is named in a report.
const STANDARD_INPUT: &str = "standard input";

/// What is reported of a temporary file that could not be removed.
const LEFT: &str = "a temporary file is left in its folder";

/// What is reported of a trace.
const IS_TRACE: &str = "this looks like a trace: dapnorm record makes a recording of it";

/// A run over the operating system.
pub type SystemRun<'a> = Ended<'a, SystemInput, SystemOutput, FileAt<'a, HostRuntime>>;

/// Returns the task of a command over one input.
fn task_of<'c, 'a>(command: &'c Command<'a>) -> Option<&'c Task<'a>> {
    match command {
        Command::Stream { task, .. } => Some(task),
        _ => None,
    }
}

/// Returns the name of an input of a command, if it has one.
pub fn input_name<'c, 'a>(command: &'c Command<'a>, which: Which) -> Option<&'c Name<'a>> {
    match (command, which) {
        (Command::Pair { a, .. } | Command::Suggest { a, .. }, Which::A) => Some(a),
        (Command::Pair { b, .. } | Command::Suggest { b, .. }, Which::B) => Some(b),
        (Command::Stream { input, .. } | Command::Check { input, .. }, _) => input.as_ref(),
        (Command::Golden(golden), _) => golden.input.as_ref(),
        (Command::Rows { .. }, _) => None,
    }
}

/// Returns the name of an input of a command in a report.
fn reported_name<'a>(command: &Command<'a>, which: Which) -> &'a str {
    match input_name(command, which) {
        Some(name) if !is_standard(name.as_str()) => name.as_str(),
        _ => STANDARD_INPUT,
    }
}

/// Returns the name of the rules file of a command, if it has one.
fn rules_name<'c, 'a>(command: &'c Command<'a>) -> Option<&'c Name<'a>> {
    match command {
        Command::Check { rules, .. }
        | Command::Pair { rules, .. }
        | Command::Suggest { rules, .. } => rules.as_ref(),
        Command::Golden(golden) => golden.rules.as_ref(),
        _ => match task_of(command) {
            Some(Task::Mask(rules) | Task::Order(rules) | Task::Name(rules)) => Some(rules),
            _ => None,
        },
    }
}

/// Returns the format of the input of a command.
fn format_of(command: &Command<'_>) -> Format {
    match task_of(command) {
        Some(Task::Compact) => Format::Frames,
        Some(Task::Record) => Format::Trace,
        _ => Format::Recording,
    }
}

/// Prints a text on standard error. One that could not be made, or cannot be printed, is left out.
fn print(rt: &HostRuntime, text: Option<String>) {
    if let Some(text) = text {
        let _ = write_and_flush(&mut stream(rt, Stream::Errors), text.as_bytes());
    }
}

/// Reports the reason of the last failure of the file of this name, if it failed, and words about
/// it, if there are some.
fn report_file(rt: &HostRuntime, name: &str, failure: Option<&Error>, words: Option<&str>) {
    let alloc = rt.alloc();
    if let Some(error) = failure
        && let Ok(reason) = format!(in alloc; "{error}")
    {
        print(rt, explain_unreadable(alloc, name, reason.as_str()).ok());
    }
    if let Some(words) = words {
        print(rt, explain_unreadable(alloc, name, words).ok());
    }
}

/// Returns an input that a run opened.
fn opened<'a>(run: &'a SystemRun<'_>, which: Which) -> Option<&'a OpenedInput> {
    let input = match which {
        Which::A => &run.desk.a,
        Which::B => &run.desk.b,
    };
    input.as_ref().map(|input| input.reader())
}

/// Returns the name of a file that did not open, and the reason.
fn unopened<'a>(command: &Command<'a>, why: &'a Why<'_>) -> Option<(&'a str, &'a OpenFault)> {
    match why {
        Why::Rules(NoRules::File(Unread::Unopened(fault))) => {
            Some((rules_name(command)?.as_str(), fault))
        }
        Why::Unread(which, Unread::Unopened(fault)) => {
            Some((reported_name(command, which.unwrap_or(Which::A)), fault))
        }
        Why::Session(Unread::Unopened(fault)) => Some((reported_name(command, Which::A), fault)),
        Why::Output(name, fault) | Why::GoldenFile(name, _, fault) => Some((name.as_str(), fault)),
        _ => None,
    }
}

/// Returns the bytes of a file that can be read again.
fn read_again(rt: &HostRuntime, name: &str) -> Option<Vec<u8>> {
    if !fs::metadata(rt, name).ok()?.is_file() {
        return None;
    }
    let Ok(mut file) = FileAt::to_read(rt.alloc(), rt, name) else {
        return None;
    };
    file.read(rt.alloc(), LIMITS.input).ok()?
}

/// Returns the recording of a file that can be read again: of a transcript, that of its messages.
fn recording_again(rt: &HostRuntime, name: &str) -> Option<Vec<u8>> {
    recording_in(rt.alloc(), read_again(rt, name)?).ok()
}

/// Returns the bytes of an input, if they are stored or can be read again. Those of a transcript
/// are the recording of its messages.
fn bytes_of(
    rt: &HostRuntime,
    command: &Command<'_>,
    run: &SystemRun<'_>,
    which: Which,
) -> Option<Vec<u8>> {
    match (opened(run, which)?.bytes(), input_name(command, which)) {
        (Some(bytes), _) => Vec::from_slice(rt.alloc(), bytes).ok(),
        (None, Some(name)) if !is_standard(name.as_str()) => recording_again(rt, name.as_str()),
        _ => None,
    }
}

/// Explains why an input is rejected, if its bytes are stored or can be read again. A recording
/// that grew too long in order is not explained, since its records may be numbered in the text in
/// order. What rules made of two inputs is not explained.
fn explain_input(rt: &HostRuntime, request: &Request<'_>, run: &SystemRun<'_>) -> Option<String> {
    let command = &request.command;
    let (which, refused, rules) = match run.outcome.as_ref().err()? {
        Why::Unapplied(which, refused, rules) => {
            (which.unwrap_or(Which::A), *refused, Some(rules))
        }
        Why::Input(refused) => (Which::A, ApplyRefused::Mask(*refused), None),
        Why::Stream(Unstreamed::Input(refused), rules) => {
            let rules = match (task_of(command), refused) {
                (Some(Task::Order(_)), Refused::Grew(_)) => return None,
                (Some(Task::Mask(_)), _) => Some(rules),
                _ => None,
            };
            (Which::A, ApplyRefused::Mask(*refused), rules)
        }
        Why::Pair(CompareRefused::Input(which, refused))
            if rules_name(command).is_none() && request.words.is_empty() => {
            (*which, ApplyRefused::Mask(*refused), None)
        }
        _ => return None,
    };
    let bytes = bytes_of(rt, command, run, which)?;
    let input = Input {
        bytes: bytes.as_slice(),
        format: format_of(command),
        rules,
    };
    explain_applying(rt.alloc(), input, refused, LIMITS).ok()
}

/// Explains why a text is rejected: of rules, of a golden file, or of an input if that is wanted.
fn explain_text(
    rt: &HostRuntime,
    request: &Request<'_>,
    run: &SystemRun<'_>,
    explains: bool,
) -> Option<String> {
    let alloc = rt.alloc();
    match run.outcome.as_ref().err()? {
        Why::Rules(NoRules::Line(fault, text)) => {
            explain_rules(alloc, text.as_slice(), *fault).ok()
        }
        Why::Golden(_, GoldenStop::Input(refused), rules) => {
            let session = bytes_of(rt, &request.command, run, Which::A)?;
            explain_golden(alloc, session, rules.as_ref(), *refused, LIMITS).ok()
        }
        Why::Golden(name, GoldenStop::Golden(refused), ..) => {
            let golden = recording_again(rt, name.as_str())?;
            explain(alloc, recording(golden.as_slice(), None), *refused, LIMITS).ok()
        }
        Why::Golden(name, GoldenStop::Transcript(fault), ..) => {
            let golden = read_again(rt, name.as_str())?;
            explain_transcript(alloc, golden.as_slice(), *fault).ok()
        }
        why => match unopened(&request.command, why) {
            Some((name, OpenFault::Transcript(fault))) => {
                let input = read_again(rt, name)?;
                explain_transcript(alloc, input.as_slice(), *fault).ok()
            }
            _ if explains => explain_input(rt, request, run),
            _ => None,
        },
    }
}

/// Returns the line that says at which line of a golden file the record starts that differs, if the
/// file is a transcript and has the record.
fn place_of_difference(rt: &HostRuntime, run: &SystemRun<'_>) -> Option<String> {
    let Ok(Some(Answer::Golden(name, GoldenDone::Compared(verdict)))) = &run.outcome else {
        return None;
    };
    let GoldenVerdict::Differs { record, .. } = verdict else {
        return None;
    };
    let golden = read_again(rt, name.as_str())?;
    if !is_transcript(golden.as_slice()) {
        return None;
    }
    let line = record_line(golden.as_slice(), *record)?;
    let words = format!(in rt.alloc(); "record {record} starts at line {line}").ok()?;
    explain_unreadable(rt.alloc(), name.as_str(), words.as_str()).ok()
}

/// Explains why a command did not finish, and reports the reasons of files that failed. If rejected
/// inputs are explained, that says if one is a trace. If the command finished, reports at which
/// line of a golden transcript the session differs.
pub fn explain_run(rt: &HostRuntime, request: &Request<'_>, run: &SystemRun<'_>, explains: bool) {
    let Err(why) = &run.outcome else {
        print(rt, place_of_difference(rt, run));
        return;
    };
    let command = &request.command;
    // An input is rejected, not the rules or a golden file. The session of a golden file may be a
    // trace.
    let is_rejected = run.status == REFUSED && !matches!(why, Why::Rules(_) | Why::Golden(..));
    let may_be_trace = is_rejected && !matches!(format_of(command), Format::Trace);
    for which in [Which::A, Which::B] {
        // What is wrong with the other input is not known then.
        let is_other = matches!(why, Why::Unapplied(Some(rejected), ..) if *rejected != which);
        if !is_other && let Some(input) = opened(run, which) {
            let is_trace = may_be_trace && input.is_trace() && !explains;
            let words = is_trace.then_some(IS_TRACE);
            report_file(rt, reported_name(command, which), input.failure(), words);
        }
    }
    if let Some((name, OpenFault::Unread(error))) = unopened(command, why) {
        report_file(rt, name, Some(error), None);
    }
    if let Why::Unsaved(name, _)
    | Why::Golden(name, GoldenStop::GoldenUnread | GoldenStop::Unwritten(_), ..) = why
        && let Some(file) = &run.desk.target
    {
        let words = file.is_left().then_some(LEFT);
        report_file(rt, name.as_str(), file.reason(), words);
    }
    print(rt, explain_text(rt, request, run, explains));
}
