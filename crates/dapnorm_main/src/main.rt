//! The program `dapnorm`.
#![tactic(auto)]

ghost use Rattle.std.specs.Prelude.{◌≡◌};
ghost use Rattle.dapnorm_main.specs.Usage.{IsUsageStatus};

mod explaining;
mod rejections;

use crate::explaining::{explain_run, input_name};
use dap_device::hold_closed_streams;
use dap_system::{System, stream};
use dapnorm::{Request, Stream, UsageFault, Which, command, run, run_usage};
use std::env;
use std::hash::RandomState;
use std::io::{self, Error, ErrorKind};
use std::process::ExitCode;

/// The status if the arguments or random words cannot be had, or a file does not open.
const FAULT: u8 = 4;

/// What is reported of an argument that cannot be read as text.
const NOT_UTF_8: &str = "error: an argument is not valid UTF-8\n";

/// Returns whether the environment requests explanations: `DAPNORM_EXPLAIN` has a value that is
/// not `0`.
fn requests_explanations(rt: &HostRuntime) -> bool {
    env::var(rt, "DAPNORM_EXPLAIN").is_ok_and(|value| !matches!(value.as_str(), "" | "0"))
}

/// Reports why the arguments request nothing that can be done.
fn report_usage(rt: &HostRuntime, fault: &UsageFault) -> u8
    ensures { IsUsageStatus fault.now result }
{
    let mut writer = stream(rt, Stream::Bytes);
    run_usage(fault, &mut writer, &mut stream(rt, Stream::Errors))
}

/// Reports that what the program begins with cannot be had.
fn report_unread(rt: &HostRuntime) -> u8 {
    let _ = eprintln!(rt; "dapnorm: read fault");
    FAULT
}

/// Reports why the arguments could not be read. One that is not UTF-8 is a mistake of the user.
fn report_no_words(rt: &HostRuntime, error: &Error) -> u8 {
    let fault = match error.kind() {
        ErrorKind::OutOfMemory => UsageFault::Memory,
        ErrorKind::InvalidData => String::from_str(rt.alloc(), NOT_UTF_8).map_or(
            UsageFault::Memory,
            UsageFault::Usage,
        ),
        _ => return report_unread(rt),
    };
    report_usage(rt, &fault)
}

/// Does what a request says. If standard input is read without a name for it, a terminal is
/// announced.
fn run_request(rt: &HostRuntime, request: &Request<'_>) -> u8 {
    let Ok(hasher) = RandomState::new(rt) else {
        return report_unread(rt);
    };
    let explains = request.explain || requests_explanations(rt);
    let system = System {
        rt,
        hasher,
        keeps_inputs: explains,
        announces_terminal: input_name(&request.command, Which::A).is_none(),
    };
    let run = run(rt.alloc(), &system, request);
    explain_run(rt, request, &run, explains);
    run.status
}

/// Reads the arguments and does what they request.
///
/// # Errors
///
/// - `OutOfMemory`: an allocation failed.
/// - `InvalidData`: an argument is not UTF-8.
/// - Any other: reported by the operating system.
fn run_words(rt: &HostRuntime) -> io::Result<u8> {
    let alloc = rt.alloc();
    let args = env::args(rt)?.collect::<Vec<String>>(alloc)?;
    let words = args
        .iter()
        .map(|word| word.as_str())
        .collect::<Vec<&str>>(alloc)?;
    Ok(match command(alloc, words.as_slice()) {
        Ok(request) => run_request(rt, &request),
        Err(fault) => report_usage(rt, &fault),
    })
}

/// Runs the program, with a device in place of each standard stream that is closed.
fn run_program(rt: &HostRuntime) -> u8 {
    let Ok(_held) = hold_closed_streams(rt) else {
        return report_unread(rt);
    };
    match run_words(rt) {
        Ok(status) => status,
        Err(error) => report_no_words(rt, &error),
    }
}

fn main(rt: HostRuntime) -> ExitCode {
    ExitCode::from(run_program(&rt))
}
