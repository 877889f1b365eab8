//! The smallest program that uses the library: writes the normal form of the recording on standard
//! input.
//!
//! `make try` runs it before anything is proved, because it compiles fewer crates than
//! `dapnorm_main`.
#![tactic(auto)]

use dap_device::{StdSink, StdSource};
use dap_frame::FrameLimits;
use dap_input::Limits;
use dap_normalise::normalise;
use dap_rename::Mode;
use std::process::ExitCode;

const LIMITS: Limits = Limits {
    frame: FrameLimits {
        header: 4096,
        content: 16_777_216,
    },
    ids: 1_000_000,
    input: 4_294_967_296,
};

fn main(rt: HostRuntime) -> ExitCode {
    let mut reader = StdSource::new(rt.stdin());
    let mut writer = StdSink::new(rt.stdout());
    match normalise(rt.alloc(), &mut reader, &mut writer, LIMITS, Mode::Whole) {
        Ok(()) => ExitCode::SUCCESS,
        Err(refused) => {
            let _ = eprintln!(rt; "first_look: {refused}");
            ExitCode::FAILURE
        }
    }
}
