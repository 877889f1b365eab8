//! Calls the command functions of `dapnorm` for tests, with readers and writers that fail and with
//! limits that the program does not have.
//!
//! Standard input contains a sequence of calls: a line of words, followed by the bytes of the
//! call's inputs. Each call gets a response: a line, followed by the bytes that the function wrote.
//! tests/engines/driver.py writes the calls and reads the responses. A malformed call ends the
//! program with status 1.
#![tactic(auto)]

mod answer;
mod call;
mod carrying;
mod devices;
mod engines;
mod words;

use anyhow::{Result, bail};
use dap_device::{StdSource, Stop, read_all};
use std::hash::RandomState;
use std::io::Write;

/// The maximum number of bytes of calls that are read.
const LONGEST: u64 = 4_294_967_296;

/// Writes the response to each call of the input.
fn answer_all(rt: &HostRuntime, calls: &[u8], hasher: RandomState) -> Result<()> {
    let mut output = rt.stdout();
    let mut rest = calls;
    for _ in 0..u64::MAX {
        if rest.is_empty() {
            break;
        }
        let (call, after) = call::read_call(rest)?;
        let answer = answer::answer_to(rt.alloc(), &call, hasher)?;
        output.write_all(answer.as_slice())?;
        rest = after;
    }
    output.flush()?;
    Ok(())
}

fn main(rt: HostRuntime) -> Result<()> {
    let hasher = RandomState::new(&rt)?;
    let mut source = StdSource::new(rt.stdin());
    let input = read_all(rt.alloc(), &mut source, LONGEST)?;
    if input.stop != Stop::End {
        bail!("the calls cannot be read to their end");
    }
    answer_all(&rt, input.bytes.as_slice(), hasher)
}
