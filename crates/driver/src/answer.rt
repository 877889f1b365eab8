//! Formats the response to a call.
ghost use Rattle.std.specs.Prelude.{IfOk};
ghost use Rattle.driver.specs.Devices.{AreNew};

use crate::call::Call;
use crate::devices::{Devices, Output, TestSink, TestSource};
use crate::engines::{Outcome, are_sound, outcome_of};
use dapnorm::{CompareRefused, Renaming, Source, Verdict};
use fault_injection::{refuse_growth, was_refused};
use std::alloc::{AllocError, Global};
use std::hash::RandomState;

/// The output for the line of an error.
const ERRORS: Output = Output {
    room: 4096,
    piece: 4096,
    fails_at: 4096,
    takes_nothing: false,
    fails_to_flush: false,
};

/// Returns the sources and sinks that a call requests.
fn devices_of<'a>(alloc: Global, call: &Call<'a>) -> Result<Devices<'a>, AllocError>
    ensures { IfOk result AreNew }
{
    Ok(Devices {
        a: TestSource::new(call.a),
        b: TestSource::new(call.b),
        output: TestSink::new(alloc, call.output)?,
        errors: TestSink::new(alloc, ERRORS)?,
    })
}

/// Returns the text of a result of `compare`, and its pairs, one per line.
fn compared_text(
    alloc: Global,
    answer: &Result<Verdict, CompareRefused>,
) -> Result<(String, String), AllocError> {
    match answer {
        Ok(Verdict::Same(renaming)) => pairs_text(alloc, renaming),
        Ok(Verdict::Differ(record)) => {
            Ok((
                format!(in alloc; "Ok(Differ({record}))")?,
                String::new(alloc),
            ))
        }
        Err(refused) => Ok((format!(in alloc; "Err({refused:?})")?, String::new(alloc))),
    }
}

/// Returns the text of a renaming, and its pairs.
fn pairs_text(alloc: Global, renaming: &Renaming) -> Result<(String, String), AllocError> {
    let pairs = renaming.pairs();
    let mut lines = String::new(alloc);
    for pair in pairs {
        let line = format!(in alloc; "{pair:?}\n")?;
        lines.push_str(line.as_str())?;
    }
    let count = pairs.len();
    Ok((format!(in alloc; "Ok(Same({count}))")?, lines))
}

/// Returns the text of an outcome and its bytes: pairs, a normal text, or the output.
fn parts_of(
    alloc: Global,
    outcome: &Outcome,
    written: &[u8],
) -> Result<(String, Vec<u8>), AllocError> {
    let text = match outcome {
        Outcome::Refused => String::from_str(alloc, "Refused")?,
        Outcome::Written(answer) => format!(in alloc; "{answer:?}")?,
        Outcome::Checked(answer) => format!(in alloc; "{answer:?}")?,
        Outcome::Same(answer) => format!(in alloc; "{answer:?}")?,
        Outcome::Carried(answer) => format!(in alloc; "{answer:?}")?,
        Outcome::Status(status) => format!(in alloc; "{status}")?,
        Outcome::Compared(answer) => {
            let (text, lines) = compared_text(alloc, answer)?;
            return Ok((text, lines.into_bytes()));
        }
        Outcome::NormalText(Ok(normal)) => {
            let mode = normal.mode();
            let text = format!(in alloc; "Ok({mode:?})")?;
            return Ok((text, Vec::from_slice(alloc, normal.bytes())?));
        }
        Outcome::NormalText(Err(refused)) => format!(in alloc; "Err({refused:?})")?,
    };
    Ok((text, Vec::from_slice(alloc, written)?))
}

/// Returns the bytes of a response. The first line contains these words:
///
/// - the number of bytes read from each input;
/// - the number of flushes;
/// - 1 if an allocation failed, and otherwise 0;
/// - the number of bytes of the outcome, and of the error line;
/// - the text of the outcome.
///
/// The bytes of the outcome follow, and then the error line.
fn bytes_of(
    alloc: Global,
    devices: &Devices<'_>,
    outcome: &Outcome,
    is_refused: bool,
) -> Result<Vec<u8>, AllocError> {
    let (text, written) = parts_of(alloc, outcome, devices.output.bytes())?;
    let errors = devices.errors.bytes();
    let (given_a, given_b) = (devices.a.given(), devices.b.given());
    let flushes = devices.output.flushes;
    let refused = u8::from(is_refused);
    let (count, told) = (written.len(), errors.len());
    let line = format!(in alloc;
        "{given_a} {given_b} {flushes} {refused} {count} {told} {text}\n"
    )?;
    let mut bytes = line.into_bytes();
    bytes.extend_from_slice(written.as_slice())?;
    bytes.extend_from_slice(errors)?;
    Ok(bytes)
}

/// Calls the function and returns its response.
pub fn answer_to(
    alloc: Global,
    call: &Call<'_>,
    hasher: RandomState,
) -> Result<Vec<u8>, AllocError> {
    let mut devices = devices_of(alloc, call)?;
    if !are_sound(call.limits) {
        return bytes_of(alloc, &devices, &Outcome::Refused, false);
    }
    if call.turn != 0 {
        refuse_growth(alloc, call.turn);
    }
    let outcome = outcome_of(alloc, call, &mut devices, hasher);
    let is_refused = call.turn != 0 && was_refused(alloc);
    bytes_of(alloc, &devices, &outcome, is_refused)
}
