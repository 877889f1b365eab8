//! Joins the output of recordings, if rules say so, and masks the result.
ghost use Rattle.std.specs.Prelude.{◌≡◌, ℕ, ◌+◌, ◌≤◌, IfErr, IfOk, IsErrOf, List};
ghost use Rattle.dap_device.specs.Devices.{CanRead, CanWrite};
ghost use Rattle.dap_input.specs.{Engine.Answers, Limits.AreSound};
ghost use Rattle.dap_mask.specs.KeptRules.{mask_of};
ghost use Rattle.dap_rules.specs.Applying.{IsMaskedByRules, IsNotMaskedByRules, JoinsBy};
ghost use Rattle.dap_rules.specs.{Applying.RefusesToMaskByRules, Ordering.ReadsSomeOrAll};

use crate::joining::{into_joined, join_by_rules};
use crate::mask_bytes;
use crate::ordering::text_of_input;
use crate::renumbering::renumber;
use dap_device::{Sink, Source, read_all, write_and_flush};
use dap_input::{Limits, Refused};
use dap_mask::MaskRules;
use std::alloc::Global;

/// Returns the masked text of a joined recording, whose records have these numbers in the recording
/// that was joined.
///
/// # Errors
///
/// Those of [`mask_bytes`], with these numbers.
fn mask_joined(
    alloc: Global,
    rules: &MaskRules,
    joined: &[u8],
    numbers: &[u64],
    limits: Limits,
) -> Result<Vec<u8>, Refused>
    requires limits { AreSound limits }
    ensures ok { (recording : List ℕ) → JoinsBy limits (mask_of rules.now).joining recording
        joined.now numbers.now
        → IfOk result (λ text. IsMaskedByRules limits (mask_of rules.now) recording text.items) }
    ensures err { (recording : List ℕ) → JoinsBy limits (mask_of rules.now).joining recording
        joined.now numbers.now
        → IfErr result (RefusesToMaskByRules limits (mask_of rules.now) recording) }
{
    match mask_bytes(alloc, rules, joined, limits) {
        Ok(masked) => Ok(masked),
        Err(refused) => Err(renumber(numbers, refused)),
    }
}

/// Returns the masked text of a recording, whose output is joined first if the rules say so.
///
/// # Errors
///
/// The first error of the recording or of its joined text, or `Memory`. Records are numbered from 1
/// in the recording.
pub fn mask_by_rules(
    alloc: Global,
    rules: &MaskRules,
    recording: &[u8],
    limits: Limits,
) -> Result<Vec<u8>, Refused>
    requires limits { AreSound limits }
    ensures ok { IfOk result
        (λ text. IsMaskedByRules limits (mask_of rules.now) recording.now text.items) }
    ensures err { IfErr result (RefusesToMaskByRules limits (mask_of rules.now) recording.now) }
{
    match join_by_rules(alloc, rules, recording, limits) {
        Ok(Some(joined)) => mask_joined(
            alloc,
            rules,
            joined.recording.as_slice(),
            joined.numbers.as_slice(),
            limits,
        ),
        Ok(None) => mask_joined(alloc, rules, recording, &[], limits),
        Err(refused) => Err(refused),
    }
}

/// Does the same as [`mask_by_rules`], and drops the recording once it is joined.
fn mask_input(
    alloc: Global,
    rules: &MaskRules,
    recording: Vec<u8>,
    limits: Limits,
) -> Result<Vec<u8>, Refused>
    requires limits { AreSound limits }
    ensures ok { IfOk result
        (λ text. IsMaskedByRules limits (mask_of rules.now) recording.items text.items) }
    ensures err { IfErr result (RefusesToMaskByRules limits (mask_of rules.now) recording.items) }
{
    let joined = into_joined(alloc, rules, recording, limits)?;
    mask_joined(
        alloc,
        rules,
        joined.recording.as_slice(),
        joined.numbers.as_slice(),
        limits,
    )
}

/// Reads a recording, joins its output if the rules say so, and writes the result masked, as
/// [`mask`](crate::mask) does.
///
/// Reads the whole input, at most one byte past `limits.input`, before it writes. If the input is
/// rejected, nothing is written. The output is flushed. Records are numbered from 1 in the order of
/// the input, including those that are joined or dropped.
///
/// # Errors
///
/// - The first error of the input, if it is rejected.
/// - `Grew`: the text of the joined recording, or its masked text, exceeds `limits`.
/// - The first error for which the joined recording cannot be masked.
/// - `ReadFault`: the reader failed, and the bytes read before contain no error other than being
///   incomplete.
/// - `WriteFault`: the writer failed. A prefix of the text was written.
/// - `Memory`: an allocation failed. Nothing is written.
pub fn join_and_mask<R: Source, W: Sink>(
    alloc: Global,
    rules: &MaskRules,
    reader: &mut R,
    writer: &mut W,
    limits: Limits,
) -> Result<(), Refused>
    requires limits { AreSound limits }
    requires devices { CanRead R.Source reader.old × CanWrite W.Sink writer.old }

    // The masked text of the joined input is written and flushed. If the writer fails, a prefix of
    // the text is written and `WriteFault` is returned. With any other error, nothing is written.
    // `ReadFault` is returned only if the reader failed.
    ensures outcome { Answers R.Source W.Sink limits.input (IsMaskedByRules limits (mask_of
        rules.now))
        (IsNotMaskedByRules limits (mask_of rules.now)) reader.old reader.new writer.old writer.new
        result }

    // If an allocation failed, a prefix of the input was read, or all of it.
    ensures memory { IsErrOf result Refused.Memory
        → ReadsSomeOrAll R.Source limits.input reader.old reader.new }

    // At most one byte past the limit is read.
    ensures taken { R.given reader.new ≤ R.given reader.old + limits.input + 1 }
{
    let input = match read_all(alloc, reader, limits.input) {
        Ok(input) => input,
        Err(_) => return Err(Refused::Memory),
    };
    let text = text_of_input(mask_input(alloc, rules, input.bytes, limits), input.stop)?;
    match write_and_flush(writer, text.as_slice()) {
        Ok(()) => Ok(()),
        Err(_) => Err(Refused::WriteFault),
    }
}
