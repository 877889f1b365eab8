//! Masks recordings.
ghost use Rattle.std.specs.Prelude.{◌≡◌, ◌+◌, ◌≤◌, [], IfErr, IfOk, IsOk};
ghost use Rattle.dap_device.specs.Devices.{CanRead, CanWrite};
ghost use Rattle.dap_input.specs.{Limits.AreSound, Streaming.Streams};
ghost use Rattle.dap_mask.specs.KeptRules.{mask_of};
ghost use Rattle.dap_rules.specs.{Applying.RefusesToMask, Masking.masking};
ghost use Rattle.dap_rules.specs.MaskedRecordings.{IsMaskedTo, Masks};

use crate::passes::Pass;
use crate::rewriting::rewrite;
use crate::text_sink::{TextSink, is_out_of_memory};
use dap_device::{MemorySource, Sink, Source};
use dap_input::{Limits, Refused};
use dap_mask::MaskRules;
use std::alloc::Global;

/// Reads a recording and writes it masked, record by record.
///
/// Applies the rules to each message and writes its canonical content. Events that the rules drop
/// are not written. Does not join output: for rules that do, call
/// [`join_and_mask`](crate::join_and_mask). A message is checked only for being JSON whose numbers,
/// after masking, are integers of 64 bits.
///
/// Reads at most 65,536 bytes past a record before that record is written, and at most one byte
/// past `limits.input`. Masked records that are buffered together are written together. If a record
/// is rejected, the records before it have been written. The output is flushed at the end, even
/// before a rejection is returned. Records are numbered from 1 in the order of the input, including
/// the dropped ones.
///
/// # Errors
///
/// - The first error of the input, if it is rejected.
/// - `ReadFault`: the reader failed, and the bytes read before are not rejected.
/// - `WriteFault`: the writer failed. It replaces a rejection if the flush before it fails.
/// - `Memory`: an allocation failed. The writer is not flushed.
pub fn mask<R: Source, W: Sink>(
    alloc: Global,
    rules: &MaskRules,
    reader: &mut R,
    writer: &mut W,
    limits: Limits,
) -> Result<(), Refused>
    requires limits { AreSound limits }
    requires devices { CanRead R.Source reader.old × CanWrite W.Sink writer.old }

    // The masked output of the input is written and flushed. If a record is rejected, the output of
    // the records before it is written and flushed. If an allocation fails, nothing is flushed
    // after it. If the writer fails, a prefix of the output is written. `ReadFault` and
    // `WriteFault` are returned if and only if the reader or the writer failed.
    ensures outcome { Streams (masking limits (mask_of rules.now)) (Masks limits (mask_of
        rules.now))
        (IsMaskedTo limits (mask_of rules.now)) R.Source W.Sink reader.old reader.new
        writer.old writer.new result }

    // At most one byte past the limit is read.
    ensures taken { R.given reader.new ≤ R.given reader.old + limits.input + 1 }
{
    rewrite(alloc, Pass::Mask, rules, reader, writer, limits)
}

/// Returns the text of a masked recording, as [`mask`] writes it. Does not join output. An empty
/// recording has an empty text, and does not allocate.
///
/// # Errors
///
/// The first error of the recording, or `Memory`. Records are numbered from 1 in the recording.
pub fn mask_bytes(
    alloc: Global,
    rules: &MaskRules,
    recording: &[u8],
    limits: Limits,
) -> Result<Vec<u8>, Refused>
    requires limits { AreSound limits }
    ensures ok { IfOk result
        (λ masked. IsMaskedTo limits (mask_of rules.now) recording.now masked.items) }
    ensures err { IfErr result (RefusesToMask limits (mask_of rules.now) recording.now) }
    ensures empty { recording.now ≡ [] → IsOk result }
{
    if recording.is_empty() {
        return Ok(Vec::new(alloc));
    }
    let mut reader = MemorySource::new(recording);
    let mut writer = TextSink::new(alloc);
    match mask(alloc, rules, &mut reader, &mut writer, limits) {
        Ok(()) => Ok(writer.into_bytes()),
        Err(refused) if is_out_of_memory(refused) => Err(Refused::Memory),
        Err(refused) => Err(refused),
    }
}
