//! Replaces the declared ids of recordings by names.
ghost use Rattle.std.specs.Prelude.{◌≡◌, ◌+◌, ◌≤◌, [], IfErr, IfOk, IsOk};
ghost use Rattle.dap_device.specs.Devices.{CanRead, CanWrite};
ghost use Rattle.dap_input.specs.{Limits.AreSound, Streaming.Streams};
ghost use Rattle.dap_mask.specs.KeptRules.{mask_of};
ghost use Rattle.dap_rules.specs.{Applying.RefusesToName, NamedRecordings.IsNamedTo};
ghost use Rattle.dap_rules.specs.Naming.{Names, naming};

use crate::passes::Pass;
use crate::rewriting::rewrite;
use crate::text_sink::{TextSink, is_out_of_memory};
use dap_device::{MemorySource, Sink, Source};
use dap_input::{Limits, Refused};
use dap_mask::MaskRules;
use std::alloc::Global;

/// Reads a recording and writes it with names in the place of its declared ids, record by record.
///
/// Writes the canonical content of each message, with each id that the rules declare replaced by
/// its name. A name depends only on the messages before it and on its own message. Applies no other
/// rule. A message is checked only for being JSON whose numbers are integers of 64 bits.
///
/// Reads at most 65,536 bytes past a record before that record is written, and at most one byte
/// past `limits.input`. Records that are buffered together are written together. If a record is
/// rejected, the records before it have been written. The output is flushed at the end, even before
/// a rejection is returned. Records are numbered from 1 in the order of the input.
///
/// # Errors
///
/// - The first error of the input, if it is rejected. `TooManyIds`: some label has more than
///   `limits.ids` values. `Grew`: the output exceeds `limits`.
/// - `ReadFault`: the reader failed, and the bytes read before are not rejected.
/// - `WriteFault`: the writer failed. It replaces a rejection if the flush before it fails.
/// - `Memory`: an allocation failed. The writer is not flushed.
pub fn name<R: Source, W: Sink>(
    alloc: Global,
    rules: &MaskRules,
    reader: &mut R,
    writer: &mut W,
    limits: Limits,
) -> Result<(), Refused>
    requires limits { AreSound limits }
    requires devices { CanRead R.Source reader.old × CanWrite W.Sink writer.old }

    // The named output of the input is written and flushed. If a record is rejected, the output of
    // the records before it is written and flushed. If an allocation fails, nothing is flushed
    // after it. If the writer fails, a prefix of the output is written. `ReadFault` and
    // `WriteFault` are returned if and only if the reader or the writer failed.
    ensures outcome { Streams (naming limits (mask_of rules.now).declared)
        (Names limits (mask_of rules.now).declared)
        (IsNamedTo limits (mask_of rules.now).declared) R.Source W.Sink reader.old reader.new
        writer.old writer.new result }

    // At most one byte past the limit is read.
    ensures taken { R.given reader.new ≤ R.given reader.old + limits.input + 1 }
{
    rewrite(alloc, Pass::Name, rules, reader, writer, limits)
}

/// Returns the text of a recording with names in the place of its declared ids, as [`name`] writes
/// it. An empty recording has an empty text, and does not allocate.
///
/// # Errors
///
/// The first error of the recording, or `Memory`. Records are numbered from 1 in the recording.
pub fn name_bytes(
    alloc: Global,
    rules: &MaskRules,
    recording: &[u8],
    limits: Limits,
) -> Result<Vec<u8>, Refused>
    requires limits { AreSound limits }
    ensures ok { IfOk result
        (λ named. IsNamedTo limits (mask_of rules.now).declared recording.now named.items) }
    ensures err { IfErr result (RefusesToName limits (mask_of rules.now).declared recording.now) }
    ensures empty { recording.now ≡ [] → IsOk result }
{
    if recording.is_empty() {
        return Ok(Vec::new(alloc));
    }
    let mut reader = MemorySource::new(recording);
    let mut writer = TextSink::new(alloc);
    match name(alloc, rules, &mut reader, &mut writer, limits) {
        Ok(()) => Ok(writer.into_bytes()),
        Err(refused) if is_out_of_memory(refused) => Err(Refused::Memory),
        Err(refused) => Err(refused),
    }
}
