//! Normalises recordings.
ghost use Rattle.std.specs.Prelude.{◌≡◌, ◌+◌, ◌<◌, ◌≤◌, ◌^◌, [], IfErr, IfOk, IsErrOf};
ghost use Rattle.dap_device.specs.Devices.{CanRead, CanWrite};
ghost use Rattle.dap_input.specs.Limits.{AreSound};
ghost use Rattle.dap_normalise.specs.{NameTables.AreReady, NormalSteps.RepresentsBefore};
ghost use Rattle.dap_normalise.specs.Normalising.{IsCanonical, RefusesBytes};
ghost use Rattle.dap_normalise.specs.Streaming.{Ends, Flushes, HasGivenUpAt, Streams};

use crate::normal_records::NormalRecords;
use crate::normal_session::normalise_session;
use crate::normalised::Normalised;
use dap_device::{Sink, Source, write_all};
use dap_input::{Limits, Refused};
use dap_rename::{Mode, NameTable, Tables, index_tables};
use std::alloc::Global;

/// The length of buffered output at which it is written, even if the next record is buffered.
pub const PIECE: usize = 65_536;

/// Returns the normal form of a recording: its messages in order, each as its canonical content, in
/// which ids are numbered from 1.
///
/// Each kind of id is numbered by first appearance over the entire recording: the sequence numbers
/// of each side, frame ids, variables references, thread ids and breakpoint ids. A variables
/// reference of 0 is unchanged. With [`Mode::PerStop`], the numbering of frame ids and variables
/// references restarts after each `stopped` event. Capabilities that an `initialize` response omits
/// are set to false.
///
/// # Errors
///
/// - The first error of the recording.
/// - `Memory`: an allocation failed.
pub fn normalise_bytes(
    alloc: Global,
    bytes: &[u8],
    limits: Limits,
    mode: Mode,
) -> Result<Normalised, Refused>
    requires limits { AreSound limits }

    // `Ok` is returned only if the recording is accepted, and an error other than `Memory` only if
    // it is the first error of the recording.
    ensures ok { IfOk result (λ text. IsCanonical limits mode bytes.now text.bytes) }
    ensures err { IfErr result (λ refused. RefusesBytes limits mode bytes.now refused) }
    ensures mode { IfOk result (λ text. text.mode ≡ mode) }
{
    let session = normalise_session(alloc, bytes, limits, mode)?;
    Ok(Normalised::new(mode, session.bytes))
}

/// Flushes the writer, then returns the given result, or `WriteFault` if the flush failed.
fn flushed<W: Sink>(writer: &mut W, outcome: Result<(), Refused>) -> Result<(), Refused>
    requires { W.failures writer.old < 2 ^ 63 }
    ensures { Flushes W.Sink writer.old writer.new outcome result }
{
    match writer.flush() {
        Ok(()) => outcome,
        Err(_) => Err(Refused::WriteFault),
    }
}

/// Writes the remaining output and flushes the writer, then returns the given result. Returns
/// `WriteFault` if the writer failed. If the given result is `Memory`, does not flush.
pub fn finish_output<W: Sink>(
    writer: &mut W,
    text: &[u8],
    outcome: Result<(), Refused>,
) -> Result<(), Refused>
    requires writer { CanWrite W.Sink writer.old }
    ensures { Ends W.Sink text.now writer.old writer.new outcome result }
{
    if write_all(writer, text).is_err() {
        return Err(Refused::WriteFault);
    }
    match outcome {
        Err(Refused::Memory) => Err(Refused::Memory),
        _ => flushed(writer, outcome),
    }
}

/// Reads a recording and writes its normal form record by record. The output is that of
/// [`normalise_bytes`].
///
/// At most 65,536 bytes beyond a record are read before its output is written, and at most one byte
/// beyond `limits.input`. The output of records that were buffered together may be written
/// together. Records are counted from 1 in the order of the input.
///
/// # Errors
///
/// - The first error of the input. The normal form of the records before it was written and
///   flushed.
/// - `ReadFault`: the reader failed, and the bytes read so far contain no error other than being
///   incomplete. The normal form of the complete records was written and flushed.
/// - `WriteFault`: the writer failed. It replaces another error if the flush before it fails.
/// - `Memory`: an allocation failed. The writer is not flushed.
pub fn normalise<R: Source, W: Sink>(
    alloc: Global,
    reader: &mut R,
    writer: &mut W,
    limits: Limits,
    mode: Mode,
) -> Result<(), Refused>
    requires limits { AreSound limits }
    requires devices { CanRead R.Source reader.old × CanWrite W.Sink writer.old }

    // On success, the normal form of the input was written and flushed. If a record is rejected,
    // that of the records before it was. If an allocation fails, no flush follows. If the writer
    // fails, a prefix of the output was written. `ReadFault` and `WriteFault` are returned if and
    // only if the reader or the writer failed.
    ensures outcome { Streams R.Source W.Sink limits mode reader.old reader.new
        writer.old writer.new result }

    // If an allocation failed, the reader did not fail.
    ensures memory { IsErrOf result Refused.Memory
        → R.failures reader.new ≡ R.failures reader.old }

    // It reads at most one byte beyond the limit.
    ensures taken { R.given reader.new ≤ R.given reader.old + limits.input + 1 }
{
    let tables = index_tables(alloc, limits.ids);
    normalise_with(alloc, reader, writer, limits, tables, mode)
}

/// Does the same as [`normalise`] with these interning tables. They must be empty, each with the
/// limit `limits.ids`.
///
/// # Errors
///
/// The same as those of [`normalise`].
pub fn normalise_with<R: Source, W: Sink, T: NameTable + Drop>(
    alloc: Global,
    reader: &mut R,
    writer: &mut W,
    limits: Limits,
    tables: Tables<T>,
    mode: Mode,
) -> Result<(), Refused>
    requires limits { AreSound limits }
    requires tables { AreReady T.numbers T.limit limits tables }
    requires devices { CanRead R.Source reader.old × CanWrite W.Sink writer.old }

    // The guarantees of `normalise`, for any tables.
    ensures outcome { Streams R.Source W.Sink limits mode reader.old reader.new
        writer.old writer.new result }
    ensures memory { IsErrOf result Refused.Memory
        → R.failures reader.new ≡ R.failures reader.old }
    ensures taken { R.given reader.new ≤ R.given reader.old + limits.input + 1 }
{
    let Ok(mut records) = NormalRecords::new(alloc, limits, tables, mode) else {
        return Err(Refused::Memory);
    };
    write_records(alloc, &mut records, reader, writer, limits, mode)
}

/// Writes the normal form of each record of an input of which nothing has been read. The output of
/// records that were buffered together may be written together, before more is read.
fn write_records<R: Source, W: Sink, T: NameTable + Drop>(
    alloc: Global,
    records: &mut NormalRecords<T>,
    reader: &mut R,
    writer: &mut W,
    limits: Limits,
    mode: Mode,
) -> Result<(), Refused>
    requires limits { AreSound limits }
    requires represents { RepresentsBefore T.numbers T.limit limits mode [] records.old [] [] }
    requires devices { CanRead R.Source reader.old × CanWrite W.Sink writer.old }
    ensures outcome { Streams R.Source W.Sink limits mode reader.old reader.new
        writer.old writer.new result }

    // If an allocation failed, the output of every accepted record was written, except possibly
    // that of the last one.
    ensures given_up { IsErrOf result Refused.Memory
        → HasGivenUpAt R.Source W.Sink limits mode records.new.records.number
        reader.old reader.new writer.old writer.new }
    ensures memory { IsErrOf result Refused.Memory
        → R.failures reader.new ≡ R.failures reader.old }
    ensures taken { R.given reader.new ≤ R.given reader.old + limits.input + 1 }
{
    let mut text = Vec::new(alloc);
    'records: loop {
        match records.next(alloc, reader, &mut text) {
            Ok(true) => {
                if text.len() >= PIECE || !records.has_next() {
                    if write_all(writer, text.as_slice()).is_err() {
                        return Err(Refused::WriteFault);
                    }
                    text.clear();
                }
            }
            Ok(false) => return finish_output(writer, text.as_slice(), Ok(())),
            Err(refused) => return finish_output(writer, text.as_slice(), Err(refused)),
        }
    }
}
