//! Converts traces into recordings.
ghost use Rattle.std.specs.Prelude.{[], ◌≡◌, ◌+◌, ◌-◌, ◌<◌, ◌≤◌, ◌^◌, List, ℕ, ◌++◌, length, take};
ghost use Rattle.dap_device.specs.{Devices.{CanRead, CanWrite}, Reading.FitsStop};
ghost use Rattle.dap_frame.specs.declared.limits.FrameLimits.{FrameLimits};
ghost use Rattle.dap_recording.specs.RecorderReading.{RepresentsRests, recorder_limits, text_of};
ghost use Rattle.dap_tree.specs.declared.side.Side.{Side};
ghost use Rattle.dap_input.specs.Limits.{AreSound};
ghost use Rattle.dap_record.specs.TracingRun.{RecordsTrace};
ghost use Rattle.dap_record.specs.TracingSteps.{HasReadOn, HasRecorded, HasSentRecords};
ghost use Rattle.dap_record.specs.TracingSteps.{RecordsPiece, RecordsRun, Traces, TracesInput};
ghost use Rattle.dap_record.specs.TracingSteps.{Tracing};

use dap_device::{Pieces, Sink, Source, Stop, write_and_flush};
use dap_input::{Limits, Refused};
use dap_message::Side;
use dap_recording::{Recorder, RecorderFault, TraceReader};
use std::alloc::Global;

/// Records the frames that end in a run of raw bytes of one side.
fn record_run(recorder: &mut Recorder, side: Side, run: &[u8]) -> Result<(), RecorderFault>
    ensures { (limits : FrameLimits) (taken : List (Side × ℕ))
        → HasRecorded limits recorder.old taken
        → RecordsRun limits recorder.new taken side run.now result }
{
    let mut rest = run;
    while !rest.is_empty() {
        let used = recorder.piece(side, rest)?;
        rest = &rest[used..];
    }
    Ok(())
}

/// Records the next chunk of a trace. `last` is the number of the piece that the previous run
/// belongs to. Returns that number after this chunk.
fn record_piece(
    recorder: &mut Recorder,
    trace: &mut TraceReader,
    last: u64,
    piece: &[u8],
) -> Result<u64, Refused>
    ensures { (limits : Limits) (bytes : List ℕ) → AreSound limits
        → length (bytes ++ piece.now) ≤ limits.input
        → Tracing limits bytes [] trace.old recorder.old last
        → RecordsPiece limits (bytes ++ piece.now) trace.new recorder.new result }
{
    let mut last = last;
    let mut rest = piece;
    while !rest.is_empty() {
        let fed = match trace.feed(rest) {
            Ok(fed) => fed,
            Err(fault) => return Err(Refused::Trace(fault.piece, fault.cause)),
        };
        rest = &rest[fed.used..];
        if let Some(part) = fed.part {
            last = part.piece;
            if let Err(fault) = record_run(recorder, part.side, part.bytes) {
                return match fault {
                    RecorderFault::Memory => Err(Refused::Memory),
                    _ => Err(Refused::Recorder(last, fault)),
                };
            }
        }
    }
    Ok(last)
}

/// Returns the result for a trace after which no more bytes arrive, for the reason `stop`.
fn end_trace(
    recorder: &Recorder,
    trace: &TraceReader,
    last: u64,
    stop: Stop,
    limits: Limits,
) -> Result<(), Refused>
    requires sound { AreSound limits }
    requires represents { (whole : List ℕ) × Tracing limits whole [] trace.now recorder.now last }
    ensures { (whole bytes : List ℕ) → Tracing limits whole [] trace.now recorder.now last
        → whole ≡ take limits.input bytes → FitsStop limits.input bytes stop
        → Traces limits bytes stop result recorder.now }
{
    let ended = trace.finish();
    match stop {
        Stop::Full => match ended {
            Ok(()) => Err(Refused::TraceTooLong(last + 1)),
            Err(fault) => Err(Refused::TraceTooLong(fault.piece)),
        },
        Stop::Failed => Err(Refused::ReadFault),
        Stop::End => match ended {
            Ok(()) => match recorder.finish() {
                Ok(()) => Ok(()),
                Err(fault) => Err(Refused::Recorder(last, fault)),
            },
            Err(fault) => Err(Refused::Trace(fault.piece, fault.cause)),
        },
    }
}

/// Reads and discards the rest of an input, up to one byte past the limit.
fn drop_rest<R: Source>(pieces: &mut Pieces, reader: &mut R)
    requires given { R.given reader.old + (pieces.old.limit - pieces.old.taken) < 2 ^ 63 }
    requires failures { R.failures reader.old < 2 ^ 63 }
    ensures { pieces.old.taken ≤ pieces.old.limit
        → (stop : Stop) × HasReadOn R.Source pieces.old reader.old reader.new stop }
{
    while pieces.fill(reader).is_ok() {
        let count = pieces.unread().len();
        pieces.skip(count);
    }
}

/// Records a trace chunk by chunk, to the end of its input. With every result, the recorder's text
/// is the recording of the frames that ended.
fn record_input<R: Source>(
    pieces: &mut Pieces,
    reader: &mut R,
    recorder: &mut Recorder,
    limits: Limits,
) -> Result<(), Refused>
    requires sound { AreSound limits }
    requires at_start { pieces.old ≡ record { unread = []; taken = 0; limit = limits.input } }
    requires reader { CanRead R.Source reader.old }
    requires new { RepresentsRests recorder.old (λ side. []) }
    requires empty { text_of recorder.old ≡ [] }
    requires its_limits { recorder_limits recorder.old ≡ limits.frame }
    ensures { TracesInput R.Source limits reader.old reader.new result recorder.new }
{
    let mut trace = TraceReader::new();
    let mut last: u64 = 0;
    loop {
        if let Err(stop) = pieces.fill(reader) {
            return end_trace(recorder, &trace, last, stop, limits);
        }
        match record_piece(recorder, &mut trace, last, pieces.unread()) {
            Ok(piece) => last = piece,
            Err(refused) => {
                drop_rest(pieces, reader);
                return Err(refused);
            }
        }
        let count = pieces.unread().len();
        pieces.skip(count);
    }
}

/// Writes the records of the frames that ended, flushes, and returns `answer`. Writes nothing if
/// `answer` is `Memory`.
fn write_records<W: Sink>(
    writer: &mut W,
    records: &[u8],
    outcome: Result<(), Refused>,
) -> Result<(), Refused>
    requires writer { CanWrite W.Sink writer.old }
    ensures { HasSentRecords W.Sink records.now outcome writer.old writer.new result }
{
    match outcome {
        Err(Refused::Memory) => Err(Refused::Memory),
        _ => match write_and_flush(writer, records) {
            Ok(()) => outcome,
            Err(_) => Err(Refused::WriteFault),
        },
    }
}

/// Reads a trace and writes its recording: the frames that both sides sent, in the order of the
/// bytes that end them, with unchanged contents.
///
/// Reads the whole input in chunks, even after an error, and at most one byte past `limits.input`.
/// Buffers one chunk and the recording, which it writes and flushes last. The records of the frames
/// that ended are written with every result except `Memory` and `WriteFault`, so an error does not
/// lose earlier records. Pieces of the trace are numbered from 1.
///
/// # Errors
///
/// The error that occurs first in the input: a byte past the limit (`TraceTooLong`), an error in a
/// piece (`Trace`) or an error in a frame of a side (`Recorder`). At the end of the trace, `Cut` is
/// returned if something is incomplete: the last piece, otherwise a frame of the client, otherwise
/// a frame of the adapter.
///
/// - `ReadFault`: the reader failed, and the bytes read so far contain no error other than being
///   incomplete. After another error the rest of the input is read and discarded; if a read then
///   fails, that is not reported.
/// - `WriteFault`: the writer failed, possibly after an error in the trace.
/// - `Memory`: an allocation failed.
pub fn record<R: Source, W: Sink>(
    alloc: Global,
    reader: &mut R,
    writer: &mut W,
    limits: Limits,
) -> Result<(), Refused>
    requires limits { AreSound limits }
    requires devices { CanRead R.Source reader.old × CanWrite W.Sink writer.old }

    // The records of the frames that ended are written and flushed, even after a rejection. After
    // `Memory` nothing is written. `WriteFault` is returned if and only if the writer failed,
    // `ReadFault` only if the reader failed: a read that fails after a rejection is not reported.
    ensures outcome { RecordsTrace R.Source W.Sink limits reader.old reader.new
        writer.old writer.new result }

    // At most one byte past the limit is read.
    ensures taken { R.given reader.new ≤ R.given reader.old + limits.input + 1 }
{
    let mut pieces = match Pieces::new(alloc, limits.input) {
        Ok(pieces) => pieces,
        Err(_) => return Err(Refused::Memory),
    };
    let mut recorder = Recorder::new(alloc, limits.frame);
    let outcome = record_input(&mut pieces, reader, &mut recorder, limits);
    write_records(writer, recorder.text(), outcome)
}
