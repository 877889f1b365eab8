//! Rewrites the contents of frames as canonical JSON.
ghost use Rattle.std.specs.Prelude.{◌≡◌, ◌+◌, ◌≤◌, IsErrOf, List, Result, Ok, Err};
ghost use Rattle.dap_device.specs.Devices.{CanRead, CanWrite};
ghost use Rattle.dap_tree.specs.Doc.{Doc};
ghost use Rattle.dap_compact.specs.Compacting.{Compacts, Fits, compacting, text};
ghost use Rattle.dap_compact.specs.CompactingSteps.{Appended, JudgesInput};
ghost use Rattle.dap_input.specs.{Engine.{Answers, ReadsNoneOrAll}, ItemReading.RepresentsFrame};
ghost use Rattle.dap_input.specs.{Limits.AreSound, RecordSteps.IsAtStart, Refusals.IsRefused};

use dap_device::{Sink, Source, write_and_flush};
use dap_flat::append_canonical;
use dap_frame::{FrameFault, Framer, write_frame};
use dap_input::{Limits, Records, Refused};
use dap_tree::{Scratch, TreeFault};
use std::alloc::Global;

/// Buffers that are reused for each record.
#[derive(Drop)]
struct Room {
    scratch: Scratch,
    /// The canonical JSON of a content.
    text: Vec<u8>,
}

/// Appends the frame of the canonical form of a record's content to the output.
fn append_compact(
    alloc: Global,
    out: &mut Vec<u8>,
    number: u64,
    content: &[u8],
    limits: Limits,
    room: &mut Room,
) -> Result<(), Refused>
    requires { AreSound limits }
    ensures { (values : List Doc) → Fits limits values → out.old.items ≡ text values
        → Appended limits values number content.now result out.new.items }
{
    room.text.clear();
    match append_canonical(alloc, content, &mut room.scratch, &mut room.text) {
        Ok(()) => {}
        Err(TreeFault::Json) => return Err(Refused::Json(number)),
        Err(TreeFault::Fraction) => return Err(Refused::Fraction(number)),
        Err(TreeFault::Memory) => return Err(Refused::Memory),
    }
    match write_frame(out, room.text.as_slice(), limits.frame) {
        Ok(()) => {}
        Err(FrameFault::ContentTooLong) => return Err(Refused::Grew(number)),
        Err(_) => return Err(Refused::Memory),
    }
    if limits.input < out.len() as u64 {
        return Err(Refused::Grew(number));
    }
    Ok(())
}

/// Returns the output for all records, or the first error.
fn compact_records<R: Source>(
    alloc: Global,
    records: &mut Records<Framer>,
    reader: &mut R,
    limits: Limits,
) -> Result<Vec<u8>, Refused>
    requires sound { AreSound limits }
    requires start { IsAtStart (RepresentsFrame limits.frame) limits.input records.old }
    requires reader { CanRead R.Source reader.old }
    ensures { JudgesInput limits R.Source reader.old reader.new records.new
        result }
{
    let mut room = Room {
        scratch: Scratch::new(alloc),
        text: Vec::new(alloc),
    };
    let mut out = Vec::new(alloc);
    loop {
        let number = records.number();
        let Some(content) = records.next(reader)? else {
            return Ok(out);
        };
        append_compact(
            alloc,
            &mut out,
            number,
            content.as_slice(),
            limits,
            &mut room,
        )?;
        records.recycle(content);
    }
}

/// Reads frames of one direction and writes frames with their canonical contents.
///
/// A canonical content is JSON without spaces, with the members of each object in the byte order of
/// their names. The command reads and checks its complete input, at most one byte beyond
/// `limits.input`, before it writes and flushes its output. It writes nothing if the input is
/// rejected. It buffers one record at a time, and the complete output. Records are counted from 1
/// in the order of the input.
///
/// # Errors
///
/// - The first error of the input. The rest of the input is then read and discarded, and a failure
///   of that reading is not reported.
/// - `ReadFault`: the reader failed, and the bytes read so far contain no error other than being
///   incomplete.
/// - `WriteFault`: the writer failed.
/// - `Memory`: an allocation failed.
pub fn compact<R: Source, W: Sink>(
    alloc: Global,
    reader: &mut R,
    writer: &mut W,
    limits: Limits,
) -> Result<(), Refused>
    requires limits { AreSound limits }
    requires devices { CanRead R.Source reader.old × CanWrite W.Sink writer.old }

    // The output for the input is written and flushed, or its first error is returned and nothing
    // is written. `WriteFault` is returned if and only if the writer failed. `ReadFault` is
    // returned only if the reader failed: a failure after another error is not reported.
    ensures outcome { Answers R.Source W.Sink limits.input (Compacts limits)
        (IsRefused (compacting limits)) reader.old reader.new writer.old writer.new result }

    // If an allocation failed, either nothing of the input was read, or all of it was.
    ensures memory { IsErrOf result Refused.Memory
        → ReadsNoneOrAll R.Source limits.input reader.old reader.new }

    // It reads at most one byte beyond the limit.
    ensures taken { R.given reader.new ≤ R.given reader.old + limits.input + 1 }
{
    let framer = Framer::new(alloc, limits.frame);
    let mut records = match Records::new(alloc, framer, limits.input) {
        Ok(records) => records,
        Err(_) => return Err(Refused::Memory),
    };
    match compact_records(alloc, &mut records, reader, limits) {
        Ok(text) => match write_and_flush(writer, text.as_slice()) {
            Ok(()) => Ok(()),
            Err(_) => Err(Refused::WriteFault),
        },
        Err(refused) => {
            records.drain(reader);
            Err(refused)
        }
    }
}
