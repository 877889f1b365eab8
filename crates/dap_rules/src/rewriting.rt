//! Rewrites recordings record by record: one loop for [`mask`](crate::mask) and
//! [`name`](crate::name).
ghost use Rattle.std.specs.Prelude.{◌≡◌, ◌+◌, ◌≤◌, IsErrOf, List, length, OnErr};
ghost use Rattle.dap_device.specs.Devices.{CanRead, CanWrite};
ghost use Rattle.dap_message.specs.Message.{Sent};
ghost use Rattle.dap_mask.specs.KeptRules.{mask_of};
ghost use Rattle.dap_input.specs.{ItemReading.RepresentsRecord, Limits.AreSound};
ghost use Rattle.dap_input.specs.{RecordSteps.IsAtStart, Streaming.{HasGivenUpAt, Streams}};
ghost use Rattle.dap_normalise.specs.{Accepting.Fits, JudgingSteps.payload_of};
ghost use Rattle.dap_rules.specs.Rewriting.{Gives, Promises, rewriting, rewritten};
ghost use Rattle.dap_rules.specs.Rewriting.{rewritten_text};
ghost use Rattle.dap_rules.specs.RewritingSteps.{HasNumbered, Rewritten};

use crate::mask_records::append_masked;
use crate::name_records::append_named;
use crate::passes::{Pass, Room};
use dap_device::{Sink, Source, write_all};
use dap_input::{Limits, Records, Refused};
use dap_mask::MaskRules;
use dap_naming::ValueNumbers;
use dap_normalise::{PIECE, finish_output};
use dap_recording::{Record, RecordReader};
use dap_tree::Scratch;
use std::alloc::Global;

/// Appends the record that the pass makes of `whole` to an output that has `written` bytes so far.
/// Returns the new number of bytes. Appends nothing on an error.
fn append(
    alloc: Global,
    pass: Pass,
    rules: &MaskRules,
    number: u64,
    whole: &Record,
    written: u64,
    limits: Limits,
    room: &mut Room,
    out: &mut Vec<u8>,
) -> Result<u64, Refused>
    requires sound { AreSound limits }
    requires short { written ≤ limits.input }
    requires numbered { (messages : List Sent)
        × HasNumbered pass limits (mask_of rules.now) messages room.old.numbers }
    ensures rewritten { (messages : List Sent)
        → Fits limits (rewritten pass (mask_of rules.now) messages)
        → written ≡ length (rewritten_text pass (mask_of rules.now) messages)
        → HasNumbered pass limits (mask_of rules.now) messages room.old.numbers
        → Rewritten pass limits (mask_of rules.now) messages (payload_of whole.now) number
        out.old.items out.new.items room.new.numbers result }
    ensures kept { OnErr result (out.new.items ≡ out.old.items) }
{
    match pass {
        Pass::Mask => append_masked(alloc, rules, number, whole, written, limits, room, out),
        Pass::Name => append_named(alloc, rules, number, whole, written, limits, room, out),
    }
}

/// Rewrites and writes each record of an input that has not been read yet. Records that are
/// buffered together are written together, before more is read.
fn rewrite_records<R: Source, W: Sink>(
    alloc: Global,
    pass: Pass,
    rules: &MaskRules,
    records: &mut Records<RecordReader>,
    reader: &mut R,
    writer: &mut W,
    limits: Limits,
) -> Result<(), Refused>
    requires limits { AreSound limits }
    requires start { IsAtStart (RepresentsRecord limits.frame) limits.input records.old }
    requires devices { CanRead R.Source reader.old × CanWrite W.Sink writer.old }
    ensures outcome { Streams (rewriting pass limits (mask_of rules.now)) (Gives pass limits
        (mask_of rules.now)) (Promises pass limits (mask_of rules.now)) R.Source W.Sink reader.old
        reader.new writer.old writer.new result }

    // After a failed allocation, each record that was read has been rewritten and written, except
    // possibly the last one.
    ensures given_up { IsErrOf result Refused.Memory
        → HasGivenUpAt (rewriting pass limits (mask_of rules.now)) (Gives pass limits (mask_of
        rules.now)) (Promises pass limits (mask_of rules.now)) R.Source W.Sink records.new.number
        reader.old reader.new writer.old writer.new }
    ensures taken { R.given reader.new ≤ R.given reader.old + limits.input + 1 }
{
    let mut room = Room {
        scratch: Scratch::new(alloc),
        content: Vec::new(alloc),
        numbers: ValueNumbers::new(alloc, limits.ids as u64),
    };
    let mut text = Vec::new(alloc);
    let mut written = 0;
    'records: loop {
        let number = records.number();
        let whole = match records.next(reader) {
            Ok(Some(whole)) => whole,
            Ok(None) => return finish_output(writer, text.as_slice(), Ok(())),
            Err(because) => return finish_output(writer, text.as_slice(), Err(because)),
        };
        written = match append(
            alloc, pass, rules, number, &whole, written, limits, &mut room, &mut text,
        ) {
            Ok(after) => after,
            Err(because) => return finish_output(writer, text.as_slice(), Err(because)),
        };
        records.recycle(whole);
        if text.len() >= PIECE || !records.has_next() {
            if write_all(writer, text.as_slice()).is_err() {
                return Err(Refused::WriteFault);
            }
            text.clear();
        }
    }
}

/// Reads a recording and writes what the pass makes of it, record by record.
///
/// # Errors
///
/// Those of [`mask`](crate::mask) and [`name`](crate::name).
pub(crate) fn rewrite<R: Source, W: Sink>(
    alloc: Global,
    pass: Pass,
    rules: &MaskRules,
    reader: &mut R,
    writer: &mut W,
    limits: Limits,
) -> Result<(), Refused>
    requires limits { AreSound limits }
    requires devices { CanRead R.Source reader.old × CanWrite W.Sink writer.old }
    ensures outcome { Streams (rewriting pass limits (mask_of rules.now)) (Gives pass limits
        (mask_of rules.now)) (Promises pass limits (mask_of rules.now)) R.Source W.Sink reader.old
        reader.new writer.old writer.new result }
    ensures taken { R.given reader.new ≤ R.given reader.old + limits.input + 1 }
{
    let frames = RecordReader::new(alloc, limits.frame);
    let mut records = match Records::new(alloc, frames, limits.input) {
        Ok(records) => records,
        Err(_) => return Err(Refused::Memory),
    };
    rewrite_records(alloc, pass, rules, &mut records, reader, writer, limits)
}
