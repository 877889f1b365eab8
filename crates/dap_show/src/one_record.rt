//! Prints the content of one record.
ghost use Rattle.std.specs.Prelude.{◌+◌, ◌≤◌, IfOk};
ghost use Rattle.dap_device.specs.Devices.{CanRead, CanWrite};
ghost use Rattle.dap_input.specs.{ItemReading.RepresentsRecord, Limits.AreSound};
ghost use Rattle.dap_input.specs.RecordSteps.{IsAtStart};
ghost use Rattle.dap_show.specs.OneRecord.{Finds, PrintsContent, ShowsRecord};

use crate::indented::indented_text;
use dap_device::{Sink, Source, write_and_flush};
use dap_input::{Limits, Records, Refused};
use dap_recording::{Record, RecordReader};
use dap_tree::{TreeFault, read_tree};
use std::alloc::{AllocError, Global};

/// Whether the record exists.
#[derive(Clone, Copy, Debug, PartialEq, Eq)]
pub enum RecordShown {
    /// Its content was written.
    Shown,
    /// The recording has only this many records. No recording has a record 0.
    Missing(u64),
}

/// The record with the requested number, or the number of records.
#[derive(Drop)]
enum Found {
    Whole(Record),
    Missing(u64),
}

/// Reads records up to the one with this number.
fn find_record<R: Source>(
    records: &mut Records<RecordReader>,
    reader: &mut R,
    limits: Limits,
    number: u64,
) -> Result<Found, Refused>
    requires sound { AreSound limits }
    requires start { IsAtStart (RepresentsRecord limits.frame) limits.input records.old }
    requires reader { CanRead R.Source reader.old }
    ensures { Finds limits R.Source reader.old reader.new number result }
{
    'each: loop {
        let at = records.number();
        let Some(whole) = records.next(reader)? else {
            return Ok(Found::Missing(at - 1));
        };
        if at == number {
            return Ok(Found::Whole(whole));
        }
        records.recycle(whole);
    }
}

/// Returns the text that is printed of a content, with the final LF.
fn text_of(alloc: Global, content: &[u8]) -> Result<Vec<u8>, AllocError>
    ensures { IfOk result (λ text. PrintsContent content.now text.items) }
{
    match read_tree(alloc, content) {
        Ok(tree) => {
            let mut text = indented_text(alloc, &tree)?;
            text.extend_from_slice(b"\n")?;
            Ok(text)
        }
        Err(TreeFault::Json | TreeFault::Fraction) => {
            let mut plain = Vec::from_slice(alloc, content)?;
            plain.extend_from_slice(b"\n")?;
            Ok(plain)
        }
        Err(TreeFault::Memory) => Err(AllocError),
    }
}

/// Writes the content of the record with this number, counted from 1, as indented JSON.
///
/// The output is indented by two spaces per level. It has one line for each scalar, for each empty
/// array or object, and for each bracket of any other array or object. Members are in the byte
/// order of their names. The output ends with LF. A content that is not JSON, or contains a number
/// that is not an integer from -2^63 to 2^64 - 1, is written unchanged, with LF after it. The
/// contents of earlier records are not checked, and the input after this record is ignored: at most
/// 65,536 bytes past it are read.
///
/// # Errors
///
/// - `InputTooLong` or `Record`: the framing of this record or of an earlier one is invalid.
/// - `ReadFault`: the reader failed before the end of this record.
/// - `WriteFault`: the writer failed.
/// - `Memory`: an allocation failed.
pub fn show_record<R: Source, W: Sink>(
    alloc: Global,
    reader: &mut R,
    writer: &mut W,
    limits: Limits,
    number: u64,
) -> Result<RecordShown, Refused>
    requires limits { AreSound limits }
    requires devices { CanRead R.Source reader.old × CanWrite W.Sink writer.old }

    // The text of the record's content is written and flushed. If the record does not exist or the
    // input is rejected, nothing is written.
    ensures outcome { ShowsRecord limits R.Source W.Sink number reader.old reader.new writer.old
        writer.new result }

    // At most one byte past the limit is read.
    ensures taken { R.given reader.new ≤ R.given reader.old + limits.input + 1 }
{
    let record_reader = RecordReader::new(alloc, limits.frame);
    let Ok(mut records) = Records::new(alloc, record_reader, limits.input) else {
        return Err(Refused::Memory);
    };
    let whole = match find_record(&mut records, reader, limits, number) {
        Ok(Found::Whole(whole)) => whole,
        Ok(Found::Missing(count)) => return Ok(RecordShown::Missing(count)),
        Err(refused) => return Err(refused),
    };
    let Ok(text) = text_of(alloc, whole.content.as_slice()) else {
        return Err(Refused::Memory);
    };
    match write_and_flush(writer, text.as_slice()) {
        Ok(()) => Ok(RecordShown::Shown),
        Err(_) => Err(Refused::WriteFault),
    }
}
