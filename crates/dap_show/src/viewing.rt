//! Prints recordings as lines, with or without their errors.
ghost use Rattle.std.specs.Prelude.{◌≡◌, ◌+◌, ◌≤◌, [], IsErrOf, None};
ghost use Rattle.dap_device.specs.Devices.{CanRead, CanWrite};
ghost use Rattle.dap_input.specs.{Engine.ReadsNoneOrAll, ItemReading.RepresentsRecord};
ghost use Rattle.dap_input.specs.{Limits.AreSound, RecordSteps.IsAtStart};
ghost use Rattle.dap_show.specs.Viewing.{ShowsInput, ShowsLists, ViewsInput, with_marks};
ghost use Rattle.dap_show.specs.ViewingSteps.{Finishes, ShowsRecords};

use crate::detail::{Detail, View};
use crate::entries::append_entry;
use crate::fault_words::push_stop;
use crate::leaves::Buffers;
use dap_device::{Sink, Source, write_and_flush};
use dap_input::{Limits, Records, Refused};
use dap_recording::RecordReader;
use dap_session::Session;
use dap_tree::Scratch;
use std::alloc::Global;

/// Appends the lines of all records, and stores the first error that marks a record.
fn view_records<R: Source>(
    alloc: Global,
    view: View,
    records: &mut Records<RecordReader>,
    reader: &mut R,
    lines: &mut Vec<u8>,
    first: &mut Option<Refused>,
) -> Result<(), Refused>
    requires sound { AreSound view.limits }
    requires start { IsAtStart (RepresentsRecord view.limits.frame) view.limits.input records.old }
    requires lines { lines.old.items ≡ [] }
    requires first { first.old ≡ None }
    requires reader { CanRead R.Source reader.old }
    ensures { ShowsRecords view R.Source reader.old reader.new records.new lines.new.items first.new
        result }
{
    let mut session = Session::new(alloc);
    let mut scratch = Scratch::new(alloc);
    let mut buffers = Buffers::new(alloc);
    'each: loop {
        let number = records.number();
        let Some(whole) = records.next(reader)? else {
            return Ok(());
        };
        let refusal = append_entry(
            alloc,
            view,
            number,
            &whole,
            &mut session,
            &mut scratch,
            &mut buffers,
            lines,
        )?;
        *first = first.or(refusal);
        records.recycle(whole);
    }
}

/// Appends the line of an error of the framing, if errors are marked. Returns any other rejection.
fn finish(
    marks_faults: bool,
    stopped: Result<(), Refused>,
    lines: &mut Vec<u8>,
    first: &mut Option<Refused>,
) -> Result<(), Refused>
    ensures { Finishes marks_faults stopped lines.old.items lines.new.items first.old first.new
        result }
{
    let Err(refused) = stopped else {
        return Ok(());
    };
    if !marks_faults {
        return Err(refused);
    }
    match push_stop(lines, refused) {
        Ok(true) => {
            *first = first.or(Some(refused));
            Ok(())
        }
        Ok(false) => Err(refused),
        Err(_) => Err(Refused::Memory),
    }
}

/// Reads an input and writes its lines.
fn view_input<R: Source, W: Sink>(
    alloc: Global,
    reader: &mut R,
    writer: &mut W,
    view: View,
) -> Result<Option<Refused>, Refused>
    requires limits { AreSound view.limits }
    requires devices { CanRead R.Source reader.old × CanWrite W.Sink writer.old }
    ensures outcome { ViewsInput view R.Source W.Sink reader.old reader.new writer.old writer.new
        result }
    ensures taken { R.given reader.new ≤ R.given reader.old + view.limits.input + 1 }
{
    let record_reader = RecordReader::new(alloc, view.limits.frame);
    let Ok(mut records) = Records::new(alloc, record_reader, view.limits.input) else {
        return Err(Refused::Memory);
    };
    let mut lines = Vec::new(alloc);
    let mut first = None;
    let stopped = view_records(alloc, view, &mut records, reader, &mut lines, &mut first);
    finish(view.marks_faults, stopped, &mut lines, &mut first)?;
    match write_and_flush(writer, lines.as_slice()) {
        Ok(()) => Ok(first),
        Err(_) => Err(Refused::WriteFault),
    }
}

/// Reads a recording and writes it as lines, for people.
///
/// Record N, whose side has the marker M, produces `N M request NAME seq=S`,
/// `N M event NAME seq=S`, or `N M response NAME seq=S request_seq=Q ok` (or `failed`). It is
/// followed by one line for each stack frame, scope and variable that the message lists:
///
/// - `  frame ID LINE:COLUMN NAME`
/// - `  scope REFERENCE NAME`
/// - `  variable REFERENCE NAME VALUE`
///
/// Names and values are JSON strings in quotes; ids are printed unchanged. The session rules are
/// not checked.
///
/// Reads and checks the whole input, at most one byte past `limits.input`, and writes and flushes
/// last. Nothing is written if the input is rejected. Buffers one record and the output. Records
/// are numbered from 1 in the order of the input.
///
/// # Errors
///
/// - `InputTooLong`, `Record`, `Json`, `Fraction`, `Message`: the first error of the input. The
///   rest of the input is then read and discarded; if a read then fails, that is not reported.
/// - `ReadFault`: the reader failed, and the bytes read so far contain no error other than being
///   incomplete.
/// - `WriteFault`: the writer failed.
/// - `Memory`: an allocation failed.
pub fn show<R: Source, W: Sink>(
    alloc: Global,
    reader: &mut R,
    writer: &mut W,
    limits: Limits,
) -> Result<(), Refused>
    requires limits { AreSound limits }
    requires devices { CanRead R.Source reader.old × CanWrite W.Sink writer.old }

    // The lines of the input's messages are written and flushed, or its first error is returned and
    // nothing is written. `WriteFault` is returned if and only if the writer failed, `ReadFault`
    // only if the reader failed: a read that fails after a rejection is not reported.
    ensures outcome { ShowsLists limits R.Source W.Sink reader.old reader.new writer.old writer.new
        result }

    // After a failed allocation, either nothing or the whole input was read.
    ensures memory { IsErrOf result Refused.Memory
        → ReadsNoneOrAll R.Source limits.input reader.old reader.new }

    // At most one byte past the limit is read.
    ensures taken { R.given reader.new ≤ R.given reader.old + limits.input + 1 }
{
    let record_reader = RecordReader::new(alloc, limits.frame);
    let Ok(mut records) = Records::new(alloc, record_reader, limits.input) else {
        return Err(Refused::Memory);
    };
    let view = View {
        detail: Detail::Lists,
        limits,
        marks_faults: false,
    };
    let mut lines = Vec::new(alloc);
    let mut first = None;
    match view_records(alloc, view, &mut records, reader, &mut lines, &mut first) {
        Ok(()) => match write_and_flush(writer, lines.as_slice()) {
            Ok(()) => Ok(()),
            Err(_) => Err(Refused::WriteFault),
        },
        Err(refused) => {
            records.drain(reader);
            Err(refused)
        }
    }
}

/// Reads a recording and writes it as lines, for people.
///
/// With [`Detail::Lists`] the lines are those of [`show`](crate::show). With [`Detail::Leaves`] the
/// lines of frames, scopes and variables are replaced by one line for each leaf of the content: two
/// spaces, the path as `diff` writes it, a space, and the complete value as canonical JSON. The
/// session rules are not checked.
///
/// Reads the input up to its end or its first error, then writes, and flushes last. Nothing is
/// written if the input is rejected. Buffers one record and the output. Records are numbered from
/// 1.
///
/// # Errors
///
/// - `InputTooLong`, `Record`, `Json`, `Fraction`, `Message`: the first error of the input.
/// - `Grew`: the lines of the leaves are longer than `limits.input`.
/// - `ReadFault`: the reader failed before an error in the input.
/// - `WriteFault`: the writer failed.
/// - `Memory`: an allocation failed.
pub fn show_with<R: Source, W: Sink>(
    alloc: Global,
    reader: &mut R,
    writer: &mut W,
    limits: Limits,
    detail: Detail,
) -> Result<(), Refused>
    requires limits { AreSound limits }
    requires devices { CanRead R.Source reader.old × CanWrite W.Sink writer.old }

    // The lines of all records are written and flushed, or the first error is returned and nothing
    // is written. `WriteFault` is returned if and only if the writer failed, `ReadFault` only if
    // the reader failed.
    ensures outcome { ShowsInput detail limits R.Source W.Sink reader.old reader.new writer.old
        writer.new result }

    // At most one byte past the limit is read.
    ensures taken { R.given reader.new ≤ R.given reader.old + limits.input + 1 }
{
    let view = View {
        detail,
        limits,
        marks_faults: false,
    };
    match view_input(alloc, reader, writer, view) {
        Ok(_) => Ok(()),
        Err(refused) => Err(refused),
    }
}

/// Does the same as [`show_with`], but marks records with errors and continues after them. Returns
/// the first of their errors.
///
/// A message that violates a session rule has the line `  fault: RULE` under its first line. Each
/// message is checked against the earlier messages that violate no rule. A record that does not
/// contain a message has only the line `N M fault: FAULT`: M is the marker of its side, and FAULT
/// the name of its error. After an error of the framing the start of the next record is unknown, so
/// the line `N fault: FAULT` of that record is the last one.
///
/// # Errors
///
/// - `Grew`, `ReadFault`, `WriteFault` and `Memory`, as for [`show_with`].
pub fn show_faulty<R: Source, W: Sink>(
    alloc: Global,
    reader: &mut R,
    writer: &mut W,
    limits: Limits,
    detail: Detail,
) -> Result<Option<Refused>, Refused>
    requires limits { AreSound limits }
    requires devices { CanRead R.Source reader.old × CanWrite W.Sink writer.old }

    // The lines of all records, or those before an error of the framing and the line of that error,
    // are written and flushed. Otherwise nothing is written. `WriteFault` is returned if and only
    // if the writer failed, `ReadFault` only if the reader failed.
    ensures outcome { ViewsInput (with_marks detail limits) R.Source W.Sink reader.old reader.new
        writer.old writer.new result }

    // At most one byte past the limit is read.
    ensures taken { R.given reader.new ≤ R.given reader.old + limits.input + 1 }
{
    let view = View {
        detail,
        limits,
        marks_faults: true,
    };
    view_input(alloc, reader, writer, view)
}
