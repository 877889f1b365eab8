//! Prints a recording as a transcript.
ghost use Rattle.std.specs.Prelude.{◌≡◌, ◌+◌, ◌≤◌, IfErr, IfOk};
ghost use Rattle.dap_device.specs.Devices.{CanRead, CanWrite};
ghost use Rattle.dap_input.specs.Limits.{AreSound};
ghost use Rattle.dap_normalise.specs.Normalising.{RefusesBytes};
ghost use Rattle.dap_rename.specs.declared.mode.Mode.TheVariants.{Whole};
ghost use Rattle.dap_show.specs.Transcripts.{IsTranscriptOf, ShowsTranscript, result_of_input};
ghost use Rattle.dap_stored.specs.Sessions.{messages_of};
ghost use Rattle.dap_transcript.specs.Transcript.{transcript};

use dap_device::{Sink, Source, Stop, read_all, write_and_flush};
use dap_input::{Limits, Refused};
use dap_normalise::read_session;
use dap_recording::RecordCause;
use dap_rename::Mode;
use dap_stored::StoredSession;
use dap_transcript::write_transcript;
use std::alloc::{AllocError, Global};

/// Returns the transcript of the messages of a session.
fn transcript_of_session(alloc: Global, session: &StoredSession) -> Result<Vec<u8>, AllocError>
    ensures { IfOk result (λ text. text.items ≡ transcript (messages_of session.now)) }
{
    let messages = session.views(alloc)?;
    write_transcript(alloc, &messages)
}

/// Returns the transcript of a recording. Drops the recording once its messages are read.
fn transcript_of(alloc: Global, recording: Vec<u8>, limits: Limits) -> Result<Vec<u8>, Refused>
    requires { AreSound limits }
    ensures ok { IfOk result (λ text. IsTranscriptOf limits recording.items text.items) }
    ensures err { IfErr result (RefusesBytes limits Whole recording.items) }
{
    let session = read_session(alloc, recording.as_slice(), limits, Mode::Whole)?;
    drop(recording);
    match transcript_of_session(alloc, &session) {
        Ok(text) => Ok(text),
        Err(_) => Err(Refused::Memory),
    }
}

/// Returns the text to be written for an input, given the text for its bytes. If the reader failed
/// after them and they contain no error other than being incomplete, returns `ReadFault`.
fn text_of_input(text: Result<Vec<u8>, Refused>, stop: Stop) -> Result<Vec<u8>, Refused>
    ensures { result ≡ result_of_input text stop }
{
    match (text, stop) {
        (Ok(_), Stop::Failed) => Err(Refused::ReadFault),
        (Err(Refused::Record(_, RecordCause::Cut)), Stop::Failed) => Err(Refused::ReadFault),
        (text, _) => text,
    }
}

/// Reads a recording and writes the transcript of its messages: the session as a page of YAML, as
/// [`write_transcript`] returns it.
///
/// The recording is checked in the same way as by [`check`](dap_normalise::check). Its messages are
/// not renumbered.
///
/// Reads the whole input, at most one byte past `limits.input`, before it writes. If the input is
/// rejected, nothing is written. The output is flushed. Buffers the input while its messages are
/// read, and then the messages and the transcript. Records are numbered from 1 in the order of the
/// input.
///
/// # Errors
///
/// - The first error of the input, if it is rejected.
/// - `ReadFault`: the reader failed, and the bytes read before contain no error other than being
///   incomplete.
/// - `WriteFault`: the writer failed. A prefix of the transcript was written.
/// - `Memory`: an allocation failed.
pub fn show_transcript<R: Source, W: Sink>(
    alloc: Global,
    reader: &mut R,
    writer: &mut W,
    limits: Limits,
) -> Result<(), Refused>
    requires limits { AreSound limits }
    requires devices { CanRead R.Source reader.old × CanWrite W.Sink writer.old }

    // The transcript of the input's messages is written and flushed. If the writer fails, a prefix
    // of the transcript is written and `WriteFault` is returned. With any other error, nothing is
    // written. `ReadFault` is returned only if the reader failed.
    ensures outcome { ShowsTranscript limits R.Source W.Sink reader.old reader.new writer.old
        writer.new result }

    // At most one byte past the limit is read.
    ensures taken { R.given reader.new ≤ R.given reader.old + limits.input + 1 }
{
    let input = match read_all(alloc, reader, limits.input) {
        Ok(input) => input,
        Err(_) => return Err(Refused::Memory),
    };
    let text = text_of_input(transcript_of(alloc, input.bytes, limits), input.stop)?;
    match write_and_flush(writer, text.as_slice()) {
        Ok(()) => Ok(()),
        Err(_) => Err(Refused::WriteFault),
    }
}
