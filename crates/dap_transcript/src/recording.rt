//! Returns the recordings of transcripts.
ghost use Rattle.std.specs.Prelude.{◌≡◌, ◌++◌, IfErr, IfOk, OnOk, map};
ghost use Rattle.dap_frame.specs.Limits.{IsSound};
ghost use Rattle.dap_stored.specs.Sessions.{stored_sent};
ghost use Rattle.dap_transcript.specs.ReadErrors.{DiffersAt, FirstTooLong, IsTooLong};
ghost use Rattle.dap_transcript.specs.Recordings.{IsRecordingOfTranscript, frames};

use crate::fault::{TranscriptCause, TranscriptFault};
use crate::reading::read_transcript;
use crate::tokens::split_head;
use dap_frame::{FrameFault, FrameLimits};
use dap_message::AnyMessage;
use dap_recording::write_record;
use dap_stored::StoredMessage;
use std::alloc::Global;

/// Returns the line at which a record starts, or `None` if the text has fewer records. Lines and
/// records are counted from 1.
pub fn record_line(text: &[u8], number: u64) -> Option<usize> {
    let mut line = 0_usize;
    let mut left = number;
    for part in text.split(|byte| *byte == b'\n') {
        line = line.saturating_add(1);
        if split_head(part).is_some() {
            left = left.saturating_sub(1);
            if left == 0 {
                return Some(line);
            }
        }
    }
    None
}

/// Appends the records of messages. An error has the number of the record that is not appended.
fn append_records(
    messages: &[StoredMessage<'_>],
    limits: FrameLimits,
    out: &mut Vec<u8>,
) -> Result<(), (u64, FrameFault)>
    requires { IsSound limits }
    ensures ok { OnOk result
        (out.new.items ≡ out.old.items ++ frames (map stored_sent messages.now)) }
    ensures too_long { IfErr result (λ fault. fault.1 ≡ FrameFault.ContentTooLong
        → FirstTooLong (map stored_sent messages.now) limits.content fault.0) }
{
    let mut number = 0;
    for message in messages {
        number += 1;
        match write_record(out, message.side(), message.content(), limits) {
            Ok(()) => {}
            Err(fault) => return Err((number, fault)),
        }
    }
    Ok(())
}

/// Returns the recording of a transcript: the record of the canonical content of each message.
///
/// # Errors
///
/// - Those of [`read_transcript`].
/// - `TooLong`: a content is longer than `limits.content`.
pub fn recording_of_transcript(
    alloc: Global,
    text: &[u8],
    limits: FrameLimits,
) -> Result<Vec<u8>, TranscriptFault>
    requires { IsSound limits }
    ensures ok { IfOk result (λ recording. IsRecordingOfTranscript text.now recording.items) }

    // With `Differs`, the line is the first one that is not as in the transcript of the messages
    // that were read. With `TooLong`, the text is a transcript, and the content of one of its
    // messages is above the limit.
    ensures differs { IfErr result (λ fault.
        fault.cause ≡ TranscriptCause.Differs → DiffersAt text.now fault.line) }
    ensures too_long { IfErr result (λ fault. fault.cause ≡ TranscriptCause.TooLong
        → IsTooLong text.now limits.content) }
{
    let session = read_transcript(alloc, text)?;
    let Ok(messages) = session.views(alloc) else {
        return Err(TranscriptFault::memory());
    };
    let mut recording = Vec::new(alloc);
    match append_records(messages.as_slice(), limits, &mut recording) {
        Ok(()) => Ok(recording),
        Err((number, FrameFault::ContentTooLong)) => Err(TranscriptFault {
            line: record_line(text, number).unwrap_or(1),
            cause: TranscriptCause::TooLong,
        }),
        Err(_) => Err(TranscriptFault::memory()),
    }
}
