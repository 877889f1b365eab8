//! Writes and reads golden files in their two forms.
ghost use Rattle.std.specs.Prelude.{◌≡◌, ◌↔◌, ◌≤◌, IfErr, IfOk, IsTrue, length};
ghost use Rattle.dap_input.specs.Limits.{AreSound};
ghost use Rattle.dap_stored.specs.Sessions.{messages_of};
ghost use Rattle.dap_transcript.specs.Transcript.{transcript};
ghost use Rattle.dap_golden.specs.{GoldenFiles.IsNormalText, GoldenForms.ComparesFile};
ghost use Rattle.dap_golden.specs.GoldenForms.{IsReadAsTranscript, IsRecordingOfFile, IsWrittenAs};
ghost use Rattle.dap_golden.specs.GoldenForms.{form_of_name};
ghost use Rattle.dap_golden.specs.GoldenSteps.{IsFileOf, IsNotRead, IsNotWritten, IsTooLong};
ghost use Rattle.dap_golden.specs.GoldenSteps.{bytes_of, file_outcome};

use crate::comparing::{GoldenVerdict, compare_golden};
use crate::fault::GoldenFault;
use crate::golden::GoldenText;
use crate::trace_head::is_recording;
use crate::updates::GoldenStop;
use dap_input::Limits;
use dap_normalise::read_session;
use dap_rename::Mode;
use dap_stored::StoredSession;
use dap_transcript::{
    TranscriptCause, is_transcript, recording_of_transcript, transcript_of_frames, write_transcript,
};
use std::alloc::Global;

/// The form of a golden file.
#[derive(Clone, Copy, Debug, PartialEq, Eq)]
pub enum GoldenForm {
    /// The normal text of the session, which is a recording.
    Frames,
    /// The transcript of the messages of the normal text.
    Transcript,
}

impl GoldenForm {
    /// Returns the form of a golden file with this name: names that end in `.yaml` or `.yml` are
    /// transcripts.
    pub fn of_name(name: &str) -> GoldenForm
        ensures { result ≡ form_of_name name.now }
    {
        let bytes = name.as_bytes();
        if bytes.ends_with(b".yaml") || bytes.ends_with(b".yml") {
            GoldenForm::Transcript
        } else {
            GoldenForm::Frames
        }
    }
}

/// The golden text of a session, and its transcript if the golden file is one.
#[derive(Drop)]
pub(crate) struct GoldenBytes {
    pub(crate) text: GoldenText,
    transcript: Option<Vec<u8>>,
}

impl GoldenBytes {
    /// Returns the bytes of the golden file.
    pub(crate) fn as_slice(&self) -> &[u8]
        ensures { result.now ≡ bytes_of self.now }
    {
        match &self.transcript {
            Some(transcript) => transcript.as_slice(),
            None => self.text.bytes.as_slice(),
        }
    }
}

/// Returns a transcript that is not longer than the input limit.
fn within_limit(text: Vec<u8>, limits: Limits) -> Result<Vec<u8>, GoldenStop>
    ensures ok { IfOk result (λ same. same.items ≡ text.items) }
    ensures short { IfOk result (λ same. length same.items ≤ limits.input) }
    ensures err { IfErr result (IsTooLong limits.input text.items) }
{
    if limits.input < text.len() as u64 {
        return Err(GoldenStop::TranscriptTooLong);
    }
    Ok(text)
}

/// Returns the transcript of the messages of a session.
fn transcript_of(
    alloc: Global,
    session: &StoredSession,
    limits: Limits,
) -> Result<Vec<u8>, GoldenStop>
    ensures ok { IfOk result (λ text. text.items ≡ transcript (messages_of session.now)) }
    ensures short { IfOk result (λ text. length text.items ≤ limits.input) }
    ensures err { IfErr result (IsTooLong limits.input (transcript (messages_of session.now))) }
{
    let Ok(messages) = session.views(alloc) else {
        return Err(GoldenStop::Memory);
    };
    match write_transcript(alloc, messages.as_slice()) {
        Ok(written) => within_limit(written, limits),
        Err(_) => Err(GoldenStop::Memory),
    }
}

/// Returns the transcript of the session that a normal text is read as.
fn transcript_of_session(
    alloc: Global,
    text: &[u8],
    limits: Limits,
    mode: Mode,
) -> Result<Vec<u8>, GoldenStop>
    requires { AreSound limits }
    ensures ok { IfOk result
        (λ bytes. IsWrittenAs limits mode GoldenForm.Transcript text.now bytes.items) }
    ensures short { IfOk result (λ bytes. length bytes.items ≤ limits.input) }
    ensures err { IfErr result (IsNotWritten limits mode GoldenForm.Transcript text.now) }
{
    match read_session(alloc, text, limits, mode) {
        Ok(session) => transcript_of(alloc, &session, limits),
        // A normal text is accepted, so only an allocation can have failed.
        Err(_) => Err(GoldenStop::Memory),
    }
}

/// Returns the transcript of a normal text. Reads the text as a session only if its records cannot
/// be written as they are.
fn transcript_of_text(
    alloc: Global,
    text: &[u8],
    limits: Limits,
    mode: Mode,
) -> Result<Vec<u8>, GoldenStop>
    requires limits { AreSound limits }
    requires text { IsNormalText limits mode text.now }
    ensures ok { IfOk result
        (λ bytes. IsWrittenAs limits mode GoldenForm.Transcript text.now bytes.items) }
    ensures short { IfOk result (λ bytes. length bytes.items ≤ limits.input) }
    ensures err { IfErr result (IsNotWritten limits mode GoldenForm.Transcript text.now) }
{
    match transcript_of_frames(alloc, text) {
        Ok(Some(written)) => within_limit(written, limits),
        Ok(None) => transcript_of_session(alloc, text, limits, mode),
        Err(_) => Err(GoldenStop::Memory),
    }
}

/// Returns the golden file of a normal text in this form. A file of frames is not copied.
pub(crate) fn written_in(
    alloc: Global,
    form: GoldenForm,
    text: GoldenText,
    limits: Limits,
    mode: Mode,
) -> Result<GoldenBytes, GoldenStop>
    requires limits { AreSound limits }
    requires normal { IsNormalText limits mode text.bytes.items }
    requires short { length text.bytes.items ≤ limits.input }
    ensures ok { IfOk result (IsFileOf limits mode form text) }
    ensures err { IfErr result (IsNotWritten limits mode form text.bytes.items) }
{
    match form {
        GoldenForm::Frames => Ok(GoldenBytes {
            text,
            transcript: None,
        }),
        GoldenForm::Transcript => {
            match transcript_of_text(alloc, text.bytes.as_slice(), limits, mode) {
                Ok(transcript) => Ok(GoldenBytes {
                    text,
                    transcript: Some(transcript),
                }),
                Err(stop) => Err(stop),
            }
        }
    }
}

/// Returns whether a golden file is read as a transcript.
fn is_read_as_transcript(form: GoldenForm, golden: &[u8]) -> bool
    ensures { IsTrue result ↔ IsReadAsTranscript form golden.now }
{
    is_transcript(golden) || (form == GoldenForm::Transcript && !is_recording(golden))
}

/// Returns the recording that a golden file represents.
fn recording_in(
    alloc: Global,
    form: GoldenForm,
    golden: Vec<u8>,
    limits: Limits,
) -> Result<Vec<u8>, GoldenStop>
    requires { AreSound limits }
    ensures ok { IfOk result (λ recording. IsRecordingOfFile form golden.items recording.items) }
    ensures err { IfErr result (IsNotRead form golden.items) }
{
    if !is_read_as_transcript(form, golden.as_slice()) {
        return Ok(golden);
    }
    match recording_of_transcript(alloc, golden.as_slice(), limits.frame) {
        Ok(recording) => Ok(recording),
        Err(fault) if fault.cause == TranscriptCause::Memory => Err(GoldenStop::Memory),
        Err(fault) => Err(GoldenStop::Transcript(fault)),
    }
}

/// Compares a golden file with the golden text of a session. An update would write the bytes of
/// `made` to the file.
pub(crate) fn compare_in(
    alloc: Global,
    form: GoldenForm,
    golden: Vec<u8>,
    made: &GoldenBytes,
    limits: Limits,
    mode: Mode,
) -> Result<GoldenVerdict, GoldenStop>
    requires limits { AreSound limits }
    requires text { IsNormalText limits mode made.now.text.bytes.items }
    ensures { ComparesFile limits mode form golden.items made.now.text.bytes.items
        (bytes_of made.now) result }
{
    if golden.as_slice() == made.as_slice() {
        return Ok(GoldenVerdict::Same);
    }
    let recording = recording_in(alloc, form, golden, limits)?;
    file_outcome(compare_golden(alloc, recording.as_slice(), &made.text, limits, mode))
}

/// Returns the result of comparing a golden file with other bytes than an update would write, from
/// that of comparing its recording.
fn file_outcome(outcome: Result<GoldenVerdict, GoldenFault>) -> Result<GoldenVerdict, GoldenStop>
    ensures { result ≡ file_outcome outcome }
{
    match outcome {
        Ok(GoldenVerdict::Same) => Ok(GoldenVerdict::NotNormal),
        Ok(verdict) => Ok(verdict),
        Err(GoldenFault::Golden(refused)) => Err(GoldenStop::Golden(refused)),
        Err(GoldenFault::Memory) => Err(GoldenStop::Memory),
    }
}
