//! Reads inputs that are transcripts.
ghost use Rattle.std.specs.Prelude.{◌≡◌, false, true, IfOk, IsOkAnd};
ghost use Rattle.dap_transcript.specs.Recordings.{IsRecordingOfTranscript};
ghost use Rattle.dap_transcript.specs.Transcript.{starts_with_head};

use dap_host::LIMITS;
use dap_transcript::{TranscriptFault, is_transcript, recording_of_transcript};
use std::alloc::Global;
use std::fs::File;
use std::io::{self, Error, ErrorKind, Read};
use std::os::unix::fs::FileExt;

/// The number of bytes by which a transcript is recognised: the length of `- adapter: `.
pub(crate) const HEAD: usize = 11;

/// Returns the recording of a transcript, within the limits of the program. Returns bytes that do
/// not start like a transcript unchanged.
///
/// # Errors
///
/// Those of [`recording_of_transcript`]. Only bytes that start like a transcript have one.
pub fn recording_in(alloc: Global, bytes: Vec<u8>) -> Result<Vec<u8>, TranscriptFault>
    ensures transcript { starts_with_head bytes.items ≡ true
        → IfOk result (λ recording. IsRecordingOfTranscript bytes.items recording.items) }
    ensures other { starts_with_head bytes.items ≡ false
        → IsOkAnd result (λ same. same.items ≡ bytes.items) }
{
    if is_transcript(bytes.as_slice()) {
        recording_of_transcript(alloc, bytes.as_slice(), LIMITS.frame)
    } else {
        Ok(bytes)
    }
}

/// Returns whether a file starts like a transcript. The next read returns the same bytes as before,
/// or the reason if its first bytes cannot be read.
pub(crate) fn is_transcript_file(file: &File) -> bool {
    let mut head = [0; HEAD];
    // A byte that the file does not have, or that cannot be read, is 0, unlike those of a head.
    let _ = file.read_exact_at(&mut head, 0);
    is_transcript(&head)
}

/// Reads a file or a stream to its end.
///
/// # Errors
///
/// - `InvalidData`: it has more bytes than the limit for an input.
/// - `OutOfMemory`: an allocation failed.
/// - Any other: reported by the operating system.
pub(crate) fn read_whole<R: Read + Drop>(alloc: Global, input: R) -> io::Result<Vec<u8>> {
    let mut bytes = Vec::new(alloc);
    input
        .take(LIMITS.input.saturating_add(1))
        .read_to_end(&mut bytes)?;
    if bytes.len() as u64 > LIMITS.input {
        let words = "is longer than 4294967296 bytes, the limit for an input";
        return Err(Error::new(ErrorKind::InvalidData, words));
    }
    Ok(bytes)
}
