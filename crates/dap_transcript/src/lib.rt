//! Writes a session as a transcript, a page of YAML for golden files that people review, and reads
//! it back.
//!
//! [`write_transcript`] returns the text that `specs/` defines. [`transcript_of_frames`] returns it
//! for a recording, without reading its contents as JSON. [`read_transcript`] returns the messages
//! of such a text. It writes what it read again, and accepts only a text that is the same, byte for
//! byte. [`is_transcript`] recognises such a text by its first bytes.
#![tactic(auto)]

mod canonical;
mod content;
mod expectations;
mod expected;
mod fault;
mod frames;
mod heads;
pub mod laws;
mod lines;
mod members;
mod names;
mod open_requests;
mod reading;
mod record;
mod recording;
mod scalars;
mod tokens;
mod transcript;

pub use fault::{TranscriptCause, TranscriptFault};
pub use reading::{read_transcript, rewrite_transcript};
pub use recording::{record_line, recording_of_transcript};
pub use tokens::is_transcript;
pub use transcript::{transcript_of_frames, write_transcript};
