//! Prints recordings for people: in lines, with their errors, as a transcript, or one content as
//! indented JSON.
//!
//! [`show`] and [`show_with`] print the lines of a recording, [`show_faulty`] also those of a
//! recording with errors. [`show_transcript`] prints the transcript of a recording, and
//! [`show_record`] one content. `specs/` defines the output.
#![tactic(auto)]

mod detail;
mod entries;
mod fault_words;
mod flat_lines;
mod indented;
pub mod laws;
mod leaves;
mod message_lines;
mod one_record;
mod reading;
mod transcripts;
mod viewing;

pub use detail::{Detail, ShowRequest};
pub use one_record::{RecordShown, show_record};
pub use transcripts::show_transcript;
pub use viewing::{show, show_faulty, show_with};
