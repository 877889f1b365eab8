//! Checks and normalises recordings record by record. [`read_session`] and [`read_session_from`]
//! also store the messages. [`check_messages`] and [`normalise_messages`] do the same for records
//! that contain messages, without reading the records. [`Judge`] does it message by message, for
//! callers that also need the canonical numbers so far.
#![tactic(auto)]

mod checked;
mod checking;
mod judging;
pub mod laws;
mod messages;
mod normal_records;
mod normal_session;
mod normalised;
mod normalising;
mod same_recordings;
mod sessions;

pub use checked::Checked;
pub use checking::{check, check_with};
pub use judging::Judge;
pub use messages::{append_record, count_record, read_flat, read_message};
pub use normal_records::NormalRecords;
pub use normal_session::{NormalSession, normalise_session};
pub use normalised::Normalised;
pub use normalising::{PIECE, finish_output, normalise, normalise_bytes, normalise_with};
pub use sessions::{check_messages, normalise_messages, read_session, read_session_from};
