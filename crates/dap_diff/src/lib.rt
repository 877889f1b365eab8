//! Compares two recordings and prints their differences as lines.
//!
//! [`diff`] prints the differences of the first records that differ. [`diff_all_with`] matches the
//! records of both recordings, and prints all differences. [`diff_sessions`],
//! [`diff_all_sessions`] and [`diff_all_named_sessions`] do the same for stored sessions.
#![tactic(auto)]

mod all_differences;
mod contents;
mod declared_names;
mod diffing;
mod diffing_all;
mod entries;
mod entry;
mod ids;
mod lines;
mod matching;
mod numbering;
mod outcome;
mod reading;
mod record_lines;
mod report;
mod rows;
mod sessions;

pub use all_differences::AllDifferences;
pub use contents::have_one_text;
pub use diffing::{diff, diff_with};
pub use diffing_all::diff_all_with;
pub use entries::entries_of;
pub use entry::{Entry, StoredEntry};
pub use matching::match_records;
pub use outcome::Diff;
pub use sessions::{diff_all_named_sessions, diff_all_sessions, diff_sessions};
