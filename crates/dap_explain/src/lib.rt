//! Explains rejections, in lines for people.
//!
//! A rejection is reported in one line, such as `dapnorm: record 68: Fraction`. [`explain`] reads
//! the rejected input again and returns the lines that may follow: which message the record
//! contains, which value is at the position of the error, what is expected there, and what to do.
//! [`explain_rules`] does the same for a file of rules, [`explain_transcript`] for a text that is
//! not a transcript, and [`explain_unreadable`] for a file that cannot be read.
//!
//! # What is proved
//!
//! Each explanation consists of lines that start with two spaces and end with LF, and no byte of a
//! line is an ASCII control character (`AreLines`). Therefore no part of an input can look like the
//! line of a rejection, or control a terminal. If a reader, a writer or an allocation failed, the
//! explanation of that is empty (`IsEmpty`). Each call returns for every input, and does not panic.
//!
//! # What is only tested
//!
//! No clause states the words of an explanation, that it fits the rejection, or that `AllocError`
//! is returned only after a failed allocation. `tests/program/explaining.py` contains the complete
//! explanation for each kind of rejection, except for the limits that only huge inputs reach.
#![tactic(auto)]

mod byte_faults;
mod content_faults;
mod explaining;
mod fractions;
mod head;
mod header;
mod lines;
mod records;
mod rules_file;
mod session_rules;
mod transcript_faults;
mod words;

pub use explaining::{Input, explain, explain_unreadable};
pub use records::Format;
pub use rules_file::explain_rules;
pub use transcript_faults::explain_transcript;
