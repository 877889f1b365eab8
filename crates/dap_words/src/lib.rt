//! Actions on one text, and words in the place of texts in whole messages.
//!
//! [`long`] and [`uuid`] replace numbers that change from run to run, and do not allocate.
//! [`with_words`] puts words in the place of texts in one text. [`Words`] is a list of texts and
//! their words, and [`put_words`] applies it to a message. `specs/` defines the results.
//! [`text_laws`] states the theorems about one text, and [`laws`] those about messages.
#![tactic(auto)]

mod apart;
pub mod laws;
mod long_runs;
mod occurrences;
mod putting;
pub mod text_laws;
mod uuids;
mod word_list;
mod words;

pub use long_runs::long;
pub use putting::put_words;
pub use uuids::uuid;
pub use word_list::{WordCause, Words};
pub use words::{Word, replace_words, with_words};
