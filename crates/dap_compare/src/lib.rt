//! Compares two recordings record by record.
#![tactic(auto)]

mod comparing;
pub mod laws;
mod sessions;
mod verdict;

pub use comparing::{compare, compare_texts_with, compare_with};
pub use sessions::compare_sessions;
pub use verdict::{CompareRefused, Verdict, Which};
