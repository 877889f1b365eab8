//! Rewrites frames with canonical contents.
#![tactic(auto)]

mod compacting;
pub mod laws;

pub use compacting::compact;
