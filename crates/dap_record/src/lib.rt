//! Converts traces into recordings.
#![tactic(auto)]

pub mod laws;
mod tracing;

pub use tracing::record;
