//! Joins the output of programs in recordings.
//!
//! An adapter divides output into `output` events as its buffers fill. [`join`] replaces the events
//! of each category by one with all of their text, so two recordings whose adapters divided the
//! same output otherwise become equal. `specs/` defines the terms, and [`laws`] contains the
//! theorems.
#![tactic(auto)]

mod event;
mod groups;
mod joined;
mod joiner;
pub mod laws;
mod writing;

pub use joined::{Joined, join};
