//! The differences of two trees: the leaves that differ, each with its path and the value of each
//! tree there.
//!
//! [`differences`] finds them, and [`difference_text`] prints them in lines. [`push_window`] prints
//! the part of a long value in which it differs from the other value. `specs/` defines all three.
#![tactic(auto)]

mod difference;
pub mod laws;
mod lines;
mod telling;
mod windows;

pub use difference::{Difference, Step, Values};
pub use lines::{difference_text, push_path};
pub use telling::differences;
pub use windows::push_window;
