//! The environment of the program as a trait: the files that names lead to, the standard streams,
//! and the tables for ids.
#![tactic(auto)]

mod host;
mod limits;

pub use host::{Host, OpenFault, Purpose, Stream, is_standard};
pub use limits::LIMITS;
