//! Messages of the protocol over flat documents.
//!
//! [`FlatMessage`] is what `dap_message::Message` is, over the nodes of `dap_flat`: a message that
//! fits the profile, with its ids marked.
#![tactic(auto)]

mod faults;
mod marks;
mod measured;
mod members;
mod message;
mod reading;
mod row_marks;
mod rows;
mod typing;

pub use measured::Measured;
pub use message::FlatMessage;
pub use reading::{FlatFault, read_flat_message, type_nodes};
