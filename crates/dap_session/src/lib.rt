//! The rules of a session of the Debug Adapter Protocol, checked message by message.
//!
//! A [`Session`] accepts the messages of both sides in their order. It returns the first [`Rule`]
//! that a message breaks. `specs/` states the rules over the list of messages, and [`laws`] has
//! the theorems.
#![tactic(auto)]

pub mod envelope;
pub mod laws;
pub mod message;
mod phase;
mod requests;
mod rule;
mod session;
mod store;

pub use rule::{Rule, SessionFault};
pub use session::Session;
