//! Typed messages of the Debug Adapter Protocol.
//!
//! [`typed`] turns a JSON tree into a [`Message`], or reports the first row of the [`PROFILE`] that
//! the tree violates. In a message, the numbers that the protocol assigns are marked as ids:
//! sequence numbers, frame ids, variables references, thread ids, and breakpoint ids. The
//! capabilities that an adapter omitted are false. `specs/` defines this precisely, and [`laws`]
//! contains the theorems. [`AnyMessage`] is a message independent of how its document is
//! represented.
#![tactic(auto)]

mod any_message;
mod asked_rows;
mod broken_rows;
mod capabilities;
mod fault;
mod first_fault;
mod ids;
pub mod laws;
mod listing;
mod marks;
mod message;
mod swap_rule;
mod typing;
mod views;

pub use any_message::AnyMessage;
pub use broken_rows::{Break, first_break};
pub use dap_profile::{Kind, PROFILE, Place, Row, Want};
pub use dap_tree::Side;
pub use fault::MessageFault;
pub use ids::IdList;
pub use listing::{Frames, Scopes, Variables};
pub use marks::sort_of;
pub use message::Message;
pub use swap_rule::{Half, SwapRule};
pub use typing::typed;
pub use views::{FrameView, ScopeView, VariableView};
