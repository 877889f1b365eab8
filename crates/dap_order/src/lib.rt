//! Orders the messages of a session by swaps of free neighbours. Such swaps lead to exactly one
//! list that is in order. `specs/` defines the terms.
//!
//! A user's rules allow swaps of messages: [`is_free`] decides which two messages may be swapped if
//! they are neighbours, and [`put_in_order`] sorts the messages of a recording by such swaps. Two
//! recordings have the same order if and only if such swaps turn one into the other.
//! [`message_laws`] contains the theorems.
//!
//! A plan of the dependences between the places of a list makes the order fast on every input.
#![tactic(auto)]

mod by_key;
mod by_plan;
mod dependence;
mod entries;
mod keys;
mod links;
mod looks;
pub mod message_laws;
mod message_ordering;
mod message_plan;
mod partners;
mod plan;
mod previous;
mod progress;
mod requests;
mod rules;
mod table;
mod waits;

pub use dap_message::{Half, Kind, Message, SwapRule};
pub use message_ordering::put_in_order;
pub use rules::is_free;
