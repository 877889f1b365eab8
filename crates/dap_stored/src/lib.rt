//! A session as a value: each message is read once, and its canonical content is stored.
//!
//! A [`StoredSession`] represents a list of messages. It stores their contents one after another, a
//! mark for each id, and the members that every message has. Later steps need no documents: an
//! order depends on these members, a numbering on the marks, and a normal form is a content with
//! other numbers at its marks.
#![tactic(auto)]

mod head;
mod message;
mod parts;
mod session;

pub use message::StoredMessage;
pub use session::StoredSession;
