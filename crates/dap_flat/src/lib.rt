//! JSON documents as flat lists of nodes, in the order of their text.
//!
//! A flat document borrows the content that it is read from. Reading it allocates one vector for
//! all nodes, where a `Tree` allocates each text, list and object. The nodes of a tree borrow its
//! strings.
#![tactic(auto)]

mod canonical;
mod digits;
mod find;
mod ids;
mod lengths;
mod marks;
mod node;
mod order;
mod parse;
mod place;
mod plain;
mod splicing;
mod trees;
mod unread;
mod write;

pub use canonical::append_canonical;
pub use digits::digit_count;
pub use find::{child, same_text};
pub use ids::{add_ids, replace_ids};
pub use lengths::length_within;
pub use marks::{Mark, write_marked};
pub use node::Node;
pub use parse::read_flat;
pub use place::value_end;
pub use splicing::{splice, spliced_length};
pub use trees::nodes_of;
pub use unread::{Unclear, Unread};
pub use write::write_flat;
