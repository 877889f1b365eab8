//! JSON trees of integers and ids: reading, lookup, changes, copies and writing.
#![tactic(auto)]

mod copy;
mod fault;
mod ids;
pub mod laws;
mod member;
mod parse;
mod plain;
mod read;
mod side;
mod sort;
mod sound;
mod tree;
mod write;

pub use fault::TreeFault;
pub use json::Scratch;
pub use read::{read_tree, read_tree_with};
pub use side::Side;
pub use sort::{SORTS, Sort};
pub use tree::Tree;
pub use write::{write_tree, write_tree_to};
