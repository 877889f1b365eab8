//! Canonical numbers of ids by first appearance, and renamings of ids.
//!
//! [`Names`] assigns each id of the messages that it receives its canonical number: the position of
//! its number among the distinct numbers of its class, counted from 1. A class is a kind of id. If
//! the [`Mode`] is `PerStop`, frame ids and variables references have a new class after each stop.
//! `specs/` defines when one list of messages is a renaming of another, and what the normal form of
//! a list is. [`laws`] contains the theorems.
//! An interning table assigns each number its canonical number. [`NameTable`] is the contract of every
//! table. [`PlainNames`] searches linearly, and [`IndexNames`] by hash.
#![tactic(auto)]

mod carries;
mod default_tables;
mod index_names;
pub mod laws;
mod mode;
mod name_table;
mod names;
mod pair;
mod pair_index;
mod past;
mod plain_names;
mod renaming;
mod tables;

pub use default_tables::index_tables;
pub use index_names::IndexNames;
pub use mode::Mode;
pub use name_table::{NameFault, NameTable};
pub use names::Names;
pub use pair::{Pair, PairFault};
pub use plain_names::PlainNames;
pub use renaming::Renaming;
pub use tables::Tables;
