//! Names in the place of declared ids: values of messages that a rule declares as ids.
//!
//! A declared id is a token of a string, or an integer. Each label has names of its own, which
//! are given to its values in the order of their first appearance. So the names keep which values
//! are equal, and nothing else. [`name_tree`] replaces the ids of a message by their names, in
//! place. [`name_message`] does so by the declarations of a rules file, and [`name_flat`] does the
//! same to the nodes of a flat message. `specs/` defines the ids and the names, and [`laws`] states
//! what holds for them.
#![tactic(auto)]

mod absence;
mod choice;
mod fault;
mod flat;
mod flat_rules;
mod joint;
pub mod laws;
mod rules;
mod sessions;
mod texts;
mod trees;
mod value_numbers;

pub use absence::may_have_ids;
pub use fault::NamingFault;
pub use flat::name_flat;
pub use joint::JointNames;
pub use rules::Declared;
pub use sessions::name_message;
pub use trees::name_tree;
pub use value_numbers::ValueNumbers;
