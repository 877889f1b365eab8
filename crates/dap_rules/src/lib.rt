//! Applies rules files to recordings: joins their output, masks their values, names their ids, and
//! puts their messages in order.
//!
//! [`mask`] removes from each message the values that change from run to run. [`join_and_mask`]
//! joins the output of a recording first, if the rules say so: [`dap_join::join`] replaces the
//! `output` events by one event per category. [`order`] and [`order_bytes`] write the records in
//! the order that [`dap_order::put_in_order`] defines for their messages. [`name`] and
//! [`name_bytes`] replace the ids that the rules declare by names.
//!
//! [`apply_rules`] joins output if the rules say so, masks the result, and replaces the ids that
//! the rules declare by names. If some of the rules are for the order, it puts the result in order,
//! and names the ids again. [`session_by_rules`] returns the messages of the result, and
//! [`read_session_by_rules`] does this for a complete input. [`mode_by`] is the mode in which ids
//! are numbered then. `specs/` defines the terms, and the modules `laws` contain the theorems.
#![tactic(auto)]

mod applying;
mod fault;
mod joined_masking;
mod joined_session;
mod joining;
pub mod laws;
pub mod mask_laws;
mod mask_records;
mod masked_session;
mod masking;
mod modes;
pub mod name_laws;
mod name_records;
mod named_by_rules;
mod named_session;
mod naming;
pub mod order_laws;
mod ordered_by_rules;
mod ordering;
mod passes;
mod reading;
mod renumbering;
mod rewriting;
mod ruled_order;
pub mod session_laws;
mod text_sink;
mod writing;

pub use applying::{apply_rules, normalise_by_rules, session_by_rules};
pub use fault::ApplyRefused;
pub use joined_masking::{join_and_mask, mask_by_rules};
pub use masking::{mask, mask_bytes};
pub use modes::mode_by;
pub use naming::{name, name_bytes};
pub use ordering::{order, order_bytes};
pub use reading::read_session_by_rules;
pub use text_sink::{TextSink, is_out_of_memory};
