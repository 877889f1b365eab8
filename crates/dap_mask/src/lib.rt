//! Masks: rules that redact the parts of messages that change from run to run.
//!
//! [`MaskRules::read`] reads the rules of a file, and [`mask`] changes the values of a message at
//! the places of the rules. [`read_masked_flat`] does the same to the nodes of a flat document, and
//! [`write_masked`] writes the result. `specs/` defines the meaning of the rules, and [`laws`]
//! states the theorems. The file may also contain texts and their words, [`MaskRules::words`],
//! rules that set members that are absent or null, and rules that omit elements of arrays.
//! [`read_masked`] puts in the words, sets the members, applies the other rules, and then omits the
//! elements, as [`omit`] does. The file may contain rules for the order of messages,
//! [`MaskRules::swaps`]; the line `per-stop`, [`MaskRules::per_stop`]; a line that joins output,
//! [`MaskRules::joining`]; and rules that declare ids, [`MaskRules::declared`]. Masking does not
//! use the last four.
//!
//! [`digits`] and [`hex`] apply two of the actions to a text.
//!
//! A program that explains why a line is not a rule parses the parts of the line with
//! [`split_run`], [`gap`], [`is_end`], [`name_at`], [`any_name`], [`place_at`] and [`value_at`].
#![tactic(auto)]

mod categories;
mod declarations;
mod element_names;
mod fault;
mod fill_lines;
mod filling;
mod fills;
mod flat_masking;
mod flat_places;
mod flat_told;
mod index;
mod joining;
pub mod laws;
mod loose;
mod mask_rules;
mod masked_text;
mod masking;
mod meets;
mod names;
mod omissions;
mod omitting;
mod places;
mod profile_ids;
mod rule_list;
mod rule_order;
mod rules;
mod runs;
mod statement;
mod swaps;
mod texts;
mod word_lines;

pub use categories::CategoryRule;
pub use dap_message::{Half, SwapRule};
pub use declarations::Declaration;
pub use fault::{RulesCause, RulesFault};
pub use fill_lines::value_at;
pub use fills::{FillRule, Scalar};
pub use flat_masking::read_masked_flat;
pub use flat_told::{applies_to, told_category, told_kind, told_name};
pub use joining::Joining;
pub use loose::{read_by_rules, read_loosely, read_masked};
pub use mask_rules::MaskRules;
pub use masked_text::write_masked;
pub use masking::{is_dropped, mask, rule_applies};
pub use names::{any_name, name_at};
pub use omissions::Omission;
pub use omitting::omit;
pub use places::place_at;
pub use rules::{MaskRule, Step, Verb};
pub use runs::{ByteClass, gap, is_end, split_run};
pub use texts::{digits, hex};
pub use word_lines::write_word;
