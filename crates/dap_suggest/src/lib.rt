//! Rules that make two recordings of one scenario the same.
//!
//! [`suggest`] finds them, and returns them only after it has applied them to both recordings and
//! compared the results. `specs/` defines the terms.
#![tactic(auto)]

mod broad;
mod candidates;
mod choosing;
mod comments;
mod confirming;
mod counting;
mod elements;
mod exchanges;
mod filling;
mod fractions;
mod guarded;
mod joined_rules;
mod labels;
mod matched;
mod obstacle;
mod omitting;
mod pairs;
mod pieces;
mod reordered;
mod repeats;
mod searching;
mod sessions;
mod spot;
mod spots;
mod suggesting;
mod suggestion;
mod swapping;
mod tallies;
mod value_rules;
mod values;
mod walking;
mod words;

pub use obstacle::{NoneFound, Obstacle, Reason};
pub use suggesting::suggest;
pub use suggestion::{SuggestRefused, Suggestion};
