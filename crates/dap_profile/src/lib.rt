//! The profile of the Debug Adapter Protocol: the members of a message that are checked.
//!
//! [`PROFILE`] is the table, with one [`Row`] per path. `specs/` has the same table for the proofs,
//! and the contract of [`profile_rows`] says that the two are equal. [`rows_of`] returns the rows
//! that apply to a message, by its kind and its name.
//! [`row_lines`] prints rows for people.
#![tactic(auto)]

mod asked_rows;
mod profile;
mod row_text;

pub use asked_rows::{AskedRows, rows_of};
pub use profile::{Kind, PROFILE, Place, Row, Want, profile_rows};
pub use row_text::row_lines;
