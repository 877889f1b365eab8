//! Tokens of strings: the numbers in a string that a rule declares as ids, and their names.
//!
//! A string is read once from left to right, as literal bytes and tokens. A token has a value, so
//! that `0x00007FFF` and `0x7fff` are one id. A name, `<LABEL K>`, is itself a token, with the
//! value `K`. `specs/` defines the reading and the string with each id replaced by a name.
//! [`Labels`] gives a label to each form of tokens at a place. [`token_at`] reads the token that a
//! string starts with, [`value`] returns the value of a token, and [`push_name`] writes a name.
//! [`is_label`] checks a label. [`laws`] states what holds for named strings.
#![tactic(auto)]

mod form;
mod labels;
pub mod laws;
mod tokens;
mod values;

pub use form::Form;
pub use labels::{Labels, is_label};
pub use tokens::{Token, token_at};
pub use values::{is_nothing, push_name, value};
