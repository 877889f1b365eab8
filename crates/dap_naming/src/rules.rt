//! The rules that declare ids.

use dap_mask::Step;
use dap_tokens::Form;

/// A rule that declares ids.
#[derive(Clone, Copy)]
pub struct Declared<'r> {
    /// The place of the ids below a value.
    pub place: &'r [Step],
    pub form: Form,
    /// Lower-case letters and `-`, the first of them a letter.
    pub label: &'r str,
}
