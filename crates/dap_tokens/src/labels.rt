//! The labels of ids.
ghost use Rattle.std.specs.Prelude.{◌≡◌, option_map};
ghost use Rattle.dap_words.specs.Runs.{all_of, begins_with};
ghost use Rattle.std.specs.Char.{is_ascii_lowercase};
ghost use Rattle.dap_tokens.specs.Tokens.{is_label, is_of_label};
ghost use Rattle.dap_tokens.specs.Models.{labels_of, with_label, no_labels};

use crate::form::Form;

/// The label of each form at a place, if a rule gives it one.
#[derive(Clone, Copy, Debug, PartialEq, Eq, Drop)]
pub struct Labels<'l> {
    /// The label of the whole string.
    pub whole: Option<&'l str>,
    /// The label of runs of decimal digits.
    pub digits: Option<&'l str>,
    /// The label of numbers with `0x`.
    pub hex: Option<&'l str>,
    /// The label of long runs of hexadecimal digits.
    pub long: Option<&'l str>,
    /// The label of UUIDs.
    pub uuid: Option<&'l str>,
}

impl<'l> Labels<'l> {
    /// Returns labels in which no form has one. Does not allocate.
    pub fn none() -> Labels<'l>
        ensures { labels_of result ≡ no_labels }
    {
        Labels {
            whole: None,
            digits: None,
            hex: None,
            long: None,
            uuid: None,
        }
    }

    /// Returns the label of a form, if it has one. Does not allocate.
    pub fn of(&self, form: Form) -> Option<&'l str>
        ensures { option_map (λ t. t.now) result ≡ labels_of self.now form }
    {
        match form {
            Form::Whole => self.whole,
            Form::Digits => self.digits,
            Form::Hex => self.hex,
            Form::Long => self.long,
            Form::Uuid => self.uuid,
        }
    }

    /// Gives a label to a form, unless the form has one. Does not allocate.
    pub fn add(&mut self, form: Form, label: &'l str)
        ensures { labels_of self.new ≡ with_label form label.now (labels_of self.old) }
    {
        let label = self.of(form).or(Some(label));
        match form {
            Form::Whole => self.whole = label,
            Form::Digits => self.digits = label,
            Form::Hex => self.hex = label,
            Form::Long => self.long = label,
            Form::Uuid => self.uuid = label,
        }
    }
}

/// Returns whether a text is a label: lower-case letters and `-`, the first of them a letter. Does
/// not allocate.
pub fn is_label(text: &str) -> bool
    ensures { result ≡ is_label text.now }
{
    let bytes = text.as_bytes();
    begins_with_letter(bytes) && are_of_label(bytes)
}

fn begins_with_letter(bytes: &[u8]) -> bool
    ensures { result ≡ begins_with is_ascii_lowercase bytes.now }
{
    match bytes {
        [] => false,
        [first, ..] => first.is_ascii_lowercase(),
    }
}

fn are_of_label(bytes: &[u8]) -> bool
    ensures { result ≡ all_of is_of_label bytes.now }
{
    for byte in bytes {
        if !is_of_label(*byte) {
            return false;
        }
    }
    true
}

fn is_of_label(byte: u8) -> bool
    ensures { result ≡ is_of_label byte }
{
    byte.is_ascii_lowercase() || byte == b'-'
}
