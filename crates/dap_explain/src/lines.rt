//! Builds the lines of an explanation, indented and without control characters.
ghost use Rattle.std.specs.Prelude.{◌≡◌, ◌≢◌, ◌≤◌, true, All, IfOk, string_bytes};
ghost use Rattle.dap_explain.specs.Lines.{AreLines, IsPrinted};

use crate::words::{Filled, Word};
use dap_tree::{Tree, write_tree};
use std::alloc::{AllocError, Global};
use std::fmt::Display;
use std::str;

/// The lines of an explanation.
///
/// After a failed allocation, `into_text` returns an error, whatever is added.
#[derive(Drop)]
pub(crate) struct Lines {
    pub(crate) alloc: Global,
    text: String,
    /// Whether an allocation failed.
    has_failed: bool,
    ghost are_lines: { ∥ AreLines (string_bytes text) ∥₁ },
}

/// Appends the line that is a text with a word in place of each of `{0}`, `{1}` and so on.
macro_rules! fill {
    ($lines:expr; $text:expr, $($word:expr),+) => {
        $lines.fill($text, &[$($word),+])
    };
}

pub(crate) use fill;

impl Lines {
    ghost use Rattle.dap_explain.specs.{NoLines.AreNone, Unexplained.IsEmpty};

    /// Returns an explanation without lines. Does not allocate.
    pub(crate) fn new(alloc: Global) -> Lines
        ensures { AreNone result }
    {
        Lines {
            alloc,
            text: String::new(alloc),
            has_failed: false,
        }
    }

    /// Stores that an allocation failed, if it did.
    pub(crate) fn fail_if(&mut self, is_failed: bool) {
        self.has_failed |= is_failed;
    }

    /// Returns the value of a result. After a failed allocation, stores this and returns `None`.
    pub(crate) fn value_of<T>(&mut self, outcome: Result<T, AllocError>) -> Option<T> {
        self.fail_if(outcome.is_err());
        outcome.ok()
    }

    /// Returns the text that a value displays. After a failed allocation, stores this and returns
    /// an empty string.
    pub(crate) fn display<D: Display + Drop>(&mut self, words: D) -> String {
        let words = words.to_string(self.alloc);
        self.value_of(words).unwrap_or(String::new(self.alloc))
    }

    /// Returns a value as JSON, or `missing` if there is none. After a failed allocation, stores
    /// this and returns an empty string.
    pub(crate) fn json(&mut self, value: Option<&Tree>) -> String {
        let text = match value {
            Some(value) if value.sound() => write_tree(self.alloc, value).or(Err(AllocError)),
            _ => String::from_str(self.alloc, "missing"),
        };
        self.value_of(text).unwrap_or(String::new(self.alloc))
    }

    /// Appends a line. It is truncated after 1,000 characters. A character that a terminal does not
    /// print is written as a JSON escape.
    pub(crate) fn add(&mut self, words: &str) {
        let words = self.display(Word::Whole(words));
        let added = self.append(words.as_str());
        self.value_of(added);
    }

    /// Appends a line as `fill!` does.
    pub(crate) fn fill(&mut self, text: &str, words: &[Word<'_>]) {
        let line = self.display(Filled { text, words });
        self.add(line.as_str());
    }

    /// Returns bytes as a string. If they are not UTF-8, appends a line that says so of this name.
    pub(crate) fn utf8<'b>(&mut self, name: Word<'b>, bytes: &'b [u8]) -> Option<&'b str> {
        match str::from_utf8(bytes) {
            Ok(text) => Some(text),
            Err(error) => {
                let valid = error.valid_up_to();
                let rest = Word::Bytes(bytes.get(valid..).unwrap_or(&[]));
                let valid = Word::Number(valid as u64);
                fill!(self; "{0} is not UTF-8 after {1} bytes: {2}", name, valid, rest);
                None
            }
        }
    }

    /// Appends a line, if it has no control character. Returns whether an allocation failed.
    fn append(&mut self, words: &str) -> Result<(), AllocError> {
        if has_no_control(words) {
            let line = format!(in self.alloc; "  {words}\n")?;
            self.text.push_str(line.as_str())
        } else {
            Ok(())
        }
    }

    /// Returns the text of the lines.
    pub(crate) fn into_text(self) -> Result<String, AllocError>
        ensures lines { IfOk result (λ text. ∥ AreLines (string_bytes text) ∥₁) }
        ensures nothing { AreNone self → IsEmpty result }
    {
        if self.has_failed {
            Err(AllocError)
        } else {
            Ok(self.text)
        }
    }
}

/// Returns whether no byte of a string is an ASCII control character.
fn has_no_control(text: &str) -> bool
    ensures { result ≡ true → All IsPrinted text.now }
{
    text.as_bytes()
        .iter()
        .all(|&byte| 32 <= byte && byte != 127)
}
