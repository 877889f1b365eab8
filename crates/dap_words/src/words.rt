//! Words in the place of texts.
ghost use Rattle.std.specs.Prelude.{◌≡◌, ◌++◌, [], OnOk, OnErr, IfOk, IsOk, string_bytes};
ghost use Rattle.std.specs.Io.{StartsWith};
ghost use Rattle.dap_words.specs.Words.{pairs_of, replaced};

use crate::occurrences::{earliest, first_occurrences, move_on};
use std::alloc::{AllocError, Global};

/// A text and the word that replaces it.
#[derive(Drop)]
pub struct Word {
    pub text: String,
    pub word: String,
}

/// Appends `text` with words in the place of texts. From left to right, the longest text that
/// starts at a byte is replaced by its word, and reading continues after that text. Does not
/// allocate for an empty text.
///
/// # Errors
/// `AllocError`: an allocation failed. The bytes of `out` are then unchanged.
pub fn replace_words(text: &str, words: &[Word], out: &mut Vec<u8>) -> Result<(), AllocError>
    ensures ok { OnOk result
        (out.new.items ≡ out.old.items ++ replaced (pairs_of words.now) text.now) }
    ensures err { OnErr result (out.new.items ≡ out.old.items) }
    ensures empty { text.now ≡ [] → IsOk result }
{
    let len = out.len();
    match write_words(text, words, out) {
        Ok(()) => Ok(()),
        Err(fault) => {
            out.truncate(len);
            Err(fault)
        }
    }
}

// Does the same, except that after an error a part of the result may follow the bytes of `out`.
// Searches for each text once, and again after each replaced text that overlaps its occurrence.
fn write_words(text: &str, words: &[Word], out: &mut Vec<u8>) -> Result<(), AllocError>
    ensures ok { OnOk result
        (out.new.items ≡ out.old.items ++ replaced (pairs_of words.now) text.now) }
    ensures err { OnErr result (StartsWith out.new.items out.old.items) }
    ensures empty { text.now ≡ [] → IsOk result }
{
    let bytes = text.as_bytes();
    let mut occurrences = first_occurrences(*out.allocator(), words, bytes)?;
    let mut done = 0;
    while let Some(next) = earliest(occurrences.as_slice(), bytes) {
        out.extend_from_slice(&bytes[done..next.at])?;
        out.extend_from_slice(next.word.word.as_bytes())?;
        done = next.at + next.word.text.len();
        move_on(&mut occurrences, bytes, done);
    }
    out.extend_from_slice(&bytes[done..])?;
    Ok(())
}

/// Returns `text` with words in the place of texts, as [`replace_words`] appends it. Does not
/// allocate for an empty text.
///
/// # Errors
/// `AllocError`: an allocation failed.
pub fn with_words(alloc: Global, text: &str, words: &[Word]) -> Result<String, AllocError>
    ensures worded { IfOk result (λ t. string_bytes t ≡ replaced (pairs_of words.now) text.now) }
    ensures empty { text.now ≡ [] → IsOk result }
{
    let mut out = Vec::new(alloc);
    replace_words(text, words, &mut out)?;
    Ok(String::from_utf8(out).unwrap())
}
