//! Conditions on a list of words.
ghost use Rattle.std.specs.Prelude.{◌≡◌};
ghost use Rattle.dap_words.specs.Apart.{agree, agree_from, meet, meets_any, is_met, stays_apart};
ghost use Rattle.dap_words.specs.Words.{pair_of, pairs_of, is_text_among};

use crate::words::Word;

/// Returns whether one of the words replaces the text.
pub fn is_text_among(text: &str, words: &[Word]) -> bool
    ensures { result ≡ is_text_among text.now (pairs_of words.now) }
{
    for other in words {
        if text == other.text.as_str() {
            return true;
        }
    }
    false
}

/// Returns whether the words are apart with one more, if they are apart without it.
pub fn stays_apart(words: &[Word], word: &Word) -> bool
    ensures { result ≡ stays_apart (pairs_of words.now) (pair_of word.now) }
{
    !meet(word.text.as_bytes(), word.word.as_bytes())
        && !meets_any(words, word.word.as_bytes())
        && !is_met(words, word.text.as_bytes())
}

fn is_met(words: &[Word], text: &[u8]) -> bool
    ensures { result ≡ is_met (pairs_of words.now) text.now }
{
    for other in words {
        if meet(text, other.word.as_bytes()) {
            return true;
        }
    }
    false
}

fn meets_any(words: &[Word], word: &[u8]) -> bool
    ensures { result ≡ meets_any (pairs_of words.now) word.now }
{
    for other in words {
        if meet(other.text.as_bytes(), word) {
            return true;
        }
    }
    false
}

fn meet(text: &[u8], word: &[u8]) -> bool
    ensures { result ≡ meet text.now word.now }
{
    agree_from(text, word) || agree_from(word, text)
}

fn agree_from(bytes: &[u8], other: &[u8]) -> bool
    ensures { result ≡ agree_from bytes.now other.now }
{
    for i in 0..bytes.len() {
        if agree(&bytes[i..], other) {
            return true;
        }
    }
    false
}

fn agree(bytes: &[u8], other: &[u8]) -> bool
    ensures { result ≡ agree bytes.now other.now }
{
    for (i, byte) in bytes.iter().enumerate() {
        if i >= other.len() {
            return true;
        }
        if *byte != other[i] {
            return false;
        }
    }
    true
}
