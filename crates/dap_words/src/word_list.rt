//! A list of texts and their words.
ghost use Rattle.std.specs.Prelude.{◌≡◌, ◌++◌, ◌∷◌, [], OnErr, OnOk, IsTrue, length, true, None};
ghost use Rattle.dap_words.specs.Apart.{are_apart};
ghost use Rattle.dap_words.specs.Words.{pair_of, pairs_of, have_own_texts};

use crate::apart::{is_text_among, stays_apart};
use crate::words::Word;
use std::alloc::{AllocError, AllocFailed, Global};
use thiserror::Error;

/// Why a list of words may not get one more.
#[derive(Clone, Copy, Debug, PartialEq, Eq, Error)]
pub enum WordCause {
    /// The text is empty.
    ///
    /// - Cause: a variable of the shell that is not set.
    /// - Fix: name the text.
    #[error("the text is empty")]
    Empty,
    /// An earlier word replaces the same text.
    ///
    /// - Cause: an option that is given twice.
    /// - Fix: leave one out.
    #[error("the text has a word already")]
    Repeated,
    /// A word of the list can overlap a text of the list: one contains the other, or the end of one
    /// is the start of the other. The word could then make a text, and a second pass would replace
    /// that too.
    ///
    /// - Cause: a word that is part of a path, or an empty word.
    /// - Fix: choose a word that no text contains, such as one in angle brackets.
    #[error("a word overlaps a text")]
    Meets,
    /// An allocation failed.
    #[error("out of memory")]
    Memory,
}

/// Texts and their words. No two replace the same text. No word overlaps a text, so a second pass
/// changes nothing.
#[derive(Drop)]
pub struct Words {
    list: Vec<Word>,
    ghost own_texts: { have_own_texts (pairs_of list.items) ≡ true },
    ghost apart: { are_apart (pairs_of list.items) ≡ true },
}

impl Words {
    ghost use Rattle.dap_words.specs.Kept.{pairs_in, AreSettled, cause_against};
    ghost use Rattle.std.specs.Prelude.{◌↔◌};

    /// Returns a list without words. Does not allocate.
    pub fn new(alloc: Global) -> Words
        ensures { pairs_in result ≡ [] }
    {
        Words {
            list: Vec::new(alloc),
        }
    }

    /// Returns why the word may not be the next one of the list; `None` if it may. Does not
    /// allocate.
    pub fn cause_against(&self, word: &Word) -> Option<WordCause>
        ensures { result ≡ cause_against (pairs_in self.now) (pair_of word.now) }
    {
        if word.text.is_empty() {
            Some(WordCause::Empty)
        } else if is_text_among(word.text.as_str(), self.list.as_slice()) {
            Some(WordCause::Repeated)
        } else if stays_apart(self.list.as_slice(), word) {
            None
        } else {
            Some(WordCause::Meets)
        }
    }

    /// Appends a word that may be the next one.
    ///
    /// # Errors
    ///
    /// `AllocError`: an allocation failed. The list is unchanged.
    pub fn push(&mut self, word: Word) -> Result<(), AllocError>
        requires { cause_against (pairs_in self.old) (pair_of word) ≡ None }
        ensures ok { OnOk result (pairs_in self.new ≡ pairs_in self.old ++ pair_of word ∷ []) }
        ensures settled { OnOk result (AreSettled (pairs_in self.new)) }
        ensures err { OnErr result (pairs_in self.new ≡ pairs_in self.old) }
    {
        self.list.push(word)?;
        Ok(())
    }

    /// Returns the number of words.
    pub fn len(&self) -> usize
        ensures { result ≡ length (pairs_in self.now) }
    {
        self.list.len()
    }

    /// Returns whether the list is empty.
    pub fn is_empty(&self) -> bool
        ensures { IsTrue result ↔ (pairs_in self.now ≡ []) }
    {
        self.list.is_empty()
    }

    /// Returns the texts and their words.
    pub(crate) fn list(&self) -> &[Word]
        ensures { pairs_of result.now ≡ pairs_in self.now }
    {
        self.list.as_slice()
    }
}
