//! Reads the words of a line, and bytes, in order.
use anyhow::{Context, Result};

/// The words of a line that have not been read yet.
#[derive(Drop)]
pub struct Words<'a> {
    rest: &'a str,
}

impl<'a> Words<'a> {
    /// Returns the words of this line, which are separated by single spaces.
    pub fn of(line: &'a str) -> Words<'a> {
        Words { rest: line }
    }

    /// Reads the next word. It is empty after the last word.
    pub fn word(&mut self) -> &'a str {
        let (word, rest) = self.rest.split_once(' ').unwrap_or((self.rest, ""));
        self.rest = rest;
        word
    }

    /// Reads the next word, which is a number.
    pub fn number(&mut self) -> Result<u64> {
        self.word().parse::<u64>().context("a word is not a number")
    }

    /// Reads the next word, which is a number of bytes or of ids.
    pub fn count(&mut self) -> Result<usize> {
        Ok(self.number()? as usize)
    }

    /// Reads the next word, which is 0 for `false` and any other number for `true`.
    pub fn flag(&mut self) -> Result<bool> {
        Ok(self.number()? != 0)
    }
}

/// Returns the first `count` bytes of the rest and removes them from it.
pub fn take<'a>(rest: &mut &'a [u8], count: usize) -> Result<&'a [u8]> {
    let (first, after) = rest.split_at_checked(count).context("bytes are missing")?;
    *rest = after;
    Ok(first)
}
