//! The next occurrences of texts.
ghost use Rattle.std.specs.Prelude.{◌≡◌, ◌≤◌, ℕ, [], length, IfOk, IsOk};
ghost use Rattle.dap_words.specs.Words.{pairs_of, replaced};
ghost use Rattle.dap_words.specs.Occurrences.{pair_at, pairs_at, IsNext, IsNextOf, AreNext};
ghost use Rattle.dap_words.specs.Occurrences.{comes_before, IsEarliest};

use crate::words::Word;
use memchr::memmem;
use std::alloc::{AllocError, Global};

/// The next occurrence of the text of a word.
#[derive(Clone, Copy)]
pub(crate) struct Occurrence<'w> {
    pub(crate) word: &'w Word,
    /// The index of its first byte; the number of bytes, if the text does not occur.
    pub(crate) at: usize,
}

/// Returns the first occurrence of each text that occurs in `bytes`. Does not allocate if none
/// occurs.
///
/// # Errors
/// `AllocError`: an allocation failed.
pub(crate) fn first_occurrences<'w>(
    alloc: Global,
    words: &'w [Word],
    bytes: &[u8],
) -> Result<Vec<Occurrence<'w>>, AllocError>
    ensures next { IfOk result (λ v. AreNext bytes.now 0 v.items) }
    ensures same { IfOk result
        (λ v. replaced (pairs_at v.items) bytes.now ≡ replaced (pairs_of words.now) bytes.now) }
    ensures empty { bytes.now ≡ [] → IsOk result }
{
    let mut occurrences = Vec::new(alloc);
    for word in words {
        let at = next_place(word.text.as_bytes(), bytes, 0);
        if at < bytes.len() {
            occurrences.push(Occurrence { word, at })?;
        }
    }
    Ok(occurrences)
}

/// Returns the occurrence that starts first. Among several at one place, returns the one of the
/// longest text; the first one, if there are several.
pub(crate) fn earliest<'w>(occurrences: &[Occurrence<'w>], bytes: &[u8]) -> Option<Occurrence<'w>>
    ensures { (from : ℕ) → from ≤ length bytes.now → AreNext bytes.now from occurrences.now
        → IsEarliest (pairs_at occurrences.now) bytes.now from result }
{
    let mut best = None;
    for occurrence in occurrences {
        if comes_before(occurrence, best, bytes.len()) {
            best = Some(*occurrence);
        }
    }
    best
}

fn comes_before(occurrence: &Occurrence<'_>, best: Option<Occurrence<'_>>, end: usize) -> bool
    ensures { result ≡ comes_before end occurrence.now best.entry }
{
    match best {
        None => occurrence.at < end,
        Some(best) => {
            occurrence.at < best.at
                || (occurrence.at == best.at && best.word.text.len() < occurrence.word.text.len())
        }
    }
}

/// Replaces each occurrence that starts before a place by the next one at or after that place.
pub(crate) fn move_on(occurrences: &mut Vec<Occurrence<'_>>, bytes: &[u8], from: usize)
    requires { from ≤ length bytes.now }
    ensures pairs { pairs_at occurrences.new.items ≡ pairs_at occurrences.old.items }
    ensures next { (earlier : ℕ) → earlier ≤ from → AreNext bytes.now earlier occurrences.old.items
        → AreNext bytes.now from occurrences.new.items }
{
    for occurrence in occurrences.iter_mut() {
        move_one(occurrence, bytes, from);
    }
}

fn move_one(occurrence: &mut Occurrence<'_>, bytes: &[u8], from: usize)
    requires { from ≤ length bytes.now }
    ensures pair { pair_at occurrence.new ≡ pair_at occurrence.old }
    ensures next { (earlier : ℕ) → earlier ≤ from → IsNextOf bytes.now earlier occurrence.old
        → IsNextOf bytes.now from occurrence.new }
{
    if occurrence.at < from {
        occurrence.at = next_place(occurrence.word.text.as_bytes(), bytes, from);
    }
}

// Returns the first place at or after `from` at which the text occurs; the number of bytes, if
// there is none, as for an empty text.
fn next_place(text: &[u8], bytes: &[u8], from: usize) -> usize
    requires { from ≤ length bytes.now }
    ensures { IsNext text.now bytes.now from result }
{
    let rest = &bytes[from..];
    if text.is_empty() || rest.len() < text.len() {
        return bytes.len();
    }
    match memmem::find(rest, text) {
        Some(at) => from + at,
        None => bytes.len(),
    }
}
