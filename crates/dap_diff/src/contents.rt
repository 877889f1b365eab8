//! Compares the contents of stored messages by the text between their ids.
use dap_flat::{Mark, digit_count};
use dap_stored::StoredMessage;

/// Returns the place after the number of a mark.
fn end_of(mark: &Mark) -> usize {
    let sign = if mark.number < 0 { 1 } else { 0 };
    let length = digit_count(mark.number.unsigned_abs()) + sign;
    mark.at.saturating_add(length)
}

/// Returns the part of a content from a place up to another one.
fn part(content: &[u8], from: usize, to: usize) -> &[u8] {
    content.get(from..to).unwrap_or(&[])
}

/// Returns whether two messages have equally many ids, and their contents have the same text before
/// each id and after the last one.
pub fn have_one_text(a: &StoredMessage<'_>, b: &StoredMessage<'_>) -> bool {
    let (content, other) = (a.content(), b.content());
    if a.marks().len() != b.marks().len() {
        return false;
    }
    let (mut from, mut start) = (0, 0);
    for (mark, twin) in a.marks().iter().zip(b.marks()) {
        if part(content, from, mark.at) != part(other, start, twin.at) {
            return false;
        }
        from = end_of(mark);
        start = end_of(twin);
    }
    part(content, from, content.len()) == part(other, start, other.len())
}
