//! Divides canonical texts: JSON without spaces, as `text_of` of `dap_tree` defines it. A text that
//! is not canonical may be divided anywhere.
ghost use Rattle.std.specs.Prelude.{◌≡◌, ◌+◌, ◌<◌, ◌≤◌, ◌++◌, ℕ, List, [], ◌∷◌, true, false, drop};
ghost use Rattle.std.specs.Prelude.{length, position, slice_range, IfSome};
ghost use Rattle.std.specs.List.{list_all};
ghost use Rattle.dap_tree.specs.Doc as doc;
ghost use Rattle.dap_tree.specs.{Doc.Doc, Json.text_of};
ghost use Rattle.dap_transcript.specs.Canonical.{EndsValue, Splits, ends_value, opens_nest};
ghost use Rattle.dap_transcript.specs.Canonical.{opens_string, rest_from, string_rest};
ghost use Rattle.dap_transcript.specs.{Canonical.{SplitsSimple, first_set}, Scalars.is_simple};
ghost use Rattle.json.specs.Print.{escape};

use std::simd::prelude::*;

/// The number of bytes that are tested at once.
const LANES: usize = 16;

/// Returns whether a byte is a printable ASCII character other than a quote and a backslash.
fn is_simple(byte: u8) -> bool
    ensures { result ≡ is_simple byte }
{
    matches!(byte, 0x20..=0x21 | 0x23..=0x5b | 0x5d..=0x7e)
}

/// Returns the place of the lowest bit that is set, or the number of lanes.
fn first_set(mask: u64) -> usize
    ensures { result ≡ first_set mask LANES }
{
    if mask == 0 {
        LANES
    } else {
        mask.trailing_zeros() as usize
    }
}

/// Returns how many of the next bytes are simple before the first one that is not.
fn simple_run(text: &[u8], at: usize) -> usize
    requires { at + LANES ≤ length text.now }
    ensures simple { list_all is_simple (slice_range text.now at (at + result)) ≡ true }
    ensures within { result ≤ LANES }
{
    let bytes = u8x16::from_slice(&text[at..]);
    let unprintable = (bytes - u8x16::splat(b' ')).simd_ge(u8x16::splat(0x5f));
    let quotes = bytes.simd_eq(u8x16::splat(b'"'));
    let backslashes = bytes.simd_eq(u8x16::splat(b'\\'));
    first_set((unprintable | quotes | backslashes).to_bitmask())
}

/// Returns a place up to which all bytes from `from` are simple.
fn skip_simple(text: &[u8], from: usize) -> usize
    ensures simple { list_all is_simple (slice_range text.now from result) ≡ true }
    ensures from { from ≤ result }
{
    let mut at = from;
    while at < text.len() && text.len() - at >= LANES {
        let run = simple_run(text, at);
        at += run;
        if run < LANES {
            return at;
        }
    }
    while at < text.len() && is_simple(text[at]) {
        at += 1;
    }
    at
}

/// Returns the place after the end quote of the string that contains the place `from`.
fn string_end(text: &[u8], from: usize) -> Option<usize>
    ensures rest { rest_from text.now result ≡ string_rest false (drop from text.now) }
    ensures within { IfSome result (λ end. (from < end) × (end ≤ length text.now)) }
{
    let mut at = skip_simple(text, from);
    while at < text.len() {
        match text[at] {
            b'"' => return Some(at + 1),
            b'\\' => at = skip_simple(text, at + 2),
            _ => at = skip_simple(text, at + 1),
        }
    }
    None
}

/// Returns the place after the array or object that the text starts with.
fn nest_end(text: &[u8]) -> Option<usize>
    ensures value { opens_nest text.now ≡ true → EndsValue text.now result }
    ensures within { IfSome result (λ end. (0 < end) × (end ≤ length text.now)) }
{
    let mut at = 0;
    let mut depth: usize = 0;
    while at < text.len() {
        match text[at] {
            b'"' => at = string_end(text, at + 1)?,
            b'[' | b'{' => {
                depth += 1;
                at += 1;
            }
            b']' | b'}' => {
                at += 1;
                if depth <= 1 {
                    return Some(at);
                }
                depth -= 1;
            }
            _ => at += 1,
        }
    }
    None
}

/// Returns whether the byte follows a value inside a text.
fn ends_value(byte: u8) -> bool
    ensures { result ≡ ends_value (byte ∷ []) }
{
    matches!(byte, b',' | b']' | b'}')
}

/// Returns the place of the first byte that follows a value.
fn separator_at(text: &[u8]) -> Option<usize>
    ensures { result ≡ position (λ b. ends_value (b ∷ [])) text.now }
{
    text.iter().position(|byte| ends_value(*byte))
}

/// Returns the place after the number or word that the text starts with.
fn word_end(text: &[u8]) -> Option<usize>
    ensures value { opens_string text.now ≡ false → opens_nest text.now ≡ false
        → EndsValue text.now result }
    ensures within { IfSome result (λ end. (0 < end) × (end ≤ length text.now)) }
{
    let end = separator_at(text)?;
    if end == 0 {
        return None;
    }
    Some(end)
}

fn opens_string(text: &[u8]) -> bool
    ensures { result ≡ opens_string text.now }
{
    matches!(text, [b'"', ..])
}

fn opens_nest(text: &[u8]) -> bool
    ensures { result ≡ opens_nest text.now }
{
    matches!(text, [b'[' | b'{', ..])
}

/// Returns the place after the value that the text starts with.
fn value_end(text: &[u8]) -> Option<usize>
    ensures value { EndsValue text.now result }
    ensures within { IfSome result (λ end. (0 < end) × (end ≤ length text.now)) }
{
    if opens_string(text) {
        return string_end(text, 1);
    }
    if opens_nest(text) {
        return nest_end(text);
    }
    word_end(text)
}

/// Returns the string that a canonical text starts with, with its quotes, and what follows it.
pub(crate) fn split_string(text: &[u8]) -> Option<(&[u8], &[u8])>
    ensures string { (s more : List ℕ) → text.now ≡ text_of (doc.text s) ++ more
        → Splits result (text_of (doc.text s)) more }
    ensures shorter { IfSome result (λ parts. length parts.1.now < length text.now) }
{
    let end = string_end(text, 1)?;
    Some(text.split_at(end))
}

/// Returns the string that a canonical text starts with, with its quotes, and what follows it, if
/// the string consists of simple bytes.
pub(crate) fn split_simple(text: &[u8]) -> Option<(&[u8], &[u8])>
    ensures string { (s more : List ℕ) → text.now ≡ text_of (doc.text s) ++ more
        → IfSome result (λ parts. SplitsSimple parts s more) }
    ensures shorter { IfSome result (λ parts. length parts.1.now < length text.now) }
{
    let end = skip_simple(text, 1);
    if end < text.len() && text[end] == b'"' {
        Some(text.split_at(end + 1))
    } else {
        None
    }
}

/// Returns the value that a canonical text starts with, and what follows it.
pub(crate) fn split_value(text: &[u8]) -> Option<(&[u8], &[u8])>
    ensures value { (d : Doc) (more : List ℕ) → text.now ≡ text_of d ++ more
        → ends_value more ≡ true → Splits result (text_of d) more }
    ensures shorter { IfSome result (λ parts. length parts.1.now < length text.now) }
{
    let end = value_end(text)?;
    Some(text.split_at(end))
}

/// Returns the bytes of a string without its quotes.
pub(crate) fn without_quotes(string: &[u8]) -> &[u8]
    ensures { (s : List ℕ) → string.now ≡ text_of (doc.text s) → result.now ≡ escape s }
{
    match string {
        [_, inside @ .., _] => inside,
        _ => string,
    }
}
