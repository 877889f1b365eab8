//! Writes the names of members.
ghost use Rattle.std.specs.Prelude.{◌≡◌, ℕ, ◌<◌, ◌≤◌, ◌==◌, ◌++◌, List, length, take, true};
ghost use Rattle.std.specs.Prelude.{IfSome, OnOk};
ghost use Rattle.std.specs.{Char.is_ascii_digit, List.list_all};
ghost use Rattle.dap_tree.specs.Doc as doc;
ghost use Rattle.dap_tree.specs.{Json.text_of};
ghost use Rattle.dap_transcript.specs.Names as names;
ghost use Rattle.dap_transcript.specs.Walk.{StartsWithPlain};

use crate::canonical::without_quotes;
use crate::lines::after_byte;
use crate::scalars::push_escaped;
use std::alloc::AllocError;

/// 1 for each byte of a name without quotes: the ASCII letters, the decimal digits and `_`.
const NAME_BYTES: [u8; 256] = [
    0, 0, 0, 0, 0, 0, 0, 0, 0, 0, 0, 0, 0, 0, 0, 0, 0, 0, 0, 0, 0, 0, 0, 0, 0, 0, 0, 0, 0, 0, 0, 0,
    0, 0, 0, 0, 0, 0, 0, 0, 0, 0, 0, 0, 0, 0, 0, 0, 1, 1, 1, 1, 1, 1, 1, 1, 1, 1, 0, 0, 0, 0, 0, 0,
    0, 1, 1, 1, 1, 1, 1, 1, 1, 1, 1, 1, 1, 1, 1, 1, 1, 1, 1, 1, 1, 1, 1, 1, 1, 1, 1, 0, 0, 0, 0, 1,
    0, 1, 1, 1, 1, 1, 1, 1, 1, 1, 1, 1, 1, 1, 1, 1, 1, 1, 1, 1, 1, 1, 1, 1, 1, 1, 1, 0, 0, 0, 0, 0,
    0, 0, 0, 0, 0, 0, 0, 0, 0, 0, 0, 0, 0, 0, 0, 0, 0, 0, 0, 0, 0, 0, 0, 0, 0, 0, 0, 0, 0, 0, 0, 0,
    0, 0, 0, 0, 0, 0, 0, 0, 0, 0, 0, 0, 0, 0, 0, 0, 0, 0, 0, 0, 0, 0, 0, 0, 0, 0, 0, 0, 0, 0, 0, 0,
    0, 0, 0, 0, 0, 0, 0, 0, 0, 0, 0, 0, 0, 0, 0, 0, 0, 0, 0, 0, 0, 0, 0, 0, 0, 0, 0, 0, 0, 0, 0, 0,
    0, 0, 0, 0, 0, 0, 0, 0, 0, 0, 0, 0, 0, 0, 0, 0, 0, 0, 0, 0, 0, 0, 0, 0, 0, 0, 0, 0, 0, 0, 0, 0,
];

fn is_letter(byte: u8) -> bool
    ensures { result ≡ names.is_letter byte }
{
    byte.is_ascii_alphabetic() || byte == b'_'
}

fn is_name_byte(byte: u8) -> bool
    ensures { result ≡ names.is_name_byte byte }
{
    NAME_BYTES[byte as usize] == 1
}

fn are_name_bytes(bytes: &[u8]) -> bool
    ensures { result ≡ list_all names.is_name_byte bytes.now }
{
    bytes.iter().all(|byte| is_name_byte(*byte))
}

/// Returns the place of the first byte that is not a letter, a digit or `_`.
fn name_end(text: &[u8]) -> Option<usize>
    ensures { IfSome result (λ end. (end ≤ length text.now)
        × (list_all names.is_name_byte (take end text.now) ≡ true)) }
{
    for (place, byte) in text.iter().enumerate() {
        if !is_name_byte(*byte) {
            return Some(place);
        }
    }
    None
}

/// Divides a text after the letters, digits and `_` that it starts with, if another byte follows
/// them.
fn split_name_bytes(text: &[u8]) -> Option<(&[u8], &[u8])>
    ensures { IfSome result (λ parts. (text.now ≡ parts.0.now ++ parts.1.now)
        × (list_all names.is_name_byte parts.0.now ≡ true)) }
{
    let end = name_end(text)?;
    Some(text.split_at(end))
}

fn are_digits(bytes: &[u8]) -> bool
    ensures { result ≡ list_all is_ascii_digit bytes.now }
{
    bytes.iter().all(|byte| byte.is_ascii_digit())
}

fn are_underscores(bytes: &[u8]) -> bool
    ensures { result ≡ list_all (λ b. b == 95) bytes.now }
{
    bytes.iter().all(|byte| *byte == b'_')
}

/// Returns whether the name has the form of a name without quotes, if its bytes are those of one.
fn starts_plain(name: &[u8]) -> bool
    requires { list_all names.is_name_byte name.now ≡ true }
    ensures { result ≡ names.has_plain_form name.now }
{
    match name {
        [] => false,
        [first, ..] => is_letter(*first),
    }
}

fn is_word(name: &[u8], word: &[u8]) -> bool
    ensures { result ≡ names.is_word word.now name.now }
{
    name.eq_ignore_ascii_case(word)
}

/// Returns whether some YAML reader takes the name for a boolean, null or a number. Looks only at
/// the words of the same length.
fn is_typed_word(name: &[u8]) -> bool
    ensures { result ≡ names.is_typed_word name.now }
{
    match name.len() {
        1 => is_word(name, b"y") || is_word(name, b"n"),
        2 => is_word(name, b"no") || is_word(name, b"on"),
        3 => {
            is_word(name, b"yes")
                || is_word(name, b"off")
                || is_word(name, b"nan")
                || is_word(name, b"inf")
        }
        4 => is_word(name, b"true") || is_word(name, b"null"),
        5 => is_word(name, b"false"),
        _ => false,
    }
}

fn is_e(byte: u8) -> bool
    ensures { result ≡ names.is_e byte }
{
    byte == b'e' || byte == b'E'
}

/// Returns whether the name is an exponent, such as `e1`.
fn is_exponent(name: &[u8]) -> bool
    ensures { result ≡ names.is_exponent name.now }
{
    match name {
        [] | [_] => false,
        [first, digits @ ..] => is_e(*first) && are_digits(digits),
    }
}

/// Returns whether a name of letters, digits and `_` is written without quotes.
fn is_plain_word(name: &[u8]) -> bool
    requires { list_all names.is_name_byte name.now ≡ true }
    ensures { result ≡ names.is_plain name.now }
{
    starts_plain(name) && !(is_typed_word(name) || is_exponent(name))
}

/// Returns whether a name is written without quotes.
pub(crate) fn is_plain(name: &[u8]) -> bool
    ensures { result ≡ names.is_plain name.now }
{
    are_name_bytes(name) && is_plain_word(name)
}

/// Returns the name of a member, without quotes, and what follows its colon, if the text starts
/// with a member whose name is written without quotes.
pub(crate) fn split_plain_name(text: &[u8]) -> Option<(&[u8], &[u8])>
    ensures plain { IfSome result
        (λ parts. StartsWithPlain text.now parts.0.now parts.1.now) }
    ensures shorter { IfSome result (λ parts. length parts.1.now < length text.now) }
{
    let inside = after_byte(text, b'"')?;
    let (name, end) = split_name_bytes(inside)?;
    let colon = after_byte(end, b'"')?;
    let value = after_byte(colon, b':')?;
    if is_plain_word(name) {
        Some((name, value))
    } else {
        None
    }
}

fn has_underscores(name: &[u8], word: &[u8]) -> bool
    ensures { result ≡ names.has_underscores word.now name.now }
{
    if name.len() < word.len() {
        return false;
    }
    let (first, rest) = name.split_at(word.len());
    first == word && are_underscores(rest)
}

/// Returns whether the name of a member could be taken for that of a head.
pub(crate) fn names_head(name: &[u8]) -> bool
    ensures { result ≡ names.names_head name.now }
{
    has_underscores(name, b"client") || has_underscores(name, b"adapter")
}

/// Appends a name of a canonical text, which is given with its quotes, as it is or as a string.
pub(crate) fn push_name(name: &[u8], out: &mut Vec<u8>) -> Result<(), AllocError>
    ensures { OnOk result ((k : List ℕ) → name.now ≡ text_of (doc.text k)
        → out.new.items ≡ out.old.items ++ names.name_text k) }
{
    let inside = without_quotes(name);
    if is_plain(inside) {
        return out.extend_from_slice(inside);
    }
    push_escaped(name, out)
}
