//! Prints the part of a long JSON text in which it differs from another text.
ghost use Rattle.std.specs.Prelude.{◌≡◌, ◌++◌, ◌≤◌, drop, length, nat_eq, take, OnOk};
ghost use Rattle.std.specs.List.{common_prefix_len};
ghost use Rattle.dap_difference.specs.Windows.{after_signs, cut, first_characters, goes_on};
ghost use Rattle.dap_difference.specs.Windows.{is_long, left_after, signs, signs_before};
ghost use Rattle.dap_difference.specs.Windows.{starts_sign, window};

use std::alloc::AllocError;

/// How many characters and escape sequences are printed before the first difference.
const CONTEXT: usize = 16;

/// The maximum number of bytes of an escape sequence after its backslash, as in `\u001b`.
const ESCAPE: u8 = 5;

/// Returns whether a byte belongs to the same character as the byte before it.
fn goes_on(byte: u8) -> bool
    ensures { result ≡ goes_on byte }
{
    byte >= 128 && byte < 192
}

/// Returns the length in bytes of the characters of a string that are printed.
fn shown_length(text: &[u8], limit: usize) -> usize
    ensures front { take result text.now ≡ first_characters limit text.now }
    ensures within { result ≤ length text.now }
    ensures len { result ≡ length (first_characters limit text.now) }
{
    let mut left = limit;
    for (i, byte) in text.iter().enumerate() {
        if !goes_on(*byte) {
            if left == 0 {
                return i;
            }
            left -= 1;
        }
    }
    text.len()
}

/// Returns how many bytes of an escape sequence can follow a byte, if `left` can before it.
fn left_after(left: u8, byte: u8) -> u8
    ensures { result ≡ left_after left byte }
{
    if left == 0 {
        if byte == b'\\' { ESCAPE } else { 0 }
    } else if left == ESCAPE && byte != b'u' {
        0
    } else {
        left - 1
    }
}

/// Returns whether a byte starts a character or an escape sequence.
fn starts_sign(left: u8, byte: u8) -> bool
    ensures { result ≡ starts_sign left byte }
{
    left == 0 && !goes_on(byte)
}

/// Returns how many characters and escape sequences start in a string.
fn signs(text: &[u8]) -> usize
    ensures { result ≡ signs text.now }
{
    let mut found: usize = 0;
    let mut left = 0;
    for byte in text {
        if starts_sign(left, *byte) {
            found += 1;
        }
        left = left_after(left, *byte);
    }
    found
}

/// Returns the index after the first characters and escape sequences of a string.
fn end_of_signs(text: &[u8], count: usize) -> usize
    ensures rest { drop result text.now ≡ after_signs count text.now }
    ensures within { result ≤ length text.now }
{
    let mut before = count;
    let mut left = 0;
    for (i, byte) in text.iter().enumerate() {
        if starts_sign(left, *byte) {
            if before == 0 {
                return i;
            }
            before -= 1;
        }
        left = left_after(left, *byte);
    }
    text.len()
}

/// Returns with how many equal bytes two strings start.
fn shared_length(text: &[u8], other: &[u8]) -> usize
    ensures len { result ≡ common_prefix_len nat_eq text.now other.now }
    ensures within { result ≤ length text.now }
{
    for (i, byte) in text.iter().enumerate() {
        match other.get(i) {
            Some(found) => if *found != *byte {
                return i;
            },
            None => return i,
        }
    }
    text.len()
}

/// Returns how many characters and escape sequences of a string precede its window.
fn signs_before(text: &[u8], other: &[u8]) -> usize
    ensures { result ≡ signs_before text.now other.now }
{
    let shared = shared_length(text, other);
    signs(&text[..shared]).saturating_sub(CONTEXT)
}

/// Returns whether a string has more characters than the limit.
fn is_long(text: &[u8], limit: usize) -> bool
    ensures { result ≡ is_long limit text.now }
{
    shown_length(text, limit) < text.len()
}

/// Appends a string, truncated if it has more characters than the limit.
pub fn push_cut(text: &[u8], limit: usize, out: &mut Vec<u8>) -> Result<(), AllocError>
    ensures { OnOk result (out.new.items ≡ out.old.items ++ cut limit text.now) }
{
    let shown = shown_length(text, limit);
    out.extend_from_slice(&text[..shown])?;
    if shown < text.len() {
        out.extend_from_slice(b"...")?;
    }
    Ok(())
}

/// Appends a JSON text, or a part of it in which it differs from the other text.
///
/// At most `limit` characters are printed. If the text has more, they begin with the last 16
/// characters or escape sequences that start before the first byte that differs. `...` replaces the
/// part that is left out before them, and the part that is left out after them.
///
/// # Errors
///
/// - `AllocError`: an allocation failed.
pub fn push_window(
    text: &str,
    other: &str,
    limit: usize,
    out: &mut Vec<u8>,
) -> Result<(), AllocError>
    ensures { OnOk result (out.new.items ≡ out.old.items ++ window limit text.now other.now) }
{
    let text = text.as_bytes();
    if is_long(text, limit) {
        let before = signs_before(text, other.as_bytes());
        if before > 0 {
            out.extend_from_slice(b"...")?;
            return push_cut(&text[end_of_signs(text, before)..], limit, out);
        }
    }
    push_cut(text, limit, out)
}
