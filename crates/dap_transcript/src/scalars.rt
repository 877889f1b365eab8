//! Writes scalars.
ghost use Rattle.std.specs.Prelude.{◌≡◌, ◌++◌, ◌∷◌, [], ◌/◌, ◌%◌, ◌<◌, nat_lt, OnOk};
ghost use Rattle.std.specs.{Char.digit_char, List.list_all};
ghost use Rattle.dap_transcript.specs.Scalars.{char_text, escape, escaped, is_escaped};
ghost use Rattle.dap_transcript.specs.Scalars.{string_text};

use dap_flat::{Node, write_flat};
use std::alloc::{AllocError, Global};
use std::str;

/// Returns whether a character is written as `\u` and its code.
fn is_escaped(c: char) -> bool
    ensures { result ≡ is_escaped c }
{
    matches!(
        c as u32,
        0x7f..=0x9f | 0x2028..=0x2029 | 0xfeff | 0xfffe..=0xffff
    )
}

/// Returns a hexadecimal digit.
fn hex_digit(digit: u32) -> u8
    requires { digit < 16 }
    ensures { result ≡ digit_char digit }
{
    if digit < 10 {
        b'0' + digit as u8
    } else {
        b'a' + (digit - 10) as u8
    }
}

/// Appends `\u` and four hexadecimal digits.
fn push_escape(code: u32, out: &mut Vec<u8>) -> Result<(), AllocError>
    ensures { OnOk result (out.new.items ≡ out.old.items ++ escape code) }
{
    out.extend_from_slice(b"\\u")?;
    out.extend_from_slice(&[
        hex_digit(code / 4096 % 16),
        hex_digit(code / 256 % 16),
        hex_digit(code / 16 % 16),
        hex_digit(code % 16),
    ])
}

/// Appends a character, escaped if YAML does not allow it.
fn push_char(c: char, out: &mut Vec<u8>) -> Result<(), AllocError>
    ensures { OnOk result (out.new.items ≡ out.old.items ++ char_text c) }
{
    if is_escaped(c) {
        return push_escape(c as u32, out);
    }
    out.extend_from_slice(c.encode_utf8(&mut [0; 4]).as_bytes())
}

/// Appends a text with the characters escaped that YAML does not allow.
pub(crate) fn push_escaped(text: &[u8], out: &mut Vec<u8>) -> Result<(), AllocError>
    ensures { OnOk result (out.new.items ≡ out.old.items ++ escaped text.now) }
{
    if are_low(text) {
        return out.extend_from_slice(text);
    }
    match str::from_utf8(text) {
        Ok(text) => push_chars(text, out),
        Err(_) => Err(AllocError),
    }
}

/// Returns whether each byte is an ASCII character that is not escaped. Looks at all bytes: this is
/// faster than to stop early.
fn are_low(bytes: &[u8]) -> bool
    ensures { result ≡ list_all (λ b. nat_lt b 0x7f) bytes.now }
{
    let mut greatest = 0;
    for byte in bytes {
        if *byte > greatest {
            greatest = *byte;
        }
    }
    greatest < 0x7f
}

fn push_chars(text: &str, out: &mut Vec<u8>) -> Result<(), AllocError>
    ensures { OnOk result (out.new.items ≡ out.old.items ++ escaped text.now) }
{
    for c in text.chars() {
        push_char(c, out)?;
    }
    Ok(())
}

/// Appends a string. `quoted` is a buffer: the writer of JSON initializes a part of its buffer that
/// grows with the text before, so it does not write to the output.
pub(crate) fn push_string(
    alloc: Global,
    text: &str,
    quoted: &mut Vec<u8>,
    out: &mut Vec<u8>,
) -> Result<(), AllocError>
    ensures { OnOk result (out.new.items ≡ out.old.items ++ string_text text.now) }
{
    quoted.clear();
    write_flat(alloc, &[Node::Text(text)], quoted)?;
    push_escaped(quoted.as_slice(), out)
}
