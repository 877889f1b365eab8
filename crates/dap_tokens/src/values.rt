//! The values of tokens, and the names that replace them.
ghost use Rattle.std.specs.Prelude.{◌≡◌, ◌++◌, ◌∷◌, [], length, drop, decimal, IfOk, OnOk, codes};
ghost use Rattle.dap_words.specs.Uuids.{nil_uuid};
ghost use Rattle.dap_tokens.specs.Tokens.{name, number_in};
ghost use Rattle.dap_tokens.specs.Values.{is_name, is_nothing, value, value_of_form, hex_value};
ghost use Rattle.dap_tokens.specs.Values.{lower, without_zeros};
ghost use Rattle.dap_tokens.specs.Numerals.{has_leading_zero};

use crate::form::Form;
use crate::tokens::{NIL, digit_count, name_length};
use itoa::Buffer;
use std::alloc::{AllocError, Global};

/// Returns the value of a token: of a name its number, in decimal digits, and of another token its
/// digits without leading zeros, in lower case.
///
/// # Errors
///
/// - `AllocError`: an allocation failed.
pub fn value(alloc: Global, label: &str, form: Form, token: &[u8]) -> Result<Vec<u8>, AllocError>
    ensures { IfOk result (λ v. v.items ≡ value label.now form token.now) }
{
    if is_name(label, token) {
        number_in(alloc, label, token)
    } else {
        value_of_form(alloc, form, token)
    }
}

fn is_name(label: &str, token: &[u8]) -> bool
    ensures { result ≡ is_name label.now token.now }
{
    let length = name_length(label, token);
    length > 0 && length == token.len()
}

fn number_in(alloc: Global, label: &str, token: &[u8]) -> Result<Vec<u8>, AllocError>
    ensures { IfOk result (λ v. v.items ≡ number_in label.now token.now) }
{
    let rest = after(label.len() + 2, token);
    Vec::from_slice(alloc, &rest[..digit_count(rest)])
}

// Returns the bytes after the first `count`.
fn after(count: usize, bytes: &[u8]) -> &[u8]
    ensures { result.now ≡ drop count bytes.now }
{
    if count < bytes.len() {
        &bytes[count..]
    } else {
        &[]
    }
}

fn value_of_form(alloc: Global, form: Form, token: &[u8]) -> Result<Vec<u8>, AllocError>
    ensures { IfOk result (λ v. v.items ≡ value_of_form form token.now) }
{
    match form {
        Form::Whole => Vec::from_slice(alloc, token),
        Form::Digits => Vec::from_slice(alloc, without_zeros(token)),
        Form::Hex => hex_value(alloc, after(2, token)),
        Form::Long => hex_value(alloc, token),
        Form::Uuid => lower(alloc, token),
    }
}

fn hex_value(alloc: Global, digits: &[u8]) -> Result<Vec<u8>, AllocError>
    ensures { IfOk result (λ v. v.items ≡ hex_value digits.now) }
{
    let lower = lower(alloc, digits)?;
    let mut value = Vec::from_slice(alloc, b"0x")?;
    value.extend_from_slice(without_zeros(&lower))?;
    Ok(value)
}

fn lower(alloc: Global, bytes: &[u8]) -> Result<Vec<u8>, AllocError>
    ensures { IfOk result (λ v. v.items ≡ lower bytes.now) }
{
    bytes
        .iter()
        .map(|byte| byte.to_ascii_lowercase())
        .collect(alloc)
}

// Returns the digits without leading zeros. The last digit always stays.
fn without_zeros(digits: &[u8]) -> &[u8]
    ensures { result.now ≡ without_zeros digits.now }
{
    let mut rest = digits;
    while has_leading_zero(rest) {
        rest = &rest[1..];
    }
    rest
}

// Returns whether the first digit is a zero and not the only digit.
fn has_leading_zero(digits: &[u8]) -> bool
    ensures { result ≡ has_leading_zero digits.now }
{
    match digits {
        [first, _, ..] => *first == b'0',
        _ => false,
    }
}

/// Returns whether the value is not an id: zero, the nil UUID, or an empty string.
pub fn is_nothing(value: &[u8]) -> bool
    ensures { result ≡ is_nothing value.now }
{
    value.is_empty()
        || value == b"0".as_slice()
        || value == b"0x0".as_slice()
        || value == NIL.as_slice()
}

/// Appends the name of a number. After a failure, a part of it may have been appended.
///
/// # Errors
///
/// - `AllocError`: an allocation failed.
pub fn push_name(label: &str, number: u64, out: &mut Vec<u8>) -> Result<(), AllocError>
    ensures { OnOk result (out.new.items ≡ out.old.items ++ name label.now (decimal number)) }
{
    let mut buffer = Buffer::new();
    out.push(b'<')?;
    out.extend_from_slice(label.as_bytes())?;
    out.push(b' ')?;
    out.extend_from_slice(buffer.format(number).as_bytes())?;
    out.push(b'>')?;
    Ok(())
}
