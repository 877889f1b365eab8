//! Names in the place of the ids of a string.
ghost use Rattle.std.specs.Prelude.{◌≡◌, ◌∷◌, ◌++◌, [], false, Some, IfOk, OnOk, string_bytes};
ghost use Rattle.std.specs.Prelude.{length, take, drop};
ghost use Rattle.dap_tokens.specs.Tokens.{token, parts, parts_from};
ghost use Rattle.dap_tokens.specs.{Laws.AreLabels, Models.{labels_of, token_of}};
ghost use Rattle.dap_tokens.specs.Naming.{ids, ids_of_parts, named};
ghost use Rattle.dap_naming.specs.Known.{Names, Writes, FitsLimit, ExceedsLimit, limit_of};
ghost use Rattle.dap_naming.specs.Known.{ByTable};
ghost use Rattle.dap_naming.specs.DeclaredRules.{IsLabel};
ghost use Rattle.dap_naming.specs.Literals.{ends_in_digit, literal_run, may_begin, may_begin_run};

use crate::fault::NamingFault;
use crate::value_numbers::ValueNumbers;
use dap_tokens::{Form, Labels, is_nothing, push_name, token_at, value};
use std::alloc::{AllocError, Global};

/// Returns the text with each id replaced by its name. The ids are those of the forms that have
/// labels, and of names of these labels.
///
/// # Errors
///
/// The errors of [`ValueNumbers::number`]. After an error the numbers must not be used again.
pub(crate) fn name_text(
    alloc: Global,
    numbers: &mut ValueNumbers,
    labels: &Labels<'_>,
    text: &str,
) -> Result<String, NamingFault>
    requires { AreLabels (labels_of labels.now) }
    ensures names { IfOk result (λ s. Names numbers.old numbers.new
        (ids (labels_of labels.now) text.now)
        (λ number. string_bytes s ≡ named (labels_of labels.now) number text.now)) }
    ensures table { IfOk result (λ s. ByTable numbers.old numbers.new
        (λ number. string_bytes s ≡ named (labels_of labels.now) number text.now)) }
    ensures few { OnOk result (FitsLimit numbers.old (ids (labels_of labels.now) text.now)) }
    ensures full { result ≡ Err NamingFault.Full
        → ExceedsLimit numbers.old (ids (labels_of labels.now) text.now) }
    ensures limit { limit_of numbers.new ≡ limit_of numbers.old }
{
    let named = name_bytes(alloc, numbers, labels, text.as_bytes())?;
    Ok(String::from_utf8(named).unwrap())
}

fn name_bytes(
    alloc: Global,
    numbers: &mut ValueNumbers,
    labels: &Labels<'_>,
    text: &[u8],
) -> Result<Vec<u8>, NamingFault>
    requires { AreLabels (labels_of labels.now) }
    ensures writes { IfOk result (λ v. Writes numbers.old numbers.new
        (parts (labels_of labels.now) text.now) [] v.items) }
    ensures few { OnOk result
        (FitsLimit numbers.old (ids_of_parts (parts (labels_of labels.now) text.now))) }
    ensures full { result ≡ Err NamingFault.Full
        → ExceedsLimit numbers.old (ids_of_parts (parts (labels_of labels.now) text.now)) }
    ensures limit { limit_of numbers.new ≡ limit_of numbers.old }
{
    let mut named = Vec::with_capacity(alloc, text.len())?;
    match labels.whole {
        Some(label) => {
            name_token(alloc, numbers, Form::Whole, label, text, &mut named)?;
            Ok(named)
        }
        None => {
            name_parts(alloc, numbers, labels, text, &mut named)?;
            Ok(named)
        }
    }
}

// Appends the text with its names. The text is read once, from left to right.
fn name_parts(
    alloc: Global,
    numbers: &mut ValueNumbers,
    labels: &Labels<'_>,
    text: &[u8],
    named: &mut Vec<u8>,
) -> Result<(), NamingFault>
    requires { AreLabels (labels_of labels.now) }
    ensures writes { OnOk result (Writes numbers.old numbers.new
        (parts_from (labels_of labels.now) 0 false text.now) named.old.items named.new.items) }
    ensures few { OnOk result (FitsLimit numbers.old
        (ids_of_parts (parts_from (labels_of labels.now) 0 false text.now))) }
    ensures full { result ≡ Err NamingFault.Full → ExceedsLimit numbers.old
        (ids_of_parts (parts_from (labels_of labels.now) 0 false text.now)) }
    ensures limit { limit_of numbers.new ≡ limit_of numbers.old }
{
    let mut rest = text;
    let mut after_digit = false;
    'parts: while let Some((first, others)) = rest.split_first() {
        let run = literal_run(labels, rest);
        if run > 0 {
            let (literal, others) = split_part(rest, run);
            named.extend_from_slice(literal)?;
            after_digit = ends_in_digit(literal);
            rest = others;
            continue 'parts;
        }
        match token_at(labels, after_digit, rest) {
            None => {
                push(*first, named)?;
                after_digit = first.is_ascii_hexdigit();
                rest = others;
            }
            Some(token) => {
                let (part, others) = split_part(rest, token.count);
                name_token(alloc, numbers, token.form, token.label, part, named)?;
                after_digit = false;
                rest = others;
            }
        }
    }
    Ok(())
}

// Returns the number of bytes at the start with which no name and no token starts.
fn literal_run(labels: &Labels<'_>, text: &[u8]) -> usize
    ensures { result ≡ length (literal_run (labels_of labels.now) text.now) }
{
    text.iter()
        .take_while(|byte| !may_begin(labels, **byte))
        .count()
}

// Returns whether a name can start with the byte, or a token of a form that has a label.
fn may_begin(labels: &Labels<'_>, byte: u8) -> bool
    ensures { result ≡ may_begin (labels_of labels.now) byte }
{
    byte == b'<'
        || (labels.digits.is_some() && byte.is_ascii_digit())
        || (labels.hex.is_some() && byte == b'0')
        || may_begin_run(labels, byte)
}

// Returns whether a long run of hexadecimal digits or a UUID can start with the byte, if such a
// form has a label.
fn may_begin_run(labels: &Labels<'_>, byte: u8) -> bool
    ensures { result ≡ may_begin_run (labels_of labels.now) byte }
{
    (labels.long.is_some() || labels.uuid.is_some()) && byte.is_ascii_hexdigit()
}

// Returns whether the last byte is a hexadecimal digit.
fn ends_in_digit(text: &[u8]) -> bool
    ensures { result ≡ ends_in_digit text.now }
{
    match text {
        [] => false,
        [.., last] => last.is_ascii_hexdigit(),
    }
}

// Returns the first `length` bytes, and the bytes after them.
pub(crate) fn split_part(text: &[u8], length: usize) -> (&[u8], &[u8])
    ensures part { result.0.now ≡ take length text.now }
    ensures rest { result.1.now ≡ drop length text.now }
{
    if length < text.len() {
        text.split_at(length)
    } else {
        (text, &[])
    }
}

fn push(byte: u8, named: &mut Vec<u8>) -> Result<(), AllocError>
    ensures { OnOk result (named.new.items ≡ named.old.items ++ byte ∷ []) }
{
    named.push(byte)?;
    Ok(())
}

// Appends a token or its name.
fn name_token(
    alloc: Global,
    numbers: &mut ValueNumbers,
    form: Form,
    label: &str,
    part: &[u8],
    named: &mut Vec<u8>,
) -> Result<(), NamingFault>
    requires { IsLabel (Some label.now) }
    ensures writes { OnOk result (Writes numbers.old numbers.new
        (token form label.now part.now ∷ []) named.old.items named.new.items) }
    ensures few { OnOk result
        (FitsLimit numbers.old (ids_of_parts (token form label.now part.now ∷ []))) }
    ensures full { result ≡ Err NamingFault.Full
        → ExceedsLimit numbers.old (ids_of_parts (token form label.now part.now ∷ [])) }
    ensures limit { limit_of numbers.new ≡ limit_of numbers.old }
{
    let value = value(alloc, label, form, part)?;
    if is_nothing(&value) {
        named.extend_from_slice(part)?;
        return Ok(());
    }
    let number = numbers.number(alloc, label, &value)?;
    push_name(label, number, named)?;
    Ok(())
}
