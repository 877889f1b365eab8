//! Parses the names of messages and of members in a rules file.
ghost use Rattle.std.specs.Prelude.{◌≡◌, Some, IfOk, option_map, string_bytes};
ghost use Rattle.serde_json.specs.View.{view as value_view};
ghost use Rattle.dap_mask.specs.RuleText.{text_in, string_of, quoted_at, plain_at, name_at};
ghost use Rattle.dap_mask.specs.RuleText.{any_name};

use crate::runs::{ByteClass, closing, split_run};
use serde_json::Value;
use std::alloc::{AllocError, Global};

/// Parses the name with which a text starts: plain bytes (see `ByteClass::Plain`), or a JSON
/// string. Returns the name and the rest of the text; `None` if the text starts with no name.
/// Allocates the name.
///
/// # Errors
///
/// `AllocError`: an allocation failed.
pub fn name_at(alloc: Global, text: &[u8]) -> Result<Option<(String, &[u8])>, AllocError>
    ensures { IfOk result
        (λ o. option_map (λ n. (string_bytes n.0, n.1.now)) o ≡ name_at text.now) }
{
    match text {
        [b'"', ..] => quoted_at(alloc, text),
        _ => plain_at(alloc, text),
    }
}

/// Parses the name of messages with which a text starts: `*`, which is any name, or a name as
/// [`name_at`] parses it. Returns the name, which is `None` for `*`, and the rest of the text;
/// `None` if the text starts with neither. Allocates the name.
///
/// # Errors
///
/// `AllocError`: an allocation failed.
pub fn any_name(alloc: Global, text: &[u8]) -> Result<Option<(Option<String>, &[u8])>, AllocError>
    ensures { IfOk result
        (λ o. option_map (λ n. (option_map string_bytes n.0, n.1.now)) o ≡ any_name text.now) }
{
    match text {
        [b'*', rest @ ..] => Ok(Some((None, rest))),
        _ => match name_at(alloc, text)? {
            Some((name, rest)) => Ok(Some((Some(name), rest))),
            None => Ok(None),
        },
    }
}

fn plain_at(alloc: Global, text: &[u8]) -> Result<Option<(String, &[u8])>, AllocError>
    ensures { IfOk result
        (λ o. option_map (λ n. (string_bytes n.0, n.1.now)) o ≡ plain_at text.now) }
{
    let (name, rest) = split_run(text, ByteClass::Plain);
    if name.is_empty() {
        return Ok(None);
    }
    let name = Vec::from_slice(alloc, name)?;
    Ok(Some((String::from_utf8(name).unwrap(), rest)))
}

/// Returns the name in quotes with which the text starts, and the rest; `None` if no quote closes
/// it or it is not a JSON string. The caller has checked the opening quote.
pub(crate) fn quoted_at(alloc: Global, text: &[u8]) -> Result<Option<(String, &[u8])>, AllocError>
    ensures { IfOk result
        (λ o. option_map (λ n. (string_bytes n.0, n.1.now)) o ≡ quoted_at text.now) }
{
    let [_, inside @ ..] = text else {
        return Ok(None);
    };
    let Some(end) = closing(inside) else {
        return Ok(None);
    };
    let (token, rest) = text.split_at(end + 1);
    match string_of(alloc, token)? {
        Some(name) => Ok(Some((name, rest))),
        None => Ok(None),
    }
}

#[tactic(auto, unfolding(crate::specs::RuleText::string_of))]
fn string_of(alloc: Global, token: &[u8]) -> Result<Option<String>, AllocError>
    ensures { IfOk result (λ o. option_map string_bytes o ≡ string_of token.now) }
{
    match Value::from_slice(alloc, token) {
        Ok(value) => Ok(text_in(value)),
        Err(error) if error.is_memory() => Err(AllocError),
        Err(_) => Ok(None),
    }
}

fn text_in(value: Value) -> Option<String>
    ensures { option_map string_bytes result ≡ text_in (Some (value_view value)) }
{
    match value {
        Value::String(text) => Some(text),
        _ => None,
    }
}
