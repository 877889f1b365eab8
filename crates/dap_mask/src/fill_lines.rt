//! Parses lines that set members.
ghost use Rattle.std.specs.Prelude.{◌≡◌, IfOk, option_map, string_bytes};
ghost use Rattle.serde_json.specs.View.{view as value_view, number_view};
ghost use Rattle.dap_mask.specs.{Fills.scalar_of, Mask.statement_of};
ghost use Rattle.dap_mask.specs.RuleText.{scalar_in, scalar_at, plain_value, value_at, split_last};
ghost use Rattle.dap_mask.specs.RuleText.{fill_behind, fill_at, plain_at, value_behind};
ghost use Rattle.dap_mask.specs.Rules.{step_of, place_of};
ghost use Rattle.std.specs.Prelude.{option_and_then, Some};
ghost use Rattle.serde_json.specs.Data.{number as number_data};

use crate::fills::{FillRule, Scalar};
use crate::names::quoted_at;
use crate::places::place_at;
use crate::rules::Step;
use crate::runs::{ByteClass, gap, is_end, split_run};
use crate::statement::{Statement, head_at};
use dap_message::Kind;
use serde_json::{Number, Value};
use std::alloc::{AllocError, Global};

/// Parses the rest of a line after its word `fill`.
pub(crate) fn fill_at(alloc: Global, text: &[u8]) -> Result<Option<Statement>, AllocError>
    ensures { IfOk result (λ o. option_map statement_of o ≡ fill_at text.now) }
{
    if let Some((kind, name, text)) = head_at(alloc, text)?
        && let Some(text) = gap(text)
        && let Some((place, text)) = place_at(alloc, text)?
    {
        return fill_behind(alloc, kind, name, place, text);
    }
    Ok(None)
}

// Returns the rule for this place, whose value is in the text.
fn fill_behind(
    alloc: Global,
    kind: Kind,
    name: Option<String>,
    place: Vec<Step>,
    text: &[u8],
) -> Result<Option<Statement>, AllocError>
    ensures { IfOk result (λ o. option_map statement_of o
        ≡ fill_behind kind (option_map string_bytes name) (place_of place.items, text.now)) }
{
    let mut parent = place;
    match parent.pop() {
        Some(last) => value_behind(alloc, kind, name, parent, last, text),
        None => Ok(None),
    }
}

fn value_behind(
    alloc: Global,
    kind: Kind,
    name: Option<String>,
    parent: Vec<Step>,
    last: Step,
    text: &[u8],
) -> Result<Option<Statement>, AllocError>
    ensures { IfOk result (λ o. option_map statement_of o
        ≡ value_behind kind (option_map string_bytes name) text.now
        (place_of parent.items, step_of last)) }
{
    if let Some(text) = gap(text)
        && let Some((value, rest)) = value_at(alloc, text)?
        && is_end(rest)
    {
        return Ok(Some(Statement::Fill(FillRule {
            kind,
            name,
            parent,
            last,
            value,
        })));
    }
    Ok(None)
}

/// Parses the value with which a text starts: `true`, `false`, an integer of 64 bits, or a JSON
/// string. Returns the value and the rest of the text; `None` if the text starts with no value.
/// Allocates the value.
///
/// # Errors
///
/// `AllocError`: an allocation failed.
pub fn value_at(alloc: Global, text: &[u8]) -> Result<Option<(Scalar, &[u8])>, AllocError>
    ensures { IfOk result
        (λ o. option_map (λ v. (scalar_of v.0, v.1.now)) o ≡ value_at text.now) }
{
    match text {
        [b'"', ..] => match quoted_at(alloc, text)? {
            Some((value, rest)) => Ok(Some((Scalar::Text(value), rest))),
            None => Ok(None),
        },
        _ => plain_value(alloc, text),
    }
}

fn plain_value(alloc: Global, text: &[u8]) -> Result<Option<(Scalar, &[u8])>, AllocError>
    ensures { IfOk result (λ o. option_map (λ v. (scalar_of v.0, v.1.now)) o
        ≡ option_and_then plain_value (plain_at text.now)) }
{
    let (word, rest) = split_run(text, ByteClass::Plain);
    if word.is_empty() {
        return Ok(None);
    }
    match scalar_at(alloc, word)? {
        Some(value) => Ok(Some((value, rest))),
        None => Ok(None),
    }
}

#[tactic(auto, unfolding(crate::specs::RuleText::scalar_at))]
fn scalar_at(alloc: Global, token: &[u8]) -> Result<Option<Scalar>, AllocError>
    ensures { IfOk result (λ o. option_map scalar_of o ≡ scalar_at token.now) }
{
    match Value::from_slice(alloc, token) {
        Ok(value) => Ok(scalar_in(value)),
        Err(error) if error.is_memory() => Err(AllocError),
        Err(_) => Ok(None),
    }
}

fn scalar_in(value: Value) -> Option<Scalar>
    ensures { option_map scalar_of result ≡ scalar_in (Some (value_view value)) }
{
    match value {
        Value::Bool(b) => Some(Scalar::Flag(b)),
        Value::Number(n) => number_in(&n),
        Value::String(text) => Some(Scalar::Text(text)),
        _ => None,
    }
}

fn number_in(number: &Number) -> Option<Scalar>
    ensures { option_map scalar_of result
        ≡ scalar_in (Some (number_data (number_view number.now))) }
{
    if let Some(n) = number.as_u64() {
        Some(Scalar::Number(n as i128))
    } else if let Some(n) = number.as_i64() {
        Some(Scalar::Number(n as i128))
    } else {
        None
    }
}
