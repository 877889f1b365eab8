//! A tree read from the JSON of a content.
ghost use Rattle.std.specs.Prelude.{◌≡◌, ◌<◌, true, length, IfOk, IfErr, IsErrOf, MatchResult};
ghost use Rattle.serde_json.specs.Data.{number as json_number};
ghost use Rattle.serde_json.specs.View.{number_view, view as value_view, items_view as values_view};
ghost use Rattle.serde_json.specs.View.{members_view as pairs_view};
ghost use Rattle.dap_tree.specs.Doc.{is_plain};
ghost use Rattle.dap_tree.specs.Json.{IsRead, Outcome, document, HasOutcome, ExplainsText};
ghost use Rattle.dap_tree.specs.Json.{FaultMatches};
ghost use Rattle.dap_tree.specs.Json.{ExplainsData, ExplainsItems, ExplainsMembers, ValueMatches};
ghost use Rattle.dap_tree.specs.Json.{ItemsMatch, MembersMatch};
ghost use Rattle.dap_tree.specs.View.{view, items_view, members_view};
ghost use Rattle.dap_tree.specs.declared.fault.TreeFault.{TreeFault};

use crate::parse::{Unread, parse};
use crate::{Tree, TreeFault};
use json::Scratch;
use serde_json::{Map, Number, Value};
use std::alloc::Global;
use std::collections::BTreeMap;

/// Reads the tree of a JSON content. If a member name occurs twice, the last one counts.
///
/// # Errors
///
/// - `Memory`: an allocation failed. It is possible for any content that is not empty, and nothing
///   is claimed about the content.
/// - `Json`: the content is not UTF-8, is not JSON, nests more than 127 arrays and objects, or
///   contains a number beyond the largest 64-bit float.
/// - `Fraction`: the content is JSON, and a number is not an integer of 64 bits.
pub fn read_tree(alloc: Global, content: &[u8]) -> Result<Tree, TreeFault>
    ensures ok { IfOk result (λ t. IsRead content.now (view t)) }
    ensures plain { IfOk result (λ t. is_plain (view t) ≡ true) }
    ensures err { IfErr result (ExplainsText content.now) }
    ensures memory { IsErrOf result TreeFault.Memory → 0 < length content.now }

    // Conversely, the result agrees with the outcome of the content.
    ensures exactly { (o : Outcome) → HasOutcome content.now o
        → MatchResult result (λ t. o ≡ document (view t)) (FaultMatches o) }
{
    let mut scratch = Scratch::new(alloc);
    read_tree_with(alloc, content, &mut scratch)
}

/// Does the same as [`read_tree`], and reuses the buffer `scratch`.
///
/// The contents of the buffer do not affect the result.
pub fn read_tree_with(
    alloc: Global,
    content: &[u8],
    scratch: &mut Scratch,
) -> Result<Tree, TreeFault>
    ensures ok { IfOk result (λ t. IsRead content.now (view t)) }
    ensures plain { IfOk result (λ t. is_plain (view t) ≡ true) }
    ensures err { IfErr result (ExplainsText content.now) }
    ensures memory { IsErrOf result TreeFault.Memory → 0 < length content.now }

    // Conversely, the result agrees with the outcome of the content.
    ensures exactly { (o : Outcome) → HasOutcome content.now o
        → MatchResult result (λ t. o ≡ document (view t)) (FaultMatches o) }
{
    match parse(alloc, content, scratch) {
        Ok(tree) => Ok(tree),
        Err(Unread::Memory) => Err(TreeFault::Memory),
        Err(Unread::Unclear) => read_value(alloc, content),
    }
}

/// Reads the tree in two passes. Only the complete value determines whether a number is not an
/// integer of 64 bits, because a later member of the same name may replace it.
fn read_value(alloc: Global, content: &[u8]) -> Result<Tree, TreeFault>
    ensures ok { IfOk result (λ t. IsRead content.now (view t)) }
    ensures err { IfErr result (ExplainsText content.now) }
    ensures memory { IsErrOf result TreeFault.Memory → 0 < length content.now }
{
    match Value::from_slice(alloc, content) {
        Ok(value) => tree_of(alloc, value),
        Err(error) if error.is_memory() => Err(TreeFault::Memory),
        Err(_) => Err(TreeFault::Json),
    }
}

#[cycle(tree_of)]
fn tree_of(alloc: Global, value: Value) -> Result<Tree, TreeFault>
    ensures ok { IfOk result (λ t. ValueMatches (value_view value) (view t)) }
    ensures err { IfErr result (ExplainsData (value_view value)) }
{
    match value {
        Value::Null => Ok(Tree::Null),
        Value::Bool(b) => Ok(Tree::Bool(b)),
        Value::Number(n) => whole(&n),
        Value::String(text) => Ok(Tree::Text(text)),
        Value::Array(values) => Ok(Tree::List(items_of(alloc, values)?)),
        Value::Object(values) => Ok(Tree::Object(members_of(alloc, values)?)),
    }
}

fn whole(number: &Number) -> Result<Tree, TreeFault>
    ensures ok { IfOk result (λ t. ValueMatches (json_number (number_view number.now)) (view t)) }
    ensures err { IfErr result (ExplainsData (json_number (number_view number.now))) }
{
    if let Some(n) = number.as_u64() {
        Ok(Tree::Whole(n as i128))
    } else if let Some(n) = number.as_i64() {
        Ok(Tree::Whole(n as i128))
    } else {
        Err(TreeFault::Fraction)
    }
}

#[cycle(tree_of)]
fn items_of(alloc: Global, values: Vec<Value>) -> Result<Vec<Tree>, TreeFault>
    ensures ok { IfOk result (λ v. ItemsMatch (values_view values.items) (items_view v.items)) }
    ensures err { IfErr result (ExplainsItems (values_view values.items)) }
{
    let mut items = Vec::with_capacity(alloc, values.len())?;
    for value in values {
        let item = tree_of(alloc, value)?;
        items.push(item)?;
    }
    Ok(items)
}

#[cycle(tree_of)]
fn members_of(
    alloc: Global,
    values: Map<String, Value>,
) -> Result<BTreeMap<String, Tree>, TreeFault>
    ensures ok { IfOk result
        (λ m. MembersMatch (pairs_view values.entries) (members_view m.entries)) }
    ensures err { IfErr result (ExplainsMembers (pairs_view values.entries)) }
{
    let mut members = BTreeMap::new(alloc);
    for (name, value) in values {
        let member = tree_of(alloc, value)?;
        drop(members.insert(name, member)?);
    }
    Ok(members)
}
