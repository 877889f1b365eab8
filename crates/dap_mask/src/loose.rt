//! Reads contents and rejects non-integer numbers only after masking.
ghost use Rattle.std.specs.Prelude.{◌≡◌, ◌<◌, length, IfOk, IfErr, IsErrOf, IfSome, option_map};
ghost use Rattle.serde_json.specs.View.{number_view, view as value_view, items_view as values_view};
ghost use Rattle.serde_json.specs.View.{members_view as pairs_view};
ghost use Rattle.dap_tree.specs.View.{view, items_view, members_view};
ghost use Rattle.dap_mask.specs.KeptRules.{mask_of};
ghost use Rattle.dap_mask.specs.Loose.{loose, loose_items, loose_members, loose_number};
ghost use Rattle.dap_mask.specs.Loose.{IsReadLoosely, IsReadBy, IsLeftOf, ExplainsLoosely};
ghost use Rattle.dap_mask.specs.{Loose.ExplainsMasked, Promises.IsContentMasked};

use crate::filling::fill;
use crate::mask_rules::MaskRules;
use crate::masking::{is_dropped, mask};
use crate::omitting::omit;
use dap_tree::{Scratch, Tree, TreeFault, read_tree_with};
use dap_words::put_words;
use serde_json::{Map, Number, Value};
use std::alloc::{AllocError, Global};
use std::collections::BTreeMap;

/// Represents each number that is not an integer of 64 bits: 2^64, which is out of range and
/// therefore not serialisable.
const NO_WHOLE: i128 = 18_446_744_073_709_551_616;

/// Reads the tree of a content as [`read_by_rules`] does, and masks it. Reuses the buffers in
/// `scratch` between calls. Returns `None` for an event that the rules drop.
///
/// # Errors
///
/// - `Json`: the content is not JSON text.
/// - `Fraction`: a number is not an integer of 64 bits and remains after masking.
/// - `Memory`: an allocation failed. The content is not empty, and may be valid or not.
pub fn read_masked(
    alloc: Global,
    content: &[u8],
    rules: &MaskRules,
    scratch: &mut Scratch,
) -> Result<Option<Tree>, TreeFault>
    ensures ok { IfOk result (λ o. IsLeftOf (mask_of rules.now) content.now (option_map view o)) }
    ensures err { IfErr result (ExplainsMasked (mask_of rules.now) content.now) }
    ensures memory { IsErrOf result TreeFault.Memory → 0 < length content.now }

    // Only the places of the rules change, and only the elements that rules omit are missing.
    // Masking the result again does not change it. Another content has the same result if and only
    // if both agree except for the redacted parts and these elements.
    ensures masked { IfOk result (λ o. IfSome (option_map view o)
        (IsContentMasked (mask_of rules.now) content.now)) }
{
    let mut tree = read_by_rules(alloc, content, rules, scratch)?;
    if is_dropped(&tree, rules) {
        return Ok(None);
    }
    mask(&mut tree, rules);
    omit(&mut tree, rules);
    if tree.sound() {
        Ok(Some(tree))
    } else {
        Err(TreeFault::Fraction)
    }
}

/// Reads the tree of a content as [`read_loosely`] does, puts the words of the rules in the place
/// of texts, and sets the members that rules set if they are absent or null.
///
/// # Errors
///
/// - `Json`: the content is not JSON text.
/// - `Memory`: an allocation failed. The content is not empty, and may be valid or not.
pub fn read_by_rules(
    alloc: Global,
    content: &[u8],
    rules: &MaskRules,
    scratch: &mut Scratch,
) -> Result<Tree, TreeFault>
    ensures ok { IfOk result (λ t. IsReadBy (mask_of rules.now) content.now (view t)) }
    ensures err { IfErr result (ExplainsLoosely content.now) }
    ensures memory { IsErrOf result TreeFault.Memory → 0 < length content.now }
{
    let read = read_loosely(alloc, content, scratch)?;
    let mut tree = put_words(alloc, read, rules.words())?;
    fill(alloc, &mut tree, rules.fills())?;
    Ok(tree)
}

/// Reads the tree of a content, with 2^64 for each number that is not an integer of 64 bits. Reuses
/// the buffers in `scratch` between calls.
///
/// # Errors
///
/// - `Json`: the content is not JSON text.
/// - `Memory`: an allocation failed. The content is not empty, and may be valid or not.
pub fn read_loosely(alloc: Global, content: &[u8], scratch: &mut Scratch) -> Result<Tree, TreeFault>
    ensures ok { IfOk result (λ t. IsReadLoosely content.now (view t)) }
    ensures err { IfErr result (ExplainsLoosely content.now) }
    ensures memory { IsErrOf result TreeFault.Memory → 0 < length content.now }
{
    match read_tree_with(alloc, content, scratch) {
        Ok(tree) => Ok(tree),
        Err(TreeFault::Fraction) => read_value(alloc, content),
        Err(fault) => Err(fault),
    }
}

fn read_value(alloc: Global, content: &[u8]) -> Result<Tree, TreeFault>
    ensures ok { IfOk result (λ t. IsReadLoosely content.now (view t)) }
    ensures err { IfErr result (ExplainsLoosely content.now) }
    ensures memory { IsErrOf result TreeFault.Memory → 0 < length content.now }
{
    match Value::from_slice(alloc, content) {
        Ok(value) => {
            let tree = loose_tree(alloc, value)?;
            Ok(tree)
        }
        Err(error) if error.is_memory() => Err(TreeFault::Memory),
        Err(_) => Err(TreeFault::Json),
    }
}

#[cycle(loose_tree)]
fn loose_tree(alloc: Global, value: Value) -> Result<Tree, AllocError>
    ensures { IfOk result (λ t. view t ≡ loose (value_view value)) }
{
    match value {
        Value::Null => Ok(Tree::Null),
        Value::Bool(b) => Ok(Tree::Bool(b)),
        Value::Number(n) => Ok(Tree::Whole(loose_number(&n))),
        Value::String(text) => Ok(Tree::Text(text)),
        Value::Array(values) => Ok(Tree::List(loose_items(alloc, values)?)),
        Value::Object(values) => Ok(Tree::Object(loose_members(alloc, values)?)),
    }
}

fn loose_number(number: &Number) -> i128
    ensures { result ≡ loose_number (number_view number.now) }
{
    if let Some(n) = number.as_u64() {
        n as i128
    } else if let Some(n) = number.as_i64() {
        n as i128
    } else {
        NO_WHOLE
    }
}

#[cycle(loose_tree)]
fn loose_items(alloc: Global, values: Vec<Value>) -> Result<Vec<Tree>, AllocError>
    ensures { IfOk result (λ v. items_view v.items ≡ loose_items (values_view values.items)) }
{
    let mut items = Vec::with_capacity(alloc, values.len())?;
    for value in values {
        let item = loose_tree(alloc, value)?;
        items.push(item)?;
    }
    Ok(items)
}

#[cycle(loose_tree)]
fn loose_members(
    alloc: Global,
    values: Map<String, Value>,
) -> Result<BTreeMap<String, Tree>, AllocError>
    ensures { IfOk result
        (λ m. members_view m.entries ≡ loose_members (pairs_view values.entries)) }
{
    let mut members = BTreeMap::new(alloc);
    for (name, value) in values {
        let member = loose_tree(alloc, value)?;
        drop(members.insert(name, member)?);
    }
    Ok(members)
}
