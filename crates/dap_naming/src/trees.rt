//! Names in the place of the ids of a message.
ghost use Rattle.std.specs.Prelude.{◌≡◌, ◌<◌, ◌∷◌, ◌++◌, [], true, Some, IfOk, OnOk, length};
ghost use Rattle.std.specs.Prelude.{string_bytes, string_cmp, option_map};
ghost use Rattle.std.specs.BTreeMap.{insert_entry};
ghost use Rattle.dap_tokens.specs.{Tokens.is_label, Laws.AreLabels, Models.labels_of};
ghost use Rattle.dap_tokens.specs.Naming.{ids, named as named_string};
ghost use Rattle.dap_tree.specs.View.{view, items_view, members_view};
ghost use Rattle.dap_naming.specs.Documents.{ids_of, items_ids, members_ids};
ghost use Rattle.dap_naming.specs.Documents.{named_items, named_members};
ghost use Rattle.dap_naming.specs.Documents.{ids_of_whole, named_whole};
ghost use Rattle.dap_naming.specs.Known.{Names, NamesDoc, FitsLimit, ExceedsLimit, limit_of};
ghost use Rattle.dap_naming.specs.Known.{ByTable, NamesByTable};
ghost use Rattle.dap_naming.specs.DeclaredRules.{rules_of, have_labels, IsLabel};

use crate::choice::{below, here, inside};
use crate::fault::NamingFault;
use crate::rules::Declared;
use crate::texts::name_text;
use crate::value_numbers::ValueNumbers;
use dap_tokens::{Labels, is_nothing};
use dap_tree::Tree;
use itoa::Buffer;
use std::alloc::{AllocError, Global};
use std::collections::BTreeMap;
use std::mem;

/// Replaces each declared id of a message by its name: an integer by its number, and a token of a
/// string by `<LABEL NUMBER>`.
///
/// # Errors
///
/// - `Full`: a value is new, and its label has as many values as the limit.
/// - `Memory`: an allocation failed.
///
/// After an error neither the numbers nor the message must be used again.
pub fn name_tree(
    alloc: Global,
    numbers: &mut ValueNumbers,
    tree: &mut Tree,
    rules: &[Declared<'_>],
) -> Result<(), NamingFault>
    requires { have_labels (rules_of rules.now) ≡ true }
    ensures names { OnOk result
        (NamesDoc numbers.old numbers.new (rules_of rules.now) (view tree.old) (view tree.new)) }
    ensures table { OnOk result
        (NamesByTable numbers.old numbers.new (rules_of rules.now) (view tree.old)
        (view tree.new)) }
    ensures few { OnOk result
        (FitsLimit numbers.old (ids_of (rules_of rules.now) (view tree.old))) }
    ensures full { result ≡ Err NamingFault.Full
        → ExceedsLimit numbers.old (ids_of (rules_of rules.now) (view tree.old)) }
    ensures limit { limit_of numbers.new ≡ limit_of numbers.old }
{
    let old = mem::replace(tree, Tree::Null);
    *tree = named(alloc, numbers, old, rules)?;
    Ok(())
}

#[cycle(named)]
fn named(
    alloc: Global,
    numbers: &mut ValueNumbers,
    tree: Tree,
    rules: &[Declared<'_>],
) -> Result<Tree, NamingFault>
    requires { have_labels (rules_of rules.now) ≡ true }
    ensures names { IfOk result
        (λ t. NamesDoc numbers.old numbers.new (rules_of rules.now) (view tree) (view t)) }
    ensures table { IfOk result
        (λ t. NamesByTable numbers.old numbers.new (rules_of rules.now) (view tree) (view t)) }
    ensures few { OnOk result (FitsLimit numbers.old (ids_of (rules_of rules.now) (view tree))) }
    ensures full { result ≡ Err NamingFault.Full
        → ExceedsLimit numbers.old (ids_of (rules_of rules.now) (view tree)) }
    ensures limit { limit_of numbers.new ≡ limit_of numbers.old }
{
    if rules.is_empty() {
        return Ok(tree);
    }
    match tree {
        Tree::Whole(value) => {
            let label = here(rules).whole;
            Ok(Tree::Whole(named_whole(alloc, numbers, value, label)?))
        }
        Tree::Text(text) => Ok(Tree::Text(named_text(alloc, numbers, text, &here(rules))?)),
        Tree::List(items) => Ok(Tree::List(named_items(alloc, numbers, items, rules)?)),
        Tree::Object(members) => Ok(Tree::Object(named_members(alloc, numbers, members, rules)?)),
        Tree::Null => Ok(Tree::Null),
        Tree::Bool(value) => Ok(Tree::Bool(value)),
        Tree::Id(sort, number) => Ok(Tree::Id(sort, number)),
    }
}

#[cycle(named)]
fn named_items(
    alloc: Global,
    numbers: &mut ValueNumbers,
    items: Vec<Tree>,
    rules: &[Declared<'_>],
) -> Result<Vec<Tree>, NamingFault>
    requires labels { have_labels (rules_of rules.now) ≡ true }
    requires some { 0 < length rules.now }
    ensures names { IfOk result (λ v. Names numbers.old numbers.new
        (items_ids (rules_of rules.now) (items_view items.items))
        (λ number. items_view v.items
        ≡ named_items (rules_of rules.now) number (items_view items.items))) }
    ensures table { IfOk result (λ v. ByTable numbers.old numbers.new (λ number.
        items_view v.items
        ≡ named_items (rules_of rules.now) number (items_view items.items))) }
    ensures few { OnOk result
        (FitsLimit numbers.old (items_ids (rules_of rules.now) (items_view items.items))) }
    ensures full { result ≡ Err NamingFault.Full
        → ExceedsLimit numbers.old (items_ids (rules_of rules.now) (items_view items.items)) }
    ensures limit { limit_of numbers.new ≡ limit_of numbers.old }
{
    let mut list = Vec::new(alloc);
    for item in items {
        let left = inside(alloc, rules, &item)?;
        push(&mut list, named(alloc, numbers, item, &left)?)?;
    }
    Ok(list)
}

fn push(list: &mut Vec<Tree>, tree: Tree) -> Result<(), AllocError>
    ensures { OnOk result (list.new.items ≡ list.old.items ++ tree ∷ []) }
{
    list.push(tree)?;
    Ok(())
}

#[cycle(named)]
fn named_members(
    alloc: Global,
    numbers: &mut ValueNumbers,
    members: BTreeMap<String, Tree>,
    rules: &[Declared<'_>],
) -> Result<BTreeMap<String, Tree>, NamingFault>
    requires labels { have_labels (rules_of rules.now) ≡ true }
    requires some { 0 < length rules.now }
    ensures names { IfOk result (λ m. Names numbers.old numbers.new
        (members_ids (rules_of rules.now) (members_view members.entries))
        (λ number. members_view m.entries
        ≡ named_members (rules_of rules.now) number (members_view members.entries))) }
    ensures table { IfOk result (λ m. ByTable numbers.old numbers.new (λ number.
        members_view m.entries
        ≡ named_members (rules_of rules.now) number (members_view members.entries))) }
    ensures few { OnOk result
        (FitsLimit numbers.old (members_ids (rules_of rules.now) (members_view members.entries))) }
    ensures full { result ≡ Err NamingFault.Full → ExceedsLimit numbers.old
        (members_ids (rules_of rules.now) (members_view members.entries)) }
    ensures limit { limit_of numbers.new ≡ limit_of numbers.old }
{
    let mut object = BTreeMap::new(alloc);
    for (name, member) in members {
        let left = below(alloc, rules, &name)?;
        let member = named(alloc, numbers, member, &left)?;
        put(&mut object, name, member)?;
    }
    Ok(object)
}

fn put(object: &mut BTreeMap<String, Tree>, name: String, member: Tree) -> Result<(), AllocError>
    ensures { OnOk result (object.new.entries
        ≡ insert_entry string_cmp object.old.entries name member) }
{
    drop(object.insert(name, member)?);
    Ok(())
}

fn named_text(
    alloc: Global,
    numbers: &mut ValueNumbers,
    text: String,
    labels: &Labels<'_>,
) -> Result<String, NamingFault>
    requires { AreLabels (labels_of labels.now) }
    ensures names { IfOk result (λ s. Names numbers.old numbers.new
        (ids (labels_of labels.now) (string_bytes text))
        (λ number. string_bytes s
        ≡ named_string (labels_of labels.now) number (string_bytes text))) }
    ensures table { IfOk result (λ s. ByTable numbers.old numbers.new (λ number.
        string_bytes s ≡ named_string (labels_of labels.now) number (string_bytes text))) }
    ensures few { OnOk result
        (FitsLimit numbers.old (ids (labels_of labels.now) (string_bytes text))) }
    ensures full { result ≡ Err NamingFault.Full
        → ExceedsLimit numbers.old (ids (labels_of labels.now) (string_bytes text)) }
    ensures limit { limit_of numbers.new ≡ limit_of numbers.old }
{
    if *labels == Labels::none() {
        Ok(text)
    } else {
        name_text(alloc, numbers, labels, &text)
    }
}

// Returns the integer with its number in its place, if it has a label and is an id.
pub(crate) fn named_whole(
    alloc: Global,
    numbers: &mut ValueNumbers,
    value: i128,
    label: Option<&str>,
) -> Result<i128, NamingFault>
    requires { IsLabel (option_map (λ l. l.now) label) }
    ensures names { IfOk result (λ z. Names numbers.old numbers.new
        (ids_of_whole (option_map (λ l. l.now) label.entry) value)
        (λ number. z ≡ named_whole (option_map (λ l. l.now) label.entry) number value)) }
    ensures table { IfOk result (λ z. ByTable numbers.old numbers.new
        (λ number. z ≡ named_whole (option_map (λ l. l.now) label.entry) number value)) }
    ensures few { OnOk result
        (FitsLimit numbers.old (ids_of_whole (option_map (λ l. l.now) label.entry) value)) }
    ensures full { result ≡ Err NamingFault.Full → ExceedsLimit numbers.old
        (ids_of_whole (option_map (λ l. l.now) label.entry) value) }
    ensures limit { limit_of numbers.new ≡ limit_of numbers.old }
{
    let Some(label) = label else {
        return Ok(value);
    };
    let mut buffer = Buffer::new();
    let text = buffer.format(value).as_bytes();
    if is_nothing(text) {
        return Ok(value);
    }
    let number = numbers.number(alloc, label, text)?;
    Ok(number as i128)
}
