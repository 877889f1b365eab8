//! Sets members that are absent or null.
ghost use Rattle.std.specs.Prelude.{◌≡◌, ◌∷◌, OnOk, IfOk, option_map};
ghost use Rattle.dap_tree.specs.Doc.{change_child, change_items, map_items, get_member};
ghost use Rattle.dap_tree.specs.View.{view, items_view, members_view};
ghost use Rattle.dap_message.specs.Capabilities.{is_given, default_member, default_to};
ghost use Rattle.dap_mask.specs.Fills.{fill_of, fills_of, fill_applies, fill_by, filled, set_value};
ghost use Rattle.dap_mask.specs.Fills.{scalar_of, scalar_doc};
ghost use Rattle.dap_mask.specs.RuleSteps.{change_at_place, change_called};
ghost use Rattle.dap_mask.specs.Rules.{step_of, place_of};

use crate::fills::{FillRule, Scalar};
use crate::masking::{has_name, is_called, is_of_kind};
use crate::meets::text_of;
use crate::rules::Step;
use dap_tree::Tree;
use std::alloc::{AllocError, Global};
use std::collections::BTreeMap;

/// Sets the members of a message that are absent or null, by the rules in order.
pub(crate) fn fill(alloc: Global, tree: &mut Tree, rules: &[FillRule]) -> Result<(), AllocError>
    ensures { OnOk result (view tree.new ≡ filled (fills_of rules.now) (view tree.old)) }
{
    for rule in rules {
        fill_by(alloc, tree, rule)?;
    }
    Ok(())
}

fn fill_by(alloc: Global, tree: &mut Tree, rule: &FillRule) -> Result<(), AllocError>
    ensures { OnOk result (view tree.new ≡ fill_by (fill_of rule.now) (view tree.old)) }
{
    if fill_applies(rule, tree) {
        fill_path(alloc, tree, &rule.parent, rule)
    } else {
        Ok(())
    }
}

fn fill_applies(rule: &FillRule, tree: &Tree) -> bool
    ensures { result ≡ fill_applies (fill_of rule.now) (view tree.now) }
{
    is_of_kind(tree, rule.kind) && has_name(tree, rule.kind, text_of(&rule.name))
}

#[cycle(fill_path)]
fn fill_path(
    alloc: Global,
    tree: &mut Tree,
    path: &[Step],
    rule: &FillRule,
) -> Result<(), AllocError>
    ensures { OnOk result (view tree.new
        ≡ change_at_place (place_of path.now) (set_value (fill_of rule.now)) (view tree.old)) }
{
    match path {
        [] => set_value(alloc, tree, rule),
        [step, rest @ ..] => fill_step(alloc, tree, step, rest, rule),
    }
}

#[cycle(fill_path)]
fn fill_step(
    alloc: Global,
    tree: &mut Tree,
    step: &Step,
    path: &[Step],
    rule: &FillRule,
) -> Result<(), AllocError>
    ensures { OnOk result (view tree.new
        ≡ change_at_place (step_of step.now ∷ place_of path.now) (set_value (fill_of rule.now))
        (view tree.old)) }
{
    match step {
        Step::Member(name) => fill_below(alloc, tree, name.as_str(), path, rule),
        Step::Each => fill_list(alloc, tree, None, path, rule),
        Step::Element(name) => fill_list(alloc, tree, Some(name.as_str()), path, rule),
    }
}

#[cycle(fill_path)]
fn fill_below(
    alloc: Global,
    tree: &mut Tree,
    name: &str,
    path: &[Step],
    rule: &FillRule,
) -> Result<(), AllocError>
    ensures { OnOk result (view tree.new
        ≡ change_child name.now (change_at_place (place_of path.now) (set_value (fill_of rule.now)))
        (view tree.old)) }
{
    if let Some(members) = tree.members_mut() {
        if let Some(member) = members.get_mut(name) {
            fill_path(alloc, member, path, rule)?;
        }
    }
    Ok(())
}

// Fills the elements of an array with this name, or all of them if no name is given.
#[cycle(fill_path)]
fn fill_list(
    alloc: Global,
    tree: &mut Tree,
    name: Option<&str>,
    path: &[Step],
    rule: &FillRule,
) -> Result<(), AllocError>
    ensures { OnOk result (view tree.new
        ≡ change_items (change_called (option_map (λ s. s.now) name.entry)
        (change_at_place (place_of path.now) (set_value (fill_of rule.now)))) (view tree.old)) }
{
    if let Tree::List(items) = tree {
        fill_each(alloc, items, name, path, rule)?;
    }
    Ok(())
}

#[cycle(fill_path)]
fn fill_each(
    alloc: Global,
    items: &mut Vec<Tree>,
    name: Option<&str>,
    path: &[Step],
    rule: &FillRule,
) -> Result<(), AllocError>
    ensures { OnOk result (items_view items.new.items
        ≡ map_items (change_called (option_map (λ s. s.now) name.entry)
        (change_at_place (place_of path.now) (set_value (fill_of rule.now))))
        (items_view items.old.items)) }
{
    for item in items.iter_mut() {
        fill_element(alloc, item, name, path, rule)?;
    }
    Ok(())
}

#[cycle(fill_path)]
fn fill_element(
    alloc: Global,
    tree: &mut Tree,
    name: Option<&str>,
    path: &[Step],
    rule: &FillRule,
) -> Result<(), AllocError>
    ensures { OnOk result (view tree.new
        ≡ change_called (option_map (λ s. s.now) name.entry)
        (change_at_place (place_of path.now) (set_value (fill_of rule.now))) (view tree.old)) }
{
    if is_called(tree, name) {
        fill_path(alloc, tree, path, rule)
    } else {
        Ok(())
    }
}

fn set_value(alloc: Global, tree: &mut Tree, rule: &FillRule) -> Result<(), AllocError>
    ensures { OnOk result (view tree.new ≡ set_value (fill_of rule.now) (view tree.old)) }
{
    match &rule.last {
        Step::Member(name) => set_default(alloc, tree, name.as_str(), &rule.value),
        _ => Ok(()),
    }
}

fn set_default(alloc: Global, tree: &mut Tree, name: &str, value: &Scalar) -> Result<(), AllocError>
    ensures { OnOk result (view tree.new
        ≡ default_to name.now (scalar_doc (scalar_of value.now)) (view tree.old)) }
{
    if let Tree::Object(members) = tree {
        default_member(alloc, members, name, value)?;
    }
    Ok(())
}

fn default_member(
    alloc: Global,
    members: &mut BTreeMap<String, Tree>,
    name: &str,
    value: &Scalar,
) -> Result<(), AllocError>
    ensures { OnOk result (members_view members.new.entries
        ≡ default_member name.now (scalar_doc (scalar_of value.now))
        (members_view members.old.entries)) }
{
    if is_given(members, name) {
        return Ok(());
    }
    let key = String::from_str(alloc, name)?;
    let tree = tree_of(alloc, value)?;
    drop(members.insert(key, tree)?);
    Ok(())
}

fn is_given(members: &BTreeMap<String, Tree>, name: &str) -> bool
    ensures { result ≡ is_given (get_member name.now (members_view members.now.entries)) }
{
    is_more_than_null(members.get(name))
}

fn is_more_than_null(found: Option<&Tree>) -> bool
    ensures { result ≡ is_given (option_map (λ t. view t.now) found.entry) }
{
    match found {
        None | Some(Tree::Null) => false,
        Some(_) => true,
    }
}

fn tree_of(alloc: Global, value: &Scalar) -> Result<Tree, AllocError>
    ensures { IfOk result (λ t. view t ≡ scalar_doc (scalar_of value.now)) }
{
    match value {
        Scalar::Flag(b) => Ok(Tree::Bool(*b)),
        Scalar::Number(n) => Ok(Tree::Whole(*n)),
        Scalar::Text(text) => Ok(Tree::Text(String::from_str(alloc, text.as_str())?)),
    }
}
