//! Omits elements of arrays.
ghost use Rattle.std.specs.Prelude.{◌≡◌, ◌∷◌, true, option_map};
ghost use Rattle.dap_tree.specs.Doc.{change_child, change_items, map_items, is_sound, is_ordered};
ghost use Rattle.dap_tree.specs.View.{view, items_view};
ghost use Rattle.dap_mask.specs.KeptRules.{omissions_of_mask};
ghost use Rattle.dap_mask.specs.Omissions.{omission_of, omissions_of, omission_applies, omit_by};
ghost use Rattle.dap_mask.specs.Omissions.{omitted, without, items_without};
ghost use Rattle.dap_mask.specs.RuleSteps.{change_at_place, change_called};
ghost use Rattle.dap_mask.specs.Rules.{step_of, place_of};

use crate::mask_rules::MaskRules;
use crate::masking::{has_name, is_called, is_of_kind};
use crate::meets::text_of;
use crate::omissions::Omission;
use crate::rules::Step;
use dap_tree::Tree;

/// Removes the elements that the rules omit from the arrays of a masked message. Does not allocate.
pub fn omit(tree: &mut Tree, rules: &MaskRules)
    ensures omitted { view tree.new ≡ omitted (omissions_of_mask rules.now) (view tree.old) }
    ensures sound { is_sound (view tree.old) ≡ true → is_sound (view tree.new) ≡ true }
    ensures ordered { is_ordered (view tree.old) ≡ true → is_ordered (view tree.new) ≡ true }
{
    omit_all(tree, rules.omissions());
}

fn omit_all(tree: &mut Tree, rules: &[Omission])
    ensures { view tree.new ≡ omitted (omissions_of rules.now) (view tree.old) }
{
    for rule in rules {
        omit_by(tree, rule);
    }
}

fn omit_by(tree: &mut Tree, rule: &Omission)
    ensures { view tree.new ≡ omit_by (omission_of rule.now) (view tree.old) }
{
    if omission_applies(rule, tree) {
        omit_path(tree, &rule.parent, &rule.last);
    }
}

fn omission_applies(rule: &Omission, tree: &Tree) -> bool
    ensures { result ≡ omission_applies (omission_of rule.now) (view tree.now) }
{
    is_of_kind(tree, rule.kind) && has_name(tree, rule.kind, text_of(&rule.name))
}

#[cycle(omit_path)]
fn omit_path(tree: &mut Tree, path: &[Step], last: &Step)
    ensures { view tree.new
        ≡ change_at_place (place_of path.now) (without (step_of last.now)) (view tree.old) }
{
    match path {
        [] => remove(tree, last),
        [step, rest @ ..] => omit_step(tree, step, rest, last),
    }
}

#[cycle(omit_path)]
fn omit_step(tree: &mut Tree, step: &Step, path: &[Step], last: &Step)
    ensures { view tree.new
        ≡ change_at_place (step_of step.now ∷ place_of path.now) (without (step_of last.now))
        (view tree.old) }
{
    match step {
        Step::Member(name) => omit_below(tree, name.as_str(), path, last),
        Step::Each => omit_in_items(tree, None, path, last),
        Step::Element(name) => omit_in_items(tree, Some(name.as_str()), path, last),
    }
}

#[cycle(omit_path)]
fn omit_below(tree: &mut Tree, name: &str, path: &[Step], last: &Step)
    ensures { view tree.new
        ≡ change_child name.now (change_at_place (place_of path.now) (without (step_of last.now)))
        (view tree.old) }
{
    if let Some(members) = tree.members_mut() {
        if let Some(member) = members.get_mut(name) {
            omit_path(member, path, last);
        }
    }
}

// Continues in the elements of an array with this name, or in all of them if no name is given.
#[cycle(omit_path)]
fn omit_in_items(tree: &mut Tree, name: Option<&str>, path: &[Step], last: &Step)
    ensures { view tree.new
        ≡ change_items (change_called (option_map (λ s. s.now) name.entry)
        (change_at_place (place_of path.now) (without (step_of last.now)))) (view tree.old) }
{
    if let Tree::List(items) = tree {
        omit_in_each(items, name, path, last);
    }
}

#[cycle(omit_path)]
fn omit_in_each(items: &mut Vec<Tree>, name: Option<&str>, path: &[Step], last: &Step)
    ensures { items_view items.new.items
        ≡ map_items (change_called (option_map (λ s. s.now) name.entry)
        (change_at_place (place_of path.now) (without (step_of last.now))))
        (items_view items.old.items) }
{
    for item in items.iter_mut() {
        omit_in_element(item, name, path, last);
    }
}

#[cycle(omit_path)]
fn omit_in_element(tree: &mut Tree, name: Option<&str>, path: &[Step], last: &Step)
    ensures { view tree.new
        ≡ change_called (option_map (λ s. s.now) name.entry)
        (change_at_place (place_of path.now) (without (step_of last.now))) (view tree.old) }
{
    if is_called(tree, name) {
        omit_path(tree, path, last);
    }
}

// Removes the elements that the step selects, if the value is an array.
fn remove(tree: &mut Tree, last: &Step)
    ensures { view tree.new ≡ without (step_of last.now) (view tree.old) }
{
    match (tree, last) {
        (Tree::List(items), Step::Element(name)) => remove_called(items, name.as_str()),
        _ => {}
    }
}

fn remove_called(items: &mut Vec<Tree>, name: &str)
    ensures { items_view items.new.items ≡ items_without name.now (items_view items.old.items) }
{
    items.retain(|item| !is_called(item, Some(name)));
}
