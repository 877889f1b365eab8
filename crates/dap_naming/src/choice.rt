//! The rules for a value, and for its parts.
ghost use Rattle.std.specs.Prelude.{◌≡◌, ◌++◌, Some, IfOk, OnOk, option_map};
ghost use Rattle.dap_tree.specs.View.{view};
ghost use Rattle.dap_mask.specs.{Rules.place_of, RuleSteps.is_called};
ghost use Rattle.dap_naming.specs.Documents.{here, below, inside, is_to_member, is_to_element};
ghost use Rattle.dap_tokens.specs.Models.{labels_of};
ghost use Rattle.dap_naming.specs.DeclaredRules.{declared_of, rules_of, with_place};
ghost use Rattle.dap_naming.specs.DeclaredRules.{after_if, is_only_member};

use crate::rules::Declared;
use dap_mask::Step;
use dap_tokens::Labels;
use dap_tree::Tree;
use std::alloc::{AllocError, Global};

/// Returns the labels that the rules give to the forms of a value itself.
pub(crate) fn here<'r>(rules: &[Declared<'r>]) -> Labels<'r>
    ensures { labels_of result ≡ here (rules_of rules.now) }
{
    let mut labels = Labels::none();
    for rule in rules {
        if rule.place.is_empty() {
            labels.add(rule.form, rule.label);
        }
    }
    labels
}

/// Returns the labels that the rules give to the forms of the value of the member of this name.
pub(crate) fn here_below<'r>(rules: &[Declared<'r>], name: &str) -> Labels<'r>
    ensures { labels_of result ≡ here (below name.now (rules_of rules.now)) }
{
    let mut labels = Labels::none();
    for rule in rules {
        if is_only_member(rule.place, name) {
            labels.add(rule.form, rule.label);
        }
    }
    labels
}

// Returns whether the place is the value of the member of this name.
fn is_only_member(place: &[Step], name: &str) -> bool
    ensures { result ≡ is_only_member name.now (place_of place.now) }
{
    match after_member(place, name) {
        Some(rest) => rest.is_empty(),
        None => false,
    }
}

/// Returns the rules for the member of this name.
pub(crate) fn below<'r>(
    alloc: Global,
    rules: &[Declared<'r>],
    name: &str,
) -> Result<Vec<Declared<'r>>, AllocError>
    ensures { IfOk result (λ v. rules_of v.items ≡ below name.now (rules_of rules.now)) }
{
    let mut left = Vec::new(alloc);
    for rule in rules {
        add(&mut left, rule, after_member(rule.place, name))?;
    }
    Ok(left)
}

/// Returns the rules for this element of an array.
pub(crate) fn inside<'r>(
    alloc: Global,
    rules: &[Declared<'r>],
    element: &Tree,
) -> Result<Vec<Declared<'r>>, AllocError>
    ensures { IfOk result (λ v. rules_of v.items ≡ inside (view element.now) (rules_of rules.now)) }
{
    let mut left = Vec::new(alloc);
    for rule in rules {
        add(&mut left, rule, after_element(rule.place, element))?;
    }
    Ok(left)
}

// Appends the rule with this place, or nothing.
pub(crate) fn add<'r>(
    left: &mut Vec<Declared<'r>>,
    rule: &Declared<'r>,
    place: Option<&'r [Step]>,
) -> Result<(), AllocError>
    ensures { OnOk result (rules_of left.new.items
        ≡ rules_of left.old.items ++ with_place (declared_of rule.now)
        (option_map (λ p. place_of p.now) place.entry)) }
{
    if let Some(place) = place {
        left.push(Declared {
            place,
            form: rule.form,
            label: rule.label,
        })?;
    }
    Ok(())
}

// Returns the place after a step to the member of this name.
fn after_member<'r>(place: &'r [Step], name: &str) -> Option<&'r [Step]>
    ensures { option_map (λ p. place_of p.now) result
        ≡ after_if (is_to_member name.now (place_of place.now)) (place_of place.now) }
{
    match place.split_first() {
        Some((Step::Member(member), rest)) => {
            if member.as_str() == name {
                Some(rest)
            } else {
                None
            }
        }
        _ => None,
    }
}

// Returns the place after a step to this element.
fn after_element<'r>(place: &'r [Step], element: &Tree) -> Option<&'r [Step]>
    ensures { option_map (λ p. place_of p.now) result
        ≡ after_if (is_to_element (view element.now) (place_of place.now)) (place_of place.now) }
{
    match place {
        [Step::Each, rest @ ..] => Some(rest),
        [Step::Element(name), rest @ ..] => {
            if is_called(element, name.as_str()) {
                Some(rest)
            } else {
                None
            }
        }
        _ => None,
    }
}

// Returns whether the value is an object whose member `name` is this string.
fn is_called(tree: &Tree, name: &str) -> bool
    ensures { result ≡ is_called (Some name.now) (Some (view tree.now)) }
{
    match tree.child("name") {
        Some(Tree::Text(text)) => text.as_str() == name,
        _ => false,
    }
}
