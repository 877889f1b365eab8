//! The order in which the changes of a mask apply, whatever the order of their lines.
ghost use Rattle.std.specs.Prelude.{◌≡◌, ◌≤◌, length, insert, position};
ghost use Rattle.dap_mask.specs.Rules.{rule_of, rules_of, group, depth, rank, lower, comes_before};
ghost use Rattle.dap_mask.specs.Rules.{inserted};

use crate::element_names::is_for_names;
use crate::rules::{MaskRule, Verb};

// Returns the group of the rule. The rules for the names of elements are the first group.
fn group(rule: &MaskRule) -> usize
    ensures { result ≡ group (rule_of rule.now) }
{
    if is_for_names(&rule.place) { 0 } else { 1 }
}

// Returns the length of the place of a rule for names, and 0 for another rule.
fn depth(rule: &MaskRule) -> usize
    ensures { result ≡ depth (rule_of rule.now) }
{
    if is_for_names(&rule.place) {
        rule.place.len()
    } else {
        0
    }
}

// Returns the place of the action in the order of actions.
fn rank(verb: Verb) -> usize
    ensures { result ≡ rank verb }
{
    match verb {
        Verb::Uuid => 0,
        Verb::Long => 1,
        Verb::Digits => 2,
        Verb::Hex => 3,
        Verb::Blank => 4,
    }
}

// Returns whether the first number is lower, or the numbers are equal and the rest decides.
fn lower(number: usize, other: usize, rest: bool) -> bool
    ensures { result ≡ lower number other rest }
{
    number < other || (number == other && rest)
}

fn comes_before(rule: &MaskRule, other: &MaskRule) -> bool
    ensures { result ≡ comes_before (rule_of rule.now) (rule_of other.now) }
{
    let by_action = lower(rank(rule.verb), rank(other.verb), false);
    let by_depth = lower(depth(rule), depth(other), by_action);
    lower(group(rule), group(other), by_depth)
}

fn first_after(rules: &[MaskRule], rule: &MaskRule) -> Option<usize>
    ensures { result ≡ position (λ r. comes_before (rule_of rule.now) (rule_of r)) rules.now }
{
    rules.iter().position(|other| comes_before(rule, other))
}

/// Returns the place at which the rule is inserted: before the first rule that applies after it.
pub(crate) fn place_in(rules: &[MaskRule], rule: &MaskRule) -> usize
    ensures within { result ≤ length rules.now }
    ensures place { insert (rules_of rules.now) result (rule_of rule.now)
        ≡ inserted (rule_of rule.now) (rules_of rules.now) }
{
    match first_after(rules, rule) {
        Some(place) => place,
        None => rules.len(),
    }
}
