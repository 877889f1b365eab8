//! Rules that set members that are absent or null, and the rules that they exclude.
ghost use Rattle.std.specs.{Prelude.{◌≡◌}, List.list_any};
ghost use Rattle.dap_mask.specs.Fills.{fill_of, is_bad_end, is_fill_misplaced, same_fill_place};
ghost use Rattle.dap_mask.specs.Fills.{same_fill, fills_clash, is_start, removes};
ghost use Rattle.dap_mask.specs.RuleSteps.{is_unnamed, plain_step, plain_place};
ghost use Rattle.dap_mask.specs.Rules.{rule_of, step_of, place_of, same_step, takes_parts};

use crate::meets::{
    is_telling, same_kind, same_name, same_rule_place, same_rule_step, share_name, text_of,
};
use crate::rules::{MaskRule, Step, Verb};
use dap_message::Kind;

/// The value that a rule sets if a member is absent or null.
#[derive(Drop)]
pub enum Scalar {
    Flag(bool),
    /// An integer from -2^63 to 2^64 - 1, if it was read from a line.
    Number(i128),
    Text(String),
}

/// A rule that sets a member of objects.
#[derive(Drop)]
pub struct FillRule {
    /// The kind of the messages to which the rule applies.
    pub kind: Kind,
    /// The command or event of these messages; any, if `None`.
    pub name: Option<String>,
    /// The place of the objects in such a message.
    pub parent: Vec<Step>,
    /// The last step of the place, to the member.
    pub last: Step,
    pub value: Scalar,
}

fn is_unnamed(place: &[Step]) -> bool
    ensures { result ≡ is_unnamed (place_of place.now) }
{
    for step in place {
        if let Step::Element(_) = step {
            return false;
        }
    }
    true
}

fn is_bad_end(parent: &[Step], last: &Step) -> bool
    ensures { result ≡ is_bad_end (place_of parent.now) (step_of last.now) }
{
    match last {
        Step::Member(name) => parent.is_empty() && is_telling(name.as_str()),
        _ => true,
    }
}

/// Returns whether no mask may contain the rule, because of its place.
pub(crate) fn is_fill_misplaced(rule: &FillRule) -> bool
    ensures { result ≡ is_fill_misplaced (fill_of rule.now) }
{
    if is_unnamed(&rule.parent) {
        is_bad_end(&rule.parent, &rule.last)
    } else {
        true
    }
}

fn same_fill_place(rule: &FillRule, other: &FillRule) -> bool
    ensures { result ≡ same_fill_place (fill_of rule.now) (fill_of other.now) }
{
    same_rule_place(&rule.parent, &other.parent) && same_rule_step(&rule.last, &other.last)
}

fn same_fill(rule: &FillRule, other: &FillRule) -> bool
    ensures { result ≡ same_fill (fill_of rule.now) (fill_of other.now) }
{
    same_kind(rule.kind, other.kind)
        && same_name(text_of(&rule.name), text_of(&other.name))
        && same_fill_place(rule, other)
}

pub(crate) fn is_fill_among(rule: &FillRule, rules: &[FillRule]) -> bool
    ensures { result ≡ list_any (λ f. same_fill (fill_of rule.now) (fill_of f)) rules.now }
{
    rules.iter().any(|other| same_fill(rule, other))
}

fn fills_clash(rule: &FillRule, other: &FillRule) -> bool
    ensures { result ≡ fills_clash (fill_of rule.now) (fill_of other.now) }
{
    same_kind(rule.kind, other.kind)
        && share_name(text_of(&rule.name), text_of(&other.name))
        && same_fill_place(rule, other)
}

/// Returns whether one of the others may set the same member of a message.
pub(crate) fn clashes_with_fills(rule: &FillRule, rules: &[FillRule]) -> bool
    ensures { result ≡ list_any (λ f. fills_clash (fill_of rule.now) (fill_of f)) rules.now }
{
    rules.iter().any(|other| fills_clash(rule, other))
}

// Returns whether a value may be at both steps, whatever the names of elements.
fn same_step(step: &Step, other: &Step) -> bool
    ensures { result ≡ same_step (plain_step (step_of step.now)) (plain_step (step_of other.now)) }
{
    match (step, other) {
        (Step::Member(name), Step::Member(other)) => name.as_str() == other.as_str(),
        (Step::Member(_), _) | (_, Step::Member(_)) => false,
        _ => true,
    }
}

// Returns whether the first place is a prefix of the second one.
fn is_start(place: &[Step], other: &[Step]) -> bool
    ensures { result
        ≡ is_start (plain_place (place_of place.now)) (plain_place (place_of other.now)) }
{
    let mut rest = other;
    for step in place {
        match rest {
            [first, behind @ ..] => {
                if !same_step(step, first) {
                    return false;
                }
                rest = behind;
            }
            [] => return false,
        }
    }
    true
}

fn takes_parts(verb: Verb) -> bool
    ensures { result ≡ takes_parts verb }
{
    matches!(verb, Verb::Blank)
}

fn removes(change: &MaskRule, rule: &FillRule) -> bool
    ensures { result ≡ removes (rule_of change.now) (fill_of rule.now) }
{
    takes_parts(change.verb)
        && is_start(&change.place, &rule.parent)
        && same_kind(change.kind, rule.kind)
        && share_name(text_of(&change.name), text_of(&rule.name))
}

/// Returns whether the change may remove a member that one of the rules sets.
pub(crate) fn removes_one_of(change: &MaskRule, rules: &[FillRule]) -> bool
    ensures { result ≡ list_any (λ f. removes (rule_of change.now) (fill_of f)) rules.now }
{
    rules.iter().any(|rule| removes(change, rule))
}

/// Returns whether one of the changes may remove a member that the rule sets.
pub(crate) fn is_removed_by(changes: &[MaskRule], rule: &FillRule) -> bool
    ensures { result ≡ list_any (λ r. removes (rule_of r) (fill_of rule.now)) changes.now }
{
    changes.iter().any(|change| removes(change, rule))
}
