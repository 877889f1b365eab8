//! Compares rules: by messages, by places, and by actions that exclude each other.
ghost use Rattle.std.specs.{Prelude.{◌≡◌, option_map, string_bytes}, List.list_any};
ghost use Rattle.dap_mask.specs.Rules.{rule_of, step_of, place_of, same_rule_step};
ghost use Rattle.dap_mask.specs.Rules.{same_rule_place, share_step, share_place, same_kind};
ghost use Rattle.dap_mask.specs.Rules.{share_name, same_name, same_verb, same_rule, excludes};
ghost use Rattle.dap_mask.specs.Rules.{shares_values, clash, is_naming, is_telling};
ghost use Rattle.dap_mask.specs.Rules.{is_telling_place};

use crate::rules::{MaskRule, Step, Verb};
use dap_message::Kind;

pub(crate) fn same_kind(kind: Kind, other: Kind) -> bool
    ensures { result ≡ same_kind kind other }
{
    kind == other
}

/// Returns a name as a borrowed string. `None` is any name.
pub(crate) fn text_of(name: &Option<String>) -> Option<&str>
    ensures { option_map (λ s. s.now) result ≡ option_map string_bytes name.now }
{
    match name {
        Some(name) => Some(name.as_str()),
        None => None,
    }
}

/// Returns whether a message may have both names.
pub(crate) fn share_name(name: Option<&str>, other: Option<&str>) -> bool
    ensures { result
        ≡ share_name (option_map (λ s. s.now) name.entry) (option_map (λ s. s.now) other.entry) }
{
    match (name, other) {
        (Some(name), Some(other)) => name == other,
        _ => true,
    }
}

pub(crate) fn same_name(name: Option<&str>, other: Option<&str>) -> bool
    ensures { result
        ≡ same_name (option_map (λ s. s.now) name.entry) (option_map (λ s. s.now) other.entry) }
{
    match (name, other) {
        (Some(name), Some(other)) => name == other,
        (None, None) => true,
        _ => false,
    }
}

pub(crate) fn same_verb(verb: Verb, other: Verb) -> bool
    ensures { result ≡ same_verb verb other }
{
    verb == other
}

pub(crate) fn same_rule_step(step: &Step, other: &Step) -> bool
    ensures { result ≡ same_rule_step (step_of step.now) (step_of other.now) }
{
    match (step, other) {
        (Step::Member(name), Step::Member(other)) => name.as_str() == other.as_str(),
        (Step::Each, Step::Each) => true,
        (Step::Element(name), Step::Element(other)) => name.as_str() == other.as_str(),
        _ => false,
    }
}

pub(crate) fn same_rule_place(place: &[Step], other: &[Step]) -> bool
    ensures { result ≡ same_rule_place (place_of place.now) (place_of other.now) }
{
    let mut rest = other;
    for step in place {
        match rest {
            [first, behind @ ..] => {
                if !same_rule_step(step, first) {
                    return false;
                }
                rest = behind;
            }
            [] => return false,
        }
    }
    rest.is_empty()
}

/// Returns whether some value may be at both steps of one value. An element has only one name.
pub(crate) fn share_step(step: &Step, other: &Step) -> bool
    ensures { result ≡ share_step (step_of step.now) (step_of other.now) }
{
    match (step, other) {
        (Step::Member(name), Step::Member(other)) => name.as_str() == other.as_str(),
        (Step::Element(name), Step::Element(other)) => name.as_str() == other.as_str(),
        (Step::Each, Step::Each | Step::Element(_)) | (Step::Element(_), Step::Each) => true,
        _ => false,
    }
}

/// Returns whether some value may be at both places.
fn share_place(place: &[Step], other: &[Step]) -> bool
    ensures { result ≡ share_place (place_of place.now) (place_of other.now) }
{
    let mut rest = other;
    for step in place {
        match rest {
            [first, behind @ ..] => {
                if !share_step(step, first) {
                    return false;
                }
                rest = behind;
            }
            [] => return false,
        }
    }
    rest.is_empty()
}

pub(crate) fn same_rule(rule: &MaskRule, other: &MaskRule) -> bool
    ensures { result ≡ same_rule (rule_of rule.now) (rule_of other.now) }
{
    same_verb(rule.verb, other.verb)
        && same_kind(rule.kind, other.kind)
        && same_name(text_of(&rule.name), text_of(&other.name))
        && same_name(text_of(&rule.category), text_of(&other.category))
        && same_rule_place(&rule.place, &other.place)
}

pub(crate) fn is_among(rule: &MaskRule, rules: &[MaskRule]) -> bool
    ensures { result ≡ list_any (λ r. same_rule (rule_of rule.now) (rule_of r)) rules.now }
{
    rules.iter().any(|other| same_rule(rule, other))
}

// Returns whether the two actions exclude each other at one place.
pub(crate) fn excludes(verb: Verb, other: Verb) -> bool
    ensures { result ≡ excludes verb other }
{
    matches!(
        (verb, other),
        (Verb::Uuid, Verb::Digits) | (Verb::Digits, Verb::Uuid)
    )
}

/// Returns whether some value of some message may be at the places of both rules.
pub(crate) fn shares_values(rule: &MaskRule, other: &MaskRule) -> bool
    ensures { result ≡ shares_values (rule_of rule.now) (rule_of other.now) }
{
    share_place(&rule.place, &other.place)
        && same_kind(rule.kind, other.kind)
        && share_name(text_of(&rule.name), text_of(&other.name))
        && share_name(text_of(&rule.category), text_of(&other.category))
}

fn clash(rule: &MaskRule, other: &MaskRule) -> bool
    ensures { result ≡ clash (rule_of rule.now) (rule_of other.now) }
{
    excludes(rule.verb, other.verb) && shares_values(rule, other)
}

/// Returns whether one of the others excludes the rule.
pub(crate) fn clashes_with(rule: &MaskRule, rules: &[MaskRule]) -> bool
    ensures { result ≡ list_any (λ r. clash (rule_of rule.now) (rule_of r)) rules.now }
{
    rules.iter().any(|other| clash(rule, other))
}

fn is_naming(name: &str) -> bool
    ensures { result ≡ is_naming name.now }
{
    name == "command" || name == "event"
}

pub(crate) fn is_telling(name: &str) -> bool
    ensures { result ≡ is_telling name.now }
{
    name == "type" || is_naming(name) || name == "success"
}

/// Returns whether the place is the message itself, or its `type`, `command`, `event` or `success`.
pub(crate) fn is_telling_place(place: &[Step]) -> bool
    ensures { result ≡ is_telling_place (place_of place.now) }
{
    match place {
        [] => true,
        [Step::Member(name)] => is_telling(name.as_str()),
        _ => false,
    }
}
