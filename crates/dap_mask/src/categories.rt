//! Rules for the events of one category, and changes of the categories of events.
ghost use Rattle.std.specs.{Prelude.{◌≡◌, option_map}, List.list_any};
ghost use Rattle.dap_mask.specs.{Categories.{category_of, same_category, moves}, Rules.rule_of};
ghost use Rattle.dap_mask.specs.Categories.{moves_events, moves_output};
ghost use Rattle.dap_mask.specs.Rules.{place_of, holds_category, recategorises, disturb};
ghost use Rattle.dap_mask.specs.RuleSteps.{plain_place};

use crate::meets::{same_kind, same_name, share_name, text_of};
use crate::profile_ids::is_at;
use crate::rules::{MaskRule, Step};
use dap_message::Kind;
use dap_profile::Place;

/// A rule that drops the events of one name whose `body.category` is one text.
#[derive(Drop)]
pub struct CategoryRule {
    /// The name of the events; any, if `None`.
    pub name: Option<String>,
    /// The text at `body.category`.
    pub category: String,
}

fn same_category(rule: &CategoryRule, other: &CategoryRule) -> bool
    ensures { result ≡ same_category (category_of rule.now) (category_of other.now) }
{
    same_name(text_of(&rule.name), text_of(&other.name))
        && rule.category.as_str() == other.category.as_str()
}

pub(crate) fn is_category_among(rule: &CategoryRule, rules: &[CategoryRule]) -> bool
    ensures { result
        ≡ list_any (λ c. same_category (category_of rule.now) (category_of c)) rules.now }
{
    rules.iter().any(|other| same_category(rule, other))
}

// Returns whether the change may give events of this name another category.
fn moves_events(change: &MaskRule, name: Option<&str>) -> bool
    ensures { result ≡ moves_events (rule_of change.now) (option_map (λ s. s.now) name.entry) }
{
    is_at(&change.place, Place::Inner("body", "category"))
        && same_kind(change.kind, Kind::Event)
        && share_name(text_of(&change.name), name)
}

fn moves(change: &MaskRule, rule: &CategoryRule) -> bool
    ensures { result ≡ moves (rule_of change.now) (category_of rule.now) }
{
    moves_events(change, text_of(&rule.name))
}

/// Returns whether the change may give an event a category by which one of the rules drops it.
pub(crate) fn moves_one_of(change: &MaskRule, rules: &[CategoryRule]) -> bool
    ensures { result ≡ list_any (λ c. moves (rule_of change.now) (category_of c)) rules.now }
{
    rules.iter().any(|rule| moves(change, rule))
}

/// Returns whether one of the changes may give an event the category by which the rule drops it.
pub(crate) fn is_moved_by(changes: &[MaskRule], rule: &CategoryRule) -> bool
    ensures { result ≡ list_any (λ r. moves (rule_of r) (category_of rule.now)) changes.now }
{
    changes.iter().any(|change| moves(change, rule))
}

/// Returns whether the change may give an `output` event another category.
pub(crate) fn moves_output(change: &MaskRule) -> bool
    ensures { result ≡ moves_output (rule_of change.now) }
{
    moves_events(change, Some("output"))
}

/// Returns whether one of the changes may give an `output` event another category.
pub(crate) fn is_output_moved_by(changes: &[MaskRule]) -> bool
    ensures { result ≡ list_any (λ r. moves_output (rule_of r)) changes.now }
{
    changes.iter().any(|change| moves_output(change))
}

pub(crate) fn holds_category(place: &[Step]) -> bool
    ensures { result ≡ holds_category (plain_place (place_of place.now)) }
{
    is_at(place, Place::Member("body")) || is_at(place, Place::Inner("body", "category"))
}

/// Returns whether the first rule may change the category by which the second one applies.
pub(crate) fn recategorises(rule: &MaskRule, other: &MaskRule) -> bool
    ensures { result ≡ recategorises (rule_of rule.now) (rule_of other.now) }
{
    other.category.is_some()
        && holds_category(&rule.place)
        && same_kind(rule.kind, other.kind)
        && share_name(text_of(&rule.name), text_of(&other.name))
}

fn disturb(rule: &MaskRule, other: &MaskRule) -> bool
    ensures { result ≡ disturb (rule_of rule.now) (rule_of other.now) }
{
    recategorises(rule, other) || recategorises(other, rule)
}

/// Returns whether the rule may change the category by which one of the others applies, or one of
/// them the category by which the rule applies.
pub(crate) fn disturbs_one_of(rule: &MaskRule, rules: &[MaskRule]) -> bool
    ensures { result ≡ list_any (λ r. disturb (rule_of rule.now) (rule_of r)) rules.now }
{
    rules.iter().any(|other| disturb(rule, other))
}
