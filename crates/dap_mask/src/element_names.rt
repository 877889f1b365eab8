//! Finds rules for the names of elements, by which rules select elements.
ghost use Rattle.std.specs.Prelude.{◌≡◌};
ghost use Rattle.dap_mask.specs.Rules.{rule_of, step_of, place_of, leads_to_name, is_for_names};
ghost use Rattle.dap_mask.specs.Rules.{has_text, is_name_in, renames};

use crate::meets::{same_kind, share_name, share_step, text_of};
use crate::rules::{MaskRule, Step};

// Returns whether the steps lead from an element of an array to its member `name`.
fn leads_to_name(step: &Step, behind: &[Step]) -> bool
    ensures { result ≡ leads_to_name (step_of step.now) (place_of behind.now) }
{
    match (step, behind) {
        (Step::Each | Step::Element(_), [Step::Member(name)]) => name.as_str() == "name",
        _ => false,
    }
}

/// Returns whether the place is that of the `name` of elements of an array.
pub(crate) fn is_for_names(place: &[Step]) -> bool
    ensures { result ≡ is_for_names (place_of place.now) }
{
    let mut rest = place;
    loop {
        match rest {
            [first, behind @ ..] => {
                if leads_to_name(first, behind) {
                    return true;
                }
                rest = behind;
            }
            [] => return false,
        }
    }
}

// Returns whether the step selects elements by a text.
fn has_text(step: &Step) -> bool
    ensures { result ≡ has_text (step_of step.now) }
{
    matches!(step, Step::Element(_))
}

// Returns whether the place is that of the `name` of an element that the other place selects, or of
// another element of the same array.
fn is_name_in(place: &[Step], other: &[Step]) -> bool
    ensures { result ≡ is_name_in (place_of place.now) (place_of other.now) }
{
    let mut rest = place;
    for step in other {
        match rest {
            [first, behind @ ..] => {
                if has_text(step) && leads_to_name(first, behind) {
                    return true;
                }
                if !share_step(first, step) {
                    return false;
                }
                rest = behind;
            }
            [] => return false,
        }
    }
    false
}

/// Returns whether the first rule may change the name by which the other one selects an element.
pub(crate) fn renames(rule: &MaskRule, other: &MaskRule) -> bool
    ensures { result ≡ renames (rule_of rule.now) (rule_of other.now) }
{
    is_name_in(&rule.place, &other.place)
        && same_kind(rule.kind, other.kind)
        && share_name(text_of(&rule.name), text_of(&other.name))
}
