//! Finds rules whose place is that of an id in the profile.
ghost use Rattle.std.specs.{Prelude.{◌≡◌}, List.list_any};
ghost use Rattle.dap_profile.specs.{ProfileRows.row_of, PlaceSteps.steps_of};
ghost use Rattle.dap_mask.specs.RuleSteps.{plain_step, plain_place};
ghost use Rattle.dap_mask.specs.Rules.{rule_of, step_of, place_of, same_step, same_place};
ghost use Rattle.dap_mask.specs.Ids.{meets, takes_id, takes_profile_id};
ghost use Rattle.dap_mask.specs.RowSteps.{row_step_of, row_place_of};

use crate::meets::{same_kind, share_name, text_of};
use crate::rules::{MaskRule, Step};
use dap_profile::{Place, Row, profile_rows};

/// One step of the place of a row.
#[derive(Clone, Copy, Drop)]
enum RowStep {
    Member(&'static str),
    Each,
}

/// Returns whether some row of the profile has an id at the rule's place, and the rule and the row
/// may apply to the same message.
pub(crate) fn takes_profile_id(rule: &MaskRule) -> bool
    ensures { result ≡ takes_profile_id (rule_of rule.now) }
{
    takes_id_of(rule, profile_rows())
}

fn takes_id_of(rule: &MaskRule, rows: &[Row]) -> bool
    ensures { result ≡ list_any (λ r. takes_id (rule_of rule.now) (row_of r)) rows.now }
{
    rows.iter().any(|row| takes_id(rule, row))
}

fn takes_id(rule: &MaskRule, row: &Row) -> bool
    ensures { result ≡ takes_id (rule_of rule.now) (row_of row.now) }
{
    row.want.is_id() && is_at(&rule.place, row.place) && meets(rule, row)
}

fn meets(rule: &MaskRule, row: &Row) -> bool
    ensures { result ≡ meets (rule_of rule.now) row.now.kind (row_of row.now).name }
{
    match row.kind {
        None => true,
        Some(kind) => same_kind(rule.kind, kind) && share_name(text_of(&rule.name), row.name),
    }
}

/// Returns whether the place is that of a row, whatever elements it selects by their names.
pub(crate) fn is_at(place: &[Step], row_place: Place) -> bool
    ensures { result ≡ same_place (plain_place (place_of place.now)) (steps_of row_place) }
{
    match row_place {
        Place::Member(a) => is_same(place, &[RowStep::Member(a)]),
        Place::Inner(a, b) => is_same(place, &[RowStep::Member(a), RowStep::Member(b)]),
        Place::Element(a, b) => {
            is_same(
                place,
                &[RowStep::Member(a), RowStep::Member(b), RowStep::Each],
            )
        }
        Place::Part(a, b, c) => {
            is_same(
                place,
                &[
                    RowStep::Member(a),
                    RowStep::Member(b),
                    RowStep::Each,
                    RowStep::Member(c),
                ],
            )
        }
        Place::Deep(a, b, c) => {
            is_same(
                place,
                &[RowStep::Member(a), RowStep::Member(b), RowStep::Member(c)],
            )
        }
    }
}

fn is_same(place: &[Step], row_place: &[RowStep]) -> bool
    ensures { result
        ≡ same_place (plain_place (place_of place.now)) (row_place_of row_place.now) }
{
    let mut rest = row_place;
    for step in place {
        match rest {
            [first, behind @ ..] => {
                if !is_step(step, *first) {
                    return false;
                }
                rest = behind;
            }
            [] => return false,
        }
    }
    rest.is_empty()
}

fn is_step(step: &Step, row_step: RowStep) -> bool
    ensures { result ≡ same_step (plain_step (step_of step.now)) (row_step_of row_step) }
{
    match (step, row_step) {
        (Step::Member(name), RowStep::Member(other)) => name.as_str() == other,
        (Step::Each | Step::Element(_), RowStep::Each) => true,
        _ => false,
    }
}
