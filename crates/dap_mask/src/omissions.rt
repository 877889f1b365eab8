//! Rules that omit elements of arrays.
ghost use Rattle.std.specs.{Prelude.{◌≡◌}, List.list_any};
ghost use Rattle.dap_mask.specs.Omissions.{omission_of, same_omission, is_by_name};
ghost use Rattle.dap_mask.specs.Rules.{step_of};

use crate::meets::{same_kind, same_name, same_rule_place, same_rule_step, text_of};
use crate::rules::Step;
use dap_message::Kind;

/// A rule that omits the elements of arrays that have a name.
#[derive(Drop)]
pub struct Omission {
    /// The kind of the messages to which the rule applies.
    pub kind: Kind,
    /// The command or event of these messages; any, if `None`.
    pub name: Option<String>,
    /// The place of the arrays in such a message.
    pub parent: Vec<Step>,
    /// The last step of the place, to the elements with a name.
    pub last: Step,
}

/// Returns whether the step selects elements by their name.
pub(crate) fn is_by_name(last: &Step) -> bool
    ensures { result ≡ is_by_name (step_of last.now) }
{
    matches!(last, Step::Element(_))
}

fn same_omission(rule: &Omission, other: &Omission) -> bool
    ensures { result ≡ same_omission (omission_of rule.now) (omission_of other.now) }
{
    same_kind(rule.kind, other.kind)
        && same_name(text_of(&rule.name), text_of(&other.name))
        && same_rule_place(&rule.parent, &other.parent)
        && same_rule_step(&rule.last, &other.last)
}

/// Returns whether one of the others omits the same elements.
pub(crate) fn is_omission_among(rule: &Omission, rules: &[Omission]) -> bool
    ensures { result
        ≡ list_any (λ o. same_omission (omission_of rule.now) (omission_of o)) rules.now }
{
    rules.iter().any(|other| same_omission(rule, other))
}
