//! Rules that declare ids, and the rules that they exclude.
ghost use Rattle.std.specs.{Prelude.{◌≡◌}, List.list_any};
ghost use Rattle.dap_mask.specs.Declarations.{declaration_of, is_sort_word, is_own_label};
ghost use Rattle.dap_mask.specs.Declarations.{is_of_category, is_misdeclared, same_declaration};
ghost use Rattle.dap_mask.specs.Declarations.{takes_numbers, blurs, takes_whole, are_opposed};
ghost use Rattle.dap_mask.specs.Declarations.{disagrees};
ghost use Rattle.dap_mask.specs.Rules.{rule_of};

use crate::categories::holds_category;
use crate::element_names::is_for_names;
use crate::meets::{excludes, is_telling_place, same_rule, same_verb, shares_values};
use crate::profile_ids::takes_profile_id;
use crate::rules::{MaskRule, Verb};
use dap_tokens::is_label;
use dap_tree::SORTS;

/// A rule that declares ids: its action finds them, and a name replaces each of them, so that only
/// their identity is kept.
#[derive(Drop)]
pub struct Declaration {
    pub rule: MaskRule,
    /// The ids of one label share one numbering.
    pub label: String,
}

fn is_sort_word(label: &str) -> bool
    ensures { result ≡ is_sort_word label.now }
{
    SORTS.iter().any(|sort| sort.word() == label)
}

/// Returns whether a text can label declared ids.
pub(crate) fn is_own_label(label: &str) -> bool
    ensures { result ≡ is_own_label label.now }
{
    is_label(label) && !is_sort_word(label)
}

fn is_of_category(rule: &MaskRule) -> bool
    ensures { result ≡ is_of_category (rule_of rule.now) }
{
    holds_category(&rule.place)
}

/// Returns whether no mask may contain the declaration, because of its place.
pub(crate) fn is_misdeclared(rule: &MaskRule) -> bool
    ensures { result ≡ is_misdeclared (rule_of rule.now) }
{
    is_telling_place(&rule.place)
        || is_for_names(&rule.place)
        || is_of_category(rule)
        || takes_profile_id(rule)
}

fn same_declaration(rule: &Declaration, other: &Declaration) -> bool
    ensures { result ≡ same_declaration (declaration_of rule.now) (declaration_of other.now) }
{
    same_rule(&rule.rule, &other.rule) && rule.label.as_str() == other.label.as_str()
}

pub(crate) fn is_declared_among(rule: &Declaration, rules: &[Declaration]) -> bool
    ensures { result ≡ list_any
        (λ x. same_declaration (declaration_of rule.now) (declaration_of x)) rules.now }
{
    rules.iter().any(|other| same_declaration(rule, other))
}

fn takes_whole(verb: Verb) -> bool
    ensures { result ≡ takes_whole verb }
{
    matches!(verb, Verb::Blank)
}

// Returns whether the two cannot declare the ids of one value.
fn are_opposed(rule: &Declaration, other: &Declaration) -> bool
    ensures { result ≡ are_opposed (declaration_of rule.now) (declaration_of other.now) }
{
    let (verb, other_verb) = (rule.rule.verb, other.rule.verb);
    if same_verb(verb, other_verb) {
        rule.label.as_str() != other.label.as_str()
    } else {
        takes_whole(verb) || takes_whole(other_verb) || excludes(verb, other_verb)
    }
}

fn disagrees(rule: &Declaration, other: &Declaration) -> bool
    ensures { result ≡ disagrees (declaration_of rule.now) (declaration_of other.now) }
{
    shares_values(&rule.rule, &other.rule) && are_opposed(rule, other)
}

/// Returns whether the declaration and one of the others may be for one value whose ids they cannot
/// both declare.
pub(crate) fn disagrees_with(rule: &Declaration, rules: &[Declaration]) -> bool
    ensures { result ≡ list_any
        (λ x. disagrees (declaration_of rule.now) (declaration_of x)) rules.now }
{
    rules.iter().any(|other| disagrees(rule, other))
}

fn takes_numbers(verb: Verb) -> bool
    ensures { result ≡ takes_numbers verb }
{
    matches!(verb, Verb::Digits | Verb::Long)
}

fn blurs(change: &MaskRule, rule: &Declaration) -> bool
    ensures { result ≡ blurs (rule_of change.now) (declaration_of rule.now) }
{
    takes_numbers(change.verb) && shares_values(change, &rule.rule)
}

/// Returns whether the change may change the number in a name of one of the declarations.
pub(crate) fn blurs_one_of(change: &MaskRule, rules: &[Declaration]) -> bool
    ensures { result ≡ list_any (λ x. blurs (rule_of change.now) (declaration_of x)) rules.now }
{
    rules.iter().any(|rule| blurs(change, rule))
}

/// Returns whether one of the changes may change the number in a name of the declaration.
pub(crate) fn is_blurred_by(changes: &[MaskRule], rule: &Declaration) -> bool
    ensures { result ≡ list_any (λ r. blurs (rule_of r) (declaration_of rule.now)) changes.now }
{
    changes.iter().any(|change| blurs(change, rule))
}
