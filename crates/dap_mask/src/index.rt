//! Finds the rules that may apply to a message, by its kind and its name.
ghost use Rattle.std.specs.Prelude.{◌≡◌, ◌<◌, length, option_map, IfOk, IfErr, OnOk};
ghost use Rattle.dap_mask.specs.Index.{asks_for, may_speak, positions, AreRight, AddsName};
ghost use Rattle.dap_mask.specs.{Index.{HasAsked, IsIndex, places_in}, Rules.{rule_of, rules_of}};

use crate::meets::{same_kind, text_of};
use crate::rule_list::RuleList;
use crate::rules::MaskRule;
use dap_message::Kind;
use std::alloc::{AllocError, Global};
use std::collections::BTreeMap;

/// The positions, in the list of all changes, of the rules that may apply to messages of one kind.
#[derive(Drop)]
pub(crate) struct KindRules {
    /// For each name in a rule, the positions of the rules that may apply to messages of that name.
    named: BTreeMap<String, Vec<usize>>,
    /// The positions of the rules that apply to every name.
    any: Vec<usize>,
}

impl KindRules {
    ghost use Rattle.dap_mask.specs.ListedRules.{listed_changes};

    /// Builds the index of the changes for messages of a kind. Without changes, does not fail.
    pub(crate) fn new(alloc: Global, list: &RuleList, kind: Kind) -> Result<KindRules, AllocError>
        ensures index { IfOk result (λ x. IsIndex kind (listed_changes list.now) x) }
        ensures memory { IfErr result (λ _. 0 < length (listed_changes list.now)) }
    {
        let rules = list.changes();
        let any = positions(alloc, rules, kind, None)?;
        let named = places_by_name(alloc, rules, kind)?;
        Ok(KindRules { named, any })
    }

    /// Returns the positions of the rules that may apply to messages of this name, in order. `None`
    /// is a name that no rule contains.
    pub(crate) fn places<'a>(&'a self, name: Option<&str>) -> &'a [usize]
        ensures { result.now ≡ places_in self.now (option_map (λ s. s.now) name.entry) }
    {
        match name {
            Some(name) => match self.named.get(name) {
                Some(places) => places.as_slice(),
                None => self.any.as_slice(),
            },
            None => self.any.as_slice(),
        }
    }
}

// Returns the positions for each name that occurs in a rule of the kind.
fn places_by_name(
    alloc: Global,
    rules: &[MaskRule],
    kind: Kind,
) -> Result<BTreeMap<String, Vec<usize>>, AllocError>
    ensures right { IfOk result (λ names. AreRight kind (rules_of rules.now) names) }
    ensures asked { IfOk result (λ names. HasAsked kind (rules_of rules.now) names) }
    ensures memory { IfErr result (λ _. 0 < length rules.now) }
{
    let mut names = BTreeMap::new(alloc);
    for rule in rules {
        add_name(alloc, rules, kind, rule, &mut names)?;
    }
    Ok(names)
}

// Adds the positions for the rule's name, if the rule is of the kind and has a name that is not a
// key yet.
fn add_name(
    alloc: Global,
    rules: &[MaskRule],
    kind: Kind,
    rule: &MaskRule,
    names: &mut BTreeMap<String, Vec<usize>>,
) -> Result<(), AllocError>
    ensures right { AreRight kind (rules_of rules.now) names.old
        → OnOk result (AreRight kind (rules_of rules.now) names.new) }
    ensures adds { OnOk result (AddsName kind (rule_of rule.now) names.old names.new) }
{
    if !same_kind(rule.kind, kind) {
        return Ok(());
    }
    let Some(name) = text_of(&rule.name) else {
        return Ok(());
    };
    if names.contains_key(name) {
        return Ok(());
    }
    let places = positions(alloc, rules, kind, Some(name))?;
    let key = String::from_str(alloc, name)?;
    drop(names.insert(key, places)?);
    Ok(())
}

// Returns the positions of the rules that may apply to messages of this kind and name. `None` is a
// name that no rule contains.
fn positions(
    alloc: Global,
    rules: &[MaskRule],
    kind: Kind,
    name: Option<&str>,
) -> Result<Vec<usize>, AllocError>
    ensures places { IfOk result (λ v. v.items
        ≡ positions kind (option_map (λ s. s.now) name.entry) (rules_of rules.now)) }
    ensures memory { IfErr result (λ _. 0 < length rules.now) }
{
    let mut places = Vec::new(alloc);
    for (i, rule) in rules.iter().enumerate() {
        if may_speak(rule, kind, name) {
            places.push(i)?;
        }
    }
    Ok(places)
}

/// Returns whether a rule may apply to messages of this kind and name.
pub(crate) fn may_speak(rule: &MaskRule, kind: Kind, name: Option<&str>) -> bool
    ensures { result ≡ may_speak kind (option_map (λ s. s.now) name.entry) (rule_of rule.now) }
{
    same_kind(rule.kind, kind) && asks_for(text_of(&rule.name), name)
}

/// Returns whether a rule with the first name applies to messages of the second name. `None` is any
/// name of a rule, and a name of a message that no rule contains.
pub(crate) fn asks_for(asked: Option<&str>, name: Option<&str>) -> bool
    ensures { result ≡ asks_for (option_map (λ s. s.now) asked.entry)
        (option_map (λ s. s.now) name.entry) }
{
    match (asked, name) {
        (None, _) => true,
        (Some(asked), Some(name)) => asked == name,
        (Some(_), None) => false,
    }
}
