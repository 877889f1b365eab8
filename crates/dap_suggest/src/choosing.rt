//! Chooses the cheapest rules for one place.
ghost use Rattle.std.specs.Prelude.{◌≡◌, ℕ, List};
ghost use Rattle.std.specs.List.{list_any};
ghost use Rattle.dap_suggest.specs.Hidden.{AreRepresented, capped, changes, hidden_values, hides};

use crate::candidates::{Actions, BLANK, CANDIDATES, Candidates, DIGITS, UUID, only, strength_of};
use crate::spot::{ALL, Rule, Spot};
use std::alloc::{AllocError, Global};

/// How many rules a place has at most: for each candidate one for all elements, and one for each
/// name.
pub const MAX_RULES: usize = 170;

/// The price of a rule. These numbers are compared in their order:
///
/// - 1 if the rule hides what a test looks at, otherwise 0;
/// - how many equal values it hides that no other rule of the place hides;
/// - how much of a text it can hide;
/// - 1 if its candidate prefers the other scope, otherwise 0;
/// - the highest number minus the number of pairs that it makes equal.
type Price = [u64; 5];

/// Returns what rules, except for the one of an index, do to the values of a tally: their actions,
/// and their candidates.
fn effect(rules: &[Rule], left_out: Option<usize>, tally: usize) -> (Actions, Candidates)
    ensures { left_out ≡ None
        → (value : ℕ) → changes result.0 value ≡ list_any (hides tally value) rules.now }
{
    let mut actions = 0;
    let mut candidates = 0;
    for (index, rule) in rules.iter().enumerate() {
        if rule.applies(tally) && left_out != Some(index) {
            actions |= rule.actions;
            candidates |= only(rule.actions);
        }
    }
    (actions, candidates)
}

/// Returns whether the rules of the place, except for the one of an index, make all pairs of values
/// equal.
fn are_enough(spot: &Spot, left_out: Option<usize>) -> bool {
    let rules = spot.rules.as_slice();
    for (place, tally) in spot.tallies.iter().enumerate() {
        let (_, candidates) = effect(rules, left_out, place);
        if !tally.is_equated(candidates) {
            return false;
        }
    }
    true
}

/// Returns how many equal values a rule hides that the rules before it do not hide.
pub fn hidden_by(spot: &Spot, before: &[Rule], rule: &Rule) -> u64
    ensures { (values : List (List ℕ)) → AreRepresented spot.now.tallies.items values
        → result ≡ capped (hidden_values before.now rule.now values) }
{
    let mut hidden = 0u64;
    for (place, tally) in spot.tallies.iter().enumerate() {
        if rule.applies(place) {
            let (actions, _) = effect(before, None, place);
            hidden = hidden.saturating_add(tally.hidden(rule.actions, actions));
        }
    }
    hidden
}

/// Returns how many pairs a rule makes equal that the rules of the place do not make equal, or
/// `None` if a file refuses it beside these.
fn equated_by(spot: &Spot, rule: &Rule) -> Option<u64> {
    let mut equated = 0u64;
    for (place, tally) in spot.tallies.iter().enumerate() {
        if rule.applies(place) {
            let (actions, candidates) = effect(spot.rules.as_slice(), None, place);
            // A file refuses `uuid` and `digits` at one place.
            if (rule.actions | actions) & (UUID | DIGITS) == UUID | DIGITS {
                return None;
            }
            equated = equated.saturating_add(tally.equated(only(rule.actions), candidates));
        }
    }
    Some(equated)
}

/// Returns whether a rule hides what a test looks at.
fn is_guarded(spot: &Spot, rule: &Rule) -> bool {
    spot.hidden.is_some() && rule.actions & BLANK != 0
}

/// Returns the price of a further rule, or `None` if it makes no further pair equal, or a file
/// cannot have it.
fn price_of(spot: &Spot, rule: &Rule) -> Option<Price> {
    if spot.is_excluded(rule) {
        return None;
    }
    let equated = equated_by(spot, rule)?;
    if equated == 0 {
        return None;
    }
    let prefers_names = rule.actions & (DIGITS + BLANK) != 0;
    Some([
        u64::from(is_guarded(spot, rule)),
        hidden_by(spot, spot.rules.as_slice(), rule),
        strength_of(rule.actions),
        u64::from(prefers_names == (rule.scope == ALL)),
        u64::MAX - equated,
    ])
}

/// Returns the cheapest rule that makes a further pair equal. The first one of several is taken.
fn cheapest(spot: &Spot, scopes: &[usize]) -> Option<Rule> {
    let mut best: Option<(Price, Rule)> = None;
    for actions in CANDIDATES.iter() {
        for scope in scopes {
            let rule = Rule {
                actions: *actions,
                scope: *scope,
            };
            if let Some(price) = price_of(spot, &rule)
                && best.is_none_or(|(lowest, _)| price < lowest)
            {
                best = Some((price, rule));
            }
        }
    }
    best.map(|(_, rule)| rule)
}

/// Removes each rule without which all pairs are still equal, the strongest first.
fn remove_needless(spot: &mut Spot) {
    for actions in CANDIDATES.iter().rev() {
        for index in (0..spot.rules.len()).rev() {
            let rule = spot.rules.get(index);
            if rule.is_some_and(|rule| rule.actions == *actions)
                && are_enough(spot, Some(index))
                && index < spot.rules.len()
            {
                let _ = spot.rules.remove(index);
            }
        }
    }
}

/// Chooses the rules of a place. If rules are joined, all of them are for all elements. If they are
/// strict, none hides what a test looks at. Returns whether they make all pairs of values equal.
pub fn choose(
    alloc: Global,
    spot: &mut Spot,
    are_joined: bool,
    are_strict: bool,
) -> Result<bool, AllocError> {
    let scopes = spot.scopes(alloc, are_joined)?;
    spot.rules.clear();
    for _ in 0..MAX_RULES {
        if are_enough(spot, None) {
            break;
        }
        match cheapest(spot, scopes.as_slice()) {
            Some(rule) if !are_strict || !is_guarded(spot, &rule) => spot.rules.push(rule)?,
            _ => return Ok(false),
        }
    }
    remove_needless(spot);
    Ok(true)
}
