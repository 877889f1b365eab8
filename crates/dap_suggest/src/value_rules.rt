//! The text of the rules for values, and those that a file can have.
use crate::candidates::{ACTIONS, Actions, BLANK};
use crate::choosing::{MAX_RULES, choose, hidden_by};
use crate::comments::{push_check, push_hidden};
use crate::joined_rules::are_refused;
use crate::spot::{ALL, Rule, Spot, actions_in};
use crate::spots::Spots;
use crate::words::{json_of_text, parts_of, push_parts};
use std::alloc::{AllocError, Global};
use std::collections::BTreeSet;

/// Appends the line of each action.
fn push_lines(actions: Actions, target: &[u8], out: &mut Vec<u8>) -> Result<(), AllocError> {
    for (action, _, word, _) in ACTIONS.iter() {
        if actions & *action != 0 {
            push_parts(&[word.as_bytes(), target, b"\n"], out)?;
        }
    }
    Ok(out.push(b'\n')?)
}

/// Appends the comments of a rule that follows others of its spot.
fn push_comments(
    alloc: Global,
    spot: &Spot,
    rule: &Rule,
    before: &[Rule],
    out: &mut Vec<u8>,
) -> Result<(), AllocError> {
    if let Some(comment) = spot.comment_of(rule) {
        out.extend_from_slice(comment)?;
    }
    push_hidden(alloc, hidden_by(spot, before, rule), out)?;
    match spot.hidden {
        Some(hidden) if rule.actions & BLANK != 0 => push_check(hidden, out),
        _ => Ok(()),
    }
}

/// Appends the rule of an index of a spot, except for the actions that its scope already has.
fn push_rule(
    alloc: Global,
    target: &[u8],
    spot: &Spot,
    index: usize,
    out: &mut Vec<u8>,
) -> Result<(), AllocError> {
    let before = spot.rules.get(..index).unwrap_or(&[]);
    if let Some(rule) = spot.rules.get(index) {
        let actions = rule.actions & !actions_in(before, rule.scope);
        if actions != 0 {
            let target = target_in(alloc, target, spot, rule.scope)?;
            push_comments(alloc, spot, rule, before, out)?;
            push_lines(actions, target.as_slice(), out)?;
        }
    }
    Ok(())
}

/// Appends the rules of all spots that are not inside a place that is blanked for all elements.
pub fn push_spots(alloc: Global, spots: &Spots, out: &mut Vec<u8>) -> Result<(), AllocError> {
    for (target, spot) in spots.by_target.iter() {
        if !spots.is_hidden(target.as_slice()) {
            if spot.omitted.is_some() {
                spot.omitted
                    .push_rules(alloc, target.as_slice(), spot.hidden, out)?;
            }
            for index in 0..spot.rules.len() {
                push_rule(alloc, target.as_slice(), spot, index, out)?;
            }
        }
    }
    Ok(())
}

/// Adds the lines that blank ids of which some occur twice.
pub fn add_blanked_ids(
    alloc: Global,
    spots: &Spots,
    lines: &mut BTreeSet<Vec<u8>>,
) -> Result<(), AllocError> {
    for (target, spot) in spots.by_target.iter() {
        for rule in spot.rules.iter() {
            if rule.actions == BLANK && spot.have_ids(alloc, rule)? {
                let target = target_in(alloc, target.as_slice(), spot, rule.scope)?;
                let _ = lines.insert(parts_of(alloc, &[b"blank  ", target.as_slice()])?)?;
            }
        }
    }
    Ok(())
}

/// Returns the messages and the place of the rules of a scope.
fn target_in(
    alloc: Global,
    target: &[u8],
    spot: &Spot,
    scope: usize,
) -> Result<Vec<u8>, AllocError> {
    match (spot.list, spot.name_of(scope)) {
        (Some(list), Some(name)) if scope != ALL => {
            let name = json_of_text(alloc, name)?;
            let before = target.get(..list.start).unwrap_or(&[]);
            // Two bytes are the brackets of the place.
            let after = target.get(list.start.saturating_add(2)..).unwrap_or(&[]);
            parts_of(alloc, &[before, b"[", name.as_bytes(), b"]", after])
        }
        _ => Vec::from_slice(alloc, target),
    }
}

/// Chooses rules that a file can have.
#[derive(Clone, Copy)]
pub struct Chooser<'c> {
    pub alloc: Global,
    /// The rules before them.
    pub before: &'c [u8],
    /// Whether all rules are for all elements.
    pub are_joined: bool,
    /// Whether nothing that a test looks at may be hidden.
    pub are_strict: bool,
    /// Whether members may be set that only one recording has.
    pub may_fill: bool,
    /// Whether elements may be omitted from lists of different lengths.
    pub may_omit: bool,
}

impl Chooser<'_> {
    /// Returns the index of the first rule of a spot that a file cannot have, such as `digits` at a
    /// place of declared ids.
    fn refused(&self, target: &[u8], spot: &Spot) -> Result<Option<usize>, AllocError> {
        let mut rules = Vec::new(self.alloc);
        for index in 0..spot.rules.len() {
            push_rule(self.alloc, target, spot, index, &mut rules)?;
            if are_refused(self.alloc, self.before, rules.as_slice())? {
                return Ok(Some(index));
            }
        }
        Ok(None)
    }

    /// Chooses the rules of a spot. Returns whether they make all pairs of values equal.
    pub fn choose(&self, target: &[u8], spot: &mut Spot) -> Result<bool, AllocError> {
        if spot.omitted.is_some() && self.are_strict && spot.hidden.is_some() {
            return Ok(false);
        }
        for _ in 0..MAX_RULES {
            if !choose(self.alloc, spot, self.are_joined, self.are_strict)? {
                return Ok(false);
            }
            match self.refused(target, spot)? {
                Some(index) => spot.exclude(index)?,
                None => return Ok(true),
            }
        }
        Ok(false)
    }
}
