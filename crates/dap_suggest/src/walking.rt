//! Walks over the values of pairs: finds the places at which pairs differ, and records what the
//! candidates do to the values there.
use crate::candidates::{Actions, changing, equating};
use crate::comments::push_values;
use crate::elements::{Elements, element_of, innermost, name_in};
use crate::matched::Pair;
use crate::omitting::have_one_name;
use crate::pairs::Pairs;
use crate::spot::{ALL, Spot};
use crate::spots::Spots;
use crate::values::{are_equal, can_equate_inside};
use crate::words::push_member;
use dap_diff::have_one_text;
use dap_message::Message;
use dap_tree::Tree;
use std::alloc::{AllocError, Global};
use std::collections::{BTreeMap, BTreeSet};

/// What a pass over the pairs does.
#[derive(Clone, Copy, PartialEq, Eq)]
pub enum Pass {
    /// Finds the places at which pairs differ.
    Find,
    /// Records the values at the places that were found and are names of elements.
    RecordNames,
    /// Records the values at all other places that were found.
    RecordOthers,
}

/// A pass over the pairs at one pair, and the place that its walk over the messages has reached.
#[derive(Drop)]
struct Walker<'t> {
    alloc: Global,
    pass: Pass,
    pair: Pair<'t>,
    /// The index of the pair.
    index: usize,
    /// Whether the two messages are equal, except for the numbers of their ids.
    is_same: bool,
    /// The messages and the place, as rules have them.
    target: Vec<u8>,
    elements: Elements<'t>,
}

impl<'t> Walker<'t> {
    /// Adds the name of the element in which a spot is, if rules can select it by its name.
    fn add_element(&self, spot: &mut Spot) -> Result<(), AllocError> {
        if spot.is_name {
            return Ok(());
        }
        if spot.list.is_none() {
            spot.list = innermost(&self.elements);
        }
        match name_in(self.alloc, &self.elements, spot.list)? {
            Some(name) => spot.add_name(self.alloc, name.as_str()),
            None => Ok(()),
        }
    }

    /// Enters an element of two lists, whose brackets are at `start` in the target. `actions` are
    /// those of the rules for the names of the elements.
    fn enter(
        &mut self,
        item: &'t Tree,
        other: &'t Tree,
        actions: Actions,
        start: usize,
    ) -> Result<(), AllocError> {
        Ok(self.elements.push(element_of(item, other, actions, start))?)
    }

    /// Adds the place, at which two values differ.
    fn find(&self, spots: &mut Spots) -> Result<(), AllocError> {
        spots.add(self.alloc, self.pair.head(), self.target.as_slice())?;
        match spots.by_target.get_mut(self.target.as_slice()) {
            Some(spot) => {
                spot.add_pair(self.index)?;
                self.add_element(spot)
            }
            None => Ok(()),
        }
    }

    /// Adds the place, at which two lists have different lengths, and the elements to omit. Returns
    /// whether the lists can be made equal so.
    fn find_omitted(
        &self,
        spots: &mut Spots,
        items: &[Tree],
        others: &[Tree],
    ) -> Result<bool, AllocError> {
        let target = self.target.as_slice();
        let actions = spots.name_actions(self.alloc, target)?;
        spots.add(self.alloc, self.pair.head(), target)?;
        let Some(spot) = spots.by_target.get_mut(target) else {
            return Ok(false);
        };
        spot.omitted
            .add(self.alloc, &self.pair, (items, others), actions)?;
        if !spot.omitted.is_some() {
            return Ok(false);
        }
        spot.add_pair(self.index)?;
        Ok(true)
    }

    /// Returns whether two values are lists of different lengths that rules can make equal by
    /// omitting elements. Adds the place and these elements.
    fn can_omit(&self, spots: &mut Spots, a: &Tree, b: &Tree) -> Result<bool, AllocError> {
        match (a, b) {
            (Tree::List(items), Tree::List(others)) => {
                if spots.may_omit && items.len() != others.len() {
                    self.find_omitted(spots, items, others)
                } else {
                    Ok(false)
                }
            }
            _ => Ok(false),
        }
    }

    /// Returns the scope of the rules for a value at a spot.
    fn scope_at(&self, spot: &Spot) -> Result<usize, AllocError> {
        if !spot.has_names() {
            return Ok(ALL);
        }
        match name_in(self.alloc, &self.elements, spot.list)? {
            Some(name) => Ok(spot.scope_of(name.as_str())),
            None => Ok(ALL),
        }
    }

    /// Records a pair of equal values.
    fn record_equal(&self, spot: &mut Spot, value: &Tree) -> Result<(), AllocError> {
        let actions = changing(self.alloc, value)?;
        let scope = self.scope_at(spot)?;
        match spot.tallies.get_mut(scope) {
            Some(tally) => tally.add_equal(actions),
            None => Ok(()),
        }
    }

    /// Records a pair of different values.
    fn record_different(&self, spot: &mut Spot, a: &Tree, b: &Tree) -> Result<(), AllocError> {
        let candidates = equating(self.alloc, a, b)?;
        let scope = self.scope_at(spot)?;
        let before = spot.seen;
        spot.seen = before.saturating_add(1);
        let Some(tally) = spot.tallies.get_mut(scope) else {
            return Ok(());
        };
        tally.repeats.add(self.alloc, a, b)?;
        let mut comment = Vec::new(self.alloc);
        if !tally.has(candidates) {
            push_values(self.alloc, &self.pair, a, b, &mut comment)?;
        }
        tally.add_different(candidates, before, comment)
    }

    /// Records a pair of values at a spot. Returns whether rules for places inside it can make it
    /// equal.
    fn record(&self, spot: &mut Spot, a: &Tree, b: &Tree) -> Result<bool, AllocError> {
        let is_recorded = spot.is_name == (self.pass == Pass::RecordNames);
        if spot.omitted.is_some() {
            return Ok(true);
        }
        if self.is_same || are_equal(a, b) {
            if is_recorded {
                self.record_equal(spot, a)?;
            }
            return Ok(true);
        }
        if can_equate_inside(a, b) {
            return Ok(true);
        }
        if is_recorded {
            self.record_different(spot, a, b)?;
        }
        Ok(false)
    }

    /// Returns the elements of the second list that are walked over, if some elements of both lists
    /// are omitted here, and counts these.
    fn kept_others<'l>(
        &self,
        spots: &mut Spots,
        items: &'l [Tree],
        others: &'l [Tree],
        actions: Actions,
    ) -> Result<Option<Vec<&'l Tree>>, AllocError> {
        match spots.by_target.get_mut(self.target.as_slice()) {
            Some(spot) if spot.omitted.is_some() => {
                if self.pass == Pass::RecordOthers {
                    spot.omitted.add_hidden(self.alloc, items, others, actions)?;
                }
                Ok(Some(spot.omitted.kept(self.alloc, others, actions)?))
            }
            _ => Ok(None),
        }
    }

    /// Finds or records the place, at which the messages have these values. Returns whether the
    /// walk goes on inside them.
    fn visit(&self, spots: &mut Spots, a: &Tree, b: &Tree) -> Result<bool, AllocError> {
        if self.pass == Pass::Find {
            if can_equate_inside(a, b) || self.can_omit(spots, a, b)? {
                return Ok(true);
            }
            self.find(spots)?;
            return Ok(false);
        }
        match spots.by_target.get_mut(self.target.as_slice()) {
            Some(spot) => self.record(spot, a, b),
            None => Ok(true),
        }
    }
}

/// Walks over two values.
#[cycle(walk)]
fn walk<'t>(
    walker: &mut Walker<'t>,
    spots: &mut Spots,
    a: &'t Tree,
    b: &'t Tree,
) -> Result<(), AllocError> {
    if !walker.visit(spots, a, b)? {
        return Ok(());
    }
    match (a, b) {
        (Tree::List(items), Tree::List(others)) => walk_items(walker, spots, items, others),
        (Tree::Object(members), Tree::Object(others)) => {
            walk_members(walker, spots, members, others)
        }
        _ => Ok(()),
    }
}

#[cycle(walk)]
fn walk_items<'t>(
    walker: &mut Walker<'t>,
    spots: &mut Spots,
    items: &'t Vec<Tree>,
    others: &'t Vec<Tree>,
) -> Result<(), AllocError> {
    let start = walker.target.len();
    let actions = spots.name_actions(walker.alloc, walker.target.as_slice())?;
    let kept = walker.kept_others(spots, items, others, actions)?;
    walker.target.extend_from_slice(b"[]")?;
    match kept {
        None => {
            for (item, other) in items.iter().zip(others.iter()) {
                walker.enter(item, other, actions, start)?;
                walk(walker, spots, item, other)?;
                let _ = walker.elements.pop();
            }
        }
        Some(kept) => {
            let mut rest = kept.as_slice();
            for item in items.iter() {
                if let [other, others @ ..] = rest
                    && have_one_name(walker.alloc, item, *other, actions)?
                {
                    walker.enter(item, *other, actions, start)?;
                    walk(walker, spots, item, *other)?;
                    let _ = walker.elements.pop();
                    rest = others;
                }
            }
        }
    }
    walker.target.truncate(start);
    Ok(())
}

#[cycle(walk)]
fn walk_members<'t>(
    walker: &mut Walker<'t>,
    spots: &mut Spots,
    members: &'t BTreeMap<String, Tree>,
    others: &'t BTreeMap<String, Tree>,
) -> Result<(), AllocError> {
    let (alloc, start) = (walker.alloc, walker.target.len());
    for (name, member) in members.iter() {
        if let Some(other) = others.get(name.as_str()) {
            push_member(alloc, name.as_str(), &mut walker.target)?;
            walk(walker, spots, member, other)?;
            walker.target.truncate(start);
        }
    }
    Ok(())
}

/// Walks over two messages of a pair, which are one if they are equal.
fn walk_messages(
    alloc: Global,
    pass: Pass,
    spots: &mut Spots,
    (pair, index): (&Pair<'_>, usize),
    (a, b): (&Message, Option<&Message>),
) -> Result<(), AllocError> {
    let mut target = pair.class(alloc)?;
    target.push(b' ')?;
    let mut walker = Walker {
        alloc,
        pass,
        pair: *pair,
        index,
        is_same: b.is_none(),
        target,
        elements: Vec::new(alloc),
    };
    walk(&mut walker, spots, a.tree(), b.unwrap_or(a).tree())
}

/// Walks over a pair that differs. Returns whether rules for values can make it equal.
fn walk_different(
    pass: Pass,
    spots: &mut Spots,
    pairs: &mut Pairs<'_>,
    pair: &Pair<'_>,
    index: usize,
) -> Result<bool, AllocError> {
    let (a, b) = pairs.read(pair)?;
    let is_equated = can_equate_inside(a.tree(), b.tree());
    if is_equated || pass != Pass::Find {
        walk_messages(pairs.alloc, pass, spots, (pair, index), (&a, Some(&b)))?;
    }
    Ok(is_equated)
}

/// Walks over the two equal messages of a pair.
fn walk_equal(
    pass: Pass,
    spots: &mut Spots,
    pairs: &mut Pairs<'_>,
    pair: &Pair<'_>,
    index: usize,
) -> Result<(), AllocError> {
    let message = pairs.read_one(pair)?;
    walk_messages(pairs.alloc, pass, spots, (pair, index), (&message, None))
}

/// Adds the places at which pairs differ, or records the values at these. Adds the indices of the
/// pairs that no rules for values make equal.
pub fn walk_pairs(
    pass: Pass,
    spots: &mut Spots,
    pairs: &mut Pairs<'_>,
    failed: &mut BTreeSet<usize>,
) -> Result<(), AllocError> {
    for (index, pair) in pairs.list.iter().enumerate() {
        let is_equal = have_one_text(&pair.a.message, &pair.b.message);
        let is_walked = match pass {
            Pass::Find => !is_equal,
            Pass::RecordNames | Pass::RecordOthers => spots.heads.contains(pair.head()),
        };
        if !is_walked {
            continue;
        }
        if is_equal {
            walk_equal(pass, spots, pairs, pair, index)?;
        } else if !walk_different(pass, spots, pairs, pair, index)? {
            let _ = failed.insert(index)?;
        }
    }
    Ok(())
}
