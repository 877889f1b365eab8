//! Members that only one recording of a pair has, so that a rule sets them in the other one.
use crate::comments::{push_check, push_hidden, push_value};
use crate::guarded::hidden_at;
use crate::joined_rules::{fault_after, is_full};
use crate::matched::Pair;
use crate::pairs::Pairs;
use crate::value_rules::Chooser;
use crate::words::{json_of, push_member, push_parts};
use dap_compare::Which;
use dap_diff::have_one_text;
use dap_tree::Tree;
use std::alloc::{AllocError, Global};
use std::collections::{BTreeMap, BTreeSet};

/// How many members of an object are set at most.
const MAX_FILLED: usize = 4;

/// A member that is set.
#[derive(Drop)]
struct Member {
    /// The least value that one recording alone has, as JSON.
    value: String,
    /// The comment that shows the first such value.
    comment: Vec<u8>,
    /// How often the member is null in both recordings.
    nulls: u64,
}

impl Member {
    /// Appends the rule that sets the member at a place, after its comments.
    fn push_rule(
        &self,
        alloc: Global,
        target: &[u8],
        hidden: Option<&str>,
        out: &mut Vec<u8>,
    ) -> Result<(), AllocError> {
        out.extend_from_slice(self.comment.as_slice())?;
        push_hidden(alloc, self.nulls, out)?;
        if let Some(hidden) = hidden {
            push_check(hidden, out)?;
        }
        push_parts(
            &[b"fill   ", target, b" ", self.value.as_bytes(), b"\n\n"],
            out,
        )
    }
}

/// The members of objects, by their messages and places as rules have them.
#[derive(Drop)]
struct Filling<'p> {
    alloc: Global,
    members: BTreeMap<Vec<u8>, Member>,
    /// The objects whose members cannot all be set.
    excluded: BTreeSet<Vec<u8>>,
    /// The messages in which members were found.
    classes: BTreeSet<Vec<u8>>,
    /// Whether nulls are counted at the members that were found, or members are added.
    are_counted: bool,
    /// The pair that is read, and the messages and the place that the walk has reached.
    pair: Option<Pair<'p>>,
    target: Vec<u8>,
}

type Members = BTreeMap<String, Tree>;

/// Returns whether a rule can set a value of this type. No rule sets an id, and null is replaced.
fn can_be_set(value: &Tree) -> bool {
    matches!(value, Tree::Text(_) | Tree::Bool(_) | Tree::Whole(_))
}

/// Adds to the names of `members` that `others` lacks. Returns whether a rule can set all of them.
fn add_lacking<'t>(
    which: Which,
    members: &'t Members,
    others: &Members,
    lacking: &mut Vec<(Which, &'t str, &'t Tree)>,
) -> Result<bool, AllocError> {
    let mut can_be_filled = true;
    for (name, value) in members.iter() {
        if !others.contains_key(name.as_str()) {
            can_be_filled &= can_be_set(value);
            lacking.push((which, name.as_str(), value))?;
        }
    }
    Ok(can_be_filled && lacking.len() <= MAX_FILLED)
}

impl Filling<'_> {
    /// Adds the member at the place that only this recording has.
    fn add(&mut self, which: Which, value: &Tree) -> Result<(), AllocError> {
        let (alloc, Some(pair)) = (self.alloc, self.pair) else {
            return Ok(());
        };
        let json = json_of(alloc, value)?;
        if let Some(member) = self.members.get_mut(self.target.as_slice()) {
            if json.as_str() < member.value.as_str() {
                member.value = json;
            }
            return Ok(());
        }
        let mut comment = Vec::new(alloc);
        for (side, number) in [(Which::A, pair.a.number), (Which::B, pair.b.number)] {
            let shown = if side == which {
                json.as_str()
            } else {
                "no such member"
            };
            push_value(alloc, (side, number), shown, "", &mut comment)?;
        }
        let _ = self.classes.insert(pair.class(alloc)?)?;
        let target = self.target.clone()?;
        let member = Member {
            value: json,
            comment,
            nulls: 0,
        };
        drop(self.members.insert(target, member)?);
        Ok(())
    }

    /// Adds the members of two objects that only one of them has.
    fn add_members(&mut self, members: &Members, others: &Members) -> Result<(), AllocError> {
        let mut lacking = Vec::new(self.alloc);
        let in_a = add_lacking(Which::A, members, others, &mut lacking)?;
        let in_b = add_lacking(Which::B, others, members, &mut lacking)?;
        if !in_a || !in_b {
            let _ = self.excluded.insert(self.target.clone()?)?;
            return Ok(());
        }
        let start = self.target.len();
        for (which, name, value) in lacking.iter() {
            push_member(self.alloc, *name, &mut self.target)?;
            self.add(*which, *value)?;
            self.target.truncate(start);
        }
        Ok(())
    }

    /// Returns whether a place is inside an object whose members cannot all be set.
    fn is_excluded(&self, target: &[u8]) -> bool {
        for (end, byte) in target.iter().enumerate() {
            let start = target.get(..end).unwrap_or(&[]);
            let is_object = matches!(*byte, b'.' | b'[') || start.ends_with(b" ");
            if is_object && self.excluded.contains(start) {
                return true;
            }
        }
        false
    }

    /// Appends the rules that a file can have after those before them. If they are strict, none
    /// hides what a test looks at.
    fn push_rules(&self, chooser: &Chooser<'_>, out: &mut Vec<u8>) -> Result<(), AllocError> {
        for (target, member) in self.members.iter() {
            let hidden = hidden_at(self.alloc, target.as_slice())?;
            if self.is_excluded(target.as_slice()) || (chooser.are_strict && hidden.is_some()) {
                continue;
            }
            let start = out.len();
            member.push_rule(self.alloc, target.as_slice(), hidden, out)?;
            if let Some(fault) = fault_after(self.alloc, chooser.before, out.as_slice())? {
                out.truncate(start);
                if is_full(&fault) {
                    break;
                }
            }
        }
        Ok(())
    }

    /// Counts the member at the place, if it is null in both recordings.
    fn count_null(&mut self, value: &Tree, other: &Tree) {
        if let (Tree::Null, Tree::Null) = (value, other)
            && let Some(member) = self.members.get_mut(self.target.as_slice())
        {
            member.nulls = member.nulls.saturating_add(1);
        }
    }
}

/// Walks over two values.
#[cycle(walk)]
fn walk(filling: &mut Filling<'_>, a: &Tree, b: &Tree) -> Result<(), AllocError> {
    match (a, b) {
        (Tree::List(items), Tree::List(others)) => walk_items(filling, items, others),
        (Tree::Object(members), Tree::Object(others)) => walk_members(filling, members, others),
        _ if filling.are_counted => Ok(filling.count_null(a, b)),
        _ => Ok(()),
    }
}

#[cycle(walk)]
fn walk_items(
    filling: &mut Filling<'_>,
    items: &Vec<Tree>,
    others: &Vec<Tree>,
) -> Result<(), AllocError> {
    if items.len() != others.len() {
        return Ok(());
    }
    let start = filling.target.len();
    filling.target.extend_from_slice(b"[]")?;
    for (item, other) in items.iter().zip(others.iter()) {
        walk(filling, item, other)?;
    }
    filling.target.truncate(start);
    Ok(())
}

#[cycle(walk)]
fn walk_members(
    filling: &mut Filling<'_>,
    members: &Members,
    others: &Members,
) -> Result<(), AllocError> {
    if !filling.are_counted {
        filling.add_members(members, others)?;
    }
    let (alloc, start) = (filling.alloc, filling.target.len());
    for (name, member) in members.iter() {
        if let Some(other) = others.get(name.as_str()) {
            push_member(alloc, name.as_str(), &mut filling.target)?;
            walk(filling, member, other)?;
            filling.target.truncate(start);
        }
    }
    Ok(())
}

/// Walks over the messages of a pair.
fn walk_pair<'p>(
    filling: &mut Filling<'p>,
    pairs: &mut Pairs<'p>,
    pair: &Pair<'p>,
) -> Result<(), AllocError> {
    filling.target = pair.class(pairs.alloc)?;
    filling.target.push(b' ')?;
    filling.pair = Some(*pair);
    let (a, b) = pairs.read(pair)?;
    walk(filling, a.tree(), b.tree())
}

/// Appends rules that set the members that only one recording of a pair has: up to four of an
/// object, if all of their values are strings, integers or booleans.
pub fn push_fills<'p>(
    chooser: &Chooser<'_>,
    pairs: &mut Pairs<'p>,
    out: &mut Vec<u8>,
) -> Result<(), AllocError> {
    let alloc = chooser.alloc;
    let mut filling = Filling {
        alloc,
        members: BTreeMap::new(alloc),
        excluded: BTreeSet::new(alloc),
        classes: BTreeSet::new(alloc),
        are_counted: false,
        pair: None,
        target: Vec::new(alloc),
    };
    for pair in pairs.list.iter() {
        if !have_one_text(&pair.a.message, &pair.b.message) {
            walk_pair(&mut filling, pairs, pair)?;
        }
    }
    filling.are_counted = true;
    for pair in pairs.list.iter() {
        if filling.classes.contains(pair.class(alloc)?.as_slice()) {
            walk_pair(&mut filling, pairs, pair)?;
        }
    }
    filling.push_rules(chooser, out)
}
