//! Numbers the ids of two recordings jointly.
ghost use Rattle.std.specs.Prelude.{◌≡◌, length, IfOk};
ghost use Rattle.dap_stored.specs.Sessions.{stored_sent};
ghost use Rattle.dap_tree.specs.Ids.{ids};

use crate::contents::have_one_text;
use crate::declared_names::DeclaredNames;
use crate::entry::StoredEntry;
use crate::ids::{Id, JointNumbers};
use crate::rows::Row;
use dap_compare::Which;
use dap_flat::Mark;
use dap_message::{AnyMessage, Message};
use dap_normalise::read_message;
use dap_stored::StoredMessage;
use dap_tree::{Scratch, Tree};
use std::alloc::{AllocError, Global};
use std::collections::BTreeMap;

/// Joins the ids of one sort at one path of two trees, which follow these stops.
#[cycle(join)]
fn join_trees(
    stops: (u64, u64),
    a: &Tree,
    b: &Tree,
    numbers: &mut JointNumbers,
) -> Result<(), AllocError> {
    match (a, b) {
        (Tree::Id(sort, x), Tree::Id(other, y)) => {
            if sort == other {
                numbers.join(
                    Id::new(Which::A, *sort, stops.0, *x),
                    Id::new(Which::B, *other, stops.1, *y),
                )?;
            }
            Ok(())
        }
        (Tree::List(items), Tree::List(others)) => join_items(stops, items, others, numbers),
        (Tree::Object(members), Tree::Object(others)) => {
            join_members(stops, members, others, numbers)
        }
        _ => Ok(()),
    }
}

#[cycle(join)]
fn join_items(
    stops: (u64, u64),
    items: &Vec<Tree>,
    others: &Vec<Tree>,
    numbers: &mut JointNumbers,
) -> Result<(), AllocError> {
    for (item, other) in items.iter().zip(others.iter()) {
        join_trees(stops, item, other, numbers)?;
    }
    Ok(())
}

#[cycle(join)]
fn join_members(
    stops: (u64, u64),
    members: &BTreeMap<String, Tree>,
    others: &BTreeMap<String, Tree>,
    numbers: &mut JointNumbers,
) -> Result<(), AllocError> {
    for (name, member) in members.iter() {
        if let Some(other) = others.get(name.as_str()) {
            join_trees(stops, member, other, numbers)?;
        }
    }
    Ok(())
}

/// Joins the ids of one sort at one place of two lists, which follow these stops.
fn join_marks(
    stops: (u64, u64),
    marks: &[Mark],
    others: &[Mark],
    numbers: &mut JointNumbers,
) -> Result<(), AllocError> {
    for (mark, other) in marks.iter().zip(others) {
        if mark.sort == other.sort {
            numbers.join(
                Id::new(Which::A, mark.sort, stops.0, mark.number),
                Id::new(Which::B, other.sort, stops.1, other.number),
            )?;
        }
    }
    Ok(())
}

/// Returns a stored message with its tree.
fn tree_of(
    alloc: Global,
    message: &StoredMessage<'_>,
    scratch: &mut Scratch,
) -> Result<Message, AllocError> {
    // The content was read as a message before, so no other error is possible.
    read_message(alloc, 1, message.side(), message.content(), scratch).map_err(|_| AllocError)
}

/// Joins the ids of one sort at one path of a pair. Messages with the same text between their ids
/// have them at the same paths.
fn join_pair(
    alloc: Global,
    a: &StoredEntry<'_>,
    b: &StoredEntry<'_>,
    scratch: &mut Scratch,
    numbers: &mut JointNumbers,
    names: &mut DeclaredNames<'_>,
) -> Result<(), AllocError> {
    let stops = (a.stop, b.stop);
    let is_named = names.may_be_in(&a.message) || names.may_be_in(&b.message);
    if !is_named && have_one_text(&a.message, &b.message) {
        return join_marks(stops, a.message.marks(), b.message.marks(), numbers);
    }
    let message = tree_of(alloc, &a.message, scratch)?;
    let other = tree_of(alloc, &b.message, scratch)?;
    if is_named {
        names.join(alloc, message.tree(), other.tree())?;
    }
    join_trees(stops, message.tree(), other.tree(), numbers)
}

/// Numbers the ids of the pairs jointly, in the order of the rows. Also joins the declared ids of
/// the pairs.
pub fn join_pairs(
    alloc: Global,
    rows: &[Row<'_>],
    names: &mut DeclaredNames<'_>,
) -> Result<JointNumbers, AllocError> {
    let mut numbers = JointNumbers::new(alloc);
    let mut scratch = Scratch::new(alloc);
    for row in rows {
        if let Row::Pair(a, b) = row {
            join_pair(alloc, a, b, &mut scratch, &mut numbers, names)?;
        }
    }
    Ok(numbers)
}

/// Returns the joint numbers of the ids of a record of A or of B, in the order of its content.
pub fn numbers_of(
    alloc: Global,
    which: Which,
    entry: &StoredEntry<'_>,
    numbers: &mut JointNumbers,
) -> Result<Vec<i64>, AllocError>
    ensures { IfOk result (λ joint.
        length joint.items ≡ length (ids (stored_sent entry.now.message).doc)) }
{
    let marks = entry.message.marks();
    let mut joint = Vec::with_capacity(alloc, marks.len())?;
    for mark in marks {
        joint.push(numbers.number(Id::new(which, mark.sort, entry.stop, mark.number))?)?;
    }
    Ok(joint)
}
