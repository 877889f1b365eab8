//! Compares two values, and finds out whether rules inside them can make them equal.
use dap_tree::Tree;
use std::collections::BTreeMap;

/// Returns whether two values that are neither lists nor objects are equal. Any two ids are: only
/// their numbers can differ.
fn are_one_scalar(a: &Tree, b: &Tree) -> bool {
    match (a, b) {
        (Tree::Null, Tree::Null) => true,
        (Tree::Bool(a), Tree::Bool(b)) => *a == *b,
        (Tree::Whole(a), Tree::Whole(b)) => *a == *b,
        (Tree::Text(a), Tree::Text(b)) => a.as_str() == b.as_str(),
        (Tree::Id(..), Tree::Id(..)) => true,
        _ => false,
    }
}

/// Returns whether two values are equal, whatever the numbers of their ids.
#[cycle(are_equal)]
pub fn are_equal(a: &Tree, b: &Tree) -> bool {
    match (a, b) {
        (Tree::List(items), Tree::List(others)) => are_equal_items(items, others),
        (Tree::Object(members), Tree::Object(others)) => are_equal_members(members, others),
        _ => are_one_scalar(a, b),
    }
}

#[cycle(are_equal)]
fn are_equal_items(items: &Vec<Tree>, others: &Vec<Tree>) -> bool {
    if items.len() != others.len() {
        return false;
    }
    for (item, other) in items.iter().zip(others.iter()) {
        if !are_equal(item, other) {
            return false;
        }
    }
    true
}

#[cycle(are_equal)]
fn are_equal_members(members: &BTreeMap<String, Tree>, others: &BTreeMap<String, Tree>) -> bool {
    if members.len() != others.len() {
        return false;
    }
    for (name, member) in members.iter() {
        match others.get(name.as_str()) {
            Some(other) if are_equal(member, other) => {}
            _ => return false,
        }
    }
    true
}

/// Returns whether a value is a list or an object.
pub fn is_container(value: &Tree) -> bool {
    matches!(value, Tree::List(_) | Tree::Object(_))
}

/// Returns whether `blank` makes two values equal.
fn have_one_blank(a: &Tree, b: &Tree) -> bool {
    matches!(
        (a, b),
        (Tree::Bool(_), Tree::Bool(_))
            | (Tree::Whole(_), Tree::Whole(_))
            | (Tree::Text(_), Tree::Text(_))
            | (Tree::List(_), Tree::List(_))
            | (Tree::Object(_), Tree::Object(_))
    )
}

/// Returns whether rules for the parts of two values can make these equal. Equal values need none.
/// A list or an object that is an element of a list is never blanked: it would lose what the
/// profile wants of it.
#[cycle(can_equate_inside)]
pub fn can_equate_inside(a: &Tree, b: &Tree) -> bool {
    match (a, b) {
        (Tree::List(items), Tree::List(others)) => can_equate_items(items, others),
        (Tree::Object(members), Tree::Object(others)) => can_equate_all(members, others),
        _ => are_one_scalar(a, b),
    }
}

#[cycle(can_equate_inside)]
fn can_equate_items(items: &Vec<Tree>, others: &Vec<Tree>) -> bool {
    if items.len() != others.len() {
        return false;
    }
    for (item, other) in items.iter().zip(others.iter()) {
        if !can_equate_pair(item, other) {
            return false;
        }
    }
    true
}

/// Returns whether rules for two elements of lists, or for their parts, can make these equal.
#[cycle(can_equate_inside)]
pub fn can_equate_pair(item: &Tree, other: &Tree) -> bool {
    (have_one_blank(item, other) && !is_container(item)) || can_equate_inside(item, other)
}

/// Returns whether two objects have members of the same names, and rules can make these equal.
fn can_equate_all(members: &BTreeMap<String, Tree>, others: &BTreeMap<String, Tree>) -> bool {
    if members.len() != others.len() {
        return false;
    }
    for (name, member) in members.iter() {
        match others.get(name.as_str()) {
            Some(other) if have_one_blank(member, other) || are_one_scalar(member, other) => {}
            _ => return false,
        }
    }
    true
}
