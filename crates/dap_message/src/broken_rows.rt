//! Whether a tree violates one row.
ghost use Rattle.std.specs.Prelude.{◌≡◌, [], ◌∷◌, cond, map, option_map, option_and_then};
ghost use Rattle.dap_tree.specs.Doc.{get};
ghost use Rattle.dap_tree.specs.View.{view};
ghost use Rattle.dap_profile.specs.PlaceSteps.{named, steps_of};
ghost use Rattle.dap_message.specs.FirstBreak.{break_at, first_against, found_in, found_of};
ghost use Rattle.dap_message.specs.Places.{is_object, list_of};
ghost use Rattle.dap_message.specs.Rows.{has_type, cause_against, broken_at};

use dap_profile::{Place, Row, Want};
use dap_tree::Tree;

/// How a row is violated.
#[derive(Clone, Copy, PartialEq, Eq, Drop)]
pub(crate) enum Cause {
    Missing,
    WrongType,
}

/// A value that violates a row.
#[derive(Clone, Copy)]
pub struct Break<'t> {
    /// The index of the array element that is or contains the value, or 0 if the row's path leads
    /// into no array.
    pub element: usize,
    /// The value, or `None` if it is absent.
    pub value: Option<&'t Tree>,
}

/// Returns how the tree violates the row, or `None` if it does not. If the row's path leads to
/// several elements, the first one that violates the row counts.
pub(crate) fn cause_of(row: &Row, tree: &Tree) -> Option<Cause>
    ensures { result
        ≡ broken_at (steps_of row.now.place) row.now.want row.now.needed (view tree.now) }
{
    match first_break(row, tree) {
        Some(found) => judge(found.value, row.want, row.needed),
        None => None,
    }
}

/// Returns the first value at the row's path that violates the row, or `None` if there is none.
pub fn first_break<'t>(row: &Row, tree: &'t Tree) -> Option<Break<'t>>
    ensures { option_map found_of result
        ≡ break_at (steps_of row.now.place) row.now.want row.now.needed (view tree.now) }
{
    match row.place {
        Place::Member(a) => break_in(row, 0, tree, a),
        Place::Inner(a, b) => break_in(row, 0, tree.child(a)?, b),
        Place::Deep(a, b, c) => break_in(row, 0, tree.child(a)?.child(b)?, c),
        Place::Element(a, b) => first_element(row, list_at(tree, a, b)?),
        Place::Part(a, b, c) => first_part(row, list_at(tree, a, b)?, c),
    }
}

fn has_type(tree: &Tree, want: Want) -> bool
    ensures { result ≡ has_type want (view tree.now) }
{
    match (want, tree) {
        (Want::Bool, Tree::Bool(_)) => true,
        (Want::Whole, Tree::Whole(_)) => true,
        (Want::Text, Tree::Text(_)) => true,
        (Want::Object, Tree::Object(_)) => true,
        (Want::List, Tree::List(_)) => true,
        (_, Tree::Whole(number)) => {
            want.is_id() && i64::MIN as i128 <= *number && *number <= i64::MAX as i128
        }
        _ => false,
    }
}

fn judge(found: Option<&Tree>, want: Want, needed: bool) -> Option<Cause>
    ensures { result ≡ cause_against want needed (option_map (λ t. view t.now) found.entry) }
{
    match found {
        None if needed => Some(Cause::Missing),
        None => None,
        Some(tree) if has_type(tree, want) => None,
        Some(Tree::Null) if !needed => None,
        Some(_) => Some(Cause::WrongType),
    }
}

/// Returns the value of an element, if it violates the row.
fn break_by<'t>(row: &Row, element: usize, value: Option<&'t Tree>) -> Option<Break<'t>>
    ensures { option_map found_of result ≡ first_against row.now.want row.now.needed
        ((element, option_map (λ t. view t.now) value.entry) ∷ []) }
{
    match judge(value, row.want, row.needed) {
        Some(_) => Some(Break { element, value }),
        None => None,
    }
}

/// Returns the member of an element, if it violates the row. If the parent is not an object, the row
/// requires nothing of it.
fn break_in<'t>(row: &Row, element: usize, parent: &'t Tree, name: &str) -> Option<Break<'t>>
    ensures { option_map found_of result ≡ first_against row.now.want row.now.needed
        (cond (is_object (view parent.now))
        ((element, get name.now (view parent.now)) ∷ []) []) }
{
    if let Tree::Object(_) = parent {
        break_by(row, element, parent.child(name))
    } else {
        None
    }
}

pub(crate) fn list_at<'a>(tree: &'a Tree, outer: &str, inner: &str) -> Option<&'a [Tree]>
    ensures { option_map (λ ts. map view ts.now) result
        ≡ option_and_then list_of (option_and_then (get inner.now)
        (get outer.now (view tree.now))) }
{
    match tree.child(outer)?.child(inner)? {
        Tree::List(elements) => Some(elements.as_slice()),
        _ => None,
    }
}

/// Returns the first element that violates the row.
fn first_element<'t>(row: &Row, elements: &'t [Tree]) -> Option<Break<'t>>
    ensures { option_map found_of result ≡ first_against row.now.want row.now.needed
        (found_in [] 0 (map view elements.now)) }
{
    for (index, element) in elements.iter().enumerate() {
        let found = break_by(row, index, Some(element));
        if found.is_some() {
            return found;
        }
    }
    None
}

/// Returns the member of the first element in which it violates the row.
fn first_part<'t>(row: &Row, elements: &'t [Tree], name: &str) -> Option<Break<'t>>
    ensures { option_map found_of result ≡ first_against row.now.want row.now.needed
        (found_in (named name.now ∷ []) 0 (map view elements.now)) }
{
    for (index, element) in elements.iter().enumerate() {
        let found = break_in(row, index, element, name);
        if found.is_some() {
            return found;
        }
    }
    None
}
