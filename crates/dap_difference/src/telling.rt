//! Finds the differences of two trees, leaf by leaf.
ghost use Rattle.std.specs.Prelude.{◌≡◌, ◌∷◌, ◌++◌, [], drop, IfOk, IsOk, OnOk, true};
ghost use Rattle.dap_tree.specs.Doc.{is_ordered};
ghost use Rattle.dap_tree.specs.View.{view, items_view, members_view};
ghost use Rattle.dap_difference.specs.Differences.{AreDifferences, PutInIsB};
ghost use Rattle.dap_difference.specs.Telling.{are_empty, both, differences, items_differences};
ghost use Rattle.dap_difference.specs.Telling.{items_of_b, members_differences, members_of_b};
ghost use Rattle.dap_difference.specs.Telling.{same_scalar};
ghost use Rattle.dap_difference.specs.Shown.{at_path, shown_differences};
ghost use Rattle.dap_difference.specs.TellingSteps.{Appends, HasNoLower, PassesLower};
ghost use Rattle.dap_difference.specs.TellingSteps.{TakesNamed};

use crate::{Difference, Step, Values};
use dap_tree::Tree;
use std::alloc::{AllocError, Global};
use std::cmp::Ordering;
use std::collections::BTreeMap;
use std::collections::btree_map::Iter;

/// Returns the differences of two trees, in the order of their paths: each leaf that differs.
///
/// Two arrays or two objects at the same path are compared part by part. Any other two values that
/// differ are one difference, and so is a value that exists in only one of the trees. An id and an
/// integer differ, even if their text is the same. Does not allocate for two equal scalars, two
/// empty arrays or two empty objects.
///
/// # Errors
///
/// - `AllocError`: an allocation failed.
pub fn differences<'t>(
    alloc: Global,
    a: &'t Tree,
    b: &'t Tree,
) -> Result<Vec<Difference<'t>>, AllocError>
    ensures reported { IfOk result
        (λ found. shown_differences found.items ≡ differences (view a.now) (view b.now)) }

    // If the members are in order, as in every tree that was read, the paths are exactly those at
    // which the documents differ. Each path has the values of both documents.
    ensures exactly { IfOk result (λ found. is_ordered (view a.now) ≡ true
        → is_ordered (view b.now) ≡ true
        → AreDifferences (view a.now) (view b.now) (shown_differences found.items)) }

    // Inserting B's values at these paths turns A's document into B's.
    ensures put_in { IfOk result (λ found. is_ordered (view a.now) ≡ true
        → is_ordered (view b.now) ≡ true
        → PutInIsB (shown_differences found.items) (view a.now) (view b.now)) }

    // Two equal scalars, two empty arrays and two empty objects have no differences, and this is
    // found without allocating.
    ensures scalars { same_scalar (view a.now) (view b.now) ≡ true → IsOk result }
    ensures empty { are_empty (view a.now) (view b.now) ≡ true → IsOk result }
{
    let mut path = Vec::new(alloc);
    let mut found = Vec::new(alloc);
    add(alloc, a, b, &mut path, &mut found)?;
    Ok(found)
}

/// Returns whether both are equal and neither is an array or an object.
fn same_scalar(a: &Tree, b: &Tree) -> bool
    ensures { result ≡ same_scalar (view a.now) (view b.now) }
{
    match a {
        Tree::Null => matches!(b, Tree::Null),
        Tree::Bool(x) => matches!(b, Tree::Bool(y) if x == y),
        Tree::Whole(x) => matches!(b, Tree::Whole(y) if x == y),
        Tree::Text(x) => matches!(b, Tree::Text(y) if x.as_str() == y.as_str()),
        Tree::Id(sort, x) => matches!(b, Tree::Id(other, y) if sort == other && x == y),
        Tree::List(_) | Tree::Object(_) => false,
    }
}

/// Appends the difference at a path.
fn add_found<'t>(
    alloc: Global,
    path: &[Step<'t>],
    values: Values<'t>,
    found: &mut Vec<Difference<'t>>,
) -> Result<(), AllocError>
    ensures { OnOk result (shown_differences found.new.items
        ≡ shown_differences found.old.items ++ at_path path.now values.entry ∷ []) }
{
    let path = Vec::from_slice(alloc, path)?;
    found.push(Difference { path, values })?;
    Ok(())
}

/// Appends the difference after a step, if the value exists in exactly one of the trees.
fn add_behind<'t>(
    alloc: Global,
    step: Step<'t>,
    values: Values<'t>,
    path: &mut Vec<Step<'t>>,
    found: &mut Vec<Difference<'t>>,
) -> Result<(), AllocError>
    ensures found { OnOk result (shown_differences found.new.items
        ≡ shown_differences found.old.items
        ++ at_path (path.old.items ++ step.entry ∷ []) values.entry ∷ []) }
    ensures path { OnOk result (path.new.items ≡ path.old.items) }
{
    path.push(step)?;
    add_found(alloc, path.as_slice(), values, found)?;
    path.pop();
    Ok(())
}

/// Appends the difference of the two trees, unless they are equal scalars.
fn add_both<'t>(
    alloc: Global,
    a: &'t Tree,
    b: &'t Tree,
    path: &[Step<'t>],
    found: &mut Vec<Difference<'t>>,
) -> Result<(), AllocError>
    ensures found { OnOk result
        (Appends path.now found.old.items found.new.items (both (view a.now) (view b.now))) }
    ensures scalars { same_scalar (view a.now) (view b.now) ≡ true → IsOk result }
{
    if same_scalar(a, b) {
        Ok(())
    } else {
        add_found(alloc, path, Values::Both(a, b), found)
    }
}

/// Appends the differences of two trees at a path.
#[cycle(add)]
fn add<'t>(
    alloc: Global,
    a: &'t Tree,
    b: &'t Tree,
    path: &mut Vec<Step<'t>>,
    found: &mut Vec<Difference<'t>>,
) -> Result<(), AllocError>
    ensures found { OnOk result (Appends path.old.items found.old.items found.new.items
        (differences (view a.now) (view b.now))) }
    ensures path { OnOk result (path.new.items ≡ path.old.items) }
    ensures scalars { same_scalar (view a.now) (view b.now) ≡ true → IsOk result }
    ensures empty { are_empty (view a.now) (view b.now) ≡ true → IsOk result }
{
    match a {
        Tree::List(items) => match b {
            Tree::List(others) => add_items(alloc, items, others, path, found),
            _ => add_both(alloc, a, b, path.as_slice(), found),
        },
        Tree::Object(members) => match b {
            Tree::Object(others) => add_members(alloc, members, others, path, found),
            _ => add_both(alloc, a, b, path.as_slice(), found),
        },
        _ => add_both(alloc, a, b, path.as_slice(), found),
    }
}

#[cycle(add)]
fn add_items<'t>(
    alloc: Global,
    items: &'t Vec<Tree>,
    others: &'t Vec<Tree>,
    path: &mut Vec<Step<'t>>,
    found: &mut Vec<Difference<'t>>,
) -> Result<(), AllocError>
    ensures found { OnOk result (Appends path.old.items found.old.items found.new.items
        (items_differences 0 (items_view items.now.items) (items_view others.now.items))) }
    ensures path { OnOk result (path.new.items ≡ path.old.items) }
    ensures empty { items.now.items ≡ [] → others.now.items ≡ [] → IsOk result }
{
    for (place, item) in items.iter().enumerate() {
        match others.get(place) {
            Some(other) => {
                path.push(Step::Item(place))?;
                add(alloc, item, other, path, found)?;
                path.pop();
            }
            None => add_behind(alloc, Step::Item(place), Values::OnlyA(item), path, found)?,
        }
    }
    add_items_of_b(alloc, others, items.len(), path, found)
}

/// Appends B's items from index `first` on, which do not exist in A.
fn add_items_of_b<'t>(
    alloc: Global,
    items: &'t Vec<Tree>,
    first: usize,
    path: &mut Vec<Step<'t>>,
    found: &mut Vec<Difference<'t>>,
) -> Result<(), AllocError>
    ensures found { OnOk result (Appends path.old.items found.old.items found.new.items
        (items_of_b first (items_view (drop first items.now.items)))) }
    ensures path { OnOk result (path.new.items ≡ path.old.items) }
    ensures empty { items.now.items ≡ [] → IsOk result }
{
    for place in first..items.len() {
        let value = Values::OnlyB(&items[place]);
        add_behind(alloc, Step::Item(place), value, path, found)?;
    }
    Ok(())
}

#[cycle(add)]
fn add_members<'t>(
    alloc: Global,
    members: &'t BTreeMap<String, Tree>,
    others: &'t BTreeMap<String, Tree>,
    path: &mut Vec<Step<'t>>,
    found: &mut Vec<Difference<'t>>,
) -> Result<(), AllocError>
    ensures found { OnOk result (Appends path.old.items found.old.items found.new.items
        (members_differences (members_view members.now.entries)
        (members_view others.now.entries))) }
    ensures path { OnOk result (path.new.items ≡ path.old.items) }
    ensures empty { members.now.entries ≡ [] → others.now.entries ≡ [] → IsOk result }
{
    let mut left = others.iter();
    for (name, member) in members.iter() {
        add_lower(alloc, name.as_str(), &mut left, path, found)?;
        match next_named(name.as_str(), &mut left)? {
            Some(other) => {
                path.push(Step::Member(name.as_str()))?;
                add(alloc, member, other, path, found)?;
                path.pop();
            }
            None => {
                let step = Step::Member(name.as_str());
                add_behind(alloc, step, Values::OnlyA(member), path, found)?;
            }
        }
    }
    add_members_of_b(alloc, left, path, found)
}

/// Appends those of B's remaining members whose names are below the given name.
fn add_lower<'t>(
    alloc: Global,
    name: &str,
    left: &mut Iter<'t, String, Tree>,
    path: &mut Vec<Step<'t>>,
    found: &mut Vec<Difference<'t>>,
) -> Result<(), AllocError>
    ensures found { OnOk result (PassesLower name.now path.old.items left.old left.new
        found.old.items found.new.items) }
    ensures none { OnOk result (HasNoLower name.now (members_view left.new)) }
    ensures path { OnOk result (path.new.items ≡ path.old.items) }
{
    'lower: loop {
        let mut ahead = left.clone()?;
        match ahead.next() {
            Some((other, value)) => match name.cmp(other.as_str()) {
                Ordering::Greater => {
                    let step = Step::Member(other.as_str());
                    add_behind(alloc, step, Values::OnlyB(value), path, found)?;
                    *left = ahead;
                }
                _ => return Ok(()),
            },
            None => return Ok(()),
        }
    }
}

/// Returns the next of B's members and advances, if it has that name.
fn next_named<'t>(
    name: &str,
    left: &mut Iter<'t, String, Tree>,
) -> Result<Option<&'t Tree>, AllocError>
    ensures { IfOk result (λ o. TakesNamed name.now left.old left.new o) }
{
    let mut ahead = left.clone()?;
    match ahead.next() {
        Some((other, value)) => {
            if other.as_str() == name {
                *left = ahead;
                Ok(Some(value))
            } else {
                Ok(None)
            }
        }
        None => Ok(None),
    }
}

/// Appends B's remaining members, which do not exist in A.
fn add_members_of_b<'t>(
    alloc: Global,
    left: Iter<'t, String, Tree>,
    path: &mut Vec<Step<'t>>,
    found: &mut Vec<Difference<'t>>,
) -> Result<(), AllocError>
    ensures found { OnOk result (Appends path.old.items found.old.items found.new.items
        (members_of_b (members_view left.entry))) }
    ensures path { OnOk result (path.new.items ≡ path.old.items) }
    ensures empty { left.entry ≡ [] → IsOk result }
{
    for (name, member) in left {
        let step = Step::Member(name.as_str());
        add_behind(alloc, step, Values::OnlyB(member), path, found)?;
    }
    Ok(())
}
