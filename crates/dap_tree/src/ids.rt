//! Lists the ids of a tree, and replaces their numbers.
ghost use Rattle.std.specs.Prelude.{◌≡◌, ◌++◌, ◌≤◌, [], true, length, drop, IsOk, OnOk, OnErr};
ghost use Rattle.dap_tree.specs.Doc.{depth, items_depth, members_depth, is_sound, is_ordered};
ghost use Rattle.dap_tree.specs.Doc.{items_ordered, members_ordered};
ghost use Rattle.dap_tree.specs.Ids.{ids, items_ids, members_ids, id_count, items_id_count};
ghost use Rattle.dap_tree.specs.Ids.{members_id_count, with_ids, items_with_ids, members_with_ids};
ghost use Rattle.dap_tree.specs.Ids.{numbers_of, skeleton, Extends};
ghost use Rattle.dap_tree.specs.View.{view, items_view, members_view};

use crate::sound::MAX_DEPTH;
use crate::{Sort, Tree};
use std::alloc::AllocError;
use std::collections::BTreeMap;

impl Tree {
    /// Appends the ids of the tree to `found`, in the order in which they occur in the tree's JSON
    /// text. Each id is a pair of its kind and its number. A tree without ids does not allocate.
    ///
    /// # Errors
    ///
    /// - `AllocError`: an allocation failed. `found` is unchanged, except for its capacity.
    pub fn add_ids(&self, found: &mut Vec<(Sort, i64)>) -> Result<(), AllocError>
        ensures ok { OnOk result (found.new.items ≡ found.old.items ++ ids (view self.now)) }
        ensures err { OnErr result (found.new.items ≡ found.old.items) }
        ensures none { ids (view self.now) ≡ [] → IsOk result }

        // Therefore the ids are also in the order of their paths.
        ensures ordered { OnOk result (is_ordered (view self.now) ≡ true) }
    {
        let before = found.len();
        let added = add(self, found);
        if added.is_err() {
            found.truncate(before);
        }
        added
    }

    /// Replaces the numbers of the ids, in the order in which they occur in the tree's JSON text.
    ///
    /// Changes the tree in place. Does not allocate.
    pub fn replace_ids(&mut self, numbers: &[i64])
        requires sound { is_sound (view self.old) ≡ true }
        requires one_each { length numbers.now ≡ id_count (view self.old) }
        ensures replaced { view self.new ≡ with_ids (view self.old) numbers.now }

        // The ids have these numbers, and nothing else is changed.
        ensures numbers { numbers_of (ids (view self.new)) ≡ numbers.now }
        ensures alike { skeleton (view self.new) ≡ skeleton (view self.old) }
        ensures sound { is_sound (view self.new) ≡ true }
    {
        put(self, numbers, MAX_DEPTH);
    }
}

#[cycle(add)]
fn add(tree: &Tree, found: &mut Vec<(Sort, i64)>) -> Result<(), AllocError>
    ensures ok { OnOk result (found.new.items ≡ found.old.items ++ ids (view tree.now)) }
    ensures err { OnErr result (Extends found.old.items found.new.items) }
    ensures none { ids (view tree.now) ≡ [] → IsOk result }
    ensures ordered { OnOk result (is_ordered (view tree.now) ≡ true) }
{
    match tree {
        Tree::Id(sort, n) => {
            found.push((*sort, *n))?;
            Ok(())
        }
        Tree::List(items) => add_items(items, found),
        Tree::Object(members) => add_members(members, found),
        _ => Ok(()),
    }
}

#[cycle(add)]
fn add_items(items: &Vec<Tree>, found: &mut Vec<(Sort, i64)>) -> Result<(), AllocError>
    ensures ok { OnOk result (found.new.items
        ≡ found.old.items ++ items_ids (items_view items.now.items)) }
    ensures err { OnErr result (Extends found.old.items found.new.items) }
    ensures none { items_ids (items_view items.now.items) ≡ [] → IsOk result }
    ensures ordered { OnOk result (items_ordered (items_view items.now.items) ≡ true) }
{
    for item in items {
        add(item, found)?;
    }
    Ok(())
}

#[cycle(add)]
fn add_members(
    members: &BTreeMap<String, Tree>,
    found: &mut Vec<(Sort, i64)>,
) -> Result<(), AllocError>
    ensures ok { OnOk result (found.new.items
        ≡ found.old.items ++ members_ids (members_view members.now.entries)) }
    ensures err { OnErr result (Extends found.old.items found.new.items) }
    ensures none { members_ids (members_view members.now.entries) ≡ [] → IsOk result }
    ensures ordered { OnOk result (members_ordered (members_view members.now.entries) ≡ true) }
{
    for (_, member) in members.iter() {
        add(member, found)?;
    }
    Ok(())
}

// Returns the numbers after the first n, if the tree has n ids. A separate traversal, which
// `put_members` uses, because the value of a variable that a closure captured is unknown after
// `retain`.
#[cycle(skip)]
fn skip<'a>(tree: &Tree, numbers: &'a [i64]) -> &'a [i64]
    ensures { result.now ≡ drop (id_count (view tree.now)) numbers.now }
{
    match tree {
        Tree::Id(..) => match numbers {
            [] => numbers,
            [_, rest @ ..] => rest,
        },
        Tree::List(items) => skip_items(items, numbers),
        Tree::Object(members) => skip_members(members, numbers),
        _ => numbers,
    }
}

#[cycle(skip)]
fn skip_items<'a>(items: &Vec<Tree>, numbers: &'a [i64]) -> &'a [i64]
    ensures { result.now ≡ drop (items_id_count (items_view items.now.items)) numbers.now }
{
    let mut rest = numbers;
    for item in items {
        rest = skip(item, rest);
    }
    rest
}

#[cycle(skip)]
fn skip_members<'a>(members: &BTreeMap<String, Tree>, numbers: &'a [i64]) -> &'a [i64]
    ensures { result.now ≡ drop (members_id_count (members_view members.now.entries)) numbers.now }
{
    let mut rest = numbers;
    for (_, member) in members.iter() {
        rest = skip(member, rest);
    }
    rest
}

// Sets the i-th id of a tree to the i-th number and returns the remaining numbers. The tree nests
// at most `levels` deep.
#[cycle(put)]
fn put<'a>(tree: &mut Tree, numbers: &'a [i64], levels: u8) -> &'a [i64]
    requires { depth (view tree.old) ≤ levels }
    ensures put { view tree.new ≡ with_ids (view tree.old) numbers.now }
    ensures left { result.now ≡ drop (id_count (view tree.old)) numbers.now }
{
    match tree {
        Tree::Id(_, n) => match numbers {
            [] => numbers,
            [first, rest @ ..] => {
                *n = *first;
                rest
            }
        },
        Tree::List(items) => put_items(items, numbers, levels - 1),
        Tree::Object(members) => put_members(members, numbers, levels - 1),
        _ => numbers,
    }
}

#[cycle(put)]
fn put_items<'a>(items: &mut Vec<Tree>, numbers: &'a [i64], levels: u8) -> &'a [i64]
    requires { items_depth (items_view items.old.items) ≤ levels }
    ensures put { items_view items.new.items
        ≡ items_with_ids (items_view items.old.items) numbers.now }
    ensures left { result.now ≡ drop (items_id_count (items_view items.old.items)) numbers.now }
{
    let mut rest = numbers;
    for item in items.iter_mut() {
        rest = put(item, rest, levels);
    }
    rest
}

#[cycle(put)]
fn put_members<'a>(
    members: &mut BTreeMap<String, Tree>,
    numbers: &'a [i64],
    levels: u8,
) -> &'a [i64]
    requires { members_depth (members_view members.old.entries) ≤ levels }
    ensures put { members_view members.new.entries
        ≡ members_with_ids (members_view members.old.entries) numbers.now }
    ensures left { result.now
        ≡ drop (members_id_count (members_view members.old.entries)) numbers.now }
{
    let left = skip_members(members, numbers);
    let mut rest = numbers;
    members.retain(
        move |_, member|
            requires { depth (view member.old) ≤ levels }
            ensures kept { result ≡ true }
            ensures rest { rest.exit.now ≡ drop (id_count (view member.old)) rest.entry.now }
            ensures put { view member.new ≡ with_ids (view member.old) rest.entry.now }
        {
            rest = put(member, rest, levels);
            true
        },
    );
    left
}
