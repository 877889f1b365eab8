//! Whether a tree could have been read from a content.
ghost use Rattle.std.specs.Prelude.{◌≡◌};
ghost use Rattle.dap_tree.specs.Doc.{is_plain, has_id as holds_id, items_have_id as items_hold_id};
ghost use Rattle.dap_tree.specs.Doc.{members_have_id as members_hold_id};
ghost use Rattle.dap_tree.specs.View.{view, items_view, members_view};

use crate::Tree;
use std::collections::BTreeMap;

impl Tree {
    /// Returns whether the tree is sound and has no ids. Every tree that was read is plain.
    pub fn plain(&self) -> bool
        ensures { result ≡ is_plain (view self.now) }
    {
        self.sound() && !has_id(self)
    }
}

#[cycle(has_id)]
fn has_id(tree: &Tree) -> bool
    ensures { result ≡ holds_id (view tree.now) }
{
    match tree {
        Tree::Id(..) => true,
        Tree::List(items) => items_have_id(items),
        Tree::Object(members) => members_have_id(members),
        _ => false,
    }
}

#[cycle(has_id)]
fn items_have_id(items: &Vec<Tree>) -> bool
    ensures { result ≡ items_hold_id (items_view items.now.items) }
{
    for item in items {
        if has_id(item) {
            return true;
        }
    }
    false
}

#[cycle(has_id)]
fn members_have_id(members: &BTreeMap<String, Tree>) -> bool
    ensures { result ≡ members_hold_id (members_view members.now.entries) }
{
    for (_, member) in members.iter() {
        if has_id(member) {
            return true;
        }
    }
    false
}
