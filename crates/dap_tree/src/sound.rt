//! Whether a tree can be written and read back.
ghost use Rattle.std.specs.Prelude.{◌≡◌};
ghost use Rattle.dap_tree.specs.Doc.{in_range, is_sound, fits as fits_in};
ghost use Rattle.dap_tree.specs.Doc.{items_fit as items_fit_in, members_fit as members_fit_in};
ghost use Rattle.dap_tree.specs.View.{view, items_view, members_view};

use crate::Tree;
use std::collections::BTreeMap;

/// The maximum nesting depth of arrays and objects.
pub(crate) const MAX_DEPTH: u8 = 127;

impl Tree {
    /// Returns whether the tree can be written and read back.
    ///
    /// Arrays and objects nest at most 127 deep, where an empty one counts as one level, and each
    /// integer is from -2^63 to 2^64 - 1. An id always fits.
    pub fn sound(&self) -> bool
        ensures { result ≡ is_sound (view self.now) }
    {
        fits(self, MAX_DEPTH)
    }
}

#[cycle(fits)]
fn fits(tree: &Tree, levels: u8) -> bool
    ensures { result ≡ fits_in levels (view tree.now) }
{
    match tree {
        Tree::Null | Tree::Bool(_) | Tree::Text(_) | Tree::Id(..) => true,
        Tree::Whole(n) => is_in_range(*n),
        Tree::List(items) => levels > 0 && items_fit(items, levels - 1),
        Tree::Object(members) => levels > 0 && members_fit(members, levels - 1),
    }
}

fn is_in_range(n: i128) -> bool
    ensures { result ≡ in_range n }
{
    i64::MIN as i128 <= n && n <= u64::MAX as i128
}

#[cycle(fits)]
fn items_fit(items: &Vec<Tree>, levels: u8) -> bool
    ensures { result ≡ items_fit_in levels (items_view items.now.items) }
{
    for item in items {
        if !fits(item, levels) {
            return false;
        }
    }
    true
}

#[cycle(fits)]
fn members_fit(members: &BTreeMap<String, Tree>, levels: u8) -> bool
    ensures { result ≡ members_fit_in levels (members_view members.now.entries) }
{
    for (_, member) in members.iter() {
        if !fits(member, levels) {
            return false;
        }
    }
    true
}
