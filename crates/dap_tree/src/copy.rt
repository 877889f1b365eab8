//! Deep copies of trees.
ghost use Rattle.std.specs.Prelude.{◌≡◌, [], true, IfOk, IfErr, IsOk, string_bytes};
ghost use Rattle.dap_tree.specs.Doc.{has_fixed_size, is_empty};
ghost use Rattle.dap_tree.specs.View.{view, items_view, members_view};
ghost use Rattle.dap_tree.specs.declared.fault.TreeFault.{TreeFault};

use crate::{Tree, TreeFault};
use std::alloc::{AllocError, Global};
use std::collections::BTreeMap;

impl Tree {
    /// Returns an equal tree with its own memory. A copy of null, a boolean, a number, an empty
    /// string, an empty array or an empty object does not allocate.
    ///
    /// # Errors
    ///
    /// - `Memory`: an allocation failed.
    pub fn copy(&self, alloc: Global) -> Result<Tree, TreeFault>
        ensures equal { IfOk result (λ t. view t ≡ view self.now) }
        ensures memory { IfErr result (λ f. f ≡ TreeFault.Memory) }
        ensures fixed { has_fixed_size (view self.now) ≡ true → IsOk result }
        ensures empty { is_empty (view self.now) ≡ true → IsOk result }
    {
        Ok(copy_tree(alloc, self)?)
    }
}

#[cycle(copy_tree)]
fn copy_tree(alloc: Global, tree: &Tree) -> Result<Tree, AllocError>
    ensures equal { IfOk result (λ t. view t ≡ view tree.now) }
    ensures fixed { has_fixed_size (view tree.now) ≡ true → IsOk result }
    ensures empty { is_empty (view tree.now) ≡ true → IsOk result }
{
    match tree {
        Tree::Null => Ok(Tree::Null),
        Tree::Bool(b) => Ok(Tree::Bool(*b)),
        Tree::Whole(n) => Ok(Tree::Whole(*n)),
        Tree::Text(text) => Ok(Tree::Text(copy_text(alloc, text)?)),
        Tree::List(items) => Ok(Tree::List(copy_items(alloc, items)?)),
        Tree::Object(members) => Ok(Tree::Object(copy_members(alloc, members)?)),
        Tree::Id(sort, n) => Ok(Tree::Id(*sort, *n)),
    }
}

fn copy_text(alloc: Global, text: &String) -> Result<String, AllocError>
    ensures equal { IfOk result (λ s. string_bytes s ≡ string_bytes text.now) }
    ensures empty { string_bytes text.now ≡ [] → IsOk result }
{
    if text.is_empty() {
        return Ok(String::new(alloc));
    }
    text.clone()
}

#[cycle(copy_tree)]
fn copy_items(alloc: Global, items: &Vec<Tree>) -> Result<Vec<Tree>, AllocError>
    ensures equal { IfOk result (λ v. items_view v.items ≡ items_view items.now.items) }
    ensures empty { items.now.items ≡ [] → IsOk result }
{
    let mut copies = Vec::with_capacity(alloc, items.len())?;
    for item in items {
        copies.push(copy_tree(alloc, item)?)?;
    }
    Ok(copies)
}

#[cycle(copy_tree)]
fn copy_members(
    alloc: Global,
    members: &BTreeMap<String, Tree>,
) -> Result<BTreeMap<String, Tree>, AllocError>
    ensures equal { IfOk result (λ m. members_view m.entries ≡ members_view members.now.entries) }
    ensures empty { members.now.entries ≡ [] → IsOk result }
{
    let mut copies = BTreeMap::new(alloc);
    for (name, member) in members.iter() {
        let name = name.clone()?;
        drop(copies.insert(name, copy_tree(alloc, member)?)?);
    }
    Ok(copies)
}
