//! The members of an object: looked up by name, borrowed and replaced.
ghost use Rattle.std.specs.Prelude.{◌≡◌, Some, None, String, option_map, IfOk, IfErr};
ghost use Rattle.std.specs.Borrow.{sem};
ghost use Rattle.std.specs.BTreeMap.{BTreeMap};
ghost use Rattle.std.specs.Fn.{FnOnceReturnsAtMut};
ghost use Rattle.std.specs.declared.alloc.Global.{Global};
ghost use Rattle.std.proofs.Common.{rules};
ghost use Rattle.dap_tree.specs.Doc.{Doc, object, get, change_child, as_object};
ghost use Rattle.dap_tree.specs.LentChildren.{ChangesBy, LendsChild, LendsChildOf, LendsMembers};
ghost use Rattle.dap_tree.specs.LentChildren.{LendsMembersOf};
ghost use Rattle.dap_tree.specs.View.{view, members_view};
ghost use Rattle.dap_tree.specs.declared.tree.Tree as tree;
ghost use Rattle.dap_tree.specs.declared.tree.Tree.{Tree, the_lemmas};

use crate::Tree;
use std::collections::BTreeMap;
use std::mem;

impl Tree {
    /// Returns the member of that name, or `None` if there is no such member or the tree is not an
    /// object.
    pub fn child(&self, name: &str) -> Option<&Tree>
        ensures { option_map (λ t. view t.now) result ≡ get name.now (view self.now) }
    {
        match self {
            Tree::Object(members) => members.get(name),
            _ => None,
        }
    }

    /// Returns a mutable reference to the member of that name.
    ///
    /// Returns `None` if there is no such member or the tree is not an object. The proof of a
    /// caller cannot use `writes_back`, because a tree is borrowed from a tree. If a proof depends
    /// on the tree after a write, call `set_child`, `with_child` or `members_mut` instead.
    pub fn child_mut(&mut self, name: &str) -> Option<&mut Tree>
        ensures* writes_back { sem 𝓛 (LendsChild self.entry name.now result) }
        ensures value { option_map (λ t. view t.now) result ≡ get name.now (view self.old) }
    {
        lend_child(self, name)
    }

    /// Returns a mutable reference to the members of an object, or `None` if the tree is not an
    /// object.
    pub fn members_mut(&mut self) -> Option<&mut BTreeMap<String, Tree>>
        ensures* writes_back { sem 𝓛 (LendsMembers self.entry result) }
        ensures value { option_map (λ m. members_view m.now.entries) result
            ≡ as_object (view self.old) }
    {
        if let Tree::Object(members) = self {
            Some(members)
        } else {
            None
        }
    }

    /// Replaces the member of that name and returns the old member.
    ///
    /// # Errors
    ///
    /// - The new tree: there is no such member, or the tree is not an object. Nothing is changed.
    pub fn set_child(&mut self, name: &str, tree: Tree) -> Result<Tree, Tree>
        ensures changed { view self.new ≡ change_child name.now (λ _. view tree) (view self.old) }
        ensures ok { IfOk result (λ old. get name.now (view self.old) ≡ Some (view old)) }
        ensures err { IfErr result
            (λ back. (get name.now (view self.old) ≡ None) × (back ≡ tree)) }
    {
        match self.members_mut() {
            None => Err(tree),
            Some(members) => match members.get_mut(name) {
                None => Err(tree),
                Some(member) => Ok(mem::replace(member, tree)),
            },
        }
    }

    /// Calls a function with a mutable reference to the member of that name, if it exists.
    ///
    /// Otherwise, changes nothing and does not call the function.
    pub fn with_child<F: FnOnce(&mut Tree)>(&mut self, name: &str, f: F)
        requires { F.IsAlwaysCallable f }
        ensures called { ChangesBy (λ t u. FnOnceReturnsAtMut F.FnOnce f t tt u) name.now
            (view self.old) (view self.new) }

        // If a change of documents describes the function, the tree is changed by it.
        ensures changed { (change : Doc → Doc)
            → ((t u : Tree) → FnOnceReturnsAtMut F.FnOnce f t tt u → view u ≡ change (view t))
            → view self.new ≡ change_child name.now change (view self.old) }
    {
        if let Some(members) = self.members_mut() {
            if let Some(member) = members.get_mut(name) {
                f(member);
            }
        }
    }
}

// A type that may have members. The borrow checker does not follow a tree borrowed from a tree, so
// `lend_child` borrows it from any type that implements this trait.
trait HasMembers {
    ghost document: { Self → Doc };

    ghost of_members: { BTreeMap (String Global) Tree → Self };

    fn lend_members(&mut self) -> Option<&mut BTreeMap<String, Tree>>
        ensures* writes_back { sem 𝓛 (LendsMembersOf Self.row of_members self.entry result) }
        ensures value { option_map (λ m. members_view m.now.entries) result
            ≡ as_object (document self.old) };

    ghost shows: { (m : BTreeMap (String Global) Tree)
        → document (of_members m) ≡ object (members_view m.entries) };
}

impl HasMembers for Tree {
    ghost document = { view };

    ghost of_members = { tree.Object };

    ghost shows = { λ m. Prim.search (rules, the_lemmas) };

    fn lend_members(&mut self) -> Option<&mut BTreeMap<String, Tree>> {
        self.members_mut()
    }
}

fn lend_child<'t, T: HasMembers>(tree: &'t mut T, name: &str) -> Option<&'t mut Tree>
    ensures* writes_back { sem 𝓛 (LendsChildOf T.row T.document tree.entry name.now result) }
    ensures value { option_map (λ t. view t.now) result ≡ get name.now (T.document tree.old) }
{
    match tree.lend_members() {
        Some(members) => members.get_mut(name),
        None => None,
    }
}
