//! The joint names of the ids that rules declare.
ghost use Rattle.std.specs.Prelude.{◌≡◌, true};
ghost use Rattle.dap_mask.specs.Declarations.{declarations_of, are_declared};

use dap_compare::Which;
use dap_mask::Declaration;
use dap_naming::{JointNames, may_have_ids};
use dap_stored::StoredMessage;
use dap_tree::{Scratch, Tree, read_tree_with, write_tree_to};
use std::alloc::{AllocError, Global};

/// The maximum number of joint names of a label.
const MAX_NAMES: u64 = 2_147_483_647;

/// The declarations of a rules file, and the joint names of the ids that they declare.
#[derive(Drop)]
pub struct DeclaredNames<'d> {
    declarations: &'d [Declaration],
    names: JointNames,
    ghost declared: { are_declared (declarations_of declarations.now) ≡ true },
}

impl<'d> DeclaredNames<'d> {
    /// Returns the names of no id. Does not allocate.
    pub fn new(alloc: Global, declarations: &'d [Declaration]) -> DeclaredNames<'d>
        requires { are_declared (declarations_of declarations.now) ≡ true }
    {
        DeclaredNames {
            declarations,
            names: JointNames::new(alloc, MAX_NAMES),
        }
    }

    /// Returns whether a message may have declared ids. Does not allocate.
    pub fn may_be_in(&self, message: &StoredMessage<'_>) -> bool {
        may_have_ids(self.declarations, message, message.content())
    }

    /// Joins the declared ids of a message of A and of its counterpart in B.
    ///
    /// # Errors
    ///
    /// - `AllocError`: an allocation failed, or a label has 2,147,483,647 joint names.
    pub fn join(&mut self, alloc: Global, a: &Tree, b: &Tree) -> Result<(), AllocError> {
        self.names
            .join(alloc, self.declarations, a, b)
            .map_err(|_| AllocError)
    }

    /// Replaces each declared id of a message by its joint name.
    fn name(&mut self, alloc: Global, which: Which, tree: &mut Tree) -> Result<(), AllocError> {
        let named = match which {
            Which::A => self.names.name_a(alloc, self.declarations, tree),
            Which::B => self.names.name_b(alloc, self.declarations, tree),
        };
        named.map_err(|_| AllocError)
    }

    /// Returns the content of a message, with joint names in the place of its declared ids.
    ///
    /// # Errors
    ///
    /// Those of [`DeclaredNames::join`].
    pub fn named_content(
        &mut self,
        alloc: Global,
        which: Which,
        content: &[u8],
        scratch: &mut Scratch,
    ) -> Result<Vec<u8>, AllocError> {
        // The content of a message is sound, and stays so, so no other error is possible.
        let mut tree = read_tree_with(alloc, content, scratch).map_err(|_| AllocError)?;
        self.name(alloc, which, &mut tree)?;
        if !tree.sound() {
            return Err(AllocError);
        }
        let mut named = Vec::new(alloc);
        write_tree_to(alloc, &tree, &mut named).map_err(|_| AllocError)?;
        Ok(named)
    }
}
