//! Writes the canonical text of a content. It is read as a flat document if possible, and as a tree
//! otherwise.
ghost use Rattle.std.specs.Prelude.{◌≡◌, ◌<◌, ◌++◌, length, OnOk, OnErr, IfErr, IsErrOf};
ghost use Rattle.dap_tree.specs.Json.{ExplainsText};
ghost use Rattle.dap_flat.specs.Canonical.{AppendsCanonical};

use crate::parse::read_flat;
use crate::unread::Unread;
use crate::write::write_flat;
use dap_tree::{TreeFault, read_tree_with, write_tree_to};
use json::Scratch;
use std::alloc::Global;

/// Appends the canonical text of a content: compact JSON with the members in the order of their
/// names.
///
/// After an error the bytes of `out` are unchanged; its capacity may have grown.
///
/// # Errors
///
/// Those of [`read_tree_with`]: the content is not JSON, it has a number that is not an integer, or
/// an allocation failed, which is possible only for a content that is not empty.
pub fn append_canonical(
    alloc: Global,
    content: &[u8],
    scratch: &mut Scratch,
    out: &mut Vec<u8>,
) -> Result<(), TreeFault>
    ensures text { OnOk result (AppendsCanonical content.now out.old.items out.new.items) }
    ensures err { IfErr result (ExplainsText content.now) }
    ensures memory { IsErrOf result TreeFault.Memory → 0 < length content.now }
    ensures kept { OnErr result (out.new.items ≡ out.old.items) }
{
    match append_flat(alloc, content, scratch, out) {
        Ok(()) => Ok(()),
        Err(Unread::Memory) => Err(TreeFault::Memory),
        Err(Unread::Unclear) => append_tree(alloc, content, scratch, out),
    }
}

fn append_flat(
    alloc: Global,
    content: &[u8],
    scratch: &mut Scratch,
    out: &mut Vec<u8>,
) -> Result<(), Unread>
    ensures text { OnOk result (AppendsCanonical content.now out.old.items out.new.items) }
    ensures memory { IsErrOf result Unread.Memory → 0 < length content.now }
    ensures kept { OnErr result (out.new.items ≡ out.old.items) }
{
    if content.is_empty() {
        return Err(Unread::Unclear);
    }
    let room = Vec::with_capacity(alloc, content.len() / 8 + 8)?;
    let nodes = read_flat(content, scratch, room)?;
    write_flat(alloc, nodes.as_slice(), out)?;
    Ok(())
}

#[tactic(auto, using(crate::proofs::SomeContents::some_content))]
fn append_tree(
    alloc: Global,
    content: &[u8],
    scratch: &mut Scratch,
    out: &mut Vec<u8>,
) -> Result<(), TreeFault>
    ensures text { OnOk result (AppendsCanonical content.now out.old.items out.new.items) }
    ensures err { IfErr result (ExplainsText content.now) }
    ensures memory { IsErrOf result TreeFault.Memory → 0 < length content.now }
    ensures kept { OnErr result (out.new.items ≡ out.old.items) }
{
    let tree = read_tree_with(alloc, content, scratch)?;
    write_tree_to(alloc, &tree, out)
}
