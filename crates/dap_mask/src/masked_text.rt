//! Writes the canonical texts of masked contents.
ghost use Rattle.std.specs.Prelude.{◌≡◌, IfErr, IfOk, OnErr};
ghost use Rattle.dap_mask.specs.{FlatMasking.AddsMasked, KeptRules.mask_of, Loose.ExplainsMasked};

use crate::flat_masking::read_masked_flat;
use crate::loose::read_masked;
use crate::mask_rules::MaskRules;
use bumpalo::Bump;
use dap_flat::{Unread, write_flat};
use dap_tree::{Scratch, TreeFault, write_tree_to};
use std::alloc::Global;

/// The number of bytes per node that most contents have at least. It is an estimate, which only
/// affects how often the vector of nodes is reallocated.
const BYTES_A_NODE: usize = 8;

/// Appends the canonical text of a content that the rules mask, as [`read_masked`] reads it. Reuses
/// the buffers in `scratch` between calls. Returns `false` for an event that the rules drop.
///
/// # Errors
///
/// Those of [`read_masked`]. The items of `out` are unchanged.
pub fn write_masked(
    alloc: Global,
    content: &[u8],
    rules: &MaskRules,
    scratch: &mut Scratch,
    out: &mut Vec<u8>,
) -> Result<bool, TreeFault>
    ensures ok { IfOk result (λ kept. AddsMasked (mask_of rules.now) content.now kept
        out.old.items out.new.items) }
    ensures err { IfErr result (ExplainsMasked (mask_of rules.now) content.now) }
    ensures kept { OnErr result (out.new.items ≡ out.old.items) }
{
    match write_masked_flat(alloc, content, rules, scratch, out) {
        Ok(kept) => Ok(kept),
        Err(Unread::Memory) => Err(TreeFault::Memory),
        Err(Unread::Unclear) => write_masked_tree(alloc, content, rules, scratch, out),
    }
}

/// Does the same for a content that can be masked as a flat document.
fn write_masked_flat(
    alloc: Global,
    content: &[u8],
    rules: &MaskRules,
    scratch: &mut Scratch,
    out: &mut Vec<u8>,
) -> Result<bool, Unread>
    ensures ok { IfOk result (λ kept. AddsMasked (mask_of rules.now) content.now kept
        out.old.items out.new.items) }
    ensures kept { OnErr result (out.new.items ≡ out.old.items) }
{
    let arena = Bump::new(alloc);
    let nodes = Vec::with_capacity(alloc, content.len() / BYTES_A_NODE + 8)?;
    let Some(nodes) = read_masked_flat(content, rules, scratch, &arena, nodes)? else {
        return Ok(false);
    };
    write_flat(alloc, &nodes, out)?;
    Ok(true)
}

/// Does the same for any content.
fn write_masked_tree(
    alloc: Global,
    content: &[u8],
    rules: &MaskRules,
    scratch: &mut Scratch,
    out: &mut Vec<u8>,
) -> Result<bool, TreeFault>
    ensures ok { IfOk result (λ kept. AddsMasked (mask_of rules.now) content.now kept
        out.old.items out.new.items) }
    ensures err { IfErr result (ExplainsMasked (mask_of rules.now) content.now) }
    ensures kept { OnErr result (out.new.items ≡ out.old.items) }
{
    let Some(tree) = read_masked(alloc, content, rules, scratch)? else {
        return Ok(false);
    };
    match write_tree_to(alloc, &tree, out) {
        Ok(()) => Ok(true),
        Err(_) => Err(TreeFault::Memory),
    }
}
