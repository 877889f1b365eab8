//! Writes a tree as compact JSON.
ghost use Rattle.std.specs.Prelude.{◌≡◌, ◌++◌, true, IfOk, IfErr, OnOk, OnErr, string_bytes};
ghost use Rattle.dap_tree.specs.Doc.{whole, in_range, all_in_range, items_in_range};
ghost use Rattle.dap_tree.specs.Doc.{members_in_range, is_sound};
ghost use Rattle.dap_tree.specs.Ids.{without_ids};
ghost use Rattle.dap_tree.specs.Json.{text_of, IsRead};
ghost use Rattle.dap_tree.specs.WrittenTokens.{WritesDoc, WritesItems, WritesMembers};
ghost use Rattle.dap_tree.specs.View.{view, items_view, members_view};
ghost use Rattle.dap_tree.specs.declared.fault.TreeFault.{TreeFault};

use crate::{Tree, TreeFault};
use json::Writer;
use std::alloc::{AllocError, Global};
use std::collections::BTreeMap;
use std::mem;

/// Writes a sound tree as compact JSON: without spaces, with members in the byte order of their
/// names, and with each id as its number.
///
/// # Errors
///
/// - `Memory`: an allocation failed.
pub fn write_tree(alloc: Global, tree: &Tree) -> Result<String, TreeFault>
    requires { is_sound (view tree.now) ≡ true }
    ensures text { IfOk result (λ s. string_bytes s ≡ text_of (view tree.now)) }
    ensures reads_back { IfOk result (λ s. IsRead (string_bytes s) (without_ids (view tree.now))) }
    ensures memory { IfErr result (λ f. f ≡ TreeFault.Memory) }
{
    let mut out = Writer::new(Vec::new(alloc));
    write(tree, &mut out)?;
    Ok(String::from_utf8(out.into_inner()).unwrap())
}

/// Appends the JSON text of a sound tree to `out`, the text that [`write_tree`] returns.
///
/// # Errors
///
/// - `Memory`: an allocation failed. The contents of `out` are unchanged; its capacity may have
///   grown.
pub fn write_tree_to(alloc: Global, tree: &Tree, out: &mut Vec<u8>) -> Result<(), TreeFault>
    requires { is_sound (view tree.now) ≡ true }
    ensures text { OnOk result (out.new.items ≡ out.old.items ++ text_of (view tree.now)) }
    ensures reads_back { OnOk result
        (IsRead (text_of (view tree.now)) (without_ids (view tree.now))) }
    ensures memory { IfErr result (λ f. f ≡ TreeFault.Memory) }
    ensures err { OnErr result (out.new.items ≡ out.old.items) }
{
    let len = out.len();
    let mut writer = Writer::new(mem::replace(out, Vec::new(alloc)));
    let written = write(tree, &mut writer);
    *out = writer.into_inner();
    if written.is_err() {
        out.truncate(len);
        return Err(TreeFault::Memory);
    }
    Ok(())
}

#[cycle(write)]
fn write(tree: &Tree, out: &mut Writer) -> Result<(), AllocError>
    requires { all_in_range (view tree.now) ≡ true }
    ensures ok { OnOk result (WritesDoc (view tree.now) out.old.tokens out.new.tokens) }
    ensures before { out.new.before ≡ out.old.before }
{
    match tree {
        Tree::Null => out.null(),
        Tree::Bool(b) => out.boolean(*b),
        Tree::Whole(n) => write_whole(*n, out),
        Tree::Text(text) => out.string(text.as_str()),
        Tree::List(items) => {
            out.begin_array()?;
            write_items(items, out)
        }
        Tree::Object(members) => {
            out.begin_object()?;
            write_members(members, out)
        }
        Tree::Id(_, n) => write_id(*n, out),
    }
}

fn write_whole(n: i128, out: &mut Writer) -> Result<(), AllocError>
    requires { in_range n ≡ true }
    ensures ok { OnOk result (WritesDoc (whole n) out.old.tokens out.new.tokens) }
    ensures before { out.new.before ≡ out.old.before }
{
    if n < 0 {
        out.i64(n as i64)
    } else {
        out.u64(n as u64)
    }
}

fn write_id(n: i64, out: &mut Writer) -> Result<(), AllocError>
    ensures ok { OnOk result (WritesDoc (whole n) out.old.tokens out.new.tokens) }
    ensures before { out.new.before ≡ out.old.before }
{
    out.i64(n)
}

#[cycle(write)]
fn write_items(items: &Vec<Tree>, out: &mut Writer) -> Result<(), AllocError>
    requires { items_in_range (items_view items.now.items) ≡ true }
    ensures ok { OnOk result
        (WritesItems (items_view items.now.items) out.old.tokens out.new.tokens) }
    ensures before { out.new.before ≡ out.old.before }
{
    for item in items {
        write(item, out)?;
    }
    out.end_array()
}

#[cycle(write)]
fn write_members(members: &BTreeMap<String, Tree>, out: &mut Writer) -> Result<(), AllocError>
    requires { members_in_range (members_view members.now.entries) ≡ true }
    ensures ok { OnOk result
        (WritesMembers (members_view members.now.entries) out.old.tokens out.new.tokens) }
    ensures before { out.new.before ≡ out.old.before }
{
    for (name, member) in members.iter() {
        out.key(name.as_str())?;
        write(member, out)?;
    }
    out.end_object()
}
