//! Writes a flat document as compact JSON.
ghost use Rattle.std.specs.Prelude.{◌≡◌, ◌++◌, OnOk, OnErr};
ghost use Rattle.dap_tree.specs.{Doc.Doc, Json.text_of};
ghost use Rattle.dap_flat.specs.{Pieces.Represents, Writing.{node_tokens, tokens_of}};

use crate::node::Node;
use json::Writer;
use std::alloc::{AllocError, Global};
use std::mem;

/// Appends the compact text of a document. The text has no spaces, and an id is its number.
///
/// After an error the bytes of `out` are unchanged; its capacity may have grown.
pub fn write_flat(alloc: Global, nodes: &[Node<'_>], out: &mut Vec<u8>) -> Result<(), AllocError>
    ensures text { OnOk result ((d : Doc) → Represents nodes.now d
        → out.new.items ≡ out.old.items ++ text_of d) }
    ensures err { OnErr result (out.new.items ≡ out.old.items) }
{
    let len = out.len();
    let mut writer = Writer::new(mem::replace(out, Vec::new(alloc)));
    let written = write_nodes(nodes, &mut writer);
    *out = writer.into_inner();
    if written.is_err() {
        out.truncate(len);
    }
    written
}

fn write_nodes(nodes: &[Node<'_>], out: &mut Writer) -> Result<(), AllocError>
    ensures ok { OnOk result (out.new.tokens ≡ out.old.tokens ++ tokens_of nodes.now) }
    ensures before { out.new.before ≡ out.old.before }
{
    for node in nodes {
        write_node(node, out)?;
    }
    Ok(())
}

#[inline(always)]
fn write_node(node: &Node<'_>, out: &mut Writer) -> Result<(), AllocError>
    ensures ok { OnOk result (out.new.tokens ≡ out.old.tokens ++ node_tokens node.now) }
    ensures before { out.new.before ≡ out.old.before }
{
    match *node {
        Node::Null => out.null(),
        Node::Bool(b) => out.boolean(b),
        Node::Unsigned(n) => out.u64(n),
        Node::Negative(n) => out.i64(n),
        Node::Text(text) => out.string(text),
        Node::List(_) => out.begin_array(),
        Node::EndList => out.end_array(),
        Node::Object(_) => out.begin_object(),
        Node::EndObject => out.end_object(),
        Node::Name(name) => out.key(name),
        Node::Id(_, n) => out.i64(n),
    }
}
