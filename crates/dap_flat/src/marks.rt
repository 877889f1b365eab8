//! Writes a flat document and the places of its ids.
ghost use Rattle.std.specs.Prelude.{◌≡◌, ◌+◌, ◌++◌, [], false, IfOk, OnOk, OnErr};
ghost use Rattle.dap_tree.specs.Doc.{Doc};
ghost use Rattle.dap_flat.specs.Lengths.{node_length};
ghost use Rattle.dap_flat.specs.Marks.{AppendsMarked, Extends, node_marks, nodes_marks};
ghost use Rattle.dap_flat.specs.Pieces.{Represents};

use crate::digits::signed_length;
use crate::lengths::{ends_value, spend_node};
use crate::node::Node;
use crate::write::write_flat;
use dap_tree::Sort;
use std::alloc::{AllocError, Global};

/// An id of a text: its place, which is that of its first digit, its kind and its number.
#[derive(Clone, Copy, Drop)]
pub struct Mark {
    /// The number of bytes before the first digit or the sign.
    pub at: usize,
    pub sort: Sort,
    pub number: i64,
}

/// Appends the compact text of a document, as [`write_flat`](crate::write_flat) does, and a mark
/// for each id. The places are counted from the start of the appended text.
///
/// After an error the items of `out` and `marks` are unchanged; their capacities may have grown.
pub fn write_marked(
    alloc: Global,
    nodes: &[Node<'_>],
    out: &mut Vec<u8>,
    marks: &mut Vec<Mark>,
) -> Result<(), AllocError>
    ensures ok { OnOk result ((d : Doc) → Represents nodes.now d
        → AppendsMarked out.old.items out.new.items marks.old.items marks.new.items d) }
    ensures text_kept { OnErr result (out.new.items ≡ out.old.items) }
    ensures marks_kept { OnErr result (marks.new.items ≡ marks.old.items) }
{
    let first = marks.len();
    let written = append_marked(alloc, nodes, out, marks);
    if written.is_err() {
        marks.truncate(first);
    }
    written
}

/// Appends the text and the marks. After an error, some marks may have been appended.
fn append_marked(
    alloc: Global,
    nodes: &[Node<'_>],
    out: &mut Vec<u8>,
    marks: &mut Vec<Mark>,
) -> Result<(), AllocError>
    ensures ok { OnOk result ((d : Doc) → Represents nodes.now d
        → AppendsMarked out.old.items out.new.items marks.old.items marks.new.items d) }
    ensures text_kept { OnErr result (out.new.items ≡ out.old.items) }
    ensures marks_more { OnErr result (Extends marks.old.items marks.new.items) }
{
    mark_nodes(nodes, marks)?;
    write_flat(alloc, nodes, out)
}

/// Appends a mark for each id. After an error, some may have been appended.
#[tactic(auto, using(crate::proofs::Marked::extends_more))]
fn mark_nodes(nodes: &[Node<'_>], marks: &mut Vec<Mark>) -> Result<(), AllocError>
    ensures ok { OnOk result
        (marks.new.items ≡ marks.old.items ++ nodes_marks 0 false nodes.now) }
    ensures err { OnErr result (Extends marks.old.items marks.new.items) }
{
    let mut at = 0;
    let mut comes = false;
    for node in nodes {
        at = mark_node(at, node, comes, marks)?;
        comes = ends_value(node);
    }
    Ok(())
}

/// Appends the mark of a node that is an id. Returns the place after the node's text.
#[inline(always)]
fn mark_node(
    at: usize,
    node: &Node<'_>,
    comes: bool,
    marks: &mut Vec<Mark>,
) -> Result<usize, AllocError>
    ensures end { IfOk result (λ end. end ≡ at + node_length comes [] node.now) }
    ensures ok { OnOk result
        (marks.new.items ≡ marks.old.items ++ node_marks at comes node.now) }
    ensures err { OnErr result (marks.new.items ≡ marks.old.items) }
{
    let end = end_of(at, node, comes)?;
    if let Node::Id(sort, number) = *node {
        let at = end - signed_length(number);
        marks.push(Mark { at, sort, number })?;
    }
    Ok(end)
}

/// Returns the place after a node's text, or an error if no text is so long.
#[inline(always)]
fn end_of(at: usize, node: &Node<'_>, comes: bool) -> Result<usize, AllocError>
    ensures { IfOk result (λ end. end ≡ at + node_length comes [] node.now) }
{
    match spend_node(usize::MAX - at, node, comes, &[]) {
        Some(left) => Ok(usize::MAX - left),
        None => Err(AllocError),
    }
}
