//! Formats the leaves of a document, one line each.
ghost use Rattle.std.specs.Prelude.{◌≡◌, ◌+◌, ◌^◌, ◌<◌, ◌≤◌, ◌++◌, [], length, IfOk, OnOk};
ghost use Rattle.std.specs.Prelude.{option_map};
ghost use Rattle.dap_difference.specs.{Lines.step_text, Shown.step_of};
ghost use Rattle.dap_flat.specs.Pieces.{Represents, piece_of};
ghost use Rattle.dap_flat_message.specs.Judging.{top_of};
ghost use Rattle.dap_show.specs.Leaves.{AreLeaves, Lengthens, leaf_lines, line_of, printed_path};
ghost use Rattle.dap_show.specs.LeafWalk.{PushesDocument, PushesParts, inside_of, part_from};
ghost use Rattle.dap_show.specs.Showing.{in_quotes};
ghost use Rattle.dap_tree.specs.{Doc.Doc, Json.{IsRead, text_of}};

use crate::message_lines::{Appended, push_number};
use dap_difference::{Step, push_path};
use dap_flat::{Node, nodes_of, write_flat};
use dap_tree::{Scratch, TreeFault, read_tree_with};
use std::alloc::{AllocError, Global};

/// Buffers that are reused for each content.
#[derive(Drop)]
pub(crate) struct Buffers {
    alloc: Global,
    /// The steps of the current path, each with its dot or brackets.
    path: Vec<u8>,
    /// The text of one string.
    quoted: Vec<u8>,
    /// The detail lines of one record.
    pub(crate) lines: Vec<u8>,
}

impl Buffers {
    /// Creates empty buffers. Does not allocate.
    pub(crate) fn new(alloc: Global) -> Buffers {
        Buffers {
            alloc,
            path: Vec::new(alloc),
            quoted: Vec::new(alloc),
            lines: Vec::new(alloc),
        }
    }

    /// Replaces the lines by those of the leaves of a content that is JSON.
    pub(crate) fn read_leaves(
        &mut self,
        content: &[u8],
        limit: u64,
        scratch: &mut Scratch,
    ) -> Result<(), AllocError>
        requires { (d : Doc) × IsRead content.now d }
        ensures { OnOk result (AreLeaves limit content.now self.new.lines.items) }
    {
        match read_tree_with(self.alloc, content, scratch) {
            Ok(tree) => {
                let mut nodes = Vec::new(self.alloc);
                nodes_of(&tree, &mut nodes)?;
                self.write_leaves(&nodes, limit)
            }
            Err(TreeFault::Memory) => Err(AllocError),
            Err(TreeFault::Json) => unreachable!(),
            Err(TreeFault::Fraction) => unreachable!(),
        }
    }

    /// Replaces the lines by those of the leaves of the document that the nodes represent. Stops
    /// after the first lines that together exceed the limit.
    pub(crate) fn write_leaves(&mut self, nodes: &[Node<'_>], limit: u64) -> Result<(), AllocError>
        ensures { OnOk result ((d : Doc) → Represents nodes.now d
            → Lengthens limit [] self.new.lines.items (leaf_lines [] d)) }
    {
        self.path.clear();
        self.lines.clear();
        self.push_document(nodes, 0, limit)?;
        Ok(())
    }

    /// Appends the lines of the leaves of the document that starts at `at`, and returns the place
    /// after it. Leaves the path unchanged.
    #[cycle(push_leaves)]
    fn push_document(
        &mut self,
        nodes: &[Node<'_>],
        at: usize,
        limit: u64,
    ) -> Result<usize, AllocError>
        ensures lines { IfOk result (PushesDocument limit nodes.now at self.old.path.items
            self.old.lines.items self.new.lines.items) }
        ensures path { OnOk result (self.new.path.items ≡ self.old.path.items) }
        ensures end { IfOk result (λ end. (at ≤ end) × (at < length nodes.now → at < end)) }
    {
        if at >= nodes.len() {
            return Ok(at);
        }
        match inside_of(&nodes[at]) {
            None => {
                self.push_leaf(&nodes[at], limit)?;
                Ok(at + 1)
            }
            Some(0) => {
                self.push_leaf(&nodes[at], limit)?;
                Ok(at + 2)
            }
            Some(_) => self.push_parts(nodes, at + 1, limit),
        }
    }

    /// Appends the lines of the leaves of the elements or members that start at `from`, and returns
    /// the place after the end of their array or object.
    #[cycle(push_leaves)]
    fn push_parts(
        &mut self,
        nodes: &[Node<'_>],
        from: usize,
        limit: u64,
    ) -> Result<usize, AllocError>
        ensures lines { IfOk result (PushesParts limit nodes.now from self.old.path.items
            self.old.lines.items self.new.lines.items) }
        ensures path { OnOk result (self.new.path.items ≡ self.old.path.items) }
        ensures end { IfOk result (λ end. from ≤ end) }
    {
        let len = self.path.len();
        let mut p = from;
        let mut index = 0;
        while p < nodes.len() {
            let Some((step, start)) = part_at(&nodes[p], p, index) else {
                return Ok(p + 1);
            };
            push_step(self.alloc, step, &mut self.path)?;
            let end = self.push_document(nodes, start, limit)?;
            self.path.truncate(len);
            index += 1;
            p = end;
        }
        Ok(p)
    }

    /// Appends the line of a leaf, unless the lines exceed the limit already.
    fn push_leaf(&mut self, node: &Node<'_>, limit: u64) -> Result<(), AllocError>
        ensures lines { OnOk result (Lengthens limit self.old.lines.items self.new.lines.items
            (line_of self.old.path.items (top_of (piece_of node.now)))) }
        ensures path { self.new.path.items ≡ self.old.path.items }
    {
        if limit < self.lines.len() as u64 {
            return Ok(());
        }
        self.push_line(node)
    }

    /// Appends the line of a leaf.
    fn push_line(&mut self, node: &Node<'_>) -> Result<(), AllocError>
        ensures lines { OnOk result (self.new.lines.items ≡ self.old.lines.items
            ++ line_of self.old.path.items (top_of (piece_of node.now))) }
        ensures path { self.new.path.items ≡ self.old.path.items }
    {
        self.lines.extend_from_slice(b"  ")?;
        self.lines.extend_from_slice(printed(&self.path))?;
        self.lines.extend_from_slice(b" ")?;
        push_scalar(self.alloc, node, &mut self.quoted, &mut self.lines)?;
        self.lines.extend_from_slice(b"\n")
    }
}

/// Returns the number of nodes inside an array or object that starts with the node, or `None` for a
/// leaf.
fn inside_of(node: &Node<'_>) -> Option<usize>
    ensures { result ≡ inside_of (piece_of node.now) }
{
    match *node {
        Node::List(inside) | Node::Object(inside) => Some(inside),
        _ => None,
    }
}

/// Returns the step to the part that starts with the node at `at`, and the first place of its
/// document. Returns `None` for the end of an array or object.
fn part_at<'a>(node: &Node<'a>, at: usize, index: usize) -> Option<(Step<'a>, usize)>
    requires { at + 1 < 2 ^ 64 }
    ensures { option_map (λ part. (step_of part.0, part.1)) result
        ≡ part_from at index (piece_of node.now) }
{
    match *node {
        Node::EndList | Node::EndObject => None,
        Node::Name(name) => Some((Step::Member(name), at + 1)),
        _ => Some((Step::Item(index), at)),
    }
}

/// Appends a step to the text of a path.
fn push_step(alloc: Global, step: Step<'_>, path: &mut Vec<u8>) -> Result<(), AllocError>
    ensures { OnOk result (path.new.items ≡ path.old.items ++ step_text (step_of step.entry)) }
{
    match step {
        Step::Member(_) => {
            path.extend_from_slice(b".")?;
            push_path(alloc, &[step], path)
        }
        Step::Item(_) => push_path(alloc, &[step], path),
    }
}

/// Returns a path as it is printed: without the dot of its first step. The path of the entire
/// document is `.`.
fn printed(path: &[u8]) -> &[u8]
    ensures { result.now ≡ printed_path path.now }
{
    match path {
        [] => b".",
        [first, rest @ ..] => { if *first == b'.' { rest } else { path } }
    }
}

/// Appends the text of a scalar, or of an empty list or object.
fn push_scalar(alloc: Global, node: &Node<'_>, quoted: &mut Vec<u8>, out: &mut Vec<u8>) -> Appended
    ensures { OnOk result
        (out.new.items ≡ out.old.items ++ text_of (top_of (piece_of node.now))) }
{
    match *node {
        Node::Bool(true) => out.extend_from_slice(b"true"),
        Node::Bool(false) => out.extend_from_slice(b"false"),
        Node::Unsigned(number) => push_number(out, "", number),
        Node::Negative(number) => push_number(out, "", number),
        Node::Id(_, number) => push_number(out, "", number),
        Node::Text(text) => push_text(alloc, text, quoted, out),
        Node::List(_) => out.extend_from_slice(b"[]"),
        Node::Object(_) => out.extend_from_slice(b"{}"),
        Node::Null | Node::EndList | Node::EndObject | Node::Name(_) => {
            out.extend_from_slice(b"null")
        }
    }
}

/// Appends a string as JSON, in quotes. The writer of `json` initializes a part of its buffer ahead
/// that grows with the text before, so it does not write to the output.
fn push_text(alloc: Global, text: &str, quoted: &mut Vec<u8>, out: &mut Vec<u8>) -> Appended
    ensures { OnOk result (out.new.items ≡ out.old.items ++ in_quotes text.now) }
{
    quoted.clear();
    write_flat(alloc, &[Node::Text(text)], quoted)?;
    out.extend_from_slice(quoted.as_slice())
}
