//! The nodes of a flat document.
ghost use Rattle.std.specs.Prelude.{◌≡◌, ◌<◌, length, slice_set};

use dap_tree::Sort;

/// One node of a document. A list and an object are a start, their parts and an end.
#[derive(Clone, Copy, Drop)]
pub enum Node<'a> {
    Null,
    Bool(bool),
    Unsigned(u64),
    Negative(i64),
    Text(&'a str),
    /// Starts a list, with the number of nodes between it and its end.
    List(usize),
    EndList,
    /// Starts an object, with the number of nodes between it and its end.
    Object(usize),
    EndObject,
    /// The name of a member. The nodes of its value come next.
    Name(&'a str),
    Id(Sort, i64),
}

#[inline(always)]
pub(crate) fn set_node<'a>(nodes: &mut Vec<Node<'a>>, at: usize, node: Node<'a>)
    requires { at < length nodes.old.items }
    ensures { nodes.new.items ≡ slice_set nodes.old.items at node.entry }
{
    nodes[at] = node;
}
