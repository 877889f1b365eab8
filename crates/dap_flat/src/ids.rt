//! Lists the ids of a flat document, and replaces their numbers.
ghost use Rattle.std.specs.Prelude.{◌≡◌, ◌++◌, [], map, IsOk, OnOk, OnErr};
ghost use Rattle.dap_tree.specs.{Doc.Doc, Ids.{ids, with_ids, Extends}};
ghost use Rattle.dap_flat.specs.Pieces.{piece_of, Represents};
ghost use Rattle.dap_flat.specs.Ids.{ids_in, numbered, with_number, after_piece};

use crate::node::Node;
use dap_tree::Sort;
use std::alloc::AllocError;

/// Appends the ids of a document, in the order of its text. A document without ids does not
/// allocate.
///
/// After an error the items of `found` are unchanged; its capacity may have grown.
pub fn add_ids(nodes: &[Node<'_>], found: &mut Vec<(Sort, i64)>) -> Result<(), AllocError>
    ensures ok { OnOk result ((d : Doc) → Represents nodes.now d
        → found.new.items ≡ found.old.items ++ ids d) }
    ensures err { OnErr result (found.new.items ≡ found.old.items) }
    ensures none { (d : Doc) → Represents nodes.now d → ids d ≡ [] → IsOk result }
{
    let before = found.len();
    let listed = list_ids(nodes, found);
    if listed.is_err() {
        found.truncate(before);
    }
    listed
}

fn list_ids(nodes: &[Node<'_>], found: &mut Vec<(Sort, i64)>) -> Result<(), AllocError>
    ensures ok { OnOk result
        (found.new.items ≡ found.old.items ++ ids_in (map piece_of nodes.now)) }
    ensures err { OnErr result (Extends found.old.items found.new.items) }
    ensures none { ids_in (map piece_of nodes.now) ≡ [] → IsOk result }
{
    for node in nodes {
        if let Node::Id(sort, n) = *node {
            found.push((sort, n))?;
        }
    }
    Ok(())
}

/// Replaces the numbers of a document's ids, in the order of its text. An id after the last number
/// keeps its own. Does not allocate.
pub fn replace_ids(nodes: &mut [Node<'_>], numbers: &[i64])
    ensures { (d : Doc) → Represents nodes.old d → Represents nodes.new (with_ids d numbers.now) }
{
    number_ids(nodes, numbers);
}

fn number_ids(nodes: &mut [Node<'_>], numbers: &[i64])
    ensures { map piece_of nodes.new ≡ numbered (map piece_of nodes.old) numbers.now }
{
    let mut rest = numbers;
    for node in nodes.iter_mut() {
        rest = number_node(node, rest);
    }
}

#[inline(always)]
fn number_node<'n>(node: &mut Node<'_>, numbers: &'n [i64]) -> &'n [i64]
    ensures put { piece_of node.new ≡ with_number (piece_of node.old) numbers.now }
    ensures rest { result.now ≡ after_piece (piece_of node.old) numbers.now }
{
    let Node::Id(_, n) = node else {
        return numbers;
    };
    match numbers {
        [] => numbers,
        [first, rest @ ..] => {
            *n = *first;
            rest
        }
    }
}
