//! The nodes of a tree.
ghost use Rattle.std.specs.Prelude.{◌≡◌, [], ◌∷◌, true, OnOk};
ghost use Rattle.dap_tree.specs.Doc.{all_in_range, in_range, items_in_range, members_in_range};
ghost use Rattle.dap_tree.specs.{Doc.{list, object, whole}, View.{view, items_view, members_view}};
ghost use Rattle.dap_flat.specs.Pieces.{Appends, leaf, piece_of, pieces};

use crate::node::{Node, set_node};
use dap_tree::Tree;
use std::alloc::AllocError;
use std::collections::BTreeMap;

/// Appends the nodes of the document that a tree represents, whose integers are from -2^63 to
/// 2^64 - 1. The nodes borrow the strings of the tree.
///
/// After an error the items of `nodes` are unspecified.
#[cycle(nodes_of)]
pub fn nodes_of<'a>(tree: &'a Tree, nodes: &mut Vec<Node<'a>>) -> Result<(), AllocError>
    requires { all_in_range (view tree.now) ≡ true }
    ensures { OnOk result (Appends nodes.old.items nodes.new.items (pieces (view tree.now))) }
{
    match tree {
        Tree::Null => add_node(nodes, Node::Null),
        Tree::Bool(value) => add_node(nodes, Node::Bool(*value)),
        Tree::Whole(number) => add_node(nodes, whole_node(*number)),
        Tree::Text(text) => add_node(nodes, Node::Text(text.as_str())),
        Tree::List(items) => list_nodes(items, nodes),
        Tree::Object(members) => object_nodes(members, nodes),
        Tree::Id(sort, number) => add_node(nodes, Node::Id(*sort, *number)),
    }
}

#[cycle(nodes_of)]
fn list_nodes<'a>(items: &'a Vec<Tree>, nodes: &mut Vec<Node<'a>>) -> Result<(), AllocError>
    requires { items_in_range (items_view items.now.items) ≡ true }
    ensures { OnOk result (Appends nodes.old.items nodes.new.items
        (pieces (list (items_view items.now.items)))) }
{
    let at = nodes.len();
    nodes.push(Node::List(0))?;
    for item in items {
        nodes_of(item, nodes)?;
    }
    let inside = nodes.len() - at - 1;
    set_node(nodes, at, Node::List(inside));
    nodes.push(Node::EndList)?;
    Ok(())
}

#[cycle(nodes_of)]
fn object_nodes<'a>(
    members: &'a BTreeMap<String, Tree>,
    nodes: &mut Vec<Node<'a>>,
) -> Result<(), AllocError>
    requires { members_in_range (members_view members.now.entries) ≡ true }
    ensures { OnOk result (Appends nodes.old.items nodes.new.items
        (pieces (object (members_view members.now.entries)))) }
{
    let at = nodes.len();
    nodes.push(Node::Object(0))?;
    for (name, member) in members.iter() {
        nodes.push(Node::Name(name.as_str()))?;
        nodes_of(member, nodes)?;
    }
    let inside = nodes.len() - at - 1;
    set_node(nodes, at, Node::Object(inside));
    nodes.push(Node::EndObject)?;
    Ok(())
}

fn add_node<'a>(nodes: &mut Vec<Node<'a>>, node: Node<'a>) -> Result<(), AllocError>
    ensures { OnOk result
        (Appends nodes.old.items nodes.new.items (piece_of node.entry ∷ [])) }
{
    nodes.push(node)?;
    Ok(())
}

fn whole_node<'a>(number: i128) -> Node<'a>
    requires { in_range number ≡ true }
    ensures { piece_of result ≡ leaf (whole number) }
{
    if number < 0 {
        Node::Negative(number as i64)
    } else {
        Node::Unsigned(number as u64)
    }
}
