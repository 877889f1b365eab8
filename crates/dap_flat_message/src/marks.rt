//! Marks the numbers of a flat message that are ids, in place.
ghost use Rattle.std.specs.Prelude.{◌≡◌, ◌<◌, ◌^◌, length, slice_set, slice_index_or, OnOk, pos};
ghost use Rattle.std.specs.Bool.{MatchBool};
ghost use Rattle.dap_tree.specs.Doc.{change_child, change_items};
ghost use Rattle.dap_message.specs.Marks.{edit, marked, is_id_of};
ghost use Rattle.dap_flat.specs.{declared.node.Node.Node, Pieces.{piece_of, end_list}};
ghost use Rattle.dap_flat_message.specs.Marking.{Edits, EditsItems, steps, marked_piece};

use dap_flat::{Node, Unclear, child, value_end};
use dap_tree::Sort;

/// One step of a path: to a member, or to each element.
#[derive(Clone, Copy, Drop)]
pub enum Step<'a> {
    Name(&'a str),
    Each,
}

/// Marks the numbers at a path in the document that starts at `at`.
#[cycle(mark_path)]
pub fn mark_path(
    nodes: &mut [Node<'_>],
    at: usize,
    path: &[Step<'_>],
    sort: Sort,
) -> Result<(), Unclear>
    ensures { OnOk result (Edits nodes.old nodes.new at (edit (steps path.now) (marked sort))) }
{
    match path {
        [] => make_id(nodes, at, sort),
        [step, rest @ ..] => match *step {
            Step::Name(name) => mark_below(nodes, at, name, rest, sort),
            Step::Each => mark_each(nodes, at, rest, sort),
        },
    }
}

#[cycle(mark_path)]
fn mark_below(
    nodes: &mut [Node<'_>],
    at: usize,
    name: &str,
    path: &[Step<'_>],
    sort: Sort,
) -> Result<(), Unclear>
    ensures { OnOk result (Edits nodes.old nodes.new at
        (change_child name.now (edit (steps path.now) (marked sort)))) }
{
    match child(nodes, at, name)? {
        Some(place) => mark_path(nodes, place, path, sort),
        None => Ok(()),
    }
}

/// Marks the numbers at a path in each item of a list.
#[cycle(mark_path)]
fn mark_each(
    nodes: &mut [Node<'_>],
    at: usize,
    path: &[Step<'_>],
    sort: Sort,
) -> Result<(), Unclear>
    ensures { OnOk result (Edits nodes.old nodes.new at
        (change_items (edit (steps path.now) (marked sort)))) }
{
    if at >= nodes.len() {
        return Err(Unclear);
    }
    match nodes[at] {
        Node::List(_) => mark_items(nodes, at + 1, path, sort),
        _ => Ok(()),
    }
}

#[cycle(mark_path)]
fn mark_items(
    nodes: &mut [Node<'_>],
    from: usize,
    path: &[Step<'_>],
    sort: Sort,
) -> Result<(), Unclear>
    ensures { OnOk result (EditsItems nodes.old nodes.new from
        (edit (steps path.now) (marked sort))) }
{
    let mut p = from;
    while p < nodes.len() {
        if is_end(nodes[p]) {
            return Ok(());
        }
        let end = value_end(nodes, p).ok_or(Unclear)?;
        mark_path(nodes, p, path, sort)?;
        p = end;
    }
    Err(Unclear)
}

fn is_end(node: Node<'_>) -> bool
    ensures { MatchBool result (piece_of node.entry ≡ end_list)
        (piece_of node.entry ≡ end_list → ⊥) }
{
    match node {
        Node::EndList => true,
        _ => false,
    }
}

fn make_id(nodes: &mut [Node<'_>], at: usize, sort: Sort) -> Result<(), Unclear>
    ensures { OnOk result (Edits nodes.old nodes.new at (marked sort)) }
{
    if at >= nodes.len() {
        return Err(Unclear);
    }
    nodes[at] = as_id(nodes[at], sort);
    Ok(())
}

fn as_id<'a>(node: Node<'a>, sort: Sort) -> Node<'a>
    ensures { piece_of result ≡ marked_piece sort (piece_of node.entry) }
{
    match node {
        Node::Unsigned(n) if may_be_id(sort, n) => Node::Id(sort, n as i64),
        Node::Negative(n) if is_number_of(sort, n) => Node::Id(sort, n),
        _ => node,
    }
}

fn may_be_id(sort: Sort, n: u64) -> bool
    ensures { result ≡ is_id_of sort (pos n) }
{
    let fits = n <= i64::MAX as u64;
    match sort {
        Sort::Reference => fits && n != 0,
        _ => fits,
    }
}

fn is_number_of(sort: Sort, n: i64) -> bool
    ensures { result ≡ is_id_of sort n }
{
    match sort {
        Sort::Reference => n != 0,
        _ => true,
    }
}
