//! Counts the bytes of a flat document's compact text without writing it.
ghost use Rattle.std.specs.Prelude.{◌≡◌, ◌≤◌, false, length, nat_lt, slice_index_or};
ghost use Rattle.json.specs.Print.{escape, escape_byte, escape_letter};
ghost use Rattle.dap_tree.specs.{Doc.Doc, Ids.with_ids, Json.text_of};
ghost use Rattle.dap_flat.specs.Ids.{after_piece};
ghost use Rattle.dap_flat.specs.Lengths.{IsLengthWithin, Spends, comma_length, ends_value};
ghost use Rattle.dap_flat.specs.Lengths.{node_length, nodes_length};
ghost use Rattle.dap_flat.specs.Pieces.{piece_of, Represents};

use crate::digits::{digit_count, signed_length};
use crate::node::Node;
use crate::plain::is_plain;

/// Returns the length of the compact text of a document, in which the i-th id has the i-th number,
/// or `None` if it is above the limit. It is the length of what [`write_flat`](crate::write_flat)
/// appends after [`replace_ids`](crate::replace_ids). Does not allocate.
pub fn length_within(nodes: &[Node<'_>], numbers: &[i64], limit: usize) -> Option<usize>
    ensures { (d : Doc) → Represents nodes.now d
        → IsLengthWithin limit (text_of (with_ids d numbers.now)) result }
{
    match spend_nodes(limit, nodes, numbers) {
        Some(left) => Some(limit - left),
        None => None,
    }
}

/// Subtracts the length of the nodes' text. Returns `None` if fewer bytes are left.
fn spend_nodes(limit: usize, nodes: &[Node<'_>], numbers: &[i64]) -> Option<usize>
    ensures { Spends limit (nodes_length false numbers.now nodes.now) result }
{
    let mut left = limit;
    let mut comes = false;
    let mut rest = numbers;
    for node in nodes {
        left = spend_node(left, node, comes, rest)?;
        comes = ends_value(node);
        rest = after_node(node, rest);
    }
    Some(left)
}

/// Subtracts the length of a node and of the comma before it.
#[inline(always)]
pub(crate) fn spend_node(
    left: usize,
    node: &Node<'_>,
    comes: bool,
    numbers: &[i64],
) -> Option<usize>
    ensures { Spends left (node_length comes numbers.now node.now) result }
{
    let comma = comma_length(comes);
    match *node {
        Node::Null | Node::Bool(true) => left.checked_sub(comma + 4),
        Node::Bool(false) => left.checked_sub(comma + 5),
        Node::Unsigned(n) => left.checked_sub(comma + digit_count(n)),
        Node::Negative(n) => left.checked_sub(comma + signed_length(n)),
        Node::Text(text) => spend_escaped(left.checked_sub(comma + 2)?, text.as_bytes()),
        Node::List(_) | Node::Object(_) => left.checked_sub(comma + 1),
        Node::EndList | Node::EndObject => left.checked_sub(1),
        Node::Name(name) => spend_escaped(left.checked_sub(comma + 3)?, name.as_bytes()),
        Node::Id(_, n) => left.checked_sub(comma + signed_length(first_number(numbers, n))),
    }
}

#[inline(always)]
fn comma_length(comes: bool) -> usize
    ensures len { result ≡ comma_length comes }
    ensures few { result ≤ 1 }
{
    if comes { 1 } else { 0 }
}

/// Returns whether a value ends with this node.
#[inline(always)]
pub(crate) fn ends_value(node: &Node<'_>) -> bool
    ensures { result ≡ ends_value node.now }
{
    !matches!(*node, Node::List(_) | Node::Object(_) | Node::Name(_))
}

/// Returns the numbers of the ids after this node.
#[inline(always)]
fn after_node<'n>(node: &Node<'_>, numbers: &'n [i64]) -> &'n [i64]
    ensures { result.now ≡ after_piece (piece_of node.now) numbers.now }
{
    let Node::Id(_, _) = *node else {
        return numbers;
    };
    match numbers {
        [] => numbers,
        [_, rest @ ..] => rest,
    }
}

/// Returns the number of the next id: `n` if there is none for it.
#[inline(always)]
pub(crate) fn first_number(numbers: &[i64], n: i64) -> i64
    ensures { result ≡ slice_index_or numbers.now 0 n }
{
    match numbers {
        [] => n,
        [first, ..] => *first,
    }
}

/// Subtracts the length of a text with its escapes.
#[inline(always)]
fn spend_escaped(left: usize, text: &[u8]) -> Option<usize>
    ensures { Spends left (length (escape text.now)) result }
{
    if is_plain(text) {
        return left.checked_sub(text.len());
    }
    spend_escapes(left, text)
}

/// Subtracts the length of a text with escapes, eight bytes at a time: most of them have none.
#[inline(never)]
fn spend_escapes(left: usize, text: &[u8]) -> Option<usize>
    ensures { Spends left (length (escape text.now)) result }
{
    let mut left = left;
    let mut rest = text;
    while rest.len() > 8 {
        let (chunk, after) = rest.split_at(8);
        left = spend_chunk(left, chunk)?;
        rest = after;
    }
    spend_bytes(left, rest)
}

#[inline(always)]
fn spend_chunk(left: usize, chunk: &[u8]) -> Option<usize>
    ensures { Spends left (length (escape chunk.now)) result }
{
    if is_plain(chunk) {
        return left.checked_sub(chunk.len());
    }
    spend_bytes(left, chunk)
}

#[inline(always)]
fn spend_bytes(left: usize, text: &[u8]) -> Option<usize>
    ensures { Spends left (length (escape text.now)) result }
{
    let mut left = left;
    for byte in text {
        left = left.checked_sub(escape_length(*byte))?;
    }
    Some(left)
}

/// Returns the length of what is written for a byte of a text.
#[inline(always)]
fn escape_length(byte: u8) -> usize
    ensures { result ≡ length (escape_byte byte) }
{
    if has_letter(byte) {
        2
    } else if byte < 0x20 {
        6
    } else {
        1
    }
}

/// Returns whether the escape of a byte is a backslash and one letter.
#[inline(always)]
fn has_letter(byte: u8) -> bool
    ensures { result ≡ nat_lt 0 (escape_letter byte) }
{
    match byte {
        b'"' | b'\\' | 8 | 9 | 10 | 12 | 13 => true,
        _ => false,
    }
}
