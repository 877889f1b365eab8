//! Inserts a member among those that were read before it, in the order of their names.
ghost use Rattle.std.specs.Prelude.{◌≡◌, ◌++◌, ◌+◌, ◌-◌, ◌<◌, ◌≤◌, length, take, drop, OnOk, IfOk};
ghost use Rattle.std.specs.Prelude.{◌↔◌, IfSome, IsErr, OnErr, slice_index_or, option_map, reverse};
ghost use Rattle.std.specs.Bool.{MatchBool};
ghost use Rattle.dap_flat.specs.{Order.{IsAbove, IsNotAbove}, declared.node.Node.Node};
ghost use Rattle.dap_flat.specs.{Pieces.piece_of, Placing.{InsertsAt, Places, PlacesMember, size}};

use crate::node::Node;
use crate::order::name_order;
use crate::unread::Unclear;
use std::cmp::Ordering;

/// The number of nodes that are moved by way of a buffer, at most. The members of a message before
/// its body have fewer.
const FEW: usize = 16;

/// Moves the last member, which starts at `at`, to its place among those that start at `start`.
///
/// Returns `Unclear` if one of them has its name, or if too many nodes were moved before.
#[inline(never)]
pub(crate) fn insert_member(
    nodes: &mut Vec<Node<'_>>,
    start: usize,
    at: usize,
    name: &str,
    moves: &mut usize,
) -> Result<(), Unclear>
    requires { (start ≤ at) × (at ≤ length nodes.old.items) }
    ensures { OnOk result (Places start at name.now nodes.old.items nodes.new.items) }
{
    let p = position(&nodes[start..at], name).ok_or(Unclear)?;
    spend(moves, nodes.len() - start)?;
    rotate(nodes, start + p, at);
    Ok(())
}

/// Puts the member that was read last in its place, and returns the greatest name after that.
#[inline(always)]
pub(crate) fn place_member<'a>(
    nodes: &mut Vec<Node<'a>>,
    start: usize,
    at: usize,
    last: Option<&'a str>,
    name: &'a str,
    moves: &mut usize,
) -> Result<Option<&'a str>, Unclear>
    requires { (start ≤ at) × (at ≤ length nodes.old.items) }
    ensures { IfOk result (λ now. PlacesMember start at (option_map (λ s. s.now) last.entry)
        name.now nodes.old.items nodes.new.items (option_map (λ s. s.now) now)) }
{
    if is_greatest(last, name) {
        return Ok(Some(name));
    }
    insert_member(nodes, start, at, name, moves)?;
    Ok(last)
}

/// Subtracts the cost of a move from the remaining budget of the content. Without the budget, a
/// content whose members are in falling order would take quadratic time.
#[inline(always)]
fn spend(moves: &mut usize, cost: usize) -> Result<(), Unclear>
    ensures spent { OnOk result (moves.new + cost ≡ moves.old) }
    ensures unclear { IsErr result ↔ (moves.old < cost) }
    ensures kept { OnErr result (moves.new ≡ moves.old) }
{
    match moves.checked_sub(cost) {
        Some(left) => {
            *moves = left;
            Ok(())
        }
        None => Err(Unclear),
    }
}

/// Moves the nodes that start at `at` to `from`, before those that start there.
fn rotate(nodes: &mut Vec<Node<'_>>, from: usize, at: usize)
    requires { (from ≤ at) × (at ≤ length nodes.old.items) }
    ensures { nodes.new.items ≡ take from nodes.old.items
        ++ (drop at nodes.old.items ++ take (at - from) (drop from nodes.old.items)) }
{
    swap_halves(&mut nodes[from..], at - from);
}

/// Exchanges the nodes before `mid` and those from `mid` on.
fn swap_halves(nodes: &mut [Node<'_>], mid: usize)
    requires { mid ≤ length nodes.old }
    ensures { nodes.new ≡ drop mid nodes.old ++ take mid nodes.old }
{
    if nodes.len() - mid == 2 {
        move_last_two(nodes, mid);
    } else if mid <= FEW {
        move_few(nodes, mid);
    } else {
        swap_by_reversals(nodes, mid);
    }
}

/// Moves the two nodes from `mid` on to the start. Most members have two nodes.
fn move_last_two(nodes: &mut [Node<'_>], mid: usize)
    requires { mid + 2 ≡ length nodes.old }
    ensures { nodes.new ≡ drop mid nodes.old ++ take mid nodes.old }
{
    let first = nodes[mid];
    let second = nodes[mid + 1];
    nodes.copy_within(..mid, 2);
    nodes[0] = first;
    nodes[1] = second;
}

/// Moves the nodes before `mid` to the end.
fn move_few(nodes: &mut [Node<'_>], mid: usize)
    requires few { mid ≤ FEW }
    requires within { mid ≤ length nodes.old }
    ensures { nodes.new ≡ drop mid nodes.old ++ take mid nodes.old }
{
    let mut room = [Node::Null; FEW];
    let few = copied(&mut room, &nodes[..mid]);
    let rest = nodes.len() - mid;
    nodes.copy_within(mid.., 0);
    put_last(nodes, rest, few);
}

/// Copies the nodes into the room, and returns the copies.
fn copied<'r, 'a>(room: &'r mut [Node<'a>], nodes: &[Node<'a>]) -> &'r [Node<'a>]
    requires { length nodes.now ≤ length room.old }
    ensures { result.now ≡ nodes.now }
{
    let copies = &mut room[..nodes.len()];
    copies.copy_from_slice(nodes);
    copies
}

/// Replaces the nodes from `from` on.
fn put_last<'a>(nodes: &mut [Node<'a>], from: usize, last: &[Node<'a>])
    requires { from + length last.now ≡ length nodes.old }
    ensures { nodes.new ≡ take from nodes.old ++ last.now }
{
    nodes[from..].copy_from_slice(last);
}

/// Exchanges the two parts by three reversals: the standard library's `rotate_left` clears a buffer
/// of 4 KB at each call.
fn swap_by_reversals(nodes: &mut [Node<'_>], mid: usize)
    requires { mid ≤ length nodes.old }
    ensures { nodes.new ≡ drop mid nodes.old ++ take mid nodes.old }
{
    reverse_prefix(nodes, mid);
    reverse_suffix(nodes, mid);
    nodes.reverse();
}

fn reverse_prefix(nodes: &mut [Node<'_>], mid: usize)
    requires { mid ≤ length nodes.old }
    ensures { nodes.new ≡ reverse (take mid nodes.old) ++ drop mid nodes.old }
{
    nodes[..mid].reverse();
}

fn reverse_suffix(nodes: &mut [Node<'_>], mid: usize)
    requires { mid ≤ length nodes.old }
    ensures { nodes.new ≡ take mid nodes.old ++ reverse (drop mid nodes.old) }
{
    nodes[mid..].reverse();
}

/// Returns the place of a member with that name, or `None` if there is such a member.
fn position(held: &[Node<'_>], name: &str) -> Option<usize>
    ensures within { IfSome result (λ p. p ≤ length held.now) }
    ensures goes { IfSome result (InsertsAt held.now name.now) }
{
    let mut p = 0;
    while p < held.len() {
        let Node::Name(other) = held[p] else {
            return None;
        };
        match name_order(name, other) {
            Ordering::Less => return Some(p),
            Ordering::Equal => return None,
            Ordering::Greater => {}
        }
        p = value_end(held, p + 1)?;
    }
    Some(p)
}

/// Returns the place after the value that starts at `at`.
#[inline(always)]
pub fn value_end(nodes: &[Node<'_>], at: usize) -> Option<usize>
    ensures within { IfSome result (λ end. (at < end) × (end ≤ length nodes.now)) }
    ensures size { IfSome result
        (λ end. (x : Node) → end ≡ at + size (piece_of (slice_index_or nodes.now at x))) }
{
    if at >= nodes.len() {
        return None;
    }
    match nodes[at] {
        Node::List(inside) | Node::Object(inside) => parts_end(nodes.len(), at, inside),
        _ => Some(at + 1),
    }
}

/// Returns the place after the list or object that starts at `at`, if it ends within the nodes.
#[inline(always)]
fn parts_end(len: usize, at: usize, inside: usize) -> Option<usize>
    ensures { IfSome result (λ end. (end ≡ at + (inside + 2)) × (end ≤ len)) }
{
    let end = at.checked_add(inside.checked_add(2)?)?;
    if len < end { None } else { Some(end) }
}

/// Returns whether the name is greater than the greatest one so far.
#[inline(always)]
fn is_greatest(last: Option<&str>, name: &str) -> bool
    ensures { MatchBool result (IsAbove (option_map (λ s. s.now) last.entry) name.now)
        (IsNotAbove (option_map (λ s. s.now) last.entry) name.now) }
{
    match last {
        None => true,
        Some(last) => matches!(name_order(last, name), Ordering::Less),
    }
}
