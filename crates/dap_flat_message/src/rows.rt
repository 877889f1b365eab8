//! Checks a flat message against one row.
ghost use Rattle.std.specs.Prelude.{◌≡◌, ℕ, pos, [], ◌∷◌, Some, None, option_map, IfOk};
ghost use Rattle.std.specs.Bool.{MatchBool};
ghost use Rattle.dap_profile.specs.PlaceSteps.{named, each, steps_of};
ghost use Rattle.dap_message.specs.Places.{is_object};
ghost use Rattle.dap_message.specs.Rows.{has_type, is_id_number, is_null, cause_against, of_row};
ghost use Rattle.dap_flat.specs.Pieces.{piece_of, end_list};
ghost use Rattle.dap_flat_message.specs.Judging.{top_of, reported, Judges, JudgesTop, JudgesItems};
ghost use Rattle.dap_flat_message.specs.Judging.{part_steps, is_list};

use crate::members::{Envelope, top_child};
use dap_flat::{Node, Unclear, child, value_end};
use dap_profile::{Place, Row, Want};

/// How a row is violated.
#[derive(Clone, Copy, Drop)]
pub(crate) enum Broken {
    Missing,
    WrongType,
}

/// Returns how the document violates the row, if it does. If the row looks at several elements, the
/// first one that violates it decides.
pub(crate) fn broken_by(
    row: &Row,
    nodes: &[Node<'_>],
    found: &Envelope,
) -> Result<Option<Broken>, Unclear>
    ensures { IfOk result
        (JudgesTop nodes.now found.now (steps_of row.now.place) row.now.want row.now.needed) }
{
    match row.place {
        Place::Member(a) => judge_top(nodes, found, a, row.want, row.needed),
        Place::Inner(a, b) => judge_inner(nodes, found, a, b, row.want, row.needed),
        Place::Element(a, b) => judge_elements(nodes, found, a, b, row.want, row.needed),
        Place::Part(a, b, c) => judge_parts(nodes, found, a, b, c, row.want, row.needed),
        Place::Deep(a, b, c) => judge_deep(nodes, found, a, b, c, row.want, row.needed),
    }
}

fn has_type(node: &Node<'_>, want: Want) -> bool
    ensures { result ≡ has_type want (top_of (piece_of node.now)) }
{
    match (want, *node) {
        (Want::Bool, Node::Bool(_)) => true,
        (Want::Whole, Node::Unsigned(_)) => true,
        (Want::Whole, Node::Negative(_)) => true,
        (Want::Text, Node::Text(_)) => true,
        (Want::Object, Node::Object(_)) => true,
        (Want::List, Node::List(_)) => true,
        (_, Node::Unsigned(number)) => want.is_id() && may_be_id(number),
        (_, Node::Negative(number)) => want.is_id() && is_id_number(number),
        _ => false,
    }
}

fn may_be_id(number: u64) -> bool
    ensures { result ≡ is_id_number (pos number) }
{
    number <= i64::MAX as u64
}

fn is_id_number(_number: i64) -> bool
    ensures { result ≡ is_id_number _number }
{
    true
}

/// A node that does not start a value counts as null, which no optional row rejects.
fn is_null(node: &Node<'_>) -> bool
    ensures { result ≡ is_null (top_of (piece_of node.now)) }
{
    match *node {
        Node::Null | Node::EndList | Node::EndObject | Node::Name(_) => true,
        _ => false,
    }
}

pub(crate) fn is_object(node: &Node<'_>) -> bool
    ensures { result ≡ is_object (top_of (piece_of node.now)) }
{
    match *node {
        Node::Object(_) => true,
        _ => false,
    }
}

fn is_list(node: &Node<'_>) -> bool
    ensures { result ≡ is_list (top_of (piece_of node.now)) }
{
    match *node {
        Node::List(_) => true,
        _ => false,
    }
}

fn judge_node(node: &Node<'_>, want: Want, needed: bool) -> Option<Broken>
    ensures { (n : ℕ) → reported n result
        ≡ option_map (of_row n) (cause_against want needed (Some (top_of (piece_of node.now)))) }
{
    if has_type(node, want) {
        return None;
    }
    if is_null(node) && !needed {
        return None;
    }
    Some(Broken::WrongType)
}

fn judge_absent(needed: bool) -> Option<Broken>
    ensures { (n : ℕ) (want : Want) → reported n result
        ≡ option_map (of_row n) (cause_against want needed None) }
{
    if needed { Some(Broken::Missing) } else { None }
}

fn judge_value(
    nodes: &[Node<'_>],
    at: usize,
    want: Want,
    needed: bool,
) -> Result<Option<Broken>, Unclear>
    ensures { IfOk result (Judges nodes.now at [] want needed) }
{
    if at >= nodes.len() {
        return Err(Unclear);
    }
    Ok(judge_node(&nodes[at], want, needed))
}

/// A parent that is not an object passes.
fn judge_member(
    nodes: &[Node<'_>],
    at: usize,
    name: &str,
    want: Want,
    needed: bool,
) -> Result<Option<Broken>, Unclear>
    ensures { IfOk result (Judges nodes.now at (named name.now ∷ []) want needed) }
{
    if at >= nodes.len() {
        return Err(Unclear);
    }
    if !is_object(&nodes[at]) {
        return Ok(None);
    }
    match child(nodes, at, name)? {
        Some(place) => judge_value(nodes, place, want, needed),
        None => Ok(judge_absent(needed)),
    }
}

/// An absent parent passes.
fn judge_below(
    nodes: &[Node<'_>],
    at: usize,
    outer: &str,
    inner: &str,
    want: Want,
    needed: bool,
) -> Result<Option<Broken>, Unclear>
    ensures { IfOk result
        (Judges nodes.now at (named outer.now ∷ named inner.now ∷ []) want needed) }
{
    match child(nodes, at, outer)? {
        Some(place) => judge_member(nodes, place, inner, want, needed),
        None => Ok(None),
    }
}

fn judge_top(
    nodes: &[Node<'_>],
    found: &Envelope,
    name: &str,
    want: Want,
    needed: bool,
) -> Result<Option<Broken>, Unclear>
    ensures { IfOk result (JudgesTop nodes.now found.now (named name.now ∷ []) want needed) }
{
    if nodes.is_empty() {
        return Err(Unclear);
    }
    if !is_object(&nodes[0]) {
        return Ok(None);
    }
    match top_child(nodes, found, name)? {
        Some(place) => judge_value(nodes, place, want, needed),
        None => Ok(judge_absent(needed)),
    }
}

fn judge_inner(
    nodes: &[Node<'_>],
    found: &Envelope,
    outer: &str,
    inner: &str,
    want: Want,
    needed: bool,
) -> Result<Option<Broken>, Unclear>
    ensures { IfOk result
        (JudgesTop nodes.now found.now (named outer.now ∷ named inner.now ∷ []) want needed) }
{
    match top_child(nodes, found, outer)? {
        Some(place) => judge_member(nodes, place, inner, want, needed),
        None => Ok(None),
    }
}

fn judge_deep(
    nodes: &[Node<'_>],
    found: &Envelope,
    outer: &str,
    middle: &str,
    inner: &str,
    want: Want,
    needed: bool,
) -> Result<Option<Broken>, Unclear>
    ensures { IfOk result
        (JudgesTop nodes.now found.now
        (named outer.now ∷ named middle.now ∷ named inner.now ∷ []) want needed) }
{
    match top_child(nodes, found, outer)? {
        Some(place) => judge_below(nodes, place, middle, inner, want, needed),
        None => Ok(None),
    }
}

fn judge_elements(
    nodes: &[Node<'_>],
    found: &Envelope,
    outer: &str,
    inner: &str,
    want: Want,
    needed: bool,
) -> Result<Option<Broken>, Unclear>
    ensures { IfOk result
        (JudgesTop nodes.now found.now (named outer.now ∷ named inner.now ∷ each ∷ [])
        want needed) }
{
    match top_child(nodes, found, outer)? {
        Some(place) => judge_list_in(nodes, place, inner, None, want, needed),
        None => Ok(None),
    }
}

fn judge_parts(
    nodes: &[Node<'_>],
    found: &Envelope,
    outer: &str,
    inner: &str,
    part: &str,
    want: Want,
    needed: bool,
) -> Result<Option<Broken>, Unclear>
    ensures { IfOk result
        (JudgesTop nodes.now found.now
        (named outer.now ∷ named inner.now ∷ each ∷ named part.now ∷ []) want needed) }
{
    match top_child(nodes, found, outer)? {
        Some(place) => judge_list_in(nodes, place, inner, Some(part), want, needed),
        None => Ok(None),
    }
}

fn judge_list_in(
    nodes: &[Node<'_>],
    at: usize,
    name: &str,
    part: Option<&str>,
    want: Want,
    needed: bool,
) -> Result<Option<Broken>, Unclear>
    ensures { IfOk result
        (Judges nodes.now at
        (named name.now ∷ each ∷ part_steps (option_map (λ s. s.now) part.entry)) want needed) }
{
    match child(nodes, at, name)? {
        Some(place) => judge_list(nodes, place, part, want, needed),
        None => Ok(None),
    }
}

fn judge_list(
    nodes: &[Node<'_>],
    at: usize,
    part: Option<&str>,
    want: Want,
    needed: bool,
) -> Result<Option<Broken>, Unclear>
    ensures { IfOk result
        (Judges nodes.now at (each ∷ part_steps (option_map (λ s. s.now) part.entry))
        want needed) }
{
    if at >= nodes.len() {
        return Err(Unclear);
    }
    if !is_list(&nodes[at]) {
        return Ok(None);
    }
    judge_items(nodes, at + 1, part, want, needed)
}

fn judge_items(
    nodes: &[Node<'_>],
    from: usize,
    part: Option<&str>,
    want: Want,
    needed: bool,
) -> Result<Option<Broken>, Unclear>
    ensures { IfOk result
        (JudgesItems nodes.now from (part_steps (option_map (λ s. s.now) part.entry))
        want needed) }
{
    let mut p = from;
    while p < nodes.len() {
        if is_end(nodes[p]) {
            return Ok(None);
        }
        let end = value_end(nodes, p).ok_or(Unclear)?;
        let cause = judge_item(nodes, p, part, want, needed)?;
        if cause.is_some() {
            return Ok(cause);
        }
        p = end;
    }
    Err(Unclear)
}

fn judge_item(
    nodes: &[Node<'_>],
    at: usize,
    part: Option<&str>,
    want: Want,
    needed: bool,
) -> Result<Option<Broken>, Unclear>
    ensures { IfOk result
        (Judges nodes.now at (part_steps (option_map (λ s. s.now) part.entry)) want needed) }
{
    match part {
        None => judge_value(nodes, at, want, needed),
        Some(name) => judge_member(nodes, at, name, want, needed),
    }
}

fn is_end(node: Node<'_>) -> bool
    ensures { MatchBool result (piece_of node.entry ≡ end_list)
        (piece_of node.entry ≡ end_list → ⊥) }
{
    match node {
        Node::EndList => true,
        _ => false,
    }
}
