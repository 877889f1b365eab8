//! Changes the values at a place of a flat document, in place. The number of nodes never changes.
ghost use Rattle.std.specs.Prelude.{◌≡◌, ◌∷◌, Some, IfOk, OnOk, string_bytes};
ghost use Rattle.std.specs.Bool.{MatchBool};
ghost use Rattle.dap_tree.specs.Doc.{change_child, change_items};
ghost use Rattle.dap_flat.specs.Pieces.{piece_of, end_list};
ghost use Rattle.dap_flat_message.specs.{Heads.text_in, Marking.{Edits, EditsItems}};
ghost use Rattle.dap_mask.specs.FlatMasking.{blanked, changed_piece, squeezed, with_text};
ghost use Rattle.dap_mask.specs.RuleSteps.{change_at_place, change_called};
ghost use Rattle.dap_mask.specs.Rules.{of_verb, place_of, step_of};

use crate::flat_told::is_called;
use crate::rules::{Step, Verb};
use crate::texts::{digits, hex};
use bumpalo::Bump;
use dap_flat::{Node, Unclear, Unread, child, value_end};
use dap_words::{long, uuid};
use std::alloc::{AllocError, Global};

/// The memory for the texts that rules change.
#[derive(Clone, Copy, Drop)]
pub(crate) struct Memory<'a> {
    /// For a copy, while it is changed.
    pub(crate) alloc: Global,
    /// For the result.
    pub(crate) arena: &'a Bump,
}

/// Changes the values at a place of the document that starts at `at`.
#[cycle(mask_path)]
pub(crate) fn mask_path<'a>(
    nodes: &mut [Node<'a>],
    at: usize,
    path: &[Step],
    verb: Verb,
    memory: Memory<'a>,
) -> Result<(), Unread>
    ensures { OnOk result (Edits nodes.old nodes.new at
        (change_at_place (place_of path.now) (of_verb verb))) }
{
    match path {
        [] => change_node(nodes, at, verb, memory),
        [step, rest @ ..] => mask_step(nodes, at, step, rest, verb, memory),
    }
}

#[cycle(mask_path)]
fn mask_step<'a>(
    nodes: &mut [Node<'a>],
    at: usize,
    step: &Step,
    path: &[Step],
    verb: Verb,
    memory: Memory<'a>,
) -> Result<(), Unread>
    ensures { OnOk result (Edits nodes.old nodes.new at
        (change_at_place (step_of step.now ∷ place_of path.now) (of_verb verb))) }
{
    match step {
        Step::Member(name) => mask_below(nodes, at, name.as_str(), path, verb, memory),
        Step::Each => mask_list(nodes, at, None, path, verb, memory),
        Step::Element(name) => mask_list(nodes, at, Some(name.as_str()), path, verb, memory),
    }
}

#[cycle(mask_path)]
fn mask_below<'a>(
    nodes: &mut [Node<'a>],
    at: usize,
    name: &str,
    path: &[Step],
    verb: Verb,
    memory: Memory<'a>,
) -> Result<(), Unread>
    ensures { OnOk result (Edits nodes.old nodes.new at
        (change_child name.now (change_at_place (place_of path.now) (of_verb verb)))) }
{
    match child(nodes, at, name)? {
        Some(place) => mask_path(nodes, place, path, verb, memory),
        None => Ok(()),
    }
}

// Changes the elements of a list with this name, or all of them if no name is given.
#[cycle(mask_path)]
fn mask_list<'a>(
    nodes: &mut [Node<'a>],
    at: usize,
    name: Option<&str>,
    path: &[Step],
    verb: Verb,
    memory: Memory<'a>,
) -> Result<(), Unread>
    ensures { OnOk result (Edits nodes.old nodes.new at (change_items
        (change_called (text_in name.entry)
        (change_at_place (place_of path.now) (of_verb verb))))) }
{
    if at >= nodes.len() {
        return Err(Unread::Unclear);
    }
    match nodes[at] {
        Node::List(_) => mask_each(nodes, at + 1, name, path, verb, memory),
        _ => Ok(()),
    }
}

#[cycle(mask_path)]
fn mask_each<'a>(
    nodes: &mut [Node<'a>],
    from: usize,
    name: Option<&str>,
    path: &[Step],
    verb: Verb,
    memory: Memory<'a>,
) -> Result<(), Unread>
    ensures { OnOk result (EditsItems nodes.old nodes.new from
        (change_called (text_in name.entry)
        (change_at_place (place_of path.now) (of_verb verb)))) }
{
    let mut p = from;
    while p < nodes.len() {
        if is_end(nodes[p]) {
            return Ok(());
        }
        let end = value_end(nodes, p).ok_or(Unclear)?;
        mask_element(nodes, p, name, path, verb, memory)?;
        p = end;
    }
    Err(Unread::Unclear)
}

#[cycle(mask_path)]
fn mask_element<'a>(
    nodes: &mut [Node<'a>],
    at: usize,
    name: Option<&str>,
    path: &[Step],
    verb: Verb,
    memory: Memory<'a>,
) -> Result<(), Unread>
    ensures { OnOk result (Edits nodes.old nodes.new at
        (change_called (text_in name.entry)
        (change_at_place (place_of path.now) (of_verb verb)))) }
{
    let called = is_called(nodes, at, name)?;
    if called {
        mask_path(nodes, at, path, verb, memory)
    } else {
        Ok(())
    }
}

fn is_end(node: Node<'_>) -> bool
    ensures { MatchBool result (piece_of node.entry ≡ end_list)
        (piece_of node.entry ≡ end_list → ⊥) }
{
    match node {
        Node::EndList => true,
        _ => false,
    }
}

fn change_node<'a>(
    nodes: &mut [Node<'a>],
    at: usize,
    verb: Verb,
    memory: Memory<'a>,
) -> Result<(), Unread>
    ensures { OnOk result (Edits nodes.old nodes.new at (of_verb verb)) }
{
    if at >= nodes.len() {
        return Err(Unread::Unclear);
    }
    let node = changed(nodes[at], verb, memory)?;
    nodes[at] = node;
    Ok(())
}

// Returns `Unclear` for the start of a list or an object that is not empty and has to be blank.
fn changed<'a>(node: Node<'a>, verb: Verb, memory: Memory<'a>) -> Result<Node<'a>, Unread>
    ensures { IfOk result
        (λ n. changed_piece verb (piece_of node.entry) ≡ Some (piece_of n)) }
{
    match verb {
        Verb::Blank => Ok(blank(node)?),
        Verb::Digits | Verb::Hex | Verb::Long | Verb::Uuid => { Ok(with_text(node, verb, memory)?) }
    }
}

fn blank<'a>(node: Node<'a>) -> Result<Node<'a>, Unclear>
    ensures { IfOk result (λ n. blanked (piece_of node.entry) ≡ Some (piece_of n)) }
{
    match node {
        Node::Bool(_) => Ok(Node::Bool(false)),
        Node::Unsigned(_) => Ok(Node::Unsigned(0)),
        Node::Negative(_) => Ok(Node::Unsigned(0)),
        Node::Text(_) => Ok(Node::Text("")),
        Node::List(0) => Ok(node),
        Node::Object(0) => Ok(node),
        Node::List(_) | Node::Object(_) => Err(Unclear),
        _ => Ok(node),
    }
}

fn with_text<'a>(node: Node<'a>, verb: Verb, memory: Memory<'a>) -> Result<Node<'a>, AllocError>
    ensures { IfOk result
        (λ n. with_text (squeezed verb) (piece_of node.entry) ≡ piece_of n) }
{
    match node {
        Node::Text(text) => Ok(Node::Text(squeezed(text, verb, memory)?)),
        _ => Ok(node),
    }
}

// A text that the verb leaves unchanged is not stored in the arena.
fn squeezed<'a>(text: &'a str, verb: Verb, memory: Memory<'a>) -> Result<&'a str, AllocError>
    ensures { IfOk result (λ s. s.now ≡ squeezed verb text.now) }
{
    let copy = String::from_str(memory.alloc, text)?;
    let new = squeeze(copy, verb);
    if new.as_str() == text {
        Ok(text)
    } else {
        Ok(memory.arena.try_alloc_str(new.as_str())?)
    }
}

fn squeeze(text: String, verb: Verb) -> String
    ensures { string_bytes result ≡ squeezed verb (string_bytes text) }
{
    match verb {
        Verb::Blank => {
            let mut text = text;
            text.clear();
            text
        }
        Verb::Digits => digits(text),
        Verb::Hex => hex(text),
        Verb::Long => long(text),
        Verb::Uuid => uuid(text),
    }
}
