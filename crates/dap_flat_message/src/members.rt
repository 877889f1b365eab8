//! The members at the top of a message, found in one pass.
ghost use Rattle.std.specs.Prelude.{◌≡◌, false, IfOk, MatchOption, bytes_eq, Some, None};
ghost use Rattle.std.specs.Option.{option_or};
ghost use Rattle.dap_tree.specs.Doc.{Doc};
ghost use Rattle.dap_message.specs.AskedRows.{kind_typed, kind_of_tree, name_of_tree};
ghost use Rattle.dap_message.specs.{Envelope.{text_value, boolean_value, id_number}, Rows.is_true};
ghost use Rattle.dap_flat.specs.Pieces.{piece_of};
ghost use Rattle.dap_flat_message.specs.{Judging.top_of, Heads.{note, IsValue, text_in, Tells}};
ghost use Rattle.dap_flat_message.specs.Places.{IsEnvelope, FindsTop, word, place_at, put_at};
ghost use Rattle.dap_flat_message.specs.declared.members.Key.{Key};

use crate::rows::is_object;
use dap_flat::{Node, Unclear, child, same_text, value_end};
use dap_profile::Kind;

/// A member at the top of a message that rows look at.
#[derive(Clone, Copy, Drop)]
pub enum Key {
    /// `type`.
    Kind,
    Command,
    Event,
    Seq,
    RequestSeq,
    Success,
    Message,
    Arguments,
    Body,
}

/// The places of a message's members: where the value of each of them starts.
#[derive(Clone, Copy, Drop)]
pub struct Envelope {
    /// `type`.
    pub kind: Option<usize>,
    pub command: Option<usize>,
    pub event: Option<usize>,
    pub seq: Option<usize>,
    pub request_seq: Option<usize>,
    pub success: Option<usize>,
    pub message: Option<usize>,
    pub arguments: Option<usize>,
    pub body: Option<usize>,
}

impl Envelope {
    #[inline(always)]
    fn new() -> Envelope
        ensures { (k : Key) → place_at k result ≡ None }
    {
        Envelope {
            kind: None,
            command: None,
            event: None,
            seq: None,
            request_seq: None,
            success: None,
            message: None,
            arguments: None,
            body: None,
        }
    }

    #[inline(always)]
    fn place(&self, key: Key) -> Option<usize>
        ensures { result ≡ place_at key self.now }
    {
        match key {
            Key::Kind => self.kind,
            Key::Command => self.command,
            Key::Event => self.event,
            Key::Seq => self.seq,
            Key::RequestSeq => self.request_seq,
            Key::Success => self.success,
            Key::Message => self.message,
            Key::Arguments => self.arguments,
            Key::Body => self.body,
        }
    }

    /// Notes the place of a member, if it has none.
    #[inline(always)]
    fn with(self, key: Key, place: usize) -> Envelope
        ensures { result ≡ put_at key (option_or (place_at key self) (Some place)) self }
    {
        match key {
            Key::Kind => Envelope {
                kind: first(self.kind, place),
                ..self
            },
            Key::Command => Envelope {
                command: first(self.command, place),
                ..self
            },
            Key::Event => Envelope {
                event: first(self.event, place),
                ..self
            },
            Key::Seq => Envelope {
                seq: first(self.seq, place),
                ..self
            },
            Key::RequestSeq => Envelope {
                request_seq: first(self.request_seq, place),
                ..self
            },
            Key::Success => Envelope {
                success: first(self.success, place),
                ..self
            },
            Key::Message => Envelope {
                message: first(self.message, place),
                ..self
            },
            Key::Arguments => Envelope {
                arguments: first(self.arguments, place),
                ..self
            },
            Key::Body => Envelope {
                body: first(self.body, place),
                ..self
            },
        }
    }
}

#[inline(always)]
fn first(found: Option<usize>, place: usize) -> Option<usize>
    ensures { result ≡ option_or found (Some place) }
{
    match found {
        Some(_) => found,
        None => Some(place),
    }
}

/// Returns the places of the members of the document that the nodes represent, in one pass over
/// them. If it is not an object, it has none.
///
/// Returns `Unclear` if the nodes do not represent a document.
pub fn find_envelope(nodes: &[Node<'_>]) -> Result<Envelope, Unclear>
    ensures { IfOk result (IsEnvelope nodes.now) }
{
    let mut found = Envelope::new();
    if nodes.is_empty() {
        return Err(Unclear);
    }
    if !is_object(&nodes[0]) {
        return Ok(found);
    }
    let mut p = 1;
    while p < nodes.len() {
        match nodes[p] {
            Node::Name(name) => {
                found = noted(found, name, p + 1);
                p = value_end(nodes, p + 1).ok_or(Unclear)?;
            }
            Node::EndObject => return Ok(found),
            _ => return Err(Unclear),
        }
    }
    Err(Unclear)
}

#[inline(always)]
fn noted(found: Envelope, name: &str, place: usize) -> Envelope
    ensures { (k : Key) → place_at k result ≡ note (word k) name.now place (place_at k found) }
{
    match key_named(name) {
        Some(key) => found.with(key, place),
        None => found,
    }
}

#[inline(always)]
fn key_named(name: &str) -> Option<Key>
    ensures { MatchOption result ((k : Key) → bytes_eq (word k) name.now ≡ false)
        (λ k. name.now ≡ word k) }
{
    if same_text(name, "body") {
        Some(Key::Body)
    } else if same_text(name, "arguments") {
        Some(Key::Arguments)
    } else if same_text(name, "seq") {
        Some(Key::Seq)
    } else if same_text(name, "command") {
        Some(Key::Command)
    } else if same_text(name, "type") {
        Some(Key::Kind)
    } else if same_text(name, "request_seq") {
        Some(Key::RequestSeq)
    } else if same_text(name, "success") {
        Some(Key::Success)
    } else if same_text(name, "event") {
        Some(Key::Event)
    } else if same_text(name, "message") {
        Some(Key::Message)
    } else {
        None
    }
}

/// Returns the place of a member's value, as [`child`] does at the top of the document. It looks
/// into the nodes only if the envelope does not note the name.
#[inline(always)]
pub fn top_child(nodes: &[Node<'_>], found: &Envelope, name: &str) -> Result<Option<usize>, Unclear>
    ensures { IfOk result (FindsTop nodes.now found.now name.now) }
{
    match key_named(name) {
        Some(key) => Ok(found.place(key)),
        None => child(nodes, 0, name),
    }
}

/// Returns the string that starts at the place, if one does.
pub fn text_at<'a>(nodes: &[Node<'a>], place: Option<usize>) -> Result<Option<&'a str>, Unclear>
    ensures { IfOk result (λ s. IsValue nodes.now place text_value (text_in s)) }
{
    let Some(at) = place else {
        return Ok(None);
    };
    if at >= nodes.len() {
        return Err(Unclear);
    }
    Ok(text_of(&nodes[at]))
}

fn text_of<'a>(node: &Node<'a>) -> Option<&'a str>
    ensures { text_in result ≡ text_value (Some (top_of (piece_of node.now))) }
{
    match *node {
        Node::Text(text) => Some(text),
        _ => None,
    }
}

/// Returns the boolean that starts at the place, if one does.
pub fn boolean_at(nodes: &[Node<'_>], place: Option<usize>) -> Result<Option<bool>, Unclear>
    ensures { IfOk result (IsValue nodes.now place boolean_value) }
{
    let Some(at) = place else {
        return Ok(None);
    };
    if at >= nodes.len() {
        return Err(Unclear);
    }
    Ok(boolean_of(&nodes[at]))
}

fn boolean_of(node: &Node<'_>) -> Option<bool>
    ensures { result ≡ boolean_value (Some (top_of (piece_of node.now))) }
{
    match *node {
        Node::Bool(value) => Some(value),
        _ => None,
    }
}

/// Returns the number of the id that starts at the place, if one does.
pub fn number_at(nodes: &[Node<'_>], place: Option<usize>) -> Result<Option<i64>, Unclear>
    ensures { IfOk result (IsValue nodes.now place id_number) }
{
    let Some(at) = place else {
        return Ok(None);
    };
    if at >= nodes.len() {
        return Err(Unclear);
    }
    Ok(number_of(&nodes[at]))
}

fn number_of(node: &Node<'_>) -> Option<i64>
    ensures { result ≡ id_number (Some (top_of (piece_of node.now))) }
{
    match *node {
        Node::Id(_, number) => Some(number),
        _ => None,
    }
}

/// Returns the kind of a document with this envelope, if it has one.
pub fn kind_of_tree(nodes: &[Node<'_>], envelope: &Envelope) -> Result<Option<Kind>, Unclear>
    ensures { IfOk result
        (λ k. (d : Doc) → Tells nodes.now d envelope.now → k ≡ kind_of_tree d) }
{
    match text_at(nodes, envelope.kind)? {
        Some(text) => Ok(kind_typed(text)),
        None => Ok(None),
    }
}

fn kind_typed(text: &str) -> Option<Kind>
    ensures { result ≡ kind_typed text.now }
{
    if same_text(text, "request") {
        Some(Kind::Request)
    } else if same_text(text, "response") {
        Some(Kind::Response)
    } else if same_text(text, "event") {
        Some(Kind::Event)
    } else {
        None
    }
}

/// Returns the name by which rows apply to a document of this kind, or `None` if it is a response
/// that has no body.
pub fn name_of_tree<'a>(
    nodes: &[Node<'a>],
    envelope: &Envelope,
    kind: Kind,
) -> Result<Option<&'a str>, Unclear>
    ensures { IfOk result
        (λ n. (d : Doc) → Tells nodes.now d envelope.now → text_in n ≡ name_of_tree kind d) }
{
    match kind {
        Kind::Request => text_at(nodes, envelope.command),
        Kind::Event => text_at(nodes, envelope.event),
        Kind::Response => body_name(nodes, envelope),
    }
}

fn body_name<'a>(nodes: &[Node<'a>], envelope: &Envelope) -> Result<Option<&'a str>, Unclear>
    ensures { IfOk result
        (λ n. (d : Doc) → Tells nodes.now d envelope.now → text_in n
        ≡ name_of_tree Kind.Response d) }
{
    if has_succeeded(nodes, envelope.success)? {
        text_at(nodes, envelope.command)
    } else {
        Ok(None)
    }
}

fn has_succeeded(nodes: &[Node<'_>], place: Option<usize>) -> Result<bool, Unclear>
    ensures { IfOk result (IsValue nodes.now place is_true) }
{
    let Some(at) = place else {
        return Ok(false);
    };
    if at >= nodes.len() {
        return Err(Unclear);
    }
    Ok(tells_true(&nodes[at]))
}

fn tells_true(node: &Node<'_>) -> bool
    ensures { result ≡ is_true (Some (top_of (piece_of node.now))) }
{
    match *node {
        Node::Bool(value) => value,
        _ => false,
    }
}
