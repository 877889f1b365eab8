//! Formats the elements that a flat message lists as lines.
ghost use Rattle.std.specs.Prelude.{◌≡◌, ◌++◌, ◌∷◌, ◌<◌, [], length, IfOk, IfSome, OnOk, Some};
ghost use Rattle.dap_flat.specs.Finding.{FindsChild, Holds};
ghost use Rattle.dap_flat_message.specs.FlatMessages.{flat_doc};
ghost use Rattle.dap_message.specs.Envelope.{text_value};
ghost use Rattle.dap_message.specs.Rows.{row_applies};
ghost use Rattle.dap_message.specs.ViewItems.{frame_shown, scope_shown, variable_shown};
ghost use Rattle.dap_message.specs.Views.{frame_of, number_value, reference_value, scope_of};
ghost use Rattle.dap_message.specs.Views.{variable_of};
ghost use Rattle.dap_profile.specs.declared.profile.Kind.TheVariants.{Response};
ghost use Rattle.dap_show.specs.FlatElements.{AppendsElements, IsMemberValue, IsViewedAs};
ghost use Rattle.dap_show.specs.FlatElements.{StartsElements, array_name, command_name};
ghost use Rattle.dap_show.specs.FlatElements.{element_lines, lines_of_kind};
ghost use Rattle.dap_show.specs.Showing.{listed_lines};
ghost use Rattle.dap_tree.specs.Doc.{Doc};

use crate::message_lines::{push_frame, push_scope, push_variable};
use dap_flat::{Node, Unread, child, value_end};
use dap_flat_message::FlatMessage;
use dap_message::{AnyMessage, FrameView, ScopeView, VariableView};
use std::alloc::Global;

/// The kind of the elements that a message lists.
#[derive(Clone, Copy, Drop)]
pub(crate) enum Element {
    Frame,
    Scope,
    Variable,
}

/// Returns the lines of the frames, scopes and variables that a flat message lists.
///
/// # Errors
///
/// - `Unclear`: the content has to be read as a tree.
/// - `Memory`: an allocation failed.
pub(crate) fn flat_lines(alloc: Global, message: &FlatMessage<'_>) -> Result<Vec<u8>, Unread>
    ensures { IfOk result (λ lines. lines.items ≡ listed_lines (flat_doc message.now)) }
{
    let mut lines = Vec::new(alloc);
    push_listed(alloc, &mut lines, Element::Frame, message)?;
    push_listed(alloc, &mut lines, Element::Scope, message)?;
    push_listed(alloc, &mut lines, Element::Variable, message)?;
    Ok(lines)
}

/// Appends the lines of the elements of this kind that a message lists.
fn push_listed(
    alloc: Global,
    out: &mut Vec<u8>,
    kind: Element,
    message: &FlatMessage<'_>,
) -> Result<(), Unread>
    ensures { OnOk result
        (out.new.items ≡ out.old.items ++ lines_of_kind kind (flat_doc message.now)) }
{
    let (command, array) = names(kind);
    if !answers(message, command) {
        return Ok(());
    }
    let nodes = message.nodes();
    let from = first_element(nodes, array).ok_or(Unread::Unclear)?;
    push_elements(alloc, out, kind, nodes, from)
}

/// Returns the command whose response lists these elements, and the name of their array.
fn names(kind: Element) -> (&'static str, &'static str)
    ensures command { result.0.now ≡ command_name kind }
    ensures array { result.1.now ≡ array_name kind }
{
    match kind {
        Element::Frame => ("stackTrace", "stackFrames"),
        Element::Scope => ("scopes", "scopes"),
        Element::Variable => ("variables", "variables"),
    }
}

/// Returns whether a message is a successful response to the command.
fn answers<M: AnyMessage>(message: &M, command: &str) -> bool
    ensures { result
        ≡ row_applies (Some Response) (Some command.now) (M.sent message.now).doc }
{
    if !message.success().unwrap_or(false) {
        return false;
    }
    command == message.name()
}

/// Returns the place after the start of the named array in the body. Returns `None` if there is no
/// such array, or if the nodes do not represent a document.
fn first_element(nodes: &[Node<'_>], name: &str) -> Option<usize>
    ensures { IfSome result (StartsElements nodes.now name.now) }
{
    let body = member_place(nodes, 0, "body")?;
    let array = member_place(nodes, body, name)?;
    match nodes[array] {
        Node::List(_) => Some(array + 1),
        _ => None,
    }
}

/// Appends the lines of the elements that start at `from`.
fn push_elements(
    alloc: Global,
    out: &mut Vec<u8>,
    kind: Element,
    nodes: &[Node<'_>],
    from: usize,
) -> Result<(), Unread>
    ensures { OnOk result
        (AppendsElements kind nodes.now from out.old.items out.new.items) }
{
    let mut p = from;
    while p < nodes.len() {
        if let Node::EndList = nodes[p] {
            return Ok(());
        }
        let end = value_end(nodes, p).ok_or(Unread::Unclear)?;
        push_element(alloc, out, kind, nodes, p)?;
        p = end;
    }
    Err(Unread::Unclear)
}

/// Appends the line of the element that starts at `at`.
fn push_element(
    alloc: Global,
    out: &mut Vec<u8>,
    kind: Element,
    nodes: &[Node<'_>],
    at: usize,
) -> Result<(), Unread>
    ensures { OnOk result ((d : Doc) → Holds nodes.now at d
        → out.new.items ≡ out.old.items ++ element_lines kind (d ∷ [])) }
{
    match kind {
        Element::Frame => push_frame(alloc, out, frame_at(nodes, at).ok_or(Unread::Unclear)?)?,
        Element::Scope => push_scope(alloc, out, scope_at(nodes, at).ok_or(Unread::Unclear)?)?,
        Element::Variable => {
            push_variable(alloc, out, variable_at(nodes, at).ok_or(Unread::Unclear)?)?;
        }
    }
    Ok(())
}

fn frame_at<'a>(nodes: &[Node<'a>], at: usize) -> Option<FrameView<'a>>
    ensures { IfSome result (λ frame. IsViewedAs frame_of nodes.now at (frame_shown frame)) }
{
    Some(FrameView {
        id: reference_at(nodes, at, "id")?,
        name: text_at(nodes, at, "name")?,
        line: number_at(nodes, at, "line")?,
        column: number_at(nodes, at, "column")?,
    })
}

fn scope_at<'a>(nodes: &[Node<'a>], at: usize) -> Option<ScopeView<'a>>
    ensures { IfSome result (λ scope. IsViewedAs scope_of nodes.now at (scope_shown scope)) }
{
    Some(ScopeView {
        name: text_at(nodes, at, "name")?,
        reference: reference_at(nodes, at, "variablesReference")?,
    })
}

fn variable_at<'a>(nodes: &[Node<'a>], at: usize) -> Option<VariableView<'a>>
    ensures { IfSome result
        (λ variable. IsViewedAs variable_of nodes.now at (variable_shown variable)) }
{
    Some(VariableView {
        name: text_at(nodes, at, "name")?,
        value: text_at(nodes, at, "value")?,
        reference: reference_at(nodes, at, "variablesReference")?,
    })
}

fn text_at<'a>(nodes: &[Node<'a>], at: usize, name: &str) -> Option<&'a str>
    ensures { IfSome result (λ text. IsMemberValue text_value nodes.now at name.now text.now) }
{
    let place = member_place(nodes, at, name)?;
    match nodes[place] {
        Node::Text(text) => Some(text),
        _ => None,
    }
}

fn number_at(nodes: &[Node<'_>], at: usize, name: &str) -> Option<i128>
    ensures { IfSome result (IsMemberValue number_value nodes.now at name.now) }
{
    let place = member_place(nodes, at, name)?;
    match nodes[place] {
        Node::Unsigned(number) => Some(i128::from(number)),
        Node::Negative(number) => Some(i128::from(number)),
        Node::Id(_, number) => Some(i128::from(number)),
        _ => None,
    }
}

fn reference_at(nodes: &[Node<'_>], at: usize, name: &str) -> Option<i64>
    ensures { IfSome result (IsMemberValue reference_value nodes.now at name.now) }
{
    let place = member_place(nodes, at, name)?;
    match nodes[place] {
        Node::Unsigned(number) => i64::try_from(number).ok(),
        Node::Negative(number) => Some(number),
        Node::Id(_, number) => Some(number),
        _ => None,
    }
}

/// Returns the first place of the value of the named member. Returns `None` if the member is absent,
/// or if no document starts at `at`.
fn member_place(nodes: &[Node<'_>], at: usize, name: &str) -> Option<usize>
    ensures { IfSome result (λ place. (place < length nodes.now)
        × FindsChild nodes.now at name.now (Some place)) }
{
    match child(nodes, at, name) {
        Ok(Some(place)) if place < nodes.len() => Some(place),
        _ => None,
    }
}
