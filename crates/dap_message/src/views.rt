//! Views of a stack frame, a scope and a variable, and the elements that a message lists.
ghost use Rattle.std.specs.Prelude.{◌≡◌, map, option_map};
ghost use Rattle.dap_tree.specs.Doc.{get};
ghost use Rattle.dap_tree.specs.View.{view};
ghost use Rattle.dap_message.specs.Views.{frame_of, scope_of, variable_of, listed, number_value};
ghost use Rattle.dap_message.specs.Views.{reference_value};
ghost use Rattle.dap_message.specs.ViewItems.{frame_shown, scope_shown, variable_shown};

use crate::asked_rows::{has_succeeded, has_text, is_of_kind};
use crate::broken_rows::list_at;
use crate::message::text_at;
use dap_profile::Kind;
use dap_tree::Tree;

/// The view of a stack frame.
#[derive(Clone, Copy, Debug, PartialEq, Eq)]
pub struct FrameView<'a> {
    pub id: i64,
    /// Usually the name of a function.
    pub name: &'a str,
    /// Counted from 0 or 1, as the client specified in its `initialize` request.
    pub line: i128,
    pub column: i128,
}

/// The view of a scope of a frame.
#[derive(Clone, Copy, Debug, PartialEq, Eq)]
pub struct ScopeView<'a> {
    pub name: &'a str,
    /// The reference to its variables, or 0 if it refers to no variables.
    pub reference: i64,
}

/// The view of a variable.
#[derive(Clone, Copy, Debug, PartialEq, Eq)]
pub struct VariableView<'a> {
    pub name: &'a str,
    /// The human-readable value, as the adapter wrote it.
    pub value: &'a str,
    /// The reference to the variables in it, or 0 if it contains no variables.
    pub reference: i64,
}

/// Returns the elements of the named array in the body of a successful response to the command, and
/// no elements for any other message.
pub(crate) fn listed<'a>(tree: &'a Tree, command: &str, name: &str) -> &'a [Tree]
    ensures { map view result.now ≡ listed command.now name.now (view tree.now) }
{
    if is_of_kind(tree, Kind::Response)
        && has_text(tree, "command", command)
        && has_succeeded(tree)
    {
        list_at(tree, "body", name).unwrap_or(&[])
    } else {
        &[]
    }
}

pub(crate) fn frame_of(tree: &Tree) -> Option<FrameView<'_>>
    ensures { option_map frame_shown result ≡ frame_of (view tree.now) }
{
    Some(FrameView {
        id: reference_at(tree, "id")?,
        name: text_at(tree, "name")?,
        line: number_at(tree, "line")?,
        column: number_at(tree, "column")?,
    })
}

pub(crate) fn scope_of(tree: &Tree) -> Option<ScopeView<'_>>
    ensures { option_map scope_shown result ≡ scope_of (view tree.now) }
{
    Some(ScopeView {
        name: text_at(tree, "name")?,
        reference: reference_at(tree, "variablesReference")?,
    })
}

pub(crate) fn variable_of(tree: &Tree) -> Option<VariableView<'_>>
    ensures { option_map variable_shown result ≡ variable_of (view tree.now) }
{
    Some(VariableView {
        name: text_at(tree, "name")?,
        value: text_at(tree, "value")?,
        reference: reference_at(tree, "variablesReference")?,
    })
}

fn number_at(tree: &Tree, name: &str) -> Option<i128>
    ensures { result ≡ number_value (get name.now (view tree.now)) }
{
    match tree.child(name)? {
        Tree::Whole(number) => Some(*number),
        Tree::Id(_, number) => Some(i128::from(*number)),
        _ => None,
    }
}

fn reference_at(tree: &Tree, name: &str) -> Option<i64>
    ensures { result ≡ reference_value (get name.now (view tree.now)) }
{
    match tree.child(name)? {
        Tree::Whole(number) => i64::try_from(*number).ok(),
        Tree::Id(_, number) => Some(*number),
        _ => None,
    }
}
