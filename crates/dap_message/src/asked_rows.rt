//! The rows that apply to a message.
ghost use Rattle.std.specs.Prelude.{◌≡◌, Some, option_map, codes};
ghost use Rattle.dap_tree.specs.Doc.{get};
ghost use Rattle.dap_tree.specs.View.{view};
ghost use Rattle.dap_profile.specs.RowRanges.{rows_in};
ghost use Rattle.dap_message.specs.AskedRows.{asked_rows, kind_of_tree, name_of_tree};
ghost use Rattle.dap_message.specs.Rows.{is_text, is_true, is_of_kind};

use crate::message::text_at;
use dap_profile::{AskedRows, Kind, rows_of};
use dap_tree::Tree;

pub(crate) fn has_text(tree: &Tree, name: &str, word: &str) -> bool
    ensures { result ≡ is_text word.now (get name.now (view tree.now)) }
{
    match tree.child(name) {
        Some(Tree::Text(text)) => text.as_str() == word,
        _ => false,
    }
}

pub(crate) fn has_succeeded(tree: &Tree) -> bool
    ensures { result ≡ is_true (get (codes "success") (view tree.now)) }
{
    match tree.child("success") {
        Some(Tree::Bool(success)) => *success,
        _ => false,
    }
}

pub(crate) fn is_of_kind(tree: &Tree, kind: Kind) -> bool
    ensures { result ≡ is_of_kind kind (view tree.now) }
{
    match kind {
        Kind::Request => has_text(tree, "type", "request"),
        Kind::Response => has_text(tree, "type", "response"),
        Kind::Event => has_text(tree, "type", "event"),
    }
}

/// Returns the rows that apply to a tree of this kind.
pub(crate) fn asked_rows(tree: &Tree, kind: Kind) -> AskedRows
    requires { kind_of_tree (view tree.now) ≡ Some kind }
    ensures { rows_in result ≡ asked_rows (view tree.now) }
{
    rows_of(kind, name_of(tree, kind))
}

pub(crate) fn kind_of(tree: &Tree) -> Option<Kind>
    ensures { result ≡ kind_of_tree (view tree.now) }
{
    let name = text_at(tree, "type")?;
    if name == "request" {
        Some(Kind::Request)
    } else if name == "response" {
        Some(Kind::Response)
    } else if name == "event" {
        Some(Kind::Event)
    } else {
        None
    }
}

/// Returns the name of the message, or `None` if it has no name or may not have a body.
fn name_of(tree: &Tree, kind: Kind) -> Option<&str>
    ensures { option_map (λ s. s.now) result ≡ name_of_tree kind (view tree.now) }
{
    match kind {
        Kind::Response if !has_succeeded(tree) => None,
        Kind::Request | Kind::Response => text_at(tree, "command"),
        Kind::Event => text_at(tree, "event"),
    }
}
