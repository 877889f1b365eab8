//! Finds the `output` and `stopped` events among the messages of an adapter.
ghost use Rattle.std.specs.Prelude.{◌≡◌, false, option_map};
ghost use Rattle.dap_tree.specs.Doc.{get};
ghost use Rattle.dap_tree.specs.View.{view};
ghost use Rattle.dap_message.specs.Envelope.{text_value};
ghost use Rattle.dap_message.specs.Rows.{is_text};
ghost use Rattle.dap_join.specs.Outputs.{IsPart, category_in, get_in, has_no_children, is_event};
ghost use Rattle.dap_join.specs.Outputs.{other, output_in, output_with, part_of, seq_in};
ghost use Rattle.dap_join.specs.JoiningSteps.{IsNoEvent, output_shown, part_if_read, part_shown};

use dap_tree::{Side, Tree};
use memchr::memmem;

/// The output of an event, borrowed from its content.
#[derive(Clone, Copy, Drop)]
pub(crate) struct LentOutput<'a> {
    pub(crate) seq: Option<i64>,
    pub(crate) category: &'a str,
    pub(crate) text: &'a str,
}

/// What a record is for joining.
#[derive(Clone, Copy, Drop)]
pub(crate) enum LentPart<'a> {
    Output(LentOutput<'a>),
    Stopped,
    Other,
}

/// Returns `false` only for records that are neither `output` nor `stopped` events.
pub(crate) fn may_be_event(side: Side, content: &[u8]) -> bool
    ensures { result ≡ false → IsPart (side, content.now) other }
{
    match side {
        Side::Client => false,
        Side::Adapter => may_have_kind(content),
    }
}

/// Returns whether the string `event` may occur in a content, as it is or with an escape.
fn may_have_kind(content: &[u8]) -> bool
    ensures { result ≡ false → IsNoEvent content.now }
{
    memmem::find(content, b"event\"").is_some() || memmem::find(content, b"\\u").is_some()
}

/// Returns what a record is for joining, by its document if it was read.
pub(crate) fn part_if_read<'a>(side: Side, tree: &'a Option<Tree>) -> LentPart<'a>
    ensures { part_shown result ≡ part_if_read side (option_map view tree.now) }
{
    match tree {
        Some(tree) => part_of(side, tree),
        None => LentPart::Other,
    }
}

/// Returns what a message is for joining.
fn part_of<'a>(side: Side, tree: &'a Tree) -> LentPart<'a>
    ensures { part_shown result ≡ part_of side (view tree.now) }
{
    match side {
        Side::Client => LentPart::Other,
        Side::Adapter => part_of_adapter(tree),
    }
}

fn part_of_adapter<'a>(tree: &'a Tree) -> LentPart<'a>
    ensures { part_shown result ≡ part_of Side.Adapter (view tree.now) }
{
    match output_in(tree) {
        Some(output) => LentPart::Output(output),
        None if is_event(tree, "stopped") => LentPart::Stopped,
        None => LentPart::Other,
    }
}

/// Returns the output of an `output` event that can be joined.
fn output_in<'a>(tree: &'a Tree) -> Option<LentOutput<'a>>
    ensures { option_map output_shown result ≡ output_in (view tree.now) }
{
    if is_event(tree, "output") {
        output_with(tree, tree.child("body"))
    } else {
        None
    }
}

fn output_with<'a>(tree: &'a Tree, body: Option<&'a Tree>) -> Option<LentOutput<'a>>
    ensures { option_map output_shown result
        ≡ output_with (view tree.now) (option_map (λ t. view t.now) body.entry) }
{
    let seq = seq_in(tree.child("seq"))?;
    let category = category_in(child_of(body, "category"))?;
    let text = text_in(child_of(body, "output"))?;
    if has_no_children(child_of(body, "variablesReference")) {
        Some(LentOutput {
            seq,
            category,
            text,
        })
    } else {
        None
    }
}

fn is_event(tree: &Tree, name: &str) -> bool
    ensures { result ≡ is_event name.now (view tree.now) }
{
    has_text(tree, "type", "event") && has_text(tree, "event", name)
}

fn has_text(tree: &Tree, name: &str, word: &str) -> bool
    ensures { result ≡ is_text word.now (get name.now (view tree.now)) }
{
    match tree.child(name) {
        Some(Tree::Text(text)) => text.as_str() == word,
        _ => false,
    }
}

/// Returns the member of a tree, if there is a tree.
fn child_of<'a>(tree: Option<&'a Tree>, name: &str) -> Option<&'a Tree>
    ensures { option_map (λ t. view t.now) result
        ≡ get_in name.now (option_map (λ t. view t.now) tree.entry) }
{
    tree?.child(name)
}

fn seq_in(tree: Option<&Tree>) -> Option<Option<i64>>
    ensures { result ≡ seq_in (option_map (λ t. view t.now) tree.entry) }
{
    match tree {
        None => Some(None),
        Some(Tree::Whole(number)) => match i64::try_from(*number).ok() {
            Some(seq) => Some(Some(seq)),
            None => None,
        },
        Some(_) => None,
    }
}

fn category_in<'a>(tree: Option<&'a Tree>) -> Option<&'a str>
    ensures { option_map (λ s. s.now) result
        ≡ category_in (option_map (λ t. view t.now) tree.entry) }
{
    match tree {
        None => Some("console"),
        Some(Tree::Text(category)) => Some(category.as_str()),
        Some(_) => None,
    }
}

fn text_in<'a>(tree: Option<&'a Tree>) -> Option<&'a str>
    ensures { option_map (λ s. s.now) result
        ≡ text_value (option_map (λ t. view t.now) tree.entry) }
{
    match tree {
        Some(Tree::Text(text)) => Some(text.as_str()),
        _ => None,
    }
}

fn has_no_children(tree: Option<&Tree>) -> bool
    ensures { result ≡ has_no_children (option_map (λ t. view t.now) tree.entry) }
{
    match tree {
        None => true,
        Some(Tree::Whole(number)) => *number == 0,
        Some(_) => false,
    }
}
