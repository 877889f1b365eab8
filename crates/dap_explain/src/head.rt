//! Reads the head of a message: its sender, its kind and its name.
use crate::lines::{Lines, fill};
use crate::words::Word::{Named, Record, Seq, Text};
use dap_mask::{MaskRules, mask, omit, read_by_rules, read_loosely};
use dap_profile::Kind;
use dap_tree::{Scratch, Side, Tree, TreeFault};
use std::alloc::Global;

/// The members of a message that say what it is. A member that is absent or has another type is
/// `None`.
#[derive(Clone, Copy, Default)]
pub(crate) struct Head<'m> {
    /// The sender. `None` in frames of one direction.
    pub(crate) side: Option<Side>,
    pub(crate) kind: Option<Kind>,
    pub(crate) command: Option<&'m str>,
    pub(crate) event: Option<&'m str>,
    pub(crate) seq: Option<i64>,
    pub(crate) request_seq: Option<i64>,
    /// Whether the member `success` is true.
    pub(crate) is_success: bool,
}

impl<'m> Head<'m> {
    /// Reads the head of a message.
    pub(crate) fn of(side: Option<Side>, message: &'m Tree) -> Head<'m> {
        Head {
            side,
            kind: text_at(message, "type").and_then(Kind::named),
            command: text_at(message, "command"),
            event: text_at(message, "event"),
            seq: number_at(message, "seq"),
            request_seq: number_at(message, "request_seq"),
            is_success: matches!(message.child("success"), Some(Tree::Bool(true))),
        }
    }

    /// Returns the command of a request or a response, or the name of an event.
    pub(crate) fn name(&self) -> Option<&'m str> {
        match self.kind {
            Some(Kind::Event) => self.event,
            _ => self.command,
        }
    }

    /// Returns the `seq` of the request that a response answers.
    pub(crate) fn answered(&self) -> Option<i64> {
        self.request_seq
            .filter(|_| self.kind == Some(Kind::Response))
    }
}

fn text_at<'m>(message: &'m Tree, name: &str) -> Option<&'m str> {
    match message.child(name)? {
        Tree::Text(text) => Some(text.as_str()),
        _ => None,
    }
}

fn number_at(message: &Tree, name: &str) -> Option<i64> {
    match message.child(name)? {
        Tree::Whole(number) => i64::try_from(*number).ok(),
        _ => None,
    }
}

/// Adds the line that states which message a record contains: the marker of the sender, the kind
/// and the name, and the request that it answers.
pub(crate) fn add_head(lines: &mut Lines, number: u64, head: &Head<'_>) {
    let marker = match head.side {
        Some(Side::Client) => "> ",
        Some(Side::Adapter) => "< ",
        None => "",
    };
    let kind = head.kind.map_or("message of unknown type", Kind::word);
    let (text, seq) = match head.answered() {
        Some(seq) => ("{0} is {1}{2}{3}, to request {4}", seq),
        None => ("{0} is {1}{2}{3}", 0),
    };
    let (marker, kind) = (Text(marker), Text(kind));
    fill!(lines; text, Record(number), marker, kind, Named(head.name()), Seq(seq));
}

/// Adds the line that states whom to fix if a message of this side is invalid.
pub(crate) fn add_sender(lines: &mut Lines, side: Option<Side>) {
    lines.add(match side {
        Some(Side::Client) => "the client does not follow the protocol there: fix the client",
        Some(Side::Adapter) => "the adapter does not follow the protocol there: fix the adapter",
        None => "the program that sent it does not follow the protocol there: fix it",
    });
}

/// Reads a content. If it has a number that is not an integer of 64 bits, applies the rules to it
/// but omits no elements; such numbers that remain are 2^64.
fn read(alloc: Global, content: &[u8], rules: Option<&MaskRules>) -> Result<Tree, TreeFault> {
    let mut scratch = Scratch::new(alloc);
    let mut tree = read_loosely(alloc, content, &mut scratch)?;
    if let Some(rules) = rules
        && !tree.sound()
    {
        tree = read_by_rules(alloc, content, rules, &mut scratch)?;
        mask(&mut tree, rules);
    }
    Ok(tree)
}

/// Reads a content as `read` does. Returns `None` if it is not JSON, or after a failed allocation.
pub(crate) fn read_message(
    lines: &mut Lines,
    content: &[u8],
    rules: Option<&MaskRules>,
) -> Option<Tree> {
    let message = read(lines.alloc, content, rules);
    lines.fail_if(matches!(message, Err(TreeFault::Memory)));
    message.ok()
}

/// Reads a content as `read_message` does, without the elements that the rules omit.
pub(crate) fn read_kept(
    lines: &mut Lines,
    content: &[u8],
    rules: Option<&MaskRules>,
) -> Option<Tree> {
    let mut message = read_message(lines, content, rules)?;
    if let Some(rules) = rules {
        omit(&mut message, rules);
    }
    Some(message)
}
