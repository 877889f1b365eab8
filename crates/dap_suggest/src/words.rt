//! The words of rules and of their comments.
use dap_difference::{Step, push_path};
use dap_message::Kind;
use dap_stored::StoredMessage;
use dap_tree::{Scratch, Tree, read_tree_with, write_tree};
use std::alloc::{AllocError, Global};

/// Appends all parts, one after the other.
pub fn push_parts(parts: &[&[u8]], out: &mut Vec<u8>) -> Result<(), AllocError> {
    for part in parts {
        out.extend_from_slice(part)?;
    }
    Ok(())
}

/// Returns all parts, one after the other.
pub fn parts_of(alloc: Global, parts: &[&[u8]]) -> Result<Vec<u8>, AllocError> {
    let mut out = Vec::new(alloc);
    push_parts(parts, &mut out)?;
    Ok(out)
}

/// Appends a member to the messages and the place of a rule.
pub fn push_member(alloc: Global, name: &str, target: &mut Vec<u8>) -> Result<(), AllocError> {
    if !target.ends_with(b" ") {
        target.push(b'.')?;
    }
    push_path(alloc, &[Step::Member(name)], target)
}

/// Returns a kind and a name of messages, as rules have them: the kind with spaces after it up to
/// one length, and the name as it is or as a JSON string.
pub fn class_of(alloc: Global, kind: Kind, name: &str) -> Result<Vec<u8>, AllocError> {
    let kind = kind.word();
    let mut class = format!(in alloc; "{kind:<9}")?.into_bytes();
    push_path(alloc, &[Step::Member(name)], &mut class)?;
    Ok(class)
}

/// Returns the content of a message. It was read before, so no other error is possible.
pub fn content_of(
    alloc: Global,
    message: &StoredMessage<'_>,
    scratch: &mut Scratch,
) -> Result<Tree, AllocError> {
    read_tree_with(alloc, message.content(), scratch).map_err(|_| AllocError)
}

/// Returns the text of a member.
pub fn text_at<'t>(tree: &'t Tree, name: &str) -> Option<&'t str> {
    match tree.child(name)? {
        Tree::Text(text) => Some(text.as_str()),
        _ => None,
    }
}

/// Returns the kind and the name of a message, if it has them.
pub fn head_of(message: &Tree) -> Option<(Kind, &str)> {
    let kind = Kind::named(text_at(message, "type")?)?;
    let name = match kind {
        Kind::Request | Kind::Response => text_at(message, "command"),
        Kind::Event => text_at(message, "event"),
    };
    Some((kind, name?))
}

/// Returns a value as JSON. An id is its number.
pub fn json_of(alloc: Global, value: &Tree) -> Result<String, AllocError> {
    if !value.sound() {
        return Ok(String::new(alloc));
    }
    write_tree(alloc, value).map_err(|_| AllocError)
}

/// Returns a text as JSON.
pub fn json_of_text(alloc: Global, text: &str) -> Result<String, AllocError> {
    json_of(alloc, &Tree::Text(String::from_str(alloc, text)?))
}
