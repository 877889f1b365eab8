//! Output that two sessions have in other pieces, and the rules that join it.
use crate::sessions::Sessions;
use crate::words::{content_of, push_parts, text_at};
use dap_message::{AnyMessage, Kind, Side};
use dap_stored::{StoredMessage, StoredSession};
use dap_tree::{Scratch, Tree};
use std::alloc::{AllocError, Global};

/// The rules that join output. Those that hide less come first.
pub const JOINS: [&[u8]; 2] = [
    b"join   event output per-stop\n\n",
    b"join   event output\n\n",
];

fn is_output(message: &StoredMessage<'_>) -> bool {
    message.side() == Side::Adapter && message.kind() == Kind::Event && message.name() == "output"
}

/// Returns the category and the text of the body of an `output` event, if it is a piece: a rule can
/// join it to others.
fn piece_in(body: &Tree) -> Option<(&str, &str)> {
    let category = match body.child("category") {
        None => "console",
        Some(Tree::Text(category)) => category.as_str(),
        Some(_) => return None,
    };
    match body.child("variablesReference") {
        None | Some(Tree::Whole(0)) => Some((category, text_at(body, "output")?)),
        Some(_) => None,
    }
}

/// Returns whether the body of a piece has members that joined output lacks.
fn has_others(body: &Tree) -> bool {
    let Tree::Object(members) = body else {
        return false;
    };
    let known = ["category", "output", "variablesReference"];
    members.keys().any(|name| !known.contains(&name.as_str()))
}

/// Appends the category and the text of an `output` event, if it is a piece. Returns whether it has
/// members that joined output lacks.
fn push_piece(event: &Tree, pieces: &mut Vec<u8>) -> Result<bool, AllocError> {
    if let Some(body) = event.child("body")
        && let Some((category, text)) = piece_in(body)
    {
        // No text has the byte between them.
        let piece = [category.as_bytes(), b"\xff", text.as_bytes(), b"\xff"];
        push_parts(&piece, pieces)?;
        return Ok(has_others(body));
    }
    Ok(false)
}

/// Appends the pieces of a session. Returns whether one has members that joined output lacks.
fn push_pieces(
    alloc: Global,
    session: &StoredSession,
    pieces: &mut Vec<u8>,
) -> Result<bool, AllocError> {
    let mut scratch = Scratch::new(alloc);
    let mut have_others = false;
    for place in 0..session.len() {
        if let Some(message) = session.message(place)
            && is_output(&message)
        {
            let event = content_of(alloc, &message, &mut scratch)?;
            have_others |= push_piece(&event, pieces)?;
        }
    }
    Ok(have_others)
}

/// Returns the comment on a rule that joins the output of two sessions, or `None` if their pieces
/// are equal one by one.
pub fn comment_on_join(
    alloc: Global,
    sessions: &Sessions,
) -> Result<Option<&'static [u8]>, AllocError> {
    let mut a = Vec::new(alloc);
    let mut b = Vec::new(alloc);
    let has_a = push_pieces(alloc, &sessions.a, &mut a)?;
    let has_b = push_pieces(alloc, &sessions.b, &mut b)?;
    Ok(if a.as_slice() == b.as_slice() {
        None
    } else if has_a || has_b {
        Some(b"# in B output comes in other pieces\n# also hides other members of these events\n")
    } else {
        Some(b"# in B output comes in other pieces\n")
    })
}
