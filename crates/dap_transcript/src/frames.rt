//! Splits recordings of canonical contents.
ghost use Rattle.std.specs.Prelude.{◌≡◌, ◌==◌, ◌<◌, ◌≤◌, ◌++◌, ◌∷◌, List, ℕ, IfSome, length};
ghost use Rattle.std.specs.{Prelude.{not, position, true}, List.list_all};
ghost use Rattle.dap_message.specs.Message.{Sent};
ghost use Rattle.dap_recording.specs.{Marker.marker, Recording.record_text};
ghost use Rattle.dap_stored.specs.Contents.{IsOfContent};
ghost use Rattle.dap_tree.specs.Json.{text_of};
ghost use Rattle.dap_transcript.specs.Heads.{SplitsRecord, StartsWithHead};

use crate::heads::read_head;
use crate::record::Head;
use dap_tree::Side;

/// The number of bytes of a record before the number that is the length of its content: the marker,
/// and the name of the field with a colon and a blank.
const BEFORE_LENGTH: usize = 17;

fn side_of(first: u8) -> Option<Side>
    ensures { IfSome result (λ side. first ≡ marker side) }
{
    match first {
        b'>' => Some(Side::Client),
        b'<' => Some(Side::Adapter),
        _ => None,
    }
}

fn brace_at(text: &[u8]) -> Option<usize>
    ensures place { result ≡ position (λ b. b == 123) text.now }
    ensures within { IfSome result (λ at. at ≤ length text.now) }
{
    text.iter().position(|byte| *byte == b'{')
}

/// Returns the text from its first brace on.
fn from_brace(text: &[u8]) -> Option<&[u8]>
    ensures brace { IfSome result (λ found. (front rest : List ℕ)
        → list_all (λ b. not (b == 123)) front ≡ true → text.now ≡ front ++ 123 ∷ rest
        → found.now ≡ 123 ∷ rest) }
    ensures within { IfSome result (λ found. length found.now ≤ length text.now) }
{
    let start = brace_at(text)?;
    Some(&text[start..])
}

/// Returns the side of the record that a text starts with, and the text from its content on. The
/// content is an object, and no byte of the header is a brace.
fn split_record(text: &[u8]) -> Option<(Side, &[u8])>
    ensures record { IfSome result (SplitsRecord text.now) }
    ensures within { IfSome result (λ read. length read.1.now ≤ length text.now) }
{
    if text.len() < BEFORE_LENGTH {
        return None;
    }
    let side = side_of(text[0])?;
    let content = from_brace(&text[BEFORE_LENGTH..])?;
    Some((side, content))
}

/// Reads the head of the message whose record the text starts with. Returns the head, and what
/// follows the record. Returns `None` if a value cannot be read in place, such as a name that is
/// not simple. Does not allocate.
pub(crate) fn read_record(text: &[u8]) -> Option<(Head<'_>, &[u8])>
    ensures head { IfSome result (λ read. (m : Sent) (more : List ℕ) → IsOfContent m
        → text.now ≡ record_text m.side (text_of m.doc) ++ more → StartsWithHead read m more) }
    ensures shorter { IfSome result (λ read. length read.1.now < length text.now) }
{
    let (side, content) = split_record(text)?;
    let (head, rest) = read_head(side, content)?;
    match rest {
        [b'\n', rest @ ..] => Some((head, rest)),
        _ => None,
    }
}
