//! Reads the heads of messages from their canonical contents.
ghost use Rattle.std.specs.Prelude.{◌≡◌, ◌++◌, ◌∷◌, ◌<◌, ◌≤◌, ℕ, ℤ, Bool, List, IfSome, length};
ghost use Rattle.std.specs.Prelude.{None, true};
ghost use Rattle.std.specs.List.{list_all};
ghost use Rattle.dap_tree.specs.{Json.text_of};
ghost use Rattle.dap_tree.specs.Doc as doc;
ghost use Rattle.dap_tree.specs.Doc.{Doc, Members, in_range};
ghost use Rattle.json.specs.Print.{escape};
ghost use Rattle.serde_json.specs.Written.{comma_if};
ghost use Rattle.dap_profile.specs.declared.profile.Kind.TheVariants.{Response};
ghost use Rattle.dap_message.specs.{Message.Sent, Rows.name_key, Rows.type_name};
ghost use Rattle.dap_session.specs.Messages.{is_yes, kind_of, request_seq_of, same_kind};
ghost use Rattle.dap_session.specs.Messages.{success_of};
ghost use Rattle.dap_stored.specs.Contents.{IsOfContent};
ghost use Rattle.dap_transcript.specs.Heads.{AreValuesOf, IsHead, ReadsMembers};
ghost use Rattle.dap_transcript.specs.Heads.{SplitsMember, StartsWithHead, ValuesLeft};
ghost use Rattle.dap_transcript.specs.Heads.{value_among};
ghost use Rattle.dap_transcript.specs.{Scalars.is_simple};

use crate::canonical::{split_simple, split_string, split_value, without_quotes};
use crate::record::Head;
use crate::tokens::{Numbered, Title};
use dap_profile::Kind;
use dap_tree::Side;
use std::str;

/// The name of a member, as it is inside its quotes, and the text of its value.
#[derive(Clone, Copy, Drop)]
struct Member<'t> {
    name: &'t [u8],
    value: &'t [u8],
}

/// The texts of the values that a head is read from.
#[derive(Clone, Copy, Drop)]
struct Values<'t> {
    kind: Option<&'t [u8]>,
    command: Option<&'t [u8]>,
    event: Option<&'t [u8]>,
    seq: Option<&'t [u8]>,
    request_seq: Option<&'t [u8]>,
    success: Option<&'t [u8]>,
}

/// Returns the value that was found under this key, or that of the member if it has this name.
fn first_value<'t>(found: Option<&'t [u8]>, key: &[u8], member: Member<'t>) -> Option<&'t [u8]>
    ensures { (k : List ℕ) (d : Doc) (ms : Members) → member.entry.name.now ≡ escape k
        → member.entry.value.now ≡ text_of d → list_all is_simple key.now ≡ true
        → value_among result key.now ms
        ≡ value_among found.entry key.now (doc.member k d ms) }
{
    if member.name != key {
        return found;
    }
    if found.is_some() {
        return found;
    }
    Some(member.value)
}

impl<'t> Values<'t> {
    /// Creates the value without members.
    fn new() -> Values<'t>
        ensures { (ms : Members) → ValuesLeft result ms ms }
    {
        Values {
            kind: None,
            command: None,
            event: None,
            seq: None,
            request_seq: None,
            success: None,
        }
    }

    /// Returns the values after one member more.
    fn after(self, member: Member<'t>) -> Values<'t>
        ensures { (k : List ℕ) (d : Doc) (left ms : Members) → member.entry.name.now ≡ escape k
            → member.entry.value.now ≡ text_of d → ValuesLeft self.entry (doc.member k d left) ms
            → ValuesLeft result left ms }
    {
        Values {
            kind: first_value(self.kind, b"type", member),
            command: first_value(self.command, b"command", member),
            event: first_value(self.event, b"event", member),
            seq: first_value(self.seq, b"seq", member),
            request_seq: first_value(self.request_seq, b"request_seq", member),
            success: first_value(self.success, b"success", member),
        }
    }
}

/// Returns the text after a comma, if there is one before the string that the text starts with.
fn without_comma(text: &[u8]) -> &[u8]
    ensures string { (later : Bool) (s : List ℕ) → text.now ≡ comma_if later ++ 34 ∷ s
        → result.now ≡ 34 ∷ s }
    ensures within { length result.now ≤ length text.now }
{
    match text {
        [b',', rest @ ..] => rest,
        _ => text,
    }
}

/// Returns the member that a canonical text starts with, after a comma if there is one, and what
/// follows it.
fn split_member(text: &[u8]) -> Option<(Member<'_>, &[u8])>
    ensures member { IfSome result (SplitsMember text.now) }
    ensures shorter { IfSome result (λ read. length read.1.now < length text.now) }
{
    let (name, rest) = split_string(without_comma(text))?;
    let [b':', rest @ ..] = rest else {
        return None;
    };
    let (value, rest) = split_value(rest)?;
    let name = without_quotes(name);
    let member = Member { name, value };
    Some((member, rest))
}

/// Reads the members of an object, of which the text comes after the opening bracket, and adds the
/// values that a head is read from. Returns what follows the object.
fn read_members<'t>(text: &'t [u8], values: &mut Values<'t>) -> Option<&'t [u8]>
    ensures { IfSome result (λ rest. ReadsMembers text.now values.old values.new rest.now) }
{
    let mut left = text;
    while !left.is_empty() {
        if left[0] == b'}' {
            return Some(&left[1..]);
        }
        let (member, after) = split_member(left)?;
        *values = values.after(member);
        left = after;
    }
    None
}

fn kind_in(value: &[u8]) -> Option<Kind>
    ensures { IfSome result (λ kind. value.now ≡ text_of (doc.text (type_name kind))) }
{
    if value == b"\"request\"".as_slice() {
        return Some(Kind::Request);
    }
    if value == b"\"response\"".as_slice() {
        return Some(Kind::Response);
    }
    if value == b"\"event\"".as_slice() {
        return Some(Kind::Event);
    }
    None
}

/// Returns the string without its quotes, or `None` if it has a byte that is not simple.
fn name_in(value: &[u8]) -> Option<&[u8]>
    ensures { IfSome result (λ name.
        (s : List ℕ) → value.now ≡ text_of (doc.text s) → name.now ≡ s) }
{
    let (name, _) = split_simple(value)?;
    Some(without_quotes(name))
}

fn number_in(value: &[u8]) -> Option<i64>
    ensures { IfSome result (λ number. (z : ℤ) → in_range z ≡ true
        → value.now ≡ text_of (doc.whole z) → number ≡ z) }
{
    let Ok(digits) = str::from_utf8(value) else {
        return None;
    };
    match digits.parse::<i64>() {
        Ok(number) => Some(number),
        Err(_) => None,
    }
}

fn flag_in(value: &[u8]) -> Option<bool>
    ensures { IfSome result (λ flag. value.now ≡ text_of (doc.boolean flag)) }
{
    if value == b"true".as_slice() {
        return Some(true);
    }
    if value == b"false".as_slice() {
        return Some(false);
    }
    None
}

/// Returns the value that names a message of this kind.
fn name_value<'t>(kind: Kind, values: Values<'t>) -> Option<&'t [u8]>
    ensures { (ms : Members) → ValuesLeft values.entry doc.no_members ms
        → value_among result (name_key kind) doc.no_members
        ≡ value_among None (name_key kind) ms }
{
    match kind {
        Kind::Request | Kind::Response => values.command,
        Kind::Event => values.event,
    }
}

fn is_response(kind: Kind) -> bool
    ensures { result ≡ same_kind Response kind }
{
    kind == Kind::Response
}

/// Returns the number of the request that a message of this kind answers, and whether it reports
/// success.
fn answer_of(kind: Kind, values: Values<'_>) -> Option<(Option<i64>, bool)>
    ensures { IfSome result (λ answer. (m : Sent) → AreValuesOf values.entry m → kind ≡ kind_of m
        → (answer.0 ≡ request_seq_of m) × (answer.1 ≡ is_yes (success_of m))) }
{
    if is_response(kind) {
        let request = number_in(values.request_seq?)?;
        let success = flag_in(values.success?)?;
        return Some((Some(request), success));
    }
    Some((None, false))
}

/// Returns the head of a message of this side, from the values that were found in its content.
fn head_of<'t>(side: Side, values: Values<'t>, content: &'t [u8]) -> Option<Head<'t>>
    ensures { IfSome result (λ head. (m : Sent) → AreValuesOf values.entry m → side ≡ m.side
        → content.now ≡ text_of m.doc → IsHead head m) }
{
    let kind = kind_in(values.kind?)?;
    let name = name_in(name_value(kind, values)?)?;
    let seq = number_in(values.seq?)?;
    let (request, success) = answer_of(kind, values)?;
    let title = Title { side, kind, name };
    let numbered = Numbered {
        title,
        seq,
        request,
    };
    Some(Head {
        numbered,
        success,
        content,
    })
}

/// Returns the text without its end, or `None` if the end is longer.
fn without_end<'t>(text: &'t [u8], end: &[u8]) -> Option<&'t [u8]>
    ensures front { IfSome result (λ front. (own : List ℕ) → text.now ≡ own ++ end.now
        → front.now ≡ own) }
    ensures within { IfSome result (λ front. length end.now ≤ length text.now) }
{
    if text.len() < end.len() {
        return None;
    }
    Some(&text[..text.len() - end.len()])
}

/// Reads the head of the message of this side whose canonical content the text starts with. Returns
/// the head, and what follows the content. Returns `None` if a value cannot be read in place, such
/// as a name that is not simple. Does not allocate.
pub(crate) fn read_head(side: Side, text: &[u8]) -> Option<(Head<'_>, &[u8])>
    ensures head { IfSome result (λ read. (m : Sent) (more : List ℕ) → IsOfContent m
        → side ≡ m.side → text.now ≡ text_of m.doc ++ more → StartsWithHead read m more) }
    ensures within { IfSome result (λ read. length read.1.now ≤ length text.now) }
{
    if text.is_empty() {
        return None;
    }
    let mut values = Values::new();
    let rest = read_members(&text[1..], &mut values)?;
    let content = without_end(text, rest)?;
    let head = head_of(side, values, content)?;
    Some((head, rest))
}
