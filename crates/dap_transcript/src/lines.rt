//! Writes the lines of the values of canonical texts.
ghost use Rattle.std.specs.Prelude.{◌≡◌, ℕ, ◌+◌, ◌<◌, ◌∷◌, ◌++◌, List, cond, codes, length};
ghost use Rattle.std.specs.Prelude.{IfOk, IfSome, MatchOption, OnOk};
ghost use Rattle.dap_tree.specs.Doc as doc;
ghost use Rattle.dap_tree.specs.{Json.text_of};
ghost use Rattle.dap_transcript.specs.Canonical.{Splits};
ghost use Rattle.dap_transcript.specs.Lines.{list_margin, margin};
ghost use Rattle.dap_transcript.specs.Walk.{PushesItem, PushesItems, PushesList, PushesMember};
ghost use Rattle.dap_transcript.specs.Walk.{PushesMembers, PushesNamed, PushesObject, PushesPart};
ghost use Rattle.dap_transcript.specs.Walk.{PushesPlain, PushesString, StartsWithName};
ghost use Rattle.dap_transcript.specs.Walk.{WritesString};

use crate::canonical::{split_simple, split_string, split_value};
use crate::names::{push_name, split_plain_name};
use crate::scalars::push_escaped;
use std::alloc::AllocError;

/// The indentation that most lines have at most.
const BLANKS: &[u8] = b"                                ";

/// Appends the indentation of a line.
#[tactic(auto, using(crate::proofs::TextLines::blanks_added))]
pub(crate) fn push_margin(len: usize, out: &mut Vec<u8>) -> Result<(), AllocError>
    ensures { OnOk result (out.new.items ≡ out.old.items ++ margin len) }
{
    if let Some(blanks) = BLANKS.get(..len) {
        return out.extend_from_slice(blanks);
    }
    let end = out.len().checked_add(len).ok_or(AllocError)?;
    out.resize(end, b' ')
}

/// Returns the indentation of the members of an object at this indentation.
fn inner(len: usize) -> Result<usize, AllocError>
    ensures { IfOk result (λ inside. inside ≡ len + 2) }
{
    len.checked_add(2).ok_or(AllocError)
}

/// Returns the indentation of the elements of a list, which is the value of a name or an element.
fn list_margin(named: bool, len: usize) -> Result<usize, AllocError>
    ensures { IfOk result (λ inside. inside ≡ list_margin named len) }
{
    if named { Ok(len) } else { inner(len) }
}

/// Returns the indentation of the first member of an object.
fn first_margin(named: bool, inside: usize) -> usize
    ensures { result ≡ cond named inside 0 }
{
    if named { inside } else { 0 }
}

/// Returns what separates the head of an object from its first member.
fn separator(named: bool) -> &'static [u8]
    ensures { result.now ≡ cond named (codes "\n") (codes " ") }
{
    if named { b"\n" } else { b" " }
}

/// Returns what follows this byte if the text starts with it.
pub(crate) fn after_byte(text: &[u8], byte: u8) -> Option<&[u8]>
    ensures { MatchOption result ((rest : List ℕ) → text.now ≡ byte ∷ rest → ⊥)
        (λ rest. text.now ≡ byte ∷ rest.now) }
{
    let (first, rest) = text.split_first()?;
    if *first == byte { Some(rest) } else { None }
}

/// Returns the name that a member starts with, with its quotes, and what follows its colon.
pub(crate) fn split_name(text: &[u8]) -> Option<(&[u8], &[u8])>
    ensures name { (k more : List ℕ) → StartsWithName text.now k more
        → Splits result (text_of (doc.text k)) more }
    ensures shorter { IfSome result (λ parts. length parts.1.now < length text.now) }
{
    let (name, rest) = split_string(text)?;
    let value = after_byte(rest, b':')?;
    Some((name, value))
}

/// Appends the string that the text starts with, as it is written. Returns what follows the string.
fn push_text<'t>(text: &'t [u8], out: &mut Vec<u8>) -> Result<&'t [u8], AllocError>
    ensures string { IfOk result
        (λ rest. WritesString text.now rest.now out.old.items out.new.items) }
    ensures shorter { IfOk result (λ rest. length rest.now < length text.now) }
{
    if let Some((string, rest)) = split_simple(text) {
        out.extend_from_slice(string)?;
        return Ok(rest);
    }
    let Some((string, rest)) = split_string(text) else {
        return Err(AllocError);
    };
    push_escaped(string, out)?;
    Ok(rest)
}

/// Appends a blank, the string that the text starts with, and a line end. Returns what follows the
/// string.
fn push_string_line<'t>(text: &'t [u8], out: &mut Vec<u8>) -> Result<&'t [u8], AllocError>
    ensures lines { IfOk result
        (λ rest. PushesString text.now rest.now out.old.items out.new.items) }
    ensures shorter { IfOk result (λ rest. length rest.now < length text.now) }
{
    out.push(b' ')?;
    let rest = push_text(text, out)?;
    out.push(b'\n')?;
    Ok(rest)
}

/// Does the same for a scalar that is not a string.
fn push_plain_line<'t>(text: &'t [u8], out: &mut Vec<u8>) -> Result<&'t [u8], AllocError>
    ensures lines { IfOk result
        (λ rest. PushesPlain text.now rest.now out.old.items out.new.items) }
    ensures shorter { IfOk result (λ rest. length rest.now < length text.now) }
{
    let Some((scalar, rest)) = split_value(text) else {
        return Err(AllocError);
    };
    out.push(b' ')?;
    out.extend_from_slice(scalar)?;
    out.push(b'\n')?;
    Ok(rest)
}

/// Appends what follows a name and its colon, or the `-` of an element, at this indentation, if the
/// canonical text starts with the value. Returns what follows the value.
#[cycle(push_part)]
pub(crate) fn push_part<'t>(
    text: &'t [u8],
    named: bool,
    margin: usize,
    out: &mut Vec<u8>,
) -> Result<&'t [u8], AllocError>
    ensures lines { IfOk result
        (λ rest. PushesPart named margin text.now rest.now out.old.items out.new.items) }
    ensures shorter { IfOk result (λ rest. length rest.now < length text.now) }
{
    if let Some(inside) = after_byte(text, b'{') {
        return push_object(inside, named, margin, out);
    }
    if let Some(inside) = after_byte(text, b'[') {
        return push_list(inside, named, margin, out);
    }
    if after_byte(text, b'"').is_some() {
        return push_string_line(text, out);
    }
    push_plain_line(text, out)
}

/// Does this for a list, after its opening bracket.
#[cycle(push_part)]
fn push_list<'t>(
    text: &'t [u8],
    named: bool,
    margin: usize,
    out: &mut Vec<u8>,
) -> Result<&'t [u8], AllocError>
    ensures lines { IfOk result
        (λ rest. PushesList named margin text.now rest.now out.old.items out.new.items) }
    ensures shorter { IfOk result (λ rest. length rest.now < length text.now) }
{
    if let Some(rest) = after_byte(text, b']') {
        out.extend_from_slice(b" []\n")?;
        return Ok(rest);
    }
    out.push(b'\n')?;
    let len = list_margin(named, margin)?;
    push_items(text, len, out)
}

/// Does this for an object, after its opening brace.
#[cycle(push_part)]
fn push_object<'t>(
    text: &'t [u8],
    named: bool,
    margin: usize,
    out: &mut Vec<u8>,
) -> Result<&'t [u8], AllocError>
    ensures lines { IfOk result
        (λ rest. PushesObject named margin text.now rest.now out.old.items out.new.items) }
    ensures shorter { IfOk result (λ rest. length rest.now < length text.now) }
{
    if let Some(rest) = after_byte(text, b'}') {
        out.extend_from_slice(b" {}\n")?;
        return Ok(rest);
    }
    out.extend_from_slice(separator(named))?;
    let len = inner(margin)?;
    push_members(text, first_margin(named, len), len, out)
}

/// Appends the lines of the items that the text starts with, and returns what follows their list.
#[cycle(push_part)]
fn push_items<'t>(text: &'t [u8], margin: usize, out: &mut Vec<u8>) -> Result<&'t [u8], AllocError>
    ensures lines { IfOk result
        (λ rest. PushesItems margin text.now rest.now out.old.items out.new.items) }
    ensures shorter { IfOk result (λ rest. length rest.now < length text.now) }
{
    let mut left = text;
    loop {
        let after = push_item(left, margin, out)?;
        if let Some(rest) = after_byte(after, b']') {
            return Ok(rest);
        }
        let Some(next) = after_byte(after, b',') else {
            return Err(AllocError);
        };
        left = next;
    }
}

/// Appends the lines of the item that the text starts with.
#[cycle(push_part)]
fn push_item<'t>(text: &'t [u8], margin: usize, out: &mut Vec<u8>) -> Result<&'t [u8], AllocError>
    ensures lines { IfOk result
        (λ rest. PushesItem margin text.now rest.now out.old.items out.new.items) }
    ensures shorter { IfOk result (λ rest. length rest.now < length text.now) }
{
    push_margin(margin, out)?;
    out.push(b'-')?;
    push_part(text, false, margin, out)
}

/// Appends the lines of the members that the text starts with, and returns what follows their
/// object.
#[cycle(push_part)]
fn push_members<'t>(
    text: &'t [u8],
    first: usize,
    margin: usize,
    out: &mut Vec<u8>,
) -> Result<&'t [u8], AllocError>
    ensures lines { IfOk result
        (λ rest. PushesMembers first margin text.now rest.now out.old.items out.new.items) }
    ensures shorter { IfOk result (λ rest. length rest.now < length text.now) }
{
    let mut left = text;
    let mut next = first;
    loop {
        let after = push_member(left, next, margin, out)?;
        if let Some(rest) = after_byte(after, b'}') {
            return Ok(rest);
        }
        let Some(more) = after_byte(after, b',') else {
            return Err(AllocError);
        };
        left = more;
        next = margin;
    }
}

/// Appends the lines of the member that the text starts with.
#[cycle(push_part)]
fn push_member<'t>(
    text: &'t [u8],
    first: usize,
    margin: usize,
    out: &mut Vec<u8>,
) -> Result<&'t [u8], AllocError>
    ensures lines { IfOk result
        (λ rest. PushesMember first margin text.now rest.now out.old.items out.new.items) }
    ensures shorter { IfOk result (λ rest. length rest.now < length text.now) }
{
    if let Some((name, value)) = split_plain_name(text) {
        push_margin(first, out)?;
        out.extend_from_slice(name)?;
        out.push(b':')?;
        return push_part(value, true, margin, out);
    }
    let Some((name, value)) = split_name(text) else {
        return Err(AllocError);
    };
    push_named(name, value, first, margin, out)
}

/// Appends the lines of a member: its name, with quotes, and the value that a text starts with.
/// Returns what follows the value.
#[cycle(push_part)]
pub(crate) fn push_named<'t>(
    name: &[u8],
    value: &'t [u8],
    first: usize,
    margin: usize,
    out: &mut Vec<u8>,
) -> Result<&'t [u8], AllocError>
    ensures lines { IfOk result
        (λ rest. PushesNamed first margin name.now value.now rest.now out.old.items out.new.items) }
    ensures shorter { IfOk result (λ rest. length rest.now < length value.now) }
{
    push_margin(first, out)?;
    push_name(name, out)?;
    out.push(b':')?;
    push_part(value, true, margin, out)
}
