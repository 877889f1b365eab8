//! Parses a tree in one pass over the tokens of a string, if every number is an integer of 64 bits.
ghost use Rattle.std.specs.Prelude.{◌≡◌, ◌<◌, ◌==◌, true, false, length, slice_index, IsTrue, IfOk};
ghost use Rattle.std.specs.Prelude.{OnOk, IsErrOf};
ghost use Rattle.json.specs.Json.{value, items, members};
ghost use Rattle.serde_json.specs.Data.{no_members};
ghost use Rattle.serde_json.specs.Read.{of_json, of_items, of_members, converted, number_of};
ghost use Rattle.serde_json.specs.Read.{number_from};
ghost use Rattle.dap_tree.specs.Json.{IsRead};
ghost use Rattle.dap_tree.specs.ReadTokens.{IsTextOf, IsNumberOf, IsParsed, AreItemsParsed};
ghost use Rattle.dap_tree.specs.ReadTokens.{AreMembersParsed};
ghost use Rattle.dap_tree.specs.View.{view, items_view, members_view};
ghost use Rattle.dap_tree.specs.declared.parse.Unread.TheVariants.{Memory};

use crate::Tree;
use fast_float::Numeral;
use json::{Invalid, Reader, Scratch, Token};
use std::alloc::{AllocError, AllocFailed, Global};
use std::collections::BTreeMap;

/// The maximum nesting depth, that of `serde_json`.
const MAX_DEPTH: usize = 127;

/// Why a string could not be parsed in one pass.
#[derive(Clone, Copy, Drop)]
pub(crate) enum Unread {
    Memory,
    /// The string may be invalid JSON, or contain a number that is not an integer of 64 bits. A
    /// later member of the same name may replace that number.
    Unclear,
}

impl From<AllocError> for Unread {
    fn from(_: AllocError) -> Unread {
        Unread::Memory
    }
}

impl<T: Drop> From<AllocFailed<T>> for Unread {
    fn from(_: AllocFailed<T>) -> Unread {
        Unread::Memory
    }
}

impl From<Invalid> for Unread {
    fn from(_: Invalid) -> Unread {
        Unread::Unclear
    }
}

/// Parses the tree of a content. Reuses the buffer `scratch`.
pub(crate) fn parse(alloc: Global, content: &[u8], scratch: &mut Scratch) -> Result<Tree, Unread>
    ensures ok { IfOk result (λ t. IsRead content.now (view t)) }
    ensures memory { IsErrOf result Memory → 0 < length content.now }
{
    if content.is_empty() {
        return Err(Unread::Unclear);
    }
    match simdutf8::compat::from_utf8(content) {
        Ok(text) => parse_text(alloc, text, scratch),
        Err(_) => Err(Unread::Unclear),
    }
}

fn parse_text(alloc: Global, text: &str, scratch: &mut Scratch) -> Result<Tree, Unread>
    ensures { IfOk result (λ t. IsTextOf text.now (view t)) }
{
    let mut reader = Reader::new(text, scratch)?;
    let tree = parse_value(alloc, &mut reader, MAX_DEPTH)?;
    if reader.next().is_some() {
        return Err(Unread::Unclear);
    }
    Ok(tree)
}

#[cycle(parse)]
#[inline(always)]
fn parse_value(alloc: Global, reader: &mut Reader<'_>, depth: usize) -> Result<Tree, Unread>
    ensures ok { IfOk result
        (λ t. IsParsed (converted of_json (value depth reader.old)) (view t) reader.new) }
    ensures shorter { OnOk result (length reader.new < length reader.old) }
{
    let token = reader.next().ok_or(Unread::Unclear)?;
    match token {
        Token::String(text) => Ok(Tree::Text(String::from_str(alloc, text)?)),
        Token::Number(text) => whole(text),
        Token::Bool(b) => Ok(Tree::Bool(b)),
        Token::Null => Ok(Tree::Null),
        Token::EndObject | Token::EndArray | Token::Key(_) | Token::Bad => Err(Unread::Unclear),
        Token::BeginArray => {
            if depth == 0 {
                return Err(Unread::Unclear);
            }
            Ok(Tree::List(parse_items(alloc, reader, depth - 1)?))
        }
        Token::BeginObject => {
            if depth == 0 {
                return Err(Unread::Unclear);
            }
            Ok(Tree::Object(parse_members(alloc, reader, depth - 1)?))
        }
    }
}

#[cycle(parse)]
#[inline(never)]
fn parse_items(alloc: Global, reader: &mut Reader<'_>, depth: usize) -> Result<Vec<Tree>, Unread>
    ensures ok { IfOk result (λ v. AreItemsParsed
        (converted of_items (items (value depth) (length reader.old) reader.old))
        (items_view v.items) reader.new) }
    ensures shorter { OnOk result (length reader.new < length reader.old) }
{
    let mut found = Vec::new(alloc);
    'items: while !reader.take_end_array() {
        let item = parse_value(alloc, reader, depth)?;
        found.push(item)?;
    }
    Ok(found)
}

#[cycle(parse)]
#[inline(never)]
fn parse_members(
    alloc: Global,
    reader: &mut Reader<'_>,
    depth: usize,
) -> Result<BTreeMap<String, Tree>, Unread>
    ensures ok { IfOk result (λ m. AreMembersParsed
        (converted (λ ms. of_members ms no_members)
        (members (value depth) (length reader.old) reader.old))
        (members_view m.entries) reader.new) }
    ensures shorter { OnOk result (length reader.new < length reader.old) }
{
    let mut found = BTreeMap::new(alloc);
    'members: while let Some(name) = reader.next_key()? {
        let key = String::from_str(alloc, name)?;
        let member = parse_value(alloc, reader, depth)?;
        drop(found.insert(key, member)?);
    }
    Ok(found)
}

/// Returns the integer that a JSON number token represents.
#[inline(always)]
fn whole(text: &str) -> Result<Tree, Unread>
    ensures { IfOk result (λ t. IsNumberOf (number_of text.now) (view t)) }
{
    let bytes = text.as_bytes();
    if has_minus(bytes) {
        negative(&Numeral::scan(&bytes[1..]))
    } else {
        unsigned(&Numeral::scan(bytes))
    }
}

#[inline(always)]
fn has_minus(bytes: &[u8]) -> bool
    ensures value { result ≡ (slice_index bytes.now 0 == 45) }
    ensures len { IsTrue result → 0 < length bytes.now }
{
    !bytes.is_empty() && bytes[0] == b'-'
}

#[inline(always)]
fn unsigned(numeral: &Numeral<'_>) -> Result<Tree, Unread>
    ensures { IfOk result (λ t. IsNumberOf (number_from false numeral.now) (view t)) }
{
    match numeral.to_u64() {
        Some(n) => Ok(Tree::Whole(n as i128)),
        None => Err(Unread::Unclear),
    }
}

/// Returns the negative integer of the digits after a minus sign; `-0` is not an integer.
#[inline(always)]
fn negative(numeral: &Numeral<'_>) -> Result<Tree, Unread>
    ensures { IfOk result (λ t. IsNumberOf (number_from true numeral.now) (view t)) }
{
    if let Some(n) = numeral.to_i64(true) {
        if n < 0 {
            return Ok(Tree::Whole(n as i128));
        }
    }
    Err(Unread::Unclear)
}
