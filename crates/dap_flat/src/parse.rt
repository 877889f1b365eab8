//! Reads the nodes of a content in one pass over the tokens of its text.
ghost use Rattle.std.specs.Prelude.{◌≡◌, ◌<◌, ◌==◌, true, false, length, slice_index, IsTrue, IfOk};
ghost use Rattle.std.specs.Prelude.{OnOk, IsErrOf, IsUtf8};
ghost use Rattle.json.specs.Json.{value, items, members};
ghost use Rattle.serde_json.specs.Data.{no_members};
ghost use Rattle.serde_json.specs.Read.{of_json, of_items, of_members, converted, number_of};
ghost use Rattle.serde_json.specs.Read.{number_from};
ghost use Rattle.dap_flat.specs.Reading.{ReadsDocument, ReadsText, ReadsNumber, ReadsValue};
ghost use Rattle.dap_flat.specs.Reading.{ReadsItems, ReadsMembers};

use crate::node::{Node, set_node};
use crate::place::place_member;
use crate::unread::{Unclear, Unread};
use fast_float::Numeral;
use json::{Reader, Scratch, Token};

/// The depth of nesting that `serde_json` accepts.
const MAX_DEPTH: usize = 127;

/// Reads a content as a flat document, with the members of each object in the order of their names.
///
/// The nodes replace those in `nodes`, whose capacity is used.
///
/// # Errors
///
/// - `Memory`: an allocation failed. The content is UTF-8, and is not empty.
/// - `Unclear`: the content has to be read as a tree.
pub fn read_flat<'a>(
    content: &'a [u8],
    scratch: &'a mut Scratch,
    nodes: Vec<Node<'a>>,
) -> Result<Vec<Node<'a>>, Unread>
    ensures ok { IfOk result (λ ns. ReadsDocument content.now ns.items) }
    ensures memory { IsErrOf result Unread.Memory
        → (0 < length content.now) × IsUtf8 content.now }
{
    if content.is_empty() {
        return Err(Unread::Unclear);
    }
    match std::str::from_utf8(content) {
        Ok(text) => parse_text(text, scratch, nodes),
        Err(_) => Err(Unread::Unclear),
    }
}

fn parse_text<'a>(
    text: &'a str,
    scratch: &'a mut Scratch,
    nodes: Vec<Node<'a>>,
) -> Result<Vec<Node<'a>>, Unread>
    ensures { IfOk result (λ ns. ReadsText text.now ns.items) }
{
    let mut nodes = nodes;
    nodes.clear();
    let mut reader = Reader::new(text, scratch)?;
    let mut moves = text.len().saturating_mul(4);
    parse_value(&mut reader, &mut nodes, MAX_DEPTH, &mut moves)?;
    if reader.next().is_some() {
        return Err(Unread::Unclear);
    }
    Ok(nodes)
}

#[cycle(parse)]
#[inline(always)]
fn parse_value<'a>(
    reader: &mut Reader<'a>,
    nodes: &mut Vec<Node<'a>>,
    depth: usize,
    moves: &mut usize,
) -> Result<(), Unread>
    ensures ok { OnOk result (ReadsValue (converted of_json (value depth reader.old))
        nodes.old.items nodes.new.items reader.new) }
    ensures shorter { OnOk result (length reader.new < length reader.old) }
{
    let Some(token) = reader.next() else {
        return Err(Unread::Unclear);
    };
    match token {
        Token::String(text) => {
            nodes.push(Node::Text(text))?;
            Ok(())
        }
        Token::Number(text) => {
            nodes.push(whole(text)?)?;
            Ok(())
        }
        Token::Bool(b) => {
            nodes.push(Node::Bool(b))?;
            Ok(())
        }
        Token::Null => {
            nodes.push(Node::Null)?;
            Ok(())
        }
        Token::EndObject | Token::EndArray | Token::Key(_) | Token::Bad => Err(Unread::Unclear),
        Token::BeginArray => {
            if depth == 0 {
                return Err(Unread::Unclear);
            }
            let at = nodes.len();
            nodes.push(Node::List(0))?;
            parse_items(reader, nodes, depth - 1, moves)?;
            let inside = nodes.len() - at - 1;
            set_node(nodes, at, Node::List(inside));
            nodes.push(Node::EndList)?;
            Ok(())
        }
        Token::BeginObject => {
            if depth == 0 {
                return Err(Unread::Unclear);
            }
            let at = nodes.len();
            nodes.push(Node::Object(0))?;
            parse_members(reader, nodes, depth - 1, moves)?;
            let inside = nodes.len() - at - 1;
            set_node(nodes, at, Node::Object(inside));
            nodes.push(Node::EndObject)?;
            Ok(())
        }
    }
}

#[cycle(parse)]
#[inline(never)]
fn parse_items<'a>(
    reader: &mut Reader<'a>,
    nodes: &mut Vec<Node<'a>>,
    depth: usize,
    moves: &mut usize,
) -> Result<(), Unread>
    ensures ok { OnOk result (ReadsItems
        (converted of_items (items (value depth) (length reader.old) reader.old))
        nodes.old.items nodes.new.items reader.new) }
    ensures shorter { OnOk result (length reader.new < length reader.old) }
{
    'items: while !reader.take_end_array() {
        parse_value(reader, nodes, depth, moves)?;
    }
    Ok(())
}

#[cycle(parse)]
#[inline(never)]
fn parse_members<'a>(
    reader: &mut Reader<'a>,
    nodes: &mut Vec<Node<'a>>,
    depth: usize,
    moves: &mut usize,
) -> Result<(), Unread>
    ensures ok { OnOk result (ReadsMembers
        (converted (λ ms. of_members ms no_members)
        (members (value depth) (length reader.old) reader.old))
        nodes.old.items nodes.new.items reader.new) }
    ensures shorter { OnOk result (length reader.new < length reader.old) }
{
    let start = nodes.len();
    let mut last: Option<&'a str> = None;
    'members: while let Some(name) = reader.next_key()? {
        let at = nodes.len();
        nodes.push(Node::Name(name))?;
        parse_value(reader, nodes, depth, moves)?;
        last = place_member(nodes, start, at, last, name, moves)?;
    }
    Ok(())
}

/// Returns the node of a number, if it is an integer that fits 64 bits.
#[inline(always)]
fn whole<'a>(text: &str) -> Result<Node<'a>, Unclear>
    ensures { IfOk result (ReadsNumber (number_of text.now)) }
{
    let bytes = text.as_bytes();
    if has_minus(bytes) {
        negative(&Numeral::scan(&bytes[1..]))
    } else {
        unsigned(&Numeral::scan(bytes))
    }
}

#[inline(always)]
fn has_minus(bytes: &[u8]) -> bool
    ensures value { result ≡ (slice_index bytes.now 0 == 45) }
    ensures len { IsTrue result → 0 < length bytes.now }
{
    !bytes.is_empty() && bytes[0] == b'-'
}

#[inline(always)]
fn unsigned<'a>(numeral: &Numeral<'_>) -> Result<Node<'a>, Unclear>
    ensures { IfOk result (ReadsNumber (number_from false numeral.now)) }
{
    match numeral.to_u64() {
        Some(n) => Ok(Node::Unsigned(n)),
        None => Err(Unclear),
    }
}

/// Returns the node of a negative number. `-0` is not an integer.
#[inline(always)]
fn negative<'a>(numeral: &Numeral<'_>) -> Result<Node<'a>, Unclear>
    ensures { IfOk result (ReadsNumber (number_from true numeral.now)) }
{
    if let Some(n) = numeral.to_i64(true) {
        if n < 0 {
            return Ok(Node::Negative(n));
        }
    }
    Err(Unclear)
}
