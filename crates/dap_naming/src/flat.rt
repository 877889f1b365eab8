//! Names in the place of the ids of a flat message.
ghost use Rattle.std.specs.Prelude.{◌≡◌, ◌<◌, true, false, IfOk, OnOk, length, string_bytes};
ghost use Rattle.std.specs.Prelude.{option_map};
ghost use Rattle.std.specs.Bool.{MatchBool};
ghost use Rattle.dap_tokens.specs.{Laws.AreLabels, Models.labels_of, Naming.{ids, named}};
ghost use Rattle.dap_tree.specs.Doc.{whole};
ghost use Rattle.dap_flat.specs.Pieces.{piece_of, end_list, leaf};
ghost use Rattle.dap_mask.specs.Declarations.{are_declared, declarations_of};
ghost use Rattle.dap_naming.specs.DeclaredRules.{have_labels, rules_of, IsLabel};
ghost use Rattle.dap_naming.specs.Documents.{below};
ghost use Rattle.dap_naming.specs.Flat.{FitsNodes, NamesNodes, NoneApply, NamesValue, NamesItems};
ghost use Rattle.dap_naming.specs.Flat.{NamesMembers, NamesLeaf, NamesWhole, NamesWithin};
ghost use Rattle.dap_naming.specs.Flat.{WithLabels, is_sign, has_others, may_have_hex};
ghost use Rattle.dap_naming.specs.Flat.{may_have_tokens};
ghost use Rattle.dap_naming.specs.Known.{limit_of};

use crate::choice::{below, here, here_below};
use crate::fault::NamingFault;
use crate::flat_rules::{element_name, flat_rules, inside_named, name_elements};
use crate::rules::Declared;
use crate::texts::name_text;
use crate::trees::named_whole;
use crate::value_numbers::ValueNumbers;
use bumpalo::Bump;
use dap_flat::{Node, Unclear, Unread, value_end};
use dap_mask::Declaration;
use dap_tokens::Labels;
use std::alloc::{AllocError, Global};

// The memory for the texts with names.
#[derive(Clone, Copy, Drop)]
struct Memory<'a> {
    // For rules, and for a text while its names are written.
    alloc: Global,
    // For the result.
    arena: &'a Bump,
}

/// Replaces each declared id of a flat message by its name, in place, as
/// [`name_message`](crate::name_message) does for a tree. Returns whether a declaration applies to
/// the message. Stores strings with names in `arena`.
///
/// # Errors
///
/// - `Memory`: an allocation failed.
/// - `Unclear`: a value is new, and its label has as many values as the limit. Or the nodes are not
///   those of a document.
///
/// After an error neither the numbers nor the nodes must be used again.
pub fn name_flat<'a>(
    alloc: Global,
    numbers: &mut ValueNumbers,
    declarations: &[Declaration],
    nodes: &mut [Node<'a>],
    arena: &'a Bump,
) -> Result<bool, Unread>
    requires { are_declared (declarations_of declarations.now) ≡ true }
    ensures names { OnOk result (NamesNodes numbers.old numbers.new
        (declarations_of declarations.now) nodes.old nodes.new) }

    // No label has more values than the limit.
    ensures few { OnOk result
        (FitsNodes numbers.old (declarations_of declarations.now) nodes.old) }
    ensures limit { limit_of numbers.new ≡ limit_of numbers.old }
    ensures applies { result ≡ Ok false
        → NoneApply (declarations_of declarations.now) nodes.old }
{
    let rules = flat_rules(alloc, declarations, nodes)?;
    if rules.is_empty() {
        return Ok(false);
    }
    name_value(numbers, nodes, 0, &rules, Memory { alloc, arena })?;
    Ok(true)
}

// Names the value that starts at `at`.
#[cycle(name_value)]
fn name_value<'a>(
    numbers: &mut ValueNumbers,
    nodes: &mut [Node<'a>],
    at: usize,
    rules: &[Declared<'_>],
    memory: Memory<'a>,
) -> Result<(), Unread>
    requires { have_labels (rules_of rules.now) ≡ true }
    ensures names { OnOk result
        (NamesValue (rules_of rules.now) numbers.old numbers.new nodes.old nodes.new at) }
    ensures limit { limit_of numbers.new ≡ limit_of numbers.old }
{
    if rules.is_empty() {
        return Ok(());
    }
    if at >= nodes.len() {
        return Err(Unread::Unclear);
    }
    match nodes[at] {
        Node::List(_) => name_items(numbers, nodes, at + 1, rules, memory),
        Node::Object(_) => name_members(numbers, nodes, at + 1, rules, memory),
        _ => name_leaf(numbers, nodes, at, &here(rules), memory),
    }
}

// Names the items that start at `from`, up to the end of their list.
#[cycle(name_value)]
fn name_items<'a>(
    numbers: &mut ValueNumbers,
    nodes: &mut [Node<'a>],
    from: usize,
    rules: &[Declared<'_>],
    memory: Memory<'a>,
) -> Result<(), Unread>
    requires labels { have_labels (rules_of rules.now) ≡ true }
    requires some { 0 < length rules.now }
    ensures names { OnOk result
        (NamesItems (rules_of rules.now) numbers.old numbers.new nodes.old nodes.new from) }
    ensures limit { limit_of numbers.new ≡ limit_of numbers.old }
{
    let named = name_elements(rules);
    let each = inside_named(memory.alloc, rules, None)?;
    let mut p = from;
    while p < nodes.len() {
        if is_end(nodes[p]) {
            return Ok(());
        }
        let end = value_end(nodes, p).ok_or(Unclear)?;
        if named {
            let left = inside_named(memory.alloc, rules, element_name(nodes, p)?)?;
            name_value(numbers, nodes, p, &left, memory)?;
        } else {
            name_value(numbers, nodes, p, &each, memory)?;
        }
        p = end;
    }
    Err(Unread::Unclear)
}

fn is_end(node: Node<'_>) -> bool
    ensures { MatchBool result (piece_of node.entry ≡ end_list)
        (piece_of node.entry ≡ end_list → ⊥) }
{
    match node {
        Node::EndList => true,
        _ => false,
    }
}

// Names the members that start at `from`, up to the end of their object.
#[cycle(name_value)]
fn name_members<'a>(
    numbers: &mut ValueNumbers,
    nodes: &mut [Node<'a>],
    from: usize,
    rules: &[Declared<'_>],
    memory: Memory<'a>,
) -> Result<(), Unread>
    requires labels { have_labels (rules_of rules.now) ≡ true }
    requires some { 0 < length rules.now }
    ensures names { OnOk result
        (NamesMembers (rules_of rules.now) numbers.old numbers.new nodes.old nodes.new from) }
    ensures limit { limit_of numbers.new ≡ limit_of numbers.old }
{
    let mut p = from;
    while p < nodes.len() {
        match nodes[p] {
            Node::Name(name) => {
                let end = value_end(nodes, p + 1).ok_or(Unclear)?;
                name_member(numbers, nodes, p + 1, name, rules, memory)?;
                p = end;
            }
            Node::EndObject => return Ok(()),
            _ => return Err(Unread::Unclear),
        }
    }
    Err(Unread::Unclear)
}

// Names the value of a member of this name, which starts at `at`.
#[cycle(name_value)]
fn name_member<'a>(
    numbers: &mut ValueNumbers,
    nodes: &mut [Node<'a>],
    at: usize,
    name: &str,
    rules: &[Declared<'_>],
    memory: Memory<'a>,
) -> Result<(), Unread>
    requires labels { have_labels (rules_of rules.now) ≡ true }
    requires some { 0 < length rules.now }
    requires within { at < length nodes.old }
    ensures names { OnOk result (NamesValue (below name.now (rules_of rules.now))
        numbers.old numbers.new nodes.old nodes.new at) }
    ensures limit { limit_of numbers.new ≡ limit_of numbers.old }
{
    match nodes[at] {
        Node::List(_) | Node::Object(_) => {
            let left = below(memory.alloc, rules, name)?;
            name_value(numbers, nodes, at, &left, memory)
        }
        _ => name_leaf(numbers, nodes, at, &here_below(rules, name), memory),
    }
}

// Names the value without parts at `at` by its labels.
fn name_leaf<'a>(
    numbers: &mut ValueNumbers,
    nodes: &mut [Node<'a>],
    at: usize,
    labels: &Labels<'_>,
    memory: Memory<'a>,
) -> Result<(), Unread>
    requires labels { AreLabels (labels_of labels.now) }
    requires within { at < length nodes.old }
    ensures names { OnOk result (WithLabels (labels_of labels.now)
        (λ rs. NamesValue rs numbers.old numbers.new nodes.old nodes.new at)) }
    ensures limit { limit_of numbers.new ≡ limit_of numbers.old }
{
    let node = named_node(numbers, nodes[at], labels, memory)?;
    nodes[at] = node;
    Ok(())
}

// Returns the node with names in the place of its ids, or `Unclear` for a node that is not a value
// without parts.
fn named_node<'a>(
    numbers: &mut ValueNumbers,
    node: Node<'a>,
    labels: &Labels<'_>,
    memory: Memory<'a>,
) -> Result<Node<'a>, Unread>
    requires { AreLabels (labels_of labels.now) }
    ensures names { IfOk result (λ n. WithLabels (labels_of labels.now)
        (λ rs. NamesLeaf rs numbers.old numbers.new (piece_of node.entry) (piece_of n))) }
    ensures limit { limit_of numbers.new ≡ limit_of numbers.old }
{
    match node {
        Node::Text(text) => Ok(Node::Text(named_text(numbers, text, labels, memory)?)),
        Node::Unsigned(value) => named_integer(numbers, i128::from(value), labels.whole, memory),
        Node::Negative(value) => named_integer(numbers, i128::from(value), labels.whole, memory),
        Node::Null => Ok(Node::Null),
        Node::Bool(value) => Ok(Node::Bool(value)),
        Node::Id(_, _) => Ok(node),
        _ => Err(Unread::Unclear),
    }
}

fn named_integer<'a>(
    numbers: &mut ValueNumbers,
    value: i128,
    label: Option<&str>,
    memory: Memory<'a>,
) -> Result<Node<'a>, Unread>
    requires { IsLabel (option_map (λ l. l.now) label) }
    ensures names { IfOk result (λ n. NamesWhole (option_map (λ l. l.now) label.entry)
        numbers.old numbers.new value (piece_of n)) }
    ensures limit { limit_of numbers.new ≡ limit_of numbers.old }
{
    let named = named_whole(memory.alloc, numbers, value, label)?;
    Ok(whole_node(named)?)
}

fn whole_node<'a>(value: i128) -> Result<Node<'a>, Unclear>
    ensures { IfOk result (λ n. piece_of n ≡ leaf (whole value)) }
{
    if let Ok(value) = u64::try_from(value) {
        return Ok(Node::Unsigned(value));
    }
    match i64::try_from(value) {
        Ok(value) => Ok(Node::Negative(value)),
        Err(_) => Err(Unclear),
    }
}

// Returns the text with each id replaced by its name. A text without tokens is not copied.
fn named_text<'a>(
    numbers: &mut ValueNumbers,
    text: &'a str,
    labels: &Labels<'_>,
    memory: Memory<'a>,
) -> Result<&'a str, Unread>
    requires { AreLabels (labels_of labels.now) }
    ensures names { IfOk result (λ s. NamesWithin numbers.old numbers.new
        (ids (labels_of labels.now) text.now)
        (λ number. s.now ≡ named (labels_of labels.now) number text.now)) }
    ensures limit { limit_of numbers.new ≡ limit_of numbers.old }
{
    if *labels == Labels::none() || !may_have_tokens(labels, text.as_bytes()) {
        return Ok(text);
    }
    let named = name_text(memory.alloc, numbers, labels, text)?;
    Ok(stored(named, text, memory.arena)?)
}

// Returns whether the text may have tokens. A hexadecimal number starts with `0x` or `0X`, and a
// name with `<`.
fn may_have_tokens(labels: &Labels<'_>, text: &[u8]) -> bool
    ensures { result ≡ may_have_tokens (labels_of labels.now) text.now }
{
    has_others(labels) || may_have_hex(text)
}

// Returns whether a form other than that of hexadecimal numbers has a label.
fn has_others(labels: &Labels<'_>) -> bool
    ensures { result ≡ has_others (labels_of labels.now) }
{
    labels.whole.is_some()
        || labels.digits.is_some()
        || labels.long.is_some()
        || labels.uuid.is_some()
}

fn may_have_hex(text: &[u8]) -> bool
    ensures { result ≡ may_have_hex false text.now }
{
    let mut after_zero = false;
    for byte in text {
        if is_sign(after_zero, *byte) {
            return true;
        }
        after_zero = *byte == b'0';
    }
    false
}

fn is_sign(after_zero: bool, byte: u8) -> bool
    ensures { result ≡ is_sign after_zero byte }
{
    byte == b'<' || (after_zero && (byte == b'x' || byte == b'X'))
}

// Stores the text in the arena, if it differs from the old one.
fn stored<'a>(new: String, old: &'a str, arena: &'a Bump) -> Result<&'a str, AllocError>
    ensures { IfOk result (λ s. s.now ≡ string_bytes new) }
{
    if new.as_str() == old {
        Ok(old)
    } else {
        Ok(arena.try_alloc_str(new.as_str())?)
    }
}

impl From<NamingFault> for Unread {
    fn from(fault: NamingFault) -> Unread {
        match fault {
            NamingFault::Full => Unread::Unclear,
            NamingFault::Memory => Unread::Memory,
        }
    }
}
