//! Reads contents as flat documents, and masks them in place.
ghost use Rattle.std.specs.Prelude.{◌≡◌, ◌<◌, Some, length, slice_get, IfOk, IfSome, IsErrOf, OnOk};
ghost use Rattle.dap_flat_message.specs.{Heads.text_in, Marking.Edits};
ghost use Rattle.dap_mask.specs.FlatMasking.{IsLeftFlat, IsMaskedFlat, IsTold};
ghost use Rattle.dap_mask.specs.FlatMasking.{asked_category, are_limited, is_limited};
ghost use Rattle.dap_mask.specs.FlatMasking.{changed_at, changed_by};
ghost use Rattle.dap_mask.specs.{Index.told_kind, KeptRules.{changes_of, mask_of}, Masked.masked};
ghost use Rattle.dap_mask.specs.KeptRules.{words_of_mask, fills_of_mask, omissions_of_mask};
ghost use Rattle.dap_mask.specs.Rules.{rule_of, rules_of};
ghost use Rattle.std.specs.Prelude.{IsTrue, []};

use crate::flat_places::{Memory, mask_path};
use crate::flat_told::{is_dropped, told_category, told_kind, told_name};
use crate::index::asks_for;
use crate::mask_rules::MaskRules;
use crate::meets::text_of;
use crate::rules::MaskRule;
use bumpalo::Bump;
use dap_flat::{Node, Unclear, Unread, read_flat};
use dap_message::Kind;
use dap_tree::Scratch;

/// Reads a content as a flat document, with the members of each object in the order of their names,
/// and masks it. Stores texts that the rules change in `arena`. Returns `None` for an event that
/// the rules drop.
///
/// The nodes replace those in `nodes`, whose capacity is used.
///
/// # Errors
///
/// - `Memory`: an allocation failed. The content is not empty.
/// - `Unclear`: [`read_masked`](crate::read_masked) has to mask the content. It has to be read as
///   a tree (see [`Unclear`](struct@dap_flat::Unclear)), the rules have words, set members or omit
///   elements, or a rule blanks a list or an object that is not empty.
pub fn read_masked_flat<'a>(
    content: &'a [u8],
    rules: &MaskRules,
    scratch: &'a mut Scratch,
    arena: &'a Bump,
    nodes: Vec<Node<'a>>,
) -> Result<Option<Vec<Node<'a>>>, Unread>
    ensures ok { IfOk result (IsLeftFlat (mask_of rules.now) content.now) }
    ensures memory { IsErrOf result Unread.Memory → 0 < length content.now }

    // Only the places of the rules change. Masking the result again does not change it. Another
    // content has the same result if and only if both agree except for the redacted parts.
    ensures masked { IfOk result
        (λ o. IfSome o (IsMaskedFlat (mask_of rules.now) content.now)) }
{
    if !is_plain(rules) {
        return Err(Unread::Unclear);
    }
    let alloc = *nodes.allocator();
    let mut nodes = read_flat(content, scratch, nodes)?;
    let dropped = is_dropped(&nodes, rules)?;
    if dropped {
        return Ok(None);
    }
    mask_flat(&mut nodes, rules, Memory { alloc, arena })?;
    Ok(Some(nodes))
}

// Returns whether the rules have no words, set no members and omit no elements.
fn is_plain(rules: &MaskRules) -> bool
    ensures { IsTrue result → (words_of_mask rules.now ≡ []) × (fills_of_mask rules.now ≡ [])
        × (omissions_of_mask rules.now ≡ []) }
{
    rules.words().is_empty() && rules.fills().is_empty() && rules.omissions().is_empty()
}

fn mask_flat<'a>(
    nodes: &mut [Node<'a>],
    rules: &MaskRules,
    memory: Memory<'a>,
) -> Result<(), Unread>
    ensures { OnOk result (Edits nodes.old nodes.new 0 (masked (changes_of rules.now))) }
{
    match told_kind(nodes)? {
        Some(kind) => mask_told(nodes, rules, kind, memory),
        None => Ok(()),
    }
}

fn mask_told<'a>(
    nodes: &mut [Node<'a>],
    rules: &MaskRules,
    kind: Kind,
    memory: Memory<'a>,
) -> Result<(), Unread>
    requires { IsTold nodes.old 0 told_kind (Some kind) }
    ensures { OnOk result (Edits nodes.old nodes.new 0 (masked (changes_of rules.now))) }
{
    let name = told_name(nodes, kind)?;
    let found = rules.places(kind, name);
    let changes = rules.changes();
    let category = asked_category(nodes, changes, found)?;
    change_places(nodes, changes, found, category, memory)
}

// Returns the category of the message, if it has one and a rule at these positions has one.
fn asked_category<'a>(
    nodes: &[Node<'a>],
    rules: &[MaskRule],
    places: &[usize],
) -> Result<Option<&'a str>, Unclear>
    ensures { IfOk result (λ s. IsTold nodes.now 0
        (asked_category (rules_of rules.now) places.now) (text_in s)) }
{
    if are_limited(rules, places) {
        told_category(nodes)
    } else {
        Ok(None)
    }
}

// Returns whether a rule at one of these positions has a category.
fn are_limited(rules: &[MaskRule], places: &[usize]) -> bool
    ensures { result ≡ are_limited (rules_of rules.now) places.now }
{
    places.iter().any(|place| is_limited(rules, *place))
}

fn is_limited(rules: &[MaskRule], place: usize) -> bool
    ensures { result ≡ is_limited (slice_get (rules_of rules.now) place) }
{
    match rules.get(place) {
        Some(rule) => rule.category.is_some(),
        None => false,
    }
}

// Applies those of the rules at these positions that apply to messages of the category. No rule
// changes the category by which another one applies.
fn change_places<'a>(
    nodes: &mut [Node<'a>],
    rules: &[MaskRule],
    places: &[usize],
    category: Option<&str>,
    memory: Memory<'a>,
) -> Result<(), Unread>
    ensures { OnOk result (Edits nodes.old nodes.new 0
        (changed_at (text_in category.entry) (rules_of rules.now) places.now)) }
{
    for place in places {
        change_at(nodes, rules, *place, category, memory)?;
    }
    Ok(())
}

fn change_at<'a>(
    nodes: &mut [Node<'a>],
    rules: &[MaskRule],
    place: usize,
    category: Option<&str>,
    memory: Memory<'a>,
) -> Result<(), Unread>
    ensures { OnOk result (Edits nodes.old nodes.new 0
        (changed_by (text_in category.entry) (slice_get (rules_of rules.now) place))) }
{
    match rules.get(place) {
        Some(rule) => change_by(nodes, rule, category, memory),
        None => Ok(()),
    }
}

fn change_by<'a>(
    nodes: &mut [Node<'a>],
    rule: &MaskRule,
    category: Option<&str>,
    memory: Memory<'a>,
) -> Result<(), Unread>
    ensures { OnOk result (Edits nodes.old nodes.new 0
        (changed_by (text_in category.entry) (Some (rule_of rule.now)))) }
{
    if asks_for(text_of(&rule.category), category) {
        mask_path(nodes, 0, &rule.place, rule.verb, memory)
    } else {
        Ok(())
    }
}
