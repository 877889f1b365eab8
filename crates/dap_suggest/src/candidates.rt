//! The candidates for the rules of one place, and what they do to its values.
ghost use Rattle.std.specs.Prelude.{◌≡◌, ◌^◌, ◌%◌, IfOk, if◌then◌else◌, string_bytes};
ghost use Rattle.std.specs.List.{list_any};
ghost use Rattle.dap_tree.specs.{Doc.text as document, View.view};
ghost use Rattle.dap_mask.specs.Rules.{of_verb};
ghost use Rattle.dap_suggest.specs.Hidden.{actions_of, is_changed, is_digit_or_dash, value_by};

use dap_mask::{Verb, digits, hex};
use dap_tree::Tree;
use dap_words::{long, uuid};
use std::alloc::{AllocError, Global};

/// A set of actions: the sum of their bits.
pub type Actions = u8;

pub const UUID: Actions = 1;

const LONG: Actions = 2;

pub const DIGITS: Actions = 4;

const HEX: Actions = 8;

pub const BLANK: Actions = 16;

/// The actions that replace addresses and UUIDs.
pub const ADDRESSES: Actions = UUID | LONG | HEX;

/// The actions, in the order in which they apply. Each has its verb with spaces up to one length,
/// and a number for how much of a text it can hide.
pub static ACTIONS: [(Actions, Verb, &str, u64); 5] = [
    (UUID, Verb::Uuid, "uuid   ", 1),
    (LONG, Verb::Long, "long   ", 2),
    (DIGITS, Verb::Digits, "digits ", 5),
    (HEX, Verb::Hex, "hex    ", 1),
    (BLANK, Verb::Blank, "blank  ", 20),
];

/// All candidates, which are actions that are tried together, from the weakest to the strongest.
pub static CANDIDATES: [Actions; 10] = [
    HEX,
    UUID,
    LONG,
    UUID | HEX,
    LONG | HEX,
    UUID | LONG,
    DIGITS,
    DIGITS | HEX,
    LONG | DIGITS,
    BLANK,
];

/// A set of candidates: the sum of their bits.
pub type Candidates = u32;

/// Returns the set that has only this candidate.
pub fn only(candidate: Actions) -> Candidates
    ensures { result ≡ 2 ^ (candidate % 32) }
{
    1u32.wrapping_shl(u32::from(candidate))
}

/// Returns how much of a text actions can hide.
pub fn strength_of(actions: Actions) -> u64 {
    let mut strength = 0u64;
    for (action, _, _, hidden) in ACTIONS.iter() {
        if actions & *action != 0 {
            strength = strength.saturating_add(*hidden);
        }
    }
    strength
}

/// Returns whether an action other than `blank` may change a text.
fn may_change(text: &str) -> bool
    ensures { result ≡ list_any is_digit_or_dash text.now }
{
    text.bytes()
        .any(|byte| byte.is_ascii_digit() || byte == b'-')
}

/// Returns the text that an action makes of a text.
fn changed(alloc: Global, verb: Verb, text: String) -> String
    ensures { document (string_bytes result) ≡ of_verb verb (document (string_bytes text)) }
{
    match verb {
        Verb::Blank => String::new(alloc),
        Verb::Digits => digits(text),
        Verb::Hex => hex(text),
        Verb::Long => long(text),
        Verb::Uuid => uuid(text),
    }
}

/// Returns the text that actions make of a text.
pub fn text_after(alloc: Global, actions: Actions, text: &str) -> Result<String, AllocError>
    ensures { IfOk result
        (λ after. document (string_bytes after) ≡ value_by actions (document text.now)) }
{
    let mut after = String::from_str(alloc, text)?;
    for (action, verb, _, _) in ACTIONS.iter() {
        if actions & *action != 0 {
            after = changed(alloc, *verb, after);
        }
    }
    Ok(after)
}

/// Returns whether an action changes a text.
#[tactic(auto, unfolding(crate::specs::Hidden::is_changed))]
fn does_change(alloc: Global, verb: Verb, text: &str) -> Result<bool, AllocError>
    ensures { IfOk result (λ does. does ≡ is_changed verb (document text.now)) }
{
    let after = changed(alloc, verb, String::from_str(alloc, text)?);
    Ok(after.as_str() != text)
}

/// Returns the actions that change a text.
fn actions_changing(alloc: Global, text: &str) -> Result<Actions, AllocError>
    ensures { IfOk result (λ set. set ≡ actions_of (document text.now)) }
{
    if !may_change(text) {
        return Ok(if text.is_empty() { 0 } else { BLANK });
    }
    let mut actions = 0;
    for (action, verb, _, _) in ACTIONS.iter() {
        if does_change(alloc, *verb, text)? {
            actions |= *action;
        }
    }
    Ok(actions)
}

/// Returns `blank` if it changes a value.
fn blank_if(does_change: bool) -> Actions
    ensures { result ≡ (if does_change then BLANK else 0) }
{
    if does_change { BLANK } else { 0 }
}

/// Returns the actions that change a value.
#[tactic(auto, unfolding(crate::specs::Hidden::is_changed))]
pub fn changing(alloc: Global, value: &Tree) -> Result<Actions, AllocError>
    ensures { IfOk result (λ set. set ≡ actions_of (view value.now)) }
{
    match value {
        Tree::Text(text) => actions_changing(alloc, text.as_str()),
        Tree::Null | Tree::Id(..) => Ok(0),
        Tree::Bool(value) => Ok(blank_if(*value)),
        Tree::Whole(number) => Ok(blank_if(*number != 0)),
        Tree::List(items) => Ok(blank_if(!items.is_empty())),
        Tree::Object(members) => Ok(blank_if(!members.is_empty())),
    }
}

/// Returns whether actions make two texts equal.
fn are_equal_after(alloc: Global, actions: Actions, a: &str, b: &str) -> Result<bool, AllocError> {
    let a = text_after(alloc, actions, a)?;
    let b = text_after(alloc, actions, b)?;
    Ok(a.as_str() == b.as_str())
}

/// Returns the candidates that make two different values of one sort equal.
pub fn equating(alloc: Global, a: &Tree, b: &Tree) -> Result<Candidates, AllocError> {
    let mut equating = only(BLANK);
    if let (Tree::Text(a), Tree::Text(b)) = (a, b)
        && (may_change(a.as_str()) || may_change(b.as_str()))
    {
        for candidate in CANDIDATES.iter() {
            if are_equal_after(alloc, *candidate, a.as_str(), b.as_str())? {
                equating |= only(*candidate);
            }
        }
    }
    Ok(equating)
}
