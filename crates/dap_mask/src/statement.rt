//! Parses a line of a rules file.
ghost use Rattle.std.specs.Prelude.{◌≡◌, ◌≢◌, IfOk, IfErr, option_map, string_bytes};
ghost use Rattle.dap_mask.specs.Mask.{statement_of, line_of, nothing};
ghost use Rattle.dap_mask.specs.RuleText.{verb_named, kind_named, head_at, change_at, category_at};
ghost use Rattle.dap_mask.specs.RuleText.{limit_at, category_then, category_behind, leave_out_at};
ghost use Rattle.dap_mask.specs.RuleText.{half_at, swap_at, is_output, join_ended, join_stops};
ghost use Rattle.dap_mask.specs.RuleText.{joined_at, join_at, stated, label_at, omission_behind};
ghost use Rattle.dap_mask.specs.RuleText.{omit_at};
ghost use Rattle.dap_mask.specs.RuleText.{restart_at, part_at, put_at, statement_at, line_said};
ghost use Rattle.dap_mask.specs.Rules.{rule_of, place_of};
ghost use Rattle.dap_message.specs.SwapRules.{half_of};

use crate::categories::CategoryRule;
use crate::declarations::Declaration;
use crate::fill_lines::fill_at;
use crate::fills::FillRule;
use crate::joining::Joining;
use crate::meets::{same_kind, same_name, text_of};
use crate::names::{any_name, name_at};
use crate::omissions::Omission;
use crate::places::place_at;
use crate::rules::{MaskRule, Step, Verb};
use crate::runs::{ByteClass, gap, is_end, split_run};
use dap_message::{Half, Kind, SwapRule};
use dap_words::Word;
use std::alloc::{AllocError, Global};

/// A rule, as written in a line.
#[derive(Drop)]
pub(crate) enum Statement {
    /// Changes values.
    Change(MaskRule),
    /// Drops the events of this name; all events, if `None`.
    LeaveOut(Option<String>),
    /// Drops the events of a name and a category.
    LeaveOutCategory(CategoryRule),
    /// Allows two neighbouring messages to be exchanged.
    Swap(SwapRule),
    /// Numbers ids again from each stop.
    PerStop,
    /// Joins output.
    Join(Joining),
    /// Puts a word in the place of a text.
    Put(Word),
    /// Sets a member that is absent or null.
    Fill(FillRule),
    /// Omits elements of arrays.
    Omit(Omission),
    /// Declares ids.
    Declare(Declaration),
}

/// The meaning of a line.
#[derive(Drop)]
pub(crate) enum Line {
    /// The line contains only blanks and perhaps a comment.
    Nothing,
    Rule(Statement),
    /// The line is neither a rule nor empty.
    Bad,
}

/// Reads a line. Does not allocate for a line without a rule or an error.
pub(crate) fn read_line(alloc: Global, line: &[u8]) -> Result<Line, AllocError>
    ensures says { IfOk result (λ l. line_of l ≡ line_said line.now) }
    ensures memory { IfErr result (λ _. line_said line.now ≢ nothing) }
{
    if is_end(line) {
        return Ok(Line::Nothing);
    }
    let (_, text) = split_run(line, ByteClass::Blank);
    match statement_at(alloc, text)? {
        Some(statement) => Ok(Line::Rule(statement)),
        None => Ok(Line::Bad),
    }
}

fn statement_at(alloc: Global, text: &[u8]) -> Result<Option<Statement>, AllocError>
    ensures { IfOk result (λ o. option_map statement_of o ≡ statement_at text.now) }
{
    let (word, rest) = split_run(text, ByteClass::Plain);
    if word == b"drop".as_slice() {
        return leave_out_at(alloc, rest);
    }
    if word == b"swap".as_slice() {
        return swap_at(alloc, rest);
    }
    if word == b"per-stop".as_slice() {
        return Ok(restart_at(rest));
    }
    if word == b"join".as_slice() {
        return join_at(alloc, rest);
    }
    if word == b"word".as_slice() {
        return put_at(alloc, rest);
    }
    if word == b"fill".as_slice() {
        return fill_at(alloc, rest);
    }
    if word == b"omit".as_slice() {
        return omit_at(alloc, rest);
    }
    match verb_named(word) {
        Some(verb) => change_at(alloc, verb, rest),
        None => Ok(None),
    }
}

fn verb_named(word: &[u8]) -> Option<Verb>
    ensures { result ≡ verb_named word.now }
{
    if word == b"blank".as_slice() {
        Some(Verb::Blank)
    } else if word == b"digits".as_slice() {
        Some(Verb::Digits)
    } else if word == b"hex".as_slice() {
        Some(Verb::Hex)
    } else if word == b"long".as_slice() {
        Some(Verb::Long)
    } else if word == b"uuid".as_slice() {
        Some(Verb::Uuid)
    } else {
        None
    }
}

fn kind_named(word: &[u8]) -> Option<Kind>
    ensures { result ≡ kind_named word.now }
{
    if word == b"request".as_slice() {
        Some(Kind::Request)
    } else if word == b"response".as_slice() {
        Some(Kind::Response)
    } else if word == b"event".as_slice() {
        Some(Kind::Event)
    } else {
        None
    }
}

/// Returns the kind and name of the messages to which a rule applies, and the rest of the text.
pub(crate) fn head_at(
    alloc: Global,
    text: &[u8],
) -> Result<Option<(Kind, Option<String>, &[u8])>, AllocError>
    ensures { IfOk result
        (λ o. option_map (λ h. (h.0, option_map string_bytes h.1, h.2.now)) o ≡ head_at text.now) }
{
    let Some(text) = gap(text) else {
        return Ok(None);
    };
    let (word, text) = split_run(text, ByteClass::Plain);
    if let Some(kind) = kind_named(word)
        && let Some(text) = gap(text)
        && let Some((name, rest)) = any_name(alloc, text)?
    {
        return Ok(Some((kind, name, rest)));
    }
    Ok(None)
}

fn change_at(alloc: Global, verb: Verb, text: &[u8]) -> Result<Option<Statement>, AllocError>
    ensures { IfOk result (λ o. option_map statement_of o ≡ change_at verb text.now) }
{
    if let Some((kind, name, text)) = head_at(alloc, text)?
        && let Some(text) = gap(text)
        && let Some((category, text)) = limit_at(alloc, kind, text)?
        && let Some((place, text)) = place_at(alloc, text)?
    {
        let rule = MaskRule {
            verb,
            kind,
            name,
            category,
            place,
        };
        return stated(alloc, rule, text);
    }
    Ok(None)
}

// Returns the rule as a change, or as a declaration unless the line ends.
fn stated(alloc: Global, rule: MaskRule, text: &[u8]) -> Result<Option<Statement>, AllocError>
    ensures { IfOk result (λ o. option_map statement_of o ≡ stated (rule_of rule) text.now) }
{
    if is_end(text) {
        return Ok(Some(Statement::Change(rule)));
    }
    match gap(text) {
        Some(text) => label_at(alloc, rule, text),
        None => Ok(None),
    }
}

// Returns the rule as a declaration, if the text is the word `as` and a label.
fn label_at(alloc: Global, rule: MaskRule, text: &[u8]) -> Result<Option<Statement>, AllocError>
    ensures { IfOk result (λ o. option_map statement_of o ≡ label_at (rule_of rule) text.now) }
{
    let (word, text) = split_run(text, ByteClass::Plain);
    if word == b"as".as_slice()
        && let Some((label, rest)) = part_at(alloc, text)?
        && is_end(rest)
    {
        return Ok(Some(Statement::Declare(Declaration { rule, label })));
    }
    Ok(None)
}

// Returns the category with which the text starts, or `None`, and the text of the place. Only a
// rule for events has a category.
fn limit_at(
    alloc: Global,
    kind: Kind,
    text: &[u8],
) -> Result<Option<(Option<String>, &[u8])>, AllocError>
    ensures { IfOk result (λ o. option_map (λ l. (option_map string_bytes l.0, l.1.now)) o
        ≡ limit_at kind text.now) }
{
    match category_at(alloc, text)? {
        None => Ok(Some((None, text))),
        Some((category, rest)) => Ok(category_then(kind, category, rest)),
    }
}

fn category_then(kind: Kind, category: String, rest: &[u8]) -> Option<(Option<String>, &[u8])>
    ensures { option_map (λ l. (option_map string_bytes l.0, l.1.now)) result
        ≡ category_then kind (string_bytes category, rest.now) }
{
    match (kind, gap(rest)) {
        (Kind::Event, Some(text)) => Some((Some(category), text)),
        _ => None,
    }
}

fn leave_out_at(alloc: Global, text: &[u8]) -> Result<Option<Statement>, AllocError>
    ensures { IfOk result (λ o. option_map statement_of o ≡ leave_out_at text.now) }
{
    match head_at(alloc, text)? {
        Some((Kind::Event, name, text)) => {
            if is_end(text) {
                Ok(Some(Statement::LeaveOut(name)))
            } else {
                category_behind(alloc, name, text)
            }
        }
        _ => Ok(None),
    }
}

// Returns the rule that drops the events of this name and of the category in the text.
fn category_behind(
    alloc: Global,
    name: Option<String>,
    text: &[u8],
) -> Result<Option<Statement>, AllocError>
    ensures { IfOk result (λ o. option_map statement_of o
        ≡ category_behind (option_map string_bytes name) text.now) }
{
    if let Some(text) = gap(text)
        && let Some((category, rest)) = category_at(alloc, text)?
        && is_end(rest)
    {
        return Ok(Some(Statement::LeaveOutCategory(CategoryRule { name, category })));
    }
    Ok(None)
}

// Returns the text of `category=TEXT`, with which the text starts, and the rest.
fn category_at(alloc: Global, text: &[u8]) -> Result<Option<(String, &[u8])>, AllocError>
    ensures { IfOk result
        (λ o. option_map (λ n. (string_bytes n.0, n.1.now)) o ≡ category_at text.now) }
{
    let (word, behind) = split_run(text, ByteClass::Plain);
    if word != b"category".as_slice() {
        return Ok(None);
    }
    match behind {
        [b'=', rest @ ..] => name_at(alloc, rest),
        _ => Ok(None),
    }
}

// Returns the half of a rule for the order with which the text starts, and the rest of the text.
fn half_at(alloc: Global, text: &[u8]) -> Result<Option<(Half, &[u8])>, AllocError>
    ensures { IfOk result
        (λ o. option_map (λ h. (half_of h.0, h.1.now)) o ≡ half_at text.now) }
{
    match head_at(alloc, text)? {
        Some((kind, name, rest)) => Ok(Some((Half { kind, name }, rest))),
        None => Ok(None),
    }
}

fn swap_at(alloc: Global, text: &[u8]) -> Result<Option<Statement>, AllocError>
    ensures { IfOk result (λ o. option_map statement_of o ≡ swap_at text.now) }
{
    if let Some((one, text)) = half_at(alloc, text)?
        && let Some((another, text)) = half_at(alloc, text)?
        && is_end(text)
    {
        return Ok(Some(Statement::Swap(SwapRule { one, another })));
    }
    Ok(None)
}

fn restart_at(text: &[u8]) -> Option<Statement>
    ensures { option_map statement_of result ≡ restart_at text.now }
{
    if is_end(text) {
        Some(Statement::PerStop)
    } else {
        None
    }
}

fn join_at(alloc: Global, text: &[u8]) -> Result<Option<Statement>, AllocError>
    ensures { IfOk result (λ o. option_map statement_of o ≡ join_at text.now) }
{
    match head_at(alloc, text)? {
        Some((kind, name, rest)) if is_output(kind, &name) => Ok(joined_at(rest)),
        _ => Ok(None),
    }
}

// Returns whether the kind and the name are those of `output` events.
fn is_output(kind: Kind, name: &Option<String>) -> bool
    ensures { result ≡ is_output kind (option_map string_bytes name.now) }
{
    same_kind(kind, Kind::Event) && same_name(text_of(name), Some("output"))
}

// Returns the rule that joins output: between stops, if the text is `per-stop`.
fn joined_at(text: &[u8]) -> Option<Statement>
    ensures { option_map statement_of result ≡ joined_at text.now }
{
    if is_end(text) {
        return Some(Statement::Join(Joining::Whole));
    }
    match gap(text) {
        Some(text) => join_stops(text),
        None => None,
    }
}

fn join_stops(text: &[u8]) -> Option<Statement>
    ensures { option_map statement_of result ≡ join_stops text.now }
{
    let (word, rest) = split_run(text, ByteClass::Plain);
    if word == b"per-stop".as_slice() {
        join_ended(rest)
    } else {
        None
    }
}

fn join_ended(text: &[u8]) -> Option<Statement>
    ensures { option_map statement_of result ≡ join_ended text.now }
{
    if is_end(text) {
        Some(Statement::Join(Joining::PerStop))
    } else {
        None
    }
}

// Returns the text, the word or the label of a rule, with which the text starts after blanks, and
// the rest.
fn part_at(alloc: Global, text: &[u8]) -> Result<Option<(String, &[u8])>, AllocError>
    ensures { IfOk result
        (λ o. option_map (λ n. (string_bytes n.0, n.1.now)) o ≡ part_at text.now) }
{
    match gap(text) {
        Some(text) => name_at(alloc, text),
        None => Ok(None),
    }
}

fn put_at(alloc: Global, text: &[u8]) -> Result<Option<Statement>, AllocError>
    ensures { IfOk result (λ o. option_map statement_of o ≡ put_at text.now) }
{
    if let Some((replaced, text)) = part_at(alloc, text)?
        && let Some((word, text)) = part_at(alloc, text)?
        && is_end(text)
    {
        return Ok(Some(Statement::Put(Word {
            text: replaced,
            word,
        })));
    }
    Ok(None)
}

fn omit_at(alloc: Global, text: &[u8]) -> Result<Option<Statement>, AllocError>
    ensures { IfOk result (λ o. option_map statement_of o ≡ omit_at text.now) }
{
    if let Some((kind, name, text)) = head_at(alloc, text)?
        && let Some(text) = gap(text)
        && let Some((place, rest)) = place_at(alloc, text)?
    {
        return Ok(omission_behind(kind, name, place, rest));
    }
    Ok(None)
}

// Returns the rule that omits the elements at this place, if the line ends.
fn omission_behind(
    kind: Kind,
    name: Option<String>,
    place: Vec<Step>,
    text: &[u8],
) -> Option<Statement>
    ensures { option_map statement_of result
        ≡ omission_behind kind (option_map string_bytes name) (place_of place.items, text.now) }
{
    if !is_end(text) {
        return None;
    }
    let mut parent = place;
    match parent.pop() {
        Some(last) => Some(Statement::Omit(Omission {
            kind,
            name,
            parent,
            last,
        })),
        None => None,
    }
}
