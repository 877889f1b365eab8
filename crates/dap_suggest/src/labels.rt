//! Labels for the ids that rules find, so that the rules keep which of them are equal.
ghost use Rattle.std.specs.Prelude.{IfOk, IfSome};
ghost use Rattle.dap_input.specs.Limits.{AreSound};
ghost use Rattle.dap_suggest.specs.{Exchanges.HasNeededSwaps, Suggested.IsSuggestion};

use crate::confirming::{confirm, confirm_in};
use crate::joined_rules::{are_refused, joined, missing_end};
use crate::obstacle::{Mismatch, Unsolved};
use crate::searching::FoundRules;
use crate::suggestion::{Inputs, Suggestion};
use crate::words::{head_of, push_parts, text_at};
use dap_difference::{Difference, Step as PathStep, differences};
use dap_mask::{MaskRule, MaskRules, RulesCause, Step, Verb};
use dap_message::Kind;
use dap_rename::Mode;
use dap_tree::{Scratch, Tree, read_tree_with};
use std::alloc::{AllocError, Global};
use std::collections::BTreeSet;

/// How often the recordings are compared at most. After each comparison, labels are removed.
const MAX_ROUNDS: usize = 16;

/// The label of whole values that may be ids.
const VALUE: &str = "value";

/// The ids of the protocol that the profile does not rename, by the last member of their place, and
/// their labels. Some are ids only in this member, or in the elements of this list.
static IDENTITIES: [(Option<&str>, &str, &str); 18] = [
    (None, "progressId", "progress"),
    (None, "dataId", "data"),
    (None, "sourceReference", "source"),
    (None, "locationReference", "location"),
    (None, "valueLocationReference", "location"),
    (None, "declarationLocationReference", "location"),
    (None, "moduleId", "module"),
    (Some("module"), "id", "module"),
    (Some("modules"), "id", "module"),
    (None, "targetId", "target"),
    (Some("targets"), "id", "target"),
    (None, "systemProcessId", "process"),
    (None, "processId", "process"),
    (None, "shellProcessId", "process"),
    (None, "memoryReference", "address"),
    (None, "instructionReference", "address"),
    (None, "instructionPointerReference", "address"),
    (Some("instructions"), "address", "address"),
];

/// Returns the last member of a place, through the elements of a list.
fn last_member(place: &[Step]) -> Option<&str> {
    match place {
        [.., Step::Member(name)] | [.., Step::Member(name), Step::Each | Step::Element(_)] => Some(
            name.as_str(),
        ),
        _ => None,
    }
}

/// Returns the label of the whole values at a place, if they are ids of the protocol.
fn identity_at(place: &[Step]) -> Option<&'static str> {
    let Some((Step::Member(member), around)) = place.split_last() else {
        return None;
    };
    let parent = last_member(around);
    for (needed, name, label) in IDENTITIES.iter() {
        if member.as_str() == *name && (needed.is_none() || *needed == parent) {
            return Some(*label);
        }
    }
    None
}

/// Returns the label of the ids that a rule finds. Whole values are ids only at the places of known
/// ids of the protocol.
fn label_of(rule: &MaskRule) -> Option<&'static str> {
    match rule.verb {
        Verb::Hex | Verb::Long => Some("address"),
        Verb::Uuid => Some("uuid"),
        Verb::Digits => Some("number"),
        Verb::Blank => identity_at(rule.place.as_slice()),
    }
}

/// A line of rules.
#[derive(Drop)]
struct Line<'f> {
    text: &'f [u8],
    /// The rules of this line alone.
    rules: Option<MaskRules>,
    /// The label of the ids that the line declares.
    label: Option<&'static str>,
    /// The label that is tried. If it is `None`, the line keeps the label that it has.
    tried: Option<&'static str>,
}

impl<'f> Line<'f> {
    /// Reads a line, and labels nothing.
    fn read(alloc: Global, text: &'f [u8]) -> Result<Line<'f>, AllocError> {
        let rules = match MaskRules::read(alloc, text) {
            Ok(rules) => Some(rules),
            Err(fault) if fault.cause == RulesCause::Memory => return Err(AllocError),
            Err(_) => None,
        };
        Ok(Line {
            text,
            rules,
            label: None,
            tried: None,
        })
    }

    /// Returns the rule of the line, if it changes values.
    fn rule(&self) -> Option<&MaskRule> {
        self.rules.as_ref()?.changes().first()
    }

    /// Returns whether the line has a label that is tried.
    fn has_tried(&self) -> bool {
        self.label.is_some() && self.tried.is_some()
    }

    /// Labels the line with the label that is tried.
    fn try_label(&mut self) {
        if self.tried.is_some() {
            self.label = self.tried;
        }
    }

    /// Returns whether the line changes values of messages of this kind and name.
    fn is_for(&self, kind: Kind, name: &str) -> bool {
        match self.rule() {
            Some(rule) => rule.kind == kind && rule.name.as_deref() == Some(name),
            None => false,
        }
    }

    /// Returns whether one of the differences of a message from another one is at the place of the
    /// rule.
    fn is_at(&self, message: &Tree, found: &[Difference<'_>]) -> bool {
        let Some(rule) = self.rule() else {
            return false;
        };
        for difference in found {
            if leads_along(rule.place.as_slice(), message, difference.path.as_slice()) {
                return true;
            }
        }
        false
    }

    /// Appends the line with its label.
    fn push(&self, out: &mut Vec<u8>) -> Result<(), AllocError> {
        out.extend_from_slice(self.text)?;
        match self.label {
            Some(label) => push_parts(&[b"  as ", label.as_bytes()], out),
            None => Ok(()),
        }
    }
}

/// Returns the value to which a step of a path leads, if a step of a place leads there too.
fn next_value<'t>(step: &Step, value: &'t Tree, taken: &PathStep<'_>) -> Option<&'t Tree> {
    match (step, taken, value) {
        (Step::Member(name), PathStep::Member(member), _) if name.as_str() == *member => {
            value.child(name.as_str())
        }
        (Step::Each, PathStep::Item(index), Tree::List(items)) => items.get(*index),
        (Step::Element(name), PathStep::Item(index), Tree::List(items)) => {
            let item = items.get(*index)?;
            (text_at(item, "name") == Some(name.as_str())).then_some(item)
        }
        _ => None,
    }
}

/// Returns whether a path in a message leads to a place.
fn leads_along(place: &[Step], message: &Tree, path: &[PathStep<'_>]) -> bool {
    let mut value = message;
    for (step, taken) in place.iter().zip(path) {
        match next_value(step, value, taken) {
            Some(next) => value = next,
            None => return false,
        }
    }
    place.len() == path.len()
}

/// Reads lines, and labels nothing.
fn read_lines(alloc: Global, text: &[u8]) -> Result<Vec<Line<'_>>, AllocError> {
    let mut lines = Vec::new(alloc);
    for line in text.split(|byte| *byte == b'\n') {
        lines.push(Line::read(alloc, line)?)?;
    }
    Ok(lines)
}

/// Returns whether a file cannot have the lines that are for the same messages as one of them,
/// after the rules `given` before them.
fn is_refused(
    alloc: Global,
    given: &[u8],
    lines: &[Line<'_>],
    index: usize,
) -> Result<bool, AllocError> {
    let rule = lines.get(index).and_then(|line| line.rule());
    let Some(
        MaskRule {
            kind,
            name: Some(name),
            ..
        },
    ) = rule
    else {
        return Ok(true);
    };
    let mut rules = Vec::new(alloc);
    for line in lines {
        if line.is_for(*kind, name.as_str()) {
            line.push(&mut rules)?;
            rules.push(b'\n')?;
        }
    }
    are_refused(alloc, given, rules.as_slice())
}

/// Tries the labels of ids that are known by their rule or their place.
fn try_known(lines: &mut Vec<Line<'_>>) {
    for line in lines.iter_mut() {
        line.tried = line.rule().and_then(|rule| label_of(rule));
    }
}

/// Tries a label for the other lines that blank ids of which some occur twice. All other lines keep
/// the labels that they have. Returns whether one is tried.
fn try_values(lines: &mut Vec<Line<'_>>, blanked_ids: &BTreeSet<Vec<u8>>) -> bool {
    let mut is_any_tried = false;
    for line in lines.iter_mut() {
        let is_tried = line.tried.is_none() && blanked_ids.contains(line.text);
        line.tried = is_tried.then_some(VALUE);
        is_any_tried |= is_tried;
    }
    is_any_tried
}

/// Labels all lines with the labels that are tried.
fn label_all(lines: &mut Vec<Line<'_>>) {
    for line in lines.iter_mut() {
        line.try_label();
    }
}

/// Removes the labels that are tried, and gives them to their lines again, except for those that a
/// file cannot have beside the others.
fn keep_allowed(alloc: Global, given: &[u8], lines: &mut Vec<Line<'_>>) -> Result<(), AllocError> {
    let given = joined(alloc, given, missing_end(given))?;
    let all = text_of(alloc, lines.as_slice())?;
    if !are_refused(alloc, given.as_slice(), all.as_slice())? {
        return Ok(());
    }
    let labelled: Vec<bool> = lines.iter().map(|line| line.has_tried()).collect(alloc)?;
    clear_labels(lines);
    for (index, is_labelled) in labelled.iter().enumerate() {
        if *is_labelled && let Some(line) = lines.get_mut(index) {
            line.try_label();
        }
        if *is_labelled
            && is_refused(alloc, given.as_slice(), lines.as_slice(), index)?
            && let Some(line) = lines.get_mut(index)
        {
            line.label = None;
        }
    }
    Ok(())
}

/// Labels the lines with the labels that are tried, except for those that a file cannot have beside
/// the others.
fn label_lines(alloc: Global, given: &[u8], lines: &mut Vec<Line<'_>>) -> Result<(), AllocError> {
    label_all(lines);
    keep_allowed(alloc, given, lines)
}

/// Returns whether each rule before the next empty line declares ids.
fn declare_ids(lines: &[Line<'_>]) -> bool {
    for line in lines {
        if line.text.is_empty() {
            break;
        }
        if !line.text.starts_with(b"#") && line.label.is_none() {
            return false;
        }
    }
    true
}

/// Returns the text of lines with their labels.
fn text_of(alloc: Global, lines: &[Line<'_>]) -> Result<Vec<u8>, AllocError> {
    let mut text = Vec::new(alloc);
    for (index, line) in lines.iter().enumerate() {
        if index > 0 {
            text.push(b'\n')?;
        }
        line.push(&mut text)?;
        if line.text.starts_with(b"# also hides ")
            && declare_ids(lines.get(index..).unwrap_or(&[]))
        {
            text.extend_from_slice(b"; keeps which ids are equal")?;
        }
    }
    Ok(text)
}

/// Removes the tried labels of the rules for a message at the places of some differences, or at all
/// places. Returns whether it removed one.
fn unlabel_at(lines: &mut Vec<Line<'_>>, message: &Tree, found: Option<&[Difference<'_>]>) -> bool {
    let Some((kind, name)) = head_of(message) else {
        return false;
    };
    let mut is_removed = false;
    for line in lines.iter_mut() {
        if line.has_tried()
            && line.is_for(kind, name)
            && found.is_none_or(|found| line.is_at(message, found))
        {
            line.label = None;
            is_removed = true;
        }
    }
    is_removed
}

/// Returns whether a line has a label that is tried.
fn have_labels(lines: &[Line<'_>]) -> bool {
    lines.iter().any(|line| line.has_tried())
}

/// Removes all labels that are tried.
fn clear_labels(lines: &mut Vec<Line<'_>>) {
    for line in lines.iter_mut() {
        if line.tried.is_some() {
            line.label = None;
        }
    }
}

/// Removes the tried labels of the rules for the messages that differ: those at the places at which
/// they differ; or all if none is there; or those of all rules if these have none. Then removes
/// those that a file cannot have beside the lines without them.
fn unlabel(
    alloc: Global,
    given: &[u8],
    lines: &mut Vec<Line<'_>>,
    mismatch: &Mismatch,
) -> Result<(), AllocError> {
    let mut scratch = Scratch::new(alloc);
    // Both contents are canonical, so no other error is possible.
    let a = read_tree_with(alloc, mismatch.a.as_slice(), &mut scratch).map_err(|_| AllocError)?;
    let b = read_tree_with(alloc, mismatch.b.as_slice(), &mut scratch).map_err(|_| AllocError)?;
    let found = differences(alloc, &a, &b)?;
    if !unlabel_at(lines, &a, Some(found.as_slice())) && !unlabel_at(lines, &a, None) {
        clear_labels(lines);
    }
    keep_allowed(alloc, given, lines)
}

/// Returns the rules that were found in lines, with labels for the known ids that they find.
fn labelled_lines<'f>(
    alloc: Global,
    given: &[u8],
    found: &'f [u8],
) -> Result<Vec<Line<'f>>, AllocError> {
    let mut lines = read_lines(alloc, found)?;
    try_known(&mut lines);
    label_lines(alloc, given, &mut lines)?;
    Ok(lines)
}

/// Suggests the rules of lines with their labels, if two recordings are the same by them in this
/// mode.
fn confirm_lines(
    alloc: Global,
    inputs: &Inputs<'_>,
    lines: &[Line<'_>],
    mode: Mode,
) -> Result<Suggestion, Unsolved>
    requires limits { AreSound inputs.now.limits }
    requires swaps { HasNeededSwaps inputs.now }
    ensures { IfOk result (IsSuggestion inputs.now) }
{
    let text = text_of(alloc, lines)?;
    confirm_in(alloc, inputs, text.as_slice(), mode)
}

/// Removes labels until two recordings are the same by the rules of lines in this mode. Returns
/// `None` if they are not by any labels that are left.
fn confirm_fewer(
    alloc: Global,
    inputs: &Inputs<'_>,
    lines: &mut Vec<Line<'_>>,
    mode: Mode,
) -> Result<Option<Suggestion>, Unsolved>
    requires limits { AreSound inputs.now.limits }
    requires swaps { HasNeededSwaps inputs.now }
    ensures { IfOk result (λ o. IfSome o (IsSuggestion inputs.now)) }
{
    for _ in 0..MAX_ROUNDS {
        if !have_labels(lines.as_slice()) {
            break;
        }
        match confirm_lines(alloc, inputs, lines.as_slice(), mode) {
            Ok(suggestion) => return Ok(Some(suggestion)),
            Err(Unsolved::Differs(mismatch)) => unlabel(alloc, inputs.given, lines, &mismatch)?,
            Err(Unsolved::NoRules(_)) => break,
            Err(Unsolved::Memory) => return Err(Unsolved::Memory),
        }
    }
    Ok(None)
}

/// Confirms the rules that were found, and labels them. With all labels, the recordings differ
/// first in `mismatch`.
fn confirm_after(
    alloc: Global,
    inputs: &Inputs<'_>,
    found: &[u8],
    lines: &mut Vec<Line<'_>>,
    mismatch: &Mismatch,
) -> Result<Suggestion, Unsolved>
    requires limits { AreSound inputs.now.limits }
    requires swaps { HasNeededSwaps inputs.now }
    ensures { IfOk result (IsSuggestion inputs.now) }
{
    let plain = confirm(alloc, inputs, found)?;
    // In another mode the recordings may be the same with all labels.
    if plain.mode == inputs.mode {
        unlabel(alloc, inputs.given, lines, mismatch)?;
    }
    match confirm_fewer(alloc, inputs, lines, plain.mode)? {
        Some(suggestion) => Ok(suggestion),
        None => {
            clear_labels(lines);
            Ok(plain)
        }
    }
}

/// Suggests the rules that were found, with the labels of lines, except for labels with which the
/// recordings differ. Removes these from the lines.
fn confirm_known(
    alloc: Global,
    inputs: &Inputs<'_>,
    found: &[u8],
    lines: &mut Vec<Line<'_>>,
) -> Result<Suggestion, Unsolved>
    requires limits { AreSound inputs.now.limits }
    requires swaps { HasNeededSwaps inputs.now }
    ensures { IfOk result (IsSuggestion inputs.now) }
{
    if !have_labels(lines.as_slice()) {
        return confirm(alloc, inputs, found);
    }
    match confirm_lines(alloc, inputs, lines.as_slice(), inputs.mode) {
        Err(Unsolved::Differs(mismatch)) => {
            confirm_after(alloc, inputs, found, lines, &mismatch)
        }
        Err(Unsolved::NoRules(_)) => {
            clear_labels(lines);
            confirm(alloc, inputs, found)
        }
        confirmed => confirmed,
    }
}

/// Suggests the rules that were found with labels for the ids that they find, except for labels
/// with which the recordings differ. The labels of known ids come first, so that no others remove
/// them.
///
/// # Errors
///
/// Those of [`confirm`].
pub fn confirm_labelled(
    alloc: Global,
    inputs: &Inputs<'_>,
    found: &FoundRules,
) -> Result<Suggestion, Unsolved>
    requires limits { AreSound inputs.now.limits }
    requires swaps { HasNeededSwaps inputs.now }
    ensures { IfOk result (IsSuggestion inputs.now) }
{
    let text = found.text.as_slice();
    let mut lines = labelled_lines(alloc, inputs.given, text)?;
    let confirmed = confirm_known(alloc, inputs, text, &mut lines)?;
    if !try_values(&mut lines, &found.blanked_ids) {
        return Ok(confirmed);
    }
    label_lines(alloc, inputs.given, &mut lines)?;
    match confirm_fewer(alloc, inputs, &mut lines, confirmed.mode)? {
        Some(suggestion) => Ok(suggestion),
        None => Ok(confirmed),
    }
}
