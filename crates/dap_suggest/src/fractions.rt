//! Finds the numbers that are not integers of 64 bits, and suggests rules that blank them.
ghost use Rattle.dap_input.specs.Limits.{AreSound};

use crate::comments::push_check;
use crate::guarded::hidden_at;
use crate::joined_rules::{fault_after, missing_end};
use crate::suggestion::Inputs;
use crate::words::{class_of, head_of, push_member, push_parts};
use dap_compare::Which;
use dap_mask::{MaskRules, is_dropped, mask, omit, read_by_rules};
use dap_recording::{FedRecord, Record, RecordCause, RecordReader};
use dap_tree::{Scratch, Tree, TreeFault};
use serde_json::{Map, Value};
use std::alloc::{AllocError, Global};
use std::collections::BTreeMap;

/// A search for the numbers of two recordings that are not integers of 64 bits.
#[derive(Drop)]
struct Numbers<'r> {
    alloc: Global,
    /// The rules that were given.
    rules: &'r MaskRules,
    /// The comments on the rules that blank the numbers, by the messages and the places of the
    /// rules.
    comments: BTreeMap<Vec<u8>, Vec<u8>>,
    /// The recording that is searched, and the record, as comments name them.
    which: Which,
    record: u64,
    /// The messages and the place that are searched, as rules have them.
    target: Vec<u8>,
    scratch: Scratch,
}

/// Adds the rule for a value, with a comment that shows it, if it is a number that is not an
/// integer of 64 bits, and the first at its place.
fn add_number(numbers: &mut Numbers<'_>, value: &Value) -> Result<(), AllocError> {
    let (alloc, target) = (numbers.alloc, numbers.target.as_slice());
    if value.is_f64() && !numbers.comments.contains_key(target) {
        let (which, record) = (numbers.which, numbers.record);
        let hidden = hidden_at(alloc, target)?;
        let target = numbers.target.clone()?;
        let comment = format!(in alloc; "# {which} record {record}: {value}\n")?;
        let mut comment = comment.into_bytes();
        if let Some(hidden) = hidden {
            push_check(hidden, &mut comment)?;
        }
        drop(numbers.comments.insert(target, comment)?);
    }
    Ok(())
}

/// Returns the `name` of an element, by which rules omit it.
fn name_of(element: &Tree) -> Option<&str> {
    match element.child("name")? {
        Tree::Text(name) => Some(name.as_str()),
        _ => None,
    }
}

/// Adds the rules for the numbers in a value that remain in `left`. `masked` is the value after the
/// changes of the rules that were given, and `left` is `masked` without the elements that they
/// omit.
#[cycle(search)]
fn search(
    numbers: &mut Numbers<'_>,
    value: &Value,
    masked: &Tree,
    left: &Tree,
) -> Result<(), AllocError> {
    match (value, masked, left) {
        (Value::Array(values), Tree::List(items), Tree::List(kept)) => {
            search_items(numbers, values, items, kept.as_slice())
        }
        (Value::Object(values), Tree::Object(members), Tree::Object(kept)) => {
            search_members(numbers, values, members, kept)
        }
        (Value::Number(_), _, Tree::Whole(_)) if !left.sound() => add_number(numbers, value),
        _ => Ok(()),
    }
}

/// Adds the rules for the numbers in elements that remain in `kept`. An element that is omitted has
/// another name than each element that is kept, so the next one that is kept is the first element
/// with its name.
#[cycle(search)]
fn search_items(
    numbers: &mut Numbers<'_>,
    values: &Vec<Value>,
    items: &Vec<Tree>,
    kept: &[Tree],
) -> Result<(), AllocError> {
    let start = numbers.target.len();
    numbers.target.extend_from_slice(b"[]")?;
    let mut rest = kept;
    for (value, item) in values.iter().zip(items.iter()) {
        if let [left, others @ ..] = rest
            && name_of(item) == name_of(left)
        {
            search(numbers, value, item, left)?;
            rest = others;
        }
    }
    numbers.target.truncate(start);
    Ok(())
}

#[cycle(search)]
fn search_members(
    numbers: &mut Numbers<'_>,
    values: &Map<String, Value>,
    members: &BTreeMap<String, Tree>,
    kept: &BTreeMap<String, Tree>,
) -> Result<(), AllocError> {
    let start = numbers.target.len();
    for (name, value) in values.iter() {
        if let Some(member) = members.get(name.as_str())
            && let Some(left) = kept.get(name.as_str())
        {
            push_member(numbers.alloc, name.as_str(), &mut numbers.target)?;
            search(numbers, value, member, left)?;
            numbers.target.truncate(start);
        }
    }
    Ok(())
}

/// Adds the rules for the numbers of a content that remain in `left`.
fn search_content(
    numbers: &mut Numbers<'_>,
    content: &[u8],
    left: &Tree,
) -> Result<(), AllocError> {
    let (alloc, rules) = (numbers.alloc, numbers.rules);
    let message = Value::from_slice(alloc, content).map_err(|_| AllocError)?;
    let masked = read_by_rules(alloc, content, rules, &mut numbers.scratch);
    let mut masked = masked.map_err(|_| AllocError)?;
    mask(&mut masked, rules);
    search(numbers, &message, &masked, left)
}

/// Adds the rules for the numbers of a record. `left` is its tree with the words of the rules that
/// were given. Returns whether these rules keep the record.
fn add_left(
    numbers: &mut Numbers<'_>,
    content: &[u8],
    left: &mut Tree,
) -> Result<bool, AllocError> {
    let alloc = numbers.alloc;
    if is_dropped(left, numbers.rules) {
        return Ok(false);
    }
    mask(left, numbers.rules);
    omit(left, numbers.rules);
    if !left.sound()
        && let Some((kind, name)) = head_of(left)
    {
        numbers.target = class_of(alloc, kind, name)?;
        numbers.target.push(b' ')?;
        search_content(numbers, content, left)?;
    }
    Ok(true)
}

/// Adds the rules for the numbers of a record, if it has some after the rules that were given.
/// Returns whether these rules keep the record.
fn add_record(numbers: &mut Numbers<'_>, content: &[u8]) -> Result<bool, AllocError> {
    match read_by_rules(numbers.alloc, content, numbers.rules, &mut numbers.scratch) {
        Ok(mut left) => add_left(numbers, content, &mut left),
        Err(TreeFault::Memory) => Err(AllocError),
        Err(_) => Ok(true),
    }
}

/// Returns the next record of a recording and the number of its bytes, or `None` at the end of the
/// recording and after an error in its bytes.
fn next_record(
    reader: &mut RecordReader,
    rest: &[u8],
) -> Result<Option<(Record, usize)>, AllocError> {
    match reader.feed(rest) {
        Ok(FedRecord { used, whole }) => Ok(whole.map(|record| (record, used))),
        Err(fault) if fault.cause == RecordCause::Memory => Err(AllocError),
        Err(_) => Ok(None),
    }
}

/// Adds the rules for the numbers of a recording, up to an error in its bytes.
fn add_recording(
    numbers: &mut Numbers<'_>,
    recording: &[u8],
    reader: &mut RecordReader,
) -> Result<(), AllocError> {
    let mut rest = recording;
    numbers.record = 1;
    for _ in 1..u64::MAX {
        let Some((record, used)) = next_record(reader, rest)? else {
            break;
        };
        if add_record(numbers, record.content.as_slice())? {
            numbers.record = numbers.record.saturating_add(1);
        }
        rest = rest.get(used..).unwrap_or(&[]);
    }
    Ok(())
}

/// Adds the rules for the numbers of two recordings.
fn add_recordings(numbers: &mut Numbers<'_>, inputs: &Inputs<'_>) -> Result<(), AllocError>
    requires { AreSound inputs.now.limits }
{
    for (which, recording) in [(Which::A, inputs.a), (Which::B, inputs.b)] {
        let mut reader = RecordReader::new(numbers.alloc, inputs.limits.frame);
        numbers.which = which;
        add_recording(numbers, recording, &mut reader)?;
    }
    Ok(())
}

/// Returns rules that can follow those that were given, and that blank the numbers of two
/// recordings that are not integers of 64 bits.
pub fn fraction_rules(
    alloc: Global,
    rules: &MaskRules,
    inputs: &Inputs<'_>,
) -> Result<Vec<u8>, AllocError>
    requires { AreSound inputs.now.limits }
{
    let mut numbers = Numbers {
        alloc,
        rules,
        comments: BTreeMap::new(alloc),
        which: Which::A,
        record: 1,
        target: Vec::new(alloc),
        scratch: Scratch::new(alloc),
    };
    add_recordings(&mut numbers, inputs)?;
    accepted_rules(inputs.given, &numbers)
}

/// Returns those rules that can follow the rules that were given.
fn accepted_rules(given: &[u8], numbers: &Numbers<'_>) -> Result<Vec<u8>, AllocError> {
    let mut out = Vec::from_slice(numbers.alloc, missing_end(given))?;
    for (target, comment) in numbers.comments.iter() {
        let length = out.len();
        let rule = [comment.as_slice(), b"blank  ", target.as_slice(), b"\n\n"];
        push_parts(&rule, &mut out)?;
        if fault_after(numbers.alloc, given, out.as_slice())?.is_some() {
            out.truncate(length);
        }
    }
    Ok(out)
}
