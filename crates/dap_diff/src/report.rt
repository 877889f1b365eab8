//! The lines that report all differences of two recordings.
ghost use Rattle.std.specs.Prelude.{◌≡◌, IfOk, length, true};
ghost use Rattle.dap_diff.specs.RecordLines.{count_line};
ghost use Rattle.dap_mask.specs.Declarations.{declarations_of, are_declared};
ghost use Rattle.dap_stored.specs.Sessions.{stored_sent};
ghost use Rattle.dap_tree.specs.{Ids.{ids, with_ids}, Json.text_of};

use crate::contents::have_one_text;
use crate::declared_names::DeclaredNames;
use crate::entry::StoredEntry;
use crate::ids::JointNumbers;
use crate::matching::match_records;
use crate::numbering::{join_pairs, numbers_of};
use crate::record_lines::{push_content_leaves, push_count, push_place};
use crate::rows::{Row, first_out_of_order, rows_of};
use dap_compare::Which;
use dap_mask::Declaration;
use dap_message::AnyMessage;
use dap_stored::StoredMessage;
use dap_tree::Scratch;
use std::alloc::{AllocError, Global};

/// How many rows differ, and their lines.
#[derive(Drop)]
struct Report {
    /// How many pairs differ.
    pairs: u64,
    /// How many records are in A alone.
    only_a: u64,
    /// How many records are in B alone.
    only_b: u64,
    lines: Vec<u8>,
    scratch: Scratch,
}

impl Report {
    fn new(alloc: Global) -> Report {
        Report {
            pairs: 0,
            only_a: 0,
            only_b: 0,
            lines: Vec::new(alloc),
            scratch: Scratch::new(alloc),
        }
    }

    /// Adds a pair, if its messages differ by the joint numbers and names of their ids. With names,
    /// messages with one text may differ: `<address 2>` of A and of B may be different ids.
    fn add_pair(
        &mut self,
        alloc: Global,
        a: &StoredEntry<'_>,
        b: &StoredEntry<'_>,
        numbers: &mut JointNumbers,
        names: &mut DeclaredNames<'_>,
    ) -> Result<(), AllocError> {
        let numbers_a = numbers_of(alloc, Which::A, a, numbers)?;
        let numbers_b = numbers_of(alloc, Which::B, b, numbers)?;
        let is_named = names.may_be_in(&a.message) || names.may_be_in(&b.message);
        if !is_named
            && numbers_a.as_slice() == numbers_b.as_slice()
            && have_one_text(&a.message, &b.message)
        {
            return Ok(());
        }
        let mut content_a = numbered_content(alloc, &a.message, numbers_a.as_slice())?;
        let mut content_b = numbered_content(alloc, &b.message, numbers_b.as_slice())?;
        if is_named {
            let scratch = &mut self.scratch;
            content_a = names.named_content(alloc, Which::A, content_a.as_slice(), scratch)?;
            content_b = names.named_content(alloc, Which::B, content_b.as_slice(), scratch)?;
        }
        let (one, other) = (content_a.as_slice(), content_b.as_slice());
        if one == other {
            return Ok(());
        }
        self.pairs = self.pairs.saturating_add(1);
        push_place(
            Some(a.number),
            Some(b.number),
            a.head.as_str(),
            &mut self.lines,
        )?;
        push_content_leaves(alloc, one, other, &mut self.scratch, &mut self.lines)
    }

    /// Adds a row, if it differs.
    fn add(
        &mut self,
        alloc: Global,
        row: Row<'_>,
        numbers: &mut JointNumbers,
        names: &mut DeclaredNames<'_>,
    ) -> Result<(), AllocError> {
        match row {
            Row::Pair(a, b) => self.add_pair(alloc, a, b, numbers, names),
            Row::OnlyA(a) => {
                self.only_a = self.only_a.saturating_add(1);
                push_place(Some(a.number), None, a.head.as_str(), &mut self.lines)
            }
            Row::OnlyB(b) => {
                self.only_b = self.only_b.saturating_add(1);
                push_place(None, Some(b.number), b.head.as_str(), &mut self.lines)
            }
        }
    }

    /// Returns whether only the order of the records can differ.
    fn is_empty(&self) -> bool {
        self.pairs == 0 && self.only_a == 0 && self.only_b == 0
    }
}

/// Returns the content of a message, in which the ids have these numbers.
fn numbered_content(
    alloc: Global,
    message: &StoredMessage<'_>,
    numbers: &[i64],
) -> Result<Vec<u8>, AllocError>
    requires { length numbers.now ≡ length (ids (stored_sent message.now).doc) }
    ensures { IfOk result (λ content.
        content.items ≡ text_of (with_ids (stored_sent message.now).doc numbers.now)) }
{
    let mut content = Vec::new(alloc);
    (*message).write_with_ids(alloc, numbers, &mut content)?;
    Ok(content)
}

/// Returns the first line, which counts the rows that differ.
fn first_line(alloc: Global, report: &Report) -> Result<Vec<u8>, AllocError>
    ensures { IfOk result (λ line. line.items
        ≡ count_line report.now.pairs report.now.only_a report.now.only_b) }
{
    let mut out = Vec::new(alloc);
    out.extend_from_slice(b"differ: ")?;
    push_count(report.pairs, " paired, ", &mut out)?;
    push_count(report.only_a, " only in A, ", &mut out)?;
    push_count(report.only_b, " only in B\n", &mut out)?;
    Ok(out)
}

/// Appends the line that names the first pair out of order.
fn push_order(rows: &[Row<'_>], out: &mut Vec<u8>) -> Result<(), AllocError> {
    let Some((a, b)) = first_out_of_order(rows) else {
        return Ok(());
    };
    out.extend_from_slice(b"out of order: ")?;
    push_place(Some(a.number), Some(b.number), a.head.as_str(), out)
}

/// Returns the lines of the rows.
fn report_rows(
    alloc: Global,
    rows: &[Row<'_>],
    names: &mut DeclaredNames<'_>,
) -> Result<Vec<u8>, AllocError> {
    let mut numbers = join_pairs(alloc, rows, names)?;
    let mut report = Report::new(alloc);
    for row in rows {
        report.add(alloc, *row, &mut numbers, names)?;
    }
    if report.is_empty() {
        push_order(rows, &mut report.lines)?;
    }
    let mut out = first_line(alloc, &report)?;
    out.extend_from_slice(report.lines.as_slice())?;
    Ok(out)
}

/// Returns the lines that report all differences of two recordings, with joint names in the place
/// of the ids that these rules declare.
pub fn report_lines<'m>(
    alloc: Global,
    a: &mut [StoredEntry<'m>],
    b: &mut [StoredEntry<'m>],
    declarations: &[Declaration],
) -> Result<Vec<u8>, AllocError>
    requires { are_declared (declarations_of declarations.now) ≡ true }
{
    match_records(alloc, a, b)?;
    let rows = rows_of(alloc, a, b)?;
    let mut names = DeclaredNames::new(alloc, declarations);
    report_rows(alloc, rows.as_slice(), &mut names)
}
