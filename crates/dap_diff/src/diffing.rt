//! Finds the differences of two recordings.
ghost use Rattle.std.specs.Prelude.{◌+◌, ◌≤◌, IfOk};
ghost use Rattle.dap_device.specs.Devices.{CanRead};
ghost use Rattle.dap_input.specs.Limits.{AreSound};
ghost use Rattle.dap_normalise.specs.NameTables.{AreReady};
ghost use Rattle.dap_diff.specs.{Diffs.DescribesDifference, Texts.{IsLeftText, DescribesTexts}};

use crate::lines::diff_lines;
use crate::outcome::Diff;
use crate::reading::message_in;
use dap_compare::{CompareRefused, Verdict, compare_texts_with};
use dap_device::Source;
use dap_input::Limits;
use dap_rename::{Mode, NameTable, Tables, index_tables};
use dap_tree::Scratch;
use std::alloc::{AllocError, Global};

/// Returns the lines for the stored records of A and of B.
pub fn lines_of(
    alloc: Global,
    text_a: &[u8],
    text_b: &[u8],
    limits: Limits,
) -> Result<Vec<u8>, AllocError>
    requires sound { AreSound limits }
    requires is_left_a { IsLeftText limits text_a.now }
    requires is_left_b { IsLeftText limits text_b.now }
    ensures { IfOk result (λ lines. DescribesTexts limits text_a.now text_b.now lines.items) }
{
    let mut scratch = Scratch::new(alloc);
    let message_a = message_in(alloc, text_a, limits, &mut scratch)?;
    let message_b = message_in(alloc, text_b, limits, &mut scratch)?;
    diff_lines(alloc, &message_a, &message_b, &mut scratch)
}

/// Compares two recordings like [`compare`](dap_compare::compare). If they differ, returns the
/// differences as lines.
///
/// If both recordings have a record there, with the same side, kind and name, the first line is the
/// head of its message. An example is `< event "stopped"`. The following lines are the leaves in
/// which the normal forms differ, with ids as numbers. Otherwise there are two lines, such as
/// `A > request "next"` and `B ends`.
///
/// # Errors
///
/// The same as those of [`compare`](dap_compare::compare).
pub fn diff<A: Source, B: Source>(
    alloc: Global,
    reader_a: &mut A,
    reader_b: &mut B,
    limits: Limits,
    mode: Mode,
) -> Result<Diff, CompareRefused>
    requires limits { AreSound limits }
    requires readers { CanRead A.Source reader_a.old × CanRead B.Source reader_b.old }

    // The result is the one verdict on the two inputs; if they differ, with the differences as
    // lines.
    ensures outcome { DescribesDifference A.Source B.Source limits mode reader_a.old reader_a.new
        reader_b.old reader_b.new result }

    // It reads at most one byte beyond the limit of each input.
    ensures taken_a { A.given reader_a.new ≤ A.given reader_a.old + limits.input + 1 }
    ensures taken_b { B.given reader_b.new ≤ B.given reader_b.old + limits.input + 1 }
{
    diff_with(
        alloc,
        reader_a,
        reader_b,
        limits,
        index_tables(alloc, limits.ids),
        index_tables(alloc, limits.ids),
        mode,
    )
}

/// Does the same as [`diff`] with these interning tables for the ids of A and of B. They must be
/// empty, each with the limit `limits.ids`.
///
/// # Errors
///
/// The same as those of [`diff`].
pub fn diff_with<A: Source, B: Source, T: NameTable + Drop>(
    alloc: Global,
    reader_a: &mut A,
    reader_b: &mut B,
    limits: Limits,
    tables_a: Tables<T>,
    tables_b: Tables<T>,
    mode: Mode,
) -> Result<Diff, CompareRefused>
    requires limits { AreSound limits }
    requires tables_a { AreReady T.numbers T.limit limits tables_a }
    requires tables_b { AreReady T.numbers T.limit limits tables_b }
    requires readers { CanRead A.Source reader_a.old × CanRead B.Source reader_b.old }

    // The guarantees of `diff`, for any tables.
    ensures outcome { DescribesDifference A.Source B.Source limits mode reader_a.old reader_a.new
        reader_b.old reader_b.new result }
    ensures taken_a { A.given reader_a.new ≤ A.given reader_a.old + limits.input + 1 }
    ensures taken_b { B.given reader_b.new ≤ B.given reader_b.old + limits.input + 1 }
{
    let mut text_a = Vec::new(alloc);
    let mut text_b = Vec::new(alloc);
    let verdict = compare_texts_with(
        alloc,
        reader_a,
        reader_b,
        limits,
        tables_a,
        tables_b,
        mode,
        &mut text_a,
        &mut text_b,
    )?;
    match verdict {
        Verdict::Same(_) => Ok(Diff::Same),
        Verdict::Differ(record) => {
            let lines = lines_of(alloc, text_a.as_slice(), text_b.as_slice(), limits)?;
            Ok(Diff::Differ { record, lines })
        }
    }
}
