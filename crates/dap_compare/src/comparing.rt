//! Compares recordings.
ghost use Rattle.std.specs.Prelude.{◌+◌, ◌≤◌};
ghost use Rattle.dap_device.specs.Devices.{CanRead};
ghost use Rattle.dap_input.specs.Limits.{AreSound};
ghost use Rattle.dap_normalise.specs.NameTables.{AreReady};
ghost use Rattle.dap_compare.specs.ComparingSteps.{AreUnread, limits_of, mode_in};
ghost use Rattle.dap_compare.specs.{LeftTexts.LeavesDifference, Verdicts.Compares};

use crate::verdict::{CompareRefused, Verdict, Which};
use dap_device::Source;
use dap_input::Limits;
use dap_normalise::NormalRecords;
use dap_rename::{Mode, NameTable, Tables, index_tables};
use std::alloc::Global;

/// Compares two recordings. Returns the renaming of the ids of A to those of B, or the first record
/// that differs.
///
/// For each number, the record of A is read and checked first, then that of B. Nothing is checked
/// after a difference or an error. At most 65,536 bytes beyond a record are read, and at most one
/// byte beyond `limits.input` of each input. Records are counted from 1.
///
/// # Errors
///
/// - `Input`: the first error of an input. The records before it are the same. `ReadFault` is
///   returned if a reader failed and the bytes read so far contain no error other than being
///   incomplete.
/// - `Memory`: an allocation failed.
pub fn compare<A: Source, B: Source>(
    alloc: Global,
    reader_a: &mut A,
    reader_b: &mut B,
    limits: Limits,
    mode: Mode,
) -> Result<Verdict, CompareRefused>
    requires limits { AreSound limits }
    requires readers { CanRead A.Source reader_a.old × CanRead B.Source reader_b.old }

    // The result is the one verdict on the two inputs. `ReadFault` is returned only if the reader
    // failed. With a verdict or `Memory`, neither reader failed. With `Memory`, no more was read
    // than some record requires, and the records before it are the same.
    ensures outcome { Compares A.Source B.Source limits mode reader_a.old reader_a.new reader_b.old
        reader_b.new result }

    // It reads at most one byte beyond the limit of each input.
    ensures taken_a { A.given reader_a.new ≤ A.given reader_a.old + limits.input + 1 }
    ensures taken_b { B.given reader_b.new ≤ B.given reader_b.old + limits.input + 1 }
{
    compare_with(
        alloc,
        reader_a,
        reader_b,
        limits,
        index_tables(alloc, limits.ids),
        index_tables(alloc, limits.ids),
        mode,
    )
}

/// Does the same as [`compare`] with these interning tables for the ids of A and of B. They must be
/// empty, each with the limit `limits.ids`.
///
/// # Errors
///
/// The same as those of [`compare`].
pub fn compare_with<A: Source, B: Source, T: NameTable + Drop>(
    alloc: Global,
    reader_a: &mut A,
    reader_b: &mut B,
    limits: Limits,
    tables_a: Tables<T>,
    tables_b: Tables<T>,
    mode: Mode,
) -> Result<Verdict, CompareRefused>
    requires limits { AreSound limits }
    requires tables_a { AreReady T.numbers T.limit limits tables_a }
    requires tables_b { AreReady T.numbers T.limit limits tables_b }
    requires readers { CanRead A.Source reader_a.old × CanRead B.Source reader_b.old }

    // The guarantees of `compare`, for any tables.
    ensures outcome { Compares A.Source B.Source limits mode reader_a.old reader_a.new reader_b.old
        reader_b.new result }
    ensures taken_a { A.given reader_a.new ≤ A.given reader_a.old + limits.input + 1 }
    ensures taken_b { B.given reader_b.new ≤ B.given reader_b.old + limits.input + 1 }
{
    let mut text_a = Vec::new(alloc);
    let mut text_b = Vec::new(alloc);
    compare_texts_with(
        alloc,
        reader_a,
        reader_b,
        limits,
        tables_a,
        tables_b,
        mode,
        &mut text_a,
        &mut text_b,
    )
}

/// Does the same as [`compare_with`], and stores the records that differ.
///
/// If the result is `Differ`, `text_a` is the record of A's normal form and `text_b` that of B's.
/// It is empty if that input has ended. For every other result, the contents of both are
/// unspecified.
///
/// # Errors
///
/// The same as those of [`compare`].
pub fn compare_texts_with<A: Source, B: Source, T: NameTable + Drop>(
    alloc: Global,
    reader_a: &mut A,
    reader_b: &mut B,
    limits: Limits,
    tables_a: Tables<T>,
    tables_b: Tables<T>,
    mode: Mode,
    text_a: &mut Vec<u8>,
    text_b: &mut Vec<u8>,
) -> Result<Verdict, CompareRefused>
    requires limits { AreSound limits }
    requires tables_a { AreReady T.numbers T.limit limits tables_a }
    requires tables_b { AreReady T.numbers T.limit limits tables_b }
    requires readers { CanRead A.Source reader_a.old × CanRead B.Source reader_b.old }

    // The guarantees of `compare`, for any tables.
    ensures outcome { Compares A.Source B.Source limits mode reader_a.old reader_a.new reader_b.old
        reader_b.new result }
    ensures taken_a { A.given reader_a.new ≤ A.given reader_a.old + limits.input + 1 }
    ensures taken_b { B.given reader_b.new ≤ B.given reader_b.old + limits.input + 1 }

    // If the result is a difference, the records that differ are stored.
    ensures text_a { LeavesDifference A.Source limits mode reader_a.old reader_a.new
        text_a.new.items result }
    ensures text_b { LeavesDifference B.Source limits mode reader_b.old reader_b.new
        text_b.new.items result }
{
    let mut records_a = NormalRecords::new(alloc, limits, tables_a, mode)?;
    let mut records_b = NormalRecords::new(alloc, limits, tables_b, mode)?;
    compare_records(
        alloc,
        reader_a,
        reader_b,
        &mut records_a,
        &mut records_b,
        text_a,
        text_b,
    )
}

/// Compares the records of two inputs from which nothing was read. Both are checked within the
/// limits and in the mode of the first one.
fn compare_records<A: Source, B: Source, T: NameTable + Drop>(
    alloc: Global,
    reader_a: &mut A,
    reader_b: &mut B,
    records_a: &mut NormalRecords<T>,
    records_b: &mut NormalRecords<T>,
    text_a: &mut Vec<u8>,
    text_b: &mut Vec<u8>,
) -> Result<Verdict, CompareRefused>
    requires limits { AreSound (limits_of records_a.old) }
    requires a { AreUnread T.numbers T.limit (limits_of records_a.old) (mode_in records_a.old)
        records_a.old }
    requires b { AreUnread T.numbers T.limit (limits_of records_a.old) (mode_in records_a.old)
        records_b.old }
    requires readers { CanRead A.Source reader_a.old × CanRead B.Source reader_b.old }
    ensures outcome { Compares A.Source B.Source (limits_of records_a.old) (mode_in records_a.old)
        reader_a.old reader_a.new reader_b.old reader_b.new result }
    ensures taken_a { A.given reader_a.new
        ≤ A.given reader_a.old + (limits_of records_a.old).input + 1 }
    ensures taken_b { B.given reader_b.new
        ≤ B.given reader_b.old + (limits_of records_a.old).input + 1 }
    ensures text_a { LeavesDifference A.Source (limits_of records_a.old) (mode_in records_a.old)
        reader_a.old reader_a.new text_a.new.items result }
    ensures text_b { LeavesDifference B.Source (limits_of records_a.old) (mode_in records_a.old)
        reader_b.old reader_b.new text_b.new.items result }
{
    'records: loop {
        let number = records_a.number();
        text_a.clear();
        text_b.clear();
        let some_a = match records_a.next(alloc, reader_a, text_a) {
            Ok(some) => some,
            Err(refused) => return Err(CompareRefused::of(Which::A, refused)),
        };
        match records_b.next(alloc, reader_b, text_b) {
            Ok(_) => {}
            Err(refused) => return Err(CompareRefused::of(Which::B, refused)),
        }
        // The text of an input that has ended is empty, and no record is.
        if text_a.as_slice() != text_b.as_slice() {
            return Ok(Verdict::Differ(number));
        }
        if !some_a {
            let Ok(renaming) = records_a.renaming_to(alloc, records_b) else {
                return Err(CompareRefused::Memory);
            };
            return Ok(Verdict::Same(renaming));
        }
    }
}
