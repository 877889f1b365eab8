//! Checks recordings.
ghost use Rattle.std.specs.Prelude.{◌+◌, ◌≤◌, [], false};
ghost use Rattle.dap_device.specs.Devices.{CanRead};
ghost use Rattle.dap_normalise.specs.{Checking.Checks, NameTables.AreReady};
ghost use Rattle.dap_normalise.specs.NormalSteps.{RepresentsBefore};
ghost use Rattle.dap_input.specs.Limits.{AreSound};

use crate::checked::Checked;
use crate::normal_records::NormalRecords;
use dap_device::Source;
use dap_input::{Limits, Refused};
use dap_message::Side;
use dap_rename::{Mode, NameTable, Tables, index_tables};
use std::alloc::Global;

/// Reads a recording and checks it: its records, their messages, the session rules, the number of
/// ids, and the length of its normal form. Accepts and rejects the same recordings as
/// [`normalise`](crate::normalise).
///
/// Each record is read and checked before the next one: at most 65,536 bytes beyond it are read,
/// and at most one byte beyond `limits.input`. Records are counted from 1 in the order of the
/// input. If `complete` is true, each request must have a response.
///
/// # Errors
///
/// - The first error of the input.
/// - `Incomplete`: the input has no error, `complete` is true, and a request has no response.
/// - `ReadFault`: the reader failed, and the bytes read so far contain no error other than being
///   incomplete.
/// - `Memory`: an allocation failed.
pub fn check<R: Source>(
    alloc: Global,
    reader: &mut R,
    limits: Limits,
    complete: bool,
    mode: Mode,
) -> Result<Checked, Refused>
    requires limits { AreSound limits }
    requires reader { CanRead R.Source reader.old }

    // The result is the counts of an accepted recording, or its first error. `Incomplete` is
    // returned if and only if `complete` is true and a request has no response. `ReadFault` is
    // returned if and only if the reader failed. If an allocation failed, no more was read than
    // some record requires, and the records before it are accepted.
    ensures outcome { Checks R.Source limits mode complete reader.old reader.new result }

    // It reads at most one byte beyond the limit.
    ensures taken { R.given reader.new ≤ R.given reader.old + limits.input + 1 }
{
    let tables = index_tables(alloc, limits.ids);
    check_with(alloc, reader, limits, complete, tables, mode)
}

/// Does the same as [`check`] with these interning tables. They must be empty, each with the limit
/// `limits.ids`.
///
/// # Errors
///
/// The same as those of [`check`].
pub fn check_with<R: Source, T: NameTable + Drop>(
    alloc: Global,
    reader: &mut R,
    limits: Limits,
    complete: bool,
    tables: Tables<T>,
    mode: Mode,
) -> Result<Checked, Refused>
    requires limits { AreSound limits }
    requires tables { AreReady T.numbers T.limit limits tables }
    requires reader { CanRead R.Source reader.old }

    // The guarantees of `check`, for any tables.
    ensures outcome { Checks R.Source limits mode complete reader.old reader.new result }
    ensures taken { R.given reader.new ≤ R.given reader.old + limits.input + 1 }
{
    let checked = count_records(alloc, reader, limits, tables, mode)?;
    if complete && (checked.client_open != 0 || checked.adapter_open != 0) {
        return Err(Refused::Incomplete(checked.client_open, checked.adapter_open));
    }
    Ok(checked)
}

/// Checks all records and returns their counts.
fn count_records<R: Source, T: NameTable + Drop>(
    alloc: Global,
    reader: &mut R,
    limits: Limits,
    tables: Tables<T>,
    mode: Mode,
) -> Result<Checked, Refused>
    requires limits { AreSound limits }
    requires tables { AreReady T.numbers T.limit limits tables }
    requires reader { CanRead R.Source reader.old }
    ensures outcome { Checks R.Source limits mode false reader.old reader.new result }
    ensures taken { R.given reader.new ≤ R.given reader.old + limits.input + 1 }
{
    let Ok(mut records) = NormalRecords::new(alloc, limits, tables, mode) else {
        return Err(Refused::Memory);
    };
    judge_records(alloc, &mut records, reader, limits, mode)
}

/// Checks the records of an input of which nothing has been read.
fn judge_records<R: Source, T: NameTable + Drop>(
    alloc: Global,
    records: &mut NormalRecords<T>,
    reader: &mut R,
    limits: Limits,
    mode: Mode,
) -> Result<Checked, Refused>
    requires limits { AreSound limits }
    requires represents { RepresentsBefore T.numbers T.limit limits mode [] records.old [] [] }
    requires reader { CanRead R.Source reader.old }
    ensures outcome { Checks R.Source limits mode false reader.old reader.new result }
    ensures taken { R.given reader.new ≤ R.given reader.old + limits.input + 1 }
{
    'records: while records.check_next(alloc, reader)? {}
    Ok(Checked {
        records: records.number() - 1,
        client_open: records.open(Side::Client),
        adapter_open: records.open(Side::Adapter),
    })
}
