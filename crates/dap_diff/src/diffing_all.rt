//! Compares all records of two recordings.
ghost use Rattle.std.specs.Prelude.{◌+◌, ◌≤◌};
ghost use Rattle.dap_device.specs.Devices.{CanRead};
ghost use Rattle.dap_input.specs.Limits.{AreSound};
ghost use Rattle.dap_normalise.specs.NameTables.{AreReady};
ghost use Rattle.dap_diff.specs.Matching.{DiffersAll};

use crate::all_differences::AllDifferences;
use crate::sessions::diff_all_sessions;
use dap_compare::{CompareRefused, Which};
use dap_device::Source;
use dap_input::Limits;
use dap_normalise::read_session_from;
use dap_rename::{Mode, NameTable, Tables, index_tables};
use std::alloc::Global;

/// Compares two recordings record by record, and reports each pair of records that differs and each
/// record without a counterpart.
///
/// Both inputs are read whole, and their messages are stored. The counterpart of the K-th request
/// or event with some side and name is the K-th one with that side and name; the counterpart of a
/// response is the response to the counterpart of its request. Ids are compared by joint numbers:
/// two ids of one sort at one path of a pair get one number, if neither has a number yet. With
/// [`Mode::PerStop`] ids of frames and references that come after different stops are different
/// ids. The tables for the ids of A and of B must be empty, each with the limit `limits.ids`.
///
/// The first line is `differ: N paired, N only in A, N only in B`. The records follow in the order
/// of A, each as a line such as `12/13 < event "stopped"`, with the numbers in A and in B and `-`
/// for a missing counterpart. After the line of a pair come the lines of its differences, with
/// joint numbers. If only the order differs, the line `out of order: 12/10 < event "output"` names
/// the first pair out of order.
///
/// # Errors
///
/// - `Input`: the first refusal of A, or of B if A is accepted.
/// - `Memory`: an allocation failed.
pub fn diff_all_with<A: Source, B: Source, T: NameTable + Drop>(
    alloc: Global,
    reader_a: &mut A,
    reader_b: &mut B,
    limits: Limits,
    tables_a: Tables<T>,
    tables_b: Tables<T>,
    mode: Mode,
) -> Result<AllDifferences, CompareRefused>
    requires limits { AreSound limits }
    requires tables_a { AreReady T.numbers T.limit limits tables_a }
    requires tables_b { AreReady T.numbers T.limit limits tables_b }
    requires readers { CanRead A.Source reader_a.old × CanRead B.Source reader_b.old }

    // `Same` is returned exactly for two accepted recordings with one normal form.
    ensures outcome { DiffersAll A.Source B.Source limits mode reader_a.old reader_a.new
        reader_b.old reader_b.new result }

    // At most one byte past the limit is taken of each input.
    ensures taken_a { A.given reader_a.new ≤ A.given reader_a.old + limits.input + 1 }
    ensures taken_b { B.given reader_b.new ≤ B.given reader_b.old + limits.input + 1 }
{
    let a = match read_session_from(alloc, reader_a, limits, tables_a, mode) {
        Ok(session) => session,
        Err(refused) => return Err(CompareRefused::of(Which::A, refused)),
    };
    let b = match read_session_from(alloc, reader_b, limits, tables_b, mode) {
        Ok(session) => session,
        Err(refused) => return Err(CompareRefused::of(Which::B, refused)),
    };
    let tables_a = index_tables(alloc, limits.ids);
    let tables_b = index_tables(alloc, limits.ids);
    Ok(diff_all_sessions(alloc, &a, &b, limits, tables_a, tables_b, mode)?)
}
