//! Normalises recordings in memory, and counts their records and unanswered requests.
ghost use Rattle.std.specs.Prelude.{◌≡◌, [], IfErr, IfOk};
ghost use Rattle.dap_input.specs.Limits.{AreSound};
ghost use Rattle.dap_normalise.specs.{NameTables.AreReady, NormalSteps.RepresentsBefore};
ghost use Rattle.dap_normalise.specs.{NormalSession.IsNormalSession, Normalising.RefusesBytes};

use crate::checked::Checked;
use crate::normal_records::NormalRecords;
use dap_device::MemorySource;
use dap_input::{Limits, Refused};
use dap_message::Side;
use dap_rename::{Mode, NameTable, Tables, index_tables};
use std::alloc::Global;

/// The normal text of a recording, and its counts.
#[derive(Drop)]
pub struct NormalSession {
    pub bytes: Vec<u8>,
    pub counts: Checked,
}

/// Returns the normal form of a recording, as [`normalise_bytes`](crate::normalise_bytes) does, and
/// its counts, as [`check`](crate::check) does. Reads the recording once.
///
/// # Errors
///
/// The first error of the recording, or `Memory`.
pub fn normalise_session(
    alloc: Global,
    recording: &[u8],
    limits: Limits,
    mode: Mode,
) -> Result<NormalSession, Refused>
    requires limits { AreSound limits }
    ensures ok { IfOk result (IsNormalSession limits mode recording.now) }
    ensures err { IfErr result (RefusesBytes limits mode recording.now) }
{
    let tables = index_tables(alloc, limits.ids);
    normalise_by(alloc, recording, limits, tables, mode)
}

/// Does the same as [`normalise_session`], with these tables for the ids.
fn normalise_by<T: NameTable + Drop>(
    alloc: Global,
    recording: &[u8],
    limits: Limits,
    tables: Tables<T>,
    mode: Mode,
) -> Result<NormalSession, Refused>
    requires limits { AreSound limits }
    requires tables { AreReady T.numbers T.limit limits tables }
    ensures ok { IfOk result (IsNormalSession limits mode recording.now) }
    ensures err { IfErr result (RefusesBytes limits mode recording.now) }
{
    let Ok(mut records) = NormalRecords::new(alloc, limits, tables, mode) else {
        return Err(Refused::Memory);
    };
    normalise_records(alloc, &mut records, recording, limits, mode)
}

/// Normalises the records of a recording, none of which has been read.
fn normalise_records<T: NameTable + Drop>(
    alloc: Global,
    records: &mut NormalRecords<T>,
    recording: &[u8],
    limits: Limits,
    mode: Mode,
) -> Result<NormalSession, Refused>
    requires limits { AreSound limits }
    requires represents { RepresentsBefore T.numbers T.limit limits mode [] records.old [] [] }
    ensures ok { IfOk result (IsNormalSession limits mode recording.now) }
    ensures err { IfErr result (RefusesBytes limits mode recording.now) }
{
    let mut reader = MemorySource::new(recording);
    let mut bytes = Vec::new(alloc);
    while records.next(alloc, &mut reader, &mut bytes)? {}
    let counts = Checked {
        records: records.number() - 1,
        client_open: records.open(Side::Client),
        adapter_open: records.open(Side::Adapter),
    };
    Ok(NormalSession { bytes, counts })
}
