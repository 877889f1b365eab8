//! Reads recordings into stored sessions, and checks and normalises the messages of sessions.
ghost use Rattle.std.specs.Prelude.{◌≡◌, ◌+◌, ◌≤◌, Err, List, [], false, IfErr, IfOk, map};
ghost use Rattle.dap_device.specs.Devices.{CanRead};
ghost use Rattle.dap_input.specs.{Engine.Accepts, Limits.AreSound};
ghost use Rattle.dap_stored.specs.Sessions.{messages_of, stored_sent};
ghost use Rattle.dap_normalise.specs.Accepting.{Payload, IsAccepted};
ghost use Rattle.dap_normalise.specs.{Checking.Checks, NameTables.AreReady};
ghost use Rattle.dap_normalise.specs.JudgingSteps.{RepresentsMessages, judge_limits, judge_mode};
ghost use Rattle.dap_normalise.specs.{NormalSteps.RepresentsBefore, Normalising.RefusesBytes};
ghost use Rattle.dap_normalise.specs.NormalSession.{IsNormalSession};
ghost use Rattle.dap_normalise.specs.RecordTexts.{BeginWith, Contain};
ghost use Rattle.dap_recording.specs.Recording.{recording_text};

use crate::checked::Checked;
use crate::judging::Judge;
use crate::normal_records::NormalRecords;
use crate::normal_session::NormalSession;
use dap_device::{MemorySource, Source};
use dap_input::{Limits, Refused};
use dap_message::Side;
use dap_rename::{Mode, NameTable, Tables, index_tables};
use dap_stored::{StoredMessage, StoredSession};
use std::alloc::Global;

/// Returns the messages of a recording, which is checked in the same way as by
/// [`check`](crate::check). Reads each record once.
///
/// # Errors
///
/// - The first error of the recording.
/// - `Memory`: an allocation failed.
pub fn read_session(
    alloc: Global,
    recording: &[u8],
    limits: Limits,
    mode: Mode,
) -> Result<StoredSession, Refused>
    requires limits { AreSound limits }
    ensures ok { IfOk result
        (λ session. IsAccepted limits mode recording.now (messages_of session)) }
    ensures err { IfErr result (RefusesBytes limits mode recording.now) }
{
    let mut reader = MemorySource::new(recording);
    let tables = index_tables(alloc, limits.ids);
    read_session_from(alloc, &mut reader, limits, tables, mode)
}

/// Reads the messages of a recording, which is checked in the same way as by
/// [`check_with`](crate::check_with). Reads each record once. The tables must be empty, each with
/// the limit `limits.ids`.
///
/// # Errors
///
/// - The first error of the input.
/// - `ReadFault`: the reader failed, and the bytes read so far contain no error other than being
///   incomplete.
/// - `Memory`: an allocation failed.
pub fn read_session_from<R: Source, T: NameTable + Drop>(
    alloc: Global,
    reader: &mut R,
    limits: Limits,
    tables: Tables<T>,
    mode: Mode,
) -> Result<StoredSession, Refused>
    requires limits { AreSound limits }
    requires tables { AreReady T.numbers T.limit limits tables }
    requires reader { CanRead R.Source reader.old }

    // These are the messages of the entire input, which is accepted.
    ensures ok { IfOk result (λ session. Accepts R.Source limits.input (IsAccepted limits mode)
        reader.old reader.new (messages_of session)) }

    // The error is that of `check_with`.
    ensures err { IfErr result (λ refused.
        Checks R.Source limits mode false reader.old reader.new (Err refused)) }

    // It reads at most one byte beyond the limit.
    ensures taken { R.given reader.new ≤ R.given reader.old + limits.input + 1 }
{
    let Ok(mut records) = NormalRecords::new(alloc, limits, tables, mode) else {
        return Err(Refused::Memory);
    };
    store_records(alloc, &mut records, reader, limits, mode)
}

/// Returns the messages of an input of which nothing has been read.
fn store_records<R: Source, T: NameTable + Drop>(
    alloc: Global,
    records: &mut NormalRecords<T>,
    reader: &mut R,
    limits: Limits,
    mode: Mode,
) -> Result<StoredSession, Refused>
    requires limits { AreSound limits }
    requires represents { RepresentsBefore T.numbers T.limit limits mode [] records.old [] [] }
    requires reader { CanRead R.Source reader.old }
    ensures ok { IfOk result (λ session. Accepts R.Source limits.input (IsAccepted limits mode)
        reader.old reader.new (messages_of session)) }
    ensures err { IfErr result (λ refused.
        Checks R.Source limits mode false reader.old reader.new (Err refused)) }
    ensures taken { R.given reader.new ≤ R.given reader.old + limits.input + 1 }
{
    let mut session = StoredSession::new(alloc);
    while records.store_next(alloc, reader, &mut session)? {}
    Ok(session)
}

/// Checks any records that contain these messages, in the same way as [`check`](crate::check)
/// checks a recording. Does not read the records.
///
/// # Errors
///
/// - The first error of the records, even if more records follow. Records are numbered from 1.
/// - `Memory`: an allocation failed.
pub fn check_messages(
    alloc: Global,
    messages: Vec<StoredMessage<'_>>,
    limits: Limits,
    mode: Mode,
) -> Result<(), Refused>
    requires limits { AreSound limits }
    ensures ok { let all = map stored_sent messages.entry.items in
        (records : List Payload) → Contain limits all records
        → IfOk result (λ done. IsAccepted limits mode (recording_text records) all) }
    ensures err { (records : List Payload)
        → BeginWith limits (map stored_sent messages.entry.items) records
        → IfErr result (RefusesBytes limits mode (recording_text records)) }
{
    let tables = index_tables(alloc, limits.ids);
    let mut judge = Judge::new(alloc, limits, tables, mode);
    judge_messages(&mut judge, messages, limits, mode)
}

/// Checks any records that contain these messages, by a state that represents no message.
fn judge_messages<T: NameTable + Drop>(
    judge: &mut Judge<T>,
    messages: Vec<StoredMessage<'_>>,
    limits: Limits,
    mode: Mode,
) -> Result<(), Refused>
    requires limits { AreSound limits }
    requires represents { RepresentsMessages T.numbers T.limit judge.old [] [] }
    requires limits_are { judge_limits judge.old ≡ limits }
    requires mode_is { judge_mode judge.old ≡ mode }
    ensures ok { let all = map stored_sent messages.entry.items in
        (records : List Payload) → Contain limits all records
        → IfOk result (λ done. IsAccepted limits mode (recording_text records) all) }
    ensures err { (records : List Payload)
        → BeginWith limits (map stored_sent messages.entry.items) records
        → IfErr result (RefusesBytes limits mode (recording_text records)) }
{
    let mut number = 0;
    for message in messages {
        number += 1;
        judge.check_message(number, &message)?;
    }
    Ok(())
}

/// Returns the normal form of any records that contain these messages, as
/// [`normalise_session`](crate::normalise_session) does for a recording. Does not read the records.
///
/// # Errors
///
/// Those of [`check_messages`].
pub fn normalise_messages(
    alloc: Global,
    messages: Vec<StoredMessage<'_>>,
    limits: Limits,
    mode: Mode,
) -> Result<NormalSession, Refused>
    requires limits { AreSound limits }
    ensures ok { (records : List Payload)
        → Contain limits (map stored_sent messages.entry.items) records
        → IfOk result (IsNormalSession limits mode (recording_text records)) }
    ensures accepted { let all = map stored_sent messages.entry.items in
        (records : List Payload) → Contain limits all records
        → IfOk result (λ done. IsAccepted limits mode (recording_text records) all) }
    ensures err { (records : List Payload)
        → BeginWith limits (map stored_sent messages.entry.items) records
        → IfErr result (RefusesBytes limits mode (recording_text records)) }
{
    let tables = index_tables(alloc, limits.ids);
    let mut judge = Judge::new(alloc, limits, tables, mode);
    write_messages(alloc, &mut judge, messages, limits, mode)
}

/// Normalises any records that contain these messages, by a state that represents no message.
fn write_messages<T: NameTable + Drop>(
    alloc: Global,
    judge: &mut Judge<T>,
    messages: Vec<StoredMessage<'_>>,
    limits: Limits,
    mode: Mode,
) -> Result<NormalSession, Refused>
    requires limits { AreSound limits }
    requires represents { RepresentsMessages T.numbers T.limit judge.old [] [] }
    requires limits_are { judge_limits judge.old ≡ limits }
    requires mode_is { judge_mode judge.old ≡ mode }
    ensures ok { (records : List Payload)
        → Contain limits (map stored_sent messages.entry.items) records
        → IfOk result (IsNormalSession limits mode (recording_text records)) }
    ensures accepted { let all = map stored_sent messages.entry.items in
        (records : List Payload) → Contain limits all records
        → IfOk result (λ done. IsAccepted limits mode (recording_text records) all) }
    ensures err { (records : List Payload)
        → BeginWith limits (map stored_sent messages.entry.items) records
        → IfErr result (RefusesBytes limits mode (recording_text records)) }
{
    let mut bytes = Vec::new(alloc);
    let mut records = 0;
    for message in messages {
        records += 1;
        judge.judge_message(alloc, records, message, &mut bytes)?;
    }
    let counts = Checked {
        records,
        client_open: judge.open(Side::Client),
        adapter_open: judge.open(Side::Adapter),
    };
    Ok(NormalSession { bytes, counts })
}
