//! The records of a stored session.
ghost use Rattle.std.specs.Prelude.{◌≡◌, IfOk};
ghost use Rattle.dap_diff.specs.Entries.{AreEntriesOf, stop_after};
ghost use Rattle.dap_rename.specs.Modes.{is_stopped};
ghost use Rattle.dap_stored.specs.Sessions.{messages_of, stored_sent};

use crate::entry::{Entry, StoredEntry};
use dap_message::{AnyMessage, Kind};
use dap_rename::Mode;
use dap_stored::StoredSession;
use std::alloc::{AllocError, Global};

/// Returns whether a message is a `stopped` event.
fn is_stopped<M: AnyMessage>(message: &M) -> bool
    ensures { result ≡ is_stopped (M.sent message.now) }
{
    match message.kind() {
        Kind::Event => message.name() == "stopped",
        Kind::Request | Kind::Response => false,
    }
}

/// Returns the number of the last stop after a record of this number, given that before it. The
/// numbering of frame ids and variables references restarts after a stop if `mode` is `PerStop`.
fn stop_after<M: AnyMessage>(mode: Mode, number: u64, message: &M, stop: u64) -> u64
    ensures { result ≡ stop_after mode number (M.sent message.now) stop }
{
    match mode {
        Mode::PerStop if is_stopped(message) => number,
        Mode::PerStop | Mode::Whole => stop,
    }
}

/// Returns the records of the messages of a session, in their order. No record has a counterpart.
pub fn entries_of(
    alloc: Global,
    session: &StoredSession,
    mode: Mode,
) -> Result<Vec<StoredEntry<'_>>, AllocError>
    ensures { IfOk result (λ entries.
        AreEntriesOf stored_sent mode 0 1 (messages_of session.now) entries.items) }
{
    let mut entries = Vec::with_capacity(alloc, session.len())?;
    let mut stop = 0;
    for place in 0..session.len() {
        let Some(message) = session.message(place) else {
            unreachable!()
        };
        let number = place as u64 + 1;
        entries.push(Entry::new(alloc, number, stop, message)?)?;
        stop = stop_after(mode, number, &message, stop);
    }
    Ok(entries)
}
