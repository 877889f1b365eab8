//! The records of a recording, and what matching needs of each.
use crate::record_lines::head_of;
use dap_message::AnyMessage;
use dap_stored::StoredMessage;
use std::alloc::{AllocError, Global};

/// A record of a recording.
#[derive(Drop)]
pub struct Entry<M> {
    /// The place of the record in its recording, counted from 1.
    pub number: u64,
    /// The number of the last `stopped` event before the record, if frame ids and variables
    /// references restart after each stop; otherwise 0.
    pub stop: u64,
    /// The side, the kind and the name of the message, such as `< event "stopped"`.
    pub head: String,
    pub message: M,
    /// The index of the record's counterpart in the other recording.
    pub counterpart: Option<usize>,
}

/// A record of a stored session.
pub type StoredEntry<'s> = Entry<StoredMessage<'s>>;

impl<M: AnyMessage + Drop> Entry<M> {
    ghost use Rattle.std.specs.Prelude.{IfOk};
    ghost use Rattle.dap_diff.specs.Entries.{IsEntryOf};

    /// Returns the record with this number and this message, which follows this stop. It has no
    /// counterpart.
    pub fn new(alloc: Global, number: u64, stop: u64, message: M) -> Result<Entry<M>, AllocError>
        ensures { IfOk result (IsEntryOf M.sent stop number (M.sent message)) }
    {
        let head = head_of(alloc, &message)?;
        Ok(Entry {
            number,
            stop,
            head,
            message,
            counterpart: None,
        })
    }
}
