//! Reads the records of an input one by one.
ghost use Rattle.std.specs.Prelude.{◌≡◌, ◌+◌, ◌-◌, ◌<◌, ◌≤◌, ◌^◌, [], IfOk, IsTrue, true, false};
ghost use Rattle.dap_frame.specs.{Grammar.HasItem, declared.limits.FrameLimits.FrameLimits};

use crate::item_reader::ItemReader;
use crate::refused::Refused;
use dap_device::{Pieces, Source, Stop};
use dap_recording::RecordCause;
use std::alloc::{AllocError, Global};

/// Reads the records of an input, only as far as the next record requires: at most one chunk beyond
/// its end. The reader `I` defines what a record is.
#[derive(Drop)]
pub struct Records<I> {
    pieces: Pieces,
    reader: I,
    /// The number of the next record.
    number: u64,
    /// Whether the source has ended, has failed, or has delivered a byte beyond the limit.
    is_over: bool,
}

impl<I: ItemReader> Records<I> {
    ghost use Rattle.dap_input.specs.RecordSteps.{IsAtStart, ReadsNext, ReadsRest};
    ghost use Rattle.dap_input.specs.RecordSteps.{IsBetweenRecords, Stops};

    /// Returns the records of an input of which nothing has been read, for a reader that has read
    /// nothing. At most `limit` bytes are read.
    pub fn new(alloc: Global, reader: I, limit: u64) -> Result<Records<I>, AllocError>
        requires { limit ≤ 2 ^ 62 }
        ensures { (limits : FrameLimits) → I.represents limits reader []
            → IfOk result (λ records. IsAtStart (I.represents limits) limit records) }
    {
        Ok(Records {
            pieces: Pieces::new(alloc, limit)?,
            reader,
            number: 1,
            is_over: false,
        })
    }

    /// Returns the number of the next record, counted from 1.
    pub fn number(&self) -> u64
        ensures { result ≡ self.now.number }
    {
        self.number
    }

    /// Reads the next record. Returns `None` if the input has ended after the last one.
    ///
    /// # Errors
    ///
    /// - `Record`: the bytes received prove an error of the record, or the input ends inside it.
    /// - `InputTooLong`: the record is not complete within the limit.
    /// - `ReadFault`: a read failed before the record was complete.
    /// - `Memory`: an allocation failed. At least one byte of the content was received.
    pub fn next<R: Source>(&mut self, reader: &mut R) -> Result<Option<I::Item>, Refused>
        requires number { self.old.number < 2 ^ 63 }
        requires given { R.given reader.old + (self.old.pieces.limit - self.old.pieces.taken)
            < 2 ^ 63 }
        requires failures { R.failures reader.old < 2 ^ 63 }
        ensures { (limits : FrameLimits) → IsBetweenRecords (I.represents limits) self.old
            → ReadsNext (I.items limits) (I.represents limits) (I.takes_memory limits) R.Source
            self.old self.new reader.old reader.new result }
    {
        loop {
            if let Err(stop) = self.pieces.fill(reader) {
                self.is_over = true;
                return self.stopped(stop);
            }
            let fed = match self.reader.feed(self.pieces.unread()) {
                Ok(fed) => fed,
                Err(cause) => match cause {
                    RecordCause::Memory => return Err(Refused::Memory),
                    _ => return Err(Refused::Record(self.number, cause)),
                },
            };
            self.pieces.skip(fed.used);
            if fed.item.is_some() {
                self.number += 1;
                return Ok(fed.item);
            }
        }
    }

    /// Returns whether the next record is complete in the buffered bytes, so that
    /// [`next`](Records::next) reads nothing from the source. Does not allocate.
    pub fn has_next(&self) -> bool
        ensures { (limits : FrameLimits) → IsBetweenRecords (I.represents limits) self.now
            → IsTrue result → HasItem (I.items limits) self.now.pieces.unread }
    {
        self.reader.has_item(self.pieces.unread())
    }

    /// Keeps the buffer of a record that is no longer used, for later records. Changes nothing
    /// else. Does not allocate.
    pub fn recycle(&mut self, item: I::Item)
        ensures { self.new ≡ self.old }
    {
        self.reader.recycle(item);
    }

    /// Returns the result of `next` when no more bytes are received.
    fn stopped(&self, stop: Stop) -> Result<Option<I::Item>, Refused>
        ensures { (limits : FrameLimits) → Stops (I.represents limits) self.now stop result }
    {
        match stop {
            Stop::Full => Err(Refused::InputTooLong(self.number)),
            Stop::Failed => Err(Refused::ReadFault),
            Stop::End => match self.reader.finish() {
                Ok(()) => Ok(None),
                Err(_) => Err(Refused::Record(self.number, RecordCause::Cut)),
            },
        }
    }

    /// Reads the rest of the input, up to a byte beyond the limit, and drops it. If the source has
    /// ended, has failed or has delivered that byte, reads nothing.
    pub fn drain<R: Source>(&mut self, reader: &mut R)
        requires given { self.old.is_over ≡ false
            → R.given reader.old + (self.old.pieces.limit - self.old.pieces.taken) < 2 ^ 63 }
        requires failures { self.old.is_over ≡ false → R.failures reader.old < 2 ^ 63 }
        ensures over { self.old.is_over ≡ true → reader.new ≡ reader.old }
        ensures rest { self.old.is_over ≡ false → self.old.pieces.taken ≤ self.old.pieces.limit
            → ReadsRest R.Source self.old reader.old reader.new }
    {
        if self.is_over {
            return;
        }
        while self.pieces.fill(reader).is_ok() {
            let count = self.pieces.unread().len();
            self.pieces.skip(count);
        }
        self.is_over = true;
    }
}
