//! Reads the items of an input while its bytes are received.
ghost use Rattle.std.specs.Prelude.{◌≡◌, ◌<◌, ◌≤◌, ◌↔◌, ◌++◌, ℕ, List, [], length, IfErr, IfOk};
ghost use Rattle.std.specs.Prelude.{IsErrOf, IsOk, IsTrue};
ghost use Rattle.dap_frame.specs.Grammar.{HasItem, Grammar};
ghost use Rattle.dap_frame.specs.declared.limits.FrameLimits.{FrameLimits};
ghost use Rattle.dap_recording.specs.declared.record_fault.RecordCause.{RecordCause};

use dap_frame::{Content, FrameFault, Framer};
use dap_recording::{Record, RecordCause, RecordReader};

/// The part of its chunk that a call of [`feed`](ItemReader::feed) consumed.
#[derive(Debug, Drop)]
pub struct FedItem<T> {
    /// The number of bytes consumed from the start of the chunk. Pass the rest to the next call.
    pub used: usize,
    /// The item that ended at the last byte consumed. `None`: the whole chunk was consumed, and no
    /// item ended.
    pub item: Option<T>,
}

/// Reads the items of an input from the chunks of its bytes, which may be cut anywhere.
///
/// A reader represents the bytes received since the last complete item. Pass each chunk to
/// [`feed`](ItemReader::feed), then pass the rest of it after `used` again, until the rest is
/// empty.
pub trait ItemReader: Drop {
    /// The value of an item.
    type Item: Drop;

    /// The grammar of the items under limits.
    ghost items: { FrameLimits → Grammar Self.Item RecordCause };

    /// The reader, made with these limits, represents these bytes of an incomplete item.
    ghost represents: { FrameLimits → Self → List ℕ → Type 0 };

    /// Under these limits, these bytes of an item need memory: a byte of a content has arrived.
    ghost takes_memory: { FrameLimits → List ℕ → Type 0 };

    ghost use Rattle.dap_input.specs.ItemReading.{GivesItem};

    /// Reads to the end of one item or of the chunk, whichever is first.
    ///
    /// Allocates only for bytes of a content. An empty chunk and an error before any content need
    /// no memory.
    ///
    /// # Errors
    ///
    /// - `Memory`: an allocation failed. The reader is unchanged and has consumed nothing. The call
    ///   may be repeated with the same chunk.
    /// - Any error except `Cut`: the bytes so far prove it.
    fn feed(&mut self, piece: &[u8]) -> Result<FedItem<Self::Item>, RecordCause>
        ensures gives { (limits : FrameLimits) (bytes : List ℕ) → represents limits self.old bytes
            → GivesItem (items limits) (represents limits) bytes piece.now result self.new }
        ensures used { IfOk result (λ fed. fed.used ≤ length piece.now) }
        ensures progress { IfOk result (λ fed. 0 < length piece.now → 0 < fed.used) }

        // The state after an allocation failure, and what was to be allocated.
        ensures memory { IsErrOf result RecordCause.Memory → self.new ≡ self.old }
        ensures memory_for_content { IsErrOf result RecordCause.Memory → (limits : FrameLimits)
            (bytes : List ℕ) → represents limits self.old bytes
            → takes_memory limits (bytes ++ piece.now) }
        ensures memory_for_bytes { IsErrOf result RecordCause.Memory → (limits : FrameLimits)
            (bytes : List ℕ) → represents limits self.old bytes → 0 < length piece.now };

    /// Returns whether the chunk starts with a complete item. The result does not depend on the
    /// bytes that the reader represents. Does not allocate.
    fn has_item(&self, piece: &[u8]) -> bool
        ensures { (limits : FrameLimits) (bytes : List ℕ) → represents limits self.now bytes
            → IsTrue result → HasItem (items limits) piece.now };

    /// Keeps the buffer of an item that is no longer used, for later items. Changes nothing else.
    /// Does not allocate.
    fn recycle(&mut self, item: Self::Item)
        ensures { self.new ≡ self.old };

    /// Checks whether the input may end here. Changes nothing. Does not allocate.
    ///
    /// # Errors
    ///
    /// - `Cut`: the input ends inside an item.
    fn finish(&self) -> Result<(), RecordCause>
        ensures ok { (limits : FrameLimits) (bytes : List ℕ) → represents limits self.now bytes
            → (IsOk result ↔ (bytes ≡ [])) }
        ensures cut { (limits : FrameLimits) (bytes : List ℕ) → represents limits self.now bytes
            → IfErr result (λ cause. cause ≡ RecordCause.Cut) };

    ghost is_open: { (limits : FrameLimits) (reader : Self) (bytes : List ℕ)
        → represents limits reader bytes → (items limits).IsOpen bytes };
}

impl ItemReader for Framer {
    type Item = Content;

    ghost use Rattle.std.proofs.Common.{subst};
    ghost use Rattle.dap_frame.specs.Frame.{HasContentByte};
    ghost use Rattle.dap_input.specs.ItemReading.{RepresentsFrame, frame_items};

    ghost items = { frame_items };

    ghost represents = { RepresentsFrame };

    ghost takes_memory = { HasContentByte };

    ghost is_open = { λ limits framer bytes represents.
        subst (λ l. (frame_items l).IsOpen bytes) represents.0 represents.1.is_open };

    fn feed(&mut self, piece: &[u8]) -> Result<FedItem<Content>, RecordCause> {
        match Framer::feed(self, piece) {
            Ok(fed) => Ok(FedItem {
                used: fed.used,
                item: fed.content,
            }),
            Err(fault) => match fault {
                FrameFault::Memory => Err(RecordCause::Memory),
                _ => Err(RecordCause::Frame(fault)),
            },
        }
    }

    fn has_item(&self, piece: &[u8]) -> bool {
        match Framer::frame_in(self, piece) {
            Some(_) => true,
            None => false,
        }
    }

    fn recycle(&mut self, item: Content) {
        Framer::recycle(self, item);
    }

    fn finish(&self) -> Result<(), RecordCause> {
        match Framer::finish(self) {
            Ok(()) => Ok(()),
            Err(_) => Err(RecordCause::Cut),
        }
    }
}

impl ItemReader for RecordReader {
    type Item = Record;

    ghost use Rattle.std.proofs.Common.{subst};
    ghost use Rattle.dap_recording.proofs.RecordSteps.{represented_is_incomplete};
    ghost use Rattle.dap_recording.specs.RecordReading.{HasMarkedContent};
    ghost use Rattle.dap_input.specs.ItemReading.{RepresentsRecord, record_items};

    ghost items = { record_items };

    ghost represents = { RepresentsRecord };

    ghost takes_memory = { HasMarkedContent };

    ghost is_open = { λ limits reader bytes represents.
        subst (λ l. (record_items l).IsOpen bytes) represents.0
        (represented_is_incomplete reader represents.1.0 bytes represents.1.1) };

    fn feed(&mut self, piece: &[u8]) -> Result<FedItem<Record>, RecordCause> {
        match RecordReader::feed(self, piece) {
            Ok(fed) => Ok(FedItem {
                used: fed.used,
                item: fed.whole,
            }),
            Err(fault) => Err(fault.cause),
        }
    }

    fn has_item(&self, piece: &[u8]) -> bool {
        RecordReader::has_record(self, piece)
    }

    fn recycle(&mut self, item: Record) {
        RecordReader::recycle(self, item);
    }

    fn finish(&self) -> Result<(), RecordCause> {
        match RecordReader::finish(self) {
            Ok(()) => Ok(()),
            Err(fault) => Err(fault.cause),
        }
    }
}
