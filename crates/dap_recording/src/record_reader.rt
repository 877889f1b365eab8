//! Reads records from the chunks of a recording.
ghost use Rattle.std.specs.Prelude.{◌≡◌, ◌≢◌, ℕ, ◌<◌, ◌≤◌, ◌↔◌, List, [], ◌∷◌, ◌++◌, length, take};
ghost use Rattle.std.specs.Prelude.{Err, IfErr, IfOk, IsOk, IsTrue};
ghost use Rattle.dap_frame.specs.Limits.{IsSound};
ghost use Rattle.dap_frame.specs.Frame.{IsFrame};
ghost use Rattle.dap_frame.specs.Reading.{Represents};
ghost use Rattle.dap_recording.specs.Marker.{marker};
ghost use Rattle.dap_recording.specs.RecordReading.{RepresentsRecords, HasFailedAt, GivesRecord};
ghost use Rattle.dap_recording.specs.RecordReading.{record_limits};
ghost use Rattle.dap_recording.specs.Recording.{HasRecord};

use crate::fed_record::FedRecord;
use crate::marker::side_of;
use crate::record::Record;
use crate::record_fault::{RecordCause, RecordFault};
use crate::record_state::RecordState;
use dap_frame::{FrameFault, FrameLimits, Framer};
use dap_tree::Side;
use std::alloc::Global;
use std::marker::Model;
use std::mem;

/// Reads records from the chunks of a recording, which may be cut anywhere.
///
/// A reader represents the number of the current, incomplete record, and the bytes of it so far. It
/// stores the side and the state of a [`Framer`].
///
/// To read a recording, make one reader with sound limits. Pass each chunk to
/// [`feed`](RecordReader::feed), then pass the rest of it after `used` again, until the rest is
/// empty. Each result with a record is the next record. At the end of the recording,
/// [`finish`](RecordReader::finish) returns whether it ended between two records.
#[derive(Drop)]
pub struct RecordReader {
    framer: Framer,
    state: RecordState,
    number: u64,
}

impl Model for RecordReader {
    ghost use Rattle.dap_recording.specs.RecordReading.{RecordReading};

    ghost Value = { RecordReading };

    ghost view = { λ a. record { framer = a.framer; state = a.state; number = a.number } };
}

impl RecordReader {
    /// Returns a reader at the start of a recording. Does not allocate.
    pub fn new(alloc: Global, limits: FrameLimits) -> RecordReader
        requires { IsSound limits }
        ensures represents { RepresentsRecords result 1 [] }
        ensures limits { record_limits result ≡ limits }
    {
        RecordReader {
            framer: Framer::new(alloc, limits),
            state: RecordState::Marker,
            number: 1,
        }
    }

    /// Reads to the end of one record or of the chunk, whichever is first.
    ///
    /// Allocates only for bytes of a content, and the returned record then owns them. An empty
    /// chunk and an error of a marker or of a header part need no memory.
    ///
    /// # Errors
    ///
    /// An error has the number of the record in which it occurs.
    ///
    /// - `Memory`: an allocation failed. The reader is unchanged and has consumed nothing. The call
    ///   may be repeated with the same chunk.
    /// - Any error except `Cut`: the bytes so far prove it. After that, `feed` and
    ///   [`finish`](RecordReader::finish) always return this error.
    pub fn feed(&mut self, piece: &[u8]) -> Result<FedRecord, RecordFault>
        ensures gives { (number : ℕ) (bytes : List ℕ) → RepresentsRecords self.old number bytes
            → GivesRecord (record_limits self.old) number bytes piece.now result self.new }
        ensures used { IfOk result (λ fed. fed.used ≤ length piece.now) }
        ensures progress { IfOk result (λ fed. 0 < length piece.now → 0 < fed.used) }

        // The state after an error.
        ensures memory { IfErr result (λ fault.
            fault.cause ≡ RecordCause.Memory → self.new ≡ self.old) }
        ensures failed { (fault : _) → HasFailedAt self.old fault
            → (result ≡ Err fault) × (self.new ≡ self.old) }

        ensures limits { record_limits self.new ≡ record_limits self.old }
    {
        match mem::replace(&mut self.state, RecordState::Marker) {
            RecordState::Failed(cause) => {
                self.state = RecordState::Failed(cause);
                Err(RecordFault {
                    number: self.number,
                    cause,
                })
            }
            RecordState::LineEnd(whole) => self.read_line_end(whole, piece, 0),
            RecordState::Frame(side) => {
                self.state = RecordState::Frame(side);
                self.read_frame(side, piece, 0)
            }
            RecordState::Marker => self.read_marker(piece),
        }
    }

    /// Returns whether the chunk starts with a complete record. The result does not depend on what
    /// the reader represents. Does not allocate.
    pub fn has_record(&self, piece: &[u8]) -> bool
        ensures { IsTrue result → HasRecord (record_limits self.now) piece.now }
    {
        if piece.is_empty() {
            return false;
        }
        let Some(_) = side_of(piece[0]) else {
            return false;
        };
        match self.framer.frame_in(&piece[1..]) {
            Some(used) => used + 1 < piece.len() && piece[used + 1] == b'\n',
            None => false,
        }
    }

    /// Keeps the buffer of a record that is no longer used, for later records. Changes nothing
    /// else. Does not allocate.
    pub fn recycle(&mut self, whole: Record)
        ensures { self.new ≡ self.old }
    {
        self.framer.recycle(whole.content);
    }

    /// Reads a record from its marker on.
    fn read_marker(&mut self, piece: &[u8]) -> Result<FedRecord, RecordFault>
        requires { self.old.state ≡ RecordState.Marker }
        ensures gives { (number : ℕ) (bytes : List ℕ) → RepresentsRecords self.old number bytes
            → GivesRecord (record_limits self.old) number bytes piece.now result self.new }
        ensures used { IfOk result (λ fed. fed.used ≤ length piece.now) }
        ensures progress { IfOk result (λ fed. 0 < length piece.now → 0 < fed.used) }
        ensures memory { IfErr result (λ fault.
            fault.cause ≡ RecordCause.Memory → self.new ≡ self.old) }
        ensures limits { record_limits self.new ≡ record_limits self.old }
    {
        if piece.is_empty() {
            return Ok(FedRecord {
                used: 0,
                whole: None,
            });
        }
        match side_of(piece[0]) {
            Some(side) => self.read_frame(side, piece, 1),
            None => {
                self.state = RecordState::Failed(RecordCause::BadMarker);
                Err(RecordFault {
                    number: self.number,
                    cause: RecordCause::BadMarker,
                })
            }
        }
    }

    /// Reads the frame of a record, after the first `from` bytes of the chunk.
    fn read_frame(
        &mut self,
        side: Side,
        piece: &[u8],
        from: usize,
    ) -> Result<FedRecord, RecordFault>
        requires { from ≤ length piece.now }
        ensures gives { (number : ℕ) (bytes rest : List ℕ) → self.old.number ≡ number
            → Represents self.old.framer rest → bytes ++ take from piece.now ≡ marker side ∷ rest
            → RepresentsRecords self.old number bytes
            → GivesRecord (record_limits self.old) number bytes piece.now result self.new }
        ensures used { IfOk result (λ fed. (from ≤ fed.used) × (fed.used ≤ length piece.now)) }
        ensures progress { IfOk result (λ fed. from < length piece.now → from < fed.used) }
        ensures memory { IfErr result (λ fault.
            fault.cause ≡ RecordCause.Memory → self.new ≡ self.old) }
        ensures limits { record_limits self.new ≡ record_limits self.old }
    {
        let fed = match self.framer.feed(&piece[from..]) {
            Ok(fed) => fed,
            Err(fault) => return Err(self.frame_fault(fault)),
        };
        let used = from + fed.used;
        match fed.content {
            Some(content) => self.read_line_end(Record { side, content }, piece, used),
            None => {
                self.state = RecordState::Frame(side);
                Ok(FedRecord {
                    used: piece.len(),
                    whole: None,
                })
            }
        }
    }

    /// Returns the reader's error for an error of the framer.
    fn frame_fault(&mut self, fault: FrameFault) -> RecordFault
        ensures number { result.number ≡ self.old.number }
        ensures memory { fault ≡ FrameFault.Memory
            → (result.cause ≡ RecordCause.Memory) × (self.new ≡ self.old) }
        ensures other { fault ≢ FrameFault.Memory
            → (result.cause ≡ RecordCause.Frame fault) × HasFailedAt self.new result }
        ensures limits { record_limits self.new ≡ record_limits self.old }
    {
        match fault {
            FrameFault::Memory => RecordFault {
                number: self.number,
                cause: RecordCause::Memory,
            },
            _ => {
                self.state = RecordState::Failed(RecordCause::Frame(fault));
                RecordFault {
                    number: self.number,
                    cause: RecordCause::Frame(fault),
                }
            }
        }
    }

    /// Reads the LF of a record, after the first `from` bytes of the chunk.
    fn read_line_end(
        &mut self,
        whole: Record,
        piece: &[u8],
        from: usize,
    ) -> Result<FedRecord, RecordFault>
        requires { from ≤ length piece.now }
        ensures gives { (number : ℕ) (bytes frame : List ℕ) → self.old.number ≡ number
            → Represents self.old.framer [] → bytes ++ take from piece.now
            ≡ marker whole.side ∷ frame
            → IsFrame (record_limits self.old) frame whole.content
            → GivesRecord (record_limits self.old) number bytes piece.now result self.new }
        ensures used { IfOk result (λ fed. (from ≤ fed.used) × (fed.used ≤ length piece.now)) }
        ensures progress { IfOk result (λ fed. from < length piece.now → from < fed.used) }
        ensures other { IfErr result (λ fault. fault.cause ≢ RecordCause.Memory) }
        ensures limits { record_limits self.new ≡ record_limits self.old }
    {
        if from == piece.len() {
            self.state = RecordState::LineEnd(whole);
            return Ok(FedRecord {
                used: from,
                whole: None,
            });
        }
        if piece[from] != b'\n' {
            self.state = RecordState::Failed(RecordCause::NoLineEnd);
            return Err(RecordFault {
                number: self.number,
                cause: RecordCause::NoLineEnd,
            });
        }
        self.state = RecordState::Marker;
        self.number = self.number.saturating_add(1);
        Ok(FedRecord {
            used: from + 1,
            whole: Some(whole),
        })
    }

    /// Checks whether the recording may end here. Changes nothing. Does not allocate.
    ///
    /// # Errors
    ///
    /// - `Cut`: the recording ends inside a record.
    /// - The error that occurred before, if any.
    pub fn finish(&self) -> Result<(), RecordFault>
        ensures ok { (number : ℕ) (bytes : List ℕ) → RepresentsRecords self.now number bytes
            → (IsOk result ↔ (bytes ≡ [])) }
        ensures cut { (number : ℕ) (bytes : List ℕ) → RepresentsRecords self.now number bytes
            → IfErr result (λ fault. (fault.number ≡ number) × (fault.cause ≡ RecordCause.Cut)) }
        ensures failed { (fault : _) → HasFailedAt self.now fault → result ≡ Err fault }
    {
        let cause = match &self.state {
            RecordState::Marker => return Ok(()),
            RecordState::Failed(cause) => *cause,
            _ => RecordCause::Cut,
        };
        Err(RecordFault {
            number: self.number,
            cause,
        })
    }
}
