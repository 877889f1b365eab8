//! Reads pieces from a trace.
ghost use Rattle.std.specs.Prelude.{◌≡◌, ℕ, ◌+◌, ◌<◌, ◌≤◌, ◌↔◌, List, [], ◌∷◌, ◌++◌, length};
ghost use Rattle.std.specs.Prelude.{take, Err, IfErr, IfOk, IsOk};
ghost use Rattle.dap_frame.specs.Lines.{number_of};
ghost use Rattle.dap_recording.specs.Marker.{marker};
ghost use Rattle.dap_recording.specs.Trace.{IsCount};
ghost use Rattle.dap_recording.specs.Count.{IsCountOf};
ghost use Rattle.dap_recording.specs.TraceReading.{RepresentsPiece, HasFailedAtPiece, GivesTrace};
ghost use Rattle.dap_recording.specs.TraceReading.{GivesFedTrace};

use crate::count::{Count, CountEnd, count_end};
use crate::fed_trace::{FedTrace, TracePart};
use crate::marker::side_of;
use crate::trace_fault::{TraceCause, TraceFault};
use crate::trace_state::TraceState;
use dap_tree::Side;
use std::marker::Model;

/// Reads pieces from a trace, whose inputs may be cut anywhere, and borrows their raw bytes. No
/// call allocates.
///
/// A reader represents the number of the current, incomplete piece, the bytes of it so far, and the
/// raw bytes among them.
///
/// To read a trace, make one reader. Pass each input to [`feed`](TraceReader::feed), then pass the
/// rest of it after `used` again, until the rest is empty. The runs of one piece, joined, are its
/// raw bytes. At the end of the trace, [`finish`](TraceReader::finish) returns whether it ended
/// between two pieces.
#[derive(Drop)]
pub struct TraceReader {
    state: TraceState,
    piece: u64,
}

impl Model for TraceReader {
    ghost use Rattle.dap_recording.specs.TraceReading.{TraceReading, HasBytesToCome};

    ghost Value = { TraceReading };

    ghost view = { λ a. record { state = a.state; piece = a.piece } };

    ghost invariant = { λ a. HasBytesToCome a.state };
}

impl TraceReader {
    /// Returns a reader at the start of a trace.
    pub fn new() -> TraceReader
        ensures { RepresentsPiece result 1 [] [] }
    {
        TraceReader {
            state: TraceState::Marker,
            piece: 1,
        }
    }

    /// Reads to the end of a run of one piece's raw bytes or of the input, whichever is first.
    ///
    /// A run ends with its piece or with the input. A run is empty only if its piece has no raw
    /// bytes; it is then returned once.
    ///
    /// # Errors
    ///
    /// Any error except `Cut`, with the number of the piece in which it occurs. After that, `feed`
    /// and [`finish`](TraceReader::finish) always return this error.
    pub fn feed<'a>(&mut self, input: &'a [u8]) -> Result<FedTrace<'a>, TraceFault>
        ensures gives { (piece : ℕ) (bytes raw : List ℕ) → RepresentsPiece self.old piece bytes raw
            → GivesTrace piece bytes raw input.now result self.new }
        ensures used { IfOk result (λ fed. fed.used ≤ length input.now) }
        ensures progress { IfOk result (λ fed. 0 < length input.now → 0 < fed.used) }
        ensures failed { (fault : _) → HasFailedAtPiece self.old fault
            → (result ≡ Err fault) × (self.new ≡ self.old) }
    {
        match self.state {
            TraceState::Failed(cause) => Err(TraceFault {
                piece: self.piece,
                cause,
            }),
            TraceState::Raw(side, left) => Ok(self.read_raw(side, left, input, 0)),
            TraceState::Count(side, count) => self.read_count(side, count, input, 0),
            TraceState::Marker => self.read_marker(input),
        }
    }

    /// Reads a piece from its marker on.
    fn read_marker<'a>(&mut self, input: &'a [u8]) -> Result<FedTrace<'a>, TraceFault>
        requires { self.old.state ≡ TraceState.Marker }
        ensures gives { (piece : ℕ) (bytes raw : List ℕ) → RepresentsPiece self.old piece bytes raw
            → GivesTrace piece bytes raw input.now result self.new }
        ensures used { IfOk result (λ fed. fed.used ≤ length input.now) }
        ensures progress { IfOk result (λ fed. 0 < length input.now → 0 < fed.used) }
    {
        if input.is_empty() {
            return Ok(FedTrace {
                used: 0,
                part: None,
            });
        }
        match side_of(input[0]) {
            Some(side) => {
                let count = Count {
                    digits: 0,
                    number: 0,
                    is_zero: false,
                };
                self.read_count(side, count, input, 1)
            }
            None => {
                self.state = TraceState::Failed(TraceCause::BadMarker);
                Err(TraceFault {
                    piece: self.piece,
                    cause: TraceCause::BadMarker,
                })
            }
        }
    }

    /// Reads the count of a piece, after the first `from` bytes of the input.
    fn read_count<'a>(
        &mut self,
        side: Side,
        count: Count,
        input: &'a [u8],
        from: usize,
    ) -> Result<FedTrace<'a>, TraceFault>
        requires { from ≤ length input.now }
        ensures gives { (piece : ℕ) (bytes text : List ℕ) → self.old.piece ≡ piece
            → bytes ++ take from input.now ≡ marker side ∷ text → IsCountOf count text
            → GivesTrace piece bytes [] input.now result self.new }
        ensures used { IfOk result (λ fed. (from ≤ fed.used) × (fed.used ≤ length input.now)) }
        ensures progress { IfOk result (λ fed. from < length input.now → from < fed.used) }
    {
        match count_end(count, &input[from..]) {
            CountEnd::More(count) => {
                self.state = TraceState::Count(side, count);
                Ok(FedTrace {
                    used: input.len(),
                    part: None,
                })
            }
            CountEnd::Bad => {
                self.state = TraceState::Failed(TraceCause::BadCount);
                Err(TraceFault {
                    piece: self.piece,
                    cause: TraceCause::BadCount,
                })
            }
            CountEnd::Ended { used, number } => {
                Ok(self.read_raw(side, number, input, from + used))
            }
        }
    }

    /// Reads the raw bytes of a piece, of which `left` are missing, after the first `from` bytes of
    /// the input.
    fn read_raw<'a>(&mut self, side: Side, left: u64, input: &'a [u8], from: usize) -> FedTrace<'a>
        requires { from ≤ length input.now }
        ensures gives { (piece : ℕ) (bytes raw text : List ℕ) → self.old.piece ≡ piece
            → IsCount text
            → bytes ++ take from input.now ≡ (marker side ∷ text) ++ (10 ∷ raw)
            → number_of text ≡ length raw + left → (left ≡ 0 → raw ≡ [])
            → GivesFedTrace piece bytes raw input.now result self.new }
        ensures used { (from ≤ result.used) × (result.used ≤ length input.now) }
        ensures progress { 0 < left → from < length input.now → from < result.used }
    {
        let run = &input[from..];
        if (run.len() as u64) < left {
            self.state = TraceState::Raw(side, left - run.len() as u64);
            if run.is_empty() {
                return FedTrace {
                    used: input.len(),
                    part: None,
                };
            }
            return FedTrace {
                used: input.len(),
                part: Some(TracePart {
                    piece: self.piece,
                    side,
                    bytes: run,
                }),
            };
        }
        let piece = self.piece;
        self.state = TraceState::Marker;
        self.piece = piece.saturating_add(1);
        FedTrace {
            used: from + left as usize,
            part: Some(TracePart {
                piece,
                side,
                bytes: &run[..left as usize],
            }),
        }
    }

    /// Checks whether the trace may end here. Changes nothing.
    ///
    /// # Errors
    ///
    /// - `Cut`: the trace ends inside a piece.
    /// - The error that occurred before, if any.
    pub fn finish(&self) -> Result<(), TraceFault>
        ensures ok { (piece : ℕ) (bytes raw : List ℕ) → RepresentsPiece self.now piece bytes raw
            → (IsOk result ↔ (bytes ≡ [])) }
        ensures cut { (piece : ℕ) (bytes raw : List ℕ) → RepresentsPiece self.now piece bytes raw
            → IfErr result (λ fault. (fault.piece ≡ piece) × (fault.cause ≡ TraceCause.Cut)) }
        ensures failed { (fault : _) → HasFailedAtPiece self.now fault → result ≡ Err fault }
    {
        let cause = match self.state {
            TraceState::Marker => return Ok(()),
            TraceState::Failed(cause) => cause,
            _ => TraceCause::Cut,
        };
        Err(TraceFault {
            piece: self.piece,
            cause,
        })
    }
}
