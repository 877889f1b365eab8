//! Makes a recording from the pieces of a trace.
ghost use Rattle.std.specs.Prelude.{◌≡◌, ◌≢◌, ℕ, ◌<◌, ◌≤◌, ◌↔◌, List, [], length, Err, IfOk, IsOk};
ghost use Rattle.std.specs.Prelude.{IsErrOf, OnErr};
ghost use Rattle.dap_frame.specs.Limits.{IsSound};
ghost use Rattle.dap_recording.specs.OneSide.{WantsMemory};
ghost use Rattle.dap_recording.specs.RecorderReading.{RepresentsRests, HasFailedWith, GivesPiece};
ghost use Rattle.dap_recording.specs.RecorderReading.{text_of, recorder_limits};

use crate::one_side::record_frame;
use crate::recorder_fault::RecorderFault;
use dap_frame::{FrameFault, FrameLimits, Framer};
use dap_tree::Side;
use std::alloc::Global;
use std::marker::Model;

/// Makes a recording of the frames in the pieces that two sides sent each other.
///
/// The record of a frame is appended when its last byte arrives, whatever pieces of the other side
/// arrived since the frame started. A recorder represents, for each side, the bytes received since
/// its last complete frame.
///
/// To record a trace, make one recorder with sound limits. Pass each piece to
/// [`piece`](Recorder::piece), then pass the rest of it after the consumed bytes again, until the
/// rest is empty. [`text`](Recorder::text) is the recording so far. At the end of the trace,
/// [`finish`](Recorder::finish) returns whether each side ended between two frames.
#[derive(Drop)]
pub struct Recorder {
    limits: FrameLimits,
    client: Framer,
    adapter: Framer,
    text: Vec<u8>,
    fault: Option<RecorderFault>,
}

impl Model for Recorder {
    ghost use Rattle.dap_recording.specs.RecorderReading.{RecorderReading};

    ghost Value = { RecorderReading };

    ghost use Rattle.dap_recording.specs.Recorder.{reading, IsConsistent};

    ghost view = { reading };

    ghost invariant = { λ a. IsConsistent (reading a) };
}

impl Recorder {
    /// Returns a recorder at the start of a trace. Does not allocate.
    pub fn new(alloc: Global, limits: FrameLimits) -> Recorder
        requires { IsSound limits }
        ensures represents { RepresentsRests result (λ side. []) }
        ensures text { text_of result ≡ [] }
        ensures limits { recorder_limits result ≡ limits }
    {
        Recorder {
            limits,
            client: Framer::new(alloc, limits),
            adapter: Framer::new(alloc, limits),
            text: Vec::new(alloc),
            fault: None,
        }
    }

    /// Returns the records of the complete frames. Does not allocate.
    pub fn text(&self) -> &[u8]
        ensures { result.now ≡ text_of self.now }
    {
        self.text.as_slice()
    }

    /// Reads to the end of one frame of this side or of the piece, whichever is first, and appends
    /// the record of a frame that ended. Returns the number of bytes consumed from the start of the
    /// piece.
    ///
    /// Allocates only for bytes of a content and the record of a frame that ended. An empty piece
    /// and a header part with an error need no memory.
    ///
    /// # Errors
    ///
    /// - `Memory`: an allocation failed. The recorder is unchanged and has consumed nothing. The
    ///   call may be repeated with the same piece.
    /// - Any error except a `Cut`: the bytes of this side so far prove it. After that, `piece` (for
    ///   either side) and [`finish`](Recorder::finish) always return this error. The text keeps the
    ///   records appended before.
    pub fn piece(&mut self, side: Side, piece: &[u8]) -> Result<usize, RecorderFault>
        ensures gives { (rests : Side → List ℕ) → RepresentsRests self.old rests
            → GivesPiece side rests piece.now self.old self.new result }
        ensures used { IfOk result (λ used. used ≤ length piece.now) }
        ensures progress { IfOk result (λ used. 0 < length piece.now → 0 < used) }

        // The state after an error.
        ensures memory { IsErrOf result RecorderFault.Memory → self.new ≡ self.old }
        ensures memory_for_record { IsErrOf result RecorderFault.Memory → (rests : Side → List ℕ)
            → RepresentsRests self.old rests
            → WantsMemory (recorder_limits self.old) (rests side) piece.now }
        ensures kept { OnErr result (text_of self.new ≡ text_of self.old) }
        ensures failed { (fault : _) → HasFailedWith self.old fault
            → (result ≡ Err fault) × (self.new ≡ self.old) }

        ensures limits { recorder_limits self.new ≡ recorder_limits self.old }
    {
        if let Some(fault) = self.fault {
            return Err(fault);
        }
        let limits = self.limits;
        let recorded = match side {
            Side::Client => record_frame(&mut self.text, &mut self.client, limits, side, piece),
            Side::Adapter => record_frame(&mut self.text, &mut self.adapter, limits, side, piece),
        };
        let cause = match recorded {
            Ok(used) => return Ok(used),
            Err(cause) => cause,
        };
        match cause {
            FrameFault::Memory => Err(RecorderFault::Memory),
            _ => {
                let fault = RecorderFault::Frame(side, cause);
                self.fault = Some(fault);
                Err(fault)
            }
        }
    }

    /// Checks whether the trace may end here. Changes nothing. Does not allocate.
    ///
    /// # Errors
    ///
    /// - The error that occurred before, if any.
    /// - `Cut`: a side ends inside a frame. The client is checked first, then the adapter.
    pub fn finish(&self) -> Result<(), RecorderFault>
        ensures ok { (rests : Side → List ℕ) → RepresentsRests self.now rests
            → (IsOk result ↔ ((rests Side.Client ≡ []) × (rests Side.Adapter ≡ []))) }
        ensures client { (rests : Side → List ℕ) → RepresentsRests self.now rests
            → rests Side.Client ≢ []
            → result ≡ Err (RecorderFault.Frame Side.Client FrameFault.Cut) }
        ensures adapter { (rests : Side → List ℕ) → RepresentsRests self.now rests
            → rests Side.Client ≡ [] → rests Side.Adapter ≢ []
            → result ≡ Err (RecorderFault.Frame Side.Adapter FrameFault.Cut) }
        ensures failed { (fault : _) → HasFailedWith self.now fault → result ≡ Err fault }
    {
        if let Some(fault) = self.fault {
            return Err(fault);
        }
        if self.client.finish().is_err() {
            return Err(RecorderFault::Frame(Side::Client, FrameFault::Cut));
        }
        if self.adapter.finish().is_err() {
            return Err(RecorderFault::Frame(Side::Adapter, FrameFault::Cut));
        }
        Ok(())
    }
}
