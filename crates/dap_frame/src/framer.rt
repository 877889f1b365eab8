//! Reads frames from the chunks of a stream.
ghost use Rattle.std.specs.Prelude.{◌≡◌, ℕ, ◌≤◌, ◌+◌, ◌<◌, ◌↔◌, ◌++◌, List, [], length, Err};
ghost use Rattle.std.specs.Prelude.{IsErrOf, IfErr, IsOk, IfOk, IfSome, Some, take};
ghost use Rattle.dap_frame.specs.Limits.{IsSound};
ghost use Rattle.dap_frame.specs.Frame.{HasContentByte, HasFrame, IsFrame};
ghost use Rattle.dap_frame.specs.Reading.{Represents, HasFailed, Gives, limits_of};

use crate::content::Content;
use crate::fault::FrameFault;
use crate::fed::Fed;
use crate::header_scan::HeaderScan;
use crate::limits::FrameLimits;
use crate::progress::{HeaderTaken, Progress, take_content, take_header, take_rest_of_header};
use std::alloc::Global;
use std::marker::Model;
use std::mem;

/// The state of a framer.
#[derive(Clone, Copy)]
enum State {
    /// The current frame is incomplete.
    Open(Progress),
    /// This error occurred.
    Failed(FrameFault),
}

/// Reads frames from the chunks of a stream, which may be cut anywhere.
///
/// A framer represents the bytes received since the last complete frame. It stores at most the
/// bytes of the current frame's content. It stores no byte of a header part, but a count, the state
/// of the current line, and what the complete lines state.
///
/// To read a stream, make one framer with sound limits. Pass each chunk to [`feed`](Framer::feed),
/// then pass the rest of it after `used` again, until the rest is empty. Each result with a content
/// is the next frame of the stream. At the end of the stream, [`finish`](Framer::finish) returns
/// whether it ended between two frames.
#[derive(Drop)]
pub struct Framer {
    alloc: Global,
    limits: FrameLimits,
    // The bytes of the content so far.
    bytes: Vec<u8>,
    state: State,
}

impl Model for Framer {
    ghost use Rattle.dap_frame.specs.Reading.{Reading};

    ghost Value = { Reading };

    ghost use Rattle.dap_frame.specs.Framer.{reading, IsConsistent};

    ghost view = { reading };

    ghost invariant = { IsConsistent };
}

impl Framer {
    /// Returns a framer at the start of a stream. Does not allocate.
    pub fn new(alloc: Global, limits: FrameLimits) -> Framer
        requires { IsSound limits }
        ensures represents { Represents result [] }
        ensures limits { limits_of result ≡ limits }
    {
        Framer {
            alloc,
            limits,
            bytes: Vec::new(alloc),
            state: State::Open(Progress::Header(HeaderScan::start())),
        }
    }

    /// Returns the number of bytes consumed of the current, incomplete frame, or 0 after an error.
    /// Does not allocate.
    pub fn held(&self) -> usize
        ensures rest { (rest : List ℕ) → Represents self.now rest → result ≡ length rest }
        ensures failed { (fault : _) → HasFailed self.now fault → result ≡ 0 }
        ensures bound { result ≤ (limits_of self.now).header + (limits_of self.now).content }
    {
        match self.state {
            State::Open(Progress::Header(scan)) => scan.count,
            State::Open(Progress::Content { header_len, .. }) => header_len + self.bytes.len(),
            State::Failed(_) => 0,
        }
    }

    /// Reads to the end of one frame or of the chunk, whichever is first.
    ///
    /// Allocates only for bytes of a content, and the returned [`Content`] then owns them. An empty
    /// chunk and a header part with an error need no memory.
    ///
    /// # Errors
    ///
    /// - `Memory`: an allocation failed. The framer is unchanged and has consumed nothing. The call
    ///   may be repeated with the same chunk.
    /// - Any error except `Cut`: the bytes so far prove it. After that, `feed` and
    ///   [`finish`](Framer::finish) always return this error.
    pub fn feed(&mut self, piece: &[u8]) -> Result<Fed, FrameFault>
        ensures gives { (rest : List ℕ) → Represents self.old rest
            → Gives (limits_of self.old) rest piece.now result self.new }
        ensures used { IfOk result (λ fed. fed.used ≤ length piece.now) }
        ensures progress { IfOk result (λ fed. 0 < length piece.now → 0 < fed.used) }

        // The state after an error.
        ensures memory { IsErrOf result FrameFault.Memory → self.new ≡ self.old }
        ensures memory_for_content { IsErrOf result FrameFault.Memory → (rest : List ℕ)
            → Represents self.old rest
            → HasContentByte (limits_of self.old) (rest ++ piece.now) }
        ensures memory_for_bytes { IsErrOf result FrameFault.Memory → (rest : List ℕ)
            → Represents self.old rest → 0 < length piece.now }
        ensures failed { (fault : _) → HasFailed self.old fault
            → (result ≡ Err fault) × (self.new ≡ self.old) }

        ensures limits { limits_of self.new ≡ limits_of self.old }
    {
        let progress = match self.state {
            State::Open(progress) => progress,
            State::Failed(fault) => return Err(fault),
        };
        let (header_len, content_len, used) = match take_rest_of_header(
            self.limits,
            progress,
            piece,
        ) {
            Ok(
                HeaderTaken::Ended {
                    header_len,
                    content_len,
                    used,
                },
            ) => (header_len, content_len, used),
            Ok(HeaderTaken::Unfinished(scan)) => {
                self.state = State::Open(Progress::Header(scan));
                return Ok(Fed {
                    used: piece.len(),
                    content: None,
                });
            }
            Err(fault) => {
                self.state = State::Failed(fault);
                return Err(fault);
            }
        };
        let Ok(more) = take_content(&mut self.bytes, &piece[used..], content_len) else {
            return Err(FrameFault::Memory);
        };
        if self.bytes.len() < content_len {
            self.state = State::Open(Progress::Content {
                header_len,
                content_len,
            });
            return Ok(Fed {
                used: piece.len(),
                content: None,
            });
        }
        self.state = State::Open(Progress::Header(HeaderScan::start()));
        let bytes = mem::replace(&mut self.bytes, Vec::new(self.alloc));
        Ok(Fed {
            used: used + more,
            content: Some(Content::from_vec(bytes)),
        })
    }

    /// Returns the length of the frame at the start of the chunk, if all of it is in the chunk. The
    /// result does not depend on what the framer represents. Does not allocate.
    pub fn frame_in(&self, piece: &[u8]) -> Option<usize>
        ensures within { IfSome result (λ used. used ≤ length piece.now) }
        ensures frame { IfSome result (λ used. (content : List ℕ)
            × IsFrame (limits_of self.now) (take used piece.now) content) }
    {
        match take_header(self.limits, HeaderScan::start(), piece) {
            Ok(
                HeaderTaken::Ended {
                    content_len,
                    used,
                    ..
                },
            ) => {
                if content_len <= piece.len() - used {
                    Some(used + content_len)
                } else {
                    None
                }
            }
            _ => None,
        }
    }

    /// Returns the length of the content of the current frame, if the frame ends in the chunk. Does
    /// not allocate.
    pub fn content_len_in(&self, piece: &[u8]) -> Option<usize>
        ensures ends { IfSome result (λ len. (rest : List ℕ) → Represents self.now rest
            → (0 < length piece.now) × HasFrame (limits_of self.now) (rest ++ piece.now)) }
        ensures len { (rest content : List ℕ) (used : ℕ) → Represents self.now rest
            → IsFrame (limits_of self.now) (rest ++ take used piece.now) content
            → result ≡ Some (length content) }
        ensures within { IfSome result (λ len. len ≤ (limits_of self.now).content) }
    {
        let progress = match self.state {
            State::Open(progress) => progress,
            State::Failed(_) => return None,
        };
        match take_rest_of_header(self.limits, progress, piece) {
            Ok(
                HeaderTaken::Ended {
                    content_len,
                    used,
                    ..
                },
            ) => {
                let missing = content_len - self.bytes.len();
                let left = piece.len() - used;
                if missing <= left {
                    Some(content_len)
                } else {
                    None
                }
            }
            Ok(HeaderTaken::Unfinished(_)) => None,
            Err(_) => None,
        }
    }

    /// Keeps the buffer of a content that is no longer used, for later contents. Changes nothing
    /// else. Does not allocate.
    pub fn recycle(&mut self, content: Content)
        ensures { self.new ≡ self.old }
    {
        if self.bytes.is_empty() {
            self.bytes = content.into_room();
        }
    }

    /// Checks whether the stream may end here. Changes nothing. Does not allocate.
    ///
    /// # Errors
    ///
    /// - `Cut`: the stream ends inside a frame.
    /// - The error that occurred before, if any.
    pub fn finish(&self) -> Result<(), FrameFault>
        ensures ok { (rest : List ℕ) → Represents self.now rest → (IsOk result ↔ (rest ≡ [])) }
        ensures cut { (rest : List ℕ) → Represents self.now rest
            → IfErr result (λ fault. fault ≡ FrameFault.Cut) }
        ensures failed { (fault : _) → HasFailed self.now fault → result ≡ Err fault }
    {
        match self.state {
            State::Failed(fault) => Err(fault),
            State::Open(Progress::Content { .. }) => Err(FrameFault::Cut),
            State::Open(Progress::Header(scan)) => {
                if scan.count == 0 {
                    Ok(())
                } else {
                    Err(FrameFault::Cut)
                }
            }
        }
    }
}
