//! Reads the frames of one side of a trace.

ghost use Rattle.std.specs.Prelude.{◌≡◌, ℕ, ◌<◌, ◌≤◌, ◌+◌, ◌++◌, List, length, take, IfOk, OnErr};
ghost use Rattle.std.specs.Prelude.{OnOk, vec_capacity, vec_len};
ghost use Rattle.dap_frame.specs.Frame.{IsFrame};
ghost use Rattle.dap_frame.specs.Limits.{IsSound};
ghost use Rattle.dap_frame.specs.Reading.{Represents, limits_of};
ghost use Rattle.dap_recording.specs.OneSide.{Takes, WantsMemory};

use crate::write::write_record;
use dap_frame::{FrameFault, FrameLimits, Framer};
use dap_tree::Side;
use std::alloc::AllocError;

/// Reserves the capacity for the record of the frame that ends in the piece, if any. If no frame
/// ends, it does not allocate.
fn make_room(text: &mut Vec<u8>, framer: &Framer, piece: &[u8]) -> Result<(), AllocError>
    requires { IsSound (limits_of framer.now) }
    ensures items { text.new.items ≡ text.old.items }
    ensures room { OnOk result ((rest content : List ℕ) (used : ℕ) → Represents framer.now rest
        → used ≤ length piece.now
        → IsFrame (limits_of framer.now) (rest ++ take used piece.now) content
        → vec_len text.new + length content + 32 ≤ vec_capacity text.new) }
    ensures wanted { OnErr result ((rest : List ℕ) → Represents framer.now rest
        → WantsMemory (limits_of framer.now) rest piece.now) }
{
    let room = framer.held() + piece.len() + 32;
    if room <= text.capacity().saturating_sub(text.len()) {
        return Ok(());
    }
    match framer.content_len_in(piece) {
        Some(len) => text.reserve(len + 32),
        None => Ok(()),
    }
}

/// Reads to the end of one frame or of the piece, and appends the record of a frame that ended.
/// Reserves the capacity for the record first. If that fails, nothing is read.
pub fn record_frame(
    text: &mut Vec<u8>,
    framer: &mut Framer,
    limits: FrameLimits,
    side: Side,
    piece: &[u8],
) -> Result<usize, FrameFault>
    requires sound { IsSound limits }
    requires same { limits_of framer.old ≡ limits }
    ensures takes { (rest : List ℕ) → Represents framer.old rest
        → Takes limits side rest piece.now text.old.items text.new.items framer.old framer.new
        result }
    ensures used { IfOk result (λ used. used ≤ length piece.now) }
    ensures progress { IfOk result (λ used. 0 < length piece.now → 0 < used) }
    ensures limits { limits_of framer.new ≡ limits_of framer.old }
{
    if make_room(text, framer, piece).is_err() {
        return Err(FrameFault::Memory);
    }
    let fed = match framer.feed(piece) {
        Ok(fed) => fed,
        Err(fault) => return Err(fault),
    };
    let used = fed.used;
    match fed.content {
        None => Ok(used),
        Some(content) => {
            if write_record(text, side, content.as_slice(), limits).is_err() {
                return Err(FrameFault::Memory);
            }
            framer.recycle(content);
            Ok(used)
        }
    }
}
