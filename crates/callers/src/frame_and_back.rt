//! Writes a frame and reads it back.
ghost use Rattle.std.specs.Prelude.{◌≡◌, ◌<◌, ◌↔◌, ◌⊎◌, length, Err, IfErr, IfOk};
ghost use Rattle.dap_frame.specs.Limits.{IsSound};

use dap_frame::{Content, FrameFault, FrameLimits, Framer, laws, write_frame};
use std::alloc::Global;

/// Writes the frame of a content, reads the frame, and returns the content read.
///
/// # Errors
///
/// - `ContentTooLong`: the content exceeds its limit.
/// - `Memory`: an allocation failed.
pub fn write_and_read(
    alloc: Global,
    content: &[u8],
    limits: FrameLimits,
) -> Result<Content, FrameFault>
    requires { IsSound limits }
    ensures same { IfOk result (λ read. read ≡ content.now) }
    ensures too_long { result ≡ Err FrameFault.ContentTooLong
        ↔ (limits.content < length content.now) }
    ensures only { IfErr result (λ fault.
        (fault ≡ FrameFault.ContentTooLong) ⊎ (fault ≡ FrameFault.Memory)) }
{
    laws::written_is_frame();
    laws::one_frame();
    laws::one_outcome();
    let mut frame = Vec::new(alloc);
    write_frame(&mut frame, content, limits)?;
    let mut framer = Framer::new(alloc, limits);
    match framer.feed(frame.as_slice())?.content {
        Some(read) => Ok(read),
        None => unreachable!(),
    }
}
