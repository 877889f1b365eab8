//! Writes frames.
ghost use Rattle.std.specs.Prelude.{◌≡◌, ◌+◌, ◌^◌, ◌<◌, ◌≤◌, ◌⊎◌, ◌↔◌, ◌++◌, length, vec_len};
ghost use Rattle.std.specs.Prelude.{vec_capacity, Err, IsOk, OnOk, OnErr, IfErr};
ghost use Rattle.std.specs.Io.{StartsWith};
ghost use Rattle.dap_frame.specs.Limits.{IsSound};
ghost use Rattle.dap_frame.specs.Frame.{frame_text};

use crate::fault::FrameFault;
use crate::limits::FrameLimits;
use itoa::Buffer;
use std::alloc::AllocError;

/// Appends the four parts of a frame. After a failure, some of them may have been appended.
#[tactic(auto, using(crate::proofs::Decimal::decimal_short))]
fn append_parts(out: &mut Vec<u8>, content: &[u8]) -> Result<(), AllocError>
    requires { length content.now < 2 ^ 32 }
    ensures ok { OnOk result (out.new.items ≡ out.old.items ++ frame_text content.now) }
    ensures err { OnErr result (StartsWith out.new.items out.old.items) }
    ensures room { vec_len out.old + length content.now + 30 ≤ vec_capacity out.old → IsOk result }
    ensures short { OnOk result (vec_len out.new ≤ vec_len out.old + length content.now + 30) }
    ensures capacity { vec_capacity out.old ≤ vec_capacity out.new }
{
    let mut buffer = Buffer::new();
    out.extend_from_slice(b"Content-Length: ")?;
    out.extend_from_slice(buffer.format(content.len()).as_bytes())?;
    out.extend_from_slice(b"\r\n\r\n")?;
    out.extend_from_slice(content)
}

/// Appends the frame of a content: `Content-Length: `, the number of its bytes without leading
/// zeros, CR LF CR LF, and the content.
///
/// Does not allocate if `out` has spare capacity for the content and 30 bytes.
///
/// # Errors
///
/// `out` then has the bytes that it had. Its capacity may have grown.
///
/// - `ContentTooLong`: if and only if the content is above its limit.
/// - `Memory`: an allocation failed.
pub fn write_frame(out: &mut Vec<u8>, content: &[u8], limits: FrameLimits) -> Result<(), FrameFault>
    requires { IsSound limits }
    ensures ok { OnOk result (out.new.items ≡ out.old.items ++ frame_text content.now) }
    ensures err { OnErr result (out.new.items ≡ out.old.items) }

    // `ContentTooLong` is returned if and only if the content is too long. The only other error is
    // `Memory`.
    ensures too_long { result ≡ Err FrameFault.ContentTooLong
        ↔ (limits.content < length content.now) }
    ensures only { IfErr result (λ fault.
        (fault ≡ FrameFault.ContentTooLong) ⊎ (fault ≡ FrameFault.Memory)) }

    // Spare capacity for the frame is enough. A frame has at most 30 bytes more than its content.
    ensures room { length content.now ≤ limits.content
        → vec_len out.old + length content.now + 30 ≤ vec_capacity out.old → IsOk result }
    ensures short { OnOk result (vec_len out.new ≤ vec_len out.old + length content.now + 30) }
    ensures capacity { vec_capacity out.old ≤ vec_capacity out.new }
{
    if limits.content < content.len() {
        return Err(FrameFault::ContentTooLong);
    }
    let len = out.len();
    if append_parts(out, content).is_err() {
        out.truncate(len);
        return Err(FrameFault::Memory);
    }
    Ok(())
}
