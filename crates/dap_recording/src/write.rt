//! Writes records.
ghost use Rattle.std.specs.Prelude.{◌≡◌, ◌+◌, ◌<◌, ◌≤◌, ◌⊎◌, ◌↔◌, ◌++◌, length, vec_len};
ghost use Rattle.std.specs.Prelude.{vec_capacity, Err, IsOk, OnOk, OnErr, IfErr};
ghost use Rattle.std.specs.Io.{StartsWith};
ghost use Rattle.dap_frame.specs.Limits.{IsSound};
ghost use Rattle.dap_recording.specs.Recording.{record_text};

use crate::marker::marker_of;
use dap_frame::{FrameFault, FrameLimits, write_frame};
use dap_tree::Side;

/// Appends the three parts of a record. After a failure, some of them may have been appended.
fn append_parts(
    out: &mut Vec<u8>,
    side: Side,
    content: &[u8],
    limits: FrameLimits,
) -> Result<(), FrameFault>
    requires sound { IsSound limits }
    requires short { length content.now ≤ limits.content }
    ensures ok { OnOk result (out.new.items ≡ out.old.items ++ record_text side content.now) }
    ensures err { OnErr result (StartsWith out.new.items out.old.items) }
    ensures only { IfErr result (λ fault. fault ≡ FrameFault.Memory) }
    ensures room { vec_len out.old + length content.now + 32 ≤ vec_capacity out.old → IsOk result }
{
    if out.push(marker_of(side)).is_err() {
        return Err(FrameFault::Memory);
    }
    write_frame(out, content, limits)?;
    if out.push(b'\n').is_err() {
        return Err(FrameFault::Memory);
    }
    Ok(())
}

/// Appends the record of a content: the side's marker, the frame that
/// [`write_frame`](dap_frame::write_frame) writes, and LF.
///
/// Does not allocate if `out` has spare capacity for the content and 32 bytes.
///
/// # Errors
///
/// `out` then has the bytes that it had. Its capacity may have grown.
///
/// - `ContentTooLong`: if and only if the content is above its limit.
/// - `Memory`: an allocation failed.
pub fn write_record(
    out: &mut Vec<u8>,
    side: Side,
    content: &[u8],
    limits: FrameLimits,
) -> Result<(), FrameFault>
    requires { IsSound limits }
    ensures ok { OnOk result (out.new.items ≡ out.old.items ++ record_text side content.now) }
    ensures err { OnErr result (out.new.items ≡ out.old.items) }

    // `ContentTooLong` is returned if and only if the content is too long. The only other error is
    // `Memory`.
    ensures too_long { result ≡ Err FrameFault.ContentTooLong
        ↔ (limits.content < length content.now) }
    ensures only { IfErr result (λ fault.
        (fault ≡ FrameFault.ContentTooLong) ⊎ (fault ≡ FrameFault.Memory)) }

    ensures room { length content.now ≤ limits.content
        → vec_len out.old + length content.now + 32 ≤ vec_capacity out.old → IsOk result }
{
    if limits.content < content.len() {
        return Err(FrameFault::ContentTooLong);
    }
    let len = out.len();
    if append_parts(out, side, content, limits).is_err() {
        out.truncate(len);
        return Err(FrameFault::Memory);
    }
    Ok(())
}
