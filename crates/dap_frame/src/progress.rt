//! The progress of a frame, and which bytes of a chunk belong to it.

ghost use Rattle.std.specs.Prelude.{◌≡◌, ◌<◌, ◌≤◌, ◌+◌, ◌-◌, ◌++◌, ℕ, List, length, take, min};
ghost use Rattle.std.specs.Prelude.{OnErr, IfOk};
ghost use Rattle.dap_frame.specs.Limits.{IsSound};
ghost use Rattle.dap_frame.specs.HeaderScan.{IsScanOf};
ghost use Rattle.dap_frame.specs.Reading.{IsKeptOf};
ghost use Rattle.dap_frame.specs.Progress.{TakesHeader, TakesRestOfHeader, IsShortScan};

use crate::fault::FrameFault;
use crate::header_scan::{HeaderScan, ScanStep};
use crate::limits::FrameLimits;
use crate::plain_length::plain_length;
use std::alloc::AllocError;

/// The progress of a frame.
#[derive(Clone, Copy)]
pub enum Progress {
    /// The header part has not ended.
    Header(HeaderScan),
    /// The header part had `header_len` bytes. The content has `content_len` bytes, and fewer have
    /// arrived.
    Content {
        header_len: usize,
        content_len: usize,
    },
}

/// The effect of a chunk on a header part.
#[derive(Clone, Copy)]
pub enum HeaderTaken {
    /// The header part consumed the whole chunk.
    Unfinished(HeaderScan),
    /// The header part ended after `used` bytes of the chunk.
    Ended {
        header_len: usize,
        content_len: usize,
        used: usize,
    },
}

/// Reads the bytes of the chunk that belong to the header part, one at a time.
fn scan_header(
    limits: FrameLimits,
    scan: HeaderScan,
    piece: &[u8],
) -> Result<HeaderTaken, FrameFault>
    requires sound { IsSound limits }
    requires scan { IsShortScan limits scan }
    ensures { (rest : List ℕ) → IsScanOf limits rest scan → length rest < limits.header
        → TakesHeader limits rest piece.now result }
{
    let mut scan = scan;
    for (i, byte) in piece.iter().enumerate() {
        match scan.step(limits, *byte) {
            ScanStep::Ended(findings) => {
                let content_len = match findings.outcome() {
                    Ok(content_len) => content_len,
                    Err(fault) => return Err(fault),
                };
                return Ok(HeaderTaken::Ended {
                    header_len: scan.count + 1,
                    content_len,
                    used: i + 1,
                });
            }
            ScanStep::Unfinished(next) => {
                if limits.header <= next.count {
                    return Err(FrameFault::HeaderTooLong);
                }
                scan = next;
            }
        }
    }
    Ok(HeaderTaken::Unfinished(scan))
}

/// Reads the bytes of the chunk that belong to the header part. A header part that
/// [`crate::write_frame`] writes is read without the byte-by-byte scan.
pub fn take_header(
    limits: FrameLimits,
    scan: HeaderScan,
    piece: &[u8],
) -> Result<HeaderTaken, FrameFault>
    requires sound { IsSound limits }
    requires scan { IsShortScan limits scan }
    ensures { (rest : List ℕ) → IsScanOf limits rest scan → length rest < limits.header
        → TakesHeader limits rest piece.now result }
{
    if scan.count == 0 {
        if let Some(behind) = piece.strip_prefix(b"Content-Length: ") {
            if let Some(plain) = plain_length(limits, behind) {
                return Ok(HeaderTaken::Ended {
                    header_len: plain.used + 16,
                    content_len: plain.content_len,
                    used: plain.used + 16,
                });
            }
            return match scan_header(limits, HeaderScan::behind_name(), behind) {
                Ok(
                    HeaderTaken::Ended {
                        header_len,
                        content_len,
                        used,
                    },
                ) => Ok(HeaderTaken::Ended {
                    header_len,
                    content_len,
                    used: used + 16,
                }),
                Ok(HeaderTaken::Unfinished(scan)) => Ok(HeaderTaken::Unfinished(scan)),
                Err(fault) => Err(fault),
            };
        }
    }
    scan_header(limits, scan, piece)
}

/// Reads the bytes of the chunk that belong to the header part, unless it has ended.
pub fn take_rest_of_header(
    limits: FrameLimits,
    progress: Progress,
    piece: &[u8],
) -> Result<HeaderTaken, FrameFault>
    requires sound { IsSound limits }
    requires kept { (bytes : List ℕ) × (rest : List ℕ) × IsKeptOf limits progress bytes rest }
    ensures { (bytes rest : List ℕ) → IsKeptOf limits progress bytes rest
        → TakesRestOfHeader limits bytes rest piece.now result }
{
    match progress {
        Progress::Header(scan) => take_header(limits, scan, piece),
        Progress::Content {
            header_len,
            content_len,
        } => Ok(HeaderTaken::Ended {
            header_len,
            content_len,
            used: 0,
        }),
    }
}

/// Appends the bytes of the chunk that belong to a content of `content_len` bytes, and returns
/// their number.
pub fn take_content(
    bytes: &mut Vec<u8>,
    piece: &[u8],
    content_len: usize,
) -> Result<usize, AllocError>
    requires { length bytes.old.items ≤ content_len }
    ensures ok { IfOk result
        (λ n. (n ≡ min (content_len - length bytes.old.items) (length piece.now))
        × (bytes.new.items ≡ bytes.old.items ++ take n piece.now)) }
    ensures err { OnErr result (bytes.new.items ≡ bytes.old.items) }
    ensures refused { OnErr result (0 < length piece.now) }
    ensures wanted { OnErr result (length bytes.old.items < content_len) }
{
    let count = piece.len().min(content_len - bytes.len());
    bytes.extend_from_slice(&piece[..count])?;
    Ok(count)
}
