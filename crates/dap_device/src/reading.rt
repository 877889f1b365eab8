//! Reads a complete input.
ghost use Rattle.std.specs.Prelude.{◌≡◌, ◌≤◌, ◌+◌, ◌^◌, ◌<◌, IfOk, OnErr, OnOk, drop, length};
ghost use Rattle.std.specs.Prelude.{take};
ghost use Rattle.dap_device.specs.Devices.{CanRead};
ghost use Rattle.dap_device.specs.Device.{HasRead};
ghost use Rattle.dap_device.specs.Reading.{HasReadInput, HasReadPartly};

use crate::device::{DeviceFault, Source};
use std::alloc::{AllocError, Global};

/// The maximum number of bytes of one read.
pub(crate) const PIECE: usize = 65_536;

/// Why reading stopped.
#[derive(Clone, Copy, Debug, PartialEq, Eq)]
pub enum Stop {
    /// The input has ended.
    End,
    /// A byte beyond the limit was read.
    Full,
    /// The source failed.
    Failed,
}

/// The bytes read of an input, and why reading stopped.
#[derive(Drop)]
pub struct Input {
    pub bytes: Vec<u8>,
    pub stop: Stop,
}

/// Extends the buffer if all of it is used: by at most 65,536 bytes, and to at most `most` bytes.
fn make_room(bytes: &mut Vec<u8>, count: usize, most: usize) -> Result<(), AllocError>
    requires read { count ≤ length bytes.old.items }
    requires within { length bytes.old.items ≤ most }
    requires piece { length bytes.old.items ≤ count + 65536 }
    requires goes_on { count < most }
    requires small { most ≤ 2 ^ 62 + 1 }
    ensures prefix { OnOk result (take count bytes.new.items ≡ take count bytes.old.items) }
    ensures room { OnOk result (count < length bytes.new.items) }
    ensures within { OnOk result (length bytes.new.items ≤ most) }
    ensures piece { OnOk result (length bytes.new.items ≤ count + 65536) }
{
    if count == bytes.len() {
        bytes.resize(most.min(count + PIECE), 0)?;
    }
    Ok(())
}

/// Reads into the buffer, from index `count` on.
fn read_from<R: Source>(
    reader: &mut R,
    bytes: &mut Vec<u8>,
    count: usize,
) -> Result<usize, DeviceFault>
    requires within { count ≤ length bytes.old.items }
    requires piece { length bytes.old.items ≤ count + 65536 }
    requires given { R.given reader.old < 2 ^ 63 }
    requires failures { R.failures reader.old < 2 ^ 63 }
    ensures read { HasRead R.left R.given R.failures reader.old reader.new result
        (drop count bytes.new.items) }
    ensures prefix { take count bytes.new.items ≡ take count bytes.old.items }
    ensures len { length bytes.new.items ≡ length bytes.old.items }
{
    reader.read(&mut bytes.as_mut_slice()[count..])
}

/// Returns the input that consists of the first `count` bytes.
fn first_bytes(mut bytes: Vec<u8>, count: usize, stop: Stop) -> Input
    ensures bytes { result.bytes.items ≡ take count bytes.items }
    ensures stop { result.stop ≡ stop }
{
    bytes.truncate(count);
    Input { bytes, stop }
}

/// Reads until the end of the input, a failure, or the first byte beyond the limit.
///
/// # Errors
///
/// - `AllocError`: an allocation failed.
pub fn read_all<R: Source>(alloc: Global, reader: &mut R, limit: u64) -> Result<Input, AllocError>
    requires small { limit ≤ 2 ^ 62 }
    requires reader { CanRead R.Source reader.old }
    ensures given { R.given reader.new ≤ R.given reader.old + limit + 1 }
    ensures came { IfOk result
        (λ input. HasReadInput R.Source reader.old reader.new limit input.bytes.items input.stop) }

    // If an allocation failed, a prefix of the input was read, and the source did not fail.
    ensures partly { OnErr result (HasReadPartly R.Source reader.old reader.new limit) }
{
    let most = limit as usize + 1;
    let mut bytes = Vec::new(alloc);
    let mut count = 0;
    loop {
        if count == most {
            return Ok(first_bytes(bytes, count, Stop::Full));
        }
        make_room(&mut bytes, count, most)?;
        match read_from(reader, &mut bytes, count) {
            Err(_) => return Ok(first_bytes(bytes, count, Stop::Failed)),
            Ok(0) => return Ok(first_bytes(bytes, count, Stop::End)),
            Ok(more) => count += more,
        }
    }
}
