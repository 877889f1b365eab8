//! Reads an input in chunks.
ghost use Rattle.std.specs.Prelude.{◌≡◌, ◌<◌, ◌≤◌, ◌^◌, [], IfOk, drop, length, take};
ghost use Rattle.dap_device.specs.Device.{HasRead};
ghost use Rattle.dap_device.specs.Pieces.{HasFilled};

use crate::device::{DeviceFault, Source};
use crate::reading::{PIECE, Stop};
use std::alloc::{AllocError, Global};
use std::marker::Model;

/// Reads at most `room` bytes into a prefix of the buffer.
fn read_prefix<R: Source>(
    reader: &mut R,
    buffer: &mut [u8],
    room: usize,
) -> Result<usize, DeviceFault>
    requires fits { room ≤ length buffer.old }
    requires small { room ≤ 65536 }
    requires given { R.given reader.old < 2 ^ 63 }
    requires failures { R.failures reader.old < 2 ^ 63 }
    ensures read { HasRead R.left R.given R.failures reader.old reader.new result
        (take room buffer.new) }
    ensures len { length buffer.new ≡ length buffer.old }
{
    reader.read(&mut buffer[..room])
}

/// Reads a source in chunks, up to a limit.
#[derive(Drop)]
pub struct Pieces {
    buffer: Vec<u8>,
    /// The unread bytes are from here to `end` in the buffer.
    start: usize,
    end: usize,
    /// The number of bytes read from the source, at most `limit`.
    taken: u64,
    limit: u64,
}

impl Model for Pieces {
    ghost use Rattle.std.specs.Prelude.{◌≡◌, ◌≤◌, ◌^◌, length, slice_range};
    ghost use Rattle.dap_device.specs.Pieces.{Window};

    ghost Value = { Window };

    ghost view = { λ p. record
        { unread = slice_range p.buffer.items p.start p.end; taken = p.taken; limit = p.limit } };

    ghost invariant = { λ p. (p.start ≤ p.end) × (p.end ≤ length p.buffer.items)
        × (length p.buffer.items ≡ 65536) × (p.taken ≤ p.limit) × (p.limit ≤ 2 ^ 62) };
}

impl Pieces {
    /// Returns a reader of at most `limit` bytes, which has read nothing.
    ///
    /// # Errors
    ///
    /// - `AllocError`: an allocation failed.
    pub fn new(alloc: Global, limit: u64) -> Result<Pieces, AllocError>
        requires { limit ≤ 2 ^ 62 }
        ensures { IfOk result (λ pieces. pieces
            ≡ record { unread = []; taken = 0; limit = limit }) }
    {
        let mut buffer = Vec::new(alloc);
        buffer.resize(PIECE, 0)?;
        Ok(Pieces {
            buffer,
            start: 0,
            end: 0,
            taken: 0,
            limit,
        })
    }

    /// Returns the bytes that were read from the source and not skipped yet.
    pub fn unread(&self) -> &[u8]
        ensures { result.now ≡ self.now.unread }
    {
        &self.buffer.as_slice()[self.start..self.end]
    }

    /// Skips the first `count` unread bytes.
    pub fn skip(&mut self, count: usize)
        requires { count ≤ length self.old.unread }
        ensures { self.new
            ≡ record {
              unread = drop count self.old.unread;
              taken = self.old.taken;
              limit = self.old.limit;
            } }
    {
        self.start += count;
    }

    /// Reads the next chunk if there are no unread bytes. Afterwards there are some.
    ///
    /// # Errors
    ///
    /// There are no unread bytes, and this is unchanged:
    ///
    /// - `End`: the input has ended.
    /// - `Full`: a byte beyond the limit was read.
    /// - `Failed`: the source failed.
    pub fn fill<R: Source>(&mut self, reader: &mut R) -> Result<(), Stop>
        requires given { R.given reader.old < 2 ^ 63 }
        requires failures { R.failures reader.old < 2 ^ 63 }
        ensures { HasFilled R.Source self.old self.new reader.old reader.new result }
    {
        if self.start < self.end {
            return Ok(());
        }
        let left = self.limit - self.taken;
        let room = PIECE.min((left as usize).max(1));
        match read_prefix(reader, self.buffer.as_mut_slice(), room) {
            Err(_) => Err(Stop::Failed),
            Ok(0) => Err(Stop::End),
            Ok(_) if left == 0 => Err(Stop::Full),
            Ok(count) => {
                self.start = 0;
                self.end = count;
                self.taken += count as u64;
                Ok(())
            }
        }
    }
}
