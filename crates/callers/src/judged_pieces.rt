//! Validates a recording that arrives in chunks.
ghost use Rattle.std.specs.Prelude.{◌≡◌, drop, IfErr, IfOk};
ghost use Rattle.dap_input.specs.Limits.{AreSound};
ghost use Rattle.dap_normalise.specs.Normalising.{RefusesBytes};
ghost use Rattle.callers.specs.Pieces.{IsJudged, joined};

use dapnorm::{Checked, DeviceFault, Limits, Mode, Refused, Source, check, laws};
use std::alloc::Global;

/// An input that arrives in chunks: the index of the current chunk, and the number of its bytes
/// that have been read.
#[derive(Drop)]
pub struct Arriving<'a, 'p> {
    pieces: &'a [&'p [u8]],
    at: usize,
    read: usize,
    given: u64,
}

impl<'a, 'p> Arriving<'a, 'p> {
    ghost use Rattle.callers.specs.Arriving.{HasBytes, bytes_left, given_so_far};

    /// Returns an input of which nothing has been read.
    pub fn new(pieces: &'a [&'p [u8]]) -> Arriving<'a, 'p>
        ensures left { bytes_left result ≡ joined pieces.entry.now }
        ensures given { given_so_far result ≡ 0 }
    {
        Arriving {
            pieces,
            at: 0,
            read: 0,
            given: 0,
        }
    }

    /// Advances to the next chunk that has unread bytes.
    fn go_on(&mut self)
        ensures left { bytes_left self.new ≡ bytes_left self.old }
        ensures given { given_so_far self.new ≡ given_so_far self.old }
        ensures some { HasBytes self.new.read (drop self.new.at self.new.pieces.now) }
    {
        while let Some(piece) = self.pieces.get(self.at) {
            if self.read < piece.len() {
                return;
            }
            self.read -= piece.len();
            self.at += 1;
        }
    }
}

impl Source for Arriving<'_, '_> {
    ghost use Rattle.std.specs.Prelude.{Some};
    ghost use Rattle.callers.specs.Arriving.{bytes_left, given_so_far};

    ghost left = { λ s. Some (bytes_left s) };

    ghost given = { λ s. given_so_far s };

    ghost failures = { λ s. 0 };

    fn read(&mut self, buffer: &mut [u8]) -> Result<usize, DeviceFault> {
        self.go_on();
        let Some(piece) = self.pieces.get(self.at) else {
            return Ok(0);
        };
        let rest = &piece[self.read..];
        let left = piece.len() - self.read;
        let count = left.min(buffer.len());
        buffer[..count].copy_from_slice(&rest[..count]);
        // Not `self.read + count`: nothing here bounds the length of a chunk.
        self.read = piece.len() - (left - count);
        self.given += count as u64;
        Ok(count)
    }

    fn given(&self) -> u64 {
        self.given
    }

    fn failures(&self) -> u64 {
        0
    }
}

/// Validates a recording that arrives in these chunks, of any size.
///
/// # Errors
///
/// - The first error of the recording, if it is rejected.
/// - `Memory`: an allocation failed.
pub fn judge(
    alloc: Global,
    pieces: &[&[u8]],
    limits: Limits,
    mode: Mode,
) -> Result<Checked, Refused>
    requires { AreSound limits }
    ensures accepted { IfOk result (IsJudged limits mode (joined pieces.now)) }
    ensures refused { IfErr result (RefusesBytes limits mode (joined pieces.now)) }
{
    laws::recording_has_one_outcome();
    let mut input = Arriving::new(pieces);
    check(alloc, &mut input, limits, false, mode)
}
