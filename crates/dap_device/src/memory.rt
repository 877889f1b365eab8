//! Readers and writers over memory, whose contracts report their bytes.
ghost use Rattle.std.specs.Prelude.{◌≡◌, ◌<◌, ◌^◌, ◌↔◌, Some, false, length, [], IfOk, IsErr, IsOk};
ghost use Rattle.dap_device.specs.Device.{HasFlushed, HasWritten};
ghost use Rattle.dap_device.specs.Memory.{TakenBytes, count_that_fits};

use crate::device::{DeviceFault, Sink, Source};
use std::alloc::{AllocError, Global};
use std::marker::Model;

/// A reader of bytes in memory. It never fails.
#[derive(Drop)]
pub struct MemorySource<'a> {
    rest: &'a [u8],
    given: u64,
}

impl<'a> Model for MemorySource<'a> {
    ghost use Rattle.dap_device.specs.Memory.{GivenBytes};

    ghost Value = { GivenBytes };

    ghost view = { λ s. record { left = s.rest.now; given = s.given } };
}

impl<'a> MemorySource<'a> {
    /// Returns a reader of these bytes. Does not allocate.
    pub fn new(bytes: &'a [u8]) -> MemorySource<'a>
        ensures { result ≡ record { left = bytes.entry.now; given = 0 } }
    {
        MemorySource {
            rest: bytes,
            given: 0,
        }
    }
}

impl Source for MemorySource<'_> {
    ghost left = { λ s. Some s.left };

    ghost given = { λ s. s.given };

    ghost failures = { λ s. 0 };

    fn read(&mut self, buffer: &mut [u8]) -> Result<usize, DeviceFault> {
        let count = self.rest.len().min(buffer.len());
        let (front, rest) = self.rest.split_at(count);
        buffer[..count].copy_from_slice(front);
        self.rest = rest;
        self.given += count as u64;
        Ok(count)
    }

    fn given(&self) -> u64 {
        self.given
    }

    fn failures(&self) -> u64 {
        0
    }
}

/// A writer into a buffer in memory that is allocated in advance. Writing and flushing do not
/// allocate.
#[derive(Drop)]
pub struct MemorySink {
    bytes: Vec<u8>,
    room: usize,
    unflushed: bool,
    failures: u64,
}

impl Model for MemorySink {
    ghost use Rattle.dap_device.specs.Memory.{TakenBytes};

    ghost Value = { TakenBytes };

    ghost view = { λ s. record {
      out = s.bytes.items;
      room = s.room;
      unflushed = s.unflushed;
      failures = s.failures;
    } };

    ghost use Rattle.std.specs.Prelude.{◌≤◌, vec_len, vec_capacity};

    ghost invariant = { λ s. (vec_len s.bytes ≤ s.room) × (s.room ≤ vec_capacity s.bytes) };
}

impl MemorySink {
    /// Returns a writer that accepts at most `room` bytes. Does not allocate if that is 0.
    ///
    /// # Errors
    ///
    /// - `AllocError`: an allocation failed.
    pub fn new(alloc: Global, room: usize) -> Result<MemorySink, AllocError>
        ensures starts { IfOk result (λ s. s
            ≡ record { out = []; room = room; unflushed = false; failures = 0 }) }
        ensures none { room ≡ 0 → IsOk result }
    {
        Ok(MemorySink {
            bytes: Vec::with_capacity(alloc, room)?,
            room,
            unflushed: false,
            failures: 0,
        })
    }

    /// Returns the bytes written.
    pub fn bytes(&self) -> &[u8]
        ensures { result.now ≡ self.now.out }
    {
        self.bytes.as_slice()
    }
}

impl Sink for MemorySink {
    ghost out = { λ s. Some s.out };

    ghost unflushed = { λ s. s.unflushed };

    ghost failures = { λ s. s.failures };

    /// Writes as many bytes as fit into the buffer, and returns their number.
    ///
    /// # Errors
    ///
    /// - `DeviceFault`: `bytes` is not empty, and the buffer is full.
    fn write(&mut self, bytes: &[u8]) -> Result<usize, DeviceFault>
        requires { self.old.failures < 2 ^ 63 }
        ensures written { HasWritten (λ (s : TakenBytes). Some s.out)
            (λ (s : TakenBytes). s.unflushed) (λ (s : TakenBytes). s.failures) self.old self.new
            result bytes.now }
        ensures room { self.new.room ≡ self.old.room }
        ensures full { IsErr result
            ↔ ((0 < length bytes.now) × (length self.old.out ≡ self.old.room)) }
        ensures most { IfOk result (λ count. count ≡ count_that_fits self.old bytes.now) }
    {
        let room = self.room - self.bytes.len();
        if room == 0 && !bytes.is_empty() {
            self.failures += 1;
            return Err(DeviceFault {});
        }
        let count = bytes.len().min(room);
        self.bytes.extend_from_slice(&bytes[..count]).unwrap();
        self.unflushed |= count > 0;
        Ok(count)
    }

    /// Marks the bytes written as flushed. Never fails.
    fn flush(&mut self) -> Result<(), DeviceFault>
        requires { self.old.failures < 2 ^ 63 }
        ensures flushed { HasFlushed (λ (s : TakenBytes). Some s.out)
            (λ (s : TakenBytes). s.unflushed) (λ (s : TakenBytes). s.failures) self.old self.new
            result }
        ensures room { self.new.room ≡ self.old.room }
        ensures always { IsOk result }
    {
        self.unflushed = false;
        Ok(())
    }

    fn failures(&self) -> u64 {
        self.failures
    }
}
