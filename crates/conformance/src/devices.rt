//! A sink for tests that counts its flushes. Its model does not include the bytes written.
ghost use Rattle.std.specs.Prelude.{◌≡◌, None, IfOk};

use dapnorm::{DeviceFault, Sink};
use std::alloc::{AllocError, Global};

/// The number of bytes that a sink allocates in advance.
const ROOM: usize = 4096;

/// Stores the bytes that are written to it.
#[derive(Drop)]
pub struct TestSink {
    bytes: Vec<u8>,
    fails_to_flush: bool,
    /// The number of flushes.
    pub flushes: u64,
    unflushed: bool,
    failures: u64,
}

impl TestSink {
    /// Returns an empty sink, whose flushes fail if `fails_to_flush` is set.
    pub fn new(alloc: Global, fails_to_flush: bool) -> Result<TestSink, AllocError>
        ensures { IfOk result (λ s. s.failures ≡ 0) }
    {
        Ok(TestSink {
            bytes: Vec::with_capacity(alloc, ROOM)?,
            fails_to_flush,
            flushes: 0,
            unflushed: false,
            failures: 0,
        })
    }

    /// Returns the bytes written.
    pub fn bytes(&self) -> &[u8] {
        self.bytes.as_slice()
    }
}

impl Sink for TestSink {
    ghost out = { λ s. None };

    ghost unflushed = { λ s. s.unflushed };

    ghost failures = { λ s. s.failures };

    fn write(&mut self, bytes: &[u8]) -> Result<usize, DeviceFault> {
        if self.bytes.extend_from_slice(bytes).is_err() {
            self.failures += 1;
            return Err(DeviceFault {});
        }
        if !bytes.is_empty() {
            self.unflushed = true;
        }
        Ok(bytes.len())
    }

    fn flush(&mut self) -> Result<(), DeviceFault> {
        if self.fails_to_flush {
            self.failures += 1;
            return Err(DeviceFault {});
        }
        self.flushes = self.flushes.saturating_add(1);
        self.unflushed = false;
        Ok(())
    }

    fn failures(&self) -> u64 {
        self.failures
    }
}
