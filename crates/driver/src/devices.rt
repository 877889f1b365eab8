//! Sources and sinks that transfer few bytes per call, and fail after a given number of bytes.
//! Their models do not include the bytes.
ghost use Rattle.std.specs.Prelude.{◌≡◌, None, IfOk};

use dapnorm::{DeviceFault, Sink, Source};
use std::alloc::{AllocError, Global};

/// The behaviour of an input.
#[derive(Clone, Copy)]
pub struct Input<'a> {
    /// The bytes that are read first.
    pub text: &'a [u8],
    /// The bytes that follow, repeated forever. If empty, the input ends.
    pub then: &'a [u8],
    /// The maximum number of bytes that one read returns.
    pub piece: usize,
    /// The number of bytes after which a read fails.
    pub fails_at: u64,
}

/// A source that behaves as its input describes.
#[derive(Drop)]
pub struct TestSource<'a> {
    input: Input<'a>,
    given: u64,
    failures: u64,
}

impl<'a> TestSource<'a> {
    /// Returns a source of which nothing has been read.
    pub fn new(input: Input<'a>) -> TestSource<'a>
        ensures given { result.given ≡ 0 }
        ensures failures { result.failures ≡ 0 }
    {
        TestSource {
            input,
            given: 0,
            failures: 0,
        }
    }
}

impl Source for TestSource<'_> {
    ghost left = { λ s. None };

    ghost given = { λ s. s.given };

    ghost failures = { λ s. s.failures };

    fn read(&mut self, buffer: &mut [u8]) -> Result<usize, DeviceFault> {
        let Input {
            text,
            then,
            piece,
            fails_at,
        } = self.input;
        if fails_at <= self.given {
            self.failures += 1;
            return Err(DeviceFault {});
        }
        let rest = if text.is_empty() { then } else { text };
        let before = (fails_at - self.given).min(65_536) as usize;
        let count = rest.len().min(buffer.len()).min(piece).min(before);
        let (front, rest) = rest.split_at(count);
        buffer[..count].copy_from_slice(front);
        self.input.text = rest;
        self.given += count as u64;
        Ok(count)
    }

    fn given(&self) -> u64 {
        self.given
    }

    fn failures(&self) -> u64 {
        self.failures
    }
}

/// The behaviour of an output.
#[derive(Clone, Copy)]
pub struct Output {
    /// The number of bytes that are allocated at the start.
    pub room: usize,
    /// The maximum number of bytes that one write consumes.
    pub piece: usize,
    /// The number of bytes after which a write fails.
    pub fails_at: usize,
    /// Whether such a write consumes nothing instead of failing.
    pub takes_nothing: bool,
    /// Whether a flush fails.
    pub fails_to_flush: bool,
}

/// A sink that stores the bytes written to it.
#[derive(Drop)]
pub struct TestSink {
    bytes: Vec<u8>,
    output: Output,
    /// The number of flushes that succeeded.
    pub flushes: u64,
    unflushed: bool,
    failures: u64,
}

impl TestSink {
    /// Returns a sink to which nothing has been written.
    pub fn new(alloc: Global, output: Output) -> Result<TestSink, AllocError>
        ensures { IfOk result (λ s. s.failures ≡ 0) }
    {
        Ok(TestSink {
            bytes: Vec::with_capacity(alloc, output.room)?,
            output,
            flushes: 0,
            unflushed: false,
            failures: 0,
        })
    }

    /// Returns the bytes that were written.
    pub fn bytes(&self) -> &[u8] {
        self.bytes.as_slice()
    }
}

impl Sink for TestSink {
    ghost out = { λ s. None };

    ghost unflushed = { λ s. s.unflushed };

    ghost failures = { λ s. s.failures };

    fn write(&mut self, bytes: &[u8]) -> Result<usize, DeviceFault> {
        let free = self.output.fails_at.saturating_sub(self.bytes.len());
        let count = bytes.len().min(self.output.piece).min(free);
        if count == 0 && !bytes.is_empty() {
            self.failures += 1;
            if self.output.takes_nothing {
                return Ok(0);
            }
            return Err(DeviceFault {});
        }
        if self.bytes.extend_from_slice(&bytes[..count]).is_err() {
            self.failures += 1;
            return Err(DeviceFault {});
        }
        if count > 0 {
            self.unflushed = true;
        }
        Ok(count)
    }

    fn flush(&mut self) -> Result<(), DeviceFault> {
        if self.output.fails_to_flush {
            self.failures += 1;
            return Err(DeviceFault {});
        }
        self.flushes = self.flushes.saturating_add(1);
        self.unflushed = false;
        Ok(())
    }

    fn failures(&self) -> u64 {
        self.failures
    }
}

/// The sources and sinks of a call.
#[derive(Drop)]
pub struct Devices<'a> {
    pub a: TestSource<'a>,
    pub b: TestSource<'a>,
    pub output: TestSink,
    pub errors: TestSink,
}
