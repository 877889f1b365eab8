//! Readers and writers over those of std, whose contracts do not report their bytes.
ghost use Rattle.std.specs.Prelude.{◌≡◌, ◌≤◌, IfOk, None, false, length};

use crate::device::{DeviceFault, Sink, Source};
use std::io::{self, ErrorKind, Read, Write};
use std::marker::Model;

/// Reads from a reader of std. A read that a signal interrupted is repeated.
#[derive(Drop)]
pub struct StdSource<R> {
    reader: R,
    given: u64,
    failures: u64,
}

impl<R> Model for StdSource<R> {
    ghost use Rattle.dap_device.specs.Counts.{SourceCounts};

    ghost Value = { SourceCounts };

    ghost view = { λ s. record { given = s.given; failures = s.failures } };
}

impl<R: Read> StdSource<R> {
    /// Returns a source that has delivered nothing. Does not allocate.
    pub fn new(reader: R) -> StdSource<R>
        ensures { result ≡ record { given = 0; failures = 0 } }
    {
        StdSource {
            reader,
            given: 0,
            failures: 0,
        }
    }

    /// Returns the reader.
    pub fn reader(&self) -> &R {
        &self.reader
    }
}

impl<R: Read> Source for StdSource<R> {
    ghost left = { λ s. None };

    ghost given = { λ s. s.given };

    ghost failures = { λ s. s.failures };

    fn read(&mut self, buffer: &mut [u8]) -> Result<usize, DeviceFault> {
        for _ in 0..u64::MAX {
            match self.reader.read(buffer) {
                Ok(count) => {
                    self.given += count as u64;
                    return Ok(count);
                }
                Err(error) if error.kind() == ErrorKind::Interrupted => {}
                Err(_) => break,
            }
        }
        self.failures += 1;
        Err(DeviceFault {})
    }

    fn given(&self) -> u64 {
        self.given
    }

    fn failures(&self) -> u64 {
        self.failures
    }
}

/// Writes a prefix of the bytes. Repeats a write that a signal interrupted.
pub(crate) fn write_some<W: Write>(writer: &mut W, bytes: &[u8]) -> io::Result<usize>
    ensures { IfOk result (λ count. count ≤ length bytes.now) }
{
    for _ in 0..u64::MAX {
        match writer.write(bytes) {
            Err(error) if error.kind() == ErrorKind::Interrupted => {}
            outcome => return outcome,
        }
    }
    Err(ErrorKind::Interrupted.into())
}

/// Writes to a writer of std. A write that a signal interrupted is repeated.
#[derive(Drop)]
pub struct StdSink<W> {
    writer: W,
    unflushed: bool,
    failures: u64,
}

impl<W> Model for StdSink<W> {
    ghost use Rattle.dap_device.specs.Counts.{SinkCounts};

    ghost Value = { SinkCounts };

    ghost view = { λ s. record { unflushed = s.unflushed; failures = s.failures } };
}

impl<W: Write> StdSink<W> {
    /// Returns a sink to which nothing was written. Does not allocate.
    pub fn new(writer: W) -> StdSink<W>
        ensures { result ≡ record { unflushed = false; failures = 0 } }
    {
        let failures = 0;
        StdSink {
            writer,
            unflushed: false,
            failures,
        }
    }
}

impl<W: Write> Sink for StdSink<W> {
    ghost out = { λ s. None };

    ghost unflushed = { λ s. s.unflushed };

    ghost failures = { λ s. s.failures };

    fn write(&mut self, bytes: &[u8]) -> Result<usize, DeviceFault> {
        let written = write_some(&mut self.writer, bytes).map_err(|_| DeviceFault {});
        match written {
            Ok(0) if bytes.is_empty() => {}
            Ok(0) | Err(_) => self.failures += 1,
            Ok(_) => self.unflushed = true,
        }
        written
    }

    fn flush(&mut self) -> Result<(), DeviceFault> {
        if self.writer.flush().is_err() {
            self.failures += 1;
            return Err(DeviceFault {});
        }
        self.unflushed = false;
        Ok(())
    }

    fn failures(&self) -> u64 {
        self.failures
    }
}
