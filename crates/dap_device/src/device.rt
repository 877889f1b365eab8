//! Readers and writers: the input and output of command functions.
ghost use Rattle.std.specs.Prelude.{◌≡◌, ℕ, Bool, ◌<◌, ◌≤◌, ◌^◌, List, Option, length};
ghost use Rattle.dap_device.specs.Device.{HasRead, HasWritten, HasFlushed};

/// A reader or writer failed. The cause is not reported, because every command function stops in
/// any case.
#[derive(Clone, Copy, Debug, PartialEq, Eq)]
pub struct DeviceFault {}

/// A reader of bytes.
///
/// A source counts the bytes that it delivered and its failed calls. Therefore a contract can state
/// that a command function returns `ReadFault` if and only if its reader failed. Only `read`
/// changes the remaining bytes or a count.
pub trait Source {
    /// The remaining bytes, or `None` if the source does not report them.
    ghost left: { Self → Option (List ℕ) };

    /// The number of bytes delivered.
    ghost given: { Self → ℕ };

    /// The number of failed calls.
    ghost failures: { Self → ℕ };

    /// Moves bytes into a prefix of `buffer` and returns their number. If it returns 0 and `buffer`
    /// is not empty, the input has ended.
    ///
    /// # Errors
    ///
    /// - `DeviceFault`: the read failed. No bytes were delivered, and the failure is counted.
    fn read(&mut self, buffer: &mut [u8]) -> Result<usize, DeviceFault>
        requires small { length buffer.old ≤ 65536 }
        requires given { given self.old < 2 ^ 63 }
        requires failures { failures self.old < 2 ^ 63 }
        ensures read { HasRead left given failures self.old self.new result buffer.new };

    /// Returns the number of bytes delivered since the source was created.
    fn given(&self) -> u64
        ensures { result ≡ given self.now };

    /// Returns the number of failed calls since the source was created.
    fn failures(&self) -> u64
        ensures { result ≡ failures self.now };
}

/// A writer of bytes.
///
/// A write or a flush that returns `Err` counts as a failure, and so does a write of a nonempty
/// slice that returns 0. Only `write` changes the bytes written. Only `write` and `flush` change
/// whether a flush is due.
pub trait Sink {
    /// The bytes written, or `None` if the sink does not report them.
    ghost out: { Self → Option (List ℕ) };

    /// Whether bytes were written since the last flush that returned `Ok`.
    ghost unflushed: { Self → Bool };

    /// The number of failed calls.
    ghost failures: { Self → ℕ };

    /// Writes a prefix of `bytes` and returns its length.
    ///
    /// # Errors
    ///
    /// - `DeviceFault`: the write failed. No bytes were written, and the failure is counted.
    fn write(&mut self, bytes: &[u8]) -> Result<usize, DeviceFault>
        requires { failures self.old < 2 ^ 63 }
        ensures written { HasWritten out unflushed failures self.old self.new result bytes.now };

    /// Flushes the bytes written so far.
    ///
    /// # Errors
    ///
    /// - `DeviceFault`: the flush failed. A flush is due if and only if it was due before, and the
    ///   failure is counted.
    fn flush(&mut self) -> Result<(), DeviceFault>
        requires { failures self.old < 2 ^ 63 }
        ensures flushed { HasFlushed out unflushed failures self.old self.new result };

    /// Returns the number of failed calls since the sink was created.
    fn failures(&self) -> u64
        ensures { result ≡ failures self.now };
}
