//! Writes into a growing buffer in memory.
ghost use Rattle.std.specs.Prelude.{◌≡◌, ◌<◌, ◌^◌, ◌↔◌, [], Some, IsErr, IsTrue, false, length};
ghost use Rattle.dap_device.specs.Device.{HasWritten};
ghost use Rattle.dap_rules.specs.Memory.{IsOutOfMemory, WrittenBytes};

use dap_device::{DeviceFault, Sink};
use dap_input::Refused;
use std::alloc::Global;
use std::marker::Model;

/// Stores the bytes that are written. A write fails only if an allocation fails.
#[derive(Drop)]
pub struct TextSink {
    bytes: Vec<u8>,
    unflushed: bool,
    failures: u64,
}

impl Model for TextSink {
    ghost use Rattle.dap_rules.specs.Memory.{WrittenBytes};

    ghost Value = { WrittenBytes };

    ghost view = { λ s. record {
      out = s.bytes.items;
      unflushed = s.unflushed;
      failures = s.failures;
    } };
}

impl TextSink {
    /// Returns an empty sink. Does not allocate.
    pub fn new(alloc: Global) -> TextSink
        ensures { result ≡ record { out = []; unflushed = false; failures = 0 } }
    {
        TextSink {
            bytes: Vec::new(alloc),
            unflushed: false,
            failures: 0,
        }
    }

    /// Returns the bytes that were written.
    pub fn into_bytes(self) -> Vec<u8>
        ensures { result.items ≡ self.out }
    {
        self.bytes
    }
}

impl Sink for TextSink {
    ghost out = { λ s. Some s.out };

    ghost unflushed = { λ s. s.unflushed };

    ghost failures = { λ s. s.failures };

    /// Appends all bytes, and returns their number. A write of nothing does not allocate.
    ///
    /// # Errors
    ///
    /// - `DeviceFault`: an allocation failed. `bytes` is not empty.
    fn write(&mut self, bytes: &[u8]) -> Result<usize, DeviceFault>
        requires { self.old.failures < 2 ^ 63 }
        ensures written { HasWritten (λ (s : WrittenBytes). Some s.out)
            (λ (s : WrittenBytes). s.unflushed) (λ (s : WrittenBytes). s.failures) self.old
            self.new result bytes.now }
        ensures some { IsErr result → 0 < length bytes.now }
    {
        if self.bytes.extend_from_slice(bytes).is_err() {
            self.failures += 1;
            return Err(DeviceFault {});
        }
        if !bytes.is_empty() {
            self.unflushed = true;
        }
        Ok(bytes.len())
    }

    fn flush(&mut self) -> Result<(), DeviceFault> {
        self.unflushed = false;
        Ok(())
    }

    fn failures(&self) -> u64 {
        self.failures
    }
}

/// Returns whether a command function that writes into a [`TextSink`] failed because an allocation
/// failed.
pub fn is_out_of_memory(refused: Refused) -> bool
    ensures { IsTrue result ↔ IsOutOfMemory refused }
{
    match refused {
        Refused::Memory | Refused::WriteFault => true,
        _ => false,
    }
}
