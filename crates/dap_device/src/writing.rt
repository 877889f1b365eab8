//! Writes all bytes of an output.
ghost use Rattle.std.specs.Prelude.{◌<◌, ◌^◌};
ghost use Rattle.dap_device.specs.Written.{HasSentAll, HasWrittenAll};

use crate::device::{DeviceFault, Sink};

/// Writes all bytes.
///
/// # Errors
///
/// - `DeviceFault`: the sink failed. A prefix of the bytes was written.
pub fn write_all<W: Sink>(writer: &mut W, bytes: &[u8]) -> Result<(), DeviceFault>
    requires { W.failures writer.old < 2 ^ 63 }
    ensures { HasWrittenAll W.Sink writer.old writer.new result bytes.now }
{
    let mut at = 0;
    while at < bytes.len() {
        let count = writer.write(&bytes[at..])?;
        if count == 0 {
            return Err(DeviceFault {});
        }
        at += count;
    }
    Ok(())
}

/// Writes all bytes and flushes the sink.
///
/// # Errors
///
/// - `DeviceFault`: the sink failed. A prefix of the bytes was written, possibly all of them.
pub fn write_and_flush<W: Sink>(writer: &mut W, bytes: &[u8]) -> Result<(), DeviceFault>
    requires { W.failures writer.old < 2 ^ 63 }
    ensures { HasSentAll W.Sink writer.old writer.new result bytes.now }
{
    write_all(writer, bytes)?;
    writer.flush()
}
