//! Writes a golden file and compares later recordings with it.
ghost use Rattle.std.specs.Prelude.{◌<◌, ◌^◌, IfErr, IfOk};
ghost use Rattle.dap_input.specs.Limits.{AreSound};
ghost use Rattle.dap_normalise.specs.Normalising.{RefusesBytes};
ghost use Rattle.callers.specs.Golden.{IsHeldTo, Makes};

use dap_device::write_and_flush;
use dapnorm::{Limits, Mode, Refused, Sink, laws, normalise_bytes};
use std::alloc::Global;

/// Writes the golden file of a recording.
///
/// # Errors
///
/// - The first error of the recording, if it is rejected. Nothing is written.
/// - `WriteFault`: the writer failed.
/// - `Memory`: an allocation failed. Nothing is written.
pub fn make_golden<W: Sink>(
    alloc: Global,
    recording: &[u8],
    file: &mut W,
    limits: Limits,
    mode: Mode,
) -> Result<(), Refused>
    requires limits { AreSound limits }
    requires failures { W.failures file.old < 2 ^ 63 }
    ensures { Makes W.Sink limits mode recording.now file.old file.new result }
{
    let golden = normalise_bytes(alloc, recording, limits, mode)?;
    match write_and_flush(file, golden.bytes()) {
        Ok(()) => Ok(()),
        Err(_) => Err(Refused::WriteFault),
    }
}

/// Returns whether a later recording matches the golden file: the same session, ignoring ids.
///
/// # Errors
///
/// - The first error of the later recording, if it is rejected.
/// - `Memory`: an allocation failed.
pub fn holds_to(
    alloc: Global,
    golden: &[u8],
    later: &[u8],
    limits: Limits,
    mode: Mode,
) -> Result<bool, Refused>
    requires { AreSound limits }

    // For any recording of which `golden` is the golden file: true if and only if a renaming of ids
    // maps the messages of `later` to its messages.
    ensures held { IfOk result (IsHeldTo limits mode golden.now later.now) }
    ensures refused { IfErr result (RefusesBytes limits mode later.now) }
{
    laws::normal_form_stands();
    let normal = normalise_bytes(alloc, later, limits, mode)?;
    Ok(normal.bytes() == golden)
}
