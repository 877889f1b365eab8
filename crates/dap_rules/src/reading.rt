//! Applies the rules of a file to a complete input.
ghost use Rattle.std.specs.Prelude.{◌≡◌, ◌+◌, ◌≤◌};
ghost use Rattle.dap_device.specs.Devices.{CanRead};
ghost use Rattle.dap_input.specs.Limits.{AreSound};
ghost use Rattle.dap_mask.specs.KeptRules.{mask_of};
ghost use Rattle.dap_rules.specs.{ApplyingSteps.result_of_input, Inputs.ReadsSessionByRules};

use crate::applying::session_by_rules;
use crate::fault::ApplyRefused;
use dap_device::{Source, Stop, read_all};
use dap_input::{Limits, Refused};
use dap_mask::MaskRules;
use dap_recording::RecordCause;
use dap_rename::Mode;
use dap_stored::StoredSession;
use std::alloc::Global;

/// Reads a recording and applies the rules to it, as [`session_by_rules`] does.
///
/// Reads the whole input, at most one byte past `limits.input`. Buffers the input while the rules
/// are applied to it.
///
/// # Errors
///
/// Those of [`session_by_rules`].
///
/// `ReadFault`: the reader failed, and [`session_by_rules`] finds no error in the bytes read
/// before, except that the recording to be masked may be incomplete.
pub fn read_session_by_rules<R: Source>(
    alloc: Global,
    rules: &MaskRules,
    reader: &mut R,
    limits: Limits,
    mode: Mode,
) -> Result<StoredSession, ApplyRefused>
    requires limits { AreSound limits }
    requires reader { CanRead R.Source reader.old }

    // The messages are those of the whole input and the rules, or an error is returned. `ReadFault`
    // is returned only if the reader failed. If an allocation failed, a prefix of the input was
    // read, or all of it.
    ensures outcome { ReadsSessionByRules R.Source limits mode (mask_of rules.now) reader.old
        reader.new result }

    // At most one byte past the limit is read.
    ensures taken { R.given reader.new ≤ R.given reader.old + limits.input + 1 }
{
    let input = match read_all(alloc, reader, limits.input) {
        Ok(input) => input,
        Err(_) => return Err(ApplyRefused::Memory),
    };
    session_of_input(
        session_by_rules(alloc, rules, input.bytes.as_slice(), limits, mode),
        input.stop,
    )
}

/// Returns the result of applying the rules to the bytes of an input. If the reader failed after
/// them and they contain no error other than being incomplete, returns `ReadFault`.
fn session_of_input(
    made: Result<StoredSession, ApplyRefused>,
    stop: Stop,
) -> Result<StoredSession, ApplyRefused>
    ensures { result ≡ result_of_input made stop }
{
    match (made, stop) {
        (Ok(_), Stop::Failed) => Err(ApplyRefused::ReadFault),
        (Err(ApplyRefused::Mask(Refused::Record(_, RecordCause::Cut))), Stop::Failed) => {
            Err(ApplyRefused::ReadFault)
        }
        (made, _) => made,
    }
}
