//! Replaces a file as a whole.
ghost use Rattle.std.specs.Prelude.{◌≡◌, ◌↔◌, ◌+◌, ◌<◌, ◌^◌, [], Err, None, Some, IfErr, IsOk};
ghost use Rattle.std.specs.Prelude.{MatchResult, OnOk, false};
ghost use Rattle.dap_device.specs.Calls.{call_failures, step_after};
ghost use Rattle.dap_device.specs.Crash.{LeavesOnly};
ghost use Rattle.dap_device.specs.Replacing.{HasFailedAt, HasReplaced, IsInstalled, IsOldOrNew};
ghost use Rattle.dap_device.specs.Replacing.{IsUntouched, replace_failures, step_failures};

use crate::file::{FileFault, Replaceable, Step};

/// The step of a replacement that failed. The file stores the reason.
#[derive(Clone, Copy, Debug, PartialEq, Eq)]
pub struct ReplaceFault {
    pub step: Step,
    /// Whether the temporary file could not be removed.
    pub is_left: bool,
}

/// Returns the fault of this step if its call failed.
fn in_step(step: Step, outcome: Result<(), FileFault>) -> Result<(), ReplaceFault>
    ensures { MatchResult outcome (λ done. IsOk result)
        (λ fault. result ≡ Err (record { step = step; is_left = false })) }
{
    outcome.map_err(|_| ReplaceFault {
        step,
        is_left: false,
    })
}

/// Writes all of the bytes to the temporary file, which is empty.
fn write_all<F: Replaceable>(file: &mut F, bytes: &[u8]) -> Result<(), FileFault>
    requires few { F.failures file.old < 2 ^ 63 }
    requires created { F.is_known file.old → F.temporary file.old ≡ Some [] }
    ensures counted { F.failures file.new ≡ F.failures file.old + call_failures result }
    ensures step { F.failed_at file.new ≡ step_after Step.Write result (F.failed_at file.old) }
    ensures known { F.is_known file.new ↔ F.is_known file.old }
    ensures written { F.is_known file.old → OnOk result (F.temporary file.new ≡ Some bytes.now) }
    ensures untouched { F.is_known file.old → IsUntouched F.Replaceable file.old file.new }
{
    let mut at = 0;
    while at < bytes.len() {
        let count = file.write(&bytes[at..])?;
        at += count;
    }
    Ok(())
}

/// Writes the bytes to the temporary file, which is empty, syncs it and renames it.
fn install<F: Replaceable>(file: &mut F, bytes: &[u8]) -> Result<(), ReplaceFault>
    requires few { F.failures file.old < 2 ^ 62 }
    requires created { F.is_known file.old → F.temporary file.old ≡ Some [] }
    ensures counted { F.failures file.new ≡ F.failures file.old + step_failures result }
    ensures step { IfErr result (λ fault. F.failed_at file.new ≡ Some fault.step) }
    ensures known { F.is_known file.new ↔ F.is_known file.old }
    ensures installed { F.is_known file.old
        → OnOk result (IsInstalled F.Replaceable file.new bytes.now) }
    ensures failed { F.is_known file.old
        → IfErr result (λ fault. HasFailedAt F.Replaceable fault.step file.old file.new bytes.now) }
    ensures any_moment { F.is_known file.old
        → LeavesOnly F.moment F.left_since (IsOldOrNew F.Replaceable file.old bytes.now)
        file.old file.new }
{
    in_step(Step::Write, write_all(file, bytes))?;
    in_step(Step::Sync, file.sync())?;
    in_step(Step::Rename, file.rename())
}

/// Replaces the content of the file by these bytes, through a temporary file. Does not allocate.
///
/// A crash during the call may leave the temporary file. The file under the name is then either the
/// old or the new one, as the clause `any_moment` states.
///
/// # Errors
///
/// The step at which a call failed. If the step is before the rename, the file is unchanged; if it
/// is after the rename, the file has the new bytes. After a failed rename, either is possible. The
/// temporary file is removed after each error, unless the removal fails too (`is_left`).
pub fn replace<F: Replaceable>(file: &mut F, bytes: &[u8]) -> Result<(), ReplaceFault>
    requires few { F.failures file.old < 2 ^ 62 }
    requires none { F.is_known file.old → F.temporary file.old ≡ None }
    ensures counted { F.failures file.new ≡ F.failures file.old + replace_failures result }
    ensures step { IfErr result (λ fault. F.failed_at file.new ≡ Some fault.step) }
    ensures known { F.is_known file.new ↔ F.is_known file.old }
    ensures done { F.is_known file.old
        → OnOk result (HasReplaced F.Replaceable file.new bytes.now) }
    ensures any_moment { F.is_known file.old
        → LeavesOnly F.moment F.left_since (IsOldOrNew F.Replaceable file.old bytes.now)
        file.old file.new }
    ensures failed { F.is_known file.old
        → IfErr result (λ fault. HasFailedAt F.Replaceable fault.step file.old file.new bytes.now) }
    ensures removed { F.is_known file.old
        → IfErr result (λ fault. fault.is_left ≡ false → F.temporary file.new ≡ None) }
{
    in_step(Step::Create, file.create())?;
    if let Err(fault) = install(file, bytes) {
        let is_left = file.remove().is_err();
        return Err(ReplaceFault { is_left, ..fault });
    }
    in_step(Step::SyncFolder, file.sync_folder())
}
