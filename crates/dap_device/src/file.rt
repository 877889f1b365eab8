//! Defines a file that can be read and replaced: the effects of its calls and of a crash.
ghost use Rattle.std.specs.Prelude.{◌≡◌, ◌⊎◌, ◌↔◌, ◌+◌, ◌<◌, ◌≤◌, ◌++◌, ◌^◌, [], List, ℕ, Option};
ghost use Rattle.std.specs.Prelude.{length, take, Some, None, IfOk, IfSome, IsErrOf, IsSome, OnErr, OnOk};
ghost use Rattle.std.specs.Option.{option_map};
ghost use Rattle.dap_device.specs.declared.file.Step.{Step};
ghost use Rattle.dap_device.specs.Crash.{Content, Elapses, Only};
ghost use Rattle.dap_device.specs.Calls.{call_failures, content_of, read_failures, step_after};
ghost use Rattle.dap_device.specs.Calls.{FitsIn, HasBytes, IsLonger, IsRenamed, IsUnchanged};
ghost use Rattle.dap_device.specs.Calls.{KeepsTarget, MayBeRenamed};

use std::alloc::Global;

/// A call on the file system failed. The type that implements [`Replaceable`] stores the reason.
#[derive(Clone, Copy, Debug, PartialEq, Eq)]
pub struct FileFault {}

/// Why a file was not read.
#[derive(Clone, Copy, Debug, PartialEq, Eq)]
pub enum ReadFault {
    /// A call on the file system failed.
    Failed,
    /// The file has more bytes than the limit.
    TooLong,
    /// An allocation failed.
    Memory,
}

/// A step of a replacement.
#[derive(Clone, Copy, Debug, PartialEq, Eq)]
pub enum Step {
    /// Create the temporary file.
    Create,
    /// Write the bytes to the temporary file.
    Write,
    /// Sync the temporary file.
    Sync,
    /// Rename the temporary file to the name of the file.
    Rename,
    /// Sync the folder.
    SyncFolder,
}

/// A file that can be read, and replaced through a temporary file in the same folder.
///
/// The clauses of the calls are those of POSIX for a file system that does not lose synced data.
/// They apply only to a file whose model is known. The count of failures applies to every file.
pub trait Replaceable {
    /// The members below describe this file. They do not describe a file of the operating system,
    /// whose content is outside all contracts.
    ghost is_known: { Self → Type 0 };

    /// The content that a reader now finds under the name.
    ghost target: { Self → Content };

    /// The content of the temporary file, if this value has created one.
    ghost temporary: { Self → Content };

    /// The contents that a crash at this moment may leave under the name.
    ghost may_leave: { Self → Content → Type 0 };

    /// The contents that a crash at this moment may leave in the temporary file.
    ghost may_hold: { Self → Content → Type 0 };

    /// The current moment, as a number that never decreases.
    ghost moment: { Self → ℕ };

    /// The contents that a crash at or after that moment could have left under the name, during a
    /// call or between two calls.
    ghost left_since: { Self → ℕ → Content → Type 0 };

    /// The number of calls that failed.
    ghost failures: { Self → ℕ };

    /// The step at which a call last failed. A failed read or removal does not change it.
    ghost failed_at: { Self → Option Step };

    /// Returns all bytes of the file, or `None` if the file does not exist.
    ///
    /// # Errors
    ///
    /// - `Failed`: a call on the file system failed.
    /// - `TooLong`: the file has more than `limit` bytes.
    /// - `Memory`: an allocation failed. The file exists, is not empty and is not longer than the
    ///   limit.
    fn read(&mut self, alloc: Global, limit: u64) -> Result<Option<Vec<u8>>, ReadFault>
        requires { failures self.old < 2 ^ 63 }
        ensures within { IfOk result (λ found. IfSome found (λ bytes. length bytes.items ≤ limit)) }
        ensures counted { failures self.new ≡ failures self.old + read_failures result }
        ensures step { failed_at self.new ≡ failed_at self.old }
        ensures known { is_known self.new ↔ is_known self.old }
        ensures content { is_known self.old
            → IfOk result (λ found. content_of found ≡ target self.old) }
        ensures too_long { is_known self.old
            → IsErrOf result ReadFault.TooLong → IsLonger limit (target self.old) }
        ensures memory { is_known self.old
            → IsErrOf result ReadFault.Memory → FitsIn limit (target self.old) }
        ensures memory_for_bytes { is_known self.old
            → IsErrOf result ReadFault.Memory → HasBytes (target self.old) }
        ensures target { is_known self.old → KeepsTarget target may_leave self.old self.new }
        ensures temporary { is_known self.old → temporary self.new ≡ temporary self.old }
        ensures time { is_known self.old
            → Elapses moment left_since may_leave self.old self.new };

    /// Creates the empty temporary file. Fails if its name is already in use.
    fn create(&mut self) -> Result<(), FileFault>
        requires few { failures self.old < 2 ^ 63 }
        requires none { is_known self.old → temporary self.old ≡ None }
        ensures counted { failures self.new ≡ failures self.old + call_failures result }
        ensures step { failed_at self.new ≡ step_after Step.Create result (failed_at self.old) }
        ensures known { is_known self.new ↔ is_known self.old }
        ensures created { is_known self.old → OnOk result (temporary self.new ≡ Some []) }
        ensures err { is_known self.old → OnErr result (temporary self.new ≡ None) }
        ensures target { is_known self.old → KeepsTarget target may_leave self.old self.new }
        ensures time { is_known self.old
            → Elapses moment left_since may_leave self.old self.new };

    /// Appends a prefix of the bytes to the temporary file and returns its length, which is 0 only
    /// if `bytes` is empty. After an error, nothing is known about the content of the temporary
    /// file.
    fn write(&mut self, bytes: &[u8]) -> Result<usize, FileFault>
        requires few { failures self.old < 2 ^ 63 }
        requires created { is_known self.old → IsSome (temporary self.old) }
        ensures within { IfOk result (λ count. count ≤ length bytes.now) }
        ensures some { IfOk result (λ count. 0 < length bytes.now → 0 < count) }
        ensures counted { failures self.new ≡ failures self.old + call_failures result }
        ensures step { failed_at self.new ≡ step_after Step.Write result (failed_at self.old) }
        ensures known { is_known self.new ↔ is_known self.old }
        ensures appended { is_known self.old
            → IfOk result (λ count. temporary self.new
            ≡ option_map (λ written. written ++ take count bytes.now) (temporary self.old)) }
        ensures target { is_known self.old → KeepsTarget target may_leave self.old self.new }
        ensures time { is_known self.old
            → Elapses moment left_since may_leave self.old self.new };

    /// Syncs the temporary file. After `Ok`, a crash leaves it unchanged.
    fn sync(&mut self) -> Result<(), FileFault>
        requires few { failures self.old < 2 ^ 63 }
        requires created { is_known self.old → IsSome (temporary self.old) }
        ensures counted { failures self.new ≡ failures self.old + call_failures result }
        ensures step { failed_at self.new ≡ step_after Step.Sync result (failed_at self.old) }
        ensures known { is_known self.new ↔ is_known self.old }
        ensures durable { is_known self.old
            → OnOk result (Only (temporary self.new) (may_hold self.new)) }
        ensures temporary { is_known self.old → temporary self.new ≡ temporary self.old }
        ensures target { is_known self.old → KeepsTarget target may_leave self.old self.new }
        ensures time { is_known self.old
            → Elapses moment left_since may_leave self.old self.new };

    /// Renames the temporary file to the name of the file. After an error, it may or may not have
    /// been renamed.
    fn rename(&mut self) -> Result<(), FileFault>
        requires few { failures self.old < 2 ^ 63 }
        requires created { is_known self.old → IsSome (temporary self.old) }
        ensures counted { failures self.new ≡ failures self.old + call_failures result }
        ensures step { failed_at self.new ≡ step_after Step.Rename result (failed_at self.old) }
        ensures known { is_known self.new ↔ is_known self.old }
        ensures renamed { is_known self.old
            → OnOk result (IsRenamed target temporary self.old self.new) }
        ensures err { is_known self.old
            → OnErr result (IsUnchanged target temporary self.old self.new
            ⊎ IsRenamed target temporary self.old self.new) }
        ensures crash { is_known self.old → MayBeRenamed may_leave may_hold self.old self.new }
        ensures time { is_known self.old
            → Elapses moment left_since may_leave self.old self.new };

    /// Syncs the folder. After `Ok`, a crash leaves the current content under the name.
    fn sync_folder(&mut self) -> Result<(), FileFault>
        requires { failures self.old < 2 ^ 63 }
        ensures counted { failures self.new ≡ failures self.old + call_failures result }
        ensures step { failed_at self.new ≡ step_after Step.SyncFolder result (failed_at self.old) }
        ensures known { is_known self.new ↔ is_known self.old }
        ensures durable { is_known self.old
            → OnOk result (Only (target self.new) (may_leave self.new)) }
        ensures temporary { is_known self.old → temporary self.new ≡ temporary self.old }
        ensures target { is_known self.old → KeepsTarget target may_leave self.old self.new }
        ensures time { is_known self.old
            → Elapses moment left_since may_leave self.old self.new };

    /// Removes the temporary file, if there is one. After `Ok` there is none.
    fn remove(&mut self) -> Result<(), FileFault>
        requires { failures self.old < 2 ^ 63 }
        ensures counted { failures self.new ≡ failures self.old + call_failures result }
        ensures step { failed_at self.new ≡ failed_at self.old }
        ensures known { is_known self.new ↔ is_known self.old }
        ensures removed { is_known self.old → OnOk result (temporary self.new ≡ None) }
        ensures err { is_known self.old
            → OnErr result ((temporary self.new ≡ temporary self.old)
            ⊎ (temporary self.new ≡ None)) }
        ensures target { is_known self.old → KeepsTarget target may_leave self.old self.new }
        ensures time { is_known self.old
            → Elapses moment left_since may_leave self.old self.new };

    /// Returns the number of calls that failed since the value was created.
    fn failures(&self) -> u64
        ensures { result ≡ failures self.now };

    /// The current moment counts as a moment since any earlier one.
    ghost counts_now: { (file : Self) (t : ℕ) (c : Content)
        → t ≤ moment file → may_leave file c → left_since file t c };

    /// The current moment is the only one since the current moment.
    ghost only_now: { (file : Self) (c : Content)
        → left_since file (moment file) c → may_leave file c };

    /// A crash may leave the current content under the name: the end of the process is a crash too.
    ghost stays: { (file : Self) → is_known file → may_leave file (target file) };
}
