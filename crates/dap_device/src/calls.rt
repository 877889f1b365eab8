//! Shares what the files in memory have in common: calls that fail, reads and writes.
ghost use Rattle.std.specs.Prelude.{◌≡◌, ◌+◌, ◌<◌, ◌≤◌, ◌++◌, ◌^◌, None, Some, length, take};
ghost use Rattle.std.specs.Prelude.{IfOk, IfSome, IsErr, IsErrOf, MatchResult};
ghost use Rattle.std.specs.Option.{option_map};
ghost use Rattle.dap_device.specs.Calls.{content_of, FitsIn, HasBytes, IsLonger};
ghost use Rattle.dap_device.specs.declared.file.ReadFault.{ReadFault};

use crate::file::{FileFault, ReadFault, Step};
use std::alloc::Global;
use std::marker::Model;
use std::ops::Range;

/// The calls of a file: which of them are to fail, how many failed, and the step at which one last
/// failed.
#[derive(Drop)]
pub(crate) struct Calls {
    /// The number of the next call, from 0 on.
    next: u64,
    failing: Range<u64>,
    failures: u64,
    failed_at: Option<Step>,
}

impl Model for Calls {
    ghost use Rattle.dap_device.specs.Calls.{FileCounts};

    ghost Value = { FileCounts };

    ghost view = { λ c. record { failures = c.failures; failed_at = c.failed_at } };
}

impl Calls {
    /// Returns the calls of a file before the first one. Those with these numbers fail.
    pub fn new(failing: Range<u64>) -> Calls
        ensures { result ≡ record { failures = 0; failed_at = None } }
    {
        Calls {
            next: 0,
            failing,
            failures: 0,
            failed_at: None,
        }
    }

    pub fn failures(&self) -> u64
        ensures { result ≡ self.now.failures }
    {
        self.failures
    }

    /// Counts a failure of a step and returns the error.
    pub fn fail<T>(&mut self, step: Step) -> Result<T, FileFault>
        requires { self.old.failures < 2 ^ 63 }
        ensures err { IsErr result }
        ensures counted { self.new
            ≡ record { failures = self.old.failures + 1; failed_at = Some step } }
    {
        self.failures += 1;
        self.failed_at = Some(step);
        Err(FileFault {})
    }

    /// Starts a call of a step. Fails if the call is to fail.
    pub fn start(&mut self, step: Step) -> Result<(), FileFault>
        requires { self.old.failures < 2 ^ 63 }
        ensures { MatchResult result (λ done. self.new ≡ self.old) (λ fault. self.new
            ≡ record { failures = self.old.failures + 1; failed_at = Some step }) }
    {
        if self.start_other().is_err() {
            self.failed_at = Some(step);
            return Err(FileFault {});
        }
        Ok(())
    }

    /// Starts a read or a removal. Fails if the call is to fail.
    pub fn start_other(&mut self) -> Result<(), FileFault>
        requires { self.old.failures < 2 ^ 63 }
        ensures { MatchResult result (λ done. self.new ≡ self.old)
            (λ fault. self.new ≡ record self.old { failures = self.old.failures + 1 }) }
    {
        let number = self.next;
        self.next = number.saturating_add(1);
        if self.failing.contains(&number) {
            self.failures += 1;
            return Err(FileFault {});
        }
        Ok(())
    }
}

/// Appends at most `most` of the bytes to a file, and returns how many. Returns `None` if that is
/// no byte of several, if there is no file, or if an allocation fails.
pub(crate) fn append(file: &mut Option<Vec<u8>>, bytes: &[u8], most: usize) -> Option<usize>
    ensures within { IfSome result (λ count. count ≤ length bytes.now) }
    ensures some { IfSome result (λ count. 0 < length bytes.now → 0 < count) }
    ensures appended { IfSome result (λ count. content_of file.new
        ≡ option_map (λ written. written ++ take count bytes.now) (content_of file.old)) }
{
    let count = bytes.len().min(most);
    if count == 0 && !bytes.is_empty() {
        return None;
    }
    file.as_mut()?.extend_from_slice(&bytes[..count]).ok()?;
    Some(count)
}

/// Returns a copy of a file, or `None` if there is none.
pub(crate) fn read_copy(
    alloc: Global,
    file: &Option<Vec<u8>>,
    limit: u64,
) -> Result<Option<Vec<u8>>, ReadFault>
    ensures within { IfOk result (λ found. IfSome found (λ bytes. length bytes.items ≤ limit)) }
    ensures content { IfOk result (λ found. content_of found ≡ content_of file.now) }
    ensures not_failed { IsErrOf result ReadFault.Failed → ⊥ }
    ensures too_long { IsErrOf result ReadFault.TooLong → IsLonger limit (content_of file.now) }
    ensures memory { IsErrOf result ReadFault.Memory → FitsIn limit (content_of file.now) }
    ensures memory_for_bytes { IsErrOf result ReadFault.Memory → HasBytes (content_of file.now) }
{
    let Some(bytes) = file else {
        return Ok(None);
    };
    if bytes.is_empty() {
        return Ok(Some(Vec::new(alloc)));
    }
    if bytes.len() as u64 > limit {
        return Err(ReadFault::TooLong);
    }
    bytes.to_vec(alloc).map(Some).map_err(|_| ReadFault::Memory)
}
