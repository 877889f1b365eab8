//! Implements a file in memory whose calls can be made to fail.
ghost use Rattle.std.specs.Prelude.{◌≡◌, [], None, length, ⊤};
ghost use Rattle.std.specs.Option.{option_copied};
ghost use Rattle.std.proofs.Common.{inl, refl};
ghost use Rattle.dap_device.specs.Calls.{content_of};
ghost use Rattle.dap_device.specs.MemoryFile.{MemoryState, MightHaveLeft, only_target};

use crate::calls::{Calls, append, read_copy};
use crate::file::{FileFault, ReadFault, Replaceable, Step};
use std::alloc::Global;
use std::marker::Model;
use std::ops::Range;

/// A file in memory. Each call takes effect at once, so a crash leaves the current content.
#[derive(Drop)]
pub struct MemoryFile {
    alloc: Global,
    target: Option<Vec<u8>>,
    temporary: Option<Vec<u8>>,
    past: Vec<Option<Vec<u8>>>,
    calls: Calls,
    longest_write: usize,
}

impl Model for MemoryFile {
    ghost use Rattle.std.specs.Prelude.{map};
    ghost use Rattle.dap_device.specs.Calls.{content_of};
    ghost use Rattle.dap_device.specs.MemoryFile.{MemoryState};

    ghost Value = { MemoryState };

    ghost view = { λ m. record {
      target = content_of m.target;
      temporary = content_of m.temporary;
      past = map content_of m.past.items;
      failures = m.calls.failures;
      failed_at = m.calls.failed_at;
    } };
}

impl MemoryFile {
    /// Returns a file with this content, or `None` for a file that does not exist. The calls whose
    /// numbers from 0 on are in `failing` fail and change nothing. A write appends at most
    /// `longest_write` bytes.
    pub fn new(
        alloc: Global,
        content: Option<Vec<u8>>,
        failing: Range<u64>,
        longest_write: usize,
    ) -> MemoryFile
        ensures { result
            ≡ record {
              target = content_of content;
              temporary = None;
              past = [];
              failures = 0;
              failed_at = None;
            } }
    {
        MemoryFile {
            alloc,
            target: content,
            temporary: None,
            past: Vec::new(alloc),
            calls: Calls::new(failing),
            longest_write,
        }
    }

    /// Returns the content under the name.
    pub fn content(&self) -> Option<&[u8]>
        ensures { option_copied result ≡ self.now.target }
    {
        self.target.as_deref()
    }

    /// Returns the content of the temporary file.
    pub fn temporary(&self) -> Option<&[u8]>
        ensures { option_copied result ≡ self.now.temporary }
    {
        self.temporary.as_deref()
    }
}

impl Replaceable for MemoryFile {
    ghost is_known = { λ m. ⊤ };

    ghost target = { λ m. m.target };

    ghost temporary = { λ m. m.temporary };

    ghost may_leave = { λ m c. c ≡ m.target };

    ghost may_hold = { λ m c. c ≡ m.temporary };

    ghost moment = { λ m. length m.past };

    ghost left_since = { λ m t c. MightHaveLeft m t c };

    ghost failures = { λ m. m.failures };

    ghost failed_at = { λ m. m.failed_at };

    ghost counts_now = { λ m t c le now. inl now };

    ghost only_now = { λ m c left. only_target m c left };

    ghost stays = { λ m known. refl };

    fn read(&mut self, alloc: Global, limit: u64) -> Result<Option<Vec<u8>>, ReadFault> {
        if self.calls.start_other().is_err() {
            return Err(ReadFault::Failed);
        }
        read_copy(alloc, &self.target, limit)
    }

    fn create(&mut self) -> Result<(), FileFault> {
        self.calls.start(Step::Create)?;
        self.temporary = Some(Vec::new(self.alloc));
        Ok(())
    }

    fn write(&mut self, bytes: &[u8]) -> Result<usize, FileFault> {
        self.calls.start(Step::Write)?;
        match append(&mut self.temporary, bytes, self.longest_write) {
            Some(count) => Ok(count),
            None => self.calls.fail(Step::Write),
        }
    }

    fn sync(&mut self) -> Result<(), FileFault> {
        self.calls.start(Step::Sync)
    }

    fn rename(&mut self) -> Result<(), FileFault> {
        self.calls.start(Step::Rename)?;
        if self.past.reserve(1).is_err() {
            return self.calls.fail(Step::Rename);
        }
        self.past.push(self.target.take()).unwrap();
        self.target = self.temporary.take();
        Ok(())
    }

    fn sync_folder(&mut self) -> Result<(), FileFault> {
        self.calls.start(Step::SyncFolder)
    }

    fn remove(&mut self) -> Result<(), FileFault> {
        self.calls.start_other()?;
        self.temporary = None;
        Ok(())
    }

    fn failures(&self) -> u64 {
        self.calls.failures()
    }
}
