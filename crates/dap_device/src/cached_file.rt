//! Implements a file in memory over a cache: a crash loses what is not synced.
ghost use Rattle.std.specs.Prelude.{◌≡◌, ◌↔◌, ◌<◌, ◌≤◌, ◌++◌, [], false, length, take, ⊤};
ghost use Rattle.std.specs.Prelude.{None, Some, Any, IfSome, IsTrue, OnErr, OnOk};
ghost use Rattle.std.specs.Option.{option_copied, option_map};
ghost use Rattle.std.proofs.Common.{inl, refl};
ghost use Rattle.dap_device.specs.Calls.{content_of};
ghost use Rattle.dap_device.specs.CachedFile.{after_folder_sync, after_rename};
ghost use Rattle.dap_device.specs.CachedFile.{Leaves, LeavesSince, MayLeave, since_now};
ghost use Rattle.dap_device.specs.CachedFile.{synced_file, unsynced_file};

use crate::calls::{Calls, append, read_copy};
use crate::file::{FileFault, ReadFault, Replaceable, Step};
use std::alloc::Global;
use std::marker::Model;
use std::mem;
use std::ops::Range;

/// A file, or no file, and whether its content is synced.
#[derive(Drop)]
struct Version {
    content: Option<Vec<u8>>,
    is_synced: bool,
}

impl Model for Version {
    ghost use Rattle.dap_device.specs.Calls.{content_of};
    ghost use Rattle.dap_device.specs.CachedFile.{VersionState};

    ghost Value = { VersionState };

    ghost view = { λ v. record { content = content_of v.content; is_synced = v.is_synced } };
}

impl Version {
    /// Returns a file that is synced.
    fn synced(content: Option<Vec<u8>>) -> Version
        ensures { result ≡ synced_file (content_of content) }
    {
        Version {
            content,
            is_synced: true,
        }
    }

    /// Returns an empty file that is not synced.
    fn created(alloc: Global) -> Version
        ensures { result ≡ unsynced_file (Some []) }
    {
        Version {
            content: Some(Vec::new(alloc)),
            is_synced: false,
        }
    }

    /// Returns the content.
    fn bytes(&self) -> Option<&[u8]>
        ensures { option_copied result ≡ self.now.content }
    {
        self.content.as_deref()
    }

    /// Appends at most `most` of the bytes, and returns how many. Returns `None` as `append` does.
    fn append(&mut self, bytes: &[u8], most: usize) -> Option<usize>
        ensures unsynced { self.new.is_synced ≡ false }
        ensures within { IfSome result (λ count. count ≤ length bytes.now) }
        ensures some { IfSome result (λ count. 0 < length bytes.now → 0 < count) }
        ensures appended { IfSome result (λ count. self.new.content
            ≡ option_map (λ written. written ++ take count bytes.now) self.old.content) }
    {
        self.is_synced = false;
        append(&mut self.content, bytes, most)
    }

    /// Returns whether a crash may leave this content of the file.
    fn leaves(&self, content: Option<&[u8]>) -> bool
        ensures { IsTrue result ↔ Leaves self.now (option_copied content.entry) }
    {
        !self.is_synced || self.bytes() == content
    }
}

/// Returns whether a crash may leave this content of one of the files.
fn any_leaves(versions: &[Version], content: Option<&[u8]>) -> bool
    ensures { IsTrue result ↔ Any (λ v. Leaves v (option_copied content.entry)) versions.now }
{
    versions.iter().any(|version| version.leaves(content))
}

/// A file in memory over a cache, like that of an operating system. A crash loses what is not
/// synced: it leaves any content of a file that is not synced, and a rename whose folder is not
/// synced may or may not have taken place.
#[derive(Drop)]
pub struct CachedFile {
    alloc: Global,
    target: Version,
    temporary: Version,
    /// The files that had the name before, from the oldest on.
    past: Vec<Version>,
    /// How many of them a crash cannot leave any more.
    settled: usize,
    calls: Calls,
    longest_write: usize,
}

impl Model for CachedFile {
    ghost use Rattle.std.specs.Prelude.{◌≤◌, length};
    ghost use Rattle.dap_device.specs.CachedFile.{CachedState};

    ghost Value = { CachedState };

    ghost view = { λ m. record {
      target = m.target;
      temporary = m.temporary;
      past = m.past.items;
      settled = m.settled;
      failures = m.calls.failures;
      failed_at = m.calls.failed_at;
    } };

    ghost invariant = { λ m. m.settled ≤ length m.past.items };
}

impl CachedFile {
    /// Returns a file with this content, which is synced, or `None` for a file that does not exist.
    /// The calls whose numbers from 0 on are in `failing` fail and change nothing. A write appends
    /// at most `longest_write` bytes.
    pub fn new(
        alloc: Global,
        content: Option<Vec<u8>>,
        failing: Range<u64>,
        longest_write: usize,
    ) -> CachedFile
        ensures { result
            ≡ record {
              target = synced_file (content_of content);
              temporary = synced_file None;
              past = [];
              settled = 0;
              failures = 0;
              failed_at = None;
            } }
    {
        CachedFile {
            alloc,
            target: Version::synced(content),
            temporary: Version::synced(None),
            past: Vec::new(alloc),
            settled: 0,
            calls: Calls::new(failing),
            longest_write,
        }
    }

    /// Returns the content that a reader now finds under the name.
    pub fn content(&self) -> Option<&[u8]>
        ensures { option_copied result ≡ self.now.target.content }
    {
        self.target.bytes()
    }

    /// Returns whether a crash now may leave this content under the name.
    pub fn may_leave(&self, content: Option<&[u8]>) -> bool
        ensures { IsTrue result ↔ MayLeave self.now (option_copied content.entry) }
    {
        let earlier = &self.past.as_slice()[self.settled..];
        self.target.leaves(content) || any_leaves(earlier, content)
    }

    /// Renames the temporary file. Fails only if an allocation fails.
    fn rename_temporary(&mut self) -> Result<(), FileFault>
        ensures ok { OnOk result (self.new ≡ after_rename self.old) }
        ensures err { OnErr result (self.new ≡ self.old) }
    {
        if self.past.reserve(1).is_err() {
            return Err(FileFault {});
        }
        let renamed = mem::replace(&mut self.temporary, Version::synced(None));
        let earlier = mem::replace(&mut self.target, renamed);
        self.past.push(earlier).unwrap();
        Ok(())
    }

    /// Syncs the folder.
    fn sync_names(&mut self)
        ensures { self.new ≡ after_folder_sync self.old }
    {
        self.settled = self.past.len();
    }
}

impl Replaceable for CachedFile {
    ghost is_known = { λ m. ⊤ };

    ghost target = { λ m. m.target.content };

    ghost temporary = { λ m. m.temporary.content };

    ghost may_leave = { λ m c. MayLeave m c };

    ghost may_hold = { λ m c. Leaves m.temporary c };

    ghost moment = { λ m. m.settled };

    ghost left_since = { λ m t c. LeavesSince m t c };

    ghost failures = { λ m. m.failures };

    ghost failed_at = { λ m. m.failed_at };

    ghost counts_now = { λ m t c le now. since_now m t c le now };

    ghost only_now = { λ m c left. left };

    ghost stays = { λ m known. inl (λ synced. refl) };

    fn read(&mut self, alloc: Global, limit: u64) -> Result<Option<Vec<u8>>, ReadFault> {
        if self.calls.start_other().is_err() {
            return Err(ReadFault::Failed);
        }
        read_copy(alloc, &self.target.content, limit)
    }

    fn create(&mut self) -> Result<(), FileFault> {
        self.calls.start(Step::Create)?;
        self.temporary = Version::created(self.alloc);
        Ok(())
    }

    fn write(&mut self, bytes: &[u8]) -> Result<usize, FileFault> {
        self.calls.start(Step::Write)?;
        match self.temporary.append(bytes, self.longest_write) {
            Some(count) => Ok(count),
            None => self.calls.fail(Step::Write),
        }
    }

    fn sync(&mut self) -> Result<(), FileFault> {
        self.calls.start(Step::Sync)?;
        self.temporary.is_synced = true;
        Ok(())
    }

    fn rename(&mut self) -> Result<(), FileFault> {
        self.calls.start(Step::Rename)?;
        match self.rename_temporary() {
            Ok(()) => Ok(()),
            Err(_) => self.calls.fail(Step::Rename),
        }
    }

    /// Syncs the folder. Fails if the file under the name was renamed without being synced, since
    /// its content is then lost in a crash.
    fn sync_folder(&mut self) -> Result<(), FileFault> {
        self.calls.start(Step::SyncFolder)?;
        if !self.target.is_synced {
            return self.calls.fail(Step::SyncFolder);
        }
        self.sync_names();
        Ok(())
    }

    fn remove(&mut self) -> Result<(), FileFault> {
        self.calls.start_other()?;
        self.temporary = Version::synced(None);
        Ok(())
    }

    fn failures(&self) -> u64 {
        self.calls.failures()
    }
}
