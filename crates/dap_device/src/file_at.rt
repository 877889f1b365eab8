//! Replaces a file of the operating system.
ghost use Rattle.std.specs.Prelude.{◌≡◌, ◌↔◌, ◌+◌, ◌<◌, ◌^◌, None, Ok, Some};
ghost use Rattle.std.specs.Prelude.{IfOk, IsErr, IsSome, MatchResult};

use crate::file::{FileFault, ReadFault, Replaceable, Step};
use crate::place::{Place, write_temporary};
use std::alloc::Global;
use std::io::{self, Error, ErrorKind};
use std::marker::Model;
use std::rt::Files;

/// A file of the operating system, found by its path. No clause describes its content.
///
/// A replacement creates a new file. It has the access permissions of the old file, and its owner
/// and group if the process may set them, but no extended attributes. If the process may not set
/// the group, the new file gives its group no permissions. Other hard links to the old file retain
/// the old content.
pub struct FileAt<'a, R: Files> {
    rt: &'a R,
    place: Place,
    /// The temporary file, if there is one.
    temporary: Option<R::File>,
    failures: u64,
    failed_at: Option<Step>,
    /// The reason of the last failure, or of one before a failed removal.
    reason: Option<Error>,
}

impl<'a, R: Files> Drop for FileAt<'a, R> {
    fn drop(self) {
        let FileAt {
            rt: _,
            place: _,
            temporary: _,
            failures: _,
            failed_at: _,
            reason: _,
        } = self;
    }
}

impl<'a, R: Files> Model for FileAt<'a, R> {
    ghost use Rattle.std.specs.Prelude.{◌↔◌, ◌<◌, IsSome};
    ghost use Rattle.dap_device.specs.Calls.{FileCounts};

    ghost Value = { FileCounts };

    ghost view = { λ f. record { failures = f.failures; failed_at = f.failed_at } };

    ghost invariant = { λ f. IsSome f.reason ↔ (0 < f.failures) };
}

impl<'a, R: Files> FileAt<'a, R> {
    /// Finds the file at a path. The file need not exist, but its folder must.
    ///
    /// Follows symbolic links, even to a file that does not exist: a replacement replaces the
    /// target of the link and leaves the link. Creates nothing.
    ///
    /// The temporary file is in the folder of the file. Its name is a dot, the name of the file,
    /// `.dapnorm-` and the 16 hexadecimal digits of `tag`. If the name of the file has more than
    /// 229 bytes, it is left out, since file systems limit a name to 255 bytes.
    ///
    /// # Errors
    ///
    /// - `IsADirectory`: the path is that of a folder, or ends in a slash.
    /// - `InvalidInput`: the file is a device, a pipe or a socket, an open stream such as
    ///   `/dev/stdout`, or the path has no file name.
    /// - `FilesystemLoop`: the path leads through more than 40 symbolic links.
    /// - `OutOfMemory`: an allocation failed.
    /// - Any other: reported by the operating system.
    pub fn new(alloc: Global, rt: &'a R, path: &str, tag: u64) -> io::Result<FileAt<'a, R>>
        ensures { IfOk result (λ file. file ≡ record { failures = 0; failed_at = None }) }
    {
        Ok(FileAt::at(rt, Place::find(alloc, rt, path, tag)?))
    }

    /// Returns a file that is only read, by its path as it is. It may be a pipe or a device. Each
    /// step of a replacement fails.
    ///
    /// # Errors
    ///
    /// `OutOfMemory`: an allocation failed.
    pub fn to_read(alloc: Global, rt: &'a R, path: &str) -> io::Result<FileAt<'a, R>>
        ensures { IfOk result (λ file. file ≡ record { failures = 0; failed_at = None }) }
    {
        Ok(FileAt::at(rt, Place::to_read(alloc, path)?))
    }

    /// Returns the file at a place, before the first call.
    fn at(rt: &'a R, place: Place) -> FileAt<'a, R>
        ensures { result ≡ record { failures = 0; failed_at = None } }
    {
        FileAt {
            rt,
            place,
            temporary: None,
            failures: 0,
            failed_at: None,
            reason: None,
        }
    }

    /// Returns whether the temporary file exists. After a replacement that failed, it could not be
    /// removed.
    pub fn is_left(&self) -> bool {
        self.temporary.is_some()
    }

    /// Returns the reason of the last failure, or `None` before the first one. A failed removal
    /// does not change the reason of an earlier failure.
    pub fn reason(&self) -> Option<&Error>
        ensures { IsSome result ↔ (0 < self.now.failures) }
    {
        self.reason.as_ref()
    }

    /// Counts a failed call of a step, and stores its reason.
    fn note<T>(&mut self, step: Step, outcome: io::Result<T>) -> Result<T, FileFault>
        requires { self.old.failures < 2 ^ 63 }
        ensures { MatchResult outcome (λ value. (result ≡ Ok value) × (self.new ≡ self.old))
            (λ error. IsErr result × (self.new
            ≡ record { failures = self.old.failures + 1; failed_at = Some step })) }
    {
        match outcome {
            Ok(value) => Ok(value),
            Err(reason) => {
                self.failures += 1;
                self.failed_at = Some(step);
                self.reason = Some(reason);
                Err(FileFault {})
            }
        }
    }
}

impl<'a, R: Files> Replaceable for FileAt<'a, R> {
    ghost is_known = { λ f. ⊥ };

    ghost target = { λ f. None };

    ghost temporary = { λ f. None };

    ghost may_leave = { λ f c. ⊥ };

    ghost may_hold = { λ f c. ⊥ };

    ghost moment = { λ f. 0 };

    ghost left_since = { λ f t c. ⊥ };

    ghost failures = { λ f. f.failures };

    ghost failed_at = { λ f. f.failed_at };

    ghost counts_now = { λ f t c le left. left };

    ghost only_now = { λ f c left. left };

    ghost stays = { λ f known. known };

    fn read(&mut self, alloc: Global, limit: u64) -> Result<Option<Vec<u8>>, ReadFault> {
        match self.place.read(alloc, self.rt, limit) {
            Ok(None) => Ok(None),
            Ok(Some(bytes)) if bytes.len() as u64 > limit => Err(ReadFault::TooLong),
            Ok(Some(bytes)) => Ok(Some(bytes)),
            Err(reason) => match (reason.kind(), reason.raw_os_error()) {
                // A failed allocation in std has no error number of the operating system.
                (ErrorKind::OutOfMemory, None) => Err(ReadFault::Memory),
                _ => {
                    self.failures += 1;
                    self.reason = Some(reason);
                    Err(ReadFault::Failed)
                }
            },
        }
    }

    fn create(&mut self) -> Result<(), FileFault> {
        let created = self.place.create(self.rt, &mut self.temporary);
        self.note(Step::Create, created)
    }

    fn write(&mut self, bytes: &[u8]) -> Result<usize, FileFault> {
        let written = write_temporary(&mut self.temporary, bytes);
        self.note(Step::Write, written)
    }

    fn sync(&mut self) -> Result<(), FileFault> {
        let synced = self.place.sync(self.rt, &self.temporary);
        self.note(Step::Sync, synced)
    }

    fn rename(&mut self) -> Result<(), FileFault> {
        let renamed = self.place.rename(self.rt, &mut self.temporary);
        self.note(Step::Rename, renamed)
    }

    fn sync_folder(&mut self) -> Result<(), FileFault> {
        let synced = self.place.sync_folder(self.rt);
        self.note(Step::SyncFolder, synced)
    }

    fn remove(&mut self) -> Result<(), FileFault> {
        let removed = self.place.remove(self.rt, &mut self.temporary);
        if let Err(reason) = removed {
            self.failures += 1;
            self.reason = self.reason.or(Some(reason));
            return Err(FileFault {});
        }
        Ok(())
    }

    fn failures(&self) -> u64 {
        self.failures
    }
}
