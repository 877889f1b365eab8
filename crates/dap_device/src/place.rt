//! Finds a file of the operating system, and calls the file system on it and its temporary file.
ghost use Rattle.std.specs.Prelude.{◌<◌, ◌≤◌, length, IfOk};

use crate::std_device::write_some;
use crate::streams::{MOST_LINKS, follow, if_found, stream_at};
use std::alloc::{AllocError, Global};
use std::fs::{Metadata, OpenFile, OpenOptions, Permissions};
use std::io::{Error, ErrorKind, Read, Write};
use std::os::unix::fs::{MetadataExt, OpenOptionsExt, PermissionsExt};
use std::path::{Path, PathBuf};
use std::rt::Files;
use std::{fs, io};

/// The maximum number of bytes of a name of which the name of the temporary file contains all. File
/// systems limit a name to 255 bytes, and the temporary name has 26 more.
const LONGEST_NAME: usize = 229;

/// The initial mode of a temporary file: only the user has access.
const OWN_MODE: u32 = 0o600;

/// The bits of a mode that hold the permissions to read, write and execute.
const ACCESS: u32 = 0o777;

/// The permissions of the user and of others, without those of the group.
const WITHOUT_GROUP: u32 = 0o707;

/// The paths of a file and of its temporary file, which is in the same folder.
#[derive(Drop)]
pub(crate) struct Place {
    target: PathBuf,
    /// `None`: the file is only read.
    temporary: Option<PathBuf>,
    /// The owner, the group and the permissions of the file, if it exists.
    old: Option<Metadata>,
}

/// Refuses what is at a path if it cannot be replaced: only a regular file can, or no file.
fn check_replaceable(path: &str, found: &Option<Metadata>, is_stream: bool) -> io::Result<()> {
    if path.ends_with('/') || found.as_ref().is_some_and(|found| found.is_dir()) {
        return Err(Error::new(ErrorKind::IsADirectory, "is a folder"));
    }
    if is_stream || found.as_ref().is_some_and(|found| !found.is_file()) {
        return Err(Error::new(ErrorKind::InvalidInput, "is not a regular file"));
    }
    Ok(())
}

/// Returns the path of the temporary file next to a file. Leaves out a name that is too long.
fn temporary_beside(alloc: Global, target: Path<'_>, tag: u64) -> io::Result<PathBuf> {
    let Some(name) = target.file_name() else {
        return Err(Error::new(ErrorKind::InvalidInput, "has no file name"));
    };
    let name = if name.len() > LONGEST_NAME {
        format!(in alloc; ".dapnorm-{tag:016x}")?
    } else {
        format!(in alloc; ".{name}.dapnorm-{tag:016x}")?
    };
    Ok(target.with_file_name(alloc, name.as_str())?)
}

/// Writes a prefix of the bytes to the temporary file.
pub(crate) fn write_temporary<W: Write>(file: &mut Option<W>, bytes: &[u8]) -> io::Result<usize>
    ensures within { IfOk result (λ count. count ≤ length bytes.now) }
    ensures some { IfOk result (λ count. 0 < length bytes.now → 0 < count) }
{
    match write_some(file.as_mut().ok_or(ErrorKind::NotFound)?, bytes)? {
        0 if !bytes.is_empty() => Err(ErrorKind::WriteZero.into()),
        count => Ok(count),
    }
}

impl Place {
    /// Finds a file, which need not exist, after its symbolic links. A link to an open stream, such
    /// as `/dev/stdout`, is not followed. The name of the temporary file ends in the hexadecimal
    /// digits of the tag.
    pub fn find<R: Files>(alloc: Global, rt: &R, path: &str, tag: u64) -> io::Result<Place> {
        let mut target = PathBuf::from_str(alloc, path)?;
        for _ in 0..=MOST_LINKS {
            let old = if_found(fs::symlink_metadata(rt, target.as_str()))?;
            let is_stream = stream_at(alloc, rt, target.as_path())?.is_some();
            if is_stream || !old.as_ref().is_some_and(|found| found.is_symlink()) {
                check_replaceable(target.as_str(), &old, is_stream)?;
                let temporary = Some(temporary_beside(alloc, target.as_path(), tag)?);
                return Ok(Place {
                    target,
                    temporary,
                    old,
                });
            }
            target = follow(alloc, rt, target)?;
        }
        Err(ErrorKind::FilesystemLoop.into())
    }

    /// Returns the place of a file that is only read, by its path as it is.
    pub fn to_read(alloc: Global, path: &str) -> Result<Place, AllocError> {
        Ok(Place {
            target: PathBuf::from_str(alloc, path)?,
            temporary: None,
            old: None,
        })
    }

    /// Returns the path of the temporary file, or `Unsupported` if the file is only read.
    fn temporary(&self) -> io::Result<&str> {
        match &self.temporary {
            Some(temporary) => Ok(temporary.as_str()),
            None => Err(ErrorKind::Unsupported.into()),
        }
    }

    /// Reads the file, at most one byte past the limit. Returns `None` if it does not exist.
    pub fn read<R: Files>(&self, alloc: Global, rt: &R, limit: u64) -> io::Result<Option<Vec<u8>>> {
        let Some(file) = if_found(fs::open(rt, self.target.as_str()))? else {
            return Ok(None);
        };
        let mut bytes = Vec::new(alloc);
        file.take(limit.saturating_add(1)).read_to_end(&mut bytes)?;
        Ok(Some(bytes))
    }

    /// Creates the temporary file. If it is to get the permissions of an existing file, only the
    /// user has access until then.
    pub fn create<R: Files>(&self, rt: &R, file: &mut Option<R::File>) -> io::Result<()> {
        let mut options = OpenOptions::new();
        options.write(true).create_new(true);
        if self.old.is_some() {
            options.mode(OWN_MODE);
        }
        *file = Some(options.open(rt, self.temporary()?)?);
        Ok(())
    }

    /// Gives the temporary file the attributes of the file and syncs it.
    pub fn sync<R: Files>(&self, rt: &R, file: &Option<R::File>) -> io::Result<()> {
        let file = file.as_ref().ok_or(ErrorKind::NotFound)?;
        self.keep_attributes(rt, file)?;
        file.sync_all()
    }

    /// Gives the temporary file the owner, the group and the permissions of the file, or not the
    /// owner if the user may not set it. A file that cannot have the group gives it no permissions.
    fn keep_attributes<R: Files>(&self, rt: &R, file: &R::File) -> io::Result<()> {
        let Some(old) = &self.old else {
            return Ok(());
        };
        let (path, new) = (self.temporary()?, file.metadata()?);
        let has_group = (new.uid(), new.gid()) == (old.uid(), old.gid())
            || rt.lchown(path, Some(old.uid()), Some(old.gid())).is_ok()
            || rt.lchown(path, None, Some(old.gid())).is_ok();
        let access = if has_group { ACCESS } else { WITHOUT_GROUP };
        file.set_permissions(Permissions::from_mode(old.permissions().mode() & access))
    }

    /// Renames the temporary file to the name of the file.
    pub fn rename<R: Files>(&self, rt: &R, file: &mut Option<R::File>) -> io::Result<()> {
        if file.is_none() {
            return Err(ErrorKind::NotFound.into());
        }
        fs::rename(rt, self.temporary()?, self.target.as_str())?;
        *file = None;
        Ok(())
    }

    /// Syncs the folder, if the file system supports it.
    pub fn sync_folder<R: Files>(&self, rt: &R) -> io::Result<()> {
        let folder = match self.target.parent() {
            Some(folder) if !folder.as_str().is_empty() => folder.as_str(),
            _ => ".",
        };
        match fs::open(rt, folder).and_then(|folder| folder.sync_all()) {
            Err(error) if error.kind() == ErrorKind::InvalidInput => Ok(()),
            Err(error) if error.kind() == ErrorKind::Unsupported => Ok(()),
            outcome => outcome,
        }
    }

    /// Removes the temporary file, if there is one.
    pub fn remove<R: Files>(&self, rt: &R, file: &mut Option<R::File>) -> io::Result<()> {
        if file.is_some() {
            if_found(fs::remove_file(rt, self.temporary()?))?;
            *file = None;
        }
        Ok(())
    }
}
