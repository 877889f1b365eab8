//! Follows symbolic links, finds the open streams of the program, and holds the closed ones.
use std::alloc::Global;
use std::fs::{self, File, OpenOptions};
use std::io::{self, Error, ErrorKind};
use std::os::fd::AsRawFd;
use std::path::{Path, PathBuf};
use std::rt::Files;

/// The maximum number of symbolic links that are followed, as on Linux.
pub(crate) const MOST_LINKS: usize = 40;

/// The folder in which Linux names the open streams of this process by their numbers.
const OWN_STREAMS: &str = "/proc/self/fd";

/// The number of the first of the three standard streams.
const STANDARD_INPUT: i32 = 0;

/// The number of the last of them.
const STANDARD_ERROR: i32 = 2;

/// The device that is opened for a closed stream.
const NULL_DEVICE: &str = "/dev/null";

/// Returns `None` in place of the error that there is no such file.
pub(crate) fn if_found<T>(outcome: io::Result<T>) -> io::Result<Option<T>> {
    match outcome {
        Ok(found) => Ok(Some(found)),
        Err(error) if error.kind() == ErrorKind::NotFound => Ok(None),
        Err(error) => Err(error),
    }
}

/// Returns the target of a symbolic link, relative to the folder that contains the link.
pub(crate) fn follow<R: Files>(alloc: Global, rt: &R, mut link: PathBuf) -> io::Result<PathBuf> {
    let target = rt.read_link(alloc, link.as_str())?;
    link.pop();
    link.push(target)?;
    Ok(link)
}

/// Returns the number of the stream that a path names in the folder of open streams, without
/// following a link at the end of the path.
///
/// # Errors
///
/// - `InvalidInput`: the path names a stream of another process.
/// - `OutOfMemory`: an allocation failed.
/// - Any other: reported by the operating system.
pub(crate) fn stream_at<R: Files>(
    alloc: Global,
    rt: &R,
    path: Path<'_>,
) -> io::Result<Option<u32>> {
    let (Some(folder), Some(name)) = (path.parent(), path.file_name()) else {
        return Ok(None);
    };
    let Ok(number) = name.parse::<u32>() else {
        return Ok(None);
    };
    let Some(folder) = if_found(rt.canonicalize(alloc, folder.as_str()))? else {
        return Ok(None);
    };
    if !(folder.as_str().starts_with("/proc/") && folder.as_str().ends_with("/fd")) {
        return Ok(None);
    }
    match rt.canonicalize(alloc, OWN_STREAMS) {
        Ok(own) if own.as_str() == folder.as_str() => Ok(Some(number)),
        _ => Err(Error::new(ErrorKind::InvalidInput, "is a stream of another process")),
    }
}

/// Returns the number of the open stream of this process that a path leads to, such as 1 for
/// `/dev/stdout` and `/dev/fd/1`. `None`: it leads to no open stream.
///
/// # Errors
///
/// - `InvalidInput`: the path leads to a stream of another process.
/// - `FilesystemLoop`: the path leads through more than 40 symbolic links.
/// - `OutOfMemory`: an allocation failed.
/// - Any other: reported by the operating system.
pub fn stream_number<R: Files>(alloc: Global, rt: &R, path: &str) -> io::Result<Option<u32>> {
    let mut path = PathBuf::from_str(alloc, path)?;
    for _ in 0..=MOST_LINKS {
        let number = stream_at(alloc, rt, path.as_path())?;
        if number.is_some() {
            return Ok(number);
        }
        match fs::symlink_metadata(rt, path.as_str()) {
            Ok(found) if found.is_symlink() => path = follow(alloc, rt, path)?,
            _ => return Ok(None),
        }
    }
    Err(ErrorKind::FilesystemLoop.into())
}

/// Opens a device for each standard stream that is closed, so that no file gets its number. A read
/// of such an input and a write to such an output fail, as they do without the device. The files
/// must be kept until the program ends.
///
/// # Errors
///
/// As reported by the operating system, for example if the device `/dev/null` is absent.
pub fn hold_closed_streams(rt: &HostRuntime) -> io::Result<[Option<File>; 3]> {
    let mut held = [None, None, None];
    for place in held.iter_mut() {
        // Any file gets the lowest number that is free.
        let lowest = fs::open(rt, NULL_DEVICE).or_else(|_| fs::open(rt, "/"))?;
        let number = lowest.as_raw_fd();
        drop(lowest);
        if number > STANDARD_ERROR {
            break;
        }
        let mut options = OpenOptions::new();
        options
            .read(number != STANDARD_INPUT)
            .write(number == STANDARD_INPUT);
        *place = Some(options.open(rt, NULL_DEVICE)?);
    }
    Ok(held)
}
