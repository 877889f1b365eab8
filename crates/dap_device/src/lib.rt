//! Readers, writers and files. Command functions, such as `normalise`, read and write by those of
//! this crate.
//!
//! A [`Source`] and a [`Sink`] count the bytes delivered and the failed calls, and a sink knows
//! whether a flush is due. There are readers and writers over memory, whose contracts report their
//! bytes, and over those of std. A command function reads its input with [`read_all`], or in chunks
//! with [`Pieces`], and writes its output with [`write_all`] or [`write_and_flush`].
//!
//! [`replace`] replaces a file as a whole: at every moment the name has either the old content or
//! the new content, whatever fails, whenever the process is killed, and whenever the power fails.
//! It creates a temporary file in the same folder, writes it, syncs it, renames it to the name of
//! the file and syncs the folder. It works on every [`Replaceable`] file:
//!
//! - [`MemoryFile`] is in memory, and each of its calls takes effect at once.
//! - [`CachedFile`] is in memory over a cache: a crash loses what is not synced.
//! - [`FileAt`] is a file of the operating system, whose content is outside all contracts. What it
//!   does is tested, not proved.
#![tactic(auto)]

mod cached_file;
mod calls;
mod device;
mod file;
mod file_at;
mod memory;
mod memory_file;
mod pieces;
mod place;
mod reading;
mod replacing;
mod std_device;
mod streams;
mod writing;

pub use cached_file::CachedFile;
pub use device::{DeviceFault, Sink, Source};
pub use file::{FileFault, ReadFault, Replaceable, Step};
pub use file_at::FileAt;
pub use memory::{MemorySink, MemorySource};
pub use memory_file::MemoryFile;
pub use pieces::Pieces;
pub use reading::{Input, Stop, read_all};
pub use replacing::{ReplaceFault, replace};
pub use std_device::{StdSink, StdSource};
pub use streams::{hold_closed_streams, stream_number};
pub use writing::{write_all, write_and_flush};
