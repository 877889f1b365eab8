//! Reads a file whole.
ghost use Rattle.std.specs.Prelude.{◌≡◌, ◌+◌, ◌≤◌, ◌^◌, ◌∷◌, [], None};
ghost use Rattle.dap_device.specs.Devices.{CanRead};
ghost use Rattle.dapnorm.specs.{Desks.TakesAtMost, Lines.{line_text, part_text}};
ghost use Rattle.dapnorm.specs.Readings.{IsFileRead, IsReadWhole, unread_status, unread_text};

use crate::line::{Line, Part, fault};
use crate::reporting::{FAULT, MEMORY, REFUSED};
use dap_device::{Source, Stop, read_all};
use dap_host::{Host, OpenFault, Purpose};
use dap_input::Refused;
use std::alloc::Global;

/// Why a file was not read.
#[derive(Clone, Copy, Debug)]
pub enum Unread {
    /// It did not open.
    Unopened(OpenFault),
    /// A read failed.
    Failed,
    /// An allocation failed.
    Memory,
}

impl Unread {
    /// Returns the line that reports it, and the status of the program: this line if a read failed
    /// or the file did not open, and these parts before the fault of a transcript.
    pub(crate) fn line_and_status<'a>(
        self,
        line: Line<'a>,
        first: Part<'a>,
        second: Part<'a>,
    ) -> (Line<'a>, u8)
        ensures line { line_text result.0 ≡ unread_text self (line_text line.entry)
            (part_text first.entry ∷ part_text second.entry ∷ []) }
        ensures status { result.1 ≡ unread_status self }
    {
        match self {
            Unread::Memory | Unread::Unopened(OpenFault::Memory) => {
                (fault(Part::Refused(Refused::Memory)), MEMORY)
            }
            Unread::Failed | Unread::Unopened(OpenFault::Unread(_)) => (line, FAULT),
            Unread::Unopened(OpenFault::Transcript(why)) => {
                (
                    Line::Transcript(first, second, Part::Text(""), why),
                    REFUSED,
                )
            }
        }
    }
}

/// Reads a file whole, with at most one byte past the limit.
fn read_whole<R: Source>(alloc: Global, reader: &mut R, limit: u64) -> Result<Vec<u8>, Unread>
    requires small { limit ≤ 2 ^ 62 }
    requires reader { CanRead R.Source reader.old }
    ensures reads { IsReadWhole R.Source limit reader.old reader.new result }
    ensures taken { R.given reader.new ≤ R.given reader.old + limit + 1 }
{
    let read = match read_all(alloc, reader, limit) {
        Ok(read) => read,
        Err(_) => return Err(Unread::Memory),
    };
    match read.stop {
        Stop::Failed => Err(Unread::Failed),
        _ => Ok(read.bytes),
    }
}

/// Opens the file that a name leads to, and reads it whole, with at most one byte past the limit.
pub(crate) fn read_file<H: Host>(
    alloc: Global,
    host: &H,
    purpose: Purpose,
    name: &str,
    limit: u64,
    file: &mut Option<H::Input>,
) -> Result<Vec<u8>, Unread>
    requires small { limit ≤ 2 ^ 62 }
    requires unopened { file.old ≡ None }
    ensures reads { IsFileRead (H.files host.now) H.Input.Source purpose name.now limit file.new
        result }
    ensures taken { TakesAtMost H.Input.given (limit + 1) file.new }
{
    let opened = match host.open(purpose, name) {
        Ok(opened) => opened,
        Err(fault) => return Err(Unread::Unopened(fault)),
    };
    read_whole(alloc, file.insert(opened), limit)
}
