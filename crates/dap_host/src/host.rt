//! The files, streams and tables that a run uses.
ghost use Rattle.std.specs.Prelude.{◌≡◌};
ghost use Rattle.dap_host.specs.Files.{is_standard};

use crate::limits::LIMITS;
use dap_device::{Replaceable, Sink, Source};
use dap_rename::{NameTable, Tables};
use dap_transcript::TranscriptFault;
use std::alloc::Global;
use std::io::Error;

/// Why a file was not opened, or no file of an output was found.
#[derive(Clone, Copy, Debug)]
pub enum OpenFault {
    /// An allocation failed.
    Memory,
    /// The operating system did not open it, for this reason.
    Unread(Error),
    /// It starts like a transcript, but is not one.
    Transcript(TranscriptFault),
}

/// What a file is opened for.
#[derive(Clone, Copy, Debug, PartialEq, Eq)]
pub enum Purpose {
    /// It is an input: a recording, frames or a trace. The name `-` leads to standard input. An
    /// input that is a transcript is read as its recording.
    Input,
    /// It is a rules file. No name leads to standard input.
    Rules,
}

/// A standard stream, by what is written to it.
#[derive(Clone, Copy, Debug, PartialEq, Eq)]
pub enum Stream {
    /// Standard output for the bytes of an engine.
    Bytes,
    /// Standard output for lines.
    Lines,
    /// Standard output for lines that contain names of files.
    Names,
    /// Standard error.
    Errors,
}

/// Returns whether a name is that of standard input or standard output.
pub fn is_standard(name: &str) -> bool
    ensures { result ≡ is_standard name.now }
{
    name == "-"
}

/// The environment of a run.
///
/// No contract can speak of the files of an operating system: its members hold of every file. What
/// is proved of all hosts says which files are read and written.
pub trait Host {
    /// A file that is read, or standard input.
    type Input: Source + Drop;

    /// A standard stream, a device or a pipe that is written.
    type Output: Sink + Drop;

    /// A file that is replaced as a whole.
    type Target: Replaceable + Drop;

    /// A table for ids.
    type Table: NameTable + Drop;

    ghost use Rattle.std.specs.Prelude.{◌≡◌, None, IfErr, IfOk};
    ghost use Rattle.dap_host.specs.{Files.Files, declared.limits.TheConstants.LIMITS};
    ghost use Rattle.dap_normalise.specs.NameTables.{AreReady};

    /// Which file a name leads to, or why it leads to none.
    ghost files: { Self → Files Self.Input Self.Output Self.Target };

    /// Opens the file that a name leads to. Nothing was read of it.
    fn open(&self, purpose: Purpose, name: &str) -> Result<Self::Input, OpenFault>
        ensures ok { IfOk result ((files self.now).opens purpose name.now) }
        ensures given { IfOk result (λ input. Self.Input.given input ≡ 0) }
        ensures failures { IfOk result (λ input. Self.Input.failures input ≡ 0) }
        ensures err { IfErr result ((files self.now).closed purpose name.now) };

    /// Returns a standard stream.
    fn stream(&self, stream: Stream) -> Self::Output
        ensures is { (files self.now).streams stream result }
        ensures failures { Self.Output.failures result ≡ 0 };

    /// Opens the device or the pipe that a name leads to.
    fn device(&self, name: &str) -> Result<Self::Output, OpenFault>
        ensures ok { IfOk result ((files self.now).devices name.now) }
        ensures failures { IfOk result (λ output. Self.Output.failures output ≡ 0) }
        ensures err { IfErr result ((files self.now).no_device name.now) };

    /// Finds the file that a name leads to, to replace it, or only to read it. The file need not
    /// exist.
    fn target(&self, name: &str, is_replaced: bool) -> Result<Self::Target, OpenFault>
        ensures ok { IfOk result ((files self.now).targets is_replaced name.now) }
        ensures few { IfOk result (λ file. Self.Target.failures file ≡ 0) }
        ensures none { IfOk result
            (λ file. Self.Target.is_known file → Self.Target.temporary file ≡ None) }
        ensures err { IfErr result ((files self.now).no_target is_replaced name.now) };

    /// Returns whether a name leads to an output that is written directly, such as a device.
    fn is_device(&self, name: &str) -> bool
        ensures { (files self.now).is_device name.now result };

    /// Returns whether two names lead to one file. The second is that of an input.
    fn are_same(&self, output: &str, input: &str) -> bool
        ensures { (files self.now).are_same output.now input.now result };

    /// Returns empty tables with the limit of ids of the program.
    fn tables(&self, alloc: Global) -> Tables<Self::Table>
        ensures { AreReady Self.Table.numbers Self.Table.limit LIMITS result };
}
