//! The operating system as the host of a run.
ghost use Rattle.std.specs.Prelude.{◌≡◌, ◌↔◌, None};
ghost use Rattle.std.specs.IoError.{error_kind, raw_os_error};

use crate::inputs::{OpenedInput, Origin, SystemInput};
use crate::outputs::{self, OpenOutput, SystemOutput, Target};
use crate::streams::{Begun, InputStream};
use crate::transcripts::{is_transcript_file, read_whole, recording_in};
use dap_device::{FileAt, StdSink, StdSource, stream_number};
use dap_host::{Host, LIMITS, OpenFault, Purpose, Stream, is_standard};
use dap_rename::{IndexNames, Tables};
use dap_transcript::{TranscriptCause, TranscriptFault};
use std::alloc::Global;
use std::fs::{self, File, OpenOptions};
use std::hash::{BuildHasher, Hasher, RandomState};
use std::io::{self, Cursor, Error, ErrorKind, IsTerminal, Read, Write};
use std::os::unix::fs::MetadataExt;

/// The path of standard input, as Linux names it.
const STANDARD_INPUT: &str = "/proc/self/fd/0";

/// What is reported of a terminal from which an input is read.
const READS_TERMINAL: &str =
    "dapnorm: reading the terminal: end the input with Ctrl-D, or name a file\n";

/// The operating system.
#[derive(Clone, Copy)]
pub struct System<'a> {
    pub rt: &'a HostRuntime,
    /// Random words for tables and for the names of temporary files.
    pub hasher: RandomState,
    /// Whether inputs that cannot be read again store the bytes that are read, to explain a
    /// rejection.
    pub keeps_inputs: bool,
    /// Whether a line is printed if standard input is opened and is a terminal.
    pub announces_terminal: bool,
}

/// Returns why a file was not opened or found. An allocation that failed in the library has no
/// number of the operating system.
fn fault_of(error: Error) -> OpenFault
    ensures { result ≡ OpenFault.Memory
        ↔ (error_kind error ≡ ErrorKind.OutOfMemory × raw_os_error error ≡ None) }
{
    if error.kind() == ErrorKind::OutOfMemory && error.raw_os_error().is_none() {
        OpenFault::Memory
    } else {
        OpenFault::Unread(error)
    }
}

/// Returns why a transcript was not opened.
fn transcript_fault(fault: TranscriptFault) -> OpenFault
    ensures { result ≡ OpenFault.Memory ↔ (fault.cause ≡ TranscriptCause.Memory) }
{
    match fault.cause {
        TranscriptCause::Memory => OpenFault::Memory,
        _ => OpenFault::Transcript(fault),
    }
}

impl<'a> System<'a> {
    /// Returns standard input. Prints that it is read, if it is a terminal.
    fn standard_input(&self) -> InputStream {
        if self.announces_terminal && self.rt.stdin().is_terminal() {
            let _ = self.rt.stderr().write_all(READS_TERMINAL.as_bytes());
        }
        InputStream::Standard(self.rt.stdin())
    }

    /// Opens a file, and returns whether it is a regular file. A folder is no rules file.
    fn file(&self, purpose: Purpose, name: &str) -> io::Result<(File, bool)> {
        let file = fs::open(self.rt, name)?;
        if purpose == Purpose::Rules && file.metadata()?.is_dir() {
            return Err(ErrorKind::IsADirectory.into());
        }
        let is_file = file.metadata().is_ok_and(|data| data.is_file());
        Ok((file, is_file))
    }

    /// Reads an input that starts like a transcript, and returns its recording as an input. It
    /// stores the bytes of the recording that are read, if `is_kept`.
    fn transcript<R: Read + Drop>(
        &self,
        input: R,
        is_kept: bool,
    ) -> Result<OpenedInput, OpenFault> {
        let alloc = self.rt.alloc();
        let bytes = read_whole(alloc, input).map_err(fault_of)?;
        let recording = recording_in(alloc, bytes).map_err(transcript_fault)?;
        let origin = Origin::Recording(Cursor::new(recording));
        Ok(OpenedInput::new(origin, is_kept.then(|| Vec::new(alloc))))
    }

    /// Returns a stream as an input. One that starts like a transcript is its recording.
    fn stream_input(&self, stream: InputStream) -> Result<OpenedInput, OpenFault> {
        let begun = Begun::new(stream);
        if begun.is_transcript() {
            return self.transcript(begun, self.keeps_inputs);
        }
        let stored = self.keeps_inputs.then(|| Vec::new(self.rt.alloc()));
        Ok(OpenedInput::new(Origin::Stream(begun), stored))
    }

    /// Opens a file or standard input, of which nothing was read. An input that starts like a
    /// transcript is its recording.
    fn input(&self, purpose: Purpose, name: &str) -> Result<OpenedInput, OpenFault> {
        let is_input = purpose == Purpose::Input;
        if is_input && is_standard(name) {
            return self.stream_input(self.standard_input());
        }
        let (file, is_file) = self.file(purpose, name).map_err(fault_of)?;
        if is_input && !is_file {
            self.stream_input(InputStream::Opened(file))
        } else if is_input && is_transcript_file(&file) {
            self.transcript(file, false)
        } else {
            Ok(OpenedInput::new(Origin::File(file), None))
        }
    }

    /// Opens an output that is written directly. A stream other than standard output and standard
    /// error is opened only if it is a device or a pipe: a file would be written from its start.
    fn output(&self, name: &str) -> io::Result<Target> {
        match stream_number(self.rt.alloc(), self.rt, name)? {
            Some(1) => Ok(Target::Output(self.rt.stdout())),
            Some(2) => Ok(Target::Errors(self.rt.stderr())),
            Some(_) if fs::metadata(self.rt, name)?.is_file() => Err(Error::new(
                ErrorKind::InvalidInput,
                "is an open file: redirect standard output to it, such as >&3",
            )),
            _ => {
                let file = OpenOptions::new().write(true).open(self.rt, name)?;
                Ok(Target::File(file))
            }
        }
    }
}

impl<'a> Host for System<'a> {
    type Input = SystemInput;

    type Output = SystemOutput;

    type Target = FileAt<'a, HostRuntime>;

    type Table = IndexNames<RandomState>;

    ghost files = { λ host. record {
      opens = λ purpose name input. Unit {0};
      closed = λ purpose name fault. Unit {0};
      streams = λ stream output. Unit {0};
      devices = λ name output. Unit {0};
      no_device = λ name fault. Unit {0};
      targets = λ is_replaced name file. Unit {0};
      no_target = λ is_replaced name fault. Unit {0};
      is_device = λ name is. Unit {0};
      are_same = λ output input are. Unit {0};
    } };

    fn open(&self, purpose: Purpose, name: &str) -> Result<SystemInput, OpenFault> {
        let input = self.input(purpose, name)?;
        Ok(StdSource::new(input))
    }

    fn stream(&self, stream: Stream) -> SystemOutput {
        outputs::stream(self.rt, stream)
    }

    fn device(&self, name: &str) -> Result<SystemOutput, OpenFault> {
        let target = self.output(name).map_err(fault_of)?;
        Ok(StdSink::new(OpenOutput::direct(self.rt.alloc(), target)))
    }

    fn target(&self, name: &str, is_replaced: bool) -> Result<FileAt<'a, HostRuntime>, OpenFault> {
        let alloc = self.rt.alloc();
        if is_replaced {
            let tag = self.hasher.build_hasher().finish();
            FileAt::new(alloc, self.rt, name, tag).map_err(fault_of)
        } else {
            FileAt::to_read(alloc, self.rt, name).map_err(fault_of)
        }
    }

    fn is_device(&self, name: &str) -> bool {
        match stream_number(self.rt.alloc(), self.rt, name) {
            Ok(None) => fs::metadata(self.rt, name).is_ok_and(|found| !found.is_file()
                && !found.is_dir()),
            _ => true,
        }
    }

    fn are_same(&self, output: &str, input: &str) -> bool {
        let input = if is_standard(input) {
            STANDARD_INPUT
        } else {
            input
        };
        let found = (fs::metadata(self.rt, output), fs::metadata(self.rt, input));
        matches!(found, (Ok(a), Ok(b)) if (a.dev(), a.ino()) == (b.dev(), b.ino()))
    }

    fn tables(&self, alloc: Global) -> Tables<IndexNames<RandomState>> {
        IndexNames::tables(alloc, LIMITS.ids, self.hasher)
    }
}
