//! The streams and devices that the program writes.
ghost use Rattle.std.specs.Prelude.{◌≡◌};

use dap_device::StdSink;
use dap_host::Stream;
use std::alloc::Global;
use std::fs::File;
use std::io::{self, BufWriter, Stderr, Stdout, Write};
use std::str;

/// The number of bytes that are buffered. A line with a path of 4,096 bytes is shorter.
const BUFFERED: usize = 8_192;

/// Returns whether a character is written as an escape: a terminal may obey it.
fn is_escaped(character: char) -> bool {
    character.is_control() && character != '\n' && character != '\t'
}

/// A stream that is written.
#[derive(Drop)]
pub(crate) enum Target {
    Output(Stdout),
    Errors(Stderr),
    File(File),
}

impl Write for Target {
    fn write(&mut self, bytes: &[u8]) -> io::Result<usize> {
        match self {
            Target::Output(stream) => stream.write(bytes),
            Target::Errors(stream) => stream.write(bytes),
            Target::File(file) => file.write(bytes),
        }
    }

    fn flush(&mut self) -> io::Result<()> {
        Ok(())
    }
}

/// A standard stream, a device or a pipe that is written. A line is one write, if it is buffered.
#[derive(Drop)]
pub struct OpenOutput {
    writer: BufWriter<Target>,
    /// Whether each control character except LF and tab is written as a JSON escape, so that no
    /// file name can control a terminal.
    is_escaped: bool,
}

/// An output that was opened. It counts how often it failed.
pub type SystemOutput = StdSink<OpenOutput>;

impl OpenOutput {
    /// Returns an output without a buffer, for the bytes of an engine.
    pub(crate) fn direct(alloc: Global, target: Target) -> OpenOutput {
        OpenOutput {
            writer: BufWriter::with_capacity(alloc, 0, target).unwrap(),
            is_escaped: false,
        }
    }
}

impl Write for OpenOutput {
    fn write(&mut self, bytes: &[u8]) -> io::Result<usize> {
        if self.is_escaped
            && let Ok(text) = str::from_utf8(bytes)
            && text.chars().any(is_escaped)
        {
            for character in text.chars() {
                if is_escaped(character) {
                    write!(self.writer, "\\u{:04x}", u32::from(character))?;
                } else {
                    write!(self.writer, "{character}")?;
                }
            }
            return Ok(bytes.len());
        }
        self.writer.write(bytes)
    }

    fn flush(&mut self) -> io::Result<()> {
        self.writer.flush()
    }
}

/// Returns standard output or standard error.
fn standard(rt: &HostRuntime, stream: Stream) -> Target {
    match stream {
        Stream::Bytes | Stream::Lines | Stream::Names => Target::Output(rt.stdout()),
        Stream::Errors => Target::Errors(rt.stderr()),
    }
}

/// Returns a standard stream. One for lines is buffered, unless the allocation of its buffer fails.
pub fn stream(rt: &HostRuntime, stream: Stream) -> SystemOutput
    ensures { result.failures ≡ 0 }
{
    let mut output = OpenOutput::direct(rt.alloc(), standard(rt, stream));
    if stream != Stream::Bytes
        && let Ok(writer) = BufWriter::with_capacity(rt.alloc(), BUFFERED, standard(rt, stream))
    {
        output.writer = writer;
    }
    output.is_escaped = matches!(stream, Stream::Names | Stream::Errors);
    StdSink::new(output)
}
