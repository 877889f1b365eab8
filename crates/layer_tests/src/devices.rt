//! Tests sources and sinks over readers and writers of std that transfer few bytes per call and
//! fail.
use dap_device::{DeviceFault, Source, StdSink, StdSource, write_and_flush};
use std::io;
use std::io::ErrorKind;

/// The behaviour of one read.
#[derive(Clone, Copy)]
enum Read {
    /// Returns these bytes.
    Gives(&'static [u8]),
    /// Fails with this error.
    Fails(ErrorKind),
}

/// A reader that performs these reads and is then at its end.
#[derive(Drop)]
struct Reader(&'static [Read]);

impl io::Read for Reader {
    fn read(&mut self, buffer: &mut [u8]) -> io::Result<usize> {
        let Some((first, rest)) = self.0.split_first() else {
            return Ok(0);
        };
        self.0 = rest;
        match *first {
            Read::Gives(bytes) => {
                let count = bytes.len().min(buffer.len());
                buffer[..count].copy_from_slice(&bytes[..count]);
                Ok(count)
            }
            Read::Fails(kind) => Err(io::Error::from(kind)),
        }
    }
}

/// The result of a read of four bytes, and the buffer after it.
type Seen = (Result<usize, DeviceFault>, [u8; 4]);

/// Returns the result of the next read, or `None` if the counts of the source are too high for
/// another one.
fn next_read<R: Source>(source: &mut R) -> Option<Seen> {
    if source.given() >= 1_000 || source.failures() >= 1_000 {
        return None;
    }
    let mut bytes = [0; 4];
    let outcome = source.read(&mut bytes);
    Some((outcome, bytes))
}

const READS: [Read; 8] = [
    Read::Fails(ErrorKind::Interrupted),
    Read::Fails(ErrorKind::Interrupted),
    Read::Gives(b"ab"),
    Read::Fails(ErrorKind::UnexpectedEof),
    Read::Gives(b"c"),
    Read::Fails(ErrorKind::WouldBlock),
    Read::Fails(ErrorKind::TimedOut),
    Read::Fails(ErrorKind::BrokenPipe),
];

const FAILED: Seen = (Err(DeviceFault {}), [0; 4]);

/// An interrupted read is repeated, and any other error of a read is not the end.
const SEEN: [Seen; 7] = [
    (Ok(2), [b'a', b'b', 0, 0]),
    FAILED,
    (Ok(1), [b'c', 0, 0, 0]),
    FAILED,
    FAILED,
    FAILED,
    (Ok(0), [0; 4]),
];

#[test]
fn reads_after_errors(rt: HostRuntime) {
    let mut source = StdSource::new(Reader(&READS));
    for seen in &SEEN {
        assert!(rt; next_read(&mut source) == Some(*seen));
    }
}

/// The most bytes that a write consumes, or its error.
type Step = Result<usize, ErrorKind>;

/// A writer that performs these writes, and then consumes all bytes. It fails if it is given other
/// bytes than those that are left. It counts its flushes, which fail if there is an error for them.
#[derive(Drop)]
struct Writer {
    steps: &'static [Step],
    left: &'static [u8],
    flush: Option<ErrorKind>,
    flushes: u64,
}

impl Writer {
    /// Consumes a prefix of the bytes that are left.
    fn take(&mut self, bytes: &[u8]) -> io::Result<()> {
        let Some(left) = self.left.strip_prefix(bytes) else {
            return Err(io::Error::from(ErrorKind::InvalidData));
        };
        self.left = left;
        Ok(())
    }
}

impl io::Write for Writer {
    fn write(&mut self, bytes: &[u8]) -> io::Result<usize> {
        let most = match self.steps.split_first() {
            None => bytes.len(),
            Some((first, rest)) => {
                self.steps = rest;
                match *first {
                    Ok(most) => most,
                    Err(kind) => return Err(io::Error::from(kind)),
                }
            }
        };
        let count = bytes.len().min(most);
        self.take(&bytes[..count])?;
        Ok(count)
    }

    fn flush(&mut self) -> io::Result<()> {
        self.flushes = self.flushes.saturating_add(1);
        match self.flush {
            None => Ok(()),
            Some(kind) => Err(io::Error::from(kind)),
        }
    }
}

/// A write of `abcd`: the writes and the error of a flush, and what follows: the result, the bytes
/// that are left, and the number of flushes.
type Written = (
    &'static [Step],
    Option<ErrorKind>,
    Result<(), DeviceFault>,
    &'static [u8],
    u64,
);

const FAULT: Result<(), DeviceFault> = Err(DeviceFault {});

const WRITTEN: [Written; 5] = [
    (
        &[
            Err(ErrorKind::Interrupted),
            Ok(1),
            Err(ErrorKind::Interrupted),
            Ok(2),
        ],
        None,
        Ok(()),
        b"",
        1,
    ),
    (&[Ok(2), Err(ErrorKind::StorageFull)], None, FAULT, b"cd", 0),
    (&[Ok(3), Ok(0)], None, FAULT, b"d", 0),
    (&[], Some(ErrorKind::BrokenPipe), FAULT, b"", 1),
    // As in std, an interrupted flush is reported to the caller, who may flush again.
    (&[], Some(ErrorKind::Interrupted), FAULT, b"", 1),
];

/// Writes and flushes, and returns whether the writer is in the state that the row expects.
fn writes(written: &Written) -> bool {
    let (steps, flush, outcome, left, flushes) = *written;
    let mut writer = Writer {
        steps,
        left: b"abcd",
        flush,
        flushes: 0,
    };
    let mut sink = StdSink::new(&mut writer);
    write_and_flush(&mut sink, b"abcd") == outcome
        && writer.left == left
        && writer.flushes == flushes
}

#[test]
fn a_text_is_written_and_flushed(rt: HostRuntime) {
    for written in &WRITTEN {
        assert!(rt; writes(written));
    }
}
