//! The inputs of the program: files, streams, and the recordings of transcripts.
use crate::streams::{Begun, InputStream};
use arrayvec::ArrayVec;
use dap_device::StdSource;
use dap_golden::is_trace;
use std::fs::File;
use std::io::{self, Cursor, Error, Read};

/// The number of first bytes of an input that are stored. The first line of a trace is shorter.
const HEAD: usize = 32;

/// The source of an input.
#[derive(Drop)]
pub(crate) enum Origin {
    File(File),
    Stream(Begun<InputStream>),
    /// The recording of a transcript.
    Recording(Cursor<Vec<u8>>),
}

/// An input that was opened. It has the reason of the last read, if that failed, and stores the
/// bytes that were read, if they are required to explain a rejection.
#[derive(Drop)]
pub struct OpenedInput {
    origin: Origin,
    bytes: Option<Vec<u8>>,
    head: ArrayVec<u8, HEAD>,
    failure: Option<Error>,
}

/// An input that was opened. It counts what it gave and how often it failed.
pub type SystemInput = StdSource<OpenedInput>;

impl OpenedInput {
    /// Returns an input of which nothing was read. If there is a vector, it stores the bytes that
    /// are read.
    pub(crate) fn new(origin: Origin, bytes: Option<Vec<u8>>) -> OpenedInput {
        OpenedInput {
            origin,
            bytes,
            head: ArrayVec::new(),
            failure: None,
        }
    }

    /// Returns the bytes that were read, or `None` if they are not stored or an allocation failed.
    pub fn bytes(&self) -> Option<&[u8]> {
        self.bytes.as_deref()
    }

    /// Returns the reason of the last read, if that failed. The next read that succeeds clears it,
    /// such as the repetition of a read that a signal interrupted.
    pub fn failure(&self) -> Option<&Error> {
        self.failure.as_ref()
    }

    /// Returns whether the first bytes that were read are those of a trace.
    pub fn is_trace(&self) -> bool {
        is_trace(self.head.as_slice())
    }

    /// Stores these bytes, as far as they are required. If an allocation fails, discards all stored
    /// bytes.
    fn store(&mut self, more: &[u8]) {
        let count = more.len().min(self.head.remaining_capacity());
        let _ = self.head.try_extend_from_slice(&more[..count]);
        if let Some(bytes) = &mut self.bytes
            && bytes.extend_from_slice(more).is_err()
        {
            self.bytes = None;
        }
    }
}

impl Read for OpenedInput {
    fn read(&mut self, buffer: &mut [u8]) -> io::Result<usize> {
        let read = match &mut self.origin {
            Origin::File(file) => file.read(buffer),
            Origin::Stream(stream) => stream.read(buffer),
            Origin::Recording(recording) => recording.read(buffer),
        };
        self.failure = read.err();
        self.store(&buffer[..read?]);
        read
    }
}
