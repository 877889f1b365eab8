//! Inputs that can be read once, such as standard input.
ghost use Rattle.std.specs.Prelude.{◌≤◌, length};

use crate::transcripts::HEAD;
use arrayvec::ArrayVec;
use dap_transcript::is_transcript;
use std::fs::File;
use std::io::{self, Error, Read, Stdin};

/// How the first record of a transcript starts.
const HEADS: [&[u8]; 2] = [b"- client: ", b"- adapter: "];

/// An input that can be read once.
#[derive(Drop)]
pub(crate) enum InputStream {
    Standard(Stdin),
    /// A pipe or a device.
    Opened(File),
}

impl Read for InputStream {
    fn read(&mut self, buffer: &mut [u8]) -> io::Result<usize> {
        match self {
            InputStream::Standard(stdin) => stdin.read(buffer),
            InputStream::Opened(file) => file.read(buffer),
        }
    }
}

/// A stream of which the first bytes were read, to see whether it is a transcript. It gives these
/// bytes, and then the rest. If the next read reported an error or the end, it gives that first:
/// the end of a terminal is not read again.
#[derive(Drop)]
pub(crate) struct Begun<R> {
    head: ArrayVec<u8, HEAD>,
    /// How many of these bytes were given.
    given: usize,
    failure: Option<Error>,
    has_ended: bool,
    rest: R,
}

impl<R: Read> Begun<R> {
    /// Reads the first bytes of a stream, one by one, as long as a transcript may start with them.
    /// So no other input is waited for.
    pub(crate) fn new(mut rest: R) -> Begun<R> {
        let mut head = ArrayVec::new();
        let mut failure = None;
        let mut has_ended = false;
        let mut byte = [0];
        for _ in 0..HEAD {
            if has_ended || failure.is_some() || !may_start_transcript(head.as_slice()) {
                break;
            }
            match rest.read(&mut byte) {
                Ok(0) => has_ended = true,
                Ok(_) => {
                    let _ = head.try_push(byte[0]);
                }
                Err(error) => failure = Some(error),
            }
        }
        Begun {
            head,
            given: 0,
            failure,
            has_ended,
            rest,
        }
    }

    /// Returns whether the stream starts like a transcript.
    pub(crate) fn is_transcript(&self) -> bool {
        is_transcript(self.head.as_slice())
    }
}

impl<R: Read> Read for Begun<R> {
    fn read(&mut self, buffer: &mut [u8]) -> io::Result<usize> {
        if self.given < self.head.len() {
            let count = put_from(self.head.as_slice(), self.given, buffer);
            self.given = self.given.saturating_add(count);
            return Ok(count);
        }
        match self.failure.take() {
            Some(error) => Err(error),
            None if self.has_ended => Ok(0),
            None => self.rest.read(buffer),
        }
    }
}

/// Puts the bytes of `head` from this place on into a buffer, as far as they fit. Returns how many
/// these are.
fn put_from(head: &[u8], place: usize, buffer: &mut [u8]) -> usize
    ensures { result ≤ length buffer.new }
{
    let Some(left) = head.get(place..) else {
        return 0;
    };
    let count = left.len().min(buffer.len());
    buffer[..count].copy_from_slice(&left[..count]);
    count
}

/// Returns whether more bytes after these can make the first bytes of a transcript.
fn may_start_transcript(head: &[u8]) -> bool {
    HEADS.iter().any(|whole| head.len() < whole.len() && whole.starts_with(head))
}
