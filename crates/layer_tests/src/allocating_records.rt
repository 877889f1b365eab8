//! Makes each allocation of a record reader and of a recorder fail in turn. The same call then
//! succeeds.
use crate::examples::LIMITS;
use dap_recording::{RecordCause, RecordReader, Recorder, RecorderFault};
use dap_tree::Side;
use dap_tree::Side::{Adapter, Client};
use fault_injection::{refuse_growth, was_refused};
use std::alloc::Global;
use std::process::Abort;

/// Returns the number of bytes that a reader consumes, or why it consumes none.
fn taken(reader: &mut RecordReader, bytes: &[u8]) -> Result<usize, RecordCause> {
    match reader.feed(bytes) {
        Ok(fed) => Ok(fed.used),
        Err(fault) => Err(fault.cause),
    }
}

/// Reads all of a chunk while allocation `turn` fails, and again if it failed. Returns whether it
/// failed.
fn reads(
    rt: &impl Abort,
    alloc: Global,
    reader: &mut RecordReader,
    bytes: &[u8],
    turn: u16,
) -> bool {
    refuse_growth(alloc, turn);
    let outcome = taken(reader, bytes);
    let is_refused = was_refused(alloc);
    if outcome != Ok(bytes.len()) {
        assert!(rt; outcome == Err(RecordCause::Memory) && is_refused);
        assert!(rt; taken(reader, bytes) == Ok(bytes.len()));
    }
    is_refused
}

/// The chunks of a record.
const CHUNKS: [&[u8]; 2] = [b"<Content-Length: 4\r\n\r\nnu", b"ll\n"];

#[test]
fn readers_are_refused_in_turn(rt: HostRuntime) {
    for turn in 1..1_000u16 {
        let mut reader = RecordReader::new(rt.alloc(), LIMITS);
        let mut is_refused = false;
        for bytes in &CHUNKS {
            is_refused |= reads(&rt, rt.alloc(), &mut reader, bytes, turn);
        }
        assert!(rt; reader.finish() == Ok(()));
        if !is_refused {
            break;
        }
    }
}

/// A piece of a side.
type Piece = (Side, &'static [u8]);

/// Records all of a piece while allocation `turn` fails, and again if it failed. Returns whether it
/// failed.
fn records(
    rt: &impl Abort,
    alloc: Global,
    recorder: &mut Recorder,
    piece: Piece,
    turn: u16,
) -> bool {
    let (side, bytes) = piece;
    refuse_growth(alloc, turn);
    let outcome = recorder.piece(side, bytes);
    let is_refused = was_refused(alloc);
    if outcome != Ok(bytes.len()) {
        assert!(rt; outcome == Err(RecorderFault::Memory) && is_refused);
        assert!(rt; recorder.piece(side, bytes) == Ok(bytes.len()));
    }
    is_refused
}

const PIECES: [Piece; 3] = [
    (Client, b"Content-Length: 2\r\n\r\n{"),
    (Adapter, b"Content-Length: 4\r\n\r\nnull"),
    (Client, b"}"),
];

const RECORDED: &[u8] = b"<Content-Length: 4\r\n\r\nnull\n>Content-Length: 2\r\n\r\n{}\n";

#[test]
fn recorders_are_refused_in_turn(rt: HostRuntime) {
    for turn in 1..1_000u16 {
        let mut recorder = Recorder::new(rt.alloc(), LIMITS);
        let mut is_refused = false;
        for piece in &PIECES {
            is_refused |= records(&rt, rt.alloc(), &mut recorder, *piece, turn);
        }
        assert!(rt; recorder.text() == RECORDED);
        if !is_refused {
            break;
        }
    }
}
