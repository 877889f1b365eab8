//! Tests that the renaming returned by `compare` maps the messages of one recording to those of the
//! other.
use crate::examples::LIMITS;
use crate::recordings::{INITIALIZE, INITIALIZE_RESPONSE, Line, STACK_TRACE, STOPPED, recording};
use dap_message::{Message, MessageFault, Side, typed};
use dap_rename::Mode;
use dap_tree::read_tree;
use dapnorm::{CompareRefused, MemorySource, Verdict, compare};
use std::alloc::Global;
use std::process::Abort;

/// A session with two stack frames.
pub const FRAMES: [Line; 4] = [
    INITIALIZE,
    INITIALIZE_RESPONSE,
    STACK_TRACE,
    (
        "<",
        "{\"body\":{\"stackFrames\":[{\"column\":1,\"id\":1000,\"line\":3,\"name\":\"f\"},{\"column\":1,\"id\":1001,\"line\":9,\"name\":\"g\"}]},\"command\":\"stackTrace\",\"request_seq\":2,\"seq\":2,\"success\":true,\"type\":\"response\"}",
    ),
];

/// The same session with the two frame ids exchanged.
pub const EXCHANGED: [Line; 4] = [
    INITIALIZE,
    INITIALIZE_RESPONSE,
    STACK_TRACE,
    (
        "<",
        "{\"body\":{\"stackFrames\":[{\"column\":1,\"id\":1001,\"line\":3,\"name\":\"f\"},{\"column\":1,\"id\":1000,\"line\":9,\"name\":\"g\"}]},\"command\":\"stackTrace\",\"request_seq\":2,\"seq\":2,\"success\":true,\"type\":\"response\"}",
    ),
];

/// The configured session of an adapter whose sequence numbers are all 0.
const UNNUMBERED: [Line; 5] = [
    (
        ">",
        "{\"arguments\":{\"adapterID\":\"mock\"},\"command\":\"initialize\",\"seq\":7,\"type\":\"request\"}",
    ),
    (
        "<",
        "{\"command\":\"initialize\",\"request_seq\":7,\"seq\":0,\"success\":true,\"type\":\"response\"}",
    ),
    (
        "<",
        "{\"event\":\"initialized\",\"seq\":0,\"type\":\"event\"}",
    ),
    (
        ">",
        "{\"command\":\"configurationDone\",\"seq\":9,\"type\":\"request\"}",
    ),
    (
        "<",
        "{\"command\":\"configurationDone\",\"request_seq\":9,\"seq\":0,\"success\":true,\"type\":\"response\"}",
    ),
];

/// The frame of a first stop, a second stop, and the request for its frame.
const FIRST_FRAME: Line = (
    "<",
    "{\"body\":{\"stackFrames\":[{\"column\":1,\"id\":1000,\"line\":3,\"name\":\"f\"}]},\"command\":\"stackTrace\",\"request_seq\":2,\"seq\":3,\"success\":true,\"type\":\"response\"}",
);

const STOPPED_AGAIN: Line = (
    "<",
    "{\"body\":{\"reason\":\"step\"},\"event\":\"stopped\",\"seq\":4,\"type\":\"event\"}",
);

const STACK_TRACE_AGAIN: Line = (
    ">",
    "{\"arguments\":{\"threadId\":1},\"command\":\"stackTrace\",\"seq\":3,\"type\":\"request\"}",
);

/// A session with two stops. The frame of the second one has the id of the first one.
pub const STALE_FRAME: [Line; 8] = [
    INITIALIZE,
    INITIALIZE_RESPONSE,
    STOPPED,
    STACK_TRACE,
    FIRST_FRAME,
    STOPPED_AGAIN,
    STACK_TRACE_AGAIN,
    (
        "<",
        "{\"body\":{\"stackFrames\":[{\"column\":1,\"id\":1000,\"line\":3,\"name\":\"f\"}]},\"command\":\"stackTrace\",\"request_seq\":3,\"seq\":5,\"success\":true,\"type\":\"response\"}",
    ),
];

/// The same session with two stops. The frame of the second one has a new id.
pub const NEW_FRAME: [Line; 8] = [
    INITIALIZE,
    INITIALIZE_RESPONSE,
    STOPPED,
    STACK_TRACE,
    FIRST_FRAME,
    STOPPED_AGAIN,
    STACK_TRACE_AGAIN,
    (
        "<",
        "{\"body\":{\"stackFrames\":[{\"column\":1,\"id\":1002,\"line\":3,\"name\":\"f\"}]},\"command\":\"stackTrace\",\"request_seq\":3,\"seq\":5,\"success\":true,\"type\":\"response\"}",
    ),
];

fn message(alloc: Global, (marker, content): Line) -> Result<Message, MessageFault> {
    let side = if marker == ">" {
        Side::Client
    } else {
        Side::Adapter
    };
    match read_tree(alloc, content.as_bytes()) {
        Ok(tree) => typed(alloc, side, tree),
        Err(_) => Err(MessageFault::Memory),
    }
}

/// Returns the messages of a recording.
fn messages(rt: &impl Abort, alloc: Global, lines: &[Line]) -> Vec<Message> {
    let mut messages = Vec::new(alloc);
    for line in lines {
        let message = message(alloc, *line).expect(rt, "no message");
        messages.push(message).expect(rt, "no memory");
    }
    messages
}

/// Returns the result of `compare`. Has no contract, to make the tests cheap to prove.
fn verdict_on(alloc: Global, a: &[u8], b: &[u8], mode: Mode) -> Result<Verdict, CompareRefused> {
    let (mut a, mut b) = (MemorySource::new(a), MemorySource::new(b));
    compare(alloc, &mut a, &mut b, LIMITS, mode)
}

/// Checks that a renaming maps the messages of the first recording to those of the second.
fn are_carried(rt: &impl Abort, alloc: Global, (a, b, mode): (&[Line], &[Line], Mode)) {
    let bytes_a = recording(rt, alloc, a);
    let bytes_b = recording(rt, alloc, b);
    let outcome = verdict_on(alloc, bytes_a.as_slice(), bytes_b.as_slice(), mode);
    let from = messages(rt, alloc, a);
    let to = messages(rt, alloc, b);
    match outcome {
        Ok(Verdict::Same(renaming)) => {
            assert!(rt; renaming.carries(from.as_slice(), to.as_slice(), mode))
        }
        _ => assert!(rt; false, "not the same"),
    }
}

#[test]
fn same_recordings_are_carried_by_their_renaming(rt: HostRuntime) {
    are_carried(&rt, rt.alloc(), (&FRAMES, &EXCHANGED, Mode::Whole));
    are_carried(&rt, rt.alloc(), (&[], &[], Mode::Whole));
    are_carried(&rt, rt.alloc(), (&UNNUMBERED, &UNNUMBERED, Mode::Whole));
}

#[test]
fn frames_of_two_stops_are_carried_stop_by_stop(rt: HostRuntime) {
    let there = (STALE_FRAME.as_slice(), NEW_FRAME.as_slice(), Mode::PerStop);
    are_carried(&rt, rt.alloc(), there);
    let back = (NEW_FRAME.as_slice(), STALE_FRAME.as_slice(), Mode::PerStop);
    are_carried(&rt, rt.alloc(), back);
}
