//! Tests the golden text of a session of one event, written as a trace, a recording and a golden
//! file.
use dap_frame::FrameLimits;
use dapnorm::{
    GoldenRefused, GoldenText, GoldenVerdict, Limits, Mode, Refused, compare_golden, golden_text,
};
use std::alloc::Global;

const LIMITS: Limits = Limits {
    frame: FrameLimits {
        header: 64,
        content: 1000,
    },
    ids: 100,
    input: 10_000,
};

/// The event in two pieces of a trace.
const TRACE: &[u8] =
    b"<20\nContent-Length: 64\r\n<66\n\r\n{\"body\":{\"output\":\"hi\"},\"event\":\"output\",\"seq\":5,\"type\":\"event\"}";

/// The event with another sequence number, and with its members in another order.
const RECORDING: &[u8] =
    b"<Content-Length: 64\r\n\r\n{\"seq\":7,\"type\":\"event\",\"event\":\"output\",\"body\":{\"output\":\"hi\"}}\n";

/// The event in the golden file.
const GOLDEN: &[u8] =
    b"<Content-Length: 64\r\n\r\n{\"body\":{\"output\":\"hi\"},\"event\":\"output\",\"seq\":1,\"type\":\"event\"}\n";

/// Another event.
const OTHER: &[u8] =
    b"<Content-Length: 64\r\n\r\n{\"body\":{\"output\":\"ho\"},\"event\":\"output\",\"seq\":1,\"type\":\"event\"}\n";

/// A request without a response.
const REQUEST: &[u8] =
    b">Content-Length: 82\r\n\r\n{\"arguments\":{\"adapterID\":\"mock\"},\"command\":\"initialize\",\"seq\":1,\"type\":\"request\"}\n";

fn golden(alloc: Global, input: &[u8]) -> Result<GoldenText, GoldenRefused> {
    match Vec::from_slice(alloc, input) {
        Ok(input) => golden_text(alloc, input, None, false, LIMITS, Mode::Whole),
        Err(_) => Err(GoldenRefused::Memory),
    }
}

/// Returns whether the input has this golden text, of one record.
fn has_golden(alloc: Global, input: &[u8]) -> bool {
    match golden(alloc, input) {
        Ok(text) => text.records == 1 && text.bytes.as_slice() == GOLDEN,
        Err(_) => false,
    }
}

/// Returns why the input has no golden text.
fn refused(alloc: Global, input: &[u8]) -> Option<GoldenRefused> {
    golden(alloc, input).err()
}

#[test]
fn trace_and_recording_have_one_golden_text(rt: HostRuntime) {
    assert!(rt; has_golden(rt.alloc(), TRACE));
    assert!(rt; has_golden(rt.alloc(), RECORDING));
    assert!(rt; has_golden(rt.alloc(), GOLDEN));
}

#[test]
fn inputs_without_a_golden_text(rt: HostRuntime) {
    let open = GoldenRefused::Session(Refused::Incomplete(1, 0));
    assert_eq!(rt; refused(rt.alloc(), b""), Some(GoldenRefused::NoRecords));
    assert_eq!(rt; refused(rt.alloc(), REQUEST), Some(open));
}

/// Compares a golden file with the golden text of the trace.
fn compared(alloc: Global, file: &[u8]) -> Option<GoldenVerdict> {
    let trace = Vec::from_slice(alloc, TRACE).ok()?;
    match golden_text(alloc, trace, None, false, LIMITS, Mode::Whole) {
        Ok(text) => compare_golden(alloc, file, &text, LIMITS, Mode::Whole).ok(),
        Err(_) => None,
    }
}

/// The lines if the golden file contains the other event.
const LINES: &[u8] = b"< event \"output\"\nA body.output \"ho\"\nB body.output \"hi\"\n";

/// Returns whether the golden file differs in the first record, with these lines.
fn differs(alloc: Global, file: &[u8]) -> bool {
    match compared(alloc, file) {
        Some(GoldenVerdict::Differs { record, lines }) => record == 1 && lines.as_slice() == LINES,
        _ => false,
    }
}

#[test]
fn golden_files_compare(rt: HostRuntime) {
    let same = compared(rt.alloc(), GOLDEN);
    let not_normal = compared(rt.alloc(), RECORDING);
    assert!(rt; matches!(same, Some(GoldenVerdict::Same)));
    assert!(rt; matches!(not_normal, Some(GoldenVerdict::NotNormal)));
    assert!(rt; differs(rt.alloc(), OTHER));
}
