//! Assertions for calls in which an allocation may have failed: the result is the same as without a
//! failure, or the error for a failed allocation, and nothing else.
use crate::devices::TestSink;
use crate::recordings::{Line, recording};
use std::alloc::Global;
use std::process::Abort;

/// Asserts that an allocation failed in this turn.
pub fn was_wanted(rt: &impl Abort, is_refused: bool, turn: u16) {
    assert!(rt; is_refused, "memory was there at turn {turn}");
}

/// Returns whether the records of some leading lines were written and not flushed.
pub fn has_leading_records(
    rt: &impl Abort,
    alloc: Global,
    sink: &TestSink,
    written: &[Line],
) -> bool {
    for count in 0..=written.len() {
        if sink.bytes() == recording(rt, alloc, &written[..count]).as_slice() {
            return sink.flushes == 0;
        }
    }
    false
}
