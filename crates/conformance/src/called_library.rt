//! Runs the examples of the crate `callers`.
use crate::comparing::{EXCHANGED, FRAMES, NEW_FRAME, STALE_FRAME};
use crate::examples::LIMITS;
use crate::recordings::{ANSWERED_TWICE, CONFIGURED, Line, recording};
use callers::{are_same, holds_to, judge, make_golden, tell_frames, write_and_read};
use dap_frame::{FrameFault, FrameLimits};
use dapnorm::{MemorySink, Mode, Refused, Rule};
use std::alloc::Global;
use std::process::Abort;

/// Two recordings, the mode, and whether they are of the same session.
const PAIRS: [(&[Line], &[Line], Mode, Result<bool, Refused>); 6] = [
    (&FRAMES, &EXCHANGED, Mode::Whole, Ok(true)),
    (&FRAMES, &CONFIGURED, Mode::Whole, Ok(false)),
    // The frame of a second stop has the id of the first one, or a new id.
    (&STALE_FRAME, &NEW_FRAME, Mode::Whole, Ok(false)),
    (&STALE_FRAME, &NEW_FRAME, Mode::PerStop, Ok(true)),
    (&[], &[], Mode::Whole, Ok(true)),
    (
        &FRAMES,
        &ANSWERED_TWICE,
        Mode::Whole,
        Err(Refused::Rule(3, Rule::AnsweredTwice)),
    ),
];

/// Returns whether a recording matches the golden file of another.
fn held(alloc: Global, recording: &[u8], later: &[u8], mode: Mode) -> Result<bool, Refused> {
    let Ok(mut file) = MemorySink::new(alloc, 8192) else {
        return Err(Refused::Memory);
    };
    make_golden(alloc, recording, &mut file, LIMITS, mode)?;
    holds_to(alloc, file.bytes(), later, LIMITS, mode)
}

#[test]
fn callers_tell_whether_sessions_are_the_same(rt: HostRuntime) {
    for (lines, others, mode, same) in &PAIRS {
        let a = recording(&rt, rt.alloc(), lines);
        let b = recording(&rt, rt.alloc(), others);
        let (a, b) = (a.as_slice(), b.as_slice());
        assert!(rt; are_same(rt.alloc(), a, b, LIMITS, *mode) == *same);
        assert!(rt; held(rt.alloc(), a, b, *mode) == *same);
    }
}

/// Returns the number of records and of unanswered client requests of a recording in three chunks,
/// of which the middle one is empty.
fn judged(alloc: Global, bytes: &[u8], at: usize, mode: Mode) -> Option<(u64, usize)> {
    let (front, rest) = bytes.split_at(at.min(bytes.len()));
    match judge(alloc, &[front, b"", rest], LIMITS, mode) {
        Ok(checked) => Some((checked.records, checked.client_open)),
        Err(_) => None,
    }
}

#[test]
fn callers_judge_what_comes_in_pieces(rt: HostRuntime) {
    let configured = recording(&rt, rt.alloc(), &CONFIGURED);
    let twice = recording(&rt, rt.alloc(), &ANSWERED_TWICE);
    for (at, mode) in [
        (0, Mode::Whole),
        (1, Mode::Whole),
        (120, Mode::PerStop),
        (473, Mode::Whole),
    ] {
        assert!(rt; judged(rt.alloc(), configured.as_slice(), at, mode) == Some((5, 0)));
        assert!(rt; judged(rt.alloc(), twice.as_slice(), at, mode) == None);
    }
}

/// Returns whether the frames of a content are a function `f` at line 3 and a function `g` at line
/// 9.
fn tells_both(alloc: Global, content: &[u8]) -> bool {
    match tell_frames(alloc, content) {
        Ok(places) => match places.as_slice() {
            [f, g] => f.function.as_str() == "f"
                && f.line == 3
                && g.function.as_str() == "g"
                && g.line == 9,
            _ => false,
        },
        Err(_) => false,
    }
}

/// Returns whether the content read back is the content written.
fn is_read_back(alloc: Global, content: &[u8]) -> bool {
    match write_and_read(alloc, content, LIMITS.frame) {
        Ok(read) => read.as_slice() == content,
        Err(_) => false,
    }
}

/// Limits for contents of at most three bytes.
const THREE_BYTES: FrameLimits = FrameLimits {
    header: 4096,
    content: 3,
};

/// Returns whether a content of four bytes is too long if three are allowed.
fn is_too_long(alloc: Global) -> bool {
    match write_and_read(alloc, b"four", THREE_BYTES) {
        Ok(_) => false,
        Err(fault) => fault == FrameFault::ContentTooLong,
    }
}

#[test]
fn callers_tell_frames_and_read_what_they_wrote(rt: HostRuntime) {
    let (_, content) = FRAMES[3];
    assert!(rt; tells_both(rt.alloc(), content.as_bytes()));
    assert!(rt; tell_frames(rt.alloc(), b"[]").is_err());
    assert!(rt; is_read_back(rt.alloc(), content.as_bytes()));
    assert!(rt; is_read_back(rt.alloc(), b""));
    assert!(rt; is_too_long(rt.alloc()));
}
