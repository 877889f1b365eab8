//! Tests masks over memory: each allocation fails in turn, including with rules that are used
//! again, and flushes fail.
//!
//! tests/program/fault_injection.py runs the tests on allocations under a shim in which allocations
//! fail. Without the shim each test makes one turn in which no allocation fails.
ghost use Rattle.std.specs.Prelude.{◌<◌, ◌^◌};

use crate::devices::TestSink;
use crate::examples::LIMITS;
use crate::growths::{has_leading_records, was_wanted};
use crate::recordings::{
    CONFIGURATION_DONE, CONFIGURATION_DONE_RESPONSE, CONFIGURED, INITIALIZE, INITIALIZE_RESPONSE,
    Line, STOPPED, recording,
};
use dapnorm::{
    MaskRules, MemorySource, RecordCause, Refused, RulesCause, RulesFault, Sink, Source, mask,
};
use fault_injection::{refuse_growth, was_refused};
use std::alloc::Global;
use std::process::Abort;

const RULES: &[u8] =
    b"# What changes from run to run.\nblank event stopped body.reason\ndrop event initialized\n";

/// Files of rules, and why one is rejected.
const FILES: [(&[u8], Option<RulesFault>); 3] = [
    (RULES, None),
    (
        b"drop event *\ndrop event *\n",
        Some(RulesFault {
            line: 2,
            cause: RulesCause::Repeated,
        }),
    ),
    (
        b"\nblank request * seq\n",
        Some(RulesFault {
            line: 2,
            cause: RulesCause::BadPlace,
        }),
    ),
];

/// Returns why a file is rejected.
fn fault_of(alloc: Global, text: &[u8]) -> Option<RulesFault> {
    MaskRules::read(alloc, text).err()
}

fn wants_memory(fault: Option<RulesFault>) -> bool {
    match fault {
        Some(fault) => fault.cause == RulesCause::Memory,
        None => false,
    }
}

/// Checks why the file is rejected while allocation `turn` fails, and again without a failure.
/// Returns whether it failed.
fn reads_turn(
    rt: &impl Abort,
    alloc: Global,
    (text, wanted): (&[u8], Option<RulesFault>),
    turn: u16,
) -> bool {
    refuse_growth(alloc, turn);
    let found = fault_of(alloc, text);
    let is_refused = was_refused(alloc);
    if wants_memory(found) {
        was_wanted(rt, is_refused, turn);
    } else {
        assert!(rt; found == wanted);
    }
    assert!(rt; fault_of(alloc, text) == wanted);
    is_refused
}

#[test]
fn rules_are_refused_in_turn(rt: HostRuntime) {
    for (text, wanted) in &FILES {
        for turn in 1..1_000u16 {
            if !reads_turn(&rt, rt.alloc(), (text, *wanted), turn) {
                break;
            }
        }
    }
}

/// Returns the result of `mask`.
fn masked<R: Source, W: Sink>(
    alloc: Global,
    rules: &MaskRules,
    reader: &mut R,
    writer: &mut W,
) -> Result<(), Refused>
    requires given { R.given reader.old < 2 ^ 62 }
    requires read_failures { R.failures reader.old < 2 ^ 62 }
    requires write_failures { W.failures writer.old < 2 ^ 62 }
{
    mask(alloc, rules, reader, writer, LIMITS)
}

/// Lines, the bytes after them, the result, and the masked lines.
type Masked = (
    &'static [Line],
    &'static [u8],
    Result<(), Refused>,
    &'static [Line],
);

/// A `stopped` event whose reason is blanked.
const BLANKED: Line = (
    "<",
    "{\"body\":{\"reason\":\"\"},\"event\":\"stopped\",\"seq\":2,\"type\":\"event\"}",
);

const MASKED: [Masked; 4] = [
    (&[], b"", Ok(()), &[]),
    (
        &CONFIGURED,
        b"",
        Ok(()),
        &[
            INITIALIZE,
            INITIALIZE_RESPONSE,
            CONFIGURATION_DONE,
            CONFIGURATION_DONE_RESPONSE,
        ],
    ),
    (
        &[STOPPED, INITIALIZE],
        b"!",
        Err(Refused::Record(3, RecordCause::BadMarker)),
        &[BLANKED, INITIALIZE],
    ),
    (
        &[STOPPED],
        b">Content-Length: 3\r\n\r\n1.5\n",
        Err(Refused::Fraction(2)),
        &[BLANKED],
    ),
];

fn input_of(rt: &impl Abort, alloc: Global, lines: &[Line], rest: &[u8]) -> Vec<u8> {
    let mut input = recording(rt, alloc, lines);
    input.extend_from_slice(rest).expect(rt, "no memory");
    input
}

/// Checks the result, the masked lines and a single flush. If an allocation failed, checks for some
/// leading records and no flush.
fn is_answer(
    rt: &impl Abort,
    alloc: Global,
    (outcome, sink): (Result<(), Refused>, &TestSink),
    (wanted, left): (Result<(), Refused>, &[Line]),
    (is_refused, turn): (bool, u16),
) {
    if outcome == Err(Refused::Memory) {
        was_wanted(rt, is_refused, turn);
        assert!(rt; has_leading_records(rt, alloc, sink, left));
    } else {
        assert!(rt; outcome == wanted);
        assert!(rt; sink.bytes() == recording(rt, alloc, left).as_slice());
        assert!(rt; sink.flushes == 1);
    }
}

/// Checks the masked recording while allocation `turn` fails. Returns whether it failed.
fn masks_turn(
    rt: &impl Abort,
    alloc: Global,
    (rules, input): (&MaskRules, &[u8]),
    wanted: (Result<(), Refused>, &[Line]),
    turn: u16,
) -> bool {
    let mut reader = MemorySource::new(input);
    let mut sink = TestSink::new(alloc, false).expect(rt, "no memory");
    refuse_growth(alloc, turn);
    let outcome = masked(alloc, rules, &mut reader, &mut sink);
    let is_refused = was_refused(alloc);
    is_answer(rt, alloc, (outcome, &sink), wanted, (is_refused, turn));
    is_refused
}

#[test]
fn mask_is_refused_in_turn(rt: HostRuntime) {
    let alloc = rt.alloc();
    let rules = MaskRules::read(alloc, RULES).ok().expect(&rt, "no rules");
    for (lines, rest, wanted, left) in &MASKED {
        let input = input_of(&rt, alloc, lines, rest);
        // The same rules are used in each turn, including the last one without a failure.
        for turn in 1..10_000u16 {
            let run = (&rules, input.as_slice());
            if !masks_turn(&rt, alloc, run, (*wanted, left), turn) {
                break;
            }
        }
    }
}

/// Checks that all masked records are written and `WriteFault` is returned if the flush fails.
fn fails_to_flush(rt: &impl Abort, alloc: Global, rules: &MaskRules, input: &[u8], left: &[Line]) {
    let mut sink = TestSink::new(alloc, true).expect(rt, "no memory");
    let outcome = masked(alloc, rules, &mut MemorySource::new(input), &mut sink);
    assert!(rt; outcome == Err(Refused::WriteFault));
    assert!(rt; sink.bytes() == recording(rt, alloc, left).as_slice());
}

#[test]
fn a_flush_that_fails_comes_before_any_other_answer(rt: HostRuntime) {
    let alloc = rt.alloc();
    let rules = MaskRules::read(alloc, RULES).ok().expect(&rt, "no rules");
    for (lines, rest, _, left) in &MASKED {
        let input = input_of(&rt, alloc, lines, rest);
        fails_to_flush(&rt, alloc, &rules, input.as_slice(), left);
    }
}
