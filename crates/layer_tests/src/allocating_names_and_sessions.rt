//! Makes each allocation of a name table, of names at a stop and of a session fail in turn. The same
//! call then succeeds.
use crate::examples::{Line, SCOPES, THREADS, message};
use dap_rename::{IndexNames, Mode, NameFault, NameTable, Names, index_tables};
use dap_session::{Session, SessionFault};
use dap_tree::Side::{Adapter, Client};
use dap_tree::Sort;
use fault_injection::{refuse_growth, was_refused};
use std::alloc::Global;
use std::hash::{BuildHasherDefault, FoldHasher};
use std::process::Abort;

/// A name table over an index with its default hasher.
type IndexTable = IndexNames<BuildHasherDefault<FoldHasher>>;

/// Interns a new id, and again if an allocation failed. Returns whether an allocation failed.
fn names_one(rt: &impl Abort, alloc: Global, table: &mut IndexTable, index: u16) -> bool {
    let wanted = Ok(index as i64 + 1);
    let outcome = table.name(index as i64);
    let is_refused = outcome == Err(NameFault::Memory) && was_refused(alloc);
    assert!(rt; is_refused || outcome == wanted);
    assert!(rt; table.name(index as i64) == wanted);
    is_refused
}

/// Interns forty ids while allocation `turn` fails. Returns whether it failed.
fn names_all(rt: &impl Abort, alloc: Global, table: &mut IndexTable, turn: u16) -> bool {
    let mut is_refused = false;
    refuse_growth(alloc, turn);
    for index in 0..40u16 {
        is_refused |= names_one(rt, alloc, table, index);
    }
    // `was_refused` ends the request, so it is called last.
    is_refused || was_refused(alloc)
}

#[test]
fn tables_are_refused_in_turn(rt: HostRuntime) {
    for turn in 1..1_000u16 {
        let mut table = IndexNames::new(rt.alloc(), 40, BuildHasherDefault::new());
        if !names_all(&rt, rt.alloc(), &mut table, turn) {
            break;
        }
    }
}

/// An event after which the numbering restarts.
const STOPPED: Line = (
    Adapter,
    "{\"body\":{\"reason\":\"step\"},\"event\":\"stopped\",\"seq\":2,\"type\":\"event\"}",
);

/// Returns whether one frame was numbered before the only stop, and none after it.
fn have_stopped(names: &Names<IndexTable>) -> bool {
    names.stops() == 1 && names.len(Sort::Frame) == 0 && names.len_at(Sort::Frame, 0) == 1
}

/// Names the ids of a message while allocation `turn` fails, and again if it failed. Returns whether
/// it failed.
fn names_ids(
    rt: &impl Abort,
    alloc: Global,
    names: &mut Names<IndexTable>,
    line: Line,
    turn: u16,
) -> bool {
    let message = message(rt, alloc, line);
    refuse_growth(alloc, turn);
    let fault = names.name_message(&message).err();
    let is_refused = was_refused(alloc);
    if fault.is_some() {
        assert!(rt; fault == Some(NameFault::Memory) && is_refused);
        assert!(rt; names.name_message(&message).is_ok());
    }
    is_refused
}

#[test]
fn stops_are_refused_in_turn(rt: HostRuntime) {
    for turn in 1..1_000u16 {
        let mut names = Names::new(rt.alloc(), index_tables(rt.alloc(), 9), Mode::PerStop);
        let is_refused = names_ids(&rt, rt.alloc(), &mut names, SCOPES, turn)
            | names_ids(&rt, rt.alloc(), &mut names, STOPPED, turn);
        assert!(rt; have_stopped(&names));
        if !is_refused {
            break;
        }
    }
}

/// The messages of a session.
const LINES: [Line; 4] = [
    (
        Client,
        "{\"arguments\":{\"adapterID\":\"a\"},\"command\":\"initialize\",\"seq\":1,\"type\":\"request\"}",
    ),
    (
        Adapter,
        "{\"command\":\"initialize\",\"request_seq\":1,\"seq\":1,\"success\":true,\"type\":\"response\"}",
    ),
    THREADS,
    SCOPES,
];

/// Accepts a message while allocation `turn` fails, and again if it failed. Returns whether it
/// failed.
fn accepts(rt: &impl Abort, alloc: Global, session: &mut Session, line: Line, turn: u16) -> bool {
    let message = message(rt, alloc, line);
    refuse_growth(alloc, turn);
    let outcome = session.accept(&message);
    let is_refused = was_refused(alloc);
    if outcome != Ok(()) {
        assert!(rt; outcome == Err(SessionFault::Memory) && is_refused);
        assert!(rt; session.accept(&message) == Ok(()));
    }
    is_refused
}

/// Accepts the messages while allocation `turn` of each call fails. Returns whether one failed.
fn accepts_all(rt: &impl Abort, alloc: Global, turn: u16) -> bool {
    let mut session = Session::new(alloc);
    let mut is_refused = false;
    for line in &LINES {
        is_refused |= accepts(rt, alloc, &mut session, *line, turn);
    }
    assert!(rt; session.open(Client) == 2);
    is_refused
}

#[test]
fn sessions_are_refused_in_turn(rt: HostRuntime) {
    for turn in 1..1_000u16 {
        if !accepts_all(&rt, rt.alloc(), turn) {
            break;
        }
    }
}
