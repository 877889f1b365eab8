//! Tests which pairs are a renaming, and which messages a renaming does not map.
use crate::examples::{Line, THREADS, message};
use dap_message::Message;
use dap_rename::{Mode, Pair, PairFault, Renaming};
use dap_tree::Side::{Adapter, Client};
use dap_tree::Sort;
use std::alloc::Global;
use std::process::Abort;
use std::slice;

macro_rules! pair {
    ($sort:ident, $stop:literal, $from:literal, $to:literal) => {
        Pair {
            sort: Sort::$sort,
            stop: $stop,
            from: $from,
            to: $to,
        }
    };
}

const FIRST: Pair = pair!(Frame, 0, 5, 6);

/// Pairs, and the error of the first pair that has one.
const RENAMINGS: [(&[Pair], Option<PairFault>); 8] = [
    (&[], None),
    (
        &[FIRST, pair!(Frame, 0, 6, 5), pair!(Reference, 0, 5, 6)],
        None,
    ),
    (
        &[FIRST, pair!(Frame, 1, 5, 6), pair!(ClientSeq, 0, 0, 0)],
        None,
    ),
    (&[FIRST, FIRST], Some(PairFault::FromTwice(2))),
    (&[FIRST, pair!(Frame, 0, 7, 6)], Some(PairFault::ToTwice(2))),
    (
        &[pair!(Reference, 0, 0, 0)],
        Some(PairFault::ZeroReference(1)),
    ),
    (&[pair!(ClientSeq, 1, 1, 1)], Some(PairFault::BadStop(1))),
    (
        &[FIRST, pair!(Reference, 0, 1, 0), FIRST],
        Some(PairFault::ZeroReference(2)),
    ),
];

fn fault_of(alloc: Global, pairs: &[Pair]) -> Option<PairFault> {
    Renaming::new(alloc, pairs).err()
}

#[test]
fn pairs_that_are_a_renaming(rt: HostRuntime) {
    for (pairs, fault) in &RENAMINGS {
        assert!(rt; fault_of(rt.alloc(), pairs) == *fault);
    }
}

/// Lines, and whether `threads` is mapped to each of them if its 2 becomes 7.
const CARRIED: [(Line, bool); 4] = [
    (
        (
            Client,
            "{\"command\":\"threads\",\"seq\":7,\"type\":\"request\"}",
        ),
        true,
    ),
    (
        (
            Adapter,
            "{\"command\":\"threads\",\"seq\":7,\"type\":\"request\"}",
        ),
        false,
    ),
    (
        (
            Client,
            "{\"command\":\"threads\",\"seq\":7,\"type\":\"request\",\"x\":1}",
        ),
        false,
    ),
    (
        (
            Client,
            "{\"command\":\"launch\",\"seq\":7,\"type\":\"request\"}",
        ),
        false,
    ),
];

fn carries(rt: &impl Abort, alloc: Global, renaming: &Renaming, from: &Message, to: Line) -> bool {
    let to = message(rt, alloc, to);
    renaming.carries(slice::from_ref(from), slice::from_ref(&to), Mode::Whole)
}

#[test]
fn carried_only_where_all_else_is_equal(rt: HostRuntime) {
    let pairs = [pair!(ClientSeq, 0, 2, 7), pair!(AdapterSeq, 0, 2, 7)];
    let renaming = Renaming::new(rt.alloc(), &pairs).expect(&rt, "no renaming");
    let from = message(&rt, rt.alloc(), THREADS);
    for (line, is_carried) in &CARRIED {
        assert!(rt; carries(&rt, rt.alloc(), &renaming, &from, *line) == *is_carried);
    }
    assert!(rt; !renaming.carries(slice::from_ref(&from), &[], Mode::Whole));
}
