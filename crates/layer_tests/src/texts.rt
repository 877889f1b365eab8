//! Tests the messages of errors that no command prints and no contract states.
use dap_rename::{NameFault, PairFault};
use dap_session::{Rule, SessionFault};
use dap_tree::TreeFault;
use std::alloc::Global;
use std::fmt::Display;

/// Returns whether the value is printed as this text.
fn is_printed<D: Display>(alloc: Global, value: &D, text: &str) -> bool {
    matches!(format!(in alloc; "{value}"), Ok(printed) if printed.as_str() == text)
}

/// Returns whether each value is printed as its text.
fn are_printed<D: Display>(alloc: Global, rows: &[(D, &str)]) -> bool {
    for (value, text) in rows {
        if !is_printed(alloc, value, text) {
            return false;
        }
    }
    true
}

const OF_TREES: [(TreeFault, &str); 3] = [
    (TreeFault::Json, "Json"),
    (TreeFault::Fraction, "Fraction"),
    (TreeFault::Memory, "Memory"),
];

const OF_NAMES: [(NameFault, &str); 2] = [(NameFault::Full, "Full"), (NameFault::Memory, "Memory")];

const OF_PAIRS: [(PairFault, &str); 5] = [
    (PairFault::BadStop(4), "BadStop 4"),
    (PairFault::ZeroReference(1), "ZeroReference 1"),
    (PairFault::FromTwice(2), "FromTwice 2"),
    (PairFault::ToTwice(3), "ToTwice 3"),
    (PairFault::Memory, "Memory"),
];

const OF_SESSIONS: [(SessionFault, &str); 2] = [
    (SessionFault::Broken(Rule::SeqUsed), "SeqUsed"),
    (SessionFault::Memory, "Memory"),
];

#[test]
fn texts_of_errors(rt: HostRuntime) {
    assert!(rt; are_printed(rt.alloc(), &OF_TREES));
    assert!(rt; are_printed(rt.alloc(), &OF_NAMES));
    assert!(rt; are_printed(rt.alloc(), &OF_PAIRS));
    assert!(rt; are_printed(rt.alloc(), &OF_SESSIONS));
}
