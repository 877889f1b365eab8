//! Tests name tables, whose `find` no command calls.
use dap_rename::{IndexNames, NameTable, PlainNames};
use std::hash::{BuildHasherDefault, FoldHasher};
use std::process::Abort;

/// Returns a distinct id for each index: unordered, and with both signs.
fn scattered(index: u32) -> i64 {
    (index as i64 * 7919) % 100_003 - 50_000
}

/// Interns `count` scattered ids in an empty table with room for them, and looks them up.
fn names_and_finds<T: NameTable>(rt: &impl Abort, table: &mut T, count: u32) {
    for index in 0..count {
        assert!(rt; table.name(scattered(index)) == Ok(index as i64 + 1));
    }
    for index in 0..count {
        assert!(rt; table.find(scattered(index)) == Some(index as i64 + 1));
    }
}

/// Truncates a table to its first ten ids, and looks up `count` scattered ids.
fn keeps_ten<T: NameTable>(rt: &impl Abort, table: &mut T, count: u32) {
    assert!(rt; 10 <= table.len());
    table.cut(10);
    for index in 0..count {
        assert!(rt; table.find(scattered(index)).is_some() == (index < 10));
    }
}

#[test]
fn ids_of_a_plain_table(rt: HostRuntime) {
    let mut table = PlainNames::new(rt.alloc(), 40);
    names_and_finds(&rt, &mut table, 40);
    keeps_ten(&rt, &mut table, 40);
}

#[test]
fn ids_of_an_index(rt: HostRuntime) {
    let hasher: BuildHasherDefault<FoldHasher> = BuildHasherDefault::new();
    let mut table = IndexNames::new(rt.alloc(), 1_000, hasher);
    names_and_finds(&rt, &mut table, 1_000);
    keeps_ten(&rt, &mut table, 1_000);
}
