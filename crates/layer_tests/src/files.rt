//! Tests replacements of files in memory, in which each call fails in turn.
ghost use Rattle.std.specs.Prelude.{◌≡◌, ◌<◌, ◌^◌, None};

use dap_device::{CachedFile, MemoryFile, ReplaceFault, Replaceable, Step, replace};
use std::alloc::Global;

const OLD: &[u8] = b"old";

const NEW: &[u8] = b"the new";

/// A replacement in which some calls fail: the first one and the one after the last one, by their
/// numbers, the outcome, and the content after it.
type Replaced = (u64, u64, Result<(), ReplaceFault>, &'static [u8]);

macro_rules! fault {
    ($step:ident, $is_left:literal) => {
        Err(ReplaceFault {
            step: Step::$step,
            is_left: $is_left,
        })
    };
}

/// A write appends at most three bytes, so the replacement makes seven calls.
const REPLACED: [Replaced; 9] = [
    (0, 0, Ok(()), NEW),
    (0, 1, fault!(Create, false), OLD),
    (1, 2, fault!(Write, false), OLD),
    (3, 4, fault!(Write, false), OLD),
    (4, 5, fault!(Sync, false), OLD),
    (5, 6, fault!(Rename, false), OLD),
    (6, 7, fault!(SyncFolder, false), NEW),
    // The removal of the temporary file is the next call, and fails too.
    (1, 3, fault!(Write, true), OLD),
    (5, 7, fault!(Rename, true), OLD),
];

/// Returns whether a replacement has this outcome, and leaves this content and a temporary file only
/// if the outcome says so.
fn replaces(file: &mut MemoryFile, outcome: Result<(), ReplaceFault>, content: &[u8]) -> bool
    requires few { file.old.failures < 2 ^ 62 }
    requires none { file.old.temporary ≡ None }
{
    let is_left = matches!(outcome, Err(fault) if fault.is_left);
    replace(file, NEW) == outcome
        && file.content() == Some(content)
        && file.temporary().is_some() == is_left
}

/// Returns whether a read has this result.
fn reads(alloc: Global, file: &mut MemoryFile, content: &[u8]) -> bool
    requires { file.old.failures < 2 ^ 63 }
{
    matches!(file.read(alloc, 7), Ok(Some(found)) if found.as_slice() == content)
}

#[test]
fn each_call_fails_in_turn(rt: HostRuntime) {
    for (first, end, outcome, content) in &REPLACED {
        let old = OLD.to_vec(rt.alloc()).expect(&rt, "no memory");
        let mut file = MemoryFile::new(rt.alloc(), Some(old), *first..*end, 3);
        assert!(rt; replaces(&mut file, *outcome, content));
    }
}

#[test]
fn a_file_is_read(rt: HostRuntime) {
    let old = OLD.to_vec(rt.alloc()).expect(&rt, "no memory");
    let mut file = MemoryFile::new(rt.alloc(), Some(old), 0..0, 3);
    assert!(rt; reads(rt.alloc(), &mut file, OLD));
}

/// Replacements of a file that loses what is not synced, in which one call fails: its number, and
/// whether a crash afterwards may leave the old content, or the new one.
const CRASHED: [(u64, bool, bool); 4] = [
    (0, true, false),
    (5, true, false),
    (6, true, true),
    (7, false, true),
];

/// Returns whether a replacement succeeds, and a crash after it may leave these contents and no
/// other one.
fn may_leave(file: &mut CachedFile, succeeds: bool, old: bool, new: bool) -> bool
    requires few { file.old.failures < 2 ^ 62 }
    requires none { file.old.temporary.content ≡ None }
{
    replace(file, NEW).is_ok() == succeeds
        && file.may_leave(Some(OLD)) == old
        && file.may_leave(Some(NEW)) == new
        && !file.may_leave(Some(b"the"))
        && !file.may_leave(None)
}

#[test]
fn a_crash_loses_what_is_not_synced(rt: HostRuntime) {
    for (number, old, new) in &CRASHED {
        let content = OLD.to_vec(rt.alloc()).expect(&rt, "no memory");
        let failing = *number..number.saturating_add(1);
        let mut file = CachedFile::new(rt.alloc(), Some(content), failing, 3);
        assert!(rt; may_leave(&mut file, *number == 7, *old, *new));
    }
}
