//! Lets a test make an allocation fail.
//!
//! The test passes its request in the size of an allocation. The shim built from
//! tests/program/fault_injection.c, which is loaded before the C library, recognises the size and
//! makes the requested allocation fail. The normal allocator does not recognise it. Therefore the
//! same test also passes without the shim: no allocation fails, and the test makes one turn.
#![tactic(auto)]

use std::alloc::Global;

/// An allocation of `ASK + n` bytes requests that the n-th allocation after it fails.
const ASK: usize = 0x5eed_0000;

/// An allocation of `TELL` bytes fails if the requested failure has occurred.
const TELL: usize = 0x5eed_ffff;

/// Requests that the `turn`-th allocation from here on fails, counted from 1.
pub fn refuse_growth(alloc: Global, turn: u16) {
    let _ = Vec::<u8>::with_capacity(alloc, ASK + usize::from(turn));
}

/// Returns whether the requested failure has occurred, and cancels the request if it has not.
pub fn was_refused(alloc: Global) -> bool {
    Vec::<u8>::with_capacity(alloc, TELL).is_err()
}
