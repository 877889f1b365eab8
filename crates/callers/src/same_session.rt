//! Compares two recordings through their normal forms.
ghost use Rattle.std.specs.Prelude.{IfErr, IfOk};
ghost use Rattle.dap_input.specs.Limits.{AreSound};
ghost use Rattle.callers.specs.Compared.{AreCompared, IsOfOne};

use dapnorm::{Limits, Mode, Refused, normalise_bytes};
use std::alloc::Global;

/// Returns whether two recordings are of the same session, ignoring ids.
///
/// # Errors
///
/// - The first error of one of the recordings, if it is rejected.
/// - `Memory`: an allocation failed.
pub fn are_same(
    alloc: Global,
    a: &[u8],
    b: &[u8],
    limits: Limits,
    mode: Mode,
) -> Result<bool, Refused>
    requires { AreSound limits }

    // True if and only if a renaming of ids maps the messages of `a` to those of `b`.
    ensures reported { IfOk result (AreCompared limits mode a.now b.now) }
    ensures refused { IfErr result (IsOfOne limits mode a.now b.now) }
{
    let a = normalise_bytes(alloc, a, limits, mode)?;
    let b = normalise_bytes(alloc, b, limits, mode)?;
    Ok(a.same(&b))
}
