//! The error of reading, writing and copying trees.
ghost use Rattle.std.specs.Prelude.{◌≡◌};

use std::alloc::{AllocError, AllocFailed};
use thiserror::Error;

/// Why a tree could not be read, written or copied.
#[derive(Clone, Copy, Debug, PartialEq, Eq, Error)]
pub enum TreeFault {
    /// The content is not UTF-8 or not JSON, or nests more than 127 arrays and objects. This also
    /// means a number above the largest 64-bit float, such as `1e999`, or half of a character,
    /// such as `\ud800` alone.
    ///
    /// - Cause: another encoding, `NaN`, a comma too many, a string that was cut inside a
    ///   character.
    /// - Fix: fix the sender.
    #[error("Json")]
    Json,
    /// A number has a fraction or an exponent, is `-0`, or is an integer that does not fit 64 bits.
    ///
    /// - Cause: usually a time or a share in a member of the adapter's own, such as `statistics` in
    ///   the `terminated` event of lldb 16 and later.
    /// - Fix: remove it with a `blank` rule, or let the adapter leave it out or round it.
    #[error("Fraction")]
    Fraction,
    /// An allocation failed.
    #[error("Memory")]
    Memory,
}

impl From<AllocError> for TreeFault {
    ghost use Rattle.dap_tree.specs.declared.fault.TreeFault.TheVariants.{Memory};

    ghost from_gives = { λ _ f. f ≡ Memory };

    fn from(_: AllocError) -> TreeFault {
        TreeFault::Memory
    }
}

impl<T: Drop> From<AllocFailed<T>> for TreeFault {
    ghost use Rattle.dap_tree.specs.declared.fault.TreeFault.TheVariants.{Memory};

    ghost from_gives = { λ _ f. f ≡ Memory };

    fn from(_: AllocFailed<T>) -> TreeFault {
        TreeFault::Memory
    }
}
