//! Reasons why a value did not get a number.
ghost use Rattle.std.specs.Prelude.{◌≡◌};

use std::alloc::AllocError;
use thiserror::Error;

/// Why a value was not given a number.
#[derive(Clone, Copy, Debug, PartialEq, Eq, Drop, Error)]
pub enum NamingFault {
    /// The label already has as many values as the limit.
    #[error("Full")]
    Full,
    /// An allocation failed.
    #[error("Memory")]
    Memory,
}

impl From<AllocError> for NamingFault {
    ghost use Rattle.dap_naming.specs.declared.fault.NamingFault.TheVariants.{Memory};

    ghost from_gives = { λ _ f. f ≡ Memory };

    fn from(_: AllocError) -> NamingFault {
        NamingFault::Memory
    }
}
