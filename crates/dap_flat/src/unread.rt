//! Why a content, or the nodes of one, were not read as a flat document.
ghost use Rattle.std.specs.Prelude.{◌≡◌};

use json::Invalid;
use std::alloc::{AllocError, AllocFailed};

/// The error of the calls that do not allocate: the content has to be read as a tree.
///
/// It may not be JSON, it may have a number that is not an integer or two members with one name, or
/// its members may be expensive to put in order. Calls on nodes return it if the nodes do not
/// represent a document.
#[derive(Clone, Copy, Drop)]
pub struct Unclear;

/// Why a content was not read as a flat document.
#[derive(Clone, Copy, Drop)]
pub enum Unread {
    /// An allocation failed.
    Memory,
    /// The content has to be read as a tree: see the type [`Unclear`](struct@Unclear).
    Unclear,
}

impl From<AllocError> for Unread {
    ghost use Rattle.dap_flat.specs.declared.unread.Unread.TheVariants.{Memory};

    ghost from_gives = { λ _ cause. cause ≡ Memory };

    fn from(_: AllocError) -> Unread {
        Unread::Memory
    }
}

impl<T: Drop> From<AllocFailed<T>> for Unread {
    ghost use Rattle.dap_flat.specs.declared.unread.Unread.TheVariants.{Memory};

    ghost from_gives = { λ _ cause. cause ≡ Memory };

    fn from(_: AllocFailed<T>) -> Unread {
        Unread::Memory
    }
}

impl From<Invalid> for Unread {
    ghost use Rattle.dap_flat.specs.declared.unread.Unread.TheVariants.{Unclear as unclear};

    ghost from_gives = { λ _ cause. cause ≡ unclear };

    fn from(_: Invalid) -> Unread {
        Unread::Unclear
    }
}

impl From<Unclear> for Unread {
    ghost use Rattle.dap_flat.specs.declared.unread.Unread.TheVariants.{Unclear as unclear};

    ghost from_gives = { λ _ cause. cause ≡ unclear };

    fn from(_: Unclear) -> Unread {
        Unread::Unclear
    }
}
