//! Whether two outputs are the normal forms of recordings that are the same.
ghost use Rattle.std.specs.Prelude.{◌≡◌, ◌↔◌, List, ℕ, true};
ghost use Rattle.dap_rename.specs.{Messages.AreSame, Modes.stop_in};
ghost use Rattle.dap_input.specs.Limits.{AreSound};
ghost use Rattle.dap_normalise.specs.{HeldMessages.HoldTheSame, Normalising.Normalises};

use crate::normalised::Normalised;
use dap_input::Limits;
use dap_rename::Mode;

impl Normalised {
    /// Returns whether some renaming maps the messages of the first output to those of the second.
    /// Compares the bytes of the outputs. Both must have the same mode. Does not allocate.
    pub fn same(&self, other: &Normalised) -> bool
        requires mode { self.now.mode ≡ other.now.mode }

        // The result is true if and only if the outputs represent messages that are the same up to
        // a renaming.
        ensures holds { (result ≡ true) ↔ HoldTheSame self.now other.now }

        // The same for the outputs of any two recordings that are accepted under the same limits
        // and in the same mode.
        ensures recordings { (limits : Limits) (mode : Mode) → AreSound limits
            → (bytes others : List ℕ) (a : Normalises limits mode bytes self.now.bytes)
            (b : Normalises limits mode others other.now.bytes)
            → (result ≡ true) ↔ AreSame (stop_in mode) a.messages b.messages }
    {
        self.bytes() == other.bytes()
    }
}
