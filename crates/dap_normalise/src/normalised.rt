//! The output of normalising a recording.
ghost use Rattle.std.specs.Prelude.{◌≡◌};

use dap_rename::Mode;
use std::marker::Model;

/// The text of the normal form of some messages, each of which is typed from some content, and the
/// mode of its canonical numbers.
#[derive(Drop)]
pub struct Normalised {
    mode: Mode,
    bytes: Vec<u8>,
}

impl Model for Normalised {
    ghost use Rattle.dap_normalise.specs.Normalised.{HoldsSome, NormalText};

    ghost Value = { NormalText };

    ghost view = { λ n. record { mode = n.mode; bytes = n.bytes.items } };

    ghost invariant = { λ n. HoldsSome (record { mode = n.mode; bytes = n.bytes.items }) };
}

impl Normalised {
    ghost use Rattle.dap_normalise.specs.Normalised.{HoldsSome};

    pub(crate) fn new(mode: Mode, bytes: Vec<u8>) -> Normalised
        requires { HoldsSome (record { mode = mode; bytes = bytes.items }) }
        ensures { result ≡ record { mode = mode; bytes = bytes.items } }
    {
        Normalised { mode, bytes }
    }

    /// Returns the mode, which decides when canonical numbers restart. Does not allocate.
    pub fn mode(&self) -> Mode
        ensures { result ≡ self.now.mode }
    {
        self.mode
    }

    /// Returns the text. Does not allocate.
    pub fn bytes(&self) -> &[u8]
        ensures same { result.now ≡ self.now.bytes }
        ensures holds { HoldsSome self.now }
    {
        self.bytes.as_slice()
    }
}
