//! The content of a frame.
ghost use Rattle.std.specs.Prelude.{◌≡◌, []};

use std::marker::Model;

/// The content of a frame: arbitrary bytes. Contracts see it as the list of its bytes.
#[derive(Debug, Drop)]
pub struct Content {
    bytes: Vec<u8>,
}

impl Model for Content {
    ghost use Rattle.std.specs.Prelude.{ℕ, List};

    ghost Value = { List ℕ };

    ghost view = { λ a. a.bytes.items };
}

impl Content {
    pub(crate) fn from_vec(bytes: Vec<u8>) -> Content
        ensures { result ≡ bytes.items }
    {
        Content { bytes }
    }

    /// Returns the buffer, empty.
    pub(crate) fn into_room(self) -> Vec<u8>
        ensures { result.items ≡ [] }
    {
        let mut bytes = self.bytes;
        bytes.clear();
        bytes
    }

    /// Returns the bytes, in the order of the stream. Does not allocate.
    pub fn as_slice(&self) -> &[u8]
        ensures { result.now ≡ self.now }
    {
        self.bytes.as_slice()
    }
}
