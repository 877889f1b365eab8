//! The two sides of a session.
use std::fmt;

/// The two sides of a session. Each sends messages to the other.
#[derive(Clone, Copy, Debug, PartialEq, Eq)]
pub enum Side {
    /// The development tool, such as an editor, which starts the session.
    Client,
    /// The debug adapter, which acts for the debugger.
    Adapter,
}

impl fmt::Display for Side {
    ghost use Rattle.std.specs.Prelude.{Some};
    ghost use Rattle.dap_tree.specs.Side.{side_text};

    ghost output = { λ side. Some (side_text side) };

    fn fmt<W: fmt::Write>(&self, f: &mut fmt::Formatter<W>) -> fmt::Result {
        f.write_str(match self {
            Side::Client => "client",
            Side::Adapter => "adapter",
        })
    }
}
