//! The error of typing a message.
ghost use Rattle.std.specs.Prelude.{◌≡◌, ◌≤◌, ◌++◌, length};
ghost use Rattle.dap_message.specs.MessageFaultText.{digits_of, message_fault_text};

use std::alloc::AllocError;
use std::{error, fmt};

/// Why a tree is not a message, or why a message could not be written or copied.
///
/// If a tree has several errors, the first in this order is reported: `NotObject`, `UnknownType`,
/// the violated row with the lowest number.
#[derive(Clone, Copy, Debug, PartialEq, Eq, Drop)]
pub enum MessageFault {
    /// The content is JSON, but not an object.
    ///
    /// - Cause: the sender sent an array or a single value.
    /// - Fix: fix the sender.
    NotObject,
    /// `type` is absent, or is none of `request`, `response` and `event`.
    ///
    /// - Cause: another protocol with the same frames, such as the Language Server Protocol.
    /// - Fix: record the debug session.
    UnknownType,
    /// A member that the profile requires is absent.
    ///
    /// - Cause: the sender does not follow the protocol there.
    /// - Fix: `dapnorm rows R` prints the row; fix the sender.
    Missing(u16),
    /// A member has another type than the profile requires. A null at a required member is reported
    /// so too.
    ///
    /// - Cause: a number sent as text; null at a required member; an id that is not an integer.
    /// - Fix: `dapnorm rows R` prints the row; fix the sender.
    WrongType(u16),
    /// An allocation failed.
    Memory,
}

impl MessageFault {
    /// Returns the words of the text, and the row that is violated, which follows them.
    pub fn words(self) -> (&'static str, Option<u64>)
        ensures text { result.0.now ++ digits_of result.1 ≡ message_fault_text self }
        ensures short { length result.0.now ≤ 20 }
    {
        match self {
            MessageFault::NotObject => ("NotObject", None),
            MessageFault::UnknownType => ("UnknownType", None),
            MessageFault::Missing(row) => ("Missing row ", Some(u64::from(row))),
            MessageFault::WrongType(row) => ("WrongType row ", Some(u64::from(row))),
            MessageFault::Memory => ("Memory", None),
        }
    }
}

impl fmt::Display for MessageFault {
    ghost use Rattle.std.specs.Prelude.{Some};
    ghost use Rattle.dap_message.specs.MessageFaultText.{message_fault_text};

    ghost output = { λ fault. Some (message_fault_text fault) };

    fn fmt<W: fmt::Write>(&self, f: &mut fmt::Formatter<W>) -> fmt::Result {
        match self.words() {
            (words, Some(row)) => write!(f, "{words}{row}"),
            (words, None) => f.write_str(words),
        }
    }
}

impl error::Error for MessageFault {}

impl From<AllocError> for MessageFault {
    ghost use Rattle.dap_message.specs.declared.fault.MessageFault.TheVariants.{Memory};

    ghost from_gives = { λ _ f. f ≡ Memory };

    fn from(_: AllocError) -> MessageFault {
        MessageFault::Memory
    }
}
