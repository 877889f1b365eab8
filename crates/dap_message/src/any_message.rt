//! Typed messages, independent of how their documents are represented.
ghost use Rattle.std.specs.Prelude.{◌≡◌, ◌++◌, length, true, Some, is_some, OnOk, OnErr};
ghost use Rattle.dap_tree.specs.Ids.{ids, with_ids};
ghost use Rattle.dap_tree.specs.Json.{text_of};
ghost use Rattle.dap_profile.specs.declared.profile.Kind.{Kind};
ghost use Rattle.dap_message.specs.Rows.{is_of_kind};
ghost use Rattle.dap_message.specs.Envelope.{kind_of, seq_of, request_seq_of, success_of, name_of};
ghost use Rattle.dap_message.specs.Message.{Sent};

use crate::message::Message;
use dap_profile::Kind;
use dap_tree::{Side, Sort, write_tree_to};
use std::alloc::{AllocError, Global};

/// A typed message, independent of how its document is represented: [`Message`] stores a tree.
pub trait AnyMessage {
    /// The side that sent the message, and its document.
    ghost sent: { Self → Sent };

    /// Returns the side that sent the message. Does not allocate.
    fn side(&self) -> Side
        ensures { result ≡ (sent self.now).side };

    /// Returns the kind of the message. Does not allocate.
    fn kind(&self) -> Kind
        ensures same { result ≡ kind_of (sent self.now).doc }
        ensures reported { is_of_kind result (sent self.now).doc ≡ true };

    /// Returns the command of a request or response, or the name of an event. Does not allocate.
    fn name(&self) -> &str
        ensures { name_of (sent self.now).doc ≡ Some result.now };

    /// Returns the sequence number of the message itself. Does not allocate.
    fn seq(&self) -> i64
        ensures { seq_of (sent self.now).doc ≡ Some result };

    /// Returns the sequence number of the request that a response answers, or `None` if the message
    /// is not a response. Does not allocate.
    fn request_seq(&self) -> Option<i64>
        ensures same { result ≡ request_seq_of (sent self.now).doc }
        ensures of_responses { is_some result ≡ is_of_kind Kind.Response (sent self.now).doc };

    /// Returns whether a response reports success, or `None` if the message is not a response. Does
    /// not allocate.
    fn success(&self) -> Option<bool>
        ensures same { result ≡ success_of (sent self.now).doc }
        ensures of_responses { is_some result ≡ is_of_kind Kind.Response (sent self.now).doc };

    /// Appends the ids of the message, each as its kind and its number, in the order of the
    /// canonical content.
    ///
    /// # Errors
    ///
    /// - `AllocError`: an allocation failed. The contents of `found` are unchanged; its capacity
    ///   may have grown.
    fn add_ids(&self, found: &mut Vec<(Sort, i64)>) -> Result<(), AllocError>
        ensures ok { OnOk result (found.new.items ≡ found.old.items ++ ids (sent self.now).doc) }
        ensures err { OnErr result (found.new.items ≡ found.old.items) };

    /// Appends the canonical content of the message, in which the i-th id has the i-th number, in
    /// the order of [`add_ids`](AnyMessage::add_ids).
    ///
    /// # Errors
    ///
    /// - `AllocError`: an allocation failed. The contents of `out` are unchanged; its capacity may
    ///   have grown.
    fn write_with_ids(
        self,
        alloc: Global,
        numbers: &[i64],
        out: &mut Vec<u8>,
    ) -> Result<(), AllocError>
        requires { length numbers.now ≡ length (ids (sent self).doc) }
        ensures text { OnOk result
            (out.new.items ≡ out.old.items ++ text_of (with_ids (sent self).doc numbers.now)) }
        ensures err { OnErr result (out.new.items ≡ out.old.items) };
}

impl AnyMessage for Message {
    ghost use Rattle.dap_message.specs.Message.{sent as message_sent};

    ghost sent = { message_sent };

    fn side(&self) -> Side {
        Message::side(self)
    }

    fn kind(&self) -> Kind {
        Message::kind(self)
    }

    fn name(&self) -> &str {
        Message::name(self)
    }

    fn seq(&self) -> i64 {
        Message::seq(self)
    }

    fn request_seq(&self) -> Option<i64> {
        Message::request_seq(self)
    }

    fn success(&self) -> Option<bool> {
        Message::success(self)
    }

    fn add_ids(&self, found: &mut Vec<(Sort, i64)>) -> Result<(), AllocError> {
        self.tree().add_ids(found)
    }

    fn write_with_ids(
        self,
        alloc: Global,
        numbers: &[i64],
        out: &mut Vec<u8>,
    ) -> Result<(), AllocError> {
        let mut tree = self.into_tree();
        tree.replace_ids(numbers);
        match write_tree_to(alloc, &tree, out) {
            Ok(()) => Ok(()),
            Err(_) => Err(AllocError),
        }
    }
}
