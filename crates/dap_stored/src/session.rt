//! Stored sessions.
ghost use Rattle.std.specs.Prelude.{◌≡◌, ◌++◌, List, [], ◌∷◌, length, option_map, slice_get};
ghost use Rattle.std.specs.{Prelude.{◌==◌, IfOk, IsOk, OnOk, OnErr, map}, List.All};
ghost use Rattle.dap_flat.specs.Pieces.{Represents};
ghost use Rattle.dap_flat_message.specs.FlatMessages.{flat_sent};
ghost use Rattle.dap_message.specs.Message.{Sent, sent};
ghost use Rattle.dap_stored.specs.{Contents.IsOfContent, Heads.IsStored};

use crate::head::Head;
use crate::message::StoredMessage;
use crate::parts::Parts;
use dap_flat::{Node, nodes_of};
use dap_flat_message::FlatMessage;
use dap_message::{AnyMessage, Message};
use std::alloc::{AllocError, Global};

/// The messages of a session, with their canonical contents.
#[derive(Drop)]
pub struct StoredSession {
    parts: Parts,
    heads: Vec<Head>,
    ghost stored: { ∥ All (IsStored parts) heads.items ∥₁ },
}

impl StoredSession {
    ghost use Rattle.dap_stored.specs.Sessions.{AreAt, messages_of, stored_sent};

    /// Returns a session without messages. Does not allocate.
    pub fn new(alloc: Global) -> StoredSession
        ensures { messages_of result ≡ [] }
    {
        StoredSession {
            parts: Parts::new(alloc),
            heads: Vec::new(alloc),
        }
    }

    /// Appends a message.
    ///
    /// # Errors
    ///
    /// - `AllocError`: an allocation failed. The messages are unchanged; the memory for the message
    ///   may stay in use until the session is dropped.
    pub fn push(&mut self, alloc: Global, message: &FlatMessage<'_>) -> Result<(), AllocError>
        requires { IsOfContent (flat_sent message.now) }
        ensures ok { OnOk result
            (messages_of self.new ≡ messages_of self.old ++ flat_sent message.now ∷ []) }
        ensures err { OnErr result (messages_of self.new ≡ messages_of self.old) }
    {
        self.add(alloc, message, message.nodes())
    }

    /// Appends a message that was read as a tree.
    ///
    /// # Errors
    ///
    /// Those of [`push`](StoredSession::push).
    pub fn push_message(&mut self, alloc: Global, message: &Message) -> Result<(), AllocError>
        requires { IsOfContent (sent message.now) }
        ensures ok { OnOk result
            (messages_of self.new ≡ messages_of self.old ++ sent message.now ∷ []) }
        ensures err { OnErr result (messages_of self.new ≡ messages_of self.old) }
    {
        let mut nodes = Vec::new(alloc);
        nodes_of(message.tree(), &mut nodes)?;
        self.add(alloc, message, &nodes)
    }

    /// Appends a message that the nodes represent.
    fn add<M: AnyMessage>(
        &mut self,
        alloc: Global,
        message: &M,
        nodes: &[Node<'_>],
    ) -> Result<(), AllocError>
        requires content { IsOfContent (M.sent message.now) }
        requires nodes { ∥ Represents nodes.now (M.sent message.now).doc ∥₁ }
        ensures ok { OnOk result
            (messages_of self.new ≡ messages_of self.old ++ M.sent message.now ∷ []) }
        ensures err { OnErr result (messages_of self.new ≡ messages_of self.old) }
    {
        let head = self.parts.store(alloc, message, nodes)?;
        self.heads.push(head)?;
        Ok(())
    }

    /// Puts the messages at these places in the order of the places. A message at none of the
    /// places is removed. No content moves, and that of a removed message stays in memory until the
    /// session is dropped.
    ///
    /// # Errors
    ///
    /// - `AllocError`: an allocation failed. The messages are unchanged.
    pub fn arrange(&mut self, alloc: Global, places: &[usize]) -> Result<(), AllocError>
        requires { (those : List Sent) × AreAt (messages_of self.old) places.now those }
        ensures ok { OnOk result
            (AreAt (messages_of self.old) places.now (messages_of self.new)) }
        ensures err { OnErr result (messages_of self.new ≡ messages_of self.old) }
    {
        let mut heads = Vec::with_capacity(alloc, places.len())?;
        for place in places {
            let Some(head) = self.heads.get(*place) else {
                unreachable!()
            };
            heads.push(*head)?;
        }
        self.heads = heads;
        Ok(())
    }

    /// Returns the number of messages. Does not allocate.
    pub fn len(&self) -> usize
        ensures { result ≡ length (messages_of self.now) }
    {
        self.heads.len()
    }

    /// Returns whether there is no message. Does not allocate.
    pub fn is_empty(&self) -> bool
        ensures { result ≡ (length (messages_of self.now) == 0) }
    {
        self.heads.is_empty()
    }

    /// Returns the message at a place. The first one has the place 0. Does not allocate.
    pub fn message(&self, place: usize) -> Option<StoredMessage<'_>>
        ensures { option_map stored_sent result ≡ slice_get (messages_of self.now) place }
    {
        let head = *self.heads.get(place)?;
        Some(self.parts.message(head))
    }

    /// Returns all messages, in order. A session without messages does not allocate.
    pub fn views(&self, alloc: Global) -> Result<Vec<StoredMessage<'_>>, AllocError>
        ensures ok { IfOk result (λ views. map stored_sent views.items ≡ messages_of self.now) }
        ensures empty { messages_of self.now ≡ [] → IsOk result }
    {
        let mut views = Vec::with_capacity(alloc, self.heads.len())?;
        for head in &self.heads {
            views.push(self.parts.message(*head))?;
        }
        Ok(views)
    }
}
