//! The contents, names and marks of the messages of a session.
ghost use Rattle.std.specs.Prelude.{◌≡◌, IfOk, IsUtf8, OnErr, Some};
ghost use Rattle.dap_message.specs.Envelope.{name_of};
ghost use Rattle.dap_flat.specs.Pieces.{Represents};
ghost use Rattle.dap_stored.specs.{Contents.IsOfContent, Heads.IsHeadOf};

use crate::head::{Head, Span};
use crate::message::StoredMessage;
use dap_flat::{Mark, Node, write_marked};
use dap_message::AnyMessage;
use std::alloc::{AllocError, Global};
use std::str;

/// The contents of messages, one after another, their names and their marks.
#[derive(Drop)]
pub(crate) struct Parts {
    pub(crate) text: Vec<u8>,
    pub(crate) names: Vec<u8>,
    pub(crate) marks: Vec<Mark>,
}

impl Parts {
    ghost use Rattle.dap_stored.specs.Heads.{Grows, IsStored, Stores, message_at};
    ghost use Rattle.dap_stored.specs.Sessions.{stored_sent};

    /// Returns parts of no message. Does not allocate.
    pub(crate) fn new(alloc: Global) -> Parts {
        Parts {
            text: Vec::new(alloc),
            names: Vec::new(alloc),
            marks: Vec::new(alloc),
        }
    }

    /// Appends the content, the name and the marks of a message, which the nodes represent. After
    /// an error, some bytes of the message may have been appended.
    pub(crate) fn store<M: AnyMessage>(
        &mut self,
        alloc: Global,
        message: &M,
        nodes: &[Node<'_>],
    ) -> Result<Head, AllocError>
        requires content { IsOfContent (M.sent message.now) }
        requires nodes { ∥ Represents nodes.now (M.sent message.now).doc ∥₁ }
        ensures ok { IfOk result (Stores self.old self.new (M.sent message.now)) }
        ensures err { OnErr result (Grows self.old self.new) }
    {
        let name = message.name();
        let (names, text, marks) = (self.names.len(), self.text.len(), self.marks.len());
        self.names.extend_from_slice(name.as_bytes())?;
        write_marked(alloc, nodes, &mut self.text, &mut self.marks)?;
        let names = Span {
            start: names,
            end: self.names.len(),
        };
        let content = Span {
            start: text,
            end: self.text.len(),
        };
        let marks = Span {
            start: marks,
            end: self.marks.len(),
        };
        Ok(head_of(message, name, names, content, marks))
    }

    /// Returns the message of a head. Does not allocate.
    pub(crate) fn message(&self, head: Head) -> StoredMessage<'_>
        requires { ∥ IsStored self.now head ∥₁ }
        ensures { stored_sent result ≡ message_at self.now head }
    {
        let name = head.name.of(&self.names);
        let content = head.content.of(&self.text);
        let marks = head.marks.of(&self.marks);
        StoredMessage::new(head, text_of_bytes(name), content, marks)
    }
}

/// Returns the head of a message that has this name.
fn head_of<M: AnyMessage>(message: &M, named: &str, name: Span, content: Span, marks: Span) -> Head
    requires { name_of (M.sent message.now).doc ≡ Some named.now }
    ensures head { IsHeadOf result named.now (M.sent message.now).doc }
    ensures side { result.side ≡ (M.sent message.now).side }
    ensures name { result.name ≡ name }
    ensures content { result.content ≡ content }
    ensures marks { result.marks ≡ marks }
{
    Head {
        side: message.side(),
        kind: message.kind(),
        seq: message.seq(),
        request_seq: message.request_seq(),
        success: message.success(),
        name,
        content,
        marks,
    }
}

fn text_of_bytes(bytes: &[u8]) -> &str
    requires { IsUtf8 bytes.now }
    ensures { result.now ≡ bytes.now }
{
    match str::from_utf8(bytes) {
        Ok(text) => text,
        Err(_) => unreachable!(),
    }
}
