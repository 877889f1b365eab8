//! Views of stored messages.
ghost use Rattle.std.specs.Prelude.{◌≡◌, ◌++◌, map, true, Some, is_some, OnOk, OnErr};
ghost use Rattle.dap_tree.specs.{Ids.ids, Json.text_of};
ghost use Rattle.dap_profile.specs.declared.profile.Kind.{Kind};
ghost use Rattle.dap_message.specs.Envelope.{kind_of, name_of, seq_of, request_seq_of, success_of};
ghost use Rattle.dap_message.specs.Rows.{is_of_kind};
ghost use Rattle.dap_flat.specs.Marks.{Extends, IsMarkedText, id_at};
ghost use Rattle.dap_stored.specs.Contents.{doc_in};

use crate::head::Head;
use dap_flat::{Mark, splice, spliced_length};
use dap_flat_message::Measured;
use dap_message::AnyMessage;
use dap_profile::Kind;
use dap_tree::{Side, Sort};
use std::alloc::{AllocError, Global};

/// A message of a stored session: the members that every message of its kind has, its canonical
/// content, and the marks of its ids.
#[derive(Clone, Copy, Drop)]
pub struct StoredMessage<'s> {
    side: Side,
    kind: Kind,
    name: &'s str,
    seq: i64,
    request_seq: Option<i64>,
    success: Option<bool>,
    content: &'s [u8],
    marks: &'s [Mark],
    ghost kind_same: { kind ≡ kind_of (doc_in side content.now) },
    ghost kind_reported: { is_of_kind kind (doc_in side content.now) ≡ true },
    ghost name_same: { name_of (doc_in side content.now) ≡ Some name.now },
    ghost seq_same: { seq_of (doc_in side content.now) ≡ Some seq },
    ghost request_seq_same: { request_seq ≡ request_seq_of (doc_in side content.now) },
    ghost request_seq_there: { is_some request_seq
        ≡ is_of_kind Kind.Response (doc_in side content.now) },
    ghost success_same: { success ≡ success_of (doc_in side content.now) },
    ghost success_there: { is_some success
        ≡ is_of_kind Kind.Response (doc_in side content.now) },
    ghost marked: { ∥ IsMarkedText content.now marks.now (doc_in side content.now) ∥₁ },
}

impl<'s> StoredMessage<'s> {
    ghost use Rattle.dap_stored.specs.{Heads.AreOfMessage, Sessions.stored_sent};

    /// Returns the message of a head, with its parts.
    pub(crate) fn new(
        head: Head,
        name: &'s str,
        content: &'s [u8],
        marks: &'s [Mark],
    ) -> StoredMessage<'s>
        requires { ∥ AreOfMessage head name.now content.now marks.now ∥₁ }
        ensures side { result.side ≡ head.side }
        ensures content { result.content.now ≡ content.now }
    {
        StoredMessage {
            side: head.side,
            kind: head.kind,
            name,
            seq: head.seq,
            request_seq: head.request_seq,
            success: head.success,
            content,
            marks,
        }
    }

    /// Returns the canonical content of the message. Does not allocate.
    pub fn content(&self) -> &'s [u8]
        ensures { result.now ≡ text_of (stored_sent self.now).doc }
    {
        self.content
    }

    /// Returns the marks of the message's ids, whose places are counted from the start of the
    /// content. Does not allocate.
    pub fn marks(&self) -> &'s [Mark]
        ensures { let doc = (stored_sent self.now).doc in
            IsMarkedText (text_of doc) result.now doc }
    {
        self.marks
    }
}

impl AnyMessage for StoredMessage<'_> {
    ghost use Rattle.dap_stored.specs.Sessions.{stored_sent};

    ghost sent = { stored_sent };

    fn side(&self) -> Side {
        self.side
    }

    fn kind(&self) -> Kind {
        self.kind
    }

    fn name(&self) -> &str {
        self.name
    }

    fn seq(&self) -> i64 {
        self.seq
    }

    fn request_seq(&self) -> Option<i64> {
        self.request_seq
    }

    fn success(&self) -> Option<bool> {
        self.success
    }

    fn add_ids(&self, found: &mut Vec<(Sort, i64)>) -> Result<(), AllocError> {
        let before = found.len();
        let listed = list_marks(self.marks, found);
        if listed.is_err() {
            found.truncate(before);
        }
        listed
    }

    fn write_with_ids(
        self,
        _alloc: Global,
        numbers: &[i64],
        out: &mut Vec<u8>,
    ) -> Result<(), AllocError> {
        splice(self.content, self.marks, numbers, out)
    }
}

impl Measured for StoredMessage<'_> {
    fn length_with_ids(&self, numbers: &[i64], limit: usize) -> Option<usize> {
        spliced_length(self.content.len(), self.marks, numbers, limit)
    }
}

/// Appends the ids of marks. After an error, some may have been appended.
#[tactic(auto, using(dap_flat::proofs::Marked::extends_more))]
fn list_marks(marks: &[Mark], found: &mut Vec<(Sort, i64)>) -> Result<(), AllocError>
    ensures ok { OnOk result (found.new.items ≡ found.old.items ++ map id_at marks.now) }
    ensures err { OnErr result (Extends found.old.items found.new.items) }
{
    for mark in marks {
        found.push((mark.sort, mark.number))?;
    }
    Ok(())
}
