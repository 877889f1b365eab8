//! Messages as flat documents.
ghost use Rattle.std.specs.Prelude.{◌≡◌, ◌++◌, true, Some, is_some, OnOk, OnErr, IfOk};
ghost use Rattle.dap_tree.specs.{Doc.{Doc, get}, Ids.{ids, with_ids}, Json.text_of};
ghost use Rattle.dap_profile.specs.declared.profile.Kind.{Kind};
ghost use Rattle.dap_message.specs.AskedRows.{kind_of_tree};
ghost use Rattle.dap_message.specs.Envelope.{kind_of, name_of, seq_of, request_seq_of, success_of};
ghost use Rattle.dap_message.specs.{Envelope.text_value, Numbers.is_proper};
ghost use Rattle.dap_message.specs.Rows.{is_of_kind, name_key};
ghost use Rattle.dap_flat_message.specs.{Document.document_of, Made.{IsMadeOf, Answers}};
ghost use Rattle.dap_flat_message.specs.Heads.{Tells, text_in};
ghost use Rattle.dap_flat.specs.Pieces.{Represents};

use crate::measured::Measured;
use crate::members::{Envelope, boolean_at, kind_of_tree, number_at, text_at};
use dap_flat::{Node, Unclear, add_ids, length_within, replace_ids, write_flat};
use dap_message::AnyMessage;
use dap_profile::Kind;
use dap_tree::{Side, Sort};
use std::alloc::{AllocError, Global};

/// A message of the protocol as a flat document: the side that sent it, and its nodes with the ids
/// marked.
///
/// It has the members that every message of its kind has, and none of its ids is a variables
/// reference of 0.
#[derive(Drop)]
pub struct FlatMessage<'a> {
    side: Side,
    kind: Kind,
    name: &'a str,
    seq: i64,
    request_seq: Option<i64>,
    success: Option<bool>,
    nodes: Vec<Node<'a>>,
    ghost shown: { ∥ Represents nodes.items (document_of nodes.items) ∥₁ },
    ghost kind_same: { kind ≡ kind_of (document_of nodes.items) },
    ghost kind_of_tree: { is_of_kind kind (document_of nodes.items) ≡ true },
    ghost name_same: { name_of (document_of nodes.items) ≡ Some name.now },
    ghost seq_same: { seq_of (document_of nodes.items) ≡ Some seq },
    ghost request_seq_same: { request_seq ≡ request_seq_of (document_of nodes.items) },
    ghost request_seq_there: { is_some request_seq
        ≡ is_of_kind Kind.Response (document_of nodes.items) },
    ghost success_same: { success ≡ success_of (document_of nodes.items) },
    ghost success_there: { is_some success
        ≡ is_of_kind Kind.Response (document_of nodes.items) },
    ghost proper: { is_proper (document_of nodes.items) ≡ true },
}

impl<'a> FlatMessage<'a> {
    ghost use Rattle.dap_flat_message.specs.FlatMessages.{flat_side, flat_doc};

    /// Makes a message of the nodes of a document that fits the profile, with its ids marked. The
    /// envelope has the places of its members.
    ///
    /// Returns `Unclear` if the nodes do not represent a document.
    pub(crate) fn new(
        side: Side,
        nodes: Vec<Node<'a>>,
        found: &Envelope,
    ) -> Result<FlatMessage<'a>, Unclear>
        requires { IsMadeOf side nodes.items found.now }
        ensures side { IfOk result (λ m. flat_side m ≡ side) }
        ensures doc { IfOk result (λ m. flat_doc m ≡ document_of nodes.entry.items) }
    {
        let kind = kind_of_tree(&nodes, found)?.ok_or(Unclear)?;
        let name = name_at(&nodes, found, kind)?.ok_or(Unclear)?;
        let seq = number_at(&nodes, found.seq)?.ok_or(Unclear)?;
        let (request_seq, success) = answer_at(&nodes, found, kind)?;
        Ok(FlatMessage {
            side,
            kind,
            name,
            seq,
            request_seq,
            success,
            nodes,
        })
    }

    /// Returns the nodes of the message, with its ids marked. Does not allocate.
    pub fn nodes(&self) -> &[Node<'a>]
        ensures { ∥ Represents result.now (flat_doc self.now) ∥₁ }
    {
        &self.nodes
    }
}

impl<'a> AnyMessage for FlatMessage<'a> {
    ghost use Rattle.dap_flat_message.specs.FlatMessages.{flat_sent};

    ghost sent = { flat_sent };

    fn side(&self) -> Side {
        self.side
    }

    fn kind(&self) -> Kind {
        self.kind
    }

    fn name(&self) -> &str {
        self.name
    }

    fn seq(&self) -> i64 {
        self.seq
    }

    fn request_seq(&self) -> Option<i64> {
        self.request_seq
    }

    fn success(&self) -> Option<bool> {
        self.success
    }

    fn add_ids(&self, found: &mut Vec<(Sort, i64)>) -> Result<(), AllocError> {
        add_ids(&self.nodes, found)
    }

    fn write_with_ids(
        self,
        alloc: Global,
        numbers: &[i64],
        out: &mut Vec<u8>,
    ) -> Result<(), AllocError> {
        let FlatMessage { mut nodes, .. } = self;
        write_numbered(alloc, &mut nodes, numbers, out)
    }
}

impl<'a> Measured for FlatMessage<'a> {
    fn length_with_ids(&self, numbers: &[i64], limit: usize) -> Option<usize> {
        length_within(&self.nodes, numbers, limit)
    }
}

fn write_numbered(
    alloc: Global,
    nodes: &mut [Node<'_>],
    numbers: &[i64],
    out: &mut Vec<u8>,
) -> Result<(), AllocError>
    ensures text { OnOk result ((d : Doc) → Represents nodes.old d
        → out.new.items ≡ out.old.items ++ text_of (with_ids d numbers.now)) }
    ensures err { OnErr result (out.new.items ≡ out.old.items) }
{
    replace_ids(nodes, numbers);
    write_flat(alloc, nodes, out)
}

fn name_at<'a>(nodes: &[Node<'a>], found: &Envelope, kind: Kind) -> Result<Option<&'a str>, Unclear>
    ensures { IfOk result (λ n. (d : Doc) → Tells nodes.now d found.now
        → text_in n ≡ text_value (get (name_key kind) d)) }
{
    match kind {
        Kind::Request | Kind::Response => text_at(nodes, found.command),
        Kind::Event => text_at(nodes, found.event),
    }
}

/// Returns the number of the request that a response answers, and whether it reports success.
fn answer_at(
    nodes: &[Node<'_>],
    found: &Envelope,
    kind: Kind,
) -> Result<(Option<i64>, Option<bool>), Unclear>
    ensures { IfOk result (λ a. (d : Doc) → Tells nodes.now d found.now
        → kind_of_tree d ≡ Some kind → Answers a d) }
{
    if kind != Kind::Response {
        return Ok((None, None));
    }
    let number = number_at(nodes, found.request_seq)?.ok_or(Unclear)?;
    let success = boolean_at(nodes, found.success)?.ok_or(Unclear)?;
    Ok((Some(number), Some(success)))
}
