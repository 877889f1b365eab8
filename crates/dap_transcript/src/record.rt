//! Writes the records of messages.
ghost use Rattle.std.specs.Prelude.{◌≡◌, ◌&&◌, ◌++◌, OnOk, true};
ghost use Rattle.std.specs.Ordering.{int_eq};
ghost use Rattle.dap_tree.specs.{Doc.is_ordered, Ids.without_ids, Side.side_text};
ghost use Rattle.dap_profile.specs.declared.profile.Kind.TheVariants.{Response};
ghost use Rattle.dap_message.specs.Message.{Sent};
ghost use Rattle.dap_session.specs.Messages.{same_kind};
ghost use Rattle.dap_transcript.specs.Heads.{IsHead};
ghost use Rattle.dap_transcript.specs.Records.{PushesRecord, title_line};
ghost use Rattle.dap_transcript.specs.Transcript.{same_number, title};

use crate::members::{Omitted, push_content};
use crate::names::is_plain;
use crate::scalars::push_string;
use crate::tokens::{Numbered, Title};
use dap_profile::Kind;
use dap_tree::Side;
use std::alloc::{AllocError, Global};
use std::str;

/// What is read of a message.
#[derive(Clone, Copy, Drop)]
pub(crate) struct Head<'m> {
    pub(crate) numbered: Numbered<'m>,
    /// Whether the message is a response that reports success.
    pub(crate) success: bool,
    pub(crate) content: &'m [u8],
}

/// Appends the kind and the name of a message. The name is UTF-8, so a failed allocation is the
/// only possible error.
fn push_title(
    alloc: Global,
    kind: &str,
    name: &[u8],
    quoted: &mut Vec<u8>,
    out: &mut Vec<u8>,
) -> Result<(), AllocError>
    ensures { OnOk result (out.new.items ≡ out.old.items ++ title kind.now name.now) }
{
    if is_plain(name) {
        out.extend_from_slice(kind.as_bytes())?;
        out.extend_from_slice(b" ")?;
        return out.extend_from_slice(name);
    }
    let Ok(name) = str::from_utf8(name) else {
        return Err(AllocError);
    };
    let mut both = String::from_str(alloc, kind)?;
    both.push_str(" ")?;
    both.push_str(name)?;
    push_string(alloc, both.as_str(), quoted, out)
}

fn side_word(side: Side) -> &'static str
    ensures { result.now ≡ side_text side }
{
    match side {
        Side::Client => "client",
        Side::Adapter => "adapter",
    }
}

/// Appends the first line of a record.
fn push_head(
    alloc: Global,
    head: Title<'_>,
    quoted: &mut Vec<u8>,
    out: &mut Vec<u8>,
) -> Result<(), AllocError>
    ensures { OnOk result (out.new.items ≡ out.old.items ++ title_line head.entry) }
{
    out.extend_from_slice(b"- ")?;
    out.extend_from_slice(side_word(head.side).as_bytes())?;
    out.extend_from_slice(b": ")?;
    push_title(alloc, head.kind.word(), head.name, quoted, out)?;
    out.extend_from_slice(b"\n")
}

fn same_number(number: Option<i64>, other: Option<i64>) -> bool
    ensures { result ≡ same_number number other }
{
    match (number, other) {
        (Some(number), Some(other)) => number == other,
        _ => false,
    }
}

/// Returns the members that are not written of a message for which these numbers are expected.
fn omitted_of(head: Head<'_>, seq: i64, request: Option<i64>) -> Omitted
    ensures kind { result.kind ≡ head.entry.numbered.title.kind }
    ensures seq { result.seq ≡ int_eq head.entry.numbered.seq seq }
    ensures request_seq { result.request_seq ≡ (same_kind Response head.entry.numbered.title.kind
        && same_number head.entry.numbered.request request) }
    ensures success { result.success ≡ head.entry.success }
{
    let own = head.numbered;
    Omitted {
        kind: own.title.kind,
        seq: own.seq == seq,
        request_seq: own.title.kind == Kind::Response && same_number(own.request, request),
        success: head.success,
    }
}

/// Appends the record of a message for which these numbers are expected.
pub(crate) fn push_record(
    alloc: Global,
    head: Head<'_>,
    seq: i64,
    request: Option<i64>,
    quoted: &mut Vec<u8>,
    out: &mut Vec<u8>,
) -> Result<(), AllocError>
    ensures { OnOk result ((m : Sent) → IsHead head.entry m
        → is_ordered (without_ids m.doc) ≡ true
        → PushesRecord m seq request out.old.items out.new.items) }
{
    push_head(alloc, head.numbered.title, quoted, out)?;
    push_content(head.content, omitted_of(head, seq, request), out)
}
