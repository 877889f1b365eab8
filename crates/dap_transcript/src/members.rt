//! Writes the members of a message.
ghost use Rattle.std.specs.Prelude.{◌≡◌, ◌<◌, ◌++◌, true, codes, unwrap_or};
ghost use Rattle.std.specs.Prelude.{false, length, None, IfOk, OnOk};
ghost use Rattle.std.specs.{Cmp.Lexicographic.slice_cmp, Ordering.{is_gt, nat_cmp}};
ghost use Rattle.dap_tree.specs.{Doc.{Doc, as_object, is_ordered, no_members}, Json.text_of};
ghost use Rattle.dap_message.specs.Rows.{name_key};
ghost use Rattle.dap_transcript.specs.Members.{omits, Finishes, IsWaiting, Passes, PushesWritten};
ghost use Rattle.dap_transcript.specs.Members.{Renamed, Settles};
ghost use Rattle.dap_transcript.specs.{Lines.member_lines, Transcript.written, Walk.member_text};

use crate::canonical::{split_value, without_quotes};
use crate::lines::{after_byte, push_margin, push_named, push_part, split_name};
use crate::names::names_head;
use dap_profile::Kind;
use std::alloc::AllocError;

/// The indentation of the members of a message.
const MARGIN: usize = 2;

/// The members of a message that are not written, in addition to its type and its name.
#[derive(Clone, Copy, Drop)]
pub(crate) struct Omitted {
    pub(crate) kind: Kind,
    pub(crate) seq: bool,
    pub(crate) request_seq: bool,
    pub(crate) success: bool,
}

impl Omitted {
    /// Returns whether the member of this name, without its quotes, is omitted.
    fn has(self, name: &[u8]) -> bool
        ensures { result ≡ omits self name.now }
    {
        name == b"type".as_slice()
            || (name == name_key(self.kind)
                || ((name == b"seq".as_slice() && self.seq)
                    || ((name == b"request_seq".as_slice() && self.request_seq)
                        || (name == b"success".as_slice() && self.success))))
    }
}

fn name_key(kind: Kind) -> &'static [u8]
    ensures { result.now ≡ name_key kind }
{
    match kind {
        Kind::Request | Kind::Response => b"command",
        Kind::Event => b"event",
    }
}

/// A member that is written under its name with `_` appended, and so maybe after other members.
#[derive(Clone, Copy, Drop)]
pub(crate) struct Waiting<'t> {
    /// The name, without quotes.
    pub(crate) name: &'t [u8],
    /// The canonical text from the value on.
    pub(crate) value: &'t [u8],
}

/// Returns whether the name with `_` appended comes after the other name.
fn comes_after(name: &[u8], other: &[u8]) -> bool
    ensures { result ≡ is_gt (slice_cmp nat_cmp (name.now ++ codes "_") other.now) }
{
    match other.strip_prefix(name) {
        Some(rest) => b"_".as_slice().cmp(rest).is_gt(),
        None => name.cmp(other).is_gt(),
    }
}

/// Writes a waiting member.
fn write_waiting(waiting: Waiting<'_>, out: &mut Vec<u8>) -> Result<(), AllocError>
    ensures { OnOk result ((r : Renamed) → IsWaiting waiting.entry r
        → out.new.items ≡ out.old.items ++ member_text 2 2 r.0 r.1) }
{
    push_margin(MARGIN, out)?;
    out.extend_from_slice(waiting.name)?;
    out.extend_from_slice(b"_:")?;
    push_part(waiting.value, true, MARGIN, out)?;
    Ok(())
}

/// Writes the waiting member, unless its written name comes after this name, without its quotes.
/// Returns the member that is still waiting.
fn settle<'t>(
    name: &[u8],
    waiting: Option<Waiting<'t>>,
    out: &mut Vec<u8>,
) -> Result<Option<Waiting<'t>>, AllocError>
    ensures { IfOk result (Settles name.now waiting.entry out.old.items out.new.items) }
{
    let Some(member) = waiting else {
        return Ok(None);
    };
    if comes_after(member.name, name) {
        return Ok(Some(member));
    }
    write_waiting(member, out)?;
    Ok(None)
}

/// Writes the member of this name, which has its quotes, or makes it wait if it is renamed. The
/// other text starts with the value. Returns what follows the value, and the waiting member.
///
/// Two members never wait at once: the name of a head with `_` appended comes before, or is, the
/// next name of a head.
fn push_one<'t>(
    name: &'t [u8],
    value: &'t [u8],
    waiting: Option<Waiting<'t>>,
    out: &mut Vec<u8>,
) -> Result<(&'t [u8], Option<Waiting<'t>>), AllocError>
    ensures passes { IfOk result (λ passed. Passes (λ _. false) name.now value.now waiting.entry
        out.old.items out.new.items passed.0.now passed.1) }
    ensures shorter { IfOk result (λ passed. length passed.0.now < length value.now) }
{
    let inside = without_quotes(name);
    let still = settle(inside, waiting, out)?;
    if !names_head(inside) {
        let rest = push_named(name, value, MARGIN, MARGIN, out)?;
        return Ok((rest, still));
    }
    if still.is_some() {
        return Err(AllocError);
    }
    let Some((_, rest)) = split_value(value) else {
        return Err(AllocError);
    };
    let own = Waiting {
        name: inside,
        value,
    };
    Ok((rest, Some(own)))
}

/// Does the same for a member that may be omitted.
fn pass_one<'t>(
    omitted: Omitted,
    name: &'t [u8],
    value: &'t [u8],
    waiting: Option<Waiting<'t>>,
    out: &mut Vec<u8>,
) -> Result<(&'t [u8], Option<Waiting<'t>>), AllocError>
    ensures passes { IfOk result (λ passed. Passes (omits omitted) name.now value.now waiting.entry
        out.old.items out.new.items passed.0.now passed.1) }
    ensures shorter { IfOk result (λ passed. length passed.0.now < length value.now) }
{
    if !omitted.has(without_quotes(name)) {
        return push_one(name, value, waiting, out);
    }
    let Some((_, rest)) = split_value(value) else {
        return Err(AllocError);
    };
    Ok((rest, waiting))
}

/// Appends the lines of the members that the text starts with and that are written, in the order of
/// the names under which they are written.
fn push_written(text: &[u8], omitted: Omitted, out: &mut Vec<u8>) -> Result<(), AllocError>
    ensures { OnOk result
        (PushesWritten (omits omitted) None text.now out.old.items out.new.items) }
{
    let mut waiting = None;
    let mut left = text;
    loop {
        let Some((name, value)) = split_name(left) else {
            return Err(AllocError);
        };
        let (after, still) = pass_one(omitted, name, value, waiting, out)?;
        if after_byte(after, b'}').is_some() {
            return finish(still, out);
        }
        let Some(next) = after_byte(after, b',') else {
            return Err(AllocError);
        };
        waiting = still;
        left = next;
    }
}

/// Appends the lines of the members that are written of a message with this canonical content.
pub(crate) fn push_content(
    content: &[u8],
    omitted: Omitted,
    out: &mut Vec<u8>,
) -> Result<(), AllocError>
    ensures { OnOk result ((d : Doc) → content.now ≡ text_of d → is_ordered d ≡ true
        → out.new.items ≡ out.old.items
        ++ member_lines 2 2 (written (omits omitted) (unwrap_or (as_object d) no_members))) }
{
    let Some(inside) = after_byte(content, b'{') else {
        return Err(AllocError);
    };
    if after_byte(inside, b'}').is_some() {
        return Ok(());
    }
    push_written(inside, omitted, out)
}

/// Writes the waiting member, if there is one, as the last one.
fn finish(waiting: Option<Waiting<'_>>, out: &mut Vec<u8>) -> Result<(), AllocError>
    ensures { OnOk result (Finishes waiting.entry out.old.items out.new.items) }
{
    match waiting {
        Some(member) => write_waiting(member, out),
        None => Ok(()),
    }
}
