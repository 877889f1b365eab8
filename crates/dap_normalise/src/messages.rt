//! Reads the message of a record, and writes the record of a content.
ghost use Rattle.std.specs.Prelude.{◌≡◌, ◌<◌, ◌≤◌, ℕ, List, [], IfOk, IfErr, IfSome, OnErr, length};
ghost use Rattle.std.specs.Prelude.{IsErrOf, OnOk};
ghost use Rattle.dap_tree.specs.Json.{text_of};
ghost use Rattle.dap_flat_message.specs.FlatMessages.{flat_sent};
ghost use Rattle.dap_message.specs.Message.{Sent, sent};
ghost use Rattle.dap_stored.specs.Sessions.{messages_of};
ghost use Rattle.dap_normalise.specs.Accepting.{HoldsNoMessage, IsMessage, Rejects};
ghost use Rattle.dap_normalise.specs.JudgingSteps.{AddsMessage, Writes, payload_of, record_of};
ghost use Rattle.dap_recording.specs.Recording.{record_text};
ghost use Rattle.dap_input.specs.{Limits.AreSound, Refusals.RejectsPayload};

use dap_flat::digit_count;
use dap_flat_message::{FlatFault, FlatMessage, read_flat_message};
use dap_frame::FrameFault;
use dap_input::{Limits, Refused};
use dap_message::{Message, MessageFault, Side, typed};
use dap_recording::{Record, write_record};
use dap_rename::Mode;
use dap_stored::StoredSession;
use dap_tree::{Scratch, TreeFault, read_tree_with};
use std::alloc::Global;

/// The number of bytes per node of a document that most contents have at least. It is an estimate,
/// which only affects how often the vector of nodes is reallocated.
const BYTES_A_NODE: usize = 8;

/// Returns the message of the record with this number. Reuses the buffer `scratch`.
///
/// # Errors
///
/// - `Json`, `Fraction`: the content is not JSON, or a number is not an integer of 64 bits.
/// - `Message`: the content violates the profile.
/// - `Memory`: an allocation failed. The content is not empty.
#[tactic(auto, using(crate::proofs::SomeContents::some_content))]
pub fn read_message(
    alloc: Global,
    number: u64,
    side: Side,
    content: &[u8],
    scratch: &mut Scratch,
) -> Result<Message, Refused>
    ensures ok { IfOk result (λ message. IsMessage (side, content.now) (sent message)) }
    ensures err { IfErr result (λ because. (limits : Limits) (mode : Mode) (messages : List Sent)
        → RejectsPayload (Rejects limits mode messages (side, content.now)) number because) }
    ensures only { IfErr result
        (λ because. RejectsPayload (HoldsNoMessage (side, content.now)) number because) }
    ensures memory { IsErrOf result Refused.Memory → 0 < length content.now }
{
    let tree = match read_tree_with(alloc, content, scratch) {
        Ok(tree) => tree,
        Err(TreeFault::Json) => return Err(Refused::Json(number)),
        Err(TreeFault::Fraction) => return Err(Refused::Fraction(number)),
        Err(TreeFault::Memory) => return Err(Refused::Memory),
    };
    match typed(alloc, side, tree) {
        Ok(message) => Ok(message),
        Err(MessageFault::Memory) => Err(Refused::Memory),
        Err(fault) => Err(Refused::Message(number, fault)),
    }
}

/// Reads the message of the record with this number as a flat document. Returns `None` if its
/// content must be read as a tree. Does not allocate for an empty content, which is not JSON.
///
/// # Errors
///
/// - `Message`: the content violates the profile.
/// - `Memory`: an allocation failed. The content is not empty.
pub fn read_flat<'a>(
    alloc: Global,
    number: u64,
    side: Side,
    content: &'a [u8],
    scratch: &'a mut Scratch,
) -> Result<Option<FlatMessage<'a>>, Refused>
    ensures ok { IfOk result
        (λ found. IfSome found (λ message. IsMessage (side, content.now) (flat_sent message))) }
    ensures err { IfErr result (λ because. (limits : Limits) (mode : Mode) (messages : List Sent)
        → RejectsPayload (Rejects limits mode messages (side, content.now)) number because) }
    ensures only { IfErr result
        (λ because. RejectsPayload (HoldsNoMessage (side, content.now)) number because) }
    ensures memory { IsErrOf result Refused.Memory → 0 < length content.now }
{
    if content.is_empty() {
        return Ok(None);
    }
    let Ok(nodes) = Vec::with_capacity(alloc, content.len() / BYTES_A_NODE + 8) else {
        return Err(Refused::Memory);
    };
    match read_flat_message(side, content, scratch, nodes) {
        Ok(message) => Ok(Some(message)),
        Err(FlatFault::Unclear) => Ok(None),
        Err(FlatFault::Memory) => Err(Refused::Memory),
        Err(FlatFault::Message(fault)) => Err(Refused::Message(number, fault)),
    }
}

/// Appends the message of the record with this number to a session.
///
/// # Errors
///
/// - The first error of the content.
/// - `Memory`: an allocation failed.
///
/// The messages of the session are unchanged.
pub(crate) fn push_record(
    alloc: Global,
    number: u64,
    whole: &Record,
    scratch: &mut Scratch,
    session: &mut StoredSession,
) -> Result<(), Refused>
    ensures ok { OnOk result
        (AddsMessage (payload_of whole.now) (messages_of session.old) (messages_of session.new)) }
    ensures err { IfErr result (λ because. (limits : Limits) (mode : Mode) (messages : List Sent)
        → RejectsPayload (Rejects limits mode messages (payload_of whole.now)) number because) }
    ensures kept { OnErr result (messages_of session.new ≡ messages_of session.old) }
{
    let content = whole.content.as_slice();
    if let Some(message) = read_flat(alloc, number, whole.side, content, scratch)? {
        let Ok(()) = session.push(alloc, &message) else {
            return Err(Refused::Memory);
        };
        return Ok(());
    }
    let message = read_message(alloc, number, whole.side, content, scratch)?;
    let Ok(()) = session.push_message(alloc, &message) else {
        return Err(Refused::Memory);
    };
    Ok(())
}

/// Appends the record of a side and a content to an output of `written` bytes, and returns the new
/// length of the output.
///
/// # Errors
///
/// - `Grew`: the content or the output would exceed its limit.
/// - `Memory`: an allocation failed.
///
/// The contents of `out` are unchanged.
pub fn append_record(
    number: u64,
    side: Side,
    content: &[u8],
    written: u64,
    limits: Limits,
    out: &mut Vec<u8>,
) -> Result<u64, Refused>
    requires sound { AreSound limits }
    requires short { written ≤ limits.input }
    ensures writes { (message : Sent) → message.side ≡ side → text_of message.doc ≡ content.now
        → Writes limits message number written out.old.items out.new.items result }
    ensures within { IfOk result (λ after. after ≤ limits.input) }
    ensures kept { OnErr result (out.new.items ≡ out.old.items) }
{
    let before = out.len();
    match write_record(out, side, content, limits.frame) {
        Ok(()) => {}
        Err(FrameFault::ContentTooLong) => return Err(Refused::Grew(number)),
        Err(_) => return Err(Refused::Memory),
    }
    let after = written + (out.len() - before) as u64;
    if limits.input < after {
        out.truncate(before);
        return Err(Refused::Grew(number));
    }
    Ok(after)
}

/// Returns the length of an output of `written` bytes after the record of a content of this length.
/// Writes nothing.
///
/// # Errors
///
/// - `Grew`: the content or the output would exceed its limit.
pub fn count_record(
    number: u64,
    content_len: usize,
    written: u64,
    limits: Limits,
) -> Result<u64, Refused>
    requires sound { AreSound limits }
    requires short { written ≤ limits.input }
    ensures counts { (message : Sent) → length (text_of message.doc) ≡ content_len
        → Writes limits message number written [] (record_of message) result }
    ensures within { IfOk result (λ after. after ≤ limits.input) }
{
    if content_len > limits.frame.content {
        return Err(Refused::Grew(number));
    }
    let after = written + record_len(content_len);
    if after > limits.input {
        return Err(Refused::Grew(number));
    }
    Ok(after)
}

/// Returns the length of the record of a content of this length.
fn record_len(content_len: usize) -> u64
    requires { content_len ≤ 2147483647 }
    ensures len { (side : Side) (content : List ℕ) → length content ≡ content_len
        → result ≡ length (record_text side content) }
    ensures short { result ≤ 2147483689 }
{
    (content_len + digit_count(content_len as u64) + 22) as u64
}
