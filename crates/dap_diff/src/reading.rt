//! The message of a record, and the tree of a message as plain JSON.
ghost use Rattle.std.specs.Prelude.{◌≡◌, [], IfOk, IsOk, option_map, true};
ghost use Rattle.dap_input.specs.Limits.{AreSound};
ghost use Rattle.dap_message.specs.Message.{Sent, doc_of, sent};
ghost use Rattle.dap_normalise.specs.{Accepting.IsMessage, JudgingSteps.payload_of};
ghost use Rattle.dap_tree.specs.{Doc.is_sound, Ids.without_ids, View.view};
ghost use Rattle.dap_diff.specs.Texts.{Holds, IsLeftText, IsRecordOf, IsRecordText};

use dap_input::{Limits, Refused};
use dap_message::Message;
use dap_normalise::read_message;
use dap_recording::{FedRecord, Record, RecordCause, RecordReader};
use dap_tree::{Scratch, Tree, TreeFault, read_tree_with};
use std::alloc::{AllocError, Global};

/// Returns the tree of a message as plain JSON, with each id as its number.
pub fn plain_tree(
    alloc: Global,
    message: &Message,
    scratch: &mut Scratch,
) -> Result<Tree, AllocError>
    ensures plain { IfOk result (λ tree. view tree ≡ without_ids (doc_of message.now)) }
    ensures sound { IfOk result (λ tree. is_sound (view tree) ≡ true) }
{
    let Ok(text) = message.content(alloc) else {
        return Err(AllocError);
    };
    match read_tree_with(alloc, text.as_bytes(), scratch) {
        Ok(tree) => Ok(tree),
        Err(TreeFault::Memory) => Err(AllocError),
        Err(TreeFault::Json) => unreachable!(),
        Err(TreeFault::Fraction) => unreachable!(),
    }
}

/// Returns the record that a call completed, if there is one.
fn whole_of(fed: FedRecord) -> Option<Record>
    ensures { result ≡ fed.whole }
{
    fed.whole
}

/// Returns the record whose text this is.
fn record_in(alloc: Global, text: &[u8], limits: Limits) -> Result<Record, AllocError>
    requires sound { AreSound limits }
    requires is_record { IsRecordText limits text.now }
    ensures { IfOk result (λ whole. (message : Sent) → IsRecordOf limits text.now message
        → IsMessage (payload_of whole) message) }
{
    let mut reader = RecordReader::new(alloc, limits.frame);
    match reader.feed(text) {
        Ok(fed) => match whole_of(fed) {
            Some(whole) => Ok(whole),
            None => unreachable!(),
        },
        Err(fault) => match fault.cause {
            RecordCause::Memory => Err(AllocError),
            _ => unreachable!(),
        },
    }
}

/// Returns the message of the record whose text this is.
pub fn message_of(
    alloc: Global,
    text: &[u8],
    limits: Limits,
    scratch: &mut Scratch,
) -> Result<Message, AllocError>
    requires sound { AreSound limits }
    requires is_record { IsRecordText limits text.now }
    ensures { IfOk result (λ message. IsRecordOf limits text.now (sent message)) }
{
    let whole = record_in(alloc, text, limits)?;
    match read_message(alloc, 1, whole.side, whole.content.as_slice(), scratch) {
        Ok(message) => Ok(message),
        Err(refused) => match refused {
            Refused::Memory => Err(AllocError),
            _ => unreachable!(),
        },
    }
}

/// Returns the message in the text of a record, or `None` if the text is empty, without an
/// allocation.
pub fn message_in(
    alloc: Global,
    text: &[u8],
    limits: Limits,
    scratch: &mut Scratch,
) -> Result<Option<Message>, AllocError>
    requires sound { AreSound limits }
    requires is_left { IsLeftText limits text.now }
    ensures holds { IfOk result (λ message. Holds limits text.now (option_map sent message)) }
    ensures none { text.now ≡ [] → IsOk result }
{
    if text.is_empty() {
        return Ok(None);
    }
    Ok(Some(message_of(alloc, text, limits, scratch)?))
}
