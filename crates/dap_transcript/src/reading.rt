//! Reads transcripts.
ghost use Rattle.std.specs.Prelude.{◌≡◌, ◌≢◌, true, List, IfErr, IfOk, OnOk};
ghost use Rattle.dap_message.specs.Message.{Sent};
ghost use Rattle.dap_stored.specs.Sessions.{messages_of};
ghost use Rattle.dap_transcript.specs.ReadErrors.{DiffersAt, FirstDiffer, is_of_reading};
ghost use Rattle.dap_transcript.specs.Transcript.{transcript};

use crate::content::Content;
use crate::expectations::Expectations;
use crate::fault::{TranscriptCause, TranscriptFault};
use crate::tokens::{Numbered, read_title, split_head};
use crate::transcript::write_transcript;
use dap_flat_message::{FlatFault, read_flat_message};
use dap_message::{AnyMessage, MessageFault, typed};
use dap_stored::StoredSession;
use dap_tree::{Scratch, Side, TreeFault, read_tree_with};
use std::alloc::{AllocError, Global};

/// The number of bytes per node of a document that most contents have at least. It is an estimate,
/// which only affects how often the vector of nodes is reallocated.
const BYTES_A_NODE: usize = 8;

/// Appends the message of a content to a session, if it can be read as a flat document. Returns
/// whether it can.
fn store_flat(
    alloc: Global,
    side: Side,
    content: &[u8],
    scratch: &mut Scratch,
    session: &mut StoredSession,
) -> Result<bool, TranscriptCause>
    ensures { IfErr result (λ cause. is_of_reading cause ≡ true) }
{
    let nodes = Vec::with_capacity(alloc, content.len() / BYTES_A_NODE + 8)?;
    match read_flat_message(side, content, scratch, nodes) {
        Ok(message) => session.push(alloc, &message)?,
        Err(FlatFault::Unclear) => return Ok(false),
        Err(FlatFault::Memory) => return Err(TranscriptCause::Memory),
        Err(FlatFault::Message(fault)) => return Err(TranscriptCause::Message(fault)),
    }
    Ok(true)
}

/// Does this for a content that is read as a tree.
fn store_tree(
    alloc: Global,
    side: Side,
    content: &[u8],
    scratch: &mut Scratch,
    session: &mut StoredSession,
) -> Result<(), TranscriptCause>
    ensures { IfErr result (λ cause. is_of_reading cause ≡ true) }
{
    let tree = match read_tree_with(alloc, content, scratch) {
        Ok(tree) => tree,
        Err(TreeFault::Memory) => return Err(TranscriptCause::Memory),
        Err(_) => return Err(TranscriptCause::BadValue),
    };
    match typed(alloc, side, tree) {
        Ok(message) => session.push_message(alloc, &message)?,
        Err(MessageFault::Memory) => return Err(TranscriptCause::Memory),
        Err(fault) => return Err(TranscriptCause::Message(fault)),
    }
    Ok(())
}

/// Appends the message of a content to a session.
fn store(
    alloc: Global,
    side: Side,
    content: &[u8],
    scratch: &mut Scratch,
    session: &mut StoredSession,
) -> Result<(), TranscriptCause>
    ensures { IfErr result (λ cause. is_of_reading cause ≡ true) }
{
    if store_flat(alloc, side, content, scratch, session)? {
        return Ok(());
    }
    store_tree(alloc, side, content, scratch, session)
}

/// Returns the numbers of the last message.
fn last_numbers(session: &StoredSession, place: usize) -> Option<(i64, Option<i64>)> {
    let message = session.message(place)?;
    Some((message.seq(), message.request_seq()))
}

/// The record that is read, with the line of its head.
#[derive(Clone, Copy, Drop)]
struct Current<'t> {
    line: usize,
    head: Numbered<'t>,
}

/// Ends the current record, if there is one, and appends its message to the session.
fn end_record<'t>(
    alloc: Global,
    current: Option<Current<'t>>,
    past: &mut Expectations<'t>,
    content: &mut Content,
    scratch: &mut Scratch,
    session: &mut StoredSession,
) -> Result<(), TranscriptFault>
    ensures { IfErr result (λ fault. is_of_reading fault.cause ≡ true) }
{
    let Some(record) = current else {
        return Ok(());
    };
    match store_record(alloc, record.head, past, content, scratch, session) {
        Ok(()) => Ok(()),
        Err(cause) => Err(TranscriptFault {
            line: record.line,
            cause,
        }),
    }
}

fn store_record<'t>(
    alloc: Global,
    head: Numbered<'t>,
    past: &mut Expectations<'t>,
    content: &mut Content,
    scratch: &mut Scratch,
    session: &mut StoredSession,
) -> Result<(), TranscriptCause>
    ensures { IfErr result (λ cause. is_of_reading cause ≡ true) }
{
    let place = session.len();
    let text = content.finish(alloc, &head)?;
    store(alloc, head.title.side, text, scratch, session)?;
    if let Some((seq, request)) = last_numbers(session, place) {
        // Only a record whose `type` is not that of its head can be a response without a number. It
        // counts as a response to 0.
        let own = Numbered {
            title: head.title,
            seq,
            request: request.or(Some(0)),
        };
        past.add(alloc, own)?;
    }
    Ok(())
}

/// Starts the record of a head.
fn start_record<'t>(
    side: Side,
    title: &'t [u8],
    past: &mut Expectations<'t>,
    content: &mut Content,
) -> Result<Numbered<'t>, TranscriptCause>
    ensures { IfErr result (λ cause. is_of_reading cause ≡ true) }
{
    let Some(title) = read_title(side, title) else {
        return Err(TranscriptCause::BadLine);
    };
    content.start()?;
    Ok(past.expect(title))
}

/// Takes a line that is not a head.
fn take_line(
    alloc: Global,
    line: &[u8],
    current: Option<Current<'_>>,
    content: &mut Content,
) -> Result<(), TranscriptCause>
    ensures { IfErr result (λ cause. is_of_reading cause ≡ true) }
{
    if line.is_empty() {
        return Ok(());
    }
    match current {
        Some(record) => content.take_line(alloc, line, &record.head),
        None => Err(TranscriptCause::BadLine),
    }
}

/// Reads the records of a text, and appends their messages to a session.
fn read_lines<'t>(
    alloc: Global,
    text: &'t [u8],
    past: &mut Expectations<'t>,
    content: &mut Content,
    scratch: &mut Scratch,
    session: &mut StoredSession,
) -> Result<(), TranscriptFault>
    ensures { IfErr result (λ fault. is_of_reading fault.cause ≡ true) }
{
    let mut current = None;
    let mut number = 0_usize;
    for line in text.split(|byte| *byte == b'\n') {
        number = number.saturating_add(1);
        let outcome = match split_head(line) {
            Some((side, title)) => {
                end_record(alloc, current, past, content, scratch, session)?;
                match start_record(side, title, past, content) {
                    Ok(head) => {
                        current = Some(Current { line: number, head });
                        Ok(())
                    }
                    Err(cause) => Err(cause),
                }
            }
            None => take_line(alloc, line, current, content),
        };
        if let Err(cause) = outcome {
            return Err(TranscriptFault {
                line: number,
                cause,
            });
        }
    }
    end_record(alloc, current, past, content, scratch, session)
}

fn read_records(
    alloc: Global,
    text: &[u8],
    session: &mut StoredSession,
) -> Result<(), TranscriptFault>
    ensures { IfErr result (λ fault. is_of_reading fault.cause ≡ true) }
{
    let mut past = Expectations::new(alloc);
    let mut content = Content::new(alloc);
    let mut scratch = Scratch::new(alloc);
    read_lines(alloc, text, &mut past, &mut content, &mut scratch, session)
}

/// Returns the transcript of a session.
fn write_again(alloc: Global, session: &StoredSession) -> Result<Vec<u8>, AllocError>
    ensures { IfOk result (λ text. text.items ≡ transcript (messages_of session.now)) }
{
    let views = session.views(alloc)?;
    write_transcript(alloc, &views)
}

/// Returns the number of the first line of a text that is not as in what was written.
fn first_difference(text: &[u8], written: &[u8]) -> usize
    ensures { text.now ≢ written.now → FirstDiffer text.now written.now result }
{
    let mut line = 1_usize;
    for at in 0..text.len() {
        if written.get(at).copied() != Some(text[at]) {
            return line;
        }
        if text[at] == b'\n' {
            line = line.saturating_add(1);
        }
    }
    line
}

/// Compares a text with the transcript of a session.
fn compare(alloc: Global, session: &StoredSession, text: &[u8]) -> Result<(), TranscriptFault>
    ensures ok { OnOk result (transcript (messages_of session.now) ≡ text.now) }
    ensures differs { IfErr result (λ fault.
        fault.cause ≡ TranscriptCause.Differs → DiffersAt text.now fault.line) }
    ensures never { IfErr result (λ fault. fault.cause ≢ TranscriptCause.TooLong) }
{
    let Ok(written) = write_again(alloc, session) else {
        return Err(TranscriptFault::memory());
    };
    if written.as_slice() == text {
        return Ok(());
    }
    Err(TranscriptFault {
        line: first_difference(text, written.as_slice()),
        cause: TranscriptCause::Differs,
    })
}

/// Reads a transcript, and returns its messages.
///
/// The text is the transcript of these messages, byte for byte. The time is O(n log n) for n bytes.
///
/// # Errors
///
/// - `BadLine`: a line is not a head, a member or an element that can be there.
/// - `BadValue`, `Message`: a record is not a message. The line is that of its head.
/// - `Differs`: the records are messages, but the text is not their transcript. The line is the
///   first one that is not as it would be written.
/// - `Memory`: an allocation failed.
pub fn read_transcript(alloc: Global, text: &[u8]) -> Result<StoredSession, TranscriptFault>
    ensures ok { IfOk result (λ session. transcript (messages_of session) ≡ text.now) }

    // With `Differs`, the line is the first one that is not as in the transcript of the messages
    // that were read. `TooLong` is never returned.
    ensures differs { IfErr result (λ fault.
        fault.cause ≡ TranscriptCause.Differs → DiffersAt text.now fault.line) }
    ensures never { IfErr result (λ fault. fault.cause ≢ TranscriptCause.TooLong) }
{
    let mut session = StoredSession::new(alloc);
    read_records(alloc, text, &mut session)?;
    compare(alloc, &session, text)?;
    Ok(session)
}

/// Returns the transcript of the messages that can be read of a text, which need not be as it would
/// be written. It shows what would be correct if [`read_transcript`] returns `Differs`.
///
/// # Errors
///
/// Those of [`read_transcript`], except `Differs`.
pub fn rewrite_transcript(alloc: Global, text: &[u8]) -> Result<Vec<u8>, TranscriptFault>
    ensures ok { IfOk result
        (λ written. (messages : List Sent) × (written.items ≡ transcript messages)) }
    ensures err { IfErr result (λ fault. is_of_reading fault.cause ≡ true) }
{
    let mut session = StoredSession::new(alloc);
    read_records(alloc, text, &mut session)?;
    match write_again(alloc, &session) {
        Ok(written) => Ok(written),
        Err(_) => Err(TranscriptFault::memory()),
    }
}
