//! Writes the transcripts of messages.
ghost use Rattle.std.specs.Prelude.{◌≡◌, ◌++◌, ◌∷◌, [], List, map, true, IfOk, IfSome, OnOk};
ghost use Rattle.std.specs.List.{All};
ghost use Rattle.dap_tree.specs.{Doc.is_ordered, Ids.without_ids};
ghost use Rattle.dap_message.specs.Message.{Sent};
ghost use Rattle.dap_session.specs.EnvelopeView.{message_of};
ghost use Rattle.dap_stored.specs.Contents.{IsOfContent};
ghost use Rattle.dap_stored.specs.Sessions.{stored_sent};
ghost use Rattle.dap_transcript.specs.{Heads.IsHead, Recordings.frames, Records.HasWritten};
ghost use Rattle.dap_transcript.specs.{Requests.IsNumbered, Transcript.transcript};

use crate::expectations::Expectations;
use crate::frames::read_record;
use crate::record::{Head, push_record};
use crate::tokens::{Numbered, Title};
use dap_session::envelope::{Envelope, envelope_of};
use dap_session::message::{kind_of, name_of, request_seq_of, seq_of, side_of};
use dap_stored::StoredMessage;
use std::alloc::{AllocError, Global};

fn numbered<'m>(envelope: &Envelope<'m, StoredMessage<'m>>) -> Numbered<'m>
    ensures { IsNumbered (message_of envelope.now) result }
{
    let title = Title {
        side: side_of(envelope),
        kind: kind_of(envelope),
        name: name_of(envelope).as_bytes(),
    };
    Numbered {
        title,
        seq: seq_of(envelope),
        request: request_seq_of(envelope),
    }
}

fn head_of<'m>(message: &'m StoredMessage<'m>) -> Head<'m>
    ensures { IsHead result (stored_sent message.now) }
{
    let envelope = envelope_of(message);
    Head {
        numbered: numbered(&envelope),
        success: envelope.success.unwrap_or(false),
        content: message.content(),
    }
}

/// A transcript that is being written.
#[derive(Drop)]
struct Writer<'m> {
    expectations: Expectations<'m>,
    /// A buffer for the titles of records.
    quoted: Vec<u8>,
    out: Vec<u8>,
}

impl<'m> Writer<'m> {
    /// Creates the transcript without records. Does not allocate.
    fn new(alloc: Global) -> Writer<'m>
        ensures { HasWritten result [] }
    {
        Writer {
            expectations: Expectations::new(alloc),
            quoted: Vec::new(alloc),
            out: Vec::new(alloc),
        }
    }

    /// Adds the record of the next message.
    fn push(&mut self, alloc: Global, head: Head<'m>) -> Result<(), AllocError>
        ensures { OnOk result ((ms : List Sent) (m : Sent) → HasWritten self.old ms
            → IsHead head.entry m → is_ordered (without_ids m.doc) ≡ true
            → HasWritten self.new (ms ++ m ∷ [])) }
    {
        let expected = self.expectations.expect(head.numbered.title);
        push_record(
            alloc,
            head,
            expected.seq,
            expected.request,
            &mut self.quoted,
            &mut self.out,
        )?;
        self.expectations.add(alloc, head.numbered)
    }
}

/// Returns the transcript of messages: the session as a page of YAML.
///
/// The time is O(n log n) for contents of n bytes.
///
/// # Errors
///
/// - `AllocError`: an allocation failed.
pub fn write_transcript(
    alloc: Global,
    messages: &[StoredMessage<'_>],
) -> Result<Vec<u8>, AllocError>
    ensures { IfOk result (λ text. text.items ≡ transcript (map stored_sent messages.now)) }
{
    let mut writer = Writer::new(alloc);
    for message in messages {
        writer.push(alloc, head_of(message))?;
    }
    Ok(writer.out)
}

/// Returns the transcript of a recording whose contents are canonical, such as a normal text. Does
/// not read the contents as JSON. Returns `None` if a head cannot be read in place, such as a name
/// with an escaped character or one that is not ASCII.
///
/// # Errors
///
/// - `AllocError`: an allocation failed.
pub fn transcript_of_frames(alloc: Global, recording: &[u8]) -> Result<Option<Vec<u8>>, AllocError>
    ensures { IfOk result (λ found. IfSome found (λ text. (messages : List Sent)
        → recording.now ≡ frames messages → All IsOfContent messages
        → text.items ≡ transcript messages)) }
{
    let mut writer = Writer::new(alloc);
    let mut left = recording;
    while !left.is_empty() {
        let Some((head, rest)) = read_record(left) else {
            return Ok(None);
        };
        writer.push(alloc, head)?;
        left = rest;
    }
    Ok(Some(writer.out))
}
