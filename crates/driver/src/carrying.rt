//! Tests the renaming that `compare` returns for two recordings that are the same.
ghost use Rattle.std.specs.Prelude.{◌≤◌, length};
ghost use Rattle.dap_frame.specs.Limits.{IsSound};

use dap_frame::FrameLimits;
use dap_message::Message;
use dap_normalise::read_message;
use dap_recording::{Record, RecordReader};
use dap_rename::{Mode, Renaming};
use dap_tree::Scratch;
use std::alloc::Global;

/// Appends the message of a record, if one ended. `None`: it is rejected, or an allocation failed.
fn add(
    alloc: Global,
    ended: Option<Record>,
    scratch: &mut Scratch,
    messages: &mut Vec<Message>,
) -> Option<()> {
    let Some(record) = ended else {
        return Some(());
    };
    let content = record.content.as_slice();
    let message = read_message(alloc, 1, record.side, content, scratch).ok()?;
    messages.push(message).ok()
}

/// Returns the messages of a recording. `None`: it is rejected, or an allocation failed.
fn messages_of(alloc: Global, recording: &[u8], limits: FrameLimits) -> Option<Vec<Message>>
    requires { IsSound limits }
{
    let mut reader = RecordReader::new(alloc, limits);
    let mut scratch = Scratch::new(alloc);
    let mut messages = Vec::new(alloc);
    let mut rest = recording;
    for _ in 0..recording.len() {
        let fed = reader.feed(rest).ok()?;
        rest = &rest[fed.used..];
        add(alloc, fed.whole, &mut scratch, &mut messages)?;
    }
    Some(messages)
}

/// Returns whether the renaming maps the messages of the first recording to those of the second.
pub fn is_carried(
    alloc: Global,
    renaming: &Renaming,
    from: &[u8],
    to: &[u8],
    limits: FrameLimits,
    mode: Mode,
) -> bool
    requires { IsSound limits }
{
    match (
        messages_of(alloc, from, limits),
        messages_of(alloc, to, limits),
    ) {
        (Some(from), Some(to)) => renaming.carries(from.as_slice(), to.as_slice(), mode),
        _ => false,
    }
}
