//! Counts and writes the text of messages, which has the record of the canonical content of each
//! message.
ghost use Rattle.std.specs.Prelude.{◌≡◌, IfErr, IfOk, map};
ghost use Rattle.dap_frame.specs.Limits.{IsSound};
ghost use Rattle.dap_stored.specs.Sessions.{messages_of, stored_sent};
ghost use Rattle.dap_input.specs.Limits.{AreSound};
ghost use Rattle.dap_normalise.specs.Accepting.{text};
ghost use Rattle.dap_rules.specs.OrderingSteps.{Measures};

use dap_frame::FrameLimits;
use dap_input::{Limits, Refused};
use dap_message::AnyMessage;
use dap_normalise::count_record;
use dap_recording::write_record;
use dap_stored::{StoredMessage, StoredSession};
use std::alloc::{AllocError, Global};

/// Returns the length of the text of messages.
///
/// # Errors
///
/// - `Grew`: the text exceeds the limits. Messages are numbered from 1.
pub fn length_of_text(messages: &[StoredMessage<'_>], limits: Limits) -> Result<u64, Refused>
    requires { AreSound limits }
    ensures { Measures limits (map stored_sent messages.now) result }
{
    let mut len = 0;
    let mut number = 0;
    for message in messages {
        number += 1;
        len = count_record(number, message.content().len(), len, limits)?;
    }
    Ok(len)
}

/// Returns the text of the messages of a session.
///
/// # Errors
///
/// - Those of [`length_of_text`].
/// - `Memory`: an allocation failed.
pub fn text_of_session(
    alloc: Global,
    session: &StoredSession,
    limits: Limits,
) -> Result<Vec<u8>, Refused>
    requires { AreSound limits }
    ensures ok { IfOk result (λ written. written.items ≡ text (messages_of session.now)) }
    ensures err { IfErr result
        (λ because. Measures limits (messages_of session.now) (Err because)) }
{
    let Ok(messages) = session.views(alloc) else {
        return Err(Refused::Memory);
    };
    let len = length_of_text(messages.as_slice(), limits)?;
    match text_of_messages(alloc, messages.as_slice(), len as usize, limits.frame) {
        Ok(text) => Ok(text),
        Err(_) => Err(Refused::Memory),
    }
}

/// Returns the text of messages. Reserves `len` bytes for it.
fn text_of_messages(
    alloc: Global,
    messages: &[StoredMessage<'_>],
    len: usize,
    limits: FrameLimits,
) -> Result<Vec<u8>, AllocError>
    requires { IsSound limits }
    ensures { IfOk result (λ written. written.items ≡ text (map stored_sent messages.now)) }
{
    let mut written = Vec::with_capacity(alloc, len)?;
    for message in messages {
        let Ok(()) = write_record(&mut written, message.side(), message.content(), limits) else {
            return Err(AllocError);
        };
    }
    Ok(written)
}
