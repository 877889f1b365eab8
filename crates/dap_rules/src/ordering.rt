//! Puts the records of a recording in order.
ghost use Rattle.std.specs.Prelude.{◌≡◌, ℕ, ◌+◌, ◌≤◌, [], IfErr, IfOk, IsOk, IsErrOf, List, map};
ghost use Rattle.dap_device.specs.Devices.{CanRead, CanWrite};
ghost use Rattle.dap_message.specs.{Message.Sent, SwapRules.swaps_of};
ghost use Rattle.dap_input.specs.{Engine.Answers, Limits.AreSound};
ghost use Rattle.dap_normalise.specs.Accepting.{IsAccepted};
ghost use Rattle.dap_rules.specs.Ordering.{IsNotOrdered, NormalisesInOrder, Orders, ReadsSomeOrAll};
ghost use Rattle.dap_rules.specs.Ordering.{RefusesToOrder};
ghost use Rattle.dap_rules.specs.OrderingSteps.{Arranges, AreWithin, Measures, result_of_input};
ghost use Rattle.dap_order.specs.MessageOrder.{ordered};
ghost use Rattle.dap_stored.specs.Sessions.{AreAt, messages_of, stored_sent};

use crate::writing::{length_of_text, text_of_session};
use dap_device::{Sink, Source, Stop, read_all, write_and_flush};
use dap_input::{Limits, Refused};
use dap_message::SwapRule;
use dap_normalise::{NormalSession, check_messages, normalise_messages, read_session};
use dap_order::put_in_order;
use dap_recording::RecordCause;
use dap_rename::Mode;
use dap_stored::{StoredMessage, StoredSession};
use std::alloc::{AllocError, Global};

/// Returns the text of the records of a recording in order.
///
/// [`put_in_order`] defines the order. Each record is written with the canonical content of its
/// message; ids are unchanged. The recording and the returned text are both checked in the same way
/// as by [`check`](dap_normalise::check) in this mode.
///
/// Reads the recording once. Buffers the canonical contents and the ids of its messages, and the
/// text. The text is checked before it is created, because its messages are known. An empty
/// recording does not allocate.
///
/// # Errors
///
/// - The first error of the recording, if it is rejected. Records are numbered from 1 in their
///   order in the recording.
/// - `Grew`: the recording is accepted, but its text in order or the normal form of that text
///   exceeds `limits`. Records are numbered from 1 in the order of the text.
/// - `TooManyIds`, only in `Mode::PerStop`: the recording is accepted, but its text in order has
///   too many ids in a class. If a message moves past a `stopped` event, its ids belong to another
///   class. Records are numbered from 1 in the order of the text.
/// - `Memory`: an allocation failed.
pub fn order_bytes(
    alloc: Global,
    rules: &[SwapRule],
    recording: &[u8],
    limits: Limits,
    mode: Mode,
) -> Result<Vec<u8>, Refused>
    requires limits { AreSound limits }
    ensures ok { IfOk result
        (λ text. Orders limits mode (swaps_of rules.now) recording.now text.items) }
    ensures err { IfErr result (RefusesToOrder limits mode (swaps_of rules.now) recording.now) }
    ensures empty { recording.now ≡ [] → IsOk result }
{
    if recording.is_empty() {
        return Ok(Vec::new(alloc));
    }
    let session = read_session(alloc, recording, limits, mode)?;
    text_in_order(alloc, rules, session, limits, mode)
}

/// Does the same as [`order_bytes`], and drops the recording once its messages are read.
fn order_recording(
    alloc: Global,
    rules: &[SwapRule],
    recording: Vec<u8>,
    limits: Limits,
    mode: Mode,
) -> Result<Vec<u8>, Refused>
    requires limits { AreSound limits }
    ensures ok { IfOk result
        (λ text. Orders limits mode (swaps_of rules.now) recording.items text.items) }
    ensures err { IfErr result (RefusesToOrder limits mode (swaps_of rules.now) recording.items) }
{
    let session = read_session(alloc, recording.as_slice(), limits, mode)?;
    drop(recording);
    text_in_order(alloc, rules, session, limits, mode)
}

/// Returns the text of the messages of an accepted recording in order.
///
/// # Errors
///
/// Those of [`order_bytes`] that concern the text in order.
fn text_in_order(
    alloc: Global,
    rules: &[SwapRule],
    session: StoredSession,
    limits: Limits,
    mode: Mode,
) -> Result<Vec<u8>, Refused>
    requires limits { AreSound limits }
    ensures ok { (recording : List ℕ)
        → IsAccepted limits mode recording (messages_of session)
        → IfOk result (λ text. Orders limits mode (swaps_of rules.now) recording text.items) }
    ensures err { (recording : List ℕ)
        → IsAccepted limits mode recording (messages_of session)
        → IfErr result (RefusesToOrder limits mode (swaps_of rules.now) recording) }
{
    let in_order = arranged(alloc, rules, session, limits, mode)?;
    text_of_session(alloc, &in_order, limits)
}

/// Returns the messages of an accepted recording in order. Their text is checked in the same way as
/// by [`check`](dap_normalise::check) in this mode, and is not created.
///
/// # Errors
///
/// Those of [`order_bytes`] that concern the text in order.
pub(crate) fn arranged(
    alloc: Global,
    rules: &[SwapRule],
    session: StoredSession,
    limits: Limits,
    mode: Mode,
) -> Result<StoredSession, Refused>
    requires limits { AreSound limits }
    ensures ok { (recording : List ℕ)
        → IsAccepted limits mode recording (messages_of session)
        → IfOk result (λ arranged_session. Arranges limits mode (swaps_of rules.now) recording
        (messages_of arranged_session)) }
    ensures err { (recording : List ℕ)
        → IsAccepted limits mode recording (messages_of session)
        → IfErr result (RefusesToOrder limits mode (swaps_of rules.now) recording) }
{
    let Ok(session) = in_order(alloc, rules, session) else {
        return Err(Refused::Memory);
    };
    let messages = views_within(alloc, &session, limits)?;
    check_messages(alloc, messages, limits, mode)?;
    Ok(session)
}

/// Returns the normal form of the text of the messages that [`arranged`] returns, and its counts.
/// Does not create that text.
///
/// # Errors
///
/// Those of [`arranged`].
pub(crate) fn normalise_in_order(
    alloc: Global,
    rules: &[SwapRule],
    session: StoredSession,
    limits: Limits,
    mode: Mode,
) -> Result<NormalSession, Refused>
    requires limits { AreSound limits }
    ensures ok { (recording : List ℕ)
        → IsAccepted limits mode recording (messages_of session)
        → IfOk result (NormalisesInOrder limits mode (swaps_of rules.now) recording) }
    ensures err { (recording : List ℕ)
        → IsAccepted limits mode recording (messages_of session)
        → IfErr result (RefusesToOrder limits mode (swaps_of rules.now) recording) }
{
    let Ok(session) = in_order(alloc, rules, session) else {
        return Err(Refused::Memory);
    };
    let messages = views_within(alloc, &session, limits)?;
    normalise_messages(alloc, messages, limits, mode)
}

/// Returns the messages of a session.
///
/// # Errors
///
/// - `Grew`: their text exceeds `limits`. Records are numbered from 1.
/// - `Memory`: an allocation failed.
pub(crate) fn views_within(
    alloc: Global,
    session: &StoredSession,
    limits: Limits,
) -> Result<Vec<StoredMessage<'_>>, Refused>
    requires { AreSound limits }
    ensures ok { IfOk result (λ views. AreWithin limits (messages_of session.now)
        (map stored_sent views.items)) }
    ensures err { IfErr result
        (λ because. Measures limits (messages_of session.now) (Err because)) }
{
    let Ok(messages) = session.views(alloc) else {
        return Err(Refused::Memory);
    };
    length_of_text(messages.as_slice(), limits)?;
    Ok(messages)
}

/// Returns a session with its messages in order.
fn in_order(
    alloc: Global,
    rules: &[SwapRule],
    session: StoredSession,
) -> Result<StoredSession, AllocError>
    ensures { IfOk result (λ ordered_session. messages_of ordered_session
        ≡ ordered (swaps_of rules.now) (messages_of session)) }
{
    let mut session = session;
    let places = places_in_order(alloc, rules, &session)?;
    session.arrange(alloc, places.as_slice())?;
    Ok(session)
}

/// Returns the places of the messages of a session in order.
pub(crate) fn places_in_order(
    alloc: Global,
    rules: &[SwapRule],
    session: &StoredSession,
) -> Result<Vec<usize>, AllocError>
    ensures { IfOk result (λ places. AreAt (messages_of session.now) places.items
        (ordered (swaps_of rules.now) (messages_of session.now))) }
{
    let messages = session.views(alloc)?;
    put_in_order(alloc, rules, messages.as_slice())
}

/// Reads a recording and writes its records in order, as [`order_bytes`] returns them.
///
/// Reads the whole input, at most one byte past `limits.input`, before it writes. If the input or
/// its text is rejected, nothing is written. The output is flushed.
///
/// # Errors
///
/// Those of [`order_bytes`], and:
///
/// - `ReadFault`: the reader failed, and the bytes read before contain no error other than being
///   incomplete.
/// - `WriteFault`: the writer failed. A prefix of the text was written.
pub fn order<R: Source, W: Sink>(
    alloc: Global,
    rules: &[SwapRule],
    reader: &mut R,
    writer: &mut W,
    limits: Limits,
    mode: Mode,
) -> Result<(), Refused>
    requires limits { AreSound limits }
    requires devices { CanRead R.Source reader.old × CanWrite W.Sink writer.old }

    // The text of the input in order is written and flushed. If the writer fails, a prefix of the
    // text is written and `WriteFault` is returned. With any other error, nothing is written.
    // `ReadFault` is returned only if the reader failed.
    ensures outcome { Answers R.Source W.Sink limits.input (Orders limits mode (swaps_of rules.now))
        (IsNotOrdered limits mode (swaps_of rules.now)) reader.old reader.new writer.old writer.new
        result }

    // If an allocation failed, a prefix of the input was read, or all of it.
    ensures memory { IsErrOf result Refused.Memory
        → ReadsSomeOrAll R.Source limits.input reader.old reader.new }

    // At most one byte past the limit is read.
    ensures taken { R.given reader.new ≤ R.given reader.old + limits.input + 1 }
{
    let input = match read_all(alloc, reader, limits.input) {
        Ok(input) => input,
        Err(_) => return Err(Refused::Memory),
    };
    let text = text_of_input(
        order_recording(alloc, rules, input.bytes, limits, mode),
        input.stop,
    )?;
    match write_and_flush(writer, text.as_slice()) {
        Ok(()) => Ok(()),
        Err(_) => Err(Refused::WriteFault),
    }
}

/// Returns the text to be written for an input, given the text for its bytes. If the reader failed
/// after them and they contain no error other than being incomplete, returns `ReadFault`.
pub(crate) fn text_of_input(text: Result<Vec<u8>, Refused>, stop: Stop) -> Result<Vec<u8>, Refused>
    ensures { result ≡ result_of_input text stop }
{
    match (text, stop) {
        (Ok(_), Stop::Failed) => Err(Refused::ReadFault),
        (Err(Refused::Record(_, RecordCause::Cut)), Stop::Failed) => Err(Refused::ReadFault),
        (text, _) => text,
    }
}
