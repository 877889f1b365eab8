//! Checks the records of a recording one after another, or their messages.
ghost use Rattle.std.specs.Prelude.{◌≡◌, ◌≤◌, List, [], OnErr, OnOk};
ghost use Rattle.dap_message.specs.Message.{Sent};
ghost use Rattle.dap_session.specs.Rules.{open_requests};
ghost use Rattle.dap_stored.specs.Sessions.{messages_of};
ghost use Rattle.dap_input.specs.Limits.{AreSound};
ghost use Rattle.dap_normalise.specs.NameTables.{AreReady};

use crate::messages::{append_record, count_record, push_record, read_flat, read_message};
use dap_flat_message::Measured;
use dap_input::{Limits, Refused};
use dap_message::{AnyMessage, Side};
use dap_recording::Record;
use dap_rename::{Mode, NameFault, NameTable, Names, Tables};
use dap_session::{Session, SessionFault};
use dap_stored::StoredSession;
use dap_tree::Scratch;
use std::alloc::Global;

/// The state after the accepted records so far, which is needed to check the next record. It
/// represents their messages, by the state of the session rules, the canonical numbers of their ids
/// and the length of their normal form.
///
/// A method that checks a record takes its number, counted from 1, and returns it in an error.
/// After an error, no clause says which messages the state represents.
#[derive(Drop)]
pub struct Judge<T> {
    session: Session,
    names: Names<T>,
    /// The length in bytes of the normal form so far.
    written: u64,
    limits: Limits,
    /// A buffer for the content that is written.
    content: Vec<u8>,
    ghost sound: { AreSound limits },
    ghost short: { written ≤ limits.input },
}

impl<T: NameTable + Drop> Judge<T> {
    ghost use Rattle.dap_normalise.specs.Accepting.{Payload, IsMessage};
    ghost use Rattle.dap_normalise.specs.JudgingSteps.{
      AddsMessage,
      ChecksRecord,
      IsSameOrLonger,
      JudgesRecord,
      RepresentsMessages,
      payload_of,
      judge_limits,
    };
    ghost use Rattle.dap_normalise.specs.JudgingSteps.{judge_mode};

    /// Returns the state before the first record. The tables must be empty, each with the limit
    /// `limits.ids`.
    pub fn new(alloc: Global, limits: Limits, tables: Tables<T>, mode: Mode) -> Judge<T>
        requires limits { AreSound limits }
        requires tables { AreReady T.numbers T.limit limits tables }
        ensures represents { RepresentsMessages T.numbers T.limit result [] [] }
        ensures limits { judge_limits result ≡ limits }
        ensures mode { judge_mode result ≡ mode }
    {
        Judge {
            session: Session::new(alloc),
            names: Names::new(alloc, tables, mode),
            written: 0,
            limits,
            content: Vec::new(alloc),
        }
    }

    /// Checks the record with this number, and appends the record of its normal form to `out`.
    ///
    /// Reads its content as a flat document, or as a tree if that is not possible. Reuses the
    /// buffer `scratch`.
    ///
    /// # Errors
    ///
    /// - The first error of the record.
    /// - `Memory`: an allocation failed.
    ///
    /// After an error, the contents of `out` are unchanged.
    pub fn judge(
        &mut self,
        alloc: Global,
        number: u64,
        whole: &Record,
        scratch: &mut Scratch,
        out: &mut Vec<u8>,
    ) -> Result<(), Refused>
        ensures judges { (messages normal : List Sent)
            → RepresentsMessages T.numbers T.limit self.old messages normal
            → JudgesRecord T.numbers T.limit messages normal (payload_of whole.now) number self.old
            self.new out.old.items out.new.items result }
        ensures limits { judge_limits self.new ≡ judge_limits self.old }
        ensures mode { judge_mode self.new ≡ judge_mode self.old }
        ensures kept { OnErr result (out.new.items ≡ out.old.items) }
    {
        let content = whole.content.as_slice();
        if let Some(message) = read_flat(alloc, number, whole.side, content, scratch)? {
            return self.judge_message(alloc, number, message, out);
        }
        let message = read_message(alloc, number, whole.side, content, scratch)?;
        self.judge_message(alloc, number, message, out)
    }

    /// Checks the record with this number as [`judge`](Judge::judge) does, but appends nothing. A
    /// flat document is not written: its length is enough.
    ///
    /// # Errors
    ///
    /// The same as those of [`judge`](Judge::judge).
    pub fn check(
        &mut self,
        alloc: Global,
        number: u64,
        whole: &Record,
        scratch: &mut Scratch,
    ) -> Result<(), Refused>
        ensures checks { (messages normal : List Sent)
            → RepresentsMessages T.numbers T.limit self.old messages normal
            → ChecksRecord T.numbers T.limit messages normal (payload_of whole.now) number self.old
            self.new result }
        ensures limits { judge_limits self.new ≡ judge_limits self.old }
        ensures mode { judge_mode self.new ≡ judge_mode self.old }
    {
        let content = whole.content.as_slice();
        if let Some(message) = read_flat(alloc, number, whole.side, content, scratch)? {
            return self.check_message(number, &message);
        }
        let message = read_message(alloc, number, whole.side, content, scratch)?;
        let mut text = Vec::new(alloc);
        self.judge_message(alloc, number, message, &mut text)
    }

    /// Checks the record with this number as [`check`](Judge::check) does, and appends its message
    /// to `session`.
    ///
    /// # Errors
    ///
    /// The same as those of [`judge`](Judge::judge). If it is an error of the session rules, the
    /// ids or the length, the message was appended.
    pub fn store(
        &mut self,
        alloc: Global,
        number: u64,
        whole: &Record,
        scratch: &mut Scratch,
        session: &mut StoredSession,
    ) -> Result<(), Refused>
        ensures checks { (messages normal : List Sent)
            → RepresentsMessages T.numbers T.limit self.old messages normal
            → ChecksRecord T.numbers T.limit messages normal (payload_of whole.now) number self.old
            self.new result }
        ensures stored { OnOk result (AddsMessage (payload_of whole.now)
            (messages_of session.old) (messages_of session.new)) }
        ensures kept { OnErr result
            (IsSameOrLonger (messages_of session.old) (messages_of session.new)) }
        ensures limits { judge_limits self.new ≡ judge_limits self.old }
        ensures mode { judge_mode self.new ≡ judge_mode self.old }
    {
        let place = session.len();
        push_record(alloc, number, whole, scratch, session)?;
        let Some(message) = session.message(place) else {
            unreachable!()
        };
        self.check_message(number, &message)
    }

    /// Checks the message of the record with this number, and appends the record of its normal form
    /// to `out`. The message may represent its document in any way.
    ///
    /// # Errors
    ///
    /// - The first error of the message: a session rule, `TooManyIds` or `Grew`.
    /// - `Memory`: an allocation failed.
    ///
    /// After an error, the contents of `out` are unchanged.
    pub fn judge_message<M: AnyMessage + Drop>(
        &mut self,
        alloc: Global,
        number: u64,
        message: M,
        out: &mut Vec<u8>,
    ) -> Result<(), Refused>
        ensures judges { (messages normal : List Sent) (held : Payload)
            → RepresentsMessages T.numbers T.limit self.old messages normal
            → IsMessage held (M.sent message)
            → JudgesRecord T.numbers T.limit messages normal held number self.old self.new
            out.old.items out.new.items result }
        ensures limits { judge_limits self.new ≡ judge_limits self.old }
        ensures mode { judge_mode self.new ≡ judge_mode self.old }
        ensures kept { OnErr result (out.new.items ≡ out.old.items) }
    {
        match self.session.accept_any(&message) {
            Ok(()) => {}
            Err(SessionFault::Broken(rule)) => return Err(Refused::Rule(number, rule)),
            Err(SessionFault::Memory) => return Err(Refused::Memory),
        }
        let names = match self.names.name_message(&message) {
            Ok(names) => names,
            Err(NameFault::Full) => return Err(Refused::TooManyIds(number)),
            Err(NameFault::Memory) => return Err(Refused::Memory),
        };
        let side = message.side();
        self.content.clear();
        let Ok(()) = message.write_with_ids(alloc, names.as_slice(), &mut self.content) else {
            return Err(Refused::Memory);
        };
        let content = self.content.as_slice();
        self.written = append_record(number, side, content, self.written, self.limits, out)?;
        Ok(())
    }

    /// Checks the message of the record with this number, and counts the bytes of the record of its
    /// normal form.
    ///
    /// # Errors
    ///
    /// Those of [`judge_message`](Judge::judge_message).
    pub fn check_message<M: Measured>(&mut self, number: u64, message: &M) -> Result<(), Refused>
        ensures checks { (messages normal : List Sent) (held : Payload)
            → RepresentsMessages T.numbers T.limit self.old messages normal
            → IsMessage held (M.sent message.now)
            → ChecksRecord T.numbers T.limit messages normal held number self.old self.new result }
        ensures limits { judge_limits self.new ≡ judge_limits self.old }
        ensures mode { judge_mode self.new ≡ judge_mode self.old }
    {
        match self.session.accept_any(message) {
            Ok(()) => {}
            Err(SessionFault::Broken(rule)) => return Err(Refused::Rule(number, rule)),
            Err(SessionFault::Memory) => return Err(Refused::Memory),
        }
        let names = match self.names.name_message(message) {
            Ok(names) => names,
            Err(NameFault::Full) => return Err(Refused::TooManyIds(number)),
            Err(NameFault::Memory) => return Err(Refused::Memory),
        };
        let limit = self.limits.frame.content;
        let Some(content_len) = message.length_with_ids(names.as_slice(), limit) else {
            return Err(Refused::Grew(number));
        };
        self.written = count_record(number, content_len, self.written, self.limits)?;
        Ok(())
    }

    /// Returns the canonical numbers of the ids in the messages so far.
    pub fn names(&self) -> &Names<T>
        ensures { result.now ≡ self.now.names }
    {
        &self.names
    }

    /// Returns the number of requests of that side that have no response.
    pub fn open(&self, side: Side) -> usize
        ensures { (messages normal : List Sent)
            → RepresentsMessages T.numbers T.limit self.now messages normal
            → result ≡ open_requests side messages }
    {
        self.session.open(side)
    }
}
