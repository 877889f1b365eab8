//! The records of an input one by one, each with the record of its normal form.
ghost use Rattle.std.specs.Prelude.{◌≡◌, ◌+◌, ◌-◌, ◌<◌, ◌^◌, ℕ, List, [], IfErr, IfOk, IsTrue};
ghost use Rattle.std.specs.Prelude.{IsOk, OnErr};
ghost use Rattle.dap_message.specs.Message.{Sent};
ghost use Rattle.dap_rename.specs.{Messages.equal_places, Modes.stop_in};
ghost use Rattle.dap_rename.specs.Names.{HaveEqualCounts, HaveNoNumbers, Represents, mode_of};
ghost use Rattle.dap_rename.specs.{Pairs.entries, Renaming.pairs_of};
ghost use Rattle.dap_session.specs.Rules.{open_requests};
ghost use Rattle.dap_stored.specs.Sessions.{messages_of};
ghost use Rattle.dap_input.specs.Limits.{AreSound};
ghost use Rattle.dap_normalise.specs.NameTables.{AreReady};

use crate::judging::Judge;
use dap_device::Source;
use dap_input::{Limits, Records, Refused};
use dap_message::Side;
use dap_recording::RecordReader;
use dap_rename::{Mode, NameFault, NameTable, Renaming, Tables};
use dap_stored::StoredSession;
use dap_tree::Scratch;
use std::alloc::{AllocError, Global};

/// The records of an input. Those before the next one are accepted. Buffers one record at a time.
#[derive(Drop)]
pub struct NormalRecords<T> {
    records: Records<RecordReader>,
    judge: Judge<T>,
    /// A buffer for reading a content.
    scratch: Scratch,
}

impl<T: NameTable + Drop> NormalRecords<T> {
    ghost use Rattle.dap_normalise.specs.JudgingSteps.{RepresentsMessages as JudgeStandsFor};
    ghost use Rattle.dap_normalise.specs.NormalSteps.{ChecksNext, HasNext, IsBuffered};
    ghost use Rattle.dap_normalise.specs.NormalSteps.{RepresentsBefore, StoresNext};

    /// Returns the records of an input before the first one is read.
    ///
    /// # Errors
    ///
    /// - `AllocError`: an allocation failed.
    pub fn new(
        alloc: Global,
        limits: Limits,
        tables: Tables<T>,
        mode: Mode,
    ) -> Result<NormalRecords<T>, AllocError>
        requires limits { AreSound limits }
        requires tables { AreReady T.numbers T.limit limits tables }
        ensures represents { IfOk result
            (λ records. RepresentsBefore T.numbers T.limit limits mode [] records [] []) }
    {
        let reader = RecordReader::new(alloc, limits.frame);
        Ok(NormalRecords {
            records: Records::new(alloc, reader, limits.input)?,
            judge: Judge::new(alloc, limits, tables, mode),
            scratch: Scratch::new(alloc),
        })
    }

    /// Returns the number of the next record, counted from 1.
    pub fn number(&self) -> u64
        ensures { result ≡ self.now.records.number }
    {
        self.records.number()
    }

    /// Returns the number of requests of that side that have no response.
    pub fn open(&self, side: Side) -> usize
        ensures { (messages normal : List Sent)
            → JudgeStandsFor T.numbers T.limit self.now.judge messages normal
            → result ≡ open_requests side messages }
    {
        self.judge.open(side)
    }

    /// Returns whether the complete next record is buffered, so that [`next`](NormalRecords::next)
    /// does not need to read. Does not allocate.
    pub fn has_next(&self) -> bool
        ensures { (limits : Limits) (mode : Mode) (bytes : List ℕ)
            (messages normal : List Sent)
            → RepresentsBefore T.numbers T.limit limits mode bytes self.now messages normal
            → IsTrue result → IsBuffered limits self.now }
    {
        self.records.has_next()
    }

    /// Reads and checks the next record, and appends the record of its normal form to `text`.
    /// Returns `false` if the input has ended and is accepted.
    ///
    /// # Errors
    ///
    /// - The first error of the input, if the next record has one.
    /// - `ReadFault`: the reader failed, and the bytes read so far contain no error other than
    ///   being incomplete.
    /// - `Memory`: an allocation failed.
    ///
    /// The contents of `text` are unchanged.
    pub fn next<R: Source>(
        &mut self,
        alloc: Global,
        reader: &mut R,
        text: &mut Vec<u8>,
    ) -> Result<bool, Refused>
        requires number { self.old.records.number < 2 ^ 63 }
        requires given { R.given
            reader.old + (self.old.records.pieces.limit - self.old.records.pieces.taken) < 2 ^ 63 }
        requires failures { R.failures reader.old < 2 ^ 63 }
        ensures next { (limits : Limits) (mode : Mode) (bytes : List ℕ)
            (messages normal : List Sent)
            → RepresentsBefore T.numbers T.limit limits mode bytes self.old messages normal
            → HasNext T.numbers T.limit R.Source limits mode bytes messages normal
            self.old self.new reader.old reader.new text.old.items text.new.items result }
        ensures kept { OnErr result (text.new.items ≡ text.old.items) }

        // If the record is buffered, nothing is read.
        ensures at_hand { (limits : Limits) (mode : Mode) (bytes : List ℕ)
            (messages normal : List Sent)
            → RepresentsBefore T.numbers T.limit limits mode bytes self.old messages normal
            → IsBuffered limits self.old → R.given reader.new ≡ R.given reader.old }
    {
        let number = self.records.number();
        let Some(whole) = self.records.next(reader)? else {
            return Ok(false);
        };
        self.judge
            .judge(alloc, number, &whole, &mut self.scratch, text)?;
        self.records.recycle(whole);
        Ok(true)
    }

    /// Reads and checks the next record as [`next`](NormalRecords::next) does, without the record
    /// of its normal form. Returns `false` if the input has ended and is accepted.
    ///
    /// # Errors
    ///
    /// The same as those of [`next`](NormalRecords::next).
    pub fn check_next<R: Source>(&mut self, alloc: Global, reader: &mut R) -> Result<bool, Refused>
        requires number { self.old.records.number < 2 ^ 63 }
        requires given { R.given
            reader.old + (self.old.records.pieces.limit - self.old.records.pieces.taken) < 2 ^ 63 }
        requires failures { R.failures reader.old < 2 ^ 63 }
        ensures { (limits : Limits) (mode : Mode) (bytes : List ℕ) (messages normal : List Sent)
            → RepresentsBefore T.numbers T.limit limits mode bytes self.old messages normal
            → ChecksNext T.numbers T.limit R.Source limits mode bytes messages normal
            self.old self.new reader.old reader.new result }
    {
        let number = self.records.number();
        let Some(whole) = self.records.next(reader)? else {
            return Ok(false);
        };
        self.judge.check(alloc, number, &whole, &mut self.scratch)?;
        self.records.recycle(whole);
        Ok(true)
    }

    /// Reads and checks the next record as [`check_next`](NormalRecords::check_next) does, and
    /// appends its message to `session`. Returns `false` if the input has ended and is accepted.
    ///
    /// # Errors
    ///
    /// The same as those of [`next`](NormalRecords::next). The message of the rejected record may
    /// have been appended.
    pub fn store_next<R: Source>(
        &mut self,
        alloc: Global,
        reader: &mut R,
        session: &mut StoredSession,
    ) -> Result<bool, Refused>
        requires number { self.old.records.number < 2 ^ 63 }
        requires given { R.given
            reader.old + (self.old.records.pieces.limit - self.old.records.pieces.taken) < 2 ^ 63 }
        requires failures { R.failures reader.old < 2 ^ 63 }
        ensures { (limits : Limits) (mode : Mode) (bytes : List ℕ) (messages normal : List Sent)
            → RepresentsBefore T.numbers T.limit limits mode bytes self.old messages normal
            → StoresNext T.numbers T.limit R.Source limits mode bytes messages normal
            self.old self.new reader.old reader.new (messages_of session.old)
            (messages_of session.new) result }
    {
        let number = self.records.number();
        let Some(whole) = self.records.next(reader)? else {
            return Ok(false);
        };
        self.judge
            .store(alloc, number, &whole, &mut self.scratch, session)?;
        self.records.recycle(whole);
        Ok(true)
    }

    /// Returns the renaming that maps the numbers of these records to those of `other` with the
    /// same canonical numbers. Does not allocate if no id has a number.
    ///
    /// # Errors
    ///
    /// - `Memory`: an allocation failed.
    pub fn renaming_to(
        &self,
        alloc: Global,
        other: &NormalRecords<T>,
    ) -> Result<Renaming, NameFault>
        requires { HaveEqualCounts T.numbers self.now.judge.names other.now.judge.names }
        ensures pairs { IfOk result (λ renaming. (messages others : List Sent)
            → Represents T.numbers T.limit self.now.judge.names messages
            → Represents T.numbers T.limit other.now.judge.names others
            → entries (pairs_of renaming)
            ≡ equal_places (stop_in (mode_of self.now.judge.names)) messages others) }
        ensures memory { IfErr result (λ f. f ≡ NameFault.Memory) }
        ensures empty { HaveNoNumbers T.numbers self.now.judge.names → IsOk result }
    {
        Renaming::between(alloc, self.judge.names(), other.judge.names())
    }
}
