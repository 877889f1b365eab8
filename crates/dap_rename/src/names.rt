//! The canonical numbers of the ids of messages, in the order in which they are received.
ghost use Rattle.std.specs.Prelude.{◌≡◌, ◌+◌, ◌<◌, ◌≤◌, List, [], ◌∷◌, ◌++◌, pos, length, true};
ghost use Rattle.std.specs.Prelude.{Err, IfOk, OnOk, OnErr, MatchOption, slice_index_or};
ghost use Rattle.dap_tree.specs.Ids as documents;
ghost use Rattle.dap_message.specs.Message.{Sent, sent};
ghost use Rattle.dap_message.specs.Numbers.{are_proper, renumbered};
ghost use Rattle.dap_rename.specs.Messages.{HasFewIds, HasTooManyIds, IsRenamed, class_after};
ghost use Rattle.dap_rename.specs.Messages.{with_numbers};
ghost use Rattle.dap_rename.specs.Modes.{stop_in};
ghost use Rattle.dap_rename.specs.Tables.{lists, added_all, names_from, limits, AllFit};
ghost use Rattle.dap_rename.specs.Tables.{SomeExceedsLimit};

use crate::mode::{Mode, begin_again_behind};
use crate::past::{PastClasses, numbers_of};
use crate::tables::Tables;
use crate::{NameFault, NameTable};
use dap_message::{AnyMessage, Message};
use dap_tree::Sort;
use std::alloc::{AllocError, Global};

/// The canonical numbers of the ids of the messages so far, with one interning table for each kind
/// of id.
#[derive(Drop)]
pub struct Names<T> {
    // The tables of frame ids and variables references contain the present class.
    tables: Tables<T>,
    mode: Mode,
    // One ended class of frame ids and one of variables references for each stop. Empty with
    // `Whole`.
    past: Vec<PastClasses>,
    alloc: Global,
}

impl<T: NameTable> Names<T> {
    ghost use Rattle.dap_rename.specs.Names.{AreEmpty, Represents, AreUnchanged, AreNamed};
    ghost use Rattle.dap_rename.specs.Names.{BeginAgain, mode_of, stops_of, numbers_at, limit_in};
    ghost use Rattle.dap_rename.specs.Names.{past_lists};
    ghost use Rattle.dap_rename.specs.Tables.{table_of};

    /// Returns the canonical numbers of no messages. Does not allocate.
    pub fn new(alloc: Global, tables: Tables<T>, mode: Mode) -> Names<T>
        requires { AreEmpty T.numbers tables }
        ensures represents { Represents T.numbers T.limit result [] }
        ensures mode { mode_of result ≡ mode }
        ensures limits { (s : Sort) → limit_in T.limit result s ≡ T.limit (table_of tables s) }
    {
        Names {
            tables,
            mode,
            past: Vec::new(alloc),
            alloc,
        }
    }

    /// Replaces each id of the message by its canonical number. A new id is assigned the next
    /// number of its class. After a stop, the next classes start at 1.
    ///
    /// # Errors
    ///
    /// - `Full`: a class would have more ids than the limit of its table.
    /// - `Memory`: an allocation failed.
    ///
    /// On an error the canonical numbers are unchanged, and the message is dropped.
    pub fn rename(&mut self, message: Message) -> Result<Message, NameFault>
        ensures renamed { IfOk result (λ new. (ms : List Sent)
            → Represents T.numbers T.limit self.old ms
            → IsRenamed (stop_in (mode_of self.old)) ms (sent message) (sent new)) }
        ensures represents { OnOk result ((ms : List Sent) → Represents T.numbers T.limit self.old
            ms
            → Represents T.numbers T.limit self.new (ms ++ sent message ∷ [])) }
        ensures few { OnOk result ((ms : List Sent) → Represents T.numbers T.limit self.old ms
            → HasFewIds (stop_in (mode_of self.old)) (limit_in T.limit self.old)
            (ms ++ sent message ∷ [])) }
        ensures full { result ≡ Err NameFault.Full → (ms : List Sent)
            → Represents T.numbers T.limit self.old ms
            → HasTooManyIds (stop_in (mode_of self.old)) (limit_in T.limit self.old)
            (ms ++ sent message ∷ []) }
        ensures refused { OnErr result (AreUnchanged T.numbers self.old self.new) }
        ensures mode { mode_of self.new ≡ mode_of self.old }
        ensures limits { (s : Sort) → limit_in T.limit self.new s ≡ limit_in T.limit self.old s }
    {
        let names = self.name_message(&message)?;
        Ok(message.replace_ids(names.as_slice()))
    }

    /// Returns the canonical numbers of the ids of a message, in the order of its ids. The message
    /// may represent its document in any way. A new id is assigned the next number of its class.
    /// After a stop, the next classes start at 1.
    ///
    /// # Errors
    ///
    /// - `Full`: a class would have more ids than the limit of its table.
    /// - `Memory`: an allocation failed.
    ///
    /// On an error the canonical numbers are unchanged.
    pub fn name_message<M: AnyMessage>(&mut self, message: &M) -> Result<Vec<i64>, NameFault>
        ensures renamed { IfOk result (λ names. (ms : List Sent)
            → Represents T.numbers T.limit self.old ms
            → IsRenamed (stop_in (mode_of self.old)) ms (M.sent message.now)
            (with_numbers (M.sent message.now) names.items)) }

        // Each id has one canonical number, and that of a variables reference is not 0.
        ensures count { IfOk result
            (λ names. length names.items ≡ length (documents.ids (M.sent message.now).doc)) }
        ensures proper { IfOk result
            (λ names. are_proper (renumbered (M.sent message.now).doc names.items) ≡ true) }
        ensures represents { OnOk result ((ms : List Sent) → Represents T.numbers T.limit self.old
            ms
            → Represents T.numbers T.limit self.new (ms ++ M.sent message.now ∷ [])) }
        ensures few { OnOk result ((ms : List Sent) → Represents T.numbers T.limit self.old ms
            → HasFewIds (stop_in (mode_of self.old)) (limit_in T.limit self.old)
            (ms ++ M.sent message.now ∷ [])) }
        ensures full { result ≡ Err NameFault.Full → (ms : List Sent)
            → Represents T.numbers T.limit self.old ms
            → HasTooManyIds (stop_in (mode_of self.old)) (limit_in T.limit self.old)
            (ms ++ M.sent message.now ∷ []) }
        ensures refused { OnErr result (AreUnchanged T.numbers self.old self.new) }
        ensures mode { mode_of self.new ≡ mode_of self.old }
        ensures limits { (s : Sort) → limit_in T.limit self.new s ≡ limit_in T.limit self.old s }
    {
        let mut ids = Vec::new(self.alloc);
        let Ok(()) = message.add_ids(&mut ids) else {
            return Err(NameFault::Memory);
        };
        let stops = begin_again_behind(self.mode, message);
        self.name_ids(ids.as_slice(), stops)
    }

    /// Returns the mode, which decides when canonical numbers restart. Does not allocate.
    pub fn mode(&self) -> Mode
        ensures { result ≡ mode_of self.now }
    {
        self.mode
    }

    /// Returns the number of stops so far, after each of which canonical numbers restarted; always
    /// 0 with `Whole`. Does not allocate.
    pub fn stops(&self) -> u64
        ensures { result ≡ stops_of self.now }
    {
        self.past.len() as u64
    }

    /// Returns the number of ids of this kind in its present class. Does not allocate.
    pub fn len(&self, sort: Sort) -> usize
        ensures { result ≡ length (numbers_at T.numbers self.now
            (class_after (stops_of self.now) sort)) }
    {
        self.tables.table(sort).len()
    }

    /// Returns the number of ids of this kind in the class after `stop` stops. Returns 0 if that
    /// class is not reached yet or does not exist: only frame ids and variables references have a
    /// class after a stop. Does not allocate.
    pub fn len_at(&self, sort: Sort, stop: u64) -> usize
        ensures { result ≡ length (numbers_at T.numbers self.now (sort, stop)) }
    {
        match self.put_by(sort, stop) {
            Some(numbers) => numbers.len(),
            None if stop == self.last(sort) => self.tables.table(sort).len(),
            None => 0,
        }
    }

    /// Returns the number at this index, from 0, of a class.
    pub(crate) fn number_at(&self, sort: Sort, stop: u64, index: usize) -> i64
        requires { index < length (numbers_at T.numbers self.now (sort, stop)) }
        ensures { result ≡ slice_index_or (numbers_at T.numbers self.now (sort, stop))
            index (pos 0) }
    {
        match self.put_by(sort, stop) {
            Some(numbers) => numbers[index],
            None => self.tables.table(sort).at(index as i64 + 1),
        }
    }

    /// Returns the stop of the present class of this kind.
    pub(crate) fn last(&self, sort: Sort) -> u64
        ensures { result ≡ (class_after (stops_of self.now) sort).1 }
    {
        match sort {
            Sort::Frame | Sort::Reference => self.stops(),
            _ => 0,
        }
    }

    // Returns the numbers of an ended class, or `None` if the class has not ended or does not
    // exist.
    fn put_by(&self, sort: Sort, stop: u64) -> Option<&[i64]>
        ensures { MatchOption result
            (length (past_lists self.now.past.items sort) ≤ stop)
            (λ numbers. (stop < length (past_lists self.now.past.items sort))
            × (numbers.now ≡ slice_index_or (past_lists self.now.past.items sort) stop [])) }
    {
        let past = self.past.get(stop as usize)?;
        match sort {
            Sort::Frame => Some(past.frames.as_slice()),
            Sort::Reference => Some(past.references.as_slice()),
            _ => None,
        }
    }

    // Returns the canonical number of each id. If `stops` is true, restarts canonical numbers after
    // them. On an error, the canonical numbers are unchanged.
    fn name_ids(&mut self, ids: &[(Sort, i64)], stops: bool) -> Result<Vec<i64>, NameFault>
        ensures named { IfOk result (λ v. v.items
            ≡ names_from (lists T.numbers self.old.tables) ids.now) }
        ensures grown { OnOk result (AreNamed T.numbers self.old self.new ids.now stops) }
        ensures fits { OnOk result (AllFit (limits T.limit self.old.tables)
            (added_all (lists T.numbers self.old.tables) ids.now)) }
        ensures full { result ≡ Err NameFault.Full → SomeExceedsLimit (limits T.limit
            self.old.tables)
            (added_all (lists T.numbers self.old.tables) ids.now) }
        ensures refused { OnErr result (AreUnchanged T.numbers self.old self.new) }
        ensures mode { mode_of self.new ≡ mode_of self.old }
        ensures same_limits { limits T.limit self.new.tables ≡ limits T.limit self.old.tables }
    {
        let lengths = self.tables.lengths();
        let names = self.tables.name_ids(self.alloc, ids)?;
        if stops && self.begin_again().is_err() {
            self.tables.cut(lengths);
            return Err(NameFault::Memory);
        }
        Ok(names)
    }

    // Saves the present classes of frame ids and variables references and starts the next ones. On
    // an error, the canonical numbers are unchanged.
    fn begin_again(&mut self) -> Result<(), AllocError>
        ensures begun { OnOk result (BeginAgain T.numbers self.old self.new) }
        ensures past { OnErr result (self.new.past.items ≡ self.old.past.items) }
        ensures tables { OnErr result (self.new.tables ≡ self.old.tables) }
        ensures mode { mode_of self.new ≡ mode_of self.old }
        ensures same_limits { limits T.limit self.new.tables ≡ limits T.limit self.old.tables }
    {
        let frames = numbers_of(self.alloc, &self.tables.frame)?;
        let references = numbers_of(self.alloc, &self.tables.reference)?;
        self.past.push(PastClasses { frames, references })?;
        self.tables.frame.cut(0);
        self.tables.reference.cut(0);
        Ok(())
    }
}
