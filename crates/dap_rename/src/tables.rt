//! One interning table for each kind of id.
ghost use Rattle.std.specs.Prelude.{◌≡◌, ◌<◌, ◌≤◌, ◌^◌, false, Err, IfOk, OnOk, OnErr, length};
ghost use Rattle.std.specs.Prelude.{take};
ghost use Rattle.dap_rename.specs.PlainNames.{plain_limit, plain_numbers};
ghost use Rattle.dap_rename.specs.Table.{has, place};
ghost use Rattle.dap_rename.specs.Names.{AreEmpty};
ghost use Rattle.dap_rename.specs.Sorts.{EachSort};
ghost use Rattle.dap_rename.specs.Tables.{table_of, lists, counts, added, added_all, names_from};
ghost use Rattle.dap_rename.specs.Tables.{AllExtend, limits, AllFit, SomeExceedsLimit};

use crate::{NameFault, NameTable, PlainNames};
use dap_tree::Sort;
use std::alloc::Global;

/// A table for each kind of id.
#[derive(Drop)]
pub struct Tables<T> {
    pub client_seq: T,
    pub adapter_seq: T,
    pub frame: T,
    pub reference: T,
    pub thread: T,
    pub breakpoint: T,
}

impl<T> Tables<T> {
    /// Returns the table of the kind.
    pub(crate) fn table(&self, sort: Sort) -> &T
        ensures { result.now ≡ table_of self.now sort }
    {
        match sort {
            Sort::ClientSeq => &self.client_seq,
            Sort::AdapterSeq => &self.adapter_seq,
            Sort::Frame => &self.frame,
            Sort::Reference => &self.reference,
            Sort::Thread => &self.thread,
            Sort::Breakpoint => &self.breakpoint,
        }
    }
}

impl Tables<PlainNames> {
    /// Returns empty tables that search linearly, each for at most `limit` numbers. Does not
    /// allocate.
    pub fn plain(alloc: Global, limit: usize) -> Tables<PlainNames>
        requires { limit < 2 ^ 31 }
        ensures empty { AreEmpty plain_numbers result }
        ensures limits { (s : Sort) → plain_limit (table_of result s) ≡ limit }
    {
        Tables {
            client_seq: PlainNames::new(alloc, limit),
            adapter_seq: PlainNames::new(alloc, limit),
            frame: PlainNames::new(alloc, limit),
            reference: PlainNames::new(alloc, limit),
            thread: PlainNames::new(alloc, limit),
            breakpoint: PlainNames::new(alloc, limit),
        }
    }
}

impl<T: NameTable> Tables<T> {
    // Returns the canonical number of each id. On an error, all tables are unchanged.
    pub(crate) fn name_ids(
        &mut self,
        alloc: Global,
        ids: &[(Sort, i64)],
    ) -> Result<Vec<i64>, NameFault>
        ensures named { IfOk result (λ v. v.items ≡ names_from (lists T.numbers self.old) ids.now) }
        ensures grown { OnOk result
            (lists T.numbers self.new ≡ added_all (lists T.numbers self.old) ids.now) }
        ensures refused { OnErr result (lists T.numbers self.new ≡ lists T.numbers self.old) }
        ensures fits { OnOk result
            (AllFit (limits T.limit self.old) (added_all (lists T.numbers self.old) ids.now)) }
        ensures full { result ≡ Err NameFault.Full
            → SomeExceedsLimit (limits T.limit self.old)
            (added_all (lists T.numbers self.old) ids.now) }
        ensures same_limits { limits T.limit self.new ≡ limits T.limit self.old }
    {
        let lengths = self.lengths();
        match self.name_all(alloc, ids) {
            Ok(names) => Ok(names),
            Err(fault) => {
                self.cut(lengths);
                Err(fault)
            }
        }
    }

    fn name_all(&mut self, alloc: Global, ids: &[(Sort, i64)]) -> Result<Vec<i64>, NameFault>
        ensures named { IfOk result (λ v. v.items ≡ names_from (lists T.numbers self.old) ids.now) }
        ensures grown { OnOk result
            (lists T.numbers self.new ≡ added_all (lists T.numbers self.old) ids.now) }
        ensures begins { AllExtend (lists T.numbers self.old) (lists T.numbers self.new) }
        ensures full { result ≡ Err NameFault.Full
            → SomeExceedsLimit (limits T.limit self.old)
            (added_all (lists T.numbers self.old) ids.now) }
        ensures same_limits { limits T.limit self.new ≡ limits T.limit self.old }
    {
        let mut names = Vec::new(alloc);
        for id in ids {
            let name = self.name(*id)?;
            if names.push(name).is_err() {
                return Err(NameFault::Memory);
            }
        }
        Ok(names)
    }

    fn name(&mut self, id: (Sort, i64)) -> Result<i64, NameFault>
        ensures named { IfOk result (λ n. n
            ≡ place (table_of (lists T.numbers self.old) id.0) id.1) }
        ensures grown { OnOk result
            (lists T.numbers self.new ≡ added (lists T.numbers self.old) id.0 id.1) }
        ensures refused { OnErr result (lists T.numbers self.new ≡ lists T.numbers self.old) }
        ensures full { result ≡ Err NameFault.Full
            → (has (table_of (lists T.numbers self.old) id.0) id.1 ≡ false)
            × (table_of (limits T.limit self.old) id.0
            ≤ length (table_of (lists T.numbers self.old) id.0)) }
        ensures same_limits { limits T.limit self.new ≡ limits T.limit self.old }
    {
        match id.0 {
            Sort::ClientSeq => self.client_seq.name(id.1),
            Sort::AdapterSeq => self.adapter_seq.name(id.1),
            Sort::Frame => self.frame.name(id.1),
            Sort::Reference => self.reference.name(id.1),
            Sort::Thread => self.thread.name(id.1),
            Sort::Breakpoint => self.breakpoint.name(id.1),
        }
    }

    /// Returns the length of each table.
    pub(crate) fn lengths(&self) -> Tables<usize>
        ensures { result ≡ counts T.numbers self.now }
    {
        Tables {
            client_seq: self.client_seq.len(),
            adapter_seq: self.adapter_seq.len(),
            frame: self.frame.len(),
            reference: self.reference.len(),
            thread: self.thread.len(),
            breakpoint: self.breakpoint.len(),
        }
    }

    /// Truncates each table to the given length.
    pub(crate) fn cut(&mut self, lengths: Tables<usize>)
        requires { EachSort (λ s. table_of lengths s ≤ length (T.numbers (table_of self.old s))) }
        ensures cut { EachSort (λ s. T.numbers (table_of self.new s)
            ≡ take (table_of lengths s) (T.numbers (table_of self.old s))) }
        ensures same_limits { limits T.limit self.new ≡ limits T.limit self.old }
    {
        self.client_seq.cut(lengths.client_seq);
        self.adapter_seq.cut(lengths.adapter_seq);
        self.frame.cut(lengths.frame);
        self.reference.cut(lengths.reference);
        self.thread.cut(lengths.thread);
        self.breakpoint.cut(lengths.breakpoint);
    }
}
