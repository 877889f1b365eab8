//! The requests of one side, by their numbers.
ghost use Rattle.std.specs.Prelude.{◌≡◌, ◌+◌, ◌-◌, ◌++◌, ◌<◌, ◌≤◌, [], ◌∷◌, List, ℕ, length};
ghost use Rattle.std.specs.Prelude.{slice_set, slice_index_or, replicate};
ghost use Rattle.std.specs.Prelude.{Some, None, option_map, OnOk, OnErr, IfOk, IfSome, false, true};
ghost use Rattle.std.specs.Rc.{rc_str_bytes};
ghost use Rattle.dap_session.specs.SessionState.{no_requests, index_from, held_slot, new_slot};
ghost use Rattle.dap_session.specs.SessionState.{request_numbered, with_noted, with_answer};
ghost use Rattle.dap_session.specs.SessionState.{other_numbered, with_other_answer};
ghost use Rattle.dap_session.specs.Stored.{noted_of, entries_of, slots_of, stored};

use std::alloc::{AllocError, Global};
use std::collections::BTreeMap;
use std::rc::RcStr;

/// A request that was accepted.
#[derive(Drop)]
pub struct Request {
    pub command: RcStr,
    pub answered: bool,
}

/// The requests of one side by their numbers.
///
/// A sender counts its messages, so most requests are in the slot of their number, counted from the
/// first request. A request is in an ordered map if its number is less than the first one, or skips
/// more than one number.
#[derive(Drop)]
pub struct Store {
    first: i64,
    slots: Vec<Option<Request>>,
    others: BTreeMap<i64, Request>,
}

impl Store {
    pub fn new(alloc: Global) -> Store
        ensures { stored result ≡ no_requests }
    {
        Store {
            first: 0,
            slots: Vec::new(alloc),
            others: BTreeMap::new(alloc),
        }
    }

    /// Returns the request with this number.
    pub fn find(&self, number: i64) -> Option<&Request>
        ensures { option_map (λ r. noted_of r.now) result
            ≡ request_numbered number (stored self.now) }
    {
        match self.held_slot(number) {
            Some(index) => self.slots[index].as_ref(),
            None => self.others.get(&number),
        }
    }

    /// Returns the command of the request in the last slot, if it is this one.
    pub fn last_command(&self, command: &str) -> Result<Option<RcStr>, AllocError>
        ensures { IfOk result
            (λ last. IfSome last (λ shared. rc_str_bytes shared ≡ command.now)) }
    {
        match self.slots.last() {
            Some(Some(request)) => same_command(&request.command, command),
            _ => Ok(None),
        }
    }

    /// Stores a request with a new number. After an allocation failure nothing is changed.
    pub fn put(&mut self, number: i64, request: Request) -> Result<(), AllocError>
        ensures ok { OnOk result
            (stored self.new ≡ with_noted number (noted_of request) (stored self.old)) }
        ensures err { OnErr result (stored self.new ≡ stored self.old) }
    {
        if self.slots.is_empty() {
            self.slots.push(Some(request))?;
            self.first = number;
            return Ok(());
        }
        match new_slot(self.index_of(number), self.slots.len()) {
            Some(index) => put_slot(&mut self.slots, index, request),
            None => {
                self.others.insert(number, request)?;
                Ok(())
            }
        }
    }

    /// Marks the request with this number, which has this command and no response, as answered.
    pub fn answer(&mut self, number: i64, command: &str)
        requires { request_numbered number (stored self.old) ≡ Some (command.now, false) }
        ensures { stored self.new ≡ with_answer number command.now (stored self.old) }
    {
        match self.held_slot(number) {
            Some(index) => answer_slot(&mut self.slots, index),
            None => answer_other(&mut self.others, number),
        }
    }

    /// Returns the index of the number's slot, if it contains a request.
    #[inline(always)]
    fn held_slot(&self, number: i64) -> Option<usize>
        ensures slot { result ≡ held_slot number (stored self.now) }
        ensures within { IfSome result (λ i. i < length self.now.slots.items) }
    {
        let index = self.index_of(number)?;
        if index >= self.slots.len() {
            return None;
        }
        if self.slots[index].is_some() {
            Some(index)
        } else {
            None
        }
    }

    /// Returns the index of the number's slot, counted from the first request.
    #[inline(always)]
    fn index_of(&self, number: i64) -> Option<usize>
        ensures { result ≡ index_from self.now.first number }
    {
        if number < self.first {
            None
        } else {
            Some(number.abs_diff(self.first) as usize)
        }
    }
}

/// Returns a copy of the stored command, if it is this one. The text is not copied.
fn same_command(stored: &RcStr, command: &str) -> Result<Option<RcStr>, AllocError>
    ensures { IfOk result (λ last. IfSome last (λ shared. rc_str_bytes shared ≡ command.now)) }
{
    if stored.as_str() != command {
        return Ok(None);
    }
    Ok(Some(stored.clone()?))
}

/// Returns the index if it is that of a new slot, which skips at most one number.
#[inline(always)]
fn new_slot(index: Option<usize>, len: usize) -> Option<usize>
    ensures slot { result ≡ new_slot index len }
    ensures after { IfSome result (λ i. len ≤ i) }
    ensures near { IfSome result (λ i. i ≤ len + 1) }
{
    let index = index?;
    if index < len {
        return None;
    }
    if index - len <= 1 { Some(index) } else { None }
}

/// Stores a request in a new slot. After an allocation failure nothing is changed.
fn put_slot(
    slots: &mut Vec<Option<Request>>,
    index: usize,
    request: Request,
) -> Result<(), AllocError>
    requires after { length slots.old.items ≤ index }
    requires near { index ≤ length slots.old.items + 1 }
    ensures ok { OnOk result (slots_of slots.new.items ≡ slots_of slots.old.items
        ++ (replicate (index - length slots.old.items) None
        ++ Some (noted_of request) ∷ [])) }
    ensures err { OnErr result (slots.new.items ≡ slots.old.items) }
{
    let before = slots.len();
    if before < index {
        slots.push(None)?;
    }
    match slots.push(Some(request)) {
        Ok(()) => Ok(()),
        Err(_) => {
            slots.truncate(before);
            Err(AllocError)
        }
    }
}

/// Marks the request in the slot as answered.
#[inline(always)]
fn answer_slot(slots: &mut Vec<Option<Request>>, index: usize)
    requires { index < length slots.old.items }
    ensures { (command : List ℕ)
        → slice_index_or (slots_of slots.old.items) index None ≡ Some (command, false)
        → slots_of slots.new.items
        ≡ slice_set (slots_of slots.old.items) index (Some (command, true)) }
{
    let slot = &mut slots[index];
    if let Some(request) = slot {
        request.answered = true;
    }
}

/// Marks the request with this number as answered.
fn answer_other(others: &mut BTreeMap<i64, Request>, number: i64)
    ensures { (command : List ℕ)
        → other_numbered number (entries_of others.old.entries) ≡ Some (command, false)
        → entries_of others.new.entries
        ≡ with_other_answer number command (entries_of others.old.entries) }
{
    if let Some(request) = others.get_mut(&number) {
        request.answered = true;
    }
}
