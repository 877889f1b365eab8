//! The numbers of the values of each label.
ghost use Rattle.std.specs.Prelude.{◌≡◌, ℕ, ◌+◌, ◌<◌, ◌≤◌, ◌^◌, true, cond, List, [], ◌∷◌, Some};
ghost use Rattle.std.specs.Prelude.{IfOk, OnOk, bytes_eq, unwrap_or};
ghost use Rattle.dap_tokens.specs.Tokens.{is_label};

use crate::fault::NamingFault;
use std::alloc::{AllocError, Global};
use std::collections::BTreeMap;
use std::mem;

/// The numbers of the values of each label so far. Each label has at most as many values as the
/// limit, which is at most 2,147,483,647.
#[derive(Drop)]
pub struct ValueNumbers {
    // The number at each key: the label, a blank, and the value, in reverse. Most values differ in
    // their last digits, so two keys are compared by few bytes.
    numbers: BTreeMap<Vec<u8>, u64>,
    // The count of the values of each label.
    counts: BTreeMap<String, u64>,
    limit: u64,
    ghost small: { limit < 2 ^ 31 },
}

impl ValueNumbers {
    ghost use Rattle.dap_naming.specs.Known.{key, number_at, count_of, limit_of, Knows, Names};
    ghost use Rattle.dap_naming.specs.Known.{HasRoom, IsFull, Keeps};

    /// Returns the numbers of no value. Does not allocate.
    pub fn new(alloc: Global, limit: u64) -> ValueNumbers
        requires { limit < 2 ^ 31 }
        ensures empty { Knows result [] }
        ensures limit { limit_of result ≡ limit }
    {
        ValueNumbers {
            numbers: BTreeMap::new(alloc),
            counts: BTreeMap::new(alloc),
            limit,
        }
    }

    /// Returns the number of a value of a label. A new value takes the next number of its label,
    /// from 1.
    ///
    /// # Errors
    ///
    /// - `Full`: the value is new, and the label has as many values as the limit.
    /// - `Memory`: an allocation failed.
    ///
    /// After an error the numbers must not be used again.
    pub fn number(&mut self, alloc: Global, label: &str, value: &[u8]) -> Result<u64, NamingFault>
        requires { is_label label.now ≡ true }
        ensures number { IfOk result (λ n. Names self.old self.new ((label.now, value.now) ∷ [])
            (λ number. number label.now value.now ≡ n)) }
        ensures held { IfOk result
            (λ n. number_at self.new (key label.now value.now) ≡ Some n) }
        ensures keeps { IfOk result (λ n. Keeps self.old self.new) }
        ensures room { IfOk result (λ n. HasRoom self.old (label.now, value.now)) }
        ensures full { result ≡ Err NamingFault.Full → IsFull self.old (label.now, value.now) }
        ensures limit { limit_of self.new ≡ limit_of self.old }
    {
        let key = ValueNumbers::key(alloc, label, value)?;
        if let Some(number) = self.at(&key) {
            return Ok(number);
        }
        let number = self.next(label)?;
        self.add(alloc, label, key, number)?;
        Ok(number)
    }

    pub(crate) fn at(&self, key: &Vec<u8>) -> Option<u64>
        ensures { result ≡ number_at self.now key.now.items }
    {
        self.numbers.get(key.as_slice()).copied()
    }

    fn count(&self, label: &str) -> u64
        ensures { result ≡ count_of self.now label.now }
    {
        self.counts.get(label).copied().unwrap_or(0)
    }

    // Returns the next number of a label.
    pub(crate) fn next(&self, label: &str) -> Result<u64, NamingFault>
        ensures next { IfOk result (λ n. n ≡ count_of self.now label.now + 1) }
        ensures room { OnOk result (count_of self.now label.now < limit_of self.now) }
        ensures full { result ≡ Err NamingFault.Full
            → limit_of self.now ≤ count_of self.now label.now }
    {
        let count = self.count(label);
        if count >= self.limit {
            return Err(NamingFault::Full);
        }
        Ok(count + 1)
    }

    // Exchanges the numbers of the values. The counts stay.
    pub(crate) fn swap_numbers(&mut self, numbers: &mut BTreeMap<Vec<u8>, u64>)
        ensures numbers { self.new.numbers ≡ numbers.old }
        ensures others { numbers.new ≡ self.old.numbers }
        ensures counts { self.new.counts ≡ self.old.counts }
        ensures limit { limit_of self.new ≡ limit_of self.old }
    {
        mem::swap(&mut self.numbers, numbers);
    }

    // Adds the value with this key, whose number is the new count of its label.
    pub(crate) fn add(
        &mut self,
        alloc: Global,
        label: &str,
        key: Vec<u8>,
        number: u64,
    ) -> Result<(), AllocError>
        ensures numbers { OnOk result ((k : List ℕ) → number_at self.new k
            ≡ cond (bytes_eq key.items k) (Some number) (number_at self.old k)) }
        ensures counts { OnOk result ((l : List ℕ) → count_of self.new l
            ≡ cond (bytes_eq label.now l) number (count_of self.old l)) }
        ensures limit { limit_of self.new ≡ limit_of self.old }
    {
        self.counts.insert(String::from_str(alloc, label)?, number)?;
        self.numbers.insert(key, number)?;
        Ok(())
    }

    // Returns the key of a value.
    pub(crate) fn key(alloc: Global, label: &str, value: &[u8]) -> Result<Vec<u8>, AllocError>
        ensures { IfOk result (λ k. k.items ≡ key label.now value.now) }
    {
        let mut key = Vec::with_capacity(alloc, label.len() + 1 + value.len())?;
        key.extend_from_slice(label.as_bytes())?;
        key.push(b' ')?;
        key.extend_from_slice(value)?;
        key.reverse();
        Ok(key)
    }
}
