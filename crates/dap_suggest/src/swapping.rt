//! The pairs that come in another order in B, and the rules that let them change places.
use crate::joined_rules::are_refused;
use crate::matched::Pair;
use crate::pairs::Pairs;
use crate::words::{parts_of, push_parts};
use dap_message::{AnyMessage, Message};
use dap_order::{Half, SwapRule, is_free};
use std::alloc::{AllocError, Global};
use std::collections::BTreeMap;

/// Returns the half that names all messages of the kind of a message.
fn half_of(message: &Message) -> Half {
    Half {
        kind: message.kind(),
        name: None,
    }
}

/// Returns whether two messages may change places if a rule names them.
fn may_pass(x: &Message, y: &Message) -> bool {
    let (one, another) = (half_of(x), half_of(y));
    is_free(&[SwapRule { one, another }], x, y)
}

/// Returns the two halves of the rule for two pairs.
fn halves_of(alloc: Global, x: &Pair<'_>, y: &Pair<'_>) -> Result<Vec<u8>, AllocError> {
    let mut halves = x.class(alloc)?;
    halves.push(b' ')?;
    halves.extend_from_slice(y.class(alloc)?.as_slice())?;
    Ok(halves)
}

/// The pair of each class that comes last in B, of the pairs so far.
#[derive(Drop)]
struct Latest<'m> {
    /// The pairs by their places in B, each with the message of its record of A.
    by_place: BTreeMap<usize, (Pair<'m>, Message)>,
    /// The place of the pair of each class.
    places: BTreeMap<Vec<u8>, usize>,
}

impl<'m> Latest<'m> {
    fn new(alloc: Global) -> Latest<'m> {
        Latest {
            by_place: BTreeMap::new(alloc),
            places: BTreeMap::new(alloc),
        }
    }

    /// Adds a pair, in place of the latest one of its class if it comes after that in B.
    fn add(&mut self, alloc: Global, pair: Pair<'m>, message: Message) -> Result<(), AllocError> {
        let after = pair.place;
        let place = self.places.entry(pair.class(alloc)?)?.or_insert(after);
        let before = *place;
        if before <= after {
            *place = after;
            let _ = self.by_place.remove(&before);
            let _ = self.by_place.insert(after, (pair, message))?;
        }
        Ok(())
    }
}

/// Returns the pairs that come before another one in only one recording. No other pair needs a
/// rule.
fn crossing<'m>(alloc: Global, pairs: &[Pair<'m>]) -> Result<Vec<Pair<'m>>, AllocError> {
    let mut firsts = Vec::with_capacity(alloc, pairs.len())?;
    let mut first = usize::MAX;
    for pair in pairs.iter().rev() {
        first = first.min(pair.place);
        firsts.push(first)?;
    }
    let mut found = Vec::new(alloc);
    let mut last = 0;
    for (pair, first) in pairs.iter().zip(firsts.iter().rev()) {
        if pair.place < last || *first < pair.place {
            found.push(*pair)?;
        }
        last = last.max(pair.place);
    }
    Ok(found)
}

/// What a search for the order of pairs finds.
#[derive(Drop)]
pub struct Order<'m> {
    /// The comments on the rules, by the two halves of the rules.
    comments: BTreeMap<Vec<u8>, String>,
    /// The pairs whose order is fixed.
    pub fixed: Vec<Pair<'m>>,
}

impl<'m> Order<'m> {
    pub fn new(alloc: Global) -> Order<'m> {
        Order {
            comments: BTreeMap::new(alloc),
            fixed: Vec::new(alloc),
        }
    }

    /// Returns whether there is a rule for two pairs, whose halves come in this order.
    fn has(&self, alloc: Global, x: &Pair<'_>, y: &Pair<'_>) -> Result<bool, AllocError> {
        let halves = halves_of(alloc, x, y)?;
        Ok(self.comments.contains_key(halves.as_slice()))
    }

    /// Adds the rule for two pairs, the second of which comes first in B, unless there is one,
    /// whichever half comes first.
    fn add(&mut self, alloc: Global, x: &Pair<'_>, y: &Pair<'_>) -> Result<(), AllocError> {
        if self.has(alloc, x, y)? || self.has(alloc, y, x)? {
            return Ok(());
        }
        let (first, second) = (x.a.number, y.a.number);
        let comment = format!(in alloc;
            "# in A records {first} and {second}, in B the other way round\n"
        )?;
        drop(self.comments.insert(halves_of(alloc, x, y)?, comment)?);
        Ok(())
    }

    /// Appends the rules that a file can have after those before them, each after its comment.
    pub fn push_swaps(
        &self,
        alloc: Global,
        before: &[u8],
        out: &mut Vec<u8>,
    ) -> Result<(), AllocError> {
        for (halves, comment) in self.comments.iter() {
            let rule = parts_of(alloc, &[b"swap   ", halves.as_slice(), b"\n\n"])?;
            if !are_refused(alloc, before, rule.as_slice())? {
                push_parts(&[comment.as_bytes(), rule.as_slice()], out)?;
            }
        }
        Ok(())
    }

    /// Adds a pair that passes pairs before it.
    fn pass(
        &mut self,
        alloc: Global,
        latest: &Latest<'m>,
        pair: &Pair<'m>,
        message: &Message,
    ) -> Result<(), AllocError> {
        for (_, (before, other)) in latest.by_place.range(pair.place..) {
            if !may_pass(other, message) {
                return Ok(self.fixed.push(*pair)?);
            }
            self.add(alloc, before, pair)?;
        }
        Ok(())
    }

    /// Adds pairs, of which those so far are the latest ones.
    fn pass_all(
        &mut self,
        latest: &mut Latest<'m>,
        crossing: &[Pair<'m>],
        pairs: &mut Pairs<'m>,
    ) -> Result<(), AllocError> {
        for pair in crossing {
            let message = pairs.read_one(pair)?;
            self.pass(pairs.alloc, latest, pair, &message)?;
            latest.add(pairs.alloc, *pair, message)?;
        }
        Ok(())
    }

    /// Adds the rules that let pairs change places which come in another order in B, and the pairs
    /// whose order is fixed.
    ///
    /// The time per pair is logarithmic in the number of pairs, and linear in the number of classes
    /// that the pair passes.
    pub fn search(&mut self, pairs: &mut Pairs<'m>) -> Result<(), AllocError> {
        let mut latest = Latest::new(pairs.alloc);
        let found = crossing(pairs.alloc, pairs.list)?;
        self.pass_all(&mut latest, found.as_slice(), pairs)
    }
}
