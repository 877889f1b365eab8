//! Searches rules for the records of two sessions.
ghost use Rattle.dap_input.specs.Limits.{AreSound};

use crate::counting::EventsByName;
use crate::filling::push_fills;
use crate::joined_rules::{fault_after, is_full, joined};
use crate::matched::{add_matched, pairs_of};
use crate::obstacle::{NoneFound, Reason, Remaining, Unsolved};
use crate::pairs::Pairs;
use crate::sessions::Sessions;
use crate::spots::Spots;
use crate::suggestion::Inputs;
use crate::swapping::Order;
use crate::value_rules::{Chooser, add_blanked_ids, push_spots};
use crate::walking::{Pass, walk_pairs};
use dap_compare::Which;
use dap_diff::StoredEntry;
use dap_input::Limits;
use std::alloc::{AllocError, Global};
use std::collections::BTreeSet;

/// Which rules a search tries beside the others.
#[derive(Clone, Copy)]
pub struct Tries {
    /// Those that set members.
    pub fill: bool,
    /// Those that omit elements.
    pub omit: bool,
}

/// The rules that a search finds.
#[derive(Drop)]
pub struct FoundRules {
    pub text: Vec<u8>,
    /// Rules that set members. If there are some, the search ends before it finds others.
    pub fills: Vec<u8>,
    /// The lines of it that blank ids of which some occur twice.
    pub blanked_ids: BTreeSet<Vec<u8>>,
    /// Whether some rules omit elements.
    pub have_omissions: bool,
}

/// The rules that a search finds, and the records for which it finds none.
#[derive(Drop)]
struct Found {
    rules: FoundRules,
    remaining: Remaining,
}

/// A search for rules for pairs.
#[derive(Drop)]
struct Search<'s> {
    chooser: Chooser<'s>,
    pairs: Pairs<'s>,
    spots: Spots,
    order: Order<'s>,
    /// The indices of the pairs that differ at places that no rule may change.
    failed: BTreeSet<usize>,
}

impl Search<'_> {
    /// Chooses the rules of the names of elements, or of all other places. If rules are joined,
    /// chooses only those of places that have rules by name.
    fn choose_all(&mut self, are_names: bool) -> Result<(), AllocError> {
        for (target, spot) in self.spots.by_target.iter_mut() {
            let is_chosen = !self.chooser.are_joined || spot.has_rules_by_name();
            if spot.is_name == are_names
                && is_chosen
                && !self.chooser.choose(target.as_slice(), spot)?
            {
                spot.rules.clear();
                for pair in spot.pairs.iter() {
                    let _ = self.failed.insert(*pair)?;
                }
            }
        }
        Ok(())
    }

    /// Adds the places at which pairs differ, or records the values at these.
    fn walk(&mut self, pass: Pass) -> Result<(), AllocError> {
        walk_pairs(pass, &mut self.spots, &mut self.pairs, &mut self.failed)
    }

    /// Chooses rules for all places at which pairs differ, first for the names of elements. At the
    /// other places, the elements have the names that these rules leave.
    fn choose(&mut self) -> Result<(), AllocError> {
        self.walk(Pass::Find)?;
        if self.spots.have_names() {
            self.walk(Pass::RecordNames)?;
            self.choose_all(true)?;
            self.spots.reset(self.chooser.alloc)?;
            self.walk(Pass::Find)?;
        }
        self.walk(Pass::RecordOthers)?;
        self.choose_all(false)
    }

    /// Appends the rules.
    fn push_rules(&self, out: &mut Vec<u8>) -> Result<(), AllocError> {
        push_spots(self.chooser.alloc, &self.spots, out)?;
        self.order
            .push_swaps(self.chooser.alloc, self.chooser.before, out)
    }

    /// Appends the rules. If they are too many for one file, joins those for elements by name.
    fn write(&mut self, out: &mut Vec<u8>) -> Result<(), AllocError> {
        let start = out.len();
        self.push_rules(out)?;
        let rules = out.as_slice().get(start..).unwrap_or(&[]);
        let fault = fault_after(self.chooser.alloc, self.chooser.before, rules)?;
        if fault.is_some_and(|fault| is_full(&fault)) {
            self.chooser.are_joined = true;
            self.choose_all(false)?;
            out.truncate(start);
            self.push_rules(out)?;
        }
        Ok(())
    }

    /// Adds the pairs that differ at places that no rule may change, and those in a fixed order.
    fn add_failed(&self, remaining: &mut Remaining) -> Result<(), AllocError> {
        for index in self.failed.iter() {
            if let Some(pair) = self.pairs.list.get(*index) {
                remaining.add(Reason::Differs, Which::A, pair.a)?;
            }
        }
        for pair in self.order.fixed.iter() {
            remaining.add(Reason::OutOfOrder, Which::A, pair.a)?;
        }
        Ok(())
    }

    /// Searches rules, and writes them. Adds the records for which there are none.
    fn search(&mut self, sessions: &Sessions, found: &mut Found) -> Result<(), AllocError> {
        self.pairs.number(sessions)?;
        if self.chooser.may_fill {
            push_fills(&self.chooser, &mut self.pairs, &mut found.rules.fills)?;
            if !found.rules.fills.is_empty() {
                return Ok(());
            }
        }
        self.order.search(&mut self.pairs)?;
        self.choose()?;
        self.write(&mut found.rules.text)?;
        found.rules.have_omissions = self.spots.have_omissions();
        add_blanked_ids(
            self.chooser.alloc,
            &self.spots,
            &mut found.rules.blanked_ids,
        )?;
        self.add_failed(&mut found.remaining)
    }
}

/// Searches rules for the records of two sessions that are matched.
fn search_pairs<'m>(
    chooser: Chooser<'_>,
    limits: Limits,
    sessions: &Sessions,
    a: &'m [StoredEntry<'m>],
    b: &'m [StoredEntry<'m>],
    found: &mut Found,
) -> Result<(), AllocError>
    requires { AreSound limits }
{
    let alloc = chooser.alloc;
    let pairs = pairs_of(alloc, a, b, &mut found.remaining)?;
    let mut search = Search {
        chooser,
        pairs: Pairs::new(alloc, pairs.as_slice(), limits),
        spots: Spots::new(alloc, chooser.may_omit),
        order: Order::new(alloc),
        failed: BTreeSet::new(alloc),
    };
    search.search(sessions, found)
}

/// Searches rules for two sessions of which some events are dropped.
fn search_sessions(
    alloc: Global,
    inputs: &Inputs<'_>,
    sessions: &Sessions,
    events: &EventsByName,
    tries: Tries,
    found: &mut Found,
) -> Result<(), AllocError>
    requires { AreSound inputs.now.limits }
{
    for (name, counted) in events.iter() {
        counted.push_drops(alloc, name.as_str(), &mut found.rules.text)?;
    }
    let before = joined(alloc, inputs.given, found.rules.text.as_slice())?;
    let chooser = Chooser {
        alloc,
        before: before.as_slice(),
        are_joined: false,
        are_strict: inputs.strict,
        may_fill: tries.fill,
        may_omit: tries.omit,
    };
    let mut a = Vec::new(alloc);
    let mut b = Vec::new(alloc);
    add_matched(alloc, sessions, events, &mut a, &mut b)?;
    let (a, b) = (a.as_slice(), b.as_slice());
    search_pairs(chooser, inputs.limits, sessions, a, b, found)
}

/// Returns the rules for two sessions of which some events are dropped, after the rules `before`
/// them.
///
/// # Errors
///
/// No rules make some record the same, or an allocation failed.
pub fn rules_for(
    alloc: Global,
    inputs: &Inputs<'_>,
    before: &[u8],
    sessions: &Sessions,
    events: &EventsByName,
    tries: Tries,
) -> Result<FoundRules, Unsolved>
    requires { AreSound inputs.now.limits }
{
    let mut found = Found {
        rules: FoundRules {
            text: Vec::from_slice(alloc, before)?,
            fills: Vec::new(alloc),
            blanked_ids: BTreeSet::new(alloc),
            have_omissions: false,
        },
        remaining: Remaining::new(alloc),
    };
    search_sessions(alloc, inputs, sessions, events, tries, &mut found)?;
    let Found { rules, remaining } = found;
    if remaining.is_empty() {
        Ok(rules)
    } else {
        Err(Unsolved::NoRules(NoneFound::Remaining(remaining)))
    }
}
