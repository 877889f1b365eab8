//! A place at which pairs differ, what the candidates do there, and the rules that are chosen.
ghost use Rattle.std.specs.Prelude.{◌≡◌};
ghost use Rattle.dap_suggest.specs.Hidden.{applies_to};

use crate::candidates::{Actions, BLANK, only};
use crate::guarded::hidden_at;
use crate::omitting::Omitted;
use crate::repeats::Repeats;
use crate::tallies::{Different, Tally};
use std::alloc::{AllocError, Global};
use std::collections::BTreeMap;

/// How many names of elements a place has at most, for which rules are chosen by name.
pub const MAX_NAMES: usize = 16;

/// The scope of the rules for all elements. Each other number names the tally of one name.
pub const ALL: usize = 0;

/// The innermost list on the way to a place whose elements have names.
#[derive(Clone, Copy)]
pub struct NamedList {
    /// How many lists are around it.
    pub depth: usize,
    /// How many bytes of the target are before its brackets.
    pub start: usize,
}

/// The rules of one candidate at a place.
#[derive(Clone, Copy)]
pub struct Rule {
    pub actions: Actions,
    pub scope: usize,
}

impl Rule {
    /// Returns whether the rules apply to the values of a tally.
    pub fn applies(&self, tally: usize) -> bool
        ensures { result ≡ applies_to tally self.now }
    {
        self.scope == ALL || self.scope == tally
    }
}

/// Returns the actions of the rules of a scope.
pub fn actions_in(rules: &[Rule], scope: usize) -> Actions {
    let mut actions = 0;
    for rule in rules {
        if rule.scope == scope {
            actions |= rule.actions;
        }
    }
    actions
}

/// A place at which pairs differ.
#[derive(Drop)]
pub struct Spot {
    /// Whether the values are the names of elements.
    pub is_name: bool,
    /// What `blank` hides here, if a test looks at it.
    pub hidden: Option<&'static str>,
    /// The indices of the pairs that differ here.
    pub pairs: Vec<usize>,
    pub list: Option<NamedList>,
    /// The elements that are omitted from the lists here.
    pub omitted: Omitted,
    /// The tallies of the names at which pairs differ: all of them, or one more than is useful.
    names: BTreeMap<String, usize>,
    /// How many pairs that differ here were recorded.
    pub seen: u64,
    /// The tally of all other elements, and those of the names.
    pub tallies: Vec<Tally>,
    /// The rules that a file cannot have.
    excluded: Vec<Rule>,
    pub rules: Vec<Rule>,
}

impl Spot {
    /// Returns a place that no candidates were tried at. `target` is the messages and the place of
    /// a rule for all elements.
    pub fn new(alloc: Global, target: &[u8]) -> Result<Spot, AllocError> {
        let mut spot = Spot {
            is_name: target.ends_with(b"[].name"),
            hidden: hidden_at(alloc, target)?,
            pairs: Vec::new(alloc),
            list: None,
            omitted: Omitted::new(alloc),
            names: BTreeMap::new(alloc),
            seen: 0,
            tallies: Vec::new(alloc),
            excluded: Vec::new(alloc),
            rules: Vec::new(alloc),
        };
        spot.reset(alloc)?;
        Ok(spot)
    }

    /// Forgets all names, and all that was counted.
    pub fn reset(&mut self, alloc: Global) -> Result<(), AllocError> {
        self.pairs.clear();
        self.omitted = Omitted::new(alloc);
        self.names.clear();
        self.seen = 0;
        self.tallies.clear();
        self.tallies.push(Tally::new(alloc))?;
        self.excluded.retain(|rule| rule.scope == ALL);
        self.rules.clear();
        Ok(())
    }

    /// Adds a pair that differs here. The pairs come in their order.
    pub fn add_pair(&mut self, pair: usize) -> Result<(), AllocError> {
        if self.pairs.last() != Some(&pair) {
            self.pairs.push(pair)?;
        }
        Ok(())
    }

    /// Adds the name of an element at which a pair differs, unless there are too many.
    pub fn add_name(&mut self, alloc: Global, name: &str) -> Result<(), AllocError> {
        if self.names.len() <= MAX_NAMES && !self.names.contains_key(name) {
            let scope = self.tallies.len();
            self.tallies.push(Tally::new(alloc))?;
            drop(self.names.insert(String::from_str(alloc, name)?, scope)?);
        }
        Ok(())
    }

    /// Returns whether rules may be chosen by name.
    pub fn has_names(&self) -> bool {
        !self.names.is_empty() && self.names.len() <= MAX_NAMES
    }

    /// Returns the scope that has an element of this name alone, or `ALL` if there is none.
    pub fn scope_of(&self, name: &str) -> usize {
        self.names.get(name).copied().unwrap_or(ALL)
    }

    /// Returns the scopes of rules: all elements, and each name.
    pub fn scopes(&self, alloc: Global, is_joined: bool) -> Result<Vec<usize>, AllocError> {
        let mut scopes = Vec::new(alloc);
        scopes.push(ALL)?;
        if self.has_names() && !is_joined {
            for scope in self.names.values() {
                scopes.push(*scope)?;
            }
        }
        Ok(scopes)
    }

    /// Returns the name of the elements in a scope.
    pub fn name_of(&self, scope: usize) -> Option<&str> {
        for (name, other) in self.names.iter() {
            if *other == scope {
                return Some(name.as_str());
            }
        }
        None
    }

    /// Excludes a rule that was chosen, because a file cannot have it.
    pub fn exclude(&mut self, rule: usize) -> Result<(), AllocError> {
        if let Some(rule) = self.rules.get(rule) {
            self.excluded.push(*rule)?;
        }
        Ok(())
    }

    /// Returns whether a file cannot have a rule.
    pub fn is_excluded(&self, rule: &Rule) -> bool {
        let (actions, scope) = (rule.actions, rule.scope);
        self.excluded
            .iter()
            .any(|other| other.actions == actions && other.scope == scope)
    }

    /// Returns the actions of the rules for all elements.
    pub fn actions(&self) -> Actions {
        actions_in(self.rules.as_slice(), ALL)
    }

    /// Returns whether some rules are for the elements of one name.
    pub fn has_rules_by_name(&self) -> bool {
        self.rules.iter().any(|rule| rule.scope != ALL)
    }

    /// Returns whether the values of all elements are blanked.
    pub fn is_blanked(&self) -> bool {
        self.actions() & BLANK != 0
    }

    /// Returns whether all different values to which a rule applies can be ids, and some occur
    /// twice.
    pub fn have_ids(&self, alloc: Global, rule: &Rule) -> Result<bool, AllocError> {
        let mut all = Repeats::new(alloc);
        for (scope, tally) in self.tallies.iter().enumerate() {
            if rule.applies(scope) {
                all.add_all(&tally.repeats)?;
            }
        }
        Ok(all.have_ids())
    }

    /// Returns the comment that shows the first pair that a rule makes equal.
    pub fn comment_of(&self, rule: &Rule) -> Option<&[u8]> {
        let mut first: Option<&Different> = None;
        for (scope, tally) in self.tallies.iter().enumerate() {
            if rule.applies(scope)
                && let Some(different) = tally.first(only(rule.actions))
                && first.is_none_or(|other| different.before < other.before)
            {
                first = Some(different);
            }
        }
        first.map(|different| different.comment.as_slice())
    }
}
