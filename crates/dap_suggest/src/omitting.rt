//! Elements that two lists have in different numbers, so that a rule omits them by their names.
use crate::candidates::{ADDRESSES, Actions, text_after};
use crate::comments::{push_check, push_hidden};
use crate::matched::Pair;
use crate::values::can_equate_pair;
use crate::words::{json_of_text, push_parts, text_at};
use dap_compare::Which;
use dap_tree::Tree;
use std::alloc::{AllocError, Global};
use std::collections::BTreeMap;

/// How many names of elements are omitted from a list at most.
const MAX_OMITTED: usize = 4;

/// Returns the name of an element after the rules for names.
fn name_of(alloc: Global, item: &Tree, actions: Actions) -> Result<Option<String>, AllocError> {
    match text_at(item, "name") {
        Some(name) => Ok(Some(text_after(alloc, actions, name)?)),
        None => Ok(None),
    }
}

/// Returns whether two elements have the same name after the rules for names, or both have none.
pub fn have_one_name(
    alloc: Global,
    item: &Tree,
    other: &Tree,
    actions: Actions,
) -> Result<bool, AllocError> {
    let name = name_of(alloc, item, actions)?;
    let found = name_of(alloc, other, actions)?;
    Ok(name.as_deref() == found.as_deref())
}

/// Returns whether a name has an address or a UUID, so that it is another one in each run.
fn has_address(alloc: Global, name: &str) -> Result<bool, AllocError> {
    Ok(text_after(alloc, ADDRESSES, name)?.as_str() != name)
}

/// How many elements of a name two lists have.
#[derive(Clone, Copy)]
struct Counts {
    a: u64,
    b: u64,
}

/// The numbers of elements of two lists, by their names.
type CountsByName = BTreeMap<String, Counts>;

/// Adds the elements of a list.
fn count(
    alloc: Global,
    which: Which,
    items: &[Tree],
    actions: Actions,
    counts: &mut CountsByName,
) -> Result<(), AllocError> {
    for item in items {
        if let Some(name) = name_of(alloc, item, actions)? {
            let counted = counts.entry(name)?.or_insert(Counts { a: 0, b: 0 });
            match which {
                Which::A => counted.a = counted.a.saturating_add(1),
                Which::B => counted.b = counted.b.saturating_add(1),
            }
        }
    }
    Ok(())
}

/// Appends the line that shows how many such elements the list of a record has.
fn push_count(
    alloc: Global,
    (which, number): (Which, u64),
    count: u64,
    out: &mut Vec<u8>,
) -> Result<(), AllocError> {
    let line = match count {
        0 => format!(in alloc; "# {which} record {number}: no such element\n")?,
        1 => format!(in alloc; "# {which} record {number}: 1 such element\n")?,
        _ => format!(in alloc; "# {which} record {number}: {count} such elements\n")?,
    };
    out.extend_from_slice(line.as_bytes())
}

/// The elements of one name that are omitted.
#[derive(Drop)]
struct Lost {
    /// The comment that shows the first pair.
    comment: Vec<u8>,
    /// How many of them both lists of a pair have.
    hidden: u64,
}

/// What is omitted from the lists at a place.
#[derive(Drop)]
pub struct Omitted {
    names: BTreeMap<String, Lost>,
    /// Whether nothing is omitted, because some pair of lists differs in another way too.
    is_useless: bool,
}

impl Omitted {
    pub fn new(alloc: Global) -> Omitted {
        Omitted {
            names: BTreeMap::new(alloc),
            is_useless: false,
        }
    }

    /// Returns whether something is omitted.
    pub fn is_some(&self) -> bool {
        !self.names.is_empty() && !self.is_useless
    }

    /// Returns whether an element is omitted.
    fn omits(&self, alloc: Global, item: &Tree, actions: Actions) -> Result<bool, AllocError> {
        match name_of(alloc, item, actions)? {
            Some(name) => Ok(self.names.contains_key(name.as_str())),
            None => Ok(false),
        }
    }

    /// Returns the elements of a list that are not omitted.
    pub fn kept<'t>(
        &self,
        alloc: Global,
        items: &'t [Tree],
        actions: Actions,
    ) -> Result<Vec<&'t Tree>, AllocError> {
        let mut kept = Vec::new(alloc);
        for item in items {
            if !self.omits(alloc, item, actions)? {
                kept.push(item)?;
            }
        }
        Ok(kept)
    }

    /// Adds the names of which two lists have different numbers of elements.
    fn add_names(
        &mut self,
        alloc: Global,
        pair: &Pair<'_>,
        counts: &CountsByName,
    ) -> Result<(), AllocError> {
        for (name, counted) in counts.iter() {
            if counted.a == counted.b || self.names.contains_key(name.as_str()) {
                continue;
            }
            self.is_useless |= has_address(alloc, name.as_str())?;
            let mut comment = Vec::new(alloc);
            push_count(alloc, (Which::A, pair.a.number), counted.a, &mut comment)?;
            push_count(alloc, (Which::B, pair.b.number), counted.b, &mut comment)?;
            let name = String::from_str(alloc, name.as_str())?;
            drop(self.names.insert(name, Lost { comment, hidden: 0 })?);
        }
        Ok(())
    }

    /// Returns whether the elements that are not omitted have the same names in both lists, and
    /// rules inside them can make them equal.
    fn are_alike(
        &self,
        alloc: Global,
        items: &[Tree],
        others: &[Tree],
        actions: Actions,
    ) -> Result<bool, AllocError> {
        let kept = self.kept(alloc, items, actions)?;
        let others = self.kept(alloc, others, actions)?;
        if kept.len() != others.len() {
            return Ok(false);
        }
        for (item, other) in kept.iter().zip(others.iter()) {
            if !have_one_name(alloc, *item, *other, actions)? || !can_equate_pair(*item, *other) {
                return Ok(false);
            }
        }
        Ok(true)
    }

    /// Adds a pair of lists of different lengths. Nothing is omitted if they differ in too many
    /// names or in names with addresses, or not only in elements with names.
    pub fn add(
        &mut self,
        alloc: Global,
        pair: &Pair<'_>,
        (items, others): (&[Tree], &[Tree]),
        actions: Actions,
    ) -> Result<(), AllocError> {
        if self.is_useless {
            return Ok(());
        }
        let mut counts = BTreeMap::new(alloc);
        count(alloc, Which::A, items, actions, &mut counts)?;
        count(alloc, Which::B, others, actions, &mut counts)?;
        self.add_names(alloc, pair, &counts)?;
        self.is_useless |= self.names.len() > MAX_OMITTED;
        self.is_useless |= !self.are_alike(alloc, items, others, actions)?;
        Ok(())
    }

    /// Counts the elements that are omitted although both lists have them.
    pub fn add_hidden(
        &mut self,
        alloc: Global,
        items: &[Tree],
        others: &[Tree],
        actions: Actions,
    ) -> Result<(), AllocError> {
        let mut counts = BTreeMap::new(alloc);
        count(alloc, Which::A, items, actions, &mut counts)?;
        count(alloc, Which::B, others, actions, &mut counts)?;
        for (name, lost) in self.names.iter_mut() {
            if let Some(counted) = counts.get(name.as_str()) {
                lost.hidden = lost.hidden.saturating_add(counted.a.min(counted.b));
            }
        }
        Ok(())
    }

    /// Appends the rules that omit the elements from the lists at a place. `hidden` is what they
    /// hide, if a test looks at the lists.
    pub fn push_rules(
        &self,
        alloc: Global,
        target: &[u8],
        hidden: Option<&str>,
        out: &mut Vec<u8>,
    ) -> Result<(), AllocError> {
        for (name, lost) in self.names.iter() {
            out.extend_from_slice(lost.comment.as_slice())?;
            push_hidden(alloc, lost.hidden, out)?;
            if let Some(hidden) = hidden {
                push_check(hidden, out)?;
            }
            let name = json_of_text(alloc, name.as_str())?;
            push_parts(&[b"omit   ", target, b"[", name.as_bytes(), b"]\n\n"], out)?;
        }
        Ok(())
    }
}
