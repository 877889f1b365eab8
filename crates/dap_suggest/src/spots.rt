//! All places at which pairs differ.
use crate::candidates::Actions;
use crate::spot::Spot;
use crate::words::parts_of;
use std::alloc::{AllocError, Global};
use std::collections::{BTreeMap, BTreeSet};

/// All places at which pairs differ.
#[derive(Drop)]
pub struct Spots {
    /// The spots by the messages and the place of their rules for all elements.
    pub by_target: BTreeMap<Vec<u8>, Spot>,
    /// The heads of their messages, without the side.
    pub heads: BTreeSet<String>,
    /// Whether elements may be omitted from lists of different lengths.
    pub may_omit: bool,
}

impl Spots {
    pub fn new(alloc: Global, may_omit: bool) -> Spots {
        Spots {
            by_target: BTreeMap::new(alloc),
            heads: BTreeSet::new(alloc),
            may_omit,
        }
    }

    /// Returns whether pairs differ at the names of elements.
    pub fn have_names(&self) -> bool {
        self.by_target.values().any(|spot| spot.is_name)
    }

    /// Returns whether elements of some list are omitted.
    pub fn have_omissions(&self) -> bool {
        self.by_target.values().any(|spot| spot.omitted.is_some())
    }

    /// Forgets what was found at all places but the names of elements.
    pub fn reset(&mut self, alloc: Global) -> Result<(), AllocError> {
        for spot in self.by_target.values_mut() {
            if !spot.is_name {
                spot.reset(alloc)?;
            }
        }
        Ok(())
    }

    /// Returns the actions of the rules for all elements at a place.
    pub fn actions_at(&self, target: &[u8]) -> Actions {
        match self.by_target.get(target) {
            Some(spot) => spot.actions(),
            None => 0,
        }
    }

    /// Returns the actions of the rules for the names of the elements of all lists at a place.
    pub fn name_actions(&self, alloc: Global, target: &[u8]) -> Result<Actions, AllocError> {
        let names = parts_of(alloc, &[target, b"[].name"])?;
        Ok(self.actions_at(names.as_slice()))
    }

    /// Adds a place in the messages with a head, unless it was added before.
    pub fn add(&mut self, alloc: Global, head: &str, target: &[u8]) -> Result<(), AllocError> {
        if !self.by_target.contains_key(target) {
            let spot = Spot::new(alloc, target)?;
            let key = Vec::from_slice(alloc, target)?;
            drop(self.by_target.insert(key, spot)?);
            let _ = self.heads.insert(String::from_str(alloc, head)?)?;
        }
        Ok(())
    }

    /// Returns whether a place is inside one that is blanked for all elements.
    pub fn is_hidden(&self, target: &[u8]) -> bool {
        for (end, byte) in target.iter().enumerate() {
            if matches!(*byte, b'.' | b'[')
                && let Some(whole) = target.get(..end)
                && let Some(spot) = self.by_target.get(whole)
                && spot.is_blanked()
            {
                return true;
            }
        }
        false
    }
}
