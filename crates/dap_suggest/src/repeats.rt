//! Finds out whether different values are ids of which some occur twice.
use dap_tree::Tree;
use std::alloc::{AllocError, Global};
use std::collections::BTreeSet;
use std::hash::{BuildHasher, BuildHasherDefault, FoldHasher};

/// Appends a value, if it can be an id: an integer or a string, except for those that mean nothing.
/// Returns whether it can be one.
fn push_id(alloc: Global, value: &Tree, out: &mut Vec<u8>) -> Result<bool, AllocError> {
    match value {
        Tree::Whole(number) if *number != 0 => {
            out.extend_from_slice(format!(in alloc; "{number}")?.as_bytes())?;
        }
        Tree::Text(text) if !["", "0", "0x0"].contains(&text.as_str()) => {
            out.extend_from_slice(text.as_bytes())?;
        }
        _ => return Ok(false),
    }
    Ok(true)
}

/// Pairs of different values, by their hashes. Two pairs with one hash count as equal.
#[derive(Drop)]
pub struct Repeats {
    /// Whether some value cannot be an id.
    has_others: bool,
    is_repeated: bool,
    hashes: BTreeSet<u64>,
}

impl Repeats {
    pub fn new(alloc: Global) -> Repeats {
        Repeats {
            has_others: false,
            is_repeated: false,
            hashes: BTreeSet::new(alloc),
        }
    }

    /// Adds a pair of different values.
    pub fn add(&mut self, alloc: Global, a: &Tree, b: &Tree) -> Result<(), AllocError> {
        if self.has_others {
            return Ok(());
        }
        let mut pair = Vec::new(alloc);
        let is_id = push_id(alloc, a, &mut pair)?;
        // No text has the byte between them.
        pair.push(0xff)?;
        if !is_id || !push_id(alloc, b, &mut pair)? {
            self.has_others = true;
            self.hashes.clear();
        } else if !self.is_repeated {
            let hasher: BuildHasherDefault<FoldHasher> = BuildHasherDefault::new();
            self.add_hash(hasher.hash_one(pair.as_slice()))?;
        }
        Ok(())
    }

    /// Adds the hash of a pair. After the first one that is repeated, no hash is needed.
    fn add_hash(&mut self, hash: u64) -> Result<(), AllocError> {
        if !self.hashes.insert(hash)? {
            self.is_repeated = true;
            self.hashes.clear();
        }
        Ok(())
    }

    /// Adds the pairs of another place.
    pub fn add_all(&mut self, others: &Repeats) -> Result<(), AllocError> {
        self.has_others |= others.has_others;
        self.is_repeated |= others.is_repeated;
        for hash in others.hashes.iter() {
            self.add_hash(*hash)?;
        }
        Ok(())
    }

    /// Returns whether all values can be ids, and one pair of them occurs twice.
    pub fn have_ids(&self) -> bool {
        self.is_repeated && !self.has_others
    }
}
