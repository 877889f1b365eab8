//! Why no rules make two recordings the same.
use dap_compare::Which;
use dap_diff::StoredEntry;
use dap_mask::{RulesCause, RulesFault};
use dap_rules::ApplyRefused;
use std::alloc::{AllocError, Global};
use std::fmt::{self, Display, Formatter, Write};

/// What is wrong with a record that no rule can make the same.
#[derive(Clone, Copy, Debug, PartialEq, Eq)]
pub enum Reason {
    /// The other recording lacks a counterpart of the record.
    NoCounterpart,
    /// The record differs from its counterpart at a place that no rule may change.
    Differs,
    /// The record passes another one whose order is fixed.
    OutOfOrder,
}

impl Display for Reason {
    fn fmt<W: Write>(&self, f: &mut Formatter<W>) -> fmt::Result {
        f.write_str(match self {
            Reason::NoCounterpart => "has no counterpart in",
            Reason::Differs => "differs where no rule may change it from",
            Reason::OutOfOrder => "comes in an order that no rule allows in",
        })
    }
}

/// How many remaining records are shown.
const MAX_SHOWN: u64 = 20;

/// The records that no rule can make the same. Records count from 1 in what the rules that were
/// given leave.
#[derive(Drop)]
pub struct Remaining {
    /// The lines for the first of them, each after an LF and two spaces.
    shown: String,
    count: u64,
}

impl Remaining {
    pub fn new(alloc: Global) -> Remaining {
        Remaining {
            shown: String::new(alloc),
            count: 0,
        }
    }

    pub fn is_empty(&self) -> bool {
        self.count == 0
    }

    /// Adds a record of a recording.
    pub fn add(
        &mut self,
        reason: Reason,
        which: Which,
        entry: &StoredEntry<'_>,
    ) -> Result<(), AllocError> {
        if self.count < MAX_SHOWN {
            let number = entry.number;
            // The kind and the name follow the marker of the side and a space.
            let message = entry.head.get(2..).unwrap_or(entry.head.as_str());
            let other = match which {
                Which::A => Which::B,
                Which::B => Which::A,
            };
            write!(
                self.shown,
                "\n  record {number} of {which}, {message}, {reason} {other}"
            )?;
        }
        self.count = self.count.saturating_add(1);
        Ok(())
    }
}

impl Display for Remaining {
    fn fmt<W: Write>(&self, f: &mut Formatter<W>) -> fmt::Result {
        let (shown, count) = (self.shown.as_str(), self.count);
        if count == 1 {
            return f.write_str(shown.get(3..).unwrap_or(shown));
        }
        write!(f, "{count} places remain{shown}")?;
        let more = count.saturating_sub(MAX_SHOWN);
        if more > 0 {
            write!(f, "\n  and {more} more")?;
        }
        Ok(())
    }
}

/// Why a search found no rules.
#[derive(Drop)]
pub enum NoneFound {
    /// No rule can make some records the same.
    Remaining(Remaining),
    /// The rules that were found cannot be applied to a recording.
    Unapplied(Which, ApplyRefused),
    /// The rules that were found are too many for one file, or contradict the rules that were
    /// given.
    Unread,
}

impl Display for NoneFound {
    fn fmt<W: Write>(&self, f: &mut Formatter<W>) -> fmt::Result {
        match self {
            NoneFound::Remaining(remaining) => write!(f, "{remaining}"),
            NoneFound::Unapplied(which, refused) => write!(
                f,
                "{which}: after the rules: {refused}"
            ),
            NoneFound::Unread => f.write_str("a file cannot have the rules that would be needed"),
        }
    }
}

/// Why no rules make two recordings the same. Its text follows `no rules can: `.
#[derive(Drop)]
pub enum Obstacle {
    /// A search found none.
    NoneFound(NoneFound),
    /// After the rules that were found, the recordings differ first in the record with this number.
    StillDiffers(u64),
}

impl Display for Obstacle {
    fn fmt<W: Write>(&self, f: &mut Formatter<W>) -> fmt::Result {
        match self {
            Obstacle::NoneFound(because) => write!(f, "{because}"),
            Obstacle::StillDiffers(number) => {
                write!(f, "after the rules, record {number} still differs")
            }
        }
    }
}

/// The first records in which the normal forms of two recordings differ.
#[derive(Drop)]
pub struct Mismatch {
    /// The rules that were found.
    pub rules: Vec<u8>,
    /// The content of the record in A, and in B.
    pub a: Vec<u8>,
    pub b: Vec<u8>,
}

/// Why rules are not confirmed.
#[derive(Drop)]
pub enum Unsolved {
    /// There are none.
    NoRules(NoneFound),
    /// With the rules that were found, the recordings still differ.
    Differs(Mismatch),
    /// An allocation failed.
    Memory,
}

impl From<AllocError> for Unsolved {
    fn from(_: AllocError) -> Unsolved {
        Unsolved::Memory
    }
}

impl From<RulesFault> for Unsolved {
    fn from(fault: RulesFault) -> Unsolved {
        match fault.cause {
            RulesCause::Memory => Unsolved::Memory,
            _ => Unsolved::NoRules(NoneFound::Unread),
        }
    }
}

impl From<(Which, ApplyRefused)> for Unsolved {
    fn from((which, refused): (Which, ApplyRefused)) -> Unsolved {
        match refused {
            ApplyRefused::Memory => Unsolved::Memory,
            _ => Unsolved::NoRules(NoneFound::Unapplied(which, refused)),
        }
    }
}
