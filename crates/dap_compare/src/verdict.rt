//! The result of comparing two recordings.
ghost use Rattle.std.specs.Prelude.{◌≡◌, ◌≤◌, length};
ghost use Rattle.dap_compare.specs.ComparingSteps.{IsRefusalOf};
ghost use Rattle.dap_compare.specs.Which.{compare_refused_text, which_text};

use arrayvec::ArrayString;
use dap_input::Refused;
use dap_rename::Renaming;
use std::alloc::AllocError;
use std::fmt;
use thiserror::Error;

/// One of the two inputs.
#[derive(Clone, Copy, Debug, PartialEq, Eq, PartialOrd, Ord)]
pub enum Which {
    A,
    B,
}

impl Which {
    /// Returns the letter of the input.
    pub fn letter(self) -> &'static str
        ensures letter { result.now ≡ which_text self }
        ensures short { length result.now ≤ 1 }
    {
        match self {
            Which::A => "A",
            Which::B => "B",
        }
    }
}

impl fmt::Display for Which {
    ghost use Rattle.std.specs.Prelude.{Some};
    ghost use Rattle.dap_compare.specs.Which.{which_text};

    ghost output = { λ which. Some (which_text which) };

    fn fmt<W: fmt::Write>(&self, f: &mut fmt::Formatter<W>) -> fmt::Result {
        f.write_str(self.letter())
    }
}

/// The result of comparing two recordings.
#[derive(Drop)]
pub enum Verdict {
    /// This renaming maps the messages of the first recording to those of the second.
    Same(Renaming),
    /// The record with this number, counted from 1, is the first that differs: no renaming maps the
    /// messages up to it, or exactly one of the recordings has it.
    Differ(u64),
}

/// Why the comparison of two inputs was not completed. Its `Display` output is
/// [`CompareRefused::text`].
#[derive(Clone, Copy, Debug, PartialEq, Eq, Error)]
pub enum CompareRefused {
    /// This input was rejected. The inner error is never `Memory` or `WriteFault`.
    #[error("{text}", text = self.text())]
    Input(Which, Refused),
    /// An allocation failed.
    #[error("{text}", text = self.text())]
    Memory,
}

impl CompareRefused {
    /// Returns the error of an input. An allocation failure belongs to neither input.
    pub fn of(which: Which, refused: Refused) -> CompareRefused
        ensures { IsRefusalOf which refused result }
    {
        match refused {
            Refused::Memory => CompareRefused::Memory,
            refused => CompareRefused::Input(which, refused),
        }
    }

    /// Returns the text that the program prints after `dapnorm: `. Does not allocate.
    pub fn text(self) -> ArrayString<148>
        ensures { result.bytes ≡ compare_refused_text self }
    {
        let mut text = ArrayString::new();
        match self {
            CompareRefused::Input(which, refused) => {
                text.push_str(which.letter());
                text.push_str(": ");
                text.push_str(refused.text().as_str());
            }
            CompareRefused::Memory => text.push_str(Refused::Memory.text().as_str()),
        }
        text
    }
}

impl From<AllocError> for CompareRefused {
    ghost use Rattle.dap_compare.specs.declared.verdict.CompareRefused.TheVariants.{Memory};

    ghost from_gives = { λ _ refused. refused ≡ Memory };

    fn from(_: AllocError) -> CompareRefused {
        CompareRefused::Memory
    }
}
