//! Errors of a rules file.
ghost use Rattle.std.specs.Prelude.{◌≡◌, ◌≤◌, length};
ghost use Rattle.dap_mask.specs.RulesCauseName.{rules_cause_name};

use std::alloc::{AllocError, AllocFailed};
use std::{error, fmt};
use thiserror::Error;

/// Why a rules file is rejected.
#[derive(Clone, Copy, Debug, PartialEq, Eq)]
pub enum RulesCause {
    /// The file has more than 65,536 bytes. The line is that of the first byte past the limit.
    ///
    /// - Cause: another file, such as a recording.
    /// - Fix: name the rules file.
    TooLong,
    /// The line is not UTF-8.
    ///
    /// - Cause: a comment in another encoding.
    /// - Fix: save the file as UTF-8.
    NotUtf8,
    /// The line is not a rule, not empty and not only a comment.
    ///
    /// - Cause: a missing word, or a name with other characters that is not in quotes.
    /// - Fix: write a line of one of these forms: `ACTION KIND NAME PLACE`, `ACTION event NAME
    ///   category=TEXT PLACE`, `drop event NAME`, `drop event NAME category=TEXT`, `swap KIND NAME
    ///   KIND NAME`, `word TEXT WORD`, `per-stop`, `join event output`, `join event output
    ///   per-stop`, `fill KIND NAME PLACE VALUE`, or `omit KIND NAME PLACE`. The first two may end
    ///   in `as LABEL`.
    BadRule,
    /// A thousand rules precede it.
    ///
    /// - Cause: rules made by a script, one for each name.
    /// - Fix: merge rules, with `*` for the name.
    TooMany,
    /// The place never changes: it is an id that the profile renames, the message itself, its
    /// `type`, `command`, `event` or `success`, or the name by which the rule selects an element.
    /// For a rule with a category, the place is also never `body` or `body.category`. The place of
    /// a `fill` rule ends in a member and selects no element by its name. The place of an `omit`
    /// rule ends in `["NAME"]`, the name of the elements. The place of declared ids is also never
    /// the `name` of elements, nor `body` or `body.category`.
    ///
    /// - Cause: a rule for a number that `normalise` renames anyway, or an `omit` rule whose place
    ///   ends in `[]`.
    /// - Fix: leave the rule out, or write the name of the elements in the brackets.
    BadPlace,
    /// The same rule precedes it, or another word for the same text, or another `join` rule, or a
    /// `fill` rule for the same member, or an `omit` rule for the same elements. A `swap` rule with
    /// its halves exchanged is the same rule. Two declarations are the same rule if they have the
    /// same label.
    ///
    /// - Cause: two rules files put together.
    /// - Fix: leave it out.
    Repeated,
    /// This rule and an earlier one exclude each other. Both are for messages that may be the same,
    /// and one of six reasons holds. They are `uuid` and `digits` at one place, so masking twice
    /// could change a text again. Or one changes `body.category` of events that the other drops,
    /// selects or joins by their category. Or one changes `body` of events, and the other applies
    /// only to events of one category. Or both may set the same member, or one sets a member of a
    /// value that the other blanks. Or both declare ids at one place, with one action and two
    /// labels, or one of them by `blank`. Or one declares ids there, and the other is `digits` or
    /// `long`, which would change the numbers in their names.
    ///
    /// - Cause: `uuid` and `digits` at one place, or two labels there for one action. Or a change
    ///   of a category by which events are dropped, selected or joined. Or a `blank` of a value
    ///   that contains the place of a `fill`.
    /// - Fix: leave one of the two out, or give two rules for events different categories.
    Clash,
    /// The text of a `word` line is empty, or a word of the file can overlap a text of the file:
    /// one contains the other, or the end of one is the start of the other. Masking twice could
    /// then replace more than masking once.
    ///
    /// - Cause: a word that is part of a path, or an empty word.
    /// - Fix: choose a word that no text contains, such as one in angle brackets.
    BadWord,
    /// The text after `as` is not a label, or it is the name of a kind of id that `normalise`
    /// renumbers: `client-seq`, `adapter-seq`, `frame`, `reference`, `thread` or `breakpoint`.
    ///
    /// - Cause: a label with an upper-case letter, a digit or `_`.
    /// - Fix: choose another label, of lower-case letters and `-`, that starts with a letter.
    BadLabel,
    /// An allocation failed.
    Memory,
}

impl RulesCause {
    /// Returns the name of the error.
    pub fn name(self) -> &'static str
        ensures name { result.now ≡ rules_cause_name self }
        ensures short { length result.now ≤ 15 }
    {
        match self {
            RulesCause::TooLong => "TooLong",
            RulesCause::NotUtf8 => "NotUtf8",
            RulesCause::BadRule => "BadRule",
            RulesCause::TooMany => "TooMany",
            RulesCause::BadPlace => "BadPlace",
            RulesCause::Repeated => "Repeated",
            RulesCause::Clash => "Clash",
            RulesCause::BadWord => "BadWord",
            RulesCause::BadLabel => "BadLabel",
            RulesCause::Memory => "Memory",
        }
    }
}

impl fmt::Display for RulesCause {
    ghost use Rattle.std.specs.Prelude.{Some};
    ghost use Rattle.dap_mask.specs.RulesCauseName.{rules_cause_name};

    ghost output = { λ cause. Some (rules_cause_name cause) };

    fn fmt<W: fmt::Write>(&self, f: &mut fmt::Formatter<W>) -> fmt::Result {
        f.write_str(self.name())
    }
}

impl error::Error for RulesCause {}

impl From<AllocError> for RulesCause {
    ghost use Rattle.dap_mask.specs.declared.fault.RulesCause.TheVariants.{Memory};

    ghost from_gives = { λ _ c. c ≡ Memory };

    fn from(_: AllocError) -> RulesCause {
        RulesCause::Memory
    }
}

impl<T: Drop> From<AllocFailed<T>> for RulesCause {
    ghost use Rattle.dap_mask.specs.declared.fault.RulesCause.TheVariants.{Memory};

    ghost from_gives = { λ _ c. c ≡ Memory };

    fn from(_: AllocFailed<T>) -> RulesCause {
        RulesCause::Memory
    }
}

/// The line of a rules file that is rejected, and the reason.
#[derive(Clone, Copy, Debug, PartialEq, Eq, Error)]
#[error("line {line}: {cause}")]
pub struct RulesFault {
    /// The line number, counted from 1.
    pub line: usize,
    pub cause: RulesCause,
}
