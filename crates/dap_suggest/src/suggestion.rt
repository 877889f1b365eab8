//! What rules are suggested for, and what a suggestion returns.
use crate::broad::Broad;
use crate::obstacle::Obstacle;
use dap_compare::Which;
use dap_input::Limits;
use dap_mask::{RulesCause, RulesFault};
use dap_message::SwapRule;
use dap_rename::Mode;
use dap_rules::ApplyRefused;
use std::alloc::AllocError;

/// Two recordings of one scenario, and the text of the rules that were given for them.
#[derive(Clone, Copy)]
pub struct Inputs<'i> {
    pub given: &'i [u8],
    /// How many broad rules they have.
    pub broad: Broad,
    /// How many rules they have for guarded places.
    pub guarded: usize,
    /// The exchanges that a suggestion may have: those that were given, and others once they are
    /// found.
    pub swaps: &'i [SwapRule],
    /// Whether no rule may be suggested that has to be checked.
    pub strict: bool,
    /// The mode in which ids are numbered after these rules.
    pub mode: Mode,
    pub a: &'i [u8],
    pub b: &'i [u8],
    pub limits: Limits,
}

/// Rules that make two recordings the same.
#[derive(Drop)]
pub struct Suggestion {
    /// The text of the rules. It can follow the text of the rules that were given.
    pub rules: Vec<u8>,
    /// The mode in which the recordings are the same.
    pub mode: Mode,
}

/// Why no rules are suggested.
#[derive(Drop)]
pub enum SuggestRefused {
    /// A line of the rules that were given is rejected. The cause is never `Memory`.
    Rules(RulesFault),
    /// By the rules that were given, this recording is rejected. `Order` also if the session that
    /// they make of it is rejected.
    Input(Which, ApplyRefused),
    /// No rules were found.
    NoRules(Obstacle),
    /// An allocation failed.
    Memory,
}

impl From<RulesFault> for SuggestRefused {
    ghost use Rattle.dap_suggest.specs.NotSuggested.{IsRulesRefusal};

    ghost from_gives = { λ fault refused. IsRulesRefusal fault refused };

    fn from(fault: RulesFault) -> SuggestRefused {
        match fault.cause {
            RulesCause::Memory => SuggestRefused::Memory,
            _ => SuggestRefused::Rules(fault),
        }
    }
}

impl From<(Which, ApplyRefused)> for SuggestRefused {
    ghost use Rattle.std.specs.Prelude.{◌≡◌};
    ghost use Rattle.dap_suggest.specs.NotSuggested.{input_refusal};

    ghost from_gives = { λ rejected refused. refused ≡ input_refusal rejected.0 rejected.1 };

    fn from((which, refused): (Which, ApplyRefused)) -> SuggestRefused {
        match refused {
            ApplyRefused::Memory => SuggestRefused::Memory,
            _ => SuggestRefused::Input(which, refused),
        }
    }
}

impl From<AllocError> for SuggestRefused {
    ghost use Rattle.std.specs.Prelude.{◌≡◌};
    ghost use Rattle.dap_suggest.specs.declared.suggestion.SuggestRefused.TheVariants.{Memory};

    ghost from_gives = { λ _ refused. refused ≡ Memory };

    fn from(_: AllocError) -> SuggestRefused {
        SuggestRefused::Memory
    }
}
