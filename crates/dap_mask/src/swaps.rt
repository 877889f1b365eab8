//! When two rules for the order of messages are the same.
ghost use Rattle.std.specs.{Prelude.{◌≡◌}, List.list_any};
ghost use Rattle.dap_mask.specs.Swaps.{same_half, same_swap};
ghost use Rattle.dap_message.specs.SwapRules.{half_of, swap_of};

use crate::meets::{same_kind, same_name, text_of};
use dap_message::{Half, SwapRule};

fn same_half(half: &Half, other: &Half) -> bool
    ensures { result ≡ same_half (half_of half.now) (half_of other.now) }
{
    same_kind(half.kind, other.kind) && same_name(text_of(&half.name), text_of(&other.name))
}

fn same_swap(swap: &SwapRule, other: &SwapRule) -> bool
    ensures { result ≡ same_swap (swap_of swap.now) (swap_of other.now) }
{
    (same_half(&swap.one, &other.one) && same_half(&swap.another, &other.another))
        || (same_half(&swap.one, &other.another) && same_half(&swap.another, &other.one))
}

/// Returns whether one of the rules is the same as this rule, perhaps with its halves exchanged.
pub(crate) fn is_swap_among(swap: &SwapRule, swaps: &[SwapRule]) -> bool
    ensures { result ≡ list_any (λ s. same_swap (swap_of swap.now) (swap_of s)) swaps.now }
{
    swaps.iter().any(|other| same_swap(swap, other))
}
