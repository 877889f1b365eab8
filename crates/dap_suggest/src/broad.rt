//! Counts the rules that a suggestion never adds.
ghost use Rattle.std.specs.Prelude.{◌≡◌, Some, count_by, is_none, option_map, string_bytes};
ghost use Rattle.dap_mask.specs.{Categories.category_of, KeptRules.mask_of, Rules.rule_of};
ghost use Rattle.dap_mask.specs.Declarations.{declaration_of};
ghost use Rattle.dap_mask.specs.{Fills.fill_of, Omissions.omission_of};
ghost use Rattle.dap_message.specs.SwapRules.{swap_of};
ghost use Rattle.dap_suggest.specs.Broad.{broad_of, is_needed, is_open_swap};

use dap_mask::{CategoryRule, Declaration, FillRule, MaskRule, MaskRules, Omission};
use dap_message::SwapRule;

/// Returns whether a session needs the events of this name.
pub fn is_needed_event(name: &str) -> bool
    ensures { result ≡ is_needed (Some name.now) }
{
    name == "initialized"
        || name == "stopped"
        || name == "continued"
        || name == "exited"
        || name == "terminated"
}

fn is_needed(name: &Option<String>) -> bool
    ensures { result ≡ is_needed (option_map string_bytes name.now) }
{
    match name {
        Some(name) => is_needed_event(name.as_str()),
        None => true,
    }
}

fn is_open_swap(swap: &SwapRule) -> bool
    ensures { result ≡ is_open_swap (swap_of swap.now) }
{
    swap.one.name.is_none() || swap.another.name.is_none()
}

fn broad_changes(rules: &[MaskRule]) -> usize
    ensures { result ≡ count_by (λ rule. is_none (rule_of rule).name) rules.now }
{
    rules.iter().filter(|rule| rule.name.is_none()).count()
}

fn broad_drops(names: &[Option<String>]) -> usize
    ensures { result ≡ count_by (λ name. is_needed (option_map string_bytes name)) names.now }
{
    names.iter().filter(|name| is_needed(name)).count()
}

fn broad_categories(rules: &[CategoryRule]) -> usize
    ensures { result ≡ count_by (λ rule. is_needed (category_of rule).name) rules.now }
{
    rules.iter().filter(|rule| is_needed(&rule.name)).count()
}

fn broad_omissions(rules: &[Omission]) -> usize
    ensures { result ≡ count_by (λ o. is_none (omission_of o).name) rules.now }
{
    rules.iter().filter(|rule| rule.name.is_none()).count()
}

fn broad_fills(rules: &[FillRule]) -> usize
    ensures { result ≡ count_by (λ f. is_none (fill_of f).name) rules.now }
{
    rules.iter().filter(|rule| rule.name.is_none()).count()
}

fn open_swaps(swaps: &[SwapRule]) -> usize
    ensures { result ≡ count_by (λ swap. is_open_swap (swap_of swap)) swaps.now }
{
    swaps.iter().filter(|swap| is_open_swap(swap)).count()
}

fn broad_declarations(rules: &[Declaration]) -> usize
    ensures { result ≡ count_by (λ x. is_none (declaration_of x).rule.name) rules.now }
{
    rules.iter().filter(|x| x.rule.name.is_none()).count()
}

/// How many broad rules a mask has: changes, omissions, declarations, exchanges and rules that set
/// members for messages of any name, and rules that drop events of any name or events that a
/// session needs.
#[derive(Clone, Copy, PartialEq, Eq)]
pub struct Broad {
    pub changes: usize,
    pub drops: usize,
    pub categories: usize,
    pub fills: usize,
    pub omissions: usize,
    pub swaps: usize,
    pub declared: usize,
}

/// Returns how many broad rules a mask has.
#[tactic(auto, using(crate::proofs::Lists::counted_mapped))]
pub fn broad_of(rules: &MaskRules) -> Broad
    ensures { result ≡ broad_of (mask_of rules.now) }
{
    Broad {
        changes: broad_changes(rules.changes()),
        drops: broad_drops(rules.dropped()),
        categories: broad_categories(rules.categories()),
        fills: broad_fills(rules.fills()),
        omissions: broad_omissions(rules.omissions()),
        swaps: open_swaps(rules.swaps()),
        declared: broad_declarations(rules.declared()),
    }
}
