//! Suggests rules that make two recordings the same.
ghost use Rattle.std.specs.Prelude.{◌≡◌, ◌++◌, true, IfErr, IfOk, IfSome, IsTrue};
ghost use Rattle.dap_input.specs.Limits.{AreSound};
ghost use Rattle.dap_mask.specs.{KeptRules.mask_of, RulesFile.rules_said};
ghost use Rattle.dap_suggest.specs.Exchanges.{AddsNeededSwaps, HasGivenSwaps};
ghost use Rattle.dap_suggest.specs.NotSuggested.{FailsSearch, HasNoSuggestion, IsNotMaskable};
ghost use Rattle.dap_suggest.specs.NotSuggested.{IsNotSuggested, StillDiffer};
ghost use Rattle.dap_suggest.specs.{Broad.{AddsNoBroadRule, broad_of}, Guarded.AddsGuarded};
ghost use Rattle.dap_suggest.specs.Guarded.{guarded_count};
ghost use Rattle.dap_suggest.specs.Suggested.{AreAlreadySame, AreMade, AreSameBy, IsSuggestion};
ghost use Rattle.dap_suggest.specs.Suggested.{SaysWhatToCheck, SuggestsNothing};

use crate::broad::broad_of;
use crate::confirming::suggested;
use crate::counting::{EventsByName, differing_events, forget_categories, have_categories};
use crate::exchanges::{are_among, are_needed};
use crate::fractions::fraction_rules;
use crate::guarded::guarded_count;
use crate::joined_rules::{joined, missing_end, read_joined};
use crate::labels::confirm_labelled;
use crate::obstacle::{NoneFound, Obstacle, Unsolved};
use crate::pieces::{JOINS, comment_on_join};
use crate::searching::{FoundRules, Tries, rules_for};
use crate::sessions::{Sessions, are_same, first_difference, sessions_by};
use crate::suggestion::{Inputs, SuggestRefused, Suggestion};
use dap_input::{Limits, Refused};
use dap_mask::MaskRules;
use dap_rename::Mode;
use dap_rules::{ApplyRefused, mode_by};
use std::alloc::Global;
use std::collections::BTreeMap;

/// Confirms and labels rules that were found for two recordings, if they add only exchanges that
/// the sessions need. `rules` make the sessions, which are dropped from memory first.
#[tactic(auto, using(crate::proofs::NeededSwaps::found_are_needed, crate::proofs::NeededSwaps::same_suggestion))]
fn confirm_found(
    alloc: Global,
    rules: &MaskRules,
    inputs: &Inputs<'_>,
    sessions: Sessions,
    found: &FoundRules,
) -> Result<Suggestion, Unsolved>
    requires limits { AreSound inputs.now.limits }
    requires given { HasGivenSwaps inputs.now }
    requires made { AreMade inputs.now (mask_of rules.now) sessions }
    ensures { IfOk result (IsSuggestion inputs.now) }
{
    let read = read_joined(alloc, inputs.given, found.text.as_slice())?;
    let (given, swaps) = (inputs.swaps, read.swaps());
    if !are_among(given, rules.swaps()) || !are_needed(alloc, given, swaps, &sessions)? {
        return Err(Unsolved::NoRules(NoneFound::Unread));
    }
    drop(sessions);
    let inputs = Inputs { swaps, ..*inputs };
    confirm_labelled(alloc, &inputs, found)
}

/// Confirms and labels rules that were found. If the recordings differ by rules that omit elements,
/// searches again without such rules.
fn confirm_or_omit_none(
    alloc: Global,
    rules: &MaskRules,
    inputs: &Inputs<'_>,
    before: &[u8],
    sessions: Sessions,
    events: &EventsByName,
    found: &FoundRules,
) -> Result<Suggestion, Unsolved>
    requires limits { AreSound inputs.now.limits }
    requires given { HasGivenSwaps inputs.now }
    requires made { AreMade inputs.now (mask_of rules.now) sessions }
    ensures { IfOk result (IsSuggestion inputs.now) }
{
    let confirmed = confirm_found(alloc, rules, inputs, sessions, found);
    if !found.have_omissions || !matches!(&confirmed, Err(Unsolved::Differs(_))) {
        return confirmed;
    }
    let tries = Tries {
        fill: false,
        omit: false,
    };
    let sessions = sessions_by(alloc, rules, inputs)?;
    let found = rules_for(alloc, inputs, before, &sessions, events, tries)?;
    confirm_found(alloc, rules, inputs, sessions, &found)
}

/// Does the same as [`find_by`], without rules that set members.
fn find_without_fills(
    alloc: Global,
    rules: &MaskRules,
    inputs: &Inputs<'_>,
    before: &[u8],
    sessions: Sessions,
    events: &EventsByName,
) -> Result<Suggestion, Unsolved>
    requires limits { AreSound inputs.now.limits }
    requires given { HasGivenSwaps inputs.now }
    requires made { AreMade inputs.now (mask_of rules.now) sessions }
    ensures { IfOk result (IsSuggestion inputs.now) }
{
    let tries = Tries {
        fill: false,
        omit: true,
    };
    let found = rules_for(alloc, inputs, before, &sessions, events, tries)?;
    confirm_or_omit_none(alloc, rules, inputs, before, sessions, events, &found)
}

/// Searches rules after those `before` them, the last of which set members. Returns `None` if the
/// rules make no sessions.
fn find_after_fills(
    alloc: Global,
    inputs: &Inputs<'_>,
    before: &[u8],
    events: &EventsByName,
) -> Result<Option<Suggestion>, Unsolved>
    requires limits { AreSound inputs.now.limits }
    requires given { HasGivenSwaps inputs.now }
    ensures { IfOk result (λ o. IfSome o (IsSuggestion inputs.now)) }
{
    let rules = read_joined(alloc, inputs.given, before)?;
    let Ok(sessions) = sessions_by(alloc, &rules, inputs) else {
        return Ok(None);
    };
    let found = find_without_fills(alloc, &rules, inputs, before, sessions, events)?;
    Ok(Some(found))
}

/// Searches rules for two recordings and their sessions, which `rules` make: those that were given
/// and those `before` the others. Some of these events are dropped. Rules that set members are
/// tried first, if pairs need some. Confirms and labels the rules that are found.
fn find_by(
    alloc: Global,
    rules: &MaskRules,
    inputs: &Inputs<'_>,
    before: &[u8],
    sessions: Sessions,
    events: &EventsByName,
) -> Result<Suggestion, Unsolved>
    requires limits { AreSound inputs.now.limits }
    requires given { HasGivenSwaps inputs.now }
    requires made { AreMade inputs.now (mask_of rules.now) sessions }
    ensures { IfOk result (IsSuggestion inputs.now) }
{
    let tries = Tries {
        fill: true,
        omit: true,
    };
    let found = rules_for(alloc, inputs, before, &sessions, events, tries)?;
    if found.fills.is_empty() {
        return confirm_or_omit_none(alloc, rules, inputs, before, sessions, events, &found);
    }
    let filled = joined(alloc, before, found.fills.as_slice())?;
    match find_after_fills(alloc, inputs, filled.as_slice(), events) {
        Ok(Some(suggestion)) => return Ok(suggestion),
        Err(Unsolved::Memory) => return Err(Unsolved::Memory),
        _ => {}
    }
    find_without_fills(alloc, rules, inputs, before, sessions, events)
}

/// Searches and confirms rules by events of one category, or by all events of a name, if no rules
/// are found otherwise. The sessions are those that `rules` make of the recordings.
fn find_confirmed(
    alloc: Global,
    rules: &MaskRules,
    inputs: &Inputs<'_>,
    before: &[u8],
    sessions: Sessions,
) -> Result<Suggestion, Unsolved>
    requires limits { AreSound inputs.now.limits }
    requires given { HasGivenSwaps inputs.now }
    requires made { AreMade inputs.now (mask_of rules.now) sessions }
    ensures { IfOk result (IsSuggestion inputs.now) }
{
    let mut events = differing_events(alloc, &sessions)?;
    let found = find_by(alloc, rules, inputs, before, sessions, &events);
    let has_none = matches!(&found, Err(Unsolved::NoRules(_) | Unsolved::Differs(_)));
    if !have_categories(&events) || !has_none {
        return found;
    }
    forget_categories(&mut events);
    let sessions = sessions_by(alloc, rules, inputs)?;
    find_by(alloc, rules, inputs, before, sessions, &events)
}

/// Searches rules after those `before` them, the last of which joins output. Returns `None` if the
/// rules make no sessions, or if the joined output differs.
fn find_with_join(
    alloc: Global,
    inputs: &Inputs<'_>,
    before: &[u8],
) -> Result<Option<Suggestion>, Unsolved>
    requires limits { AreSound inputs.now.limits }
    requires given { HasGivenSwaps inputs.now }
    ensures { IfOk result (λ o. IfSome o (IsSuggestion inputs.now)) }
{
    let rules = read_joined(alloc, inputs.given, before)?;
    let Ok(sessions) = sessions_by(alloc, &rules, inputs) else {
        return Ok(None);
    };
    if comment_on_join(alloc, &sessions)?.is_some() {
        return Ok(None);
    }
    let found = find_confirmed(alloc, &rules, inputs, before, sessions)?;
    Ok(Some(found))
}

/// Searches rules after those `before` them and one that joins output, with its comment. Returns
/// `None` if none are found.
fn find_joined(
    alloc: Global,
    inputs: &Inputs<'_>,
    before: &[u8],
    comment: &[u8],
) -> Result<Option<Suggestion>, Unsolved>
    requires limits { AreSound inputs.now.limits }
    requires given { HasGivenSwaps inputs.now }
    ensures { IfOk result (λ o. IfSome o (IsSuggestion inputs.now)) }
{
    for join in JOINS {
        let mut before = joined(alloc, before, comment)?;
        before.extend_from_slice(join)?;
        match find_with_join(alloc, inputs, before.as_slice()) {
            Ok(None) | Err(Unsolved::NoRules(_) | Unsolved::Differs(_)) => {}
            found => return found,
        }
    }
    Ok(None)
}

/// Searches and confirms rules. If the sessions have output in other pieces, and the rules that
/// were given do not join it, rules that join it are tried first.
fn find_joined_first(
    alloc: Global,
    rules: &MaskRules,
    inputs: &Inputs<'_>,
    before: &[u8],
    sessions: Sessions,
) -> Result<Suggestion, Unsolved>
    requires limits { AreSound inputs.now.limits }
    requires given { HasGivenSwaps inputs.now }
    requires made { AreMade inputs.now (mask_of rules.now) sessions }
    ensures { IfOk result (IsSuggestion inputs.now) }
{
    let comment = match rules.joining() {
        Some(_) => None,
        None => comment_on_join(alloc, &sessions)?,
    };
    let Some(comment) = comment else {
        return find_confirmed(alloc, rules, inputs, before, sessions);
    };
    drop(sessions);
    if let Some(found) = find_joined(alloc, inputs, before, comment)? {
        return Ok(found);
    }
    let sessions = sessions_by(alloc, rules, inputs)?;
    find_confirmed(alloc, rules, inputs, before, sessions)
}

/// Searches rules after those `before` them. The sessions are those that `rules` make of the
/// recordings. Returns `None` if these make no sessions.
fn find_after(
    alloc: Global,
    rules: &MaskRules,
    inputs: &Inputs<'_>,
    before: &[u8],
) -> Result<Option<Suggestion>, Unsolved>
    requires limits { AreSound inputs.now.limits }
    requires given { HasGivenSwaps inputs.now }
    ensures { IfOk result (λ o. IfSome o (IsSuggestion inputs.now)) }
{
    match sessions_by(alloc, rules, inputs) {
        Ok(sessions) => Ok(Some(find_joined_first(alloc, rules, inputs, before, sessions)?)),
        Err((_, ApplyRefused::Memory)) => Err(Unsolved::Memory),
        Err(_) => Ok(None),
    }
}

/// Searches rules after those that blank the numbers of which no session can be made. Returns
/// `None` if these do not make sessions either.
fn find_after_fractions(
    alloc: Global,
    rules: &MaskRules,
    inputs: &Inputs<'_>,
) -> Result<Option<Suggestion>, Unsolved>
    requires limits { AreSound inputs.now.limits }
    requires given { HasGivenSwaps inputs.now }
    ensures { IfOk result (λ o. IfSome o (IsSuggestion inputs.now)) }
{
    let before = fraction_rules(alloc, rules, inputs)?;
    let rules = read_joined(alloc, inputs.given, before.as_slice())?;
    find_after(alloc, &rules, inputs, before.as_slice())
}

/// Returns the number of the first record in which two recordings differ by the rules that were
/// given and those that were found after them, or `None` if they do not differ.
fn first_after(alloc: Global, inputs: &Inputs<'_>, found: &[u8]) -> Result<Option<u64>, Unsolved>
    requires { AreSound inputs.now.limits }
    ensures { IfOk result (λ first. IfSome first (StillDiffer inputs.now.limits inputs.now.given.now
        inputs.now.a.now inputs.now.b.now)) }
{
    let rules = read_joined(alloc, inputs.given, found)?;
    let sessions = sessions_by(alloc, &rules, inputs)?;
    Ok(first_difference(alloc, &rules, inputs, &sessions)?)
}

/// Returns why no rules are suggested, after a search without a result.
fn refusal(alloc: Global, inputs: &Inputs<'_>, unsolved: Unsolved) -> SuggestRefused
    requires { AreSound inputs.now.limits }
    ensures { FailsSearch inputs.now result }
{
    let because = match unsolved {
        Unsolved::NoRules(because) => because,
        Unsolved::Differs(mismatch) => {
            match first_after(alloc, inputs, mismatch.rules.as_slice()) {
                Ok(Some(number)) => {
                    return SuggestRefused::NoRules(Obstacle::StillDiffers(number));
                }
                Ok(None) => NoneFound::Unread,
                Err(Unsolved::NoRules(because)) => because,
                Err(_) => return SuggestRefused::Memory,
            }
        }
        Unsolved::Memory => return SuggestRefused::Memory,
    };
    SuggestRefused::NoRules(Obstacle::NoneFound(because))
}

/// Returns whether a recording is rejected for a number that is not an integer of 64 bits.
fn has_fraction(refused: &SuggestRefused) -> bool
    ensures { IsTrue result → IsNotMaskable refused.now }
{
    matches!(
        refused,
        SuggestRefused::Input(_, ApplyRefused::Mask(Refused::Fraction(_)))
    )
}

/// Suggests rules for two recordings, one of which the rules that were given reject.
#[tactic(auto, using(crate::proofs::Refusals::search_failed))]
fn suggest_after(
    alloc: Global,
    rules: &MaskRules,
    inputs: &Inputs<'_>,
    refused: SuggestRefused,
) -> Result<Suggestion, SuggestRefused>
    requires limits { AreSound inputs.now.limits }
    requires given { HasGivenSwaps inputs.now }
    requires read { rules_said inputs.now.given.now ≡ Ok (mask_of rules.now) }
    requires rejected { HasNoSuggestion inputs.now refused }
    ensures ok { IfOk result (IsSuggestion inputs.now) }
    ensures other { IfOk result (λ s. AreAlreadySame inputs.now (mask_of rules.now) → ⊥) }
    ensures err { IfErr result (HasNoSuggestion inputs.now) }
{
    if !has_fraction(&refused) {
        return Err(refused);
    }
    match find_after_fractions(alloc, rules, inputs) {
        Ok(Some(suggestion)) => Ok(suggestion),
        Ok(None) => Err(refused),
        Err(unsolved) => Err(refusal(alloc, inputs, unsolved)),
    }
}

/// Suggests rules in addition to those that were given and read.
#[tactic(auto, using(crate::proofs::NeededSwaps::given_are_needed, crate::proofs::Refusals::search_failed))]
fn suggest_by(
    alloc: Global,
    rules: &MaskRules,
    inputs: &Inputs<'_>,
) -> Result<Suggestion, SuggestRefused>
    requires limits { AreSound inputs.now.limits }
    requires given { HasGivenSwaps inputs.now }
    requires read { rules_said inputs.now.given.now ≡ Ok (mask_of rules.now) }
    ensures ok { IfOk result (IsSuggestion inputs.now) }
    ensures nothing { AreAlreadySame inputs.now (mask_of rules.now)
        → IfOk result (SuggestsNothing inputs.now.given.now inputs.now.mode) }
    ensures err { IfErr result (HasNoSuggestion inputs.now) }
{
    let sessions = match sessions_by(alloc, rules, inputs) {
        Ok(sessions) => sessions,
        Err(rejected) => {
            return suggest_after(alloc, rules, inputs, SuggestRefused::from(rejected));
        }
    };
    let before = missing_end(inputs.given);
    let found = if are_same(alloc, rules, inputs, &sessions)? {
        suggested(alloc, inputs, before, inputs.mode, 0)
    } else {
        find_joined_first(alloc, rules, inputs, before, sessions)
    };
    match found {
        Ok(suggestion) => Ok(suggestion),
        Err(unsolved) => Err(refusal(alloc, inputs, unsolved)),
    }
}

/// Suggests rules that make two recordings of one scenario the same, in addition to the rules that
/// were given. These are applied first, and names replace the ids that they declare.
///
/// The records are matched as those of [`diff_all_with`](dap_diff::diff_all_with). Equal output in
/// other pieces is joined. Events that the recordings have in different numbers are dropped, only
/// those of some categories if these explain the difference, and equal events of one name that they
/// have in another order. At each place at which pairs differ,
/// the rules that hide the fewest equal values are suggested, for all elements of a list or for
/// those of one name; or a parent is blanked. If lists have different lengths, up to four names of
/// elements are omitted, or the lists are blanked. Members that only one of them has are set.
/// Pairs in another order may change places. Numbers that are not integers of 64 bits are blanked. Then the rules are applied to both recordings, and
/// the results are compared. Last, the rules get labels, so that they keep which ids are equal,
/// except for labels with which the recordings differ.
///
/// Each rule follows a comment with the two values and their records, and with the number of equal
/// values that it also hides. If it has a label, the comment says that it keeps which ids are
/// equal. The last line says in which mode the recordings are the same:
/// `# with these rules: same`, or `# with these rules and per-stop: same`. It also counts the rules
/// that hide what a test looks at, each of which follows a comment that starts with `# CHECK`.
///
/// # Errors
///
/// - `Rules`: the rules that were given are rejected.
/// - `Input`: A is rejected by the rules that were given, or B is, and A is not.
/// - `NoRules`: no rules were found.
/// - `Memory`: an allocation failed. Rules that are too long are rejected before any allocation.
pub fn suggest(
    alloc: Global,
    given: &[u8],
    a: &[u8],
    b: &[u8],
    strict: bool,
    limits: Limits,
) -> Result<Suggestion, SuggestRefused>
    requires limits { AreSound limits }

    // The rules that were given and those that are suggested after them are accepted as one file.
    // By them both recordings are accepted, and have one normal text in the mode of the suggestion.
    ensures ok { IfOk result
        (λ s. AreSameBy limits s.mode (given.now ++ s.rules.items) a.now b.now) }

    // If the rules that were given make the recordings the same, no rule is suggested.
    ensures nothing { (mode : Mode) → AreSameBy limits mode given.now a.now b.now
        → IfOk result (SuggestsNothing given.now mode) }

    // Each rule that is suggested names the messages that it is for, and none drops events that a
    // session needs.
    ensures narrow { IfOk result
        (λ s. AddsNoBroadRule given.now (given.now ++ s.rules.items)) }

    // Each exchange that is suggested is for messages that come in one order in A and in the other
    // order in B.
    ensures swaps { IfOk result (λ s. AddsNeededSwaps limits given.now
        (given.now ++ s.rules.items) a.now b.now) }

    // The last line says in which mode the recordings are the same, and how many rules are for
    // guarded places. If `strict`, none is.
    ensures checked { IfOk result (λ s. SaysWhatToCheck given.now s.mode s.rules.items) }
    ensures strict { strict ≡ true → IfOk result
        (λ s. AddsGuarded 0 given.now (given.now ++ s.rules.items)) }

    // The rules that were given are rejected, or the first recording that they reject is, or no
    // rules were found. If a record is named, it is the first in which the recordings differ after
    // some rules. `Memory` is returned only if the rules that were given are not too long.
    ensures err { IfErr result (IsNotSuggested limits given.now a.now b.now) }
{
    let rules = MaskRules::read(alloc, given)?;
    let mode = mode_by(&rules, Mode::Whole);
    let inputs = Inputs {
        given,
        broad: broad_of(&rules),
        guarded: guarded_count(&rules),
        swaps: rules.swaps(),
        strict,
        mode,
        a,
        b,
        limits,
    };
    suggest_by(alloc, &rules, &inputs)
}
