//! Suggests rules for the recordings that two names lead to.
ghost use Rattle.std.specs.Prelude.{◌≡◌, ◌+◌};
ghost use Rattle.dap_commands.specs.Reading.{text_in};
ghost use Rattle.dap_host.specs.declared.limits.TheConstants.{LIMITS};
ghost use Rattle.dapnorm.specs.Desks.{TakesAtMost, empty, here};
ghost use Rattle.dapnorm.specs.Suggestions.{SuggestionIsRun, Suggests, reported_refusal};

use crate::answer::Answer;
use crate::desk::Desk;
use crate::pair::are_both_standard;
use crate::reading::read_file;
use crate::rules::{NoRules, rules_text};
use crate::why::{Mistake, Why};
use dap_commands::Name;
use dap_compare::Which;
use dap_host::{Host, LIMITS, Purpose};
use dap_input::Refused;
use dap_mask::MaskRules;
use dap_rules::ApplyRefused;
use dap_suggest::{SuggestRefused, suggest};
use std::alloc::Global;

/// Returns how a rejected input is reported: without rules that were given, the session is the
/// recording itself.
fn reported_refusal(given: &[u8], refused: ApplyRefused) -> ApplyRefused
    ensures { result ≡ reported_refusal given.now refused }
{
    match (given, refused) {
        ([], ApplyRefused::Order(refused)) => ApplyRefused::Mask(refused),
        _ => refused,
    }
}

/// Suggests rules for two recordings that were read.
fn suggestion<'a>(
    alloc: Global,
    strict: bool,
    given: Vec<u8>,
    a: &[u8],
    b: &[u8],
) -> Result<Option<Answer<'a>>, Why<'a>>
    ensures { Suggests strict given a.now b.now result }
{
    match suggest(alloc, given.as_slice(), a, b, strict, LIMITS) {
        Ok(found) => Ok(Some(Answer::Rules(found.rules))),
        Err(SuggestRefused::Rules(fault)) => Err(Why::Rules(NoRules::Line(fault, given))),
        Err(SuggestRefused::Input(which, refused)) => {
            let refused = reported_refusal(given.as_slice(), refused);
            match MaskRules::read(alloc, given.as_slice()) {
                Ok(rules) => Err(Why::Unapplied(Some(which), refused, rules)),
                Err(_) => Err(Why::Input(Refused::Memory)),
            }
        }
        Err(SuggestRefused::NoRules(obstacle)) => {
            match format!(in alloc; "no rules can: {obstacle}\n") {
                Ok(line) => Err(Why::NoSuggestion(line)),
                Err(_) => Err(Why::Input(Refused::Memory)),
            }
        }
        Err(SuggestRefused::Memory) => Err(Why::Input(Refused::Memory)),
    }
}

/// Suggests rules that make the recordings that two names lead to the same, in addition to the
/// rules that are given. These are read first, then A whole, and then B. If `strict`, no rule is
/// suggested that hides what a test looks at.
pub(crate) fn run_suggest<'a, H: Host>(
    alloc: Global,
    host: &H,
    strict: bool,
    a: &str,
    b: &str,
    rules: Option<&str>,
    values: &[Name<'_>],
    desk: &mut Desk<H::Input, H::Output, H::Target>,
) -> Result<Option<Answer<'a>>, Why<'a>>
    requires { desk.old ≡ empty }
    ensures run { SuggestionIsRun (here (H.files host.now) H.Input.Source H.Output.Sink
        H.Target.Replaceable) strict a.now b.now (text_in rules.entry) values.now desk.new
        result }
    ensures taken_a { TakesAtMost H.Input.given (LIMITS.input + 1) desk.new.a }
    ensures taken_b { TakesAtMost H.Input.given (LIMITS.input + 1) desk.new.b }
{
    if are_both_standard(a, b) {
        return Err(Why::Mistake(Mistake::TwoStandard));
    }
    let given = match rules_text(alloc, host, rules, values) {
        Ok(given) => given,
        Err(why) => return Err(Why::Rules(why)),
    };
    let read_a = match read_file(alloc, host, Purpose::Input, a, LIMITS.input, &mut desk.a) {
        Ok(read) => read,
        Err(why) => return Err(Why::Unread(Some(Which::A), why)),
    };
    let read_b = match read_file(alloc, host, Purpose::Input, b, LIMITS.input, &mut desk.b) {
        Ok(read) => read,
        Err(why) => return Err(Why::Unread(Some(Which::B), why)),
    };
    suggestion(alloc, strict, given, read_a.as_slice(), read_b.as_slice())
}
