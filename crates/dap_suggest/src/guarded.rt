//! The rules that hide what a test looks at.
ghost use Rattle.std.specs.Prelude.{◌≡◌, ◌++◌, [], ◌∷◌, count_by, option_map, string_bytes};
ghost use Rattle.dap_mask.specs.{KeptRules.mask_of, Rules.{place_of, rule_of, step_of}};
ghost use Rattle.dap_mask.specs.{Fills.fill_of, RuleSteps.named};
ghost use Rattle.dap_mask.specs.Declarations.{declaration_of};
ghost use Rattle.dap_mask.specs.Omissions.{omission_of};
ghost use Rattle.dap_suggest.specs.Guarded.{guarded_count, is_guarded, is_guarded_event};
ghost use Rattle.dap_suggest.specs.Guarded.{is_guarded_fill, is_guarded_id, is_guarded_omission};
ghost use Rattle.dap_suggest.specs.Guarded.{is_guarded_inside, is_guarded_list, is_guarded_member};
ghost use Rattle.dap_suggest.specs.Guarded.{is_guarded_place, is_list_or_names};

use crate::words::parts_of;
use dap_mask::{Declaration, FillRule, MaskRule, MaskRules, Omission, RulesCause, Step, Verb};
use dap_message::Kind;
use std::alloc::{AllocError, Global};

fn is_guarded_list(name: &str) -> bool
    ensures { result ≡ is_guarded_list name.now }
{
    name == "threads"
        || name == "stackFrames"
        || name == "scopes"
        || name == "variables"
        || name == "breakpoints"
}

fn is_guarded_member(event: &str, member: &str) -> bool
    ensures { result ≡ is_guarded_member event.now member.now }
{
    (event == "stopped" && (member == "reason" || member == "allThreadsStopped"))
        || (event == "exited" && member == "exitCode")
}

fn is_guarded_event(event: &str) -> bool
    ensures { result ≡ is_guarded_event event.now }
{
    event == "stopped" || event == "exited"
}

fn is_list_or_names(place: &[Step]) -> bool
    ensures { result ≡ is_list_or_names (place_of place.now) }
{
    match place {
        [] => true,
        [Step::Each | Step::Element(_), Step::Member(member)] => member.as_str() == "name",
        _ => false,
    }
}

fn is_guarded_inside(kind: Kind, name: &Option<String>, place: &[Step]) -> bool
    ensures { result
        ≡ is_guarded_inside kind (option_map string_bytes name.now) (place_of place.now) }
{
    match (kind, name, place) {
        (Kind::Response, _, []) => true,
        (Kind::Response, _, [Step::Member(list), rest @ ..]) => {
            is_guarded_list(list.as_str()) && is_list_or_names(rest)
        }
        (Kind::Event, Some(event), []) => is_guarded_event(event.as_str()),
        (Kind::Event, Some(event), [Step::Member(member)]) => {
            is_guarded_member(event.as_str(), member.as_str())
        }
        _ => false,
    }
}

/// Returns whether a test looks at the place, or at a value inside it: the body of a response or of
/// a `stopped` or `exited` event, or a guarded member of it.
fn is_guarded_place(kind: Kind, name: &Option<String>, place: &[Step]) -> bool
    ensures { result
        ≡ is_guarded_place kind (option_map string_bytes name.now) (place_of place.now) }
{
    match place {
        [Step::Member(member), rest @ ..] => {
            member.as_str() == "body" && is_guarded_inside(kind, name, rest)
        }
        _ => false,
    }
}

fn is_guarded(rule: &MaskRule) -> bool
    ensures { result ≡ is_guarded (rule_of rule.now) }
{
    rule.verb == Verb::Blank && is_guarded_place(rule.kind, &rule.name, &rule.place)
}

fn guarded_changes(rules: &[MaskRule]) -> usize
    ensures { result ≡ count_by (λ rule. is_guarded (rule_of rule)) rules.now }
{
    rules.iter().filter(|rule| is_guarded(rule)).count()
}

fn guarded_ids(rules: &[Declaration]) -> usize
    ensures { result ≡ count_by (λ x. is_guarded_id (declaration_of x)) rules.now }
{
    rules.iter().filter(|x| is_guarded(&x.rule)).count()
}

fn guarded_omissions(rules: &[Omission]) -> usize
    ensures { result ≡ count_by (λ o. is_guarded_omission (omission_of o)) rules.now }
{
    rules
        .iter()
        .filter(|rule| is_guarded_place(rule.kind, &rule.name, &rule.parent))
        .count()
}

/// Returns whether a test looks at the member of an object in a body, or at the body.
fn is_guarded_end(kind: Kind, name: &Option<String>, parent: &[Step], last: &Step) -> bool
    ensures { result ≡ is_guarded_place kind (option_map string_bytes name.now)
        (place_of parent.now ++ step_of last.now ∷ []) }
{
    match (parent, last) {
        ([], Step::Member(body)) => body.as_str() == "body" && is_guarded_inside(kind, name, &[]),
        ([Step::Member(body)], Step::Member(member)) => {
            body.as_str() == "body" && is_guarded_in_body(kind, name, member.as_str())
        }
        (
            [
                Step::Member(body),
                Step::Member(list),
                Step::Each | Step::Element(_),
            ],
            Step::Member(member),
        ) => {
            body.as_str() == "body"
                && kind == Kind::Response
                && is_guarded_list(list.as_str())
                && member.as_str() == "name"
        }
        _ => false,
    }
}

/// Returns whether a test looks at the member of a body.
fn is_guarded_in_body(kind: Kind, name: &Option<String>, member: &str) -> bool
    ensures { result ≡ is_guarded_inside kind (option_map string_bytes name.now)
        (named member.now ∷ []) }
{
    match (kind, name) {
        (Kind::Response, _) => is_guarded_list(member),
        (Kind::Event, Some(event)) => is_guarded_member(event.as_str(), member),
        _ => false,
    }
}

fn guarded_fills(rules: &[FillRule]) -> usize
    ensures { result ≡ count_by (λ f. is_guarded_fill (fill_of f)) rules.now }
{
    rules
        .iter()
        .filter(|rule| is_guarded_end(rule.kind, &rule.name, &rule.parent, &rule.last))
        .count()
}

/// Returns how many rules for guarded places a mask has: those that blank them, declare their
/// values as ids, omit elements of them, or set their values.
#[tactic(auto, using(crate::proofs::Lists::counted_mapped))]
pub fn guarded_count(rules: &MaskRules) -> usize
    ensures { result ≡ guarded_count (mask_of rules.now) }
{
    guarded_changes(rules.changes())
        + guarded_ids(rules.declared())
        + guarded_omissions(rules.omissions())
        + guarded_fills(rules.fills())
}

/// What is hidden if a guarded member of a body is blanked, or the names of its elements.
static HIDDEN: [(&str, &str); 8] = [
    ("reason", "why the program stopped"),
    ("allThreadsStopped", "whether all threads stopped"),
    ("exitCode", "the exit code"),
    ("threads", "which threads exist"),
    ("stackFrames", "which frames exist"),
    ("scopes", "which scopes exist"),
    ("variables", "which variables exist"),
    ("breakpoints", "which breakpoints exist"),
];

/// Returns what a rule hides that blanks a guarded place.
fn hidden_by(rule: &MaskRule) -> &'static str {
    if let Some(Step::Member(member)) = rule.place.get(1) {
        for (name, hidden) in HIDDEN.iter() {
            if member.as_str() == *name {
                return *hidden;
            }
        }
    }
    "the whole body"
}

fn hidden_in(rules: &MaskRules) -> Option<&'static str> {
    let rule = rules.changes().first()?;
    is_guarded(rule).then_some(hidden_by(rule))
}

/// Returns what is hidden if a place is blanked, if a test looks at it. `target` is the messages
/// and the place, as rules have them.
pub fn hidden_at(alloc: Global, target: &[u8]) -> Result<Option<&'static str>, AllocError> {
    let line = parts_of(alloc, &[b"blank ", target])?;
    match MaskRules::read(alloc, line.as_slice()) {
        Ok(rules) => Ok(hidden_in(&rules)),
        Err(fault) if fault.cause == RulesCause::Memory => Err(AllocError),
        // No file can have the rule.
        Err(_) => Ok(None),
    }
}
