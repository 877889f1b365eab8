//! Looks at the members of a flat message by which rules apply.
ghost use Rattle.std.specs.Prelude.{◌≡◌, ◌||◌, Some, IfOk, option_map, string_bytes, codes};
ghost use Rattle.std.specs.List.{list_any};
ghost use Rattle.dap_tree.specs.{Doc.get};
ghost use Rattle.dap_message.specs.{Envelope.text_value, Rows.is_text};
ghost use Rattle.dap_flat.specs.Pieces.{piece_of};
ghost use Rattle.dap_flat_message.specs.{Heads.text_in, Judging.top_of};
ghost use Rattle.dap_mask.specs.Categories.{category_of, is_dropped_by};
ghost use Rattle.dap_mask.specs.FlatMasking.{AppliesTo, asks_for_event, told_category, IsTold};
ghost use Rattle.dap_mask.specs.Index.{asks_for, told_kind, told_name};
ghost use Rattle.dap_mask.specs.KeptRules.{categories_of_mask, dropped_of, mask_of};
ghost use Rattle.dap_mask.specs.{Mask.leaves_out, RuleSteps.is_called, Rules.is_event_of};
ghost use Rattle.dap_mask.specs.Rules.{rule_of};

use crate::categories::CategoryRule;
use crate::index::{asks_for, may_speak};
use crate::mask_rules::MaskRules;
use crate::masking::name_key;
use crate::meets::text_of;
use crate::rules::MaskRule;
use dap_flat::{Node, Unclear, child};
use dap_message::Kind;

/// Returns whether a message is an event that the rules drop.
pub(crate) fn is_dropped(nodes: &[Node<'_>], rules: &MaskRules) -> Result<bool, Unclear>
    ensures { IfOk result (IsTold nodes.now 0 (leaves_out (mask_of rules.now))) }
{
    let event = has_text(nodes, 0, "type", "event")?;
    if event {
        is_event_dropped(nodes, rules)
    } else {
        Ok(false)
    }
}

fn is_event_dropped(nodes: &[Node<'_>], rules: &MaskRules) -> Result<bool, Unclear>
    ensures { IfOk result (IsTold nodes.now 0 (λ d. is_event_of (dropped_of rules.now) d
        || is_dropped_by (categories_of_mask rules.now) d)) }
{
    let name = told_name(nodes, Kind::Event)?;
    let category = told_category(nodes)?;
    Ok(drops_event(rules, name, category))
}

#[tactic(auto, using(crate::proofs::Lists::any_mapped))]
fn drops_event(rules: &MaskRules, name: Option<&str>, category: Option<&str>) -> bool
    ensures { result ≡ (list_any (λ n. asks_for n (text_in name.entry)) (dropped_of rules.now)
        || list_any (asks_for_event (text_in name.entry) (text_in category.entry))
        (categories_of_mask rules.now)) }
{
    is_event_of(rules.dropped(), name) || is_dropped_by(rules.categories(), name, category)
}

fn is_event_of(names: &[Option<String>], name: Option<&str>) -> bool
    ensures { result ≡ list_any
        (λ n. asks_for (option_map string_bytes n) (text_in name.entry)) names.now }
{
    names.iter().any(|asked| asks_for(text_of(asked), name))
}

fn is_dropped_by(rules: &[CategoryRule], name: Option<&str>, category: Option<&str>) -> bool
    ensures { result ≡ list_any
        (λ c. asks_for_event (text_in name.entry) (text_in category.entry) (category_of c))
        rules.now }
{
    rules.iter().any(|rule| drops(rule, name, category))
}

fn drops(rule: &CategoryRule, name: Option<&str>, category: Option<&str>) -> bool
    ensures { result
        ≡ asks_for_event (text_in name.entry) (text_in category.entry) (category_of rule.now) }
{
    asks_for(text_of(&rule.name), name) && asks_for(Some(rule.category.as_str()), category)
}

/// Returns the category of a flat message, if it has one: the string `body.category`.
///
/// # Errors
///
/// `Unclear`: the nodes are not those of a document.
pub fn told_category<'a>(nodes: &[Node<'a>]) -> Result<Option<&'a str>, Unclear>
    ensures { IfOk result (λ s. IsTold nodes.now 0 told_category (text_in s)) }
{
    match child(nodes, 0, "body")? {
        Some(place) => told_text(nodes, place, "category"),
        None => Ok(None),
    }
}

/// Returns the kind of a flat message, if it has one.
///
/// # Errors
///
/// `Unclear`: the nodes are not those of a document.
pub fn told_kind(nodes: &[Node<'_>]) -> Result<Option<Kind>, Unclear>
    ensures { IfOk result (IsTold nodes.now 0 told_kind) }
{
    match told_text(nodes, 0, "type")? {
        Some(word) => Ok(Kind::named(word)),
        None => Ok(None),
    }
}

/// Returns the name of a flat message of a kind, if it has one: its `command`, or the `event` of an
/// event.
///
/// # Errors
///
/// `Unclear`: the nodes are not those of a document.
pub fn told_name<'a>(nodes: &[Node<'a>], kind: Kind) -> Result<Option<&'a str>, Unclear>
    ensures { IfOk result (λ s. IsTold nodes.now 0 (told_name kind) (text_in s)) }
{
    told_text(nodes, 0, name_key(kind))
}

/// Returns whether a rule applies to a message of this kind, name and category.
pub fn applies_to(rule: &MaskRule, kind: Kind, name: Option<&str>, category: Option<&str>) -> bool
    ensures { AppliesTo (rule_of rule.now) kind (text_in name.entry) (text_in category.entry)
        result }
{
    may_speak(rule, kind, name) && asks_for_category(rule, category)
}

fn asks_for_category(rule: &MaskRule, category: Option<&str>) -> bool
    ensures { result ≡ asks_for (rule_of rule.now).category (text_in category.entry) }
{
    asks_for(text_of(&rule.category), category)
}

/// Returns whether the value that starts at `at` has the name. Without a name, returns true.
pub(crate) fn is_called(nodes: &[Node<'_>], at: usize, name: Option<&str>) -> Result<bool, Unclear>
    ensures { IfOk result
        (IsTold nodes.now at (λ d. is_called (text_in name.entry) (Some d))) }
{
    match name {
        Some(name) => has_text(nodes, at, "name", name),
        None => Ok(true),
    }
}

fn has_text(nodes: &[Node<'_>], at: usize, name: &str, word: &str) -> Result<bool, Unclear>
    ensures { IfOk result (IsTold nodes.now at (λ d. is_text word.now (get name.now d))) }
{
    let text = told_text(nodes, at, name)?;
    Ok(asks_for(Some(word), text))
}

// Returns the string in a member of the object that starts at `at`, if there is one.
fn told_text<'a>(nodes: &[Node<'a>], at: usize, name: &str) -> Result<Option<&'a str>, Unclear>
    ensures { IfOk result
        (λ s. IsTold nodes.now at (λ d. text_value (get name.now d)) (text_in s)) }
{
    match child(nodes, at, name)? {
        Some(place) => text_at(nodes, place),
        None => Ok(None),
    }
}

fn text_at<'a>(nodes: &[Node<'a>], at: usize) -> Result<Option<&'a str>, Unclear>
    ensures { IfOk result (λ s. IsTold nodes.now at (λ d. text_value (Some d)) (text_in s)) }
{
    if at >= nodes.len() {
        return Err(Unclear);
    }
    Ok(text_in(&nodes[at]))
}

fn text_in<'a>(node: &Node<'a>) -> Option<&'a str>
    ensures { text_in result ≡ text_value (Some (top_of (piece_of node.now))) }
{
    match *node {
        Node::Text(text) => Some(text),
        _ => None,
    }
}
