//! Masks the values of a message in place.
ghost use Rattle.std.specs.Prelude.{◌≡◌, ◌↔◌, true, false, Some, option_map, string_bytes, ◌∷◌};
ghost use Rattle.std.specs.{Prelude.slice_get, List.list_any};
ghost use Rattle.dap_tree.specs.Doc.{Doc, is_sound, is_ordered, get, change_child, change_items};
ghost use Rattle.dap_tree.specs.{Doc.map_items, View.{view, items_view}};
ghost use Rattle.dap_message.specs.Rows.{is_text, is_of_kind, name_key};
ghost use Rattle.dap_mask.specs.{Ids.KeepsIds, Index.{told_kind, told_name, masked_by, masked_at}};
ghost use Rattle.dap_mask.specs.Categories.{category_of, drops};
ghost use Rattle.dap_mask.specs.{KeptRules.{changes_of, dropped_of, mask_of}, Mask.leaves_out};
ghost use Rattle.dap_mask.specs.Masked.{mask_by, masked, IsMasked, AgreeBut, KeepsElsewhere};
ghost use Rattle.dap_mask.specs.Masked.{HasNoNewPath};
ghost use Rattle.dap_mask.specs.RuleSteps.{change_at_place, change_called, is_called};
ghost use Rattle.dap_mask.specs.Rules.{rule_of, rules_of, step_of, place_of, of_verb, blank};
ghost use Rattle.dap_mask.specs.Rules.{has_name, has_category, rule_applies, is_dropped};

use crate::categories::CategoryRule;
use crate::mask_rules::MaskRules;
use crate::meets::text_of;
use crate::rules::{MaskRule, Step, Verb};
use crate::texts::{digits, hex};
use dap_message::Kind;
use dap_tree::Tree;
use dap_words::{long, uuid};
use std::mem;

/// Masks a message in place. Does not allocate.
pub fn mask(tree: &mut Tree, rules: &MaskRules)
    ensures masked { view tree.new ≡ masked (changes_of rules.now) (view tree.old) }

    // Only the places of the rules change. The value at each path is the value that the rules
    // produce there. The values at all other paths are unchanged, and no path is new.
    ensures places { IsMasked (changes_of rules.now) (view tree.old) (view tree.new) }
    ensures elsewhere { KeepsElsewhere (changes_of rules.now) (view tree.old) (view tree.new) }
    ensures none_new { HasNoNewPath (view tree.old) (view tree.new) }
    ensures ids { KeepsIds (view tree.old) (view tree.new) }

    // If the members of the document are in order, the masked document is unique, and masking it
    // again does not change it. Masking another ordered document yields the same result if and
    // only if the two documents agree except for the parts that the rules redact.
    ensures one { is_ordered (view tree.old) ≡ true
        → (d : Doc) → IsMasked (changes_of rules.now) (view tree.old) d → d ≡ view tree.new }
    ensures again { is_ordered (view tree.old) ≡ true
        → masked (changes_of rules.now) (view tree.new) ≡ view tree.new }
    ensures equal { is_ordered (view tree.old) ≡ true → (d : Doc) → is_ordered d ≡ true
        → (view tree.new ≡ masked (changes_of rules.now) d)
        ↔ AgreeBut (changes_of rules.now) (view tree.old) d }

    // The message stays serialisable and keeps its members in order, if it was so before. It is
    // dropped by its name if and only if it was before. If no rule dropped it, none drops it now.
    ensures sound { is_sound (view tree.old) ≡ true → is_sound (view tree.new) ≡ true }
    ensures ordered { is_ordered (view tree.old) ≡ true → is_ordered (view tree.new) ≡ true }
    ensures dropped { is_dropped (dropped_of rules.now) (view tree.new)
        ≡ is_dropped (dropped_of rules.now) (view tree.old) }
    ensures stays { leaves_out (mask_of rules.now) (view tree.old) ≡ false
        → leaves_out (mask_of rules.now) (view tree.new) ≡ false }
{
    mask_all(tree, rules);
}

fn mask_all(tree: &mut Tree, rules: &MaskRules)
    ensures { view tree.new ≡ masked (changes_of rules.now) (view tree.old) }
{
    match told_kind(tree) {
        Some(kind) => mask_told(tree, rules, kind),
        None => {}
    }
}

fn mask_told(tree: &mut Tree, rules: &MaskRules, kind: Kind)
    requires { told_kind (view tree.old) ≡ Some kind }
    ensures { view tree.new ≡ masked (changes_of rules.now) (view tree.old) }
{
    let found = rules.places(kind, told_name(tree, kind));
    mask_places(tree, rules.changes(), found);
}

fn mask_places(tree: &mut Tree, rules: &[MaskRule], places: &[usize])
    ensures { view tree.new ≡ masked_at (rules_of rules.now) places.now (view tree.old) }
{
    for place in places {
        mask_at(tree, rules, *place);
    }
}

fn mask_at(tree: &mut Tree, rules: &[MaskRule], place: usize)
    ensures { view tree.new ≡ masked_by (slice_get (rules_of rules.now) place) (view tree.old) }
{
    match rules.get(place) {
        Some(rule) => mask_by(tree, rule),
        None => {}
    }
}

fn told_kind(tree: &Tree) -> Option<Kind>
    ensures { result ≡ told_kind (view tree.now) }
{
    if is_of_kind(tree, Kind::Request) {
        Some(Kind::Request)
    } else if is_of_kind(tree, Kind::Response) {
        Some(Kind::Response)
    } else if is_of_kind(tree, Kind::Event) {
        Some(Kind::Event)
    } else {
        None
    }
}

fn told_name(tree: &Tree, kind: Kind) -> Option<&str>
    ensures { option_map (λ s. s.now) result ≡ told_name kind (view tree.now) }
{
    match tree.child(name_key(kind)) {
        Some(Tree::Text(text)) => Some(text.as_str()),
        _ => None,
    }
}

/// Returns whether a message is an event that the rules drop. Does not allocate.
#[tactic(auto, using(crate::proofs::Lists::any_mapped))]
pub fn is_dropped(tree: &Tree, rules: &MaskRules) -> bool
    ensures { result ≡ leaves_out (mask_of rules.now) (view tree.now) }
{
    is_of_kind(tree, Kind::Event)
        && (is_event_of(tree, rules.dropped()) || is_dropped_by(tree, rules.categories()))
}

fn is_dropped_by(tree: &Tree, rules: &[CategoryRule]) -> bool
    ensures { result ≡ list_any (λ c. drops (category_of c) (view tree.now)) rules.now }
{
    rules.iter().any(|rule| drops(tree, rule))
}

fn drops(tree: &Tree, rule: &CategoryRule) -> bool
    ensures { result ≡ drops (category_of rule.now) (view tree.now) }
{
    has_name(tree, Kind::Event, text_of(&rule.name)) && is_of_category(tree, rule.category.as_str())
}

#[tactic(auto, using(crate::proofs::Dropping::category_in, crate::proofs::Dropping::no_body))]
fn is_of_category(tree: &Tree, category: &str) -> bool
    ensures { result ≡ has_category (Some category.now) (view tree.now) }
{
    match tree.child("body") {
        Some(body) => has_text(body, "category", category),
        None => false,
    }
}

fn has_category(tree: &Tree, category: Option<&str>) -> bool
    ensures { result
        ≡ has_category (option_map (λ s. s.now) category.entry) (view tree.now) }
{
    match category {
        Some(category) => is_of_category(tree, category),
        None => true,
    }
}

fn is_event_of(tree: &Tree, names: &[Option<String>]) -> bool
    ensures { result ≡ list_any
        (λ n. has_name Kind.Event (option_map string_bytes n) (view tree.now)) names.now }
{
    names
        .iter()
        .any(|name| has_name(tree, Kind::Event, text_of(name)))
}

fn mask_by(tree: &mut Tree, rule: &MaskRule)
    ensures { view tree.new ≡ mask_by (rule_of rule.now) (view tree.old) }
{
    if rule_applies(rule, tree) {
        mask_path(tree, &rule.place, rule.verb);
    }
}

fn has_text(tree: &Tree, name: &str, word: &str) -> bool
    ensures { result ≡ is_text word.now (get name.now (view tree.now)) }
{
    match tree.child(name) {
        Some(Tree::Text(text)) => text.as_str() == word,
        _ => false,
    }
}

/// Returns whether the message is of this kind.
pub(crate) fn is_of_kind(tree: &Tree, kind: Kind) -> bool
    ensures { result ≡ is_of_kind kind (view tree.now) }
{
    has_text(tree, "type", kind.word())
}

/// Returns whether the message has this name, by the member that names messages of the kind.
pub(crate) fn has_name(tree: &Tree, kind: Kind, name: Option<&str>) -> bool
    ensures { result ≡ has_name kind (option_map (λ s. s.now) name.entry) (view tree.now) }
{
    match name {
        Some(name) => has_text(tree, name_key(kind), name),
        None => true,
    }
}

/// Returns the member that names a message of a kind.
pub(crate) fn name_key(kind: Kind) -> &'static str
    ensures { result.now ≡ name_key kind }
{
    match kind {
        Kind::Request | Kind::Response => "command",
        Kind::Event => "event",
    }
}

/// Returns whether a rule applies to a message: its kind, its name and its category. Does not
/// allocate.
pub fn rule_applies(rule: &MaskRule, tree: &Tree) -> bool
    ensures { result ≡ rule_applies (rule_of rule.now) (view tree.now) }
{
    is_of_kind(tree, rule.kind)
        && has_name(tree, rule.kind, text_of(&rule.name))
        && has_category(tree, text_of(&rule.category))
}

#[cycle(mask_path)]
fn mask_path(tree: &mut Tree, path: &[Step], verb: Verb)
    ensures { view tree.new ≡ change_at_place (place_of path.now) (of_verb verb) (view tree.old) }
{
    match path {
        [] => change(tree, verb),
        [step, rest @ ..] => mask_step(tree, step, rest, verb),
    }
}

#[cycle(mask_path)]
fn mask_step(tree: &mut Tree, step: &Step, path: &[Step], verb: Verb)
    ensures { view tree.new
        ≡ change_at_place (step_of step.now ∷ place_of path.now) (of_verb verb) (view tree.old) }
{
    match step {
        Step::Member(name) => mask_below(tree, name.as_str(), path, verb),
        Step::Each => mask_list(tree, None, path, verb),
        Step::Element(name) => mask_list(tree, Some(name.as_str()), path, verb),
    }
}

#[cycle(mask_path)]
fn mask_below(tree: &mut Tree, name: &str, path: &[Step], verb: Verb)
    ensures { view tree.new
        ≡ change_child name.now (change_at_place (place_of path.now) (of_verb verb))
        (view tree.old) }
{
    if let Some(members) = tree.members_mut() {
        if let Some(member) = members.get_mut(name) {
            mask_path(member, path, verb);
        }
    }
}

// Masks the elements of an array with this name, or all of them if no name is given.
#[cycle(mask_path)]
fn mask_list(tree: &mut Tree, name: Option<&str>, path: &[Step], verb: Verb)
    ensures { view tree.new
        ≡ change_items (change_called (option_map (λ s. s.now) name.entry)
        (change_at_place (place_of path.now) (of_verb verb))) (view tree.old) }
{
    if let Tree::List(items) = tree {
        mask_each(items, name, path, verb);
    }
}

#[cycle(mask_path)]
fn mask_each(items: &mut Vec<Tree>, name: Option<&str>, path: &[Step], verb: Verb)
    ensures { items_view items.new.items
        ≡ map_items (change_called (option_map (λ s. s.now) name.entry)
        (change_at_place (place_of path.now) (of_verb verb))) (items_view items.old.items) }
{
    for item in items.iter_mut() {
        mask_element(item, name, path, verb);
    }
}

#[cycle(mask_path)]
fn mask_element(tree: &mut Tree, name: Option<&str>, path: &[Step], verb: Verb)
    ensures { view tree.new
        ≡ change_called (option_map (λ s. s.now) name.entry)
        (change_at_place (place_of path.now) (of_verb verb)) (view tree.old) }
{
    if is_called(tree, name) {
        mask_path(tree, path, verb);
    }
}

/// Returns whether the value is an object whose member `name` is this string.
pub(crate) fn is_called(tree: &Tree, name: Option<&str>) -> bool
    ensures { result ≡ is_called (option_map (λ s. s.now) name.entry) (Some (view tree.now)) }
{
    match name {
        Some(name) => has_text(tree, "name", name),
        None => true,
    }
}

fn change(tree: &mut Tree, verb: Verb)
    ensures { view tree.new ≡ of_verb verb (view tree.old) }
{
    let old = mem::replace(tree, Tree::Null);
    *tree = match (verb, old) {
        (Verb::Blank, old) => blank(old),
        (Verb::Digits, Tree::Text(text)) => Tree::Text(digits(text)),
        (Verb::Hex, Tree::Text(text)) => Tree::Text(hex(text)),
        (Verb::Long, Tree::Text(text)) => Tree::Text(long(text)),
        (Verb::Uuid, Tree::Text(text)) => Tree::Text(uuid(text)),
        (_, old) => old,
    };
}

// Returns the blank of a value and reuses the allocation of the value.
fn blank(tree: Tree) -> Tree
    ensures { view result ≡ blank (view tree) }
{
    match tree {
        Tree::Null => Tree::Null,
        Tree::Bool(_) => Tree::Bool(false),
        Tree::Whole(_) => Tree::Whole(0),
        Tree::Text(mut text) => {
            text.clear();
            Tree::Text(text)
        }
        Tree::List(mut items) => {
            items.clear();
            Tree::List(items)
        }
        Tree::Object(mut members) => {
            members.clear();
            Tree::Object(members)
        }
        Tree::Id(sort, number) => Tree::Id(sort, number),
    }
}
