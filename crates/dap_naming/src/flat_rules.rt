//! The rules that declare ids, for the nodes of a flat message and for the elements of its arrays.
ghost use Rattle.std.specs.Prelude.{◌≡◌, true, Some, None, IfOk, option_map, codes};
ghost use Rattle.std.specs.List.{list_any};
ghost use Rattle.dap_tree.specs.Doc.{Doc, get};
ghost use Rattle.dap_message.specs.Envelope.{text_value};
ghost use Rattle.dap_flat.specs.Pieces.{piece_of};
ghost use Rattle.dap_flat_message.specs.{Heads.text_in, Judging.top_of};
ghost use Rattle.dap_mask.specs.Declarations.{are_declared, declarations_of};
ghost use Rattle.dap_mask.specs.FlatMasking.{IsTold, told_category};
ghost use Rattle.dap_mask.specs.{Index.{asks_for, told_kind, told_name}, Rules.place_of};
ghost use Rattle.dap_naming.specs.DeclaredRules.{after_if, declared_of, have_labels, rules_of};
ghost use Rattle.dap_naming.specs.Flat.{inside_named, is_to_named, names_element};
ghost use Rattle.dap_naming.specs.Sessions.{rules_for};

use crate::rules::Declared;
use crate::{choice, sessions};
use dap_flat::{Node, Unclear, Unread, child};
use dap_mask::{Declaration, Step, applies_to, told_category, told_kind, told_name};
use dap_message::Kind;
use std::alloc::{AllocError, Global};

/// Returns the declarations that apply to the message.
pub(crate) fn flat_rules<'d>(
    alloc: Global,
    declarations: &'d [Declaration],
    nodes: &[Node<'_>],
) -> Result<Vec<Declared<'d>>, Unread>
    requires { are_declared (declarations_of declarations.now) ≡ true }
    ensures told { IfOk result (λ v. IsTold nodes.now 0
        (rules_for (declarations_of declarations.now)) (rules_of v.items)) }
    ensures labels { IfOk result (λ v. have_labels (rules_of v.items) ≡ true) }
{
    match told_kind(nodes)? {
        Some(kind) => kind_rules(alloc, declarations, nodes, kind),
        None => Ok(Vec::new(alloc)),
    }
}

fn kind_rules<'d>(
    alloc: Global,
    declarations: &'d [Declaration],
    nodes: &[Node<'_>],
    kind: Kind,
) -> Result<Vec<Declared<'d>>, Unread>
    requires declared { are_declared (declarations_of declarations.now) ≡ true }
    requires kind { IsTold nodes.now 0 told_kind (Some kind) }
    ensures told { IfOk result (λ v. IsTold nodes.now 0
        (rules_for (declarations_of declarations.now)) (rules_of v.items)) }
    ensures labels { IfOk result (λ v. have_labels (rules_of v.items) ≡ true) }
{
    let name = told_name(nodes, kind)?;
    let category = told_category(nodes)?;
    Ok(applying(alloc, declarations, kind, name, category)?)
}

// Returns the declarations that apply to a message of this kind, name and category.
fn applying<'d>(
    alloc: Global,
    declarations: &'d [Declaration],
    kind: Kind,
    name: Option<&str>,
    category: Option<&str>,
) -> Result<Vec<Declared<'d>>, AllocError>
    requires { are_declared (declarations_of declarations.now) ≡ true }
    ensures told { IfOk result (λ v. (d : Doc) → told_kind d ≡ Some kind
        → told_name kind d ≡ text_in name.entry → told_category d ≡ text_in category.entry
        → rules_of v.items ≡ rules_for (declarations_of declarations.now) d) }
    ensures labels { IfOk result (λ v. have_labels (rules_of v.items) ≡ true) }
{
    let mut rules = Vec::new(alloc);
    for declaration in declarations {
        if applies_to(&declaration.rule, kind, name, category) {
            sessions::add(&mut rules, declaration)?;
        }
    }
    Ok(rules)
}

/// Returns the rules for an element of an array with this name, if it has one.
pub(crate) fn inside_named<'r>(
    alloc: Global,
    rules: &[Declared<'r>],
    name: Option<&str>,
) -> Result<Vec<Declared<'r>>, AllocError>
    ensures { IfOk result
        (λ v. rules_of v.items ≡ inside_named (text_in name.entry) (rules_of rules.now)) }
{
    let mut left = Vec::new(alloc);
    for rule in rules {
        choice::add(&mut left, rule, after_named(rule.place, name))?;
    }
    Ok(left)
}

// Returns the place after a step to an element with this name.
fn after_named<'r>(place: &'r [Step], name: Option<&str>) -> Option<&'r [Step]>
    ensures { option_map (λ p. place_of p.now) result
        ≡ after_if (is_to_named (text_in name.entry) (place_of place.now)) (place_of place.now) }
{
    match place {
        [Step::Each, rest @ ..] => Some(rest),
        [Step::Element(asked), rest @ ..] => {
            if is_name(asked.as_str(), name) {
                Some(rest)
            } else {
                None
            }
        }
        _ => None,
    }
}

fn is_name(asked: &str, name: Option<&str>) -> bool
    ensures { result ≡ asks_for (Some asked.now) (text_in name.entry) }
{
    match name {
        Some(name) => asked == name,
        None => false,
    }
}

/// Returns whether some rule is only for the elements with one name.
pub(crate) fn name_elements(rules: &[Declared<'_>]) -> bool
    ensures { result ≡ list_any (λ r. names_element (declared_of r).place) rules.now }
{
    rules.iter().any(|rule| names_element(rule))
}

// Returns whether the first step is to the elements with one name.
fn names_element(rule: &Declared<'_>) -> bool
    ensures { result ≡ names_element (declared_of rule.now).place }
{
    matches!(rule.place, [Step::Element(_), ..])
}

/// Returns the name of the element that starts at `at`, if it has one.
pub(crate) fn element_name<'a>(nodes: &[Node<'a>], at: usize) -> Result<Option<&'a str>, Unclear>
    ensures { IfOk result
        (λ s. IsTold nodes.now at (λ d. text_value (get (codes "name") d)) (text_in s)) }
{
    match child(nodes, at, "name")? {
        Some(place) => text_at(nodes, place),
        None => Ok(None),
    }
}

fn text_at<'a>(nodes: &[Node<'a>], at: usize) -> Result<Option<&'a str>, Unclear>
    ensures { IfOk result (λ s. IsTold nodes.now at (λ d. text_value (Some d)) (text_in s)) }
{
    if at >= nodes.len() {
        return Err(Unclear);
    }
    Ok(text_in(&nodes[at]))
}

fn text_in<'a>(node: &Node<'a>) -> Option<&'a str>
    ensures { text_in result ≡ text_value (Some (top_of (piece_of node.now))) }
{
    match *node {
        Node::Text(text) => Some(text),
        _ => None,
    }
}
