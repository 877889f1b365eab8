//! The joint numbers of the declared ids of two recordings.
ghost use Rattle.std.specs.Prelude.{◌≡◌, ℕ, ◌<◌, ◌^◌, List, [], ◌∷◌, map, cond, true, Some, IfOk};
ghost use Rattle.std.specs.Prelude.{OnOk, false, bytes_eq, option_map};
ghost use Rattle.dap_tree.specs.View.{view, items_view, members_view};
ghost use Rattle.dap_mask.specs.Declarations.{declarations_of, are_declared};
ghost use Rattle.dap_tokens.specs.{Models.labels_of, Tokens.{parts, parts_from}, Values.value};
ghost use Rattle.dap_naming.specs.{DeclaredRules.rules_of, Documents.integer_text};
ghost use Rattle.dap_naming.specs.Joint.{KeepsNumbers, limit_of_both, Joins, doc_pairs};
ghost use Rattle.dap_naming.specs.Joint.{items_pairs, members_pairs, whole_pairs, text_pairs};
ghost use Rattle.dap_naming.specs.Joint.{value_pairs, tokens_in, id_of};
ghost use Rattle.dap_naming.specs.Sessions.{rules_for};

use crate::choice::{below, here, inside};
use crate::fault::NamingFault;
use crate::rules::Declared;
use crate::sessions::rules_for;
use crate::texts::split_part;
use crate::trees::name_tree;
use crate::value_numbers::ValueNumbers;
use dap_mask::Declaration;
use dap_tokens::{Form, Labels, is_nothing, token_at, value};
use dap_tree::Tree;
use itoa::Buffer;
use std::alloc::{AllocError, Global};
use std::collections::BTreeMap;

/// The joint numbers of the declared ids of two recordings, A and B, for each label from 1. A value
/// of A and a value of B have the same number if and only if they were joined.
#[derive(Drop)]
pub struct JointNames {
    // The numbers of the values of A. The counts are those of the numbers of A and of B.
    a: ValueNumbers,
    // The numbers of the values of B.
    b: BTreeMap<Vec<u8>, u64>,
}

// A token of a message: its label, and the text of its value.
#[derive(Drop)]
struct Labelled<'l> {
    label: &'l str,
    value: Vec<u8>,
}

impl JointNames {
    ghost use Rattle.dap_naming.specs.Joint.{HasNone, NamesInA, NamesInB, SameInA, SameInB, at_b};
    ghost use Rattle.dap_naming.specs.Joint.{AreNumbered, message_pairs};

    /// Returns the numbers of no value. Does not allocate.
    pub fn new(alloc: Global, limit: u64) -> JointNames
        requires { limit < 2 ^ 31 }
        ensures none { HasNone result }
        ensures limit { limit_of_both result ≡ limit }
    {
        JointNames {
            a: ValueNumbers::new(alloc, limit),
            b: BTreeMap::new(alloc),
        }
    }

    /// Joins the declared ids of a message of A and of its counterpart in B. Two values of one
    /// label at one place get the next number of the label, if neither has a number. The place is
    /// the path, and in a string also the position among its tokens.
    ///
    /// # Errors
    ///
    /// - `Full`: two values are new, and their label has as many numbers as the limit.
    /// - `Memory`: an allocation failed.
    ///
    /// After an error the numbers must not be used again.
    pub fn join(
        &mut self,
        alloc: Global,
        declarations: &[Declaration],
        a: &Tree,
        b: &Tree,
    ) -> Result<(), NamingFault>
        ensures joined { OnOk result (Joins self.old self.new
            (message_pairs (declarations_of declarations.now) (view a.now) (view b.now))) }
        ensures numbered { OnOk result (AreNumbered self.new
            (message_pairs (declarations_of declarations.now) (view a.now) (view b.now))) }
        ensures kept { OnOk result (KeepsNumbers self.old self.new) }
        ensures limit { limit_of_both self.new ≡ limit_of_both self.old }
    {
        let rules_a = rules_for(alloc, declarations, a)?;
        let rules_b = rules_for(alloc, declarations, b)?;
        join_trees(alloc, self, a, &rules_a, b, &rules_b)
    }

    /// Replaces each declared id of a message of A by its joint name. A value without a number gets
    /// the next number of its label.
    ///
    /// # Errors
    ///
    /// - `Full`: a value is new, and its label has as many numbers as the limit.
    /// - `Memory`: an allocation failed.
    ///
    /// After an error neither the numbers nor the message must be used again.
    pub fn name_a(
        &mut self,
        alloc: Global,
        declarations: &[Declaration],
        tree: &mut Tree,
    ) -> Result<(), NamingFault>
        requires { are_declared (declarations_of declarations.now) ≡ true }
        ensures none { rules_for (declarations_of declarations.now) (view tree.old) ≡ []
            → tree.new ≡ tree.old }
        ensures names { OnOk result (NamesInA self.new (declarations_of declarations.now)
            (view tree.old) (view tree.new)) }
        ensures kept { OnOk result (KeepsNumbers self.old self.new) }
        ensures others { SameInB self.old self.new }
        ensures limit { limit_of_both self.new ≡ limit_of_both self.old }
    {
        let rules = rules_for(alloc, declarations, tree)?;
        if rules.is_empty() {
            return Ok(());
        }
        name_tree(alloc, &mut self.a, tree, &rules)
    }

    /// Replaces each declared id of a message of B by its joint name, as [`JointNames::name_a`]
    /// does for A.
    ///
    /// # Errors
    ///
    /// Those of [`JointNames::name_a`].
    pub fn name_b(
        &mut self,
        alloc: Global,
        declarations: &[Declaration],
        tree: &mut Tree,
    ) -> Result<(), NamingFault>
        requires { are_declared (declarations_of declarations.now) ≡ true }
        ensures none { rules_for (declarations_of declarations.now) (view tree.old) ≡ []
            → tree.new ≡ tree.old }
        ensures names { OnOk result (NamesInB self.new (declarations_of declarations.now)
            (view tree.old) (view tree.new)) }
        ensures kept { OnOk result (KeepsNumbers self.old self.new) }
        ensures others { SameInA self.old self.new }
        ensures limit { limit_of_both self.new ≡ limit_of_both self.old }
    {
        let rules = rules_for(alloc, declarations, tree)?;
        if rules.is_empty() {
            return Ok(());
        }
        self.a.swap_numbers(&mut self.b);
        let result = name_tree(alloc, &mut self.a, tree, &rules);
        self.a.swap_numbers(&mut self.b);
        result
    }

    // Gives a value of A and a value of B the next number of their label, if neither has a number.
    fn join_values(
        &mut self,
        alloc: Global,
        label: &str,
        a: &[u8],
        b: &[u8],
    ) -> Result<(), NamingFault>
        ensures joined { OnOk result
            (Joins self.old self.new ((label.now, a.now, b.now) ∷ [])) }
        ensures kept { OnOk result (KeepsNumbers self.old self.new) }
        ensures limit { limit_of_both self.new ≡ limit_of_both self.old }
    {
        let key_a = ValueNumbers::key(alloc, label, a)?;
        let key_b = ValueNumbers::key(alloc, label, b)?;
        if self.a.at(&key_a).is_some() || self.at_b(&key_b).is_some() {
            return Ok(());
        }
        let number = self.a.next(label)?;
        self.a.add(alloc, label, key_a, number)?;
        self.add_b(key_b, number)?;
        Ok(())
    }

    fn at_b(&self, key: &Vec<u8>) -> Option<u64>
        ensures { result ≡ at_b self.now key.now.items }
    {
        self.b.get(key.as_slice()).copied()
    }

    // Adds the value of B with this key.
    fn add_b(&mut self, key: Vec<u8>, number: u64) -> Result<(), AllocError>
        ensures numbers { OnOk result ((k : List ℕ) → at_b self.new k
            ≡ cond (bytes_eq key.items k) (Some number) (at_b self.old k)) }
        ensures others { self.new.a ≡ self.old.a }
    {
        self.b.insert(key, number)?;
        Ok(())
    }
}

// Joins the ids of two values by the rules for each.
#[cycle(join)]
fn join_trees(
    alloc: Global,
    names: &mut JointNames,
    a: &Tree,
    rules_a: &[Declared<'_>],
    b: &Tree,
    rules_b: &[Declared<'_>],
) -> Result<(), NamingFault>
    ensures joined { OnOk result (Joins names.old names.new
        (doc_pairs (rules_of rules_a.now) (view a.now) (rules_of rules_b.now) (view b.now))) }
    ensures kept { OnOk result (KeepsNumbers names.old names.new) }
    ensures limit { limit_of_both names.new ≡ limit_of_both names.old }
{
    if rules_a.is_empty() || rules_b.is_empty() {
        return Ok(());
    }
    match (a, b) {
        (Tree::Whole(x), Tree::Whole(y)) => {
            join_wholes(
                alloc,
                names,
                *x,
                here(rules_a).whole,
                *y,
                here(rules_b).whole,
            )
        }
        (Tree::Text(text), Tree::Text(other)) => {
            join_texts(alloc, names, text, &here(rules_a), other, &here(rules_b))
        }
        (Tree::List(items), Tree::List(others)) => {
            join_items(alloc, names, items, rules_a, others, rules_b)
        }
        (Tree::Object(members), Tree::Object(others)) => {
            join_members(alloc, names, members, rules_a, others, rules_b)
        }
        _ => Ok(()),
    }
}

#[cycle(join)]
fn join_items(
    alloc: Global,
    names: &mut JointNames,
    items: &Vec<Tree>,
    rules_a: &[Declared<'_>],
    others: &Vec<Tree>,
    rules_b: &[Declared<'_>],
) -> Result<(), NamingFault>
    ensures joined { OnOk result (Joins names.old names.new
        (items_pairs (rules_of rules_a.now) (items_view items.now.items) (rules_of rules_b.now)
        (items_view others.now.items))) }
    ensures kept { OnOk result (KeepsNumbers names.old names.new) }
    ensures limit { limit_of_both names.new ≡ limit_of_both names.old }
{
    for (item, other) in items.iter().zip(others.iter()) {
        let left_a = inside(alloc, rules_a, item)?;
        let left_b = inside(alloc, rules_b, other)?;
        join_trees(alloc, names, item, &left_a, other, &left_b)?;
    }
    Ok(())
}

#[cycle(join)]
fn join_members(
    alloc: Global,
    names: &mut JointNames,
    members: &BTreeMap<String, Tree>,
    rules_a: &[Declared<'_>],
    others: &BTreeMap<String, Tree>,
    rules_b: &[Declared<'_>],
) -> Result<(), NamingFault>
    ensures joined { OnOk result (Joins names.old names.new
        (members_pairs (rules_of rules_a.now) (members_view members.now.entries)
        (rules_of rules_b.now) (members_view others.now.entries))) }
    ensures kept { OnOk result (KeepsNumbers names.old names.new) }
    ensures limit { limit_of_both names.new ≡ limit_of_both names.old }
{
    for (name, member) in members.iter() {
        if let Some(other) = others.get(name.as_str()) {
            let left_a = below(alloc, rules_a, name)?;
            let left_b = below(alloc, rules_b, name)?;
            join_trees(alloc, names, member, &left_a, other, &left_b)?;
        }
    }
    Ok(())
}

// Joins two integers, if both are ids of one label.
fn join_wholes(
    alloc: Global,
    names: &mut JointNames,
    a: i128,
    label_a: Option<&str>,
    b: i128,
    label_b: Option<&str>,
) -> Result<(), NamingFault>
    ensures joined { OnOk result (Joins names.old names.new
        (whole_pairs (option_map (λ l. l.now) label_a.entry) a
        (option_map (λ l. l.now) label_b.entry) b)) }
    ensures kept { OnOk result (KeepsNumbers names.old names.new) }
    ensures limit { limit_of_both names.new ≡ limit_of_both names.old }
{
    let (Some(label_a), Some(label_b)) = (label_a, label_b) else {
        return Ok(());
    };
    let token_a = whole_token(alloc, label_a, a)?;
    let token_b = whole_token(alloc, label_b, b)?;
    join_ids(alloc, names, &token_a, &token_b)
}

fn whole_token<'l>(alloc: Global, label: &'l str, value: i128) -> Result<Labelled<'l>, AllocError>
    ensures { IfOk result (λ t. id_of t ≡ (label.now, integer_text value)) }
{
    let mut buffer = Buffer::new();
    let value = Vec::from_slice(alloc, buffer.format(value).as_bytes())?;
    Ok(Labelled { label, value })
}

// Joins the ids at each position among the tokens of two strings, if they have one label.
fn join_texts(
    alloc: Global,
    names: &mut JointNames,
    a: &str,
    labels_a: &Labels<'_>,
    b: &str,
    labels_b: &Labels<'_>,
) -> Result<(), NamingFault>
    ensures joined { OnOk result (Joins names.old names.new
        (text_pairs (labels_of labels_a.now) a.now (labels_of labels_b.now) b.now)) }
    ensures kept { OnOk result (KeepsNumbers names.old names.new) }
    ensures limit { limit_of_both names.new ≡ limit_of_both names.old }
{
    let tokens_a = tokens_of(alloc, labels_a, a.as_bytes())?;
    let tokens_b = tokens_of(alloc, labels_b, b.as_bytes())?;
    for (token_a, token_b) in tokens_a.iter().zip(tokens_b.iter()) {
        join_ids(alloc, names, token_a, token_b)?;
    }
    Ok(())
}

// Joins two tokens, if both are ids of one label.
fn join_ids(
    alloc: Global,
    names: &mut JointNames,
    a: &Labelled<'_>,
    b: &Labelled<'_>,
) -> Result<(), NamingFault>
    ensures joined { OnOk result (Joins names.old names.new
        (value_pairs (id_of a.now ∷ []) (id_of b.now ∷ []))) }
    ensures kept { OnOk result (KeepsNumbers names.old names.new) }
    ensures limit { limit_of_both names.new ≡ limit_of_both names.old }
{
    if a.label != b.label || is_nothing(&a.value) || is_nothing(&b.value) {
        return Ok(());
    }
    names.join_values(alloc, a.label, &a.value, &b.value)
}

// Returns the tokens of a string.
fn tokens_of<'l>(
    alloc: Global,
    labels: &Labels<'l>,
    text: &[u8],
) -> Result<Vec<Labelled<'l>>, AllocError>
    ensures { IfOk result
        (λ v. map id_of v.items ≡ tokens_in (parts (labels_of labels.now) text.now)) }
{
    match labels.whole {
        Some(label) => only(alloc, labelled_token(alloc, Form::Whole, label, text)?),
        None => tokens_among(alloc, labels, text),
    }
}

fn labelled_token<'l>(
    alloc: Global,
    form: Form,
    label: &'l str,
    token: &[u8],
) -> Result<Labelled<'l>, AllocError>
    ensures { IfOk result (λ t. id_of t ≡ (label.now, value label.now form token.now)) }
{
    let value = value(alloc, label, form, token)?;
    Ok(Labelled { label, value })
}

fn only<'l>(alloc: Global, token: Labelled<'l>) -> Result<Vec<Labelled<'l>>, AllocError>
    ensures { IfOk result (λ v. map id_of v.items ≡ id_of token.entry ∷ []) }
{
    let mut tokens = Vec::new(alloc);
    tokens.push(token)?;
    Ok(tokens)
}

// Returns the tokens of a string that is read from left to right.
fn tokens_among<'l>(
    alloc: Global,
    labels: &Labels<'l>,
    text: &[u8],
) -> Result<Vec<Labelled<'l>>, AllocError>
    ensures { IfOk result (λ v. map id_of v.items
        ≡ tokens_in (parts_from (labels_of labels.now) 0 false text.now)) }
{
    let mut tokens = Vec::new(alloc);
    let mut rest = text;
    let mut after_digit = false;
    'parts: while let Some((first, others)) = rest.split_first() {
        match token_at(labels, after_digit, rest) {
            None => {
                after_digit = first.is_ascii_hexdigit();
                rest = others;
            }
            Some(token) => {
                let (part, others) = split_part(rest, token.count);
                tokens.push(labelled_token(alloc, token.form, token.label, part)?)?;
                after_digit = false;
                rest = others;
            }
        }
    }
    Ok(tokens)
}
