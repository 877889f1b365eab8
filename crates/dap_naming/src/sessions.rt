//! Names in the place of the ids of a message, by the declarations of a rules file.
ghost use Rattle.std.specs.Prelude.{◌≡◌, ◌∷◌, ◌++◌, [], true, IfOk, OnOk};
ghost use Rattle.dap_tree.specs.View.{view};
ghost use Rattle.dap_mask.specs.Declarations.{form_of, declaration_of, declarations_of};
ghost use Rattle.dap_mask.specs.Declarations.{are_declared};
ghost use Rattle.dap_naming.specs.Documents.{ids_of};
ghost use Rattle.dap_naming.specs.DeclaredRules.{rules_of, have_labels};
ghost use Rattle.dap_naming.specs.Known.{NamesDoc, FitsLimit, ExceedsLimit, limit_of};
ghost use Rattle.dap_naming.specs.Sessions.{declared_by, rules_for};

use crate::fault::NamingFault;
use crate::rules::Declared;
use crate::trees::name_tree;
use crate::value_numbers::ValueNumbers;
use dap_mask::{Declaration, Verb, rule_applies};
use dap_tokens::Form;
use dap_tree::Tree;
use std::alloc::{AllocError, Global};

/// Replaces each declared id of a message by its name, by the declarations that apply to the
/// message. If none applies, this does not allocate, and the message and the numbers are unchanged.
///
/// # Errors
///
/// - `Full`: a value is new, and its label has as many values as the limit.
/// - `Memory`: an allocation failed.
///
/// After an error neither the numbers nor the message must be used again.
pub fn name_message(
    alloc: Global,
    numbers: &mut ValueNumbers,
    declarations: &[Declaration],
    tree: &mut Tree,
) -> Result<(), NamingFault>
    requires { are_declared (declarations_of declarations.now) ≡ true }
    ensures names { OnOk result (NamesDoc numbers.old numbers.new
        (rules_for (declarations_of declarations.now) (view tree.old)) (view tree.old)
        (view tree.new)) }

    // The limit decides between the two results.
    ensures few { OnOk result (FitsLimit numbers.old
        (ids_of (rules_for (declarations_of declarations.now) (view tree.old)) (view tree.old))) }
    ensures full { result ≡ Err NamingFault.Full → ExceedsLimit numbers.old
        (ids_of (rules_for (declarations_of declarations.now) (view tree.old)) (view tree.old)) }
    ensures limit { limit_of numbers.new ≡ limit_of numbers.old }
{
    let rules = rules_for(alloc, declarations, tree)?;
    name_tree(alloc, numbers, tree, &rules)
}

// Returns the declarations that apply to the message.
pub(crate) fn rules_for<'d>(
    alloc: Global,
    declarations: &'d [Declaration],
    tree: &Tree,
) -> Result<Vec<Declared<'d>>, AllocError>
    ensures { IfOk result (λ v. rules_of v.items
        ≡ rules_for (declarations_of declarations.now) (view tree.now)) }
{
    let mut rules = Vec::new(alloc);
    for declaration in declarations {
        if rule_applies(&declaration.rule, tree) {
            add(&mut rules, declaration)?;
        }
    }
    Ok(rules)
}

pub(crate) fn add<'d>(
    rules: &mut Vec<Declared<'d>>,
    declaration: &'d Declaration,
) -> Result<(), AllocError>
    ensures { OnOk result (rules_of rules.new.items
        ≡ rules_of rules.old.items ++ declared_by (declaration_of declaration.now) ∷ []) }
{
    rules.push(Declared {
        place: declaration.rule.place.as_slice(),
        form: form_of(declaration.rule.verb),
        label: declaration.label.as_str(),
    })?;
    Ok(())
}

// Returns the form of the tokens that the action of a declaration finds.
fn form_of(verb: Verb) -> Form
    ensures { result ≡ form_of verb }
{
    match verb {
        Verb::Blank => Form::Whole,
        Verb::Digits => Form::Digits,
        Verb::Hex => Form::Hex,
        Verb::Long => Form::Long,
        Verb::Uuid => Form::Uuid,
    }
}
