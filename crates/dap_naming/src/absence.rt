//! Messages without declared ids, as their heads and contents show.
ghost use Rattle.std.specs.Prelude.{◌≡◌, [], true, false};
ghost use Rattle.dap_tree.specs.Json.{text_of};
ghost use Rattle.dap_mask.specs.Declarations.{are_declared, declaration_of, declarations_of};
ghost use Rattle.dap_mask.specs.Declarations.{form_of};
ghost use Rattle.dap_mask.specs.Rules.{rule_applies, rule_of};
ghost use Rattle.dap_naming.specs.Absence.{FindsNothing, Lacks, LacksTokens};
ghost use Rattle.dap_naming.specs.{Documents.ids_of, Sessions.rules_for};

use dap_mask::{Declaration, MaskRule, Verb};
use dap_message::AnyMessage;
use memchr::memmem;

/// Returns whether a message may have declared ids. If it returns `false`, the message has none.
///
/// Reads the kind and the name of the message, and searches its canonical content for what each
/// token of a declaration contains. Does not allocate.
pub fn may_have_ids<M: AnyMessage>(
    declarations: &[Declaration],
    message: &M,
    content: &[u8],
) -> bool
    requires labels { are_declared (declarations_of declarations.now) ≡ true }
    requires content { content.now ≡ text_of (M.sent message.now).doc }
    ensures { result ≡ false → ids_of (rules_for (declarations_of declarations.now)
        (M.sent message.now).doc) (M.sent message.now).doc ≡ [] }
{
    for declaration in declarations {
        if may_find(declaration, message, content) {
            return true;
        }
    }
    false
}

// Returns whether the declaration may find an id in the message.
fn may_find<M: AnyMessage>(declaration: &Declaration, message: &M, content: &[u8]) -> bool
    ensures { result ≡ false
        → FindsNothing (declaration_of declaration.now) (M.sent message.now).doc content.now }
{
    may_apply(&declaration.rule, message)
        && may_have_tokens(declaration.rule.verb, declaration.label.as_str(), content)
}

// Returns whether the message has the kind of the rule, and the name if the rule has one.
fn may_apply<M: AnyMessage>(rule: &MaskRule, message: &M) -> bool
    ensures { result ≡ false → rule_applies (rule_of rule.now) (M.sent message.now).doc ≡ false }
{
    if rule.kind != message.kind() {
        return false;
    }
    match &rule.name {
        Some(name) => name.as_str() == message.name(),
        None => true,
    }
}

// Returns whether the content may have tokens of the label that the action finds. A hexadecimal
// number starts with `0x` or `0X`, and a name contains its label.
fn may_have_tokens(verb: Verb, label: &str, content: &[u8]) -> bool
    ensures { result ≡ false → LacksTokens (form_of verb) label.now content.now }
{
    match verb {
        Verb::Hex => {
            contains(content, b"0x")
                || contains(content, b"0X")
                || contains(content, label.as_bytes())
        }
        Verb::Blank | Verb::Digits | Verb::Long | Verb::Uuid => true,
    }
}

// Returns whether a part occurs in the content.
fn contains(content: &[u8], part: &[u8]) -> bool
    ensures { result ≡ false → Lacks part.now content.now }
{
    memmem::find(content, part).is_some()
}
