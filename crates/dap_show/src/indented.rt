//! Formats trees as indented JSON.
ghost use Rattle.std.specs.Fmt.{signed_decimal};
ghost use Rattle.std.specs.Prelude.{◌≡◌, ◌++◌, ◌∷◌, [], true, decimal, IfOk, OnOk};
ghost use Rattle.json.specs.Token.{number};
ghost use Rattle.dap_flat.specs.Writing.{node_tokens, tokens_of};
ghost use Rattle.dap_show.specs.Indented.{indented};
ghost use Rattle.dap_tree.specs.{Doc.is_sound, View.view};

use dap_flat::{Node, nodes_of};
use dap_tree::Tree;
use itoa::Buffer;
use json::{Pretty, Token};
use std::alloc::{AllocError, Global};

/// Returns the indented text of a tree.
pub fn indented_text(alloc: Global, tree: &Tree) -> Result<Vec<u8>, AllocError>
    requires { is_sound (view tree.now) ≡ true }
    ensures { IfOk result (λ text. text.items ≡ indented [] (view tree.now)) }
{
    let mut nodes = Vec::new(alloc);
    nodes_of(tree, &mut nodes)?;
    let mut out = Pretty::new(alloc);
    push_nodes(&nodes, &mut out)?;
    Ok(out.into_inner())
}

fn push_nodes(nodes: &[Node<'_>], out: &mut Pretty) -> Result<(), AllocError>
    ensures { OnOk result (out.new ≡ out.old ++ tokens_of nodes.now) }
{
    for node in nodes {
        push_node(node, out)?;
    }
    Ok(())
}

fn push_node(node: &Node<'_>, out: &mut Pretty) -> Result<(), AllocError>
    ensures { OnOk result (out.new ≡ out.old ++ node_tokens node.now) }
{
    match *node {
        Node::Null => out.token(Token::Null),
        Node::Bool(value) => out.token(Token::Bool(value)),
        Node::Unsigned(number) => push_unsigned(number, out),
        Node::Negative(number) | Node::Id(_, number) => push_signed(number, out),
        Node::Text(text) => out.token(Token::String(text)),
        Node::List(_) => out.token(Token::BeginArray),
        Node::EndList => out.token(Token::EndArray),
        Node::Object(_) => out.token(Token::BeginObject),
        Node::EndObject => out.token(Token::EndObject),
        Node::Name(name) => out.token(Token::Key(name)),
    }
}

fn push_unsigned(value: u64, out: &mut Pretty) -> Result<(), AllocError>
    ensures { OnOk result (out.new ≡ out.old ++ number (decimal value) ∷ []) }
{
    let mut digits = Buffer::new();
    out.token(Token::Number(digits.format(value)))
}

fn push_signed(value: i64, out: &mut Pretty) -> Result<(), AllocError>
    ensures { OnOk result (out.new ≡ out.old ++ number (signed_decimal value) ∷ []) }
{
    let mut digits = Buffer::new();
    out.token(Token::Number(digits.format(value)))
}
