//! Finds the member of an object by its name.
ghost use Rattle.std.specs.Prelude.{◌≡◌, ◌<◌, ◌≤◌, length, bytes_eq, IfOk};
ghost use Rattle.dap_flat.specs.Finding.{FindsChild, FindsMember};

use crate::node::Node;
use crate::place::value_end;
use crate::unread::Unclear;

/// Returns the place of a member's value in the document that starts at `at`, or `None` if there is
/// no such member or the document is not an object.
///
/// Returns `Unclear` if no document starts there.
pub fn child(nodes: &[Node<'_>], at: usize, name: &str) -> Result<Option<usize>, Unclear>
    ensures { IfOk result (FindsChild nodes.now at name.now) }
{
    if at >= nodes.len() {
        return Err(Unclear);
    }
    match nodes[at] {
        Node::Object(_) => member(nodes, at + 1, name),
        _ => Ok(None),
    }
}

fn member(nodes: &[Node<'_>], from: usize, name: &str) -> Result<Option<usize>, Unclear>
    ensures { IfOk result (FindsMember nodes.now from name.now) }
{
    let mut p = from;
    while p < nodes.len() {
        match nodes[p] {
            Node::Name(other) => {
                if same_text(name, other) {
                    return Ok(Some(p + 1));
                }
                p = value_end(nodes, p + 1).ok_or(Unclear)?;
            }
            Node::EndObject => return Ok(None),
            _ => return Err(Unclear),
        }
    }
    Err(Unclear)
}

/// Returns whether two texts are equal. Most names that are compared differ in their lengths, so it
/// looks at those first.
#[inline(always)]
#[tactic(auto, using(crate::proofs::SameTexts::other_length))]
pub fn same_text(text: &str, other: &str) -> bool
    ensures { result ≡ bytes_eq text.now other.now }
{
    text.len() == other.len() && text == other
}
