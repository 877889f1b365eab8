//! Types a flat document as a message.
ghost use Rattle.std.specs.Prelude.{◌≡◌, Some, IfOk};
ghost use Rattle.dap_flat_message.specs.{Heads.{IsNamed, text_in}, Places.IsEnvelope};
ghost use Rattle.dap_flat_message.specs.Typed.{IsTypedFlat, KeepsPlaces, HasFault, may_tell};

use crate::faults::{first_asked, message_fault};
use crate::members::{Envelope, kind_of_tree, name_of_tree};
use crate::row_marks::mark_message;
use dap_flat::{Node, Unclear};
use dap_message::MessageFault;
use dap_profile::{Kind, rows_of};
use dap_tree::Side;

/// Types the document that the nodes represent as a message of this side, in place, or returns its
/// first fault.
///
/// Returns `Unclear` if the nodes do not represent a document, or if absent capabilities may have
/// to be filled in. The nodes are then unspecified.
pub fn typed_flat(
    nodes: &mut [Node<'_>],
    found: &Envelope,
    side: Side,
) -> Result<Option<MessageFault>, Unclear>
    requires { IsEnvelope nodes.old found.now }
    ensures typed { IfOk result (IsTypedFlat side nodes.old nodes.new) }
    ensures places { IfOk result (KeepsPlaces side nodes.old found.now) }
{
    match kind_of_tree(nodes, found)? {
        Some(kind) => {
            let name = name_of_tree(nodes, found, kind)?;
            typed_as(nodes, found, kind, name, side)
        }
        None => Ok(Some(kindless_fault(nodes, found)?)),
    }
}

fn typed_as(
    nodes: &mut [Node<'_>],
    found: &Envelope,
    kind: Kind,
    name: Option<&str>,
    side: Side,
) -> Result<Option<MessageFault>, Unclear>
    requires named { IsNamed nodes.old kind (text_in name) }
    requires places { IsEnvelope nodes.old found.now }
    ensures typed { IfOk result (IsTypedFlat side nodes.old nodes.new) }
    ensures places { IfOk result (KeepsPlaces side nodes.old found.now) }
{
    let rows = rows_of(kind, name);
    if let Some(fault) = first_asked(nodes, found, &rows)? {
        return Ok(Some(fault));
    }
    if may_tell_capabilities(side, kind, name) {
        return Err(Unclear);
    }
    mark_message(nodes, found, &rows, side)?;
    Ok(None)
}

fn kindless_fault(nodes: &[Node<'_>], found: &Envelope) -> Result<MessageFault, Unclear>
    requires { IsEnvelope nodes.now found.now }
    ensures { IfOk result (HasFault nodes.now) }
{
    match message_fault(nodes, found)? {
        Some(fault) => Ok(fault),
        None => Err(Unclear),
    }
}

fn may_tell_capabilities(side: Side, kind: Kind, name: Option<&str>) -> bool
    ensures { result ≡ may_tell side kind (text_in name.entry) }
{
    match side {
        Side::Client => false,
        Side::Adapter => match kind {
            Kind::Request | Kind::Event => false,
            Kind::Response => is_initialize(name),
        },
    }
}

fn is_initialize(name: Option<&str>) -> bool
    ensures { result ≡ may_tell Side.Adapter Kind.Response (text_in name.entry) }
{
    match name {
        Some(name) => "initialize" == name,
        None => false,
    }
}
