//! Types a tree as a message: checks it against the profile and marks its ids.
ghost use Rattle.std.specs.Prelude.{◌≡◌, true, IfOk, IfErr, IsErrOf};
ghost use Rattle.dap_tree.specs.Doc.{is_plain};
ghost use Rattle.dap_tree.specs.View.{view};
ghost use Rattle.dap_message.specs.Capabilities.{carries_capabilities};
ghost use Rattle.dap_message.specs.Faults.{Fits};
ghost use Rattle.dap_message.specs.Message.{IsTypedAs, HasIdsByPath, Refuses};
ghost use Rattle.dap_message.specs.declared.fault.MessageFault.{MessageFault};

use crate::asked_rows::asked_rows;
use crate::capabilities::fill;
use crate::fault::MessageFault;
use crate::first_fault::{first_broken, message_kind};
use crate::marks::mark;
use crate::message::Message;
use dap_tree::{Side, Tree};
use std::alloc::Global;

/// Returns the message that the tree represents if this side sent it: with its ids marked, and, in
/// an adapter's successful response to `initialize`, with the absent capabilities set to false.
/// Keeps members that no row names. Allocates only for absent capabilities.
///
/// # Errors
///
/// The tree is dropped. The first error in this order is returned:
///
/// - `NotObject`: the tree is not an object.
/// - `UnknownType`: its `type` is not `request`, `response` or `event`.
/// - `Missing`, `WrongType`: the tree violates a row of the profile; this is the lowest one.
/// - `Memory`: an allocation failed. The tree violates no row.
pub fn typed(alloc: Global, side: Side, tree: Tree) -> Result<Message, MessageFault>
    requires { is_plain (view tree) ≡ true }
    ensures ok { IfOk result (IsTypedAs side (view tree)) }

    // The ids are exactly those that the rows define, path by path.
    ensures ids { IfOk result (HasIdsByPath side (view tree)) }
    ensures err { IfErr result (Refuses (view tree)) }

    // Memory is allocated only for capabilities, after the tree is known to fit.
    ensures memory_fits { IsErrOf result MessageFault.Memory → Fits (view tree) }
    ensures memory_for_capabilities { IsErrOf result MessageFault.Memory
        → carries_capabilities side (view tree) ≡ true }
{
    let kind = message_kind(&tree)?;
    let rows = asked_rows(&tree, kind);
    if let Some(fault) = first_broken(&rows, &tree) {
        return Err(fault);
    }
    let mut tree = tree;
    fill(&mut tree, side, alloc)?;
    mark(&mut tree, &rows, side);
    Ok(Message::new(side, kind, tree))
}
