//! Finds the first row that a flat message violates.
ghost use Rattle.std.specs.Prelude.{◌≡◌, Some, None, IfOk, map, option_map};
ghost use Rattle.dap_tree.specs.Doc.{Doc};
ghost use Rattle.dap_profile.specs.{RowRanges.rows_in, ProfileRows.row_of};
ghost use Rattle.dap_message.specs.{AskedRows.{fault_by, asked_rows, first_by}, Faults.fault};
ghost use Rattle.dap_flat_message.specs.Heads.{IsFirst, IsTold, IsFault, IsNamed, AreAsked};
ghost use Rattle.dap_flat_message.specs.{Heads.text_in, Places.IsEnvelope};

use crate::members::{Envelope, kind_of_tree, name_of_tree};
use crate::rows::{Broken, broken_by, is_object};
use dap_flat::{Node, Unclear};
use dap_message::MessageFault;
use dap_profile::{Kind, Row, rows_of};

/// Returns the message's fault, as `typed` does, or `None` if it has none.
///
/// Returns `Unclear` if the nodes do not represent a document.
pub fn message_fault(nodes: &[Node<'_>], found: &Envelope) -> Result<Option<MessageFault>, Unclear>
    requires { IsEnvelope nodes.now found.now }
    ensures { IfOk result (IsFault nodes.now) }
{
    if nodes.is_empty() {
        return Err(Unclear);
    }
    if !is_object(&nodes[0]) {
        return Ok(Some(MessageFault::NotObject));
    }
    match kind_of_tree(nodes, found)? {
        Some(kind) => first_broken(nodes, found, kind, name_of_tree(nodes, found, kind)?),
        None => Ok(Some(MessageFault::UnknownType)),
    }
}

/// Returns the fault by the first violated row that applies to a message of this kind and name.
pub fn first_broken(
    nodes: &[Node<'_>],
    found: &Envelope,
    kind: Kind,
    name: Option<&str>,
) -> Result<Option<MessageFault>, Unclear>
    requires named { IsNamed nodes.now kind (text_in name) }
    requires places { IsEnvelope nodes.now found.now }
    ensures { IfOk result (IsFault nodes.now) }
{
    first_asked(nodes, found, &rows_of(kind, name))
}

/// Returns the fault by the first violated row of those that apply to the message.
pub fn first_asked(
    nodes: &[Node<'_>],
    found: &Envelope,
    stretches: &[&[Row]],
) -> Result<Option<MessageFault>, Unclear>
    requires asked { AreAsked nodes.now (rows_in stretches.now) }
    requires places { IsEnvelope nodes.now found.now }
    ensures { IfOk result (IsFault nodes.now) }
{
    first_in(stretches, nodes, found)
}

fn first_in(
    stretches: &[&[Row]],
    nodes: &[Node<'_>],
    found: &Envelope,
) -> Result<Option<MessageFault>, Unclear>
    ensures { IfOk result (IsFirst nodes.now found.now (rows_in stretches.now)) }
{
    for rows in stretches {
        let fault = first_of(rows, nodes, found)?;
        if fault.is_some() {
            return Ok(fault);
        }
    }
    Ok(None)
}

fn first_of(
    rows: &[Row],
    nodes: &[Node<'_>],
    found: &Envelope,
) -> Result<Option<MessageFault>, Unclear>
    ensures { IfOk result (IsFirst nodes.now found.now (map row_of rows.now)) }
{
    for row in rows {
        let fault = fault_by(row, nodes, found)?;
        if fault.is_some() {
            return Ok(fault);
        }
    }
    Ok(None)
}

fn fault_by(
    row: &Row,
    nodes: &[Node<'_>],
    found: &Envelope,
) -> Result<Option<MessageFault>, Unclear>
    ensures { IfOk result (IsTold nodes.now found.now (fault_by (row_of row.now))) }
{
    match broken_by(row, nodes, found)? {
        Some(Broken::Missing) => Ok(Some(MessageFault::Missing(row.number))),
        Some(Broken::WrongType) => Ok(Some(MessageFault::WrongType(row.number))),
        None => Ok(None),
    }
}
