//! The first error of a message.
ghost use Rattle.std.specs.Prelude.{◌≡◌, Some, IfOk, IfErr, map};
ghost use Rattle.dap_tree.specs.View.{view};
ghost use Rattle.dap_profile.specs.RowRanges.{rows_in};
ghost use Rattle.dap_profile.specs.ProfileRows.{row_of};
ghost use Rattle.dap_message.specs.AskedRows.{asked_rows, kind_of_tree, fault_by, first_by};
ghost use Rattle.dap_message.specs.Faults.{fault};

use crate::asked_rows::kind_of;
use crate::broken_rows::{Cause, cause_of};
use crate::fault::MessageFault;
use dap_profile::{Kind, Row};
use dap_tree::Tree;

/// Returns the kind of a message, or the error that is reported before any row is checked.
pub(crate) fn message_kind(tree: &Tree) -> Result<Kind, MessageFault>
    ensures kind { IfOk result (λ k. kind_of_tree (view tree.now) ≡ Some k) }
    ensures rows { IfOk result
        (λ _. fault (view tree.now) ≡ first_by (asked_rows (view tree.now)) (view tree.now)) }
    ensures err { IfErr result (λ f. fault (view tree.now) ≡ Some f) }
{
    let Tree::Object(_) = tree else {
        return Err(MessageFault::NotObject);
    };
    match kind_of(tree) {
        Some(kind) => Ok(kind),
        None => Err(MessageFault::UnknownType),
    }
}

/// Returns the error for the first of these rows that the tree violates.
pub(crate) fn first_broken(stretches: &[&[Row]], tree: &Tree) -> Option<MessageFault>
    ensures { result ≡ first_by (rows_in stretches.now) (view tree.now) }
{
    for rows in stretches {
        let fault = first_of(rows, tree);
        if fault.is_some() {
            return fault;
        }
    }
    None
}

fn first_of(rows: &[Row], tree: &Tree) -> Option<MessageFault>
    ensures { result ≡ first_by (map row_of rows.now) (view tree.now) }
{
    for row in rows {
        let fault = fault_by(row, tree);
        if fault.is_some() {
            return fault;
        }
    }
    None
}

fn fault_by(row: &Row, tree: &Tree) -> Option<MessageFault>
    ensures { result ≡ fault_by (row_of row.now) (view tree.now) }
{
    match cause_of(row, tree)? {
        Cause::Missing => Some(MessageFault::Missing(row.number)),
        Cause::WrongType => Some(MessageFault::WrongType(row.number)),
    }
}
