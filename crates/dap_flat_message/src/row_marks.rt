//! Marks the ids of a flat message in place, by the rows that apply to it.
ghost use Rattle.std.specs.Prelude.{◌≡◌, ◌∷◌, OnOk, map};
ghost use Rattle.dap_profile.specs.{RowRanges.rows_in, PlaceSteps.{named, steps_of}};
ghost use Rattle.dap_profile.specs.ProfileRows.{row_of};
ghost use Rattle.dap_message.specs.{AskedRows.{mark_by, marks_by}, Marks.{marked, edit, mark}};
ghost use Rattle.dap_flat_message.specs.{Heads.AreAsked, Marked.Makes, Marking.steps};

use crate::marks::{Step, mark_path};
use crate::members::{Envelope, top_child};
use dap_flat::{Node, Unclear};
use dap_message::sort_of;
use dap_profile::{Place, Row};
use dap_tree::{Side, Sort};

/// Marks the ids of the message that the nodes represent. These rows apply to it.
pub fn mark_message(
    nodes: &mut [Node<'_>],
    found: &Envelope,
    stretches: &[&[Row]],
    side: Side,
) -> Result<(), Unclear>
    requires { AreAsked nodes.old (rows_in stretches.now) }
    ensures { OnOk result (Makes found.now nodes.old nodes.new (mark side)) }
{
    mark_stretches(nodes, found, stretches, side)
}

fn mark_stretches(
    nodes: &mut [Node<'_>],
    found: &Envelope,
    stretches: &[&[Row]],
    side: Side,
) -> Result<(), Unclear>
    ensures { OnOk result
        (Makes found.now nodes.old nodes.new (marks_by (rows_in stretches.now) side)) }
{
    for rows in stretches {
        mark_rows(nodes, found, rows, side)?;
    }
    Ok(())
}

fn mark_rows(
    nodes: &mut [Node<'_>],
    found: &Envelope,
    rows: &[Row],
    side: Side,
) -> Result<(), Unclear>
    ensures { OnOk result
        (Makes found.now nodes.old nodes.new (marks_by (map row_of rows.now) side)) }
{
    for row in rows {
        mark_row(nodes, found, row, side)?;
    }
    Ok(())
}

fn mark_row(nodes: &mut [Node<'_>], found: &Envelope, row: &Row, side: Side) -> Result<(), Unclear>
    ensures { OnOk result (Makes found.now nodes.old nodes.new (mark_by (row_of row.now) side)) }
{
    match sort_of(side, row.want) {
        Some(sort) => mark_place(nodes, found, row.place, sort),
        None => Ok(()),
    }
}

fn mark_place(
    nodes: &mut [Node<'_>],
    found: &Envelope,
    place: Place,
    sort: Sort,
) -> Result<(), Unclear>
    ensures { OnOk result
        (Makes found.now nodes.old nodes.new (edit (steps_of place) (marked sort))) }
{
    match place {
        Place::Member(a) => mark_top(nodes, found, a, &[], sort),
        Place::Inner(a, b) => mark_top(nodes, found, a, &[Step::Name(b)], sort),
        Place::Element(a, b) => mark_top(nodes, found, a, &[Step::Name(b), Step::Each], sort),
        Place::Part(a, b, c) => {
            mark_top(
                nodes,
                found,
                a,
                &[Step::Name(b), Step::Each, Step::Name(c)],
                sort,
            )
        }
        Place::Deep(a, b, c) => { mark_top(nodes, found, a, &[Step::Name(b), Step::Name(c)], sort) }
    }
}

/// Marks the numbers at a path in a member at the top of the message.
fn mark_top(
    nodes: &mut [Node<'_>],
    found: &Envelope,
    name: &str,
    path: &[Step<'_>],
    sort: Sort,
) -> Result<(), Unclear>
    ensures { OnOk result (Makes found.now nodes.old nodes.new
        (edit (named name.now ∷ steps path.now) (marked sort))) }
{
    match top_child(nodes, found, name)? {
        Some(place) => mark_path(nodes, place, path, sort),
        None => Ok(()),
    }
}
