//! Marks the numbers of a message that are ids, in place.
ghost use Rattle.std.specs.Prelude.{◌≡◌, map};
ghost use Rattle.dap_tree.specs.Doc.{change_child, change_items, map_items};
ghost use Rattle.dap_tree.specs.View.{view, items_view};
ghost use Rattle.dap_profile.specs.RowRanges.{rows_in};
ghost use Rattle.dap_profile.specs.PlaceSteps.{steps_of};
ghost use Rattle.dap_profile.specs.ProfileRows.{row_of};
ghost use Rattle.dap_message.specs.AskedRows.{asked_rows, mark_by, marks_by};
ghost use Rattle.dap_message.specs.Marks.{sort_of, is_id_of, marked, edit, mark};
ghost use Rattle.dap_message.specs.Steps.{place_of};

use dap_profile::{Place, Row, Want};
use dap_tree::{Side, Sort, Tree};

/// One step of a row's path: to a member, or to each element.
#[derive(Clone, Copy, Drop)]
enum Step {
    Name(&'static str),
    Each,
}

/// Marks the ids of a tree. The rows are those that apply to it.
pub(crate) fn mark(tree: &mut Tree, stretches: &[&[Row]], side: Side)
    requires { rows_in stretches.now ≡ asked_rows (view tree.old) }
    ensures { view tree.new ≡ mark side (view tree.old) }
{
    for rows in stretches {
        mark_rows(tree, rows, side);
    }
}

fn mark_rows(tree: &mut Tree, rows: &[Row], side: Side)
    ensures { view tree.new ≡ marks_by (map row_of rows.now) side (view tree.old) }
{
    for row in rows {
        mark_row(tree, row, side);
    }
}

fn mark_row(tree: &mut Tree, row: &Row, side: Side)
    ensures { view tree.new ≡ mark_by (row_of row.now) side (view tree.old) }
{
    if let Some(sort) = sort_of(side, row.want) {
        mark_place(tree, row.place, sort);
    }
}

/// Returns the kind of id that a row of this type marks in a message of this side. `None`: the row
/// marks none.
#[inline]
pub fn sort_of(side: Side, want: Want) -> Option<Sort>
    ensures { result ≡ sort_of side want }
{
    match (side, want) {
        (Side::Client, Want::OwnSeq) | (Side::Adapter, Want::OtherSeq) => Some(Sort::ClientSeq),
        (Side::Adapter, Want::OwnSeq) | (Side::Client, Want::OtherSeq) => Some(Sort::AdapterSeq),
        (_, Want::Frame) => Some(Sort::Frame),
        (_, Want::Reference) => Some(Sort::Reference),
        (_, Want::Thread) => Some(Sort::Thread),
        (_, Want::Breakpoint) => Some(Sort::Breakpoint),
        _ => None,
    }
}

fn mark_place(tree: &mut Tree, place: Place, sort: Sort)
    ensures { view tree.new ≡ edit (steps_of place) (marked sort) (view tree.old) }
{
    match place {
        Place::Member(a) => mark_path(tree, &[Step::Name(a)], sort),
        Place::Inner(a, b) => mark_path(tree, &[Step::Name(a), Step::Name(b)], sort),
        Place::Element(a, b) => mark_path(tree, &[Step::Name(a), Step::Name(b), Step::Each], sort),
        Place::Part(a, b, c) => {
            mark_path(
                tree,
                &[Step::Name(a), Step::Name(b), Step::Each, Step::Name(c)],
                sort,
            )
        }
        Place::Deep(a, b, c) => {
            mark_path(tree, &[Step::Name(a), Step::Name(b), Step::Name(c)], sort)
        }
    }
}

#[cycle(mark_path)]
fn mark_path(tree: &mut Tree, path: &[Step], sort: Sort)
    ensures { view tree.new ≡ edit (place_of path.now) (marked sort) (view tree.old) }
{
    match path {
        [] => make_id(tree, sort),
        [step, rest @ ..] => match *step {
            Step::Name(name) => mark_below(tree, name, rest, sort),
            Step::Each => mark_list(tree, rest, sort),
        },
    }
}

#[cycle(mark_path)]
fn mark_below(tree: &mut Tree, name: &str, path: &[Step], sort: Sort)
    ensures { view tree.new
        ≡ change_child name.now (edit (place_of path.now) (marked sort)) (view tree.old) }
{
    if let Some(members) = tree.members_mut() {
        if let Some(member) = members.get_mut(name) {
            mark_path(member, path, sort);
        }
    }
}

#[cycle(mark_path)]
fn mark_list(tree: &mut Tree, path: &[Step], sort: Sort)
    ensures { view tree.new
        ≡ change_items (edit (place_of path.now) (marked sort)) (view tree.old) }
{
    if let Tree::List(items) = tree {
        mark_each(items, path, sort);
    }
}

#[cycle(mark_path)]
fn mark_each(items: &mut Vec<Tree>, path: &[Step], sort: Sort)
    ensures { items_view items.new.items
        ≡ map_items (edit (place_of path.now) (marked sort)) (items_view items.old.items) }
{
    for item in items.iter_mut() {
        mark_path(item, path, sort);
    }
}

fn make_id(tree: &mut Tree, sort: Sort)
    ensures { view tree.new ≡ marked sort (view tree.old) }
{
    if let Tree::Whole(number) = tree {
        let number = *number;
        if may_be_id(sort, number) {
            *tree = Tree::Id(sort, number as i64);
        }
    }
}

fn may_be_id(sort: Sort, number: i128) -> bool
    ensures { result ≡ is_id_of sort number }
{
    let fits = i64::MIN as i128 <= number && number <= i64::MAX as i128;
    match sort {
        Sort::Reference => fits && number != 0,
        _ => fits,
    }
}
