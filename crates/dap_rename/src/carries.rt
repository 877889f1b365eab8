//! Whether pairs map one list of messages to another, decided without allocating.
ghost use Rattle.std.specs.Prelude.{◌≡◌, ◌+◌, ◌<◌, ◌^◌, map};
ghost use Rattle.dap_tree.specs.View.{view, items_view, members_view};
ghost use Rattle.dap_message.specs.Message.{sent};
ghost use Rattle.dap_rename.specs.Messages.{class_after};
ghost use Rattle.dap_rename.specs.Modes.{stop_in};
ghost use Rattle.dap_rename.specs.Renaming.{pairs_of};
ghost use Rattle.dap_rename.specs.Carrying.{carries_doc, carries_items, carries_members};
ghost use Rattle.dap_rename.specs.Carrying.{carries_sent, carries_list};

use crate::mode::{Mode, begin_again_behind};
use crate::pair::Pair;
use crate::renaming::Renaming;
use dap_message::Message;
use dap_tree::{Sort, Tree};
use std::collections::BTreeMap;

pub(crate) fn carries_list(
    renaming: &Renaming,
    from: &[Message],
    to: &[Message],
    mode: Mode,
) -> bool
    ensures { result ≡ carries_list (pairs_of renaming.now) (stop_in mode) 0
        (map sent from.now) (map sent to.now) }
{
    let mut rest = to;
    let mut stops = 0;
    for message in from {
        let [other, others @ ..] = rest else {
            return false;
        };
        if !carries_message(renaming, stops, message, other) {
            return false;
        }
        rest = others;
        stops = stops_behind(stops, mode, message);
    }
    rest.is_empty()
}

// Returns the number of stops after the message, given the number before it.
fn stops_behind(stops: u64, mode: Mode, message: &Message) -> u64
    requires { stops < 2 ^ 63 }
    ensures { result ≡ stops + stop_in mode (sent message.now) }
{
    if begin_again_behind(mode, message) {
        stops + 1
    } else {
        stops
    }
}

fn carries_message(renaming: &Renaming, stops: u64, from: &Message, to: &Message) -> bool
    ensures { result ≡ carries_sent (pairs_of renaming.now) stops (sent from.now) (sent to.now) }
{
    from.side() == to.side() && carries_tree(renaming, stops, from.tree(), to.tree())
}

#[cycle(carries_tree)]
fn carries_tree(renaming: &Renaming, stops: u64, from: &Tree, to: &Tree) -> bool
    ensures { result ≡ carries_doc (pairs_of renaming.now) stops (view from.now) (view to.now) }
{
    match (from, to) {
        (Tree::Null, Tree::Null) => true,
        (Tree::Bool(a), Tree::Bool(b)) => *a == *b,
        (Tree::Whole(a), Tree::Whole(b)) => *a == *b,
        (Tree::Text(a), Tree::Text(b)) => a.as_str() == b.as_str(),
        (Tree::List(a), Tree::List(b)) => carries_items(renaming, stops, a, b),
        (Tree::Object(a), Tree::Object(b)) => carries_members(renaming, stops, a, b),
        (Tree::Id(sort, a), Tree::Id(other, b)) => {
            let pair = Pair {
                sort: *sort,
                stop: class_behind(stops, *sort),
                from: *a,
                to: *b,
            };
            *sort == *other && renaming.has(&pair)
        }
        _ => false,
    }
}

// Returns the stop of the class that an id of this kind has after `stops` stops.
fn class_behind(stops: u64, sort: Sort) -> u64
    ensures { result ≡ (class_after stops sort).1 }
{
    match sort {
        Sort::Frame | Sort::Reference => stops,
        _ => 0,
    }
}

#[cycle(carries_tree)]
fn carries_items(renaming: &Renaming, stops: u64, from: &Vec<Tree>, to: &Vec<Tree>) -> bool
    ensures { let pairs = pairs_of renaming.now in result
        ≡ carries_items pairs stops (items_view from.now.items) (items_view to.now.items) }
{
    let mut rest = to.as_slice();
    for item in from {
        let [other, others @ ..] = rest else {
            return false;
        };
        if !carries_tree(renaming, stops, item, other) {
            return false;
        }
        rest = others;
    }
    rest.is_empty()
}

#[cycle(carries_tree)]
fn carries_members(
    renaming: &Renaming,
    stops: u64,
    from: &BTreeMap<String, Tree>,
    to: &BTreeMap<String, Tree>,
) -> bool
    ensures { let pairs = pairs_of renaming.now in result
        ≡ carries_members pairs stops (members_view from.now.entries)
        (members_view to.now.entries) }
{
    let mut rest = to.iter();
    for (name, member) in from.iter() {
        let Some((other_name, other)) = rest.next() else {
            return false;
        };
        if name.as_str() != other_name.as_str() || !carries_tree(renaming, stops, member, other) {
            return false;
        }
    }
    rest.next().is_none()
}
