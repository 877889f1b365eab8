//! Defines the dependences between the places of a list.
ghost use Rattle.std.specs.Prelude.{◌≡◌, ◌<◌, length};
ghost use Rattle.dap_order.specs.Plan.{IsWellFormed, place_count, followed_by};
ghost use Rattle.dap_order.specs.Progress.{blocks_group};

/// The dependences between the places of a list, for [`order_of_places`].
///
/// The places are the numbers below the length of `groups`. Two places are *free* with each other
/// if they may be swapped when they are neighbours.
#[derive(Drop)]
pub struct Plan {
    /// The group of each place: an index of `blocks`.
    pub groups: Vec<usize>,
    /// `blocks[g][h]`: no place of group `g` is free with a later place of group `h`.
    pub blocks: Vec<Vec<bool>>,
    /// For each place, the earlier places that it must follow although their groups do not block
    /// its group. Places that these must follow themselves can be left out.
    pub after: Vec<Vec<usize>>,
    /// The places in the order of their keys, starting with the smallest key.
    pub by_key: Vec<usize>,
}

/// Returns whether the group of the place blocks this group.
pub(crate) fn blocks(plan: &Plan, place: usize, group: usize) -> bool
    requires well_formed { IsWellFormed plan.now }
    requires in_range { place < place_count plan.now }
    requires group_in_range { group < length plan.now.blocks.items }
    ensures { result ≡ blocks_group plan.now place group }
{
    plan.blocks[plan.groups[place]][group]
}

/// Returns the earlier places that the place must follow in addition to those whose groups block
/// its group.
pub(crate) fn followed_by(plan: &Plan, place: usize) -> &[usize]
    requires well_formed { IsWellFormed plan.now }
    requires in_range { place < place_count plan.now }
    ensures { result.now ≡ followed_by plan.now place }
{
    &plan.after[place]
}
