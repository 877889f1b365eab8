//! The output of a segment by its categories.
ghost use Rattle.std.specs.Prelude.{◌≡◌, true, false, IfOk, OnOk};
ghost use Rattle.dap_join.specs.Joined.{add_output, append_text, has_category, insert_group};
ghost use Rattle.dap_join.specs.Joined.{group_of};
ghost use Rattle.dap_join.specs.JoiningSteps.{groups_shown, output_shown};

use crate::event::LentOutput;
use std::alloc::{AllocError, Global};
use std::collections::BTreeMap;

/// The joined output of a category.
#[derive(Drop)]
pub(crate) struct Group {
    /// The number of the first event.
    pub(crate) number: u64,
    /// The `seq` of the first event.
    pub(crate) seq: Option<i64>,
    /// The text of all events.
    pub(crate) text: String,
}

/// Joins one more output to the groups.
pub(crate) fn add_output(
    alloc: Global,
    groups: &mut BTreeMap<String, Group>,
    number: u64,
    output: LentOutput<'_>,
) -> Result<(), AllocError>
    ensures { OnOk result (groups_shown groups.new
        ≡ add_output number (output_shown output.entry) (groups_shown groups.old)) }
{
    if groups.contains_key(output.category) {
        append_text(groups, output.category, output.text)
    } else {
        insert_group(alloc, groups, number, output)
    }
}

fn append_text(
    groups: &mut BTreeMap<String, Group>,
    category: &str,
    text: &str,
) -> Result<(), AllocError>
    ensures { OnOk result (groups_shown groups.new
        ≡ append_text category.now text.now (groups_shown groups.old)) }
{
    if let Some(group) = groups.get_mut(category) {
        group.text.push_str(text)?;
    }
    Ok(())
}

fn insert_group(
    alloc: Global,
    groups: &mut BTreeMap<String, Group>,
    number: u64,
    output: LentOutput<'_>,
) -> Result<(), AllocError>
    requires { has_category output.category.now (groups_shown groups.old) ≡ false }
    ensures { OnOk result (groups_shown groups.new
        ≡ insert_group (group_of number (output_shown output.entry)) (groups_shown groups.old)) }
{
    let category = String::from_str(alloc, output.category)?;
    let group = Group {
        number,
        seq: output.seq,
        text: String::from_str(alloc, output.text)?,
    };
    drop(groups.insert(category, group)?);
    Ok(())
}
