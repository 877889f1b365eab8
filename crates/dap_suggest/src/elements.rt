//! The elements of lists on the way to a place, and their names.
use crate::candidates::{Actions, text_after};
use crate::spot::NamedList;
use crate::words::text_at;
use dap_tree::Tree;
use std::alloc::{AllocError, Global};

/// The `name` of an element in both messages.
#[derive(Clone, Copy)]
pub struct Named<'t> {
    name: &'t str,
    other: &'t str,
    /// What the rules for the names of these elements do.
    actions: Actions,
    /// How many bytes of the target are before the brackets of the list.
    start: usize,
}

/// The elements on the way to a place, from the outermost list, each with its name in both messages
/// if it has one there.
pub type Elements<'t> = Vec<Option<Named<'t>>>;

/// Returns the name of the element of a list, after the rules for names, if both messages have one
/// then.
pub fn name_in(
    alloc: Global,
    elements: &Elements<'_>,
    list: Option<NamedList>,
) -> Result<Option<String>, AllocError> {
    let Some(Some(element)) = list.and_then(|list| elements.get(list.depth)) else {
        return Ok(None);
    };
    let name = text_after(alloc, element.actions, element.name)?;
    let other = text_after(alloc, element.actions, element.other)?;
    let is_one = name.as_str() == other.as_str() && !name.is_empty();
    Ok(if is_one { Some(name) } else { None })
}

/// Returns an element of two lists with its names.
pub fn element_of<'t>(
    item: &'t Tree,
    other: &'t Tree,
    actions: Actions,
    start: usize,
) -> Option<Named<'t>> {
    Some(Named {
        name: text_at(item, "name")?,
        other: text_at(other, "name")?,
        actions,
        start,
    })
}

/// Returns the innermost list whose element has a name.
pub fn innermost(elements: &Elements<'_>) -> Option<NamedList> {
    let depth = elements.iter().rposition(|element| element.is_some())?;
    let start = (*elements.get(depth)?)?.start;
    Some(NamedList { depth, start })
}
