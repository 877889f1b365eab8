//! A difference of two trees.
use dap_tree::Tree;

/// A step into a tree.
#[derive(Clone, Copy)]
pub enum Step<'t> {
    /// To the member of that name of an object.
    Member(&'t str),
    /// To the item at that index of an array, counted from 0.
    Item(usize),
}

/// The values of the trees A and B at a path.
#[derive(Clone, Copy)]
pub enum Values<'t> {
    OnlyA(&'t Tree),
    OnlyB(&'t Tree),
    Both(&'t Tree, &'t Tree),
}

/// A path at which two trees differ, and the value of each tree there.
#[derive(Drop)]
pub struct Difference<'t> {
    pub path: Vec<Step<'t>>,
    pub values: Values<'t>,
}
