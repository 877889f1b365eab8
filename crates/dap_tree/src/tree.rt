//! JSON values with integers and marked ids.
use crate::Sort;
use std::collections::BTreeMap;

/// A JSON value whose numbers are integers, some of which may be ids.
///
/// The members of an object are in the byte order of their names, and each name occurs once. A tree
/// that a program constructs may nest deeper, or contain larger numbers, than a content may:
/// `sound` reports this.
#[derive(Drop)]
pub enum Tree {
    Null,
    Bool(bool),
    Whole(i128),
    Text(String),
    List(Vec<Tree>),
    Object(BTreeMap<String, Tree>),
    /// A number that identifies something; it is written as that number.
    Id(Sort, i64),
}
