//! The rules of a mask that change values.

use dap_message::Kind;

/// How a rule changes the value at its place.
#[derive(Clone, Copy, Debug, PartialEq, Eq, Drop)]
pub enum Verb {
    /// Replaces the value by `0`, `""`, `false`, `[]` or `{}`, according to its type. Null and ids
    /// are unchanged.
    Blank,
    /// Replaces each run of digits in a string by `0`.
    Digits,
    /// Replaces each `0x` or `0X` followed by hexadecimal digits in a string by `0x0`.
    Hex,
    /// Replaces each run of six or more hexadecimal digits in a string by `0`, if it contains a
    /// decimal digit.
    Long,
    /// Replaces each UUID in a string by the nil UUID.
    Uuid,
}

/// One step of a place.
#[derive(Drop)]
pub enum Step {
    /// To the member with this name.
    Member(String),
    /// To each element of an array.
    Each,
    /// To each element of an array that is an object whose member `name` is this string.
    Element(String),
}

/// A rule that changes values.
#[derive(Drop)]
pub struct MaskRule {
    pub verb: Verb,
    /// The kind of the messages to which the rule applies.
    pub kind: Kind,
    /// The command or event of these messages; any, if `None`.
    pub name: Option<String>,
    /// The text at `body.category` of these messages; anything or nothing, if `None`. Only a rule
    /// for events has a category.
    pub category: Option<String>,
    /// The place of the values in such a message.
    pub place: Vec<Step>,
}
