//! The forms of tokens.

/// What a token of a string is, in addition to names.
#[derive(Clone, Copy, Debug, PartialEq, Eq, Drop)]
pub enum Form {
    /// The whole string.
    Whole,
    /// A run of decimal digits.
    Digits,
    /// `0x` or `0X`, and the hexadecimal digits after it.
    Hex,
    /// A run of six or more hexadecimal digits that has a decimal digit.
    Long,
    /// A UUID.
    Uuid,
}
