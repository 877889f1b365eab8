//! Rules for the order of messages.
use dap_profile::Kind;

/// One half of a rule for the order: the messages of one kind and one name.
#[derive(Drop)]
pub struct Half {
    pub kind: Kind,
    /// The command or event of the messages; any, if `None`.
    pub name: Option<String>,
}

/// A rule for the order: two neighbouring messages may be exchanged if one of them matches one half
/// and the other matches the other half. The rule is symmetric.
#[derive(Drop)]
pub struct SwapRule {
    pub one: Half,
    pub another: Half,
}
