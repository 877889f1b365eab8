//! What is written for each message of a recording, and the buffers for it.

use dap_naming::ValueNumbers;
use dap_tree::Scratch;

/// What is written for each message.
#[derive(Clone, Copy)]
pub(crate) enum Pass {
    /// The masked message.
    Mask,
    /// The message with names in the place of its declared ids.
    Name,
}

/// Buffers that are reused for every record, and the numbers of the declared ids so far.
#[derive(Drop)]
pub(crate) struct Room {
    pub(crate) scratch: Scratch,
    /// The canonical content of one record.
    pub(crate) content: Vec<u8>,
    pub(crate) numbers: ValueNumbers,
}
