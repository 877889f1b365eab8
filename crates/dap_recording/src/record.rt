//! Records: a side and a content.
use dap_frame::Content;
use dap_tree::Side;

/// A message of a recording, as its bytes.
#[derive(Debug, Drop)]
pub struct Record {
    /// Who sent it.
    pub side: Side,
    /// The content of its frame: arbitrary bytes.
    pub content: Content,
}
