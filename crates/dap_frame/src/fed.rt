//! The result of feeding a framer.
use crate::content::Content;

/// The part of its chunk that a call of `Framer::feed` consumed.
#[derive(Debug, Drop)]
pub struct Fed {
    /// The number of bytes consumed from the start of the chunk. Pass the rest to the next call.
    pub used: usize,
    /// The content of the frame that ended at the last byte consumed. `None`: the whole chunk was
    /// consumed, and no frame ended.
    pub content: Option<Content>,
}
