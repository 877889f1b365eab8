//! Reads a message and lists its stack frames.
ghost use Rattle.std.specs.Prelude.{◌≡◌, map, IfErr, IfOk};
ghost use Rattle.dap_message.specs.ViewItems.{frames_left};
ghost use Rattle.callers.specs.Frames.{Explains, TellsFrames, place_of_frame, reported};

use dap_message::{Frames, MessageFault, Side, typed};
use dap_tree::{TreeFault, read_tree};
use std::alloc::{AllocError, Global};

/// The location of a stack frame: a function and a line.
#[derive(Debug, Drop)]
pub struct Place {
    pub function: String,
    pub line: i128,
}

/// Why no frames can be read from a content.
#[derive(Clone, Copy, Debug, PartialEq, Eq, Drop)]
pub enum NoFrames {
    /// The content is not a tree.
    Tree(TreeFault),
    /// The tree is not a message.
    Message(MessageFault),
    /// An allocation failed.
    Memory,
}

/// Returns the stack frames that a message of an adapter lists, in its order. The list is empty if
/// the message is not a successful response to `stackTrace`.
///
/// # Errors
///
/// - `Tree`: the content is not JSON, contains a number that is not an integer of 64 bits, or an
///   allocation failed.
/// - `Message`: the tree is not a message that satisfies the profile, or an allocation failed.
/// - `Memory`: an allocation failed while the frames were copied.
pub fn tell_frames(alloc: Global, content: &[u8]) -> Result<Vec<Place>, NoFrames>
    ensures reported { IfOk result (λ places. TellsFrames content.now places.items) }
    ensures refused { IfErr result (Explains content.now) }
{
    let tree = match read_tree(alloc, content) {
        Ok(tree) => tree,
        Err(fault) => return Err(NoFrames::Tree(fault)),
    };
    let message = match typed(alloc, Side::Adapter, tree) {
        Ok(message) => message,
        Err(fault) => return Err(NoFrames::Message(fault)),
    };
    match places(alloc, message.frames()) {
        Ok(places) => Ok(places),
        Err(_) => Err(NoFrames::Memory),
    }
}

/// Returns the locations of the frames, in their order.
fn places(alloc: Global, frames: Frames<'_>) -> Result<Vec<Place>, AllocError>
    ensures { IfOk result
        (λ places. map reported places.items ≡ map place_of_frame (frames_left frames.entry)) }
{
    let mut places = Vec::new(alloc);
    for frame in frames {
        places.push(Place {
            function: String::from_str(alloc, frame.name)?,
            line: frame.line,
        })?;
    }
    Ok(places)
}
