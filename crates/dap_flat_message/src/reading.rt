//! Reads a content as a flat message.
ghost use Rattle.std.specs.Prelude.{ℕ, List, ◌≡◌, ◌<◌, length, IfOk, IfErr, IsErrOf, IsUtf8};
ghost use Rattle.dap_flat_message.specs.FlatMessages.{AreRead, IsFlatMessage, RefusesContent};
ghost use Rattle.dap_flat.specs.Reading.{ReadsDocument};

use crate::members::find_envelope;
use crate::message::FlatMessage;
use crate::typing::typed_flat;
use dap_flat::{Node, Unclear, Unread, read_flat};
use dap_message::MessageFault;
use dap_tree::{Scratch, Side};

/// Why a content was not read as a flat message.
#[derive(Clone, Copy, Drop)]
pub enum FlatFault {
    /// An allocation failed. The content is UTF-8, and is not empty.
    Memory,
    /// The content has to be read as a tree: see the type [`Unclear`](struct@Unclear). An adapter's
    /// response to `initialize` is one, as its absent capabilities may have to be filled in.
    Unclear,
    /// The content is JSON, and violates the profile.
    Message(MessageFault),
}

impl From<Unread> for FlatFault {
    ghost use Rattle.dap_flat_message.specs.FlatMessages.{IsCausedBy};

    ghost from_gives = { λ unread fault. IsCausedBy unread fault };

    fn from(unread: Unread) -> FlatFault {
        match unread {
            Unread::Memory => FlatFault::Memory,
            Unread::Unclear => FlatFault::Unclear,
        }
    }
}

impl From<Unclear> for FlatFault {
    ghost use Rattle.dap_flat_message.specs.declared.reading.FlatFault.TheVariants.{Unclear as unclear};

    ghost from_gives = { λ _ fault. fault ≡ unclear };

    fn from(_: Unclear) -> FlatFault {
        FlatFault::Unclear
    }
}

/// Reads a content as a message of this side: checked against the profile, with its ids marked.
///
/// The nodes replace those in `nodes`, whose capacity is used.
pub fn read_flat_message<'a>(
    side: Side,
    content: &'a [u8],
    scratch: &'a mut Scratch,
    nodes: Vec<Node<'a>>,
) -> Result<FlatMessage<'a>, FlatFault>
    ensures ok { IfOk result (IsFlatMessage side content.now) }
    ensures err { IfErr result (RefusesContent content.now) }
    ensures memory { IsErrOf result FlatFault.Memory
        → (0 < length content.now) × IsUtf8 content.now }
{
    let nodes = read_flat(content, scratch, nodes)?;
    type_nodes(side, nodes)
}

/// Types the nodes of a document as a message of this side: checks it against the profile, and
/// marks its ids. Does not allocate.
///
/// # Errors
///
/// - `Unclear`: the document has to be typed as a tree, as [`FlatFault::Unclear`] says.
/// - `Message`: the document violates the profile.
pub fn type_nodes<'a>(side: Side, nodes: Vec<Node<'a>>) -> Result<FlatMessage<'a>, FlatFault>
    requires { AreRead nodes.items }
    ensures ok { IfOk result (λ m. (bytes : List ℕ) → ReadsDocument bytes nodes.entry.items
        → IsFlatMessage side bytes m) }
    ensures err { IfErr result (λ fault. (bytes : List ℕ) → ReadsDocument bytes nodes.entry.items
        → RefusesContent bytes fault) }
    ensures memory { IsErrOf result FlatFault.Memory → ⊥ }
{
    let mut nodes = nodes;
    let found = find_envelope(&nodes)?;
    if let Some(fault) = typed_flat(&mut nodes, &found, side)? {
        return Err(FlatFault::Message(fault));
    }
    Ok(FlatMessage::new(side, nodes, &found)?)
}
