//! Reads the message of a record, and writes its detail lines.
ghost use Rattle.std.specs.Prelude.{◌≡◌, IfErr, IfOk, OnOk};
ghost use Rattle.dap_flat_message.specs.FlatMessages.{RefusesContent, flat_sent};
ghost use Rattle.dap_input.specs.Refusals.{RejectsPayload};
ghost use Rattle.dap_message.specs.Message.{sent};
ghost use Rattle.dap_normalise.specs.Accepting.{HoldsNoMessage, IsMessage};
ghost use Rattle.dap_normalise.specs.JudgingSteps.{payload_of};
ghost use Rattle.dap_show.specs.ViewingSteps.{AreDetail};
ghost use Rattle.dap_tree.specs.{Doc.Doc, Json.IsRead};

use crate::detail::{Detail, View};
use crate::flat_lines::flat_lines;
use crate::leaves::Buffers;
use crate::message_lines::tree_lines;
use dap_flat::read_flat;
use dap_flat_message::{FlatFault, FlatMessage, type_nodes};
use dap_input::Refused;
use dap_message::Message;
use dap_normalise::read_message;
use dap_recording::Record;
use dap_tree::Scratch;
use std::alloc::{AllocError, Global};

/// The number of bytes per node of a document that most contents have at least. It is an estimate,
/// which only affects how often the vector of nodes is reallocated.
const BYTES_A_NODE: usize = 8;

/// Reads the message of a record as a flat document, and writes its detail lines into the buffers.
pub(crate) fn read_as_flat<'a>(
    alloc: Global,
    view: View,
    whole: &'a Record,
    scratch: &'a mut Scratch,
    buffers: &mut Buffers,
) -> Result<FlatMessage<'a>, FlatFault>
    ensures message { IfOk result
        (λ message. IsMessage (payload_of whole.now) (flat_sent message)) }
    ensures detail { IfOk result (λ message. AreDetail view.detail view.limits.input
        (flat_sent message) (payload_of whole.now).1 buffers.new.lines.items) }
    ensures err { IfErr result (RefusesContent (payload_of whole.now).1) }
{
    let content = whole.content.as_slice();
    let Ok(empty) = Vec::with_capacity(alloc, content.len() / BYTES_A_NODE + 8) else {
        return Err(FlatFault::Memory);
    };
    let nodes = read_flat(content, scratch, empty)?;
    match view.detail {
        Detail::Lists => {
            let message = type_nodes(whole.side, nodes)?;
            buffers.lines = flat_lines(alloc, &message)?;
            Ok(message)
        }
        Detail::Leaves => {
            let Ok(()) = buffers.write_leaves(&nodes, view.limits.input) else {
                return Err(FlatFault::Memory);
            };
            type_nodes(whole.side, nodes)
        }
    }
}

/// Reads the message of a record as a tree, and writes its detail lines into the buffers.
pub(crate) fn read_as_tree(
    alloc: Global,
    view: View,
    number: u64,
    whole: &Record,
    scratch: &mut Scratch,
    buffers: &mut Buffers,
) -> Result<Message, Refused>
    ensures message { IfOk result (λ message. IsMessage (payload_of whole.now) (sent message)) }
    ensures detail { IfOk result (λ message. AreDetail view.detail view.limits.input (sent message)
        (payload_of whole.now).1 buffers.new.lines.items) }
    ensures err { IfErr result
        (λ because. RejectsPayload (HoldsNoMessage (payload_of whole.now)) number because) }
{
    let content = whole.content.as_slice();
    let message = read_message(alloc, number, whole.side, content, scratch)?;
    match tree_detail(alloc, view, content, &message, scratch, buffers) {
        Ok(()) => Ok(message),
        Err(_) => Err(Refused::Memory),
    }
}

/// Writes the detail lines of a message, whose content is JSON, into the buffers.
fn tree_detail(
    alloc: Global,
    view: View,
    content: &[u8],
    message: &Message,
    scratch: &mut Scratch,
    buffers: &mut Buffers,
) -> Result<(), AllocError>
    requires { (d : Doc) × IsRead content.now d }
    ensures { OnOk result (AreDetail view.detail view.limits.input (sent message.now) content.now
        buffers.new.lines.items) }
{
    match view.detail {
        Detail::Lists => {
            buffers.lines = tree_lines(alloc, message)?;
            Ok(())
        }
        Detail::Leaves => buffers.read_leaves(content, view.limits.input, scratch),
    }
}
