//! Replaces the declared ids of records by names.
ghost use Rattle.std.specs.Prelude.{◌≡◌, ◌≤◌, List, length, OnErr};
ghost use Rattle.dap_message.specs.Message.{Sent};
ghost use Rattle.dap_mask.specs.KeptRules.{mask_of};
ghost use Rattle.dap_input.specs.Limits.{AreSound};
ghost use Rattle.dap_naming.specs.Sessions.{named_sents};
ghost use Rattle.dap_normalise.specs.{Accepting.Fits, JudgingSteps.payload_of};
ghost use Rattle.dap_rules.specs.Naming.{named_text};
ghost use Rattle.dap_rules.specs.RewritingSteps.{HasNumbered, Rewritten};

use crate::passes::{Pass, Room};
use dap_input::{Limits, Refused};
use dap_mask::MaskRules;
use dap_naming::{NamingFault, name_message};
use dap_normalise::append_record;
use dap_recording::Record;
use dap_tree::{TreeFault, read_tree_with, write_tree_to};
use std::alloc::Global;

/// Appends the record of the message in `whole`, with names in the place of its declared ids, to an
/// output that has `written` bytes so far. Returns the new number of bytes. Appends nothing on an
/// error. After an error the numbers must not be used again.
pub(crate) fn append_named(
    alloc: Global,
    rules: &MaskRules,
    number: u64,
    whole: &Record,
    written: u64,
    limits: Limits,
    room: &mut Room,
    out: &mut Vec<u8>,
) -> Result<u64, Refused>
    requires sound { AreSound limits }
    requires short { written ≤ limits.input }
    requires numbered { (messages : List Sent)
        × HasNumbered Pass.Name limits (mask_of rules.now) messages room.old.numbers }
    ensures named { (messages : List Sent)
        → Fits limits (named_sents (mask_of rules.now).declared messages)
        → written ≡ length (named_text (mask_of rules.now).declared messages)
        → HasNumbered Pass.Name limits (mask_of rules.now) messages room.old.numbers
        → Rewritten Pass.Name limits (mask_of rules.now) messages (payload_of whole.now) number
        out.old.items out.new.items room.new.numbers result }
    ensures kept { OnErr result (out.new.items ≡ out.old.items) }
{
    let content = whole.content.as_slice();
    let mut tree = match read_tree_with(alloc, content, &mut room.scratch) {
        Ok(tree) => tree,
        Err(TreeFault::Json) => return Err(Refused::Json(number)),
        Err(TreeFault::Fraction) => return Err(Refused::Fraction(number)),
        Err(TreeFault::Memory) => return Err(Refused::Memory),
    };
    match name_message(alloc, &mut room.numbers, rules.declared(), &mut tree) {
        Ok(()) => {}
        Err(NamingFault::Full) => return Err(Refused::TooManyIds(number)),
        Err(NamingFault::Memory) => return Err(Refused::Memory),
    }
    room.content.clear();
    let Ok(()) = write_tree_to(alloc, &tree, &mut room.content) else {
        return Err(Refused::Memory);
    };
    let content = room.content.as_slice();
    append_record(number, whole.side, content, written, limits, out)
}
