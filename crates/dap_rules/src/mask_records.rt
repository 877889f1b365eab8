//! Masks the records of recordings.
ghost use Rattle.std.specs.Prelude.{◌≡◌, ◌≤◌, List, length, OnErr};
ghost use Rattle.dap_message.specs.Message.{Sent};
ghost use Rattle.dap_mask.specs.KeptRules.{mask_of};
ghost use Rattle.dap_input.specs.Limits.{AreSound};
ghost use Rattle.dap_normalise.specs.{Accepting.Fits, JudgingSteps.payload_of};
ghost use Rattle.dap_rules.specs.Masking.{left_of, masked_text};
ghost use Rattle.dap_rules.specs.RewritingSteps.{Rewritten};

use crate::passes::{Pass, Room};
use dap_input::{Limits, Refused};
use dap_mask::{MaskRules, write_masked};
use dap_normalise::append_record;
use dap_recording::Record;
use dap_tree::TreeFault;
use std::alloc::Global;

/// Appends the record that the rules make of `whole` to an output that has `written` bytes so far.
/// Returns the new number of bytes. Appends nothing for an event that the rules drop, or on an
/// error.
pub(crate) fn append_masked(
    alloc: Global,
    rules: &MaskRules,
    number: u64,
    whole: &Record,
    written: u64,
    limits: Limits,
    room: &mut Room,
    out: &mut Vec<u8>,
) -> Result<u64, Refused>
    requires sound { AreSound limits }
    requires short { written ≤ limits.input }
    ensures masked { (messages : List Sent) → Fits limits (left_of (mask_of rules.now) messages)
        → written ≡ length (masked_text (mask_of rules.now) messages)
        → Rewritten Pass.Mask limits (mask_of rules.now) messages (payload_of whole.now) number
        out.old.items out.new.items room.new.numbers result }
    ensures kept { OnErr result (out.new.items ≡ out.old.items) }
{
    let content = whole.content.as_slice();
    room.content.clear();
    match write_masked(alloc, content, rules, &mut room.scratch, &mut room.content) {
        Ok(true) => {
            let content = room.content.as_slice();
            append_record(number, whole.side, content, written, limits, out)
        }
        Ok(false) => Ok(written),
        Err(TreeFault::Json) => Err(Refused::Json(number)),
        Err(TreeFault::Fraction) => Err(Refused::Fraction(number)),
        Err(TreeFault::Memory) => Err(Refused::Memory),
    }
}
