//! Puts the messages of a recording in order.
ghost use Rattle.std.specs.Prelude.{◌≡◌, [], IfOk, IsOk, Some, length, map, slice_get};
ghost use Rattle.std.specs.{Prelude.IsPermutation, List.range_with_len};
ghost use Rattle.dap_message.specs.SwapRules.{swaps_of};
ghost use Rattle.dap_order.specs.MessageOrder.{ordered};

use crate::by_plan::order_of_places;
use crate::entries::entries_of;
use crate::message_plan::plan_of;
use crate::table::Table;
use dap_message::{AnyMessage, SwapRule};
use std::alloc::{AllocError, Global};

/// Returns the places of the messages, however they are represented, in the order that the rules
/// determine: first the place of the message that comes first, and so on.
///
/// Two recordings have the same order if and only if the rules allow swaps of neighbours that turn
/// one into the other. The order of a recording that obeys the session rules obeys them too.
///
/// The time is O(n log n + n (l + r) + l (l + r) log r) for n messages, r rules and l looks.
/// Messages have the same look if the session rules treat them alike, they have the same kind, and
/// they have the same name or names that no rule mentions.
///
/// # Errors
///
/// `AllocError`: an allocation failed. There is a message.
pub fn put_in_order<M: AnyMessage>(
    alloc: Global,
    rules: &[SwapRule],
    messages: &[M],
) -> Result<Vec<usize>, AllocError>
    // Each place occurs once.
    ensures once { IfOk result
        (λ places. IsPermutation (range_with_len 0 (length messages.now)) places.items) }
    ensures order { IfOk result (λ places. map (slice_get (map M.sent messages.now)) places.items
        ≡ map Some (ordered (swaps_of rules.now) (map M.sent messages.now))) }
    ensures empty { messages.now ≡ [] → IsOk result }
{
    if messages.is_empty() {
        return Ok(Vec::new(alloc));
    }
    let entries = entries_of(alloc, messages)?;
    let table = Table { rules, entries };
    let plan = plan_of(alloc, &table)?;
    order_of_places(alloc, &plan)
}
