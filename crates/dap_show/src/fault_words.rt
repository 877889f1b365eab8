//! Formats errors for the lines that mark them.
ghost use Rattle.std.specs.Prelude.{◌≡◌, ◌++◌, ◌↔◌, IfOk, IsTrue, OnOk, codes, decimal};
ghost use Rattle.dap_show.specs.{Showing.start_words, Viewing.{IsFraming, fault_words, stop_line}};

use crate::message_lines::{Appended, push_number, push_start};
use dap_input::Refused;
use dap_message::Side;
use std::alloc::AllocError;

/// Appends the error of a record and ends its line.
pub fn push_fault(out: &mut Vec<u8>, refused: Refused) -> Appended
    ensures { OnOk result
        (out.new.items ≡ out.old.items ++ fault_words refused) }
{
    out.extend_from_slice(b"fault: ")?;
    out.extend_from_slice(refused.reason().as_bytes())?;
    out.extend_from_slice(b"\n")
}

/// Appends the line of a record that does not contain a message.
pub fn push_untyped(out: &mut Vec<u8>, number: u64, side: Side, refused: Refused) -> Appended
    ensures { OnOk result (out.new.items ≡ out.old.items
        ++ (start_words number side ++ fault_words refused)) }
{
    push_start(out, number, side)?;
    push_fault(out, refused)
}

/// Appends the line of an error without a side.
fn push_numbered(out: &mut Vec<u8>, number: u64, refused: Refused) -> Appended
    ensures { OnOk result (out.new.items ≡ out.old.items
        ++ (decimal number ++ codes " " ++ fault_words refused)) }
{
    push_number(out, "", number)?;
    out.extend_from_slice(b" ")?;
    push_fault(out, refused)
}

/// Appends the line of an error of the framing. Returns whether the rejection is one, and appends
/// nothing for any other rejection.
pub fn push_stop(out: &mut Vec<u8>, refused: Refused) -> Result<bool, AllocError>
    ensures framing { IfOk result (λ is_framing. IsTrue is_framing ↔ IsFraming refused) }
    ensures line { OnOk result (out.new.items ≡ out.old.items ++ stop_line refused) }
{
    match refused {
        Refused::Record(number, _) | Refused::InputTooLong(number) => {
            push_numbered(out, number, refused)?;
            Ok(true)
        }
        _ => Ok(false),
    }
}
