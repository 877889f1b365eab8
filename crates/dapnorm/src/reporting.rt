//! Statuses, and what the program reports of the result of an engine.
ghost use Rattle.std.specs.Prelude.{◌≡◌, ◌∷◌, []};
ghost use Rattle.dap_device.specs.Devices.{CanWrite};
ghost use Rattle.dap_compare.specs.Which.{compare_refused_text};
ghost use Rattle.dap_input.specs.RefusedText.{refused_text};
ghost use Rattle.dapnorm.specs.Lines.{fault_line, line_text};
ghost use Rattle.dapnorm.specs.Reporting.{HasSent, IsReported, refusal_status, refused_status};
ghost use Rattle.dapnorm.specs.Reporting.{status_of};

use crate::line::{Line, Part, fault, report_line};
use dap_compare::CompareRefused;
use dap_device::Sink;
use dap_input::Refused;

/// The command was done: written, accepted, or the same.
pub(crate) const DONE: u8 = 0;

/// Two recordings differ.
pub(crate) const DIFFERENT: u8 = 1;

/// An input was rejected.
pub(crate) const REFUSED: u8 = 2;

/// The command line is wrong.
pub(crate) const USAGE: u8 = 3;

/// A read or a write failed.
pub(crate) const FAULT: u8 = 4;

/// An allocation failed.
pub(crate) const MEMORY: u8 = 5;

/// Returns the status of the program for an error.
pub(crate) fn refused_status(refused: Refused) -> u8
    ensures { result ≡ refused_status refused }
{
    match refused {
        Refused::ReadFault | Refused::WriteFault => FAULT,
        Refused::Memory => MEMORY,
        _ => REFUSED,
    }
}

/// Returns the status of the program if two inputs were not compared to the end.
pub(crate) fn refusal_status(refused: CompareRefused) -> u8
    ensures { result ≡ refusal_status refused }
{
    match refused {
        CompareRefused::Input(_, refused) => refused_status(refused),
        CompareRefused::Memory => MEMORY,
    }
}

/// Returns the line that reports an error, and the status of the program.
pub(crate) fn refused_line<'a>(refused: Refused) -> (Line<'a>, u8)
    ensures line { line_text result.0 ≡ fault_line (refused_text refused ∷ []) }
    ensures status { result.1 ≡ refused_status refused }
{
    (fault(Part::Refused(refused)), refused_status(refused))
}

/// Returns the line that reports why two inputs were not compared, and the status of the program.
pub(crate) fn pair_line<'a>(refused: CompareRefused) -> (Line<'a>, u8)
    ensures line { line_text result.0 ≡ fault_line (compare_refused_text refused ∷ []) }
    ensures status { result.1 ≡ refusal_status refused }
{
    (fault(Part::Pair(refused)), refusal_status(refused))
}

/// Reports an error in one line, and returns the status of the program.
pub(crate) fn report_outcome<E: Sink>(errors: &mut E, outcome: Result<(), Refused>) -> u8
    requires writer { CanWrite E.Sink errors.old }
    ensures reported { IsReported E.Sink errors.old errors.new outcome }
    ensures status { result ≡ status_of outcome }
{
    match outcome {
        Ok(()) => DONE,
        Err(refused) => {
            report_line(errors, fault(Part::Refused(refused)));
            refused_status(refused)
        }
    }
}
