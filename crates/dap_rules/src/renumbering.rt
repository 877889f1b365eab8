//! Reports the errors of a joined recording with the numbers of the records of the input.
ghost use Rattle.std.specs.Prelude.{◌≡◌};
ghost use Rattle.dap_rules.specs.Renumbering.{number_in, renumbered};

use dap_input::Refused;

/// Returns the element of `numbers` for the record with this number, counted from 1. Without such
/// an element, returns the number unchanged.
fn number_in(numbers: &[u64], number: u64) -> u64
    ensures { result ≡ number_in numbers.now number }
{
    match numbers.get(number.saturating_sub(1) as usize) {
        Some(number) => *number,
        None => number,
    }
}

/// Returns the error with its record number replaced by the element of `numbers` for that record.
/// Returns an error without a record number unchanged.
pub(crate) fn renumber(numbers: &[u64], refused: Refused) -> Refused
    ensures { result ≡ renumbered numbers.now refused }
{
    match refused {
        Refused::InputTooLong(n) => Refused::InputTooLong(number_in(numbers, n)),
        Refused::Record(n, cause) => Refused::Record(number_in(numbers, n), cause),
        Refused::Json(n) => Refused::Json(number_in(numbers, n)),
        Refused::Fraction(n) => Refused::Fraction(number_in(numbers, n)),
        Refused::Message(n, fault) => Refused::Message(number_in(numbers, n), fault),
        Refused::Rule(n, rule) => Refused::Rule(number_in(numbers, n), rule),
        Refused::TooManyIds(n) => Refused::TooManyIds(number_in(numbers, n)),
        Refused::Grew(n) => Refused::Grew(number_in(numbers, n)),
        refused => refused,
    }
}
