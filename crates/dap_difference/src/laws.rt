//! Theorems about differences. Each function is empty: calling it makes its `ensures` clauses
//! available to the caller's proof.
ghost use Rattle.dap_difference.specs.Laws.{NoneWhereSame, PrintedApart, PrintedWhole};
ghost use Rattle.dap_difference.specs.Laws.{WindowsAreShort};

/// States that two documents whose members are in order have no differences if and only if they are
/// equal.
pub fn nothing_differs_where_they_are_the_same()
    ensures { NoneWhereSame }
{}

/// States that the windows of two values differ, if their JSON texts do.
pub fn different_values_are_printed_differently()
    ensures { PrintedApart }
{}

/// States that a text is printed whole unless it has more characters than the limit, and that a
/// window has at most as many characters as the limit, and the dots at each end.
pub fn windows_are_within_the_limit()
    ensures whole { PrintedWhole }
    ensures short { WindowsAreShort }
{}
