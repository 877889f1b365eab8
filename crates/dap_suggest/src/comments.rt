//! The comments of the rules for values.
ghost use Rattle.std.specs.Prelude.{◌≡◌, ◌++◌, OnOk, OnErr};
ghost use Rattle.dap_suggest.specs.Hidden.{hidden_line};

use crate::matched::Pair;
use crate::words::{json_of, push_parts};
use dap_compare::Which;
use dap_difference::push_window;
use dap_tree::Tree;
use std::alloc::{AllocError, Global};

/// How many characters of a value a comment has at most.
const SHOWN: usize = 120;

/// Appends the line that shows the value of a record, or the part of a long value in which it
/// differs from the other value.
pub fn push_value(
    alloc: Global,
    (which, number): (Which, u64),
    value: &str,
    other: &str,
    out: &mut Vec<u8>,
) -> Result<(), AllocError> {
    out.extend_from_slice(format!(in alloc; "# {which} record {number}: ")?.as_bytes())?;
    push_window(value, other, SHOWN, out)?;
    out.extend_from_slice(b"\n")
}

/// Appends the comment that shows a pair of values.
pub fn push_values(
    alloc: Global,
    pair: &Pair<'_>,
    a: &Tree,
    b: &Tree,
    out: &mut Vec<u8>,
) -> Result<(), AllocError> {
    let value = json_of(alloc, a)?;
    let other = json_of(alloc, b)?;
    let (a, b) = (value.as_str(), other.as_str());
    push_value(alloc, (Which::A, pair.a.number), a, b, out)?;
    push_value(alloc, (Which::B, pair.b.number), b, a, out)
}

/// Appends the comment on the equal values that a rule hides, if it hides some.
pub fn push_hidden(alloc: Global, hidden: u64, out: &mut Vec<u8>) -> Result<(), AllocError>
    ensures ok { OnOk result (out.new.items ≡ out.old.items ++ hidden_line hidden) }
    ensures err { OnErr result (out.new.items ≡ out.old.items) }
{
    match hidden {
        0 => Ok(()),
        1 => out.extend_from_slice(b"# also hides 1 value that is equal\n"),
        _ => {
            let line = format!(in alloc; "# also hides {hidden} values that are equal\n")?;
            out.extend_from_slice(line.as_bytes())
        }
    }
}

/// Appends the comment on a rule that hides what a test looks at.
pub fn push_check(hidden: &str, out: &mut Vec<u8>) -> Result<(), AllocError> {
    push_parts(&[b"# CHECK: hides ", hidden.as_bytes(), b"\n"], out)
}
