//! Compares names in the order of their bytes.
ghost use Rattle.std.specs.{Prelude.{◌≡◌}, Ordering.nat_cmp, Cmp.Lexicographic.slice_cmp};

use std::cmp::Ordering;

/// Compares two names. Most that are compared differ in their first bytes, so it looks at those
/// first.
#[inline(always)]
pub(crate) fn name_order(name: &str, other: &str) -> Ordering
    ensures { result ≡ slice_cmp nat_cmp name.now other.now }
{
    let (bytes, others) = (name.as_bytes(), other.as_bytes());
    if bytes.is_empty() || others.is_empty() || bytes[0] == others[0] {
        return name.cmp(other);
    }
    if bytes[0] < others[0] {
        Ordering::Less
    } else {
        Ordering::Greater
    }
}
