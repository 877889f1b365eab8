//! Counts the digits of a number.
ghost use Rattle.std.specs.{Prelude.{◌≡◌, ◌≤◌, decimal, length}, Fmt.signed_decimal};

/// Returns the number of decimal digits of a number.
pub fn digit_count(number: u64) -> usize
    ensures count { result ≡ length (decimal number) }
    ensures few { result ≤ 20 }
{
    let mut count = 1;
    let mut rest = number;
    while rest >= 10 {
        rest /= 10;
        count += 1;
    }
    count
}

/// Returns the length of the decimal digits of a number and its sign.
#[inline(always)]
pub(crate) fn signed_length(number: i64) -> usize
    ensures len { result ≡ length (signed_decimal number) }
    ensures few { result ≤ 21 }
{
    let digits = digit_count(number.unsigned_abs());
    if number < 0 { digits + 1 } else { digits }
}
