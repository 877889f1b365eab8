//! Reads the count of a trace piece, digit by digit.

ghost use Rattle.std.specs.Prelude.{◌≡◌, ◌≢◌, ℕ, List, true, false};
ghost use Rattle.dap_recording.specs.Count.{IsCountOf, Steps, Ends, IsEndWithin};

/// The digits of a count so far.
#[derive(Clone, Copy)]
pub struct Count {
    /// The number of digits, at most 10.
    pub digits: usize,
    /// The number that they represent.
    pub number: u64,
    /// Whether the first digit is 0. No digit may follow it.
    pub is_zero: bool,
}

/// The effect of one byte on a count.
pub enum CountStep {
    More(Count),
    Ended,
    Bad,
}

/// The effect of several bytes on a count.
pub enum CountEnd {
    /// All are digits, and the count is not complete.
    More(Count),
    /// The LF of the count is the last of the first `used` bytes.
    Ended { used: usize, number: u64 },
    /// A byte is neither the next digit of the count nor its LF.
    Bad,
}

/// Returns whether a digit is a leading 0.
fn is_first_zero(digits: usize, digit: u8) -> bool
    ensures zero { result ≡ true → (digits ≡ 0) × (digit ≡ 48) }
    ensures other { result ≡ false → digits ≡ 0 → digit ≢ 48 }
{
    digits == 0 && digit == b'0'
}

/// Returns the effect of one more byte of a count line.
fn take_byte(count: Count, byte: u8) -> CountStep
    ensures { (text : List ℕ) → IsCountOf count text → Steps text byte result }
{
    if byte == b'\n' {
        return if count.digits == 0 {
            CountStep::Bad
        } else {
            CountStep::Ended
        };
    }
    if !byte.is_ascii_digit() {
        return CountStep::Bad;
    }
    if count.is_zero {
        return CountStep::Bad;
    }
    if 10 <= count.digits {
        return CountStep::Bad;
    }
    let digit = u64::from(byte.saturating_sub(b'0'));
    let number = count.number.saturating_mul(10).saturating_add(digit);
    CountStep::More(Count {
        digits: count.digits + 1,
        number,
        is_zero: is_first_zero(count.digits, byte),
    })
}

/// Reads the rest of a count, up to its LF.
pub fn count_end(start: Count, rest: &[u8]) -> CountEnd
    ensures ends { (text : List ℕ) → IsCountOf start text → Ends text rest.now result }
    ensures within { IsEndWithin rest.now result }
{
    let mut count = start;
    let mut at = 0;
    while at < rest.len() {
        match take_byte(count, rest[at]) {
            CountStep::More(next) => count = next,
            CountStep::Ended => {
                return CountEnd::Ended {
                    used: at + 1,
                    number: count.number,
                };
            }
            CountStep::Bad => return CountEnd::Bad,
        }
        at += 1;
    }
    CountEnd::More(count)
}
