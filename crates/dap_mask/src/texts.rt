//! Redacts numbers in strings, in place.
ghost use Rattle.std.specs.Prelude.{◌≡◌, ◌≤◌, length, take, string_bytes};
ghost use Rattle.dap_mask.specs.Texts.{digits, hex, slice_begins_hex};
ghost use Rattle.dap_mask.specs.Standing.{left_of, next_at};

/// Replaces each run of digits by `0`. Does not allocate.
pub fn digits(text: String) -> String
    ensures { string_bytes result ≡ digits (string_bytes text) }
{
    let mut bytes = text.into_bytes();
    let kept = squeeze_digits(&mut bytes);
    bytes.truncate(kept);
    String::from_utf8(bytes).unwrap()
}

/// Replaces each hexadecimal number by `0x0`. Does not allocate.
pub fn hex(text: String) -> String
    ensures { string_bytes result ≡ hex (string_bytes text) }
{
    let mut bytes = text.into_bytes();
    let kept = squeeze_hex(&mut bytes);
    bytes.truncate(kept);
    String::from_utf8(bytes).unwrap()
}

// Replaces each run of digits by `0` and returns the length of the result, which is a prefix of the
// bytes.
fn squeeze_digits(bytes: &mut [u8]) -> usize
    ensures kept { take result bytes.new ≡ digits bytes.old }
    ensures len { result ≤ length bytes.old }
{
    let mut kept = 0;
    let mut inside = false;
    for i in 0..bytes.len() {
        let byte = bytes[i];
        let digit = byte.is_ascii_digit();
        if !digit {
            bytes[kept] = byte;
            kept += 1;
        } else if !inside {
            bytes[kept] = b'0';
            kept += 1;
        }
        inside = digit;
    }
    kept
}

/// The position of a byte relative to a hexadecimal number.
#[derive(Clone, Copy, Drop)]
enum At {
    Outside,
    BehindZero,
    BehindX,
    InNumber,
}

// Replaces each hexadecimal number by `0x0` and returns the length of the result, which is a prefix
// of the bytes.
fn squeeze_hex(bytes: &mut [u8]) -> usize
    ensures kept { take result bytes.new ≡ hex bytes.old }
    ensures len { result ≤ length bytes.old }
{
    let mut kept = 0;
    let mut at = At::Outside;
    for i in 0..bytes.len() {
        let byte = bytes[i];
        let begins = begins_hex(&bytes[i..]);
        if let Some(left) = left_of(at, byte) {
            bytes[kept] = left;
            kept += 1;
        }
        at = next(at, byte, begins);
    }
    kept
}

fn left_of(at: At, byte: u8) -> Option<u8>
    ensures { result ≡ left_of at byte }
{
    match at {
        At::Outside => Some(byte),
        At::BehindZero => Some(b'x'),
        At::BehindX => Some(b'0'),
        At::InNumber if byte.is_ascii_hexdigit() => None,
        At::InNumber => Some(byte),
    }
}

fn next(at: At, byte: u8, begins: bool) -> At
    ensures { result ≡ next_at at byte begins }
{
    match at {
        At::Outside => if begins { At::BehindZero } else { At::Outside },
        At::BehindZero => At::BehindX,
        At::BehindX => At::InNumber,
        At::InNumber if byte.is_ascii_hexdigit() => At::InNumber,
        At::InNumber => At::Outside,
    }
}

fn begins_hex(bytes: &[u8]) -> bool
    ensures { result ≡ slice_begins_hex bytes.now }
{
    match bytes {
        [zero, x, digit, ..] => {
            *zero == b'0' && (*x == b'x' || *x == b'X') && digit.is_ascii_hexdigit()
        }
        _ => false,
    }
}
