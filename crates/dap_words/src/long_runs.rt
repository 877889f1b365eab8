//! Runs of hexadecimal digits.
ghost use Rattle.std.specs.Prelude.{◌≡◌, ◌≤◌, ◌||◌, ◌++◌, length, take, drop};
ghost use Rattle.std.specs.Prelude.{string_bytes};
ghost use Rattle.std.specs.Char.{is_ascii_digit};
ghost use Rattle.dap_words.specs.Runs.{some_of};
ghost use Rattle.dap_words.specs.Long.{shortened, long};

/// The least number of hexadecimal digits that are replaced.
const LONG: usize = 6;

/// Replaces each run of six or more hexadecimal digits that has a decimal digit by one `0`. Does
/// not allocate.
pub fn long(text: String) -> String
    ensures { string_bytes result ≡ long (string_bytes text) }
{
    let mut bytes = text.into_bytes();
    let kept = shorten_runs(&mut bytes);
    bytes.truncate(kept);
    String::from_utf8(bytes).unwrap()
}

// Returns the length of the result, which is a prefix of the bytes.
fn shorten_runs(bytes: &mut [u8]) -> usize
    ensures kept { take result bytes.new ≡ long bytes.old }
    ensures len { result ≤ length bytes.old }
{
    let mut start = 0;
    let mut kept = 0;
    let mut decimal = false;
    for i in 0..bytes.len() {
        let byte = bytes[i];
        if byte.is_ascii_hexdigit() {
            decimal = is_decimal(decimal, byte);
            bytes[kept] = byte;
            kept += 1;
        } else {
            kept = end_run(bytes, start, kept, decimal);
            bytes[kept] = byte;
            kept += 1;
            start = kept;
            decimal = false;
        }
    }
    end_run(bytes, start, kept, decimal)
}

// Returns whether the run has a decimal digit, with this byte.
fn is_decimal(decimal: bool, byte: u8) -> bool
    ensures { result ≡ (decimal || is_ascii_digit byte) }
{
    decimal || byte.is_ascii_digit()
}

// Shortens the run of hexadecimal digits from `start` to `end`. Returns its new end.
fn end_run(bytes: &mut [u8], start: usize, end: usize, decimal: bool) -> usize
    requires begun { start ≤ end }
    requires within { end ≤ length bytes.old }
    requires digit { decimal ≡ some_of is_ascii_digit (drop start (take end bytes.old)) }
    ensures run { take result bytes.new
        ≡ take start bytes.old ++ shortened (drop start (take end bytes.old)) }
    ensures rest { drop end bytes.new ≡ drop end bytes.old }
    ensures len { result ≤ end }
{
    if end - start >= LONG && decimal {
        bytes[start] = b'0';
        start + 1
    } else {
        end
    }
}
