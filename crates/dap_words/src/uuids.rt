//! UUIDs.
ghost use Rattle.std.specs.Prelude.{◌≡◌, string_bytes};
ghost use Rattle.std.specs.Char.{is_ascii_hexdigit};
ghost use Rattle.dap_words.specs.Runs.{begins_with};
ghost use Rattle.dap_words.specs.Uuids.{nil_uuid, fits_at, begins_in_form, uuid};
ghost use Rattle.dap_words.specs.Placed.{place_at};

/// The nil UUID.
const NIL: [u8; 36] = *b"00000000-0000-0000-0000-000000000000";

/// Replaces each UUID by the nil UUID. A UUID that is part of a longer run of hexadecimal digits is
/// left unchanged. Does not allocate.
pub fn uuid(text: String) -> String
    ensures { string_bytes result ≡ uuid (string_bytes text) }
{
    let mut bytes = text.into_bytes();
    clear_uuids(&mut bytes);
    String::from_utf8(bytes).unwrap()
}

fn clear_uuids(bytes: &mut [u8])
    ensures { bytes.new ≡ uuid bytes.old }
{
    let mut place = 36;
    let mut after_digit = false;
    for i in 0..bytes.len() {
        place = place_at(place, after_digit, &bytes[i..]);
        if place < 36 {
            bytes[i] = NIL[place];
            place += 1;
            after_digit = true;
        } else {
            after_digit = bytes[i].is_ascii_hexdigit();
        }
    }
}

// Returns the place of the first byte in a UUID, or 36 if it is not in a UUID.
fn place_at(place: usize, after_digit: bool, bytes: &[u8]) -> usize
    ensures { result ≡ place_at place after_digit bytes.now }
{
    if place == 36 && !after_digit && begins_in_form(bytes) {
        0
    } else {
        place
    }
}

fn begins_in_form(bytes: &[u8]) -> bool
    ensures { result ≡ begins_in_form nil_uuid bytes.now }
{
    for (i, form) in NIL.iter().enumerate() {
        if i >= bytes.len() {
            return false;
        }
        if !fits_at(*form, bytes[i]) {
            return false;
        }
    }
    !begins_with_digit(&bytes[36..])
}

fn fits_at(form: u8, byte: u8) -> bool
    ensures { result ≡ fits_at form byte }
{
    if form == b'-' {
        byte == b'-'
    } else {
        byte.is_ascii_hexdigit()
    }
}

fn begins_with_digit(bytes: &[u8]) -> bool
    ensures { result ≡ begins_with is_ascii_hexdigit bytes.now }
{
    match bytes {
        [] => false,
        [first, ..] => first.is_ascii_hexdigit(),
    }
}
