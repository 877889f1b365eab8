//! Reads the token that a string starts with.
ghost use Rattle.std.specs.Prelude.{◌≡◌, ◌≤◌, ◌==◌, ℕ, List, [], ◌∷◌, ◌++◌, length, drop};
ghost use Rattle.std.specs.Prelude.{take_while};
ghost use Rattle.std.specs.Prelude.{not, ◌&&◌, nat_lt, MatchOption, option_map};
ghost use Rattle.std.specs.Char.{is_ascii_digit, is_ascii_hexdigit};
ghost use Rattle.dap_words.specs.Runs.{begins_with, some_of};
ghost use Rattle.dap_words.specs.Long.{is_long};
ghost use Rattle.dap_words.specs.Uuids.{nil_uuid, fits_at, begins_in_form};
ghost use Rattle.dap_tokens.specs.Tokens.{opening, hex_run, starts_hex, name_length, token_length};
ghost use Rattle.dap_tokens.specs.Tokens.{first_token, token_or, token_at, tried};
ghost use Rattle.dap_tokens.specs.Models.{labels_of, token_of};
ghost use Rattle.dap_tokens.specs.Numerals.{numeral_length};

use crate::form::Form;
use crate::labels::Labels;

/// The nil UUID.
pub(crate) const NIL: [u8; 36] = *b"00000000-0000-0000-0000-000000000000";

/// The least number of hexadecimal digits of a token of the form `Long`.
const LONG: usize = 6;

/// The token at the start of a text, which may be a name.
#[derive(Clone, Copy, Debug, PartialEq, Eq, Drop)]
pub struct Token<'l> {
    /// The form of the token. The form of a name is the first form with its label.
    pub form: Form,
    /// The label of the token.
    pub label: &'l str,
    /// The number of bytes of the token.
    pub count: usize,
}

/// Returns the token that `text` starts with, or `None` if it starts with a literal byte. The token
/// is a name with one of the labels, or else a token of a form that has a label. `after_digit` is
/// whether a literal hexadecimal digit comes before. Does not allocate.
pub fn token_at<'l>(labels: &Labels<'l>, after_digit: bool, text: &[u8]) -> Option<Token<'l>>
    ensures { option_map token_of result ≡ token_at (labels_of labels.now) after_digit text.now }
{
    if begins_with_byte(b'<', text) {
        name_at(labels, text)
    } else {
        form_at(labels, after_digit, text)
    }
}

// Returns the name that the text starts with.
fn name_at<'l>(labels: &Labels<'l>, text: &[u8]) -> Option<Token<'l>>
    ensures { option_map token_of result ≡ first_token (labels_of labels.now)
        (λ form label. name_length label text.now)
        (Form.Digits ∷ Form.Hex ∷ Form.Long ∷ Form.Uuid ∷ []) None }
{
    if let Some(name) = name_in(Form::Digits, labels.digits, text) {
        return Some(name);
    }
    if let Some(name) = name_in(Form::Hex, labels.hex, text) {
        return Some(name);
    }
    if let Some(name) = name_in(Form::Long, labels.long, text) {
        return Some(name);
    }
    name_in(Form::Uuid, labels.uuid, text)
}

// Returns the token of a form that the text starts with.
fn form_at<'l>(labels: &Labels<'l>, after_digit: bool, text: &[u8]) -> Option<Token<'l>>
    ensures { option_map token_of result ≡ first_token (labels_of labels.now)
        (λ form label. token_length form after_digit text.now)
        (tried (labels_of labels.now)) None }
{
    if let Some(token) = token_in(Form::Uuid, labels.uuid, after_digit, text) {
        return Some(token);
    }
    if let Some(token) = token_in(Form::Hex, labels.hex, after_digit, text) {
        return Some(token);
    }
    if let Some(token) = token_in(Form::Long, labels.long, after_digit, text) {
        return Some(token);
    }
    if labels.uuid.is_some() {
        None
    } else {
        token_in(Form::Digits, labels.digits, after_digit, text)
    }
}

// Returns the name that the text starts with, if the form has its label.
fn name_in<'l>(form: Form, label: Option<&'l str>, text: &[u8]) -> Option<Token<'l>>
    ensures { option_map token_of result
        ≡ token_or form (option_map (λ t. t.now) label.entry) (λ l. name_length l text.now) None }
{
    let label = label?;
    counted(form, label, name_length(label, text))
}

// Returns the token that the text starts with, if the form has a label.
fn token_in<'l>(
    form: Form,
    label: Option<&'l str>,
    after_digit: bool,
    text: &[u8],
) -> Option<Token<'l>>
    ensures { option_map token_of result ≡ token_or form
        (option_map (λ t. t.now) label.entry)
        (λ l. token_length form after_digit text.now) None }
{
    let label = label?;
    counted(form, label, token_length(form, after_digit, text))
}

// Returns the token of this form with this label, if it has bytes.
fn counted<'l>(form: Form, label: &'l str, count: usize) -> Option<Token<'l>>
    ensures { option_map token_of result ≡ token_or form (Some label.now) (λ l. count) None }
{
    if count == 0 {
        None
    } else {
        Some(Token { form, label, count })
    }
}

/// Returns the number of bytes of the name that `text` starts with, or 0 if it starts with none.
pub(crate) fn name_length(label: &str, text: &[u8]) -> usize
    ensures { result ≡ name_length label.now text.now }
{
    let rest = match after_opening(label, text) {
        None => return 0,
        Some(rest) => rest,
    };
    let digits = numeral_length(rest);
    if digits == 0 {
        0
    } else {
        text.len() - rest.len() + digits + 1
    }
}

// Returns the bytes after the opening of a name, if the text starts with one.
fn after_opening<'t>(label: &str, text: &'t [u8]) -> Option<&'t [u8]>
    ensures { MatchOption result
        ((rest : List ℕ) → text.now ≡ opening label.now ++ rest → ⊥)
        (λ rest. text.now ≡ opening label.now ++ rest.now) }
{
    let text = text.strip_prefix(b"<".as_slice())?;
    let text = text.strip_prefix(label.as_bytes())?;
    text.strip_prefix(b" ".as_slice())
}

// Returns the number of digits of the number that the text starts with, or 0 if it does not start
// with the number of a name and `>`.
fn numeral_length(text: &[u8]) -> usize
    ensures { result ≡ numeral_length text.now }
{
    let digits = digit_count(text);
    if is_closed(digits, text) { digits } else { 0 }
}

// Returns whether the first digits are not none, do not start with 0, and have `>` after them.
fn is_closed(digits: usize, text: &[u8]) -> bool
    requires { digits ≤ length text.now }
    ensures { result ≡ (nat_lt 0 digits && (not (begins_with (λ b. b == 48) text.now)
        && begins_with (λ b. b == 62) (drop digits text.now))) }
{
    digits > 0 && !begins_with_byte(b'0', text) && begins_with_byte(b'>', &text[digits..])
}

fn begins_with_byte(byte: u8, text: &[u8]) -> bool
    ensures { result ≡ begins_with (λ b. b == byte) text.now }
{
    match text {
        [] => false,
        [first, ..] => *first == byte,
    }
}

fn token_length(form: Form, after_digit: bool, text: &[u8]) -> usize
    ensures { result ≡ token_length form after_digit text.now }
{
    match form {
        Form::Whole => text.len(),
        Form::Digits => digit_count(text),
        Form::Hex => hex_length(after_digit, text),
        Form::Long => long_length(after_digit, text),
        Form::Uuid => uuid_length(after_digit, text),
    }
}

fn hex_length(after_digit: bool, text: &[u8]) -> usize
    ensures { result ≡ token_length Form.Hex after_digit text.now }
{
    if !after_digit && starts_hex(text) {
        2 + hex_count(&text[2..])
    } else {
        0
    }
}

fn starts_hex(text: &[u8]) -> bool
    ensures { result ≡ starts_hex text.now }
{
    match text {
        [zero, x, digit, ..] => {
            *zero == b'0' && (*x == b'x' || *x == b'X') && digit.is_ascii_hexdigit()
        }
        _ => false,
    }
}

fn long_length(after_digit: bool, text: &[u8]) -> usize
    ensures { result ≡ token_length Form.Long after_digit text.now }
{
    let digits = hex_count(text);
    if !after_digit && digits >= LONG && has_decimal(&text[..digits]) {
        digits
    } else {
        0
    }
}

fn has_decimal(text: &[u8]) -> bool
    ensures { result ≡ some_of is_ascii_digit text.now }
{
    for byte in text {
        if byte.is_ascii_digit() {
            return true;
        }
    }
    false
}

fn uuid_length(after_digit: bool, text: &[u8]) -> usize
    ensures { result ≡ token_length Form.Uuid after_digit text.now }
{
    if !after_digit && begins_in_form(text) {
        36
    } else {
        0
    }
}

fn begins_in_form(bytes: &[u8]) -> bool
    ensures { result ≡ begins_in_form nil_uuid bytes.now }
{
    for (i, form) in NIL.iter().enumerate() {
        if i >= bytes.len() {
            return false;
        }
        if !fits_at(*form, bytes[i]) {
            return false;
        }
    }
    !begins_with_digit(&bytes[36..])
}

fn fits_at(form: u8, byte: u8) -> bool
    ensures { result ≡ fits_at form byte }
{
    if form == b'-' {
        byte == b'-'
    } else {
        byte.is_ascii_hexdigit()
    }
}

fn begins_with_digit(bytes: &[u8]) -> bool
    ensures { result ≡ begins_with is_ascii_hexdigit bytes.now }
{
    match bytes {
        [] => false,
        [first, ..] => first.is_ascii_hexdigit(),
    }
}

// Returns the number of decimal digits at the start.
pub(crate) fn digit_count(text: &[u8]) -> usize
    ensures { result ≡ length (take_while is_ascii_digit text.now) }
{
    text.iter().take_while(|byte| byte.is_ascii_digit()).count()
}

// Returns the number of hexadecimal digits at the start.
fn hex_count(text: &[u8]) -> usize
    ensures { result ≡ length (hex_run text.now) }
{
    text.iter()
        .take_while(|byte| byte.is_ascii_hexdigit())
        .count()
}
