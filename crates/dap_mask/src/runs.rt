//! Runs of bytes at the start of a text.
ghost use Rattle.std.specs.{Prelude.{◌≡◌, ◌≤◌, false, length, option_map, IfSome}, Option.is_some};
ghost use Rattle.dap_mask.specs.Runs.{is_blank, has_class, front, behind, closing, is_closed, gap};
ghost use Rattle.dap_mask.specs.Runs.{is_end};

/// A class of bytes in a rules file.
#[derive(Clone, Copy, Drop)]
pub enum ByteClass {
    /// Spaces, tabs, and carriage returns.
    Blank,
    /// The bytes of a name without quotes: ASCII letters, digits, `_`, `-` and `$`.
    Plain,
    /// All bytes that are not blank.
    Word,
    /// All bytes except a line feed.
    InLine,
}

fn is_blank(byte: u8) -> bool
    ensures { result ≡ is_blank byte }
{
    byte == b' ' || byte == b'\t' || byte == b'\r'
}

fn has_class(class: ByteClass, byte: u8) -> bool
    ensures { result ≡ has_class class byte }
{
    match class {
        ByteClass::Blank => is_blank(byte),
        ByteClass::Plain => {
            byte.is_ascii_alphanumeric() || byte == b'_' || byte == b'-' || byte == b'$'
        }
        ByteClass::Word => !is_blank(byte),
        ByteClass::InLine => byte != b'\n',
    }
}

/// Splits a text after its longest prefix of bytes of a class. Both parts may be empty. Does not
/// allocate.
pub fn split_run(text: &[u8], class: ByteClass) -> (&[u8], &[u8])
    ensures front { result.0.now ≡ front (has_class class) text.now }
    ensures behind { result.1.now ≡ behind (has_class class) text.now }
{
    for (i, byte) in text.iter().enumerate() {
        if !has_class(class, *byte) {
            return text.split_at(i);
        }
    }
    (text, &[])
}

/// Returns the number of bytes up to and including the quote that closes a string; `None` if no
/// quote closes it. The text starts after the opening quote of the string.
pub(crate) fn closing(text: &[u8]) -> Option<usize>
    ensures closed { is_some result ≡ is_closed false text.now }
    ensures value { IfSome result (λ n. n ≡ closing false text.now) }
    ensures within { IfSome result (λ n. n ≤ length text.now) }
{
    let mut escaped = false;
    for (i, byte) in text.iter().enumerate() {
        if *byte == b'"' && !escaped {
            return Some(i + 1);
        }
        escaped = *byte == b'\\' && !escaped;
    }
    None
}

/// Returns the rest after the blanks at the start of a text; `None` if the text does not start with
/// a blank. One or more blanks separate the words of a rule. Does not allocate.
pub fn gap(text: &[u8]) -> Option<&[u8]>
    ensures { option_map (λ r. r.now) result ≡ gap text.now }
{
    let (blanks, rest) = split_run(text, ByteClass::Blank);
    if blanks.is_empty() { None } else { Some(rest) }
}

/// Returns whether the text contains only blanks and perhaps a comment, which starts with `#`.
/// After the last word of a rule, only such a text may follow. Does not allocate.
pub fn is_end(text: &[u8]) -> bool
    ensures { result ≡ is_end text.now }
{
    let (_, rest) = split_run(text, ByteClass::Blank);
    matches!(rest, [] | [b'#', ..])
}
