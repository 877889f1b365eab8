//! Classes of the bytes of a header part.

ghost use Rattle.std.specs.Prelude.{◌≡◌};
ghost use Rattle.dap_frame.specs.Lines as spec;

/// Returns whether the name of a header field may contain a byte.
pub fn is_name_byte(byte: u8) -> bool
    ensures { result ≡ spec.is_name_byte byte }
{
    33 <= byte && byte <= 126 && !(byte == b':')
}

/// Returns whether the value of a header field may contain a byte.
pub fn is_value_byte(byte: u8) -> bool
    ensures { result ≡ spec.is_value_byte byte }
{
    (32 <= byte && byte <= 126) || byte == b'\t'
}

pub fn is_blank(byte: u8) -> bool
    ensures { result ≡ spec.is_blank byte }
{
    byte == b' ' || byte == b'\t'
}
