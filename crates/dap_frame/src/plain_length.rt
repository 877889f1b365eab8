//! Reads the rest of a header part whose only field is `Content-Length`, as most senders write it.

ghost use Rattle.std.specs.Prelude.{◌+◌, IfSome, codes};
ghost use Rattle.dap_frame.specs.Limits.{IsSound};
ghost use Rattle.dap_frame.specs.Progress.{HasEnded};

use crate::limits::FrameLimits;

/// A length and the CR LF CR LF directly after its digits.
#[derive(Clone, Copy)]
pub struct PlainLength {
    /// The number of bytes of both.
    pub used: usize,
    /// The length that the digits state.
    pub content_len: usize,
}

/// Reads the bytes after `Content-Length: ` if they start with 1 to 9 digits and CR LF CR LF.
///
/// Returns `None` for all other bytes and for a length above the limit. The byte-by-byte scan then
/// determines what the header part states.
pub fn plain_length(limits: FrameLimits, text: &[u8]) -> Option<PlainLength>
    requires { IsSound limits }
    ensures { IfSome result (λ plain. HasEnded limits (codes "Content-Length: ") text.now
        (plain.used + 16) plain.content_len plain.used) }
{
    let mut number = 0;
    for (i, byte) in text.iter().enumerate() {
        if !byte.is_ascii_digit() {
            if i == 0 || limits.content < number || !text[i..].starts_with(b"\r\n\r\n") {
                return None;
            }
            return Some(PlainLength {
                used: i + 4,
                content_len: number,
            });
        }
        if i == 9 {
            return None;
        }
        number = number * 10 + usize::from(*byte - b'0');
    }
    None
}
