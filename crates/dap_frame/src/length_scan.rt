//! Scans the value of a field `Content-Length`, byte by byte.

ghost use Rattle.std.specs.Prelude.{◌≡◌};
ghost use Rattle.dap_frame.specs.LengthScan.{length_step, length_outcome};

use crate::byte_class::is_blank;
use crate::fault::FrameFault;
use crate::limits::FrameLimits;

/// The state of the scan of a value.
#[derive(Clone, Copy)]
pub enum LengthScan {
    /// Spaces and tabs, or nothing.
    Blank,
    /// The number of digits, and the number that they represent.
    Digits(u8, u64),
    /// Spaces or tabs after the digits of this number.
    Padded(u64),
    /// Not 1 to 10 digits between spaces and tabs.
    Invalid,
}

impl LengthScan {
    /// Returns the state after one more byte of the value.
    pub fn step(self, byte: u8) -> LengthScan
        ensures { result ≡ length_step self byte }
    {
        match self {
            LengthScan::Blank => {
                if is_blank(byte) {
                    LengthScan::Blank
                } else if byte.is_ascii_digit() {
                    LengthScan::Digits(1, u64::from(byte - b'0'))
                } else {
                    LengthScan::Invalid
                }
            }
            LengthScan::Digits(count, number) => {
                if is_blank(byte) {
                    LengthScan::Padded(number)
                } else if byte.is_ascii_digit() && count < 10 && number < 1_000_000_000 {
                    LengthScan::Digits(count + 1, number * 10 + u64::from(byte - b'0'))
                } else {
                    LengthScan::Invalid
                }
            }
            LengthScan::Padded(number) => {
                if is_blank(byte) {
                    LengthScan::Padded(number)
                } else {
                    LengthScan::Invalid
                }
            }
            LengthScan::Invalid => LengthScan::Invalid,
        }
    }

    /// Returns the content's length that the value states if it ends here.
    pub fn outcome(self, limits: FrameLimits) -> Result<usize, FrameFault>
        ensures { result ≡ length_outcome limits self }
    {
        match self {
            LengthScan::Digits(_, number) | LengthScan::Padded(number) => {
                if number <= limits.content as u64 {
                    Ok(number as usize)
                } else {
                    Err(FrameFault::ContentTooLong)
                }
            }
            LengthScan::Blank | LengthScan::Invalid => Err(FrameFault::BadLength),
        }
    }
}
