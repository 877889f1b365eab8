//! Scans a line of a header part, byte by byte.

ghost use Rattle.std.specs.Prelude.{◌≡◌, ◌<◌, slice_index_or};
ghost use Rattle.dap_frame.specs.LineScan.{line_step, length_name};

use crate::byte_class::{is_name_byte, is_value_byte};
use crate::length_scan::LengthScan;

/// The state of the scan of a line.
#[derive(Clone, Copy)]
pub enum LineScan {
    /// The number of bytes of a name so far, which are a prefix of `Content-Length`.
    Name(usize),
    /// Bytes of another name.
    OtherName,
    /// The value of `Content-Length`.
    Length(LengthScan),
    /// The value of another field.
    OtherValue,
    /// Not a field line, whatever follows.
    NoField,
}

fn length_name_at(index: usize) -> u8
    requires { index < 14 }
    ensures { result ≡ slice_index_or length_name index 0 }
{
    b"content-length"[index]
}

impl LineScan {
    /// Returns the state after one more byte of the line.
    pub fn step(self, byte: u8) -> LineScan
        ensures { result ≡ line_step self byte }
    {
        match self {
            LineScan::Name(count) => {
                if byte == b':' {
                    if count == 0 {
                        LineScan::NoField
                    } else if count == 14 {
                        LineScan::Length(LengthScan::Blank)
                    } else {
                        LineScan::OtherValue
                    }
                } else if !is_name_byte(byte) {
                    LineScan::NoField
                } else if count < 14 && byte.eq_ignore_ascii_case(&length_name_at(count)) {
                    LineScan::Name(count + 1)
                } else {
                    LineScan::OtherName
                }
            }
            LineScan::OtherName => {
                if byte == b':' {
                    LineScan::OtherValue
                } else if is_name_byte(byte) {
                    LineScan::OtherName
                } else {
                    LineScan::NoField
                }
            }
            LineScan::Length(value) => {
                if is_value_byte(byte) {
                    LineScan::Length(value.step(byte))
                } else {
                    LineScan::NoField
                }
            }
            LineScan::OtherValue => {
                if is_value_byte(byte) {
                    LineScan::OtherValue
                } else {
                    LineScan::NoField
                }
            }
            LineScan::NoField => LineScan::NoField,
        }
    }
}
