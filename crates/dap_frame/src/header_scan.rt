//! Scans a header part byte by byte, without storing its bytes.

ghost use Rattle.std.specs.Prelude.{◌≡◌, ◌<◌, ℕ, List, [], codes};
ghost use Rattle.dap_frame.specs.Frame.{parsed_length};
ghost use Rattle.dap_frame.specs.Findings.{AreFindings, with_line};
ghost use Rattle.dap_frame.specs.HeaderScan.{header_step, IsScanOf};

use crate::fault::FrameFault;
use crate::length_scan::LengthScan;
use crate::limits::FrameLimits;
use crate::line_scan::LineScan;

/// The findings of the complete lines of a header part.
#[derive(Clone, Copy)]
pub struct Findings {
    /// Whether each line is a field line.
    pub are_fields: bool,
    /// Whether some line is a field `Content-Length`.
    pub has_length: bool,
    /// The content's length or the error, if each line is a field line.
    pub length: Result<usize, FrameFault>,
}

impl Findings {
    /// Returns the findings with one more line.
    fn with(self, limits: FrameLimits, line: LineScan) -> Findings
        ensures { result ≡ with_line limits self line }
    {
        match line {
            LineScan::OtherValue => self,
            LineScan::Length(value) => {
                let length = if self.has_length {
                    Err(FrameFault::TwoLengths)
                } else {
                    value.outcome(limits)
                };
                Findings {
                    are_fields: self.are_fields,
                    has_length: true,
                    length,
                }
            }
            LineScan::Name(_) | LineScan::OtherName | LineScan::NoField => Findings {
                are_fields: false,
                has_length: self.has_length,
                length: self.length,
            },
        }
    }

    /// Returns the content's length or the error, by all the lines.
    pub fn outcome(self) -> Result<usize, FrameFault>
        ensures { (limits : _) (lines : List (List ℕ)) → AreFindings limits lines self
            → result ≡ parsed_length limits lines }
    {
        if self.are_fields {
            self.length
        } else {
            Err(FrameFault::HeaderLine)
        }
    }
}

/// How much of a CR LF CR LF the bytes so far end with.
#[derive(Clone, Copy)]
pub enum EndMark {
    Nothing,
    Cr,
    CrLf,
    CrLfCr,
}

/// The state of an incomplete header part.
#[derive(Clone, Copy)]
pub struct HeaderScan {
    /// The number of bytes so far.
    pub count: usize,
    pub mark: EndMark,
    /// The findings of its complete lines.
    pub findings: Findings,
    /// The current, incomplete line, without a CR that may belong to its end.
    pub line: LineScan,
}

/// The effect of one byte on a header part.
pub enum ScanStep {
    Unfinished(HeaderScan),
    Ended(Findings),
}

impl HeaderScan {
    /// Returns the scan of no bytes.
    pub fn start() -> HeaderScan
        ensures { (limits : _) → IsScanOf limits [] result }
    {
        HeaderScan {
            count: 0,
            mark: EndMark::Nothing,
            findings: Findings {
                are_fields: true,
                has_length: false,
                length: Err(FrameFault::NoLength),
            },
            line: LineScan::Name(0),
        }
    }

    /// Returns the scan of `Content-Length: `, with which each written frame starts.
    pub fn behind_name() -> HeaderScan
        ensures { (limits : _) → IsScanOf limits (codes "Content-Length: ") result }
    {
        HeaderScan {
            count: 16,
            mark: EndMark::Nothing,
            findings: Findings {
                are_fields: true,
                has_length: false,
                length: Err(FrameFault::NoLength),
            },
            line: LineScan::Length(LengthScan::Blank),
        }
    }

    /// Returns the scan after one more byte of the header part.
    pub fn step(self, limits: FrameLimits, byte: u8) -> ScanStep
        requires { self.count < 65536 }
        ensures { result ≡ header_step limits self byte }
    {
        let count = self.count + 1;
        if byte == b'\n' {
            return match self.mark {
                EndMark::Nothing | EndMark::CrLf => ScanStep::Unfinished(HeaderScan {
                    count,
                    mark: EndMark::Nothing,
                    findings: self.findings,
                    line: self.line.step(byte),
                }),
                EndMark::Cr => ScanStep::Unfinished(HeaderScan {
                    count,
                    mark: EndMark::CrLf,
                    findings: self.findings.with(limits, self.line),
                    line: LineScan::Name(0),
                }),
                EndMark::CrLfCr => ScanStep::Ended(self.findings),
            };
        }
        let line = match self.mark {
            EndMark::Nothing | EndMark::CrLf => self.line,
            EndMark::Cr | EndMark::CrLfCr => self.line.step(b'\r'),
        };
        if byte != b'\r' {
            return ScanStep::Unfinished(HeaderScan {
                count,
                mark: EndMark::Nothing,
                findings: self.findings,
                line: line.step(byte),
            });
        }
        let mark = match self.mark {
            EndMark::CrLf => EndMark::CrLfCr,
            EndMark::Nothing | EndMark::Cr | EndMark::CrLfCr => EndMark::Cr,
        };
        ScanStep::Unfinished(HeaderScan {
            count,
            mark,
            findings: self.findings,
            line,
        })
    }
}
