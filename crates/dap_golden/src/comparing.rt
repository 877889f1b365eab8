//! Compares a golden file with the text of a later session.
ghost use Rattle.std.specs.Prelude.{◌≡◌, ◌↔◌, IfErr, IfOk, Ok};
ghost use Rattle.dap_input.specs.Limits.{AreSound};
ghost use Rattle.dap_golden.specs.GoldenFiles.{IsGoldenFault, IsGoldenVerdict, IsNormalText};
ghost use Rattle.dap_golden.specs.GoldenFiles.{IsNotNormal};

use crate::fault::GoldenFault;
use crate::golden::GoldenText;
use dap_compare::{CompareRefused, Which};
use dap_device::MemorySource;
use dap_diff::{Diff, diff};
use dap_input::Limits;
use dap_rename::Mode;
use std::alloc::Global;

/// The result of comparing a golden file with the text of a later session.
#[derive(Debug, Drop)]
pub enum GoldenVerdict {
    /// The golden file has exactly the bytes that an update would write.
    Same,
    /// The first record in which the sessions differ is this one. The lines are those of [`diff`],
    /// with the golden file first.
    Differs { record: u64, lines: Vec<u8> },
    /// The sessions are the same except for ids, but an update would write other bytes: someone
    /// edited the golden file, an older version wrote it, or it has the other form.
    NotNormal,
}

/// Compares a golden file with the text of a later session, made under the same limits and in the
/// same mode.
///
/// # Errors
///
/// - `Golden`: the golden file was rejected at a record, and no record before it differs.
/// - `Memory`: an allocation failed.
pub fn compare_golden(
    alloc: Global,
    golden: &[u8],
    text: &GoldenText,
    limits: Limits,
    mode: Mode,
) -> Result<GoldenVerdict, GoldenFault>
    requires limits { AreSound limits }
    requires text { IsNormalText limits mode text.now.bytes.items }

    // `Same` is returned if and only if the golden file has exactly these bytes. An update would
    // then leave it unchanged.
    ensures same { (result ≡ Ok GoldenVerdict.Same) ↔ (golden.now ≡ text.now.bytes.items) }

    // If the comparison returns a verdict, the verdict is `NotNormal` if and only if the golden
    // file is another recording with this normal text.
    ensures not_normal { IfOk result (λ verdict. (verdict ≡ GoldenVerdict.NotNormal)
        ↔ IsNotNormal limits mode golden.now text.now.bytes.items) }

    // The meaning of each verdict and of each error.
    ensures verdict { IfOk result (IsGoldenVerdict limits mode golden.now text.now.bytes.items) }
    ensures err { IfErr result (IsGoldenFault limits mode golden.now text.now.bytes.items) }
{
    let text = text.bytes.as_slice();
    if golden == text {
        return Ok(GoldenVerdict::Same);
    }
    let mut reader_a = MemorySource::new(golden);
    let mut reader_b = MemorySource::new(text);
    match diff(alloc, &mut reader_a, &mut reader_b, limits, mode) {
        Ok(Diff::Same) => Ok(GoldenVerdict::NotNormal),
        Ok(Diff::Differ { record, lines }) => Ok(GoldenVerdict::Differs { record, lines }),
        Err(CompareRefused::Input(Which::A, refused)) => Err(GoldenFault::Golden(refused)),
        Err(CompareRefused::Input(Which::B, _)) => unreachable!(),
        Err(CompareRefused::Memory) => Err(GoldenFault::Memory),
    }
}
