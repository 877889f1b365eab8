//! Compares a session with its golden file, or creates or updates the golden file.
ghost use Rattle.std.specs.Prelude.{◌≡◌, ◌↔◌, ◌+◌, ◌<◌, ◌≤◌, ◌^◌, None, IfErr, IfOk, length};
ghost use Rattle.dap_device.specs.{Crash.LeavesOnly, Replacing.IsOldOrNew};
ghost use Rattle.dap_input.specs.Limits.{AreSound};
ghost use Rattle.dap_golden.specs.{Golden.{mask_given, mode_given}, GoldenFiles.IsNormalText};
ghost use Rattle.dap_golden.specs.{GoldenSteps.bytes_of, GoldenUpdates.{Answers, Compares, Finds}};
ghost use Rattle.dap_golden.specs.GoldenUpdates.{HasFile, HasNoFile, HasText, MayBeLeft, Updates};

use crate::comparing::GoldenVerdict;
use crate::fault::GoldenRefused;
use crate::forms::{GoldenBytes, GoldenForm, compare_in, written_in};
use crate::golden::{GoldenText, golden_text, mode_given};
use crate::trace_head::can_become_golden;
use dap_device::{ReadFault, ReplaceFault, Replaceable, replace};
use dap_input::{Limits, Refused};
use dap_mask::MaskRules;
use dap_rename::Mode;
use dap_transcript::TranscriptFault;
use std::alloc::Global;

/// The options of `golden`.
#[derive(Clone, Copy, Debug, PartialEq, Eq)]
pub struct GoldenRequest {
    /// Whether to write the golden file if it differs or does not exist. If not set, the session is
    /// compared with it.
    pub update: bool,
    /// Whether to accept a session in which a request has no response.
    pub allow_open: bool,
    /// The form in which the golden file is written. See [`GoldenForm::of_name`].
    pub form: GoldenForm,
    /// The mode in which the ids of the session are numbered, unless the rules have the line
    /// `per-stop`.
    pub mode: Mode,
}

/// The result of `golden`.
#[derive(Debug, Drop)]
pub enum GoldenDone {
    /// The session was compared with the golden file.
    Compared(GoldenVerdict),
    /// The golden file already had these bytes.
    Unchanged,
    /// The golden file was created or replaced. The text of the session has this many records.
    Written { records: u64 },
}

/// Why `golden` stopped.
#[derive(Clone, Copy, Debug, PartialEq, Eq)]
pub enum GoldenStop {
    /// The input has no golden text.
    Input(GoldenRefused),
    /// The golden file does not exist.
    Missing,
    /// The golden file could not be read.
    GoldenUnread,
    /// The golden file is longer than the limit for an input.
    GoldenTooLong,
    /// The golden file is read as a transcript, and is not one. The cause is never `Memory`.
    Transcript(TranscriptFault),
    /// The golden file does not represent an accepted recording.
    Golden(Refused),
    /// The golden file is not empty, and starts neither like a recording nor like a transcript. So
    /// it is not replaced.
    NotRecording,
    /// The transcript of the session is longer than the limit for an input.
    TranscriptTooLong,
    /// The golden file could not be written.
    Unwritten(ReplaceFault),
    /// An allocation failed.
    Memory,
}

/// Creates the golden text of an input.
fn text_of(
    alloc: Global,
    input: Vec<u8>,
    rules: Option<&MaskRules>,
    request: GoldenRequest,
    limits: Limits,
) -> Result<GoldenText, GoldenStop>
    requires { AreSound limits }
    ensures ok { IfOk result (HasText limits (mask_given rules.entry) request input.items) }
    ensures err { IfErr result (HasNoFile limits (mask_given rules.entry) request input.items) }
    ensures normal { IfOk result (λ text. IsNormalText limits
        (mode_given (mask_given rules.entry) request.mode) text.bytes.items) }
    ensures short { IfOk result (λ text. length text.bytes.items ≤ limits.input) }
{
    match golden_text(
        alloc,
        input,
        rules,
        request.allow_open,
        limits,
        request.mode,
    ) {
        Ok(text) => Ok(text),
        Err(GoldenRefused::Memory) => Err(GoldenStop::Memory),
        Err(refused) => Err(GoldenStop::Input(refused)),
    }
}

/// Creates the golden text of an input, and the bytes of its golden file.
fn file_of(
    alloc: Global,
    input: Vec<u8>,
    rules: Option<&MaskRules>,
    request: GoldenRequest,
    limits: Limits,
) -> Result<GoldenBytes, GoldenStop>
    requires { AreSound limits }
    ensures ok { IfOk result (λ made.
        HasFile limits (mask_given rules.entry) request input.items made.text (bytes_of made)) }
    ensures err { IfErr result (HasNoFile limits (mask_given rules.entry) request input.items) }
    ensures normal { IfOk result (λ made. IsNormalText limits
        (mode_given (mask_given rules.entry) request.mode) made.text.bytes.items) }
    ensures short { IfOk result (λ made. length (bytes_of made) ≤ limits.input) }
{
    let text = text_of(alloc, input, rules, request, limits)?;
    let mode = mode_given(rules, request.mode);
    written_in(alloc, request.form, text, limits, mode)
}

/// Compares the golden file with the text of the session.
fn compare_file<F: Replaceable>(
    alloc: Global,
    file: &mut F,
    made: &GoldenBytes,
    form: GoldenForm,
    limits: Limits,
    mode: Mode,
) -> Result<GoldenDone, GoldenStop>
    requires limits { AreSound limits }
    requires text { IsNormalText limits mode made.now.text.bytes.items }
    requires few { F.failures file.old < 2 ^ 62 }
    ensures compares { Compares F.Replaceable file.old file.new limits mode form
        made.now.text.bytes.items (bytes_of made.now) result }
    ensures any_moment { F.is_known file.old
        → LeavesOnly F.moment F.left_since (F.may_leave file.old) file.old file.new }
{
    let golden = match file.read(alloc, limits.input) {
        Ok(Some(golden)) => golden,
        Ok(None) => return Err(GoldenStop::Missing),
        Err(ReadFault::Failed) => return Err(GoldenStop::GoldenUnread),
        Err(ReadFault::TooLong) => return Err(GoldenStop::GoldenTooLong),
        Err(ReadFault::Memory) => return Err(GoldenStop::Memory),
    };
    match compare_in(alloc, form, golden, made, limits, mode) {
        Ok(verdict) => Ok(GoldenDone::Compared(verdict)),
        Err(stop) => Err(stop),
    }
}

/// Returns whether the golden file has these bytes. If not, it may be replaced by them.
fn has_bytes<F: Replaceable>(
    alloc: Global,
    file: &mut F,
    bytes: &[u8],
    limits: Limits,
) -> Result<bool, GoldenStop>
    requires short { length bytes.now ≤ limits.input }
    requires few { F.failures file.old < 2 ^ 62 }
    ensures finds { Finds F.Replaceable file.old file.new limits.input bytes.now result }
    ensures few { F.failures file.new ≤ F.failures file.old + 1 }
    ensures known { F.is_known file.new ↔ F.is_known file.old }
    ensures temporary { F.is_known file.old → F.temporary file.new ≡ F.temporary file.old }
    ensures any_moment { F.is_known file.old
        → LeavesOnly F.moment F.left_since (F.may_leave file.old) file.old file.new }
{
    match file.read(alloc, limits.input) {
        Ok(None) => Ok(false),
        Ok(Some(found)) => {
            let has_bytes = found.as_slice() == bytes;
            if has_bytes || can_become_golden(found.as_slice()) {
                Ok(has_bytes)
            } else {
                Err(GoldenStop::NotRecording)
            }
        }
        Err(ReadFault::Failed) => Err(GoldenStop::GoldenUnread),
        Err(ReadFault::TooLong) => Err(GoldenStop::GoldenTooLong),
        Err(ReadFault::Memory) => Err(GoldenStop::Memory),
    }
}

/// Writes these bytes to the golden file, unless the file already has them or may not be replaced.
/// The text of the session has this many records.
fn update_file<F: Replaceable>(
    alloc: Global,
    file: &mut F,
    bytes: &[u8],
    records: u64,
    limits: Limits,
) -> Result<GoldenDone, GoldenStop>
    requires short { length bytes.now ≤ limits.input }
    requires few { F.failures file.old < 2 ^ 61 }
    requires none { F.is_known file.old → F.temporary file.old ≡ None }
    ensures updates { Updates F.Replaceable file.old file.new limits.input bytes.now records
        result }
    ensures any_moment { F.is_known file.old
        → LeavesOnly F.moment F.left_since (IsOldOrNew F.Replaceable file.old bytes.now)
        file.old file.new }
{
    if has_bytes(alloc, file, bytes, limits)? {
        return Ok(GoldenDone::Unchanged);
    }
    match replace(file, bytes) {
        Ok(()) => Ok(GoldenDone::Written { records }),
        Err(fault) => Err(GoldenStop::Unwritten(fault)),
    }
}

/// Compares a session with its golden file, or creates or updates the golden file.
///
/// The input is a trace or a recording, as [`golden_text`] describes. The golden file is written in
/// the form of the request. It is read as a transcript if it starts with the head of a record, as a
/// recording if it starts like one, and otherwise in the form of the request. A file in the other
/// form is compared by its messages; it is `NotNormal` if the session is the same.
///
/// With `update`, the golden file is replaced as a whole, as [`replace`] describes, unless it
/// already has the bytes. A file that is neither empty nor starts like a recording or a transcript
/// is not replaced: it is not a golden file.
///
/// # Errors
///
/// - `Input`: the input has no golden text. The golden file is not opened.
/// - `TranscriptTooLong`: the transcript of the session has more than `limits.input` bytes. The
///   golden file is not opened.
/// - `Missing`: the golden file does not exist, and `update` is not set.
/// - `GoldenUnread`: a read of the golden file failed.
/// - `GoldenTooLong`: the golden file has more than `limits.input` bytes.
/// - `Transcript`: the golden file is read as a transcript, and is not one. `update` is not set.
/// - `Golden`: the golden file, or the recording of its transcript, was rejected. `update` is not
///   set.
/// - `NotRecording`: the golden file is not empty and starts neither like a recording nor like a
///   transcript, and `update` is set.
/// - `Unwritten`: the golden file could not be replaced.
/// - `Memory`: an allocation failed.
pub fn golden_file<F: Replaceable>(
    alloc: Global,
    input: Vec<u8>,
    rules: Option<&MaskRules>,
    file: &mut F,
    request: GoldenRequest,
    limits: Limits,
) -> Result<GoldenDone, GoldenStop>
    requires limits { AreSound limits }
    requires few { F.failures file.old < 2 ^ 61 }
    requires none { F.is_known file.old → F.temporary file.old ≡ None }

    // The result is determined by the text of the input, in the mode that the rules want and the
    // form of the request, and the golden file. The golden file is written only on an update, after
    // the input was checked.
    ensures outcome { Answers F.Replaceable limits (mask_given rules.entry) request input.items
        file.old file.new result }

    // A crash, the end of the process or a loss of power may happen at any moment. It leaves a
    // content that it could have left before the call, or, on an update, the complete golden file
    // of the session.
    ensures any_moment { F.is_known file.old
        → LeavesOnly F.moment F.left_since (MayBeLeft F.Replaceable limits (mask_given rules.entry)
        request input.items file.old) file.old file.new }
{
    let made = file_of(alloc, input, rules, request, limits)?;
    if request.update {
        update_file(alloc, file, made.as_slice(), made.text.records, limits)
    } else {
        let mode = mode_given(rules, request.mode);
        compare_file(alloc, file, &made, request.form, limits, mode)
    }
}
