//! Creates the text of a golden file.
ghost use Rattle.std.specs.Prelude.{◌≡◌, ◌↔◌, IfErr, IfOk, IsTrue, List, ℕ};
ghost use Rattle.dap_input.specs.Limits.{AreSound};
ghost use Rattle.dap_normalise.specs.NormalSession.{IsNormalSession};
ghost use Rattle.dap_golden.specs.Golden.{IsGolden, IsGoldenOf, IsRecordingOf};
ghost use Rattle.dap_golden.specs.Golden.{IsRefusedGolden, mask_given, mode_given};
ghost use Rattle.dap_golden.specs.GoldenFiles.{IsNormalText};
ghost use Rattle.dap_golden.specs.GoldenSteps.{IsNormalBy, RefusesGolden, RefusesNormal};
ghost use Rattle.dap_golden.specs.GoldenSteps.{RefusesTrace, session_of};
ghost use Rattle.dap_golden.specs.TraceHead.{IsTraceHead};

use crate::fault::GoldenRefused;
use crate::trace_head::is_trace;
use dap_device::MemorySource;
use dap_input::{Limits, Refused};
use dap_mask::MaskRules;
use dap_normalise::{Checked, NormalSession, normalise_session};
use dap_record::record;
use dap_rename::Mode;
use dap_rules::{ApplyRefused, TextSink, is_out_of_memory, mode_by, normalise_by_rules};
use std::alloc::Global;

/// The text of a golden file, and the number of its records.
#[derive(Debug, Drop)]
pub struct GoldenText {
    pub bytes: Vec<u8>,
    pub records: u64,
}

/// Records a trace.
fn record_trace(alloc: Global, trace: &[u8], limits: Limits) -> Result<Vec<u8>, GoldenRefused>
    requires limits { AreSound limits }
    requires trace { IsTraceHead trace.now }
    ensures ok { IfOk result (λ recording. IsRecordingOf limits trace.now recording.items) }
    ensures err { IfErr result (RefusesTrace limits trace.now) }
{
    let mut reader = MemorySource::new(trace);
    let mut writer = TextSink::new(alloc);
    match record(alloc, &mut reader, &mut writer, limits) {
        Ok(()) => Ok(writer.into_bytes()),
        Err(refused) if is_out_of_memory(refused) => Err(GoldenRefused::Memory),
        Err(refused) => Err(GoldenRefused::Trace(refused)),
    }
}

/// Returns the recording of an input. An input that is not a trace is its own recording.
///
/// # Errors
///
/// - `Trace`: the trace was rejected, or ends inside a piece or a frame.
/// - `Memory`: an allocation failed. The input is a trace.
pub fn recording_of(alloc: Global, input: Vec<u8>, limits: Limits) -> Result<Vec<u8>, GoldenRefused>
    requires { AreSound limits }
    ensures ok { IfOk result (λ recording. IsRecordingOf limits input.items recording.items) }
    ensures err { IfErr result (RefusesTrace limits input.items) }
{
    if is_trace(input.as_slice()) {
        record_trace(alloc, input.as_slice(), limits)
    } else {
        Ok(input)
    }
}

/// Normalises a recording. If there are rules, masks it before that, puts it in order if some of
/// the rules are for the order, and replaces the ids that the rules declare by names.
fn normalise_recording(
    alloc: Global,
    recording: Vec<u8>,
    rules: Option<&MaskRules>,
    limits: Limits,
    mode: Mode,
) -> Result<NormalSession, GoldenRefused>
    requires { AreSound limits }
    ensures ok { IfOk result (IsNormalBy limits mode (mask_given rules.entry) recording.items) }
    ensures err { IfErr result
        (RefusesNormal limits mode (mask_given rules.entry) recording.items) }
{
    let Some(rules) = rules else {
        return session_of(normalise_session(alloc, recording.as_slice(), limits, mode));
    };
    match normalise_by_rules(alloc, rules, recording, limits, mode) {
        Ok(session) => Ok(session),
        Err(ApplyRefused::Mask(refused)) => Err(GoldenRefused::Mask(refused)),
        Err(ApplyRefused::Order(refused)) => Err(GoldenRefused::Session(refused)),
        Err(ApplyRefused::ReadFault) => unreachable!(),
        Err(ApplyRefused::Memory) => Err(GoldenRefused::Memory),
    }
}

/// Returns the result of normalising a session, with its step if it is an error.
fn session_of(normal: Result<NormalSession, Refused>) -> Result<NormalSession, GoldenRefused>
    ensures { result ≡ session_of normal }
{
    match normal {
        Ok(session) => Ok(session),
        Err(Refused::Memory) => Err(GoldenRefused::Memory),
        Err(refused) => Err(GoldenRefused::Session(refused)),
    }
}

/// Returns whether each request has a response.
fn are_answered(counts: Checked) -> bool
    ensures { IsTrue result ↔ ((counts.client_open ≡ 0) × (counts.adapter_open ≡ 0)) }
{
    counts.client_open == 0 && counts.adapter_open == 0
}

/// Returns the golden text of a session. It must have at least one record. Each request
/// must have a response, unless `allow_open` is set.
fn golden_of(session: NormalSession, allow_open: bool) -> Result<GoldenText, GoldenRefused>
    ensures ok { IfOk result (λ text. (limits : Limits) (mode : Mode) (recording : List ℕ)
        → IsNormalSession limits mode recording session
        → IsGoldenOf limits mode allow_open recording text) }
    ensures err { IfErr result (λ refused. (limits : Limits) (mode : Mode) (recording : List ℕ)
        → IsNormalSession limits mode recording session
        → RefusesGolden limits mode allow_open recording refused) }
{
    let NormalSession { bytes, counts } = session;
    if counts.records == 0 {
        return Err(GoldenRefused::NoRecords);
    }
    if !allow_open && !are_answered(counts) {
        let open = Refused::Incomplete(counts.client_open, counts.adapter_open);
        return Err(GoldenRefused::Session(open));
    }
    Ok(GoldenText {
        bytes,
        records: counts.records,
    })
}

/// Returns the mode in which the ids of the session are numbered: that of the caller, unless there
/// are rules that want another.
pub(crate) fn mode_given(rules: Option<&MaskRules>, mode: Mode) -> Mode
    ensures { result ≡ mode_given (mask_given rules.entry) mode }
{
    match rules {
        Some(rules) => mode_by(rules, mode),
        None => mode,
    }
}

/// Creates the text of a golden file from a trace or a recording in memory.
///
/// An input that starts with a marker, decimal digits and LF is a trace, and is recorded. Any other
/// input is a recording. If there are rules, the recording is masked, put in order if some of the
/// rules are for the order, and names replace the ids that the rules declare. The resulting session
/// is checked in the same way as by [`check`](dap_normalise::check), and normalised. It must have
/// at least one record. Each request must have a response, unless `allow_open` is set.
///
/// If the rules have the line `per-stop`, the mode is `PerStop`.
///
/// The input is not copied. Buffers the recording of a trace, and the golden text. If there are
/// rules, the input is dropped once its masked messages are read.
///
/// # Errors
///
/// The error of the first step that fails:
///
/// - `Trace`: the trace was rejected, or ends inside a piece or a frame.
/// - `Mask`: the rules cannot mask a record of the recording.
/// - `Session`: the masked recording was rejected, or its text in order or with names was, or
///   `allow_open` is not set and a request has no response (`Incomplete`).
/// - `NoRecords`: the masked recording has no records.
/// - `Memory`: an allocation failed.
pub fn golden_text(
    alloc: Global,
    input: Vec<u8>,
    rules: Option<&MaskRules>,
    allow_open: bool,
    limits: Limits,
    mode: Mode,
) -> Result<GoldenText, GoldenRefused>
    requires limits { AreSound limits }

    // The text is that of the input with its rules, in the mode that they want. An error names the
    // first step that fails.
    ensures ok { IfOk result (IsGolden limits (mode_given (mask_given rules.entry) mode)
        (mask_given rules.entry) allow_open input.items) }
    ensures err { IfErr result (IsRefusedGolden limits (mode_given (mask_given rules.entry) mode)
        (mask_given rules.entry) allow_open input.items) }

    // The text satisfies the precondition of `compare_golden` in that mode.
    ensures normal { IfOk result (λ text. IsNormalText limits
        (mode_given (mask_given rules.entry) mode) text.bytes.items) }
{
    let wanted = mode_given(rules, mode);
    let recording = recording_of(alloc, input, limits)?;
    let session = normalise_recording(alloc, recording, rules, limits, wanted)?;
    golden_of(session, allow_open)
}
