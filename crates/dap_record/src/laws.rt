//! Theorems about traces, for all byte strings. Each function is empty: calling it makes its
//! clauses available to the caller's proof.
ghost use Rattle.dap_record.specs.Tracing.{TracesHaveOneOutcome, TraceRefusalStays};

/// States that `record` has exactly one outcome for every trace: it records exactly one list of
/// messages, or rejects the trace for exactly one reason after exactly one list of messages. A
/// rejection remains when more bytes follow, unless the trace only ended too early.
pub fn trace_has_one_outcome()
    ensures outcome { TracesHaveOneOutcome }
    ensures refusal_stays { TraceRefusalStays }
{}
