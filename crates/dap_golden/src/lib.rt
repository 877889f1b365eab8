//! Creates the text of a golden file from a trace or a recording, and compares it with a golden
//! file. A golden file is the text itself, or the transcript of its messages.
#![tactic(auto)]

mod comparing;
mod fault;
mod forms;
mod golden;
pub mod laws;
mod trace_head;
mod updates;

pub use comparing::{GoldenVerdict, compare_golden};
pub use dap_rules::TextSink;
pub use fault::{GoldenFault, GoldenRefused};
pub use forms::GoldenForm;
pub use golden::{GoldenText, golden_text, recording_of};
pub use trace_head::is_trace;
pub use updates::{GoldenDone, GoldenRequest, GoldenStop, golden_file};
