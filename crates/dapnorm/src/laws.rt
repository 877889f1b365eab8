//! Theorems on inputs, which hold of all bytes. Each function does nothing: a call of it gives its
//! clauses to a proof.
pub use dap_compact::laws::compact_has_one_outcome;
pub use dap_compare::laws::two_recordings_have_one_verdict;
pub use dap_normalise::laws::{
    equal_texts_tell, golden_files_of_the_whole, normal_form_stands, old_golden_files,
    reading_is_bounded, recording_has_one_outcome,
};
pub use dap_record::laws::trace_has_one_outcome;
pub use dap_show::laws::show_has_one_outcome;
