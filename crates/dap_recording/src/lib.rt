//! Recordings of Debug Adapter Protocol sessions, and the traces that they are made from. Both
//! formats are this project's own.
//!
//! A recording is a list of records: a marker, `>` for the client and `<` for the adapter, a frame
//! of the base protocol, and LF. A [`RecordReader`] reads records from the chunks of a recording,
//! and [`write_record`] writes one. `specs/Recording.antt` defines recordings and their errors.
//!
//! A trace is the data on the wire, cut anywhere: a list of pieces, each with the marker of its
//! side, the number of its bytes, LF, and the bytes. A [`TraceReader`] reads it
//! (`specs/Trace.antt`), and a [`Recorder`] makes a recording of the frames in its pieces
//! (`specs/RecordedTraces.antt`).
//!
//! [`laws`] has the theorems on these definitions.
#![tactic(auto)]

mod count;
mod fed_record;
mod fed_trace;
pub mod laws;
mod marker;
mod one_side;
mod record;
mod record_fault;
mod record_reader;
mod record_state;
mod recorder;
mod recorder_fault;
mod trace_fault;
mod trace_reader;
mod trace_state;
mod write;

pub use dap_tree::Side;
pub use fed_record::FedRecord;
pub use fed_trace::{FedTrace, TracePart};
pub use record::Record;
pub use record_fault::{RecordCause, RecordFault};
pub use record_reader::RecordReader;
pub use recorder::Recorder;
pub use recorder_fault::RecorderFault;
pub use trace_fault::{TraceCause, TraceFault};
pub use trace_reader::TraceReader;
pub use write::write_record;
