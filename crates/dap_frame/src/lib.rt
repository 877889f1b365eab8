//! Frames of the base protocol of the Debug Adapter Protocol: a header part with the length of a
//! content, and the content.
//!
//! A [`Framer`] reads frames from the chunks of a stream, and [`write_frame`] writes one.
//! `specs/Frame.antt` defines frames and their errors. [`laws`] has the theorems on these
//! definitions.
//! `specs/Grammar.antt` defines grammars whose items are read from the start of a byte string, and
//! streams of items. Records and traces have such grammars too.
#![tactic(auto)]

mod byte_class;
mod content;
mod fault;
mod fed;
mod framer;
mod header_scan;
pub mod laws;
mod length_scan;
mod limits;
mod line_scan;
mod plain_length;
mod progress;
mod write;

pub use byte_class::{is_name_byte, is_value_byte};
pub use content::Content;
pub use fault::FrameFault;
pub use fed::Fed;
pub use framer::Framer;
pub use limits::FrameLimits;
pub use write::write_frame;
