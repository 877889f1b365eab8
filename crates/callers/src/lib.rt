//! Five examples that call the library as a user would. The contract of each one states a result
//! that is proved from the contracts of the library. `docs/LIBRARY.md` shows all five.
#![tactic(auto)]

mod frame_and_back;
mod golden_file;
mod judged_pieces;
mod same_session;
mod told_frames;

pub use frame_and_back::write_and_read;
pub use golden_file::{holds_to, make_golden};
pub use judged_pieces::{Arriving, judge};
pub use same_session::are_same;
pub use told_frames::{NoFrames, Place, tell_frames};
