//! When canonical numbers restart.
ghost use Rattle.std.specs.Prelude.{◌≡◌, cond};
ghost use Rattle.dap_rename.specs.Modes.{is_stopped, stop_in};

use dap_message::{AnyMessage, Kind};

/// When the canonical numbers of ids restart.
///
/// Frame ids and variables references are valid until the debuggee continues, and many adapters
/// restart them at each stop. In both modes, all other ids have one numbering for the recording.
#[derive(Clone, Copy, Debug, PartialEq, Eq, Drop)]
pub enum Mode {
    /// A number has one canonical number in the entire recording.
    Whole,
    /// The canonical numbers of frame ids and variables references restart after each `stopped`
    /// event.
    PerStop,
}

/// Returns whether the canonical numbers of frame ids and variables references restart after the
/// message.
pub(crate) fn begin_again_behind<M: AnyMessage>(mode: Mode, message: &M) -> bool
    ensures { stop_in mode (M.sent message.now) ≡ cond result 1 0 }
{
    match mode {
        Mode::Whole => false,
        Mode::PerStop => is_stopped(message),
    }
}

fn is_stopped<M: AnyMessage>(message: &M) -> bool
    ensures { result ≡ is_stopped (M.sent message.now) }
{
    match message.kind() {
        Kind::Event => message.name() == "stopped",
        Kind::Request | Kind::Response => false,
    }
}
