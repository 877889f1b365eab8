//! The mode in which ids are numbered after rules.
ghost use Rattle.std.specs.Prelude.{◌≡◌};
ghost use Rattle.dap_mask.specs.KeptRules.{mask_of};
ghost use Rattle.dap_rules.specs.Modes.{mode_by};

use dap_mask::MaskRules;
use dap_rename::Mode;

/// Returns the mode in which ids are numbered after these rules: `PerStop` if the rules have the
/// line `per-stop`, and otherwise the mode of the caller.
pub fn mode_by(rules: &MaskRules, mode: Mode) -> Mode
    ensures { result ≡ mode_by (mask_of rules.now) mode }
{
    if rules.per_stop() {
        Mode::PerStop
    } else {
        mode
    }
}
