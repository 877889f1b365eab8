//! Runs `check` over the file that a name leads to.
ghost use Rattle.std.specs.Prelude.{◌≡◌, ◌+◌, None};
ghost use Rattle.dap_commands.specs.Reading.{text_in};
ghost use Rattle.dap_host.specs.declared.limits.TheConstants.{LIMITS};
ghost use Rattle.dap_mask.specs.KeptRules.{mask_of};
ghost use Rattle.dapnorm.specs.Checks.{CheckIsRun, ChecksAlone, ChecksByRules};
ghost use Rattle.dapnorm.specs.Desks.{TakesAtMost, empty, here};

use crate::answer::Answer;
use crate::desk::Desk;
use crate::reading::{Unread, read_file};
use crate::rules::given_rules;
use crate::why::Why;
use dap_commands::Name;
use dap_host::{Host, LIMITS, Purpose};
use dap_input::Refused;
use dap_mask::MaskRules;
use dap_normalise::{Checked, check_with};
use dap_rename::Mode;
use dap_rules::{ApplyRefused, mode_by, normalise_by_rules};
use std::alloc::Global;

/// Validates the recording that a name leads to.
fn check_input<'a, H: Host>(
    alloc: Global,
    host: &H,
    complete: bool,
    mode: Mode,
    name: &str,
    desk: &mut Desk<H::Input, H::Output, H::Target>,
) -> Result<Option<Answer<'a>>, Why<'a>>
    requires { desk.old ≡ empty }
    ensures checks { ChecksAlone (here (H.files host.now) H.Input.Source H.Output.Sink
        H.Target.Replaceable) desk.new complete mode name.now result }
    ensures taken { TakesAtMost H.Input.given (LIMITS.input + 1) desk.new.a }
    ensures one { desk.new.b ≡ None }
{
    let input = match host.open(Purpose::Input, name) {
        Ok(input) => input,
        Err(fault) => return Err(Why::Unread(None, Unread::Unopened(fault))),
    };
    let reader = desk.a.insert(input);
    let tables = host.tables(alloc);
    match check_with(alloc, reader, LIMITS, complete, tables, mode) {
        Ok(checked) => Ok(Some(Answer::Accepted(checked))),
        Err(refused) => Err(Why::Input(refused)),
    }
}

/// Validates what the rules make of a recording.
fn check_made(
    alloc: Global,
    rules: &MaskRules,
    recording: Vec<u8>,
    complete: bool,
    mode: Mode,
) -> Result<Checked, ApplyRefused>
    ensures { ChecksByRules (mask_of rules.now) complete mode recording.items result }
{
    let used = mode_by(rules, mode);
    let counts = normalise_by_rules(alloc, rules, recording, LIMITS, used)?.counts;
    if complete && (counts.client_open != 0 || counts.adapter_open != 0) {
        let open = Refused::Incomplete(counts.client_open, counts.adapter_open);
        return Err(ApplyRefused::Order(open));
    }
    Ok(counts)
}

/// Validates the recording that a name leads to, or what rules make of it. The rules are read
/// first. With rules, the input is read whole.
pub(crate) fn run_check<'a, H: Host>(
    alloc: Global,
    host: &H,
    complete: bool,
    mode: Mode,
    name: &str,
    rules: Option<&str>,
    values: &[Name<'_>],
    desk: &mut Desk<H::Input, H::Output, H::Target>,
) -> Result<Option<Answer<'a>>, Why<'a>>
    requires { desk.old ≡ empty }
    ensures run { CheckIsRun (here (H.files host.now) H.Input.Source H.Output.Sink
        H.Target.Replaceable) desk.new complete mode name.now (text_in rules.entry) values.now
        result }
    ensures taken { TakesAtMost H.Input.given (LIMITS.input + 1) desk.new.a }
    ensures one { desk.new.b ≡ None }
{
    let rules = match given_rules(alloc, host, rules, values) {
        Ok(Some(rules)) => rules,
        Ok(None) => return check_input(alloc, host, complete, mode, name, desk),
        Err(why) => return Err(Why::Rules(why)),
    };
    let recording = match read_file(alloc, host, Purpose::Input, name, LIMITS.input, &mut desk.a) {
        Ok(recording) => recording,
        Err(why) => return Err(Why::Unread(None, why)),
    };
    match check_made(alloc, &rules, recording, complete, mode) {
        Ok(checked) => Ok(Some(Answer::Accepted(checked))),
        Err(refused) => Err(Why::Unapplied(None, refused, rules)),
    }
}
