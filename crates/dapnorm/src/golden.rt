//! Runs `golden` over the files that names lead to.
ghost use Rattle.std.specs.Prelude.{◌≡◌, ◌+◌, ◌<◌, ◌^◌, None, option_map};
ghost use Rattle.dap_golden.specs.Golden.{mask_given};
ghost use Rattle.dap_host.specs.declared.limits.TheConstants.{LIMITS};
ghost use Rattle.dap_mask.specs.KeptRules.{mask_of};
ghost use Rattle.dapnorm.specs.Desks.{TakesAtMost, empty, here};
ghost use Rattle.dapnorm.specs.{Goldens.{GoldenIsRun, IsKept, Replaces}, Streams.input_name};

use crate::answer::Answer;
use crate::desk::Desk;
use crate::reading::read_file;
use crate::rules::given_rules;
use crate::stream::{input_name, text_of};
use crate::why::{Overlap, Why};
use dap_commands::{Golden, Name};
use dap_device::Replaceable;
use dap_golden::{GoldenForm, GoldenRequest, golden_file};
use dap_host::{Host, LIMITS, Purpose};
use dap_mask::MaskRules;
use std::alloc::Global;

/// Returns the rules as a reference.
fn given(rules: &Option<MaskRules>) -> Option<&MaskRules>
    ensures { mask_given result ≡ option_map mask_of rules.now }
{
    match rules {
        Some(rules) => Some(rules),
        None => None,
    }
}

/// Returns which file an update would replace that it reads.
fn replaced<H: Host>(host: &H, golden: &Golden<'_>, name: &str) -> Option<Overlap>
    ensures { Replaces (H.files host.now) golden.now name.now result }
{
    if !golden.update {
        return None;
    }
    if host.are_same(golden.golden.as_str(), name) {
        return Some(Overlap::GoldenAndInput);
    }
    match &golden.rules {
        Some(rules) if host.are_same(golden.golden.as_str(), rules.as_str()) => {
            Some(Overlap::GoldenAndRules)
        }
        _ => None,
    }
}

/// Compares the session of these bytes with the golden file, or makes or renews the golden file.
fn kept<'a, T: Replaceable>(
    alloc: Global,
    golden: &Golden<'a>,
    rules: Option<MaskRules>,
    session: Vec<u8>,
    file: &mut T,
) -> Result<Option<Answer<'a>>, Why<'a>>
    requires few { T.failures file.old < 2 ^ 61 }
    requires none { T.is_known file.old → T.temporary file.old ≡ None }
    ensures { IsKept T.Replaceable golden.now rules session file.old file.new result }
{
    let name = Name::new(golden.golden.as_str());
    let request = GoldenRequest {
        update: golden.update,
        allow_open: golden.open,
        form: GoldenForm::of_name(golden.golden.as_str()),
        mode: golden.mode,
    };
    match golden_file(alloc, session, given(&rules), file, request, LIMITS) {
        Ok(done) => Ok(Some(Answer::Golden(name, done))),
        Err(stop) => Err(Why::Golden(name, stop, rules)),
    }
}

/// Compares a session with its golden file, or makes or renews the golden file. The rules are read
/// first, then the session whole, and then the golden file is found.
pub(crate) fn run_golden<'a, H: Host>(
    alloc: Global,
    host: &H,
    golden: &Golden<'a>,
    values: &[Name<'_>],
    desk: &mut Desk<H::Input, H::Output, H::Target>,
) -> Result<Option<Answer<'a>>, Why<'a>>
    requires { desk.old ≡ empty }
    ensures run { GoldenIsRun (here (H.files host.now) H.Input.Source H.Output.Sink
        H.Target.Replaceable) golden.now values.now (input_name golden.now.input) desk.new result }
    ensures taken { TakesAtMost H.Input.given (LIMITS.input + 1) desk.new.a }
    ensures one { desk.new.b ≡ None }
{
    let name = input_name(&golden.input);
    let path = golden.golden.as_str();
    if let Some(files) = replaced(host, golden, name) {
        return Err(Why::SameFile(files, Name::new(path)));
    }
    let rules = match given_rules(alloc, host, text_of(&golden.rules), values) {
        Ok(rules) => rules,
        Err(why) => return Err(Why::Rules(why)),
    };
    let session = match read_file(alloc, host, Purpose::Input, name, LIMITS.input, &mut desk.a) {
        Ok(session) => session,
        Err(why) => return Err(Why::Session(why)),
    };
    let file = match host.target(path, golden.update) {
        Ok(file) => file,
        Err(fault) => return Err(Why::GoldenFile(Name::new(path), golden.update, fault)),
    };
    let target = desk.target.insert(file);
    kept(alloc, golden, rules, session, target)
}
