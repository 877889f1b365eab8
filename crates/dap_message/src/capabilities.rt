//! Sets the capabilities that an adapter omitted to false, in place.
ghost use Rattle.std.specs.Prelude.{◌≡◌, true, IfOk, OnErr, map, codes, option_map};
ghost use Rattle.dap_tree.specs.Doc.{get_member, object, no_members, change_child};
ghost use Rattle.dap_tree.specs.View.{view, members_view};
ghost use Rattle.dap_message.specs.Capabilities.{is_given, default_member, default_to};
ghost use Rattle.dap_message.specs.Capabilities.{false_members, false_at, carries_capabilities};
ghost use Rattle.dap_message.specs.Capabilities.{with_capabilities, filled};

use crate::asked_rows::{has_succeeded, has_text, is_of_kind};
use dap_profile::Kind;
use dap_tree::{Side, Tree};
use std::alloc::{AllocError, Global};
use std::collections::BTreeMap;

static CAPABILITIES: [&str; 35] = [
    "supportSuspendDebuggee",
    "supportTerminateDebuggee",
    "supportsBreakpointLocationsRequest",
    "supportsCancelRequest",
    "supportsClipboardContext",
    "supportsCompletionsRequest",
    "supportsConditionalBreakpoints",
    "supportsConfigurationDoneRequest",
    "supportsDataBreakpoints",
    "supportsDelayedStackTraceLoading",
    "supportsDisassembleRequest",
    "supportsEvaluateForHovers",
    "supportsExceptionFilterOptions",
    "supportsExceptionInfoRequest",
    "supportsExceptionOptions",
    "supportsFunctionBreakpoints",
    "supportsGotoTargetsRequest",
    "supportsHitConditionalBreakpoints",
    "supportsInstructionBreakpoints",
    "supportsLoadedSourcesRequest",
    "supportsLogPoints",
    "supportsModulesRequest",
    "supportsReadMemoryRequest",
    "supportsRestartFrame",
    "supportsRestartRequest",
    "supportsSetExpression",
    "supportsSetVariable",
    "supportsSingleThreadExecutionRequests",
    "supportsStepBack",
    "supportsStepInTargetsRequest",
    "supportsSteppingGranularity",
    "supportsTerminateRequest",
    "supportsTerminateThreadsRequest",
    "supportsValueFormattingOptions",
    "supportsWriteMemoryRequest",
];

pub(crate) fn fill(tree: &mut Tree, side: Side, alloc: Global) -> Result<(), AllocError>
    ensures ok { IfOk result (λ _. view tree.new ≡ filled side (view tree.old)) }
    ensures err { OnErr result (carries_capabilities side (view tree.old) ≡ true) }
{
    if carries_capabilities(tree, side) {
        add_capabilities(tree, alloc)
    } else {
        Ok(())
    }
}

fn carries_capabilities(tree: &Tree, side: Side) -> bool
    ensures { result ≡ carries_capabilities side (view tree.now) }
{
    match side {
        Side::Client => false,
        Side::Adapter => {
            is_of_kind(tree, Kind::Response)
                && has_text(tree, "command", "initialize")
                && has_succeeded(tree)
        }
    }
}

#[tactic(auto, unfolding(crate::specs::Capabilities::with_capabilities))]
fn add_capabilities(tree: &mut Tree, alloc: Global) -> Result<(), AllocError>
    ensures { IfOk result (λ _. view tree.new ≡ with_capabilities (view tree.old)) }
{
    add_body(tree, alloc)?;
    fill_child(tree, alloc, &CAPABILITIES)
}

fn add_body(tree: &mut Tree, alloc: Global) -> Result<(), AllocError>
    ensures { IfOk result (λ _. view tree.new
        ≡ default_to (codes "body") (object no_members) (view tree.old)) }
{
    match tree {
        Tree::Object(members) => {
            set_default(members, alloc, "body", Tree::Object(BTreeMap::new(alloc)))?;
            Ok(())
        }
        _ => Ok(()),
    }
}

fn fill_child(tree: &mut Tree, alloc: Global, names: &[&str]) -> Result<(), AllocError>
    ensures { IfOk result (λ _. view tree.new
        ≡ change_child (codes "body") (false_at (map (λ n. n.now) names.now)) (view tree.old)) }
{
    match tree.members_mut() {
        None => Ok(()),
        Some(members) => match members.get_mut("body") {
            None => Ok(()),
            Some(body) => {
                fill_body(body, alloc, names)?;
                Ok(())
            }
        },
    }
}

fn fill_body(body: &mut Tree, alloc: Global, names: &[&str]) -> Result<(), AllocError>
    ensures { IfOk result (λ _. view body.new
        ≡ false_at (map (λ n. n.now) names.now) (view body.old)) }
{
    match body {
        Tree::Object(members) => {
            set_false(members, alloc, names)?;
            Ok(())
        }
        _ => Ok(()),
    }
}

fn set_false(
    members: &mut BTreeMap<String, Tree>,
    alloc: Global,
    names: &[&str],
) -> Result<(), AllocError>
    ensures { IfOk result (λ _. members_view members.new.entries
        ≡ false_members (map (λ n. n.now) names.now) (members_view members.old.entries)) }
{
    for name in names {
        set_default(members, alloc, name, Tree::Bool(false))?;
    }
    Ok(())
}

fn set_default(
    members: &mut BTreeMap<String, Tree>,
    alloc: Global,
    name: &str,
    value: Tree,
) -> Result<(), AllocError>
    ensures { IfOk result (λ _. members_view members.new.entries
        ≡ default_member name.now (view value) (members_view members.old.entries)) }
{
    if is_given(members, name) {
        return Ok(());
    }
    let key = String::from_str(alloc, name)?;
    drop(members.insert(key, value)?);
    Ok(())
}

fn is_given(members: &BTreeMap<String, Tree>, name: &str) -> bool
    ensures { result ≡ is_given (get_member name.now (members_view members.now.entries)) }
{
    is_more_than_null(members.get(name))
}

fn is_more_than_null(found: Option<&Tree>) -> bool
    ensures { result ≡ is_given (option_map (λ t. view t.now) found.entry) }
{
    match found {
        None | Some(Tree::Null) => false,
        Some(_) => true,
    }
}
