//! The line and the status for each reason why `golden` stopped.
ghost use Rattle.std.specs.Prelude.{◌≡◌, ◌∷◌, []};
ghost use Rattle.dapnorm.specs.GoldenLines.{golden_line, stop_line, stop_status};
ghost use Rattle.dapnorm.specs.{Lines.{line_text, part_text}, Saving.unsaved_words};

use crate::line::{Line, Part};
use crate::reporting::{FAULT, MEMORY, REFUSED};
use dap_device::Step;
use dap_golden::{GoldenRefused, GoldenStop};

/// Returns what a line about a file says after its name if this step of a replacement failed.
pub(crate) fn unsaved_words(step: Step) -> &'static str
    ensures { result.now ≡ unsaved_words step }
{
    match step {
        Step::SyncFolder => ": replaced, but not synced",
        _ => ": write fault",
    }
}

/// Returns a line of `golden` with two parts.
pub(crate) fn golden_line<'a>(first: Part<'a>, second: Part<'a>) -> Line<'a>
    ensures { line_text result
        ≡ golden_line (part_text first.entry ∷ part_text second.entry ∷ []) }
{
    Line::Fault(Part::Text("golden: "), first, second, Part::Text(""))
}

/// Returns the line for a stop, and the status of the program. After rules, records are counted in
/// what the rules leave, and the line says so.
pub(crate) fn stop_line<'a>(has_rules: bool, name: &'a str, stop: GoldenStop) -> (Line<'a>, u8)
    ensures line { line_text result.0 ≡ stop_line has_rules name.entry.now stop }
    ensures status { result.1 ≡ stop_status stop }
{
    let (name, none) = (Part::Text(name), Part::Text(""));
    let (first, second, status) = match stop {
        GoldenStop::Input(GoldenRefused::Session(why)) if has_rules => {
            (Part::Text("after the rules: "), Part::Refused(why), REFUSED)
        }
        GoldenStop::Input(
            GoldenRefused::Trace(why) | GoldenRefused::Mask(why) | GoldenRefused::Session(why),
        ) => (Part::Refused(why), none, REFUSED),
        GoldenStop::Input(GoldenRefused::NoRecords) => (Part::Text("no records"), none, REFUSED),
        GoldenStop::Input(GoldenRefused::Memory) | GoldenStop::Memory => {
            (Part::Text("out of memory"), none, MEMORY)
        }
        GoldenStop::Missing => (
            name,
            Part::Text(" does not exist: --update makes it"),
            FAULT,
        ),
        GoldenStop::GoldenUnread => (name, Part::Text(": read fault"), FAULT),
        GoldenStop::GoldenTooLong => (name, Part::Text(": InputTooLong"), REFUSED),
        GoldenStop::TranscriptTooLong => (name, Part::Text(": TranscriptTooLong"), REFUSED),
        GoldenStop::Transcript(why) => {
            let (golden, colon) = (Part::Text("golden: "), Part::Text(": "));
            return (Line::Transcript(golden, name, colon, why), REFUSED);
        }
        GoldenStop::Golden(why) => {
            let (golden, colon) = (Part::Text("golden: "), Part::Text(": "));
            let line = Line::Fault(golden, name, colon, Part::Refused(why));
            return (line, REFUSED);
        }
        GoldenStop::NotRecording => {
            let words = ": not replaced, since it is not a golden file: remove it first";
            (name, Part::Text(words), REFUSED)
        }
        GoldenStop::Unwritten(fault) => (name, Part::Text(unsaved_words(fault.step)), FAULT),
    };
    (golden_line(first, second), status)
}
