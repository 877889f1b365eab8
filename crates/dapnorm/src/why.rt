//! Why a command did not finish. Each reason has one line and one status.
ghost use Rattle.std.specs.Prelude.{◌≡◌, ◌∷◌, []};
ghost use Rattle.dap_device.specs.Devices.{CanWrite};
ghost use Rattle.dapnorm.specs.Lines.{line_text, part_text};
ghost use Rattle.dapnorm.specs.Reasons.{input_line, lost_words, mistake_line, overlap_words};
ghost use Rattle.dapnorm.specs.Reasons.{unapplied_line, unapplied_status, which_texts, why_line};
ghost use Rattle.dapnorm.specs.{Reasons.why_status, Reporting.HasSent};

use crate::golden_lines::{golden_line, stop_line, unsaved_words};
use crate::line::{Line, Part, fault, fault_of, report_line};
use crate::reading::Unread;
use crate::reporting::{DIFFERENT, FAULT, USAGE, pair_line, refused_line, refused_status};
use crate::rules::NoRules;
use crate::stream::Unstreamed;
use dap_commands::Name;
use dap_compare::{CompareRefused, Which};
use dap_device::{ReplaceFault, Sink};
use dap_golden::GoldenStop;
use dap_host::OpenFault;
use dap_input::Refused;
use dap_mask::MaskRules;
use dap_rules::ApplyRefused;

/// A mistake of the user that is found before a file is opened.
#[derive(Clone, Copy, Debug, PartialEq, Eq)]
pub enum Mistake {
    /// Both inputs are standard input.
    TwoStandard,
    /// No row of the profile has the number.
    NoRow,
    /// `--record` is used with another option.
    RecordAlone,
    /// The argument of `--record` is not the number of a record.
    RecordNumber,
    /// `--yaml` is used with another option.
    YamlAlone,
}

impl Mistake {
    /// Returns the line that reports the mistake, with its LF.
    fn line(self) -> &'static str
        ensures { result.now ≡ mistake_line self }
    {
        match self {
            Mistake::TwoStandard => "error: only one of A and B can be standard input\n",
            Mistake::NoRow => "error: no row has this number: dapnorm rows prints them all\n",
            Mistake::RecordAlone => {
                "error: --record prints one content: use it without --full, --yaml and --faulty\n"
            }
            Mistake::RecordNumber => "error: --record needs the number of a record, from 1 on\n",
            Mistake::YamlAlone => {
                "error: --yaml prints a transcript: use it without --full and --faulty\n"
            }
        }
    }
}

/// Two files that must not be the same, since one would be lost.
#[derive(Clone, Copy, Debug, PartialEq, Eq)]
pub enum Overlap {
    OutputAndRules,
    GoldenAndInput,
    GoldenAndRules,
}

impl Overlap {
    /// Returns what the line says before the name of the file.
    fn words(self) -> &'static str
        ensures { result.now ≡ overlap_words self }
    {
        match self {
            Overlap::OutputAndRules => { "the output and the rules file are the same file: " }
            Overlap::GoldenAndInput => {
                "golden: the golden file and the input are the same file: "
            }
            Overlap::GoldenAndRules => {
                "golden: the golden file and the rules file are the same file: "
            }
        }
    }
}

/// Why a command did not finish.
#[derive(Drop)]
pub enum Why<'a> {
    Mistake(Mistake),
    /// An output is also an input, under this name.
    SameFile(Overlap, Name<'a>),
    /// There are no rules.
    Rules(NoRules),
    /// The input, or one of two, was not read.
    Unread(Option<Which>, Unread),
    /// The input is rejected, or a device or an allocation failed.
    Input(Refused),
    /// The input was not written as the task requests. Has the rules of the task.
    Stream(Unstreamed, MaskRules),
    /// One of two inputs is rejected, or an allocation failed.
    Pair(CompareRefused),
    /// The rules cannot be applied to the input, or to one of two, or the result is rejected.
    Unapplied(Option<Which>, ApplyRefused, MaskRules),
    /// The device or the file of the output did not open.
    Output(Name<'a>, OpenFault),
    /// The file of the output was not replaced.
    Unsaved(Name<'a>, ReplaceFault),
    /// The session was not read that a golden file is made of or compared with.
    Session(Unread),
    /// The golden file was not found, to be replaced or only to be read.
    GoldenFile(Name<'a>, bool, OpenFault),
    /// The golden file was not compared or written. Has the rules.
    Golden(Name<'a>, GoldenStop, Option<MaskRules>),
    /// No rules make two recordings the same. Has the line that says why.
    NoSuggestion(String),
}

/// Returns what a line about an input, or one of two, starts with.
fn which_parts<'a>(which: Option<Which>) -> (Part<'a>, Part<'a>)
    ensures { part_text result.0 ∷ part_text result.1 ∷ [] ≡ which_texts which }
{
    match which {
        Some(which) => (Part::Text(which.letter()), Part::Text(": ")),
        None => (Part::Text(""), Part::Text("")),
    }
}

/// Returns the line that reports the error of an input, or of one of two.
fn input_line<'a>(which: Option<Which>, refused: Refused) -> Line<'a>
    ensures { line_text result ≡ input_line which refused }
{
    fault(match which {
        None => Part::Refused(refused),
        Some(which) => Part::Pair(CompareRefused::Input(which, refused)),
    })
}

/// Returns the line that reports why rules cannot be applied to an input, or to one of two, and the
/// status of the program.
fn unapplied_line<'a>(which: Option<Which>, refused: ApplyRefused) -> (Line<'a>, u8)
    ensures line { line_text result.0 ≡ unapplied_line which refused }
    ensures status { result.1 ≡ unapplied_status refused }
{
    match refused {
        ApplyRefused::Mask(refused) => (input_line(which, refused), refused_status(refused)),
        ApplyRefused::Order(refused) => {
            let ((letter, colon), words) = (which_parts(which), Part::Text("after the rules: "));
            let line = Line::Fault(letter, colon, words, Part::Refused(refused));
            (line, refused_status(refused))
        }
        ApplyRefused::ReadFault => (input_line(which, Refused::ReadFault), FAULT),
        ApplyRefused::Memory => refused_line(Refused::Memory),
    }
}

/// Returns what is reported of a golden file that was not found.
fn lost_words(update: bool) -> &'static str
    ensures { result.now ≡ lost_words update }
{
    if update {
        ": write fault"
    } else {
        ": read fault"
    }
}

impl Why<'_> {
    /// Returns the line that reports the reason, and the status of the program.
    fn line_and_status(&self) -> (Line<'_>, u8)
        ensures line { line_text result.0 ≡ why_line self.now }
        ensures status { result.1 ≡ why_status self.now }
    {
        match self {
            Why::Mistake(mistake) => (Line::Whole(mistake.line()), USAGE),
            Why::SameFile(files, name) => {
                let (words, name) = (Part::Text(files.words()), Part::Text(name.as_str()));
                (fault_of(words, name), USAGE)
            }
            Why::Rules(why) => why.line_and_status(),
            Why::Unread(which, why) => {
                let (letter, colon) = which_parts(*which);
                why.line_and_status(input_line(*which, Refused::ReadFault), letter, colon)
            }
            Why::Input(refused) => refused_line(*refused),
            Why::Stream(why, _) => why.line_and_status(),
            Why::Pair(refused) => pair_line(*refused),
            Why::Unapplied(which, refused, _) => unapplied_line(*which, *refused),
            Why::Output(name, why) => {
                let (name, words) = (Part::Text(name.as_str()), Part::Text(": write fault"));
                Unread::Unopened(*why).line_and_status(
                    fault_of(name, words),
                    name,
                    Part::Text(": "),
                )
            }
            Why::Unsaved(name, why) => {
                let (name, words) = (Part::Text(name.as_str()), unsaved_words(why.step));
                (fault_of(name, Part::Text(words)), FAULT)
            }
            Why::Session(why) => {
                let (golden, none) = (Part::Text("golden: "), Part::Text(""));
                why.line_and_status(golden_line(Part::Text("read fault"), none), golden, none)
            }
            Why::GoldenFile(name, update, why) => {
                let (name, words) = (Part::Text(name.as_str()), Part::Text(lost_words(*update)));
                Unread::Unopened(*why).line_and_status(
                    golden_line(name, words),
                    name,
                    Part::Text(": "),
                )
            }
            Why::Golden(name, stop, rules) => { stop_line(rules.is_some(), name.as_str(), *stop) }
            Why::NoSuggestion(line) => (Line::Whole(line), DIFFERENT),
        }
    }

    /// Reports the reason in one line, and returns the status of the program. A failure to write
    /// the line is not reported.
    pub fn report<E: Sink>(&self, errors: &mut E) -> u8
        requires writer { CanWrite E.Sink errors.old }
        ensures line { HasSent E.Sink errors.old errors.new (why_line self.now) }
        ensures status { result ≡ why_status self.now }
    {
        let (line, status) = self.line_and_status();
        report_line(errors, line);
        status
    }
}
