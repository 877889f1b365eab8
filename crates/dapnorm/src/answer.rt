//! What a command found, and how it is printed.
ghost use Rattle.std.specs.{List.flat_map, Prelude.{◌≡◌, ◌∷◌, ◌<◌, ◌^◌, []}};
ghost use Rattle.dap_device.specs.{Devices.CanWrite, Written.{HasSentAll, HasWrittenAll}};
ghost use Rattle.dapnorm.specs.Answers.{accepted_texts, answer_mode, answer_pairs, answer_status};
ghost use Rattle.dapnorm.specs.Answers.{answer_stream, answer_text, answer_texts, differ_texts};
ghost use Rattle.dapnorm.specs.Answers.{done_status, done_texts, golden_texts, pair_line};
ghost use Rattle.dapnorm.specs.{Answers.{same_texts, shows_stop}, Lines.{joined, parts_text}};
ghost use Rattle.dapnorm.specs.Reporting.{IsPrinted};

use crate::line::{Part, fault, report_line, write_parts};
use crate::reporting::{DIFFERENT, DONE, FAULT};
use dap_commands::Name;
use dap_compare::Verdict;
use dap_device::{DeviceFault, Sink};
use dap_diff::{AllDifferences, Diff};
use dap_golden::{GoldenDone, GoldenVerdict};
use dap_host::Stream;
use dap_input::Refused;
use dap_normalise::Checked;
use dap_rename::{Mode, Pair};
use dap_tree::Sort;

/// What is printed of a golden file that has the session, but in another form.
const NOT_NORMAL: &str =
    "the session is the same, but the golden file is not in normal form: --update rewrites it\n";

/// What a command found.
#[derive(Drop)]
pub enum Answer<'a> {
    /// The recording is accepted, with these numbers.
    Accepted(Checked),
    /// The verdict on two recordings, whose ids were numbered in this mode.
    Verdict(Mode, Verdict),
    /// The first difference of two recordings.
    Difference(Diff),
    /// All differences of two recordings.
    Differences(AllDifferences),
    /// What was done with the golden file of this name.
    Golden(Name<'a>, GoldenDone),
    /// The lines of rows of the profile.
    Rows(String),
    /// The text of the rules that are suggested.
    Rules(Vec<u8>),
}

/// The parts of the first lines of an answer. Unused ones are empty.
type Parts<'a> = [Part<'a>; 7];

/// Returns the parts of a text.
fn text<'a>(text: Part<'a>) -> Parts<'a>
    ensures { parts_text result ≡ parts_text (text.entry ∷ []) }
{
    let none = Part::Text("");
    [text, none, none, none, none, none, none]
}

/// Returns the parts of the line for two recordings that are the same.
fn same<'a>() -> Parts<'a>
    ensures { parts_text result ≡ joined same_texts }
{
    text(Part::Text("same\n"))
}

/// Returns the parts of the lines for two recordings that differ at this record.
fn differ<'a>(number: u64, lines: &'a [u8]) -> Parts<'a>
    ensures { parts_text result ≡ joined (differ_texts number lines.entry.now) }
{
    let (number, lines) = (Part::Number(number), Part::Bytes(lines));
    let (words, end, none) = (Part::Text("differ "), Part::Text("\n"), Part::Text(""));
    [words, number, end, lines, none, none, none]
}

/// Returns the parts of the line of an accepted recording.
fn accepted<'a>(checked: &Checked) -> Parts<'a>
    ensures { parts_text result ≡ joined (accepted_texts checked.now) }
{
    [
        Part::Text("accepted records="),
        Part::Number(checked.records),
        Part::Text(" open="),
        Part::Count(checked.client_open),
        Part::Text(","),
        Part::Count(checked.adapter_open),
        Part::Text("\n"),
    ]
}

/// Returns whether the line of a pair of this kind shows its stop: if the numbering of the kind
/// restarts there.
fn shows_stop(mode: Mode, sort: Sort) -> bool
    ensures { result ≡ shows_stop mode sort }
{
    match (mode, sort) {
        (Mode::PerStop, Sort::Frame | Sort::Reference) => true,
        _ => false,
    }
}

/// Writes the line of a pair.
fn write_pair<W: Sink>(writer: &mut W, mode: Mode, pair: Pair) -> Result<(), DeviceFault>
    requires { W.failures writer.old < 2 ^ 63 }
    ensures { HasWrittenAll W.Sink writer.old writer.new result (pair_line mode pair) }
{
    let word = Part::Text(pair.sort.word());
    let (space, end) = (Part::Text(" "), Part::Text("\n"));
    let (from, to) = (Part::Signed(pair.from), Part::Signed(pair.to));
    if shows_stop(mode, pair.sort) {
        let (at, stop) = (Part::Text("@"), Part::Number(pair.stop));
        write_parts(writer, &[word, at, stop, space, from, space, to, end])
    } else {
        write_parts(writer, &[word, space, from, space, to, end])
    }
}

/// Writes the lines of pairs.
fn write_pairs<W: Sink>(writer: &mut W, mode: Mode, pairs: &[Pair]) -> Result<(), DeviceFault>
    requires { W.failures writer.old < 2 ^ 63 }
    ensures { HasWrittenAll W.Sink writer.old writer.new result
        (flat_map (pair_line mode) pairs.now) }
{
    for pair in pairs {
        write_pair(writer, mode, *pair)?;
    }
    Ok(())
}

/// Returns the parts of the lines of a verdict on a golden file.
fn golden_verdict<'a>(verdict: &'a GoldenVerdict) -> Parts<'a>
    ensures { parts_text result ≡ joined (golden_texts verdict.entry.now) }
{
    match verdict {
        GoldenVerdict::Same => same(),
        GoldenVerdict::Differs { record, lines } => differ(*record, lines.as_slice()),
        GoldenVerdict::NotNormal => text(Part::Text(NOT_NORMAL)),
    }
}

/// Returns the parts of the lines that say what was done with the golden file of this name.
fn golden_done<'a>(name: &'a str, done: &'a GoldenDone) -> Parts<'a>
    ensures { parts_text result ≡ joined (done_texts name.entry.now done.entry.now) }
{
    match done {
        GoldenDone::Compared(verdict) => golden_verdict(verdict),
        GoldenDone::Unchanged => text(Part::Text("unchanged\n")),
        GoldenDone::Written { records } => {
            let end = if *records == 1 {
                " record)\n"
            } else {
                " records)\n"
            };
            let (wrote, name, open) = (Part::Text("wrote "), Part::Text(name), Part::Text(" ("));
            let (number, end, none) = (Part::Number(*records), Part::Text(end), Part::Text(""));
            [wrote, name, open, number, end, none, none]
        }
    }
}

/// Returns the status for what was done with a golden file.
fn golden_status(done: &GoldenDone) -> u8
    ensures { result ≡ done_status done.now }
{
    match done {
        GoldenDone::Compared(GoldenVerdict::Same) => DONE,
        GoldenDone::Compared(_) => DIFFERENT,
        _ => DONE,
    }
}

impl Answer<'_> {
    /// Returns the status of the program.
    fn status(&self) -> u8
        ensures { result ≡ answer_status self.now }
    {
        match self {
            Answer::Verdict(_, Verdict::Differ(_)) => DIFFERENT,
            Answer::Difference(Diff::Differ { .. }) => DIFFERENT,
            Answer::Differences(AllDifferences::Differ { .. }) => DIFFERENT,
            Answer::Golden(_, done) => golden_status(done),
            _ => DONE,
        }
    }

    /// Returns the standard output that the answer is printed on.
    pub(crate) fn stream(&self) -> Stream
        ensures { result ≡ answer_stream self.now }
    {
        match self {
            Answer::Golden(..) => Stream::Names,
            _ => Stream::Lines,
        }
    }

    /// Returns the parts of the first lines.
    fn parts(&self) -> Parts<'_>
        ensures { parts_text result ≡ joined (answer_texts self.now) }
    {
        match self {
            Answer::Accepted(checked) => accepted(checked),
            Answer::Verdict(_, Verdict::Same(_))
            | Answer::Difference(Diff::Same)
            | Answer::Differences(AllDifferences::Same) => same(),
            Answer::Verdict(_, Verdict::Differ(record)) => differ(*record, &[]),
            Answer::Difference(Diff::Differ { record, lines }) => {
                differ(*record, lines.as_slice())
            }
            Answer::Differences(AllDifferences::Differ { lines }) => {
                text(Part::Bytes(lines.as_slice()))
            }
            Answer::Golden(name, done) => golden_done(name.as_str(), done),
            Answer::Rows(lines) => text(Part::Text(lines)),
            Answer::Rules(lines) => text(Part::Bytes(lines.as_slice())),
        }
    }

    /// Returns the pairs of ids that have a line after the first lines.
    fn pairs(&self) -> &[Pair]
        ensures { result.now ≡ answer_pairs self.now }
    {
        match self {
            Answer::Verdict(_, Verdict::Same(renaming)) => renaming.pairs(),
            _ => &[],
        }
    }

    /// Returns the mode in which these ids are numbered.
    fn mode(&self) -> Mode
        ensures { result ≡ answer_mode self.now }
    {
        match self {
            Answer::Verdict(mode, _) => *mode,
            _ => Mode::Whole,
        }
    }

    /// Writes the text of the answer and flushes.
    fn write<W: Sink>(&self, writer: &mut W) -> Result<(), DeviceFault>
        requires writer { CanWrite W.Sink writer.old }
        ensures { HasSentAll W.Sink writer.old writer.new result (answer_text self.now) }
    {
        write_parts(writer, &self.parts())?;
        write_pairs(writer, self.mode(), self.pairs())?;
        writer.flush()
    }

    /// Prints the answer, and returns the status for it. If the writer fails, reports that in one
    /// line and returns the status for that.
    pub fn print<W: Sink, E: Sink>(&self, writer: &mut W, errors: &mut E) -> u8
        requires writers { CanWrite W.Sink writer.old × CanWrite E.Sink errors.old }
        ensures { IsPrinted W.Sink E.Sink (answer_text self.now) (answer_status self.now)
            writer.old writer.new errors.old errors.new result }
    {
        match self.write(writer) {
            Ok(()) => self.status(),
            Err(_) => {
                report_line(errors, fault(Part::Refused(Refused::WriteFault)));
                FAULT
            }
        }
    }
}
