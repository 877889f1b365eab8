//! Does a task over one input, and writes or saves its output.
ghost use Rattle.std.specs.Prelude.{◌≡◌, ◌+◌, ◌≤◌, [], IfErr, IfOk, None};
ghost use Rattle.dap_commands.specs.Reading.{text_in};
ghost use Rattle.dap_host.specs.declared.limits.TheConstants.{LIMITS};
ghost use Rattle.dap_mask.specs.KeptRules.{joining_of, mask_of};
ghost use Rattle.dap_normalise.specs.NameTables.{AreReady};
ghost use Rattle.dap_device.specs.Devices.{CanRead, CanWrite, reads, writes};
ghost use Rattle.dapnorm.specs.Desks.{TakesAtMost, empty, here};
ghost use Rattle.dapnorm.specs.{Lines.line_text, Reasons.{unstreamed_line, unstreamed_status}};
ghost use Rattle.dapnorm.specs.Streams.{GoesTo, HasMasked, IsNoOutput, IsOutput};
ghost use Rattle.dapnorm.specs.Streams.{IsSavedIn, IsShown};
ghost use Rattle.dapnorm.specs.Streams.{IsStreamed, IsWritten, LosesRules, StreamIsRun};
ghost use Rattle.dapnorm.specs.Streams.{TaskRequests, input_name, output_name, task_rules};
ghost use Rattle.dapnorm.specs.Streams.{unstreamed_of};

use crate::answer::Answer;
use crate::desk::Desk;
use crate::line::{Line, Part};
use crate::reading::Unread;
use crate::reporting::{REFUSED, refused_line};
use crate::rules::rules_of;
use crate::why::{Mistake, Overlap, Why};
use dap_commands::{Name, Task};
use dap_compact::compact;
use dap_device::{Sink, Source, replace};
use dap_host::{Host, LIMITS, OpenFault, Purpose, Stream, is_standard};
use dap_input::Refused;
use dap_mask::MaskRules;
use dap_normalise::normalise_with;
use dap_record::record;
use dap_rename::{Mode, NameTable, Tables};
use dap_rules::{TextSink, join_and_mask, mask, name, order};
use dap_show::{
    Detail, RecordShown, ShowRequest, show, show_faulty, show_record, show_transcript, show_with,
};
use std::alloc::Global;

/// Why a task was not done over an input.
#[derive(Clone, Copy, Debug, PartialEq, Eq)]
pub enum Unstreamed {
    /// The input is rejected, or a device or an allocation failed.
    Input(Refused),
    /// The recording does not have the record of this number. Has the number of its records.
    NoRecord(u64, u64),
}

impl Unstreamed {
    /// Returns the line that reports it, and the status of the program.
    pub(crate) fn line_and_status<'a>(self) -> (Line<'a>, u8)
        ensures line { line_text result.0 ≡ unstreamed_line self }
        ensures status { result.1 ≡ unstreamed_status self }
    {
        match self {
            Unstreamed::Input(refused) => refused_line(refused),
            Unstreamed::NoRecord(number, count) => {
                let (number, count) = (Part::Number(number), Part::Number(count));
                let (words, has) = (Part::Text("no record "), Part::Text(": the recording has "));
                (Line::Fault(words, number, has, count), REFUSED)
            }
        }
    }
}

/// Returns what the options of a task request. `None`: they request nothing, or it is not `show`.
fn request_of(task: &Task<'_>) -> Result<Option<ShowRequest>, Mistake>
    ensures { TaskRequests task.now result }
{
    let Task::Show(show) = task else {
        return Ok(None);
    };
    let detail = if show.full {
        Detail::Leaves
    } else {
        Detail::Lists
    };
    match &show.record {
        Some(_) if show.full || show.faulty || show.yaml => Err(Mistake::RecordAlone),
        Some(name) => match name.as_str().parse::<u64>() {
            Ok(number) if number > 0 => Ok(Some(ShowRequest::Record(number))),
            _ => Err(Mistake::RecordNumber),
        },
        None if show.yaml && (show.full || show.faulty) => Err(Mistake::YamlAlone),
        None if show.yaml => Ok(Some(ShowRequest::Transcript)),
        None if show.faulty => Ok(Some(ShowRequest::Faulty(detail))),
        None if show.full => Ok(Some(ShowRequest::Lines(detail))),
        None => Ok(None),
    }
}

/// Returns the name of the rules file of a task.
fn task_rules<'a>(task: &Task<'a>) -> Option<&'a str>
    ensures { text_in result ≡ task_rules task.now }
{
    match task {
        Task::Mask(rules) | Task::Order(rules) | Task::Name(rules) => Some(rules.as_str()),
        _ => None,
    }
}

/// Returns the text of a name, if there is one.
pub(crate) fn text_of<'a>(name: &Option<Name<'a>>) -> Option<&'a str>
    ensures { text_in result ≡ name.now }
{
    name.as_ref().map(|name| name.as_str())
}

/// Returns the name of an input. Without one it is standard input.
pub(crate) fn input_name<'a>(name: &Option<Name<'a>>) -> &'a str
    ensures { result.now ≡ input_name name.now }
{
    name.as_ref().map_or("-", |name| name.as_str())
}

/// Returns the name of an output that is not standard output.
fn output_name<'a>(name: &Option<Name<'a>>) -> Option<&'a str>
    ensures { text_in result ≡ output_name name.now }
{
    match name {
        Some(name) if !is_standard(name.as_str()) => Some(name.as_str()),
        _ => None,
    }
}

/// Shows the records of an input as requested.
fn shown<R: Source, W: Sink>(
    alloc: Global,
    request: Option<ShowRequest>,
    reader: &mut R,
    writer: &mut W,
) -> Result<(), Unstreamed>
    requires devices { CanRead R.Source reader.old × CanWrite W.Sink writer.old }
    ensures shown { IsShown (reads R.Source reader.old reader.new)
        (writes W.Sink writer.old writer.new) request result }
    ensures taken { R.given reader.new ≤ R.given reader.old + LIMITS.input + 1 }
{
    match request {
        None => ended(show(alloc, reader, writer, LIMITS)),
        Some(ShowRequest::Transcript) => ended(show_transcript(alloc, reader, writer, LIMITS)),
        Some(ShowRequest::Lines(detail)) => {
            ended(show_with(alloc, reader, writer, LIMITS, detail))
        }
        Some(ShowRequest::Faulty(detail)) => {
            match show_faulty(alloc, reader, writer, LIMITS, detail) {
                Ok(None) => Ok(()),
                Ok(Some(refused)) | Err(refused) => Err(Unstreamed::Input(refused)),
            }
        }
        Some(ShowRequest::Record(number)) => {
            match show_record(alloc, reader, writer, LIMITS, number) {
                Ok(RecordShown::Shown) => Ok(()),
                Ok(RecordShown::Missing(count)) => Err(Unstreamed::NoRecord(number, count)),
                Err(refused) => Err(Unstreamed::Input(refused)),
            }
        }
    }
}

/// Returns the result of an engine as that of a task.
fn ended(outcome: Result<(), Refused>) -> Result<(), Unstreamed>
    ensures { result ≡ unstreamed_of outcome }
{
    match outcome {
        Ok(()) => Ok(()),
        Err(refused) => Err(Unstreamed::Input(refused)),
    }
}

/// Masks an input record by record, or joins its output first if the rules say so.
fn masked<R: Source, W: Sink>(
    alloc: Global,
    rules: &MaskRules,
    reader: &mut R,
    writer: &mut W,
) -> Result<(), Refused>
    requires devices { CanRead R.Source reader.old × CanWrite W.Sink writer.old }
    ensures masked { HasMasked R.Source W.Sink (mask_of rules.now) (joining_of rules.now) reader.old
        reader.new writer.old writer.new result }
    ensures taken { R.given reader.new ≤ R.given reader.old + LIMITS.input + 1 }
{
    match rules.joining() {
        None => mask(alloc, rules, reader, writer, LIMITS),
        Some(_) => join_and_mask(alloc, rules, reader, writer, LIMITS),
    }
}

/// Does a task over a reader and a writer, by these rules if it takes some.
fn streamed<R: Source, W: Sink, T: NameTable + Drop>(
    alloc: Global,
    task: &Task<'_>,
    request: Option<ShowRequest>,
    rules: &MaskRules,
    reader: &mut R,
    writer: &mut W,
    tables: Tables<T>,
) -> Result<(), Unstreamed>
    requires tables { AreReady T.numbers T.limit LIMITS tables }
    requires devices { CanRead R.Source reader.old × CanWrite W.Sink writer.old }
    ensures done { IsStreamed (reads R.Source reader.old reader.new)
        (writes W.Sink writer.old writer.new) task.now request (mask_of rules.now) result }
    ensures taken { R.given reader.new ≤ R.given reader.old + LIMITS.input + 1 }
{
    match task {
        Task::Compact => ended(compact(alloc, reader, writer, LIMITS)),
        Task::Record => ended(record(alloc, reader, writer, LIMITS)),
        Task::Normalise(mode) => {
            ended(normalise_with(alloc, reader, writer, LIMITS, tables, *mode))
        }
        Task::Show(_) => shown(alloc, request, reader, writer),
        Task::Mask(_) => ended(masked(alloc, rules, reader, writer)),
        Task::Order(_) => {
            let swaps = rules.swaps();
            ended(order(alloc, swaps, reader, writer, LIMITS, Mode::Whole))
        }
        Task::Name(_) => ended(name(alloc, rules, reader, writer, LIMITS)),
    }
}

/// Opens the output that is written directly: standard output, or the device of a name.
fn open_output<H: Host>(host: &H, name: Option<&str>) -> Result<H::Output, OpenFault>
    ensures ok { IfOk result (IsOutput (H.files host.now) (text_in name.entry)) }
    ensures failures { IfOk result (λ output. H.Output.failures output ≡ 0) }
    ensures err { IfErr result (IsNoOutput (H.files host.now) (text_in name.entry)) }
{
    match name {
        None => Ok(host.stream(Stream::Bytes)),
        Some(name) => host.device(name),
    }
}

/// Does a task over the input that a name leads to, and writes its output directly.
fn write_stream<'a, H: Host>(
    alloc: Global,
    host: &H,
    task: &Task<'_>,
    request: Option<ShowRequest>,
    values: &[Name<'_>],
    name: &str,
    output: Option<&'a str>,
    desk: &mut Desk<H::Input, H::Output, H::Target>,
) -> Result<Option<Answer<'a>>, Why<'a>>
    requires { desk.old ≡ empty }
    ensures written { IsWritten (here (H.files host.now) H.Input.Source H.Output.Sink
        H.Target.Replaceable) task.now request values.now name.now desk.new (text_in output.entry)
        result }
    ensures taken { TakesAtMost H.Input.given (LIMITS.input + 1) desk.new.a }
    ensures one { desk.new.b ≡ None }
{
    let input = match host.open(Purpose::Input, name) {
        Ok(input) => input,
        Err(fault) => return Err(Why::Unread(None, Unread::Unopened(fault))),
    };
    let reader = desk.a.insert(input);
    let device = match open_output(host, output) {
        Ok(device) => device,
        Err(fault) => return Err(Why::Output(Name::new(output.unwrap_or("")), fault)),
    };
    let writer = desk.output.insert(device);
    let rules = match rules_of(alloc, host, task_rules(task), values) {
        Ok(rules) => rules,
        Err(why) => return Err(Why::Rules(why)),
    };
    let tables = host.tables(alloc);
    match streamed(alloc, task, request, &rules, reader, writer, tables) {
        Ok(()) => Ok(None),
        Err(why) => Err(Why::Stream(why, rules)),
    }
}

/// Does a task over the input that a name leads to, and saves its output in a file. The output is
/// held in memory before that.
fn save_stream<'a, H: Host>(
    alloc: Global,
    host: &H,
    task: &Task<'_>,
    request: Option<ShowRequest>,
    values: &[Name<'_>],
    name: &str,
    output: &'a str,
    desk: &mut Desk<H::Input, H::Output, H::Target>,
) -> Result<Option<Answer<'a>>, Why<'a>>
    requires { desk.old ≡ empty }
    ensures saved { IsSavedIn (here (H.files host.now) H.Input.Source H.Output.Sink
        H.Target.Replaceable) task.now request values.now name.now desk.new output.now result }
    ensures taken { TakesAtMost H.Input.given (LIMITS.input + 1) desk.new.a }
    ensures one { desk.new.b ≡ None }
{
    let input = match host.open(Purpose::Input, name) {
        Ok(input) => input,
        Err(fault) => return Err(Why::Unread(None, Unread::Unopened(fault))),
    };
    let reader = desk.a.insert(input);
    let file = match host.target(output, true) {
        Ok(file) => file,
        Err(fault) => return Err(Why::Output(Name::new(output), fault)),
    };
    let target = desk.target.insert(file);
    let rules = match rules_of(alloc, host, task_rules(task), values) {
        Ok(rules) => rules,
        Err(why) => return Err(Why::Rules(why)),
    };
    let mut text = TextSink::new(alloc);
    let tables = host.tables(alloc);
    let outcome = streamed(alloc, task, request, &rules, reader, &mut text, tables);
    if text.failures() > 0 {
        return Err(Why::Input(Refused::Memory));
    }
    if let Err(why) = outcome {
        return Err(Why::Stream(why, rules));
    }
    let bytes = text.into_bytes();
    match replace(target, bytes.as_slice()) {
        Ok(()) => Ok(None),
        Err(fault) => Err(Why::Unsaved(Name::new(output), fault)),
    }
}

/// Returns the name of the rules file of a task, if that is the file of the output.
fn lost_rules<'a, H: Host>(host: &H, task: &Task<'a>, output: &str) -> Option<&'a str>
    ensures { LosesRules (H.files host.now) (task_rules task.now) output.now (text_in result) }
{
    match task_rules(task) {
        Some(rules) if host.are_same(output, rules) => Some(rules),
        _ => None,
    }
}

/// Does a task over one input, and writes its output, or saves it in a file.
pub(crate) fn run_stream_task<'a, H: Host>(
    alloc: Global,
    host: &H,
    task: &Task<'a>,
    values: &[Name<'a>],
    input: &Option<Name<'a>>,
    output: &Option<Name<'a>>,
    desk: &mut Desk<H::Input, H::Output, H::Target>,
) -> Result<Option<Answer<'a>>, Why<'a>>
    requires { desk.old ≡ empty }
    ensures run { StreamIsRun (here (H.files host.now) H.Input.Source H.Output.Sink
        H.Target.Replaceable) task.now values.now (input_name input.now) desk.new output.now result }
    ensures taken { TakesAtMost H.Input.given (LIMITS.input + 1) desk.new.a }
    ensures one { desk.new.b ≡ None }
{
    let request = match request_of(task) {
        Ok(request) => request,
        Err(mistake) => return Err(Why::Mistake(mistake)),
    };
    let name = input_name(input);
    let Some(output) = output_name(output) else {
        return write_stream(alloc, host, task, request, values, name, None, desk);
    };
    if host.is_device(output) {
        return write_stream(alloc, host, task, request, values, name, Some(output), desk);
    }
    if let Some(rules) = lost_rules(host, task, output) {
        return Err(Why::SameFile(Overlap::OutputAndRules, Name::new(rules)));
    }
    save_stream(alloc, host, task, request, values, name, output, desk)
}
