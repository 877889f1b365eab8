//! Does a job, prints its output, and returns a status.
ghost use Rattle.std.specs.Prelude.{◌≡◌, ◌+◌, ◌≤◌};
ghost use Rattle.dap_input.specs.Limits.{AreSound};
ghost use Rattle.dap_normalise.specs.NameTables.{AreReady};
ghost use Rattle.dap_device.specs.Devices.{CanRead, CanWrite, reads, writes};
ghost use Rattle.dapnorm.specs.Run.{JobIsDone, ReportsUsage};

use crate::answer::Answer;
use crate::line::{Line, Part, report_line};
use crate::reporting::{DONE, FAULT, MEMORY, USAGE, report_outcome};
use dap_commands::{Job, UsageFault};
use dap_compact::compact;
use dap_device::{Sink, Source, write_and_flush};
use dap_input::{Limits, Refused};
use dap_normalise::{check_with, normalise_with};
use dap_record::record;
use dap_rename::{NameTable, Tables, index_tables};
use dap_show::show;
use std::alloc::Global;

/// Does a job over one reader and one writer, and returns the program's status. An error is
/// reported on `errors`, in one line.
///
/// For a recording that `check` accepts, the numbers go to `writer`: `accepted records=R open=C,A`
/// and LF, with the numbers of unanswered requests of the client and of the adapter.
///
/// The status is 0 if the job was done, 2 if the input is rejected, 4 if the reader or a writer
/// failed, and 5 if an allocation failed.
pub fn run_stream<R: Source, W: Sink, E: Sink>(
    alloc: Global,
    job: &Job,
    reader: &mut R,
    writer: &mut W,
    errors: &mut E,
    limits: Limits,
) -> u8
    requires stream { (a b per_stop : _) → job.now ≡ Job.Compare a b per_stop → ⊥ }
    requires limits { AreSound limits }
    requires reader { CanRead R.Source reader.old }
    requires writers { CanWrite W.Sink writer.old × CanWrite E.Sink errors.old }

    // The job is done. Its output goes to `writer`, and what is wrong to `errors`.
    ensures done { JobIsDone limits (reads R.Source reader.old reader.new)
        (writes W.Sink writer.old writer.new) (writes E.Sink errors.old errors.new) result job.now }

    // It takes at most one byte past the limit.
    ensures taken { R.given reader.new ≤ R.given reader.old + limits.input + 1 }
{
    let tables = index_tables(alloc, limits.ids);
    run_stream_with(alloc, job, reader, writer, errors, limits, tables)
}

/// Does what [`run_stream`] does, with these tables for the names of ids. They have to be empty,
/// each with the limit `limits.ids`.
pub fn run_stream_with<R: Source, W: Sink, E: Sink, T: NameTable + Drop>(
    alloc: Global,
    job: &Job,
    reader: &mut R,
    writer: &mut W,
    errors: &mut E,
    limits: Limits,
    tables: Tables<T>,
) -> u8
    requires stream { (a b per_stop : _) → job.now ≡ Job.Compare a b per_stop → ⊥ }
    requires limits { AreSound limits }
    requires tables { AreReady T.numbers T.limit limits tables }
    requires reader { CanRead R.Source reader.old }
    requires writers { CanWrite W.Sink writer.old × CanWrite E.Sink errors.old }

    // What `run_stream` promises, whatever the tables are.
    ensures done { JobIsDone limits (reads R.Source reader.old reader.new)
        (writes W.Sink writer.old writer.new) (writes E.Sink errors.old errors.new) result job.now }
    ensures taken { R.given reader.new ≤ R.given reader.old + limits.input + 1 }
{
    match *job {
        Job::Compact => report_outcome(errors, compact(alloc, reader, writer, limits)),
        Job::Record => report_outcome(errors, record(alloc, reader, writer, limits)),
        Job::Normalise { .. } => report_outcome(
            errors,
            normalise_with(alloc, reader, writer, limits, tables, job.mode()),
        ),
        Job::Check { complete, .. } => {
            match check_with(alloc, reader, limits, complete, tables, job.mode()) {
                Ok(checked) => Answer::Accepted(checked).print(writer, errors),
                Err(refused) => report_outcome(errors, Err(refused)),
            }
        }
        Job::Show => report_outcome(errors, show(alloc, reader, writer, limits)),
        Job::Compare { .. } => unreachable!(),
    }
}

/// Prints why the arguments name no job, and returns the program's status.
///
/// Help, or the version, that was requested goes to `writer`: the status is 0, or 4 if the writer
/// fails. An error in the arguments goes to `errors`, with status 3, and a failed allocation with
/// status 5. A failure of `errors` is not reported.
pub fn run_usage<W: Sink, E: Sink>(fault: &UsageFault, writer: &mut W, errors: &mut E) -> u8
    requires writers { CanWrite W.Sink writer.old × CanWrite E.Sink errors.old }
    ensures { ReportsUsage W.Sink E.Sink fault.now writer.old writer.new errors.old errors.new
        result }
{
    match fault {
        UsageFault::Help(text) => match write_and_flush(writer, text.as_bytes()) {
            Ok(()) => DONE,
            Err(_) => FAULT,
        },
        UsageFault::Usage(text) => {
            report_line(errors, Line::Whole(text));
            USAGE
        }
        UsageFault::Memory => {
            report_line(errors, crate::line::fault(Part::Refused(Refused::Memory)));
            MEMORY
        }
    }
}
