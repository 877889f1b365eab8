//! Defines the commands and the jobs that a command line can select.
ghost use Rattle.std.specs.Prelude.{◌≡◌};
ghost use Rattle.dap_commands.specs.{Commands.task_of, Jobs.{job_mode, mode_for}, Reading.given};

use crate::reading::{has_flag, name_of, required};
use clap::ArgMatches;
use dap_rename::Mode;
use std::marker::Model;

/// A name in a command line, such as that of a file. It represents its bytes.
#[derive(Drop)]
pub struct Name<'a>(&'a str);

impl<'a> Model for Name<'a> {
    ghost use Rattle.std.specs.Prelude.{ℕ, List};

    ghost Value = { List ℕ };

    ghost view = { λ n. n.0.now };
}

impl<'a> Name<'a> {
    /// Returns the name with this text.
    pub fn new(text: &'a str) -> Name<'a>
        ensures { result ≡ text.entry.now }
    {
        Name(text)
    }

    /// Returns the text of the name.
    pub fn as_str(&self) -> &'a str
        ensures { result.now ≡ self.now }
    {
        self.0
    }
}

/// What a command line requests.
#[derive(Drop)]
pub struct Request<'a> {
    pub command: Command<'a>,
    /// The values of the option `--word`, in the order of the arguments.
    pub words: Vec<Name<'a>>,
    /// Whether a rejection is explained in further lines. `golden` and `order` explain without the
    /// flag.
    pub explain: bool,
}

/// A command of the program. An `input` of `None` or `-` is standard input, and an `output` of
/// `None` or `-` is standard output.
#[derive(Drop)]
pub enum Command<'a> {
    /// Read one input, and write one output.
    Stream {
        task: Task<'a>,
        input: Option<Name<'a>>,
        output: Option<Name<'a>>,
    },
    /// Validate a recording, after it is masked and put in order by the rules in the file `rules`
    /// and the words. With `complete`, each request must have a response.
    Check {
        complete: bool,
        mode: Mode,
        input: Option<Name<'a>>,
        rules: Option<Name<'a>>,
    },
    /// Compare the recordings in the files `a` and `b`, after they are masked and put in order by
    /// the rules in the file `rules` and the words.
    Pair {
        printed: Printed,
        a: Name<'a>,
        b: Name<'a>,
        rules: Option<Name<'a>>,
        mode: Mode,
    },
    /// Suggest rules that make the recordings in the files `a` and `b` the same, in addition to
    /// the rules in the file `rules` and the words. If `strict`, only rules that hide nothing that
    /// a test looks at.
    Suggest {
        strict: bool,
        a: Name<'a>,
        b: Name<'a>,
        rules: Option<Name<'a>>,
    },
    /// Create, update or compare a golden file.
    Golden(Golden<'a>),
    /// Print the rows of the profile, or only the row with the number in this argument.
    Rows {
        number: Option<Name<'a>>,
    },
}

/// What is done to one input.
#[derive(Drop)]
pub enum Task<'a> {
    /// Rewrite the contents of frames as canonical JSON.
    Compact,
    /// Convert a trace into a recording.
    Record,
    /// Write the normal form of a recording.
    Normalise(Mode),
    /// Print a recording for people.
    Show(Show<'a>),
    /// Mask a recording by the rules in the file with this name, and the words.
    Mask(Name<'a>),
    /// Put a recording in order by the rules in the file with this name.
    Order(Name<'a>),
    /// Replace the declared ids of a recording by names, by the rules in the file with this name.
    Name(Name<'a>),
}

/// The options of `show`.
#[derive(Drop)]
pub struct Show<'a> {
    /// Whether to print each value of each record.
    pub full: bool,
    /// Whether to print the recording as a transcript.
    pub yaml: bool,
    /// Whether to continue after a record that is rejected, and mark it.
    pub faulty: bool,
    /// The number of the only record whose content is printed, as given.
    pub record: Option<Name<'a>>,
}

/// Returns the task of a subcommand that reads one input and writes one output.
pub(crate) fn task_by<'a>(name: &str, rows: &ArgMatches<'a>) -> Option<Task<'a>>
    ensures { result ≡ task_of name.now (given rows.now) }
{
    Some(match name {
        "record" => Task::Record,
        "normalise" => Task::Normalise(mode_for(has_flag(rows, "per-stop"))),
        "show" => Task::Show(Show {
            full: has_flag(rows, "full"),
            yaml: has_flag(rows, "yaml"),
            faulty: has_flag(rows, "faulty"),
            record: name_of(rows, "record"),
        }),
        "mask" => Task::Mask(required(rows, "RULES")),
        "order" => Task::Order(required(rows, "RULES")),
        "name" => Task::Name(required(rows, "RULES")),
        "compact" => Task::Compact,
        _ => return None,
    })
}

/// The output for two recordings.
#[derive(Clone, Copy, Debug, PartialEq, Eq)]
pub enum Printed {
    /// Whether they are the same, or where they first differ.
    Verdict,
    /// The differences in the first record that differs.
    FirstDifference,
    /// The differences in all records.
    AllDifferences,
}

/// The files and options of `golden`.
#[derive(Drop)]
pub struct Golden<'a> {
    /// The golden file.
    pub golden: Name<'a>,
    /// The file of the session. `None` or `-` is standard input.
    pub input: Option<Name<'a>>,
    /// The file of the rules by which the session is masked and put in order, before the words.
    pub rules: Option<Name<'a>>,
    /// The mode in which the ids of the session are numbered.
    pub mode: Mode,
    /// Whether a session in which a request has no response is accepted.
    pub open: bool,
    /// Whether the golden file is written if it differs or does not exist. Otherwise the session
    /// is compared with it.
    pub update: bool,
}

/// A task of the library that a command line without files selects.
#[derive(Clone, Copy, Debug, PartialEq, Eq)]
pub enum Job<'a> {
    /// Rewrite the contents of frames as canonical JSON.
    Compact,
    /// Convert a trace into a recording.
    Record,
    /// Write the normal form of a recording. With `per_stop`, the numbering of ids restarts at each
    /// stop.
    Normalise {
        per_stop: bool,
    },
    /// Validate a recording. With `complete`, each request must have a response.
    Check {
        complete: bool,
        per_stop: bool,
    },
    /// Print a recording as lines.
    Show,
    /// Compare the recordings in the files with these names.
    Compare {
        a: &'a str,
        b: &'a str,
        per_stop: bool,
    },
}

/// Returns the mode that the option `--per-stop` selects.
pub(crate) fn mode_for(per_stop: bool) -> Mode
    ensures { result ≡ mode_for per_stop }
{
    if per_stop { Mode::PerStop } else { Mode::Whole }
}

impl Job<'_> {
    /// Returns the mode in which the job numbers ids. It is `Whole` for a job that does not number
    /// ids.
    pub fn mode(&self) -> Mode
        ensures { result ≡ job_mode self.now }
    {
        match *self {
            Job::Normalise { per_stop }
            | Job::Check { per_stop, .. }
            | Job::Compare { per_stop, .. } => mode_for(per_stop),
            Job::Compact | Job::Record | Job::Show => Mode::Whole,
        }
    }
}

/// Why the arguments do not select a command or a job.
#[derive(Debug, Drop)]
pub enum UsageFault {
    /// The arguments are invalid. Contains the message for the user.
    Usage(String),
    /// The arguments request help or the version. Contains the text to print.
    Help(String),
    /// An allocation failed.
    Memory,
}
