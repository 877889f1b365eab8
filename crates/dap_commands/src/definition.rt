//! Defines the program's command line.
use crate::arguments::Kind::{File, Flag, Lettered, Optional, Value, Values};
use crate::arguments::{Argument, Program, Subcommand, define_program};

// The arguments of several subcommands, and the help of a file of rules.
const RULES: &str = "The rules file: what may differ between runs";

const BY_RULES: Argument = Argument("rules", Value("RULES"), RULES);

const WORD: Argument = Argument(
    "word",
    Values("TEXT=WORD"),
    "Replaces TEXT by WORD in every text of a message; repeatable",
);

const INPUT: Argument = Argument(
    "FILE",
    Optional,
    "The input file; without it, or with -, standard input",
);

const OUTPUT: Argument = Argument(
    "output",
    Lettered('o', "FILE"),
    "The output file; without it, standard output",
);

const PER_STOP: Argument = Argument(
    "per-stop",
    Flag,
    "Restarts frame ids and variables references at 1 after each stop",
);

const EXPLAIN: Argument = Argument(
    "explain",
    Flag,
    "Explains an error in further lines; buffers the whole input",
);

const FILE_A: Argument = Argument("A", File, "The first recording");

const FILE_B: Argument = Argument("B", File, "The second recording");

/// The program.
pub(crate) const PROGRAM: Program = define_program! {
    "Records, checks, normalises and compares Debug Adapter Protocol sessions";
    "golden"(
        BY_RULES, WORD, PER_STOP,
        Argument("open", Flag, "Accepts a session in which some request has no response"),
        Argument("update", Flag, "Writes the golden file if it differs or does not exist"),
        Argument("GOLDEN", File, "The golden file"),
        Argument("INPUT", Optional, "A trace or a recording; without it, or with -, standard input")
    ): "Compares a session with its golden file, or makes it with --update",
        "session.golden session.trace";
    "record"(EXPLAIN, INPUT, OUTPUT): "Converts a trace into a recording",
        "session.trace -o session.rec";
    "check"(
        Argument("complete", Flag, "Also requires a response to each request"),
        BY_RULES, WORD, PER_STOP, EXPLAIN, INPUT
    ): "Checks a recording, and prints the number of its records or the first error",
        "--complete session.rec";
    "normalise"(PER_STOP, EXPLAIN, INPUT, OUTPUT):
        "Writes the normal form of a recording", "session.rec -o session.normal";
    "compare"(FILE_A, FILE_B, BY_RULES, WORD, PER_STOP, EXPLAIN):
        "Compares two recordings, ignoring ids", "session.golden session.rec";
    "diff"(
        FILE_A, FILE_B, BY_RULES, WORD, PER_STOP, EXPLAIN,
        Argument("all", Flag, "Pairs the records of both files, and prints all differences")
    ): "Prints what differs in the first record that differs", "session.golden session.rec";
    "suggest"(
        Argument("A", File, "The recording of one run"),
        Argument("B", File, "The recording of another run"),
        Argument("rules", Value("RULES"),
            "The file of the rules that there are; only further rules are printed"),
        WORD,
        Argument("strict", Flag, "Prints no rule that would have to be checked"),
        EXPLAIN
    ): "Prints rules that make the recordings of two files the same", "run1.rec run2.rec";
    "show"(
        Argument("full", Flag, "Prints each value of each record, with its path"),
        Argument("yaml", Flag, "Prints the recording as a transcript, in YAML"),
        Argument("faulty", Flag, "Marks rejected records and continues"),
        Argument("record", Value("N"), "Prints only the content of record N, as indented JSON"),
        EXPLAIN, INPUT, OUTPUT
    ): "Prints one line for each record", "session.rec";
    "mask"(Argument("RULES", File, RULES), WORD, EXPLAIN, INPUT, OUTPUT):
        "Redacts a recording by the rules of a file", "lldb.rules session.rec -o session.masked";
    "order"(
        Argument("RULES", File, "The rules file: which messages may change places"), INPUT, OUTPUT
    ): "Puts the records of a recording in the order that the rules define",
        "lldb.rules session.rec -o session.ordered";
    "name"(
        Argument("RULES", File, "The rules file: the ids that get names"), EXPLAIN, INPUT, OUTPUT
    ): "Replaces declared ids by names, by the rules of a file",
        "lldb.rules session.rec -o session.named";
    "compact"(EXPLAIN, INPUT, OUTPUT):
        "Rewrites frames of one direction with canonical JSON",
        "session.frames -o session.compact";
    "rows"(Argument("N", Optional, "The number of a row")):
        "Prints the rows of the profile, or row N", "62";
};
