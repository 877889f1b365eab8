//! Explains rejected files of rules.
ghost use Rattle.std.specs.Prelude.{◌≡◌, IfOk, string_bytes};
ghost use Rattle.dap_mask.specs.Declarations.{is_sort_word};
ghost use Rattle.dap_explain.specs.{Lines.AreLines, Unexplained.IsEmpty};

use crate::header::{is_lf, line_at};
use crate::lines::{Lines, fill};
use crate::words::Word::{self, Bytes, Cut, Line, Number};
use RulePart::{
    As, Category, Event, JoinedKind, JoinedName, Kind, Label, Limit, Name, Place, SecondKind, Span,
    Text, Value,
};
use dap_mask::{
    ByteClass, MaskRules, RulesCause, RulesFault, any_name, is_end, name_at, place_at, split_run,
    value_at,
};
use dap_profile::Kind as MessageKind;
use dap_tree::SORTS;
use std::alloc::{AllocError, Global};
use std::str;

/// Adds the line about a word that is wrong.
fn add_wrong(lines: &mut Lines, word: &[u8], what: &str) {
    fill!(lines; "{0} {1}", Bytes(word), Word::Text(what));
}

/// Returns the bytes after the leading blanks.
fn after_blanks(bytes: &[u8]) -> &[u8] {
    split_run(bytes, ByteClass::Blank).1
}

/// Splits a line after its first word, which is its verb.
fn split_verb(line: &[u8]) -> (&[u8], &[u8]) {
    split_run(after_blanks(line), ByteClass::Word)
}

/// Returns whether a line has this verb.
fn has_verb(line: &[u8], verb: &[u8]) -> bool {
    split_verb(line).0 == verb
}

/// A part of a rule after its verb.
#[derive(Clone, Copy, PartialEq, Eq)]
enum RulePart {
    Kind,
    /// The kind of the events that a rule drops.
    Event,
    /// The kind of the second message of a swap.
    SecondKind,
    /// The name of a message, or `*`.
    Name,
    /// A text that has a word, or its word.
    Text,
    Place,
    /// The category of the events that a rule drops, which may be missing.
    Category,
    /// The category of the events that a rule changes, which may be missing.
    Limit,
    /// The kind of the events that a rule joins.
    JoinedKind,
    /// The name of the events that a rule joins.
    JoinedName,
    /// The word `per-stop` after these, which may be missing.
    Span,
    /// The value of a member that a rule sets.
    Value,
    /// The word `as`, which may be missing with the label after it.
    As,
    /// The label of declared ids.
    Label,
}

/// Returns the parts of a rule with a verb.
fn parts_of(verb: &[u8]) -> Option<&'static [RulePart]> {
    match verb {
        b"blank" | b"digits" | b"hex" | b"long" | b"uuid" => {
            Some(&[Kind, Name, Limit, Place, As, Label])
        }
        b"drop" => Some(&[Event, Name, Category]),
        b"fill" => Some(&[Kind, Name, Place, Value]),
        b"join" => Some(&[JoinedKind, JoinedName, Span]),
        b"omit" => Some(&[Kind, Name, Place]),
        b"swap" => Some(&[Kind, Name, SecondKind, Name]),
        b"word" => Some(&[Text, Text]),
        b"per-stop" => Some(&[]),
        _ => None,
    }
}

/// Returns the kind of message that a word names.
fn kind_of(word: &[u8]) -> Option<MessageKind> {
    MessageKind::named(str::from_utf8(word).ok()?)
}

impl RulePart {
    /// Returns that the part is missing.
    fn missing(self) -> &'static str {
        match self {
            Kind | Event => "after the verb comes a kind: request, response or event",
            SecondKind => "a swap names two messages: write swap KIND NAME KIND NAME",
            Name => "after the kind comes a command or an event, or * for any",
            Text => "a text and its word are needed: write word TEXT WORD",
            Place | Category | Limit => "after the name comes a place, such as body.reason",
            JoinedKind | JoinedName | Span => "only output is joined: write join event output",
            Value => "after the place comes a value: an integer, true, false or a string in quotes",
            As | Label => "after as comes a label, such as address",
        }
    }

    /// Returns that a word is not the part, and what is allowed there.
    fn wrong(self, word: &[u8]) -> &'static str {
        match self {
            Event if kind_of(word).is_some() => "cannot be dropped: write drop event NAME",
            Kind | Event | SecondKind => "is not a kind: write request, response or event",
            Name =>
                "is not a name: quote one with other characters than letters, digits, _, - and $",
            Text =>
                "is not a text: quote one with other characters than letters, digits, _, - and $",
            Place =>
                "is not a place: write names with dots between them, [] for elements, and quotes as for names",
            Category | Limit => "is not a category: write category= and a word or a JSON string",
            JoinedKind | JoinedName => "cannot be joined: write join event output",
            Span => "is not per-stop: write join event output per-stop, or leave it out",
            Value => "is not a value: write an integer, true, false or a string in quotes",
            As => "is after the rule: only as LABEL or a comment may be there",
            Label => LABEL_WORDS,
        }
    }

    /// Returns the bytes after the part at the start of these, or `None` if it is not there.
    fn after<'l>(self, lines: &mut Lines, bytes: &'l [u8]) -> Option<&'l [u8]> {
        let alloc = lines.alloc;
        let (word, rest) = split_run(bytes, ByteClass::Word);
        match self {
            Kind | SecondKind => kind_of(word).map(|_| rest),
            Event | JoinedKind => (kind_of(word)? == MessageKind::Event).then_some(rest),
            JoinedName => matches!(word, b"output" | b"\"output\"").then_some(rest),
            Span => matches!(word, b"per-stop").then_some(rest),
            As => matches!(word, b"as").then_some(rest),
            Value => Some(lines.value_of(value_at(alloc, bytes))??.1),
            Name => Some(lines.value_of(any_name(alloc, bytes))??.1),
            Text | Label => Some(lines.value_of(name_at(alloc, bytes))??.1),
            Place => Some(lines.value_of(place_at(alloc, bytes))??.1),
            Category | Limit => {
                let text = bytes.strip_prefix(b"category=")?;
                Some(lines.value_of(name_at(alloc, text))??.1)
            }
        }
    }

    /// Returns whether the part may be missing, and is not at the start of the text.
    fn is_left_out(self, text: &[u8]) -> bool {
        match self {
            Category | Span => is_end(text),
            Limit => !after_blanks(text).starts_with(b"category="),
            _ => false,
        }
    }

    /// Returns the bytes of the part after blanks, and the bytes after it. If the part is not
    /// there, adds the line about it.
    fn read<'l>(self, lines: &mut Lines, text: &'l [u8]) -> Option<(&'l [u8], &'l [u8])> {
        if is_end(text) {
            lines.add(self.missing());
            return None;
        }
        let bytes = after_blanks(text);
        match self.after(lines, bytes) {
            Some(rest) if matches!(rest, [] | [b'#' | b' ' | b'\t' | b'\r', ..]) => {
                Some((bytes.strip_suffix(rest)?, rest))
            }
            _ => {
                let word = split_run(bytes, ByteClass::Word).0;
                add_wrong(lines, word, self.wrong(word));
                None
            }
        }
    }
}

/// The parts of a rule that its explanation shows.
#[derive(Clone, Copy)]
struct Shown<'l> {
    /// The place, or the verb of a rule without a place.
    place: &'l [u8],
    /// The label, if the rule declares ids.
    label: Option<&'l [u8]>,
}

/// Reads the parts of a rule after its verb. Returns those that are shown, and the bytes after all
/// parts. If a part is wrong, adds the line about it.
fn read_parts<'l>(
    lines: &mut Lines,
    parts: &[RulePart],
    verb: &'l [u8],
    text: &'l [u8],
) -> Option<(Shown<'l>, &'l [u8])> {
    let kind = kind_of(split_verb(text).0);
    let (mut place, mut label, mut rest) = (verb, None, text);
    for part in parts {
        if *part == As && is_end(rest) {
            break;
        }
        if part.is_left_out(rest) {
            continue;
        }
        if *part == Limit && kind != Some(MessageKind::Event) {
            lines.add("only a rule for events has a category: leave category= out");
            return None;
        }
        let (bytes, after) = part.read(lines, rest)?;
        match part {
            Place => place = bytes,
            Label => label = Some(bytes),
            _ => {}
        }
        rest = after;
    }
    Some((Shown { place, label }, rest))
}

/// Returns the parts of a rule that are shown. For a line that is not a rule, adds the line about
/// what is wrong with it, if that is recognised.
fn parts_in<'l>(lines: &mut Lines, line: &'l [u8]) -> Option<Shown<'l>> {
    let (verb, text) = split_verb(line);
    let Some(parts) = parts_of(verb) else {
        let verbs =
            "is not a verb: write blank, digits, hex, long, uuid, drop, fill, join, omit, swap, word or per-stop";
        add_wrong(lines, verb, verbs);
        return None;
    };
    let (shown, rest) = read_parts(lines, parts, verb, text)?;
    if is_end(rest) {
        return Some(shown);
    }
    let comment = "is after the rule: only a comment may be there";
    add_wrong(lines, after_blanks(rest), comment);
    None
}

/// What to do about two rules that exclude each other.
const ONE_ADVICE: &str = "leave one of them out";

const CATEGORY_ADVICE: &str =
    "no rule changes the category by which a rule drops events: leave one of them out";

const LIMIT_ADVICE: &str =
    "no rule changes the category by which a rule selects events: leave one of them out";

const JOIN_ADVICE: &str =
    "no rule changes the category by which output is joined: leave one of them out";

const FILL_ADVICE: &str =
    "no rule blanks a value in which another one sets a member: leave one of them out";

const UUID_ADVICE: &str = "no place has both: leave one of them out";

const LABEL_ADVICE: &str =
    "at one place each action has one label, and blank excludes the others: leave one of them out";

const NUMBER_ADVICE: &str =
    "no rule changes the numbers in the names of declared ids: leave one of them out";

/// What to do about a word that can overlap a text.
const WORD_ADVICE: &str =
    "choose a word that shares no start or end with a text, such as \"<home>\"";

/// What is wrong with a path to a member of the message itself that no rule may change.
const RECOGNISED: &str = "a member by which dapnorm recognises messages";

/// What is wrong with a text that is not a label.
const LABEL_WORDS: &str =
    "is not a label: write lower-case letters and -, with a letter first, such as address";

/// Returns what is wrong with a path that no rule may change, or at which none may declare ids.
fn place_words(place: &[u8], declares: bool) -> &'static str {
    if matches!(place, b"type" | b"command" | b"event" | b"success") {
        RECOGNISED
    } else if place.ends_with(b".name") || place.ends_with(b".\"name\"") {
        if declares {
            "the name by which rules find elements"
        } else {
            "the name by which the rule finds its element"
        }
    } else if matches!(place, b"body" | b"body.category") {
        if declares {
            "the category by which rules find events, or the body that contains it"
        } else {
            "the category by which the rule finds its events, or the body that contains it"
        }
    } else if place.contains(&b'"') {
        "an id, or a member by which dapnorm or the rule recognises messages"
    } else {
        "an id that normalise renames, so no rule changes it"
    }
}

/// Adds the line about a place that no rule may change, or at which none may declare ids, or that
/// is not that of a member to set or of elements to omit.
fn add_bad_place(lines: &mut Lines, line: &[u8], shown: Shown<'_>) {
    let Shown { place, label } = shown;
    let what = place_words(place, label.is_some());
    let text = if has_verb(line, b"omit") {
        "{0} is not a place of omit: end it with [\"NAME\"], the name of the elements"
    } else if has_verb(line, b"fill") && what != RECOGNISED {
        "{0} is not a place of fill: end it with a name, and write [] for elements"
    } else {
        "{0} is {1}: leave the rule out"
    };
    fill!(lines; text, Bytes(place), Word::Text(what));
}

fn is_sort_word(text: &str) -> bool
    ensures { result ≡ is_sort_word text.now }
{
    SORTS.iter().any(|sort| sort.word() == text)
}

/// Returns whether a label is the name of a kind of id. Stores if an allocation failed.
fn is_kind_of_id(lines: &mut Lines, label: &[u8]) -> bool {
    let name = name_at(lines.alloc, label);
    match lines.value_of(name) {
        Some(Some((name, _))) => is_sort_word(name.as_str()),
        _ => false,
    }
}

/// Adds the line about a label that no rule may have.
fn add_bad_label(lines: &mut Lines, label: &[u8]) {
    let what = if is_kind_of_id(lines, label) {
        "is the name of a kind of id that normalise renames: choose another label"
    } else {
        LABEL_WORDS
    };
    add_wrong(lines, label, what);
}

/// Reads a file of rules. Stores if an allocation failed.
fn read_rules(lines: &mut Lines, rules: &[u8]) -> Result<MaskRules, RulesFault> {
    let rules = MaskRules::read(lines.alloc, rules);
    let is_failed = matches!(&rules, Err(fault) if fault.cause == RulesCause::Memory);
    lines.fail_if(is_failed);
    rules
}

/// Returns why a text is not a file of rules. Stores if an allocation failed.
pub(crate) fn fault_in(lines: &mut Lines, rules: &[u8]) -> Option<RulesFault> {
    read_rules(lines, rules).err()
}

/// Returns whether the second of two lines, which these parts form, is the first that is rejected,
/// for this reason.
fn is_second_refused(lines: &mut Lines, parts: &[&[u8]], cause: RulesCause) -> bool {
    let rules = parts.concat(lines.alloc);
    let rules = lines.value_of(rules);
    let fault = Some(RulesFault { line: 2, cause });
    rules.is_some_and(|rules| fault_in(lines, rules.as_slice()) == fault)
}

/// Returns whether two lines exclude each other whatever the verb of the second one, which is not
/// `drop`: one of them may change the category by which the other one selects events.
fn is_by_category(lines: &mut Lines, earlier: &[u8], line: &[u8]) -> bool {
    let rest = split_verb(line).1;
    let parts = [earlier, b"\n".as_slice(), b"blank".as_slice(), rest];
    is_second_refused(lines, &parts, RulesCause::Clash)
}

/// Returns whether a line is a rule for the events of one category.
fn has_category(lines: &mut Lines, line: &[u8]) -> bool {
    let rules = read_rules(lines, line);
    rules.is_ok_and(|rules| matches!(rules.changes(), [rule] if rule.category.is_some()))
}

/// Returns whether a line is a rule that declares ids.
fn is_declaration(lines: &mut Lines, line: &[u8]) -> bool {
    let rules = read_rules(lines, line);
    rules.is_ok_and(|rules| !rules.declared().is_empty())
}

/// Returns what to do about two lines that declare ids at one place.
fn label_advice(earlier: &[u8], line: &[u8]) -> &'static str {
    let apart = [b"uuid".as_slice(), b"digits".as_slice()];
    let (verb, other) = (split_verb(earlier).0, split_verb(line).0);
    if verb != other && apart.contains(&verb) && apart.contains(&other) {
        UUID_ADVICE
    } else {
        LABEL_ADVICE
    }
}

/// Returns how an earlier line clashes with a line, and what to do, if one of them declares ids.
fn clash_of_ids(
    lines: &mut Lines,
    earlier: &[u8],
    line: &[u8],
) -> Option<(&'static str, &'static str)> {
    match (is_declaration(lines, earlier), is_declaration(lines, line)) {
        (true, true) => Some((
            "declares ids at the same place",
            label_advice(earlier, line),
        )),
        (true, false) => Some(("declares ids at the same place", NUMBER_ADVICE)),
        (false, true) if has_verb(earlier, b"digits") => {
            Some(("has a digits rule for the same place", NUMBER_ADVICE))
        }
        (false, true) => Some(("has a long rule for the same place", NUMBER_ADVICE)),
        (false, false) => None,
    }
}

/// Returns how an earlier line clashes with a line, and what to do. Neither declares ids. A rule
/// that changes the category by which another rule selects events is without a category itself.
fn clash(lines: &mut Lines, earlier: &[u8], line: &[u8]) -> (&'static str, &'static str) {
    if has_verb(line, b"fill") && has_verb(earlier, b"fill") {
        ("may set the same member", ONE_ADVICE)
    } else if has_verb(line, b"fill") {
        ("blanks a value that contains the member", FILL_ADVICE)
    } else if has_verb(earlier, b"fill") {
        (
            "sets a member of the value that this line blanks",
            FILL_ADVICE,
        )
    } else if has_verb(line, b"join") {
        ("changes the category", JOIN_ADVICE)
    } else if has_verb(earlier, b"join") {
        ("joins output by this category", JOIN_ADVICE)
    } else if has_verb(line, b"drop") {
        ("changes the category", CATEGORY_ADVICE)
    } else if has_verb(earlier, b"drop") {
        ("drops events by this category", CATEGORY_ADVICE)
    } else if is_by_category(lines, earlier, line) {
        (selection(lines, line), LIMIT_ADVICE)
    } else if has_verb(line, b"uuid") {
        ("has a digits rule for the same place", UUID_ADVICE)
    } else {
        ("has a uuid rule for the same place", UUID_ADVICE)
    }
}

/// Returns which of two lines selects events by the category that the other one changes.
fn selection(lines: &mut Lines, line: &[u8]) -> &'static str {
    if has_category(lines, line) {
        "changes the category by which this line selects events"
    } else {
        "selects events by the category that this line changes"
    }
}

/// Returns how an earlier line has the same rule as a line.
fn repetition(line: &[u8]) -> &'static str {
    match split_verb(line).0 {
        b"word" => "has a word for this text",
        b"join" => "joins output, too",
        b"fill" => "sets the same member",
        b"omit" => "omits the same elements",
        _ => "has the same rule",
    }
}

/// Returns how an earlier line excludes a line for this reason, and what to do.
fn exclusion(
    lines: &mut Lines,
    earlier: &[u8],
    line: &[u8],
    cause: RulesCause,
) -> (&'static str, &'static str) {
    match cause {
        RulesCause::Repeated => (repetition(line), ONE_ADVICE),
        RulesCause::BadWord => (
            "has a text or a word that can overlap those of this line",
            WORD_ADVICE,
        ),
        _ => match clash_of_ids(lines, earlier, line) {
            Some(clash) => clash,
            None => clash(lines, earlier, line),
        },
    }
}

/// Adds the lines about a rule that an earlier line excludes: the first one after which it is
/// rejected for this reason. Only a rule for a word can be rejected without an earlier line.
fn add_excluded(lines: &mut Lines, rules: &[u8], line: &[u8], fault: RulesFault) {
    if fault_in(lines, line).is_some_and(|alone| alone.cause == fault.cause) {
        lines.add("the text is empty, or its word can overlap it");
        return lines.add(WORD_ADVICE);
    }
    for (number, earlier) in (1..fault.line).zip(rules.split(is_lf)) {
        let parts = [earlier, b"\n".as_slice(), line];
        if !is_end(earlier) && is_second_refused(lines, &parts, fault.cause) {
            let (what, advice) = exclusion(lines, earlier, line, fault.cause);
            fill!(lines; "line {0} {1}", Number(number as u64), Word::Text(what));
            return lines.add(advice);
        }
    }
}

/// Adds the lines about why a line is rejected.
fn add_cause(lines: &mut Lines, rules: &[u8], line: &[u8], fault: RulesFault) {
    match fault.cause {
        RulesCause::BadRule => {
            if parts_in(lines, line).is_some() {
                lines.add(
                    "a rule is VERB KIND NAME PLACE, VERB event NAME category=TEXT PLACE, one of these and as LABEL, drop event NAME, drop event NAME category=TEXT, join event output, fill KIND NAME PLACE VALUE, omit KIND NAME PLACE, swap KIND NAME KIND NAME, word TEXT WORD, or per-stop",
                );
            }
        }
        RulesCause::BadPlace => {
            if let Some(shown) = parts_in(lines, line) {
                add_bad_place(lines, line, shown);
            }
        }
        RulesCause::BadLabel => {
            if let Some(shown) = parts_in(lines, line)
                && let Some(label) = shown.label
            {
                add_bad_label(lines, label);
            }
        }
        RulesCause::TooMany => {
            lines.add("a file has at most 1000 rules: join some by * in the place of a name")
        }
        RulesCause::NotUtf8 => lines.add("save the file as UTF-8"),
        _ => add_excluded(lines, rules, line, fault),
    }
}

/// Adds the lines about a rejected file of rules.
fn add_fault(lines: &mut Lines, rules: &[u8], fault: RulesFault)
    ensures { fault.cause ≡ RulesCause.Memory → lines.new ≡ lines.old }
{
    match fault.cause {
        RulesCause::Memory => {}
        RulesCause::TooLong => lines.add("a file of rules has at most 65536 bytes"),
        _ => {
            let line = line_at(rules, fault.line).unwrap_or(&[]);
            if let Some(text) = lines.utf8(Line(fault.line), line) {
                fill!(lines; "{0} is: {1}", Line(fault.line), Cut(text.trim()));
            }
            add_cause(lines, rules, line, fault);
        }
    }
}

/// Explains why a file of rules is rejected: the line, what is wrong with it, and what is allowed
/// there.
///
/// `rules` is the rejected file, and `fault` is the reason. The result is empty after `Memory`.
///
/// # Errors
///
/// `AllocError`: an allocation failed.
pub fn explain_rules(alloc: Global, rules: &[u8], fault: RulesFault) -> Result<String, AllocError>
    ensures lines { IfOk result (λ text. ∥ AreLines (string_bytes text) ∥₁) }

    // If an allocation failed, there is nothing to explain.
    ensures nothing { fault.cause ≡ RulesCause.Memory → IsEmpty result }
{
    let mut lines = Lines::new(alloc);
    add_fault(&mut lines, rules, fault);
    lines.into_text()
}
