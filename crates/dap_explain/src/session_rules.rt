//! Explains messages that violate a session rule, and requests without a response.
use crate::head::{Head, read_message};
use crate::lines::{Lines, fill};
use crate::records::{Record, Records};
use crate::words::Word::{self, Named, Number, Seq, Text};
use dap_profile::Kind;
use dap_session::Rule;
use dap_tree::Side;
use std::collections::BTreeSet;

/// A message to search for among the messages before the rejected one.
#[derive(Clone, Copy)]
enum Sought {
    /// The request of this side with this `seq`.
    Request(Side, i64),
    /// A response of this side to the request of the other side with this `seq`.
    Response(Side, i64),
    /// The client's request with this command.
    Command(&'static str),
    /// The adapter's successful response to `disconnect`.
    Farewell,
}

impl Sought {
    /// Returns whether a message matches.
    fn is_met_by(self, head: &Head<'_>) -> bool {
        let (side, kind, is_met) = match self {
            Sought::Request(side, seq) => (side, Kind::Request, head.seq == Some(seq)),
            Sought::Response(side, seq) => (side, Kind::Response, head.answered() == Some(seq)),
            Sought::Command(name) => (Side::Client, Kind::Request, head.name() == Some(name)),
            Sought::Farewell => {
                let is_met = head.is_success && head.name() == Some("disconnect");
                (Side::Adapter, Kind::Response, is_met)
            }
        };
        is_met && head.side == Some(side) && head.kind == Some(kind)
    }

    /// Returns the text about a message that matches: `{0}` is the number of its record, `{1}` its
    /// `seq`, and `{2}` and `{3}` its name, unquoted and as JSON.
    fn text(self) -> &'static str {
        match self {
            Sought::Request(Side::Client, _) => {
                "the client's request with seq {1} is{3}, in record {0}"
            }
            Sought::Request(Side::Adapter, _) => {
                "the adapter's request with seq {1} is{3}, in record {0}"
            }
            Sought::Response(..) => "record {0} is its first response",
            Sought::Command(_) => "the client's {2} request is record {0}",
            Sought::Farewell => "that response is record {0}",
        }
    }
}

/// Adds a line about the message of a record, if it matches, and returns whether it does. `None`:
/// it is not JSON.
fn add_if_met(lines: &mut Lines, record: Record<'_>, sought: Sought) -> Option<bool> {
    let message = read_message(lines, record.content, None)?;
    let head = Head::of(record.side, &message);
    let is_met = sought.is_met_by(&head);
    if is_met {
        let (name, seq) = (head.name(), Seq(head.seq.unwrap_or(0)));
        let text = Text(name.unwrap_or(""));
        fill!(lines; sought.text(), Number(record.number), seq, text, Named(name));
    }
    Some(is_met)
}

/// Adds a line about the first of the earlier messages that matches: what it is, and the number of
/// its record.
fn add_found(lines: &mut Lines, earlier: Records<'_>, sought: Sought) {
    for record in earlier {
        match add_if_met(lines, record, sought) {
            Some(true) => return,
            Some(false) => {}
            None => break,
        }
    }
    if let Sought::Request(side, seq) = sought {
        fill!(lines; "the {0} sent no request with seq {1} before it", Word::Side(side), Seq(seq));
    }
}

/// Returns the earlier message that is relevant for a rule that a message violates.
fn relevant(rule: Rule, head: &Head<'_>) -> Option<Sought> {
    match rule {
        Rule::StillInitializing | Rule::InitializeTwice => Some(Sought::Command("initialize")),
        Rule::ConfiguredTwice => Some(Sought::Command("configurationDone")),
        Rule::AfterDisconnect => Some(Sought::Farewell),
        Rule::SeqUsed => Some(Sought::Request(head.side?, head.seq?)),
        Rule::NoRequest | Rule::OtherCommand | Rule::AnsweredTwice => {
            let other = match head.side? {
                Side::Client => Side::Adapter,
                Side::Adapter => Side::Client,
            };
            Some(Sought::Request(other, head.answered()?))
        }
        Rule::EventFromClient | Rule::NotInitialized | Rule::ConfiguredEarly => None,
    }
}

/// Explains that the message of a record violates a session rule, after these records.
pub(crate) fn explain_rule(lines: &mut Lines, earlier: Records<'_>, head: &Head<'_>, rule: Rule) {
    lines.add(rule.meaning());
    if let Some(sought) = relevant(rule, head) {
        add_found(lines, earlier, sought);
    }
    if let (Rule::AnsweredTwice, Some(side), Some(seq)) = (rule, head.side, head.answered()) {
        add_found(lines, earlier, Sought::Response(side, seq));
    }
    lines.add(rule.fix());
}

/// The maximum number of requests that are named.
const NAMED: usize = 5;

/// The requests that have a response: whether the client sent it, and its `seq`.
type Answered = BTreeSet<(bool, i64)>;

/// Adds a line about the request of a record that has no response. Otherwise returns `None`.
fn add_unanswered(lines: &mut Lines, record: Record<'_>, answered: &Answered) -> Option<()> {
    let message = read_message(lines, record.content, None)?;
    let head = Head::of(record.side, &message);
    add_open(lines, record.number, &head, answered)
}

/// Adds a line about the request with this head, in the record with this number, if a response is
/// absent. Otherwise returns `None`.
fn add_open(lines: &mut Lines, number: u64, head: &Head<'_>, answered: &Answered) -> Option<()> {
    let (side, seq) = (head.side?, head.seq?);
    if head.kind != Some(Kind::Request) || answered.contains(&(side == Side::Client, seq)) {
        return None;
    }
    fill!(lines; "the {0}'s request{1} with seq {2}, in record {3}, has no response",
        Word::Side(side), Named(head.name()), Seq(seq), Number(number));
    Some(())
}

/// Adds the requests of both sides that have a response. `None`: a content is not JSON.
fn collect(lines: &mut Lines, records: Records<'_>, answered: &mut Answered) -> Option<()> {
    for record in records {
        let message = read_message(lines, record.content, None)?;
        if let Some(seq) = Head::of(record.side, &message).answered() {
            let added = answered.insert((record.side == Some(Side::Adapter), seq));
            lines.fail_if(added.is_err());
        }
    }
    Some(())
}

/// Explains that `count` requests have no response, and names the first five of them.
pub(crate) fn explain_incomplete(lines: &mut Lines, records: Records<'_>, count: usize) {
    let mut answered = BTreeSet::new(lines.alloc);
    if collect(lines, records, &mut answered).is_none() {
        return;
    }
    let unanswered = records.filter_map(|record| add_unanswered(lines, record, &answered));
    let named = unanswered.take(NAMED).count();
    let more = count.saturating_sub(named);
    if named == NAMED && more > 0 {
        fill!(lines; "and {0} more", Number(more as u64));
    }
    lines.add("wait for each response before the end, or accept open requests with golden --open");
}
