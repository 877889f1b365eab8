//! The rules of a session.
ghost use Rattle.std.specs.Prelude.{◌≡◌, ◌≤◌, length};
ghost use Rattle.dap_session.specs.RuleName.{rule_fix, rule_meaning, rule_name};

use std::{error, fmt};
use thiserror::Error;

/// The rules that a message can break, in the order in which they are tested. The first broken rule
/// is reported.
///
/// An `output` event of the adapter breaks no rule. The rules are those of the DAP specification,
/// except `AfterDisconnect` and `ConfiguredTwice`, which are this project's own.
#[derive(Clone, Copy, Debug, PartialEq, Eq, Drop)]
pub enum Rule {
    /// The client sent an event.
    ///
    /// - Cause: the markers `>` and `<` are exchanged.
    EventFromClient,
    /// A message comes before the client's `initialize` request.
    ///
    /// - Cause: the recording does not start where the session does.
    NotInitialized,
    /// Something other than a response of the adapter comes before `initialize` has a response.
    ///
    /// - Cause: a client that does not wait; a recording without the response; a trace made from an
    ///   adapter's log, whose lines may be in another order. `python3 -m dapnorm.tee` records a trace
    ///   in order.
    StillInitializing,
    /// An `initialize` request of either side follows the client's.
    ///
    /// - Cause: two sessions are in one recording.
    InitializeTwice,
    /// A request of the client follows a successful response to `disconnect`. This rule is the
    /// project's own.
    ///
    /// - Cause: two sessions in one recording, or a client that continues.
    AfterDisconnect,
    /// A request has the `seq` of an earlier request of its side.
    ///
    /// - Cause: two sessions in one recording, or a sender that restarts its numbers.
    SeqUsed,
    /// A `configurationDone` request of the client comes before any `initialized` event.
    ///
    /// - Cause: a client that does not wait for the event; a recording without it; a trace made
    ///   from an adapter's log.
    ConfiguredEarly,
    /// A second `configurationDone` request of the client. This rule is the project's own.
    ///
    /// - Cause: a client that sends it again, for example after a change of breakpoints.
    ConfiguredTwice,
    /// The `request_seq` of a response is the `seq` of no earlier request of the other side.
    ///
    /// - Cause: the request was not recorded, or was recorded after its response. `python3 -m
    ///   dapnorm.tee` records each piece before it passes it on.
    NoRequest,
    /// A second response to one request.
    ///
    /// - Cause: the adapter responds twice, for example with an error and then with success.
    AnsweredTwice,
    /// The `command` of a response is not that of its request.
    ///
    /// - Cause: the adapter writes another name, or an empty one, as delve does for a command that
    ///   it does not know. Leave such a request out of the session.
    OtherCommand,
}

impl Rule {
    /// Returns the name of the rule.
    pub fn name(self) -> &'static str
        ensures name { result.now ≡ rule_name self }
        ensures short { length result.now ≤ 20 }
    {
        match self {
            Rule::EventFromClient => "EventFromClient",
            Rule::NotInitialized => "NotInitialized",
            Rule::StillInitializing => "StillInitializing",
            Rule::InitializeTwice => "InitializeTwice",
            Rule::AfterDisconnect => "AfterDisconnect",
            Rule::SeqUsed => "SeqUsed",
            Rule::ConfiguredEarly => "ConfiguredEarly",
            Rule::ConfiguredTwice => "ConfiguredTwice",
            Rule::NoRequest => "NoRequest",
            Rule::AnsweredTwice => "AnsweredTwice",
            Rule::OtherCommand => "OtherCommand",
        }
    }

    /// Returns what the rule requires.
    pub fn meaning(self) -> &'static str
        ensures { result.now ≡ rule_meaning self }
    {
        match self {
            Rule::EventFromClient => "only the adapter sends events",
            Rule::NotInitialized => {
                "only output events may come before the client's initialize request"
            }
            Rule::StillInitializing => {
                "before the response to initialize, only the adapter sends: responses and output events"
            }
            Rule::InitializeTwice => "a session has one initialize request",
            Rule::AfterDisconnect => {
                "the client sends no request after a successful disconnect response"
            }
            Rule::SeqUsed => "each request of a side has a seq of its own",
            Rule::ConfiguredEarly => "configurationDone comes after an initialized event",
            Rule::ConfiguredTwice => "the client sends configurationDone once",
            Rule::NoRequest => "a response answers an earlier request of the other side",
            Rule::AnsweredTwice => "a request has one response",
            Rule::OtherCommand => "a response has the command of its request",
        }
    }

    /// Returns what to do about a message that breaks the rule.
    pub fn fix(self) -> &'static str
        ensures { result.now ≡ rule_fix self }
    {
        match self {
            Rule::EventFromClient => {
                "if > and < are exchanged in the input, fix the program that wrote it"
            }
            Rule::NotInitialized => "start to record before the client connects",
            Rule::StillInitializing => {
                "let the sender wait for that response; a trace made from a log may have another order"
            }
            Rule::ConfiguredEarly => {
                "let the client wait for that event; a trace made from a log may have another order"
            }
            Rule::ConfiguredTwice => "fix the client",
            Rule::NoRequest => "let the recorder write each message before it passes it on",
            Rule::AnsweredTwice | Rule::OtherCommand => "fix the program that sent the response",
            Rule::InitializeTwice | Rule::AfterDisconnect | Rule::SeqUsed => {
                "if the recording has two sessions, split it; otherwise fix the program that sent it"
            }
        }
    }
}

impl fmt::Display for Rule {
    ghost use Rattle.std.specs.Prelude.{Some};
    ghost use Rattle.dap_session.specs.RuleName.{rule_name};

    ghost output = { λ rule. Some (rule_name rule) };

    fn fmt<W: fmt::Write>(&self, f: &mut fmt::Formatter<W>) -> fmt::Result {
        f.write_str(self.name())
    }
}

impl error::Error for Rule {}

/// Why a message was not accepted.
#[derive(Clone, Copy, Debug, PartialEq, Eq, Drop, Error)]
pub enum SessionFault {
    /// The message breaks this rule, and no rule that is before it in [`Rule`].
    #[error(transparent)]
    Broken(Rule),
    /// An allocation failed.
    #[error("Memory")]
    Memory,
}
