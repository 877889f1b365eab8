//! A session: each message is accepted, or breaks a rule.
ghost use Rattle.dap_session.specs.EnvelopeView.{message_of};
ghost use Rattle.std.specs.Prelude.{◌≡◌, [], List, Some, None, option_map, OnOk, OnErr, true};
ghost use Rattle.std.specs.Prelude.{false, ◌&&◌, is_some, IsErrOf};
ghost use Rattle.dap_message.specs.Message.{Sent, sent};
ghost use Rattle.dap_session.specs.Messages.{is_request, is_response, is_event, is_from};
ghost use Rattle.dap_session.specs.Messages.{seq_of, side_of};
ghost use Rattle.dap_session.specs.Rules.{first_broken, open_requests};
ghost use Rattle.dap_session.specs.SessionState.{requests_of, request_numbered, state_after};
ghost use Rattle.dap_session.specs.KeptRules.{first_broken_in_state, first_of_told, asked_for};
ghost use Rattle.dap_session.specs.KeptRules.{start_rules, request_rules, response_rules};
ghost use Rattle.dap_session.specs.Representation.{Represents, AcceptOutcome};

use crate::envelope::{Envelope, envelope_of};
use crate::message::{
    is_about_client, is_client_initialize, is_configuration_done, is_event, is_farewell, is_from,
    is_initialize, is_initialized, is_output, is_request, is_response, kind_of, name_of,
    request_seq_of, seq_of, side_of,
};
use crate::phase::Phase;
use crate::requests::Requests;
use crate::rule::{Rule, SessionFault};
use dap_message::{AnyMessage, Kind, Message, Side};
use std::alloc::{AllocError, Global};
use std::marker::Model;

/// What the rules need to know about the messages of both sides so far.
///
/// The session stores the number of each request, its command and whether it is answered. For all
/// other messages it stores a few flags. The time to check a message grows with the logarithm of
/// the number of requests.
#[derive(Drop)]
pub struct Session {
    client: Requests,
    adapter: Requests,
    phase: Phase,
    initialized: bool,
    configured: bool,
    disconnected: bool,
}

impl Model for Session {
    ghost use Rattle.dap_session.specs.SessionState.{SessionState};

    ghost Value = { SessionState };

    ghost use Rattle.dap_session.specs.SessionView.{kept};

    ghost view = { kept };
}

impl Session {
    /// Returns a session without messages. Does not allocate.
    pub fn new(alloc: Global) -> Session
        ensures { Represents result [] }
    {
        Session {
            client: Requests::new(alloc),
            adapter: Requests::new(alloc),
            phase: Phase::Waiting,
            initialized: false,
            configured: false,
            disconnected: false,
        }
    }

    /// Accepts the message as the next one, or returns the first rule that it breaks.
    ///
    /// # Errors
    ///
    /// - `Broken`: the first rule that the message breaks.
    /// - `Memory`: an allocation failed. The message is a request that breaks no rule.
    ///
    /// On an error the session is unchanged.
    pub fn accept(&mut self, message: &Message) -> Result<(), SessionFault>
        ensures says { (ms : List Sent) → Represents self.old ms
            → AcceptOutcome ms (sent message.now) result self.old self.new }
        ensures unchanged { OnErr result (self.new ≡ self.old) }
        ensures memory { IsErrOf result SessionFault.Memory
            → is_request (sent message.now) ≡ true }
        ensures in_rules { IsErrOf result SessionFault.Memory → (ms : List Sent)
            → Represents self.old ms → first_broken ms (sent message.now) ≡ None }
    {
        self.accept_any(message)
    }

    /// Accepts the message as the next one, as [`accept`](Session::accept) does. The document of
    /// the message may have any form.
    ///
    /// # Errors
    ///
    /// - `Broken`: the first rule that the message breaks.
    /// - `Memory`: an allocation failed. The message is a request that breaks no rule.
    ///
    /// On an error the session is unchanged.
    pub fn accept_any<M: AnyMessage>(&mut self, message: &M) -> Result<(), SessionFault>
        ensures says { (ms : List Sent) → Represents self.old ms
            → AcceptOutcome ms (M.sent message.now) result self.old self.new }
        ensures unchanged { OnErr result (self.new ≡ self.old) }
        ensures memory { IsErrOf result SessionFault.Memory
            → is_request (M.sent message.now) ≡ true }
        ensures in_rules { IsErrOf result SessionFault.Memory → (ms : List Sent)
            → Represents self.old ms → first_broken ms (M.sent message.now) ≡ None }
    {
        let message = &envelope_of(message);
        if let Some(rule) = self.broken_by(message) {
            return Err(SessionFault::Broken(rule));
        }
        match self.keep(message) {
            Ok(()) => Ok(()),
            Err(_) => Err(SessionFault::Memory),
        }
    }

    /// Returns the number of requests of this side that have no response so far. Does not allocate.
    pub fn open(&self, side: Side) -> usize
        ensures { (ms : List Sent) → Represents self.now ms → result ≡ open_requests side ms }
    {
        self.requests_of(side).open()
    }

    /// Returns the requests of this side.
    fn requests_of(&self, side: Side) -> &Requests
        ensures { result.now ≡ requests_of side self.now }
    {
        match side {
            Side::Client => &self.client,
            Side::Adapter => &self.adapter,
        }
    }

    /// Returns the command of the request that a response answers, and whether it is answered.
    fn asked_for<M: AnyMessage>(&self, message: &Envelope<'_, M>) -> Option<(&str, bool)>
        ensures { option_map (λ a. (a.0.now, a.1)) result
            ≡ asked_for self.now (message_of message.now) }
    {
        let Some(number) = request_seq_of(message) else {
            return None;
        };
        match side_of(message) {
            Side::Client => self.adapter.find(number),
            Side::Adapter => self.client.find(number),
        }
    }

    /// Returns whether an earlier request of the same side has the number of this message.
    fn has_seq<M: AnyMessage>(&self, message: &Envelope<'_, M>) -> bool
        ensures { result
            ≡ is_some (request_numbered (seq_of (message_of message.now))
            (requests_of (side_of (message_of message.now)) self.now)) }
    {
        self.requests_of(side_of(message))
            .find(seq_of(message))
            .is_some()
    }

    /// Returns the first rule that the message breaks.
    fn broken_by<M: AnyMessage>(&self, message: &Envelope<'_, M>) -> Option<Rule>
        ensures { result ≡ first_broken_in_state self.now (message_of message.now) }
    {
        match kind_of(message) {
            Kind::Event => self.broken_by_event(message),
            Kind::Request => {
                match self.broken_at_start(message) {
                    Some(rule) => Some(rule),
                    None => self.broken_by_request(message),
                }
            }
            Kind::Response => {
                match self.broken_at_start(message) {
                    Some(rule) => Some(rule),
                    None => self.broken_by_response(message),
                }
            }
        }
    }

    /// Returns the first rule that an event breaks.
    fn broken_by_event<M: AnyMessage>(&self, message: &Envelope<'_, M>) -> Option<Rule>
        requires { is_event (message_of message.now) ≡ true }
        ensures { result ≡ first_broken_in_state self.now (message_of message.now) }
    {
        if is_from(message, Side::Client) {
            return Some(Rule::EventFromClient);
        }
        match self.broken_at_start(message) {
            Some(rule) => { if is_output(message) { None } else { Some(rule) } }
            None => None,
        }
    }

    /// Returns the first rule on the `initialize` request that the message breaks.
    fn broken_at_start<M: AnyMessage>(&self, message: &Envelope<'_, M>) -> Option<Rule>
        ensures { result ≡ first_of_told start_rules self.now (message_of message.now) }
    {
        if self.phase.is_waiting() {
            if is_client_initialize(message) {
                None
            } else {
                Some(Rule::NotInitialized)
            }
        } else if self.phase.is_asked() {
            if is_from(message, Side::Adapter) && is_response(message) {
                None
            } else {
                Some(Rule::StillInitializing)
            }
        } else if is_initialize(message) {
            Some(Rule::InitializeTwice)
        } else {
            None
        }
    }

    /// Returns whether the message is from the client, after a successful `disconnect` response.
    fn is_late<M: AnyMessage>(&self, message: &Envelope<'_, M>) -> bool
        ensures { result ≡ is_from Side.Client (message_of message.now) && self.now.disconnected }
    {
        is_from(message, Side::Client) && self.disconnected
    }

    /// Returns the first rule on requests that a request breaks.
    fn broken_by_request<M: AnyMessage>(&self, message: &Envelope<'_, M>) -> Option<Rule>
        requires { is_request (message_of message.now) ≡ true }
        ensures { result ≡ first_of_told request_rules self.now (message_of message.now) }
    {
        if self.is_late(message) {
            return Some(Rule::AfterDisconnect);
        }
        if self.has_seq(message) {
            return Some(Rule::SeqUsed);
        }
        if !is_configuration_done(message) {
            None
        } else if !self.initialized {
            Some(Rule::ConfiguredEarly)
        } else if self.configured {
            Some(Rule::ConfiguredTwice)
        } else {
            None
        }
    }

    /// Returns the first rule on responses that a response breaks.
    fn broken_by_response<M: AnyMessage>(&self, message: &Envelope<'_, M>) -> Option<Rule>
        requires { is_response (message_of message.now) ≡ true }
        ensures { result ≡ first_of_told response_rules self.now (message_of message.now) }
    {
        match self.asked_for(message) {
            None => Some(Rule::NoRequest),
            Some((_, true)) => Some(Rule::AnsweredTwice),
            Some((command, false)) => {
                if command == name_of(message) {
                    None
                } else {
                    Some(Rule::OtherCommand)
                }
            }
        }
    }

    /// Stores what the rules need to know about a message that breaks no rule.
    ///
    /// An event changes only a flag. A request changes the requests of its own side, and a response
    /// those of the other side.
    fn keep<M: AnyMessage>(&mut self, message: &Envelope<'_, M>) -> Result<(), AllocError>
        requires { first_broken_in_state self.old (message_of message.now) ≡ None }
        ensures ok { OnOk result (self.new ≡ state_after self.old (message_of message.now)) }
        ensures err { OnErr result (self.new ≡ self.old) }
        ensures memory { OnErr result (is_request (message_of message.now) ≡ true) }
    {
        if is_event(message) {
            self.initialized = self.initialized || is_initialized(message);
            return Ok(());
        }
        if is_about_client(message) {
            self.client.note(Side::Client, message)?;
            self.phase = self.phase.after(message);
            self.configured = self.configured || is_configuration_done(message);
            self.disconnected = self.disconnected || is_farewell(message);
        } else {
            self.adapter.note(Side::Adapter, message)?;
        }
        Ok(())
    }
}
