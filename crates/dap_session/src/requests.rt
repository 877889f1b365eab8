//! The requests of one side.
ghost use Rattle.dap_session.specs.EnvelopeView.{message_of};
ghost use Rattle.std.specs.Prelude.{◌≡◌, ◌&&◌, OnOk, OnErr, option_map, false, true};
ghost use Rattle.std.specs.Prelude.{None, Some, IfOk, IfSome};
ghost use Rattle.std.specs.Rc.{rc_str_bytes};
ghost use Rattle.dap_session.specs.SessionState.{request_numbered, unanswered, with_request};
ghost use Rattle.dap_session.specs.SessionState.{with_answer};
ghost use Rattle.dap_session.specs.SessionState.{no_requests, requests_after};
ghost use Rattle.dap_session.specs.RequestSteps.{FitsRequests, adds_to};

use crate::envelope::Envelope;
use crate::message::{is_from, is_request, is_response, name_of, request_seq_of, seq_of};
use crate::store::{Request, Store};
use dap_message::{AnyMessage, Side};
use std::alloc::{AllocError, Global};
use std::collections::BTreeSet;
use std::marker::Model;
use std::rc::RcStr;

/// The requests of one side by their numbers, and the number of requests without a response.
#[derive(Drop)]
pub struct Requests {
    alloc: Global,
    /// The commands of the requests. Each string is stored once.
    commands: BTreeSet<RcStr>,
    store: Store,
    open: usize,
}

impl Model for Requests {
    ghost use Rattle.dap_session.specs.SessionState.{Requests};

    ghost Value = { Requests };

    ghost use Rattle.dap_session.specs.View.{listed, IsCounted};

    ghost view = { listed };

    ghost invariant = { IsCounted };
}

impl Requests {
    pub fn new(alloc: Global) -> Requests
        ensures { result ≡ no_requests }
    {
        Requests {
            alloc,
            commands: BTreeSet::new(alloc),
            store: Store::new(alloc),
            open: 0,
        }
    }

    /// Returns the number of requests without a response.
    pub fn open(&self) -> usize
        ensures { result ≡ unanswered self.now }
    {
        self.open
    }

    /// Returns the command of the request with this number, and whether it is answered.
    pub fn find(&self, number: i64) -> Option<(&str, bool)>
        ensures { option_map (λ a. (a.0.now, a.1)) result ≡ request_numbered number self.now }
    {
        match self.store.find(number) {
            Some(request) => Some((request.command.as_str(), request.answered)),
            None => None,
        }
    }

    /// Adds a request with a new number. After an allocation failure nothing is changed.
    pub fn ask(&mut self, number: i64, command: &str) -> Result<(), AllocError>
        requires { request_numbered number self.old ≡ None }
        ensures ok { OnOk result (self.new ≡ with_request number command.now self.old) }
        ensures err { OnErr result (self.new ≡ self.old) }
    {
        let Some(open) = self.open.checked_add(1) else {
            return Err(AllocError);
        };
        let last = self.store.last_command(command)?;
        let command = text_or_shared(last, &mut self.commands, self.alloc, command)?;
        self.store.put(
            number,
            Request {
                command,
                answered: false,
            },
        )?;
        self.open = open;
        Ok(())
    }

    /// Marks the request with this number, which has this command and no response, as answered.
    fn answer(&mut self, number: i64, command: &str)
        requires { request_numbered number self.old ≡ Some (command.now, false) }
        ensures { self.new ≡ with_answer number command.now self.old }
    {
        self.store.answer(number, command);
        self.open -= 1;
    }

    /// Adds the message if it is a request of this side. Marks its request as answered if it is a
    /// response to one.
    pub fn note<M: AnyMessage>(
        &mut self,
        side: Side,
        message: &Envelope<'_, M>,
    ) -> Result<(), AllocError>
        requires { FitsRequests side self.old (message_of message.now) }
        ensures ok { OnOk result
            (self.new ≡ requests_after side self.old (message_of message.now)) }
        ensures err { OnErr result (self.new ≡ self.old) }
        ensures memory { OnErr result (adds_to side (message_of message.now) ≡ true) }
    {
        if is_request(message) && is_from(message, side) {
            self.ask(seq_of(message), name_of(message))?;
        } else if is_response(message) && !is_from(message, side) {
            if let Some(number) = request_seq_of(message) {
                self.answer(number, name_of(message));
            }
        }
        Ok(())
    }
}

/// Returns the last string, if there is one, and otherwise that of the set.
fn text_or_shared(
    last: Option<RcStr>,
    texts: &mut BTreeSet<RcStr>,
    alloc: Global,
    text: &str,
) -> Result<RcStr, AllocError>
    requires { IfSome last (λ shared. rc_str_bytes shared ≡ text.now) }
    ensures { IfOk result (λ shared. rc_str_bytes shared ≡ text.now) }
{
    match last {
        Some(shared) => Ok(shared),
        None => shared_text(texts, alloc, text),
    }
}

/// Returns the string of the set that equals `text`, and adds it first if there is none.
fn shared_text(texts: &mut BTreeSet<RcStr>, alloc: Global, text: &str) -> Result<RcStr, AllocError>
    ensures { IfOk result (λ shared. rc_str_bytes shared ≡ text.now) }
{
    if let Some(shared) = texts.get(text) {
        return shared.clone();
    }
    let shared = RcStr::from_str(alloc, text)?;
    texts.insert(shared.clone()?)?;
    Ok(shared)
}
