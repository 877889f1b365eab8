//! The phase of the client's `initialize` request.
ghost use Rattle.dap_session.specs.EnvelopeView.{message_of};
ghost use Rattle.std.specs.Prelude.{◌≡◌};
ghost use Rattle.dap_session.specs.KeptRules as tells;
ghost use Rattle.dap_session.specs.SessionState as kept;

use crate::envelope::Envelope;
use crate::message::{is_client_initialize, is_from, is_response, request_seq_of, seq_of};
use dap_message::{AnyMessage, Side};

/// The phase of the client's `initialize` request.
#[derive(Clone, Copy)]
pub enum Phase {
    /// The client has not sent it.
    Waiting,
    /// The client has sent it with this number, and the adapter has not responded.
    Asked(i64),
    /// The adapter has responded.
    Answered,
}

impl Phase {
    pub fn is_waiting(&self) -> bool
        ensures { result ≡ tells.is_waiting self.now }
    {
        matches!(self, Phase::Waiting)
    }

    pub fn is_asked(&self) -> bool
        ensures { result ≡ tells.is_unanswered self.now }
    {
        matches!(self, Phase::Asked(_))
    }

    /// Returns whether the message is the response to the request, which has none so far.
    fn is_answered_by<M: AnyMessage>(&self, message: &Envelope<'_, M>) -> bool
        ensures { result ≡ kept.answers_asked self.now (message_of message.now) }
    {
        match self {
            Phase::Asked(number) => {
                is_response(message)
                    && is_from(message, Side::Adapter)
                    && request_seq_of(message) == Some(*number)
            }
            _ => false,
        }
    }

    /// Returns the phase after one more message.
    pub fn after<M: AnyMessage>(&self, message: &Envelope<'_, M>) -> Phase
        ensures { result ≡ kept.phase_after self.now (message_of message.now) }
    {
        if is_client_initialize(message) {
            Phase::Asked(seq_of(message))
        } else if self.is_answered_by(message) {
            Phase::Answered
        } else {
            *self
        }
    }
}
