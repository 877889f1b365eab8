//! Reads the messages of pairs as trees.
ghost use Rattle.dap_input.specs.Limits.{AreSound};

use crate::matched::Pair;
use crate::sessions::Sessions;
use dap_input::Limits;
use dap_message::{AnyMessage, Message};
use dap_normalise::read_message;
use dap_rename::{IndexNames, Mode, Names, index_tables};
use dap_stored::{StoredMessage, StoredSession};
use dap_tree::Scratch;
use std::alloc::{AllocError, Global};
use std::hash::{BuildHasherDefault, FoldHasher};

/// The canonical numbers of the ids of a session.
type Numbers = Names<IndexNames<BuildHasherDefault<FoldHasher>>>;

/// Numbers the ids of a session.
fn number(session: &StoredSession, numbers: &mut Numbers) -> Result<(), AllocError> {
    for place in 0..session.len() {
        if let Some(message) = session.message(place) {
            // The session was numbered before, so no other error is possible.
            let _ = numbers.name_message(&message).map_err(|_| AllocError)?;
        }
    }
    Ok(())
}

/// The pairs of records of two sessions. Reads their messages as trees, in which the ids have their
/// canonical numbers.
#[derive(Drop)]
pub struct Pairs<'m> {
    pub alloc: Global,
    pub list: &'m [Pair<'m>],
    a: Numbers,
    b: Numbers,
    scratch: Scratch,
}

impl<'m> Pairs<'m> {
    /// Returns pairs of sessions whose ids are not numbered yet.
    pub fn new(alloc: Global, list: &'m [Pair<'m>], limits: Limits) -> Pairs<'m>
        requires { AreSound limits }
    {
        Pairs {
            alloc,
            list,
            a: Names::new(alloc, index_tables(alloc, limits.ids), Mode::Whole),
            b: Names::new(alloc, index_tables(alloc, limits.ids), Mode::Whole),
            scratch: Scratch::new(alloc),
        }
    }

    /// Numbers the ids of the sessions.
    pub fn number(&mut self, sessions: &Sessions) -> Result<(), AllocError> {
        number(&sessions.a, &mut self.a)?;
        number(&sessions.b, &mut self.b)
    }

    /// Returns a stored message with its tree.
    fn tree_of(&mut self, message: &StoredMessage<'_>) -> Result<Message, AllocError> {
        let (side, content) = (message.side(), message.content());
        // The content was read as a message before, so no other error is possible.
        read_message(self.alloc, 1, side, content, &mut self.scratch).map_err(|_| AllocError)
    }

    /// Returns the message of the record of A. Its ids keep their numbers.
    pub fn read_one(&mut self, pair: &Pair<'_>) -> Result<Message, AllocError> {
        self.tree_of(&pair.a.message)
    }

    /// Returns the messages of a pair.
    pub fn read(&mut self, pair: &Pair<'_>) -> Result<(Message, Message), AllocError> {
        let a = self.tree_of(&pair.a.message)?;
        let b = self.tree_of(&pair.b.message)?;
        let a = self.a.rename(a).map_err(|_| AllocError)?;
        let b = self.b.rename(b).map_err(|_| AllocError)?;
        Ok((a, b))
    }
}
