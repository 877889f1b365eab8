//! Finds the earlier messages that a message must follow because of its class or its conversation.
ghost use Rattle.std.specs.Prelude.{◌≡◌, ◌<◌, true, false, List, IfOk, map, length, slice_get};
ghost use Rattle.std.specs.List.{slice_index_or};
ghost use Rattle.dap_message.specs.Message.{Sent};
ghost use Rattle.dap_order.specs.Entries.{sent_by};
ghost use Rattle.dap_order.specs.Keys.{Key as ModelKey, IsKeyAt, ArePrevious};
ghost use Rattle.dap_order.specs.Keys.{conversation_key, response_key};
ghost use Rattle.dap_order.specs.Keys as keys;
ghost use Rattle.dap_order.specs.Waits as words;

use crate::entries::Entry;
use crate::keys::{By, is_numbered_response};
use crate::previous::previous_of;
use dap_message::AnyMessage;
use std::alloc::{AllocError, Global};

/// For each place, the last earlier places of several kinds.
#[derive(Drop)]
pub struct Earlier {
    /// The last earlier place in its class.
    in_class: Vec<Option<usize>>,
    /// The last earlier place in its conversation.
    in_conversation: Vec<Option<usize>>,
    /// The last earlier response in its conversation.
    responses: Vec<Option<usize>>,
    /// Whether the message at each place is a response with a `request_seq`.
    are_responses: Vec<bool>,
}

fn are_responses<M: AnyMessage>(
    alloc: Global,
    entries: &[Entry<'_, M>],
) -> Result<Vec<bool>, AllocError>
    ensures { IfOk result (λ found. found.items
        ≡ map keys.is_numbered_response (map sent_by entries.now)) }
{
    let mut found = Vec::new(alloc);
    for entry in entries {
        found.push(is_numbered_response(&entry.message))?;
    }
    Ok(found)
}

/// Returns the last response of a conversation, up to the place `last` of that conversation.
/// `responses` has the last earlier response for each place up to `last`.
fn response_up_to(are_responses: &[bool], responses: &[Option<usize>], last: usize) -> Option<usize>
    requires in_range { last < length are_responses.now }
    requires known { last < length responses.now }
    ensures itself { slice_index_or are_responses.now last false ≡ true → result ≡ Some last }
    ensures earlier { slice_index_or are_responses.now last false ≡ false
        → slice_get responses.now last ≡ Some result }
{
    if are_responses[last] {
        return Some(last);
    }
    responses[last]
}

/// Returns for each place the last earlier response in its conversation.
fn last_responses(
    alloc: Global,
    in_conversation: &Vec<Option<usize>>,
    are_responses: &[bool],
) -> Result<Vec<Option<usize>>, AllocError>
    requires { (ms : List Sent)
        × words.AreConversations ms in_conversation.now.items are_responses.now }
    ensures { (ms : List Sent)
        → words.AreConversations ms in_conversation.now.items are_responses.now
        → IfOk result (λ responses.
        ArePrevious (map response_key ms) (map conversation_key ms) responses.items) }
{
    let mut responses: Vec<Option<usize>> = Vec::new(alloc);
    for place in 0..in_conversation.len() {
        let response = match in_conversation[place] {
            Some(last) => response_up_to(are_responses, &responses, last),
            None => None,
        };
        responses.push(response)?;
    }
    Ok(responses)
}

impl Earlier {
    pub fn new<M: AnyMessage>(
        alloc: Global,
        entries: &[Entry<'_, M>],
    ) -> Result<Earlier, AllocError>
        ensures { IfOk result (words.IsEarlier (map sent_by entries.now)) }
    {
        let in_class = previous_of(alloc, entries, By::Class)?;
        let in_conversation = previous_of(alloc, entries, By::Conversation)?;
        let is_response = are_responses(alloc, entries)?;
        let responses = last_responses(alloc, &in_conversation, &is_response)?;
        Ok(Earlier {
            in_class,
            in_conversation,
            responses,
            are_responses: is_response,
        })
    }

    /// Returns the earlier places in the conversation of `place`, back to the last response.
    fn back_to_response(&self, alloc: Global, place: usize) -> Result<Vec<usize>, AllocError>
        requires { (ms : List Sent) × words.IsEarlier ms self.now × (place < length ms) }
        ensures { (ms : List Sent) (k : ModelKey) → words.IsEarlier ms self.now
            → IsKeyAt (map conversation_key ms) k place
            → IfOk result (λ waits. words.AreBack ms k place waits.items) }
    {
        let mut waits = Vec::new(alloc);
        let mut next = self.in_conversation[place];
        while let Some(earlier) = next {
            waits.push(earlier)?;
            next = if self.are_responses[earlier] {
                None
            } else {
                self.in_conversation[earlier]
            };
        }
        Ok(waits)
    }

    /// Returns the earlier places that the message must follow because one of the two messages is a
    /// response to the other.
    fn of_conversation(&self, alloc: Global, place: usize) -> Result<Vec<usize>, AllocError>
        requires { (ms : List Sent) × words.IsEarlier ms self.now × (place < length ms) }
        ensures { (ms : List Sent) → words.IsEarlier ms self.now
            → IfOk result (λ waits. words.Covers words.talk ms place waits.items) }
    {
        if self.are_responses[place] {
            return self.back_to_response(alloc, place);
        }
        let mut waits = Vec::new(alloc);
        if let Some(response) = self.responses[place] {
            waits.push(response)?;
        }
        Ok(waits)
    }

    /// Returns earlier places that the message must follow, whatever the rules are. Places that
    /// these must follow themselves can be left out.
    pub fn waits_of(&self, alloc: Global, place: usize) -> Result<Vec<usize>, AllocError>
        requires { (ms : List Sent) × words.IsEarlier ms self.now × (place < length ms) }
        ensures { (ms : List Sent) → words.IsEarlier ms self.now
            → IfOk result (λ waits. words.Covers words.are_tied ms place waits.items) }
    {
        let mut waits = self.of_conversation(alloc, place)?;
        if let Some(earlier) = self.in_class[place] {
            waits.push(earlier)?;
        }
        Ok(waits)
    }
}
