//! Finds the counterpart of each record.
use crate::entry::Entry;
use dap_message::{AnyMessage, Side};
use dap_tree::Sort;
use std::alloc::{AllocError, Global};
use std::collections::{BTreeMap, VecDeque};

/// The sequence number of a message of one side.
#[derive(Clone, Copy, PartialEq, Eq, PartialOrd, Ord, Drop)]
struct Seq {
    sort: Sort,
    number: i64,
}

/// Returns a sequence number of a message of this side.
fn seq_of(side: Side, number: i64) -> Seq {
    let sort = match side {
        Side::Client => Sort::ClientSeq,
        Side::Adapter => Sort::AdapterSeq,
    };
    Seq { sort, number }
}

/// Returns the sequence number of the request that a response answers, and nothing for any other
/// message.
fn answered_seq<M: AnyMessage>(message: &M) -> Option<Seq> {
    let number = message.request_seq()?;
    match message.side() {
        Side::Client => Some(seq_of(Side::Adapter, number)),
        Side::Adapter => Some(seq_of(Side::Client, number)),
    }
}

/// A request or an event of A that has no counterpart yet.
#[derive(Clone, Copy, Drop)]
struct Waiting {
    index: usize,
    seq: Seq,
}

/// What is left of A to be matched.
#[derive(Drop)]
struct Matcher {
    /// The requests and the events of A by their heads, each head's in the order of A.
    waiting: BTreeMap<String, VecDeque<Waiting>>,
    /// The index of the response to each request of A.
    responses: BTreeMap<Seq, usize>,
    /// The counterpart in A of each request of B.
    requests: BTreeMap<Seq, Seq>,
}

impl Matcher {
    fn new(alloc: Global) -> Matcher {
        Matcher {
            waiting: BTreeMap::new(alloc),
            responses: BTreeMap::new(alloc),
            requests: BTreeMap::new(alloc),
        }
    }

    /// Adds a record of A.
    fn add<M: AnyMessage>(
        &mut self,
        alloc: Global,
        index: usize,
        entry: &Entry<M>,
    ) -> Result<(), AllocError> {
        if let Some(seq) = answered_seq(&entry.message) {
            let _ = self.responses.insert(seq, index)?;
            return Ok(());
        }
        let head = entry.head.clone()?;
        let queue = self.waiting.entry(head)?.or_insert(VecDeque::new(alloc));
        queue.push_back(Waiting {
            index,
            seq: seq_of(entry.message.side(), entry.message.seq()),
        })?;
        Ok(())
    }

    /// Takes the first request or event of A with a head.
    fn take(&mut self, head: &str) -> Option<Waiting> {
        self.waiting.get_mut(head)?.pop_front()
    }

    /// Returns the index of the response of A to the counterpart of a request of B.
    fn response_to(&self, request: Seq) -> Option<usize> {
        let counterpart = self.requests.get(&request)?;
        self.responses.get(counterpart).copied()
    }

    /// Returns the index of the counterpart of a record of B. The records of B come in their order.
    fn counterpart<M: AnyMessage>(
        &mut self,
        entry: &Entry<M>,
    ) -> Result<Option<usize>, AllocError> {
        if let Some(request) = answered_seq(&entry.message) {
            return Ok(self.response_to(request));
        }
        let Some(found) = self.take(entry.head.as_str()) else {
            return Ok(None);
        };
        let seq = seq_of(entry.message.side(), entry.message.seq());
        let _ = self.requests.insert(seq, found.seq)?;
        Ok(Some(found.index))
    }
}

/// Finds the counterpart of each record of A and of B.
///
/// The counterpart of the K-th request or event with some side and name is the K-th one with that
/// side and name. The counterpart of a response is the response to the counterpart of its request.
pub fn match_records<M: AnyMessage>(
    alloc: Global,
    a: &mut [Entry<M>],
    b: &mut [Entry<M>],
) -> Result<(), AllocError> {
    let mut matcher = Matcher::new(alloc);
    for (index, entry) in a.iter().enumerate() {
        matcher.add(alloc, index, entry)?;
    }
    for (index, entry) in b.iter_mut().enumerate() {
        let counterpart = matcher.counterpart(entry)?;
        entry.counterpart = counterpart;
        if let Some(found) = counterpart {
            if let Some(other) = a.get_mut(found) {
                other.counterpart = Some(index);
            }
        }
    }
    Ok(())
}
