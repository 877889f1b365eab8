//! Events of one name that two sessions have in another order.
use crate::sessions::Sessions;
use dap_compare::Which;
use dap_diff::have_one_text;
use dap_message::AnyMessage;
use dap_stored::{StoredMessage, StoredSession};
use std::alloc::{AllocError, Global};

/// The places of the events of one name in each session.
#[derive(Drop)]
pub struct Places {
    pub a: Vec<usize>,
    pub b: Vec<usize>,
}

impl Places {
    pub fn new(alloc: Global) -> Places {
        Places {
            a: Vec::new(alloc),
            b: Vec::new(alloc),
        }
    }

    pub fn add(&mut self, which: Which, place: usize) -> Result<(), AllocError> {
        match which {
            Which::A => self.a.push(place)?,
            Which::B => self.b.push(place)?,
        }
        Ok(())
    }
}

/// Returns the content of a message with 0 in place of each id.
fn content_without_ids(alloc: Global, message: &StoredMessage<'_>) -> Result<Vec<u8>, AllocError> {
    let numbers = vec![in alloc; 0i64; message.marks().len()]?;
    let mut content = Vec::new(alloc);
    message.write_with_ids(alloc, numbers.as_slice(), &mut content)?;
    Ok(content)
}

/// Returns the contents of the messages at these places, without their ids and in the order of
/// their bytes.
fn sorted_contents(
    alloc: Global,
    session: &StoredSession,
    places: &[usize],
) -> Result<Vec<Vec<u8>>, AllocError> {
    let mut contents = Vec::with_capacity(alloc, places.len())?;
    for place in places {
        if let Some(message) = session.message(*place) {
            contents.push(content_without_ids(alloc, &message)?)?;
        }
    }
    contents.sort()?;
    Ok(contents)
}

/// Returns whether both sessions have the same events of one name, apart from their ids, and have
/// them in different orders.
pub fn are_reordered(
    alloc: Global,
    sessions: &Sessions,
    places: &Places,
) -> Result<bool, AllocError> {
    let mut both = places.a.iter().zip(places.b.iter());
    let are_alike = both.all(|(a, b)| match (sessions.a.message(*a), sessions.b.message(*b)) {
        (Some(a), Some(b)) => have_one_text(&a, &b),
        _ => false,
    });
    if are_alike {
        return Ok(false);
    }
    let a = sorted_contents(alloc, &sessions.a, places.a.as_slice())?;
    let b = sorted_contents(alloc, &sessions.b, places.b.as_slice())?;
    Ok(a == b)
}
