//! Recordings for tests, written independently of the crates that are tested.
use std::alloc::{AllocError, Global};
use std::process::Abort;

/// A marker and a content.
pub type Line = (&'static str, &'static str);

pub const INITIALIZE: Line = (
    ">",
    "{\"arguments\":{\"adapterID\":\"mock\"},\"command\":\"initialize\",\"seq\":1,\"type\":\"request\"}",
);

pub const INITIALIZE_RESPONSE: Line = (
    "<",
    "{\"command\":\"initialize\",\"request_seq\":1,\"seq\":1,\"success\":true,\"type\":\"response\"}",
);

pub const INITIALIZED: Line = (
    "<",
    "{\"event\":\"initialized\",\"seq\":2,\"type\":\"event\"}",
);

pub const CONFIGURATION_DONE: Line = (
    ">",
    "{\"command\":\"configurationDone\",\"seq\":2,\"type\":\"request\"}",
);

pub const CONFIGURATION_DONE_RESPONSE: Line = (
    "<",
    "{\"command\":\"configurationDone\",\"request_seq\":2,\"seq\":3,\"success\":true,\"type\":\"response\"}",
);

pub const STACK_TRACE: Line = (
    ">",
    "{\"arguments\":{\"threadId\":1},\"command\":\"stackTrace\",\"seq\":2,\"type\":\"request\"}",
);

pub const STOPPED: Line = (
    "<",
    "{\"body\":{\"reason\":\"step\"},\"event\":\"stopped\",\"seq\":2,\"type\":\"event\"}",
);

/// A session from its start until its configuration is done: 473 bytes.
pub const CONFIGURED: [Line; 5] = [
    INITIALIZE,
    INITIALIZE_RESPONSE,
    INITIALIZED,
    CONFIGURATION_DONE,
    CONFIGURATION_DONE_RESPONSE,
];

/// A session whose third record is a second response to the first.
pub const ANSWERED_TWICE: [Line; 3] = [INITIALIZE, INITIALIZE_RESPONSE, INITIALIZE_RESPONSE];

/// Returns the recording of these lines.
pub fn recording(rt: &impl Abort, alloc: Global, lines: &[Line]) -> Vec<u8> {
    let mut bytes = Vec::new(alloc);
    for (marker, content) in lines {
        add_record(alloc, &mut bytes, marker, content).expect(rt, "no memory");
    }
    bytes
}

/// Appends the record of a content.
fn add_record(
    alloc: Global,
    bytes: &mut Vec<u8>,
    marker: &str,
    content: &str,
) -> Result<(), AllocError> {
    let record = format!(in alloc;
        "{marker}Content-Length: {}\r\n\r\n{content}\n",
        content.len()
    )?;
    bytes.extend_from_slice(record.as_bytes())
}
