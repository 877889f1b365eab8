//! Defines the limits and the messages that the tests share.
use dap_frame::FrameLimits;
use dap_message::{Message, typed};
use dap_tree::Side::Client;
use dap_tree::{Side, read_tree};
use std::alloc::Global;
use std::process::Abort;

pub const LIMITS: FrameLimits = FrameLimits {
    header: 4096,
    content: 16,
};

/// A content, and the side that sends it.
pub type Line = (Side, &'static str);

/// A request with two ids.
pub const SCOPES: Line = (
    Client,
    "{\"arguments\":{\"frameId\":5},\"command\":\"scopes\",\"seq\":8,\"type\":\"request\"}",
);

pub const THREADS: Line = (
    Client,
    "{\"command\":\"threads\",\"seq\":2,\"type\":\"request\"}",
);

/// Returns the message of a line.
pub fn message(rt: &impl Abort, alloc: Global, line: Line) -> Message {
    let (side, content) = line;
    let tree = read_tree(alloc, content.as_bytes()).expect(rt, "no tree");
    typed(alloc, side, tree).expect(rt, "no message")
}
