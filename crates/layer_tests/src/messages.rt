//! Tests the calls on messages that no command makes.
use crate::examples::{SCOPES, message};
use dap_message::Message;
use dap_tree::Side::Client;
use dap_tree::Sort;
use std::alloc::Global;

/// Returns whether the content that is appended to a buffer is this text.
fn is_written(alloc: Global, message: &Message, text: &str) -> bool {
    let mut out = Vec::new(alloc);
    message.write_content_to(alloc, &mut out).is_ok() && out.as_slice() == text.as_bytes()
}

/// Returns whether the content of a copy is this text.
fn is_copied(alloc: Global, message: &Message, text: &str) -> bool {
    matches!(message.copy(alloc), Ok(copy) if is_written(alloc, &copy, text))
}

fn has_ids(alloc: Global, message: &Message, ids: &[(Sort, i64)]) -> bool {
    matches!(message.ids(alloc), Ok(found) if found.as_slice() == ids)
}

#[test]
fn copies_and_ids(rt: HostRuntime) {
    let request = message(&rt, rt.alloc(), SCOPES);
    assert!(rt; is_copied(rt.alloc(), &request, SCOPES.1));
    assert!(rt;
        has_ids(
            rt.alloc(),
            &request,
            &[(Sort::Frame, 5), (Sort::ClientSeq, 8)]
        )
    );
}

/// A response that no session accepts from the client.
const INITIALIZED: &str =
    "{\"command\":\"initialize\",\"request_seq\":1,\"seq\":1,\"success\":true,\"type\":\"response\"}";

/// No capability is added to a response of the client.
#[test]
fn nothing_filled_in_elsewhere(rt: HostRuntime) {
    let response = message(&rt, rt.alloc(), (Client, INITIALIZED));
    assert!(rt; is_written(rt.alloc(), &response, INITIALIZED));
}
