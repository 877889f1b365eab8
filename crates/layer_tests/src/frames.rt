//! Tests header parts that no other test has.
use crate::examples::LIMITS;
use dap_frame::Framer;

/// Bytes that start with a frame, its length, and its content.
const FRAMES: [(&[u8], usize, &[u8]); 2] = [
    (b"CONTENT-LENGTH: \t3 \t\r\nX:\r\n\r\nabcd", 31, b"abc"),
    (b"Content-Length: 0\r\n\r\nContent-Length", 21, b""),
];

fn gives(framer: &mut Framer, bytes: &[u8], used: usize, content: &[u8]) -> bool {
    let Ok(fed) = framer.feed(bytes) else {
        return false;
    };
    fed.used == used && matches!(&fed.content, Some(found) if found.as_slice() == content)
}

#[test]
fn blanks_and_empty_values(rt: HostRuntime) {
    let mut framer = Framer::new(rt.alloc(), LIMITS);
    for (bytes, used, content) in &FRAMES {
        assert!(rt; gives(&mut framer, bytes, *used, content));
    }
}
