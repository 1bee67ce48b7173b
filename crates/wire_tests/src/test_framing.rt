//! Frames.
use grpc_framing::{Frames, write_frame};
use xc_base::List;

#[test]
fn what_is_written_is_fed(rt: HostRuntime) {
    let mut out = List::new(rt.alloc());
    assert!(rt; write_frame(rt.alloc(), b"a", &mut out).is_ok());
    assert!(rt; out.as_slice() == b"\0\0\0\0\x01a".as_slice());
    let mut payloads = List::new(rt.alloc());
    let mut frames = Frames::new(rt.alloc());
    assert!(rt; frames.feed(b"\0\0\0\0\x01a", &mut payloads).is_ok());
}
