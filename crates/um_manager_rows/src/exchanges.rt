//! A request and its reply over a connection, whose other side answers as it likes.
use std::process::Abort;
use um_asserts::{same, same_at};
use um_ctl::exchange;
use um_stream::Fault;

/// The bytes written for a request, and the text of the reply.
fn exchanged(
    rt: &(impl AllocGlobal + Abort),
    request: &[u8; 2],
    mut coming: &[u8],
) -> (Vec<u8>, Result<Vec<u8>, Fault>) {
    let mut written = Vec::new(rt.alloc());
    let reply = exchange(rt.alloc(), &mut written, &mut coming, request);
    (written, reply)
}

#[test]
fn a_frame_goes_and_a_frame_comes(rt: HostRuntime) {
    let (written, reply) = exchanged(&rt, b"{}", b"\0\0\0\x03abcd");
    same!(&rt, written.as_slice() == b"\0\0\0\x02{}".as_slice(), true);
    same!(
        &rt,
        reply.is_ok_and(|text| text.as_slice() == b"abc".as_slice()),
        true,
    );
}

/// Bytes that are no frame of a reply.
const CUT: &[&[u8]] = &[b"", b"\0\0\0", b"\0\0\0\x03ab", b"\x01\0\0\x01abcd"];

#[test]
fn a_reply_that_is_cut_or_too_long_is_a_fault(rt: HostRuntime) {
    for coming in CUT {
        let (_, reply) = exchanged(&rt, b"{}", coming);
        let is_fault = matches!(&reply, Err(Fault::Read(_)));
        same_at!(&rt, is_fault, true, &reply);
    }
}
