//! Heads that come whole, and what is read of them.
use http::Method;
use http_wire::{Bytes, Head, HeadEnd, Mem, ReplyHead, Rest, read_reply_head, read_request_head};
use line_base::Dialer;
use line_doubles::{MemDialer, MemPeer, MemSink, MemSource};
use own_reply::{Tested, test_request};
use std::alloc::Global;
use std::test::Fail;

/// The bytes of a text in which `|` is CR LF, and `%` is another text, so many times.
pub(crate) fn spelled(alloc: Global, text: &str, part: &str, count: usize) -> Mem<Bytes> {
    let mut bytes = Vec::new(alloc);
    spell(&mut bytes, text, part, count)?;
    Ok(bytes)
}

/// Puts the bytes of such a text behind others.
fn spell(bytes: &mut Bytes, text: &str, part: &str, count: usize) -> Mem<()> {
    for byte in text.as_bytes() {
        match byte {
            b'|' => bytes.extend_from_slice(b"\r\n")?,
            b'%' => add_times(bytes, part.as_bytes(), count)?,
            other => bytes.push(*other)?,
        }
    }
    Ok(())
}

/// Puts some bytes behind others, so many times.
fn add_times(all: &mut Bytes, part: &[u8], times: usize) -> Mem<()> {
    if let [byte] = part {
        return all.resize(all.len().saturating_add(times), *byte);
    }
    for _ in 0..times {
        all.extend_from_slice(part)?;
    }
    Ok(())
}

/// A room with these bytes.
pub(crate) fn room_of(alloc: Global, kept: &[u8]) -> Mem<Rest> {
    let mut rest = Rest::room(alloc)?;
    rest.add(kept)?;
    Ok(rest)
}

/// A peer that gives these bytes in reads of at most such a size, and whose call of this number
/// fails.
pub(crate) fn peer_of(alloc: Global, bytes: Bytes, size: usize, failing: u64) -> Mem<MemPeer> {
    let sizes = Vec::from_elem(alloc, size, 30)?;
    let failing = Vec::from_elem(alloc, failing, 1)?;
    let sink = MemSink::of(alloc, Vec::new(alloc), Vec::new(alloc));
    Ok(MemPeer::of(MemSource::of(bytes, sizes, failing), sink))
}

/// The head that a peer gives.
fn head_from(alloc: Global, peer: &mut MemPeer) -> Result<Head, Fail> {
    let mut rest = Rest::room(alloc)?;
    match read_request_head(alloc, peer, &mut rest) {
        Ok(head) => Ok(head),
        Err(_) => Err("no head".into()),
    }
}

/// The head of a request, in whose text `|` is CR LF and `%` is another text, so many times.
pub(crate) fn head_of(alloc: Global, text: &str, part: &str, count: usize) -> Result<Head, Fail> {
    let bytes = spelled(alloc, text, part, count)?;
    let mut peer = peer_of(alloc, bytes, usize::MAX, 99)?;
    let head = head_from(alloc, &mut peer);
    drop(peer);
    head
}

/// What the tests of a request read of it.
pub(crate) fn asked_by(alloc: Global, head: &Head) -> Result<Tested, Fail> {
    match test_request(alloc, head, None) {
        Ok(tested) => Ok(tested),
        Err(_) => Err("no request".into()),
    }
}

/// The method of this name.
pub(crate) fn method_of(alloc: Global, name: &str) -> Result<Method, Fail> {
    match Method::from_bytes(alloc, name.as_bytes()) {
        Ok(method) => Ok(method),
        Err(_) => Err("no method".into()),
    }
}

/// A dialer whose first connection gives these bytes, and whose second receive fails.
pub(crate) fn dialer_of(alloc: Global, bytes: Bytes) -> Mem<MemDialer> {
    let mut replies = Vec::new(alloc);
    replies.push(bytes)?;
    let failing = Vec::from_elem(alloc, 2, 1)?;
    Ok(MemDialer::of(alloc, replies, Vec::new(alloc), failing))
}

/// The head of a reply that a dialer's first connection gives.
pub(crate) fn reply_of(
    alloc: Global,
    dialer: &mut MemDialer,
    rest: &mut Rest,
) -> Result<Result<ReplyHead, HeadEnd>, Fail> {
    dialer.dial(0x7f000001, 9001)?;
    Ok(read_reply_head(alloc, dialer, rest))
}

/// The same, which has one.
fn reply_from(alloc: Global, dialer: &mut MemDialer) -> Result<ReplyHead, Fail> {
    let mut rest = Rest::room(alloc)?;
    match reply_of(alloc, dialer, &mut rest)? {
        Ok(head) => Ok(head),
        Err(_) => Err("no head".into()),
    }
}

/// The head of a reply.
pub(crate) fn reply_head(alloc: Global, text: &str) -> Result<ReplyHead, Fail> {
    let bytes = Vec::from_slice(alloc, text.as_bytes())?;
    let mut dialer = dialer_of(alloc, bytes)?;
    let head = reply_from(alloc, &mut dialer);
    drop(dialer);
    head
}
