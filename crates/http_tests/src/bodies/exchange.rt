//! Bodies that are passed on over peers and dialers in memory.
use crate::requests::room_of;
use body_wire::{BodyEnd, Bytes, Mem, pass_back, pass_body, read_body, write_all};
use http_wire::{Framing, Rest};
use line_base::{DialEvent, Dialer};
use line_doubles::{MemDialer, MemPeer, MemSink, MemSource};
use std::alloc::Global;
use std::test::Fail;

/// More bytes than any body has whose calls move few of them.
const MOST_BYTES: usize = 70_000;

/// The number of a call that is never made.
const NEVER: u64 = u64::MAX;

/// How many bytes the calls on one side move at most, and which of them fails, the first being 0.
#[derive(Clone, Copy)]
pub(super) struct Calls {
    pub(super) most: usize,
    pub(super) failing: u64,
}

impl Calls {
    /// Calls that move all that they can.
    pub(super) const WHOLE: Calls = Calls {
        most: usize::MAX,
        failing: NEVER,
    };

    /// Calls of at most so many bytes.
    pub(super) fn by(most: usize) -> Calls {
        Calls {
            most,
            failing: NEVER,
        }
    }

    /// Calls of one byte, of which this one fails.
    pub(super) fn until(call: usize) -> Calls {
        Calls {
            most: 1,
            failing: call as u64,
        }
    }

    /// The most bytes of each call, of as many as move the longest body that is moved so.
    fn sizes(self, alloc: Global) -> Mem<Vec<usize>> {
        let calls = MOST_BYTES.checked_div(self.most).unwrap_or(0);
        Vec::from_elem(alloc, self.most, calls)
    }
}

/// Which way a body goes: to a replica, or back to a client, in chunks or as content alone.
#[derive(Clone, Copy)]
pub(super) enum Way {
    Onward,
    Back { chunked: bool },
}

/// The head that goes before each body.
const HEAD: &[u8] = b"H";

/// What passing a body on came to.
#[derive(Clone, Copy)]
pub(super) struct Passed {
    pub(super) answer: Result<u64, BodyEnd>,
    /// How many bytes were sent or written behind the head, where they are the first of those that
    /// are wanted.
    pub(super) went: Option<usize>,
    /// In how many sends.
    pub(super) sends: usize,
    /// How many bytes were read or received.
    pub(super) got: usize,
}

impl Passed {
    /// Whether a body came to this answer, and so many bytes went on behind the head, as wanted.
    pub(super) fn came_to(&self, answer: Result<u64, BodyEnd>, count: usize) -> bool {
        self.answer == answer && self.went == Some(count)
    }
}

/// A peer that gives these bytes in calls such as the one, and takes bytes in calls such as the
/// other.
fn peer_of(alloc: Global, bytes: &[u8], gives: Calls, takes: Calls) -> Mem<MemPeer> {
    let sink = sink_of(alloc, takes)?;
    let source = source_of(alloc, bytes, gives)?;
    Ok(MemPeer::of(source, sink))
}

/// A sink that takes bytes in such calls.
fn sink_of(alloc: Global, calls: Calls) -> Mem<MemSink> {
    let sizes = calls.sizes(alloc)?;
    let failing = Vec::from_elem(alloc, calls.failing, 1)?;
    Ok(MemSink::of(alloc, sizes, failing))
}

/// A source that gives these bytes in such calls.
fn source_of(alloc: Global, bytes: &[u8], calls: Calls) -> Mem<MemSource> {
    let bytes = Vec::from_slice(alloc, bytes)?;
    let sizes = calls.sizes(alloc)?;
    let failing = Vec::from_elem(alloc, calls.failing, 1)?;
    Ok(MemSource::of(bytes, sizes, failing))
}

/// A dialer that gives this reply, whose calls behind the first, which is the dial, are such.
fn dialer_of(alloc: Global, reply: &[u8], calls: Calls) -> Mem<MemDialer> {
    let failing = Vec::from_elem(alloc, calls.failing.saturating_add(1), 1)?;
    let sizes = calls.sizes(alloc)?;
    let replies = replies_of(alloc, reply)?;
    Ok(MemDialer::of(alloc, replies, sizes, failing))
}

/// The replies of a dialer that gives this one.
fn replies_of(alloc: Global, reply: &[u8]) -> Mem<Vec<Bytes>> {
    let reply = Vec::from_slice(alloc, reply)?;
    let mut replies = Vec::new(alloc);
    replies.push(reply)?;
    Ok(replies)
}

/// How many bytes were got.
fn got_of(log: &[DialEvent]) -> usize {
    let mut count = 0usize;
    for event in log {
        match event {
            DialEvent::Got(piece) => count = count.saturating_add(piece.bytes().len()),
            _ => {}
        }
    }
    count
}

/// How many sends there were.
fn sends_of(log: &[DialEvent]) -> usize {
    let mut sends = 0usize;
    for event in log {
        match event {
            DialEvent::Sent(_) => sends = sends.saturating_add(1),
            _ => {}
        }
    }
    sends
}

/// How many bytes were sent behind the head, where they are the first of those that are wanted.
fn sent_of(log: &[DialEvent], wanted: &[u8]) -> Option<usize> {
    let (mut head, mut left) = (HEAD, wanted);
    for event in log {
        match event {
            DialEvent::Sent(piece) => {
                left = left.strip_prefix(piece.bytes().strip_prefix(head)?)?;
                head = b"".as_slice();
            }
            _ => {}
        }
    }
    if head.is_empty() {
        Some(wanted.len().saturating_sub(left.len()))
    } else {
        None
    }
}

/// How many bytes were written behind the head, where they are the first of those that are wanted.
fn written_of(held: &[u8], wanted: &[u8]) -> Option<usize> {
    let content = held.strip_prefix(HEAD)?;
    if wanted.starts_with(content) {
        Some(content.len())
    } else {
        None
    }
}

/// Passes a request's body on through a dialer behind the head.
fn send(
    alloc: Global,
    framing: Framing,
    peer: &mut MemPeer,
    rest: &mut Rest,
    wanted: &[u8],
    dialer: &mut MemDialer,
) -> Result<Passed, Fail> {
    dialer.dial(0x7f000001, 9001)?;
    let mut out = Vec::from_slice(alloc, HEAD)?;
    let before = peer.source().left().len();
    let answer = pass_body(peer, rest, framing, &mut out, dialer).end;
    drop(out);
    Ok(Passed {
        answer,
        went: sent_of(dialer.log(), wanted),
        sends: sends_of(dialer.log()),
        got: before.saturating_sub(peer.source().left().len()),
    })
}

/// Passes a request's body on behind the head, from a peer that gives it in such calls, and to a
/// dialer that takes it in such.
fn send_from(
    alloc: Global,
    framing: Framing,
    comes: &[u8],
    rest: &mut Rest,
    wanted: &[u8],
    gives: Calls,
    takes: Calls,
) -> Result<Passed, Fail> {
    let mut dialer = dialer_of(alloc, b"", takes)?;
    let mut peer = match peer_of(alloc, comes, gives, Calls::WHOLE) {
        Ok(peer) => peer,
        Err(fault) => {
            drop(dialer);
            return Err(Fail::from(fault));
        }
    };
    let passed = send(alloc, framing, &mut peer, rest, wanted, &mut dialer);
    drop(peer);
    drop(dialer);
    passed
}

/// Passes a request's body on behind the head, in such calls, with these bytes kept.
pub(super) fn onward(
    alloc: Global,
    framing: Framing,
    kept: &[u8],
    comes: &[u8],
    wanted: &[u8],
    gives: Calls,
    takes: Calls,
) -> Result<Passed, Fail> {
    let mut rest = room_of(alloc, kept)?;
    let passed = send_from(alloc, framing, comes, &mut rest, wanted, gives, takes);
    drop(rest);
    passed
}

/// Passes a reply's body back to a peer behind the head.
fn receive(
    alloc: Global,
    framing: Framing,
    chunked: bool,
    dialer: &mut MemDialer,
    wanted: &[u8],
    peer: &mut MemPeer,
) -> Result<Passed, Fail> {
    dialer.dial(0x7f000001, 9001)?;
    let mut out = Vec::from_slice(alloc, HEAD)?;
    let mut rest = Rest::room(alloc)?;
    let answer = pass_back(dialer, &mut rest, framing, chunked, &mut out, peer).end;
    drop(rest);
    drop(out);
    Ok(Passed {
        answer,
        went: written_of(peer.sink().held(), wanted),
        sends: 0,
        got: got_of(dialer.log()),
    })
}

/// Passes a reply's body back behind the head, with the bytes that come received and written in
/// such calls.
fn back(
    alloc: Global,
    framing: Framing,
    chunked: bool,
    comes: &[u8],
    wanted: &[u8],
    gives: Calls,
    takes: Calls,
) -> Result<Passed, Fail> {
    let mut dialer = dialer_of(alloc, comes, gives)?;
    let mut peer = match peer_of(alloc, b"", Calls::WHOLE, takes) {
        Ok(peer) => peer,
        Err(fault) => {
            drop(dialer);
            return Err(Fail::from(fault));
        }
    };
    let passed = receive(alloc, framing, chunked, &mut dialer, wanted, &mut peer);
    drop(peer);
    drop(dialer);
    passed
}

/// Passes a body this way, of which these bytes come and those are wanted to go on.
pub(super) fn pass(
    alloc: Global,
    way: Way,
    framing: Framing,
    comes: &[u8],
    wanted: &[u8],
    gives: Calls,
    takes: Calls,
) -> Result<Passed, Fail> {
    match way {
        Way::Onward => onward(alloc, framing, b"", comes, wanted, gives, takes),
        Way::Back { chunked } => back(alloc, framing, chunked, comes, wanted, gives, takes),
    }
}

/// The content of a body that is read, or why it is not; its bytes come in such calls.
fn whole(
    alloc: Global,
    framing: Framing,
    comes: &[u8],
    rest: &mut Rest,
    gives: Calls,
) -> Mem<Result<Bytes, BodyEnd>> {
    let mut peer = peer_of(alloc, comes, gives, Calls::WHOLE)?;
    let read = read_body(alloc, &mut peer, rest, framing);
    drop(peer);
    Ok(read)
}

/// Whether the content of a body that was read is this; or it was refused so.
fn is_content(read: Result<Bytes, BodyEnd>, end: Option<BodyEnd>, content: &[u8]) -> bool {
    match read {
        Ok(bytes) => end == None && bytes.as_slice() == content,
        Err(refused) => end == Some(refused),
    }
}

/// Whether a body whose bytes come in such calls, with these kept, is read as this content, or
/// refused so.
pub(super) fn is_read(
    alloc: Global,
    framing: Framing,
    kept: &[u8],
    comes: &[u8],
    gives: Calls,
    end: Option<BodyEnd>,
    content: &[u8],
) -> Mem<bool> {
    let mut rest = room_of(alloc, kept)?;
    let read = whole(alloc, framing, comes, &mut rest, gives);
    drop(rest);
    Ok(is_content(read?, end, content))
}

/// What comes of a request's body that is kept, where its first send fails; and whether these bytes
/// are kept behind it then.
pub(super) fn unsent(
    alloc: Global,
    framing: Framing,
    kept: &[u8],
    behind: &[u8],
) -> Result<(Result<u64, BodyEnd>, bool), Fail> {
    let mut rest = room_of(alloc, kept)?;
    let (gives, takes) = (Calls::WHOLE, Calls::until(0));
    let passed = send_from(alloc, framing, b"", &mut rest, b"", gives, takes);
    let is_kept = rest.kept().ends_with(behind);
    drop(rest);
    Ok((passed?.answer, is_kept))
}

/// Whether some bytes are written whole in such calls, and whether these are given of them.
pub(super) fn written(
    alloc: Global,
    bytes: &[u8],
    takes: Calls,
    given: &[u8],
) -> Mem<(bool, bool)> {
    let mut peer = peer_of(alloc, b"", Calls::WHOLE, takes)?;
    let is_whole = write_all(&mut peer, bytes).is_ok();
    let is_given = peer.sink().held() == given;
    drop(peer);
    Ok((is_whole, is_given))
}
