//! What a poll makes of a reply.
use crate::dialing::{LEADER, dialer};
use addr_book::Name;
use follow_feed::{Feed, PollEnd, poll};
use line_doubles::MemDialer;
use std::alloc::{AllocError, AllocGlobal, Global};
use std::fmt::Debug;
use std::process::Abort;
use std::test::Fail;

/// A good reply, whose table is that of a new namespace.
const GOOD: &str = "HTTP/1.1 200 OK\r\nContent-Type: application/json\r\nContent-Length: 59\r\n\r\n\
    {\"dtab\":\"/svc=>/#/io.l5d.fs\",\"place\":1,\"run\":7,\"version\":1}";

/// Replies, and the feed that a poll takes from them. The bytes behind the body don't count, nor do
/// blanks and the order of the members.
const TAKEN: [(&str, &str); 3] = [
    (GOOD, "run 7 place 1 version 1"),
    (
        "HTTP/1.0 200 \r\nContent-Length: 19\r\n\r\n{\"place\":0,\"run\":7}",
        "run 7 place 0 gone",
    ),
    (
        "HTTP/1.1 200 OK\r\nContent-Length: 26\r\n\r\n { \"run\": 7, \"place\": 3 } HTTP/1.1 500",
        "run 7 place 3 gone",
    ),
];

/// Replies with another status, without a length, in chunks, with a length over the limit, with two
/// lengths, of another version, and none.
const STRANGE_HEADS: [&str; 7] = [
    "HTTP/1.1 404 Not Found\r\nContent-Length: 19\r\n\r\n{\"place\":0,\"run\":7}",
    "HTTP/1.1 200 OK\r\n\r\n{\"place\":0,\"run\":7}",
    "HTTP/1.1 200 OK\r\nTransfer-Encoding: chunked\r\n\r\n\
        13\r\n{\"place\":0,\"run\":7}\r\n0\r\n\r\n",
    "HTTP/1.1 200 OK\r\nContent-Length: 1048577\r\n\r\n",
    "HTTP/1.1 200 OK\r\nContent-Length: 1, 2\r\n\r\n{}",
    "HTTP/2 200 OK\r\n\r\n",
    "",
];

/// Replies with an unknown key, with one too few, with numbers that are none, without a table, and
/// without an object.
const STRANGE_BODIES: [&str; 6] = [
    "HTTP/1.1 200 OK\r\nContent-Length: 25\r\n\r\n{\"place\":0,\"run\":7,\"x\":1}",
    "HTTP/1.1 200 OK\r\nContent-Length: 29\r\n\r\n{\"dtab\":\"\",\"place\":0,\"run\":7}",
    "HTTP/1.1 200 OK\r\nContent-Length: 21\r\n\r\n{\"place\":0.0,\"run\":7}",
    "HTTP/1.1 200 OK\r\nContent-Length: 20\r\n\r\n{\"place\":-1,\"run\":7}",
    "HTTP/1.1 200 OK\r\nContent-Length: 45\r\n\r\n\
        {\"dtab\":\"/svc\",\"place\":0,\"run\":7,\"version\":1}",
    "HTTP/1.1 200 OK\r\nContent-Length: 2\r\n\r\n[]",
];

/// The bytes of each receive in pieces, and those of each send.
const PIECE: usize = 40;

/// What a poll gives to which this is replied, in pieces, where this call of its dialer fails.
fn polled(alloc: Global, reply: &[u8], failing: Option<u64>) -> Result<String, Fail> {
    let sizes = Vec::from_elem(alloc, PIECE, 64)?;
    let mut dialer = dialer(alloc, &[reply], sizes, failing)?;
    let told = told(alloc, &mut dialer);
    drop(dialer);
    told
}

/// What a poll of this dialer gives, and how often its calls failed.
fn told(alloc: Global, dialer: &mut MemDialer) -> Result<String, Fail> {
    let space = Name::of(alloc, b"default")?;
    let polled = poll(alloc, dialer, LEADER, &space);
    drop(space);
    match polled {
        Ok(feed) => Ok(said_of(alloc, feed)?),
        Err(end) => Ok(said_of_none(alloc, end, dialer.faults())?),
    }
}

/// What is said of a poll that gives no feed, and where it is lost, how often calls failed.
fn said_of_none(alloc: Global, end: PollEnd, faults: u64) -> Result<String, AllocError> {
    match end {
        PollEnd::Lost => format!(in alloc; "lost {faults}"),
        PollEnd::Strange => String::from_str(alloc, "strange"),
        PollEnd::OutOfMemory => String::from_str(alloc, "memory"),
    }
}

/// What is said of a feed.
fn said_of(alloc: Global, feed: Feed) -> Result<String, AllocError> {
    let said = said(alloc, &feed);
    drop(feed);
    said
}

/// What a feed says.
fn said(alloc: Global, feed: &Feed) -> Result<String, AllocError> {
    let run = feed.run;
    let place = feed.place;
    match &feed.table {
        Some(table) => {
            let version = table.version;
            format!(in alloc; "run {run} place {place} version {version}")
        }
        None => format!(in alloc; "run {run} place {place} gone"),
    }
}

/// Asserts what a poll gives to which this is replied, where this call of its dialer fails.
fn assert_polled<R: AllocGlobal + Abort, D: Debug>(
    rt: &R,
    reply: &[u8],
    failing: Option<u64>,
    wanted: &str,
    row: &D,
) -> Result<(), Fail> {
    let told = polled(rt.alloc(), reply, failing)?;
    assert_eq!(rt; told.as_str(), wanted, "of {row:?}");
    drop(told);
    Ok(())
}

#[test]
fn good_replies_are_taken(rt: HostRuntime) -> Result<(), Fail> {
    for (reply, wanted) in &TAKEN {
        assert_polled(&rt, reply.as_bytes(), None, wanted, reply)?;
    }
    Ok(())
}

#[test]
fn replies_with_strange_heads_are_not_taken(rt: HostRuntime) -> Result<(), Fail> {
    for reply in &STRANGE_HEADS {
        assert_polled(&rt, reply.as_bytes(), None, "strange", reply)?;
    }
    Ok(())
}

#[test]
fn replies_with_strange_bodies_are_not_taken(rt: HostRuntime) -> Result<(), Fail> {
    for reply in &STRANGE_BODIES {
        assert_polled(&rt, reply.as_bytes(), None, "strange", reply)?;
    }
    Ok(())
}

#[test]
fn a_reply_that_ends_early_is_strange(rt: HostRuntime) -> Result<(), Fail> {
    for at in 0..GOOD.len() {
        assert_polled(&rt, &GOOD.as_bytes()[..at], None, "strange", &at)?;
    }
    Ok(())
}

#[test]
fn a_poll_whose_call_fails_is_lost(rt: HostRuntime) -> Result<(), Fail> {
    // A dial, two sends and four receives.
    for call in 0..7 {
        assert_polled(&rt, GOOD.as_bytes(), Some(call), "lost 1", &call)?;
    }
    assert_polled(&rt, GOOD.as_bytes(), Some(7), "run 7 place 1 version 1", &7)
}
