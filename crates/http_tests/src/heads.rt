//! Heads of requests and replies: when they are known, what they ask, and what is refused.
use crate::requests::{dialer_of, head_of, method_of, peer_of, reply_of, room_of, spelled};
use http::Method;
use http_wire::{
    Framing, Head, HeadEnd, Mem, ReplyHead, Rest, names_close, push_line, read_request_head,
    reply_framing, same_bytes,
};
use line_doubles::{MemDialer, MemPeer};
use own_reply::{OwnError, Refusal, Tested, test_request};
use std::alloc::Global;
use std::test::Fail;

/// What is kept and what comes, where `%` stands for so many `x`; the size of its pieces; the
/// number of the read that fails; why no head is read; and how many reads failed and gave the end.
type Read = (
    &'static str,
    &'static str,
    usize,
    usize,
    u64,
    Option<HeadEnd>,
    (u64, u64),
);

/// A size that no piece has.
const MOST: usize = usize::MAX;

static READ: [Read; 23] = [
    // A head is known before the next read, which would fail.
    ("", "GET / HTTP/1.1|Host: a||", 0, MOST, 1, None, (0, 0)),
    ("", "GET / HTTP/1.1\nHost: a\n\n", 0, MOST, 1, None, (0, 0)),
    (
        "",
        "POST / HTTP/1.1|Host: a|Content-Length: 2||hi",
        0,
        MOST,
        1,
        None,
        (0, 0),
    ),
    (
        "GET / HTTP/1.1\r\nHost: a\r\n\r\nx",
        "",
        0,
        MOST,
        0,
        None,
        (0, 0),
    ),
    (
        "\r\nGET / HTTP/1.1\nHost: a\n\r",
        "\n",
        0,
        MOST,
        1,
        None,
        (0, 0),
    ),
    (
        "GET / HTTP/1.1\nHost: a\n\r",
        "",
        0,
        MOST,
        1,
        Some(HeadEnd::Cut),
        (0, 1),
    ),
    // A head in pieces is known at its last byte, and not before it.
    ("", "GET / HTTP/1.1|Host: a||", 0, 1, 27, None, (0, 0)),
    ("", "GET / HTTP/1.1|Host: a||", 0, 7, 4, None, (0, 0)),
    ("", "GET / HTTP/1.1|Host: a||", 0, 10, 3, None, (0, 0)),
    (
        "",
        "GET / HTTP/1.1|Host: a|\r",
        0,
        1,
        26,
        Some(HeadEnd::ReadFault),
        (1, 0),
    ),
    (
        "",
        "GET / HTTP/1.1|Host: a|\r",
        0,
        7,
        4,
        Some(HeadEnd::ReadFault),
        (1, 0),
    ),
    (
        "",
        "GET / HTTP/1.1|Host: a|\r",
        0,
        10,
        3,
        Some(HeadEnd::ReadFault),
        (1, 0),
    ),
    // What is no head is refused.
    ("", "|\n", 0, MOST, 99, Some(HeadEnd::Ended), (0, 1)),
    ("", "|\r", 0, MOST, 99, Some(HeadEnd::Cut), (0, 1)),
    (
        "",
        "PRI * HTTP/2.0|",
        0,
        MOST,
        99,
        Some(HeadEnd::Version),
        (0, 0),
    ),
    (
        "",
        "GET  / HTTP/1.1|",
        0,
        MOST,
        99,
        Some(HeadEnd::Bad),
        (0, 0),
    ),
    (
        "",
        "GET / HTTP/1.1\nA: b\n c\n\n",
        0,
        MOST,
        99,
        Some(HeadEnd::Bad),
        (0, 0),
    ),
    // A head has at most 65,536 bytes.
    ("", "GET / HTTP/1.1\nA:%|\n", 1_234, MOST, 99, None, (0, 0)),
    ("", "GET / HTTP/1.1\nA:%|\n", 5_000, MOST, 99, None, (0, 0)),
    ("", "GET / HTTP/1.1\nA:%|\n", 17_000, MOST, 99, None, (0, 0)),
    ("", "GET / HTTP/1.1\nA:%|\n", 40_000, MOST, 99, None, (0, 0)),
    ("", "GET / HTTP/1.1\nA:%|\n", 65_516, MOST, 99, None, (0, 0)),
    (
        "",
        "GET / HTTP/1.1\nA:%|\n",
        65_517,
        MOST,
        99,
        Some(HeadEnd::TooLarge),
        (0, 0),
    ),
];

/// Why no head is read of what is kept and what a peer gives, and how many reads failed and gave
/// the end.
fn end_from(alloc: Global, kept: &str, peer: &mut MemPeer) -> Mem<(Option<HeadEnd>, (u64, u64))> {
    let mut rest = room_of(alloc, kept.as_bytes())?;
    let end = read_request_head(alloc, peer, &mut rest).err();
    Ok((end, (peer.source().faults(), peer.source().ends())))
}

/// The same of what a row says.
fn end_of(alloc: Global, row: &Read) -> Mem<(Option<HeadEnd>, (u64, u64))> {
    let comes = spelled(alloc, row.1, "x", row.2)?;
    let mut peer = peer_of(alloc, comes, row.3, row.4)?;
    let end = end_from(alloc, row.0, &mut peer);
    drop(peer);
    end
}

#[test]
fn heads_are_read_at_their_last_byte(rt: HostRuntime) -> Result<(), Fail> {
    for row in &READ {
        let end = end_of(rt.alloc(), row)?;
        assert!(rt; end == (row.5, row.6), "{:?} {:?} {}", row.0, row.1, row.2);
    }
    Ok(())
}

/// Whether the next head that a peer gives has this method; or why there is none.
fn is_next(
    alloc: Global,
    peer: &mut MemPeer,
    rest: &mut Rest,
    method: &str,
) -> Result<bool, HeadEnd> {
    match read_request_head(alloc, peer, rest) {
        Ok(head) => {
            let is_next = head.method.as_str() == method;
            drop(head);
            Ok(is_next)
        }
        Err(end) => Err(end),
    }
}

/// Whether a peer gives heads with the methods `PROPPATCH`, `GET` and `X-Y`, then none, and `POST`
/// is kept.
fn heads_from(alloc: Global, peer: &mut MemPeer) -> Mem<[bool; 5]> {
    let mut rest = Rest::room(alloc)?;
    let first = is_next(alloc, peer, &mut rest, "PROPPATCH") == Ok(true);
    let second = is_next(alloc, peer, &mut rest, "GET") == Ok(true);
    let third = is_next(alloc, peer, &mut rest, "X-Y") == Ok(true);
    let is_last = is_next(alloc, peer, &mut rest, "").is_err();
    let is_kept = rest.kept() == b"POST".as_slice();
    drop(rest);
    Ok([first, second, third, is_last, is_kept])
}

/// The same of a peer that gives this text.
fn heads_of(alloc: Global, text: &str) -> Mem<[bool; 5]> {
    let text = Vec::from_slice(alloc, text.as_bytes())?;
    let mut peer = peer_of(alloc, text, MOST, 1)?;
    let heads = heads_from(alloc, &mut peer);
    drop(peer);
    heads
}

#[test]
fn many_heads_come_through_one_room(rt: HostRuntime) -> Result<(), Fail> {
    let text =
        "PROPPATCH /a HTTP/1.1\nHost: a\n\nGET / HTTP/1.0\r\n\r\n\r\nX-Y /c HTTP/1.1\n\nPOST";
    assert_eq!(rt; heads_of(rt.alloc(), text)?, [true; 5]);
    Ok(())
}

/// Whether the target and the host of a request are these, with a blank between them.
fn is_way(tested: &Tested, way: &str) -> bool {
    match way.split_once(' ') {
        Some((target, host)) => {
            tested.target.line.as_slice() == target.as_bytes()
                && tested.host.as_slice() == host.as_bytes()
        }
        None => false,
    }
}

/// How the body of a request is framed, or why the request is refused; whether its head names
/// `close`; and how many fields it has.
type Asked = (Result<Framing, Refusal>, bool, usize);

/// What a request asks whose body may have so many bytes, and whether this is its way, which it has
/// none of where it is refused.
fn asked_of(alloc: Global, head: &Head, most: Option<u64>, way: &str) -> (Asked, bool) {
    let (closes, fields) = (names_close(&head.fields), head.fields.items().len());
    match test_request(alloc, head, most) {
        Ok(tested) => {
            let (framing, is_way) = (tested.framing, is_way(&tested, way));
            drop(tested);
            ((Ok(framing), closes, fields), is_way)
        }
        Err(refusal) => ((Err(refusal), closes, fields), way.is_empty()),
    }
}

/// The same of a text, in which `%` stands for so many fields.
fn asked(
    alloc: Global,
    text: &str,
    count: usize,
    most: Option<u64>,
    way: &str,
) -> Result<(Asked, bool), Fail> {
    let head = head_of(alloc, text, "A: b\n", count)?;
    let asked = asked_of(alloc, &head, most, way);
    drop(head);
    Ok(asked)
}

/// Requests, how many fields `%` stands for, the most bytes of their bodies, their targets and
/// hosts, and what they ask. The first test that refuses one decides.
static ASKED: [(&str, usize, Option<u64>, &str, Asked); 19] = [
    (
        "GET http://web?x=1#y HTTP/1.1\nHost: other\nContent-Length: 03 ,\t3\n\n",
        0,
        Some(3),
        "/?x=1 web",
        (Ok(Framing::Length(3)), false, 2),
    ),
    (
        "OPTIONS http://web HTTP/1.1\nHost: other\n\n",
        0,
        None,
        "* web",
        (Ok(Framing::Nothing), false, 1),
    ),
    (
        "PUT / HTTP/1.1\nHost: a\nTransfer-Encoding: chunked\n\n",
        0,
        Some(0),
        "/ a",
        (Ok(Framing::Chunked), false, 2),
    ),
    (
        "CONNECT a:1 HTTP/1.1\nContent-Length: x\n\n",
        0,
        None,
        "",
        (Err(Refusal::Own(OwnError::Connect)), false, 1),
    ),
    (
        "GET * HTTP/1.1\nContent-Length: x\n\n",
        0,
        None,
        "",
        (Err(Refusal::Own(OwnError::Target)), false, 1),
    ),
    (
        "GET / HTTP/1.1\nContent-Length: 1, 2\n\n",
        0,
        Some(0),
        "",
        (Err(Refusal::Own(OwnError::Length)), false, 1),
    ),
    (
        "GET / HTTP/1.1\nTransfer-Encoding: gzip\n\n",
        0,
        Some(0),
        "",
        (Err(Refusal::Own(OwnError::Coding)), false, 1),
    ),
    (
        "GET / HTTP/1.1\nContent-Length: 4\n\n",
        0,
        Some(3),
        "",
        (Err(Refusal::Own(OwnError::TooLong)), false, 1),
    ),
    (
        "GET / HTTP/1.1\nContent-Length: 4\n\n",
        0,
        Some(4),
        "",
        (Err(Refusal::Own(OwnError::Host)), false, 1),
    ),
    (
        "GET / HTTP/1.1\nContent-Length: 4\n\n",
        0,
        None,
        "",
        (Err(Refusal::Own(OwnError::Host)), false, 1),
    ),
    // Which heads name `close`.
    (
        "GET / HTTP/1.0\nConnection: close\n\n",
        0,
        None,
        "/ ",
        (Ok(Framing::Nothing), true, 1),
    ),
    (
        "GET / HTTP/1.0\nconnection: keep-alive ,\tCLOSE\n\n",
        0,
        None,
        "/ ",
        (Ok(Framing::Nothing), true, 1),
    ),
    (
        "GET / HTTP/1.0\nConnection: closed\n\n",
        0,
        None,
        "/ ",
        (Ok(Framing::Nothing), false, 1),
    ),
    (
        "GET / HTTP/1.0\nConnection: keep-alive\nConnection: close\n\n",
        0,
        None,
        "/ ",
        (Ok(Framing::Nothing), true, 2),
    ),
    (
        "GET / HTTP/1.0\nX-Connection: close\n\n",
        0,
        None,
        "/ ",
        (Ok(Framing::Nothing), false, 1),
    ),
    (
        "GET / HTTP/1.0\n\n",
        0,
        None,
        "/ ",
        (Ok(Framing::Nothing), false, 0),
    ),
    // A head has all its fields.
    (
        "GET / HTTP/1.0\n%\n",
        64,
        None,
        "/ ",
        (Ok(Framing::Nothing), false, 64),
    ),
    (
        "GET / HTTP/1.0\n%\n",
        65,
        None,
        "/ ",
        (Ok(Framing::Nothing), false, 65),
    ),
    (
        "GET / HTTP/1.0\n%\n",
        200,
        None,
        "/ ",
        (Ok(Framing::Nothing), false, 200),
    ),
];

#[test]
fn what_a_request_asks(rt: HostRuntime) -> Result<(), Fail> {
    for (text, count, most, way, asks) in &ASKED {
        let (asked, is_way) = asked(rt.alloc(), text, *count, *most, way)?;
        assert!(rt; asked == *asks && is_way, "{text:?}");
    }
    Ok(())
}

/// Whether the line of a field is this.
fn is_line(alloc: Global, name: &str, value: &str, line: &[u8]) -> Mem<bool> {
    let mut written = Vec::new(alloc);
    push_line(&mut written, name, value.as_bytes())?;
    Ok(written.as_slice() == line)
}

#[test]
fn names_and_lines(rt: HostRuntime) -> Result<(), Fail> {
    let is_line = is_line(rt.alloc(), "A", "b", b"A: b\r\n")?;
    let seen = [
        same_bytes(b"Web", b"wEB"),
        same_bytes(b"a_", b"a-"),
        is_line,
    ];
    assert_eq!(rt; seen, [true, false, true]);
    Ok(())
}

/// How the body of a reply is framed, if at all, and how many fields its head has; or why it has
/// none.
type Replied = Result<(Option<Framing>, usize), HeadEnd>;

/// How the body of a reply to this method is framed, and how many fields its head has.
fn replied_to(
    method: &Method,
    read: Result<Result<ReplyHead, HeadEnd>, Fail>,
) -> Result<Replied, Fail> {
    match read? {
        Ok(head) => {
            let framing = reply_framing(method, &head).ok();
            let count = head.fields.items().len();
            drop(head);
            Ok(Ok((framing, count)))
        }
        Err(end) => Ok(Err(end)),
    }
}

/// What comes of a reply to this method that a dialer gives; and how many bytes are kept behind its
/// head.
fn replied_from(
    alloc: Global,
    method: &str,
    dialer: &mut MemDialer,
) -> Result<(Replied, usize), Fail> {
    let method = method_of(alloc, method)?;
    let mut rest = match Rest::room(alloc) {
        Ok(rest) => rest,
        Err(fault) => {
            drop(method);
            return Err(Fail::from(fault));
        }
    };
    let read = reply_of(alloc, dialer, &mut rest);
    let kept = rest.kept().len();
    drop(rest);
    let replied = replied_to(&method, read);
    drop(method);
    Ok((replied?, kept))
}

/// The same of a row.
fn replied(alloc: Global, row: &Reply) -> Result<(Replied, usize), Fail> {
    let text = spelled(alloc, row.1, row.2, row.3)?;
    let mut dialer = dialer_of(alloc, text)?;
    let replied = replied_from(alloc, row.0, &mut dialer);
    drop(dialer);
    replied
}

/// A method, a reply, what `%` stands for in it and how often, what comes of it, and how many bytes
/// are kept behind its head.
type Reply = (
    &'static str,
    &'static str,
    &'static str,
    usize,
    Replied,
    usize,
);

/// A reply of two bytes.
const OK: &str = "HTTP/1.1 200 OK|Content-Length: 2|Server: t||hi";

/// A first line and lines behind it.
const LINES: &str = "HTTP/1.1 200 OK\n%\n";

/// One receive brings at most 16,384 bytes.
static REPLIES: [Reply; 10] = [
    ("GET", OK, "", 0, Ok((Some(Framing::Length(2)), 2)), 2),
    ("HEAD", OK, "", 0, Ok((Some(Framing::Nothing), 2)), 2),
    (
        "GET",
        "\nHTTP/1.0 007\n\n",
        "",
        0,
        Ok((Some(Framing::ToEnd), 0)),
        0,
    ),
    (
        "GET",
        "HTTP/1.1 200 OK|",
        "",
        0,
        Err(HeadEnd::ReadFault),
        17,
    ),
    ("GET", "HTTP/1.2", "", 0, Err(HeadEnd::Bad), 8),
    (
        "GET",
        "HTTP/1.1 200 OK||%",
        "x",
        10_000,
        Ok((Some(Framing::ToEnd), 0)),
        10_000,
    ),
    (
        "GET",
        "HTTP/1.1 200 OK||%",
        "x",
        20_000,
        Ok((Some(Framing::ToEnd), 0)),
        16_365,
    ),
    (
        "GET",
        LINES,
        "A: b\n",
        64,
        Ok((Some(Framing::ToEnd), 64)),
        0,
    ),
    (
        "GET",
        LINES,
        "A: b\n",
        65,
        Ok((Some(Framing::ToEnd), 65)),
        0,
    ),
    (
        "GET",
        LINES,
        "A: b\n",
        200,
        Ok((Some(Framing::ToEnd), 200)),
        0,
    ),
];

#[test]
fn replies_with_their_heads(rt: HostRuntime) -> Result<(), Fail> {
    for row in &REPLIES {
        let replied = replied(rt.alloc(), row)?;
        assert!(rt; replied == (row.4, row.5), "{:?} {}", row.1, row.3);
    }
    Ok(())
}
