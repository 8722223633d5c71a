//! Replies of each framing, and the ways in which a try ends, with the report that each makes.
use crate::row::{NOTHING, PASSED, REFUSED, Row, UNANSWERED, play_rows};
use crate::texts::{
    BAD_GATEWAY, CHUNKED, CLOSE, EMPTY, GET, GET_LINES, OK, ON, POST_LINES, REPLY, TWO, UPSTREAM,
    VIA, WRITTEN, WRITTEN_EMPTY,
};
use http_wire::Ended::{Closed, PeerEnded, ReadFault, UpstreamCut, WriteFault};
use std::test::Fail;

/// Replies of each framing.
const FRAMINGS: [Row; 6] = [
    Row {
        about: "a reply to HEAD",
        gives: &["HEAD / HTTP/1.1|Host: web||"],
        replies: &["HTTP/1.1 200 OK|Content-Length: 5||"],
        written: &[OK, "Content-Length: 5|", VIA],
        sent: &["<HEAD / HTTP/1.1|Host: web|", ON, ">"],
        ..PASSED
    },
    Row {
        about: "a refusal of HEAD",
        table: "",
        gives: &["HEAD / HTTP/1.1|Host: web||"],
        written: &[BAD_GATEWAY, "negative|Content-Length: 9||"],
        ended: PeerEnded,
        ..REFUSED
    },
    Row {
        about: "a 304 with a length",
        replies: &["HTTP/1.1 304 Not Modified|Content-Length: 5||"],
        written: &["HTTP/1.1 304 Not Modified|Content-Length: 5|", VIA],
        ..PASSED
    },
    Row {
        about: "chunks to HTTP/1.1",
        replies: &["HTTP/1.1 200 OK|Transfer-Encoding: chunked||05;x|hello|0|T: 1||"],
        written: &[OK, CHUNKED, VIA, "5|hello|0||"],
        ..PASSED
    },
    Row {
        about: "chunks to HTTP/1.0",
        gives: &["GET / HTTP/1.0|Host: web||"],
        replies: &["HTTP/1.1 200 OK|Transfer-Encoding: chunked||5|hello|0||"],
        written: &[OK, "Via: 1.1 linkerd|", CLOSE, "hello"],
        sent: &[
            "<",
            GET_LINES,
            "Via: 1.0 linkerd|l5d-dst-service: /svc/web|l5d-dst-client: /$/inet/127.0.0.1/9001|",
            CLOSE,
            ">",
        ],
        ended: Closed,
        ..PASSED
    },
    Row {
        about: "a body up to the end",
        gives: &[TWO],
        replies: &["HTTP/1.0 200 OK||hello"],
        written: &[OK, "Via: 1.0 linkerd|", CLOSE, "hello"],
        ended: Closed,
        ..PASSED
    },
];

/// Heads before the last one.
const INTERIM: [Row; 3] = [
    Row {
        about: "eight interim heads",
        replies: &[
            "HTTP/1.1 100 Continue||HTTP/1.1 100 Continue||HTTP/1.1 100 Continue||\
                HTTP/1.1 100 Continue||HTTP/1.1 103 Early Hints|Link: a|Content-Length: 3|\
                Transfer-Encoding: chunked||HTTP/1.1 103 Early Hints|Link: a||\
                HTTP/1.1 103 Early Hints|Link: a||HTTP/1.1 103 Early Hints|Link: a||\
                HTTP/1.1 200 OK|Content-Length: 0||",
        ],
        ..PASSED
    },
    Row {
        about: "a ninth interim head",
        replies: &[
            "HTTP/1.1 100 Continue||HTTP/1.1 100 Continue||HTTP/1.1 100 Continue||\
                HTTP/1.1 100 Continue||HTTP/1.1 100 Continue||HTTP/1.1 100 Continue||\
                HTTP/1.1 100 Continue||HTTP/1.1 100 Continue||HTTP/1.1 100 Continue||\
                HTTP/1.1 200 OK|Content-Length: 0||",
        ],
        ..UNANSWERED
    },
    Row {
        about: "another protocol",
        replies: &["HTTP/1.1 101 Switching Protocols||"],
        ..UNANSWERED
    },
];

/// Replies that are none, or break.
const BROKEN: [Row; 5] = [
    Row {
        about: "no reply",
        ..UNANSWERED
    },
    Row {
        about: "a reply's head that is cut",
        replies: &["HTTP/1.1 200 OK|"],
        ..UNANSWERED
    },
    Row {
        about: "bytes that are no reply",
        replies: &["hello"],
        ..UNANSWERED
    },
    Row {
        about: "a reply that is framed twice",
        replies: &["HTTP/1.1 200 OK|Content-Length: 1|Transfer-Encoding: chunked||1|a|0||"],
        ..UNANSWERED
    },
    Row {
        about: "a reply in chunks that is cut",
        replies: &["HTTP/1.1 200 OK|Transfer-Encoding: chunked||5|hel"],
        written: &[OK, CHUNKED, VIA, "5|hel"],
        ended: UpstreamCut,
        ..UNANSWERED
    },
];

/// Calls that fail, and a body that is too long.
const CALLS: [Row; 6] = [
    Row {
        about: "a send that fails",
        replies: &[EMPTY],
        dials: &[1],
        sent: &["<>"],
        ..UNANSWERED
    },
    Row {
        about: "a receive that fails",
        replies: &[EMPTY],
        dials: &[2],
        ..UNANSWERED
    },
    Row {
        about: "a request's body that is too long",
        gives: &[POST_LINES, CHUNKED, "|8000000000000000|"],
        replies: &[EMPTY],
        written: &[
            "HTTP/1.1 413 Content Too Large|Content-Type: text/plain|l5d-err: too-long|\
                Content-Length: 9|",
            CLOSE,
            "too-long~",
        ],
        sent: &["<", POST_LINES, CHUNKED, ON, "8000000000000000|>"],
        ..REFUSED
    },
    Row {
        about: "a request's body that can't be read",
        gives: &[POST_LINES, "Content-Length: 3||a"],
        replies: &[EMPTY],
        reads: &[1],
        sent: &["<", POST_LINES, "Content-Length: 3|", ON, "a>"],
        ended: ReadFault,
        ..REFUSED
    },
    Row {
        about: "a reply that can't be written",
        writes: &[0],
        written: &[],
        ended: WriteFault,
        reported: NOTHING,
        ..PASSED
    },
    Row {
        about: "a refusal that can't be written",
        writes: &[0],
        written: &[],
        ended: WriteFault,
        ..UNANSWERED
    },
];

/// What comes behind a reply that is told, and behind a try that failed.
const BEHIND: [Row; 5] = [
    Row {
        about: "a reply of no content, told before the next receive",
        replies: &["HTTP/1.1 204 No Content||"],
        dials: &[3],
        written: &["HTTP/1.1 204 No Content|", VIA],
        ..PASSED
    },
    Row {
        about: "a length of 0, told before the next receive",
        dials: &[3],
        ..PASSED
    },
    Row {
        about: "a request of no content that is not sent, and one behind it",
        gives: &[POST_LINES, "Content-Length: 0||", GET],
        replies: &["", REPLY],
        dials: &[1],
        written: &[UPSTREAM, WRITTEN],
        sent: &["<><", GET_LINES, ON, ">"],
        ..PASSED
    },
    Row {
        about: "a body that is not sent, and a request behind it",
        gives: &[POST_LINES, "Content-Length: 5||hello", GET],
        replies: &["", REPLY],
        dials: &[1],
        written: &[
            BAD_GATEWAY,
            "upstream|Content-Length: 9|",
            CLOSE,
            "upstream~",
        ],
        sent: &["<>"],
        ended: Closed,
        ..UNANSWERED
    },
    Row {
        about: "a long head, and a shorter one behind it",
        gives: &["GET /long?a=b HTTP/1.1|Host: web|X-Long: 0123456789||", GET],
        replies: &[
            "HTTP/1.1 200 OK|Content-Length: 0|X-Long: 0123456789||",
            EMPTY,
        ],
        written: &[
            OK,
            "X-Long: 0123456789|Content-Length: 0|",
            VIA,
            WRITTEN_EMPTY,
        ],
        sent: &[
            "<GET /long?a=b HTTP/1.1|Host: web|X-Long: 0123456789|",
            ON,
            "><",
            GET_LINES,
            ON,
            ">",
        ],
        ..PASSED
    },
];

#[test]
fn replies_are_framed(rt: HostRuntime) -> Result<(), Fail> {
    play_rows(&rt, rt.alloc(), &FRAMINGS)
}

#[test]
fn interim_heads_are_skipped(rt: HostRuntime) -> Result<(), Fail> {
    play_rows(&rt, rt.alloc(), &INTERIM)
}

#[test]
fn a_reply_that_breaks_is_reported(rt: HostRuntime) -> Result<(), Fail> {
    play_rows(&rt, rt.alloc(), &BROKEN)
}

#[test]
fn a_call_that_fails_is_reported(rt: HostRuntime) -> Result<(), Fail> {
    play_rows(&rt, rt.alloc(), &CALLS)
}

#[test]
fn what_stands_behind_is_not_lost(rt: HostRuntime) -> Result<(), Fail> {
    play_rows(&rt, rt.alloc(), &BEHIND)
}
