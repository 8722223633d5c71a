//! Worked exchanges.
use crate::row::{FAILED, PASSED, REFUSED, Row, UNANSWERED, play_rows};
use crate::scene::BOOK;
use crate::texts::{
    BAD_REQUEST, CHUNKED, CLOSE, DIAL, EMPTY, FIELDS, GET, GET_LINES, LAST_NEGATIVE, NEGATIVE, OK,
    ON, POST_LINES, SENT_FIELDS, TO_WEB, TWO, VIA, WRITTEN_EMPTY,
};
use http_wire::Ended::{Closed, Cut, PeerEnded, UpstreamCut};
use std::test::Fail;

/// The refusal where there is not one host.
const HOST: &str = "HTTP/1.1 400 Bad Request|Content-Type: text/plain|l5d-err: host|\
    Content-Length: 5|Connection: close||host~";

/// What goes on of a request to a service of the book.
const SENT: &str = "<GET / HTTP/1.1|Host: web|Via: 1.1 linkerd|l5d-dst-service: /svc/web|\
    l5d-dst-client: /#/io.l5d.fs/web|Connection: close||>";

/// Heads that go on or are refused.
const HEADS: [Row; 6] = [
    Row {
        about: "a head that goes on",
        table: "",
        gives: &[FIELDS],
        replies: &["HTTP/1.1 200 OK|Content-Length: 2|Server: t||hi"],
        written: &[OK, "Server: t|Content-Length: 2|", VIA, "hi"],
        sent: &[SENT_FIELDS],
        ..PASSED
    },
    Row {
        about: "no host",
        gives: &["GET / HTTP/1.1||"],
        written: &[HOST],
        ..REFUSED
    },
    Row {
        about: "two hosts",
        gives: &["GET / HTTP/1.1|Host: a|Host: b||"],
        written: &[HOST],
        ..REFUSED
    },
    Row {
        about: "an absolute target",
        gives: &["GET http://web/x HTTP/1.1|Host: other||"],
        replies: &["HTTP/1.1 204 No Content||"],
        written: &["HTTP/1.1 204 No Content|", VIA],
        sent: &["<GET /x HTTP/1.1|Host: web|", ON, ">"],
        ..PASSED
    },
    Row {
        about: "another version",
        gives: &["PRI * HTTP/2.0|"],
        written: &[
            "HTTP/1.1 505 HTTP Version Not Supported|Content-Type: text/plain|l5d-err: version|\
                Content-Length: 8|",
            CLOSE,
            "version~",
        ],
        ..REFUSED
    },
    Row {
        about: "a length beside chunks",
        gives: &[POST_LINES, "Content-Length: 3|", CHUNKED, "|"],
        written: &[BAD_REQUEST, "length|Content-Length: 7|", CLOSE, "length~"],
        ..REFUSED
    },
];

/// Bodies, and tries of a replica.
const TRIES: [Row; 6] = [
    Row {
        about: "a body that is cut in a chunk line",
        gives: &[POST_LINES, CHUNKED, "|5"],
        replies: &[EMPTY],
        sent: &["<", POST_LINES, CHUNKED, ON, ">"],
        ended: Cut,
        ..REFUSED
    },
    Row {
        about: "a chunk's size in other digits",
        gives: &[POST_LINES, CHUNKED, "|A|0123456789|0||"],
        sent: &["<", POST_LINES, CHUNKED, ON, "a|0123456789|0||>"],
        ..PASSED
    },
    Row {
        about: "a dial that fails, and the next request",
        table: BOOK,
        gives: &[TWO],
        dials: &[0],
        written: &[DIAL, WRITTEN_EMPTY],
        sent: &[SENT],
        ..PASSED
    },
    Row {
        about: "a dial that fails",
        table: BOOK,
        dials: &[0],
        written: &[DIAL],
        sent: &[],
        reported: FAILED,
        ..PASSED
    },
    Row {
        about: "an upstream's own failure",
        table: BOOK,
        replies: &["HTTP/1.1 503 Service Unavailable|Content-Length: 0||"],
        written: &["HTTP/1.1 503 Service Unavailable|Content-Length: 0|", VIA],
        sent: &[SENT],
        ..UNANSWERED
    },
    Row {
        about: "a reply that is cut",
        table: BOOK,
        gives: &[TWO],
        replies: &["HTTP/1.1 200 OK|Content-Length: 5||hi"],
        written: &[OK, "Content-Length: 5|", VIA, "hi"],
        sent: &[SENT],
        ended: UpstreamCut,
        ..UNANSWERED
    },
];

/// No replica, and a client that closes.
const REFUSALS: [Row; 3] = [
    Row {
        about: "no replica, and the connection goes on",
        table: "",
        gives: &[GET, "GET / HTTP/1.1|Host: other||"],
        written: &[NEGATIVE, NEGATIVE],
        ended: PeerEnded,
        ..REFUSED
    },
    Row {
        about: "no replica, and a body that nobody reads",
        table: "",
        gives: &[POST_LINES, "Content-Length: 3||abc", GET],
        written: &[LAST_NEGATIVE],
        ..REFUSED
    },
    Row {
        about: "a residual, and a client that closes",
        table: "/svc => /$/inet/127.0.0.1/9001",
        gives: &[GET_LINES, "Connection: Close||", GET],
        written: &[OK, "Content-Length: 0|Via: 1.1 linkerd|", CLOSE],
        sent: &[
            "<",
            GET_LINES,
            TO_WEB,
            "l5d-dst-residual: /web|",
            CLOSE,
            ">",
        ],
        ended: Closed,
        ..PASSED
    },
];

#[test]
fn heads_go_on(rt: HostRuntime) -> Result<(), Fail> {
    play_rows(&rt, rt.alloc(), &HEADS)
}

#[test]
fn tries_come_to_this(rt: HostRuntime) -> Result<(), Fail> {
    play_rows(&rt, rt.alloc(), &TRIES)
}

#[test]
fn refusals_come_to_this(rt: HostRuntime) -> Result<(), Fail> {
    play_rows(&rt, rt.alloc(), &REFUSALS)
}
