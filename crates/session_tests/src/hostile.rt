//! Requests that try a router's framing.
use crate::row::{PASSED, REFUSED, Row, play_rows};
use crate::texts::{
    BAD_REQUEST, CHUNKED, CLOSE, EMPTY, GET, GET_LINES, NOT_IMPLEMENTED, OK, ON, POST_LINES, TWO,
    VIA,
};
use http_wire::Ended::Cut;
use std::test::Fail;

/// The refusal of a length.
const LENGTH: &str = "HTTP/1.1 400 Bad Request|Content-Type: text/plain|l5d-err: length|\
    Content-Length: 7|Connection: close||length~";

/// The refusal of a coding.
const CODING: &str = "HTTP/1.1 501 Not Implemented|Content-Type: text/plain|l5d-err: coding|\
    Content-Length: 7|Connection: close||coding~";

/// The refusal of a head.
const BAD_HEAD: &str = "HTTP/1.1 400 Bad Request|Content-Type: text/plain|l5d-err: bad-head|\
    Content-Length: 9|Connection: close||bad-head~";

/// The refusal of a body.
const BODY: &str = "HTTP/1.1 400 Bad Request|Content-Type: text/plain|l5d-err: body|\
    Content-Length: 5|Connection: close||body~";

/// Lengths of a body.
const LENGTHS: [Row; 6] = [
    Row {
        about: "two lengths alike",
        gives: &[POST_LINES, "Content-Length: 3|Content-Length: 3||abc"],
        sent: &["<", POST_LINES, "Content-Length: 3|", ON, "abc>"],
        ..PASSED
    },
    Row {
        about: "a list of lengths alike",
        gives: &[POST_LINES, "Content-Length: 3, 3||abc"],
        sent: &["<", POST_LINES, "Content-Length: 3|", ON, "abc>"],
        ..PASSED
    },
    Row {
        about: "two lengths that differ",
        gives: &[POST_LINES, "Content-Length: 3|Content-Length: 4||"],
        written: &[LENGTH],
        ..REFUSED
    },
    Row {
        about: "a length with a sign",
        gives: &[POST_LINES, "Content-Length: +3||"],
        written: &[LENGTH],
        ..REFUSED
    },
    Row {
        about: "a length that is too great",
        gives: &[POST_LINES, "Content-Length: 9223372036854775808||"],
        written: &[LENGTH],
        ..REFUSED
    },
    Row {
        about: "the greatest length, and no body",
        gives: &[POST_LINES, "Content-Length: 9223372036854775807||"],
        replies: &[EMPTY],
        sent: &[
            "<",
            POST_LINES,
            "Content-Length: 9223372036854775807|",
            ON,
            ">",
        ],
        ended: Cut,
        ..REFUSED
    },
];

/// Codings of a body.
const CODINGS: [Row; 4] = [
    Row {
        about: "another coding before chunks",
        gives: &[POST_LINES, "Transfer-Encoding: gzip, chunked||"],
        written: &[CODING],
        ..REFUSED
    },
    Row {
        about: "chunks twice",
        gives: &[POST_LINES, CHUNKED, CHUNKED, "|"],
        written: &[CODING],
        ..REFUSED
    },
    Row {
        about: "chunks in HTTP/1.0",
        gives: &["POST / HTTP/1.0|Host: web|", CHUNKED, "|"],
        written: &[LENGTH],
        ..REFUSED
    },
    Row {
        about: "chunks in another case, with an extension",
        gives: &[POST_LINES, "Transfer-Encoding: Chunked||5;a=b|hello|0||"],
        sent: &["<", POST_LINES, CHUNKED, ON, "5|hello|0||>"],
        ..PASSED
    },
];

/// Bytes of heads and of chunks.
const BYTES: [Row; 7] = [
    Row {
        about: "a blank before the colon",
        gives: &[POST_LINES, "Transfer-Encoding : chunked||"],
        written: &[BAD_HEAD],
        ..REFUSED
    },
    Row {
        about: "a chunk line without a size",
        gives: &[POST_LINES, CHUNKED, "|G|"],
        replies: &[EMPTY],
        written: &[BODY],
        sent: &["<", POST_LINES, CHUNKED, ON, ">"],
        ..REFUSED
    },
    Row {
        about: "a chunk that goes on behind its size",
        gives: &[POST_LINES, CHUNKED, "|5|helloX"],
        replies: &[EMPTY],
        written: &[BODY],
        sent: &["<", POST_LINES, CHUNKED, ON, "5|hello>"],
        ..REFUSED
    },
    Row {
        about: "a byte 0 in a value",
        gives: &[POST_LINES, "X: a\0b||"],
        written: &[BAD_HEAD],
        ..REFUSED
    },
    Row {
        about: "HTTP/1.0 without a host",
        gives: &["GET / HTTP/1.0||", GET],
        written: &[
            BAD_REQUEST,
            "unidentified|Content-Length: 13|",
            CLOSE,
            "unidentified~",
        ],
        ..REFUSED
    },
    Row {
        about: "two requests in one read",
        gives: &[TWO],
        replies: &[
            "HTTP/1.1 200 OK|Content-Length: 1||a",
            "HTTP/1.1 404 Not Found|Content-Length: 1||b",
        ],
        written: &[
            OK,
            "Content-Length: 1|",
            VIA,
            "aHTTP/1.1 404 Not Found|Content-Length: 1|",
            VIA,
            "b",
        ],
        sent: &["<", GET_LINES, ON, "><", GET_LINES, ON, ">"],
        ..PASSED
    },
    Row {
        about: "a tunnel",
        gives: &["CONNECT web:80 HTTP/1.1|Host: web||"],
        written: &[
            NOT_IMPLEMENTED,
            "connect|Content-Length: 8|",
            CLOSE,
            "connect~",
        ],
        ..REFUSED
    },
];

#[test]
fn lengths_are_framed_or_refused(rt: HostRuntime) -> Result<(), Fail> {
    play_rows(&rt, rt.alloc(), &LENGTHS)
}

#[test]
fn codings_are_framed_or_refused(rt: HostRuntime) -> Result<(), Fail> {
    play_rows(&rt, rt.alloc(), &CODINGS)
}

#[test]
fn bytes_are_framed_or_refused(rt: HostRuntime) -> Result<(), Fail> {
    play_rows(&rt, rt.alloc(), &BYTES)
}
