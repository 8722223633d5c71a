//! Every reply, compared byte for byte with what is put together here of its status, its word and
//! its length.

use own_reply::{OwnError, own_reply};
use std::alloc::{AllocError, Global};
use std::test::Fail;

/// An error, the status of its reply, its word, and how long its body is.
#[derive(Clone, Copy)]
struct Row(OwnError, &'static str, &'static str, &'static str);

static ROWS: [Row; 19] = [
    Row(
        OwnError::Version,
        "505 HTTP Version Not Supported",
        "version",
        "8",
    ),
    Row(OwnError::BadHead, "400 Bad Request", "bad-head", "9"),
    Row(
        OwnError::HeadTooLarge,
        "431 Request Header Fields Too Large",
        "head-too-large",
        "15",
    ),
    Row(OwnError::Connect, "501 Not Implemented", "connect", "8"),
    Row(OwnError::Target, "400 Bad Request", "target", "7"),
    Row(OwnError::Length, "400 Bad Request", "length", "7"),
    Row(OwnError::Coding, "501 Not Implemented", "coding", "7"),
    Row(OwnError::TooLong, "413 Content Too Large", "too-long", "9"),
    Row(OwnError::Host, "400 Bad Request", "host", "5"),
    Row(
        OwnError::Unidentified,
        "400 Bad Request",
        "unidentified",
        "13",
    ),
    Row(OwnError::Dtab, "400 Bad Request", "dtab", "5"),
    Row(OwnError::Body, "400 Bad Request", "body", "5"),
    Row(OwnError::Negative, "502 Bad Gateway", "negative", "9"),
    Row(OwnError::Failing, "502 Bad Gateway", "failing", "8"),
    Row(OwnError::Empty, "502 Bad Gateway", "empty", "6"),
    Row(OwnError::TooDeep, "502 Bad Gateway", "too-deep", "9"),
    Row(OwnError::TooWide, "502 Bad Gateway", "too-wide", "9"),
    Row(OwnError::Dial, "502 Bad Gateway", "dial", "5"),
    Row(OwnError::Upstream, "502 Bad Gateway", "upstream", "9"),
];

/// Whether some bytes are these texts, one behind the other.
fn are_joined(bytes: &[u8], texts: &[&str]) -> bool {
    let mut left = bytes;
    for text in texts {
        match left.strip_prefix(text.as_bytes()) {
            Some(rest) => left = rest,
            None => return false,
        }
    }
    left.is_empty()
}

/// Whether the reply to an error is put together from these parts.
fn is_written(alloc: Global, row: Row, closes: bool, has_body: bool) -> Result<bool, AllocError> {
    let Row(err, status, word, length) = row;
    let close = if closes { "Connection: close\r\n" } else { "" };
    let (body, end) = if has_body { (word, "\n") } else { ("", "") };
    let parts = [
        "HTTP/1.1 ",
        status,
        "\r\nContent-Type: text/plain\r\nl5d-err: ",
        word,
        "\r\nContent-Length: ",
        length,
        "\r\n",
        close,
        "\r\n",
        body,
        end,
    ];
    let reply = own_reply(alloc, err, closes, has_body)?;
    Ok(are_joined(reply.as_slice(), &parts))
}

#[test]
fn every_reply_is_as_written_here(rt: HostRuntime) -> Result<(), Fail> {
    for row in &ROWS {
        for (closes, has_body) in &[(true, true), (false, true), (true, false), (false, false)] {
            let is_written = is_written(rt.alloc(), *row, *closes, *has_body)?;
            assert!(rt; is_written, "{}", row.2);
        }
    }
    Ok(())
}
