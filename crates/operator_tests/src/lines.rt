//! The line of each way of an exchange, as it is written out here.

use access_log::{Answer, Break, Entry, RequestLine, write_line};
use addr_book::Addr;
use line_base::SocketAddress;
use name_tree::{Path, read_path};
use own_reply::OwnError;
use std::alloc::{AllocError, Global};
use std::test::Fail;

/// What an exchange was.
#[derive(Clone, Copy)]
struct Row {
    moment: u64,
    client: Option<SocketAddress>,
    /// No head was read where its method is empty.
    request: RequestLine<'static>,
    answer: Answer,
    bytes: u64,
    milliseconds: u64,
    name: &'static str,
    replica: Option<Addr>,
    broken: Option<Break>,
    line: &'static str,
}

const CLIENT: Option<SocketAddress> = Some(SocketAddress {
    ip: 0x0a00_0007,
    port: 51_234,
});

const REPLICA: Option<Addr> = Some(Addr {
    ip: 0x0a00_0103,
    port: 8_080,
});

const GET: RequestLine<'static> = RequestLine {
    method: b"GET",
    target: b"/a?b",
    version: 1,
};

const UNREAD: RequestLine<'static> = RequestLine {
    method: b"",
    target: b"",
    version: 0,
};

/// Exchanges that ended with a whole reply, and some that were cut off.
static ROWS: [Row; 9] = [
    // passed on whole
    Row {
        moment: 1_795_931_281_123,
        client: CLIENT,
        request: GET,
        answer: Answer::Passed { status: 200 },
        bytes: 5_120,
        milliseconds: 17,
        name: "/svc/web",
        replica: REPLICA,
        broken: None,
        line: "2026-11-29T05:48:01.123Z 10.0.0.7:51234 \"GET /a?b HTTP/1.1\" 200 5120 17 /svc/web \
            10.0.1.3:8080 -\n",
    },
    // no replica answered
    Row {
        moment: 946_684_799_999,
        client: None,
        request: RequestLine {
            method: b"HEAD",
            target: b"/",
            version: 0,
        },
        answer: Answer::Own(OwnError::Upstream),
        bytes: 0,
        milliseconds: 30_000,
        name: "/svc/web",
        replica: REPLICA,
        broken: None,
        line: "1999-12-31T23:59:59.999Z - \"HEAD / HTTP/1.0\" 502 0 30000 /svc/web 10.0.1.3:8080 \
            upstream\n",
    },
    // no replica was found
    Row {
        moment: 0,
        client: None,
        request: GET,
        answer: Answer::Own(OwnError::Negative),
        bytes: 9,
        milliseconds: 1,
        name: "/svc/web",
        replica: None,
        broken: None,
        line: "1970-01-01T00:00:00.000Z - \"GET /a?b HTTP/1.1\" 502 9 1 /svc/web - negative\n",
    },
    // bytes that are no head
    Row {
        moment: 4_107_587_400_007,
        client: CLIENT,
        request: UNREAD,
        answer: Answer::Own(OwnError::BadHead),
        bytes: 9,
        milliseconds: 0,
        name: "",
        replica: None,
        broken: None,
        line: "2100-03-01T12:30:00.007Z 10.0.0.7:51234 \"-\" 400 9 0 - - bad-head\n",
    },
    // the replica's reply was cut
    Row {
        moment: 951_782_400_000,
        client: CLIENT,
        request: GET,
        answer: Answer::Passed { status: 404 },
        bytes: 12,
        milliseconds: 0,
        name: "/svc/web",
        replica: REPLICA,
        broken: Some(Break::UpstreamCut),
        line: "2000-02-29T00:00:00.000Z 10.0.0.7:51234 \"GET /a?b HTTP/1.1\" 404 12 0 /svc/web \
            10.0.1.3:8080 upstream-cut\n",
    },
    // the client ended in the middle of its head
    Row {
        moment: 0,
        client: CLIENT,
        request: UNREAD,
        answer: Answer::Nothing,
        bytes: 0,
        milliseconds: 0,
        name: "",
        replica: None,
        broken: Some(Break::Cut),
        line: "1970-01-01T00:00:00.000Z 10.0.0.7:51234 \"-\" - 0 0 - - cut\n",
    },
    // the client's body could not be read
    Row {
        moment: 0,
        client: CLIENT,
        request: GET,
        answer: Answer::Nothing,
        bytes: 0,
        milliseconds: 4,
        name: "/svc/web",
        replica: REPLICA,
        broken: Some(Break::ReadFault),
        line: "1970-01-01T00:00:00.000Z 10.0.0.7:51234 \"GET /a?b HTTP/1.1\" - 0 4 /svc/web \
            10.0.1.3:8080 read-fault\n",
    },
    // a target with a quotation mark, a backslash, a line feed, an escape and bytes past ASCII, and
    // an own reply that could not be written
    Row {
        moment: 0,
        client: None,
        request: RequestLine {
            method: b"G\"T",
            target: b"/\"\\x\n\x1b\x7f\xc3\xa9 ~",
            version: 1,
        },
        answer: Answer::Own(OwnError::Target),
        bytes: 7,
        milliseconds: 0,
        name: "",
        replica: None,
        broken: Some(Break::WriteFault),
        line: "1970-01-01T00:00:00.000Z - \"G\\x22T /\\x22\\x5cx\\x0a\\x1b\\x7f\\xc3\\xa9 ~ \
            HTTP/1.1\" 400 7 0 - - write-fault\n",
    },
    // past the year 9999, out of memory, and a name with a byte that is no plain one
    Row {
        moment: 18_446_744_073_709_551_615,
        client: None,
        request: GET,
        answer: Answer::Nothing,
        bytes: 18_446_744_073_709_551_615,
        milliseconds: 18_446_744_073_709_551_615,
        name: "/svc/a\\x2fb",
        replica: None,
        broken: Some(Break::OutOfMemory),
        line: "9999-12-31T23:59:59.999Z - \"GET /a?b HTTP/1.1\" - 18446744073709551615 \
            18446744073709551615 /svc/a\\x2fb - out-of-memory\n",
    },
];

/// The path of this text; none where it is empty.
fn path_of(alloc: Global, text: &str) -> Result<Option<Path>, Fail> {
    if text.is_empty() {
        return Ok(None);
    }
    match read_path(alloc, text.as_bytes()) {
        Ok(path) => Ok(Some(path)),
        Err(_) => Err("no path".into()),
    }
}

/// The request line of a row, if a head was read.
fn request_of(row: &Row) -> Option<RequestLine<'static>> {
    if row.request.method.is_empty() {
        None
    } else {
        Some(row.request)
    }
}

/// The entry of a row, of an exchange that has this name.
fn entry_of<'a>(row: &Row, name: Option<&'a Path>) -> Entry<'a> {
    Entry {
        moment: row.moment,
        client: row.client,
        request: request_of(row),
        answer: row.answer,
        bytes: row.bytes,
        milliseconds: row.milliseconds,
        name,
        replica: row.replica,
        broken: row.broken,
    }
}

/// The line of an entry, in a buffer that held something else.
fn line_of(alloc: Global, entry: &Entry<'_>) -> Result<Vec<u8>, AllocError> {
    let mut line = Vec::from_slice(alloc, b"earlier")?;
    write_line(entry, &mut line)?;
    Ok(line)
}

/// Whether the line of a row is as written here.
fn is_written(alloc: Global, row: &Row) -> Result<bool, Fail> {
    let name = path_of(alloc, row.name)?;
    let line = line_of(alloc, &entry_of(row, name.as_ref()));
    drop(name);
    let line = line?;
    Ok(line.as_slice() == row.line.as_bytes())
}

#[test]
fn an_exchange_has_its_line(rt: HostRuntime) -> Result<(), Fail> {
    for row in &ROWS {
        assert!(rt; is_written(rt.alloc(), row)?, "{}", row.line);
    }
    Ok(())
}
