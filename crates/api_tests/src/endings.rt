//! Connections with several requests: each has its reply, in order, and how the connection ends.
use crate::connections::{Connection, Mem};
use crate::rows::{ADMIN, Row, play};
use crate::wanted::Wanted;
use api_sessions::Which::{self, Namerd};
use http_wire::Ended;
use std::alloc::Global;
use std::test::Fail;

/// What comes on a connection, which of its reads and its writes fails, what is given behind
/// `HTTP/1.1 `, how it ends, and how often the program is stopped.
struct Ending(
    Which,
    &'static str,
    Option<u64>,
    Option<u64>,
    &'static str,
    Ended,
    u64,
);

impl Row for Ending {
    fn connection(&self, alloc: Global) -> Mem<Connection> {
        let Ending(to, comes, read_fails, write_fails, gives, ended, stops) = self;
        let bytes = Vec::from_slice(alloc, comes.as_bytes())?;
        let wanted = Wanted::reply(*gives).and_left(Some(*ended), *stops);
        let mut connection = Connection::of(*to, bytes, wanted);
        connection.read_fails = *read_fails;
        connection.write_fails = *write_fails;
        Ok(connection)
    }
}

const PONG: &str = "200 OK\r\nContent-Type: text/plain\r\nContent-Length: 5\r\n\r\npong\n";

/// The same where the connection closes behind it.
const LAST_PONG: &str =
    "200 OK\r\nContent-Type: text/plain\r\nContent-Length: 5\r\nConnection: close\r\n\r\npong\n";

/// The refusal of a body that is too long.
const TOO_LONG: &str = "413 Content Too Large\r\nContent-Type: text/plain\r\nl5d-err: too-long\r\n\
        Content-Length: 9\r\nConnection: close\r\n\r\ntoo-long\n";

const ROWS: [Ending; 23] = [
    Ending(
        ADMIN,
        "\r\nGET /admin/ping HTTP/1.1\r\nHost: n\r\n\r\n\r\n",
        None,
        None,
        PONG,
        Ended::PeerEnded,
        0,
    ),
    Ending(ADMIN, "", None, None, "no reply", Ended::PeerEnded, 0),
    // One behind the other, each with its body, and a last one that is cut.
    Ending(
        Namerd,
        "POST /api/1/dtabs/a HTTP/1.1\r\nHost: n\r\nTransfer-Encoding: chunked\r\n\r\n2\r\n/a\r\n\
            4\r\n=>/b\r\n0\r\n\r\nGET /api/1/dtabs HTTP/1.1\r\nHost: n\r\nContent-Length: 3\r\n\
            \r\nxyzPUT /api/1/dtabs/a HTTP/1.1\r\nHost: n\r\nContent-Length: 4\r\n\r\n/a=",
        None,
        None,
        "204 No Content\r\nETag: \"1\"\r\n\r\nHTTP/1.1 200 OK\r\n\
            Content-Type: application/json\r\nContent-Length: 5\r\n\r\n[\"a\"]",
        Ended::Cut,
        0,
    ),
    Ending(
        ADMIN,
        "GET /admin/ping HTTP/1.1\r\nHo",
        None,
        None,
        "no reply",
        Ended::Cut,
        0,
    ),
    // Nothing is answered behind a reply that closes.
    Ending(
        ADMIN,
        "GET /admin/ping HTTP/1.1\r\nHost: n\r\nConnection: close\r\n\r\n\
            GET /admin/ping HTTP/1.1\r\nHost: n\r\n\r\n",
        None,
        None,
        LAST_PONG,
        Ended::Closed,
        0,
    ),
    Ending(
        ADMIN,
        "GET /admin/ping HTTP/1.0\r\n\r\n",
        None,
        None,
        LAST_PONG,
        Ended::Closed,
        0,
    ),
    // A shutdown is answered, and then done; on the other port it is no path.
    Ending(
        ADMIN,
        "POST /admin/shutdown HTTP/1.1\r\nHost: n\r\n\r\nGET /admin/ping HTTP/1.1\r\nHost: n\r\n\
            \r\n",
        None,
        None,
        "200 OK\r\nContent-Type: text/plain\r\nContent-Length: 4\r\nConnection: close\r\n\r\nbye\n",
        Ended::Closed,
        1,
    ),
    Ending(
        Namerd,
        "POST /admin/shutdown HTTP/1.1\r\nHost: n\r\n\r\n",
        None,
        None,
        "404 Not Found\r\nContent-Type: text/plain\r\nContent-Length: 5\r\n\r\npath\n",
        Ended::PeerEnded,
        0,
    ),
    Ending(
        ADMIN,
        "POST /admin/shutdown HTTP/1.1\r\nHost: n\r\n\r\n",
        None,
        Some(0),
        "no reply",
        Ended::WriteFault,
        0,
    ),
    // Heads and bodies that are refused.
    Ending(
        ADMIN,
        "GET /admin/ping HTTP/2.0\r\n\r\n",
        None,
        None,
        "505 HTTP Version Not Supported\r\nContent-Type: text/plain\r\nl5d-err: version\r\n\
            Content-Length: 8\r\nConnection: close\r\n\r\nversion\n",
        Ended::Closed,
        0,
    ),
    Ending(
        ADMIN,
        "HEAD /admin/ping HTTP/1.1\r\n\r\n",
        None,
        None,
        "400 Bad Request\r\nContent-Type: text/plain\r\nl5d-err: host\r\nContent-Length: 5\r\n\
            Connection: close\r\n\r\n",
        Ended::Closed,
        0,
    ),
    Ending(
        ADMIN,
        "CONNECT n:1 HTTP/1.1\r\nHost: n\r\n\r\n",
        None,
        None,
        "501 Not Implemented\r\nContent-Type: text/plain\r\nl5d-err: connect\r\n\
            Content-Length: 8\r\nConnection: close\r\n\r\nconnect\n",
        Ended::Closed,
        0,
    ),
    Ending(
        Namerd,
        "PUT /api/1/dtabs/a HTTP/1.1\r\nHost: n\r\nContent-Length: 1048577\r\n\r\n/a=>/c",
        None,
        None,
        TOO_LONG,
        Ended::Closed,
        0,
    ),
    Ending(
        Namerd,
        "PUT /api/1/dtabs/a HTTP/1.1\r\nHost: n\r\nTransfer-Encoding: chunked\r\n\r\n6\r\n\
            /a=>/c 0\r\n\r\n",
        None,
        None,
        "400 Bad Request\r\nContent-Type: text/plain\r\nl5d-err: body\r\nContent-Length: 5\r\n\
            Connection: close\r\n\r\nbody\n",
        Ended::Closed,
        0,
    ),
    // A body that says that it is too long is refused before the next read.
    Ending(
        Namerd,
        "POST /api/1/dtabs/a HTTP/1.1\r\nHost: n\r\nContent-Length: 1048577\r\n\r\n",
        Some(1),
        None,
        TOO_LONG,
        Ended::Closed,
        0,
    ),
    Ending(
        ADMIN,
        "PUT /api/1/addrs/web HTTP/1.1\r\nHost: n\r\nContent-Length: 1048577\r\n\r\n",
        Some(1),
        None,
        TOO_LONG,
        Ended::Closed,
        0,
    ),
    Ending(
        Namerd,
        "POST /api/1/dtabs/a HTTP/1.1\r\nHost: n\r\nTransfer-Encoding: chunked\r\n\r\n100001\r\n",
        Some(1),
        None,
        TOO_LONG,
        Ended::Closed,
        0,
    ),
    // Its length is tested before the host.
    Ending(
        Namerd,
        "PUT /api/1/dtabs/a HTTP/1.1\r\nContent-Length: 1048577\r\n\r\n",
        Some(1),
        None,
        TOO_LONG,
        Ended::Closed,
        0,
    ),
    Ending(
        ADMIN,
        "PUT /api/1/addrs/web HTTP/1.1\r\nContent-Length: 1048577\r\n\r\n",
        Some(1),
        None,
        TOO_LONG,
        Ended::Closed,
        0,
    ),
    Ending(
        Namerd,
        "PUT /api/1/dtabs/a HTTP/1.1\r\nContent-Length: 1048576\r\n\r\n",
        Some(1),
        None,
        "400 Bad Request\r\nContent-Type: text/plain\r\nl5d-err: host\r\nContent-Length: 5\r\n\
            Connection: close\r\n\r\nhost\n",
        Ended::Closed,
        0,
    ),
    // None of them altered anything.
    Ending(
        Namerd,
        "GET /api/1/dtabs/a HTTP/1.1\r\nHost: n\r\nAccept: application/dtab\r\n\r\n",
        None,
        None,
        "200 OK\r\nETag: \"1\"\r\nContent-Type: application/dtab\r\nContent-Length: 6\r\n\r\n\
            /a=>/b",
        Ended::PeerEnded,
        0,
    ),
    // A call that fails ends the connection.
    Ending(
        ADMIN,
        "GET /admin/ping HTTP/1.1\r\nHost: n\r\n\r\n",
        Some(0),
        None,
        "no reply",
        Ended::ReadFault,
        0,
    ),
    Ending(
        ADMIN,
        "GET /admin/ping HTTP/1.1\r\nHost: n\r\n\r\nGET /admin/ping HTTP/1.1\r\nHost: n\r\n\r\n",
        None,
        Some(1),
        PONG,
        Ended::WriteFault,
        0,
    ),
];

#[test]
fn each_request_has_its_reply_and_each_connection_its_end(rt: HostRuntime) -> Result<(), Fail> {
    play(&rt, rt.alloc(), &ROWS)
}
