//! Connections that wait, and move from one worker to another.
use crate::connections::{Connection, Mem};
use crate::rows::{ADMIN, Row, play};
use crate::wanted::Wanted;
use api_sessions::Which::{self, Namerd};
use http_wire::Ended::{self, Drained, PeerEnded};
use std::alloc::Global;
use std::test::Fail;

/// What comes on a connection, and how much of it in the first read; at which questions nothing
/// comes, and from which one on the listeners are closing; what is given behind `HTTP/1.1 `, and
/// how it ends. The questions are a wait for each request, and behind it whether it is the last.
struct Stay(
    Which,
    &'static str,
    &'static [usize],
    &'static [u64],
    Option<u64>,
    &'static str,
    Option<Ended>,
);

impl Row for Stay {
    fn connection(&self, alloc: Global) -> Mem<Connection> {
        let Stay(to, comes, sizes, quiet, closing, gives, ended) = self;
        let bytes = Vec::from_slice(alloc, comes.as_bytes())?;
        let wanted = Wanted::reply(*gives).and_left(*ended, 0);
        let mut connection = Connection::of(*to, bytes, wanted);
        connection.sizes = *sizes;
        connection.quiet = *quiet;
        connection.closing = *closing;
        Ok(connection)
    }
}

/// A table, which is asked for behind it, and an answer to both.
const PUT_AND_GET: &str = "POST /api/1/dtabs/a HTTP/1.1\r\nHost: n\r\nContent-Length: 6\r\n\r\n\
    /a=>/bGET /api/1/dtabs/a HTTP/1.1\r\nHost: n\r\nAccept: application/dtab\r\n\r\n";

const MADE_AND_TOLD: &str = "204 No Content\r\nETag: \"1\"\r\n\r\n\
    HTTP/1.1 200 OK\r\nETag: \"1\"\r\nContent-Type: application/dtab\r\nContent-Length: 6\r\n\r\n\
    /a=>/b";

const PING: &str = "GET /admin/ping HTTP/1.1\r\nHost: n\r\n\r\n";

const PONG: &str = "200 OK\r\nContent-Type: text/plain\r\nContent-Length: 5\r\n\r\npong\n";

const ROWS: [Stay; 6] = [
    // The second worker tells the table that the first one made.
    Stay(
        Namerd,
        PUT_AND_GET,
        &[66],
        &[2],
        None,
        MADE_AND_TOLD,
        Some(PeerEnded),
    ),
    // It waits before its first request, and has it then.
    Stay(ADMIN, PING, &[], &[0], None, PONG, Some(PeerEnded)),
    // It still waits.
    Stay(ADMIN, "", &[], &[0, 1, 2], None, "no reply", None),
    Stay(ADMIN, PING, &[], &[2, 3, 4], None, PONG, None),
    // The listeners are closing while it waits, or when it came.
    Stay(ADMIN, PING, &[], &[2], Some(3), PONG, Some(Drained)),
    Stay(ADMIN, PING, &[], &[0], Some(0), "no reply", Some(Drained)),
];

#[test]
fn a_connection_that_waits_goes_on_with_another_worker(rt: HostRuntime) -> Result<(), Fail> {
    play(&rt, rt.alloc(), &ROWS)
}
