//! Connections whose listeners are closing.
use crate::connections::{Connection, Mem};
use crate::rows::{ADMIN, Row, play};
use crate::wanted::Wanted;
use http_wire::Ended::{self, Drained, PeerEnded};
use std::alloc::Global;
use std::test::Fail;

/// Two requests, which come at once.
const TWO: &str =
    "GET /admin/ready HTTP/1.1\r\nHost: n\r\n\r\nGET /admin/ready HTTP/1.1\r\nHost: n\r\n\r\n";

/// The reply behind which the connection closes, to the first request or to the second.
const LAST: &str = "503 Service Unavailable\r\nContent-Type: text/plain\r\nContent-Length: 10\r\n\
    Connection: close\r\n\r\nnot-ready\n";

const READY_AND_LAST: &str = "\
    200 OK\r\nContent-Type: text/plain\r\nContent-Length: 6\r\n\r\nready\n\
    HTTP/1.1 503 Service Unavailable\r\nContent-Type: text/plain\r\nContent-Length: 10\r\n\
    Connection: close\r\n\r\nnot-ready\n";

const READY_TWICE: &str = "\
    200 OK\r\nContent-Type: text/plain\r\nContent-Length: 6\r\n\r\nready\n\
    HTTP/1.1 200 OK\r\nContent-Type: text/plain\r\nContent-Length: 6\r\n\r\nready\n";

/// From which question on a connection on which both come says that its listeners are closing, the
/// replies, and the end. The questions are: a wait for the first request, whether it is the last,
/// whether the second is, and a wait for a third.
struct Drain(u64, &'static str, Ended);

impl Row for Drain {
    fn connection(&self, alloc: Global) -> Mem<Connection> {
        let Drain(question, replies, ended) = self;
        let bytes = Vec::from_slice(alloc, TWO.as_bytes())?;
        let wanted = Wanted::reply(*replies).and_left(Some(*ended), 0);
        let mut connection = Connection::of(ADMIN, bytes, wanted);
        connection.closing = Some(*question);
        Ok(connection)
    }
}

const ROWS: [Drain; 5] = [
    Drain(0, "no reply", Drained),
    Drain(1, LAST, Drained),
    Drain(2, READY_AND_LAST, Drained),
    Drain(3, READY_TWICE, Drained),
    Drain(4, READY_TWICE, PeerEnded),
];

#[test]
fn a_connection_is_drained(rt: HostRuntime) -> Result<(), Fail> {
    play(&rt, rt.alloc(), &ROWS)
}
