//! Bodies at their limits, and the last request of a connection.
use crate::connections::{Bytes, Connection, Mem};
use crate::rows::{ADMIN, BAD_DTAB, DONE, Row, play, put, request};
use crate::wanted::{Wanted, given_alone};
use api_sessions::Which::{self, Namerd};
use http_wire::Ended;
use std::alloc::Global;
use std::process::Abort;
use std::slice;
use std::sync::Wait;
use std::test::Fail;

const MADE: &str = "204 No Content\r\nETag: \"1\"\r\n\r\n";

const TOO_LONG: &str = "413 Content Too Large\r\nContent-Type: text/plain\r\nl5d-err: too-long\r\n\
        Content-Length: 9\r\nConnection: close\r\n\r\ntoo-long\n";

const NO_ADDRS: &str =
    "400 Bad Request\r\nContent-Type: text/plain\r\nContent-Length: 6\r\n\r\naddrs\n";

/// A body: a front, one part so many times, and an end. The reply to a POST of it as a new table,
/// in JSON or not; or to a PUT of it as addresses.
struct Body(
    Which,
    &'static str,
    &'static str,
    usize,
    &'static str,
    &'static str,
);

impl Row for Body {
    fn connection(&self, alloc: Global) -> Mem<Connection> {
        let Body(to, front, part, times, end, reply) = self;
        let body = repeated(alloc, front, part, *times, end)?;
        let bytes = request(alloc, asks_of(*to), fields_of(front), body.as_slice());
        drop(body);
        Ok(Connection::of(*to, bytes?, Wanted::reply(*reply)))
    }
}

/// The method and target of a body's request.
fn asks_of(to: Which) -> &'static str {
    match to {
        Namerd => "POST /api/1/dtabs/web",
        Which::Admin { .. } => "PUT /api/1/addrs/web",
        Which::Feed { .. } => "GET /feed/web",
    }
}

/// The further fields of the request of a body that begins so.
fn fields_of(front: &str) -> &'static str {
    if front.starts_with("[") {
        "Content-Type: application/json\r\n"
    } else {
        ""
    }
}

const ROWS: [Body; 12] = [
    Body(Namerd, "", "(", 1_048_576, "", BAD_DTAB),
    Body(Namerd, "", "(", 1_048_577, "", TOO_LONG),
    Body(ADMIN, "", "10.0.0.1 1\n", 95_326, "", TOO_LONG),
    Body(Namerd, "/a=>/b", " ", 65_530, "", MADE),
    Body(Namerd, "/a=>/b", " ", 65_531, "", BAD_DTAB),
    Body(
        Namerd,
        "[{\"dst\":\"~\",\"prefix\":\"/\"}",
        ",{\"dst\":\"~\",\"prefix\":\"/\"}",
        1023,
        "]",
        MADE,
    ),
    Body(
        Namerd,
        "[{\"dst\":\"~\",\"prefix\":\"/\"}",
        ",{\"dst\":\"~\",\"prefix\":\"/\"}",
        1024,
        "]",
        BAD_DTAB,
    ),
    Body(
        Namerd,
        "[{\"prefix\":\"/\",\"dst\":\"~",
        "\\u0020",
        65_534,
        "\"}]",
        MADE,
    ),
    Body(
        Namerd,
        "[{\"prefix\":\"/\",\"dst\":\"~",
        "\\u0020",
        65_535,
        "\"}]",
        BAD_DTAB,
    ),
    Body(
        Namerd,
        "[{\"prefix\":\"/\",\"dst\":\"",
        "(",
        65_535,
        "\"}]",
        BAD_DTAB,
    ),
    Body(ADMIN, "", "10.0.0.1 1\n", 1024, "", DONE),
    Body(ADMIN, "", "10.0.0.1 1\n", 1025, "", NO_ADDRS),
];

/// So many parts between two texts.
fn repeated(alloc: Global, front: &str, part: &str, times: usize, end: &str) -> Mem<Bytes> {
    let mut bytes = Vec::from_slice(alloc, front.as_bytes())?;
    for _ in 0..times {
        bytes.extend_from_slice(part.as_bytes())?;
    }
    bytes.extend_from_slice(end.as_bytes())?;
    Ok(bytes)
}

/// How many requests of a kind a new router takes, how many addresses each has, and the reply to
/// one more.
type Most = (Which, usize, usize, &'static str);

const FULL: [Most; 3] = [
    (
        Namerd,
        256,
        0,
        "HTTP/1.1 507 Insufficient Storage\r\nContent-Type: text/plain\r\nContent-Length: 15\r\n\
            \r\ntoo-many-names\n",
    ),
    (
        ADMIN,
        4096,
        0,
        "HTTP/1.1 507 Insufficient Storage\r\nContent-Type: text/plain\r\nContent-Length: 18\r\n\
            \r\ntoo-many-services\n",
    ),
    (
        ADMIN,
        8,
        1024,
        "HTTP/1.1 507 Insufficient Storage\r\nContent-Type: text/plain\r\nContent-Length: 10\r\n\
            \r\nbook-full\n",
    ),
];

/// So many addresses, by a number below 256.
fn addresses(alloc: Global, number: usize, count: usize) -> Mem<Bytes> {
    let mut lines = Vec::new(alloc);
    for at in 0..count {
        let (high, low) = (at / 256, at % 256);
        put(
            &mut lines,
            format!(in alloc; "10.{number}.{high}.{low} 1\n"),
        )?;
    }
    Ok(lines)
}

/// The method and target, without a number, of a request that is numbered.
fn target_of(to: Which) -> &'static str {
    match to {
        Namerd => "POST /api/1/dtabs/n",
        Which::Admin { .. } => "PUT /api/1/addrs/s",
        Which::Feed { .. } => "GET /feed/n",
    }
}

/// The request of this number: a new namespace, or a new service with so many addresses.
fn numbered(alloc: Global, to: Which, number: usize, count: usize) -> Mem<Bytes> {
    let asks = format!(in alloc; "{}{}", target_of(to), number)?;
    let body = addresses(alloc, number, count)?;
    let bytes = request(alloc, asks.as_str(), "", body.as_slice());
    drop(asks);
    drop(body);
    bytes
}

/// Puts the request of this number behind some bytes.
fn put_numbered(
    alloc: Global,
    to: Which,
    number: usize,
    count: usize,
    bytes: &mut Bytes,
) -> Mem<()> {
    let mut request = numbered(alloc, to, number, count)?;
    let put = bytes.append(&mut request);
    drop(request);
    put
}

/// The requests that are taken, and one more, which has one address where each of them has many.
fn one_too_many(alloc: Global, most: &Most) -> Mem<Bytes> {
    let (to, taken, count, _refusal) = most;
    let mut bytes = Vec::new(alloc);
    for number in 0..*taken {
        put_numbered(alloc, *to, number, *count, &mut bytes)?;
    }
    put_numbered(alloc, *to, *taken, (*count).min(1), &mut bytes)?;
    Ok(bytes)
}

/// Puts the reply to the request of this number behind some bytes: a new namespace has the next
/// version.
fn put_reply(alloc: Global, to: Which, number: usize, bytes: &mut Bytes) -> Mem<()> {
    match to {
        Namerd => {
            let version = number.saturating_add(1);
            put(
                bytes,
                format!(in alloc; "HTTP/1.1 204 No Content\r\nETag: \"{version}\"\r\n\r\n"),
            )
        }
        Which::Admin { .. } | Which::Feed { .. } => {
            bytes.extend_from_slice(b"HTTP/1.1 204 No Content\r\n\r\n")
        }
    }
}

/// The replies to them.
fn replies_to(alloc: Global, most: &Most) -> Mem<Bytes> {
    let (to, taken, _count, refusal) = most;
    let mut replies = Vec::new(alloc);
    for number in 0..*taken {
        put_reply(alloc, *to, number, &mut replies)?;
    }
    replies.extend_from_slice(refusal.as_bytes())?;
    Ok(replies)
}

/// What a new router gives to a connection with them, which ends behind them.
fn given_full<R: Wait + Abort>(rt: &R, alloc: Global, most: &Most) -> Result<Bytes, Fail> {
    let bytes = one_too_many(alloc, most)?;
    let wanted = Wanted::between("204 No Content", most.3).and_left(Some(Ended::PeerEnded), 0);
    given_alone(rt, alloc, Connection::of(most.0, bytes, wanted))
}

/// Whether that is what is to be replied to them.
fn is_full<R: Wait + Abort>(rt: &R, alloc: Global, most: &Most) -> Result<bool, Fail> {
    let given = given_full(rt, alloc, most)?;
    let replies = replies_to(alloc, most)?;
    let is_full = given.as_slice() == replies.as_slice();
    drop(given);
    drop(replies);
    Ok(is_full)
}

#[test]
fn a_full_router_takes_no_more(rt: HostRuntime) -> Result<(), Fail> {
    for most in &FULL {
        assert!(rt; is_full(&rt, rt.alloc(), most)?, "{}", most.3);
    }
    Ok(())
}

#[test]
fn bodies_end_at_their_limits(rt: HostRuntime) -> Result<(), Fail> {
    for row in &ROWS {
        play(&rt, rt.alloc(), slice::from_ref(row))?;
    }
    Ok(())
}

/// So many pings, of which the first comes alone, and the connection waits behind it.
fn pings(alloc: Global, count: usize) -> Mem<Connection> {
    let ping = "GET /admin/ping HTTP/1.1\r\nHost: n\r\n\r\n";
    let bytes = repeated(alloc, "", ping, count, "")?;
    let wanted = Wanted::between("200 OK", "pong\n").and_left(Some(Ended::Spent), 0);
    let mut connection = Connection::of(ADMIN, bytes, wanted);
    connection.sizes = &[37];
    connection.quiet = &[2];
    Ok(connection)
}

#[test]
fn a_connection_carries_ten_thousand_requests(rt: HostRuntime) -> Result<(), Fail> {
    let given = given_alone(&rt, rt.alloc(), pings(rt.alloc(), 10_001)?)?;
    let length = given.len();
    drop(given);
    // A reply has 69 bytes, and the last one says `Connection: close`, which is 19 more.
    assert_eq!(rt; length, 10_000 * 69 + 19);
    Ok(())
}
