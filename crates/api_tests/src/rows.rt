//! Rows of tables, each with what comes on a connection of its own and what is to come of it.
use crate::connections::{Bytes, Connection, Mem};
use crate::wanted::{Wanted, check};
use api_sessions::Which;
use std::alloc::Global;
use std::process::Abort;
use std::sync::Wait;
use std::test::Fail;

/// The admin interface of a program that listens.
pub(crate) const ADMIN: Which = Which::Admin { ready: true };

/// The reply where there is no such path.
pub(crate) const BAD_PATH: &str =
    "404 Not Found\r\nContent-Type: text/plain\r\nContent-Length: 5\r\n\r\npath\n";

/// The reply where a name is none.
pub(crate) const BAD_NAME: &str =
    "400 Bad Request\r\nContent-Type: text/plain\r\nContent-Length: 5\r\n\r\nname\n";

/// The reply where a body is no table.
pub(crate) const BAD_DTAB: &str =
    "400 Bad Request\r\nContent-Type: text/plain\r\nContent-Length: 5\r\n\r\ndtab\n";

/// The reply where there is no such namespace or service.
pub(crate) const MISSING: &str =
    "404 Not Found\r\nContent-Type: text/plain\r\nContent-Length: 8\r\n\r\nmissing\n";

/// The reply where a service was altered, or a namespace was deleted.
pub(crate) const DONE: &str = "204 No Content\r\n\r\n";

/// The reply to another method, where only GET and HEAD are taken.
pub(crate) const READ_ONLY: &str =
    "405 Method Not Allowed\r\nAllow: GET, HEAD\r\nContent-Type: text/plain\r\n\
        Content-Length: 7\r\n\r\nmethod\n";

/// A row of a table.
pub(crate) trait Row {
    /// Its connection.
    fn connection(&self, alloc: Global) -> Mem<Connection>;
}

/// The connections of some rows.
fn connections<T: Row>(alloc: Global, rows: &[T]) -> Mem<Vec<Connection>> {
    let mut all = Vec::new(alloc);
    for row in rows {
        all.push(row.connection(alloc)?)?;
    }
    Ok(all)
}

/// Serves the connections of some rows on a new router, one after the other: what is wanted has to
/// come of each.
pub(crate) fn play<T: Row, R: Wait + Abort>(rt: &R, alloc: Global, rows: &[T]) -> Result<(), Fail> {
    let connections = connections(alloc, rows)?;
    let served = check(rt, alloc, connections.as_slice());
    drop(connections);
    drop(served?);
    Ok(())
}

/// A request and its reply: which interface it goes to, its method and target, its further fields,
/// and its body; and the reply behind `HTTP/1.1 `.
pub(crate) struct Exchange(
    pub(crate) Which,
    pub(crate) &'static str,
    pub(crate) &'static str,
    pub(crate) &'static str,
    pub(crate) &'static str,
);

impl Row for Exchange {
    fn connection(&self, alloc: Global) -> Mem<Connection> {
        let Exchange(to, asks, fields, body, reply) = self;
        let bytes = request(alloc, asks, fields, body.as_bytes())?;
        Ok(Connection::of(*to, bytes, Wanted::reply(*reply)))
    }
}

/// The bytes of a request of HTTP/1.1.
pub(crate) fn request(alloc: Global, asks: &str, fields: &str, body: &[u8]) -> Mem<Bytes> {
    let length = body.len();
    let head = format!(in alloc;
        "{asks} HTTP/1.1\r\nHost: n\r\n{fields}Content-Length: {length}\r\n\r\n"
    )?;
    let mut bytes = head.into_bytes();
    bytes.extend_from_slice(body)?;
    Ok(bytes)
}

/// Puts some words behind some bytes.
pub(crate) fn put(bytes: &mut Bytes, words: Mem<String>) -> Mem<()> {
    let words = words?;
    let put = bytes.extend_from_slice(words.as_bytes());
    drop(words);
    put
}
