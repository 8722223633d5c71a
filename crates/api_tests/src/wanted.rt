//! What is to come of connections, and what came of them.
use crate::connections::{Bytes, Connection, Mem, Served, run};
use http_wire::Ended;
use std::alloc::Global;
use std::process::Abort;
use std::slice;
use std::sync::Wait;
use std::test::Fail;

/// What a connection is to be given behind `HTTP/1.1 `.
#[derive(Clone, Copy)]
enum Given {
    /// Just this.
    Whole(&'static str),
    /// What begins so, and ends so.
    Between(&'static str, &'static str),
}

/// How a connection is left: how it ended, unless it still waits, and how often the program was
/// stopped.
#[derive(Clone, Copy)]
struct Left {
    ended: Option<Ended>,
    stops: u64,
}

/// What is to come of a connection.
#[derive(Clone, Copy)]
pub(crate) struct Wanted {
    given: Given,
    left: Option<Left>,
}

impl Wanted {
    /// It is given just this behind `HTTP/1.1 `, and left in any way.
    pub(crate) fn reply(text: &'static str) -> Wanted {
        Wanted {
            given: Given::Whole(text),
            left: None,
        }
    }

    /// What it is given behind `HTTP/1.1 ` begins so and ends so, and it is left in any way.
    pub(crate) fn between(begin: &'static str, end: &'static str) -> Wanted {
        Wanted {
            given: Given::Between(begin, end),
            left: None,
        }
    }

    /// The same, where it ends so, unless it waits, and the program is stopped so often.
    pub(crate) fn and_left(self, ended: Option<Ended>, stops: u64) -> Wanted {
        Wanted {
            given: self.given,
            left: Some(Left { ended, stops }),
        }
    }

    /// Whether this is what came.
    fn is_met(&self, served: &Served) -> bool {
        self.has_given(behind_version(served.given.as_slice())) && self.has_left(served)
    }

    /// Whether a connection was to be given these bytes.
    fn has_given(&self, told: &[u8]) -> bool {
        match self.given {
            Given::Whole(text) => told == text.as_bytes(),
            Given::Between(begin, end) => {
                told.starts_with(begin.as_bytes()) && told.ends_with(end.as_bytes())
            }
        }
    }

    /// Whether a connection was to be left so.
    fn has_left(&self, served: &Served) -> bool {
        match self.left {
            Some(left) => left.ended == served.ended && left.stops == served.stops,
            None => true,
        }
    }
}

/// What some bytes say behind `HTTP/1.1 `.
fn behind_version(given: &[u8]) -> &[u8] {
    given.strip_prefix(b"HTTP/1.1 ").unwrap_or(b"no reply")
}

/// What some bytes say behind `HTTP/1.1 `, as a text.
pub(crate) fn said(alloc: Global, given: &[u8]) -> Mem<String> {
    match String::from_utf8(Vec::from_slice(alloc, behind_version(given))?) {
        Ok(text) => Ok(text),
        Err(_bytes) => String::from_str(alloc, "no text"),
    }
}

/// The first connection of which something else came than was wanted, if there is one.
fn first_other<'a>(connections: &[Connection], served: &'a [Served]) -> Option<&'a Served> {
    for (connection, one) in connections.iter().zip(served) {
        if !connection.wanted.is_met(one) {
            return Some(one);
        }
    }
    None
}

/// What the first connection said of which something else came than was wanted, if there is one.
fn other_reply(
    alloc: Global,
    connections: &[Connection],
    served: &[Served],
) -> Mem<Option<String>> {
    match first_other(connections, served) {
        Some(one) => Ok(Some(said(alloc, one.given.as_slice())?)),
        None => Ok(None),
    }
}

/// Serves connections on a new router: what is wanted has to come of each.
pub(crate) fn check<R: Wait + Abort>(
    rt: &R,
    alloc: Global,
    connections: &[Connection],
) -> Result<Vec<Served>, Fail> {
    let served = run(rt, alloc, connections)?;
    assert!(rt; served.len() == connections.len());
    let other = other_reply(alloc, connections, served.as_slice())?;
    assert!(rt; other.is_none(), "{other:?}");
    Ok(served)
}

/// Serves one connection on a new router: what is wanted has to come of it. What it was given.
pub(crate) fn given_alone<R: Wait + Abort>(
    rt: &R,
    alloc: Global,
    connection: Connection,
) -> Result<Bytes, Fail> {
    let served = check(rt, alloc, slice::from_ref(&connection));
    drop(connection);
    let mut served = served?;
    let only = served.pop();
    drop(served);
    match only {
        Some(served) => Ok(served.given),
        None => Err("no connection was served".into()),
    }
}
