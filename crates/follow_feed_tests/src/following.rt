//! The lines that following a leader writes.
use crate::dialing::{LEADER, dialer, failing};
use addr_book::Name;
use follow_feed::{FollowEnd, follow_all};
use line_doubles::{MemDialer, MemSink};
use std::alloc::{AllocError, Global};
use std::test::Fail;

/// A namespace with one rule.
const FULL: &str = "HTTP/1.1 200 OK\r\nContent-Type: application/json\r\nContent-Length: 59\r\n\r\n\
    {\"dtab\":\"/svc=>/#/io.l5d.fs\",\"place\":1,\"run\":7,\"version\":1}";

/// The same namespace with no rule, later in the same run.
const EMPTY: &str = "HTTP/1.1 200 OK\r\nContent-Length: 41\r\n\r\n\
    {\"dtab\":\"\",\"place\":2,\"run\":7,\"version\":2}";

/// No such namespace, in a later run.
const GONE: &str = "HTTP/1.1 200 OK\r\nContent-Length: 19\r\n\r\n{\"place\":0,\"run\":8}";

/// What a leader replies, and what following it writes.
struct Row {
    /// The replies to the first three dials that it answers.
    first: &'static str,
    second: &'static str,
    third: &'static str,
    /// How many polls are made.
    polls: u32,
    /// Which call of the dialer fails, and which of the sink.
    failing_call: Option<u64>,
    failing_write: Option<u64>,
    /// The lines, and how it ends.
    told: &'static str,
}

const ROWS: [Row; 6] = [
    Row {
        first: FULL,
        second: "",
        third: "",
        polls: 0,
        failing_call: None,
        failing_write: None,
        told: "polls 0 newer 0 lost 0\ndone",
    },
    // The first dial fails.
    Row {
        first: FULL,
        second: "",
        third: "",
        polls: 2,
        failing_call: Some(0),
        failing_write: None,
        told: "run 7 place 1 version 1 dtab /svc=>/#/io.l5d.fs\npolls 2 newer 1 lost 1\ndone",
    },
    // A reply that comes again, and one that comes late, change nothing.
    Row {
        first: FULL,
        second: FULL,
        third: EMPTY,
        polls: 3,
        failing_call: None,
        failing_write: None,
        told: "run 7 place 1 version 1 dtab /svc=>/#/io.l5d.fs\n\
            run 7 place 2 version 2 dtab\npolls 3 newer 2 lost 0\ndone",
    },
    Row {
        first: EMPTY,
        second: FULL,
        third: "HTTP/1.1 503 No\r\n\r\n",
        polls: 3,
        failing_call: None,
        failing_write: None,
        told: "run 7 place 2 version 2 dtab\npolls 3 newer 1 lost 1\ndone",
    },
    // The leader starts again between two polls.
    Row {
        first: EMPTY,
        second: GONE,
        third: FULL,
        polls: 3,
        failing_call: None,
        failing_write: None,
        told: "run 7 place 2 version 2 dtab\nrun 8 place 0 gone\npolls 3 newer 2 lost 0\ndone",
    },
    // The second line can't be written.
    Row {
        first: EMPTY,
        second: GONE,
        third: FULL,
        polls: 3,
        failing_call: None,
        failing_write: Some(1),
        told: "run 7 place 2 version 2 dtab\nfault",
    },
];

/// The dialer of a row.
fn dialer_of(alloc: Global, row: &Row) -> Result<MemDialer, AllocError> {
    let replies = [
        row.first.as_bytes(),
        row.second.as_bytes(),
        row.third.as_bytes(),
    ];
    dialer(alloc, &replies, Vec::new(alloc), row.failing_call)
}

/// The sink of a row.
fn sink_of(alloc: Global, row: &Row) -> Result<MemSink, AllocError> {
    Ok(MemSink::of(alloc, Vec::new(alloc), failing(alloc, row.failing_write)?))
}

/// What following the leader of a row writes, and how it ends.
fn followed(alloc: Global, row: &Row) -> Result<String, Fail> {
    let mut dialer = dialer_of(alloc, row)?;
    let mut sink = sink_of(alloc, row)?;
    let told = told(alloc, &mut dialer, row.polls, &mut sink);
    drop(dialer);
    drop(sink);
    told
}

/// What so many polls write, and how they end.
fn told(
    alloc: Global,
    dialer: &mut MemDialer,
    polls: u32,
    sink: &mut MemSink,
) -> Result<String, Fail> {
    let space = Name::of(alloc, b"default")?;
    let end = follow_all(alloc, dialer, LEADER, &space, polls, sink);
    drop(space);
    match std::str::from_utf8(sink.held()) {
        Ok(lines) => Ok(with_end(alloc, lines, end)?),
        Err(_) => Err(Fail::from("no text")),
    }
}

/// These lines, and how it ended.
fn with_end(alloc: Global, lines: &str, end: FollowEnd) -> Result<String, AllocError> {
    let name = name_of(end);
    format!(in alloc; "{lines}{name}")
}

/// The name of an end.
fn name_of(end: FollowEnd) -> &'static str {
    match end {
        FollowEnd::Done => "done",
        FollowEnd::WriteFault => "fault",
        FollowEnd::OutOfMemory => "memory",
    }
}

#[test]
fn each_later_feed_has_its_line(rt: HostRuntime) -> Result<(), Fail> {
    for row in &ROWS {
        let told = followed(rt.alloc(), row)?;
        assert_eq!(rt; told.as_str(), row.told);
        drop(told);
    }
    Ok(())
}
