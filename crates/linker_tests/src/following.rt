//! Leaders that are followed.
use crate::outside::{dials_of, net_of};
use crate::running::{assert_answered, assert_told, no_input, run_over};
use line_doubles::{MemFolder, MemSink};
use std::alloc::{AllocError, AllocGlobal};
use std::process::Abort;
use std::sync::Wait;
use std::test::Fail;
use std::thread::Threads;

/// A reply that tells a table.
const REPLY: &str =
    "HTTP/1.1 200 OK\r\nContent-Length: 59\r\n\r\n{\"dtab\":\"/svc=>/#/io.l5d.fs\",\"place\":1,\
        \"run\":7,\"version\":1}";

/// A reply that tells that the namespace is gone.
const GONE: &str = "HTTP/1.1 200 OK\r\nContent-Length: 19\r\n\r\n{\"place\":2,\"run\":7}";

/// What `follow` writes for two polls, and its status, where a leader gives these replies, and
/// these calls of the dialer and of the sink fail.
fn followed<R: AllocGlobal + Threads + Wait + Sync>(
    rt: &R,
    replies: &[&str],
    failing: &[u64],
    writes: &[u64],
) -> Result<(String, u8), AllocError> {
    let alloc = rt.alloc();
    let net = net_of(alloc, &[], dials_of(alloc, replies, failing)?)?;
    let out = MemSink::of(alloc, Vec::new(alloc), Vec::from_slice(alloc, writes)?);
    let folder = MemFolder::of(alloc, Vec::new(alloc), Vec::new(alloc));
    let words = &["follow", "127.0.0.1:4181", "default", "2"];
    run_over(rt, words, folder, net, no_input(alloc), out)
}

/// What is written where the second poll tells the table, where both do, where the second tells
/// that it is gone, and where that comes first.
const LOST_FIRST: &str =
    "run 7 place 1 version 1 dtab /svc=>/#/io.l5d.fs\npolls 2 newer 1 lost 1\n";

const TWICE: &str = "run 7 place 1 version 1 dtab /svc=>/#/io.l5d.fs\npolls 2 newer 1 lost 0\n";

const GONE_LAST: &str =
    "run 7 place 1 version 1 dtab /svc=>/#/io.l5d.fs\nrun 7 place 2 gone\npolls 2 newer 2 lost 0\n";

const GONE_FIRST: &str = "run 7 place 2 gone\npolls 2 newer 1 lost 0\n";

/// Asserts what `follow` writes for two polls, and its status.
fn assert_followed<R: AllocGlobal + Threads + Wait + Sync + Abort>(
    rt: &R,
    replies: &[&str],
    failing: &[u64],
    writes: &[u64],
    written: &str,
    status: u8,
) -> Result<(), Fail> {
    let told = followed(rt, replies, failing, writes)?;
    assert_told(rt, told, (written, status), &(replies, failing, writes));
    Ok(())
}

/// A table that comes at the second poll, one that comes twice, one that is gone, one that comes
/// late, a reply that is none, and a write that fails.
#[test]
fn leaders_that_are_followed(rt: HostRuntime) -> Result<(), Fail> {
    assert_followed(&rt, &[REPLY], &[0], &[], LOST_FIRST, 0)?;
    assert_followed(&rt, &[REPLY, REPLY], &[], &[], TWICE, 0)?;
    assert_followed(&rt, &[REPLY, GONE], &[], &[], GONE_LAST, 0)?;
    assert_followed(&rt, &[GONE, REPLY], &[], &[], GONE_FIRST, 0)?;
    let strange = "HTTP/1.1 404 Not Found\r\n\r\n";
    assert_followed(&rt, &[strange], &[], &[], "polls 2 newer 0 lost 2\n", 0)?;
    let first = "run 7 place 1 version 1 dtab /svc=>/#/io.l5d.fs\n";
    assert_followed(&rt, &[REPLY, GONE], &[], &[1], first, 5)
}

/// Words that don't fit `follow`.
#[test]
fn words_of_following(rt: HostRuntime) -> Result<(), Fail> {
    assert_answered(
        &rt,
        &["follow", "follow 127.0.0.1", "follow 127.0.0.1:0 default 1"],
        "error words 2\n",
        2,
    )?;
    assert_answered(
        &rt,
        &[
            "follow localhost:4181",
            "follow 127.0.0.1:4181  1",
            "follow 127.0.0.1:4181 a/b 1",
            "follow 127.0.0.1:4181 -a 1",
            "follow 127.0.0.1:4181 --help 1",
        ],
        "error words 3\n",
        2,
    )?;
    assert_answered(
        &rt,
        &[
            "follow 127.0.0.1:4181 a",
            "follow 127.0.0.1:4181 a 01",
            "follow 127.0.0.1:4181 a 1000001",
        ],
        "error words 4\n",
        2,
    )?;
    assert_answered(
        &rt,
        &["follow 127.0.0.1:4181 a 1000000 "],
        "error words 5\n",
        2,
    )
}

/// Words that fit it: of no poll, and of one that nobody answers.
#[test]
fn polls_that_nobody_answers(rt: HostRuntime) -> Result<(), Fail> {
    assert_answered(
        &rt,
        &["follow 127.0.0.1:4181 a 0"],
        "polls 0 newer 0 lost 0\n",
        0,
    )?;
    assert_answered(
        &rt,
        &["follow 127.0.0.1:4181 a 1"],
        "polls 1 newer 0 lost 1\n",
        0,
    )
}
