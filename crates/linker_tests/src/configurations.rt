//! Configurations that are checked.
use crate::outside::folder_of_one;
use crate::running::{assert_told, no_input, run_with, sink, text_with};
use std::alloc::{AllocError, AllocGlobal};
use std::process::Abort;
use std::sync::Wait;
use std::test::Fail;
use std::thread::Threads;

/// What `check` writes of the configuration at a path, and its status, where the one file there is,
/// `conf/c.json`, has this text. The calls of the folder whose numbers are in `failing` fail.
fn checked<R: AllocGlobal + Threads + Wait + Sync>(
    rt: &R,
    path: &str,
    text: &str,
    failing: &[u64],
) -> Result<(String, u8), AllocError> {
    let alloc = rt.alloc();
    let folder = folder_of_one(alloc, "conf", "c.json", text, failing)?;
    run_with(rt, &["check", path], folder, no_input(alloc), sink(alloc))
}

const SHORTEST: &str = "{\"routers\":[{\"protocol\":\"http\"}]}";

const GOOD_LINE: &str = "ok router 127.0.0.1:4140 namerd 127.0.0.1:4180 admin 127.0.0.1:9990\n";

/// Asserts that of configurations this is told, and that the program ends with this status.
fn assert_checked<R: AllocGlobal + Threads + Wait + Sync + Abort>(
    rt: &R,
    rows: &[(&str, &str)],
    status: u8,
) -> Result<(), Fail> {
    for (text, written) in rows {
        let told = checked(rt, "conf/c.json", text, &[])?;
        assert_told(rt, told, (*written, status), text);
    }
    Ok(())
}

/// Configurations that are right, and what is told of them.
const RIGHT: [(&str, &str); 4] = [
    (SHORTEST, GOOD_LINE),
    // The folder of the services is not looked at, and is not there.
    (
        "{\"namers\":[{\"kind\":\"io.l5d.fs\",\"rootDir\":\"disco\"}],\
            \"routers\":[{\"protocol\":\"http\",\"dtab\":\"/svc => /#/io.l5d.fs\",\
            \"servers\":[{\"port\":4140}]}]}",
        GOOD_LINE,
    ),
    (
        "{\"admin\":{\"ip\":\"0.0.0.0\",\"port\":1},\"namerd\":{\"ip\":\"10.0.0.255\",\
            \"port\":65535},\"routers\":[{\"protocol\":\"http\",\
            \"servers\":[{\"ip\":\"192.168.1.2\",\"port\":80}]}]}",
        "ok router 192.168.1.2:80 namerd 10.0.0.255:65535 admin 0.0.0.0:1\n",
    ),
    // The address of the feed is not told.
    (
        "{\"feed\":{\"port\":5},\"routers\":[{\"protocol\":\"http\",\
            \"retries\":{\"most\":0}}]}",
        GOOD_LINE,
    ),
];

/// Configurations that are right.
#[test]
fn configurations(rt: HostRuntime) -> Result<(), Fail> {
    assert_checked(&rt, &RIGHT, 0)
}

/// Configurations with a fault, and what is told of them.
const WRONG: [(&str, &str); 6] = [
    (
        "{\"routers\":[{\"protocol\":\"http\",\"retries\":{\"most\":11}}]}",
        "error config routers[0].retries.most bad\n",
    ),
    ("{}", "error config routers missing\n"),
    ("{\"routerz\":[]}", "error config routerz unknown\n"),
    (
        "{\"routers\":[{\"protocol\":\"thrift\"}]}",
        "error config routers[0].protocol bad\n",
    ),
    ("[", "error config json\n"),
    ("", "error config json\n"),
];

/// Configurations with a fault.
#[test]
fn configurations_with_a_fault(rt: HostRuntime) -> Result<(), Fail> {
    assert_checked(&rt, &WRONG, 3)
}

/// What `check` writes of the shortest configuration with so many blanks behind it, and its status.
fn long_checked<R: AllocGlobal + Threads + Wait + Sync>(
    rt: &R,
    blanks: usize,
) -> Result<(String, u8), AllocError> {
    let text = text_with(rt.alloc(), SHORTEST, " ", blanks)?;
    let told = checked(rt, "conf/c.json", text.as_str(), &[]);
    drop(text);
    told
}

/// The longest configuration, one that is longer, one that is not there, and a folder that fails.
#[test]
fn configurations_that_are_not_read(rt: HostRuntime) -> Result<(), Fail> {
    let longest = 1_048_576 - SHORTEST.len();
    let told = long_checked(&rt, longest)?;
    assert_told(&rt, told, (GOOD_LINE, 0), &longest);
    let told = long_checked(&rt, longest + 1)?;
    assert_told(&rt, told, ("error config long\n", 3), &"one blank more");
    let told = checked(&rt, "conf/d.json", SHORTEST, &[])?;
    assert_told(&rt, told, ("error config absent\n", 3), &"another path");
    let told = checked(&rt, "conf/c.json", SHORTEST, &[0])?;
    assert_told(&rt, told, ("error read\n", 4), &"the first call fails");
    Ok(())
}
