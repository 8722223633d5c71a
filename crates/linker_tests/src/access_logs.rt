//! Routers with an access log.
use crate::outside::{folder_of, logged_over, net_answered};
use crate::running::append;
use line_log::{Journal, MemJournals};
use std::alloc::{AllocError, AllocGlobal, Global};
use std::process::Abort;
use std::sync::Wait;
use std::test::Fail;
use std::thread::Threads;

/// The services are those of a folder, and there is one worker, which writes an access log.
const LOGGING: &str = "{\"namers\":[{\"kind\":\"io.l5d.fs\",\"rootDir\":\"disco\"}],\
    \"routers\":[{\"protocol\":\"http\",\"dtab\":\"/svc => /#/io.l5d.fs\",\
    \"httpAccessLog\":\"access.log\"}],\"workers\":1}";

/// The same router without an access log.
const SILENT: &str = "{\"namers\":[{\"kind\":\"io.l5d.fs\",\"rootDir\":\"disco\"}],\
    \"routers\":[{\"protocol\":\"http\",\"dtab\":\"/svc => /#/io.l5d.fs\",\
    \"httpAccessLog\":\"\"}],\"workers\":1}";

/// What a client sends: a request to a service, one to a name without a service, and bytes that are
/// no head.
const REQUESTS: &str = "GET /a HTTP/1.1\r\nHost: web\r\n\r\nGET /\"b HTTP/1.1\r\nHost: no\r\n\r\n\
    no head\r\n\r\n";

/// What is logged of these, by a clock whose moments are all 0.
const LOGGED: &str = "\
    1970-01-01T00:00:00.000Z - \"GET /a HTTP/1.1\" 200 2 0 /svc/web 127.0.0.1:9001 -\n\
    1970-01-01T00:00:00.000Z - \"GET /\\x22b HTTP/1.1\" 502 9 0 /svc/no - negative\n\
    1970-01-01T00:00:00.000Z - \"-\" 400 9 0 - - bad-head\n";

/// What is logged of them where the second line is lost.
const LOGGED_BUT_ONE: &str = "\
    1970-01-01T00:00:00.000Z - \"GET /a HTTP/1.1\" 200 2 0 /svc/web 127.0.0.1:9001 -\n\
    1970-01-01T00:00:00.000Z - \"-\" 400 9 0 - - bad-head\n";

/// What the journals of such a router hold, how many lines they lost, and the status. The lines of
/// these numbers are lost.
fn logged<R: AllocGlobal + Threads + Wait + Sync>(
    rt: &R,
    config: &str,
    losing: &[u64],
) -> Result<(String, u64, u8), AllocError> {
    let alloc = rt.alloc();
    let journals = MemJournals::of(alloc, Vec::from_slice(alloc, losing)?);
    let folder = folder_of(alloc, config)?;
    let net = net_answered(alloc, &[(4140, REQUESTS)])?;
    let left = logged_over(rt, folder, net, journals)?;
    let status = left.status;
    let told = held(alloc, &left.journals);
    drop(left);
    let (text, lost) = told?;
    Ok((text, lost, status))
}

/// What the journals that were given back hold, and how many lines they lost.
fn held(alloc: Global, journals: &MemJournals) -> Result<(String, u64), AllocError> {
    let mut text = String::new(alloc);
    let mut lost = 0u64;
    for journal in journals.closed() {
        lost = lost.saturating_add(journal.counts().lost);
        for line in journal.lines() {
            append(&mut text, line.as_slice())?;
        }
    }
    Ok((text, lost))
}

/// Asserts that the journals of such a router hold these lines and lost so many, and that it ended
/// well.
fn assert_logged<R: AllocGlobal + Threads + Wait + Sync + Abort>(
    rt: &R,
    config: &str,
    losing: &[u64],
    lines: &str,
    lost: u64,
) -> Result<(), Fail> {
    let (text, count, status) = logged(rt, config, losing)?;
    let seen = (text.as_str(), count, status);
    assert_eq!(rt; seen, (lines, lost, 0), "of {config} without {losing:?}");
    drop(text);
    Ok(())
}

/// Each exchange has a line, in order, or its line is lost; without a log there are none.
#[test]
fn an_access_log(rt: HostRuntime) -> Result<(), Fail> {
    assert_logged(&rt, LOGGING, &[], LOGGED, 0)?;
    assert_logged(&rt, LOGGING, &[1], LOGGED_BUT_ONE, 1)?;
    assert_logged(&rt, LOGGING, &[0, 1, 2], "", 3)?;
    assert_logged(&rt, SILENT, &[], "", 0)
}
