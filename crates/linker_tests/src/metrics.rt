//! What a router that is scraped tells of the requests that it served.
use crate::outside::{ONE_WORKER, asking, net_of_two, served_by, told, vec_of_two, visited};
use crate::paired::Paired;
use crate::running::assert_told;
use line_base::Event;
use line_doubles::{MemAddress, MemNet};
use std::alloc::{AllocError, AllocGlobal, Global};
use std::sync::Wait;
use std::sync::atomic::AtomicBool;
use std::test::Fail;
use std::thread::Threads;

/// A request that no table routes.
const GET: &str = "GET / HTTP/1.1\r\nHost: web\r\n\r\n";

/// A request for the metrics.
const SCRAPE: &str = "GET /admin/metrics/prometheus HTTP/1.1\r\nHost: a\r\n\r\n";

/// What begins each line that tells how many requests have ended.
const REQUESTS: &str = "linker_requests_total{";

/// What the router's listener tells: a client that asks at once, and then one that asks nothing,
/// and ends only once the last client is read.
fn told_of_two<'a>(
    alloc: Global,
    first: &'a AtomicBool,
    next: &'a AtomicBool,
    last: &'a AtomicBool,
) -> Result<MemAddress<Paired<'a>>, AllocError> {
    let asks = Paired::of(first, first, asking(alloc, GET)?);
    let asks_nothing = Paired::of(next, last, asking(alloc, "")?);
    let events = vec_of_two(alloc, Event::Came(asks), Event::Came(asks_nothing))?;
    told(alloc, 4140, events, Vec::new(alloc))
}

/// A net in which the router's listener tells these, and the administrator's one a last client,
/// which asks for the metrics only once the second of these is read.
fn net_of_three<'a>(
    alloc: Global,
    first: &'a AtomicBool,
    next: &'a AtomicBool,
    last: &'a AtomicBool,
) -> Result<MemNet<Paired<'a>>, AllocError> {
    let here = told_of_two(alloc, first, next, last)?;
    let scrapes = Paired::of(last, next, asking(alloc, SCRAPE)?);
    let there = visited(alloc, 9990, scrapes)?;
    net_of_two(alloc, here, there)
}

/// What such clients are given, one after another, and the status.
fn given<R: AllocGlobal + Threads + Wait + Sync>(rt: &R) -> Result<(String, u8), AllocError> {
    let (first, next, last) = (
        AtomicBool::new(false),
        AtomicBool::new(false),
        AtomicBool::new(false),
    );
    let net = net_of_three(rt.alloc(), &first, &next, &last)?;
    Ok(served_by(rt, ONE_WORKER, net)?.into_given())
}

/// The lines of a text that begin so.
fn lines_with(alloc: Global, text: &str, front: &str) -> Result<String, AllocError> {
    let mut found = String::new(alloc);
    for line in text.lines() {
        if line.starts_with(front) {
            write!(found, "{line}\n")?;
        }
    }
    Ok(found)
}

/// The lines of what they are given that tell how many requests have ended, and the status.
fn counted<R: AllocGlobal + Threads + Wait + Sync>(rt: &R) -> Result<(String, u8), AllocError> {
    let (text, status) = given(rt)?;
    let lines = lines_with(rt.alloc(), text.as_str(), REQUESTS);
    drop(text);
    Ok((lines?, status))
}

/// What a scrape tells is what the router's own worker has counted: one request, whose reply has
/// the status 502. The one worker reads its second client only behind the first one's exchange,
/// which is counted then, and the scrape comes only once that client is read. So this holds in any
/// order of the threads.
#[test]
fn a_scrape_tells_what_was_served(rt: HostRuntime) -> Result<(), Fail> {
    let lines = "linker_requests_total{class=\"2xx\"} 0\n\
        linker_requests_total{class=\"3xx\"} 0\n\
        linker_requests_total{class=\"4xx\"} 0\n\
        linker_requests_total{class=\"5xx\"} 1\n\
        linker_requests_total{class=\"other\"} 0\n\
        linker_requests_total{class=\"none\"} 0\n";
    let told = counted(&rt)?;
    assert_told(&rt, told, (lines, 0), &"a scrape");
    Ok(())
}
