//! Routers that serve, and routers that don't.
use crate::outside::{
    HI, ONE_ADDRESS, Outcome, TWO_WORKERS, assert_served, dials_of, file, first_numbers,
    folder_with, net_answered, net_of, net_of_two, paired_at, served, served_by, told, vec_of_one,
};
use crate::paired::Paired;
use crate::running::{assert_told, no_net, text_with};
use line_doubles::{MemFile, MemFolder, MemNet, MemPeer};
use std::alloc::{AllocError, AllocGlobal, Global};
use std::sync::Wait;
use std::sync::atomic::AtomicBool;
use std::test::Fail;
use std::thread::Threads;

/// The services are those of a folder, and `/svc/web` names its service `web`.
const WITH_SERVICES: &str = "{\"namers\":[{\"kind\":\"io.l5d.fs\",\"rootDir\":\"disco\"}],\
    \"routers\":[{\"protocol\":\"http\",\"dtab\":\"/svc => /#/io.l5d.fs\",\
    \"servers\":[{\"port\":4140}]}]}";

const FOR_WEB: &str = "GET / HTTP/1.1\r\nHost: web\r\n\r\n";

/// What becomes of a router by this configuration where to each of these ports a client comes that
/// asks this.
fn routed<R: AllocGlobal + Threads + Wait + Sync>(
    rt: &R,
    config: &str,
    clients: &[(u16, &str)],
) -> Result<Outcome, AllocError> {
    let net = net_answered(rt.alloc(), clients)?;
    served_by(rt, config, net)
}

/// Two requests to a service.
const TWICE: &str = "GET / HTTP/1.1\r\nHost: web\r\nUser-Agent: curl/8.5.0\r\nAccept: */*\r\n\r\n\
    GET / HTTP/1.1\r\nHost: web\r\nUser-Agent: curl/8.5.0\r\nAccept: */*\r\n\r\n";

/// What they are answered, and then an edit and a shutdown.
const ANSWERS: &str = "HTTP/1.1 200 OK\r\nContent-Length: 2\r\nVia: 1.1 linkerd\r\n\r\n\
    hiHTTP/1.1 200 OK\r\nContent-Length: 2\r\nVia: 1.1 linkerd\r\n\r\n\
    hiHTTP/1.1 204 No Content\r\nETag: \"1\"\r\n\r\n\
    HTTP/1.1 200 OK\r\nContent-Type: text/plain\r\nContent-Length: 4\r\n\
    Connection: close\r\n\r\n\
    bye\n";

/// What goes on to the replica.
const DIALS: &str = "dial 7f000001 9001\nGET / HTTP/1.1\r\nHost: web\r\nUser-Agent: curl/8.5.0\r\n\
    Accept: */*\r\nVia: 1.1 linkerd\r\nl5d-dst-service: /svc/web\r\n\
    l5d-dst-client: /#/io.l5d.fs/web\r\nConnection: close\r\n\r\n\
    hang\ndial 7f000001 9001\nGET / HTTP/1.1\r\nHost: web\r\nUser-Agent: curl/8.5.0\r\n\
    Accept: */*\r\nVia: 1.1 linkerd\r\nl5d-dst-service: /svc/web\r\n\
    l5d-dst-client: /#/io.l5d.fs/web\r\nConnection: close\r\n\r\n\
    hang\n";

/// A request that is routed twice, an edit and a shutdown. Where nothing more comes, a listener
/// counts as closed.
#[test]
fn a_router_that_serves(rt: HostRuntime) -> Result<(), Fail> {
    let edit = "POST /api/1/dtabs/default HTTP/1.1\r\nHost: n\r\nContent-Type: application/dtab\r\n\
        Content-Length: 12\r\n\r\n\
        /other => /x";
    let shutdown = "POST /admin/shutdown HTTP/1.1\r\nHost: a\r\n\r\n";
    let lines = "serving 127.0.0.1:4140 127.0.0.1:4180 127.0.0.1:9990\nclosed 2\n";
    let clients = [(4140, TWICE), (4180, edit), (9990, shutdown)];
    let outcome = routed(&rt, WITH_SERVICES, &clients)?;
    assert_served(&rt, &outcome, (lines, 0, ANSWERS, DIALS), &"three clients");
    drop(outcome);
    Ok(())
}

/// A router with services whose clients are not trusted.
const CLEARING: &str = "{\"namers\":[{\"kind\":\"io.l5d.fs\",\"rootDir\":\"disco\"}],\
    \"routers\":[{\"protocol\":\"http\",\"dtab\":\"/svc => /#/io.l5d.fs\",\
    \"servers\":[{\"clearContext\":true}]}]}";

/// A request with fields of a context, which say that it is to fail.
const WITH_CONTEXT: &str = "GET / HTTP/1.1\r\nHost: web\r\nl5d-dtab: /svc => !\r\n\
    L5D-Ctx-Dtab: /svc => !\r\nl5d-ctx-trace: 1\r\nl5d-ctx: 2\r\n\r\n";

/// What goes on of it where its context is cleared.
const WITHOUT_CONTEXT: &str = "dial 7f000001 9001\n\
    GET / HTTP/1.1\r\nHost: web\r\nl5d-ctx: 2\r\nVia: 1.1 linkerd\r\nl5d-dst-service: /svc/web\r\n\
    l5d-dst-client: /#/io.l5d.fs/web\r\nConnection: close\r\n\r\nhang\n";

/// Where the context of requests is cleared, none of it is read, and none goes on.
#[test]
fn a_context_that_is_cleared(rt: HostRuntime) -> Result<(), Fail> {
    let outcome = routed(&rt, CLEARING, &[(4140, WITH_CONTEXT)])?;
    assert_told(
        &rt,
        outcome.into_dialed(),
        (WITHOUT_CONTEXT, 0),
        &"the dials",
    );
    Ok(())
}

/// A net in which each of the router's first two listeners gets one client, and these ask only once
/// both are read.
fn net_of_pair<'a>(
    alloc: Global,
    first: &'a AtomicBool,
    second: &'a AtomicBool,
) -> Result<MemNet<Paired<'a>>, AllocError> {
    let here = paired_at(alloc, first, second, FOR_WEB)?;
    let there = paired_at(alloc, second, first, FOR_WEB)?;
    net_of_two(alloc, here, there)
}

/// What becomes of a router with such clients.
fn paired<R: AllocGlobal + Threads + Wait + Sync>(rt: &R) -> Result<Outcome, AllocError> {
    let (first, second) = (AtomicBool::new(false), AtomicBool::new(false));
    let net = net_of_pair(rt.alloc(), &first, &second)?;
    served_by(rt, TWO_WORKERS, net)
}

/// Two requests that no table routes, each to a listener of its own. Each is asked only once the
/// other's connection is read too, so both are served at once.
#[test]
fn two_clients_at_once(rt: HostRuntime) -> Result<(), Fail> {
    let lines = "serving 127.0.0.1:4140 127.0.0.1:4180 127.0.0.1:9990\nclosed 0\n";
    let answers = "HTTP/1.1 502 Bad Gateway\r\nContent-Type: text/plain\r\nl5d-err: negative\r\n\
        Content-Length: 9\r\n\r\n\
        negative\nHTTP/1.1 502 Bad Gateway\r\nContent-Type: text/plain\r\n\
        l5d-err: negative\r\nContent-Length: 9\r\n\r\n\
        negative\n";
    let outcome = paired(&rt)?;
    assert_served(&rt, &outcome, (lines, 0, answers, ""), &"two clients");
    drop(outcome);
    Ok(())
}

/// A net where nobody comes, and these calls of `listen` fail, and so many waits of the router's
/// first listener.
fn net_amiss(alloc: Global, listens: &[u64], waits: u64) -> Result<MemNet<MemPeer>, AllocError> {
    let failing = first_numbers(alloc, waits)?;
    let address = told(alloc, 4140, Vec::new(alloc), failing)?;
    let addresses = vec_of_one(alloc, address)?;
    let listens = Vec::from_slice(alloc, listens)?;
    Ok(MemNet::of(alloc, addresses, Vec::new(alloc), listens))
}

/// A folder whose service `web` has one line so many times. These calls of it fail.
fn folder_amiss(
    alloc: Global,
    reads: &[u64],
    line: &str,
    lines: usize,
) -> Result<MemFolder, AllocError> {
    let lines = text_with(alloc, "", line, lines)?;
    let folder = folder_with(alloc, WITH_SERVICES, lines.as_str(), reads);
    drop(lines);
    folder
}

/// What `serve` writes, and its status, over such a folder, where the first call of `listen` fails.
fn loaded_amiss<R: AllocGlobal + Threads + Wait + Sync>(
    rt: &R,
    reads: &[u64],
    line: &str,
    lines: usize,
) -> Result<(String, u8), AllocError> {
    let alloc = rt.alloc();
    let folder = folder_amiss(alloc, reads, line, lines)?;
    let net = net_amiss(alloc, &[0], 0)?;
    Ok(served(rt, folder, net)?.into_written())
}

/// A folder that can't be read, and files that are refused. Their faults come before that of the
/// net, whose first address can't be listened on.
#[test]
fn services_that_are_not_loaded(rt: HostRuntime) -> Result<(), Fail> {
    for read in 1..3 {
        let told = loaded_amiss(&rt, &[read], ONE_ADDRESS, 1)?;
        assert_told(&rt, told, ("error read\n", 4), &read);
    }
    let told = loaded_amiss(&rt, &[], "127.0.0.1\n", 1)?;
    assert_told(&rt, told, ("error file web\n", 3), &"no port");
    let told = loaded_amiss(&rt, &[], ONE_ADDRESS, 69_906)?;
    assert_told(&rt, told, ("error file web\n", 3), &"1,048,590 bytes");
    Ok(())
}

/// What `serve` writes, and its status, where these calls of `listen` fail, and so many waits of
/// the router's first listener.
fn listened_amiss<R: AllocGlobal + Threads + Wait + Sync>(
    rt: &R,
    listens: &[u64],
    waits: u64,
) -> Result<(String, u8), AllocError> {
    let net = net_amiss(rt.alloc(), listens, waits)?;
    Ok(served_by(rt, WITH_SERVICES, net)?.into_written())
}

/// Addresses that can't be listened on, and waits that fail: a listener is broken at a hundred
/// faults in a row.
#[test]
fn routers_that_do_not_serve(rt: HostRuntime) -> Result<(), Fail> {
    for listen in 0..3 {
        let told = listened_amiss(&rt, &[listen], 0)?;
        assert_told(&rt, told, ("error net\n", 6), &listen);
    }
    let told = listened_amiss(&rt, &[], 99)?;
    let closed = "serving 127.0.0.1:4140 127.0.0.1:4180 127.0.0.1:9990\nclosed 1\n";
    assert_told(&rt, told, (closed, 0), &"99 waits");
    let told = listened_amiss(&rt, &[], 100)?;
    let broken = "serving 127.0.0.1:4140 127.0.0.1:4180 127.0.0.1:9990\nerror net\n";
    assert_told(&rt, told, (broken, 6), &"100 waits");
    Ok(())
}

/// A router with one job for clients, and the feed.
const WITH_FEED: &str =
    "{\"routers\":[{\"protocol\":\"http\"}],\"workers\":1,\"feed\":{\"run\":7}}";

/// The same, where no run is said.
const WITH_SOME_RUN: &str = "{\"routers\":[{\"protocol\":\"http\"}],\"workers\":1,\"feed\":{}}";

/// What becomes of a router that serves a feed, where there are two requests for it.
fn fed<R: AllocGlobal + Threads + Wait + Sync>(
    rt: &R,
    config: &str,
) -> Result<Outcome, AllocError> {
    let alloc = rt.alloc();
    let requests =
        "GET /feed/default HTTP/1.1\r\nHost: f\r\n\r\nHEAD /feed/a/b HTTP/1.1\r\nHost: f\r\n\r\n";
    let net = net_of(alloc, &[(4181, requests)], Vec::new(alloc))?;
    served_by(rt, config, net)
}

/// A feed with a run that is said, and with one that is the first moment of the clock.
#[test]
fn feeds_of_routers(rt: HostRuntime) -> Result<(), Fail> {
    let lines = "serving 127.0.0.1:4140 127.0.0.1:4180 127.0.0.1:9990 127.0.0.1:4181\nclosed 0\n";
    let rows = [
        (
            WITH_FEED,
            "HTTP/1.1 200 OK\r\nContent-Type: application/json\r\nContent-Length: 19\r\n\r\n\
                {\"place\":0,\"run\":7}HTTP/1.1 404 Not Found\r\n\
                Content-Type: text/plain\r\nContent-Length: 5\r\n\r\n",
        ),
        (
            WITH_SOME_RUN,
            "HTTP/1.1 200 OK\r\nContent-Type: application/json\r\nContent-Length: 19\r\n\r\n\
                {\"place\":0,\"run\":0}HTTP/1.1 404 Not Found\r\n\
                Content-Type: text/plain\r\nContent-Length: 5\r\n\r\n",
        ),
    ];
    for (config, answers) in &rows {
        let outcome = fed(&rt, config)?;
        assert_served(&rt, &outcome, (lines, 0, *answers, ""), config);
        drop(outcome);
    }
    Ok(())
}

/// What the client of a router is given whose first dial fails, by this configuration, and the
/// status.
fn tried_by<R: AllocGlobal + Threads + Wait + Sync>(
    rt: &R,
    config: &str,
) -> Result<(String, u8), AllocError> {
    let alloc = rt.alloc();
    let dials = dials_of(alloc, &[HI], &[0])?;
    let net = net_of(alloc, &[(4140, FOR_WEB)], dials)?;
    Ok(served_by(rt, config, net)?.into_given())
}

/// The same, where this is said of retries.
fn tried<R: AllocGlobal + Threads + Wait + Sync>(
    rt: &R,
    retries: &str,
) -> Result<(String, u8), AllocError> {
    let config = format!(in rt.alloc();
        "{{\"routers\":[{{\"protocol\":\"http\",\
            \"dtab\":\"/svc => /$/inet/127.0.0.1/9001\"{retries}}}],\"workers\":1}}"
    )?;
    let told = tried_by(rt, config.as_str());
    drop(config);
    told
}

/// A request whose first dial fails is tried again where the configuration says so.
#[test]
fn requests_that_are_tried_again(rt: HostRuntime) -> Result<(), Fail> {
    let failed = "HTTP/1.1 502 Bad Gateway\r\nContent-Type: text/plain\r\nl5d-err: dial\r\n\
        Content-Length: 5\r\n\r\n\
        dial\n";
    let replied = "HTTP/1.1 200 OK\r\nContent-Length: 2\r\nVia: 1.1 linkerd\r\n\r\nhi";
    let rows = [
        ("", failed),
        (",\"retries\":{}", replied),
        (",\"retries\":{\"most\":0}", failed),
        (",\"retries\":{\"percent\":99,\"reserve\":0}", failed),
        (",\"retries\":{\"percent\":100,\"reserve\":0}", replied),
    ];
    for (retries, answer) in &rows {
        let told = tried(&rt, retries)?;
        assert_told(&rt, told, (*answer, 0), retries);
    }
    Ok(())
}

/// The lines of the service of this number: a thousand addresses that no other service has.
fn lines_of_many(alloc: Global, service: u32) -> Result<String, AllocError> {
    let mut lines = String::new(alloc);
    for port in 1..1001 {
        write!(lines, "127.0.0.{service} {port}\n")?;
    }
    Ok(lines)
}

/// The file of such a service, at `disco`.
fn service_of_many(alloc: Global, service: u32) -> Result<MemFile, AllocError> {
    let lines = lines_of_many(alloc, service)?;
    let name = format!(in alloc; "s{service}")?;
    let service = file(alloc, "disco", name.as_str(), lines.as_str());
    drop(name);
    drop(lines);
    service
}

/// A folder with the configuration `conf/c.json`, and nine such services.
fn folder_of_many(alloc: Global) -> Result<MemFolder, AllocError> {
    let mut files = Vec::new(alloc);
    files.push(file(alloc, "conf", "c.json", WITH_SERVICES)?)?;
    for service in 1..10 {
        files.push(service_of_many(alloc, service)?)?;
    }
    Ok(MemFolder::of(alloc, files, Vec::new(alloc)))
}

/// What is written by such a router, and the status.
fn overfull<R: AllocGlobal + Threads + Wait + Sync>(rt: &R) -> Result<(String, u8), AllocError> {
    let folder = folder_of_many(rt.alloc())?;
    Ok(served(rt, folder, no_net(rt.alloc()))?.into_written())
}

/// There is room for 8,192 addresses.
#[test]
fn services_without_room(rt: HostRuntime) -> Result<(), Fail> {
    let told = overfull(&rt)?;
    assert_told(&rt, told, ("error book\n", 3), &"nine services");
    Ok(())
}
