//! What a recorder is told of the exchanges of a session.
use crate::played::{Played, play};
use crate::row::joined;
use crate::scene::{FIXED, Mem, Scene, spelling};
use exchange_record::{ConnectionStep, Exchange, Recorder};
use http_wire::{Ended, Head};
use name_tree::{Path, write_path};
use std::alloc::Global;
use std::process::Abort;
use std::test::Fail;

/// Keeps what it is told of each exchange, as text: the port of its client, its target, the path
/// that it was identified as, and its numbers.
#[derive(Drop)]
pub(crate) struct Keeper {
    alloc: Global,
    told: String,
}

impl Keeper {
    /// One that was told of nothing.
    pub(crate) fn new(alloc: Global) -> Keeper {
        Keeper {
            alloc,
            told: String::new(alloc),
        }
    }

    /// What it was told, each exchange behind the one before it.
    pub(crate) fn text(&self) -> &str {
        self.told.as_str()
    }
}

impl Recorder for Keeper {
    ghost use Rattle.std.specs.Prelude.{◌≡◌};

    ghost begins = { λ old new. new ≡ new };

    ghost ends = { λ old told new. new ≡ new };

    ghost steps = { λ old step new. new ≡ new };

    fn begin(&mut self) {}

    fn end(&mut self, exchange: &Exchange<'_>) {
        if let Ok(text) = exchange_text(self.alloc, exchange) {
            let _kept = self.told.push_str(text.as_str());
        }
    }

    fn step(&mut self, _step: ConnectionStep) {}
}

/// An exchange as text.
fn exchange_text(alloc: Global, exchange: &Exchange<'_>) -> Mem<String> {
    let port = match exchange.client {
        Some(client) => client.port,
        None => 0,
    };
    let target = target_text(alloc, exchange.head)?;
    let name = name_text(alloc, exchange.name)?;
    let done = exchange.done;
    format!(in alloc; "{port} {target} {name} {done:?}|")
}

/// The target of a request, if its head was read.
fn target_text(alloc: Global, head: Option<&Head>) -> Mem<String> {
    match head {
        Some(head) => spelling(alloc, head.target.bytes()),
        None => spelling(alloc, b"-"),
    }
}

/// The path of a request, if it was identified.
fn name_text(alloc: Global, name: Option<&Path>) -> Mem<String> {
    match name {
        Some(path) => spelling(alloc, write_path(alloc, path)?.as_slice()),
        None => spelling(alloc, b"-"),
    }
}

/// Requests that are passed on, the second one with a body; one to a name without a replica; and
/// bytes that are no head.
const GIVES: &str = "GET /a HTTP/1.1|Host: web||POST /b HTTP/1.1|Host: web|Content-Length: 3||abc\
    GET /c HTTP/1.1|Host: none||BAD||";

/// What their replica replies: well, and then not.
const REPLIES: [&str; 2] = [
    "HTTP/1.1 200 OK|Content-Length: 2||hi",
    "HTTP/1.1 500 Internal Server Error|Content-Length: 1||x",
];

/// What is told of each, of a client at port 4711.
const TOLD: [&str; 4] = [
    "4711 /a /svc/web Done { answer: Passed { status: 200 }, replica: Some(Addr { ip: 2130706433, \
        port: 9001 }), tries: 1, failures: 0, request_bytes: 0, reply_bytes: 2, hits: 0, \
        misses: 1, broken: None }|",
    "4711 /b /svc/web Done { answer: Passed { status: 500 }, replica: Some(Addr { ip: 2130706433, \
        port: 9001 }), tries: 1, failures: 1, request_bytes: 3, reply_bytes: 1, hits: 1, \
        misses: 0, broken: None }|",
    "4711 /c /svc/none Done { answer: Own(Negative), replica: None, tries: 0, failures: 0, \
        request_bytes: 0, reply_bytes: 9, hits: 0, misses: 1, broken: None }|",
    "4711 - - Done { answer: Own(BadHead), replica: None, tries: 0, failures: 0, request_bytes: 0, \
        reply_bytes: 9, hits: 0, misses: 0, broken: None }|",
];

/// A session has to end with a refusal, and each of its exchanges has to be told of.
fn assert_told<R: Abort>(rt: &R, alloc: Global, played: &Played) -> Mem<()> {
    let told = joined(alloc, &TOLD)?;
    let comes = (played.ended, played.told.as_str());
    assert_eq!(rt; comes, (Some(Ended::Closed), told.as_str()));
    drop(told);
    Ok(())
}

/// Each exchange is told of once, in order, and by its own numbers.
#[test]
fn each_exchange_is_told_of(rt: HostRuntime) -> Result<(), Fail> {
    let alloc = rt.alloc();
    let played = play(&rt, alloc, &Scene::of(FIXED, GIVES, &REPLIES))?;
    let told = assert_told(&rt, alloc, &played);
    drop(played);
    Ok(told?)
}
