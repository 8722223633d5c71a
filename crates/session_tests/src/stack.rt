//! What the stack of a worker's thread has room for.
use crate::played::{Free, play};
use crate::scene::{Mem, Scene};
use crate::texts::UPSTREAM;
use line_base::Gate;
use name_tree::MOST_OPEN;
use std::alloc::Global;
use std::process::Abort;
use std::sync::Wait;
use std::test::Fail;
use std::thread::Threads;
use workers::{Job, run_workers};

/// How many lookups a chain may have.
const LOOKUPS: u32 = 100;

/// Plays a request over a router of its own, which has no table.
#[derive(Drop)]
struct Playing<'a, H> {
    host: &'a H,
    alloc: Global,
    request: &'a str,
}

impl<H: Wait + Abort + Drop> Job for Playing<'_, H> {
    /// What the client was given.
    type End = String;

    ghost use Rattle.std.specs.Prelude.{◌≡◌};

    ghost runs = { λ old new end. new ≡ new };

    fn run<R: Wait, G: Gate>(&mut self, _rt: &R, _gate: &G) -> String {
        match play(self.host, self.alloc, &Scene::of("", self.request, &[])) {
            Ok(played) => played.into_written(),
            Err(_why) => panic!(self.host; "not played"),
        }
    }
}

/// What the client of a request is given that a worker serves in a thread of its own.
fn serve_in_thread<R: Wait + Abort + Threads + Sync + Drop>(
    rt: &R,
    alloc: Global,
    request: &str,
) -> Mem<String> {
    let job = Playing {
        host: rt,
        alloc,
        request,
    };
    let jobs = vec![in alloc; job]?;
    let mut back = match run_workers(rt, jobs, &Free) {
        Ok(back) => back,
        Err(_jobs) => panic!(rt; "no memory for a thread"),
    };
    let last = back.pop();
    drop(back);
    match last {
        Some((_job, written)) => Ok(written),
        None => panic!(rt; "a job is missing"),
    }
}

/// Puts a leaf behind some text, in as many unions of one branch as a tree may nest.
fn put_nested(text: &mut String, leaf: &str) -> Mem<()> {
    for _open in 0..MOST_OPEN {
        text.push_str("1*(")?;
    }
    text.push_str("1*")?;
    text.push_str(leaf)?;
    for _open in 0..MOST_OPEN {
        text.push(')')?;
    }
    Ok(())
}

/// Puts a leaf of this path behind some text, nested so, and the entry of the path begins.
fn put_lookup(text: &mut String, path: &str) -> Mem<()> {
    put_nested(text, path)?;
    text.push(';')?;
    text.push_str(path)?;
    text.push_str("=>")
}

/// Puts a request behind some text. Its table nests the most unions in one another: each lookup of
/// a chain leads to the next one by nested unions, and the last is of an address.
fn put_nesting(alloc: Global, text: &mut String) -> Mem<()> {
    text.push_str("GET / HTTP/1.1|Host: web|l5d-dtab: /svc/web=>")?;
    for number in 2..LOOKUPS {
        let path = format!(in alloc; "/{number}")?;
        let put = put_lookup(text, path.as_str());
        drop(path);
        put?;
    }
    put_nested(text, "/$/inet/127.0.0.1/1")?;
    text.push_str("||")
}

/// The stack of a worker's thread has room for the deepest outcome that a table can make: it is
/// made, chosen from and let go of.
#[test]
fn a_worker_has_the_stack_for_nested_unions(rt: HostRuntime) -> Result<(), Fail> {
    let alloc = rt.alloc();
    let mut request = String::new(alloc);
    put_nesting(alloc, &mut request)?;
    let written = serve_in_thread(&rt, alloc, request.as_str());
    drop(request);
    let written = written?;
    assert_eq!(rt; written.as_str(), UPSTREAM);
    Ok(())
}
