//! Routers of which one listener breaks.
ghost use Rattle.std.specs.Prelude.{◌≡◌, ◌≤◌, ◌↔◌, IsErr};
ghost use Rattle.line_base.specs.Counts.{HasCause};
ghost use Rattle.line_doubles.specs.Memory.{upstream_of};
ghost use Rattle.line_base.specs.Nets.{after_end, log_of};

use crate::outside::{
    Outcome, TWO_WORKERS, assert_served, first_numbers, folder_of, net_of_two, paired_at,
    served_over, told,
};
use crate::paired::Paired;
use line_base::{BROKEN_RUN, ConnectionPool, Failed, Listeners, Net, NetFault, Peer, Stop};
use line_doubles::{MemDialer, MemFolder, MemListener, MemNet, MemStop};
use std::alloc::{AllocError, AllocGlobal, Global};
use std::sync::Wait;
use std::sync::atomic::{AtomicBool, Ordering};
use std::test::Fail;
use std::thread::Threads;

/// What a client asks.
const ASKS: &str = "HEAD / HTTP/1.1\r\nHost: web\r\n\r\n";

/// What it is answered, since no table routes it.
const ANSWER: &str = "HTTP/1.1 502 Bad Gateway\r\nContent-Type: text/plain\r\n\
    l5d-err: negative\r\nContent-Length: 9\r\n\r\n";

/// A stop that raises a flag.
#[derive(Drop)]
struct FlagStop<'a> {
    flag: &'a AtomicBool,
    stop: MemStop,
}

impl Stop for FlagStop<'_> {
    ghost calls = { λ s. s.stop };

    fn stop(&mut self) {
        self.stop.stop();
        self.flag.store(true, Ordering::SeqCst);
    }
}

/// A net in memory whose stops raise a flag, for clients that ask nothing before.
struct FlagNet<'a, P: Peer + Drop> {
    flag: &'a AtomicBool,
    net: MemNet<P>,
}

impl<P: Peer + Drop> Drop for FlagNet<'_, P> {
    fn drop(self) {
        let FlagNet { flag: _, net } = self;
        drop(net);
    }
}

impl<P: Peer + Drop> FlagNet<'_, P> {
    /// The net in memory.
    fn into_net(self) -> MemNet<P>
        ensures { result ≡ self.entry.net }
    {
        let FlagNet { flag: _, net } = self;
        net
    }
}

impl<'a, P: Peer + Drop + Send> Net for FlagNet<'a, P> {
    type L = MemListener<P>;

    type D = MemDialer;

    type S = FlagStop<'a>;

    ghost state = { λ n. n.net.state };

    ghost faults = { λ n. n.net.faults };

    fn listen(
        &mut self,
        ip: u32,
        port: u16,
        copies: u32,
        kept: u32,
    ) -> Result<Listeners<MemListener<P>>, NetFault> {
        self.net.listen(ip, port, copies, kept)
    }

    fn waiting_room(&mut self, most: u32) -> u32 {
        self.net.waiting_room(most)
    }

    fn dialer(&mut self, pool: ConnectionPool) -> MemDialer {
        self.net.dialer(pool)
    }

    fn stopper(&mut self) -> FlagStop<'a> {
        FlagStop {
            flag: self.flag,
            stop: self.net.stopper(),
        }
    }

    fn end(
        &mut self,
        listener: MemListener<P>,
        dialer: Option<MemDialer>,
        stop: FlagStop<'a>,
    ) -> Result<(), Failed>
        ensures state { self.new.net.state ≡ after_end self.old.net.state (record {
          listener = listener.state;
          log = log_of upstream_of dialer;
          stops = stop.entry.stop;
        }) }
        ensures broken { IsErr result ↔ (BROKEN_RUN ≤ listener.state.run) }
        ensures cause { HasCause self.old.net.faults self.new.net.faults result }
    {
        let FlagStop { flag: _, stop } = stop;
        self.net.end(listener, dialer, stop)
    }
}

/// A net in which each wait of a port's first listener fails, and a client comes to the router's
/// next listener that asks nothing before this flag is raised.
fn net_of<'a>(
    alloc: Global,
    port: u16,
    here: &'a AtomicBool,
    flag: &'a AtomicBool,
) -> Result<MemNet<Paired<'a>>, AllocError> {
    let failing = first_numbers(alloc, BROKEN_RUN)?;
    let broken = told(alloc, port, Vec::new(alloc), failing)?;
    let held = paired_at(alloc, here, flag, ASKS)?;
    net_of_two(alloc, broken, held)
}

/// Serves over a net whose stops raise this flag: what is written, the status, and the net.
fn flagged_over<R: AllocGlobal + Threads + Wait + Sync, P: Peer + Drop + Send>(
    rt: &R,
    folder: MemFolder,
    flag: &AtomicBool,
    net: MemNet<P>,
) -> Result<(String, u8, MemNet<P>), AllocError> {
    let (written, status, net) = served_over(rt, folder, FlagNet { flag, net })?.into_parts();
    Ok((written, status, net.into_net()))
}

/// What becomes of a router of which the first listener of a port breaks, while a client waits for
/// a stop.
fn broken_at<R: AllocGlobal + Threads + Wait + Sync>(
    rt: &R,
    port: u16,
) -> Result<Outcome, AllocError> {
    let alloc = rt.alloc();
    let (here, flag) = (AtomicBool::new(false), AtomicBool::new(false));
    let folder = folder_of(alloc, TWO_WORKERS)?;
    let net = net_of(alloc, port, &here, &flag)?;
    let (written, status, net) = flagged_over(rt, folder, &flag, net)?;
    Outcome::of(alloc, written, status, net)
}

/// A listener that breaks stops all others: a worker that is held until then goes on, and the
/// program ends. It may be the router's, or that of an interface.
#[test]
fn a_listener_that_breaks(rt: HostRuntime) -> Result<(), Fail> {
    let lines = "serving 127.0.0.1:4140 127.0.0.1:4180 127.0.0.1:9990\nerror net\n";
    for port in &[4140, 4180, 9990] {
        let outcome = broken_at(&rt, *port)?;
        assert_served(&rt, &outcome, (lines, 6, ANSWER, ""), port);
        drop(outcome);
    }
    Ok(())
}
