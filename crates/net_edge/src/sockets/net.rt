//! What makes listeners, dialers and stops over sockets.
ghost use Rattle.std.specs.Prelude.{◌≡◌, ◌≤◌, ◌↔◌, IfOk, IsErr, None};
ghost use Rattle.line_base.specs.Counts.{HasCause};
ghost use Rattle.line_base.specs.Nets.{after_end};
ghost use Rattle.net_edge.specs.Sockets.{listening, networking};

use super::address::address;
use super::dialer::SocketDialer;
use super::held::HeldSockets;
use super::listener::SocketListener;
use super::refusal::Refusal;
use super::stop::SocketStop;
use line_base::{BROKEN_RUN, ConnectionPool, Failed, Listeners, Net, NetFault, count_clean};
use std::alloc::{AllocError, AllocGlobal};
use std::io::ErrorKind;
use std::net::{self, TcpListener, TcpStream};
use std::rt;

/// The net of the machine. It tells nothing of what comes back.
///
/// `listen` opens what its listeners and as many dialers will want, and fails where the process
/// may not open so much: so a lack of descriptors is known before anybody is served.
pub struct SocketNet<'a, R> {
    rt: &'a R,
    held: HeldSockets,
    refused: Option<Refusal>,
    faults: u64,
    clean: u64,
    accepted: u64,
    finished: u64,
    stops_given: u64,
    stops_returned: u64,
}

impl<R> Drop for SocketNet<'_, R> {
    fn drop(self) {
        let SocketNet {
            rt: _,
            held,
            refused,
            faults: _,
            clean: _,
            accepted: _,
            finished: _,
            stops_given: _,
            stops_returned: _,
        } = self;
        drop(held);
        drop(refused);
    }
}

impl<'a, R: AllocGlobal> SocketNet<'a, R> {
    /// The net that is reached by `rt`, with no listeners so far.
    pub fn of(rt: &'a R) -> Result<SocketNet<'a, R>, AllocError>
        ensures { IfOk result (λ n. (n.faults ≡ 0) × (n.clean ≡ 0) × (n.accepted ≡ 0)
            × (n.finished ≡ 0) × (n.stops_given ≡ 0) × (n.stops_returned ≡ 0)) }
    {
        Ok(SocketNet {
            rt,
            held: HeldSockets::none(rt.alloc())?,
            refused: None,
            faults: 0,
            clean: 0,
            accepted: 0,
            finished: 0,
            stops_given: 0,
            stops_returned: 0,
        })
    }
}

impl<R> SocketNet<'_, R> {
    /// Why it could not listen on the last address that it refused, if there was one.
    pub fn refused(&self) -> Option<&Refusal> {
        self.refused.as_ref()
    }
}

impl<'a, R: net::Net<Listener = TcpListener, Stream = TcpStream> + rt::Clock + Sync> Net
    for SocketNet<'a, R> {
    type L = SocketListener<'a, R>;

    type D = SocketDialer<'a, R>;

    type S = SocketStop;

    ghost state = { λ n. networking n.clean n.accepted n.finished n.stops_given n.stops_returned };

    ghost faults = { λ n. n.faults };

    fn listen(
        &mut self,
        ip: u32,
        port: u16,
        copies: u32,
        kept: u32,
    ) -> Result<Listeners<SocketListener<'a, R>>, NetFault> {
        let address = address(ip, port);
        match self.held.listen(self.rt, address, copies, kept) {
            Ok(listeners) => Ok(Listeners::of(listeners)),
            Err(error) if error.kind() == ErrorKind::OutOfMemory => Err(NetFault::OutOfMemory),
            Err(error) => {
                let wanted = self.held.wanted_descriptors(copies, kept);
                self.refused = Some(Refusal::of(address, error, wanted));
                self.faults = self.faults.saturating_add(1);
                Err(NetFault::Failed)
            }
        }
    }

    fn waiting_room(&mut self, most: u32) -> u32 {
        self.held.waiting_room(most)
    }

    fn dialer(&mut self, pool: ConnectionPool) -> SocketDialer<'a, R> {
        SocketDialer::of(self.rt, self.held.alloc, self.held.for_dialer(), pool)
    }

    fn stopper(&mut self) -> SocketStop {
        self.stops_given = self.stops_given.saturating_add(1);
        self.held.stopper()
    }

    fn end(
        &mut self,
        listener: SocketListener<'a, R>,
        dialer: Option<SocketDialer<'a, R>>,
        stop: SocketStop,
    ) -> Result<(), Failed>
        ensures state { networking self.new.clean self.new.accepted self.new.finished
            self.new.stops_given self.new.stops_returned
            ≡ after_end (networking self.old.clean self.old.accepted self.old.finished
            self.old.stops_given self.old.stops_returned)
            (record { listener = listening listener.entry; log = None; stops = stop.calls }) }
        ensures broken { IsErr result ↔ (BROKEN_RUN ≤ listener.entry.run) }
        ensures cause { HasCause self.old.faults self.new.faults result }
    {
        self.clean = count_clean(self.clean, listener.is_clean());
        self.accepted = self.accepted.saturating_add(listener.accepted());
        self.finished = self.finished.saturating_add(listener.finished());
        self.stops_returned = self.stops_returned.saturating_add(1);
        let is_broken = listener.is_broken();
        drop(listener);
        drop(dialer);
        drop(stop);
        if is_broken {
            self.faults = self.faults.saturating_add(1);
            return Err(Failed);
        }
        Ok(())
    }
}
