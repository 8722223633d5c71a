//! The sockets that a net holds.
ghost use Rattle.std.specs.Prelude.{◌≡◌, ◌≤◌, length, IfOk};
ghost use Rattle.net_edge.specs.Sockets.{AllFresh};

use super::dial_socket::DialSocket;
use super::listener::SocketListener;
use super::queue::Queue;
use super::stop::{Closing, Queues, SocketStop};
use std::alloc::{AllocError, Global};
use std::io::{self, ErrorKind};
use std::net::{Net, SocketAddr, TcpListener, TcpStream};
use std::rt;
use std::sync::Arc;

/// Descriptors that a process has beside those of its listeners: the standard streams and what it
/// was started with. So many are named beyond those that were asked for up to a refusal, for a few
/// listeners more too.
const OTHER_DESCRIPTORS: u64 = 16;

/// Descriptors that are left for what else the process opens while it serves, as a file that it
/// reads: no waiting client takes them.
const SPARE_DESCRIPTORS: u32 = 16;

/// What no waiting client takes of a listener either: one for its client, and two for what its job
/// writes of what it serves, as the file of an access log, which is open while it is opened anew.
const LISTENER_DESCRIPTORS: u32 = 3;

/// The queues of a net's addresses, and the sockets of the dialers to come.
///
/// A listener serves one client at a time, and a dialer has one socket beside those of its pool. So
/// a job takes two descriptors and those of its dialer's pool at most, and an address two more. All
/// of them are there when `listen` is answered: the sockets of dialers are open, and room for the
/// clients of all listeners and for what their dialers may keep was seen. What is closed later, a
/// client's connection or a dialer's socket, gives its descriptor back before the same job opens
/// the next. Clients that wait have descriptors beside those, as many as `waiting_room` saw, and
/// [`SPARE_DESCRIPTORS`] are left, and two for the file of each job. So where a process opens no
/// more than those after that, no accept and no dial ever lacks a descriptor.
pub(crate) struct HeldSockets {
    pub(crate) alloc: Global,
    closing: Closing,
    queues: Queues,
    for_dialers: Vec<DialSocket>,
    /// How many listeners there are.
    listeners: u32,
    /// How many connections their dialers may keep.
    kept: u32,
}

impl Drop for HeldSockets {
    fn drop(self) {
        let HeldSockets {
            alloc: _,
            closing,
            queues,
            for_dialers,
            listeners: _,
            kept: _,
        } = self;
        drop(closing);
        drop(queues);
        drop(for_dialers);
    }
}

/// These queues, and one more.
fn with_queue(alloc: Global, queues: &Queues, queue: &Arc<Queue>) -> io::Result<Queues> {
    let mut all = Vec::new(alloc);
    for queue in queues.iter() {
        all.push(Arc::try_clone(queue)?)?;
    }
    all.push(Arc::try_clone(queue)?)?;
    Ok(Arc::new(alloc, all)?)
}

/// So many listeners of one queue.
fn copies_of<'a, R>(
    rt: &'a R,
    alloc: Global,
    queue: &Arc<Queue>,
    closing: &Closing,
    copies: u32,
) -> io::Result<Vec<SocketListener<'a, R>>>
    ensures count { IfOk result (λ ls. length ls.items ≡ copies) }
    ensures fresh { IfOk result (λ ls. AllFresh ls.items) }
{
    let mut listeners = Vec::new(alloc);
    for _place in 0..copies {
        let copy = SocketListener::of(rt, Arc::try_clone(queue)?, closing.share()?);
        let Ok(()) = listeners.push(copy) else {
            return Err(io::Error::from(ErrorKind::OutOfMemory));
        };
    }
    Ok(listeners)
}

impl HeldSockets {
    /// None so far.
    pub(crate) fn none(alloc: Global) -> Result<HeldSockets, AllocError> {
        Ok(HeldSockets {
            alloc,
            closing: Closing::open(alloc)?,
            queues: Arc::new(alloc, Vec::new(alloc))?,
            for_dialers: Vec::new(alloc),
            listeners: 0,
            kept: 0,
        })
    }

    /// So many listeners of an address. They share one queue, and each has a descriptor for a
    /// client of its own and for a dialer, and so many for what that dialer may keep.
    pub(crate) fn listen<'a, R: Net<Listener = TcpListener, Stream = TcpStream> + rt::Clock>(
        &mut self,
        rt: &'a R,
        address: SocketAddr,
        copies: u32,
        kept: u32,
    ) -> io::Result<Vec<SocketListener<'a, R>>>
        ensures count { IfOk result (λ ls. length ls.items ≡ copies) }
        ensures fresh { IfOk result (λ ls. AllFresh ls.items) }
    {
        let queue = Arc::new(self.alloc, Queue::open(rt, address)?)?;
        let queues = with_queue(self.alloc, &self.queues, &queue)?;
        let listeners = copies_of(rt, self.alloc, &queue, &self.closing, copies)?;
        self.promise(rt, &queue, copies, kept)?;
        self.queues = queues;
        Ok(listeners)
    }

    /// Makes sure of the descriptors that so many listeners of a queue want beside it, each with a
    /// dialer that may keep so many connections.
    fn promise<R: Net>(&mut self, rt: &R, queue: &Queue, copies: u32, kept: u32) -> io::Result<()> {
        for _ in 0..copies {
            self.for_dialers.push(DialSocket::open(rt)?)?;
        }
        let clients = self.listeners.saturating_add(copies);
        let kept = self.kept.saturating_add(copies.saturating_mul(kept));
        queue.make_sure(self.alloc, clients.saturating_add(kept))?;
        self.listeners = clients;
        self.kept = kept;
        Ok(())
    }

    /// The socket of the next dialer, where one was made for it.
    pub(crate) fn for_dialer(&mut self) -> Option<DialSocket> {
        self.for_dialers.pop()
    }

    /// How many descriptors more the process may open, up to so many, beside those that its
    /// listeners were promised, and some that are left for what else it opens.
    pub(crate) fn waiting_room(&self, most: u32) -> u32
        ensures { result ≤ most }
    {
        let Some(queue) = self.queues.first() else {
            return 0;
        };
        let promised = self
            .listeners
            .saturating_mul(LISTENER_DESCRIPTORS)
            .saturating_add(self.kept)
            .saturating_add(SPARE_DESCRIPTORS);
        let spare = queue.count_spare(self.alloc, promised.saturating_add(most));
        spare.saturating_sub(promised).min(most)
    }

    /// A stop of all listeners.
    pub(crate) fn stopper(&self) -> SocketStop
        ensures { result.calls ≡ 0 }
    {
        SocketStop::of(self.closing.share().ok(), Arc::try_clone(&self.queues).ok())
    }

    /// How many descriptors the process wants for so many listeners more, whose dialers may keep so
    /// many connections each.
    pub(crate) fn wanted_descriptors(&self, copies: u32, kept: u32) -> u64 {
        let addresses = (self.queues.len() as u64)
            .saturating_add(1)
            .saturating_mul(2);
        let jobs = u64::from(self.listeners.saturating_add(copies));
        let pools = u64::from(self.kept.saturating_add(copies.saturating_mul(kept)));
        jobs.saturating_mul(2)
            .saturating_add(pools)
            .saturating_add(addresses)
            .saturating_add(OTHER_DESCRIPTORS)
    }
}
