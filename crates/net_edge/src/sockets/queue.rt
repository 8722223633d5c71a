//! The queue of an address: the clients that connected to it and wait to be accepted, and those
//! that were accepted and wait for their next request.
ghost use Rattle.std.specs.Prelude.{◌≤◌};

use super::address::place_of;
use super::watched::Watched;
use libc::net::{self, POLLIN, SHUT_RDWR};
use libc::types::pollfd;
use line_base::SocketAddress;
use std::alloc::Global;
use std::io::{self, ErrorKind};
use std::net::{Net, SocketAddr, TcpListener, TcpStream};
use std::os::fd::AsRawFd;
use std::rt;
use std::sync::atomic::{AtomicU64, Ordering};
use std::time::Instant;

/// How many clients may wait in the queue of an address, where the system allows so many.
pub const QUEUE_LENGTH: u32 = 4_096;

/// The number under which the socket that listens is watched. No client is watched under it.
const LISTENING: u64 = u64::MAX;

/// How many milliseconds one wait for the sockets of an address lasts at most.
const WAIT_MILLISECONDS: i32 = 1_000;

/// For how many milliseconds those who wait are heard still once their address is closing: a
/// request that was sent just then gets its reply.
const GRACE_MILLISECONDS: u64 = 1_000;

/// How many milliseconds one wait lasts at most meanwhile: who has been served by then may have
/// been the last.
const GRACE_WAIT_MILLISECONDS: i32 = 50;

/// For how many milliseconds behind a wait that failed no second is told. While waits fail one
/// after another, this is longer than the time between two of them.
const FAILURE_MILLISECONDS: u64 = 1_000;

/// What a wait for the sockets of an address found.
pub(crate) enum Found {
    /// A client may be accepted.
    Client,
    /// The client that is watched under this number may have something to say.
    Ready(u64),
    /// None, for a while.
    Nobody,
}

/// The socket that listens on an address, and all sockets of the address that are watched. The
/// listeners of the address share it, and so do the stops: it takes two descriptors.
pub(crate) struct Queue {
    socket: TcpListener,
    watched: Watched,
    /// How many listeners wait for the sockets.
    waiting: AtomicU64,
    begin: Instant,
    /// The last second after `begin` that is over for those who are told of seconds.
    second: AtomicU64,
    /// How many seconds were told.
    ticks: AtomicU64,
    /// Until how many milliseconds after `begin` no second is told.
    silent_until: AtomicU64,
    /// How many milliseconds after `begin` a client was last told or left, so that a client, which
    /// has no clock, can see how long it was silent.
    moment: AtomicU64,
    /// How many connections of its clients are open.
    open: AtomicU64,
    /// How many milliseconds after `begin` those who wait are heard no more; 0 as long as no
    /// listener has seen that the address is closing.
    grace_end: AtomicU64,
    /// Whether those who wait are heard no more: 1 where it is so.
    is_over: AtomicU64,
}

impl Drop for Queue {
    fn drop(self) {
        let Queue {
            socket,
            watched,
            waiting,
            begin: _,
            second,
            ticks,
            silent_until,
            moment,
            open,
            grace_end,
            is_over,
        } = self;
        drop(socket);
        drop(watched);
        drop(waiting);
        drop(second);
        drop(ticks);
        drop(silent_until);
        drop(moment);
        drop(open);
        drop(grace_end);
        drop(is_over);
    }
}

/// Whether an accept failed since nobody is in the queue, or since the client that was has reset
/// its connection by now.
fn is_gone(kind: ErrorKind) -> bool {
    matches!(kind, ErrorKind::WouldBlock | ErrorKind::ConnectionAborted)
}

/// A socket that listens on an address, with a queue of [`QUEUE_LENGTH`], and waits for nobody.
fn listening<R: Net<Listener = TcpListener, Stream = TcpStream>>(
    rt: &R,
    address: SocketAddr,
) -> io::Result<TcpListener> {
    let socket = TcpListener::bind(rt, address)?;
    // The library's queue is short. A second call lengthens it.
    if net::listen(socket.as_raw_fd(), QUEUE_LENGTH as i32) < 0 {
        return Err(io::Error::from_raw_os_error(os::errno()));
    }
    socket.set_nonblocking(true)?;
    Ok(socket)
}

impl Queue {
    /// The queue of an address, with nobody in it.
    pub(crate) fn open<R: Net<Listener = TcpListener, Stream = TcpStream> + rt::Clock>(
        rt: &R,
        address: SocketAddr,
    ) -> io::Result<Queue> {
        let socket = listening(rt, address)?;
        let watched = Watched::none()?;
        let begin = Instant::now(rt)?;
        let queue = Queue {
            socket,
            watched,
            waiting: AtomicU64::new(0),
            begin,
            second: AtomicU64::new(0),
            ticks: AtomicU64::new(0),
            silent_until: AtomicU64::new(0),
            moment: AtomicU64::new(0),
            open: AtomicU64::new(0),
            grace_end: AtomicU64::new(0),
            is_over: AtomicU64::new(0),
        };
        if !queue.listen_on() {
            let error = io::Error::from_raw_os_error(os::errno());
            drop(queue);
            return Err(error);
        }
        Ok(queue)
    }

    /// The connection of the next client, and where the client is; none where nobody waits to be
    /// accepted by now. From then on another listener hears of the client behind it. It waits for
    /// nobody.
    ///
    /// # Errors
    /// Where the process has no descriptor for the client it stays in the queue, and no listener
    /// hears of it until [`Queue::listen_on`] is called: so one of them at a time tries again, once
    /// it has waited for a moment.
    pub(crate) fn accept(&self) -> io::Result<Option<(TcpStream, Option<SocketAddress>)>> {
        let accepted = match self.socket.accept() {
            Ok((stream, address)) => Some((stream, place_of(address))),
            Err(error) if is_gone(error.kind()) => None,
            Err(error) => return Err(error),
        };
        self.listen_on();
        Ok(accepted)
    }

    /// Waits for the sockets of the address, for a second at most.
    pub(crate) fn wait(&self) -> io::Result<Found> {
        self.wait_for(WAIT_MILLISECONDS)
    }

    /// Waits for the sockets of an address that is closing, for a moment.
    pub(crate) fn wait_in_grace(&self) -> io::Result<Found> {
        self.wait_for(GRACE_WAIT_MILLISECONDS)
    }

    /// Waits for the sockets of the address, for so many milliseconds at most.
    fn wait_for(&self, milliseconds: i32) -> io::Result<Found> {
        self.waiting.fetch_add(1, Ordering::SeqCst);
        let told = self.watched.wait(milliseconds);
        self.waiting.fetch_sub(1, Ordering::SeqCst);
        match told? {
            Some(LISTENING) => Ok(Found::Client),
            Some(number) => Ok(Found::Ready(number)),
            None => Ok(Found::Nobody),
        }
    }

    /// Whether a listener of the address waits, so that whoever comes is served at once. It may be
    /// told of somebody at that very moment: nothing rests on the answer but how long a client is
    /// waited for.
    pub(crate) fn has_waiting(&self) -> bool {
        self.waiting.load(Ordering::SeqCst) > 0
    }

    /// Watches the socket that listens from now on, so that a listener hears of the next client,
    /// also where one is there already. Whether it can.
    pub(crate) fn listen_on(&self) -> bool {
        self.watched.watch(self.socket.as_raw_fd(), LISTENING)
    }

    /// Watches a client under this number. Whether it can.
    pub(crate) fn watch(&self, stream: &TcpStream, number: u64) -> bool {
        number != LISTENING && self.watched.watch(stream.as_raw_fd(), number)
    }

    /// Notes that a wait for the sockets failed. No second is told for a while: so the seconds that
    /// pass end no row of failed waits, whichever listeners these come to.
    pub(crate) fn note_failure<R: rt::Clock>(&self, rt: &R) {
        if let Some(now) = self.milliseconds(rt) {
            let until = now.saturating_add(FAILURE_MILLISECONDS);
            self.silent_until.store(until, Ordering::SeqCst);
        }
    }

    /// How many seconds were told with this one, where a second passed that was told to nobody, and
    /// no wait has failed of late. Each is told to one caller. Those in which nobody asked are told
    /// as one: else who waits would be ended for seconds in which nobody could have heard it.
    pub(crate) fn tick<R: rt::Clock>(&self, rt: &R) -> Option<u64> {
        let now = self.milliseconds(rt)?;
        if now < self.silent_until.load(Ordering::SeqCst) {
            return None;
        }
        let second = now / 1_000;
        let last = self.second.load(Ordering::SeqCst);
        if second <= last {
            return None;
        }
        self.second
            .compare_exchange(last, second, Ordering::SeqCst, Ordering::SeqCst)
            .ok()?;
        Some(self.ticks.fetch_add(1, Ordering::SeqCst).saturating_add(1))
    }

    /// The milliseconds since the queue was opened, where the clock can be read.
    fn milliseconds<R: rt::Clock>(&self, rt: &R) -> Option<u64> {
        let elapsed = self.begin.elapsed(rt).ok()?;
        let seconds = elapsed.as_secs().saturating_mul(1_000);
        Some(seconds.saturating_add(u64::from(elapsed.subsec_millis())))
    }

    /// Keeps the moment of now, and gives it, in milliseconds since the queue was opened; the one
    /// that was kept before, where the clock can't be read.
    pub(crate) fn stamp<R: rt::Clock>(&self, rt: &R) -> u64 {
        let Some(now) = self.milliseconds(rt) else {
            return self.moment();
        };
        self.moment.store(now, Ordering::SeqCst);
        now
    }

    /// The moment that was kept last.
    pub(crate) fn moment(&self) -> u64 {
        self.moment.load(Ordering::SeqCst)
    }

    /// Closes it. Those who wait in it can be accepted still; from now on the kernel lets nobody in
    /// while another waits.
    pub(crate) fn close(&self) {
        let _ = net::listen(self.socket.as_raw_fd(), 0);
        if !self.has_somebody() {
            self.end();
        }
    }

    /// Ends it: those who are in it are reset, and a listener that waits hears of it. That one
    /// calls this again, so all hear of it, one after another.
    pub(crate) fn end(&self) {
        let _ = net::shutdown(self.socket.as_raw_fd(), SHUT_RDWR);
        self.listen_on();
    }

    /// A connection of one of its clients was opened.
    pub(crate) fn count_opened(&self) {
        self.open.fetch_add(1, Ordering::SeqCst);
    }

    /// A connection of one of its clients was ended.
    pub(crate) fn count_ended(&self) {
        self.open.fetch_sub(1, Ordering::SeqCst);
    }

    /// Whether those who wait are heard still, though the address is closing: for a second from the
    /// first call on, as long as a connection is open.
    pub(crate) fn is_in_grace<R: rt::Clock>(&self, rt: &R) -> bool {
        if self.open.load(Ordering::SeqCst) == 0 {
            return false;
        }
        let Some(now) = self.milliseconds(rt) else {
            return false;
        };
        let end = now.saturating_add(GRACE_MILLISECONDS);
        let first = self
            .grace_end
            .compare_exchange(0, end, Ordering::SeqCst, Ordering::SeqCst);
        match first {
            Ok(_) => true,
            Err(end) => now < end,
        }
    }

    /// Whether those who wait are heard no more.
    pub(crate) fn is_over(&self) -> bool {
        self.is_over.load(Ordering::SeqCst) == 1
    }

    /// Those who wait are heard no more, and nobody is let in.
    pub(crate) fn end_grace(&self) {
        self.is_over.store(1, Ordering::SeqCst);
        self.end();
    }

    /// Whether somebody waits in it.
    fn has_somebody(&self) -> bool {
        let mut asked = [pollfd {
            fd: self.socket.as_raw_fd(),
            events: POLLIN,
            revents: 0,
        }];
        net::poll(&mut asked, 0) > 0
    }

    /// How many descriptors more the process may open, up to so many: it opens them, and closes
    /// them again.
    pub(crate) fn count_spare(&self, alloc: Global, most: u32) -> u32
        ensures { result ≤ most }
    {
        let mut opened = Vec::new(alloc);
        for count in 0..most {
            let Ok(socket) = self.socket.try_clone() else {
                return count;
            };
            if opened.push(socket).is_err() {
                return count;
            }
        }
        most
    }

    /// Makes sure that the process may open so many descriptors more: it opens them, and closes
    /// them again.
    pub(crate) fn make_sure(&self, alloc: Global, descriptors: u32) -> io::Result<()> {
        let mut opened = Vec::new(alloc);
        for _ in 0..descriptors {
            opened.push(self.socket.try_clone()?)?;
        }
        Ok(())
    }
}
