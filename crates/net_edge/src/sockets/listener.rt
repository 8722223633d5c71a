//! Listeners of an address, each of which tells what comes there.
ghost use Rattle.std.specs.Prelude.{◌≡◌, ◌≤◌, ◌↔◌, nat_lt, IsTrue};
ghost use Rattle.line_base.specs.Accepts.{after_event};
ghost use Rattle.line_base.specs.Counts.{HasCause};
ghost use Rattle.net_edge.specs.Sockets.{IsFresh, listening};

use super::peer::SocketPeer;
use super::queue::{Found, QUEUE_LENGTH, Queue};
use super::stop::Closing;
use line_base::{BROKEN_RUN, Event, Failed, Listener};
use std::sync::Arc;
use std::time::Duration;
use std::{io, rt, thread};

/// How many milliseconds a wait that failed lasts before it answers: so a moment without
/// descriptors is no run of failed waits, and nobody spins meanwhile.
const PAUSE_MILLISECONDS: u64 = 50;

/// What tells of the clients of a queue. It tells no peers.
///
/// Once its net is stopped, it hands out those who wait in the queue to be accepted, at most
/// [`QUEUE_LENGTH`], and tells for a second of those who waited and have sent a request. Then it
/// answers that it is closed; at once where no connection is open.
pub struct SocketListener<'a, R> {
    rt: &'a R,
    queue: Arc<Queue>,
    closing: Closing,
    late: u32,
    closes: u64,
    accepted: u64,
    finished: u64,
    run: u64,
    faults: u64,
}

impl<R> Drop for SocketListener<'_, R> {
    fn drop(self) {
        let SocketListener {
            rt: _,
            queue,
            closing,
            late: _,
            closes: _,
            accepted: _,
            finished: _,
            run: _,
            faults: _,
        } = self;
        drop(queue);
        drop(closing);
    }
}

/// The number of the error that the system has no descriptor left (accept(2)).
const ENFILE: i32 = 23;

/// Whether a wait failed for want of a descriptor, of the process or of the system. That passes as
/// soon as a connection ends.
fn wants_descriptor(error: &io::Error) -> bool {
    match error.raw_os_error() {
        Some(number) => number == libc::EMFILE || number == ENFILE,
        None => false,
    }
}

/// The next client of a queue, if one waits to be accepted.
fn next_client(queue: &Arc<Queue>, closing: &Closing) -> io::Result<Option<SocketPeer>> {
    let Some((stream, address)) = queue.accept()? else {
        return Ok(None);
    };
    let queue = Arc::try_clone(queue)?;
    let peer = SocketPeer::over(stream, address, closing.share()?, queue)?;
    Ok(Some(peer))
}

/// The next client of a queue, if one waits to be accepted. Where one can't be let in since the
/// address is closing by now, there is none.
fn next_while_open(queue: &Arc<Queue>, closing: &Closing) -> io::Result<Option<SocketPeer>> {
    match next_client(queue, closing) {
        Err(_) if closing.is_closed() => Ok(None),
        client => client,
    }
}

/// What the sockets of an open address tell next.
fn next_told<R: rt::Clock>(
    rt: &R,
    queue: &Arc<Queue>,
    closing: &Closing,
) -> io::Result<Event<SocketPeer>> {
    for _ in 0..u64::MAX {
        if closing.is_closed() {
            return Ok(last_told(rt, queue, closing));
        }
        if let Some(seconds) = queue.tick(rt) {
            return Ok(Event::Tick(seconds));
        }
        match queue.wait()? {
            Found::Ready(number) => return Ok(Event::Ready(number)),
            Found::Client => {
                if let Some(peer) = next_while_open(queue, closing)? {
                    return Ok(Event::Came(peer));
                }
            }
            Found::Nobody => {}
        }
    }
    Ok(Event::Closed)
}

/// The same; where the wait for it fails, once a moment has passed.
fn told_or_paused<R: rt::Clock>(
    rt: &R,
    queue: &Arc<Queue>,
    closing: &Closing,
) -> Result<Event<SocketPeer>, Failed> {
    match next_told(rt, queue, closing) {
        Ok(event) => Ok(event),
        Err(error) => {
            if !wants_descriptor(&error) {
                queue.note_failure(rt);
            }
            thread::sleep(rt, Duration::from_millis(PAUSE_MILLISECONDS));
            // The client that could not be accepted may be there still.
            queue.listen_on();
            Err(Failed)
        }
    }
}

/// What the sockets of an address that is closing tell next: a client that came before that, one
/// that waited and has its next request under way, and in the end that the address is closed.
fn last_told<R: rt::Clock>(rt: &R, queue: &Arc<Queue>, closing: &Closing) -> Event<SocketPeer> {
    for _ in 0..u64::MAX {
        if let Some(peer) = next_client(queue, closing).unwrap_or(None) {
            return Event::Came(peer);
        }
        if !queue.is_in_grace(rt) {
            break;
        }
        match queue.wait_in_grace() {
            Ok(Found::Ready(number)) => return Event::Ready(number),
            Ok(Found::Client | Found::Nobody) => {}
            Err(_) => break,
        }
    }
    // Others may wait for a client that comes no more.
    queue.end_grace();
    Event::Closed
}

impl<'a, R> SocketListener<'a, R> {
    /// A listener of this queue, before its first call.
    pub(crate) fn of(rt: &'a R, queue: Arc<Queue>, closing: Closing) -> SocketListener<'a, R>
        ensures fresh { IsFresh result }
    {
        SocketListener {
            rt,
            queue,
            closing,
            late: 0,
            closes: 0,
            accepted: 0,
            finished: 0,
            run: 0,
            faults: 0,
        }
    }

    /// Whether its waits failed so often in a row that it counts as broken.
    pub(crate) fn is_broken(&self) -> bool
        ensures { IsTrue result ↔ (BROKEN_RUN ≤ self.now.run) }
    {
        self.run >= BROKEN_RUN
    }

    /// Whether it answered that it is closed.
    pub(crate) fn is_clean(&self) -> bool
        ensures { result ≡ nat_lt 0 self.now.closes }
    {
        self.closes > 0
    }

    /// How many peers it handed out.
    pub(crate) fn accepted(&self) -> u64
        ensures { result ≡ self.now.accepted }
    {
        self.accepted
    }

    /// How many peers came back.
    pub(crate) fn finished(&self) -> u64
        ensures { result ≡ self.now.finished }
    {
        self.finished
    }
}

impl<R: rt::Clock> SocketListener<'_, R> {
    /// Counts what it tells. A client that came once the listeners were closed is late.
    fn count(&mut self, told: &Result<Event<SocketPeer>, Failed>, is_late: bool)
        ensures state { listening self.new ≡ after_event (listening self.old) told.now }
        ensures cause { HasCause self.old.faults self.new.faults told.now }
    {
        match told {
            Ok(Event::Came(_)) => {
                self.late = self.late.saturating_add(u32::from(is_late));
                self.accepted = self.accepted.saturating_add(1);
                self.run = 0;
            }
            Ok(Event::Ready(_)) => {
                self.queue.stamp(self.rt);
                self.run = 0;
            }
            Ok(Event::Tick(_)) => {
                self.run = 0;
            }
            Ok(Event::Closed) => {
                self.closes = self.closes.saturating_add(1);
                self.run = 0;
            }
            Err(Failed) => {
                self.run = self.run.saturating_add(1);
                self.faults = self.faults.saturating_add(1);
            }
        }
    }
}

impl<R: rt::Clock> Listener for SocketListener<'_, R> {
    type P = SocketPeer;

    ghost state = { listening };

    ghost faults = { λ l. l.faults };

    fn next_event(&mut self) -> Result<Event<SocketPeer>, Failed> {
        let is_late = self.closing.is_closed();
        if self.closes > 0 || (is_late && self.late >= QUEUE_LENGTH) {
            self.queue.end_grace();
            self.closes = self.closes.saturating_add(1);
            self.run = 0;
            return Ok(Event::Closed);
        }
        let told = told_or_paused(self.rt, &self.queue, &self.closing);
        self.count(&told, is_late);
        told
    }

    fn watch(&self, peer: &SocketPeer, number: u64) -> bool {
        peer.leave(self.queue.stamp(self.rt));
        self.queue.watch(peer.stream(), number)
    }

    fn finish(&mut self, peer: SocketPeer) {
        self.finished = self.finished.saturating_add(1);
        peer.end(self.rt);
    }
}
