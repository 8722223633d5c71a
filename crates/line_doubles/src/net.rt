//! A net in memory.
ghost use Rattle.std.specs.Prelude.{◌≡◌, ◌≤◌, ◌<◌, ◌↔◌, ℕ, [], length, None, Some, Err};
ghost use Rattle.std.specs.Prelude.{IsErr, IfOk, IfSome, slice_index_or};
ghost use Rattle.line_base.specs.Accepts.{new_listening};
ghost use Rattle.line_base.specs.Counts.{HasCause};
ghost use Rattle.line_doubles.specs.Memory.{FailsNext, called, upstream_of};
ghost use Rattle.line_base.specs.Nets.{AreNew, HasNetCause, after_end, after_listen, after_stopper};
ghost use Rattle.line_base.specs.Nets.{log_of};

use crate::dialer::MemDialer;
use crate::listener::MemListener;
use crate::plan::CallPlan;
use crate::stop::MemStop;
use line_base::{
    BROKEN_RUN, ConnectionPool, Endpoint, Event, Failed, Listeners, Net, NetFault, Peer,
    count_clean,
};
use std::alloc::Global;
use std::marker::Model;

/// What is to come to one listener: its events, and the numbers of its waits that fail.
#[derive(Drop)]
pub struct MemVisits<P> {
    pub events: Vec<Event<P>>,
    pub failing: Vec<u64>,
}

/// What is to come to an address, for each of its listeners by its place.
pub struct MemAddress<P> {
    pub ip: u32,
    pub port: u16,
    pub visits: Vec<MemVisits<P>>,
}

impl<P: Drop> Drop for MemAddress<P> {
    fn drop(self) {
        let MemAddress {
            ip: _,
            port: _,
            visits,
        } = self;
        drop(visits);
    }
}

/// What a dialer's other ends give, as [`MemDialer::of`] takes it.
#[derive(Drop)]
pub struct MemDials {
    pub replies: Vec<Vec<u8>>,
    pub sizes: Vec<usize>,
    pub failing: Vec<u64>,
}

/// What came back to a net together. Contracts see what a net tells of it.
pub struct MemEnded<P: Peer + Drop> {
    listener: MemListener<P>,
    dialer: Option<MemDialer>,
    stop: MemStop,
}

impl<P: Peer + Drop> Drop for MemEnded<P> {
    fn drop(self) {
        let MemEnded {
            listener,
            dialer,
            stop,
        } = self;
        drop(listener);
        drop(dialer);
        drop(stop);
    }
}

impl<P: Peer + Drop> Model for MemEnded<P> {
    ghost use Rattle.std.specs.Prelude.{Some};
    ghost use Rattle.line_doubles.specs.Memory.{upstream_of};
    ghost use Rattle.line_base.specs.Nets.{Ended, log_of};

    ghost Value = { Ended P };

    ghost view = { λ e. record {
      listener = e.listener.state;
      log = log_of upstream_of e.dialer;
      stops = e.stop;
    } };
}

impl<P: Peer + Drop> MemEnded<P> {
    /// The listener.
    pub fn listener(&self) -> &MemListener<P>
        ensures { result.now.state ≡ self.now.listener }
    {
        &self.listener
    }

    /// The dialer, if there was one.
    pub fn dialer(&self) -> Option<&MemDialer>
        ensures { self.now.log ≡ log_of (λ d. upstream_of d.now) result }
    {
        self.dialer.as_ref()
    }

    /// The stop.
    pub fn stop(&self) -> &MemStop
        ensures { result.now ≡ self.now.stops }
    {
        &self.stop
    }
}

/// A net of listeners, dialers and stops in memory, which keeps what comes back.
///
/// Its calls of `listen` are counted from 0.
pub struct MemNet<P: Peer + Drop> {
    addresses: Vec<MemAddress<P>>,
    dials: Vec<MemDials>,
    ended: Vec<MemEnded<P>>,
    room: usize,
    clean: u64,
    accepted: u64,
    finished: u64,
    stops_given: u64,
    stops_returned: u64,
    plan: CallPlan,
    faults: u64,
}

impl<P: Peer + Drop> Drop for MemNet<P> {
    fn drop(self) {
        let MemNet {
            addresses,
            dials,
            ended,
            room: _,
            clean: _,
            accepted: _,
            finished: _,
            stops_given: _,
            stops_returned: _,
            plan,
            faults: _,
        } = self;
        drop(addresses);
        drop(dials);
        drop(ended);
        drop(plan);
    }
}

impl<P: Peer + Drop> Model for MemNet<P> {
    ghost use Rattle.std.specs.Prelude.{◌+◌, ◌≤◌, Some, vec_len, vec_capacity};
    ghost use Rattle.line_doubles.specs.Memory.{Linking};

    ghost Value = { Linking P };

    ghost view = { λ n. record {
      state = record {
        told = Some (record { ended = n.ended.items; room = n.room });
        clean = n.clean;
        accepted = n.accepted;
        finished = n.finished;
        stops_given = n.stops_given;
        stops_returned = n.stops_returned;
      };
      plan = n.plan;
      faults = n.faults;
    } };

    // Each listener that is out has room to come back.
    ghost invariant = { λ n. vec_len n.ended + n.room ≤ vec_capacity n.ended };
}

impl<P: Peer + Drop> MemNet<P> {
    /// A net with these events to come to each address, and these dials to be answered for each
    /// dialer, in order; past them, none.
    ///
    /// Listeners of an address get its visits by their places, also those of a later call, which go
    /// on behind them. The calls of `listen` whose numbers are in `failing` fail.
    pub fn of(
        alloc: Global,
        addresses: Vec<MemAddress<P>>,
        dials: Vec<MemDials>,
        failing: Vec<u64>,
    ) -> MemNet<P>
        ensures state { result.state ≡ record {
          told = Some (record { ended = []; room = 0 });
          clean = 0;
          accepted = 0;
          finished = 0;
          stops_given = 0;
          stops_returned = 0;
        } }
        ensures plan { result.plan ≡ record { sizes = []; failing = failing.items; calls = 0 } }
        ensures faults { result.faults ≡ 0 }
    {
        MemNet {
            addresses,
            dials,
            ended: Vec::new(alloc),
            room: 0,
            clean: 0,
            accepted: 0,
            finished: 0,
            stops_given: 0,
            stops_returned: 0,
            plan: CallPlan::of(Vec::new(alloc), failing),
            faults: 0,
        }
    }

    /// Keeps what came back, where there is room, and counts it.
    fn keep(&mut self, ended: MemEnded<P>)
        ensures state { self.new.state ≡ after_end self.old.state ended }
        ensures rest { (self.new.plan ≡ self.old.plan) × (self.new.faults ≡ self.old.faults) }
    {
        self.clean = count_clean(self.clean, ended.listener.is_clean());
        self.accepted = self.accepted.saturating_add(ended.listener.accepted());
        self.finished = self.finished.saturating_add(ended.listener.finished());
        self.stops_returned = self.stops_returned.saturating_add(1);
        if self.room > 0 {
            self.room -= 1;
            self.ended.push_reserved(ended);
        } else {
            drop(ended);
        }
    }

    /// What came back, in order.
    pub fn ended(&self) -> &[MemEnded<P>]
        ensures { IfSome self.now.state.told (λ r. r.ended ≡ result.now) }
    {
        self.ended.as_slice()
    }

    /// How many listeners came back clean.
    pub fn clean(&self) -> u64
        ensures { result ≡ self.now.state.clean }
    {
        self.clean
    }

    /// How many peers the listeners that came back had handed out, and how many came back to them.
    pub fn peers(&self) -> (u64, u64)
        ensures { result ≡ (self.now.state.accepted, self.now.state.finished) }
    {
        (self.accepted, self.finished)
    }

    /// How many stops were handed out, and how many came back.
    pub fn stops(&self) -> (u64, u64)
        ensures { result ≡ (self.now.state.stops_given, self.now.state.stops_returned) }
    {
        (self.stops_given, self.stops_returned)
    }

    /// How many calls failed.
    pub fn faults(&self) -> u64
        ensures { result ≡ self.now.faults }
    {
        self.faults
    }
}

/// What is to come to the next listener of an address, and nothing past the last.
fn next_visits<P>(
    alloc: Global,
    addresses: &mut Vec<MemAddress<P>>,
    ip: u32,
    port: u16,
) -> MemVisits<P> {
    for address in addresses.iter_mut() {
        if address.ip == ip && address.port == port && !address.visits.is_empty() {
            return address.visits.remove(0);
        }
    }
    MemVisits {
        events: Vec::new(alloc),
        failing: Vec::new(alloc),
    }
}

/// How many events are to come to the listeners of an address.
fn events_to_come<P>(addresses: &[MemAddress<P>], ip: u32, port: u16) -> usize {
    let mut count = 0usize;
    for address in addresses {
        if address.ip == ip && address.port == port {
            for visits in &address.visits {
                count = count.saturating_add(visits.events.len());
            }
        }
    }
    count
}

/// What the other ends of the next dialer give, and nothing past the last.
fn next_dials(alloc: Global, dials: &mut Vec<MemDials>) -> MemDials {
    if dials.is_empty() {
        return MemDials {
            replies: Vec::new(alloc),
            sizes: Vec::new(alloc),
            failing: Vec::new(alloc),
        };
    }
    dials.remove(0)
}

/// Listeners for an address, each with what is to come to it, and room for so many peers to come
/// back.
fn listeners_at<P: Peer + Drop>(
    alloc: Global,
    addresses: &mut Vec<MemAddress<P>>,
    ip: u32,
    port: u16,
    copies: u32,
    room: usize,
) -> Result<Vec<MemListener<P>>, NetFault>
    ensures count { IfOk result (λ ls. length ls.items ≡ copies) }
    ensures new { IfOk result (λ ls. (at : ℕ) (d : _) → at < length ls.items
        → (slice_index_or ls.items at d).state
        ≡ new_listening (Some (record { ip = ip; port = port; place = at })) room) }
    ensures only { result ≡ Err NetFault.Failed → ⊥ }
{
    let mut listeners = Vec::new(alloc);
    for place in 0..copies {
        let MemVisits { events, failing } = next_visits(alloc, addresses, ip, port);
        let endpoint = Endpoint { ip, port, place };
        let Ok(listener) = MemListener::of(alloc, Some(endpoint), events, failing, room) else {
            return Err(NetFault::OutOfMemory);
        };
        let Ok(()) = listeners.push(listener) else {
            return Err(NetFault::OutOfMemory);
        };
    }
    Ok(listeners)
}

impl<P: Peer + Drop + Send> Net for MemNet<P> {
    type L = MemListener<P>;

    type D = MemDialer;

    type S = MemStop;

    ghost state = { λ n. n.state };

    ghost faults = { λ n. n.faults };

    /// Fails exactly at the calls that are listed.
    fn listen(
        &mut self,
        ip: u32,
        port: u16,
        copies: u32,
        _kept: u32,
    ) -> Result<Listeners<MemListener<P>>, NetFault>
        ensures count { IfOk result (λ ls. length ls ≡ copies) }
        ensures new { IfOk result (AreNew (λ l. l.state) self.old.state.told ip port) }
        ensures state { self.new.state ≡ after_listen self.old.state copies result }
        ensures cause { HasNetCause self.old.faults self.new.faults result }
        ensures plan { self.new.plan ≡ called self.old.plan }
        ensures fails { (result ≡ Err NetFault.Failed) ↔ FailsNext self.old.plan }
    {
        if self.plan.call().is_err() {
            self.faults = self.faults.saturating_add(1);
            return Err(NetFault::Failed);
        }
        let Some(room) = self.room.checked_add(copies as usize) else {
            return Err(NetFault::OutOfMemory);
        };
        if self.ended.reserve(room).is_err() {
            return Err(NetFault::OutOfMemory);
        }
        let alloc = *self.ended.allocator();
        let to_come = events_to_come(self.addresses.as_slice(), ip, port);
        let made = listeners_at(alloc, &mut self.addresses, ip, port, copies, to_come);
        let Ok(listeners) = made else {
            return Err(NetFault::OutOfMemory);
        };
        self.room = room;
        Ok(Listeners::of(listeners))
    }

    /// As many as are asked for.
    fn waiting_room(&mut self, most: u32) -> u32
        ensures all { result ≡ most }
        ensures kept { (self.new.state ≡ self.old.state) × (self.new.faults ≡ self.old.faults)
            × (self.new.plan ≡ self.old.plan) }
    {
        most
    }

    /// The dialer keeps as many connections as are put aside, for any time, where the pool has room
    /// for one.
    fn dialer(&mut self, pool: ConnectionPool) -> MemDialer
        ensures closed { (result.log ≡ []) × (result.open_to ≡ None) }
        ensures none_kept { (upstream_of result).kept ≡ [] }
        ensures pool { result.pool ≡ pool }
        ensures kept { (self.new.state ≡ self.old.state) × (self.new.faults ≡ self.old.faults)
            × (self.new.plan ≡ self.old.plan) }
    {
        let alloc = *self.ended.allocator();
        let MemDials {
            replies,
            sizes,
            failing,
        } = next_dials(alloc, &mut self.dials);
        let dialer = MemDialer::of(alloc, replies, sizes, failing);
        dialer.keeping(pool, Vec::new(alloc))
    }

    fn stopper(&mut self) -> MemStop
        ensures calls { result ≡ 0 }
        ensures state { self.new.state ≡ after_stopper self.old.state }
        ensures kept { (self.new.faults ≡ self.old.faults) × (self.new.plan ≡ self.old.plan) }
    {
        self.stops_given = self.stops_given.saturating_add(1);
        MemStop::new()
    }

    fn end(
        &mut self,
        listener: MemListener<P>,
        dialer: Option<MemDialer>,
        stop: MemStop,
    ) -> Result<(), Failed>
        ensures state { self.new.state ≡ after_end self.old.state (record {
          listener = listener.state;
          log = log_of upstream_of dialer;
          stops = stop;
        }) }
        ensures broken { IsErr result ↔ (BROKEN_RUN ≤ listener.state.run) }
        ensures cause { HasCause self.old.faults self.new.faults result }
        ensures plan { self.new.plan ≡ self.old.plan }
    {
        let is_broken = listener.run() >= BROKEN_RUN;
        self.keep(MemEnded {
            listener,
            dialer,
            stop,
        });
        if is_broken {
            self.faults = self.faults.saturating_add(1);
            return Err(Failed);
        }
        Ok(())
    }
}
