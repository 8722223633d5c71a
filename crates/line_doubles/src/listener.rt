//! A listener in memory.
ghost use Rattle.std.specs.Prelude.{◌≡◌, ◌<◌, [], Ok, Some, IsErr, IfOk, IfSome, OnErr};
ghost use Rattle.std.specs.Prelude.{true, false, vec_len, vec_capacity};
ghost use Rattle.line_base.specs.Accepts.{after_event, after_finish, new_listening};
ghost use Rattle.line_base.specs.Counts.{HasCause};
ghost use Rattle.line_doubles.specs.Memory.{FailsNext, TellsNext, called};
ghost use Rattle.line_base.specs.Nets.{is_clean};

use crate::plan::CallPlan;
use line_base::{Endpoint, Event, Failed, Listener, Mem, Peer};
use std::alloc::Global;
use std::marker::Model;
use std::snapshot::Snapshot;
use std::vec::IntoIter;

/// A listener that tells the events of a list, one a call, and is closed behind the last. It keeps
/// the peers that come back. It tells no number of a peer but those in its list, whatever it is
/// asked to watch.
///
/// Calls of `next_event` are counted from 0, as long as it is not closed.
pub struct MemListener<P: Peer + Drop> {
    endpoint: Option<Endpoint>,
    coming: IntoIter<Event<P>>,
    handed: Vec<Snapshot<P>>,
    returned: Vec<P>,
    room: usize,
    closes: u64,
    accepted: u64,
    finished: u64,
    run: u64,
    plan: CallPlan,
    faults: u64,
}

impl<P: Peer + Drop> Drop for MemListener<P> {
    fn drop(self) {
        let MemListener {
            endpoint: _,
            coming,
            handed,
            returned,
            room: _,
            closes: _,
            accepted: _,
            finished: _,
            run: _,
            plan,
            faults: _,
        } = self;
        drop(coming);
        drop(handed);
        drop(returned);
        drop(plan);
    }
}

impl<P: Peer + Drop> Model for MemListener<P> {
    ghost use Rattle.std.specs.Prelude.{◌+◌, ◌≤◌, Some, map, vec_len, vec_capacity};
    ghost use Rattle.std.specs.Vec.Iter.{into_iter_items};
    ghost use Rattle.line_doubles.specs.Memory.{Hosting};

    ghost Value = { Hosting P };

    ghost view = { λ l. record {
      state = record {
        endpoint = l.endpoint;
        visits = Some (record {
          handed = map (λ s. s.value) l.handed.items;
          returned = l.returned.items;
          room = l.room;
        });
        closes = l.closes;
        accepted = l.accepted;
        finished = l.finished;
        run = l.run;
      };
      coming = into_iter_items l.coming;
      plan = l.plan;
      faults = l.faults;
    } };

    // There is room for so many to come back.
    ghost invariant = { λ l. vec_len l.returned + l.room ≤ vec_capacity l.returned };
}

impl<P: Peer + Drop> MemListener<P> {
    /// A listener, made for this endpoint if there is one, which is to tell these events. The calls
    /// whose numbers are in `failing` fail. It keeps so many of the peers that come back.
    pub fn of(
        alloc: Global,
        endpoint: Option<Endpoint>,
        coming: Vec<Event<P>>,
        failing: Vec<u64>,
        room: usize,
    ) -> Mem<MemListener<P>>
        ensures state { IfOk result (λ l. l.state ≡ new_listening endpoint room) }
        ensures coming { IfOk result (λ l. l.coming ≡ coming.items) }
        ensures plan { IfOk result (λ l.
            l.plan ≡ record { sizes = []; failing = failing.items; calls = 0 }) }
        ensures faults { IfOk result (λ l. l.faults ≡ 0) }
    {
        let returned = Vec::with_capacity(alloc, room)?;
        Ok(MemListener {
            endpoint,
            coming: coming.into_iter(),
            handed: Vec::new(alloc),
            returned,
            room,
            closes: 0,
            accepted: 0,
            finished: 0,
            run: 0,
            plan: CallPlan::of(Vec::new(alloc), failing),
            faults: 0,
        })
    }

    /// The peers that came back, in order.
    pub fn returned(&self) -> &[P]
        ensures { IfSome self.now.state.visits (λ v. v.returned ≡ result.now) }
    {
        self.returned.as_slice()
    }

    /// How many waits failed since the last that did not.
    pub fn run(&self) -> u64
        ensures { result ≡ self.now.state.run }
    {
        self.run
    }

    /// How many waits failed.
    pub fn faults(&self) -> u64
        ensures { result ≡ self.now.faults }
    {
        self.faults
    }

    /// Whether it answered that it is closed.
    pub fn is_clean(&self) -> bool
        ensures { result ≡ is_clean self.now.state }
    {
        self.closes > 0
    }

    /// How many peers it handed out.
    pub fn accepted(&self) -> u64
        ensures { result ≡ self.now.state.accepted }
    {
        self.accepted
    }

    /// How many peers came back.
    pub fn finished(&self) -> u64
        ensures { result ≡ self.now.state.finished }
    {
        self.finished
    }
}

/// Counts a wait, and makes sure of room for what it puts down: whether it is answered. It is not
/// where it is listed to fail, nor where there is no memory.
fn may_answer<T>(plan: &mut CallPlan, handed: &mut Vec<T>) -> bool
    ensures plan { plan.new ≡ called plan.old }
    ensures same { handed.new.items ≡ handed.old.items }
    ensures fails { FailsNext plan.old → result ≡ false }
    ensures room { result ≡ true → vec_len handed.new < vec_capacity handed.new }
{
    plan.call().is_ok() && handed.reserve(1).is_ok()
}

impl<P: Peer + Drop> Listener for MemListener<P> {
    type P = P;

    ghost state = { λ l. l.state };

    ghost faults = { λ l. l.faults };

    /// Fails at the calls that are listed, and else only where there is no memory.
    fn next_event(&mut self) -> Result<Event<P>, Failed>
        ensures state { self.new.state ≡ after_event self.old.state result }
        ensures closed { 0 < self.old.state.closes → result ≡ Ok Event.Closed }
        ensures cause { HasCause self.old.faults self.new.faults result }
        ensures gives { self.old.state.closes ≡ 0
            → IfOk result (TellsNext self.old.coming self.new.coming) }
        ensures waits { OnErr result (self.new.coming ≡ self.old.coming) }
        ensures fails { self.old.state.closes ≡ 0 → FailsNext self.old.plan → IsErr result }
    {
        if self.closes > 0 {
            self.closes = self.closes.saturating_add(1);
            self.run = 0;
            return Ok(Event::Closed);
        }
        if !may_answer(&mut self.plan, &mut self.handed) {
            self.run = self.run.saturating_add(1);
            self.faults = self.faults.saturating_add(1);
            return Err(Failed);
        }
        self.run = 0;
        let Some(event) = self.coming.next() else {
            self.closes = self.closes.saturating_add(1);
            return Ok(Event::Closed);
        };
        match event {
            Event::Came(peer) => {
                self.handed.push_reserved(Snapshot::of(&peer));
                self.accepted = self.accepted.saturating_add(1);
                Ok(Event::Came(peer))
            }
            Event::Ready(number) => Ok(Event::Ready(number)),
            Event::Tick(count) => Ok(Event::Tick(count)),
            Event::Closed => {
                self.closes = self.closes.saturating_add(1);
                Ok(Event::Closed)
            }
        }
    }

    /// It can watch any.
    fn watch(&self, _peer: &P, _number: u64) -> bool {
        true
    }

    fn finish(&mut self, peer: P)
        ensures state { self.new.state ≡ after_finish self.old.state peer }
        ensures kept { self.new.faults ≡ self.old.faults }
        ensures stays { (self.new.coming ≡ self.old.coming) × (self.new.plan ≡ self.old.plan) }
    {
        self.finished = self.finished.saturating_add(1);
        if self.room > 0 {
            self.room -= 1;
            self.returned.push_reserved(peer);
        } else {
            drop(peer);
        }
    }
}
