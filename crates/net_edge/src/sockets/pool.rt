//! The connections that a dialer keeps.
ghost use Rattle.std.specs.Prelude.{◌≡◌, ◌≤◌, ◌<◌, ◌+◌, [], length, nat_lt, IfSome, IfNone, Some};
ghost use Rattle.std.specs.Prelude.{true};
ghost use Rattle.line_base.specs.Dials.{AreSomeOf, PutsAside, TakesOut, WasTaken};
ghost use Rattle.net_edge.specs.Pools.{addresses};

use super::dial_socket::DialSocket;
use super::idle::IdleUpstream;
use super::upstream::Upstream;
use line_base::ConnectionPool;
use std::alloc::Global;
use std::rt::Clock;
use std::time::Instant;

/// The connections that a dialer keeps, by the time at which they were put aside, the earliest
/// first. It has at most one to an address, and no more than its limit.
#[derive(Drop)]
pub(crate) struct Pool {
    pub(crate) limits: ConnectionPool,
    pub(crate) kept: Vec<IdleUpstream>,
    ghost few: { length kept.items ≤ limits.max_size },
}

impl Pool {
    /// No connections so far.
    pub(crate) fn of(alloc: Global, limits: ConnectionPool) -> Pool
        ensures { (result.kept.items ≡ []) × (result.limits ≡ limits) }
    {
        Pool {
            limits,
            kept: Vec::new(alloc),
        }
    }

    /// Whether it has room for any.
    pub(crate) fn keeps(&self) -> bool
        ensures { result ≡ nat_lt 0 self.now.limits.max_size }
    {
        self.limits.max_size > 0
    }

    /// Takes out the connection that leads there, if it was not put aside too long ago.
    pub(crate) fn take<R: Clock>(&mut self, rt: &R, ip: u32, port: u16) -> Option<Upstream>
        ensures there { IfSome result (λ u. (u.ip ≡ ip) × (u.port ≡ port)) }
        ensures taken { IfSome result (λ _. TakesOut true (ip, port)
            (addresses self.old.kept.items) (addresses self.new.kept.items)) }
        ensures others { AreSomeOf (addresses self.new.kept.items)
            (addresses self.old.kept.items) }
        ensures limits { self.new.limits ≡ self.old.limits }
    {
        end_idle(&mut self.kept, rt, self.limits.idle_ms);
        match take_out(&mut self.kept, ip, port) {
            Some(idle) => Some(idle.upstream),
            None => None,
        }
    }

    /// Ends those that were put aside too long ago.
    pub(crate) fn end_idle<R: Clock>(&mut self, rt: &R)
        ensures others { AreSomeOf (addresses self.new.kept.items)
            (addresses self.old.kept.items) }
        ensures limits { self.new.limits ≡ self.old.limits }
    {
        end_idle(&mut self.kept, rt, self.limits.idle_ms);
    }

    /// Puts a connection aside, and ends the earlier one to its address, or else the earliest where
    /// there is no room. It gives the socket of one that it ended.
    pub(crate) fn put<R: Clock>(&mut self, rt: &R, upstream: Upstream) -> Option<DialSocket>
        requires { 0 < self.old.limits.max_size }
        ensures put { PutsAside (Some (upstream.ip, upstream.port))
            (addresses self.old.kept.items) (addresses self.new.kept.items) }
        ensures limits { self.new.limits ≡ self.old.limits }
    {
        end_idle(&mut self.kept, rt, self.limits.idle_ms);
        let ended = make_room(
            &mut self.kept,
            upstream.ip,
            upstream.port,
            self.limits.max_size,
        );
        put_last(&mut self.kept, rt, upstream);
        ended
    }
}

/// Puts a connection aside, behind the others. It is ended where the time can't be told, or where
/// there is no memory.
fn put_last<R: Clock>(kept: &mut Vec<IdleUpstream>, rt: &R, upstream: Upstream)
    ensures put { PutsAside (Some (upstream.ip, upstream.port)) (addresses kept.old.items)
        (addresses kept.new.items) }
    ensures one { length kept.new.items ≤ length kept.old.items + 1 }
{
    match Instant::now(rt) {
        Ok(since) => {
            let _ = kept.push(IdleUpstream { upstream, since });
        }
        Err(_) => drop(upstream),
    }
}

/// Ends the connection that leads there, or else the earliest where there is no room for one more.
/// It gives the socket of the one that it ended.
fn make_room(kept: &mut Vec<IdleUpstream>, ip: u32, port: u16, max_size: u32) -> Option<DialSocket>
    requires some { 0 < max_size }
    requires few { length kept.old.items ≤ max_size }
    ensures others { AreSomeOf (addresses kept.new.items) (addresses kept.old.items) }
    ensures room { length kept.new.items < max_size }
{
    match take_out(kept, ip, port) {
        Some(idle) => idle.upstream.hang(),
        None if kept.len() >= max_size as usize => end_first(kept),
        None => None,
    }
}

/// Ends the earliest, if there is one, and gives its socket.
fn end_first(kept: &mut Vec<IdleUpstream>) -> Option<DialSocket>
    ensures others { AreSomeOf (addresses kept.new.items) (addresses kept.old.items) }
    ensures fewer { 0 < length kept.old.items → length kept.new.items < length kept.old.items }
{
    if kept.is_empty() {
        return None;
    }
    let first = kept.remove(0);
    first.upstream.hang()
}

/// Ends those that were put aside more than so many milliseconds ago. They stand first.
fn end_idle<R: Clock>(kept: &mut Vec<IdleUpstream>, rt: &R, idle_ms: u32)
    ensures { AreSomeOf (addresses kept.new.items) (addresses kept.old.items) }
{
    'earliest: for _ in 0..kept.len() {
        match kept.first() {
            Some(first) if first.is_idle(rt, idle_ms) => {}
            _ => return,
        }
        drop(end_first(kept));
    }
}

/// Takes the connection out of these that leads there.
fn take_out(kept: &mut Vec<IdleUpstream>, ip: u32, port: u16) -> Option<IdleUpstream>
    ensures taken { IfSome result (λ idle. WasTaken idle kept.old.items kept.new.items) }
    ensures there { IfSome result (λ idle. (idle.upstream.ip ≡ ip)
        × (idle.upstream.port ≡ port)) }
    ensures none { IfNone result (kept.new.items ≡ kept.old.items) }
    ensures fewer { length kept.new.items ≤ length kept.old.items }
{
    for place in 0..kept.len() {
        if kept[place].is_to(ip, port) {
            return Some(kept.remove(place));
        }
    }
    None
}
