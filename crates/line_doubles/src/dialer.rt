//! A dialer in memory.
ghost use Rattle.std.specs.Prelude.{◌≡◌, ◌≤◌, ◌<◌, ◌+◌, ◌++◌, ◌∷◌, ◌==◌, true, false, [], length};
ghost use Rattle.std.specs.Prelude.{map, min, None, IsSome, IsTrue, Some, IsErr, IfOk};
ghost use Rattle.std.specs.Prelude.{IfSome};
ghost use Rattle.std.specs.Prelude.{IfNone, OnOk, OnErr, vec_len, vec_capacity, drop};
ghost use Rattle.std.specs.Vec.Iter.{into_iter_items};
ghost use Rattle.std.specs.Io.{ReadsAtMost, WritesAtMost};
ghost use Rattle.std.specs.Io.KnownBytes.{Keeps, ReadConsumes};
ghost use Rattle.line_base.specs.Counts.{HasCause, MovesNothing};
ghost use Rattle.line_base.specs.Dials.{AreSomeOf, HasSameLinks, KeepsLog, Logs, LogsDial};
ghost use Rattle.line_base.specs.Dials.{LogsHang, LogsReceive, LogsResume, LogsSend, PutsAside};
ghost use Rattle.line_base.specs.Dials.{TakesOut, WasTaken, dialed_to, has_room, resumed_to};
ghost use Rattle.line_doubles.specs.Memory.{Answered, FailsNext, address_of, behind_call, called};
ghost use Rattle.line_doubles.specs.Memory.{next_reply, piece_of, upstream_of};
ghost use Rattle.line_base.specs.declared.dialer.DialEvent.TheVariants.{Kept};

use crate::link::MemLink;
use crate::plan::CallPlan;
use crate::unread::Unread;
use line_base::{ConnectionPool, DialEvent, Dialer, Failed, Piece};
use std::alloc::Global;
use std::marker::Model;
use std::vec::IntoIter;

/// A dialer whose connections are answered from a list, and that keeps a log.
///
/// Calls are counted from 0 over its whole life: each dial, each resume, each send of some bytes
/// and each receive into some room is one; a hang, a keep, a send of nothing and a receive into no
/// room are none.
///
/// One that [keeps](MemDialer::keeping) keeps each connection that is put aside until that is
/// resumed. A kept one is unfit where bytes are left of what its other end gave, and where the
/// resume is one of the calls that are listed to fail: so an end or a reset of it is played, at
/// which the resume is no fault but finds nothing.
pub struct MemDialer {
    log: Vec<DialEvent>,
    open_to: Option<(u32, u16)>,
    unread: Unread,
    kept: Vec<MemLink>,
    pool: ConnectionPool,
    replies: IntoIter<Vec<u8>>,
    plan: CallPlan,
    waiting: Vec<u64>,
    late: bool,
    faults: u64,
}

impl Drop for MemDialer {
    fn drop(self) {
        let MemDialer {
            log,
            open_to: _,
            unread,
            kept,
            pool: _,
            replies,
            plan,
            waiting,
            late: _,
            faults: _,
        } = self;
        drop(log);
        drop(unread);
        drop(kept);
        drop(replies);
        drop(plan);
        drop(waiting);
    }
}

impl Model for MemDialer {
    ghost use Rattle.std.specs.Prelude.{◌<◌, map, vec_len, vec_capacity, IsSome};
    ghost use Rattle.std.specs.Vec.Iter.{into_iter_items};
    ghost use Rattle.line_doubles.specs.Memory.{Dialing};

    ghost Value = { Dialing };

    ghost view = { λ d. record {
      log = d.log.items;
      open_to = d.open_to;
      left = d.unread;
      kept = d.kept.items;
      pool = d.pool;
      replies = map (λ r. r.items) (into_iter_items d.replies);
      plan = d.plan;
      waiting = d.waiting.items;
      late = d.late;
      faults = d.faults;
    } };

    // A hang and a keep have room for their event, and a keep for its connection.
    ghost invariant = { λ d. (IsSome d.open_to → vec_len d.log < vec_capacity d.log)
        × (IsSome d.open_to → vec_len d.kept < vec_capacity d.kept) };
}

/// Takes the first connection that leads there out of these.
fn take_out(kept: &mut Vec<MemLink>, ip: u32, port: u16) -> Option<MemLink>
    ensures taken { IfSome result (λ link. WasTaken link kept.old.items kept.new.items) }
    ensures there { IfSome result (λ link. (link.ip ≡ ip) × (link.port ≡ port)) }
    ensures none { IfNone result (kept.new.items ≡ kept.old.items) }
{
    for place in 0..kept.len() {
        if kept[place].is_to(ip, port) {
            return Some(kept.remove(place));
        }
    }
    None
}

/// Takes the first connection that leads there out of these, and says whether it may be resumed: it
/// is quiet, and `may` says so too. Then there is room for it to come back.
fn take_fit(kept: &mut Vec<MemLink>, ip: u32, port: u16, may: bool) -> bool
    ensures fit { result ≡ true → TakesOut true (ip, port) (map address_of kept.old.items)
        (map address_of kept.new.items) }
    ensures unfit { result ≡ false
        → AreSomeOf (map address_of kept.new.items) (map address_of kept.old.items) }
    ensures quiet { result ≡ true → WasTaken (record { ip = ip; port = port; is_quiet = true })
        kept.old.items kept.new.items }
    ensures may { result ≡ true → may ≡ true }
    ensures room { result ≡ true → vec_len kept.new < vec_capacity kept.new }
{
    let link = match take_out(kept, ip, port) {
        Some(link) => link,
        None => return false,
    };
    if may && link.is_quiet {
        return kept.reserve(1).is_ok();
    }
    false
}

impl MemDialer {
    /// A dialer with no connection yet. The dials that are answered get these replies, and so do
    /// the resumes, in order, and empty ones past the last.
    ///
    /// Call number `n`, if it is a send or a receive, moves at most `sizes[n]` bytes, at least one
    /// where there is one, and as many as it can past the last size. The calls whose numbers are in
    /// `failing` fail.
    pub fn of(
        alloc: Global,
        replies: Vec<Vec<u8>>,
        sizes: Vec<usize>,
        failing: Vec<u64>,
    ) -> MemDialer
        ensures log { (result.log ≡ []) × (result.open_to ≡ None) }
        ensures kept { (result.kept ≡ [])
            × (result.pool ≡ record { max_size = 0; idle_ms = 0 }) }
        ensures replies { result.replies ≡ map (λ r. r.items) replies.items }
        ensures plan { result.plan
            ≡ record { sizes = sizes.items; failing = failing.items; calls = 0 } }
        ensures waiting { (result.waiting ≡ []) × (result.late ≡ false) }
        ensures faults { result.faults ≡ 0 }
    {
        MemDialer {
            log: Vec::new(alloc),
            open_to: None,
            unread: Unread::of(Vec::new(alloc)),
            kept: Vec::new(alloc),
            pool: ConnectionPool::NONE,
            replies: replies.into_iter(),
            plan: CallPlan::of(sizes, failing),
            waiting: Vec::new(alloc),
            late: false,
            faults: 0,
        }
    }

    /// The same dialer, which keeps connections where the pool has room for one: as many as are put
    /// aside, for any time. Of its sends and receives that fail, those whose numbers are in
    /// `waiting` do so because they waited for too long.
    pub fn keeping(self, pool: ConnectionPool, waiting: Vec<u64>) -> MemDialer
        ensures pool { (result.pool ≡ pool) × (result.waiting ≡ waiting.items) }
        ensures same { (result.log ≡ self.log) × (result.open_to ≡ self.open_to)
            × (result.left ≡ self.left) × (result.kept ≡ self.kept)
            × (result.replies ≡ self.replies) × (result.plan ≡ self.plan)
            × (result.late ≡ self.late) × (result.faults ≡ self.faults) }
    {
        let mut dialer = self;
        dialer.pool = pool;
        dialer.waiting = waiting;
        dialer
    }

    /// What it did.
    pub fn log(&self) -> &[DialEvent]
        ensures { result.now ≡ self.now.log }
    {
        self.log.as_slice()
    }

    /// The address and the port that the open connection leads to, if one is open.
    pub fn open_to(&self) -> Option<(u32, u16)>
        ensures { result ≡ self.now.open_to }
    {
        self.open_to
    }

    /// How many calls failed.
    pub fn faults(&self) -> u64
        ensures { result ≡ self.now.faults }
    {
        self.faults
    }
}

/// A copy of some bytes, and room in the log for it and for a hang.
fn copy_for(log: &mut Vec<DialEvent>, bytes: &[u8]) -> Result<Piece, Failed>
    ensures kept { log.new.items ≡ log.old.items }
    ensures room { OnOk result (vec_len log.new + 2 ≤ vec_capacity log.new) }
    ensures capacity { (vec_len log.new ≡ vec_len log.old)
        × (vec_capacity log.old ≤ vec_capacity log.new) }
    ensures copy { IfOk result (λ piece. piece ≡ bytes.now) }
{
    match Vec::from_slice(*log.allocator(), bytes) {
        Ok(copy) if log.reserve(2).is_ok() => Ok(Piece::of(copy)),
        _ => Err(Failed),
    }
}

/// Counts a dial, and makes sure of room for what it puts down: whether it is answered. It is not
/// where it is listed to fail, nor where there is no memory.
fn may_dial(plan: &mut CallPlan, log: &mut Vec<DialEvent>, kept: &mut Vec<MemLink>) -> bool
    ensures plan { plan.new ≡ called plan.old }
    ensures same { (log.new.items ≡ log.old.items) × (kept.new.items ≡ kept.old.items) }
    ensures fails { FailsNext plan.old → result ≡ false }
    ensures room { result ≡ true → (vec_len log.new + 2 ≤ vec_capacity log.new)
        × (vec_len kept.new < vec_capacity kept.new) }
{
    plan.call().is_ok() && log.reserve(2).is_ok() && kept.reserve(1).is_ok()
}

/// The reply to the next dial or resume, which is empty past the last.
fn take_reply(replies: &mut IntoIter<Vec<u8>>, alloc: Global) -> Vec<u8>
    ensures reply { result.items ≡ next_reply (map (λ r. r.items) (into_iter_items replies.old)) }
    ensures rest { map (λ r. r.items) (into_iter_items replies.new)
        ≡ drop 1 (map (λ r. r.items) (into_iter_items replies.old)) }
{
    match replies.next() {
        Some(reply) => reply,
        None => Vec::new(alloc),
    }
}

impl Dialer for MemDialer {
    ghost upstream = { upstream_of };

    fn keeps(&self) -> bool {
        self.pool.max_size > 0
    }

    fn is_late(&self) -> bool {
        self.late
    }

    /// Fails at the calls that are listed, and where there is no memory for the log.
    fn dial(&mut self, ip: u32, port: u16) -> Result<(), Failed>
        ensures opens { self.new.open_to ≡ dialed_to result (ip, port) }
        ensures log { LogsDial (Some self.old.log) (Some self.new.log) ip port result }
        ensures cause { HasCause self.old.faults self.new.faults result }
        ensures others { (self.new.kept ≡ self.old.kept) × (self.new.pool ≡ self.old.pool) }
        ensures plan { self.new.plan ≡ called self.old.plan }
        ensures fails { FailsNext self.old.plan → IsErr result }
        ensures answered { OnOk result (Answered self.old self.new) }
        ensures unanswered { OnErr result (self.new.replies ≡ self.old.replies) }
    {
        if !may_dial(&mut self.plan, &mut self.log, &mut self.kept) {
            self.open_to = None;
            self.faults = self.faults.saturating_add(1);
            return Err(Failed);
        }
        self.log.push_reserved(DialEvent::Dialed(ip, port));
        let alloc = *self.log.allocator();
        self.unread = Unread::of(take_reply(&mut self.replies, alloc));
        self.open_to = Some((ip, port));
        Ok(())
    }

    /// Finds none at the calls that are listed, and where there is no memory for the log.
    fn resume(&mut self, ip: u32, port: u16) -> bool
        ensures opens { self.new.open_to ≡ resumed_to result (ip, port) }
        ensures log { LogsResume (Some self.old.log) (Some self.new.log) ip port result }
        ensures faults { self.new.faults ≡ self.old.faults }
        ensures others { TakesOut result (ip, port) (upstream_of self.old).kept
            (upstream_of self.new).kept }
        ensures pool { self.new.pool ≡ self.old.pool }
        ensures quiet { result ≡ true → WasTaken (record { ip = ip; port = port; is_quiet = true })
            self.old.kept self.new.kept }
        ensures plan { self.new.plan ≡ called self.old.plan }
        ensures fails { FailsNext self.old.plan → result ≡ false }
        ensures answered { result ≡ true → Answered self.old self.new }
        ensures unanswered { result ≡ false → self.new.replies ≡ self.old.replies }
    {
        self.open_to = None;
        let due = self.plan.call().is_ok();
        let has_room = self.log.reserve(2).is_ok();
        if !take_fit(&mut self.kept, ip, port, due && has_room) {
            return false;
        }
        self.log.push_reserved(DialEvent::Resumed(ip, port));
        let alloc = *self.log.allocator();
        self.unread = Unread::of(take_reply(&mut self.replies, alloc));
        self.open_to = Some((ip, port));
        true
    }

    /// Fails at the calls that are listed, and where there is no memory for the log.
    fn send(&mut self, bytes: &[u8]) -> Result<usize, Failed>
        requires { IsSome self.old.open_to }
        ensures bound { WritesAtMost result bytes.now }
        ensures moves { IfOk result (λ n. 0 < length bytes.now → 0 < n) }
        ensures log { LogsSend (Some self.old.log) (Some self.new.log) result bytes.now }
        ensures stays { HasSameLinks (upstream_of self.old) (upstream_of self.new)
            × (self.new.left ≡ self.old.left) × (self.new.replies ≡ self.old.replies) }
        ensures cause { HasCause self.old.faults self.new.faults result }
        ensures prompt { OnOk result (self.new.late ≡ false) }
        ensures nothing { MovesNothing self.old.faults self.new.faults result (length bytes.now) }
        ensures plan { self.new.plan ≡ behind_call (length bytes.now) self.old.plan }
        ensures fails { 0 < length bytes.now → FailsNext self.old.plan → IsErr result }
        ensures size { IfOk result (λ n. n ≡ min (length bytes.now) (piece_of self.old.plan)) }
    {
        self.late = false;
        if bytes.is_empty() {
            return Ok(0);
        }
        let call = self.plan.next();
        let Ok(size) = self.plan.call() else {
            self.late = self.waiting.contains(&call);
            self.faults = self.faults.saturating_add(1);
            return Err(Failed);
        };
        let count = bytes.len().min(size);
        let Ok(sent) = copy_for(&mut self.log, &bytes[..count]) else {
            self.faults = self.faults.saturating_add(1);
            return Err(Failed);
        };
        self.log.push_reserved(DialEvent::Sent(sent));
        Ok(count)
    }

    /// Fails at the calls that are listed, and where there is no memory for the log.
    fn recv(&mut self, into: &mut [u8]) -> Result<usize, Failed>
        requires { IsSome self.old.open_to }
        ensures bound { ReadsAtMost result into.new }
        ensures bytes { ReadConsumes (Some self.old.left) (Some self.new.left) result into.new }
        ensures log { LogsReceive (Some self.old.log) (Some self.new.log) result into.new }
        ensures stays { HasSameLinks (upstream_of self.old) (upstream_of self.new)
            × (self.new.replies ≡ self.old.replies) }
        ensures cause { HasCause self.old.faults self.new.faults result }
        ensures prompt { OnOk result (self.new.late ≡ false) }
        ensures nothing { MovesNothing self.old.faults self.new.faults result (length into.new) }
        ensures plan { self.new.plan ≡ behind_call (length into.new) self.old.plan }
        ensures fails { 0 < length into.new → FailsNext self.old.plan → IsErr result }
        ensures size { IfOk result
            (λ n. n ≡ min (min (length into.new) (piece_of self.old.plan)) (length self.old.left)) }
    {
        self.late = false;
        if into.is_empty() {
            return Ok(0);
        }
        let call = self.plan.next();
        let Ok(size) = self.plan.call() else {
            self.late = self.waiting.contains(&call);
            self.faults = self.faults.saturating_add(1);
            return Err(Failed);
        };
        let left = self.unread.left();
        let count = into.len().min(size).min(left.len());
        let Ok(got) = copy_for(&mut self.log, &left[..count]) else {
            self.faults = self.faults.saturating_add(1);
            return Err(Failed);
        };
        let count = self.unread.give(into, size);
        self.log.push_reserved(DialEvent::Got(got));
        Ok(count)
    }

    fn hang(&mut self)
        ensures closes { self.new.open_to ≡ None }
        ensures log { LogsHang self.old.open_to (Some self.old.log) (Some self.new.log) }
        ensures stays { (self.new.left ≡ self.old.left) × (self.new.replies ≡ self.old.replies)
            × (self.new.plan ≡ self.old.plan) }
        ensures kept { self.new.faults ≡ self.old.faults }
        ensures others { (self.new.kept ≡ self.old.kept) × (self.new.pool ≡ self.old.pool)
            × (self.new.late ≡ self.old.late) }
    {
        if self.open_to.is_some() {
            self.log.push_reserved(DialEvent::Hung);
            self.open_to = None;
        }
    }

    fn keep(&mut self)
        requires open_ { IsSome self.old.open_to }
        requires keeps { IsTrue (has_room self.old.pool) }
        ensures closes { self.new.open_to ≡ None }
        ensures log { Logs (Some self.old.log) (Some self.new.log) Kept }
        ensures kept { self.new.faults ≡ self.old.faults }
        ensures others { PutsAside self.old.open_to (upstream_of self.old).kept
            (upstream_of self.new).kept }
        ensures pool { (self.new.pool ≡ self.old.pool) × (self.new.late ≡ self.old.late) }
        ensures stays { (self.new.left ≡ self.old.left) × (self.new.replies ≡ self.old.replies)
            × (self.new.plan ≡ self.old.plan) }
        ensures last { IfSome self.old.open_to (λ a. self.new.kept ≡ self.old.kept
            ++ record { ip = a.0; port = a.1; is_quiet = length self.old.left == 0 } ∷ []) }
    {
        if let Some(address) = self.open_to {
            let (ip, port) = address;
            let is_quiet = self.unread.left().is_empty();
            self.log.push_reserved(DialEvent::Kept);
            self.kept.push_reserved(MemLink { ip, port, is_quiet });
            self.open_to = None;
        }
    }

    /// Nothing is kept for too long: it knows no moments.
    fn end_idle(&mut self)
        ensures opens { self.new.open_to ≡ self.old.open_to }
        ensures log { KeepsLog (Some self.old.log) (Some self.new.log) }
        ensures kept { self.new.faults ≡ self.old.faults }
        ensures others { AreSomeOf (upstream_of self.new).kept (upstream_of self.old).kept }
        ensures pool { self.new.pool ≡ self.old.pool }
        ensures nothing { self.new ≡ self.old }
    {}
}
