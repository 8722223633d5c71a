//! Connections that wait, by their numbers.
ghost use Rattle.std.specs.Prelude.{◌≡◌, ◌+◌, ◌-◌, ◌^◌, ◌<◌, ◌≤◌, [], length};
ghost use Rattle.std.specs.Prelude.{IfErr, IfNone, IfSome, OnOk};
ghost use Rattle.waiting.specs.Waiting.{found_at, joined, spent, without};
ghost use Rattle.waiting.specs.Waiting.{IsOlder, IsYounger, TakesOlder, TakesOldest};

use std::alloc::Global;
use std::collections::BTreeMap;
use std::marker::Model;

/// A connection that waits.
pub struct Waiter<C> {
    /// The tick at which it was left.
    pub since: u64,
    /// The connection.
    pub connection: C,
}

/// Connections that wait. Contracts see a line of them: each with its number, the oldest first, and
/// the number that the next one gets.
pub struct Waiters<C> {
    by_number: BTreeMap<u64, Waiter<C>>,
    next: u64,
}

impl<C> Model for Waiters<C> {
    ghost use Rattle.waiting.specs.Waiting.{AreBelow, Line};

    ghost Value = { Line C };

    ghost view = { λ w. record { waiting = w.by_number.entries; next = w.next } };

    // No number is given twice.
    ghost invariant = { λ w. AreBelow w.next w.by_number.entries };
}

impl<C> Waiters<C> {
    /// Nobody.
    pub fn nobody(alloc: Global) -> Waiters<C>
        ensures { (result.waiting ≡ []) × (result.next ≡ 0) }
    {
        Waiters {
            by_number: BTreeMap::new(alloc),
            next: 0,
        }
    }

    /// How many there are.
    pub fn len(&self) -> usize
        ensures count { result ≡ length self.now.waiting }
        ensures small { result < 2 ^ 63 }
    {
        self.by_number.len()
    }

    /// The number that the next one gets. No other had it.
    pub fn next(&self) -> u64
        ensures { result ≡ self.now.next }
    {
        self.next
    }

    /// One more waits, behind all others.
    ///
    /// # Errors
    /// It is handed back where there is no memory. Its number is not given again.
    pub fn join(&mut self, since: u64, connection: C) -> Result<(), C>
        requires { self.old.next < 2 ^ 64 - 1 }
        ensures joined { OnOk result (self.new ≡ joined self.old since connection) }
        ensures back { IfErr result (λ back. (back ≡ connection) × (self.new ≡ spent self.old)) }
    {
        let number = self.next;
        self.next += 1;
        match self.by_number.insert(number, Waiter { since, connection }) {
            Ok(None) => Ok(()),
            Ok(Some(_other)) => unreachable!(),
            Err(failed) => {
                let (_number, waiter) = failed.value;
                let Waiter {
                    since: _,
                    connection,
                } = waiter;
                Err(connection)
            }
        }
    }

    /// Takes the one with this number out, if it waits.
    pub fn take(&mut self, number: u64) -> Option<C>
        ensures found { result ≡ found_at number self.old.waiting }
        ensures waiting { self.new.waiting ≡ without number self.old.waiting }
        ensures next { self.new.next ≡ self.old.next }
        ensures count { IfSome result (λ _.
            length self.new.waiting + 1 ≡ length self.old.waiting) }
        ensures none { IfNone result (self.new ≡ self.old) }
    {
        let waiter = self.by_number.remove(&number)?;
        let Waiter {
            since: _,
            connection,
        } = waiter;
        Some(connection)
    }

    /// Takes the oldest one out, if there is one.
    pub fn take_oldest(&mut self) -> Option<C>
        ensures some { IfSome result (TakesOldest self.old self.new) }
        ensures count { IfSome result (λ _.
            length self.new.waiting + 1 ≡ length self.old.waiting) }
        ensures none { IfNone result ((self.old.waiting ≡ []) × (self.new ≡ self.old)) }
    {
        let (_number, waiter) = self.by_number.pop_first()?;
        let Waiter {
            since: _,
            connection,
        } = waiter;
        Some(connection)
    }

    /// Whether the oldest one was left at this tick or before. None was, where there is none.
    fn has_older(&self, limit: u64) -> bool
        ensures { IsOlder limit self.now.waiting result }
    {
        match self.by_number.first_key_value() {
            Some((_number, waiter)) => waiter.since <= limit,
            None => false,
        }
    }

    /// Takes the oldest one out, where it was left at this tick or before.
    pub fn take_older(&mut self, limit: u64) -> Option<C>
        ensures some { IfSome result (TakesOlder limit self.old self.new) }
        ensures none { IfNone result (IsYounger limit self.old.waiting × (self.new ≡ self.old)) }
    {
        if self.has_older(limit) {
            self.take_oldest()
        } else {
            None
        }
    }

    /// Ends it, where nobody waits any more.
    pub fn end(self)
        requires { self.waiting ≡ [] }
    {
        let Waiters { by_number, next: _ } = self;
        by_number.destroy_empty();
    }
}
