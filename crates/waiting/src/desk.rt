//! What lies under the lock of a lot.
ghost use Rattle.std.specs.Prelude.{◌≡◌, ◌+◌, ◌-◌, ◌≤◌, length, IfNone, IfSome};
ghost use Rattle.std.specs.Prelude.{max};

use crate::hand::Hand;
use crate::left::Left;
use crate::waiters::Waiters;
use crate::watch::Watch;
use std::sync::ledger::{Book, Ledger, Share};

/// The connections that wait, with the count of all that were left and of all that were taken.
pub(crate) struct Desk<C, A: Ledger, B: Ledger> {
    pub(crate) waiters: Waiters<C>,
    /// How many have room.
    pub(crate) room: usize,
    /// The last tick that was told.
    pub(crate) tick: u64,
    /// For how many ticks one may wait.
    pub(crate) patience: u64,
    pub(crate) left: Book<A>,
    pub(crate) taken: Book<B>,
    pub(crate) rest_left: Share<A>,
    pub(crate) rest_taken: Share<B>,
    ghost few: { length waiters.waiting ≤ room },
    ghost counted: { left.total ≡ taken.total + length waiters.waiting },
    ghost no_rest_left: { (rest_left.parts ≡ 0) × (rest_left.amount ≡ 0) },
    ghost no_rest_taken: { (rest_taken.parts ≡ 0) × (rest_taken.amount ≡ 0) },
}

impl<C, A: Ledger, B: Ledger> Desk<C, A, B> {
    ghost use Rattle.waiting.specs.Hands.{Counts, taken_of};
    ghost use Rattle.waiting.specs.Leaving.{Leaves, left_in, taken_in};
    ghost use Rattle.waiting.specs.Waiting.{IsYounger, TakesOlder, TakesOldest, found_at, without};

    /// Leaves a connection, once it is watched.
    pub(crate) fn leave<W: Watch<C>>(
        &mut self,
        hand: &mut Hand<A, B>,
        connection: C,
        watch: &W,
    ) -> Left<C>
        ensures leaves { Leaves self.old.room self.old.tick self.old.waiters self.new.waiters
            connection result }
        ensures counts { Counts hand.old hand.new (left_in result) (taken_in result) }
        ensures room { self.new.room ≡ self.old.room }
    {
        let number = self.waiters.next();
        if number == u64::MAX || !watch.watch(&connection, number) {
            return Left::Back(connection);
        }
        match self.waiters.join(self.tick, connection) {
            Err(back) => Left::Back(back),
            Ok(()) => {
                self.left.add(&mut hand.left, 1);
                if self.waiters.len() <= self.room {
                    return Left::Waits;
                }
                let Some(oldest) = self.waiters.take_oldest() else {
                    unreachable!()
                };
                self.taken.add(&mut hand.taken, 1);
                Left::Displaced(oldest)
            }
        }
    }

    /// Takes the connection with this number, if it waits.
    pub(crate) fn take(&mut self, hand: &mut Hand<A, B>, number: u64) -> Option<C>
        ensures found { result ≡ found_at number self.old.waiters.waiting }
        ensures waiting { self.new.waiters.waiting ≡ without number self.old.waiters.waiting }
        ensures counts { Counts hand.old hand.new 0 (taken_of result) }
    {
        let connection = self.waiters.take(number)?;
        self.taken.add(&mut hand.taken, 1);
        Some(connection)
    }

    /// Takes the oldest one, if there is one.
    pub(crate) fn take_oldest(&mut self, hand: &mut Hand<A, B>) -> Option<C>
        ensures some { IfSome result (TakesOldest self.old.waiters self.new.waiters) }
        ensures none { IfNone result (length self.old.waiters.waiting ≡ 0) }
        ensures counts { Counts hand.old hand.new 0 (taken_of result) }
    {
        let connection = self.waiters.take_oldest()?;
        self.taken.add(&mut hand.taken, 1);
        Some(connection)
    }

    /// Learns of a tick, and takes the oldest one, where it has waited for as long as it may.
    pub(crate) fn take_older(&mut self, hand: &mut Hand<A, B>, tick: u64) -> Option<C>
        ensures some { IfSome result (λ c. (self.old.patience ≤ tick)
            × TakesOlder (tick - self.old.patience) self.old.waiters self.new.waiters c) }
        ensures none { IfNone result ((self.new.waiters ≡ self.old.waiters)
            × (self.old.patience ≤ tick
            → IsYounger (tick - self.old.patience) self.old.waiters.waiting)) }
        ensures tick { self.new.tick ≡ max self.old.tick tick }
        ensures counts { Counts hand.old hand.new 0 (taken_of result) }
    {
        self.tick = self.tick.max(tick);
        let limit = tick.checked_sub(self.patience)?;
        let connection = self.waiters.take_older(limit)?;
        self.taken.add(&mut hand.taken, 1);
        Some(connection)
    }
}
