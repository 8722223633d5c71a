//! Where connections wait, for all workers.
ghost use Rattle.std.specs.Prelude.{◌≡◌, ◌+◌, ◌≤◌, [], All, length, sum_by, IfOk};
ghost use Rattle.std.specs.Prelude.{vec_len};
ghost use Rattle.waiting.specs.Hands.{Counts, IsNew, left_by, taken_by, taken_of};
ghost use Rattle.waiting.specs.Leaving.{ComesBack, left_in, taken_in};

use crate::Mem;
use crate::desk::Desk;
use crate::hand::Hand;
use crate::left::Left;
use crate::waiters::Waiters;
use crate::watch::Watch;
use std::alloc::Global;
use std::sync::ledger::{Blank, Ledger, Share};
use std::sync::{Mutex, MutexGuard, Wait};

/// Where connections wait. All workers share it, each with a [`Hand`] of its own.
///
/// It is not `Drop`, since a connection need not be: [`Lot::close`] ends it.
pub struct Lot<C, A: Ledger, B: Ledger> {
    desk: Mutex<Desk<C, A, B>>,
}

/// A hand that left and took nothing.
fn new_hand<A: Ledger, B: Ledger>(left: Share<A>, taken: Share<B>) -> Hand<A, B>
    requires left { (left.parts ≡ 1) × (left.amount ≡ 0) }
    requires taken { (taken.parts ≡ 1) × (taken.amount ≡ 0) }
    ensures { IsNew result }
{
    Hand { left, taken }
}

/// So many hands, each with a part of both shares. What is left of the shares comes back.
fn hands_of<A: Ledger, B: Ledger>(
    alloc: Global,
    mut left: Share<A>,
    mut taken: Share<B>,
    count: u32,
) -> Mem<(Vec<Hand<A, B>>, Share<A>, Share<B>)>
    requires left { (left.parts ≡ count) × (left.amount ≡ 0) }
    requires taken { (taken.parts ≡ count) × (taken.amount ≡ 0) }
    ensures count { IfOk result (λ r. vec_len r.0 ≡ count) }
    ensures new { IfOk result (λ r. All IsNew r.0.items) }
    ensures left { IfOk result (λ r. (r.1.parts ≡ 0) × (r.1.amount ≡ 0)) }
    ensures taken { IfOk result (λ r. (r.2.parts ≡ 0) × (r.2.amount ≡ 0)) }
{
    let mut hands = Vec::new(alloc);
    for _place in 0..count {
        hands.push(new_hand(left.split_off(1, 0), taken.split_off(1, 0)))?;
    }
    Ok((hands, left, taken))
}

/// All shares of these hands, with these two.
fn gather<A: Ledger, B: Ledger>(
    mut left: Share<A>,
    mut taken: Share<B>,
    hands: Vec<Hand<A, B>>,
) -> (Share<A>, Share<B>)
    requires left { (left.parts ≡ 0) × (left.amount ≡ 0) }
    requires taken { (taken.parts ≡ 0) × (taken.amount ≡ 0) }
    ensures left_parts { result.0.parts ≡ length hands.items }
    ensures left_most { result.0.parts ≤ A.parts }
    ensures left_amount { result.0.amount ≡ sum_by left_by hands.items }
    ensures taken_parts { result.1.parts ≡ length hands.items }
    ensures taken_most { result.1.parts ≤ B.parts }
    ensures taken_amount { result.1.amount ≡ sum_by taken_by hands.items }
{
    for hand in hands {
        let (more_left, more_taken) = hand.into_shares();
        left.merge(more_left);
        taken.merge(more_taken);
    }
    (left, taken)
}

impl<C, A: Ledger, B: Ledger> Lot<C, A, B> {
    /// Where nobody waits, with room for so many and a hand for each of so many workers. One may
    /// wait for so many ticks.
    pub fn open(
        alloc: Global,
        room: usize,
        patience: u64,
        left: Blank,
        taken: Blank,
        workers: u32,
    ) -> Mem<(Lot<C, A, B>, Vec<Hand<A, B>>)>
        requires left { (left.name ≡ A.name) × (left.parts ≡ A.parts) × (A.parts ≡ workers) }
        requires taken { (taken.name ≡ B.name) × (taken.parts ≡ B.parts) × (B.parts ≡ workers) }
        ensures count { IfOk result (λ r. length r.1.items ≡ workers) }
        ensures new { IfOk result (λ r. All IsNew r.1.items) }
    {
        let (left, all_left) = left.open::<A>();
        let (taken, all_taken) = taken.open::<B>();
        let (hands, rest_left, rest_taken) = hands_of(alloc, all_left, all_taken, workers)?;
        let desk = Desk {
            waiters: Waiters::nobody(alloc),
            room,
            tick: 0,
            patience,
            left,
            taken,
            rest_left,
            rest_taken,
        };
        Ok((
            Lot {
                desk: Mutex::new(desk),
            },
            hands,
        ))
    }

    /// Leaves a connection, once it is watched under the number that it gets.
    pub fn leave<R: Wait, W: Watch<C>>(
        &self,
        rt: &R,
        hand: &mut Hand<A, B>,
        connection: C,
        watch: &W,
    ) -> Left<C>
        ensures back { ComesBack connection result }
        ensures counts { Counts hand.old hand.new (left_in result) (taken_in result) }
    {
        let mut desk = self.desk.lock(rt);
        let left = desk.leave(hand, connection, watch);
        MutexGuard::unlock(desk);
        left
    }

    /// Takes the connection with this number, if it waits. A number that is wrong or stale finds
    /// nothing.
    pub fn take<R: Wait>(&self, rt: &R, hand: &mut Hand<A, B>, number: u64) -> Option<C>
        ensures counts { Counts hand.old hand.new 0 (taken_of result) }
    {
        let mut desk = self.desk.lock(rt);
        let connection = desk.take(hand, number);
        MutexGuard::unlock(desk);
        connection
    }

    /// Takes the connection that has waited longest, if one waits.
    pub fn take_oldest<R: Wait>(&self, rt: &R, hand: &mut Hand<A, B>) -> Option<C>
        ensures counts { Counts hand.old hand.new 0 (taken_of result) }
    {
        let mut desk = self.desk.lock(rt);
        let connection = desk.take_oldest(hand);
        MutexGuard::unlock(desk);
        connection
    }

    /// Takes the connection that has waited longest, where it has for as long as it may at this
    /// tick. From now on those that are left are left at this tick, or at a later one that was
    /// told.
    pub fn take_older<R: Wait>(&self, rt: &R, hand: &mut Hand<A, B>, tick: u64) -> Option<C>
        ensures counts { Counts hand.old hand.new 0 (taken_of result) }
    {
        let mut desk = self.desk.lock(rt);
        let connection = desk.take_older(hand, tick);
        MutexGuard::unlock(desk);
        connection
    }

    /// Ends it, and gives those who wait: as many as were left with these hands, which are all, and
    /// not taken.
    pub fn close(self, hands: Vec<Hand<A, B>>) -> Waiters<C>
        requires left { A.parts ≤ length hands.items }
        requires taken { B.parts ≤ length hands.items }
        ensures { sum_by left_by hands.items
            ≡ sum_by taken_by hands.items + length result.waiting }
    {
        let Lot { desk } = self;
        let Desk {
            waiters,
            room: _,
            tick: _,
            patience: _,
            mut left,
            mut taken,
            rest_left,
            rest_taken,
        } = desk.into_inner();
        let (mut all_left, mut all_taken) = gather(rest_left, rest_taken, hands);
        left.audit(&mut all_left);
        taken.audit(&mut all_taken);
        waiters
    }
}
