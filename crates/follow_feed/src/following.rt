//! Following a leader: polls, one after another, and a line for each that tells something newer.
ghost use Rattle.std.specs.Prelude.{◌≡◌, ◌≢◌, ◌≤◌, ◌<◌, ◌+◌, ◌-◌, ◌^◌, [], ℕ, List, Err, IfOk, Ok};
ghost use Rattle.std.specs.Prelude.{Result, Some};
ghost use Rattle.std.specs.Io.KnownBytes.{Appends};
ghost use Rattle.follow_feed.specs.declared.polling.PollEnd.{PollEnd as EndOfPoll};
ghost use Rattle.follow_feed.specs.Feeds.{FeedValue, feed_value};
ghost use Rattle.follow_feed.specs.Following.{held_in};
ghost use Rattle.follow_feed.specs.Lines.{feed_line};
ghost use Rattle.follow_feed.specs.Progress.{IsTurn, IsWritten, Polled, Takes, Tells, begun};
ghost use Rattle.follow_feed.specs.Progress.{faults_behind, progress_in, turn_faults};

use crate::feed::Feed;
use crate::follower::{Follower, Taken};
use crate::lines::{feed_line, total_line};
use crate::polling::{PollEnd, poll};
use crate::writing::write_all;
use crate::{Bytes, Mem};
use addr_book::{Addr, Name};
use line_base::{Dialer, Sink};
use std::alloc::Global;
use thiserror::Error;

/// How following ended.
#[derive(Clone, Copy, Debug, PartialEq, Eq, Error)]
pub enum FollowEnd {
    /// All polls were made, and all was written.
    #[error("all polls were made")]
    Done,
    /// A line could not be written, and the sink's count of faults rose.
    #[error("a line could not be written")]
    WriteFault,
    /// There was no memory for a poll or a line.
    #[error("out of memory")]
    OutOfMemory,
}

/// What some polls came to: what is held, how many gave a later feed, and how many gave none.
pub(crate) struct Following {
    follower: Follower,
    newer: u32,
    lost: u32,
}

impl Drop for Following {
    fn drop(self) {
        let Following {
            follower,
            newer: _,
            lost: _,
        } = self;
        drop(follower);
    }
}

impl Following {
    /// No poll yet.
    fn start() -> Following
        ensures { progress_in result [] ≡ begun }
    {
        Following {
            follower: Follower::start(),
            newer: 0,
            lost: 0,
        }
    }

    /// Takes what a poll gave, and writes a line where that is later than what was held.
    fn take<K: Sink>(&mut self, alloc: Global, feed: Feed, out: &mut K) -> Result<(), FollowEnd>
        requires { self.old.newer < 2 ^ 32 - 1 }
        ensures takes { (wrote : List ℕ)
            × Appends (K.output out.old).held (K.output out.new).held wrote
            × Takes (progress_in self.old) (progress_in self.new) (Ok (feed_value feed)) wrote
            result }
        ensures faults { (K.output out.new).faults ≡ turn_faults (K.output out.old).faults result }
        ensures newer { self.new.newer ≤ self.old.newer + 1 }
        ensures lost { self.new.lost ≡ self.old.lost }
    {
        match self.follower.take(feed) {
            Taken::Older => Ok(()),
            Taken::Newer => {
                self.newer += 1;
                self.tell(alloc, out)
            }
        }
    }

    /// Takes that a poll gave no feed.
    fn miss(&mut self, end: PollEnd) -> Result<(), FollowEnd>
        requires { self.old.lost < 2 ^ 32 - 1 }
        ensures misses { Takes (progress_in self.old) (progress_in self.new) (Err end) [] result }
        ensures fault { result ≢ Err FollowEnd.WriteFault }
        ensures newer { self.new.newer ≡ self.old.newer }
        ensures lost { self.new.lost ≤ self.old.lost + 1 }
    {
        match end {
            PollEnd::Lost | PollEnd::Strange => {
                self.lost += 1;
                Ok(())
            }
            PollEnd::OutOfMemory => Err(FollowEnd::OutOfMemory),
        }
    }

    /// Writes the line of what is held.
    fn tell<K: Sink>(&self, alloc: Global, out: &mut K) -> Result<(), FollowEnd>
        ensures tells { (feed : FeedValue) → held_in self.now.follower ≡ Some feed
            → (wrote : List ℕ) × Appends (K.output out.old).held (K.output out.new).held wrote
            × IsWritten (feed_line feed) wrote result }
        ensures faults { (K.output out.new).faults ≡ turn_faults (K.output out.old).faults result }
    {
        match self.follower.held() {
            Some(feed) => write_line(feed_line(alloc, feed), out),
            None => Ok(()),
        }
    }
}

/// Writes a line, unless there was no memory for it.
fn write_line<K: Sink>(line: Mem<Bytes>, out: &mut K) -> Result<(), FollowEnd>
    ensures written { (text : List ℕ) → IfOk line (λ bytes. bytes.items ≡ text) → (wrote : List ℕ)
        × Appends (K.output out.old).held (K.output out.new).held wrote
        × IsWritten text wrote result }
    ensures faults { (K.output out.new).faults ≡ turn_faults (K.output out.old).faults result }
{
    match line {
        Ok(line) => match write_all(out, line.as_slice()) {
            Ok(()) => Ok(()),
            Err(_) => Err(FollowEnd::WriteFault),
        },
        Err(_) => Err(FollowEnd::OutOfMemory),
    }
}

/// Makes one poll, takes what it gave, and writes its line where that is later than what was held.
fn follow_once<D: Dialer, K: Sink>(
    alloc: Global,
    dialer: &mut D,
    leader: Addr,
    space: &Name,
    following: &mut Following,
    out: &mut K,
) -> Result<(), FollowEnd>
    requires newer { following.old.newer < 2 ^ 32 - 1 }
    requires lost { following.old.lost < 2 ^ 32 - 1 }
    ensures turn { IsTurn leader space.now (D.upstream dialer.old) (D.upstream dialer.new)
        (K.output out.old).held (K.output out.new).held (progress_in following.old)
        (progress_in following.new) result }
    ensures faults { (K.output out.new).faults ≡ turn_faults (K.output out.old).faults result }
    ensures newer { following.new.newer ≤ following.old.newer + 1 }
    ensures lost { following.new.lost ≤ following.old.lost + 1 }
{
    match poll(alloc, dialer, leader, space) {
        Ok(feed) => following.take(alloc, feed, out),
        Err(end) => following.miss(end),
    }
}

/// Follows a leader: makes so many polls, one after another, and holds the latest feed that they
/// gave.
///
/// For each poll that gave a later feed than was held it writes a line:
/// `run R place P version V dtab TEXT`, or `run R place P gone` where the namespace is not there.
/// Behind them all it writes `polls N newer M lost L`, of which the last number counts the polls
/// that gave no feed.
///
/// # Errors
/// See [`FollowEnd`]. What was written then are the lines of all polls that were made, or of all
/// but the last: whole lines, and at `WriteFault` a front of the next one behind them.
pub fn follow_all<D: Dialer, K: Sink>(
    alloc: Global,
    dialer: &mut D,
    leader: Addr,
    space: &Name,
    polls: u32,
    out: &mut K,
) -> FollowEnd
    ensures follows { (polled : List (Result FeedValue EndOfPoll)) × (wrote : List ℕ)
        × Polled leader space.now (D.upstream dialer.old) polled (D.upstream dialer.new)
        × Appends (K.output out.old).held (K.output out.new).held wrote
        × Tells polls polled wrote result }
    ensures faults { (K.output out.new).faults ≡ faults_behind (K.output out.old).faults result }
{
    let mut following = Following::start();
    'polls: for _turn in 0..polls {
        match follow_once(alloc, dialer, leader, space, &mut following, out) {
            Ok(()) => {}
            Err(end) => return end,
        }
    }
    let line = total_line(alloc, polls, following.newer, following.lost);
    match write_line(line, out) {
        Ok(()) => FollowEnd::Done,
        Err(end) => end,
    }
}
