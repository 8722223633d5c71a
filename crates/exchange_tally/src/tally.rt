//! The counts of one worker.
ghost use Rattle.std.specs.Prelude.{◌≡◌, ◌<◌, ℕ, length};
ghost use Rattle.exchange_tally.specs.declared.figure.Figure.{Figure};
ghost use Rattle.exchange_tally.specs.Tallies.{Adds, count_in, grown, with_answer, with_one};

use crate::done::Timed;
use crate::figure::{CLASSES, Figure, WORDS, class_place, own_place};
use access_log::Answer;
use metrics_text::{BUCKETS, Class, bucket_of};

/// The counts of all exchanges of one worker.
#[derive(Clone, Copy)]
pub struct Tally {
    requests: [u64; CLASSES],
    own_replies: [u64; WORDS],
    buckets: [u64; BUCKETS],
    tries: u64,
    failures: u64,
    request_bytes: u64,
    reply_bytes: u64,
    milliseconds: u64,
    hits: u64,
    misses: u64,
}

/// Raises one of some counts by one.
fn raise(counts: &mut [u64], place: usize)
    requires { place < length counts.old }
    ensures { counts.new ≡ with_one place counts.old }
{
    counts[place] = grown(counts[place], 1);
}

/// Raises the count of an own reply's word, if it is one.
fn raise_own(counts: &mut [u64; WORDS], answer: Answer)
    ensures { counts.new ≡ with_answer answer counts.old }
{
    if let Answer::Own(error) = answer {
        raise(counts, own_place(error));
    }
}

/// A count that is raised by so much.
fn grown(count: u64, by: u64) -> u64
    ensures { result ≡ grown count by }
{
    count.saturating_add(by)
}

impl Tally {
    /// Nothing was counted yet.
    pub fn new() -> Tally
        ensures { (f : Figure) → count_in result f ≡ 0 }
    {
        Tally {
            requests: [0; CLASSES],
            own_replies: [0; WORDS],
            buckets: [0; BUCKETS],
            tries: 0,
            failures: 0,
            request_bytes: 0,
            reply_bytes: 0,
            milliseconds: 0,
            hits: 0,
            misses: 0,
        }
    }

    /// The number of a figure.
    pub fn count(&self, figure: Figure) -> u64
        ensures { result ≡ count_in self.now figure }
    {
        match figure {
            Figure::Requests(class) => self.requests[class_place(class)],
            Figure::OwnReplies(error) => self.own_replies[own_place(error)],
            Figure::Tries => self.tries,
            Figure::Failures => self.failures,
            Figure::RequestBytes => self.request_bytes,
            Figure::ReplyBytes => self.reply_bytes,
            Figure::Bucket(place) => self.buckets[place.min(BUCKETS - 1)],
            Figure::Milliseconds => self.milliseconds,
            Figure::Hits => self.hits,
            Figure::Misses => self.misses,
        }
    }

    /// Adds an exchange that has ended. Call it once for each.
    pub fn add(&mut self, timed: &Timed)
        ensures { Adds self.old timed.now self.new }
    {
        let done = timed.done;
        raise(
            &mut self.requests,
            class_place(Class::of(done.answer.status())),
        );
        raise_own(&mut self.own_replies, done.answer);
        raise(&mut self.buckets, bucket_of(timed.lasted()));
        self.tries = grown(self.tries, done.tries);
        self.failures = grown(self.failures, done.failures);
        self.request_bytes = grown(self.request_bytes, done.request_bytes);
        self.reply_bytes = grown(self.reply_bytes, done.reply_bytes);
        self.milliseconds = grown(self.milliseconds, timed.lasted());
        self.hits = grown(self.hits, done.hits);
        self.misses = grown(self.misses, done.misses);
    }
}
