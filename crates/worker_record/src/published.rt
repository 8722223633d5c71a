//! The counts of a worker, published as they are raised.
ghost use Rattle.std.specs.Prelude.{◌≡◌, ◌+◌, ◌≤◌, ◌++◌, ◌∷◌, ℕ, List};
ghost use Rattle.count_words.specs.Seats.{HasCountedNone, IsWriterOf, Writes, counts_of, first_of};
ghost use Rattle.count_words.specs.Seats.{size_of, words_of};
ghost use Rattle.exchange_tally.specs.declared.figure.Figure.{Figure};
ghost use Rattle.exchange_tally.specs.Figures.{place_of};
ghost use Rattle.exchange_tally.specs.Tallies.{Adds, count_in};
ghost use Rattle.worker_record.specs.Connections.{AreSteps, after_step, count_of};
ghost use Rattle.worker_record.specs.Publishing.{AreBelow, AreLines, ArePublished};
ghost use Rattle.worker_record.specs.Publishing.{ArePublishedBut, KeepsOthers, moved_places};
ghost use Rattle.worker_record.specs.Publishing.{own_places, some_place};

use crate::connections::{ConnectionCounts, step_place};
use access_log::Answer;
use count_words::{CountWriter, Counts};
use exchange_record::ConnectionStep;
use exchange_tally::{Figure, Tally, Timed};
use line_log::LineCounts;
use metrics_text::{Class, bucket_of};

/// The place of the lines that were written to the access log, behind those of the figures.
const WRITTEN: u32 = 46;

/// The place of those that were lost.
const LOST: u32 = 47;

/// The counts of a worker, each of which other threads can read as soon as it is raised.
pub(crate) struct Published<'a> {
    pub(crate) counts: &'a Counts,
    pub(crate) writer: CountWriter,
    pub(crate) tally: Tally,
    pub(crate) lines: LineCounts,
    pub(crate) connections: ConnectionCounts,
    ghost writes: { Writes counts.now writer },
    ghost within: { first_of writer + 64 ≤ size_of counts.now },
    ghost figures: { ArePublished tally (counts_of writer) },
    ghost logged: { AreLines lines (counts_of writer) },
    ghost steps: { AreSteps connections (counts_of writer) },
}

impl Drop for Published<'_> {
    fn drop(self) {
        let Published {
            counts: _,
            writer,
            tally: _,
            lines: _,
            connections: _,
        } = self;
        drop(writer);
    }
}

impl<'a> Published<'a> {
    /// Nothing was counted yet. The writer is one that has published nothing.
    pub(crate) fn new(counts: &'a Counts, writer: CountWriter) -> Published<'a>
        requires writer { IsWriterOf counts.now writer }
        requires none { HasCountedNone writer }
        ensures figures { (f : Figure) → count_in result.tally f ≡ 0 }
        ensures lines { (result.lines.written ≡ 0) × (result.lines.lost ≡ 0) }
        ensures connections { (step : ConnectionStep) → count_of step result.connections ≡ 0 }
        ensures words { words_of result.counts.now ≡ words_of counts.now }
        ensures first { first_of result.writer ≡ first_of writer }
    {
        Published {
            counts,
            writer,
            tally: Tally::new(),
            lines: LineCounts {
                written: 0,
                lost: 0,
            },
            connections: ConnectionCounts {
                came: 0,
                finished: 0,
                left: 0,
                taken: 0,
            },
        }
    }

    /// Adds an exchange that has ended, and publishes each count that it raised.
    pub(crate) fn add(&mut self, timed: &Timed)
        ensures tally { Adds self.old.tally timed.now self.new.tally }
        ensures lines { self.new.lines ≡ self.old.lines }
        ensures connections { self.new.connections ≡ self.old.connections }
        ensures words { words_of self.new.counts.now ≡ words_of self.old.counts.now }
        ensures first { first_of self.new.writer ≡ first_of self.old.writer }
    {
        self.tally.add(timed);
        publish_moved(self.counts, &mut self.writer, &self.tally, timed);
    }

    /// Publishes how many lines of the access log were written, and how many lost.
    pub(crate) fn set_lines(&mut self, lines: LineCounts)
        requires written { self.old.lines.written ≤ lines.written }
        requires lost { self.old.lines.lost ≤ lines.lost }
        ensures lines { self.new.lines ≡ lines }
        ensures tally { self.new.tally ≡ self.old.tally }
        ensures connections { self.new.connections ≡ self.old.connections }
        ensures words { words_of self.new.counts.now ≡ words_of self.old.counts.now }
        ensures first { first_of self.new.writer ≡ first_of self.old.writer }
    {
        self.counts
            .publish(&mut self.writer, WRITTEN, lines.written);
        self.counts.publish(&mut self.writer, LOST, lines.lost);
        self.lines = lines;
    }

    /// Counts what became of a connection, and publishes that count.
    pub(crate) fn step(&mut self, step: ConnectionStep)
        ensures connections { self.new.connections ≡ after_step step self.old.connections }
        ensures tally { self.new.tally ≡ self.old.tally }
        ensures lines { self.new.lines ≡ self.old.lines }
        ensures words { words_of self.new.counts.now ≡ words_of self.old.counts.now }
        ensures first { first_of self.new.writer ≡ first_of self.old.writer }
    {
        let connections = self.connections.after(step);
        let count = connections.count(step);
        self.counts
            .publish(&mut self.writer, step_place(step), count);
        self.connections = connections;
    }
}

/// Publishes the counts that an exchange raised. They are the ones that stand lower yet.
fn publish_moved(counts: &Counts, writer: &mut CountWriter, tally: &Tally, timed: &Timed)
    requires writer { Writes counts.now writer.old }
    requires within { first_of writer.old + 64 ≤ size_of counts.now }
    requires below { AreBelow tally.now (counts_of writer.old) }
    requires moved { ArePublishedBut (moved_places timed.now) tally.now (counts_of writer.old) }
    ensures writer { Writes counts.now writer.new }
    ensures first { first_of writer.new ≡ first_of writer.old }
    ensures published { ArePublished tally.now (counts_of writer.new) }
    ensures behind { KeepsOthers (counts_of writer.old) (counts_of writer.new) }
{
    let done = timed.done;
    publish_own(counts, writer, tally, done.answer);
    let class = Class::of(done.answer.status());
    publish(counts, writer, tally, Figure::Requests(class));
    let bucket = bucket_of(timed.lasted());
    publish(counts, writer, tally, Figure::Bucket(bucket));
    publish_some(counts, writer, tally, Figure::Milliseconds, timed.lasted());
    publish_some(counts, writer, tally, Figure::Tries, done.tries);
    publish_some(counts, writer, tally, Figure::Failures, done.failures);
    publish_some(
        counts,
        writer,
        tally,
        Figure::RequestBytes,
        done.request_bytes,
    );
    publish_some(counts, writer, tally, Figure::ReplyBytes, done.reply_bytes);
    publish_some(counts, writer, tally, Figure::Hits, done.hits);
    publish_some(counts, writer, tally, Figure::Misses, done.misses);
}

/// Publishes the count of an own reply's word, if it is one.
fn publish_own(counts: &Counts, writer: &mut CountWriter, tally: &Tally, answer: Answer)
    requires writer { Writes counts.now writer.old }
    requires within { first_of writer.old + 64 ≤ size_of counts.now }
    requires below { AreBelow tally.now (counts_of writer.old) }
    ensures writer { Writes counts.now writer.new }
    ensures first { first_of writer.new ≡ first_of writer.old }
    ensures below { AreBelow tally.now (counts_of writer.new) }
    ensures others { (pending : List ℕ)
        → ArePublishedBut (own_places answer ++ pending) tally.now (counts_of writer.old)
        → ArePublishedBut pending tally.now (counts_of writer.new) }
    ensures behind { KeepsOthers (counts_of writer.old) (counts_of writer.new) }
{
    match answer {
        Answer::Own(error) => publish(counts, writer, tally, Figure::OwnReplies(error)),
        Answer::Nothing | Answer::Passed { status: _ } => {}
    }
}

/// Publishes the count of a figure that was raised by so much, if it was.
fn publish_some(counts: &Counts, writer: &mut CountWriter, tally: &Tally, figure: Figure, by: u64)
    requires writer { Writes counts.now writer.old }
    requires within { first_of writer.old + 64 ≤ size_of counts.now }
    requires below { AreBelow tally.now (counts_of writer.old) }
    ensures writer { Writes counts.now writer.new }
    ensures first { first_of writer.new ≡ first_of writer.old }
    ensures below { AreBelow tally.now (counts_of writer.new) }
    ensures others { (pending : List ℕ)
        → ArePublishedBut (some_place by (place_of figure) ++ pending) tally.now
        (counts_of writer.old)
        → ArePublishedBut pending tally.now (counts_of writer.new) }
    ensures behind { KeepsOthers (counts_of writer.old) (counts_of writer.new) }
{
    if by > 0 {
        publish(counts, writer, tally, figure);
    }
}

/// Publishes the count of a figure: one atomic store.
fn publish(counts: &Counts, writer: &mut CountWriter, tally: &Tally, figure: Figure)
    requires writer { Writes counts.now writer.old }
    requires within { first_of writer.old + 64 ≤ size_of counts.now }
    requires below { AreBelow tally.now (counts_of writer.old) }
    ensures writer { Writes counts.now writer.new }
    ensures first { first_of writer.new ≡ first_of writer.old }
    ensures below { AreBelow tally.now (counts_of writer.new) }
    ensures others { (pending : List ℕ)
        → ArePublishedBut (place_of figure ∷ pending) tally.now (counts_of writer.old)
        → ArePublishedBut pending tally.now (counts_of writer.new) }
    ensures behind { KeepsOthers (counts_of writer.old) (counts_of writer.new) }
{
    counts.publish(writer, figure.place(), tally.count(figure));
}
