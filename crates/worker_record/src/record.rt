//! What a worker records of the exchanges that it serves.
ghost use Rattle.std.specs.Prelude.{◌≡◌, option_map, slice_index_or};
ghost use Rattle.std.specs.Option.{ForSome};
ghost use Rattle.count_words.specs.Seats.{HasCountedNone, IsWriterOf, first_of, words_of};
ghost use Rattle.exchange_record.specs.Told.{told_of};
ghost use Rattle.exchange_tally.specs.Figures.{place_of};
ghost use Rattle.exchange_tally.specs.Tallies.{count_in};
ghost use Rattle.line_log.specs.Logged.{HasNone};
ghost use Rattle.worker_record.specs.Connections.{AreSteps};
ghost use Rattle.worker_record.specs.Publishing.{AreLines};
ghost use Rattle.worker_record.specs.Recording.{AreLinesOf, IsFresh, IsLoggedIn, IsSeated};

use crate::connections::ConnectionCounts;
use crate::logging::AccessLog;
use crate::published::Published;
use count_words::{CountWriter, Counts};
use exchange_record::{ConnectionStep, Exchange, Recorder};
use exchange_tally::{Figure, Timed};
use line_base::Clock;
use line_log::{Journal, LineCounts};
use std::alloc::Global;
use std::marker::Model;

/// What a worker records of the exchanges that it serves: its counts, which it publishes, and the
/// lines of its access log, if it has one.
///
/// Contracts see the moments to come of its clock, the moment at which an exchange began last, its
/// counts, what its journal tells, the words in which it publishes, and what it has published.
pub struct WorkerRecord<'a, C: Clock, L: Journal> {
    clock: C,
    begun: u64,
    published: Published<'a>,
    log: Option<AccessLog<L>>,
}

impl<'a, C: Clock + Drop, L: Journal + Drop> Drop for WorkerRecord<'a, C, L> {
    fn drop(self) {
        let WorkerRecord {
            clock,
            begun: _,
            published,
            log,
        } = self;
        drop(clock);
        drop(published);
        drop(log);
    }
}

impl<'a, C: Clock, L: Journal> Model for WorkerRecord<'a, C, L> {
    ghost use Rattle.std.specs.Prelude.{option_map};
    ghost use Rattle.count_words.specs.Seats.{counts_of, first_of, words_of};
    ghost use Rattle.worker_record.specs.Recording.{AreLinesOf, RecordValue};

    ghost Value = { RecordValue };

    ghost view = { λ r. record {
      moments = C.to_come r.clock;
      begun = r.begun;
      tally = r.published.tally;
      log = option_map (λ l. L.log l.journal) r.log;
      connections = r.published.connections;
      words = words_of r.published.counts.now;
      first = first_of r.published.writer;
      published = counts_of r.published.writer;
    } };

    ghost invariant = { λ r. AreLinesOf (option_map (λ l. L.log l.journal) r.log)
        r.published.lines };
}

impl<'a, C: Clock, L: Journal> WorkerRecord<'a, C, L> {
    /// Nothing was recorded yet. The writer is one that has published nothing, and the journal, if
    /// there is an access log, was given no line. It takes no memory.
    pub fn new(
        alloc: Global,
        clock: C,
        counts: &'a Counts,
        writer: CountWriter,
        journal: Option<L>,
    ) -> WorkerRecord<'a, C, L>
        requires writer { IsWriterOf counts.now writer }
        requires none { HasCountedNone writer }
        requires journal { ForSome journal (λ j. HasNone (L.log j)) }
        ensures fresh { IsFresh (C.to_come clock) (option_map (λ j. L.log j) journal) result }
        ensures seat { IsSeated counts.now writer result }
    {
        WorkerRecord {
            clock,
            begun: 0,
            published: Published::new(counts, writer),
            log: log_over(alloc, journal),
        }
    }

    /// The number of a figure. It is what stands published at its place.
    pub fn count(&self, figure: Figure) -> u64
        ensures count { result ≡ count_in self.now.tally figure }
        ensures published { slice_index_or self.now.published (place_of figure) 0 ≡ result }
    {
        self.published.tally.count(figure)
    }

    /// How many lines of the access log were written and lost. It is what stands published.
    pub fn lines(&self) -> LineCounts
        ensures log { AreLinesOf self.now.log result }
        ensures published { AreLines result self.now.published }
    {
        self.published.lines
    }

    /// What became of connections. It is what stands published.
    pub fn connections(&self) -> ConnectionCounts
        ensures connections { result ≡ self.now.connections }
        ensures published { AreSteps result self.now.published }
    {
        self.published.connections
    }
}

impl<'a, C: Clock + Drop, L: Journal> WorkerRecord<'a, C, L> {
    /// Its journal, if it has an access log, as the lines left it.
    pub fn into_journal(self) -> Option<L>
        ensures { option_map (λ j. L.log j) result ≡ self.entry.log }
    {
        let WorkerRecord {
            clock: _,
            begun: _,
            published: _,
            log,
        } = self;
        match log {
            Some(log) => Some(log.into_journal()),
            None => None,
        }
    }
}

/// An access log over a journal, if there is one.
fn log_over<L: Journal>(alloc: Global, journal: Option<L>) -> Option<AccessLog<L>>
    ensures { option_map (λ l. L.log l.journal) result ≡ option_map (λ j. L.log j) journal }
{
    match journal {
        Some(journal) => Some(AccessLog::of(alloc, journal)),
        None => None,
    }
}

/// Appends the line of an exchange, where there is a log, and publishes how many lines it has.
fn write_log<L: Journal>(
    log: &mut Option<AccessLog<L>>,
    published: &mut Published<'_>,
    exchange: &Exchange<'_>,
    timed: &Timed,
)
    requires done { timed.now.done ≡ exchange.now.done }
    requires lines { AreLinesOf (option_map (λ l. L.log l.journal) log.old) published.old.lines }
    ensures logged { IsLoggedIn (told_of exchange.now) timed.now
        (option_map (λ l. L.log l.journal) log.old)
        (option_map (λ l. L.log l.journal) log.new) }
    ensures lines { AreLinesOf (option_map (λ l. L.log l.journal) log.new) published.new.lines }
    ensures tally { published.new.tally ≡ published.old.tally }
    ensures connections { published.new.connections ≡ published.old.connections }
    ensures words { words_of published.new.counts.now ≡ words_of published.old.counts.now }
    ensures first { first_of published.new.writer ≡ first_of published.old.writer }
{
    match log {
        Some(log) => {
            log.append(exchange, timed);
            published.set_lines(log.journal.counts());
        }
        None => {}
    }
}

impl<C: Clock, L: Journal> Recorder for WorkerRecord<'_, C, L> {
    ghost use Rattle.worker_record.specs.Recording.{Begins, Ends, Steps};

    ghost begins = { Begins };

    ghost ends = { Ends };

    ghost steps = { Steps };

    fn begin(&mut self) {
        self.begun = self.clock.now();
    }

    fn end(&mut self, exchange: &Exchange<'_>) {
        let timed = Timed {
            done: exchange.done,
            begun: self.begun,
            ended: self.clock.now(),
        };
        self.published.add(&timed);
        write_log(&mut self.log, &mut self.published, exchange, &timed);
    }

    fn step(&mut self, step: ConnectionStep) {
        self.published.step(step);
    }
}
