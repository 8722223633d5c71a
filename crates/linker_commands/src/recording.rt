//! What the workers of a router record with, and what becomes of their access logs.
ghost use Rattle.std.specs.Prelude.{◌≡◌, ◌+◌, ◌*◌, ◌≤◌, List, All, IfOk, OnOk, Err, length};
ghost use Rattle.std.specs.Prelude.{map, option_map};
ghost use Rattle.std.specs.Option.{ForSome};
ghost use Rattle.count_words.specs.Seats.{AreNumbered, HasCountedNone, IsWriterOf, Reads};
ghost use Rattle.count_words.specs.Seats.{first_of, size_of, words_of};
ghost use Rattle.line_base.specs.Counts.{Rose};
ghost use Rattle.line_log.specs.Logged.{HasNone};
ghost use Rattle.linker_commands.specs.Recorded.{AreSeated, HasRecorded, IsNewLog, IsNewRecord};
ghost use Rattle.linker_commands.specs.Recorded.{IsScraperOf, scraping_of, with_logs, with_own};
ghost use Rattle.linker_config.specs.declared.loaded.LoadedItem.{LoadedItem};
ghost use Rattle.serving.specs.Policies.{IsHandledBy};
ghost use Rattle.serving.specs.Posts.{interface_jobs, jobs_of};
ghost use Rattle.serving.specs.Running.{IsReady, Listens, bound_of, passes_of};
ghost use Rattle.serving.specs.Services.{HaveSeen};
ghost use Rattle.serving.specs.Supplying.{AreInstrumentsFor};

use crate::Mem;
use client_stays::Handling;
use count_words::{CountReader, CountWriter, Counts};
use line_base::{Clock, Listener, Net};
use line_log::Journals;
use linker_config::Text;
use scrape::Scraper;
use serving::{Instruments, RunFault, Served, Serving, Site};
use std::alloc::Global;
use std::sync::Wait;
use std::thread::Threads;
use worker_record::WorkerRecord;

/// Where a router serves, and its access log.
pub(crate) struct LoggedSite {
    /// Where it serves.
    pub(crate) site: Site,
    /// The path of its access log, if there is to be one.
    pub(crate) log: Option<Text>,
}

impl Drop for LoggedSite {
    fn drop(self) {
        let LoggedSite { site, log } = self;
        drop(site);
        drop(log);
    }
}

/// What the instruments of a router's workers are made from.
#[derive(Drop)]
struct Recording<'a, C> {
    alloc: Global,
    clock: &'a C,
    /// The words that the workers publish their counts in.
    counts: &'a Counts,
    /// The path of the access log, if there is to be one.
    log: &'a Option<Text>,
}

/// The journal of a worker, where there is to be an access log.
fn open_journal<O: Journals>(
    alloc: Global,
    log: &Option<Text>,
    journals: &mut O,
) -> Mem<Option<O::J>>
    ensures none { IfOk result (λ journal. ForSome journal (λ j. HasNone (O.J.log j))) }
    ensures new { IfOk result (λ journal. IsNewLog log.now (option_map (λ j. O.J.log j) journal)) }
    ensures closed { O.closed journals.new ≡ O.closed journals.old }
{
    match log {
        Some(path) => Ok(Some(journals.open(alloc, path.as_str())?)),
        None => Ok(None),
    }
}

/// A record that publishes by this writer. It has a fork of the clock, and a journal of its own
/// where there is to be an access log.
fn make_record<'a, C: Clock + Drop, O: Journals>(
    recording: &Recording<'a, C>,
    writer: CountWriter,
    journals: &mut O,
) -> Mem<WorkerRecord<'a, C, O::J>>
    requires writer { IsWriterOf recording.now.counts.now writer }
    requires none { HasCountedNone writer }
    ensures new { IfOk result (λ made. IsNewRecord (C.of_fork recording.now.clock.now)
        recording.now.log.now (words_of recording.now.counts.now) made) }
    ensures first { IfOk result (λ made. made.first ≡ first_of writer) }
    ensures closed { O.closed journals.new ≡ O.closed journals.old }
{
    let journal = match open_journal(recording.alloc, recording.log, journals) {
        Ok(journal) => journal,
        Err(fault) => {
            drop(writer);
            return Err(fault);
        }
    };
    let clock = recording.clock.fork();
    Ok(WorkerRecord::new(recording.alloc, clock, recording.counts, writer, journal))
}

/// A record that publishes by each of these writers, in their order.
fn make_records<'a, C: Clock + Drop, O: Journals>(
    recording: &Recording<'a, C>,
    writers: Vec<CountWriter>,
    journals: &mut O,
) -> Mem<Vec<WorkerRecord<'a, C, O::J>>>
    requires writers { All (IsWriterOf recording.now.counts.now) writers.items }
    requires none { All HasCountedNone writers.items }
    ensures count { IfOk result (λ records. length records.items ≡ length writers.items) }
    ensures new { IfOk result (λ records. All (IsNewRecord (C.of_fork recording.now.clock.now)
        recording.now.log.now (words_of recording.now.counts.now)) records.items) }
    ensures firsts { IfOk result (λ records. map (λ r. r.first) records.items
        ≡ map first_of writers.items) }
    ensures closed { O.closed journals.new ≡ O.closed journals.old }
{
    let mut records = Vec::with_capacity(recording.alloc, writers.len())?;
    for writer in writers {
        let made = make_record(recording, writer, journals)?;
        records.push(made)?;
    }
    Ok(records)
}

/// So many scrapers of the words of these workers, each with a fork of the clock.
fn make_scrapers<'a, C: Clock + Drop>(
    recording: &Recording<'a, C>,
    reader: CountReader,
    workers: u32,
    count: usize,
) -> Mem<Vec<Scraper<'a, C>>>
    requires reader { Reads recording.now.counts.now reader }
    requires size { size_of recording.now.counts.now ≡ 64 * workers }
    requires few { workers ≤ 1024 }
    ensures count { IfOk result (λ scrapers. length scrapers.items ≡ count) }
    ensures scrape { IfOk result (λ scrapers. All (λ s. IsScraperOf
        (C.of_fork recording.now.clock.now) (words_of recording.now.counts.now) workers
        (scraping_of C.to_come s)) scrapers.items) }
{
    let mut first = reader;
    let mut scrapers = Vec::with_capacity(recording.alloc, count)?;
    'scrapers: while scrapers.len() < count {
        let reader = recording.counts.another_reader(&mut first);
        let clock = recording.clock.fork();
        scrapers.push(Scraper::new(clock, recording.counts, reader, workers))?;
    }
    Ok(scrapers)
}

/// What the workers of a router record with, and what its interfaces read the counts by.
fn make_instruments<'a, C: Clock + Drop, O: Journals>(
    recording: &Recording<'a, C>,
    site: &Site,
    writers: Vec<CountWriter>,
    reader: CountReader,
    journals: &mut O,
) -> Mem<Instruments<WorkerRecord<'a, C, O::J>, Scraper<'a, C>>>
    requires writers { All (IsWriterOf recording.now.counts.now) writers.items }
    requires none { All HasCountedNone writers.items }
    requires numbers { AreNumbered writers.items }
    requires count { length writers.items ≡ site.now.workers }
    requires reader { Reads recording.now.counts.now reader }
    requires size { size_of recording.now.counts.now ≡ 64 * site.now.workers }
    requires few { site.now.workers ≤ 1024 }
    ensures equipped { IfOk result (λ made. AreInstrumentsFor site.now made) }
    ensures new { IfOk result (λ made. All (IsNewRecord (C.of_fork recording.now.clock.now)
        recording.now.log.now (words_of recording.now.counts.now)) made.recorders.items) }
    ensures seats { IfOk result (λ made. AreSeated made.recorders.items) }
    ensures scrape { IfOk result (λ made. All (λ s. IsScraperOf (C.of_fork recording.now.clock.now)
        (words_of recording.now.counts.now) site.now.workers (scraping_of C.to_come s))
        made.scrapers.items) }
    ensures closed { O.closed journals.new ≡ O.closed journals.old }
{
    let recorders = make_records(recording, writers, journals)?;
    let count = site.interface_jobs() as usize;
    let scrapers = make_scrapers(recording, reader, site.workers, count)?;
    Ok(Instruments {
        recorders,
        scrapers,
    })
}

/// Gives a journal back, if there is one.
fn close_journal<O: Journals>(journal: Option<O::J>, journals: &mut O) -> Mem<()>
    ensures { OnOk result (O.closed journals.new
        ≡ with_own (O.closed journals.old) (option_map (λ j. O.J.log j) journal)) }
{
    match journal {
        Some(journal) => journals.close(journal),
        None => Ok(()),
    }
}

/// Gives the journals of these workers back, in their order.
fn close_journals<C: Clock + Drop, O: Journals>(
    workers: Vec<WorkerRecord<'_, C, O::J>>,
    journals: &mut O,
) -> Mem<()>
    ensures { OnOk result (O.closed journals.new
        ≡ with_logs (O.closed journals.old) workers.entry.items) }
{
    for worker in workers {
        close_journal(worker.into_journal(), journals)?;
    }
    Ok(())
}

/// Serves until it is stopped. Each worker records what it serves: it counts, for whoever scrapes
/// its router, and writes an access log, where there is to be one. The logs are given back then.
/// Whoever scrapes reads the words in which these workers publish their counts.
///
/// # Errors
/// Those of [`Serving::run`]. [`RunFault::OutOfMemory`] comes also where there was no memory to
/// make the instruments, or to take a log back once all jobs have ended.
pub(crate) fn run_recorded<
    J: Handling + Send + Sync,
    R: Threads + Wait + Sync,
    N: Net + Send,
    C: Clock + Drop + Send,
    O: Journals,
>(
    rt: &R,
    alloc: Global,
    serving: Serving<J, N::L>,
    logged: &LoggedSite,
    net: &mut N,
    clock: &C,
    journals: &mut O,
) -> Result<Served, RunFault>
where
    <N::L as Listener>::P: Send,
    requires ready { IsReady serving }
    requires listens { Listens N.L.state (N.state net.old).told logged.now.site
        (bound_of serving) }
    requires seats { length (passes_of serving) ≡ jobs_of logged.now.site + 1 }
    requires parts { J.parts ≡ J.seats }
    requires handled { IsHandledBy J.rule J.tries logged.now.site.policy }
    requires workers { (1 ≤ logged.now.site.workers) × (logged.now.site.workers ≤ 256) }
    ensures broken { result ≡ Err RunFault.Net → Rose (N.faults net.old) (N.faults net.new) }
    ensures kept { (result ≡ Err RunFault.Net → ⊥) → N.faults net.new ≡ N.faults net.old }
    ensures served { IfOk result
        (λ served. (loaded : List LoadedItem) → HaveSeen loaded (passes_of serving)
        → HasRecorded N.L.P.line N.L.P.address logged.now.site (C.of_fork clock.now)
        logged.now.log loaded (passes_of serving) (N.state net.old) (N.state net.new)
        (O.closed journals.old) (O.closed journals.new) served) }
{
    let site = &logged.site;
    let (counts, writers, reader) = match count_words::start(alloc, site.workers) {
        Ok(made) => made,
        Err(_) => {
            serving.close(rt);
            return Err(RunFault::OutOfMemory);
        }
    };
    let recording = Recording {
        alloc,
        clock,
        counts: &counts,
        log: &logged.log,
    };
    let instruments = match make_instruments(&recording, site, writers, reader, journals) {
        Ok(instruments) => instruments,
        Err(_) => {
            serving.close(rt);
            return Err(RunFault::OutOfMemory);
        }
    };
    match serving.run(rt, alloc, site, net, clock, instruments) {
        Ok((served, records)) => match close_journals(records, journals) {
            Ok(()) => Ok(served),
            Err(_) => Err(RunFault::OutOfMemory),
        },
        Err(fault) => Err(fault),
    }
}
