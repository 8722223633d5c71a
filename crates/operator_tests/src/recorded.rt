//! What a worker records of exchanges of each way, over a clock and a journal in memory, and what
//! is scraped of it.
ghost use Rattle.std.specs.Prelude.{◌≡◌, All};
ghost use Rattle.count_words.specs.Seats.{HasCountedNone, IsWriterOf, Reads, size_of};

use access_log::{Answer, Break};
use addr_book::Addr;
use count_words::{CountReader, CountWriter, Counts, start};
use exchange_record::{ConnectionStep, Exchange, Recorder};
use exchange_tally::{Done, Figure};
use http::Method;
use http_wire::{FieldList, Head, Text};
use line_base::{Clock, SocketAddress};
use line_doubles::MemClock;
use line_log::{Journal, Journals, Mem, MemJournals};
use metrics_text::Counts as Numbers;
use name_tree::{Path, read_path};
use own_reply::OwnError;
use scrape::{NoWords, Scrape, Scraper, State};
use std::alloc::Global;
use std::test::Fail;
use worker_record::{WorkerRecord, records_add_up};

const CLIENT: Option<SocketAddress> = Some(SocketAddress {
    ip: 0x0a00_0007,
    port: 51_234,
});

const REPLICA: Option<Addr> = Some(Addr {
    ip: 0x0a00_0103,
    port: 8_080,
});

/// A reply that was passed on whole after a try that failed.
const PASSED: Done = Done {
    answer: Answer::Passed { status: 200 },
    replica: REPLICA,
    tries: 2,
    failures: 1,
    request_bytes: 100,
    reply_bytes: 5_120,
    hits: 1,
    misses: 1,
    broken: None,
};

/// Bytes that are no head were refused, and the reply could not be written.
const UNREAD: Done = Done {
    answer: Answer::Own(OwnError::BadHead),
    replica: None,
    tries: 0,
    failures: 0,
    request_bytes: 0,
    reply_bytes: 9,
    hits: 0,
    misses: 0,
    broken: Some(Break::WriteFault),
};

/// A replica's reply was cut.
const REPLY_CUT: Done = Done {
    answer: Answer::Passed { status: 404 },
    replica: REPLICA,
    tries: 1,
    failures: 1,
    request_bytes: 0,
    reply_bytes: 12,
    hits: 1,
    misses: 0,
    broken: Some(Break::UpstreamCut),
};

/// A request's body was cut.
const REQUEST_CUT: Done = Done {
    answer: Answer::Nothing,
    replica: REPLICA,
    tries: 1,
    failures: 0,
    request_bytes: 10,
    reply_bytes: 0,
    hits: 1,
    misses: 0,
    broken: Some(Break::Cut),
};

/// No replica answered.
const FAILED: Done = Done {
    answer: Answer::Own(OwnError::Upstream),
    replica: REPLICA,
    tries: 3,
    failures: 3,
    request_bytes: 0,
    reply_bytes: 8,
    hits: 0,
    misses: 1,
    broken: None,
};

/// The exchanges, in order.
static EXCHANGES: [Done; 6] = [PASSED, PASSED, UNREAD, REPLY_CUT, REQUEST_CUT, FAILED];

/// The moments at which each began and had ended.
static MOMENTS: [u64; 12] = [
    1_000, 1_011, 2_000, 2_001, 5_000, 4_999, 6_000, 6_500, 7_000, 17_001, 20_000, 20_000,
];

/// What becomes of two connections.
static STEPS: [ConnectionStep; 5] = [
    ConnectionStep::Came,
    ConnectionStep::Left,
    ConnectionStep::Came,
    ConnectionStep::Taken,
    ConnectionStep::Finished,
];

/// Their lines. The journal loses the second.
const LINES: &str = "1970-01-01T00:00:01.000Z 10.0.0.7:51234 \"GET /a HTTP/1.1\" 200 5120 11 \
    /svc/web 10.0.1.3:8080 -\n\
    1970-01-01T00:00:05.000Z 10.0.0.7:51234 \"-\" 400 9 0 - - write-fault\n\
    1970-01-01T00:00:06.000Z 10.0.0.7:51234 \"GET /a HTTP/1.1\" 404 12 500 \
    /svc/web 10.0.1.3:8080 upstream-cut\n\
    1970-01-01T00:00:07.000Z 10.0.0.7:51234 \"GET /a HTTP/1.1\" - 0 10001 \
    /svc/web 10.0.1.3:8080 cut\n\
    1970-01-01T00:00:20.000Z 10.0.0.7:51234 \"GET /a HTTP/1.1\" 502 8 0 \
    /svc/web 10.0.1.3:8080 upstream\n";

/// What is published of them, by places. Behind the figures stand the lines that were written and
/// lost, and the connections that came, finished, were left and were taken up again.
static COUNTS: [(u32, u64); 52] = [
    (0, 2),
    (1, 0),
    (2, 2),
    (3, 1),
    (4, 0),
    (5, 1),
    (6, 0),
    (7, 1),
    (8, 0),
    (9, 0),
    (10, 0),
    (11, 0),
    (12, 0),
    (13, 0),
    (14, 0),
    (15, 0),
    (16, 0),
    (17, 0),
    (18, 0),
    (19, 0),
    (20, 0),
    (21, 0),
    (22, 0),
    (23, 0),
    (24, 1),
    (25, 3),
    (26, 0),
    (27, 0),
    (28, 0),
    (29, 1),
    (30, 0),
    (31, 0),
    (32, 0),
    (33, 1),
    (34, 0),
    (35, 0),
    (36, 0),
    (37, 0),
    (38, 1),
    (39, 9),
    (40, 6),
    (41, 210),
    (42, 10_269),
    (43, 10_513),
    (44, 4),
    (45, 3),
    (46, 5),
    (47, 1),
    (48, 2),
    (49, 1),
    (50, 1),
    (51, 1),
];

/// The head of `GET /a`, without fields.
fn head(alloc: Global) -> Result<Head, Fail> {
    Ok(Head {
        method: Method::GET,
        target: Text::of(Vec::from_slice(alloc, b"/a")?),
        version: 1,
        fields: FieldList::of(Vec::new(alloc)),
    })
}

/// The path `/svc/web`.
fn path(alloc: Global) -> Result<Path, Fail> {
    match read_path(alloc, b"/svc/web") {
        Ok(path) => Ok(path),
        Err(_) => Err("no path".into()),
    }
}

/// What an exchange is told as: one whose bytes are no head has no head and no name.
fn exchange_of<'a>(head: &'a Head, name: &'a Path, done: Done) -> Exchange<'a> {
    let read = done.replica.is_some();
    Exchange {
        client: CLIENT,
        head: if read { Some(head) } else { None },
        name: if read { Some(name) } else { None },
        done,
    }
}

/// Tells a recorder of all exchanges, with this head and this name, and of all steps.
fn tell<K: Recorder>(recorder: &mut K, head: &Head, name: &Path) {
    for done in &EXCHANGES {
        recorder.begin();
        recorder.end(&exchange_of(head, name, *done));
    }
    for step in &STEPS {
        recorder.step(*step);
    }
}

/// Whether a worker's own counts are those of the exchanges.
fn has_counted<C: Clock, L: Journal>(record: &WorkerRecord<'_, C, L>) -> bool {
    record.count(Figure::Tries) == 9 && record.lines().lost == 1 && record.connections().came == 2
}

/// Records all exchanges and steps. Gives whether the worker's own counts are those of them.
fn record<C: Clock, L: Journal>(
    alloc: Global,
    worker: &mut WorkerRecord<'_, C, L>,
) -> Result<bool, Fail> {
    let name = path(alloc)?;
    let head = match head(alloc) {
        Ok(head) => head,
        Err(fail) => {
            drop(name);
            return Err(fail);
        }
    };
    tell(worker, &head, &name);
    drop(head);
    drop(name);
    Ok(has_counted(worker))
}

/// A clock that gives these moments.
fn clock_of(alloc: Global, moments: &[u64]) -> Mem<MemClock> {
    MemClock::of(alloc, Vec::from_slice(alloc, moments)?)
}

/// Closes a journal, if there is one.
fn close<J: Journals>(journals: &mut J, journal: Option<J::J>) -> Mem<()> {
    match journal {
        Some(journal) => journals.close(journal),
        None => Ok(()),
    }
}

/// Records all exchanges by the first of these writers, over one of these journals, which is closed
/// then. Gives whether the worker's own counts are those of the exchanges.
fn record_in(
    alloc: Global,
    counts: &Counts,
    writers: &mut Vec<CountWriter>,
    journals: &mut MemJournals,
) -> Result<bool, Fail>
    requires writers { All (IsWriterOf counts.now) writers.old.items }
    requires none { All HasCountedNone writers.old.items }
{
    let clock = clock_of(alloc, &MOMENTS)?;
    let journal = journals.open(alloc, "access.log")?;
    let Some(writer) = writers.pop() else {
        return Err("no writer".into());
    };
    let mut worker = WorkerRecord::new(alloc, clock, counts, writer, Some(journal));
    let recorded = record(alloc, &mut worker);
    let closed = close(journals, worker.into_journal());
    let has_counted = recorded?;
    closed?;
    Ok(has_counted)
}

/// Whether the lines of all journals that were closed are as written here.
fn is_logged(journals: &MemJournals) -> bool {
    let mut left = LINES.as_bytes();
    for journal in journals.closed() {
        for line in journal.lines() {
            match left.strip_prefix(line.as_slice()) {
                Some(rest) => left = rest,
                None => return false,
            }
        }
    }
    left.is_empty()
}

/// Records all exchanges by the first of these writers. Gives whether the worker's own counts are
/// those of the exchanges, and whether the lines are as written here.
fn logged(
    alloc: Global,
    counts: &Counts,
    writers: &mut Vec<CountWriter>,
) -> Result<(bool, bool), Fail>
    requires writers { All (IsWriterOf counts.now) writers.old.items }
    requires none { All HasCountedNone writers.old.items }
{
    let mut journals = MemJournals::of(alloc, Vec::from_slice(alloc, &[1])?);
    let has_counted = record_in(alloc, counts, writers, &mut journals);
    let is_logged = is_logged(&journals);
    drop(journals);
    Ok((has_counted?, is_logged))
}

/// The first count that is another than is wanted, with what was found.
fn wrong_count(counts: &Counts, reader: &mut CountReader) -> Option<(u32, u64)>
    requires reader { Reads counts.now reader.old }
    requires size { size_of counts.now ≡ 64 }
    ensures { Reads counts.now reader.new }
{
    for (place, count) in &COUNTS {
        let found = counts.read(reader, place % 64);
        if found != *count {
            return Some((*place, found));
        }
    }
    None
}

/// What the state tells at the scrape.
const STATE: State = State {
    changes: 5,
    tables_written: 4,
    marks: 1,
    namespaces: 3,
    services: 2,
    kept: 6,
};

/// What is scraped: the moment, the tables that were written, the delegations that are kept, the
/// connections that were accepted, are open and wait, the replies of the class 4xx, the own replies
/// that say `upstream`, the misses, the lines that were written and those that were lost; and how
/// many exchanges took how long.
type Scraped = ([u64; 11], [u64; 14]);

/// Those of the numbers scraped that are looked at, with the moment.
fn scraped_of(moment: u64, found: &Numbers) -> Scraped {
    let numbers = [
        moment,
        found.tables_written,
        found.kept,
        found.accepted,
        found.open,
        found.waiting,
        found.requests.client_error,
        found.own_replies.upstream,
        found.misses,
        found.log_lines,
        found.lost_lines,
    ];
    (numbers, found.durations.buckets)
}

/// What is scraped.
fn scraped(alloc: Global, counts: &Counts, reader: CountReader) -> Result<Scraped, Fail>
    requires reader { Reads counts.now reader }
    requires size { size_of counts.now ≡ 64 }
{
    let clock = clock_of(alloc, &[21_000])?;
    let mut scraper = Scraper::new(clock, counts, reader, 1);
    let moment = scraper.moment();
    let found = scraper.sums().counts(&STATE);
    drop(scraper);
    Ok(scraped_of(moment, &found))
}

/// What is found once all exchanges were recorded: whether the worker's own counts are those of
/// them and the lines as written here, the first count that is another than is wanted, and what is
/// scraped.
type Found = ((bool, bool), Option<(u32, u64)>, Scraped);

/// What is found once the first of these writers has recorded all exchanges.
fn found_by(
    alloc: Global,
    counts: &Counts,
    writers: &mut Vec<CountWriter>,
    mut reader: CountReader,
) -> Result<Found, Fail>
    requires writers { All (IsWriterOf counts.now) writers.old.items }
    requires none { All HasCountedNone writers.old.items }
    requires reader { Reads counts.now reader }
    requires size { size_of counts.now ≡ 64 }
{
    let logged = logged(alloc, counts, writers)?;
    let wrong = wrong_count(counts, &mut reader);
    Ok((logged, wrong, scraped(alloc, counts, reader)?))
}

/// What is found once all exchanges were recorded.
fn found(alloc: Global) -> Result<Found, Fail> {
    let (counts, mut writers, reader) = start(alloc, 1)?;
    let found = found_by(alloc, &counts, &mut writers, reader);
    drop(writers);
    drop(counts);
    found
}

#[test]
fn exchanges_are_counted_and_logged(rt: HostRuntime) -> Result<(), Fail> {
    let numbers = [21_000, 4, 6, 2, 1, 0, 2, 1, 3, 5, 1];
    let buckets = [3, 0, 0, 0, 1, 0, 0, 0, 1, 0, 0, 0, 0, 1];
    assert_eq!(rt;
        found(rt.alloc())?,
        ((true, true), None, (numbers, buckets))
    );
    Ok(())
}

#[test]
fn nothing_is_scraped_where_there_are_no_words(rt: HostRuntime) -> Result<(), Fail> {
    records_add_up();
    let mut scraper = NoWords::of(clock_of(rt.alloc(), &[7])?);
    let moment = scraper.moment();
    let found = scraper.sums().counts(&STATE);
    drop(scraper);
    let counted = [found.accepted, found.tries, found.requests.success];
    assert_eq!(rt; (moment, found.changes, counted), (7, 5, [0, 0, 0]));
    Ok(())
}
