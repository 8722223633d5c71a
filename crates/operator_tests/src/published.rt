//! Counts that one worker publishes and another thread reads.
ghost use Rattle.std.specs.Prelude.{◌≡◌, All};
ghost use Rattle.count_words.specs.Seats.{HasCountedNone, IsWriterOf, Reads, size_of};

use count_words::{CountReader, CountWriter, Counts, PLACES, start};
use exchange_tally::FIGURES;
use std::alloc::Global;
use std::test::Fail;

const _: () = prove!(FIGURES <= PLACES as usize);

/// What readers find, before and after the second of two writers publishes 17 at its place 47.
#[derive(Clone, Copy, Debug, PartialEq, Eq)]
struct FoundCounts {
    /// At the first place, before.
    first: u64,
    /// At the last place, before.
    last: u64,
    /// At that place, by another reader.
    by_another: u64,
    /// At that place, by the reader that read before.
    by_same: u64,
    /// At the first writer's place 47.
    of_first_writer: u64,
}

/// What the readers find, of whom the one was made with the words.
fn found_by(
    counts: &Counts,
    writers: &mut Vec<CountWriter>,
    reader: &mut CountReader,
) -> Result<FoundCounts, Fail>
    requires size { size_of counts.now ≡ 128 }
    requires writers { All (IsWriterOf counts.now) writers.old.items }
    requires none { All HasCountedNone writers.old.items }
    requires reader { Reads counts.now reader.old }
{
    let Some(mut second) = writers.pop() else {
        return Err("no writer".into());
    };
    let first = counts.read(reader, 0);
    let last = counts.read(reader, 127);
    counts.publish(&mut second, 47, 17);
    drop(second);
    let mut another = counts.another_reader(reader);
    let by_another = counts.read(&mut another, 111);
    drop(another);
    Ok(FoundCounts {
        first,
        last,
        by_another,
        by_same: counts.read(reader, 111),
        of_first_writer: counts.read(reader, 47),
    })
}

/// What the readers find.
fn found(alloc: Global) -> Result<FoundCounts, Fail> {
    let (counts, mut writers, mut reader) = start(alloc, 2)?;
    let found = found_by(&counts, &mut writers, &mut reader);
    drop(reader);
    drop(writers);
    drop(counts);
    found
}

#[test]
fn a_reader_finds_what_was_published(rt: HostRuntime) -> Result<(), Fail> {
    let found = found(rt.alloc())?;
    let wanted = FoundCounts {
        first: 0,
        last: 0,
        by_another: 17,
        by_same: 17,
        of_first_writer: 0,
    };
    assert!(rt; found == wanted, "{found:?}");
    Ok(())
}

fn may_be_moved<T: Send>() {}

fn may_be_shared<T: Sync>() {}

#[test]
fn threads_share_the_words(_rt: HostRuntime) {
    may_be_moved::<Counts>();
    may_be_shared::<Counts>();
    may_be_moved::<CountWriter>();
    may_be_moved::<CountReader>();
}
