//! Cells over a sum: that calls succeed, what readers see of what was published, and which handles
//! may go to other threads.
ghost use Rattle.std.specs.Prelude.{◌≡◌, ◌+◌, ◌<◌, ◌≤◌, ◌%◌, ◌^◌, ◌++◌, [], ◌∷◌, length, fold};
ghost use Rattle.std.specs.Prelude.{IfSome, IfNone};
ghost use Rattle.std.specs.Thread.{IsSync};
ghost use mathlib.Core.List.{IsPrefix};
ghost use Rattle.snap_cell.specs.Views.{seen_of, items_of, cell_of, number_of, opening_of, EachOf};
ghost use Rattle.snap_cell.specs.Views.{IsThere, Refused};
ghost use Rattle.snap_cell.specs.Writers.{published_by, cell_written, opening_written};
ghost use Rattle.snap_cell.specs.Writers.{reader_count};

use left_right::Absorb;
use snap_cell::*;
use std::alloc::AllocError;
use std::snapshot::Snapshot;
use std::sync::{Mutex, Wait};
use std::test::Fail;
use std::thread::{Threads, join_mut};

/// A sum, which has no memory for a 7.
#[derive(Drop, Debug, PartialEq, Clone, Copy)]
struct Sum(u64);

/// A digit to be added, by the caller with this number.
#[derive(Drop)]
struct Add {
    by: u32,
    serial: u64,
    digit: u64,
}

impl Operation for Add {
    ghost caller = { λ a. a.by };

    ghost serial = { λ a. a.serial };
}

impl Absorb<Add> for Sum {
    type State = u64;

    ghost state = { λ s. s.0 };

    ghost applied = { λ n a. (n + a.digit) % 2 ^ 64 };

    fn absorb_first(&mut self, add: &Add, _other: &Sum) -> Result<(), AllocError> {
        if add.digit == 7 {
            return Err(AllocError);
        }
        self.0 = self.0.wrapping_add(add.digit);
        Ok(())
    }
}

impl Published<Add> for Sum {
    ghost fits = { λ n a. a.digit < 10 };
}

/// The sum after what the reader then has seen, and an item at that point.
fn read(reader: &mut Reader<Sum, Add, u64>, item: u64) -> Option<u64>
    ensures sum { IfSome result
        (λ n. n ≡ fold ⟦<Sum as Absorb<Add>>⟧.applied (opening_of reader.old).0
        (seen_of reader.new)) }
    ensures before { IfSome result (λ n. IsPrefix (seen_of reader.old) (seen_of reader.new)) }
    ensures item { IfSome result
        (λ n. items_of reader.new
        ≡ items_of reader.old ++ (item, length (seen_of reader.new)) ∷ []) }
    ensures cell { cell_of reader.new ≡ cell_of reader.old }
    ensures there { IfSome result (λ n. IsThere reader.new) }
    ensures none { IfNone result (Refused reader.old reader.new) }
{
    let guard = reader.enter(Some(Snapshot::of(&item)))?;
    Some(guard.get().0)
}

fn digit_of(by: u32, serial: u64, digit: u64) -> Add
    ensures { (result.by ≡ by) × (result.serial ≡ serial) × (result.digit ≡ digit) }
{
    Add { by, serial, digit }
}

/// The sum of all that was published.
fn latest<R: Wait>(rt: &R, writer: &mut Writer<Sum, Add>) -> u64
    ensures sum { result ≡ fold ⟦<Sum as Absorb<Add>>⟧.applied (opening_written writer.old).0
        (published_by writer.old) }
    ensures same { (published_by writer.new ≡ published_by writer.old)
        × (cell_written writer.new ≡ cell_written writer.old) }
{
    let whole = writer.value(rt);
    let sum = whole.get().0;
    writer.put_back(whole);
    sum
}

/// Ends a cell with all its readers.
fn end<R: Wait>(rt: &R, writer: Writer<Sum, Add>, readers: Vec<Reader<Sum, Add, u64>>)
    requires own { EachOf (cell_written writer) readers.items }
    requires all { reader_count writer ≤ length readers.items }
{
    match writer.close(rt, readers) {
        Ok(()) => {}
        Err(_back) => unreachable!(),
    }
}

/// The second reader's caller publishes, of which that reader has learnt then, and the first one
/// catches up with it. It gives the readers' numbers; what the first one sees before that, the
/// second one then, and the first one last, and the sum of all in the end; and how often each was
/// refused. Where nothing was published, the second one sees nothing.
fn publish_one<R: Wait>(
    rt: &R,
    writer: &mut Writer<Sum, Add>,
    first: &mut Reader<Sum, Add, u64>,
    second: &mut Reader<Sum, Add, u64>,
) -> ([u32; 2], [Option<u64>; 4], [u64; 2])
    requires first { cell_of first.old ≡ cell_written writer.old }
    requires second { cell_of second.old ≡ cell_written writer.old }
    ensures writer { cell_written writer.new ≡ cell_written writer.old }
    ensures first { cell_of first.new ≡ cell_of first.old }
    ensures second { cell_of second.new ≡ cell_of second.old }
{
    let number = second.number();
    let before = read(first, 1);
    let add = digit_of(number, 0, 5);
    let published = writer.publish_for(rt, second, add, Some(Snapshot::of(&2)));
    let learnt = read(second, 3);
    first.catch_up(rt, writer, Some(Snapshot::of(&4)));
    let entered = read(first, 5);
    let sum = latest(rt, writer);
    (
        [first.number(), number],
        [before, published.ok().and(learnt), entered, Some(sum)],
        [first.refused(), second.refused()],
    )
}

/// The same of a cell's two readers.
fn publish_one_of_two<R: Wait>(
    rt: &R,
    writer: &mut Writer<Sum, Add>,
    readers: &mut Vec<Reader<Sum, Add, u64>>,
) -> ([u32; 2], [Option<u64>; 4], [u64; 2])
    requires own { EachOf (cell_written writer.old) readers.old.items }
    requires two { (length readers.old.items ≡ 2) × (reader_count writer.old ≡ 2) }
    ensures own { EachOf (cell_written writer.new) readers.new.items }
    ensures two { (length readers.new.items ≡ 2) × (reader_count writer.new ≡ 2) }
{
    let (front, back) = readers.split_at_mut(1);
    publish_one(rt, writer, &mut front[0], &mut back[0])
}

#[test]
fn what_was_published_is_seen(rt: HostRuntime) -> Result<(), Fail> {
    let (mut writer, mut readers) = start::<Sum, Add, u64, _>(&rt, rt.alloc(), Sum(0), Sum(0), 2)?;
    let told = publish_one_of_two(&rt, &mut writer, &mut readers);
    end(&rt, writer, readers);
    assert_eq!(rt;
        told,
        ([0, 1], [Some(0), Some(5), Some(5), Some(5)], [0, 0])
    );
    Ok(())
}

#[test]
fn fewer_readers_are_handed_back(rt: HostRuntime) -> Result<(), Fail> {
    let (writer, readers) = start::<Sum, Add, u64, _>(&rt, rt.alloc(), Sum(0), Sum(0), 2)?;
    let none: Vec<Reader<Sum, Add, u64>> = Vec::new(rt.alloc());
    match writer.close(&rt, none) {
        Ok(()) => {
            assert!(rt; false);
            Ok(())
        }
        Err((writer, none)) => {
            end(&rt, writer, readers);
            assert_eq!(rt; none.len(), 0);
            Ok(())
        }
    }
}

/// Publishes a digit for the first caller; whether it was published.
fn publish_digit<R: Wait>(rt: &R, writer: &mut Writer<Sum, Add>, serial: u64, digit: u64) -> bool
    requires caller { 0 < reader_count writer.old }
    requires fits { digit < 10 }
    ensures { cell_written writer.new ≡ cell_written writer.old }
{
    writer.publish(rt, digit_of(0, serial, digit)).is_ok()
}

// A copy has no memory for the second operation, after which nothing is published.
fn publish_three<R: Wait>(
    rt: &R,
    writer: &mut Writer<Sum, Add>,
    readers: &mut Vec<Reader<Sum, Add, u64>>,
) -> ([bool; 3], Option<u64>, u64)
    requires own { EachOf (cell_written writer.old) readers.old.items }
    requires one { (length readers.old.items ≡ 1) × (reader_count writer.old ≡ 1) }
    ensures own { EachOf (cell_written writer.new) readers.new.items }
    ensures one { (length readers.new.items ≡ 1) × (reader_count writer.new ≡ 1) }
{
    let first = publish_digit(rt, writer, 0, 3);
    let second = publish_digit(rt, writer, 1, 7);
    let third = publish_digit(rt, writer, 2, 1);
    let seen = read(&mut readers[0], 0);
    ([first, second, third], seen, latest(rt, writer))
}

#[test]
fn want_of_memory_publishes_nothing(rt: HostRuntime) -> Result<(), Fail> {
    let (mut writer, mut readers) = start::<Sum, Add, u64, _>(&rt, rt.alloc(), Sum(0), Sum(0), 1)?;
    let told = publish_three(&rt, &mut writer, &mut readers);
    end(&rt, writer, readers);
    assert_eq!(rt; told, ([true, false, false], Some(3), 3));
    Ok(())
}

/// Publishes so many ones.
fn publish_ones<R: Wait>(rt: &R, writer: &mut Writer<Sum, Add>, count: u64) -> bool
    requires { 0 < reader_count writer.old }
    ensures { cell_written writer.new ≡ cell_written writer.old }
{
    for serial in 0..count {
        if !publish_digit(rt, writer, serial, 1) {
            return false;
        }
    }
    true
}

/// Whether the sum never fell, in so many entries.
fn watch(reader: &mut Reader<Sum, Add, u64>, turns: u64) -> bool
    ensures { cell_of reader.new ≡ cell_of reader.old }
{
    let mut last = 0;
    for turn in 0..turns {
        let Some(sum) = read(reader, turn) else {
            return false;
        };
        if sum < last {
            return false;
        }
        last = sum;
    }
    true
}

/// One thread reads while this one publishes: whether the reader never saw the sum fall, and
/// whether all was published.
fn publish_beside<R: Wait + Threads + Sync>(
    rt: &R,
    writer: &mut Writer<Sum, Add>,
    reader: &mut Reader<Sum, Add, u64>,
) -> (bool, bool)
    requires { 0 < reader_count writer.old }
    ensures writer { cell_written writer.new ≡ cell_written writer.old }
    ensures reader { cell_of reader.new ≡ cell_of reader.old }
{
    join_mut(
        rt,
        &mut || watch(reader, 20_000),
        &mut || publish_ones(rt, writer, 10_000),
    )
}

/// Two threads read while this one publishes.
fn race<R: Wait + Threads + Sync>(
    rt: &R,
    writer: &mut Writer<Sum, Add>,
    first: &mut Reader<Sum, Add, u64>,
    second: &mut Reader<Sum, Add, u64>,
) -> (bool, (bool, bool))
    requires { 0 < reader_count writer.old }
    ensures writer { cell_written writer.new ≡ cell_written writer.old }
    ensures first { cell_of first.new ≡ cell_of first.old }
    ensures second { cell_of second.new ≡ cell_of second.old }
{
    join_mut(
        rt,
        &mut || watch(first, 20_000),
        &mut || -> (bool, bool)
            requires { IsSync R.row × (0 < reader_count writer.now) }
        { publish_beside(rt, writer, second) },
    )
}

/// The race, and what both readers see in the end.
fn race_and_read<R: Wait + Threads + Sync>(
    rt: &R,
    writer: &mut Writer<Sum, Add>,
    first: &mut Reader<Sum, Add, u64>,
    second: &mut Reader<Sum, Add, u64>,
) -> ((bool, (bool, bool)), Option<u64>, Option<u64>)
    requires { 0 < reader_count writer.old }
    ensures writer { cell_written writer.new ≡ cell_written writer.old }
    ensures first { cell_of first.new ≡ cell_of first.old }
    ensures second { cell_of second.new ≡ cell_of second.old }
{
    let told = race(rt, writer, first, second);
    (told, read(first, 0), read(second, 0))
}

/// The same of a cell's two readers.
fn race_of_two<R: Wait + Threads + Sync>(
    rt: &R,
    writer: &mut Writer<Sum, Add>,
    readers: &mut Vec<Reader<Sum, Add, u64>>,
) -> ((bool, (bool, bool)), Option<u64>, Option<u64>)
    requires own { EachOf (cell_written writer.old) readers.old.items }
    requires two { (length readers.old.items ≡ 2) × (reader_count writer.old ≡ 2) }
    ensures own { EachOf (cell_written writer.new) readers.new.items }
    ensures two { (length readers.new.items ≡ 2) × (reader_count writer.new ≡ 2) }
{
    let (front, back) = readers.split_at_mut(1);
    race_and_read(rt, writer, &mut front[0], &mut back[0])
}

#[test]
fn what_is_entered_never_falls_back(rt: HostRuntime) -> Result<(), Fail> {
    let (mut writer, mut readers) = start::<Sum, Add, u64, _>(&rt, rt.alloc(), Sum(0), Sum(0), 2)?;
    let told = race_of_two(&rt, &mut writer, &mut readers);
    end(&rt, writer, readers);
    assert_eq!(rt; told, ((true, (true, true)), Some(10_000), Some(10_000)));
    Ok(())
}

fn may_be_moved<T: Send>() {}

fn may_be_shared<T: Sync>() {}

// Whatever the value and its operations are, as long as they may go to other threads themselves.
fn handles_cross<V: Published<O> + Send + Sync, O: Operation + Send, Q>() {
    may_be_moved::<Writer<V, O>>();
    may_be_moved::<Reader<V, O, Q>>();
    may_be_moved::<Note<O>>();
    may_be_shared::<Mutex<Writer<V, O>>>();
}

#[test]
fn handles_go_to_other_threads() {
    handles_cross::<Sum, Add, u64>();
}
