//! The limits, and threads beside one another.
ghost use Rattle.std.specs.Prelude.{◌≡◌, length, All, None};
ghost use Rattle.load_words.specs.Seats.{IsOf, IsUnused, slot_of};

use load_words::{LoadSeat, Loads, start};
use std::process::Abort;
use std::test::Fail;
use std::thread;

/// The greatest of all words.
fn largest(loads: &Loads, seat: &mut LoadSeat) -> u64
    requires seat { IsOf loads.now seat.old }
    ensures seat { IsOf loads.now seat.new }
    ensures slot { slot_of seat.new ≡ slot_of seat.old }
{
    let mut most = 0;
    for slot in 0..8192 {
        most = most.max(loads.read(seat, slot));
    }
    most
}

/// Two seats take slot 7, and give it back one after the other. It gives which slot they hold
/// before that, and which one the first holds meanwhile and once it gave its slot back; and the
/// numbers that are read: the greatest of all before that, those of slots 7 and 8 while both hold,
/// and that of slot 7 each time that it was given back.
fn held_and_read(loads: &Loads, a: &mut LoadSeat, b: &mut LoadSeat) -> ([Option<u32>; 4], [u64; 5])
    requires a { IsOf loads.now a.old × (slot_of a.old ≡ None) }
    requires b { IsOf loads.now b.old × (slot_of b.old ≡ None) }
{
    let (free, other) = (a.holds(), b.holds());
    let greatest = largest(loads, a);
    loads.take(a, 7);
    loads.take(b, 7);
    let held = a.holds();
    let both = loads.read(a, 7);
    let beside = loads.read(a, 8);
    loads.give(a);
    let given = a.holds();
    let one = loads.read(a, 7);
    loads.give(b);
    let none = loads.read(b, 7);
    (
        [free, other, held, given],
        [greatest, both, beside, one, none],
    )
}

/// The same of the only two seats.
fn held_and_read_by_two(loads: &Loads, seats: &mut [LoadSeat]) -> ([Option<u32>; 4], [u64; 5])
    requires two { length seats.old ≡ 2 }
    requires own { All (IsOf loads.now) seats.old }
    requires unused { All IsUnused seats.old }
{
    let (front, back) = seats.split_at_mut(1);
    held_and_read(loads, &mut front[0], &mut back[0])
}

#[test]
fn a_seat_counts_while_it_holds(rt: HostRuntime) -> Result<(), Fail> {
    let (loads, mut seats) = start(rt.alloc(), 2)?;
    let (held, read) = held_and_read_by_two(&loads, seats.as_mut_slice());
    drop(seats);
    drop(loads);
    assert_eq!(rt; held, [None, None, Some(7), None]);
    assert_eq!(rt; read, [0, 2, 0, 1, 0]);
    Ok(())
}

/// Holds one slot after another, and reads it meanwhile.
fn work(rt: &impl Abort, loads: &Loads, seat: &mut LoadSeat)
    requires seat { IsOf loads.now seat.old }
    requires free { slot_of seat.old ≡ None }
    ensures seat { IsOf loads.now seat.new }
    ensures free { slot_of seat.new ≡ None }
{
    for turn in 0..20000 {
        let slot = turn % 3;
        loads.take(seat, slot);
        let found = loads.read(seat, slot);
        assert!(rt; 1 <= found && found <= 5);
        loads.give(seat);
    }
}

#[test]
fn threads_leave_every_word_0(rt: HostRuntime) -> Result<(), Fail> {
    let (loads, mut seats) = start(rt.alloc(), 5)?;
    let Some(mut reader) = seats.pop() else {
        panic!(rt; "five seats")
    };
    thread::for_each_mut(
        &rt,
        seats.as_mut_slice(),
        4,
        &|_, seat| work(&rt, &loads, seat),
    );
    let greatest = largest(&loads, &mut reader);
    drop(reader);
    drop(seats);
    drop(loads);
    assert_eq!(rt; greatest, 0);
    Ok(())
}

fn may_be_moved<T: Send>() {}

fn may_be_shared<T: Sync>() {}

#[test]
fn threads_share_the_words_and_seats_go_to_threads() {
    may_be_moved::<Loads>();
    may_be_shared::<Loads>();
    may_be_moved::<LoadSeat>();
}

#[test]
fn all_1024_seats_hold_slot_8191(rt: HostRuntime) -> Result<(), Fail> {
    let (loads, mut seats) = start(rt.alloc(), 1024)?;
    let count = seats.len();
    let mut held = 0u32;
    let mut found = 0;
    for seat in &mut seats {
        loads.take(seat, 8191);
        held = held.saturating_add(u32::from(seat.holds() == Some(8191)));
        found = loads.read(seat, 8191);
    }
    drop(seats);
    drop(loads);
    assert_eq!(rt; (count, held, found), (1024, 1024, 1024));
    Ok(())
}
