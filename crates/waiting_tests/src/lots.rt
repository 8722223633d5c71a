//! Lots over small scripts, with one hand.
ghost use Rattle.std.specs.Prelude.{◌≡◌};

use std::alloc::Global;
use std::marker::Brand;
use std::sync::Wait;
use std::sync::ledger::{Blank, Ledger};
use std::test::Fail;
use waiting::{Hand, Left, Lot, Watch};

/// Watches connections, or none.
#[derive(Drop)]
struct Watching(bool);

impl Watch<u8> for Watching {
    fn watch(&self, _connection: &u8, _number: u64) -> bool {
        self.0
    }
}

/// A letter for whoever was handed out, if somebody was.
fn letter(connection: Option<u8>) -> u8 {
    connection.unwrap_or(b'-')
}

/// Adds a letter, or takes all away where there is no memory.
fn note(answers: &mut Vec<u8>, letter: u8) {
    if answers.push(letter).is_err() {
        answers.clear();
    }
}

/// The tick of a mark.
fn tick_of(mark: u8) -> u64 {
    match mark {
        b'.' => 1,
        b',' => 59,
        b'!' => 60,
        _ => 61,
    }
}

/// What one step of a script answers. A capital letter leaves a connection of that name, a small
/// one leaves one that can't be watched; a digit takes the one with this number, `<` the oldest,
/// and `.`, `,`, `!` and `?` the oldest that has waited long enough at tick 1, 59, 60 and 61.
fn answered<A: Ledger, B: Ledger, R: Wait>(
    rt: &R,
    lot: &Lot<u8, A, B>,
    hand: &mut Hand<A, B>,
    step: u8,
) -> u8 {
    match step {
        b'A'..=b'Z' | b'a'..=b'z' => match lot.leave(rt, hand, step, &Watching(step < b'a')) {
            Left::Waits => b'w',
            Left::Displaced(oldest) => oldest,
            Left::Back(back) => back,
        },
        b'0'..=b'9' => letter(lot.take(rt, hand, u64::from(step - b'0'))),
        b'<' => letter(lot.take_oldest(rt, hand)),
        mark => letter(lot.take_older(rt, hand, tick_of(mark))),
    }
}

/// Plays a script on a lot with room for two, in which one may wait for 60 ticks, and gives what
/// each step answered, and behind a bar those who wait at the end.
fn play<A: Ledger, B: Ledger, R: Wait>(
    rt: &R,
    alloc: Global,
    left: Blank,
    taken: Blank,
    script: &[u8],
) -> Result<Vec<u8>, Fail>
    requires left { (left.name ≡ A.name) × (left.parts ≡ A.parts) × (A.parts ≡ 1) }
    requires taken { (taken.name ≡ B.name) × (taken.parts ≡ B.parts) × (B.parts ≡ 1) }
{
    let mut answers = Vec::with_capacity(alloc, 64)?;
    let (lot, mut hands) = Lot::<u8, A, B>::open(alloc, 2, 60, left, taken, 1)?;
    for step in script {
        note(&mut answers, answered(rt, &lot, &mut hands[0], *step));
    }
    let mut waiters = lot.close(hands);
    note(&mut answers, b'|');
    while let Some(connection) = waiters.take_oldest() {
        note(&mut answers, connection);
    }
    waiters.end();
    Ok(answers)
}

/// Scripts, and what their steps answer.
const ROWS: [(&[u8], &[u8]); 10] = [
    (b"", b"|"),
    (b"AB", b"ww|AB"),
    (b"AB10", b"wwBA|"),
    (b"AB00", b"wwA-|B"),
    (b"ABC", b"wwA|BC"),
    (b"ABC012", b"wwA-BC|"),
    (b"Ab1<", b"wb-A|"),
    (b"A<B01", b"wAw-B|"),
    (b"A,!", b"w-A|"),
    (b"A.B!!?", b"w-wA-B|"),
];

/// What is left is taken once, by its number or as the oldest, or displaced by a newer one where
/// there is no room, or it is there at the end. A number that is wrong or stale finds nothing.
#[test]
fn who_waits_is_taken_once(rt: HostRuntime) -> Result<(), Fail> {
    let alloc = rt.alloc();
    for (script, expected) in &ROWS {
        let answers = play::<Brand, Brand, HostRuntime>(
            &rt,
            alloc,
            Blank::new(1),
            Blank::new(1),
            script,
        )?;
        assert!(rt; answers.as_slice() == *expected);
    }
    Ok(())
}
