//! Two readers beside a writer.
ghost use Rattle.std.specs.Prelude.{◌≡◌, ◌<◌};
ghost use Rattle.router.specs.Opening.{IsNamedBy, beginning_of};

use crate::acts::Act;
use crate::asked::{Asking, ask, changed, give, hold, replacement, settings};
use crate::stage::{Row, ended, play};
use machine::Ask;
use router::{Answer, Naming, Opened, Pass, Router, open};
use std::alloc::Global;
use std::marker::Brand;
use std::process::Abort;
use std::sync::Wait;
use std::sync::atomic::{AtomicU32, Ordering};
use std::sync::ledger::{Blank, Ledger};
use std::thread;
use std::thread::Threads;
use step_count::Steps;

/// How many tables the writer puts.
const TABLES: u64 = 500;

/// How often each reader picks.
const PICKS: u64 = 2_000;

/// The caller that writes.
const WRITER: usize = 2;

/// The table of a place: it sends `/svc/web` to the service `one` at an even place, and to `two` at
/// an odd one.
fn table_at(place: u64) -> &'static str {
    if place % 2 == 0 {
        "/svc/web => /#/io.l5d.fs/one"
    } else {
        "/svc/web => /#/io.l5d.fs/two"
    }
}

/// Puts the next place's table, so many times.
fn swap<J: Naming, R: Wait>(
    rt: &R,
    alloc: Global,
    router: &Router<J>,
    pass: &mut Pass<J>,
    turns: u64,
) -> bool {
    for _turn in 0..turns {
        let table = table_at(pass.place().wrapping_add(1));
        let change = replacement(alloc, "default", table);
        if changed(rt, alloc, router, pass, change).is_none() {
            return false;
        }
    }
    true
}

/// The place of a pick, where its port is that of the table there. What it worked out is given
/// back, and its slot is held for a moment.
fn served<J: Naming, L: Ledger, R: Wait>(
    rt: &R,
    alloc: Global,
    router: &Router<J>,
    pass: &mut Pass<J>,
    ask: &Ask,
    steps: &mut Steps<L>,
) -> Option<u64> {
    let Ok(Answer::Picked { choice, fresh, .. }) = router.pick(alloc, pass, ask, steps) else {
        return None;
    };
    if let Some(binding) = fresh {
        let _said = router.remember(rt, alloc, pass, binding).ok()?;
    }
    hold(alloc, router, pass, choice.slot?)?;
    give(alloc, router, pass)?;
    if u64::from(choice.addr.port) == 1 + choice.place % 2 {
        Some(choice.place)
    } else {
        None
    }
}

/// Whether each pick is right for its table, and none is of an older one than its pass had seen
/// before.
fn watch<J: Naming, L: Ledger, R: Wait>(
    rt: &R,
    alloc: Global,
    router: &Router<J>,
    pass: &mut Pass<J>,
    blank: Blank,
) -> bool
    requires { (blank.name ≡ L.name) × (blank.parts ≡ L.parts) × (0 < blank.parts) }
{
    let Some(ask) = ask(alloc) else {
        return false;
    };
    let mut steps = Steps::<L>::start(blank);
    for _turn in 0..PICKS {
        let before = pass.place();
        match served(rt, alloc, router, pass, &ask, &mut steps) {
            Some(place) if before <= place => {}
            _ => return false,
        }
    }
    true
}

/// What the thread at a place does: the last one of three writes. What goes wrong is counted.
fn work<J: Naming, R: Wait>(
    rt: &R,
    alloc: Global,
    router: &Router<J>,
    at: usize,
    pass: &mut Pass<J>,
    wrong: &AtomicU32,
) {
    let good = if at == WRITER {
        swap(rt, alloc, router, pass, TABLES)
    } else {
        watch::<J, Brand, R>(rt, alloc, router, pass, Blank::new(1))
    };
    if !good {
        let _ = wrong.fetch_add(1, Ordering::SeqCst);
    }
}

/// Two threads read while one writes, each by a pass of its own: whether all went well.
fn race<J: Naming + Send + Sync, R: Wait + Threads + Sync>(
    rt: &R,
    alloc: Global,
    router: &Router<J>,
    passes: &mut [Pass<J>],
) -> bool {
    let wrong = AtomicU32::new(0);
    thread::for_each_mut(
        rt,
        passes,
        3,
        &|at, pass| work(rt, alloc, router, at, pass, &wrong),
    );
    wrong.load(Ordering::SeqCst) == 0
}

/// The services and the table with which the race begins.
const BEFORE: [Row; 3] = [
    (WRITER, Act::Set("one", "127.0.0.1 1"), "set 1"),
    (WRITER, Act::Set("two", "127.0.0.1 2"), "set 1"),
    (
        WRITER,
        Act::Create("default", "/svc/web => /#/io.l5d.fs/two"),
        "version 1",
    ),
];

/// A pick with the last table of the race, and one with the table after it.
const AFTER: [Row; 3] = [
    (
        WRITER,
        Act::Ask(Asking::Pick),
        "at 503 port 2 slot 1 loads 0 0",
    ),
    (
        WRITER,
        Act::Put("default", "/svc/web => /#/io.l5d.fs/one"),
        "version 502",
    ),
    (
        WRITER,
        Act::Ask(Asking::Pick),
        "at 504 port 1 slot 0 loads 0 0",
    ),
];

/// The whole race, from a new router to its end: how many changes there were.
fn raced<J: Naming + Send + Sync, R: Wait + Threads + Abort + Sync>(
    rt: &R,
    alloc: Global,
    opened: Opened,
) -> Option<u64>
    requires named { IsNamedBy (beginning_of opened) J.Naming.own J.Ledger.own }
    requires seats { J.seats ≡ 3 }
{
    let (router, mut passes) = opened.named::<J, R>(rt, alloc).ok()?;
    let all = passes.as_mut_slice();
    play::<J, Brand, R>(rt, alloc, &router, all, &BEFORE, Blank::new(1));
    let went_well = race(rt, alloc, &router, all);
    play::<J, Brand, R>(rt, alloc, &router, all, &AFTER, Blank::new(1));
    let place = ended(rt, router, passes);
    assert!(rt; went_well, "a reader or the writer was told wrong");
    Some(place)
}

fn run<R: Wait + Threads + Abort + Sync>(rt: &R, alloc: Global) -> Option<u64> {
    let opened = open(rt, alloc, settings(alloc, "")?, 3).ok()?;
    raced::<Brand, R>(rt, alloc, opened)
}

#[test]
fn readers_follow_a_writer(rt: HostRuntime) {
    assert_eq!(rt; run(&rt, rt.alloc()), Some(504));
}
