//! Scenes of three callers.

use crate::acts::Act;
use crate::asked::Asking::{Look, Peek, Pick, Succeed};
use crate::stage::{Row, run};

const A: usize = 0;

const B: usize = 1;

const C: usize = 2;

/// A change of one caller is seen by another that asks later, by both where two meet, and by one
/// that is told what the other has seen.
const MEETING: [Row; 16] = [
    (B, Act::Ask(Look), "at 0 missing, kept 0"),
    (
        A,
        Act::Create("default", "/svc => /$/inet/127.0.0.1/9"),
        "version 1",
    ),
    (C, Act::Count, "pass 2 place 0 made 0 kept 0 refused 0"),
    (B, Act::Ask(Look), "at 1 table 1, kept 0"),
    (B, Act::Meet, "places 1 1"),
    (C, Act::Ask(Pick), "at 1 port 9"),
    (A, Act::Count, "pass 0 place 1 made 1 kept 0 refused 0"),
    (B, Act::Count, "pass 1 place 1 made 0 kept 0 refused 0"),
    (C, Act::Create("default", "/a => /b"), "exists 1"),
    (C, Act::Count, "pass 2 place 1 made 0 kept 0 refused 0"),
    (A, Act::Create("other", "/a => /b"), "version 2"),
    (A, Act::Meet, "places 2 2"),
    (B, Act::Count, "pass 1 place 2 made 0 kept 0 refused 0"),
    (C, Act::Tell, "places 1 2"),
    (B, Act::Tell, "places 2 2"),
    (C, Act::Count, "pass 2 place 2 made 0 kept 0 refused 0"),
];

/// The replica with the lesser load is taken. Two requests on one of twice the weight are as much
/// as one on the other.
const LOADS: [Row; 13] = [
    (A, Act::Set("web", "127.0.0.1 1\n127.0.0.1 2\n"), "set 2"),
    (A, Act::Hold(0), "holds 0"),
    (C, Act::Ask(Pick), "at 1 port 2 slot 1 loads 1 0"),
    (A, Act::Give, "gave 0"),
    (C, Act::Ask(Pick), "at 1 port 1 slot 0 loads 0 0"),
    (
        B,
        Act::Set("web", "127.0.0.1 1 * 2\n127.0.0.1 2\n"),
        "set 2",
    ),
    (A, Act::Hold(0), "holds 0"),
    (B, Act::Hold(0), "holds 0"),
    (C, Act::Hold(1), "holds 1"),
    (C, Act::Ask(Pick), "at 2 port 1 slot 0 loads 2 1"),
    (C, Act::Give, "gave 1"),
    (C, Act::Ask(Pick), "at 2 port 2 slot 1 loads 2 0"),
    // The first caller has asked nothing since its own change. The router's end gives back what it
    // and the second one hold.
    (A, Act::Count, "pass 0 place 1 made 1 kept 0 refused 0"),
];

/// A report of a success changes nothing where the address has no failures, and is answered so in
/// what its caller sees then. A caller sees the changes that others made.
const REPORTS: [Row; 12] = [
    (A, Act::Set("web", "127.0.0.1 1"), "set 1"),
    (B, Act::Ask(Succeed(1)), "failures 0"),
    (B, Act::Count, "pass 1 place 1 made 0 kept 0 refused 0"),
    (C, Act::Report(9, true), "of no service"),
    (C, Act::Ask(Succeed(9)), "of no service"),
    (A, Act::Report(1, false), "failures 1"),
    (B, Act::Ask(Succeed(1)), "left for the lock"),
    (B, Act::Count, "pass 1 place 2 made 0 kept 0 refused 0"),
    (B, Act::Report(1, true), "failures 0"),
    (B, Act::Count, "pass 1 place 3 made 1 kept 0 refused 0"),
    (A, Act::Report(1, true), "failures 0"),
    (A, Act::Count, "pass 0 place 3 made 2 kept 0 refused 0"),
];

/// A delegation is kept where no change was made since it was worked out, and found until a change
/// touches it. A look tells how many are kept.
const REMEMBERED: [Row; 18] = [
    (B, Act::Create("one", "/x => /y"), "version 1"),
    (B, Act::Create("two", "/x => /y"), "version 2"),
    (B, Act::Set("web", "127.0.0.1 1"), "set 1"),
    (A, Act::Ask(Peek), "miss at 3 names 0"),
    (A, Act::RememberLate("three"), "late 3 4"),
    (A, Act::RememberTwice, "kept, had"),
    (C, Act::Ask(Look), "at 4 missing, kept 1"),
    (
        A,
        Act::Ask(Peek),
        "hit at 4 port 1 slot 0 loads 0 0 names /#/io.l5d.fs/web /",
    ),
    (A, Act::Remember, "nothing to keep"),
    (A, Act::Count, "pass 0 place 4 made 0 kept 1 refused 0"),
    (B, Act::Create("four", "/svc => /nowhere"), "version 4"),
    (
        C,
        Act::Ask(Peek),
        "hit at 5 port 1 slot 0 loads 0 0 names /#/io.l5d.fs/web /",
    ),
    (B, Act::Create("default", "/other => /x"), "version 5"),
    (B, Act::Set("web", "127.0.0.1 1\n127.0.0.1 2"), "set 2"),
    (
        A,
        Act::Ask(Peek),
        "hit at 7 port 1 slot 0 loads 0 0 names /#/io.l5d.fs/web /",
    ),
    (
        B,
        Act::Put("default", "/svc/web => /#/io.l5d.fs/v2"),
        "version 6",
    ),
    (A, Act::Ask(Peek), "miss at 8 names 0"),
    (C, Act::Ask(Look), "at 8 table 6, kept 0"),
];

/// Seven branches at each of three lookups, which come to nothing.
const WIDE: &str = "/svc=>/a&/a&/a&/a&/a&/a&/a;/a=>/b&/b&/b&/b&/b&/b&/b;/b=>/c&/c&/c&/c&/c&/c&/c";

/// A delegation of more than 256 lookups is not kept. Its lookups are not told, so its text is the
/// path's.
const COSTLY: [Row; 3] = [
    (A, Act::Remember, "large 400 8"),
    (A, Act::Ask(Peek), "miss at 0 names 0"),
    (A, Act::Count, "pass 0 place 0 made 0 kept 0 refused 0"),
];

/// One of 100 lookups is not kept where their paths have more than 8,192 bytes, of which the last
/// has 206.
const LONG: [Row; 2] = [
    (A, Act::Remember, "large 100 10708"),
    (B, Act::Ask(Peek), "miss at 0 names 0"),
];

/// It is kept where they have 800, though it came to no replica.
const SHORT: [Row; 3] = [
    (A, Act::Remember, "kept"),
    (B, Act::Ask(Peek), "none at 0"),
    (A, Act::Count, "pass 0 place 0 made 0 kept 1 refused 0"),
];

#[test]
fn what_is_large_is_not_kept(rt: HostRuntime) {
    assert_eq!(rt; run(&rt, rt.alloc(), WIDE, &COSTLY), Some(0));
    assert_eq!(rt; run(&rt, rt.alloc(), "/svc => /svc/a", &LONG), Some(0));
    assert_eq!(rt; run(&rt, rt.alloc(), "/svc => /svc", &SHORT), Some(0));
}

#[test]
fn callers_that_meet_see_one_history(rt: HostRuntime) {
    assert_eq!(rt; run(&rt, rt.alloc(), "", &MEETING), Some(2));
}

#[test]
fn the_lesser_load_is_taken(rt: HostRuntime) {
    assert_eq!(rt;
        run(&rt, rt.alloc(), "/svc => /#/io.l5d.fs", &LOADS),
        Some(2)
    );
}

#[test]
fn a_kept_delegation_is_found_until_a_change_touches_it(rt: HostRuntime) {
    assert_eq!(rt;
        run(&rt, rt.alloc(), "/svc => /#/io.l5d.fs", &REMEMBERED),
        Some(8)
    );
}

#[test]
fn a_success_changes_nothing_where_there_are_no_failures(rt: HostRuntime) {
    assert_eq!(rt; run(&rt, rt.alloc(), "", &REPORTS), Some(3));
}
