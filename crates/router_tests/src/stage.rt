//! A new router of three passes, and its end.
ghost use Rattle.std.specs.Prelude.{◌≡◌, ◌<◌};
ghost use Rattle.router.specs.Opening.{IsNamedBy, beginning_of};

use crate::acts::{Act, answer};
use crate::asked::settings;
use router::{Naming, Opened, Pass, Router, open};
use std::alloc::Global;
use std::marker::Brand;
use std::process::Abort;
use std::sync::Wait;
use std::sync::ledger::{Blank, Ledger};
use step_count::Steps;

/// One call of a scene: the number of the caller's pass, the call, and its answer.
pub type Row = (usize, Act, &'static str);

/// What a call of the pass with this number is answered. The pass behind the last one is the first.
fn answer_at<J: Naming, L: Ledger, R: Wait>(
    rt: &R,
    alloc: Global,
    router: &Router<J>,
    passes: &mut [Pass<J>],
    at: usize,
    act: Act,
    steps: &mut Steps<L>,
) -> Option<String> {
    let [a, b, c] = passes else {
        return None;
    };
    match at {
        0 => answer(rt, alloc, router, a, b, act, steps),
        1 => answer(rt, alloc, router, b, c, act, steps),
        _ => answer(rt, alloc, router, c, a, act, steps),
    }
}

/// Asserts that a call was answered so.
fn assert_said<R: Abort>(rt: &R, told: Option<String>, said: &str) {
    match told {
        Some(text) => assert_eq!(rt; text.as_str(), said),
        None => panic!(rt; "no answer, where {said} was wanted"),
    }
}

/// Plays the calls of a scene, each of which has to be answered so.
pub fn play<J: Naming, L: Ledger, R: Wait + Abort>(
    rt: &R,
    alloc: Global,
    router: &Router<J>,
    passes: &mut [Pass<J>],
    rows: &[Row],
    blank: Blank,
)
    requires { (blank.name ≡ L.name) × (blank.parts ≡ L.parts) × (0 < blank.parts) }
{
    let mut steps = Steps::<L>::start(blank);
    for (at, act, said) in rows {
        let told = answer_at(rt, alloc, router, passes, *at, *act, &mut steps);
        assert_said(rt, told, said);
    }
}

/// Ends a router, which is refused where a pass is missing: how many changes there were.
pub fn ended<J: Naming, R: Wait + Abort>(rt: &R, router: Router<J>, mut passes: Vec<Pass<J>>) -> u64
    requires { (J.parts ≡ J.seats) × (J.seats ≡ 3) }
{
    let Some(c) = passes.pop() else {
        panic!(rt; "no passes")
    };
    let Some(b) = passes.pop() else {
        panic!(rt; "one pass")
    };
    let Some(a) = passes.pop() else {
        panic!(rt; "two passes")
    };
    assert!(rt; a.number() < b.number() && b.number() < c.number());
    assert!(rt; passes.is_empty() && passes.capacity() >= 3);
    passes.push_reserved(a);
    passes.push_reserved(b);
    match router.close(rt, passes) {
        Ok(_place) => panic!(rt; "closed with a pass missing"),
        Err((router, mut back)) => {
            back.push_reserved(c);
            match router.close(rt, back) {
                Ok(place) => place,
                Err(_back) => panic!(rt; "not closed"),
            }
        }
    }
}

fn staged<J: Naming, R: Wait + Abort>(
    rt: &R,
    alloc: Global,
    opened: Opened,
    rows: &[Row],
) -> Option<u64>
    requires named { IsNamedBy (beginning_of opened) J.Naming.own J.Ledger.own }
    requires seats { J.seats ≡ 3 }
{
    let (router, mut passes) = opened.named::<J, R>(rt, alloc).ok()?;
    play::<J, Brand, R>(
        rt,
        alloc,
        &router,
        passes.as_mut_slice(),
        rows,
        Blank::new(1),
    );
    Some(ended(rt, router, passes))
}

/// Plays a scene on a new router with this configured table, and ends it: how many changes there
/// were.
pub fn run<R: Wait + Abort>(rt: &R, alloc: Global, base: &str, rows: &[Row]) -> Option<u64> {
    let Ok(opened) = open(rt, alloc, settings(alloc, base)?, 3) else {
        return None;
    };
    staged::<Brand, R>(rt, alloc, opened, rows)
}
