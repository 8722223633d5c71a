//! The calls of a scene.

use crate::asked::{Asking, asked, assignment, changed, creation, give, hold, replacement, report};
use crate::kept::{remember, remember_after_change, remember_twice};
use router::{Naming, Pass, Router};
use std::alloc::Global;
use std::sync::Wait;
use std::sync::ledger::Ledger;
use step_count::Steps;

/// One call of a scene, or a few that belong together.
#[derive(Clone, Copy)]
pub enum Act {
    /// A namespace is created, with this table.
    Create(&'static str, &'static str),
    /// This table is put in the place of a namespace's.
    Put(&'static str, &'static str),
    /// A service gets these addresses.
    Set(&'static str, &'static str),
    /// A report on 127.0.0.1 with this port, of a success or a failure.
    Report(u16, bool),
    /// This is asked, without the lock.
    Ask(Asking),
    /// The pass holds a slot.
    Hold(u32),
    /// The pass gives back what it holds.
    Give,
    /// A pick for `/svc/web`, whose delegation is given back.
    Remember,
    /// The same, with a namespace that the pass behind this one creates in between.
    RememberLate(&'static str),
    /// Two picks for `/svc/web`, whose delegations are both given back then.
    RememberTwice,
    /// The pass and the one behind it meet.
    Meet,
    /// The pass behind this one learns what this one has seen.
    Tell,
    /// What the pass counts.
    Count,
}

/// The places of two passes.
fn places_text(alloc: Global, first: u64, second: u64) -> Option<String> {
    format!(in alloc; "places {first} {second}").ok()
}

/// The number and the place of a pass, and its counts: changes that were made, delegations that
/// were kept, and how often it was not let in.
fn counts_text(alloc: Global, number: u32, place: u64, counts: [u64; 3]) -> Option<String> {
    let [made, kept, refused] = counts;
    format!(in alloc; "pass {number} place {place} made {made} kept {kept} refused {refused}").ok()
}

/// What a call of a pass is answered, as a text. `next` is the pass behind it.
pub fn answer<J: Naming, L: Ledger, R: Wait>(
    rt: &R,
    alloc: Global,
    router: &Router<J>,
    pass: &mut Pass<J>,
    next: &mut Pass<J>,
    act: Act,
    steps: &mut Steps<L>,
) -> Option<String> {
    match act {
        Act::Create(space, table) => {
            changed(rt, alloc, router, pass, creation(alloc, space, table))
        }
        Act::Put(space, table) => {
            changed(rt, alloc, router, pass, replacement(alloc, space, table))
        }
        Act::Set(service, addrs) => {
            changed(rt, alloc, router, pass, assignment(alloc, service, addrs))
        }
        Act::Report(port, good) => changed(rt, alloc, router, pass, Some(report(port, good))),
        Act::Ask(asking) => asked(alloc, router, pass, asking, steps),
        Act::Hold(slot) => hold(alloc, router, pass, slot),
        Act::Give => give(alloc, router, pass),
        Act::Remember => remember(rt, alloc, router, pass, steps),
        Act::RememberLate(space) => {
            remember_after_change(rt, alloc, router, pass, next, space, steps)
        }
        Act::RememberTwice => remember_twice(rt, alloc, router, pass, steps),
        Act::Meet => {
            router.meet(rt, pass, next);
            places_text(alloc, pass.place(), next.place())
        }
        Act::Tell => {
            next.learn(pass.ticket());
            places_text(alloc, pass.place(), next.place())
        }
        Act::Count => {
            let counts = [pass.made(), pass.kept(), pass.refused()];
            counts_text(alloc, pass.number(), pass.place(), counts)
        }
    }
}
