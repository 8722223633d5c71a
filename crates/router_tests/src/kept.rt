//! Picks whose delegations are given back, to be kept.
ghost use Rattle.std.specs.Prelude.{IfSome};
ghost use mathlib.Core.List.{IsPrefix};
ghost use Rattle.bind_cache.specs.Stored.{kept_of};
ghost use Rattle.router.specs.Changing.{WasWorkedOut};
ghost use Rattle.router.specs.Passes.{seen_in};

use crate::asked::{ask, changed, creation};
use bind_cache::Binding;
use router::{Answer, Naming, Pass, Remembered, Router};
use std::alloc::Global;
use std::sync::Wait;
use std::sync::ledger::Ledger;
use step_count::Steps;

/// The delegation that a pick for `/svc/web` worked out, where none was kept.
fn fresh<J: Naming, L: Ledger>(
    alloc: Global,
    router: &Router<J>,
    pass: &mut Pass<J>,
    steps: &mut Steps<L>,
) -> Option<Binding>
    ensures worked { IfSome result (λ b. WasWorkedOut pass.new (kept_of b)) }
    ensures seen { IfSome result (λ b. IsPrefix (seen_in pass.old) (seen_in pass.new)) }
{
    match router.pick(alloc, pass, &ask(alloc)?, steps) {
        Ok(Answer::Picked { fresh, .. }) => fresh,
        Ok(Answer::None { fresh, .. }) => fresh,
        _ => None,
    }
}

/// What a delegation that is given back is answered.
fn remembered<J: Naming, R: Wait>(
    rt: &R,
    alloc: Global,
    router: &Router<J>,
    pass: &mut Pass<J>,
    binding: Binding,
) -> Option<Remembered>
    requires { WasWorkedOut pass.old (kept_of binding) }
    ensures { IfSome result (λ said. IsPrefix (seen_in pass.old) (seen_in pass.new)) }
{
    let Ok(said) = router.remember(rt, alloc, pass, binding) else {
        return None;
    };
    Some(said)
}

fn text(alloc: Global, said: Remembered) -> Option<String> {
    match said {
        Remembered::Kept => String::from_str(alloc, "kept").ok(),
        Remembered::Large { cost, bytes } => format!(in alloc; "large {cost} {bytes}").ok(),
        Remembered::Late { place, now } => format!(in alloc; "late {place} {now}").ok(),
        Remembered::Had => String::from_str(alloc, "had").ok(),
        _ => None,
    }
}

/// A pick, whose delegation is given back at once.
pub fn remember<J: Naming, L: Ledger, R: Wait>(
    rt: &R,
    alloc: Global,
    router: &Router<J>,
    pass: &mut Pass<J>,
    steps: &mut Steps<L>,
) -> Option<String> {
    let Some(binding) = fresh(alloc, router, pass, steps) else {
        return String::from_str(alloc, "nothing to keep").ok();
    };
    let said = remembered(rt, alloc, router, pass, binding)?;
    text(alloc, said)
}

/// A pick, whose delegation is given back when another pass has created a namespace.
pub fn remember_after_change<J: Naming, L: Ledger, R: Wait>(
    rt: &R,
    alloc: Global,
    router: &Router<J>,
    pass: &mut Pass<J>,
    other: &mut Pass<J>,
    space: &str,
    steps: &mut Steps<L>,
) -> Option<String> {
    let binding = fresh(alloc, router, pass, steps)?;
    if changed(rt, alloc, router, other, creation(alloc, space, "/x => /y")).is_none() {
        drop(binding);
        return None;
    }
    let said = remembered(rt, alloc, router, pass, binding)?;
    text(alloc, said)
}

/// Two picks, whose delegations are both given back then, the first one's first.
pub fn remember_twice<J: Naming, L: Ledger, R: Wait>(
    rt: &R,
    alloc: Global,
    router: &Router<J>,
    pass: &mut Pass<J>,
    steps: &mut Steps<L>,
) -> Option<String> {
    let first = fresh(alloc, router, pass, steps)?;
    let Some(second) = fresh(alloc, router, pass, steps) else {
        drop(first);
        return None;
    };
    let Some(said) = remembered(rt, alloc, router, pass, first) else {
        drop(second);
        return None;
    };
    let again = remembered(rt, alloc, router, pass, second)?;
    texts(alloc, said, again)
}

/// What two delegations that are given back are answered.
fn texts(alloc: Global, first: Remembered, second: Remembered) -> Option<String> {
    let before = text(alloc, first)?;
    let after = text(alloc, second)?;
    format!(in alloc; "{before}, {after}").ok()
}
