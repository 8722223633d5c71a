//! Looks at the router's state.
ghost use Rattle.std.specs.Prelude.{◌≡◌, ◌<◌, IfOk, OnErr};
ghost use Rattle.machine.specs.Code.{look_value};
ghost use Rattle.router.specs.Passes.{number_in};
ghost use Rattle.api_sessions.specs.Answering.{IsSaid, MayHaveLooked};

use crate::Mem;
use crate::context::Context;
use machine::{Look, Reply};
use router::{Looked, Naming, Pass};
use std::marker::Brand;
use std::sync::Wait;
use std::sync::ledger::{Blank, Ledger};
use step_count::Steps;

/// What a look told, at one point of the history.
#[derive(Drop)]
pub(crate) struct Told {
    /// How many changes were accepted before it.
    pub(crate) place: u64,
    /// What the state replied.
    pub(crate) reply: Reply,
    /// How many delegations were kept.
    pub(crate) kept: usize,
}

/// Looks at one point of the history, which is not before what the pass had seen. It asks again as
/// long as the router does not let it in.
///
/// # Errors
/// Out of memory. The look was made then, or not.
pub(crate) fn look_at<J: Naming, R: Wait>(
    context: &Context<'_, J, R>,
    pass: &mut Pass<J>,
    look: &Look,
) -> Mem<Told>
    ensures number { number_in pass.new ≡ number_in pass.old }
    ensures said { IfOk result (IsSaid (look_value look.now) pass.old pass.new) }
    ensures want { OnErr result (MayHaveLooked (look_value look.now) pass.old pass.new) }
{
    look_counted::<J, R, Brand>(context, pass, look, Blank::new(1))
}

/// Looks, over a count of steps of its own.
fn look_counted<J: Naming, R: Wait, L: Ledger>(
    context: &Context<'_, J, R>,
    pass: &mut Pass<J>,
    look: &Look,
    blank: Blank,
) -> Mem<Told>
    requires name { blank.name ≡ L.name }
    requires parts { blank.parts ≡ L.parts }
    requires some { 0 < blank.parts }
    ensures number { number_in pass.new ≡ number_in pass.old }
    ensures said { IfOk result (IsSaid (look_value look.now) pass.old pass.new) }
    ensures want { OnErr result (MayHaveLooked (look_value look.now) pass.old pass.new) }
{
    let mut steps = Steps::<L>::start(blank);
    look_up(context, pass, look, &mut steps)
}

/// Looks, as often as it takes to be let in.
fn look_up<J: Naming, R: Wait, L: Ledger>(
    context: &Context<'_, J, R>,
    pass: &mut Pass<J>,
    look: &Look,
    steps: &mut Steps<L>,
) -> Mem<Told>
    ensures number { number_in pass.new ≡ number_in pass.old }
    ensures said { IfOk result (IsSaid (look_value look.now) pass.old pass.new) }
    ensures want { OnErr result (MayHaveLooked (look_value look.now) pass.old pass.new) }
{
    for _turn in context.rt.forever() {
        match context.router.look(context.alloc, pass, look, steps) {
            Ok(Looked::Said { place, reply, kept }) => return Ok(Told { place, reply, kept }),
            Ok(Looked::NoEntry) => {}
            Err(want) => return Err(want),
        }
    }
    unreachable!()
}
