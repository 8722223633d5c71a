//! What is reported of a replica.
ghost use Rattle.std.specs.Prelude.{◌≡◌, ℕ, OnOk, OnErr};
ghost use Rattle.line_base.specs.Clocks.{Tells};
ghost use Rattle.proxy_session.specs.Callers.{Reports, SeesMore, caller_of};

use crate::Mem;
use crate::context::Context;
use addr_book::Addr;
use line_base::Clock;
use machine::Change;
use router::{Naming, Pass};
use std::sync::Wait;

/// Reports of an address whether it answered well, at the clock's next moment.
pub(crate) fn report<J: Naming, C: Clock, R: Wait>(
    context: &Context<'_, J, R>,
    pass: &mut Pass<J>,
    clock: &mut C,
    addr: Addr,
    good: bool,
) -> Mem<()>
    ensures ok { OnOk result ((moment : ℕ) × Tells (C.to_come clock.old) (C.to_come clock.new)
        moment × Reports J.settings (caller_of pass.old) (caller_of pass.new) addr good moment) }
    ensures err { OnErr result ((moment : ℕ) × Tells (C.to_come clock.old) (C.to_come clock.new)
        moment × SeesMore (caller_of pass.old) (caller_of pass.new)) }
{
    let moment = clock.now();
    let change = Change::Report { addr, good, moment };
    match context
        .router
        .change(context.rt, context.alloc, pass, change)
    {
        // How it was taken in is told by the pass.
        Ok(reply) => {
            drop(reply);
            Ok(())
        }
        Err(want) => Err(want),
    }
}
