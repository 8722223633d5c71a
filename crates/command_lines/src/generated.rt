//! Generated runs: the lines that sum them up.
ghost use Rattle.std.specs.Prelude.{◌≡◌, IfOk};
ghost use Rattle.command_lines.specs.Generated.{storm_line, weave_line};

use crate::words::Generated;
use crate::{Bytes, Mem};
use script::{script_settings, storm};
use std::alloc::Global;
use std::sync::ledger::Ledger;
use step_count::Steps;
use weave::weave;

/// The line of a storm, with its line feed.
pub fn storm_line(alloc: Global, run: Generated) -> Mem<Bytes>
    ensures { IfOk result (λ line. line.items ≡ storm_line run.turns run.seed) }
{
    let settings = script_settings(alloc)?;
    let mut line = storm(alloc, &settings, run.turns, run.seed)?;
    line.push(b'\n')?;
    Ok(line)
}

/// The line of a weave, with its line feed.
pub fn weave_line<L: Ledger>(alloc: Global, run: Generated, steps: &mut Steps<L>) -> Mem<Bytes>
    ensures { IfOk result (λ line. line.items ≡ weave_line run.turns run.seed) }
{
    let settings = script_settings(alloc)?;
    let mut line = weave(alloc, settings, run.turns, run.seed, steps)?;
    line.push(b'\n')?;
    Ok(line)
}
