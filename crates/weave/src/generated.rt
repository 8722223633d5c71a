//! Generated schedules.
ghost use Rattle.std.specs.Prelude.{◌≡◌, ◌≤◌, IfOk};
ghost use Rattle.machine.specs.Code.{settings_of};
ghost use Rattle.turn_parts.specs.Parts.{first_change};
ghost use Rattle.weave.specs.Code.{step_of, told_value};
ghost use Rattle.weave.specs.Held.{world_of, IsSoundStep, Holds};
ghost use Rattle.weave.specs.World.{publish, stepped, opening_world};
ghost use Rattle.weave.specs.Generated.{given_by, turn_by, weave_line, weave_of};

use crate::step::{Asked, Step, Told};
use crate::world::World;
use crate::{Bytes, Mem};
use machine::Settings;
use rand_core::SeedableRng;
use rand_core::utils::NextWord;
use rand_pcg::Pcg64;
use std::alloc::{AllocError, Global};
use std::sync::ledger::Ledger;
use step_count::Steps;
use turn_parts::{addrs_change, draw_ask, first_change, table_change};

/// The passes of generated schedules.
const PASSES: u32 = 4;

/// Runs so many generated turns of four passes, by the words of the generator of a seed, and sums
/// up what they left: how long the history is, how many answers were given, and how many
/// delegations were ever kept, as `history 254 looks 127 kept 3`.
///
/// Before the turns pass 0 creates the namespace `default` with `/svc => /#/io.l5d.fs`. A turn's
/// word `w` gives the pass `w mod 4`, the kind `w / 4 mod 8`, a service `s` of sixteen by `w / 32
/// mod 16`, and a number `q` by `w / 512 mod 4096`:
///
/// | kind | step |
/// |---|---|
/// | 0 | the service `sN` gets the `q mod 5` addresses 127.0.0.1 with the ports `1024 + q` and on |
/// | 1 | `default` gets a table that sends `/svc/sN` to the next service |
/// | 2 | the pass and the next one meet |
/// | 3 | the pass offers what it worked out last to the cache |
/// | 4, 5 | the pass asks for a replica of `/svc/sN`, with three more words |
/// | 6, 7 | the pass is answered |
pub fn weave<L: Ledger>(
    alloc: Global,
    settings: Settings,
    turns: u32,
    seed: u64,
    ticks: &mut Steps<L>,
) -> Mem<Bytes>
    ensures { IfOk result (λ text. text.items ≡ weave_of (settings_of settings) turns seed) }
{
    let mut world = begin(alloc, settings, ticks)?;
    let mut words = Pcg64::seed_from_u64(seed);
    let mut looks = 0;
    for _turn in 0..turns {
        let Ok(step) = turn_step(alloc, &mut words) else {
            drop(world);
            return Err(AllocError);
        };
        let Ok(told) = world.step(&step, ticks) else {
            drop(step);
            drop(world);
            return Err(AllocError);
        };
        looks += given_by(&step, &told);
        drop(step);
        drop(told);
    }
    let summed = line(alloc, world.place(), looks, world.kept());
    drop(world);
    summed
}

/// A world of four passes, the first of which has made the first change.
fn begin<L: Ledger>(alloc: Global, settings: Settings, ticks: &mut Steps<L>) -> Mem<World>
    ensures settings { IfOk result (λ w. settings_of w.settings ≡ settings_of settings) }
    ensures world { IfOk result (λ w. world_of w
        ≡ (stepped (settings_of settings) (opening_world 4) (publish 0 first_change)).0) }
    ensures holds { IfOk result Holds }
{
    let change = first_change(alloc)?;
    let first = Step::Publish(0, change);
    let Ok(mut world) = World::start(alloc, settings, PASSES) else {
        drop(first);
        return Err(AllocError);
    };
    let Ok(told) = world.step(&first, ticks) else {
        drop(first);
        drop(world);
        return Err(AllocError);
    };
    drop(first);
    drop(told);
    Ok(world)
}

/// The step of a turn, by the generator's next words.
fn turn_step(alloc: Global, words: &mut Pcg64) -> Mem<Step>
    ensures step { IfOk result (λ step. (step_of step, words.new) ≡ turn_by words.old) }
    ensures sound { IfOk result (λ step. IsSoundStep (step_of step)) }
{
    let word = words.next_word();
    let turn = Turn {
        kind: word / 4 % 8,
        pass: (word % 4) as u32,
        service: word / 32 % 16,
        number: word / 512 % 4096,
    };
    turn.step(alloc, words)
}

/// What the word of a turn says.
#[derive(Clone, Copy)]
struct Turn {
    kind: u64,
    pass: u32,
    service: u64,
    number: u64,
}

impl Turn {
    ghost use Rattle.std.specs.Prelude.{◌≡◌, ◌<◌, IfOk};
    ghost use Rattle.weave.specs.Code.{step_of};
    ghost use Rattle.weave.specs.Held.{IsSoundStep};
    ghost use Rattle.weave.specs.Generated.{turn_step};

    /// The step of this turn. A pick draws three words more.
    fn step(self, alloc: Global, words: &mut Pcg64) -> Mem<Step>
        requires pass { self.pass < 4 }
        requires service { self.service < 16 }
        requires number { self.number < 4096 }
        ensures step { IfOk result (λ step. (step_of step, words.new)
            ≡ turn_step self.kind self.pass self.service self.number words.old) }
        ensures sound { IfOk result (λ step. IsSoundStep (step_of step)) }
    {
        let pass = self.pass;
        if self.kind == 0 {
            let change = addrs_change(alloc, self.service, self.number)?;
            return Ok(Step::Publish(pass, change));
        }
        if self.kind == 1 {
            let change = table_change(alloc, self.service)?;
            return Ok(Step::Publish(pass, change));
        }
        if self.kind == 2 {
            return Ok(Step::Meet(pass, (pass + 1) % PASSES));
        }
        if self.kind == 3 {
            return Ok(Step::Remember(pass));
        }
        if self.kind < 6 {
            let ask = draw_ask(alloc, words, self.service, 0)?;
            return Ok(Step::Enter(pass, Asked::Pick(ask)));
        }
        Ok(Step::Answer(pass))
    }
}

/// How many answers a step gave: one, or none where nothing was in flight.
fn given_by(step: &Step, told: &Told) -> u32
    ensures given { result ≡ given_by (step_of step.now) (told_value told.now) }
    ensures few { result ≤ 1 }
{
    let Step::Answer(_) = step else {
        return 0;
    };
    match told {
        Told::Nothing => 0,
        _ => 1,
    }
}

/// The line that sums a run up.
fn line(alloc: Global, history: u64, looks: u32, kept: u64) -> Mem<Bytes>
    ensures { IfOk result (λ text. text.items ≡ weave_line history looks kept) }
{
    Ok(format!(in alloc; "history {history} looks {looks} kept {kept}")?.into_bytes())
}
