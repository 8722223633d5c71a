//! The turns of generated runs.
ghost use Rattle.std.specs.Prelude.{◌≡◌, ◌<◌, ◌^◌, IfOk};
ghost use Rattle.machine.specs.Code.{change_of};
ghost use Rattle.machine.specs.State.{IsSoundChange};
ghost use Rattle.script.specs.Turns.{change_by, next_turn, turn_by};
ghost use Rattle.script.specs.Ran.{turn_value, IsSoundTurn};

use crate::Mem;
use machine::{Ask, Change};
use rand_core::utils::NextWord;
use rand_pcg::Pcg64;
use std::alloc::Global;
use turn_parts::{addrs_change, draw_ask, local_addr, service_name, table_change};

/// What a turn asks of a state.
#[derive(Drop)]
pub(crate) enum Turn {
    /// A change.
    Change(Change),
    /// A pick.
    Pick(Ask),
}

/// The turn with this number, by the generator's next words. The first of them says by its lowest
/// three bits what kind of turn it is, of which 4 to 7 are picks, by the next four which service it
/// is about, and by the next twelve how many addresses there are and which.
#[tactic(auto, unfolding(crate::specs::Turns::next_turn))]
pub(crate) fn next_turn(alloc: Global, words: &mut Pcg64, number: u64) -> Mem<Turn>
    ensures turn { IfOk result (λ turn. (turn_value turn, words.new) ≡ next_turn number words.old) }
    ensures sound { IfOk result (λ turn. IsSoundTurn (turn_value turn)) }
{
    let word = words.next_word();
    let kind = word % 8;
    let service = word / 8 % 16;
    if kind < 4 {
        let change = change_by(alloc, kind, service, word / 128 % 4096, number)?;
        return Ok(Turn::Change(change));
    }
    Ok(Turn::Pick(draw_ask(alloc, words, service, number)?))
}

/// The change of a kind.
fn change_by(alloc: Global, kind: u64, service: u64, number: u64, turn: u64) -> Mem<Change>
    requires kind { kind < 4 }
    requires service { service < 16 }
    requires number { number < 4096 }
    ensures change { IfOk result (λ change. change_of change ≡ change_by kind service number turn) }
    ensures sound { IfOk result (λ change. IsSoundChange (change_of change)) }
{
    match kind {
        0 => addrs_change(alloc, service, number),
        1 => Ok(Change::DropService {
            service: service_name(alloc, service)?,
        }),
        2 => table_change(alloc, service),
        _ => Ok(Change::Report {
            addr: local_addr(1024 + number),
            good: false,
            moment: turn,
        }),
    }
}
