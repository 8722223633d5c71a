//! The picks of generated runs.
ghost use Rattle.std.specs.Prelude.{◌≡◌, IfOk};
ghost use Rattle.machine.specs.Code.{ask_of};
ghost use Rattle.turn_parts.specs.Parts.{drawn_ask};

use crate::Mem;
use crate::services::service_path;
use dtab_table::Dtab;
use machine::Ask;
use rand_core::utils::NextWord;
use rand_pcg::Pcg64;
use std::alloc::Global;

/// The pick of a service at a moment, with the generator's next three words.
pub fn draw_ask(alloc: Global, words: &mut Pcg64, service: u64, moment: u64) -> Mem<Ask>
    ensures { IfOk result (λ ask. (ask_of ask, words.new) ≡ drawn_ask service moment words.old) }
{
    let branch = words.next_word();
    let first = words.next_word();
    let second = words.next_word();
    Ok(Ask {
        path: service_path(alloc, service)?,
        local: Dtab::empty(alloc),
        moment,
        words: [branch, first, second],
    })
}
