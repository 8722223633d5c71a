//! The entries of a table, of which each has a position.
ghost use Rattle.std.specs.Prelude.{◌≡◌, ◌<◌, ◌^◌, length, map, IfOk};
ghost use Rattle.dtab_table.specs.Rules.{rule_of};
ghost use Rattle.dtab_table.specs.Dtab.{rules_of};

use crate::Mem;
use dtab_table::{Dtab, Entry};
use std::alloc::AllocError;

/// The entries of a table, which are fewer than 2^32, so that a position fits a `u32`. No table has
/// more; one that had would be refused as if there were no memory for the list.
pub(crate) fn counted_entries(dtab: &Dtab) -> Mem<&[Entry]>
    ensures entries { IfOk result (λ entries. map rule_of entries.now ≡ rules_of dtab.now) }
    ensures few { IfOk result (λ entries. length entries.now < 2 ^ 32) }
{
    let entries = dtab.entries();
    if entries.len() > u32::MAX as usize {
        return Err(AllocError);
    }
    Ok(entries)
}
