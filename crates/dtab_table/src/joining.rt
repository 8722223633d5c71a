//! Tables of the entries of others.
ghost use Rattle.std.specs.Prelude.{◌≡◌, ◌+◌, ◌<◌, ◌^◌, ◌++◌, length, map, IfOk, OnOk};
ghost use Rattle.dtab_table.specs.Rules.{rule_of};
ghost use Rattle.dtab_table.specs.Dtab.{rules_of};

use crate::Mem;
use crate::dtab::Dtab;
use crate::entry::{Entry, EntryList};
use std::alloc::Global;

/// The table of the entries of two tables, first those of the first. It copies them, but for a
/// table beside one with no entry, which is shared.
///
/// What it rewrites a path to are the trees of the second table, and then those of the first.
pub fn joined(alloc: Global, first: &Dtab, second: &Dtab) -> Mem<Dtab>
    requires { length (rules_of first.now) + length (rules_of second.now) < 2 ^ 32 }
    ensures { IfOk result (λ dtab. rules_of dtab ≡ rules_of first.now ++ rules_of second.now) }
{
    if first.len() == 0 {
        return second.copied(alloc);
    }
    if second.len() == 0 {
        return first.copied(alloc);
    }
    let mut entries = Vec::with_capacity(alloc, first.len() + second.len())?;
    put_copies(alloc, first.entries(), &mut entries)?;
    put_copies(alloc, second.entries(), &mut entries)?;
    Dtab::of(alloc, EntryList::of(entries))
}

/// Puts copies of some entries behind others. An `Err` leaves some of them there.
pub(crate) fn put_copies(alloc: Global, entries: &[Entry], out: &mut Vec<Entry>) -> Mem<()>
    ensures { OnOk result (map rule_of out.new.items
        ≡ map rule_of out.old.items ++ map rule_of entries.now) }
{
    for entry in entries {
        out.push(entry.copied(alloc)?)?;
    }
    Ok(())
}
