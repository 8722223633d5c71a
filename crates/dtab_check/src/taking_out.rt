//! Tables without the entries that are never asked.
ghost use Rattle.std.specs.Prelude.{◌≡◌, ℕ, [], ◌∷◌, ◌++◌, map, if◌then◌else◌, IfOk, OnOk};
ghost use Rattle.dtab_table.specs.Rules.{rule_of};
ghost use Rattle.dtab_table.specs.Dtab.{rules_of};
ghost use Rattle.dtab_check.specs.Hidden.{hidden_in, is_named, without};
ghost use Rattle.dtab_check.specs.Laws.{MayReplace};

use crate::Mem;
use crate::entries::counted_entries;
use crate::hidden_list::{Hidden, HiddenList};
use dtab_table::{Dtab, Entry, EntryList};
use std::alloc::Global;

/// The table without the entries that are never asked, where the list has them. It copies the other
/// entries, in their order.
///
/// It may stand in place of the table: every path comes to the same, at the same cost and by the
/// same lookups, with every book, whatever table stands before it and whatever table stands behind
/// it.
pub fn taken_out(alloc: Global, dtab: &Dtab, list: &HiddenList) -> Mem<Dtab>
    requires { list.now ≡ hidden_in (rules_of dtab.now) }
    ensures entries { IfOk result (λ rest. rules_of rest ≡ without list.now (rules_of dtab.now)) }
    ensures same { IfOk result (λ rest. MayReplace (rules_of dtab.now) (rules_of rest)) }
{
    let entries = counted_entries(dtab)?;
    let mut kept = Vec::with_capacity(alloc, entries.len())?;
    for (at, entry) in entries.iter().enumerate() {
        let is_hidden = is_entry_of(list.items(), at);
        put_unless(alloc, is_hidden, entry, &mut kept)?;
    }
    Dtab::of(alloc, EntryList::of(kept))
}

/// Whether the entry at a position is one of these.
fn is_entry_of(list: &[Hidden], at: usize) -> bool
    ensures { result ≡ is_named list.now at }
{
    for item in list {
        if item.entry as usize == at {
            return true;
        }
    }
    false
}

/// Puts a copy of an entry behind others, unless it is hidden.
fn put_unless(alloc: Global, is_hidden: bool, entry: &Entry, kept: &mut Vec<Entry>) -> Mem<()>
    ensures { OnOk result (map rule_of kept.new.items
        ≡ map rule_of kept.old.items ++ (if is_hidden then [] else rule_of entry.now ∷ [])) }
{
    if is_hidden {
        return Ok(());
    }
    kept.push(entry.copied(alloc)?)?;
    Ok(())
}
