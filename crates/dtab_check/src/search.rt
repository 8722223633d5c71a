//! The search for entries that are never asked.
ghost use Rattle.std.specs.Prelude.{◌≡◌, ◌+◌, ◌<◌, ◌≤◌, ◌^◌, ◌++◌, length, map, drop};
ghost use Rattle.std.specs.Prelude.{Bool, Option, Some, None, IfOk, OnOk};
ghost use Rattle.name_tree.specs.Value.{TreeValue};
ghost use Rattle.name_tree.specs.Tree.{value_of};
ghost use Rattle.dtab_table.specs.Rules.{rule_of};
ghost use Rattle.dtab_table.specs.Dtab.{rules_of};
ghost use Rattle.dtab_check.specs.Hidden.{last_cover, hidden_by, hidden_in, without};
ghost use Rattle.dtab_check.specs.Laws.{MayReplace};

use crate::Mem;
use crate::covers::is_cover;
use crate::entries::counted_entries;
use crate::hidden_list::{Hidden, HiddenList};
use crate::sure::sure_entries;
use dtab_table::{Dtab, Entry, Prefix};
use std::alloc::Global;

/// The entries of a table that are never asked, in the table's order: each that has a later entry
/// which covers it and is sure, with the last such entry.
///
/// A prefix covers another where it has no more labels, each of them `*` or the other's label at
/// its place. A tree is sure where it is never negative, whatever the book has: a mark `!` or `$`,
/// a leaf that names an address or that an entry with a sure tree matches, an alternation of which
/// one alternative is sure, a union of which one branch is that has a weight.
///
/// So the table may stand without them: every path comes to the same, at the same cost and by the
/// same lookups, with every book, whatever table stands before it and whatever table stands behind
/// it.
pub fn hidden(alloc: Global, dtab: &Dtab) -> Mem<HiddenList>
    ensures entries { IfOk result (λ list. list ≡ hidden_in (rules_of dtab.now)) }
    ensures never_asked { IfOk result
        (λ list. MayReplace (rules_of dtab.now) (without list (rules_of dtab.now))) }
{
    let entries = counted_entries(dtab)?;
    let sure = sure_entries(alloc, entries)?;
    let mut items = Vec::new(alloc);
    for (at, entry) in entries.iter().enumerate() {
        let by = find_last_cover(entries, sure.as_slice(), at + 1, &entry.prefix);
        put_hidden(at, by, &mut items)?;
    }
    Ok(HiddenList::of(items))
}

/// The position of the last entry that covers a prefix and has a sure tree, of those from a
/// position on.
fn find_last_cover(entries: &[Entry], sure: &[bool], from: usize, prefix: &Prefix) -> Option<usize>
    requires within { from ≤ length entries.now }
    requires same { length sure.now ≡ length entries.now }
    ensures cover { (is_sure : TreeValue → Bool)
        → sure.now ≡ map (λ e. is_sure (value_of e.tree)) entries.now
        → result ≡ last_cover is_sure from (drop from (map rule_of entries.now)) prefix.now }
    ensures place { (at : _) → result ≡ Some at → at < length entries.now }
{
    let mut at = entries.len();
    while at > from {
        at -= 1;
        let entry = &entries[at];
        if sure[at] && is_cover(&entry.prefix, prefix) {
            return Some(at);
        }
    }
    None
}

/// Puts an entry behind others, where it has a cover.
fn put_hidden(at: usize, by: Option<usize>, items: &mut Vec<Hidden>) -> Mem<()>
    requires place { at < 2 ^ 32 }
    requires cover { (to : _) → by ≡ Some to → to < 2 ^ 32 }
    ensures { OnOk result (items.new.items ≡ items.old.items ++ hidden_by at by) }
{
    let Some(by) = by else {
        return Ok(());
    };
    items.push(Hidden {
        entry: at as u32,
        by: by as u32,
    })?;
    Ok(())
}
