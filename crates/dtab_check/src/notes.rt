//! What else the text of a table shows.
ghost use Rattle.std.specs.Prelude.{◌≡◌, ◌++◌, ◌<◌, ◌^◌, Some, IfOk, OnOk};
ghost use Rattle.name_tree.specs.Tree.{value_of};
ghost use Rattle.dtab_table.specs.Dtab.{rules_of};
ghost use Rattle.dtab_check.specs.Notes.{noted, noted_same, notes_at, notes_in};

use crate::Mem;
use crate::entries::counted_entries;
use crate::idle::{has_idle, some_leads};
use crate::live::live_in;
use crate::note_list::{Note, NoteList, Remark};
use crate::texts::{find_last_same, texts_of};
use dtab_table::Dtab;
use name_tree::Tree;
use std::alloc::Global;

/// What there is to know of the entries of a table beside which of them are never asked, in the
/// table's order: which lead to services, which aren't looked at, which have a branch of weight 0,
/// and which are the same as a later one.
///
/// Only the table is looked at. An entry is the same as another where both have the same canonical
/// text.
pub fn notes_of(alloc: Global, dtab: &Dtab) -> Mem<NoteList>
    ensures { IfOk result (λ list. list ≡ notes_in (rules_of dtab.now)) }
{
    let entries = counted_entries(dtab)?;
    let texts = texts_of(alloc, entries)?;
    let mut items = Vec::new(alloc);
    for (at, entry) in entries.iter().enumerate() {
        let same = find_last_same(&texts[at + 1..], at + 1, &texts[at]);
        put_notes(alloc, at, &entry.tree, same, &mut items)?;
    }
    Ok(NoteList::of(items))
}

/// Puts the notes on an entry behind others: by its tree, and by the last later entry that is the
/// same, if there is one.
fn put_notes(
    alloc: Global,
    at: usize,
    tree: &Tree,
    same: Option<usize>,
    items: &mut Vec<Note>,
) -> Mem<()>
    requires place { at < 2 ^ 32 }
    requires same { (to : _) → same ≡ Some to → to < 2 ^ 32 }
    ensures { OnOk result
        (items.new.items ≡ items.old.items ++ notes_at at (value_of tree.now) same) }
{
    let live = live_in(alloc, tree)?;
    let leads = some_leads(live.leaves.as_slice());
    put_where(leads, at, Remark::LeadsToServices, items)?;
    put_where(has_idle(tree), at, Remark::HasIdleBranch, items)?;
    put_same(at, same, items)
}

/// Puts a remark on an entry behind others, where it holds.
fn put_where(holds: bool, at: usize, remark: Remark, items: &mut Vec<Note>) -> Mem<()>
    requires { at < 2 ^ 32 }
    ensures { OnOk result (items.new.items ≡ items.old.items ++ noted at remark holds) }
{
    if holds {
        items.push(Note {
            entry: at as u32,
            remark,
        })?;
    }
    Ok(())
}

/// Puts behind others that a later entry is the same, where one is.
fn put_same(at: usize, same: Option<usize>, items: &mut Vec<Note>) -> Mem<()>
    requires place { at < 2 ^ 32 }
    requires same { (to : _) → same ≡ Some to → to < 2 ^ 32 }
    ensures { OnOk result (items.new.items ≡ items.old.items ++ noted_same at same) }
{
    match same {
        Some(to) => put_where(true, at, Remark::IsRepeatedAt(to as u32), items),
        None => Ok(()),
    }
}
