//! Entries whose trees are sure.
ghost use Rattle.std.specs.Prelude.{◌≡◌, ◌<◌, ◌^◌, [], ◌∷◌, ◌++◌, length, map, IfOk, OnOk};
ghost use Rattle.name_tree.specs.Tree.{value_of};
ghost use Rattle.dtab_table.specs.Rules.{rule_of};
ghost use Rattle.dtab_check.specs.Indexed.{IsIndexed};
ghost use Rattle.dtab_check.specs.Live.{leaves_in, reached_by, stops_in};
ghost use Rattle.dtab_check.specs.Sure.{is_sure};

use crate::Mem;
use crate::found::leading_to;
use crate::indexed::IndexedEntries;
use crate::live::live_in;
use dtab_table::Entry;
use name_tree::Tree;
use std::alloc::{AllocError, Global};

/// Which entries of a table have a sure tree, entry by entry.
///
/// Each leaf is looked up once in an index of the table's prefixes. That takes one look-up for each
/// label, and a step for each prefix that the leaf begins with.
pub(crate) fn sure_entries(alloc: Global, entries: &[Entry]) -> Mem<Vec<bool>>
    requires { length entries.now < 2 ^ 32 }
    ensures { IfOk result (λ sure. sure.items
        ≡ map (λ r. is_sure (map rule_of entries.now) r.tree) (map rule_of entries.now)) }
{
    let indexed = IndexedEntries::of(alloc, entries)?;
    let mut own = Vec::with_capacity(alloc, entries.len())?;
    let mut rows = Vec::with_capacity(alloc, entries.len())?;
    for entry in entries {
        put_links(alloc, &indexed, &entry.tree, &mut own, &mut rows)?;
    }
    leading_to(alloc, own.as_slice(), rows.as_slice())
}

/// Puts behind others whether a tree is sure by itself, and which entries match one of its leaves.
fn put_links(
    alloc: Global,
    indexed: &IndexedEntries,
    tree: &Tree,
    own: &mut Vec<bool>,
    rows: &mut Vec<Vec<bool>>,
) -> Mem<()>
    requires { IsIndexed indexed.now }
    ensures own { OnOk result
        (own.new.items ≡ own.old.items ++ stops_in (value_of tree.now) ∷ []) }
    ensures rows { OnOk result
        (map (λ row. row.items) rows.new.items
        ≡ map (λ row. row.items) rows.old.items
        ++ reached_by (leaves_in (value_of tree.now)) (map rule_of indexed.now.entries.now) ∷ []) }
{
    let live = live_in(alloc, tree)?;
    let Ok(row) = indexed.reached_by(alloc, live.leaves.as_slice()) else {
        drop(live);
        return Err(AllocError);
    };
    let stops = live.stops;
    drop(live);
    own.push(stops)?;
    rows.push(row)?;
    Ok(())
}
