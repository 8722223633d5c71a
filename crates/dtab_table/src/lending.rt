//! The entries that match a path, and their lean trees.
ghost use Rattle.std.specs.Prelude.{◌≡◌, ◌<◌, ◌≤◌, ◌^◌, length, map, IfOk, All};
ghost use Rattle.dtab_table.specs.Dtab.{rewrites, rewritten_by_each};
ghost use Rattle.dtab_table.specs.Kept.{AreLean, IsIndexed};
ghost use Rattle.dtab_table.specs.LeanTrees.{lean_trees, lent_trees};
ghost use Rattle.dtab_table.specs.Rules.{rule_of};

use crate::Mem;
use crate::entry::Entry;
use crate::lean_tree::{LeanTree, lean_tree, put_tree};
use crate::places::places;
use dtab_index::Index;
use name_tree::{Path, Tree};
use std::alloc::Global;

/// The entries whose prefix matches a path, the last first.
pub(crate) fn lend_entries<'a>(
    alloc: Global,
    entries: &'a [Entry],
    index: &Index,
    path: &Path,
) -> Mem<Vec<&'a Entry>>
    requires few { length entries.now < 2 ^ 32 }
    requires indexed { IsIndexed entries.now index.now }
    ensures trees { IfOk result
        (λ found. rewritten_by_each path.now found.items
        ≡ rewrites (map rule_of entries.now) path.now) }
    ensures long { IfOk result
        (λ found. All (λ entry. length entry.now.prefix ≤ length path.now) found.items) }
{
    let places = places(alloc, entries, index, path)?;
    let mut found = Vec::with_capacity(alloc, places.len())?;
    for at in &places {
        let entry = &entries[*at as usize];
        found.push(entry)?;
    }
    Ok(found)
}

/// The lean trees of the entries whose prefix matches a path, those of the last first, but for the
/// negative ones.
pub(crate) fn lend_trees<'a>(
    alloc: Global,
    entries: &'a [Entry],
    leaner: &'a [Option<Tree>],
    index: &Index,
    path: &Path,
) -> Mem<Vec<LeanTree<'a>>>
    requires few { length entries.now < 2 ^ 32 }
    requires lean { AreLean entries.now leaner.now }
    requires indexed { IsIndexed entries.now index.now }
    ensures { IfOk result
        (λ found. lent_trees path.now found.items
        ≡ lean_trees (rewrites (map rule_of entries.now) path.now)) }
{
    let places = places(alloc, entries, index, path)?;
    let mut found = Vec::with_capacity(alloc, places.len())?;
    for at in &places {
        let entry = &entries[*at as usize];
        let tree = lean_tree(entry, &leaner[*at as usize]);
        put_tree(&mut found, tree, entry.prefix.labels().len())?;
    }
    Ok(found)
}
