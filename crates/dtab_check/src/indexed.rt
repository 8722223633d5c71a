//! The prefixes of a table in an index.
ghost use Rattle.std.specs.Prelude.{◌≡◌, ◌+◌, ◌<◌, ◌^◌, Some, IfOk, OnOk, length, map, All};
ghost use Rattle.std.specs.List.{Contains};
ghost use Rattle.dtab_index.specs.Index.{Placed, AreBelow};
ghost use Rattle.dtab_table.specs.Rules.{rule_of};
ghost use Rattle.dtab_check.specs.Indexed.{prefix_at, AreOf, AreNoted, IsIndexed, AreMet, Marks};
ghost use Rattle.dtab_check.specs.Live.{paths_of, reached_by};

use crate::Mem;
use crate::found::is_set;
use crate::prefixes::{are_same, matched_path, patterns_of};
use dtab_index::Index;
use dtab_table::{Entry, Prefix};
use name_tree::Path;
use std::alloc::{AllocError, Global};

/// The entries of a table, and their prefixes in an index.
///
/// Entries with the same prefix match the same paths. So a prefix stands in the index once, for the
/// first entry that has it, and what matches a path is found by one look-up for each of its labels,
/// however many entries there are.
pub(crate) struct IndexedEntries<'a> {
    entries: &'a [Entry],
    /// The prefixes, each at the position of the first entry that has it.
    index: Index,
    /// For each entry, the position at which its prefix stands in the index.
    first: Vec<usize>,
}

impl Drop for IndexedEntries<'_> {
    fn drop(self) {
        let IndexedEntries {
            entries: _,
            index,
            first,
        } = self;
        drop(index);
        drop(first);
    }
}

impl<'a> IndexedEntries<'a> {
    /// These entries, with their prefixes in an index.
    pub(crate) fn of(alloc: Global, entries: &'a [Entry]) -> Mem<IndexedEntries<'a>>
        requires { length entries.now < 2 ^ 32 }
        ensures indexed { IfOk result IsIndexed }
        ensures entries { IfOk result (λ indexed. indexed.entries ≡ entries.entry) }
    {
        let mut index = Index::new(alloc);
        let mut first = Vec::with_capacity(alloc, entries.len())?;
        for at in 0..entries.len() {
            first.push(place_of(alloc, entries, at, &mut index)?)?;
        }
        Ok(IndexedEntries {
            entries,
            index,
            first,
        })
    }

    /// Which entries match one of these leaves, entry by entry.
    pub(crate) fn reached_by(&self, alloc: Global, leaves: &[&Path]) -> Mem<Vec<bool>>
        requires { IsIndexed self.now }
        ensures { IfOk result (λ row. row.items
            ≡ reached_by (paths_of leaves.now) (map rule_of self.now.entries.now)) }
    {
        let met = self.met_by(alloc, leaves)?;
        let mut row = Vec::with_capacity(alloc, self.first.len())?;
        for place in &self.first {
            row.push(is_set(met.as_slice(), *place))?;
        }
        Ok(row)
    }

    /// Which prefixes match one of these leaves, by their positions in the index.
    fn met_by(&self, alloc: Global, leaves: &[&Path]) -> Mem<Vec<bool>>
        requires { IsIndexed self.now }
        ensures { IfOk result (λ met. AreMet self.now.index (paths_of leaves.now) met.items) }
    {
        let mut met = vec![in alloc; false; self.entries.len()]?;
        for leaf in leaves {
            let found = self.index.matching(alloc, leaf)?;
            mark(&mut met, found.as_slice());
        }
        Ok(met)
    }
}

/// The position at which the prefix of an entry stands in the index of those before it. It is put
/// there where it does not stand in it yet.
fn place_of(alloc: Global, entries: &[Entry], at: usize, index: &mut Index) -> Mem<usize>
    requires within { at < length entries.now }
    requires few { length entries.now < 2 ^ 32 }
    requires entries { AreOf entries.now index.old }
    requires below { AreBelow at index.old }
    ensures entries { OnOk result (AreOf entries.now index.new) }
    ensures below { OnOk result (AreBelow (at + 1) index.new) }
    ensures kept { OnOk result
        ((p : Placed) → Contains index.old p → Contains index.new p) }
    ensures noted { IfOk result (λ place. Contains index.new (prefix_at entries.now at, place)) }
{
    let prefix = &entries[at].prefix;
    if let Some(place) = find(alloc, entries, index, prefix)? {
        return Ok(place);
    }
    index.add(patterns_of(alloc, prefix)?, at as u32)?;
    Ok(at)
}

/// The position of a prefix in an index, if it stands there.
fn find(alloc: Global, entries: &[Entry], index: &Index, prefix: &Prefix) -> Mem<Option<usize>>
    requires { AreOf entries.now index.now }
    ensures { IfOk result (λ found. (place : _) → found ≡ Some place
        → Contains index.now (prefix.now, place)) }
{
    let path = matched_path(alloc, prefix)?;
    let Ok(covers) = index.matching(alloc, &path) else {
        drop(path);
        return Err(AllocError);
    };
    drop(path);
    for cover in &covers {
        let place = *cover as usize;
        if are_same(&entries[place].prefix, prefix) {
            return Ok(Some(place));
        }
    }
    Ok(None)
}

/// Marks some positions.
fn mark(met: &mut Vec<bool>, places: &[u32])
    requires { All (λ place. place < length met.old.items) places.now }
    ensures marks { Marks met.old.items met.new.items places.now }
    ensures size { length met.new.items ≡ length met.old.items }
{
    for place in places {
        met[*place as usize] = true;
    }
}
