//! The places of the entries that match a path.
ghost use Rattle.std.specs.Prelude.{◌≡◌, ◌<◌, ◌^◌, length, IfOk};
ghost use Rattle.dtab_index.specs.Index.{matching};
ghost use Rattle.dtab_table.specs.Kept.{IsIndexed};
ghost use Rattle.dtab_table.specs.Rules.{placed_from};

use crate::Mem;
use crate::entry::Entry;
use dtab_index::Index;
use name_tree::Path;
use std::alloc::Global;

/// Of how many entries each is compared with a path, in place of a look-up.
pub(crate) const FEW_ENTRIES: usize = 8;

/// The index of the prefixes of some entries, whose positions are their places, counted from 0. Of
/// a few entries none is made, which takes no memory.
pub(crate) fn index_of(alloc: Global, entries: &[Entry]) -> Mem<Index>
    requires { length entries.now < 2 ^ 32 }
    ensures { IfOk result (λ index. IsIndexed entries.now index) }
{
    if entries.len() <= FEW_ENTRIES {
        return Ok(Index::new(alloc));
    }
    index_all(alloc, entries)
}

/// The index of the prefixes of some entries.
fn index_all(alloc: Global, entries: &[Entry]) -> Mem<Index>
    requires { length entries.now < 2 ^ 32 }
    ensures { IfOk result (λ index. index ≡ placed_from 0 entries.now) }
{
    let mut index = Index::new(alloc);
    for (at, entry) in entries.iter().enumerate() {
        index.add(entry.prefix.patterns(alloc)?, at as u32)?;
    }
    Ok(index)
}

/// The places of the entries whose prefix matches a path, the last first.
pub(crate) fn places(alloc: Global, entries: &[Entry], index: &Index, path: &Path) -> Mem<Vec<u32>>
    requires few { length entries.now < 2 ^ 32 }
    requires indexed { IsIndexed entries.now index.now }
    ensures { IfOk result (λ found. found.items ≡ matching (placed_from 0 entries.now) path.now) }
{
    if entries.len() <= FEW_ENTRIES {
        return compared(alloc, entries, path);
    }
    index.matching(alloc, path)
}

/// The places of the entries whose prefix matches a path, the last first. Each is compared with it.
fn compared(alloc: Global, entries: &[Entry], path: &Path) -> Mem<Vec<u32>>
    requires { length entries.now < 2 ^ 32 }
    ensures { IfOk result (λ found. found.items ≡ matching (placed_from 0 entries.now) path.now) }
{
    let mut found = Vec::new(alloc);
    for (at, entry) in entries.iter().enumerate() {
        if entry.prefix.matches(path) {
            found.push(at as u32)?;
        }
    }
    found.reverse();
    Ok(found)
}
