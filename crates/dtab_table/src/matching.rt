//! Which entries match a path.
ghost use Rattle.std.specs.Prelude.{◌≡◌, ◌-◌, ◌<◌, ◌≤◌, ◌^◌, length, map, take, drop};
ghost use Rattle.dtab_table.specs.Kept.{IsIndexed};
ghost use Rattle.dtab_table.specs.Rules.{rule_of};
ghost use Rattle.dtab_table.specs.Dtab.{some_matches};

use crate::entry::Entry;
use crate::places::FEW_ENTRIES;
use dtab_index::Index;
use name_tree::Path;

/// Whether the prefix of some entry, from one place to before another, matches a path.
pub(crate) fn any_between(
    entries: &[Entry],
    index: &Index,
    from: usize,
    to: usize,
    path: &Path,
) -> bool
    requires few { length entries.now < 2 ^ 32 }
    requires indexed { IsIndexed entries.now index.now }
    requires order { from ≤ to }
    requires within { to ≤ length entries.now }
    ensures { result ≡ some_matches (take (to - from) (drop from (map rule_of entries.now)))
        path.now }
{
    if to - from <= FEW_ENTRIES {
        return some_entry_matches(&entries[from..to], path);
    }
    index.matches_any(from as u32, to as u32, path)
}

/// Whether the prefix of some entry matches a path.
fn some_entry_matches(entries: &[Entry], path: &Path) -> bool
    ensures { result ≡ some_matches (map rule_of entries.now) path.now }
{
    for entry in entries {
        if entry.prefix.matches(path) {
            return true;
        }
    }
    false
}
