//! What a table keeps.
ghost use Rattle.std.specs.Prelude.{◌≡◌, ◌-◌, ◌<◌, ◌≤◌, ◌^◌, length, map, take, drop, IfOk, All};
ghost use Rattle.dtab_table.specs.Dtab.{rewrites, rewritten_by_each, some_matches};
ghost use Rattle.dtab_table.specs.LeanTrees.{lean_trees, lent_trees};
ghost use Rattle.dtab_table.specs.Rules.{rule_of};

use crate::Mem;
use crate::entry::Entry;
use crate::lean_tree::{LeanTree, leaner_of};
use crate::lending::{lend_entries, lend_trees};
use crate::matching::any_between;
use crate::places::index_of;
use dtab_index::Index;
use name_tree::{Path, Tree};
use std::alloc::Global;
use std::marker::Model;

/// Some entries, which contracts see as their list. Beside them stand what there is to try of their
/// trees, and an index of their prefixes, in which the position of an entry is its place.
pub(crate) struct Parts {
    entries: Vec<Entry>,
    leaner: Vec<Option<Tree>>,
    index: Index,
}

impl Drop for Parts {
    fn drop(self) {
        let Parts {
            entries,
            leaner,
            index,
        } = self;
        drop(entries);
        drop(leaner);
        drop(index);
    }
}

impl Model for Parts {
    ghost use Rattle.std.specs.Prelude.{List};
    ghost use Rattle.std.specs.Coded.{coded_list};
    ghost use Rattle.dtab_table.specs.declared.entry.Entry.{Entry};
    ghost use Rattle.dtab_table.specs.contracts.entry.Entry as entry;

    ghost Value = { List Entry };

    ghost coded = { coded_list entry.the_row.coded };

    ghost use Rattle.dtab_table.specs.Kept.{IsKept};

    ghost view = { λ p. p.entries.items };

    ghost invariant = { λ p. IsKept p.entries.items p.leaner.items p.index };
}

impl Parts {
    /// These entries, in their order. What there is to try of their trees is made, and where they
    /// are more than a few, their prefixes are copied into an index.
    pub(crate) fn of(alloc: Global, entries: Vec<Entry>) -> Mem<Parts>
        requires { length entries.items < 2 ^ 32 }
        ensures { IfOk result (λ parts. parts ≡ entries.items) }
    {
        let leaner = leaner_of(alloc, entries.as_slice())?;
        let index = index_of(alloc, entries.as_slice())?;
        Ok(Parts {
            entries,
            leaner,
            index,
        })
    }

    /// Its entries, in order.
    pub(crate) fn entries(&self) -> &[Entry]
        ensures { result.now ≡ self.now }
    {
        self.entries.as_slice()
    }

    /// Whether the prefix of some entry, from one place to before another, matches a path.
    pub(crate) fn matches_any(&self, from: usize, to: usize, path: &Path) -> bool
        requires order { from ≤ to }
        requires within { to ≤ length self.now }
        ensures { result ≡ some_matches (take (to - from) (drop from (map rule_of self.now)))
            path.now }
    {
        any_between(self.entries.as_slice(), &self.index, from, to, path)
    }

    /// The entries whose prefix matches a path, the last first.
    pub(crate) fn matching<'a>(&'a self, alloc: Global, path: &Path) -> Mem<Vec<&'a Entry>>
        ensures trees { IfOk result
            (λ found. rewritten_by_each path.now found.items
            ≡ rewrites (map rule_of self.now) path.now) }
        ensures long { IfOk result
            (λ found. All (λ entry. length entry.now.prefix ≤ length path.now) found.items) }
    {
        lend_entries(alloc, self.entries.as_slice(), &self.index, path)
    }

    /// The lean trees of those entries, but for the negative ones.
    pub(crate) fn lean_matching<'a>(&'a self, alloc: Global, path: &Path) -> Mem<Vec<LeanTree<'a>>>
        ensures { IfOk result
            (λ found. lent_trees path.now found.items
            ≡ lean_trees (rewrites (map rule_of self.now) path.now)) }
    {
        let entries = self.entries.as_slice();
        lend_trees(alloc, entries, self.leaner.as_slice(), &self.index, path)
    }
}
