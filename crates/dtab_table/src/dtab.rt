//! Delegation tables.
ghost use Rattle.std.specs.Prelude.{◌≡◌, ◌+◌, ◌-◌, ◌<◌, ◌≤◌, ◌^◌, [], length, map, take, drop};
ghost use Rattle.std.specs.Prelude.{slice_get, Some, IfOk, All};
ghost use Rattle.name_tree.specs.Tree.{value_of};
ghost use Rattle.dtab_table.specs.LeanTrees.{lean_trees, lent_trees};
ghost use Rattle.dtab_table.specs.Rules.{rule_of};

use crate::Mem;
use crate::entry::{Entry, EntryList};
use crate::lean_tree::LeanTree;
use crate::parts::Parts;
use crate::tree_list::TreeList;
use name_tree::Path;
use std::alloc::Global;
use std::sync::Arc;
use std::sync::ledger::Ledger;
use step_count::Steps;

/// A delegation table: a list of entries. Of two that match a path, the later one is tried first.
///
/// Contracts see what it says as `rules_of dtab`, the list of its prefixes and trees. Its entries
/// never change, and it shares them with its copies. Beside the entries it keeps what there is to
/// try of their trees, and where there are more than a few, an index of their prefixes.
pub struct Dtab {
    /// `None` stands for no entry.
    parts: Option<Arc<Parts>>,
}

impl Drop for Dtab {
    fn drop(self) {
        let Dtab { parts } = self;
        drop(parts);
    }
}

impl Dtab {
    ghost use Rattle.dtab_table.specs.Dtab.{rules_of, rewrites, rewritten_by_each, some_matches};
    ghost use Rattle.dtab_table.specs.Rules.{rule_of};

    /// The table with no entry. It takes no memory.
    pub fn empty(_alloc: Global) -> Dtab
        ensures { rules_of result ≡ [] }
    {
        Dtab { parts: None }
    }

    /// The table of these entries, in their order. It makes what there is to try of their trees,
    /// and where they are more than a few, copies their prefixes into an index.
    pub fn of(alloc: Global, entries: EntryList) -> Mem<Dtab>
        requires { length entries < 2 ^ 32 }
        ensures { IfOk result (λ dtab. rules_of dtab ≡ map rule_of entries) }
    {
        let parts = Parts::of(alloc, entries.into_items())?;
        Ok(Dtab {
            parts: Some(Arc::new(alloc, parts)?),
        })
    }

    /// How many entries it has.
    pub fn len(&self) -> usize
        ensures { result ≡ length (rules_of self.now) }
    {
        self.entries().len()
    }

    /// Its entry at a place, counted from 0.
    pub fn entry(&self, at: usize) -> &Entry
        requires { at < length (rules_of self.now) }
        ensures { slice_get (rules_of self.now) at ≡ Some (rule_of result.now) }
    {
        &self.entries()[at]
    }

    /// Its entries, in order.
    pub fn entries(&self) -> &[Entry]
        ensures { map rule_of result.now ≡ rules_of self.now }
    {
        match &self.parts {
            Some(parts) => parts.entries(),
            None => &[],
        }
    }

    /// The same table once more. The two share their entries, and no memory is taken.
    pub fn copied(&self, _alloc: Global) -> Mem<Dtab>
        ensures { IfOk result (λ dtab. rules_of dtab ≡ rules_of self.now) }
    {
        match &self.parts {
            Some(parts) => Ok(Dtab {
                parts: Some(Arc::try_clone(parts)?),
            }),
            None => Ok(Dtab { parts: None }),
        }
    }

    /// Whether the prefix of some entry, from one place to before another, counted from 0, matches
    /// a path. It takes no memory.
    ///
    /// A few entries are compared with the path one by one. Of more, up to 1,024, those that match
    /// are found by one look-up in the table's index for each label of the path, however many they
    /// are.
    pub fn matches_any(&self, from: usize, to: usize, path: &Path) -> bool
        requires order { from ≤ to }
        requires within { to ≤ length (rules_of self.now) }
        ensures { result ≡ some_matches (take (to - from) (drop from (rules_of self.now)))
            path.now }
    {
        match &self.parts {
            Some(parts) => parts.matches_any(from, to, path),
            None => false,
        }
    }

    /// The entries whose prefix matches a path, the last entry first. The prefix of each takes the
    /// first labels of the path, as many as it has itself, and the labels behind those are the
    /// rest. One call is one step.
    ///
    /// The cost is, for every 1,024 entries, one look-up in the table's index for each label of the
    /// path, or a comparison with each of a few entries, and the memory of the answer, a reference
    /// for each entry that matches. No tree is looked at, and none is copied.
    pub fn matching<'a, L: Ledger>(
        &'a self,
        alloc: Global,
        path: &Path,
        steps: &mut Steps<L>,
    ) -> Mem<Vec<&'a Entry>>
        ensures trees { IfOk result
            (λ found. rewritten_by_each path.now found.items
            ≡ rewrites (rules_of self.now) path.now) }
        ensures long { IfOk result
            (λ found. All (λ entry. length entry.now.prefix ≤ length path.now) found.items) }
        ensures ticks { steps.new ≡ steps.old + 1 }
    {
        steps.tick();
        match &self.parts {
            Some(parts) => parts.matching(alloc, path),
            None => Ok(Vec::new(alloc)),
        }
    }

    /// What there is to try of the trees that the table rewrites a path to: of the entries that
    /// match, the last entry first, each tree without what makes no lookup, unless nothing is left
    /// of it. Whatever stands behind the leaves, these come to the same as all the trees, after the
    /// same lookups. One call is one step.
    ///
    /// The cost is that of [`Dtab::matching`]. The trees are lent.
    pub fn lean_matching<'a, L: Ledger>(
        &'a self,
        alloc: Global,
        path: &Path,
        steps: &mut Steps<L>,
    ) -> Mem<Vec<LeanTree<'a>>>
        ensures trees { IfOk result
            (λ found. lent_trees path.now found.items
            ≡ lean_trees (rewrites (rules_of self.now) path.now)) }
        ensures ticks { steps.new ≡ steps.old + 1 }
    {
        steps.tick();
        match &self.parts {
            Some(parts) => parts.lean_matching(alloc, path),
            None => Ok(Vec::new(alloc)),
        }
    }

    /// What the table rewrites a path to: the trees of all entries whose prefix matches, the last
    /// entry first, each with the rest of the path behind every leaf, as the Finagle user guide has
    /// it. One lookup is at least one step.
    ///
    /// The cost is that of [`Dtab::matching`], and a copy of the tree of each entry that matches,
    /// with the rest of the path behind each of its leaves. Where only some of the trees will be
    /// tried, [`Dtab::matching`] lends them instead.
    pub fn lookup<L: Ledger>(
        &self,
        alloc: Global,
        path: &Path,
        steps: &mut Steps<L>,
    ) -> Mem<TreeList>
        ensures trees { IfOk result
            (λ trees. map value_of trees ≡ rewrites (rules_of self.now) path.now) }
        ensures ticks { steps.new ≡ steps.old + 1 }
    {
        let found = self.matching(alloc, path, steps)?;
        let mut trees = Vec::with_capacity(alloc, found.len())?;
        for entry in &found {
            let rest = entry.prefix.labels().len();
            trees.push(entry.tree.with_rest(alloc, path, rest)?)?;
        }
        Ok(TreeList::of(trees))
    }
}
