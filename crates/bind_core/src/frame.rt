//! What is left of a delegation: frames of a stack.
ghost use Rattle.std.specs.Bool.{OnTrue};
ghost use Rattle.std.specs.Slice.Iter.{iter_rest};
ghost use Rattle.name_tree.specs.Tree.{listed};
ghost use Rattle.bind_core.specs.Stack.{NoTreeLeft, IsNextTree, IsNextWeighted};

use crate::gathered::Gathered;
use crate::rewritten::HeldPath;
use addr_book::Leaf;
use dtab_table::LeanTree;
use name_tree::{Branch, Tree};
use std::alloc::Global;
use std::slice::Iter;
use std::vec::IntoIter;

/// What is left of a lookup, of an alternation or of a union.
#[derive(Drop)]
pub(crate) enum Frame<'a> {
    /// A lookup or an alternation.
    FirstOf(FirstOf<'a>),
    /// A union.
    Union(Union<'a>),
}

/// What is left of a lookup or of an alternation, where all that was tried of it came to nothing:
/// it comes to what the first of its trees does that comes to something.
pub(crate) struct FirstOf<'a> {
    /// The trees that are left, which are tried in order.
    pub(crate) trees: TreesLeft<'a>,
    /// The path that was looked up, whose rest stands behind their leaves.
    pub(crate) path: HeldPath<'a>,
    /// What the path names by itself, which is tried after the trees. An alternation names nothing.
    pub(crate) named: Option<Leaf>,
    /// Which lookup it is of, counted from 0 in the order in which they began. An alternation is of
    /// none.
    pub(crate) visit: Option<u32>,
    /// How many lookups are left in the chain for the leaves of the trees.
    pub(crate) left: u32,
}

impl Drop for FirstOf<'_> {
    fn drop(self) {
        let FirstOf {
            trees,
            path,
            named,
            visit: _,
            left: _,
        } = self;
        drop(trees);
        drop(path);
        drop(named);
    }
}

/// Trees of the tables that are left to try. They are lent.
pub(crate) enum TreesLeft<'a> {
    /// Those of the entries that match the path that was looked up.
    Entries(IntoIter<LeanTree<'a>, Global>),
    /// Alternatives of one tree.
    Alternatives(Alternatives<'a>),
}

impl Drop for TreesLeft<'_> {
    fn drop(self) {
        match self {
            TreesLeft::Entries(entries) => drop(entries),
            TreesLeft::Alternatives(left) => drop(left),
        }
    }
}

/// Alternatives of a tree of the tables that are left to try.
#[derive(Drop)]
pub(crate) struct Alternatives<'a> {
    /// They, in order.
    pub(crate) trees: Iter<'a, Tree>,
    /// How many labels of the path the prefix of their tree took.
    pub(crate) from: usize,
}

/// What is left of a union.
pub(crate) struct Union<'a> {
    /// The branches that are left, which are evaluated in order where their weight isn't 0. They
    /// are lent.
    pub(crate) branches: Iter<'a, Branch>,
    /// The path that was looked up, whose rest stands behind their leaves.
    pub(crate) path: HeldPath<'a>,
    /// How many labels of it the prefix took.
    pub(crate) from: usize,
    /// The weight of the branch that is being evaluated. 0 before the first.
    pub(crate) weight: u64,
    /// What the branches before it came to.
    pub(crate) gathered: Gathered,
    /// How many lookups are left in the chain for the leaves of the branches.
    pub(crate) left: u32,
}

impl Drop for Union<'_> {
    fn drop(self) {
        let Union {
            branches,
            path,
            from: _,
            weight: _,
            gathered,
            left: _,
        } = self;
        drop(branches);
        drop(path);
        drop(gathered);
    }
}

impl<'a> FirstOf<'a> {
    ghost use Rattle.std.specs.Prelude.{◌≡◌};

    /// What the path names by itself.
    pub(crate) fn into_named(self) -> Option<Leaf>
        ensures { result ≡ self.entry.named }
    {
        let FirstOf {
            trees,
            path,
            named,
            visit: _,
            left: _,
        } = self;
        drop(trees);
        drop(path);
        named
    }
}

impl<'a> Union<'a> {
    ghost use Rattle.std.specs.Prelude.{◌≡◌};

    /// What the branches that were evaluated came to.
    pub(crate) fn into_gathered(self) -> Gathered
        ensures { result ≡ self.entry.gathered }
    {
        let Union {
            branches,
            path,
            from: _,
            weight: _,
            gathered,
            left: _,
        } = self;
        drop(branches);
        drop(path);
        gathered
    }
}

impl<'a> TreesLeft<'a> {
    /// Whether there is none.
    pub(crate) fn is_empty(&self) -> bool
        ensures { OnTrue result (NoTreeLeft self.now) }
    {
        match self {
            TreesLeft::Entries(entries) => entries.len() == 0,
            TreesLeft::Alternatives(left) => left.trees.len() == 0,
        }
    }

    /// The next tree, and how many labels of the path its prefix took.
    pub(crate) fn next(&mut self) -> Option<(&'a Tree, usize)>
        ensures { IsNextTree self.old self.new result }
    {
        match self {
            TreesLeft::Entries(entries) => {
                let lent = entries.next()?;
                Some((lent.tree, lent.taken))
            }
            TreesLeft::Alternatives(left) => {
                let tree = left.trees.next()?;
                Some((tree, left.from))
            }
        }
    }
}

/// The weight and the tree of the next branch whose weight isn't 0.
pub(crate) fn next_weighted<'a>(branches: &mut Iter<'a, Branch>) -> Option<(u64, &'a Tree)>
    ensures { IsNextWeighted (listed (iter_rest branches.old))
        (listed (iter_rest branches.new)) result }
{
    while let Some(branch) = branches.next() {
        if branch.weight > 0 {
            return Some((branch.weight, &branch.tree));
        }
    }
    None
}
