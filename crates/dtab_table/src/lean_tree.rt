//! The trees of a table without what makes no lookup.
ghost use Rattle.std.specs.Prelude.{◌≡◌, ◌++◌, drop, map, List, IfOk, OnOk};
ghost use Rattle.name_tree.specs.Path.{Labels};
ghost use Rattle.name_tree.specs.Value.{TreeValue, append_rest};
ghost use Rattle.name_tree.specs.Tree.{value_of};
ghost use Rattle.dtab_table.specs.Kept.{lean_value, AreLean};
ghost use Rattle.dtab_table.specs.LeanTrees.{unless_neg, lent_trees};
ghost use Rattle.name_tree.specs.Lean.{lean};

use crate::Mem;
use crate::entry::Entry;
use name_tree::Tree;
use std::alloc::Global;

/// A tree that a path is rewritten to, without what makes no lookup. A table lends it.
#[derive(Clone, Copy)]
pub struct LeanTree<'a> {
    /// The tree. The labels of the path that its prefix didn't take stand behind every leaf of it.
    pub tree: &'a Tree,
    /// How many labels of the path its prefix took.
    pub taken: usize,
}

/// The lean trees of some entries, in order, where they are others than their own.
pub(crate) fn leaner_of(alloc: Global, entries: &[Entry]) -> Mem<Vec<Option<Tree>>>
    ensures { IfOk result (λ leaner. AreLean entries.now leaner.items) }
{
    let mut leaner = Vec::with_capacity(alloc, entries.len())?;
    for entry in entries {
        leaner.push(leaner_tree(alloc, entry)?)?;
    }
    Ok(leaner)
}

/// The lean tree of an entry, where it may be another one than its own. Of a leaf or a mark none is
/// made.
fn leaner_tree(alloc: Global, entry: &Entry) -> Mem<Option<Tree>>
    ensures { IfOk result (λ leaner. lean_value entry.now leaner ≡ lean (value_of entry.now.tree)) }
{
    match &entry.tree {
        Tree::Leaf(_) | Tree::Neg | Tree::Fail | Tree::Empty => Ok(None),
        Tree::Alt(_) | Tree::Union(_) => Ok(Some(entry.tree.lean(alloc)?)),
    }
}

/// The lean tree of an entry.
pub(crate) fn lean_tree<'a>(entry: &'a Entry, leaner: &'a Option<Tree>) -> &'a Tree
    ensures { value_of result.now ≡ lean_value entry.now leaner.now }
{
    match leaner {
        Some(tree) => tree,
        None => &entry.tree,
    }
}

/// Puts a lean tree behind others, unless it is negative.
pub(crate) fn put_tree<'a>(found: &mut Vec<LeanTree<'a>>, tree: &'a Tree, taken: usize) -> Mem<()>
    ensures { OnOk result ((path : Labels) → (ts : List TreeValue)
        → lent_trees path found.new.items ++ ts
        ≡ lent_trees path found.old.items
        ++ unless_neg (append_rest (value_of tree.now) (drop taken path)) ts) }
{
    match tree {
        Tree::Neg => {}
        Tree::Leaf(_) | Tree::Fail | Tree::Empty | Tree::Alt(_) | Tree::Union(_) => {
            found.push(LeanTree { tree, taken })?;
        }
    }
    Ok(())
}
