//! Trees without what makes no lookup.
ghost use Rattle.std.specs.Prelude.{◌≡◌, map, if◌then◌else◌, IfOk, OnOk};
ghost use Rattle.name_tree.specs.Value.{TreeValues, Branches as BranchValues, none, no_branch};
ghost use Rattle.name_tree.specs.Value.{tree_values};
ghost use Rattle.name_tree.specs.Lean.{tried_before, ends_choice, choice, values_then, lean_all};
ghost use Rattle.name_tree.specs.Lean.{union_left, mark_if, branches_then};
ghost use Rattle.name_tree.specs.Tree.{value_of, trees_in, listed};

use crate::Mem;
use crate::tree::{Branch, Branches, Tree, Trees};
use crate::union::choice_of;
use std::alloc::Global;

/// What was found of a union: its branches that make lookups, and the marks among its branches.
#[derive(Drop)]
struct LeanUnion {
    branches: Vec<Branch>,
    /// Whether a branch is `!`.
    fails: bool,
    /// Whether a branch is `$`.
    lacks: bool,
}

impl Tree {
    ghost use Rattle.name_tree.specs.Lean.{lean};
    ghost use Rattle.name_tree.specs.Tree.{value_of};

    /// This tree without what makes no lookup, which stands for the same: an alternation without
    /// its negative alternatives, and without those behind the first `!` or `$`; a union of its
    /// branches of weight other than 0 that make lookups, with one `!` and one `$` behind them
    /// where a branch was one. An alternation or a union of which nothing else is left is a mark.
    ///
    /// It shares the paths of the leaves that are left.
    #[cycle(lean)]
    pub fn lean(&self, alloc: Global) -> Mem<Tree>
        ensures { IfOk result (λ tree. value_of tree ≡ lean (value_of self.now)) }
    {
        match self {
            Tree::Leaf(path) => Ok(Tree::Leaf(path.part(alloc, 0, path.len())?)),
            Tree::Neg => Ok(Tree::Neg),
            Tree::Fail => Ok(Tree::Fail),
            Tree::Empty => Ok(Tree::Empty),
            Tree::Alt(trees) => Ok(lean_choice(trees.lean(alloc)?)),
            Tree::Union(branches) => branches.lean(alloc),
        }
    }
}

impl Trees {
    /// The alternatives that may be tried.
    #[cycle(lean)]
    fn lean(&self, alloc: Global) -> Mem<Vec<Tree>>
        ensures { IfOk result (λ left. tree_values (map value_of left.items)
            ≡ lean_all (tree_values (map value_of (trees_in self.now)))) }
    {
        let mut left = Vec::new(alloc);
        for tree in &self.items {
            let goes_on = put_alternative(&mut left, tree.lean(alloc)?)?;
            if !goes_on {
                return Ok(left);
            }
        }
        Ok(left)
    }
}

impl Branches {
    ghost use Rattle.name_tree.specs.Lean.{lean_each, union_of_parts};
    ghost use Rattle.name_tree.specs.Tree.{branches_of};

    /// What is left of a union of these branches.
    #[cycle(lean)]
    fn lean(&self, alloc: Global) -> Mem<Tree>
        ensures { IfOk result
            (λ tree. value_of tree ≡ union_of_parts (lean_each (branches_of self.now))) }
    {
        let mut left = LeanUnion::new(alloc);
        for branch in &self.items {
            if branch.weight > 0 {
                left.add(branch.weight, branch.tree.lean(alloc)?)?;
            }
        }
        left.into_tree()
    }
}

/// Puts an alternative behind others, unless it is negative, and says whether those behind it may
/// be tried.
fn put_alternative(left: &mut Vec<Tree>, tree: Tree) -> Mem<bool>
    ensures { IfOk result (λ goes_on. (ts : TreeValues) →
        values_then (map value_of left.new.items) (if goes_on then ts else none)
        ≡ values_then (map value_of left.old.items) (tried_before (value_of tree) ts)) }
{
    if tree.is_neg() {
        drop(tree);
        return Ok(true);
    }
    let ends = ends_choice(&tree);
    left.push(tree)?;
    Ok(!ends)
}

/// Whether no alternative behind this one is tried, whatever paths come to.
fn ends_choice(tree: &Tree) -> bool
    ensures { result ≡ ends_choice (value_of tree.now) }
{
    match tree {
        Tree::Fail | Tree::Empty => true,
        Tree::Leaf(_) | Tree::Neg | Tree::Alt(_) | Tree::Union(_) => false,
    }
}

/// An alternation of some alternatives: of none it is negative, and of one it is that.
fn lean_choice(trees: Vec<Tree>) -> Tree
    ensures { value_of result ≡ choice (tree_values (map value_of trees.items)) }
{
    if trees.is_empty() {
        return Tree::Neg;
    }
    choice_of(trees)
}

impl LeanUnion {
    ghost use Rattle.name_tree.specs.Lean.{Parts, no_parts, part_before, joined_parts};
    ghost use Rattle.name_tree.specs.Lean.{union_of_parts};
    ghost use Rattle.name_tree.specs.LeanUnion.{parts_in};

    /// Nothing was found. It takes no memory.
    fn new(alloc: Global) -> LeanUnion
        ensures { parts_in result ≡ no_parts }
    {
        LeanUnion {
            branches: Vec::new(alloc),
            fails: false,
            lacks: false,
        }
    }

    /// Adds a branch with a weight other than 0.
    fn add(&mut self, weight: u64, tree: Tree) -> Mem<()>
        ensures { OnOk result ((p : Parts) → joined_parts (parts_in self.new) p
            ≡ joined_parts (parts_in self.old) (part_before weight (value_of tree) p)) }
    {
        if tree.is_neg() {
            drop(tree);
            return Ok(());
        }
        if tree.is_fail() {
            drop(tree);
            self.fails = true;
            return Ok(());
        }
        if tree.is_empty() {
            drop(tree);
            self.lacks = true;
            return Ok(());
        }
        self.branches.push(Branch { weight, tree })?;
        Ok(())
    }

    /// The union of what was found. Without a branch that makes a lookup it is a mark.
    fn into_tree(self) -> Mem<Tree>
        ensures { IfOk result (λ tree. value_of tree ≡ union_of_parts (parts_in self)) }
    {
        if self.branches.is_empty() {
            return Ok(mark_of(self.fails, self.lacks));
        }
        let mut branches = self.branches;
        put_mark_if(self.fails, Tree::Fail, &mut branches)?;
        put_mark_if(self.lacks, Tree::Empty, &mut branches)?;
        Ok(Tree::Union(Branches::of(branches)))
    }
}

/// Puts a mark behind some branches, if it is wanted there.
fn put_mark_if(wanted: bool, tree: Tree, branches: &mut Vec<Branch>) -> Mem<()>
    ensures { OnOk result ((bs : BranchValues) → branches_then (listed branches.new.items) bs
        ≡ branches_then (listed branches.old.items) (mark_if wanted (value_of tree) bs)) }
{
    if !wanted {
        drop(tree);
        return Ok(());
    }
    branches.push(Branch { weight: 1, tree })?;
    Ok(())
}

/// What a union comes to that has nothing but marks.
fn mark_of(fails: bool, lacks: bool) -> Tree
    ensures { value_of result ≡ union_left fails lacks no_branch }
{
    if fails {
        Tree::Fail
    } else if lacks {
        Tree::Empty
    } else {
        Tree::Neg
    }
}
