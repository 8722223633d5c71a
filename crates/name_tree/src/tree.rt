//! Trees of paths.
ghost use Rattle.std.specs.Prelude.{◌≡◌, ◌↔◌, ◌≤◌, ◌||◌, length, drop, map, IfOk, IsTrue};

use crate::Mem;
use crate::path::Path;
use std::alloc::Global;

/// What a name stands for: a path, a mark, alternatives or a union, as in the name trees of the
/// Finagle user guide.
#[cycle(tree)]
#[derive(Drop)]
pub enum Tree {
    /// A path, which is looked up.
    Leaf(Path),
    /// `~`: there is nothing here, so the next alternative is tried.
    Neg,
    /// `!`: the request fails.
    Fail,
    /// `$`: there is no replica, and the next alternative isn't tried.
    Empty,
    /// The first alternative that isn't negative, of two or more.
    Alt(Trees),
    /// One of its branches, chosen by their weights.
    Union(Branches),
}

/// Some trees, in order.
#[cycle(tree)]
#[derive(Drop)]
pub struct Trees {
    pub(crate) items: Vec<Tree>,
}

/// A branch of a union.
#[cycle(tree)]
#[derive(Drop)]
pub struct Branch {
    /// Its weight, in millionths.
    pub weight: u64,
    /// Its tree.
    pub tree: Tree,
}

/// Some branches, in order.
#[cycle(tree)]
#[derive(Drop)]
pub struct Branches {
    pub(crate) items: Vec<Branch>,
}

impl Tree {
    ghost use Rattle.name_tree.specs.Canon.{is_alt, is_union};
    ghost use Rattle.name_tree.specs.Value.{leaf, neg, fail, empty, append_rest};
    ghost use Rattle.name_tree.specs.Tree.{value_of};

    /// This tree with the labels of a path from a place on, counted from 0, behind every leaf of
    /// every alternative and branch. Marks and weights stay as they are.
    ///
    /// It copies the tree and, for each leaf, those labels.
    #[cycle(with_rest)]
    pub fn with_rest(&self, alloc: Global, path: &Path, from: usize) -> Mem<Tree>
        requires { from ≤ length path.now }
        ensures { IfOk result
            (λ tree. value_of tree ≡ append_rest (value_of self.now) (drop from path.now)) }
    {
        match self {
            Tree::Leaf(front) => Ok(Tree::Leaf(front.joined_from(alloc, path, from)?)),
            Tree::Neg => Ok(Tree::Neg),
            Tree::Fail => Ok(Tree::Fail),
            Tree::Empty => Ok(Tree::Empty),
            Tree::Alt(trees) => Ok(Tree::Alt(trees.with_rest(alloc, path, from)?)),
            Tree::Union(branches) => Ok(Tree::Union(branches.with_rest(alloc, path, from)?)),
        }
    }

    /// A copy of this tree.
    #[tactic(auto, using(crate::proofs::Rests::append_rest_none))]
    pub fn copied(&self, alloc: Global) -> Mem<Tree>
        ensures { IfOk result (λ tree. value_of tree ≡ value_of self.now) }
    {
        self.with_rest(alloc, &Path::new(alloc), 0)
    }

    /// Whether the other tree is the same: the same marks, weights and labels, in the same order.
    /// It takes no memory.
    #[cycle(same)]
    pub fn same(&self, other: &Tree) -> bool
        ensures { IsTrue result ↔ (value_of self.now ≡ value_of other.now) }
    {
        match self {
            Tree::Leaf(path) => other.is_leaf_of(path),
            Tree::Neg => other.is_neg(),
            Tree::Fail => other.is_fail(),
            Tree::Empty => other.is_empty(),
            Tree::Alt(trees) => match other {
                Tree::Alt(own) => trees.same(own),
                Tree::Leaf(_) => false,
                Tree::Neg => false,
                Tree::Fail => false,
                Tree::Empty => false,
                Tree::Union(_) => false,
            },
            Tree::Union(branches) => match other {
                Tree::Union(own) => branches.same(own),
                Tree::Leaf(_) => false,
                Tree::Neg => false,
                Tree::Fail => false,
                Tree::Empty => false,
                Tree::Alt(_) => false,
            },
        }
    }

    /// Whether this is the path.
    fn is_leaf_of(&self, path: &Path) -> bool
        ensures { IsTrue result ↔ (leaf path.now ≡ value_of self.now) }
    {
        match self {
            Tree::Leaf(own) => path.same(own),
            Tree::Neg => false,
            Tree::Fail => false,
            Tree::Empty => false,
            Tree::Alt(_) => false,
            Tree::Union(_) => false,
        }
    }

    /// Whether this is `~`.
    pub(crate) fn is_neg(&self) -> bool
        ensures { IsTrue result ↔ (neg ≡ value_of self.now) }
    {
        match self {
            Tree::Neg => true,
            Tree::Leaf(_) => false,
            Tree::Fail => false,
            Tree::Empty => false,
            Tree::Alt(_) => false,
            Tree::Union(_) => false,
        }
    }

    /// Whether this is `!`.
    pub(crate) fn is_fail(&self) -> bool
        ensures { IsTrue result ↔ (fail ≡ value_of self.now) }
    {
        match self {
            Tree::Fail => true,
            Tree::Leaf(_) => false,
            Tree::Neg => false,
            Tree::Empty => false,
            Tree::Alt(_) => false,
            Tree::Union(_) => false,
        }
    }

    /// Whether this is `$`.
    pub(crate) fn is_empty(&self) -> bool
        ensures { IsTrue result ↔ (empty ≡ value_of self.now) }
    {
        match self {
            Tree::Empty => true,
            Tree::Leaf(_) => false,
            Tree::Neg => false,
            Tree::Fail => false,
            Tree::Alt(_) => false,
            Tree::Union(_) => false,
        }
    }

    /// Whether this is a choice.
    pub(crate) fn is_alt(&self) -> bool
        ensures { result ≡ is_alt (value_of self.now) }
    {
        match self {
            Tree::Alt(_) => true,
            Tree::Leaf(_) => false,
            Tree::Neg => false,
            Tree::Fail => false,
            Tree::Empty => false,
            Tree::Union(_) => false,
        }
    }

    /// Whether this is a choice or a union.
    pub(crate) fn is_compound(&self) -> bool
        ensures { result ≡ (is_alt (value_of self.now) || is_union (value_of self.now)) }
    {
        match self {
            Tree::Alt(_) => true,
            Tree::Union(_) => true,
            Tree::Leaf(_) => false,
            Tree::Neg => false,
            Tree::Fail => false,
            Tree::Empty => false,
        }
    }
}

impl Trees {
    ghost use Rattle.name_tree.specs.Value.{append_rest};
    ghost use Rattle.name_tree.specs.Tree.{value_of, trees_in};

    /// These trees with the labels of a path from a place on, counted from 0, behind every leaf.
    #[cycle(with_rest)]
    fn with_rest(&self, alloc: Global, path: &Path, from: usize) -> Mem<Trees>
        requires { from ≤ length path.now }
        ensures { IfOk result
            (λ trees. map value_of (trees_in trees)
            ≡ map (λ tree. append_rest (value_of tree) (drop from path.now)) (trees_in self.now)) }
    {
        let mut items = Vec::with_capacity(alloc, self.items.len())?;
        for tree in &self.items {
            items.push(tree.with_rest(alloc, path, from)?)?;
        }
        Ok(Trees { items })
    }

    /// Whether the other trees are the same, in their order.
    #[cycle(same)]
    fn same(&self, other: &Trees) -> bool
        ensures { IsTrue result
            ↔ (map value_of (trees_in self.now) ≡ map value_of (trees_in other.now)) }
    {
        if self.items.len() != other.items.len() {
            return false;
        }
        for (at, tree) in self.items.iter().enumerate() {
            if !tree.same(&other.items[at]) {
                return false;
            }
        }
        true
    }

    /// The trees, in order.
    pub fn items(&self) -> &[Tree]
        ensures { result.now ≡ trees_in self.now }
    {
        self.items.as_slice()
    }

    /// These trees, in their order.
    pub fn of(items: Vec<Tree>) -> Trees
        ensures { trees_in result ≡ items.items }
    {
        Trees { items }
    }

    /// The trees, in order.
    pub fn into_items(self) -> Vec<Tree>
        ensures { result.items ≡ trees_in self }
    {
        self.items
    }
}

impl Branch {
    ghost use Rattle.name_tree.specs.Value.{append_rest};
    ghost use Rattle.name_tree.specs.Tree.{value_of, branch_value};

    /// This branch with the labels of a path from a place on, counted from 0, behind every leaf.
    #[cycle(with_rest)]
    fn with_rest(&self, alloc: Global, path: &Path, from: usize) -> Mem<Branch>
        requires { from ≤ length path.now }
        ensures weight { IfOk result (λ branch. branch.weight ≡ self.now.weight) }
        ensures tree { IfOk result
            (λ branch. value_of branch.tree
            ≡ append_rest (value_of self.now.tree) (drop from path.now)) }
    {
        let tree = self.tree.with_rest(alloc, path, from)?;
        Ok(Branch {
            weight: self.weight,
            tree,
        })
    }

    /// Whether the other branch is the same.
    #[cycle(same)]
    fn same(&self, other: &Branch) -> bool
        ensures { IsTrue result ↔ (branch_value self.now ≡ branch_value other.now) }
    {
        self.weight == other.weight && self.tree.same(&other.tree)
    }
}

impl Branches {
    ghost use Rattle.name_tree.specs.Value.{append_rest_branches};
    ghost use Rattle.name_tree.specs.Tree.{branches_of, listed};

    /// These branches with the labels of a path from a place on, counted from 0, behind every leaf.
    #[cycle(with_rest)]
    fn with_rest(&self, alloc: Global, path: &Path, from: usize) -> Mem<Branches>
        requires { from ≤ length path.now }
        ensures { IfOk result
            (λ branches. branches_of branches
            ≡ append_rest_branches (branches_of self.now) (drop from path.now)) }
    {
        let mut items = Vec::with_capacity(alloc, self.items.len())?;
        for branch in &self.items {
            items.push(branch.with_rest(alloc, path, from)?)?;
        }
        Ok(Branches { items })
    }

    /// Whether the other branches are the same, in their order.
    #[cycle(same)]
    fn same(&self, other: &Branches) -> bool
        ensures { IsTrue result ↔ (branches_of self.now ≡ branches_of other.now) }
    {
        if self.items.len() != other.items.len() {
            return false;
        }
        for (at, branch) in self.items.iter().enumerate() {
            if !branch.same(&other.items[at]) {
                return false;
            }
        }
        true
    }

    /// The branches, in order.
    pub fn items(&self) -> &[Branch]
        ensures { branches_of self.now ≡ listed result.now }
    {
        self.items.as_slice()
    }

    /// These branches, in their order.
    pub fn of(items: Vec<Branch>) -> Branches
        ensures { branches_of result ≡ listed items.items }
    {
        Branches { items }
    }

    /// The branches, in order.
    pub fn into_items(self) -> Vec<Branch>
        ensures { listed result.items ≡ branches_of self }
    {
        self.items
    }
}
