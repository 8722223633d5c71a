//! The trees that several parts make.
ghost use Rattle.std.specs.Prelude.{◌≡◌, length, map, All, IfOk, IsNone, IsTrue, ◌↔◌};
ghost use Rattle.name_tree.specs.Value.{one_or_alt, union_of};
ghost use Rattle.name_tree.specs.Tree.{value_of};
ghost use Rattle.name_tree.specs.Parts.{branch_in, part_of};

use crate::Mem;
use crate::tree::{Branch, Branches, Tree, Trees};
use crate::weight::ONE;
use std::alloc::Global;

/// A branch of a union as it is written.
#[derive(Drop)]
pub(crate) struct WrittenBranch {
    /// Its weight in millionths, if one is written.
    pub(crate) weight: Option<u64>,
    pub(crate) tree: Tree,
}

/// The branches of a union, in order. One without a weight has the weight of one whole.
fn branches_in(alloc: Global, parts: Vec<WrittenBranch>) -> Mem<Vec<Branch>>
    ensures { IfOk result (λ branches. branches.items ≡ map branch_in parts.items) }
{
    parts
        .into_iter()
        .map(|part| Branch {
            weight: part.weight.unwrap_or(ONE),
            tree: part.tree,
        })
        .collect(alloc)
}

/// Whether this is one branch without a weight.
fn is_bare(parts: &[WrittenBranch]) -> bool
    ensures { IsTrue result
        ↔ ((length parts.now ≡ 1) × All (λ part. IsNone part.weight) parts.now) }
{
    matches!(parts, [WrittenBranch { weight: None, .. }])
}

/// The tree that some branches with `&` between them stand for: one without a weight is itself, and
/// any others are a union.
pub(crate) fn union_of_parts(alloc: Global, mut parts: Vec<WrittenBranch>) -> Mem<Tree>
    ensures { IfOk result (λ tree. value_of tree ≡ union_of (map part_of parts.items)) }
{
    if is_bare(parts.as_slice()) {
        return Ok(parts.remove(0).tree);
    }
    let branches = branches_in(alloc, parts)?;
    Ok(Tree::Union(Branches::of(branches)))
}

/// The tree that some unions with `|` between them stand for: one is itself, several are a choice.
pub(crate) fn choice_of(mut trees: Vec<Tree>) -> Tree
    ensures { value_of result ≡ one_or_alt (map value_of trees.items) }
{
    if trees.len() == 1 {
        trees.remove(0)
    } else {
        Tree::Alt(Trees::of(trees))
    }
}
