//! Branches that are never asked, and leaves that lead to services.
ghost use Rattle.std.specs.Prelude.{◌≡◌, map};
ghost use Rattle.name_tree.specs.Tree.{value_of, listed};
ghost use Rattle.name_tree.specs.Value.{tree_values};
ghost use Rattle.dtab_check.specs.Live.{paths_of, some_leaf};
ghost use Rattle.dtab_check.specs.Notes.{has_idle, some_has_idle, some_is_idle, branch_is_idle};
ghost use Rattle.dtab_check.specs.Notes.{leads_to_services};

use name_tree::{Branch, Path, Tree};

/// Whether a tree has a branch of weight 0.
#[cycle(idle)]
pub(crate) fn has_idle(tree: &Tree) -> bool
    ensures { result ≡ has_idle (value_of tree.now) }
{
    match tree {
        Tree::Leaf(_) => false,
        Tree::Neg => false,
        Tree::Fail => false,
        Tree::Empty => false,
        Tree::Alt(trees) => some_has_idle(trees.items()),
        Tree::Union(branches) => some_is_idle(branches.items()),
    }
}

/// Whether some tree has one.
#[cycle(idle)]
fn some_has_idle(trees: &[Tree]) -> bool
    ensures { result ≡ some_has_idle (tree_values (map value_of trees.now)) }
{
    let mut found = false;
    for tree in trees {
        found = found || has_idle(tree);
    }
    found
}

/// Whether some branch is one, or has one.
#[cycle(idle)]
fn some_is_idle(branches: &[Branch]) -> bool
    ensures { result ≡ some_is_idle (listed branches.now) }
{
    let mut found = false;
    for branch in branches {
        found = found || is_idle(branch);
    }
    found
}

/// Whether a branch has the weight 0, or has such a branch.
#[cycle(idle)]
fn is_idle(branch: &Branch) -> bool
    ensures { result ≡ branch_is_idle branch.now }
{
    if branch.weight == 0 {
        return true;
    }
    has_idle(&branch.tree)
}

/// Whether some of these leaves leads to services.
pub(crate) fn some_leads(leaves: &[&Path]) -> bool
    ensures { result ≡ some_leaf leads_to_services (paths_of leaves.now) }
{
    let mut found = false;
    for leaf in leaves {
        found = found || leads_to_services(leaf);
    }
    found
}

/// Whether a path leads to services of the folder: it is `/#/io.l5d.fs`, or begins so.
fn leads_to_services(path: &Path) -> bool
    ensures { result ≡ leads_to_services path.now }
{
    if path.len() < 2 || path.label(0) != b"#".as_slice() {
        return false;
    }
    path.label(1) == b"io.l5d.fs".as_slice()
}
