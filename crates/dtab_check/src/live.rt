//! What a tree is sure by.
ghost use Rattle.std.specs.Prelude.{◌≡◌, map, [], ◌∷◌, IfOk, OnOk};
ghost use Rattle.name_tree.specs.Tree.{value_of, listed};
ghost use Rattle.name_tree.specs.Value.{tree_values};
ghost use Rattle.dtab_check.specs.Live.{leaves_in, leaves_in_all, leaves_in_each, branch_leaves};
ghost use Rattle.dtab_check.specs.Live.{names_addr, stops_in, branch_stops, Adds, IsLive};
ghost use Rattle.dtab_check.specs.Sure.{some_alternative, some_branch};

use crate::Mem;
use addr_book::{read_ip, read_port};
use name_tree::{Branch, Path, Tree};
use std::alloc::Global;

/// What a tree is sure by: any of its leaves and marks that can be asked. A branch of weight 0 is
/// never asked.
pub(crate) struct Live<'a> {
    /// Whether a mark other than `~` is among them, or a leaf that names an address.
    pub(crate) stops: bool,
    /// The leaves, in order.
    pub(crate) leaves: Vec<&'a Path>,
}

impl Drop for Live<'_> {
    fn drop(self) {
        let Live { stops: _, leaves } = self;
        drop(leaves);
    }
}

/// What a tree is sure by.
pub(crate) fn live_in<'a>(alloc: Global, tree: &'a Tree) -> Mem<Live<'a>>
    ensures { IfOk result (IsLive (value_of tree.now)) }
{
    let mut live = Live {
        stops: false,
        leaves: Vec::new(alloc),
    };
    add_tree(tree, &mut live)?;
    Ok(live)
}

/// Adds what a tree is sure by.
#[cycle(live)]
fn add_tree<'a>(tree: &'a Tree, live: &mut Live<'a>) -> Mem<()>
    ensures { OnOk result
        (Adds live.old live.new (leaves_in (value_of tree.now)) (stops_in (value_of tree.now))) }
{
    match tree {
        Tree::Neg => Ok(()),
        Tree::Fail => {
            live.stops = true;
            Ok(())
        }
        Tree::Empty => {
            live.stops = true;
            Ok(())
        }
        Tree::Leaf(leaf) => add_leaf(leaf, live),
        Tree::Alt(trees) => add_alternatives(trees.items(), live),
        Tree::Union(branches) => add_branches(branches.items(), live),
    }
}

/// Adds a leaf.
fn add_leaf<'a>(leaf: &'a Path, live: &mut Live<'a>) -> Mem<()>
    ensures { OnOk result (Adds live.old live.new (leaf.now ∷ []) (names_addr leaf.now)) }
{
    live.leaves.push(leaf)?;
    live.stops = live.stops || is_addr(leaf);
    Ok(())
}

/// Adds what alternatives are sure by.
#[cycle(live)]
fn add_alternatives<'a>(trees: &'a [Tree], live: &mut Live<'a>) -> Mem<()>
    ensures { OnOk result
        (Adds live.old live.new (leaves_in_all (tree_values (map value_of trees.now)))
        (some_alternative names_addr (tree_values (map value_of trees.now)))) }
{
    for tree in trees {
        add_tree(tree, live)?;
    }
    Ok(())
}

/// Adds what the branches of a union are sure by that have a weight.
#[cycle(live)]
fn add_branches<'a>(branches: &'a [Branch], live: &mut Live<'a>) -> Mem<()>
    ensures { OnOk result
        (Adds live.old live.new (leaves_in_each (listed branches.now))
        (some_branch names_addr (listed branches.now))) }
{
    for branch in branches {
        add_branch(branch, live)?;
    }
    Ok(())
}

/// Adds what a branch is sure by, where it has a weight.
#[cycle(live)]
fn add_branch<'a>(branch: &'a Branch, live: &mut Live<'a>) -> Mem<()>
    ensures { OnOk result
        (Adds live.old live.new (branch_leaves branch.now) (branch_stops branch.now)) }
{
    if branch.weight == 0 {
        return Ok(());
    }
    add_tree(&branch.tree, live)
}

/// Whether a path names an address by itself, as `/$/inet/HOST/PORT` does.
fn is_addr(path: &Path) -> bool
    ensures { result ≡ names_addr path.now }
{
    if path.len() < 4 || path.label(0) != b"$".as_slice() || path.label(1) != b"inet".as_slice() {
        return false;
    }
    let (Some(_ip), Some(_port)) = (read_ip(path.label(2)), read_port(path.label(3))) else {
        return false;
    };
    true
}
