//! Lists of trees.
ghost use Rattle.std.specs.Prelude.{◌≡◌};

use name_tree::Tree;
use std::marker::Model;

/// Some trees, in order, which contracts see as their list. It is made from a `Vec` and gives it
/// back without taking memory.
pub struct TreeList {
    items: Vec<Tree>,
}

impl Drop for TreeList {
    fn drop(self) {
        let TreeList { items } = self;
        drop(items);
    }
}

impl Model for TreeList {
    ghost use Rattle.std.specs.Prelude.{List};
    ghost use Rattle.std.specs.Coded.{coded_list};
    ghost use Rattle.name_tree.specs.declared.tree.Tree.{Tree};
    ghost use Rattle.name_tree.specs.contracts.tree.Tree as tree;

    ghost Value = { List Tree };

    ghost coded = { coded_list tree.the_row.coded };

    ghost view = { λ list. list.items.items };
}

impl TreeList {
    /// These trees, in their order.
    pub fn of(items: Vec<Tree>) -> TreeList
        ensures { result ≡ items.items }
    {
        TreeList { items }
    }

    /// The trees, in order.
    pub fn items(&self) -> &[Tree]
        ensures { result.now ≡ self.now }
    {
        self.items.as_slice()
    }

    /// The trees, in order.
    pub fn into_items(self) -> Vec<Tree>
        ensures { result.items ≡ self }
    {
        let TreeList { items } = self;
        items
    }
}
