//! The entries of tables.
ghost use Rattle.std.specs.Prelude.{◌≡◌, ◌↔◌, IsTrue, IfOk};

use crate::Mem;
use crate::prefix::Prefix;
use name_tree::Tree;
use std::alloc::Global;
use std::marker::Model;

/// An entry of a table: a path that begins with the prefix is rewritten to the tree, with its rest
/// behind every leaf.
pub struct Entry {
    /// What a path must begin with.
    pub prefix: Prefix,
    /// What it is rewritten to.
    pub tree: Tree,
}

impl Drop for Entry {
    fn drop(self) {
        let Entry { prefix, tree } = self;
        drop(prefix);
        drop(tree);
    }
}

impl Entry {
    ghost use Rattle.dtab_table.specs.Rules.{rule_of};

    /// A copy of it.
    pub fn copied(&self, alloc: Global) -> Mem<Entry>
        ensures { IfOk result (λ entry. rule_of entry ≡ rule_of self.now) }
    {
        let prefix = self.prefix.copied(alloc)?;
        let tree = self.tree.copied(alloc)?;
        Ok(Entry { prefix, tree })
    }

    /// Whether the other one has the same prefix and the same tree. It takes no memory.
    pub fn same(&self, other: &Entry) -> bool
        ensures { IsTrue result ↔ (rule_of self.now ≡ rule_of other.now) }
    {
        self.prefix.same(&other.prefix) && self.tree.same(&other.tree)
    }
}

/// Some entries, in order, which contracts see as their list. It is made from a `Vec` and gives it
/// back without taking memory.
pub struct EntryList {
    items: Vec<Entry>,
}

impl Drop for EntryList {
    fn drop(self) {
        let EntryList { items } = self;
        drop(items);
    }
}

impl Model for EntryList {
    ghost use Rattle.std.specs.Prelude.{List};
    ghost use Rattle.std.specs.Coded.{coded_list};
    ghost use Rattle.dtab_table.specs.declared.entry.Entry.{Entry};
    ghost use Rattle.dtab_table.specs.contracts.entry.Entry as entry;

    ghost Value = { List Entry };

    ghost coded = { coded_list entry.the_row.coded };

    ghost view = { λ list. list.items.items };
}

impl EntryList {
    /// These entries, in their order.
    pub fn of(items: Vec<Entry>) -> EntryList
        ensures { result ≡ items.items }
    {
        EntryList { items }
    }

    /// The entries, in order.
    pub fn items(&self) -> &[Entry]
        ensures { result.now ≡ self.now }
    {
        self.items.as_slice()
    }

    /// The entries, in order.
    pub fn into_items(self) -> Vec<Entry>
        ensures { result.items ≡ self }
    {
        let EntryList { items } = self;
        items
    }
}
