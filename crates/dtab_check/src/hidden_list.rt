//! Entries of tables that are never asked.
use std::marker::Model;

/// An entry of a table that is never asked, since a later one covers it. Both are positions in the
/// table, counted from 0.
#[derive(Debug, Clone, Copy, PartialEq, Eq, Drop)]
pub struct Hidden {
    /// The entry that is never asked.
    pub entry: u32,
    /// The last of the later entries that cover it and are never negative.
    pub by: u32,
}

/// The entries of a table that are never asked, in the table's order.
pub struct HiddenList {
    items: Vec<Hidden>,
}

impl Drop for HiddenList {
    fn drop(self) {
        let HiddenList { items } = self;
        drop(items);
    }
}

impl Model for HiddenList {
    ghost use Rattle.std.specs.Prelude.{List};
    ghost use Rattle.dtab_check.specs.declared.hidden_list.Hidden.{Hidden};

    ghost Value = { List Hidden };

    ghost view = { λ list. list.items.items };
}

impl HiddenList {
    ghost use Rattle.std.specs.Prelude.{◌≡◌};

    /// These entries, in their order.
    pub fn of(items: Vec<Hidden>) -> HiddenList
        ensures { result ≡ items.items }
    {
        HiddenList { items }
    }

    /// The entries, in order.
    pub fn items(&self) -> &[Hidden]
        ensures { result.now ≡ self.now }
    {
        self.items.as_slice()
    }
}
