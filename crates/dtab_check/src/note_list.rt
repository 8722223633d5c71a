//! Notes on the entries of tables.
use std::marker::Model;

/// What there is to know of an entry, beside whether it is ever asked.
#[derive(Debug, Clone, Copy, PartialEq, Eq, Drop)]
pub enum Remark {
    /// One of its leaves leads to services, `/#/io.l5d.fs`. Which of those there are is not in the
    /// table, so such a leaf is not looked at: it is never taken to be bound.
    LeadsToServices,
    /// A branch of one of its unions has the weight 0, so it is never asked.
    HasIdleBranch,
    /// A later entry is the same: the last such one has this position in the table, counted from 0.
    IsRepeatedAt(u32),
}

/// A note on an entry of a table.
#[derive(Debug, Clone, Copy, PartialEq, Eq, Drop)]
pub struct Note {
    /// The entry's position in the table, counted from 0.
    pub entry: u32,
    /// What there is to know of it.
    pub remark: Remark,
}

/// The notes on a table, in the order of its entries.
pub struct NoteList {
    items: Vec<Note>,
}

impl Drop for NoteList {
    fn drop(self) {
        let NoteList { items } = self;
        drop(items);
    }
}

impl Model for NoteList {
    ghost use Rattle.std.specs.Prelude.{List};
    ghost use Rattle.dtab_check.specs.declared.note_list.Note.{Note};

    ghost Value = { List Note };

    ghost view = { λ list. list.items.items };
}

impl NoteList {
    ghost use Rattle.std.specs.Prelude.{◌≡◌};

    /// These notes, in their order.
    pub fn of(items: Vec<Note>) -> NoteList
        ensures { result ≡ items.items }
    {
        NoteList { items }
    }

    /// The notes, in order.
    pub fn items(&self) -> &[Note]
        ensures { result.now ≡ self.now }
    {
        self.items.as_slice()
    }
}
