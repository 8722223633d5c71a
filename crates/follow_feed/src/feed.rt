//! What a leader says of a namespace.
use dtab_table::Dtab;

/// A table, and its version.
pub struct Versioned {
    /// The version that the leader gave it.
    pub version: u64,
    /// The table.
    pub dtab: Dtab,
}

impl Drop for Versioned {
    fn drop(self) {
        let Versioned { version: _, dtab } = self;
        drop(dtab);
    }
}

/// What a leader says of a namespace. `feed_value` is how contracts see it.
///
/// A version alone does not order two feeds, since a namespace may be deleted between them, and
/// since versions begin anew with each run of the leader. The pair of run and place does.
pub struct Feed {
    /// The number of the run of the leader, greater than those of its earlier runs.
    pub run: u64,
    /// How many changes the leader had accepted in this run.
    pub place: u64,
    /// The namespace's table behind these changes. `None` where there is no such namespace.
    pub table: Option<Versioned>,
}

impl Drop for Feed {
    fn drop(self) {
        let Feed {
            run: _,
            place: _,
            table,
        } = self;
        drop(table);
    }
}
