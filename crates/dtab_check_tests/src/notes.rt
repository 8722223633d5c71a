//! What else the texts of tables show.
use dtab_check::{Note, NoteList, Remark, notes_of};
use dtab_table::read_dtab;
use std::alloc::{AllocGlobal, Global};
use std::process::Abort;
use std::test::Fail;

/// A table, and the notes on it.
type Row = (&'static str, &'static [Note]);

/// The notes on the table of a text.
fn noted(alloc: Global, text: &str) -> Result<NoteList, Fail> {
    let dtab = read_dtab(alloc, text.as_bytes())?;
    let list = notes_of(alloc, &dtab);
    drop(dtab);
    Ok(list?)
}

/// Asserts that these are the notes on tables.
fn assert_noted<R: AllocGlobal + Abort>(rt: &R, rows: &[Row]) -> Result<(), Fail> {
    for (text, want) in rows {
        let list = noted(rt.alloc(), text)?;
        assert!(rt; list.items() == *want, "{:?} on {text}", list.items());
    }
    Ok(())
}

/// The first entry of a table leads to services.
const FIRST_TO_SERVICES: Note = Note {
    entry: 0,
    remark: Remark::LeadsToServices,
};

const SECOND_TO_SERVICES: Note = Note {
    entry: 1,
    remark: Remark::LeadsToServices,
};

const THIRD_TO_SERVICES: Note = Note {
    entry: 2,
    remark: Remark::LeadsToServices,
};

/// The first entry of a table has a branch of weight 0.
const FIRST_IDLE: Note = Note {
    entry: 0,
    remark: Remark::HasIdleBranch,
};

const SECOND_IDLE: Note = Note {
    entry: 1,
    remark: Remark::HasIdleBranch,
};

const THIRD_IDLE: Note = Note {
    entry: 2,
    remark: Remark::HasIdleBranch,
};

/// The first entry of a table is repeated by the third.
const FIRST_BY_THIRD: Note = Note {
    entry: 0,
    remark: Remark::IsRepeatedAt(2),
};

const FIRST_BY_FOURTH: Note = Note {
    entry: 0,
    remark: Remark::IsRepeatedAt(3),
};

const SECOND_BY_FOURTH: Note = Note {
    entry: 1,
    remark: Remark::IsRepeatedAt(3),
};

const OF_TREES: [Row; 4] = [
    ("", &[]),
    ("/a => /b | !; /b => /$/inet/127.0.0.1/1 & 2 * ~", &[]),
    // Services, by their name or with that to come.
    (
        "/a => /b | /#/io.l5d.fs/web; /a => /#/io.l5d.fs; /a => /#/fs/web",
        &[FIRST_TO_SERVICES, SECOND_TO_SERVICES],
    ),
    // What a branch of weight 0 leads to is never asked.
    (
        "/a => /b & 0 * /#/io.l5d.fs/web; /a => (/c | 2 * (~ & 0.0 * !)) | $",
        &[FIRST_IDLE, SECOND_IDLE],
    ),
];

#[test]
fn leaves_and_branches_are_noted(rt: HostRuntime) -> Result<(), Fail> {
    assert_noted(&rt, &OF_TREES)
}

const OF_ENTRIES: [Row; 3] = [
    // The last entry that is the same is told, also where its text is another one.
    (
        "/a=>/b; /a => /b ; /a => /c; /a => (/b)",
        &[FIRST_BY_FOURTH, SECOND_BY_FOURTH],
    ),
    ("/a => /b; /a/* => /b; /a => /b/c", &[]),
    // All of one entry come together, in the table's order.
    (
        "/a => 0*/b & /#/io.l5d.fs; /b => !; /a => 0 * /b & 1 * /#/io.l5d.fs",
        &[
            FIRST_TO_SERVICES,
            FIRST_IDLE,
            FIRST_BY_THIRD,
            THIRD_TO_SERVICES,
            THIRD_IDLE,
        ],
    ),
];

#[test]
fn notes_are_told_entry_by_entry(rt: HostRuntime) -> Result<(), Fail> {
    assert_noted(&rt, &OF_ENTRIES)
}
