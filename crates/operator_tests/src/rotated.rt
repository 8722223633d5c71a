//! Access logs that another program renames, or that can't be opened at first.

use crate::cut_files::taken;
use line_log::{Journal, Journals, LineCounts};
use log_file::FileJournals;
use std::alloc::Global;
use std::rt::Files;
use std::test::Fail;
use std::{fs, io};

/// What another program does to the files while a log is written.
#[derive(Clone, Copy)]
enum Meanwhile {
    /// It renames one.
    Renames(&'static str, &'static str),
    /// It makes a folder.
    MakesFolder(&'static str),
}

/// Does that.
fn happen<R: Files>(rt: &R, meanwhile: Meanwhile) -> io::Result<()> {
    match meanwhile {
        Meanwhile::Renames(from, to) => fs::rename(rt, from, to),
        Meanwhile::MakesFolder(path) => fs::create_dir(rt, path),
    }
}

/// Appends lines at their moments.
fn append<J: Journal>(journal: &mut J, lines: &[(u64, &str)]) {
    for (moment, line) in lines {
        journal.append(line.as_bytes(), *moment);
    }
}

/// Appends lines to a file, and some more once that has happened.
fn logged<R: Files + Sync>(
    rt: &R,
    alloc: Global,
    path: &str,
    before: &[(u64, &str)],
    meanwhile: Meanwhile,
    behind: &[(u64, &str)],
) -> Result<LineCounts, Fail>
where
    R::File: Send,
{
    let mut journals = FileJournals::of(rt);
    let mut journal = journals.open(alloc, path)?;
    append(&mut journal, before);
    let happened = happen(rt, meanwhile);
    append(&mut journal, behind);
    let counts = journal.counts();
    let closed = journals.close(journal);
    happened?;
    closed?;
    Ok(counts)
}

/// Whether a file holds this text. It is removed then.
fn held<R: Files + AllocGlobal>(rt: &R, path: &str, text: &str) -> io::Result<bool> {
    let found = taken(rt, path)?;
    Ok(found.as_str() == text)
}

/// The file is renamed after its second line. The third comes within a second of the first, at
/// which the file was opened, and the fourth does not. At the fifth the clock has gone back.
#[test]
fn a_renamed_log_gets_the_lines_of_its_second(rt: HostRuntime) -> Result<(), Fail> {
    let counts = logged(
        &rt,
        rt.alloc(),
        "rotated.log",
        &[(5_000, "one\n"), (5_999, "two\n")],
        Meanwhile::Renames("rotated.log", "rotated.log.1"),
        &[(5_999, "three\n"), (6_000, "four\n"), (5_500, "five\n")],
    )?;
    let renamed = held(&rt, "rotated.log.1", "one\ntwo\nthree\n")?;
    let anew = held(&rt, "rotated.log", "four\nfive\n")?;
    assert_eq!(rt;
        (renamed, anew, counts.written, counts.lost),
        (true, true, 5, 0)
    );
    Ok(())
}

/// The file's folder is not there at first. The path is tried again a second later.
#[test]
fn lines_are_lost_until_the_log_can_be_opened(rt: HostRuntime) -> Result<(), Fail> {
    let counts = logged(
        &rt,
        rt.alloc(),
        "later/access.log",
        &[(0, "lost\n"), (999, "lost\n")],
        Meanwhile::MakesFolder("later"),
        &[(999, "lost\n"), (1_000, "one\n"), (1_001, "two\n")],
    )?;
    let is_held = held(&rt, "later/access.log", "one\ntwo\n")?;
    fs::remove_dir(&rt, "later")?;
    assert_eq!(rt; (is_held, counts.written, counts.lost), (true, 2, 3));
    Ok(())
}
