//! Which of some feeds is held.
use dtab_table::read_dtab;
use follow_feed::{Feed, Follower, Taken, Versioned};
use std::alloc::{AllocGlobal, Global};
use std::process::Abort;
use std::test::Fail;

/// A feed: its run, its place, and the text of its table, which is empty where it has none; and how
/// it is taken.
type Row = (u64, u64, &'static str, Taken);

/// One after another, to one follower.
const ROWS: [Row; 5] = [
    (1, 1, "/svc => /a", Taken::Newer),
    (1, 3, "/svc => /b", Taken::Newer),
    (1, 2, "/svc => /c", Taken::Older),
    (2, 0, "", Taken::Newer),
    (1, 9, "/svc => /d", Taken::Older),
];

/// The table of this text with the version 1, and none where there is no text.
fn table_of(alloc: Global, text: &str) -> Result<Option<Versioned>, Fail> {
    if text.is_empty() {
        return Ok(None);
    }
    let dtab = read_dtab(alloc, text.as_bytes())?;
    Ok(Some(Versioned { version: 1, dtab }))
}

/// How a follower takes the feed of a row.
fn taken(alloc: Global, follower: &mut Follower, row: &Row) -> Result<Taken, Fail> {
    let (run, place, text, _) = *row;
    let table = table_of(alloc, text)?;
    Ok(follower.take(Feed { run, place, table }))
}

/// Asserts how a follower takes the feeds of the rows.
fn assert_taken<R: AllocGlobal + Abort>(rt: &R, follower: &mut Follower) -> Result<(), Fail> {
    for row in &ROWS {
        let (run, place, _, wanted) = *row;
        let taken = taken(rt.alloc(), follower, row)?;
        assert_eq!(rt; taken, wanted, "{run} {place}");
    }
    Ok(())
}

/// The run and the place of the feed that is held, if one is, and whether it has a table.
fn held(follower: &Follower) -> Option<(u64, u64, bool)> {
    let feed = follower.held()?;
    Some((feed.run, feed.place, feed.table.is_some()))
}

#[test]
fn the_greatest_run_and_place_is_held(rt: HostRuntime) -> Result<(), Fail> {
    let mut follower = Follower::start();
    let all = assert_taken(&rt, &mut follower);
    let held = held(&follower);
    drop(follower);
    all?;
    assert_eq!(rt; held, Some((2, 0, false)));
    Ok(())
}
