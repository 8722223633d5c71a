//! Tables, the entries of them that are never asked, and what is left without those.
ghost use Rattle.std.specs.Prelude.{◌≡◌};
ghost use Rattle.dtab_table.specs.Dtab.{rules_of};
ghost use Rattle.dtab_check.specs.Hidden.{hidden_in};

use dtab_check::{Hidden, HiddenList, Mem, hidden, taken_out};
use dtab_table::{Dtab, read_dtab, write_dtab};
use std::alloc::{AllocGlobal, Global};
use std::process::Abort;
use std::test::Fail;

/// A table, its hidden entries, and the table without them.
type Row = (&'static str, &'static [Hidden], &'static str);

const FIRST_BY_THIRD: Hidden = Hidden { entry: 0, by: 2 };

const SECOND_BY_THIRD: Hidden = Hidden { entry: 1, by: 2 };

const FIRST_BY_SECOND: Hidden = Hidden { entry: 0, by: 1 };

/// Which prefixes cover others. The last of several covers is named, also for one that covers
/// another.
const COVERS: [Row; 6] = [
    // Two entries are hidden by one that sends all of `/svc` to an address.
    (
        "/svc => /a; /svc/web => /b; /svc => /$/inet/127.0.0.1/80",
        &[FIRST_BY_THIRD, SECOND_BY_THIRD],
        "/svc=>/$/inet/127.0.0.1/80",
    ),
    // A label doesn't cover `*`, and `*` does cover a label.
    ("/s/* => /a; /s/x => !", &[], "/s/*=>/a;/s/x=>!"),
    ("/s/x => /a; /s/* => !", &[FIRST_BY_SECOND], "/s/*=>!"),
    // A longer prefix covers no shorter one.
    ("/s => /a; /s/x => !", &[], "/s=>/a;/s/x=>!"),
    (
        "/a => /x; /a => !; / => $",
        &[FIRST_BY_THIRD, SECOND_BY_THIRD],
        "/=>$",
    ),
    ("", &[], ""),
];

/// Which leaves are sure.
const LEAVES: [Row; 6] = [
    // A leaf is sure by an entry that matches it, wherever that stands, and not by one that leads
    // back.
    (
        "/a => /x; /b => $; /a => /b/c",
        &[FIRST_BY_THIRD],
        "/b=>$;/a=>/b/c",
    ),
    (
        "/a => /x; /a => /b/c; /b => $",
        &[FIRST_BY_SECOND],
        "/a=>/b/c;/b=>$",
    ),
    ("/a => /b; /b => /a; /a => /b", &[], "/a=>/b;/b=>/a;/a=>/b"),
    // A service may be in no book, and four labels name an address.
    (
        "/a => /x; /a => /#/io.l5d.fs/web",
        &[],
        "/a=>/x;/a=>/#/io.l5d.fs/web",
    ),
    (
        "/a => /x; /a => /$/inet/127.0.0.1",
        &[],
        "/a=>/x;/a=>/$/inet/127.0.0.1",
    ),
    (
        "/a => /x; /a => /$/inet/127.0.0.1/0",
        &[],
        "/a=>/x;/a=>/$/inet/127.0.0.1/0",
    ),
];

/// Which alternatives, branches and marks are sure.
const CHOICES: [Row; 4] = [
    // One alternative or one branch with a weight is enough, and `~` is none.
    (
        "/a => /x; /a => ~ | /y | !",
        &[FIRST_BY_SECOND],
        "/a=>~ | /y | !",
    ),
    (
        "/a => /x; /a => /y & $",
        &[FIRST_BY_SECOND],
        "/a=>1 * /y & 1 * $",
    ),
    (
        "/a => /x; /a => /y & 0 * $",
        &[],
        "/a=>/x;/a=>1 * /y & 0 * $",
    ),
    ("/a => /x; /a => ~", &[], "/a=>/x;/a=>~"),
];

/// The text of a table without its hidden entries.
fn left_text(alloc: Global, dtab: &Dtab, list: &HiddenList) -> Mem<Vec<u8>>
    requires { list.now ≡ hidden_in (rules_of dtab.now) }
{
    let left = taken_out(alloc, dtab, list)?;
    let text = write_dtab(alloc, &left);
    drop(left);
    text
}

/// Whether a table has these hidden entries, and this text without them.
fn has_hidden(alloc: Global, dtab: &Dtab, want: &[Hidden], rest: &str) -> Mem<bool> {
    let list = hidden(alloc, dtab)?;
    let is_wanted = list.items() == want;
    let left = left_text(alloc, dtab, &list);
    drop(list);
    Ok(left?.as_slice() == rest.as_bytes() && is_wanted)
}

/// The same of the table of a text.
fn is_checked(alloc: Global, text: &str, want: &[Hidden], rest: &str) -> Result<bool, Fail> {
    let dtab = read_dtab(alloc, text.as_bytes())?;
    let is_checked = has_hidden(alloc, &dtab, want, rest);
    drop(dtab);
    Ok(is_checked?)
}

/// Asserts that so it is with these rows.
fn assert_checked<R: AllocGlobal + Abort>(rt: &R, rows: &[Row]) -> Result<(), Fail> {
    for (text, want, rest) in rows {
        assert!(rt; is_checked(rt.alloc(), text, want, rest)?, "{text}");
    }
    Ok(())
}

#[test]
fn entries_are_hidden_by_those_that_cover_them(rt: HostRuntime) -> Result<(), Fail> {
    assert_checked(&rt, &COVERS)
}

#[test]
fn leaves_are_sure_by_addresses_and_entries(rt: HostRuntime) -> Result<(), Fail> {
    assert_checked(&rt, &LEAVES)
}

#[test]
fn trees_are_sure_by_one_of_their_parts(rt: HostRuntime) -> Result<(), Fail> {
    assert_checked(&rt, &CHOICES)
}
