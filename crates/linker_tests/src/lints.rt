//! Tables of which it is told which entries are never asked.
use crate::outside::folder_of_one;
use crate::running::{assert_told, no_input, run_with, sink, text_with};
use std::alloc::{AllocError, AllocGlobal};
use std::process::Abort;
use std::sync::Wait;
use std::test::Fail;
use std::thread::Threads;

/// What `lint` writes of the file at a path, and its status, where the one file there is,
/// `tables/t.dtab`, has this text. The calls of the folder whose numbers are in `failing` fail.
fn linted<R: AllocGlobal + Threads + Wait + Sync>(
    rt: &R,
    path: &str,
    text: &str,
    failing: &[u64],
) -> Result<(String, u8), AllocError> {
    let alloc = rt.alloc();
    let folder = folder_of_one(alloc, "tables", "t.dtab", text, failing)?;
    run_with(rt, &["lint", path], folder, no_input(alloc), sink(alloc))
}

/// The same of a text, and of a part behind it so many times, where nothing fails.
fn long_linted<R: AllocGlobal + Threads + Wait + Sync>(
    rt: &R,
    text: &str,
    part: &str,
    parts: usize,
) -> Result<(String, u8), AllocError> {
    let text = text_with(rt.alloc(), text, part, parts)?;
    let told = linted(rt, "tables/t.dtab", text.as_str(), &[]);
    drop(text);
    told
}

/// Asserts that of tables this is told, and that the program ends with this status.
fn assert_linted<R: AllocGlobal + Threads + Wait + Sync + Abort>(
    rt: &R,
    rows: &[(&str, &str)],
    status: u8,
) -> Result<(), Fail> {
    for (text, written) in rows {
        let told = linted(rt, "tables/t.dtab", text, &[])?;
        assert_told(rt, told, (*written, status), text);
    }
    Ok(())
}

/// Asserts that of a text, and of a part behind it so many times, this is told, and that the
/// program ends with this status.
fn assert_long_linted<R: AllocGlobal + Threads + Wait + Sync + Abort>(
    rt: &R,
    text: &str,
    part: &str,
    parts: usize,
    written: &str,
    status: u8,
) -> Result<(), Fail> {
    let told = long_linted(rt, text, part, parts)?;
    assert_told(rt, told, (written, status), &(text, part, parts));
    Ok(())
}

/// Tables with entries that are never asked, and what is told of them.
const HIDING: [(&str, &str); 2] = [
    (
        "/svc => /a; /svc/web => /b; /svc => /$/inet/127.0.0.1/80",
        "hidden 1 by 3 /svc\nhidden 2 by 3 /svc/web\nentries 3 hidden 2\n\
            table /svc=>/$/inet/127.0.0.1/80\n",
    ),
    // What a leaf names is sure where an entry that matches it is.
    (
        "/a => /x; /b => $; /a => /b/c",
        "hidden 1 by 3 /a\nentries 3 hidden 1\ntable /b=>$;/a=>/b/c\n",
    ),
];

/// Tables with entries that are never asked.
#[test]
fn tables_with_hidden_entries(rt: HostRuntime) -> Result<(), Fail> {
    assert_linted(&rt, &HIDING, 0)
}

/// Tables of which each entry may be asked, and what is told of them.
const NOT_HIDING: [(&str, &str); 2] = [
    // A label does not cover `*`.
    (
        "/s/* => /a; /s/x => !",
        "entries 2 hidden 0\ntable /s/*=>/a;/s/x=>!\n",
    ),
    ("", "entries 0 hidden 0\ntable\n"),
];

/// Tables of which each entry may be asked. A file of 65,536 bytes is read.
#[test]
fn tables_without_hidden_entries(rt: HostRuntime) -> Result<(), Fail> {
    let written = "entries 1 hidden 0\ntable /a=>/b\n";
    assert_long_linted(&rt, "/a => /b", "\n", 65_528, written, 0)?;
    assert_linted(&rt, &NOT_HIDING, 0)
}

/// Why a text is no table. A file of 65,537 bytes is not read.
#[test]
fn texts_that_are_no_table(rt: HostRuntime) -> Result<(), Fail> {
    assert_long_linted(&rt, "/a => /b", "\n", 65_529, "error table long\n", 3)?;
    assert_linted(&rt, &[("/a => /b /c => /d", "error table syntax 9\n")], 3)?;
    assert_long_linted(&rt, "/a=>", "(", 65, "error table nested 68\n", 3)?;
    assert_long_linted(&rt, "", "/a=>/b;", 1_025, "error table many 1025\n", 3)
}

/// A table that is not there, and a folder that fails.
#[test]
fn tables_that_are_not_read(rt: HostRuntime) -> Result<(), Fail> {
    let told = linted(&rt, "tables/u.dtab", "", &[])?;
    assert_told(&rt, told, ("error table absent\n", 3), &"another path");
    let told = linted(&rt, "tables/t.dtab", "", &[0])?;
    assert_told(&rt, told, ("error read\n", 4), &"the first call fails");
    Ok(())
}
