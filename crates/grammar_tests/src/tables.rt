//! Texts of prefixes and tables with their values and their places of refusal, what tables rewrite
//! paths to, and the limits.
ghost use Rattle.std.specs.Prelude.{◌≡◌, ◌<◌};

use crate::long_texts::repeated;
use crate::told::assert_told;
use dtab_table::{
    Dtab, DtabFault, Entry, EntryList, Mem, Prefix, PrefixFault, PrefixLabel, joined, read_dtab,
    read_prefix, write_dtab, write_prefix,
};
use name_tree::{Path, Tree, append_path, read_path, read_tree};
use std::alloc::Global;
use std::marker::Brand;
use std::sync::ledger::{Blank, Ledger};
use std::test::Fail;
use step_count::Steps;

/// Places at which texts of tables leave the grammar.
const TABLE_FAULTS: [(&[u8], usize); 30] = [
    (b"/a => /*", 7),
    (b"/a", 2),
    (b"/a =", 4),
    (b"/a = > /b", 4),
    (b"/a =>", 5),
    (b"/a => ;", 6),
    (b"/a => /b /c => /d", 9),
    (b"/a => /b;/c", 11),
    (b"a => /b", 0),
    (b"/a*b => /c", 2),
    (b"/*a => /b", 2),
    (b"/** => /b", 2),
    (b"/a/ => /b", 3),
    (b"/a => (/b;/c)", 9),
    (b"/a => /b & ;", 11),
    (b"=> /b", 0),
    (b"/a => /b;;/c=>", 14),
    (b"/a == /b", 4),
    (b"/a\\x2f=>", 8),
    (b"1*/a => /b", 0),
    (b"/a => 1.5", 9),
    (b"/a>/b", 2),
    (b"/a => /b,", 8),
    (b"/ a => /b", 2),
    (b"/*/ => /b", 3),
    (b"/a => /b; => /c", 10),
    (b"/a => /b | ~)", 12),
    (b";;~", 2),
    (b"/a/*b", 4),
    (b"/a => 0000001", 12),
];

/// Texts that are no prefix.
const NO_PREFIXES: [&[u8]; 10] = [
    b"", b" ", b"*", b"/a/", b"//", b"/*a", b"/a*", b"/**", b"/a b", b"/\\x4",
];

fn table_fault(alloc: Global, text: &[u8]) -> Option<DtabFault> {
    read_dtab(alloc, text).err()
}

fn prefix_fault(alloc: Global, text: &[u8]) -> Option<PrefixFault> {
    read_prefix(alloc, text).err()
}

#[test]
fn refuses_texts_at_their_places(rt: HostRuntime) {
    for (text, at) in &TABLE_FAULTS {
        let fault = table_fault(rt.alloc(), text);
        assert!(rt; fault == Some(DtabFault::Syntax(*at)), "{text:?}");
    }
    for text in &NO_PREFIXES {
        let fault = prefix_fault(rt.alloc(), text);
        assert!(rt; fault == Some(PrefixFault::NotPrefix), "{text:?}");
    }
}

/// Texts, and why each is no path and no table.
const REASONS: [(&[u8], &str); 2] = [
    (
        b"/a/",
        "the text leaves the grammar at byte 3; table syntax 3",
    ),
    (
        b"/*",
        "the text leaves the grammar at byte 1; table syntax 2",
    ),
];

/// Why a text is no path, and why it is no table.
fn reasons(alloc: Global, text: &[u8]) -> Result<Vec<u8>, Fail> {
    let path = read_path(alloc, text).err().ok_or("a path")?;
    let table = table_fault(alloc, text).ok_or("a table")?;
    Ok(format!(in alloc; "{path}; {table}")?.into_bytes())
}

#[test]
fn tells_why_texts_are_refused(rt: HostRuntime) -> Result<(), Fail> {
    for (text, want) in &REASONS {
        assert_told(&rt, reasons(rt.alloc(), text), want.as_bytes())?;
    }
    Ok(())
}

/// Whether the table of a text has so many entries, and is written so.
fn is_written(alloc: Global, text: &[u8], count: usize, want: &[u8]) -> Result<bool, Fail> {
    let dtab = read_dtab(alloc, text)?;
    let is_whole = dtab.len() == count;
    let written = write_dtab(alloc, &dtab);
    drop(dtab);
    Ok(written?.as_slice() == want && is_whole)
}

/// Texts of tables, how many entries they have, and what is written for them.
const WRITTEN: [(&[u8], usize, &[u8]); 7] = [
    (b"", 0, b""),
    (b" ;; ; ", 0, b""),
    (b"/a => /b; ; /c => 1.5*/d;", 2, b"/a=>/b;/c=>1.5 * /d"),
    (
        b"/svc/*/x => /$/inet/127.0.0.1/9",
        1,
        b"/svc/*/x=>/$/inet/127.0.0.1/9",
    ),
    (b"/\t=>\r\n~", 1, b"/=>~"),
    (b";/*=>(/a|/b)&$;", 1, b"/*=>1 * (/a | /b) & 1 * $"),
    (b"/\\x2a=>!", 1, b"/\\x2a=>!"),
];

#[test]
fn writes_tables_that_were_read(rt: HostRuntime) -> Result<(), Fail> {
    for (text, count, want) in &WRITTEN {
        assert!(rt; is_written(rt.alloc(), text, *count, want)?, "{text:?}");
    }
    Ok(())
}

/// The text of the prefix of a text.
fn prefix_text(alloc: Global, text: &[u8]) -> Result<Vec<u8>, Fail> {
    let prefix = read_prefix(alloc, text)?;
    let written = write_prefix(alloc, &prefix);
    drop(prefix);
    Ok(written?)
}

/// Texts of prefixes, and what is written for them.
const PREFIXES: [(&[u8], &[u8]); 4] = [
    (b" /svc/* ", b"/svc/*"),
    (b"/", b"/"),
    (b"/*", b"/*"),
    (b"/\\x41/\\x2F", b"/A/\\x2f"),
];

#[test]
fn writes_prefixes_that_were_read(rt: HostRuntime) -> Result<(), Fail> {
    for (text, want) in &PREFIXES {
        assert_told(&rt, prefix_text(rt.alloc(), text), want)?;
    }
    Ok(())
}

/// How many entries are read of a text, a part so many times and an end, or why that is refused.
fn count_of(
    alloc: Global,
    front: &str,
    part: &str,
    count: usize,
    end: &str,
) -> Mem<Result<usize, DtabFault>> {
    let text = repeated(alloc, front, part, count, end)?;
    match read_dtab(alloc, text.as_slice()) {
        Ok(dtab) => Ok(Ok(dtab.len())),
        Err(fault) => Ok(Err(fault)),
    }
}

/// A text, a part, how often it stands there, and an end; and how many entries are read of such a
/// text, or why it is refused.
const LIMITS: [(&str, &str, usize, &str, Result<usize, DtabFault>); 11] = [
    ("", "/a=>/b;", 177, "", Ok(177)),
    ("", "/a=>/b;", 700, "", Ok(700)),
    ("", "/a=>/b;", 1_024, "", Ok(1_024)),
    (
        "",
        "/a=>/b;",
        1_024,
        "/a=>/b",
        Err(DtabFault::TooMany(1_025)),
    ),
    (
        "",
        "/a=>/b;",
        1_024,
        "/a=>/b&",
        Err(DtabFault::Syntax(7_175)),
    ),
    ("/a=>/", "b", 65_531, "", Ok(1)),
    ("/a=>/", "b", 65_532, "", Err(DtabFault::TooLong(65_536))),
    ("/a=>", "(", 65_536, "", Err(DtabFault::TooLong(65_536))),
    ("/a=>", "(", 96, "", Err(DtabFault::TooNested(68))),
    ("/a=>", "(", 65, "", Err(DtabFault::TooNested(68))),
    ("/a=>", "(", 64, "", Err(DtabFault::Syntax(68))),
];

/// So many entries and no more, so long and no longer, so deep and no deeper, and which of these is
/// told first.
#[test]
fn keeps_the_limits(rt: HostRuntime) -> Result<(), Fail> {
    for (front, part, count, end, want) in &LIMITS {
        let read = count_of(rt.alloc(), front, part, *count, end)?;
        assert!(rt; read == *want, "{front} {count} {end}");
    }
    Ok(())
}

/// Whether a table of so many entries is written as it is read.
fn is_written_as_read(alloc: Global, count: usize) -> Result<bool, Fail> {
    let text = repeated(alloc, "/a=>/b", ";/svc/*=>/c", count, "")?;
    is_written(
        alloc,
        text.as_slice(),
        count.saturating_add(1),
        text.as_slice(),
    )
}

/// Numbers of entries between the limits.
const MIDDLE: [usize; 4] = [99, 112, 299, 699];

/// Tables of so many entries and of texts of so many bytes between the limits are read, and written
/// as they were.
#[test]
fn reads_middle_sizes(rt: HostRuntime) -> Result<(), Fail> {
    for count in &MIDDLE {
        assert!(rt; is_written_as_read(rt.alloc(), *count)?, "{count}");
    }
    Ok(())
}

/// Puts a leaf behind a text and a blank; `?` stands for any other tree.
fn put_leaf(tree: &Tree, text: &mut Vec<u8>) -> Mem<()> {
    text.push(b' ')?;
    match tree {
        Tree::Leaf(path) => append_path(path, text),
        _ => Ok(text.push(b'?')?),
    }
}

/// Leaves, each behind a blank.
fn leaves_text(alloc: Global, trees: &[Tree]) -> Mem<Vec<u8>> {
    let mut text = Vec::new(alloc);
    for tree in trees {
        put_leaf(tree, &mut text)?;
    }
    Ok(text)
}

/// The leaves that a table rewrites a path to.
fn leaves<L: Ledger>(alloc: Global, dtab: &Dtab, path: &Path, blank: Blank) -> Mem<Vec<u8>>
    requires name { blank.name ≡ L.name }
    requires parts { blank.parts ≡ L.parts }
    requires some { 0 < blank.parts }
{
    let mut steps = Steps::<L>::start(blank);
    let trees = dtab.lookup(alloc, path, &mut steps)?;
    let text = leaves_text(alloc, trees.items());
    drop(trees);
    text
}

/// The same of the path of a text.
fn rewritten(alloc: Global, dtab: &Dtab, text: &[u8]) -> Result<Vec<u8>, Fail> {
    let path = read_path(alloc, text)?;
    Ok(leaves::<Brand>(alloc, dtab, &path, Blank::new(1))?)
}

/// A path, and the leaves that a table rewrites it to.
type Rewritten = (&'static [u8], &'static [u8]);

/// The first of some paths that a table rewrites to other leaves.
fn first_wrong(alloc: Global, dtab: &Dtab, rows: &[Rewritten]) -> Result<Option<usize>, Fail> {
    for (at, (path, want)) in rows.iter().enumerate() {
        if rewritten(alloc, dtab, path)?.as_slice() != *want {
            return Ok(Some(at));
        }
    }
    Ok(None)
}

const LOOKED_UP: [Rewritten; 5] = [
    (b"/svc/web/x", b" ? /d/svc/web/x /b/x /a/web/x"),
    (b"/svc", b" /d/svc /a"),
    (b"/svc/webs", b" /d/svc/webs /a/webs"),
    (b"/sv", b" /d/sv"),
    (b"/", b" /d"),
];

#[test]
fn looks_up(rt: HostRuntime) -> Result<(), Fail> {
    let text = b"/svc => /a ; /svc/web => /b ; /svc/mail => /c ; / => /d ; /svc/web => ~";
    let dtab = read_dtab(rt.alloc(), text)?;
    let wrong = first_wrong(rt.alloc(), &dtab, &LOOKED_UP);
    drop(dtab);
    assert_eq!(rt; wrong?, None);
    Ok(())
}

#[test]
fn finds_nothing_in_the_empty_table(rt: HostRuntime) -> Result<(), Fail> {
    let none = Dtab::empty(rt.alloc());
    let leaves = rewritten(rt.alloc(), &none, b"/svc");
    drop(none);
    assert_told(&rt, leaves, b"")
}

/// The prefix `/*/web`.
fn any_web(alloc: Global) -> Mem<Prefix> {
    let web = Vec::from_slice(alloc, b"web")?;
    let labels = vec![in alloc; PrefixLabel::Star, PrefixLabel::Label(web)]?;
    Ok(Prefix::of(labels))
}

/// A table of one entry, whose prefix is `/*/web`, and whose tree is `/s`.
fn table_of_entry(alloc: Global) -> Result<Dtab, Fail> {
    let prefix = any_web(alloc)?;
    let tree = read_tree(alloc, b"/s")?;
    let entries = vec![in alloc; Entry { prefix, tree }]?;
    Ok(Dtab::of(alloc, EntryList::of(entries))?)
}

/// The text of a table.
fn dtab_text(alloc: Global, dtab: &Dtab) -> Result<Vec<u8>, Fail> {
    Ok(write_dtab(alloc, dtab)?)
}

#[test]
fn makes_a_table_of_an_entry(rt: HostRuntime) -> Result<(), Fail> {
    let dtab = table_of_entry(rt.alloc())?;
    let text = dtab_text(rt.alloc(), &dtab);
    drop(dtab);
    assert_told(&rt, text, b"/*/web=>/s")
}

const OF_ENTRY: [Rewritten; 3] = [
    (b"/any/web/1", b" /s/1"),
    (b"/any", b""),
    (b"/any/webs", b""),
];

#[test]
fn looks_up_in_a_table_of_an_entry(rt: HostRuntime) -> Result<(), Fail> {
    let dtab = table_of_entry(rt.alloc())?;
    let wrong = first_wrong(rt.alloc(), &dtab, &OF_ENTRY);
    drop(dtab);
    assert_eq!(rt; wrong?, None);
    Ok(())
}

/// Puts a label of a prefix behind a text, `any` for `*`, and a space.
fn put_label(label: &PrefixLabel, text: &mut Vec<u8>) -> Mem<()> {
    match label {
        PrefixLabel::Star => text.extend_from_slice(b"any")?,
        PrefixLabel::Label(label) => text.extend_from_slice(label.as_slice())?,
    }
    Ok(text.push(b' ')?)
}

/// The labels of a prefix so.
fn labels_text(alloc: Global, prefix: &Prefix) -> Result<Vec<u8>, Fail> {
    let mut text = Vec::new(alloc);
    for label in prefix.labels() {
        put_label(label, &mut text)?;
    }
    Ok(text)
}

#[test]
fn tells_the_labels_of_a_prefix(rt: HostRuntime) -> Result<(), Fail> {
    let prefix = read_prefix(rt.alloc(), b" /svc/* ")?;
    let labels = labels_text(rt.alloc(), &prefix);
    drop(prefix);
    assert_told(&rt, labels, b"svc any ")
}

/// A copy of two tables, joined.
fn joined_copy(alloc: Global, first: &Dtab, second: &Dtab) -> Result<Dtab, Fail> {
    if first.len() > 1_024 || second.len() > 1_024 {
        return Err("too many entries".into());
    }
    let both = joined(alloc, first, second)?;
    let copy = both.copied(alloc);
    drop(both);
    Ok(copy?)
}

/// Whether an entry from one place to before another matches the path of a text.
fn is_matched(
    alloc: Global,
    dtab: &Dtab,
    from: usize,
    to: usize,
    text: &[u8],
) -> Result<bool, Fail> {
    let path = read_path(alloc, text)?;
    let to = to.min(dtab.len());
    Ok(dtab.matches_any(from.min(to), to, &path))
}

/// Whether the entries at two places are the same, where there are such.
fn are_same(one: &Dtab, at: usize, other: &Dtab, place: usize) -> Option<bool> {
    if at < one.len() && place < other.len() {
        Some(one.entry(at).same(other.entry(place)))
    } else {
        None
    }
}

/// The places of two entries, and whether these are the same.
const SAME: [(usize, usize, Option<bool>); 5] = [
    (0, 1, Some(true)),
    (2, 0, Some(true)),
    (0, 0, Some(false)),
    (1, 1, Some(false)),
    (3, 0, None),
];

/// The first of these places whose entries compare otherwise.
fn first_unlike(one: &Dtab, other: &Dtab) -> Option<usize> {
    for (row, (at, place, want)) in SAME.iter().enumerate() {
        if are_same(one, *at, other, *place) != *want {
            return Some(row);
        }
    }
    None
}

/// The table `/a=>/b;/c/*=>/d;/a=>/e | ~`, as a copy of two that are joined.
fn joined_of_two(alloc: Global) -> Result<Dtab, Fail> {
    let first = read_dtab(alloc, b"/a => /b; /c/* => /d")?;
    let second = read_dtab(alloc, b"/a => /e | ~")?;
    let both = joined_copy(alloc, &first, &second);
    drop(first);
    drop(second);
    both
}

#[test]
fn joins_and_copies(rt: HostRuntime) -> Result<(), Fail> {
    let both = joined_of_two(rt.alloc())?;
    let text = dtab_text(rt.alloc(), &both);
    drop(both);
    assert_told(&rt, text, b"/a=>/b;/c/*=>/d;/a=>/e | ~")
}

#[test]
fn compares_entries(rt: HostRuntime) -> Result<(), Fail> {
    let both = joined_of_two(rt.alloc())?;
    let other = read_dtab(rt.alloc(), b"/a => /e | ~; /a => /b")?;
    let unlike = first_unlike(&both, &other);
    drop(both);
    drop(other);
    assert_eq!(rt; unlike, None);
    Ok(())
}

/// From which entry on, and up to which, the table has one that matches a path.
const MATCHED: [(usize, usize, &[u8], bool); 12] = [
    (0, 6, b"/e/f/g", true),
    (0, 5, b"/e/f/g", false),
    (0, 5, b"/a", true),
    (1, 6, b"/a", false),
    (1, 6, b"/a/x", true),
    (1, 2, b"/a/x", false),
    (0, 6, b"/b/q", true),
    (0, 2, b"/b/q/r", true),
    (0, 6, b"/b", false),
    (2, 3, b"/a/x", true),
    (3, 3, b"/c", false),
    (0, 6, b"/", false),
];

/// The first of these rows of which a table tells otherwise.
fn first_mismatched(alloc: Global, dtab: &Dtab) -> Result<Option<usize>, Fail> {
    for (row, (from, to, text, want)) in MATCHED.iter().enumerate() {
        if is_matched(alloc, dtab, *from, *to, text)? != *want {
            return Ok(Some(row));
        }
    }
    Ok(None)
}

#[test]
fn matches_between_two_places(rt: HostRuntime) -> Result<(), Fail> {
    let text = b"/a => /1; /b/* => /2; /a/x => /3; /c => /4; /d => /5; /e/f => /6";
    let dtab = read_dtab(rt.alloc(), text)?;
    let wrong = first_mismatched(rt.alloc(), &dtab);
    drop(dtab);
    assert_eq!(rt; wrong?, None);
    Ok(())
}
