//! Texts with their values and their places of refusal, each allocating call once, and the limits.

use crate::long_texts::{append_repeated, repeated};
use crate::told::assert_told;
use name_tree::{
    Mem, Path, TextFault, Tree, append_label, append_path, read_path, read_tree, write_path,
    write_tree,
};
use std::alloc::Global;
use std::process::Abort;
use std::test::Fail;

/// Places at which texts of paths leave the grammar.
const PATH_FAULTS: [(&[u8], usize); 23] = [
    (b"", 0),
    (b" ", 1),
    (b"/a/", 3),
    (b"//", 1),
    (b"a", 0),
    (b"/a b", 3),
    (b"/ a", 2),
    (b"/a*b", 2),
    (b"/*", 1),
    (b"/a@b", 2),
    (b"/\\", 2),
    (b"/\\x", 3),
    (b"/\\x4", 4),
    (b"/\\xg1", 3),
    (b"/\\x4g", 4),
    (b"/\\X41", 2),
    (b"/a\\x2F/", 7),
    (b"/\\x2F\\", 6),
    (b"/a|/b", 2),
    (b"(/a)", 0),
    (b"/a\0", 2),
    (b"/\xc3\xa9", 1),
    (b"\x0b/a", 0),
];

/// Places at which texts of trees leave the grammar.
const TREE_FAULTS: [(&[u8], usize); 51] = [
    (b"", 0),
    (b"   ", 3),
    (b"/a &", 4),
    (b"/a & ", 5),
    (b"/a |", 4),
    (b"| /a", 0),
    (b"& /a", 0),
    (b"/a || /b", 4),
    (b"/a && /b", 4),
    (b"/a & | /b", 5),
    (b"()", 1),
    (b"(", 1),
    (b"(/a", 3),
    (b"/a)", 2),
    (b"(/a))", 4),
    (b"( )", 2),
    (b"(/a | )", 6),
    (b"1", 1),
    (b"1 *", 3),
    (b"1 * ", 4),
    (b"1234567", 6),
    (b"1234567*/a", 6),
    (b"1.", 2),
    (b".", 1),
    (b"1.*/a", 2),
    (b".5", 2),
    (b"1 2*/a", 2),
    (b"1.5.5*/a", 3),
    (b"1/a", 1),
    (b"1 /a", 2),
    (b"1*1*/a", 2),
    (b"*/a", 0),
    (b"-1*/a", 0),
    (b"1e3*/a", 1),
    (b"1* & /b", 3),
    (b"!!", 1),
    (b"~a", 1),
    (b"$ $", 2),
    (b"$a", 1),
    (b"/a $", 3),
    (b"/a;/b", 2),
    (b"/a => /b", 3),
    (b"/a/*", 3),
    (b"/a\\x", 4),
    (b"/a /b", 3),
    (b"(/a)(/b)", 4),
    (b"(/a)/b", 4),
    (b"1*(2*(/a)", 9),
    (b"/a/ | /b", 3),
    (b"(/\\x4)", 5),
    (b".5*.5", 3),
];

fn path_fault(alloc: Global, text: &[u8]) -> Option<TextFault> {
    read_path(alloc, text).err()
}

fn tree_fault(alloc: Global, text: &[u8]) -> Option<TextFault> {
    read_tree(alloc, text).err()
}

/// Asserts that a text is refused so, or that it is not.
fn assert_fault<R: Abort>(rt: &R, text: &[u8], fault: Option<TextFault>, want: Option<TextFault>) {
    assert!(rt;
        fault == want,
        "{fault:?} in place of {want:?}: {}",
        text.escape_ascii()
    );
}

/// Each text is refused at its place, which follows from the grammar alone.
#[test]
fn refuses_texts_at_their_places(rt: HostRuntime) {
    for (text, at) in &PATH_FAULTS {
        assert_fault(
            &rt,
            text,
            path_fault(rt.alloc(), text),
            Some(TextFault::Syntax(*at)),
        );
    }
    for (text, at) in &TREE_FAULTS {
        assert_fault(
            &rt,
            text,
            tree_fault(rt.alloc(), text),
            Some(TextFault::Syntax(*at)),
        );
    }
}

/// The text of a tree.
fn text_of(alloc: Global, tree: Tree) -> Mem<Vec<u8>> {
    let text = write_tree(alloc, &tree);
    drop(tree);
    text
}

/// The text of the tree that a text stands for.
fn tree_text(alloc: Global, text: &[u8]) -> Result<Vec<u8>, Fail> {
    let tree = read_tree(alloc, text)?;
    Ok(text_of(alloc, tree)?)
}

/// Texts of trees, and what is written for them.
const WRITTEN: [(&[u8], &[u8]); 14] = [
    (b"/a|/b&.50*(~)", b"/a | 1 * /b & 0.5 * ~"),
    (b"/\\x41", b"/A"),
    (b"/a\\x2Fb", b"/a\\x2fb"),
    (b"( ( /a|/b )|$ )", b"(/a | /b) | $"),
    (b"/a|(/b|/c)", b"/a | (/b | /c)"),
    (b"2*/a", b"2 * /a"),
    (b"000001*!", b"1 * !"),
    (b"0*~", b"0 * ~"),
    (b"999999.9999999*~", b"999999.999999 * ~"),
    (b".0000019*~", b"0.000001 * ~"),
    (b"1.500*/", b"1.5 * /"),
    (b"(1*/a&2*/b)&3*/c", b"1 * (1 * /a & 2 * /b) & 3 * /c"),
    (b"1*(/a|/b)", b"1 * (/a | /b)"),
    (b"/_:.#$%-/0/Z", b"/_:.#$%-/0/Z"),
];

#[test]
fn writes_what_was_read(rt: HostRuntime) -> Result<(), Fail> {
    for (text, want) in &WRITTEN {
        assert_told(&rt, tree_text(rt.alloc(), text), want)?;
    }
    Ok(())
}

/// Why a tree of so many `(` and an end is refused.
fn nested_fault(alloc: Global, opened: usize, end: &str) -> Mem<Option<TextFault>> {
    Ok(tree_fault(alloc, repeated(alloc, "", "(", opened, end)?.as_slice()))
}

/// The tree `~`, and 64 times `)`.
const CLOSED: &str = "~))))))))))))))))))))))))))))))))))))))))))))))))))))))))))))))))";

/// How many `(` there are, what stands behind them, and why such a tree is refused.
const NESTED: [(usize, &str, Option<TextFault>); 5] = [
    (65, "", Some(TextFault::TooNested(64))),
    (65, "|", Some(TextFault::TooNested(64))),
    (64, "~ (", Some(TextFault::Syntax(66))),
    (64, CLOSED, None),
    (65_537, "", Some(TextFault::TooLong(65_536))),
];

#[test]
fn nests_so_deep_and_no_deeper(rt: HostRuntime) -> Result<(), Fail> {
    for (opened, end, want) in &NESTED {
        let fault = nested_fault(rt.alloc(), *opened, end)?;
        assert_fault(&rt, end.as_bytes(), fault, *want);
    }
    Ok(())
}

/// Why a path of a text and so many `a` is refused.
fn long_fault(alloc: Global, front: &str, count: usize) -> Mem<Option<TextFault>> {
    Ok(path_fault(alloc, repeated(alloc, front, "a", count, "")?.as_slice()))
}

/// A text, how many `a` stand behind it, and why such a path is refused.
const LONG: [(&str, usize, Option<TextFault>); 4] = [
    ("(", 65_536, Some(TextFault::TooLong(65_536))),
    ("(", 65_535, Some(TextFault::Syntax(0))),
    ("/", 65_535, None),
    ("/", 65_536, Some(TextFault::TooLong(65_536))),
];

#[test]
fn reads_so_long_and_no_longer(rt: HostRuntime) -> Result<(), Fail> {
    for (front, count, want) in &LONG {
        let fault = long_fault(rt.alloc(), front, *count)?;
        assert_fault(&rt, front.as_bytes(), fault, *want);
    }
    Ok(())
}

/// Puts a label behind a path, unless it is empty.
fn push(alloc: Global, path: &mut Path, label: &[u8]) -> Mem<()> {
    let label = Vec::from_slice(alloc, label)?;
    if label.is_empty() {
        return Ok(());
    }
    path.push(label)
}

/// A path of two labels that no text has as they are.
fn odd_path(alloc: Global) -> Mem<Path> {
    let mut path = Path::new(alloc);
    push(alloc, &mut path, b"a/b")?;
    push(alloc, &mut path, b"\xffz~")?;
    Ok(path)
}

/// A path and a label behind a text.
fn line_text(alloc: Global, front: &[u8], path: &Path, label: &[u8]) -> Result<Vec<u8>, Fail> {
    let mut line = Vec::from_slice(alloc, front)?;
    append_path(path, &mut line)?;
    append_label(label, &mut line)?;
    Ok(line)
}

#[test]
fn writes_paths(rt: HostRuntime) -> Result<(), Fail> {
    let path = odd_path(rt.alloc())?;
    let sizes = (path.len(), path.text_fits(17), path.text_fits(16));
    let line = line_text(rt.alloc(), b"leaf ", &path, b"=");
    drop(path);
    assert_told(&rt, line, b"leaf /a\\x2fb/\\xffz\\x7e/\\x3d")?;
    assert_eq!(rt; sizes, (2, true, false));
    Ok(())
}

/// The text of a path without labels.
fn root_text(alloc: Global) -> Result<Vec<u8>, Fail> {
    let root = Path::new(alloc);
    let text = write_path(alloc, &root);
    drop(root);
    Ok(text?)
}

#[test]
fn writes_the_path_without_labels(rt: HostRuntime) -> Result<(), Fail> {
    assert!(rt; Path::new(rt.alloc()).is_empty());
    assert_told(&rt, root_text(rt.alloc()), b"/")
}

/// The labels of a path from one place to before another, and those of a second path behind them
/// from a third place on.
fn put_together(
    alloc: Global,
    path: &Path,
    from: usize,
    to: usize,
    rest: &Path,
    place: usize,
) -> Mem<Path> {
    let to = to.min(path.len());
    let from = from.min(to);
    let part = path.part(alloc, from, to)?;
    if place == 0 {
        return part.joined(alloc, rest);
    }
    part.joined_from(alloc, rest, place.min(rest.len()))
}

/// The text of the path that is put together so of a text's.
fn put_text(
    alloc: Global,
    text: &[u8],
    from: usize,
    to: usize,
    place: usize,
) -> Result<Vec<u8>, Fail> {
    let path = read_path(alloc, text)?;
    Ok(write_path(alloc, &put_together(alloc, &path, from, to, &path, place)?)?)
}

/// Three places, and the text of what is put together by them of the path `/a\x2fb/c`.
const JOINED: [(usize, usize, usize, &[u8]); 4] = [
    (1, 2, 0, b"/c/a\\x2fb/c"),
    (1, 2, 1, b"/c/c"),
    (0, 2, 2, b"/a\\x2fb/c"),
    (2, 2, 1, b"/c"),
];

#[test]
fn takes_and_joins_labels(rt: HostRuntime) -> Result<(), Fail> {
    for (from, to, place, want) in &JOINED {
        assert_told(
            &rt,
            put_text(rt.alloc(), b" /a\\x2Fb/c ", *from, *to, *place),
            want,
        )?;
    }
    Ok(())
}

/// The labels of the path of a text, each with a space.
fn labels_of(alloc: Global, text: &[u8]) -> Result<Vec<u8>, Fail> {
    let path = read_path(alloc, text)?;
    let mut labels = Vec::new(alloc);
    for at in 0..path.len() {
        labels.extend_from_slice(path.label(at))?;
        labels.push(b' ')?;
    }
    Ok(labels)
}

/// Whether the paths of two texts are the same.
fn are_same_paths(alloc: Global, text: &[u8], other: &[u8]) -> Result<bool, Fail> {
    Ok(read_path(alloc, text)?.same(&read_path(alloc, other)?))
}

#[test]
fn tells_labels(rt: HostRuntime) -> Result<(), Fail> {
    assert_told(&rt, labels_of(rt.alloc(), b" /a\\x2Fb/c "), b"a/b c ")
}

/// Paths, and whether they are the same as `/\x61/c`.
const PATHS: [(&[u8], bool); 4] = [
    (b"/a/c", true),
    (b"/a", false),
    (b"/a/c/c", false),
    (b"/a/d", false),
];

#[test]
fn compares_labels(rt: HostRuntime) -> Result<(), Fail> {
    for (text, want) in &PATHS {
        let is_same = are_same_paths(rt.alloc(), b"/\\x61/c", text)?;
        assert!(rt; is_same == *want, "{text:?}");
    }
    Ok(())
}

/// Whether the path of a text has so many labels, and is written as it was read.
fn is_path_kept(alloc: Global, text: &[u8], count: usize) -> Result<bool, Fail> {
    let path = read_path(alloc, text)?;
    let is_whole = path.len() == count;
    let written = write_path(alloc, &path);
    drop(path);
    Ok(written?.as_slice() == text && is_whole)
}

/// Whether the path of a text, and the tree of it and so many `~`, are written as they are read.
fn are_kept(alloc: Global, text: &mut Vec<u8>, count: usize) -> Result<bool, Fail> {
    let is_path_kept = is_path_kept(alloc, text.as_slice(), count)?;
    append_repeated(" | ~", count, text)?;
    Ok(tree_text(alloc, text.as_slice())?.as_slice() == text.as_slice() && is_path_kept)
}

/// The same of the path `/a/a` and so on.
fn are_written_as_read(alloc: Global, count: usize) -> Result<bool, Fail> {
    let mut text = repeated(alloc, "", "/a", count, "")?;
    let are_kept = are_kept(alloc, &mut text, count);
    drop(text);
    are_kept
}

/// Lengths between the limits.
const MIDDLE: [usize; 5] = [3, 31, 617, 700, 4_999];

/// Texts of such lengths are read, and written as they were.
#[test]
fn reads_middle_lengths(rt: HostRuntime) -> Result<(), Fail> {
    for count in &MIDDLE {
        assert!(rt; are_written_as_read(rt.alloc(), *count)?, "{count}");
    }
    Ok(())
}

/// Texts of trees, as they are written.
const TREES: [&[u8]; 14] = [
    b"/",
    b"/a",
    b"/b",
    b"/a/b",
    b"~",
    b"!",
    b"$",
    b"/a | ~",
    b"~ | /a",
    b"/a | ~ | ~",
    b"1 * /a & 2 * ~",
    b"2 * /a & 2 * ~",
    b"1 * /a & 2 * $",
    b"1 * /a",
];

/// The text of a copy of a text's tree.
fn copy_text(alloc: Global, text: &[u8]) -> Result<Vec<u8>, Fail> {
    let tree = read_tree(alloc, text)?;
    let copy = tree.copied(alloc);
    drop(tree);
    Ok(text_of(alloc, copy?)?)
}

/// Whether the tree of a text is the same as another.
fn is_tree(alloc: Global, text: &[u8], other: &Tree) -> Result<bool, Fail> {
    let tree = read_tree(alloc, text)?;
    let is_same = tree.same(other);
    drop(tree);
    Ok(is_same)
}

/// Whether the trees of two texts are the same.
fn are_same_trees(alloc: Global, text: &[u8], other: &[u8]) -> Result<bool, Fail> {
    let other = read_tree(alloc, other)?;
    let is_same = is_tree(alloc, text, &other);
    drop(other);
    is_same
}

/// A tree is the same as its copy, and as no other of these.
#[test]
fn copies_and_compares_trees(rt: HostRuntime) -> Result<(), Fail> {
    for text in &TREES {
        assert_told(&rt, copy_text(rt.alloc(), text), text)?;
        for other in &TREES {
            let is_same = are_same_trees(rt.alloc(), text, other)?;
            assert!(rt; is_same == (*text == *other), "{text:?} {other:?}");
        }
    }
    Ok(())
}

/// The text of a tree with a path from its second label on behind each leaf.
fn rest_text(alloc: Global, tree: &[u8], path: &[u8]) -> Result<Vec<u8>, Fail> {
    let path = read_path(alloc, path)?;
    let tree = read_tree(alloc, tree)?;
    let longer = tree.with_rest(alloc, &path, path.len().min(1));
    drop(path);
    drop(tree);
    Ok(text_of(alloc, longer?)?)
}

#[test]
fn puts_the_rest_behind_every_leaf(rt: HostRuntime) -> Result<(), Fail> {
    let tree = b"/a | ~ | 2*(! | /b) & 0*/c | $ | /";
    let want = b"/a/y/z | ~ | 2 * (! | /b/y/z) & 0 * /c/y/z | $ | /y/z";
    assert_told(&rt, rest_text(rt.alloc(), tree, b"/x/y/z"), want)
}
