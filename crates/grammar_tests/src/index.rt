//! Prefixes that match, and those that do not.

use dtab_index::{Index, Mem};
use name_tree::read_path;
use std::alloc::{AllocError, Global};
use std::test::Fail;

/// What a label of a prefix stands for: `*` for any label.
fn pattern(alloc: Global, label: &str) -> Mem<Option<Vec<u8>>> {
    if label == "*" {
        return Ok(None);
    }
    Ok(Some(Vec::from_slice(alloc, label.as_bytes())?))
}

/// The prefix of these labels.
fn prefix(alloc: Global, labels: &[&str]) -> Mem<Vec<Option<Vec<u8>>>> {
    let mut prefix = Vec::new(alloc);
    for label in labels {
        prefix.push(pattern(alloc, label)?)?;
    }
    Ok(prefix)
}

/// The prefixes `/a`, `/*`, `/a/b`, `/*/b` and `/`, at the positions in which they stand here.
const ADDED: [&[&str]; 5] = [&["a"], &["*"], &["a", "b"], &["*", "b"], &[]];

/// The index of these prefixes.
fn five(alloc: Global) -> Mem<Index> {
    let mut index = Index::new(alloc);
    for at in 0..5u32 {
        index.add(prefix(alloc, ADDED[at as usize])?, at)?;
    }
    Ok(index)
}

/// The positions of the prefixes that match a path.
fn found(alloc: Global, index: &Index, text: &[u8]) -> Mem<Vec<u32>> {
    let Ok(path) = read_path(alloc, text) else {
        return Err(AllocError);
    };
    index.matching(alloc, &path)
}

/// A path, and the positions of the prefixes that match it.
type Found = (&'static [u8], &'static [u32]);

/// The first of some paths that others match.
fn first_wrong(alloc: Global, index: &Index, rows: &[Found]) -> Mem<Option<usize>> {
    for (at, (text, want)) in rows.iter().enumerate() {
        if found(alloc, index, text)?.as_slice() != *want {
            return Ok(Some(at));
        }
    }
    Ok(None)
}

const FOUND: [Found; 4] = [
    (b"/a/b/c", &[4, 3, 2, 1, 0]),
    (b"/a", &[4, 1, 0]),
    (b"/c/b", &[4, 3, 1]),
    (b"/", &[4]),
];

#[test]
fn gives_the_greatest_first(rt: HostRuntime) -> Result<(), Fail> {
    let index = five(rt.alloc())?;
    let wrong = first_wrong(rt.alloc(), &index, &FOUND);
    drop(index);
    assert_eq!(rt; wrong?, None);
    Ok(())
}

/// The prefix `/svc/s` with a number of so many behind it.
fn numbered(alloc: Global, number: u32) -> Mem<Vec<Option<Vec<u8>>>> {
    let label = format!(in alloc; "s{number}")?;
    let prefix = prefix(alloc, &["svc", label.as_str()]);
    drop(label);
    prefix
}

/// The index of three thousand such prefixes.
fn thousands(alloc: Global) -> Mem<Index> {
    let mut index = Index::new(alloc);
    for at in 0..3000u32 {
        index.add(numbered(alloc, at)?, at)?;
    }
    Ok(index)
}

/// The positions of the prefixes that match the path `/svc/s` with a number and one more label
/// behind it.
fn found_behind(alloc: Global, index: &Index, number: u32) -> Mem<Vec<u32>> {
    let text = format!(in alloc; "/svc/s{number}/x")?;
    let found = found(alloc, index, text.as_bytes());
    drop(text);
    found
}

/// The first of the three thousand numbers whose path does not find its own prefix alone.
fn first_lost(alloc: Global, index: &Index) -> Mem<Option<u32>> {
    for at in 0..3000u32 {
        if found_behind(alloc, index, at)?.as_slice() != [at].as_slice() {
            return Ok(Some(at));
        }
    }
    Ok(None)
}

/// Paths that none of the three thousand match.
const ABSENT: [Found; 2] = [(b"/svc", &[]), (b"/svc/s3000/x", &[])];

#[test]
fn finds_one_of_thousands(rt: HostRuntime) -> Result<(), Fail> {
    let index = thousands(rt.alloc())?;
    let lost = first_lost(rt.alloc(), &index);
    let wrong = first_wrong(rt.alloc(), &index, &ABSENT);
    drop(index);
    assert_eq!(rt; lost?, None);
    assert_eq!(rt; wrong?, None);
    Ok(())
}
