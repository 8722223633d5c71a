//! Paths whose labels end past 65,535 bytes, their parts, and labels that are put behind these.

use crate::told::assert_told;
use name_tree::{Mem, Path};
use std::alloc::Global;
use std::test::Fail;
use text_parts::append_number;

/// Labels: a byte, and how often it stands there.
type Labels<'a> = &'a [(u8, usize)];

/// Puts a label behind a path, unless it is empty.
fn push(alloc: Global, path: &mut Path, byte: u8, count: usize) -> Mem<()> {
    let label = vec![in alloc; byte; count]?;
    if label.is_empty() {
        return Ok(());
    }
    path.push(label)
}

/// The path of some labels.
fn path_of(alloc: Global, labels: Labels<'_>) -> Mem<Path> {
    let mut path = Path::new(alloc);
    for (byte, count) in labels {
        push(alloc, &mut path, *byte, *count)?;
    }
    Ok(path)
}

/// Puts a label behind a text: its first byte, how many it has, its last byte and a space.
fn put_label(label: &[u8], text: &mut Vec<u8>) -> Mem<()> {
    text.extend_from_slice(&label[..label.len().min(1)])?;
    append_number(label.len() as u64, text)?;
    text.extend_from_slice(&label[label.len().saturating_sub(1)..])?;
    Ok(text.push(b' ')?)
}

/// Puts each label of a path behind a text so, and `;`.
fn put_labels(path: &Path, text: &mut Vec<u8>) -> Mem<()> {
    for at in 0..path.len() {
        put_label(path.label(at), text)?;
    }
    Ok(text.push(b';')?)
}

/// Puts the labels of a part of a path behind a text, with `/z` behind them.
fn put_part(alloc: Global, path: &Path, from: usize, to: usize, text: &mut Vec<u8>) -> Mem<()> {
    let to = to.min(path.len());
    let mut part = path.part(alloc, from.min(to), to)?;
    push(alloc, &mut part, b'z', 1)?;
    let put = put_labels(&part, text);
    drop(part);
    put
}

/// Parts of a path, from one label to before another.
type Parts = &'static [(usize, usize)];

/// Puts the labels of these parts behind a text, and those of the whole path behind them.
fn put_parts(alloc: Global, path: &Path, parts: Parts, text: &mut Vec<u8>) -> Mem<()> {
    for (from, to) in parts {
        put_part(alloc, path, *from, *to, text)?;
    }
    put_labels(path, text)
}

/// The labels of these parts of the path of some labels, and then those of the whole path.
fn parts_text(alloc: Global, labels: Labels<'_>, parts: Parts) -> Result<Vec<u8>, Fail> {
    let path = path_of(alloc, labels)?;
    let mut text = Vec::new(alloc);
    let put = put_parts(alloc, &path, parts, &mut text);
    drop(path);
    put?;
    Ok(text)
}

/// Labels that end at 65,534 bytes, at 65,535 and past these.
const LONG: Labels<'static> = &[(b'a', 65_534), (b'b', 1), (b'c', 1), (b'd', 2)];

const LONG_PARTS: Parts = &[(0, 4), (0, 2), (1, 3), (2, 4)];

const LONG_TEXT: &[u8] = b"a65534a b1b c1c d2d z1z ;a65534a b1b z1z ;b1b c1c z1z ;c1c d2d z1z ;\
    a65534a b1b c1c d2d ;";

/// Labels that all end past 65,535 bytes.
const LONGER: Labels<'static> = &[(b'a', 65_536), (b'b', 3)];

const LONGER_PARTS: Parts = &[(1, 2), (0, 0)];

const LONGER_TEXT: &[u8] = b"b3b z1z ;z1z ;a65536a b3b ;";

#[test]
fn counts_bytes_past_65_535(rt: HostRuntime) -> Result<(), Fail> {
    assert_told(&rt, parts_text(rt.alloc(), LONG, LONG_PARTS), LONG_TEXT)?;
    assert_told(
        &rt,
        parts_text(rt.alloc(), LONGER, LONGER_PARTS),
        LONGER_TEXT,
    )
}
