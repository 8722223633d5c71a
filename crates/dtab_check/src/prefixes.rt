//! Prefixes as an index takes them.
ghost use Rattle.std.specs.Prelude.{◌≡◌, ◌↔◌, ◌<◌, length, IsTrue, IfOk};
ghost use Rattle.dtab_index.specs.Prefix.{pattern_of as indexed_pattern, patterns_of as indexed};
ghost use Rattle.dtab_table.specs.Pattern.{pattern_of};

use crate::Mem;
use crate::covers::is_cover;
use dtab_table::{Prefix, PrefixLabel};
use name_tree::Path;
use std::alloc::Global;

/// The labels of a prefix, where `None` is `*`.
pub(crate) fn patterns_of(alloc: Global, prefix: &Prefix) -> Mem<Vec<Option<Vec<u8>>>>
    ensures { IfOk result (λ patterns. indexed patterns.items ≡ prefix.now) }
{
    let labels = prefix.labels();
    let mut patterns = Vec::with_capacity(alloc, labels.len())?;
    for label in labels {
        patterns.push(pattern(alloc, label)?)?;
    }
    Ok(patterns)
}

/// A label of a prefix, where `None` is `*`.
fn pattern(alloc: Global, label: &PrefixLabel) -> Mem<Option<Vec<u8>>>
    ensures { IfOk result (λ pattern. indexed_pattern pattern ≡ pattern_of label.now) }
{
    match label {
        PrefixLabel::Star => Ok(None),
        PrefixLabel::Label(label) => Ok(Some(Vec::from_slice(alloc, label.as_slice())?)),
    }
}

/// A path that a prefix matches, and with it each prefix that is the same: its labels, and some
/// label in the place of each `*`.
pub(crate) fn matched_path(alloc: Global, prefix: &Prefix) -> Mem<Path> {
    let mut path = Path::new(alloc);
    for label in prefix.labels() {
        path.push(matched_label(alloc, label)?)?;
    }
    Ok(path)
}

/// A label of a path that matches a label of a prefix, of which none is empty.
fn matched_label(alloc: Global, label: &PrefixLabel) -> Mem<Vec<u8>>
    ensures { IfOk result (λ bytes. 0 < length bytes.items) }
{
    match label {
        PrefixLabel::Label(label) if !label.is_empty() => {
            Vec::from_slice(alloc, label.as_slice())
        }
        PrefixLabel::Label(_) | PrefixLabel::Star => Vec::from_slice(alloc, b"*"),
    }
}

/// Whether two prefixes have the same labels: each covers the other.
pub(crate) fn are_same(prefix: &Prefix, other: &Prefix) -> bool
    ensures { IsTrue result ↔ (prefix.now ≡ other.now) }
{
    is_cover(other, prefix) && is_cover(prefix, other)
}
