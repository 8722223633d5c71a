//! A path, which contracts see as the list of its labels.
ghost use Rattle.std.specs.Prelude.{◌≡◌, ◌<◌, ◌≤◌, ◌-◌, ◌+◌, ◌↔◌, [], ◌∷◌, ◌++◌, length, take};
ghost use Rattle.std.specs.Prelude.{drop, IsTrue, IfOk, OnOk, OnErr, Some, slice_get, MatchOption};
ghost use Rattle.name_tree.specs.Path.{canon_byte, canon_label, canon_path};

use crate::Mem;
use crate::flat_labels::FlatLabels;
use crate::label::is_plain_byte;
use crate::shared_labels::SharedLabels;
use std::alloc::Global;
use std::marker::Model;

/// A path: a list of labels, each one or more bytes of any value. `/` is the path with no label.
///
/// Contracts see the list of its labels. A path is the end of a list of labels that other paths may
/// share, so that what is left behind a prefix, and a copy of a whole path, take no memory: a
/// router makes many of these, and a path that somebody else wrote may be long. What shares them
/// keeps all of the labels.
#[derive(Debug)]
pub struct Path {
    /// Its labels are the last of these.
    labels: SharedLabels,
    /// How many labels it has.
    len: usize,
}

impl Drop for Path {
    fn drop(self) {
        let Path { labels, len: _ } = self;
        drop(labels);
    }
}

impl Model for Path {
    ghost use Rattle.std.specs.Prelude.{List, ℕ, ◌≤◌, ◌-◌, length, drop};

    ghost Value = { List (List ℕ) };

    ghost view = { λ p. drop (length p.labels - p.len) p.labels };

    ghost invariant = { λ p. p.len ≤ length p.labels };
}

impl Path {
    /// The path with no label, `/`. It takes no memory.
    pub fn new(_alloc: Global) -> Path
        ensures { result ≡ [] }
    {
        Path {
            labels: SharedLabels::new(),
            len: 0,
        }
    }

    /// The path of these labels.
    fn of(alloc: Global, labels: FlatLabels) -> Mem<Path>
        ensures { IfOk result (λ p. p ≡ labels) }
    {
        let len = labels.len();
        Ok(Path {
            labels: SharedLabels::of(alloc, labels)?,
            len,
        })
    }

    /// How many labels it has. The path `/svc/web` has 2.
    pub fn len(&self) -> usize
        ensures { result ≡ length self.now }
    {
        self.len
    }

    /// Its label at a place, counted from 0, without the `/` before it.
    pub fn label(&self, at: usize) -> &[u8]
        requires { at < length self.now }
        ensures { slice_get self.now at ≡ Some result.now }
    {
        let before = self.labels.len() - self.len;
        self.labels.label(before + at)
    }

    /// Whether it has no label.
    pub fn is_empty(&self) -> bool
        ensures { IsTrue result ↔ (self.now ≡ []) }
    {
        self.len() == 0
    }

    /// Whether the other one has the same labels. It takes no memory.
    pub fn same(&self, other: &Path) -> bool
        ensures { IsTrue result ↔ (self.now ≡ other.now) }
    {
        if self.len() != other.len() {
            return false;
        }
        for at in 0..self.len() {
            if self.label(at) != other.label(at) {
                return false;
            }
        }
        true
    }

    /// Puts a label behind the others. An `Err` changes nothing. Where other paths share its
    /// labels, it copies them first.
    pub fn push(&mut self, label: Vec<u8>) -> Mem<()>
        requires { 0 < length label.items }
        ensures ok { OnOk result (self.new ≡ self.old ++ label.items ∷ []) }
        ensures err { OnErr result (self.new ≡ self.old) }
    {
        let alloc = *label.allocator();
        let all = self.labels.len();
        if self.len == all {
            self.labels.push(alloc, label.as_slice())?;
            self.len = self.labels.len();
            return Ok(());
        }
        let mut labels = self.labels.part(alloc, all - self.len, all)?;
        labels.push(label.as_slice())?;
        *self = Path::of(alloc, labels)?;
        Ok(())
    }

    /// The labels from one place to before another, counted from 0. Up to the last label it shares
    /// them and takes no memory; fewer it copies.
    pub fn part(&self, alloc: Global, from: usize, to: usize) -> Mem<Path>
        requires order { from ≤ to }
        requires within { to ≤ length self.now }
        ensures { IfOk result (λ p. p ≡ take (to - from) (drop from self.now)) }
    {
        if from == to {
            return Ok(Path::new(alloc));
        }
        if to == self.len() {
            return Ok(Path {
                labels: self.labels.copied()?,
                len: to - from,
            });
        }
        let before = self.labels.len() - self.len;
        let part = self.labels.part(alloc, before + from, before + to)?;
        Path::of(alloc, part)
    }

    /// The labels of this path, and then those of the other. It copies them, unless one of the two
    /// has none.
    pub fn joined(&self, alloc: Global, rest: &Path) -> Mem<Path>
        ensures { IfOk result (λ p. p ≡ self.now ++ rest.now) }
    {
        self.joined_from(alloc, rest, 0)
    }

    /// The labels of this path, and then those of the other from a place on, counted from 0. It
    /// copies them, unless one of the two gives none: then it shares those of the other.
    pub fn joined_from(&self, alloc: Global, rest: &Path, from: usize) -> Mem<Path>
        requires { from ≤ length rest.now }
        ensures { IfOk result (λ p. p ≡ self.now ++ drop from rest.now) }
    {
        if from == rest.len() {
            return self.part(alloc, 0, self.len());
        }
        if self.is_empty() {
            return rest.part(alloc, from, rest.len());
        }
        Path::of(alloc, joined_labels(alloc, self, rest, from)?)
    }

    /// Whether the canonical text has at most so many bytes. It takes no memory and makes no text,
    /// and looks at no more bytes of the labels than that: at none where all of them might be
    /// escapes and fit.
    pub fn text_fits(&self, most: usize) -> bool
        ensures { IsTrue result ↔ (length (canon_path self.now) ≤ most) }
    {
        if self.surely_fits(most) {
            return true;
        }
        self.fits_by_bytes(most)
    }

    /// Whether the canonical text would have at most so many bytes if each byte of a label were an
    /// escape of four.
    fn surely_fits(&self, most: usize) -> bool
        ensures { IsTrue result → length (canon_path self.now) ≤ most }
    {
        let first = self.labels.len() - self.len;
        match self.labels.bytes_from(first).checked_mul(4) {
            Some(escaped) => escaped < most && self.len < most - escaped,
            None => false,
        }
    }

    /// Whether the canonical text has at most so many bytes. It looks at each byte, as far as they
    /// fit.
    fn fits_by_bytes(&self, most: usize) -> bool
        ensures { IsTrue result ↔ (length (canon_path self.now) ≤ most) }
    {
        if self.is_empty() {
            return most >= 1;
        }
        let mut left = most;
        for at in 0..self.len() {
            match left_after(self.label(at), left) {
                Some(rest) => left = rest,
                None => return false,
            }
        }
        true
    }
}

/// A copy of the labels of a path, and then of those of another from a place on, counted from 0.
fn joined_labels(alloc: Global, path: &Path, rest: &Path, from: usize) -> Mem<FlatLabels>
    requires { from ≤ length rest.now }
    ensures { IfOk result (λ all. all ≡ path.now ++ drop from rest.now) }
{
    let first = path.labels.len() - path.len;
    let from = rest.labels.len() - rest.len + from;
    let count = path.len.saturating_add(rest.labels.len() - from);
    let bytes = path
        .labels
        .bytes_from(first)
        .saturating_add(rest.labels.bytes_from(from));
    let all = FlatLabels::with_room(alloc, count, bytes)?;
    rest.labels.behind(path.labels.behind(all, first)?, from)
}

/// How many bytes a byte of a label has in a canonical text: 1, or 4 for an escape.
fn text_len(byte: u8) -> usize
    ensures { result ≡ length (canon_byte byte) }
{
    if is_plain_byte(byte) { 1 } else { 4 }
}

/// How many of so many bytes are left behind the canonical text of a label, unless there are too
/// few for it.
fn left_after(label: &[u8], most: usize) -> Option<usize>
    ensures { MatchOption result (most < length (canon_label label.now))
        (λ left. left + length (canon_label label.now) ≡ most) }
{
    if most == 0 {
        return None;
    }
    let mut left = most - 1;
    for b in label {
        let len = text_len(*b);
        if left < len {
            return None;
        }
        left -= len;
    }
    Some(left)
}
