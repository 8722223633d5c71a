//! Labels in one piece.
ghost use Rattle.std.specs.Prelude.{◌≡◌, ◌<◌, ◌≤◌, ◌-◌, ◌+◌, [], ◌∷◌, ◌++◌, length, take, drop};
ghost use Rattle.std.specs.Prelude.{IfOk, OnOk, OnErr, Some, slice_get};
ghost use Rattle.std.specs.List.{concat};

use crate::Mem;
use crate::label_ends::LabelEnds;
use std::alloc::{AllocError, Global};
use std::marker::Model;

/// A list of labels, each of one or more bytes.
///
/// Contracts see the list. The bytes of the labels stand in one buffer, and their ends in another,
/// so that a copy takes two pieces of memory, however many labels there are.
#[derive(Debug)]
pub(crate) struct FlatLabels {
    bytes: Vec<u8>,
    /// How many bytes there are up to the end of each label.
    ends: LabelEnds,
}

impl Drop for FlatLabels {
    fn drop(self) {
        let FlatLabels { bytes, ends } = self;
        drop(bytes);
        drop(ends);
    }
}

impl Model for FlatLabels {
    ghost use Rattle.std.specs.Prelude.{List, ℕ};

    ghost Value = { List (List ℕ) };

    ghost use Rattle.name_tree.specs.FlatPath.{labels_in, AreCut};

    ghost view = { λ l. labels_in 0 l.ends l.bytes.items };

    ghost invariant = { λ l. AreCut 0 l.ends l.bytes.items };
}

impl FlatLabels {
    /// No label, with room for so many labels and bytes.
    pub(crate) fn with_room(alloc: Global, labels: usize, bytes: usize) -> Mem<FlatLabels>
        ensures { IfOk result (λ all. all ≡ []) }
    {
        Ok(FlatLabels {
            bytes: Vec::with_capacity(alloc, bytes)?,
            ends: LabelEnds::with_room(alloc, labels)?,
        })
    }

    /// How many labels there are.
    pub(crate) fn len(&self) -> usize
        ensures { result ≡ length self.now }
    {
        self.ends.len()
    }

    /// The label at a place, counted from 0.
    pub(crate) fn label(&self, at: usize) -> &[u8]
        requires { at < length self.now }
        ensures { slice_get self.now at ≡ Some result.now }
    {
        let start = self.ends.start(at);
        let end = self.ends.end(at);
        &self.bytes[start as usize..end as usize]
    }

    /// How many bytes the labels from one place to before another have.
    pub(crate) fn bytes_between(&self, from: usize, to: usize) -> usize
        requires order { from ≤ to }
        requires within { to ≤ length self.now }
        ensures { result ≡ length (concat (take (to - from) (drop from self.now))) }
    {
        (self.ends.start(to) - self.ends.start(from)) as usize
    }

    /// Puts a label behind the others. An `Err` changes nothing.
    pub(crate) fn push(&mut self, label: &[u8]) -> Mem<()>
        requires { 0 < length label.now }
        ensures ok { OnOk result (self.new ≡ self.old ++ label.now ∷ []) }
        ensures err { OnErr result (self.new ≡ self.old) }
    {
        let start = self.ends.start(self.ends.len());
        let end = end_of(start, label.len())?;
        self.bytes.extend_from_slice(label)?;
        match self.ends.push(end) {
            Ok(()) => Ok(()),
            Err(error) => {
                self.bytes.truncate(start as usize);
                Err(error)
            }
        }
    }

    /// These labels, and then those of others from one place to before another, counted from 0.
    pub(crate) fn with(self, others: &FlatLabels, from: usize, to: usize) -> Mem<FlatLabels>
        requires order { from ≤ to }
        requires within { to ≤ length others.now }
        ensures { IfOk result (λ all. all ≡ self ++ take (to - from) (drop from others.now)) }
    {
        let FlatLabels {
            mut bytes,
            mut ends,
        } = self;
        let base = ends.start(ends.len());
        let start = others.ends.start(from);
        let end = others.ends.start(to);
        bytes.extend_from_slice(&others.bytes[start as usize..end as usize])?;
        ends.put_moved(&others.ends, from, to, start, base)?;
        Ok(FlatLabels { bytes, ends })
    }

    /// The labels from one place to before another, counted from 0. It copies them.
    pub(crate) fn part(&self, alloc: Global, from: usize, to: usize) -> Mem<FlatLabels>
        requires order { from ≤ to }
        requires within { to ≤ length self.now }
        ensures { IfOk result (λ part. part ≡ take (to - from) (drop from self.now)) }
    {
        let bytes = self.bytes_between(from, to);
        FlatLabels::with_room(alloc, to - from, bytes)?.with(self, from, to)
    }
}

impl Clone for FlatLabels {
    ghost is_clone = { λ labels clone. clone ≡ labels };

    fn clone(&self) -> Mem<FlatLabels> {
        self.part(*self.bytes.allocator(), 0, self.len())
    }
}

/// Where a label of so many bytes ends. Labels of 4 GiB find no memory.
fn end_of(start: u32, len: usize) -> Mem<u32>
    ensures { IfOk result (λ end. end ≡ start + len) }
{
    let Ok(len) = u32::try_from(len) else {
        return Err(AllocError);
    };
    start.checked_add(len).ok_or(AllocError)
}
