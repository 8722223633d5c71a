//! Labels that several paths share.
ghost use Rattle.std.specs.Prelude.{◌≡◌, ◌<◌, ◌≤◌, ◌-◌, [], ◌∷◌, ◌++◌, length, take, drop, IfOk};
ghost use Rattle.std.specs.Prelude.{OnOk, OnErr, Some, slice_get};
ghost use Rattle.std.specs.List.{concat};

use crate::Mem;
use crate::flat_labels::FlatLabels;
use std::alloc::Global;
use std::marker::Model;
use std::sync::Arc;

/// Labels that several paths share: a copy of them is a count.
///
/// Contracts see the list of the labels. They never change for one who holds them because another
/// one puts a label behind its own: that one gets a copy first.
#[derive(Debug)]
pub(crate) struct SharedLabels {
    /// `None` stands for no label.
    labels: Option<Arc<FlatLabels>>,
}

impl Drop for SharedLabels {
    fn drop(self) {
        let SharedLabels { labels } = self;
        drop(labels);
    }
}

impl Model for SharedLabels {
    ghost use Rattle.std.specs.Prelude.{List, ℕ};

    ghost Value = { List (List ℕ) };

    ghost use Rattle.name_tree.specs.SharedPath.{shared_labels};

    ghost view = { λ s. shared_labels s.labels };
}

impl SharedLabels {
    /// No label. It takes no memory.
    pub(crate) fn new() -> SharedLabels
        ensures { result ≡ [] }
    {
        SharedLabels { labels: None }
    }

    /// These labels, which nobody shares yet.
    pub(crate) fn of(alloc: Global, labels: FlatLabels) -> Mem<SharedLabels>
        ensures { IfOk result (λ shared. shared ≡ labels) }
    {
        Ok(SharedLabels {
            labels: Some(Arc::new(alloc, labels)?),
        })
    }

    /// How many labels there are.
    pub(crate) fn len(&self) -> usize
        ensures { result ≡ length self.now }
    {
        match &self.labels {
            Some(labels) => labels.len(),
            None => 0,
        }
    }

    /// The label at a place, counted from 0.
    pub(crate) fn label(&self, at: usize) -> &[u8]
        requires { at < length self.now }
        ensures { slice_get self.now at ≡ Some result.now }
    {
        match &self.labels {
            Some(labels) => labels.label(at),
            None => &[],
        }
    }

    /// The same labels once more. The two share them, and no memory is taken.
    pub(crate) fn copied(&self) -> Mem<SharedLabels>
        ensures { IfOk result (λ copy. copy ≡ self.now) }
    {
        match &self.labels {
            Some(labels) => Ok(SharedLabels {
                labels: Some(Arc::try_clone(labels)?),
            }),
            None => Ok(SharedLabels { labels: None }),
        }
    }

    /// How many bytes the labels from a place on have.
    pub(crate) fn bytes_from(&self, from: usize) -> usize
        requires { from ≤ length self.now }
        ensures { result ≡ length (concat (drop from self.now)) }
    {
        match &self.labels {
            Some(labels) => labels.bytes_between(from, labels.len()),
            None => 0,
        }
    }

    /// The labels from one place to before another, counted from 0. It copies them.
    pub(crate) fn part(&self, alloc: Global, from: usize, to: usize) -> Mem<FlatLabels>
        requires order { from ≤ to }
        requires within { to ≤ length self.now }
        ensures { IfOk result (λ part. part ≡ take (to - from) (drop from self.now)) }
    {
        match &self.labels {
            Some(labels) => labels.part(alloc, from, to),
            None => FlatLabels::with_room(alloc, 0, 0),
        }
    }

    /// Some labels, and then these from a place on, counted from 0. It copies these.
    pub(crate) fn behind(&self, front: FlatLabels, from: usize) -> Mem<FlatLabels>
        requires { from ≤ length self.now }
        ensures { IfOk result (λ all. all ≡ front ++ drop from self.now) }
    {
        match &self.labels {
            Some(labels) => front.with(labels, from, labels.len()),
            None => Ok(front),
        }
    }

    /// Puts a label behind the others. Where another one shares them, it copies them first. An
    /// `Err` changes nothing.
    pub(crate) fn push(&mut self, alloc: Global, label: &[u8]) -> Mem<()>
        requires { 0 < length label.now }
        ensures ok { OnOk result (self.new ≡ self.old ++ label.now ∷ []) }
        ensures err { OnErr result (self.new ≡ self.old) }
    {
        match &mut self.labels {
            Some(labels) => Arc::make_mut(labels)?.push(label),
            None => {
                let mut labels = FlatLabels::with_room(alloc, 0, 0)?;
                labels.push(label)?;
                self.labels = Some(Arc::new(alloc, labels)?);
                Ok(())
            }
        }
    }
}
